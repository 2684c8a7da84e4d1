//! Rows one at a time.

ghost use Rattle.std.specs.Prelude.{sum_by, take, length, ◌≡◌, ◌≢◌, ◌≤◌, ◌+◌, ◌-◌, ◌/◌, ◌<◌, ◌^◌, ℕ, [], true, false, None};
ghost use Rattle.std.specs.Prelude.{Some, Err, IfOk, OnOk};
ghost use Rattle.std.specs.Prelude.{OnErr, IsOkUnless, Result, is_some, max, ◌*◌};
ghost use Rattle.fax_bits.specs.Bits.{BitsFit, bits_in, here};
ghost use Rattle.fax_reading.specs.Context.{fresh};
ghost use Rattle.fax_reading.specs.Rows.{changes};
ghost use Rattle.fax_reading.specs.Damage.{repairs_by_line, cuts_by_line, misses_by_line};
ghost use Rattle.fax_reading.specs.PlainReading.{line_here};
ghost use Rattle.fax_lines.specs.ContextSteps.{ExpectsNoEols, GrowsFor, GrowsForBits};
ghost use Rattle.fax_reading.specs.Space.{most_room, most_stored};
ghost use Rattle.fax_reading.specs.Work.{CountsWork};
ghost use Rattle.fax_rows.specs.RowsRead.{start_after, ReaderStands, IsPaid};
ghost use Rattle.fax_reading.specs.Decoding.{damage_since, cut_since, missed_since};
ghost use Rattle.fax_rows.specs.RowsRead.{ReachesNextLine};
ghost use Rattle.fax_rows.specs.RowsRead.{stand_after, line_after, is_at_line, at_end_of_rows, ended, seen, IsStanding};
ghost use Rattle.fax_reading.specs.PlainReading.{failed_at};
ghost use Rattle.fax_rows.specs.RowsTried.{PassesGapHere, StandsAlone, StandsFirst, TakesNone, rows_after_line};
ghost use Rattle.fax_rows.specs.RowsRead.{IsStandingAtLine, DamageIsCounted, ReadsNext, gaps_passed, row_came};

use crate::counts::take_rows_again;
use crate::group3::read_leading_eols;
use crate::rows::{pass_gap, read_row};
use fax_bits::bit_reader::{BitOrder, BitReader, bit_len};
use fax_bits::{DecodeError, DecodeSettings, EncodingMode, Result};
use fax_lines::context::row_record::row_record;
use fax_lines::context::{DecoderContext, begin_line, reference_row};
use std::alloc::Global;
use std::marker::Model;

/// Where a reader of rows is.
#[derive(Copy, Clone)]
pub enum Stand {
    /// At the first bit of a line.
    AtLine,
    /// After a row, at the gap before the next line.
    AfterRow,
    /// At the end of the image.
    AtEnd,
    /// After an error.
    AtFault(DecodeError),
}

/// Returns the state after a gap.
fn stand_after_gap(over: Result<bool>) -> Stand
    ensures { result ≡ stand_after over }
{
    match over {
        Ok(true) => Stand::AtEnd,
        Ok(false) => Stand::AtLine,
        Err(error) => Stand::AtFault(error),
    }
}

/// Returns where the line of the last row begins, or after a faulty gap, the offset of that gap.
fn start_after_gap(over: Result<bool>, place: usize, before: usize) -> usize
    ensures { result ≡ start_after over place before }
{
    match over {
        Ok(_) => before,
        Err(_) => place,
    }
}

/// Returns whether a line follows a gap.
fn line_after_gap(over: Result<bool>) -> Result<bool>
    ensures { result ≡ line_after over }
{
    match over {
        Ok(over) => Ok(!over),
        Err(error) => Err(error),
    }
}

/// Returns the fault of the last row, if it was repaired: if more rows are repaired now than before it.
fn damage_since(ctx: &DecoderContext, damaged_rows: u64) -> Option<DecodeError>
    ensures { result ≡ damage_since ctx.now.held.repairs damaged_rows }
{
    if ctx.damaged_rows() == damaged_rows {
        return None;
    }
    Some(row_record(ctx).last_fault)
}

/// Returns whether a run of the last row was cut: whether runs are cut in more rows now than before it.
#[inline(always)]
fn cut_since(ctx: &DecoderContext, cut_rows: u64) -> bool
    ensures { result ≡ cut_since ctx.now.held.repairs cut_rows }
{
    ctx.cut_rows() != cut_rows
}

/// Returns the offset of a gap if its EOL was missed: if more EOLs are missed now than before it.
pub(crate) fn missed_since(
    ctx: &DecoderContext,
    missed_eols: u64,
    gap_start: usize,
) -> Option<usize>
    ensures { result ≡ missed_since ctx.now.held.repairs missed_eols gap_start }
{
    if ctx.missed_eols() == missed_eols {
        return None;
    }
    Some(gap_start)
}

/// Returns whether there is a line here.
pub fn is_at_line(stand: Stand) -> bool
    ensures { result ≡ is_at_line stand }
{
    matches!(&stand, Stand::AtLine)
}

/// Returns whether the reading has ended, well or with an error.
pub fn has_ended(stand: Stand) -> bool
    ensures { result ≡ is_some (ended stand) }
{
    matches!(&stand, Stand::AtEnd | Stand::AtFault(_))
}

/// Passes what is before the first line: EOFB in Group 4, EOLs in Group 3 (T.6, 2.4.1.1, T.4, 4.1.2).
pub fn first_stand(ctx: &mut DecoderContext, reader: &mut BitReader<'_>) -> Stand
    requires fresh { ctx.old.held ≡ fresh ctx.old.held.settings }
    requires start { reader.old.place ≡ 0 }
    ensures alone { StandsAlone result ctx.old ctx.new reader.old.bits reader.new.place }
    ensures first { StandsFirst result ctx.old ctx.new reader.old reader.new }
    ensures takes_none { TakesNone ctx.old ctx.new reader.old reader.new }
    ensures unfailed { (error : DecodeError) → ended result ≢ Some (Err error) }
    ensures at_line { is_some (ended result) ≡ false → is_at_line result ≡ true }
    ensures no_eols { ExpectsNoEols ctx.old ctx.new }
{
    // An offset is known to be within the data once it is read.
    let _start = reader.bit_pos();
    if ctx.settings().columns == 0 {
        return Stand::AtEnd;
    }
    match ctx.settings().encoding {
        EncodingMode::Group4 => {
            let over = pass_gap(ctx, reader);
            let _place = reader.bit_pos();
            stand_after_gap(over)
        }
        EncodingMode::Group3_1D | EncodingMode::Group3_2D => {
            read_leading_eols(ctx, reader);
            let _place = reader.bit_pos();
            Stand::AtLine
        }
    }
}

/// Returns whether these bits have room for as many rows as were read. If not, the rows were read from other data.
fn has_room(ctx: &DecoderContext, reader: &BitReader<'_>) -> bool
    ensures rows { result ≡ true → ctx.now.held.taken ≤ length reader.now.bits + 1 }
    ensures damaged { result ≡ true → ctx.now.held.repairs.rows ≤ ctx.now.held.taken }
    ensures room { ctx.now.held.taken ≤ length reader.now.bits + 1
        → ctx.now.held.repairs.rows ≤ ctx.now.held.taken → result ≡ true }
{
    let rows = ctx.decoded_rows();
    rows <= bit_len(reader) as u64 + 1 && ctx.damaged_rows() <= rows
}

/// What a reading keeps between two rows, besides its context and the bits.
#[derive(Drop)]
pub struct RowState {
    pub started_at: usize,
    pub damage: Option<DecodeError>,
    pub cut: bool,
    pub missed: Option<usize>,
    pub stand: Stand,
}

impl RowState {
    /// Creates the state before the first row, where what is before it was passed.
    pub fn new(stand: Stand) -> RowState
        ensures { result ≡ record { started_at = 0; damage = None; cut = false; missed = None; stand = stand } }
    {
        RowState {
            started_at: 0,
            damage: None,
            cut: false,
            missed: None,
            stand,
        }
    }

    /// Passes the gap here, which begins at this offset of the data, and returns whether there is a line after it.
    #[inline(always)]
    pub fn pass_gap_here(
        &mut self,
        ctx: &mut DecoderContext,
        reader: &mut BitReader<'_>,
        gap_start: usize,
    ) -> Result<bool>
        ensures { PassesGapHere gap_start self.old self.new ctx.old ctx.new reader.old reader.new result }
    {
        // An offset is known to be within the data once it is read.
        let _start = reader.bit_pos();
        let missed_eols = ctx.missed_eols();
        let over = pass_gap(ctx, reader);
        let _end = reader.bit_pos();
        self.missed = missed_since(ctx, missed_eols, gap_start);
        self.started_at = start_after_gap(over, gap_start, self.started_at);
        self.stand = stand_after_gap(over);
        line_after_gap(over)
    }

    /// Passes the gap before the next line, and returns whether there is a line after it.
    #[inline(always)]
    pub(crate) fn come_to_line(
        &mut self,
        ctx: &mut DecoderContext,
        reader: &mut BitReader<'_>,
    ) -> Result<bool>
        requires { ended self.old.stand ≡ None }
        ensures comes { (from : ℕ) → IsStanding from self.old ctx.old reader.old
            → ReachesNextLine (seen self.old ctx.old reader.old) (seen self.new ctx.new reader.new) result }
        ensures stands { (from : ℕ) → IsStanding from self.old ctx.old reader.old
            → IsStanding from self.new ctx.new reader.new }
        ensures settings { ctx.new.held.settings ≡ ctx.old.held.settings }
        ensures same_bits { reader.new.bits ≡ reader.old.bits }
        ensures fails { OnErr result (length reader.new.bits - length (here reader.new) ≡ self.new.started_at) }
        ensures unsought { ctx.old.held.has_eols ≡ false → ctx.new.held.has_eols ≡ false }
        ensures space { ctx.new.space ≡ ctx.old.space }
    {
        if is_at_line(self.stand) {
            return Ok(true);
        }
        let gap_start = reader.bit_pos();
        self.pass_gap_here(ctx, reader, gap_start)
    }

    /// Notes what came of the line that begins at this offset: its row, or its fault. Before it this many rows were damaged,
    /// and this many had a cut run.
    #[inline(always)]
    pub fn note_line(
        &mut self,
        ctx: &DecoderContext,
        row: &Result<()>,
        line_start: usize,
        damaged_rows: u64,
        cut_rows: u64,
    )
        ensures { self.new ≡ rows_after_line self.old row.now line_start damaged_rows cut_rows ctx.now.held.repairs }
    {
        self.started_at = line_start;
        match row {
            Ok(()) => {
                self.damage = damage_since(ctx, damaged_rows);
                self.cut = cut_since(ctx, cut_rows);
                self.stand = Stand::AfterRow;
            }
            Err(error) => {
                self.stand = Stand::AtFault(*error);
            }
        }
    }

    /// Reads the line here.
    #[inline(always)]
    pub(crate) fn read_line(
        &mut self,
        ctx: &mut DecoderContext,
        reader: &mut BitReader<'_>,
    ) -> Result<()>
        requires rows { ctx.old.held.taken ≤ length reader.old.bits + 1 }
        requires damaged { ctx.old.held.repairs.rows ≤ ctx.old.held.taken }
        requires begun { ctx.old.held.front ≡ [] }
        ensures reads { (from : ℕ) → IsStandingAtLine from self.old ctx.old reader.old
            → ReadsNext (seen self.old ctx.old reader.old) (seen self.new ctx.new reader.new) (row_came result) }
        ensures stands { (from : ℕ) → IsStandingAtLine from self.old ctx.old reader.old
            → IsStanding from self.new ctx.new reader.new }
        ensures aligned_after_row { OnOk result (self.new.stand ≡ Stand.AfterRow) }
        ensures kept { (ctx.new.held.settings ≡ ctx.old.held.settings) × (ctx.new.held.has_eols ≡ ctx.old.held.has_eols) }
        ensures same_bits { reader.new.bits ≡ reader.old.bits }
        ensures put_back { OnErr result (reader.new ≡ reader.old) }
        ensures started { (self.new.started_at ≡ reader.old.place) × (reader.old.place ≤ length reader.old.bits) }
        ensures space { GrowsFor (most_stored ctx.old.held.reference
            (line_here ctx.old.held.settings ctx.old.held.reference (here reader.old))) ctx.old.space ctx.new.space }
    {
        let line_start = reader.bit_pos();
        let damaged_rows = ctx.damaged_rows();
        let cut_rows = ctx.cut_rows();
        let row = read_row(ctx, reader);
        // An offset is known to be within the data once it is read.
        let _end = reader.bit_pos();
        self.note_line(ctx, &row, line_start, damaged_rows, cut_rows);
        row
    }

    /// Counts white rows that were read again and again, one at least. The line of the last one begins at this offset.
    #[inline(always)]
    pub(crate) fn take_white_rows(&mut self, count: u64, start: usize, ctx: &mut DecoderContext)
        requires { ctx.old.held.taken + count < 2 ^ 64 }
        ensures kept { self.new
            ≡ record { started_at = start; damage = None; cut = false; missed = None; stand = Stand.AfterRow } }
        ensures frame { ctx.new ≡ record ctx.old {
          held = record ctx.old.held { taken = ctx.old.held.taken + count };
          ticks = ctx.old.ticks + count + count;
        } }
    {
        take_rows_again(ctx, count);
        self.started_at = start;
        self.damage = None;
        self.cut = false;
        self.missed = None;
        self.stand = Stand::AfterRow;
    }

    /// Reads the next row, and returns whether there was one. It is `UnexpectedEof` if more rows were read than these bits
    /// have room for.
    #[inline(always)]
    pub(crate) fn next_row(
        &mut self,
        ctx: &mut DecoderContext,
        reader: &mut BitReader<'_>,
    ) -> Result<bool>
        requires { ended self.old.stand ≡ None }
        ensures reads { (from : ℕ) → IsStanding from self.old ctx.old reader.old
            → ReadsNext (seen self.old ctx.old reader.old) (seen self.new ctx.new reader.new) result }
        ensures stands { (from : ℕ) → IsStanding from self.old ctx.old reader.old
            → IsStanding from self.new ctx.new reader.new }
        ensures starts { (from : ℕ) → IsStanding from self.old ctx.old reader.old → result ≡ Ok true
            → self.new.started_at ≡ failed_at ctx.old.held.settings reader.old.bits ctx.old.held.taken }
        ensures after { result ≡ Ok true → self.new.stand ≡ Stand.AfterRow }
        ensures started { result ≡ Ok true → self.new.started_at ≤ length reader.old.bits }
        ensures fails { (from : ℕ) → IsStanding from self.old ctx.old reader.old
            → OnErr result (length reader.new.bits - length (here reader.new) ≡ self.new.started_at) }
        ensures settings { ctx.new.held.settings ≡ ctx.old.held.settings }
        ensures same_bits { reader.new.bits ≡ reader.old.bits }
        ensures unsought { ctx.old.held.has_eols ≡ false → ctx.new.held.has_eols ≡ false }
        ensures space { (from : ℕ) → IsStanding from self.old ctx.old reader.old
            → GrowsForBits reader.old.bits ctx.old ctx.new }
        ensures most { ctx.new.space ≤ max ctx.old.space (2 * ctx.old.held.settings.columns + 66) }
    {
        if !self.come_to_line(ctx, reader)? {
            return Ok(false);
        }
        if !has_room(ctx, reader) {
            return Err(DecodeError::UnexpectedEof);
        }
        begin_line(ctx);
        self.read_line(ctx, reader)?;
        Ok(true)
    }
}

/// Reads the rows of an image one at a time. It holds two rows in memory, however long the image is.
///
/// `decode` reads the same rows, and passes each to a sink.
///
/// # Example
///
/// ```text
/// let mut rows = RowReader::new(alloc, data, BitOrder::HighestFirst, settings)?;
/// for _ in 0..u64::MAX {
///     if !rows.next_row()? {
///         break;
///     }
///     show(rows.row());
/// }
/// ```
#[derive(Drop)]
pub struct RowReader<'a> {
    ctx: DecoderContext,
    rows: RowState,
    reader: BitReader<'a>,
}

impl<'a> Model for RowReader<'a> {
    ghost use Rattle.fax_rows.specs.RowsRead.{RowsRead};

    ghost Value = { RowsRead };

    ghost use Rattle.fax_rows.specs.RowsRead.{rows_read_of, IsReading};

    ghost view = { rows_read_of };

    ghost invariant = { IsReading };
}

impl<'a> RowReader<'a> {
    /// Creates a reader of the rows of an image, whose bytes hold their bits in this order. It is before the first row.
    ///
    /// # Errors
    ///
    /// `OutOfMemory` is the only one. Today nothing is allocated here.
    pub fn new(
        alloc: Global,
        data: &'a [u8],
        order: BitOrder,
        settings: DecodeSettings,
    ) -> Result<RowReader<'a>>
        requires fit { BitsFit «data».now }
        ensures settings { IfOk result (λ rows. rows.settings ≡ settings) }
        ensures bits { IfOk result (λ rows. rows.bits ≡ bits_in order «data».now) }
        ensures none_read { IfOk result (λ rows. rows.taken ≡ 0) }
        ensures unfailed { IfOk result (λ rows. (error : DecodeError) → rows.end ≢ Some (Err error)) }
        ensures work { IfOk result (λ rows. CountsWork rows.settings rows.bits rows.taken rows.ticks) }
        ensures only_memory { IsOkUnless result DecodeError.OutOfMemory }
        ensures space { IfOk result (λ rows. rows.space ≡ 0) }
    {
        let mut ctx = DecoderContext::new(alloc, settings)?;
        let mut reader = match order {
            BitOrder::HighestFirst => BitReader::new(data),
            BitOrder::LowestFirst => BitReader::new_low_first(data),
        };
        let stand = first_stand(&mut ctx, &mut reader);
        Ok(RowReader {
            ctx,
            rows: RowState::new(stand),
            reader,
        })
    }

    /// Reads the next row, and returns whether there was one; its changes are those of [`row`](RowReader::row). At the end of
    /// the image it returns `Ok(false)`, and so does each further call. The work of all calls together has the bound of
    /// `decode`: at most 128 ticks a bit, and 256 more.
    ///
    /// # Errors
    ///
    /// Those of `decode`, except `Refused`. After an error each further call returns the same error.
    pub fn next_row(&mut self) -> Result<bool>
        ensures reads { ReadsNext self.old self.new result }
        ensures work { CountsWork self.new.settings self.new.bits self.new.taken self.new.ticks }
        ensures ended { (end : Result (Unit {0}) DecodeError) → self.old.end ≡ Some end
            → (self.new ≡ self.old) × (result ≡ at_end_of_rows end) }
        ensures space { self.new.space ≤ most_room self.new.settings self.new.bits }
    {
        match self.rows.stand {
            Stand::AtEnd => Ok(false),
            Stand::AtFault(error) => Err(error),
            Stand::AtLine | Stand::AfterRow => self.rows.next_row(&mut self.ctx, &mut self.reader),
        }
    }

    /// Returns the changes of the last row that was read, in ascending order: the pixels at which its colour changes. There
    /// are none before the first row.
    pub fn row(&self) -> &[u32]
        ensures { result.now ≡ changes self.now.row }
    {
        reference_row(&self.ctx)
    }

    /// Returns the number of rows that were read.
    pub fn rows_read(&self) -> u64
        ensures { result ≡ self.now.taken }
    {
        self.ctx.decoded_rows()
    }

    /// Returns the offset in bits at which the line of the last row begins, after its EOL; in two-dimensional data of Group
    /// 3 that of its tag bit (T.4, 4.2.2). After an error, returns that of the line that couldn't be read, or the
    /// offset at which strict data lacks an EOL.
    pub fn line_start(&self) -> usize
        ensures { result ≡ self.now.line_start }
    {
        self.rows.started_at
    }

    /// Returns the fault of the last row if its line was damaged and repaired, as in a lenient reading of Group 3 with EOLs
    /// (T.4, 4.1.2); `None` if the line was whole, and before the first row.
    pub fn damage(&self) -> Option<DecodeError>
        ensures { result ≡ self.now.damage }
    {
        self.rows.damage
    }

    /// Returns the number of rows read whose line was damaged and repaired.
    pub fn damaged_rows(&self) -> u64
        ensures { result ≡ sum_by length (take self.now.taken (repairs_by_line self.now.settings self.now.bits)) }
    {
        self.ctx.damaged_rows()
    }

    /// Returns whether a run of the last row, or a vertical mode, goes beyond the row's end and was cut there, where a strict
    /// reading fails (T.4, 4.1.1); false before the first row, and for a row that was repaired.
    pub fn is_cut(&self) -> bool
        ensures { result ≡ self.now.cut }
    {
        self.rows.cut
    }

    /// Returns the number of rows read in which a run was cut, as [`DecoderContext::cut_rows`] does.
    pub fn cut_rows(&self) -> u64
        ensures { result ≡ sum_by length (take self.now.taken (cuts_by_line self.now.settings self.now.bits)) }
    {
        self.ctx.cut_rows()
    }

    /// Returns the number of rows read after which the EOL was missed (T.4, 4.1.2), as
    /// [`DecoderContext::missed_eols`] does: of the last row it is known when the next call of
    /// [`next_row`](RowReader::next_row) returns.
    pub fn missed_eols(&self) -> u64
        ensures { result ≡ sum_by length (take (gaps_passed self.now) (misses_by_line self.now.settings self.now.bits)) }
    {
        self.ctx.missed_eols()
    }

    /// Returns the offset in bits at which the last call of [`next_row`](RowReader::next_row) missed an EOL (T.4, 4.1.2):
    /// the first bit after the row that had been the last one before. `None` if none was missed there.
    pub fn missed_eol(&self) -> Option<usize>
        ensures { result ≡ self.now.missed }
    {
        self.rows.missed
    }

    /// Returns the number of bytes consumed so far, the last one rounded up: after a row those up to its end, where a repaired
    /// line ends where it begins, at the end of the image those that `decode` returns, and after an error those up to
    /// [`line_start`](RowReader::line_start).
    pub fn bytes_read(&self) -> usize
        ensures { result ≡ (self.now.place + 7) / 8 }
    {
        self.reader.bit_pos().div_ceil(8)
    }
}
