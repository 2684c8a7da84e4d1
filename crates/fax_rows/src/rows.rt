//! A row and the gap after it, in every encoding (T.4, 4.1, T.6, 2).

ghost use Rattle.std.specs.Prelude.{false, ◌≡◌, ◌≢◌, ◌<◌, ◌≤◌, ◌+◌, ◌*◌, Err, OnOk, OnErr, IfOk, IfErr, IsOkUnless, true, ◌||◌};
ghost use Rattle.std.specs.Prelude.{Ok};
ghost use Rattle.std.specs.Prelude.{[], length, ◌^◌};
ghost use Rattle.fax_lines.specs.ContextSteps.{GrowsFor};
ghost use Rattle.fax_lines.specs.Counting.{OnlyCounts};
ghost use Rattle.fax_reading.specs.Answers.{IsFault, IsRepairable, RepairStoresChange};
ghost use Rattle.fax_bits.specs.Bits.{BitsAt, here};
ghost use Rattle.fax_reading.specs.Context.{Context, after_repair, redrawn};
ghost use Rattle.fax_reading.specs.Decoding.{ReadsLine, TakesOneRow, cuts_with, gap_said, repairs_after, with_row_taken};
ghost use Rattle.fax_reading.specs.PlainReading.{eols_by, eols_here, is_end_of_block, is_over, gap_after_row, row_of_line};
ghost use Rattle.fax_reading.specs.PlainReading.{aligned_after_row, limit_met, line_here};
ghost use Rattle.fax_reading.specs.Rows.{changes};
ghost use Rattle.fax_rows.specs.RowsRead.{row_came};
ghost use Rattle.fax_rows.specs.RowsTried.{LacksEol, PassesGap, ReadsRow, TriesRow, lacks_memory, needs_more};
ghost use Rattle.fax_rows.specs.TakenRows.{CanTakeRow, FailsToRepair, IsFull, MovesAfterRow};
ghost use Rattle.fax_bits.specs.Ticks.{looked, looked_ahead, tag_tests};
ghost use Rattle.fax_reading.specs.Work.{found_here};

use crate::counts::{count_cut_row, count_damaged_row, count_missed_eol};
use crate::group3::recover;
use fax_bits::bit_reader::{BitReader, at_bit, copy};
use fax_bits::codes::Color;
use fax_bits::{DecodeError, EncodingMode, Result};
use fax_lines::context::{DecoderContext, begin_line, decode_1d_line, decode_2d_line, end_line};

/// Returns whether the row limit is met; a limit of 0 is no limit.
pub fn limit_met(ctx: &DecoderContext) -> bool
    ensures { result ≡ limit_met ctx.now.held.settings ctx.now.held.taken }
{
    let limit = u64::from(ctx.settings().rows);
    limit != 0 && limit == ctx.decoded_rows()
}

/// Moves to the next whole byte after a row, if rows are aligned and the data has no EOLs.
fn align_row(ctx: &DecoderContext, reader: &mut BitReader<'_>)
    ensures rest { here reader.new ≡ aligned_after_row ctx.now.held.settings ctx.now.held.has_eols (here reader.old) }
    ensures same_bits { reader.new.bits ≡ reader.old.bits }
{
    if ctx.settings().rows_are_byte_aligned && !ctx.has_eols() {
        reader.align();
    }
}

/// Makes the full row that was drawn the reference row, and moves to where the next line, or its EOL, begins. Returns whether a run of
/// the row's line was cut.
#[inline(always)]
fn take_row(ctx: &mut DecoderContext, reader: &mut BitReader<'_>) -> bool
    requires full { IsFull ctx.old.held }
    requires rows { ctx.old.held.taken + 1 < 2 ^ 64 }
    ensures cut { result ≡ ctx.old.cut }
    ensures taken { ctx.new.held ≡ with_row_taken ctx.old.held ctx.old.held.front }
    ensures moves { MovesAfterRow ctx.old ctx.new reader.old reader.new }
{
    let is_cut = end_line(ctx);
    align_row(ctx, reader);
    is_cut
}

/// Takes the row of a whole line, as `take_row` does, and counts it if a run of it was cut.
#[inline(always)]
fn take_whole_row(ctx: &mut DecoderContext, reader: &mut BitReader<'_>)
    requires full { IsFull ctx.old.held }
    requires rows { ctx.old.held.taken + 1 < 2 ^ 64 }
    ensures taken { ctx.new.held ≡ record (with_row_taken ctx.old.held ctx.old.held.front) {
      repairs = cuts_with ctx.old.cut ctx.old.held.taken ctx.old.held.repairs;
    } }
    ensures moves { MovesAfterRow ctx.old ctx.new reader.old reader.new }
{
    if take_row(ctx, reader) {
        count_cut_row(ctx);
    }
}

/// Takes the row of a line that was repaired after this fault, as `take_row` does, and counts it as damaged.
#[inline(never)]
fn take_damaged_row(ctx: &mut DecoderContext, reader: &mut BitReader<'_>, fault: DecodeError)
    requires full { IsFull ctx.old.held }
    requires room { CanTakeRow ctx.old.held }
    ensures taken { ctx.new.held ≡ record (with_row_taken ctx.old.held ctx.old.held.front) {
      repairs = record ctx.old.held.repairs {
        rows = ctx.old.held.repairs.rows + 1;
        fault = fault;
        last = ctx.old.held.taken + 1;
      };
    } }
    ensures moves { MovesAfterRow ctx.old ctx.new reader.old reader.new }
{
    take_row(ctx, reader);
    count_damaged_row(ctx, fault);
}

/// Reads the EOLs of T.6 data here, with `end_of_block` at most the two of EOFB (T.6, 2.4.1.1), and returns their
/// number.
#[inline(always)]
fn read_eols_of_t6(ctx: &mut DecoderContext, reader: &mut BitReader<'_>) -> usize
    ensures eols { eols_by EncodingMode.Group4 ctx.old.held.settings.end_of_block (here reader.old) ≡
        (result, here reader.new) }
    ensures same_bits { reader.new.bits ≡ reader.old.bits }
    ensures only_ticks { OnlyCounts ctx.old ctx.new }
    ensures at_least { ctx.old.ticks + length (here reader.old) ≤ ctx.new.ticks + length (here reader.new) }
    ensures work_none { result ≡ 0 → ctx.new.ticks + length (here reader.new)
        ≡ ctx.old.ticks + length (here reader.old) + looked (here reader.new) }
    ensures work { ctx.new.ticks + length (here reader.new)
        ≤ ctx.old.ticks + length (here reader.old) + looked (here reader.new) }
    ensures forward { length (here reader.new) ≤ length (here reader.old) }
{
    if ctx.settings().end_of_block {
        reader.read_eols(2, ctx.ticks())
    } else {
        reader.read_eol_if_available(ctx.ticks())
    }
}

/// Reads the EOLs here, in two-dimensional data with their tags, and returns their number. Each bit that is looked at is a
/// tick: a bit that is passed counts at most twice.
#[inline(always)]
pub fn read_eols(ctx: &mut DecoderContext, reader: &mut BitReader<'_>) -> usize
    ensures eols { eols_here ctx.old.held.settings (here reader.old) ≡ (result, here reader.new) }
    ensures same_bits { reader.new.bits ≡ reader.old.bits }
    ensures only_ticks { OnlyCounts ctx.old ctx.new }
    ensures at_least { ctx.old.ticks + length (here reader.old) ≤ ctx.new.ticks + length (here reader.new) }
    ensures work { ctx.new.ticks + 2 * length (here reader.new) ≤ ctx.old.ticks + 2 * length (here reader.old)
        + tag_tests ctx.old.held.settings.encoding + looked_ahead ctx.old.held.settings.encoding (here reader.new) }
    ensures work_none { result ≡ 0 → ctx.new.ticks ≡ ctx.old.ticks + looked (here reader.old) }
{
    match ctx.settings().encoding {
        EncodingMode::Group3_2D => reader.read_tagged_eols(ctx.ticks()),
        EncodingMode::Group3_1D => reader.read_eol_if_available(ctx.ticks()),
        EncodingMode::Group4 => read_eols_of_t6(ctx, reader),
    }
}

/// Returns whether this number of EOLs ends the image: EOFB (T.6, 2.4.1.1) or RTC (T.4, 4.1.4), with
/// `end_of_block`.
#[inline(always)]
pub(crate) fn is_end_of_block(ctx: &DecoderContext, count: usize) -> bool
    ensures { result ≡ is_end_of_block ctx.now.held.settings count }
{
    // Mostly there is at most one, which never ends it.
    if count < 2 {
        return false;
    }
    let eols_of_end = match ctx.settings().encoding {
        EncodingMode::Group4 => 2, // EOFB
        EncodingMode::Group3_1D | EncodingMode::Group3_2D => 6, // RTC
    };
    ctx.settings().end_of_block && count >= eols_of_end
}

/// Returns whether the image ends after a row and this number of EOLs: at RTC, at the row limit or at the end of the data.
#[inline(always)]
pub(crate) fn is_over(ctx: &DecoderContext, reader: &BitReader<'_>, count: usize) -> bool
    ensures over { result ≡ is_over ctx.now.held.settings ctx.now.held.taken (count, here reader.now) }
{
    is_end_of_block(ctx, count) || limit_met(ctx) || reader.at_end()
}

/// Passes the gap before a line, and returns whether the image ends there: at EOFB or RTC with `end_of_block`, at the row
/// limit or at the end of the data (T.4, 4.1.2 and 4.1.4, T.6, 2.4.1.1). It counts the EOLs there. If there
/// are none, although the data has EOLs, strict data fails with `InvalidCode`; otherwise it searches for the next one, and
/// counts it as missed unless the last row was repaired. If none is left, it no longer expects EOLs. It allocates nothing.
/// Each bit that is looked at is a tick: a bit that is passed counts at most four times.
#[inline(always)]
pub(crate) fn pass_gap(ctx: &mut DecoderContext, reader: &mut BitReader<'_>) -> Result<bool>
    ensures passes { PassesGap ctx.old ctx.new result (here reader.old) (here reader.new) }
    ensures lacks { OnErr result (LacksEol ctx.old ctx.new (here reader.old) (here reader.new)) }
    ensures at_least { OnOk result (ctx.old.ticks + length (here reader.old) ≤ ctx.new.ticks + length (here reader.new)) }
    ensures same_bits { reader.new.bits ≡ reader.old.bits }
    ensures space { ctx.new.space ≡ ctx.old.space }
{
    let count = read_eols(ctx, reader);
    if count > 0 || !ctx.has_eols() || limit_met(ctx) || reader.at_end() {
        return Ok(is_over(ctx, reader, count));
    }
    if ctx.settings().strict {
        return Err(DecodeError::InvalidCode);
    }
    count_missed_eol(ctx);
    if !reader.skip_to_eol(ctx.ticks()) {
        ctx.set_has_eols(false);
        return Ok(false);
    }
    let count = read_eols(ctx, reader);
    Ok(is_over(ctx, reader, count))
}

/// Decodes the line here as `decode_2d_line` does, and so as a line of T.6 data. It is a call, so that tagged one-dimensional
/// lines don't pay for its registers.
#[inline(never)]
fn decode_2d_line_apart(ctx: &mut DecoderContext, reader: &mut BitReader<'_>) -> Result<()>
    ensures line { ReadsLine EncodingMode.Group4 1 ctx.old ctx.new result reader.old reader.new }
{
    decode_2d_line(ctx, reader)
}

/// Decodes a line of the kind that its tag selects (T.4, 4.2.2). A missing tag is `UnexpectedEof`, with nothing
/// painted.
#[inline(always)]
fn decode_tagged_line(ctx: &mut DecoderContext, reader: &mut BitReader<'_>) -> Result<()>
    requires begun { ctx.old.held.front ≡ [] }
    ensures line { ReadsLine EncodingMode.Group3_2D 2 ctx.old ctx.new result reader.old reader.new }
    ensures no_tag { here reader.old ≡ [] → ctx.new.ticks ≡ ctx.old.ticks }
{
    let tag = reader.read_bit()?;
    ctx.ticks().tick();
    if tag == 1 {
        decode_1d_line(ctx, reader)
    } else {
        decode_2d_line_apart(ctx, reader)
    }
}

/// Decodes the line here.
#[inline(always)]
fn decode_line(ctx: &mut DecoderContext, reader: &mut BitReader<'_>) -> Result<()>
    requires begun { ctx.old.held.front ≡ [] }
    ensures line { ReadsLine ctx.old.held.settings.encoding 2 ctx.old ctx.new result reader.old reader.new }
    ensures no_tag { ctx.old.held.settings.encoding ≡ EncodingMode.Group3_2D → here reader.old ≡ []
        → ctx.new.ticks ≡ ctx.old.ticks }
{
    match ctx.settings().encoding {
        EncodingMode::Group3_1D => decode_1d_line(ctx, reader),
        EncodingMode::Group3_2D => decode_tagged_line(ctx, reader),
        EncodingMode::Group4 => decode_2d_line(ctx, reader),
    }
}

/// Goes back to where a line began that failed with this error, and repairs it as [`recover`] does.
#[cold]
#[inline(never)]
fn recover_from(
    ctx: &mut DecoderContext,
    reader: &mut BitReader<'_>,
    line_start: usize,
    error: DecodeError,
) -> Result<()>
    requires within { line_start ≤ length reader.old.bits }
    ensures only_damage { OnOk result (IsRepairable ctx.old.held error) }
    ensures frame { OnOk result (ctx.new ≡ record ctx.old { held = after_repair ctx.old.held; space = ctx.new.space }) }
    ensures put_back { reader.new ≡ record reader.old { place = line_start } }
    ensures fails { FailsToRepair ctx.old.held error result }
    ensures unchanged { OnErr result (ctx.new ≡ ctx.old) }
    ensures space { GrowsFor (length (changes ctx.old.held.front)) ctx.old.space ctx.new.space }
{
    *reader = at_bit(reader, line_start);
    let start = copy(reader);
    recover(ctx, reader, start, error)
}

/// Takes the row of a line that began at this offset and was drawn with this result, as [`read_row`] does: a damaged line is
/// repaired first if it may be.
#[inline(always)]
fn settle_row(
    ctx: &mut DecoderContext,
    reader: &mut BitReader<'_>,
    line_start: usize,
    line: Result<()>,
) -> Result<()>
    requires room { CanTakeRow ctx.old.held }
    requires within { line_start ≤ length reader.old.bits }
    requires full { OnOk line (IsFull ctx.old.held) }
    ensures row { (before : Context) (start : BitsAt) → start ≡ record reader.old { place = line_start }
        → ReadsLine before.held.settings.encoding 2 before ctx.old line start reader.old
        → ReadsRow before ctx.new result (here start) (here reader.new) }
    ensures repairable { OnOk result (IfErr line (λ e. IsFault e)) }
    ensures same { IfErr result (λ e. IsFault e → line ≡ Err e) }
    ensures put_back { OnErr result (reader.new ≡ record reader.old { place = line_start }) }
    ensures same_bits { reader.new.bits ≡ reader.old.bits }
{
    if let Err(error) = line {
        recover_from(ctx, reader, line_start, error)?;
        take_damaged_row(ctx, reader, error);
        return Ok(());
    }
    take_whole_row(ctx, reader);
    Ok(())
}

/// Reads a line, and repairs it if it is damaged and may be repaired. Its row is the reference row then. The errors are those
/// of a line that isn't repaired, and `OutOfMemory` if a change can't be stored; after each the reader is at the line's start.
#[inline(always)]
pub(crate) fn read_row(ctx: &mut DecoderContext, reader: &mut BitReader<'_>) -> Result<()>
    requires rows { ctx.old.held.taken ≤ length reader.old.bits + 1 }
    requires damaged { ctx.old.held.repairs.rows ≤ ctx.old.held.taken }
    requires begun { ctx.old.held.front ≡ [] }
    ensures row { ReadsRow ctx.old ctx.new result (here reader.old) (here reader.new) }
    ensures put_back { OnErr result (reader.new ≡ reader.old) }
    ensures same_bits { reader.new.bits ≡ reader.old.bits }
{
    let line_start = reader.bit_pos();
    let line = decode_line(ctx, reader);
    settle_row(ctx, reader, line_start, line)
}

/// Returns whether a line that was drawn with this result is left: the data ended within it, and more may come.
#[inline(always)]
fn needs_more(line: &Result<()>, is_last: bool) -> bool
    ensures { result ≡ needs_more is_last line.now }
{
    !is_last && matches!(line, Err(DecodeError::UnexpectedEof))
}

/// Returns whether a change of a row couldn't be stored.
#[inline(always)]
fn lacks_memory(row: &Result<()>) -> bool
    ensures { result ≡ lacks_memory row.now }
{
    matches!(row, Err(DecodeError::OutOfMemory))
}

/// Returns that a row was read, or its fault.
#[inline(always)]
fn answer_of(row: Result<()>) -> Result<bool>
    ensures { result ≡ row_came row }
{
    match row {
        Ok(()) => Ok(true),
        Err(error) => Err(error),
    }
}

/// Goes back to where a line began that is left, with nothing drawn of it.
#[cold]
#[inline(never)]
fn leave_line(ctx: &mut DecoderContext, reader: &mut BitReader<'_>, line_start: usize)
    requires within { line_start ≤ length reader.old.bits }
    ensures frame { ctx.new ≡ record ctx.old { held = redrawn ctx.old.held [] Color.White; passed = 0; cut = false } }
    ensures put_back { reader.new ≡ record reader.old { place = line_start } }
{
    begin_line(ctx);
    *reader = at_bit(reader, line_start);
}

/// Reads the line here as [`read_row`] does, and returns true, if no data that follows can change its row. A line that is
/// short is left, and false is returned, unless this data is the last. After an allocation failure the line is left too.
#[inline(always)]
pub fn try_row(ctx: &mut DecoderContext, reader: &mut BitReader<'_>, is_last: bool) -> Result<bool>
    requires room { CanTakeRow ctx.old.held }
    requires begun { ctx.old.held.front ≡ [] }
    ensures row { TriesRow is_last ctx.old ctx.new result reader.old reader.new }
    ensures put_back { result ≢ Ok true → reader.new ≡ reader.old }
    ensures same_bits { reader.new.bits ≡ reader.old.bits }
    ensures no_tag { ctx.old.held.settings.encoding ≡ EncodingMode.Group3_2D → here reader.old ≡ [] → result ≡ Ok false
        → ctx.new.ticks ≡ ctx.old.ticks }
{
    let line_start = reader.bit_pos();
    let line = decode_line(ctx, reader);
    if needs_more(&line, is_last) {
        leave_line(ctx, reader, line_start);
        return Ok(false);
    }
    let row = settle_row(ctx, reader, line_start, line);
    if lacks_memory(&row) {
        leave_line(ctx, reader, line_start);
        return Err(DecodeError::OutOfMemory);
    }
    answer_of(row)
}
