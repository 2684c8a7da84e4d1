//! Rows from data that comes in pieces.

ghost use Rattle.std.specs.Prelude.{◌≡◌, ◌≢◌, ◌≤◌, ◌<◌, ◌+◌, ◌*◌, ◌/◌, ◌^◌, ◌&&◌, not, ℕ, Bool, true, false, [], ◌++◌, None};
ghost use Rattle.std.specs.Prelude.{Some, Ok, Err, ◌⊎◌, ◌↔◌, ◌-◌, vec_capacity, vec_len};
ghost use Rattle.std.specs.Prelude.{IfOk, IfErr, OnErr, OnOk, IsOkUnless, Result, is_ok, if◌then◌else◌, length, max, drop};
ghost use Rattle.fax_bits.specs.Bits.{AreWholeBytes, Bits, bits_in, here};
ghost use Rattle.fax_reading.specs.Context.{fresh, redrawn};
ghost use Rattle.fax_reading.specs.GapsContinued.{gap_is_settled};
ghost use Rattle.fax_feeds.specs.GapsSeen.{CountsLooks, IsSeen, is_settled, nothing_seen, rules_for, stage_following};
ghost use Rattle.fax_rows.specs.RowsRead.{at_end_of_rows, ended, is_at_line};
ghost use Rattle.fax_rows.specs.RowsTried.{IsUnread, front_is_settled};
ghost use Rattle.fax_feeds.specs.RowFeeds.{BeginsCounted, ComeNext, ComesOn, DropsRead, FeedsNext, FeedsPlainly, KeepsFront};
ghost use Rattle.fax_feeds.specs.RowFeeds.{IsPlainFeedOf, ReadsInFeed, completed, no_gap, offset_of};
ghost use Rattle.fax_feeds.specs.RowFeeds.{IsFeedOf, KeepsBits, TriesLine, fed_bits, fed_end, fed_row, fed_without_row};
ghost use Rattle.fax_feeds.specs.RowFeeds.{is_unread};
ghost use Rattle.fax_feeds.specs.RowFeeds.{HoldsMore, KeepsPart, LineGoesOn, Scans, ScansLine, StaysShort, line_answer};
ghost use Rattle.fax_reading.specs.Continuations.{is_short};
ghost use Rattle.fax_feeds.specs.RowFeeds.{IsPartOf1d, line_of_feed, says_short, of_settled_gap};
ghost use Rattle.fax_feeds.specs.RowFeeds.{CountsRow, Feeding, FeedsRow, PassesRows, PushesRows, keeps_unused, unused};
ghost use Rattle.fax_feeds.specs.RowFeeds.{unused_size};
ghost use Rattle.fax_reading.specs.Rows.{AreChanges, changes};
ghost use Rattle.fax_lines.specs.SinkStates.{state_of};
ghost use Rattle.fax_rows.specs.WhiteLines.{AreKnown};
ghost use Rattle.fax_rows.specs.ZerosLast.{CountsZeros, zeros_at};

use crate::counted_gaps::{GapSoFar, come_to_counted_line, come_to_first_line, no_gap};
use crate::gap_look::{GapLook, GapRules, GapStage, is_settled_at_once, rules_after_row};
use crate::line_parts::{KeptPart, begin_part, continue_line, continue_runs, is_1d, is_in_1d_run};
use crate::zeros::{begins_with_one, write_one_and_zeros, write_zeros};
use fax_bits::bit_reader::{
    BitOrder, BitReader, at_bit, placed_at, scanner_at, scanner_near_end, scanner_of_last,
};
use fax_bits::codes::Color;
use fax_bits::{DecodeError, DecodeSettings, EncodingMode, Result};
use fax_lines::Decoder;
use fax_lines::context::{DecoderContext, begin_line, reference_row};
use fax_rows::gap_count::GapCount;
use fax_rows::push_rows::{WhiteLinesAhead, push_white_rows};
use fax_rows::row_reader::{RowState, Stand, first_stand, has_ended, is_at_line};
use fax_rows::rows::try_row;
use fax_rows::white_lines::{WhiteLines, no_white_lines, repeats_white};
use fax_rows::zeros_last::{pass_to_zeros, try_zeros};
use std::alloc::Global;
use std::marker::Model;
use std::mem;

/// What a call of [`RowFeed::next_row`] came to.
#[derive(Copy, Clone, Debug, PartialEq, Eq)]
pub enum Fed {
    /// A row was read.
    Row,
    /// Data that follows could change what is next: feed more, or finish the data.
    NeedsMore,
    /// The image has ended.
    End,
}

/// What is known of a line that goes on from a part that was kept. A function that returns this, and no `bool`, can pass on what
/// another returns by a jump.
#[derive(Copy, Clone)]
pub(crate) enum LineState {
    /// It still is short.
    Short,
    /// It is whole, or broken, whatever data follows.
    Settled,
}

/// Returns whether a line still is short.
#[inline(always)]
fn says_short(state: LineState) -> bool
    ensures { result ≡ says_short state }
{
    matches!(state, LineState::Short)
}

/// The most bytes whose bits have offsets that fit, with 64 bits more.
const MOST_BYTES: usize = (usize::MAX - 64) / 8;

/// Data of which no more bytes are kept came in small pieces.
const SMALL_PIECES: usize = 1024;

/// Looks on at the gap that begins here, by these rules, and returns whether it must wait for more data.
#[inline(always)]
fn look_waits(
    ctx: &mut DecoderContext,
    look: &mut GapLook,
    rules: &GapRules,
    reader: &BitReader<'_>,
    is_last: bool,
) -> bool
    requires seen { IsSeen rules.now look.old (here reader.now) }
    ensures waits { result ≡ (not is_last && not (is_settled (stage_following rules.now GapStage.Start 0 (here reader.now)))) }
    ensures kept { (ctx.new.held ≡ ctx.old.held) × (ctx.new.space ≡ ctx.old.space) }
    ensures looked { CountsLooks look.old look.new ctx.old.ticks ctx.new.ticks }
    ensures onward { look.old.bits ≤ look.new.bits }
    ensures all { result ≡ true → look.new.bits ≡ length (here reader.now) }
    ensures unlooked { is_last ≡ true → ctx.new.ticks ≡ ctx.old.ticks }
    ensures seen { IsSeen rules.now look.new (here reader.now) }
{
    if is_last || is_settled_at_once(rules, reader) {
        return false;
    }
    let ahead = at_bit(reader, reader.bit_pos() + look.bits);
    !look.look_on(rules, &ahead, ctx.ticks())
}

/// Looks on at the gap that begins here, and returns whether it must wait for more data.
#[inline(always)]
fn gap_waits(
    ctx: &mut DecoderContext,
    look: &mut GapLook,
    reader: &BitReader<'_>,
    is_last: bool,
) -> bool
    requires seen { IsSeen (rules_for true ctx.old.held) look.old (here reader.now) }
    ensures waits { result ≡ (not is_last && not (gap_is_settled ctx.old.held.settings ctx.old.held.taken ctx.old.held.has_eols
        (here reader.now))) }
    ensures kept { (ctx.new.held ≡ ctx.old.held) × (ctx.new.space ≡ ctx.old.space) }
    ensures looked { CountsLooks look.old look.new ctx.old.ticks ctx.new.ticks }
    ensures onward { look.old.bits ≤ look.new.bits }
    ensures all { result ≡ true → look.new.bits ≡ length (here reader.now) }
    ensures unlooked { is_last ≡ true → ctx.new.ticks ≡ ctx.old.ticks }
    ensures seen { IsSeen (rules_for true ctx.old.held) look.new (here reader.now) }
{
    let rules = rules_after_row(ctx);
    look_waits(ctx, look, &rules, reader, is_last)
}

/// Returns whether a line is here after a gap that was passed.
pub(crate) fn of_settled_gap(line: Result<bool>) -> Result<Option<bool>>
    ensures { result ≡ of_settled_gap line }
{
    match line {
        Ok(line) => Ok(Some(line)),
        Err(error) => Err(error),
    }
}

/// Returns whether a line was left.
fn is_unread(row: &Result<bool>) -> bool
    ensures { result ≡ is_unread row.now }
{
    matches!(row, Ok(false) | Err(DecodeError::OutOfMemory))
}

/// Returns what came of a line that wasn't left.
fn line_answer(row: &Result<bool>) -> Result<()>
    ensures { result ≡ line_answer row.now }
{
    match row {
        Ok(_) => Ok(()),
        Err(error) => Err(*error),
    }
}

/// Returns whether a line was left since data that follows can change it.
fn is_unsettled(row: &Result<bool>) -> bool
    ensures short { result ≡ true → row.now ≡ Ok false }
    ensures other { result ≡ false → row.now ≢ Ok false }
{
    matches!(row, Ok(false))
}

/// Returns whether a line is here.
fn is_some_line(line: &Result<Option<bool>>) -> bool
    ensures here { result ≡ true → line.now ≡ Ok (Some true) }
    ensures none { result ≡ false → line.now ≢ Ok (Some true) }
{
    matches!(line, Ok(Some(true)))
}

/// Returns what a call comes to that reaches no line.
fn fed_without_row(line: Result<Option<bool>>) -> Result<Fed>
    ensures { result ≡ fed_without_row line }
{
    match line {
        Ok(None) => Ok(Fed::NeedsMore),
        Ok(Some(_)) => Ok(Fed::End),
        Err(error) => Err(error),
    }
}

/// Returns what a call comes to that tries a line.
fn fed_row(row: Result<bool>) -> Result<Fed>
    ensures { result ≡ fed_row row }
{
    match row {
        Ok(true) => Ok(Fed::Row),
        Ok(false) => Ok(Fed::NeedsMore),
        Err(error) => Err(error),
    }
}

/// Returns whether a call read a row.
fn is_row(fed: &Result<Fed>) -> bool
    ensures row { result ≡ true → fed.now ≡ Ok Fed.Row }
    ensures other { result ≡ false → fed.now ≢ Ok Fed.Row }
{
    matches!(fed, Ok(Fed::Row))
}

/// Makes room for so many bytes more, and for as many in all as there was room for twice, if there isn't any.
fn reserve_twice(data: &mut Vec<u8>, more: usize) -> Result<()>
    ensures items { «data».new.items ≡ «data».old.items }
    ensures room { OnOk result (vec_len «data».new + more ≤ vec_capacity «data».new) }
    ensures only { IsOkUnless result DecodeError.OutOfMemory }
    ensures most { vec_capacity «data».new ≤ max (vec_capacity «data».old) (2 * (vec_len «data».old + more)) }
    ensures left { OnErr result (vec_capacity «data».new ≡ vec_capacity «data».old) }
{
    let room = data.capacity();
    let left = room - data.len();
    if more <= left {
        return Ok(());
    }
    data.reserve_exact(more.max(room.saturating_add(left)))?;
    Ok(())
}

/// Appends bytes, for which there is room.
#[inline(always)]
fn append_reserved(data: &mut Vec<u8>, bytes: &[u8])
    requires room { vec_len «data».old + length bytes.now ≤ vec_capacity «data».old }
    ensures items { «data».new.items ≡ «data».old.items ++ bytes.now }
    ensures room { vec_capacity «data».new ≡ vec_capacity «data».old }
{
    let mut index = 0;
    'bytes: while index < bytes.len() {
        data.push_reserved(bytes[index]);
        index += 1;
    }
}

/// Appends bytes for which there is room. It moves the list into a local, so that its length stays in a register.
#[inline(never)]
fn append_own(data: &mut Vec<u8>, bytes: &[u8])
    requires room { vec_len «data».old + length bytes.now ≤ vec_capacity «data».old }
    ensures items { «data».new.items ≡ «data».old.items ++ bytes.now }
    ensures room { vec_capacity «data».new ≡ vec_capacity «data».old }
{
    let mut own = Vec::new(*data.allocator());
    mem::swap(data, &mut own);
    append_reserved(&mut own, bytes);
    mem::swap(data, &mut own);
}

/// Appends bytes.
fn append(data: &mut Vec<u8>, bytes: &[u8]) -> Result<()>
    ensures items { «data».new.items ≡ (if is_ok result then «data».old.items ++ bytes.now else «data».old.items) }
    ensures only { IsOkUnless result DecodeError.OutOfMemory }
    ensures most { vec_capacity «data».new
        ≤ max (vec_capacity «data».old) (2 * (length «data».old.items + length bytes.now)) }
    ensures left { OnErr result (vec_capacity «data».new ≡ vec_capacity «data».old) }
{
    reserve_twice(data, bytes.len())?;
    append_own(data, bytes);
    Ok(())
}

/// Returns whether one more row can be counted.
#[inline(always)]
fn can_take_row(ctx: &DecoderContext) -> bool
    ensures rows { result ≡ true → ctx.now.held.taken + 1 < 2 ^ 64 }
    ensures damaged { result ≡ true → ctx.now.held.repairs.rows ≤ ctx.now.held.taken }
    ensures room { ctx.now.held.taken + 1 < 2 ^ 64 → ctx.now.held.repairs.rows ≤ ctx.now.held.taken → result ≡ true }
{
    let rows = ctx.decoded_rows();
    rows < u64::MAX && ctx.damaged_rows() <= rows
}

/// Passes the gap here, which begins at this offset of the data, if no data that follows can change it: its bits are looked at, each
/// once. Returns whether there is a line after it, or `None` if more data is needed.
#[cold]
#[inline(never)]
pub(crate) fn pass_settled_gap(
    rows: &mut RowState,
    ctx: &mut DecoderContext,
    look: &mut GapLook,
    reader: &mut BitReader<'_>,
    is_last: bool,
    gap_start: usize,
) -> Result<Option<bool>>
    requires after { rows.old.stand ≡ Stand.AfterRow }
    requires seen { IsSeen (rules_for true ctx.old.held) look.old (here reader.old) }
    ensures { ComesOn is_last gap_start rows.old rows.new look.old look.new ctx.old ctx.new reader.old reader.new result }
{
    // An offset is known to be within the data once it is read.
    let _start = reader.bit_pos();
    if gap_waits(ctx, look, reader, is_last) {
        return Ok(None);
    }
    *look = GapLook::new();
    of_settled_gap(rows.pass_gap_here(ctx, reader, gap_start))
}

/// Reads the line here, which begins at this offset of the data, and returns true, if no data that follows can change it;
/// otherwise it is left, and false is returned. After an allocation failure it is left too.
#[inline(always)]
fn try_line(
    rows: &mut RowState,
    ctx: &mut DecoderContext,
    reader: &mut BitReader<'_>,
    is_last: bool,
    line_start: usize,
) -> Result<bool>
    requires rows { ctx.old.held.taken + 1 < 2 ^ 64 }
    requires damaged { ctx.old.held.repairs.rows ≤ ctx.old.held.taken }
    requires begun { ctx.old.held.front ≡ [] }
    ensures tries { TriesLine is_last line_start rows.old rows.new ctx.old ctx.new reader.old reader.new result }
    ensures no_tag { ctx.old.held.settings.encoding ≡ EncodingMode.Group3_2D → here reader.old ≡ [] → result ≡ Ok false
        → ctx.new.ticks ≡ ctx.old.ticks }
{
    // An offset is known to be within the data once it is read.
    let _start = reader.bit_pos();
    let damaged_rows = ctx.damaged_rows();
    let cut_rows = ctx.cut_rows();
    let row = try_row(ctx, reader, is_last);
    let _end = reader.bit_pos();
    if is_unread(&row) {
        return row;
    }
    let line = line_answer(&row);
    rows.note_line(ctx, &line, line_start, damaged_rows, cut_rows);
    row
}

/// Reads the line here, which begins at this offset of the data, and which is the last bits of it: a tag of one, if it was counted,
/// and zeros. Returns true; after an allocation failure it is left.
fn try_line_of_zeros(
    rows: &mut RowState,
    ctx: &mut DecoderContext,
    count: &GapCount,
    line_start: usize,
) -> Result<bool>
    requires rows { ctx.old.held.taken + 1 < 2 ^ 64 }
    requires damaged { ctx.old.held.repairs.rows ≤ ctx.old.held.taken }
    requires begun { ctx.old.held.front ≡ [] }
    requires enough { 16 ≤ count.now.zeros }
    ensures tries { 0 < ctx.old.held.settings.columns
        → (count.now.tag ≡ true → ctx.old.held.settings.encoding ≡ EncodingMode.Group3_2D)
        → TriesLine true line_start rows.old rows.new ctx.old ctx.new (zeros_at count.now.tag count.now.zeros)
        (zeros_at count.now.tag count.now.zeros) result }
    ensures counts { CountsZeros ctx.old ctx.new result }
    ensures stand { result ≡ Ok true → rows.new.stand ≡ Stand.AfterRow }
    ensures left { result ≡ Ok false → rows.new ≡ rows.old }
{
    let damaged_rows = ctx.damaged_rows();
    let cut_rows = ctx.cut_rows();
    let row = try_zeros(ctx, count.tag, count.zeros);
    if is_unread(&row) {
        return row;
    }
    let line = line_answer(&row);
    rows.note_line(ctx, &line, line_start, damaged_rows, cut_rows);
    row
}

/// Reads the rows of an image from data that comes in pieces, each as soon as no data that follows can change its line.
///
/// It keeps the bits that weren't read, and after [`feed`](RowFeed::feed) fewer than eight before them. The bits of a gap are
/// counted, and but sixteen of them kept, unless its EOL is missing: then all are kept. So where each piece is fed after
/// [`Fed::NeedsMore`], it keeps at most sixteen bits, or those of the longest line, or gap whose EOL is missing, one piece, and
/// seven bits, in room for at most twice as many: the law `feeds_keep_little`.
///
/// # Example
///
/// ```text
/// let mut rows = RowFeed::new(alloc, BitOrder::HighestFirst, settings)?;
/// for piece in pieces {
///     rows.feed(piece)?;
///     while rows.next_row()? == Fed::Row {
///         show(rows.row());
///     }
/// }
/// rows.finish();
/// while rows.next_row()? == Fed::Row {
///     show(rows.row());
/// }
/// ```
#[derive(Drop)]
pub struct RowFeed {
    ctx: DecoderContext,
    rows: RowState,
    order: BitOrder,
    /// Whether what is before the first line was passed.
    begun: bool,
    is_last: bool,
    /// The bytes that are still needed, and those of the line that is next.
    data: Vec<u8>,
    /// How many bits came before them.
    dropped: usize,
    place: usize,
    /// What is known of the gap that is next.
    gap: GapSoFar,
    /// Where the line here goes on that was found to be short, or `None` at its start, or where no line is known to be here.
    part: Option<KeptPart>,
    /// How many bits of that line were read.
    line_read: usize,
    /// The offset of the last line that was tried and found to be short, a greater one than any before the first.
    tried: usize,
}

impl Model for RowFeed {
    ghost use Rattle.fax_feeds.specs.RowFeeds.{Feeding, feeding_of};

    ghost Value = { Feeding };

    ghost use Rattle.fax_feeds.specs.RowFeeds.{IsKept};

    ghost view = { feeding_of };

    ghost invariant = { IsKept };
}

impl RowFeed {
    /// Creates a reader of the rows of an image whose bytes hold their bits in this order. Nothing was fed.
    ///
    /// # Errors
    ///
    /// `OutOfMemory` is the only one. Today nothing is allocated here.
    pub fn new(alloc: Global, order: BitOrder, settings: DecodeSettings) -> Result<RowFeed>
        ensures reading { (whole : Bits) → AreWholeBytes whole → length whole + 64 < 2 ^ 64
            → IfOk result (λ feed. IsFeedOf whole 0 feed) }
        ensures settings { IfOk result (λ feed. feed.ctx.held.settings ≡ settings) }
        ensures order { IfOk result (λ feed. feed.order ≡ order) }
        ensures none_fed { IfOk result (λ feed. (feed.kept ≡ []) × (feed.dropped ≡ 0) × (feed.finished ≡ false)) }
        ensures no_room { IfOk result (λ feed. feed.room ≡ 0) }
        ensures none_read { IfOk result (λ feed. (feed.ctx.held.taken ≡ 0) × (feed.begun ≡ false) × (feed.looked ≡ 0)
            × (feed.part ≡ None) × (feed.gap ≡ no_gap)) }
        ensures only_memory { IsOkUnless result DecodeError.OutOfMemory }
    {
        Ok(RowFeed {
            ctx: DecoderContext::new(alloc, settings)?,
            rows: RowState::new(Stand::AfterRow),
            order,
            begun: false,
            is_last: false,
            data: Vec::new(alloc),
            dropped: 0,
            place: 0,
            gap: no_gap(),
            part: None,
            line_read: 0,
            tried: usize::MAX,
        })
    }

    /// Passes what is before the first line, if no data that follows can change it, and returns whether it was passed.
    fn begin(&mut self) -> bool
        requires { self.old.begun ≡ false }
        ensures begins { (whole : Bits) (tried : ℕ) → IsFeedOf whole tried self.old
            → BeginsCounted whole tried self.old self.new result }
        ensures keeps { KeepsFront self.old self.new result }
    {
        let mut reader = placed_at(&self.data, self.order, self.place);
        if self.ctx.settings().columns == 0 {
            self.rows.stand = first_stand(&mut self.ctx, &mut reader);
            self.place = reader.bit_pos();
            self.begun = true;
            return true;
        }
        let line = come_to_first_line(&mut self.ctx, &mut self.gap, &mut reader, self.is_last);
        self.place = reader.bit_pos();
        let Some(line) = line else {
            return false;
        };
        self.rows.stand = if line { Stand::AtLine } else { Stand::AtEnd };
        self.begun = true;
        true
    }

    /// Reads the line here from its start, if no data that follows can change it, and returns whether it was read.
    #[inline(never)]
    fn read_whole_line(&mut self) -> Result<bool>
        requires begun { self.old.begun ≡ true }
        requires rows { self.old.ctx.held.taken + 1 < 2 ^ 64 }
        requires damaged { self.old.ctx.held.repairs.rows ≤ self.old.ctx.held.taken }
        requires line { is_at_line self.old.rows.stand ≡ true }
        requires none_kept { self.old.part ≡ None }
        requires gap { self.old.gap ≡ no_gap }
        ensures reads { ReadsInFeed self.old self.new result }
        ensures none_kept { self.new.part ≡ None }
        ensures no_tag { self.old.ctx.held.settings.encoding ≡ EncodingMode.Group3_2D
            → drop self.old.place self.old.kept ≡ [] → result ≡ Ok false → self.new.ctx.ticks ≡ self.old.ctx.ticks }
        ensures tried { self.new.tried_at ≡ self.old.tried_at }
    {
        let mut reader = placed_at(&self.data, self.order, self.place);
        let line_start = self.dropped + self.place;
        begin_line(&mut self.ctx);
        let row = try_line(
            &mut self.rows,
            &mut self.ctx,
            &mut reader,
            self.is_last,
            line_start,
        );
        self.place = reader.bit_pos();
        row
    }

    /// Reads on from a part of the line here, of which so many bits were read, and returns whether the line is short. If it is,
    /// the part from which it goes on is kept.
    #[inline(always)]
    fn go_on_from(&mut self, part: KeptPart, read: usize) -> bool
        requires gap { self.old.gap.at_zeros ≡ false }
        requires part { LineGoesOn self.old.begun self.old.rows.stand self.old.ctx.held (drop self.old.place self.old.kept) read
            part }
        ensures scans { ScansLine part.passed read self.old self.new result }
    {
        let mut part = part;
        let mut reader = scanner_at(&self.data, self.order, self.place + read);
        let (is_short, reached) = continue_line(&mut self.ctx, &mut reader, &mut part);
        if is_short {
            self.line_read = reached - self.place;
            self.part = Some(part);
            return true;
        }
        self.line_read = 0;
        self.part = None;
        false
    }

    /// Reads on from the part of the line here that is kept, by a call, and returns whether the line is still short.
    #[cold]
    #[inline(never)]
    fn go_on_by_call(&mut self) -> LineState
        requires more { self.old.finished ≡ false }
        ensures { StaysShort self.old self.new (says_short result) }
    {
        let Some(part) = self.part else {
            return LineState::Settled;
        };
        let read = self.line_read;
        if self.go_on_from(part, read) {
            return LineState::Short;
        }
        LineState::Settled
    }

    /// Returns whether the part of the line here that is kept is of a one-dimensional line. What it returns decides nothing but
    /// which code reads on.
    #[inline(always)]
    fn is_within_1d_line(&self) -> bool
        ensures { result ≡ true → IsPartOf1d self.now.part }
    {
        match &self.part {
            Some(part) => is_1d(part),
            None => false,
        }
    }

    /// Reads on from the part of the line here that is kept, mostly within a run of a one-dimensional line, and returns whether the
    /// line is still short. Each call that it makes is its last step, so that mostly no registers are saved.
    #[inline(always)]
    fn read_on_1d(&mut self, order: BitOrder) -> LineState
        requires more { self.old.finished ≡ false }
        requires line { IsPartOf1d self.old.part }
        requires order { self.old.order ≡ order }
        ensures { StaysShort self.old self.new (says_short result) }
    {
        let Some(part) = &mut self.part else {
            return self.go_on_by_call();
        };
        if !is_in_1d_run(part) {
            return self.go_on_by_call();
        }
        let known = self.data.len() * 8 - self.place;
        let Some(mut reader) = scanner_of_last(&self.data, order, known - self.line_read) else {
            return self.go_on_by_call();
        };
        if continue_runs(&mut self.ctx, &mut reader, part) {
            self.line_read = known - reader.bits_left();
            return LineState::Short;
        }
        self.line_read = 0;
        self.part = None;
        LineState::Settled
    }

    /// Reads on as `read_on_1d` does, where the highest bit of each byte comes first.
    #[inline(never)]
    fn read_on_high(&mut self) -> LineState
        requires more { self.old.finished ≡ false }
        requires line { IsPartOf1d self.old.part }
        requires order { self.old.order ≡ BitOrder.HighestFirst }
        ensures { StaysShort self.old self.new (says_short result) }
    {
        self.read_on_1d(BitOrder::HighestFirst)
    }

    /// Reads on as `read_on_1d` does, where the lowest bit of each byte comes first.
    #[inline(never)]
    fn read_on_low(&mut self) -> LineState
        requires more { self.old.finished ≡ false }
        requires line { IsPartOf1d self.old.part }
        requires order { self.old.order ≡ BitOrder.LowestFirst }
        ensures { StaysShort self.old self.new (says_short result) }
    {
        self.read_on_1d(BitOrder::LowestFirst)
    }

    /// Reads on as `read_on_1d` does, by a call, so that its callers stay small: each order of bits has code of its own.
    #[inline(never)]
    fn read_on_in_order(&mut self) -> LineState
        requires more { self.old.finished ≡ false }
        requires line { IsPartOf1d self.old.part }
        ensures { StaysShort self.old self.new (says_short result) }
    {
        match self.order {
            BitOrder::HighestFirst => self.read_on_high(),
            BitOrder::LowestFirst => self.read_on_low(),
        }
    }

    /// Returns whether the line here is known to be short: whether it goes on from a part that was kept, and still is short.
    #[inline(always)]
    fn is_still_short(&mut self) -> bool
        ensures { StaysShort self.old self.new result }
    {
        if self.part.is_none() {
            return false;
        }
        if self.is_last {
            self.line_read = 0;
            self.part = None;
            return false;
        }
        if self.is_within_1d_line() {
            return says_short(self.read_on_in_order());
        }
        let place = self.place + self.line_read;
        let Some(mut reader) = scanner_near_end(&self.data, self.order, place) else {
            return says_short(self.go_on_by_call());
        };
        let Some(part) = &mut self.part else {
            return false;
        };
        let (is_short, reached) = continue_line(&mut self.ctx, &mut reader, part);
        if is_short {
            self.line_read = reached - self.place;
            return true;
        }
        self.line_read = 0;
        self.part = None;
        false
    }

    /// Keeps the part from which the line here goes on, which is short, unless it was tried for the first time: mostly it is whole
    /// at the next, but not where data comes in small pieces, and the line before has over eight bytes.
    #[cold]
    #[inline(never)]
    fn keep_part(&mut self)
        requires none_kept { self.old.part ≡ None }
        requires begun { self.old.begun ≡ true }
        requires line { is_at_line self.old.rows.stand ≡ true }
        requires none_drawn { redrawn self.old.ctx.held [] Color.White ≡ self.old.ctx.held }
        requires gap { self.old.gap.at_zeros ≡ false }
        ensures { KeepsPart self.old self.new }
    {
        let line_start = self.dropped + self.place;
        let was_tried = self.tried == line_start;
        self.tried = line_start;
        let has_few = self.data.len() <= SMALL_PIECES && self.data.len() <= self.place / 8 + 2;
        let follows_long = line_start.saturating_sub(self.rows.started_at) > 64;
        if !was_tried && !(has_few && follows_long) {
            return;
        }
        let mut reader = placed_at(&self.data, self.order, self.place);
        if let Some(part) = begin_part(&mut self.ctx, &mut reader) {
            let read = reader.bit_pos() - self.place;
            self.go_on_from(part, read);
        }
    }

    /// Reads the line here from its start, if no data that follows can change it, and returns whether it was read. Of a line that is
    /// short the part is kept from which it goes on.
    #[inline(never)]
    fn read_line(&mut self) -> Result<bool>
        requires begun { self.old.begun ≡ true }
        requires rows { self.old.ctx.held.taken + 1 < 2 ^ 64 }
        requires damaged { self.old.ctx.held.repairs.rows ≤ self.old.ctx.held.taken }
        requires line { is_at_line self.old.rows.stand ≡ true }
        requires none_kept { self.old.part ≡ None }
        requires gap { self.old.gap ≡ no_gap }
        ensures reads { ReadsInFeed self.old self.new result }
        ensures unread { result ≡ Ok false → self.new.part ≡ None
            → (self.new.ctx.ticks ≡ self.old.ctx.ticks) ⊎ ((self.old.tried_at ≢ self.new.dropped + self.new.place)
            × (self.new.tried_at ≡ self.new.dropped + self.new.place)) }
    {
        let row = self.read_whole_line();
        if is_unsettled(&row) {
            self.keep_part();
        }
        row
    }

    /// Reads the row of the line here. A line that is short goes on from where it was short in the call before.
    #[inline(always)]
    fn read_here(&mut self) -> Result<Fed>
        requires begun { self.old.begun ≡ true }
        requires line { is_at_line self.old.rows.stand ≡ true }
        requires gap { self.old.gap ≡ no_gap }
        ensures gap { self.new.gap ≡ self.old.gap }
        ensures reads { (whole : Bits) (tried : ℕ) → IsPlainFeedOf whole tried self.old
            → FeedsPlainly whole tried self.old self.new result }
        ensures keeps { KeepsBits self.old self.new }
        ensures counts { CountsRow self.old self.new result }
        ensures waits { result ≡ Ok Fed.NeedsMore → self.old.part ≢ None → Scans self.old self.new }
    {
        if self.is_still_short() {
            return Ok(Fed::NeedsMore);
        }
        if !can_take_row(&self.ctx) {
            return Err(DecodeError::UnexpectedEof);
        }
        let row = self.read_line();
        fed_row(row)
    }

    /// Passes the gap before the next line, if there is one here, and reads the line, both from where no data that follows can change
    /// them.
    #[inline(never)]
    fn read_from_gap(&mut self) -> Result<Fed>
        requires begun { self.old.begun ≡ true }
        requires unended { ended self.old.rows.stand ≡ None }
        requires none_kept { self.old.part ≡ None }
        ensures { FeedsRow self.old self.new result }
    {
        if self.gap.at_zeros {
            return self.read_zeros();
        }
        let mut reader = placed_at(&self.data, self.order, self.place);
        let line = come_to_counted_line(
            &mut self.rows,
            &mut self.ctx,
            &mut self.gap,
            &mut reader,
            self.is_last,
            self.dropped,
        );
        self.place = reader.bit_pos();
        if !is_some_line(&line) {
            return fed_without_row(line);
        }
        if self.gap.at_zeros {
            return self.read_zeros();
        }
        if !can_take_row(&self.ctx) {
            return Err(DecodeError::UnexpectedEof);
        }
        let line_start = self.dropped + self.place;
        begin_line(&mut self.ctx);
        let row = try_line(
            &mut self.rows,
            &mut self.ctx,
            &mut reader,
            self.is_last,
            line_start,
        );
        self.place = reader.bit_pos();
        if is_unsettled(&row) {
            self.keep_part();
        }
        fed_row(row)
    }

    /// Reads the row of the line that the zeros begin with which the data ends, if no more rows than can be counted were read.
    #[cold]
    #[inline(never)]
    fn read_line_of_zeros(&mut self) -> Result<Fed>
        requires begun { self.old.begun ≡ true }
        requires line { is_at_line self.old.rows.stand ≡ true }
        requires none_kept { self.old.part ≡ None }
        requires zeros { self.old.gap.at_zeros ≡ true }
        ensures { FeedsRow self.old self.new result }
    {
        if !can_take_row(&self.ctx) {
            return Err(DecodeError::UnexpectedEof);
        }
        let start = (self.dropped + self.place).saturating_sub(self.gap.passed);
        begin_line(&mut self.ctx);
        let row = try_line_of_zeros(&mut self.rows, &mut self.ctx, &self.gap.count, start);
        fed_row(row)
    }

    /// Reads the row of the line that the zeros begin with which the data ends, after the gap before it, if there is one.
    #[cold]
    #[inline(never)]
    fn read_zeros(&mut self) -> Result<Fed>
        requires begun { self.old.begun ≡ true }
        requires unended { ended self.old.rows.stand ≡ None }
        requires none_kept { self.old.part ≡ None }
        requires zeros { self.old.gap.at_zeros ≡ true }
        ensures { FeedsRow self.old self.new result }
    {
        if is_at_line(self.rows.stand) {
            return self.read_line_of_zeros();
        }
        let start = (self.dropped + self.place).saturating_sub(self.gap.passed);
        self.gap.count.eols = 0;
        let passed = pass_to_zeros(&mut self.rows, &mut self.ctx, &mut self.gap.count, start);
        let line = of_settled_gap(passed);
        if !is_some_line(&line) {
            return fed_without_row(line);
        }
        self.read_line_of_zeros()
    }

    /// Reads the first row, after what is before it.
    #[cold]
    #[inline(never)]
    fn read_first(&mut self) -> Result<Fed>
        requires unbegun { self.old.begun ≡ false }
        ensures reads { (whole : Bits) (tried : ℕ) → IsFeedOf whole tried self.old
            → FeedsNext whole tried self.old self.new result }
        ensures keeps { KeepsBits self.old self.new }
        ensures counts { CountsRow self.old self.new result }
    {
        if !self.begin() {
            return Ok(Fed::NeedsMore);
        }
        if has_ended(self.rows.stand) {
            return Ok(Fed::End);
        }
        self.read_from_gap()
    }

    /// Returns whether the line that is next was found to be short, and goes on from a part that is kept. While
    /// [`next_row`](RowFeed::next_row) then returns [`Fed::NeedsMore`], nothing that the other calls report changes.
    #[inline(always)]
    pub fn is_within_line(&self) -> bool
        ensures within { result ≡ true → self.now.part ≢ None }
        ensures outside { result ≡ false → self.now.part ≡ None }
    {
        self.part.is_some()
    }

    /// Reads on in the line that is next, where it was found to be short, and returns whether it still is: then
    /// [`next_row`](RowFeed::next_row) would return [`Fed::NeedsMore`]. It isn't where the line is whole or wrong, or the data is
    /// finished; `next_row` goes on from here. Where `is_within_line` is false, nothing is done.
    #[inline(always)]
    pub fn stays_within_line(&mut self) -> bool
        ensures more { result ≡ true → FeedsRow self.old self.new (Ok Fed.NeedsMore) }
        ensures scans { Scans self.old self.new }
        ensures goes_on { result ≡ false → (next : Feeding) (answer : Result Fed DecodeError) → FeedsRow self.new next answer
            → FeedsRow self.old next answer }
        ensures settled { result ≡ false → self.old.part ≢ None → (self.old.finished ≡ true)
            ⊎ (is_short (line_of_feed self.old) ≡ false) }
    {
        if self.part.is_none() {
            return false;
        }
        self.is_still_short()
    }

    /// Reads the next row, if no data that follows can change it. After [`Fed::NeedsMore`] feed more, or finish the data. At the
    /// end of the image each further call returns [`Fed::End`]; without columns, the first one does.
    ///
    /// # Errors
    ///
    /// Those of `decode`, except `Refused`. After an error each further call returns the same error, except
    /// after `OutOfMemory`: then nothing was read, and the call can be made again.
    #[inline(always)]
    pub fn next_row(&mut self) -> Result<Fed>
        ensures reads { (whole : Bits) (tried : ℕ) → ended self.old.rows.stand ≡ None → IsFeedOf whole tried self.old
            → FeedsNext whole tried self.old self.new result }
        ensures keeps { KeepsBits self.old self.new }
        ensures counts { CountsRow self.old self.new result }
        ensures waits { result ≡ Ok Fed.NeedsMore → self.old.part ≢ None → Scans self.old self.new }
        ensures ended { (end : Result (Unit {0}) DecodeError) → ended self.old.rows.stand ≡ Some end
            → (self.new ≡ self.old) × (result ≡ fed_end end) }
    {
        if self.part.is_some() {
            return self.read_here();
        }
        match self.rows.stand {
            Stand::AtEnd => Ok(Fed::End),
            Stand::AtFault(error) => Err(error),
            Stand::AtLine | Stand::AfterRow => {
                if self.begun {
                    self.read_from_gap()
                } else {
                    self.read_first()
                }
            }
        }
    }

    /// Reads the white lines below the last row, if it is white, and passes their rows to the sink. After `Refused` that row was read.
    #[inline(always)]
    fn push_white<D: Decoder>(&mut self, lines: &mut WhiteLines, decoder: &mut D) -> Result<()>
        requires known { AreKnown self.old.ctx.held.settings lines.old }
        requires after { (self.old.begun ≡ true) × (self.old.rows.stand ≡ Stand.AfterRow) × (self.old.part ≡ None) }
        requires unlooked { self.old.gap.at_zeros ≡ false → self.old.gap ≡ no_gap }
        ensures width { D.width decoder.new ≡ D.width decoder.old }
        ensures known { AreKnown self.old.ctx.held.settings lines.new }
        ensures passes { OnOk result (PassesRows (D.step (D.width decoder.old)) (D.meaning decoder.old) (D.meaning decoder.new)
            self.old self.new × (D.has_refused decoder.new ≡ D.has_refused decoder.old)) }
        ensures refused { IfErr result (λ e. PushesRows (D.step (D.width decoder.old))
            (state_of D.Decoder decoder.old) (state_of D.Decoder decoder.new) self.old self.new (Err e)) }
    {
        let repeats = repeats_white(&self.ctx, lines);
        if !repeats || self.gap.at_zeros {
            return Ok(()); // No bits of zeros with which the data ends are kept.
        }
        let mut reader = placed_at(&self.data, self.order, self.place);
        let white = WhiteLinesAhead {
            lines,
            in_pieces: true,
            dropped: self.dropped,
        };
        let pushed = push_white_rows(
            repeats,
            white,
            &mut self.rows,
            &mut self.ctx,
            &mut reader,
            decoder,
        );
        self.place = reader.bit_pos();
        pushed
    }

    /// Reads each row that no data that follows can change, and passes it to the sink, until more data is needed or the image
    /// ends: then it returns [`Fed::NeedsMore`] or [`Fed::End`]. So one call for each piece reads all rows, as calls of
    /// [`next_row`](RowFeed::next_row) do.
    ///
    /// # Errors
    ///
    /// Those of [`next_row`](RowFeed::next_row), and `Refused` if the sink refuses a row. That row was read, and
    /// [`row`](RowFeed::row) returns it; the next call goes on after it.
    ///
    /// # Example
    ///
    /// ```text
    /// let mut rows = RowFeed::new(alloc, BitOrder::HighestFirst, settings)?;
    /// let mut sink = BitmapSink::new(alloc, settings.columns);
    /// for piece in pieces {
    ///     rows.feed(piece)?;
    ///     rows.push_rows(&mut sink)?;
    /// }
    /// rows.finish();
    /// rows.push_rows(&mut sink)?;
    /// ```
    #[inline(always)]
    pub fn push_rows<D: Decoder>(&mut self, decoder: &mut D) -> Result<Fed>
        requires width { self.old.ctx.held.settings.columns ≤ D.width decoder.old }
        ensures width { D.width decoder.new ≡ D.width decoder.old }
        ensures pushes { PushesRows (D.step (D.width decoder.old))
            (state_of D.Decoder decoder.old) (state_of D.Decoder decoder.new) self.old self.new result }
    {
        let mut lines = no_white_lines(&self.ctx);
        'rows: loop {
            let fed = self.next_row();
            if !is_row(&fed) {
                return fed;
            }
            if let Err(refusal) = decoder.push_row(self.row()) {
                return Err(refusal);
            }
            if let Err(refused) = self.push_white(&mut lines, decoder) {
                return Err(refused);
            }
        }
    }

    /// Drops the bytes that were read.
    fn drop_read(&mut self)
        ensures { DropsRead self.old self.new }
    {
        let bytes = self.place / 8;
        if bytes == 0 {
            return;
        }
        let left = self.data.len() - bytes;
        self.data.copy_within(bytes.., 0);
        self.data.truncate(left);
        self.dropped += bytes * 8;
        self.place -= bytes * 8;
    }

    /// Feeds a single byte, if nothing is to be dropped and there is room for it, and returns whether it did; otherwise nothing
    /// changes.
    #[inline(always)]
    fn take_byte(&mut self, bytes: &[u8]) -> bool
        ensures fed { result ≡ true
            → self.new ≡ record self.old { kept = self.old.kept ++ bits_in self.old.order bytes.now } }
        ensures few_read { result ≡ true → (self.old.place < 8) × (self.old.place ≤ length self.old.kept)
            × (count : ℕ) × (length self.old.kept ≡ 8 * count) }
        ensures fit { result ≡ true → fed_bits self.old + 8 * length bytes.now + 72 ≤ 2 ^ 64 }
        ensures unchanged { result ≡ false → self.new ≡ self.old }
    {
        if bytes.len() != 1 || self.place >= 8 {
            return false;
        }
        let kept = self.data.len();
        if kept == self.data.capacity() || self.dropped + kept * 8 > MOST_BYTES * 8 - 8 {
            return false;
        }
        self.data.push_reserved(bytes[0]);
        true
    }

    /// Feeds the bytes that come next in the data if it is a single one, nothing is to be dropped before, and there is room for
    /// it, and returns whether it did; otherwise nothing changes, and [`feed`](RowFeed::feed) does the rest.
    #[inline(always)]
    pub fn feed_at_once(&mut self, bytes: &[u8]) -> bool
        requires unfinished { self.old.finished ≡ false }
        ensures fed { result ≡ true → (whole : Bits) (tried : ℕ) → IsFeedOf whole tried self.old
            → ComeNext whole self.old (bits_in self.old.order bytes.now) → IsFeedOf whole tried self.new }
        ensures held { result ≡ true → HoldsMore (bits_in self.old.order bytes.now) self.old self.new }
        ensures fit { result ≡ true → fed_bits self.old + 8 * length bytes.now + 72 ≤ 2 ^ 64 }
        ensures counts { result ≡ true → fed_bits self.new ≡ fed_bits self.old + 8 * length bytes.now }
        ensures unchanged { result ≡ false → self.new ≡ self.old }
    {
        self.take_byte(bytes)
    }

    /// Feeds bytes, as [`feed`](RowFeed::feed) does, by a call.
    #[cold]
    #[inline(never)]
    fn feed_all(&mut self, bytes: &[u8]) -> Result<()>
        requires unfinished { self.old.finished ≡ false }
        ensures fed { OnOk result ((whole : Bits) (tried : ℕ) → IsFeedOf whole tried self.old
            → ComeNext whole self.old (bits_in self.old.order bytes.now) → IsFeedOf whole tried self.new) }
        ensures refused { OnErr result ((whole : Bits) (tried : ℕ) → IsFeedOf whole tried self.old
            → IsFeedOf whole tried self.new) }
        ensures only { IfErr result (λ e. (e ≡ DecodeError.OutOfMemory) ⊎ (e ≡ DecodeError.Overflow)) }
        ensures held { OnOk result (HoldsMore (bits_in self.old.order bytes.now) self.old self.new) }
        ensures kept { OnErr result (HoldsMore [] self.old self.new) }
        ensures too_long { (result ≡ Err DecodeError.Overflow)
            ↔ (2 ^ 64 - 72 < fed_bits self.old + 8 * length bytes.now) }
        ensures counts { OnOk result (fed_bits self.new ≡ fed_bits self.old + 8 * length bytes.now) }
        ensures fit { result ≢ Err DecodeError.Overflow → fed_bits self.old + 8 * length bytes.now + 64 < 2 ^ 64 }
    {
        self.drop_read();
        let kept = self.data.len();
        if bytes.len() > MOST_BYTES - kept || self.dropped > (MOST_BYTES - kept - bytes.len()) * 8 {
            return Err(DecodeError::Overflow);
        }
        append(&mut self.data, bytes)?;
        Ok(())
    }

    /// Feeds the bytes that come next in the data. Those that were read are dropped first, also if this fails, and those that
    /// are left are moved; while the same line or gap is waited for, none are.
    ///
    /// # Errors
    ///
    /// `OutOfMemory` if the bytes can't be stored, and `Overflow` if all bytes fed would have more than 2^64 - 72 bits. No byte
    /// is fed then, and the reading is the same.
    #[inline(always)]
    pub fn feed(&mut self, bytes: &[u8]) -> Result<()>
        requires unfinished { self.old.finished ≡ false }
        ensures fed { OnOk result ((whole : Bits) (tried : ℕ) → IsFeedOf whole tried self.old
            → ComeNext whole self.old (bits_in self.old.order bytes.now) → IsFeedOf whole tried self.new) }
        ensures refused { OnErr result ((whole : Bits) (tried : ℕ) → IsFeedOf whole tried self.old
            → IsFeedOf whole tried self.new) }
        ensures only { IfErr result (λ e. (e ≡ DecodeError.OutOfMemory) ⊎ (e ≡ DecodeError.Overflow)) }
        ensures held { OnOk result (HoldsMore (bits_in self.old.order bytes.now) self.old self.new) }
        ensures kept { OnErr result (HoldsMore [] self.old self.new) }
        ensures too_long { (result ≡ Err DecodeError.Overflow)
            ↔ (2 ^ 64 - 72 < fed_bits self.old + 8 * length bytes.now) }
        ensures counts { OnOk result (fed_bits self.new ≡ fed_bits self.old + 8 * length bytes.now) }
        ensures fit { result ≢ Err DecodeError.Overflow → fed_bits self.old + 8 * length bytes.now + 64 < 2 ^ 64 }
    {
        if self.feed_at_once(bytes) {
            return Ok(());
        }
        self.feed_all(bytes)
    }

    /// Finishes the data: no bytes follow those that were fed.
    pub fn finish(&mut self)
        ensures finished { (whole : Bits) (tried : ℕ) → IsFeedOf whole tried self.old
            → length whole ≡ self.old.dropped + length self.old.kept → IsFeedOf whole tried self.new }
        ensures same { self.new ≡ record self.old { finished = true } }
    {
        self.is_last = true;
    }

    /// Returns whether the data is finished.
    pub fn is_finished(&self) -> bool
        ensures { result ≡ self.now.finished }
    {
        self.is_last
    }

    /// Returns the changes of the last row that was read, in ascending order: the pixels at which its colour changes. There
    /// are none before the first row.
    pub fn row(&self) -> &[u32]
        ensures changes { result.now ≡ changes self.now.ctx.held.reference }
        ensures lawful { AreChanges self.now.ctx.held.settings.columns result.now }
        ensures width { length self.now.ctx.held.reference ≡ self.now.ctx.held.settings.columns }
    {
        reference_row(&self.ctx)
    }

    /// Returns the number of rows that were read.
    pub fn rows_read(&self) -> u64
        ensures { result ≡ self.now.ctx.held.taken }
    {
        self.ctx.decoded_rows()
    }

    /// Returns the offset in bits at which the line of the last row begins, as `RowReader::line_start` does.
    pub fn line_start(&self) -> usize
        ensures { result ≡ self.now.rows.started_at }
    {
        self.rows.started_at
    }

    /// Returns the fault of the last row if its line was damaged and repaired, as in a lenient reading of Group 3 with EOLs
    /// (T.4, 4.1.2); `None` if the line was whole, and before the first row.
    pub fn damage(&self) -> Option<DecodeError>
        ensures { result ≡ self.now.rows.damage }
    {
        self.rows.damage
    }

    /// Returns whether a run of the last row, or a vertical mode, goes beyond the row's end and was cut there, where a strict
    /// reading fails (T.4, 4.1.1); false before the first row, and for a row that was repaired.
    pub fn is_cut(&self) -> bool
        ensures { result ≡ self.now.rows.cut }
    {
        self.rows.cut
    }

    /// Returns the offset in bits at which an EOL was missed before the last row, as
    /// `RowReader::missed_eol` does.
    pub fn missed_eol(&self) -> Option<usize>
        ensures { result ≡ self.now.rows.missed }
    {
        self.rows.missed
    }

    /// Returns the number of rows read whose line was damaged and repaired.
    pub fn damaged_rows(&self) -> u64
        ensures { result ≡ self.now.ctx.held.repairs.rows }
    {
        self.ctx.damaged_rows()
    }

    /// Returns the number of rows read in which a run was cut.
    pub fn cut_rows(&self) -> u64
        ensures { result ≡ self.now.ctx.held.repairs.cut }
    {
        self.ctx.cut_rows()
    }

    /// Returns the number of rows read after which the EOL was missed (T.4, 4.1.2).
    pub fn missed_eols(&self) -> u64
        ensures { result ≡ self.now.ctx.held.repairs.missed }
    {
        self.ctx.missed_eols()
    }

    /// Returns the number of bytes consumed so far, as `RowReader::bytes_read` does.
    pub fn bytes_read(&self) -> usize
        ensures { result ≡ (offset_of self.now + 7) / 8 }
    {
        ((self.dropped + self.place).saturating_sub(self.gap.passed) + 7) / 8
    }

    /// Returns how many bytes were fed and aren't consumed; a byte of which a bit was read is.
    pub fn unused_len(&self) -> usize
        ensures { 8 * result ≡ unused_size self.now }
    {
        let fed = (self.dropped + self.data.len() * 8) / 8;
        fed.saturating_sub(self.bytes_read())
    }

    /// Writes the zeros with which the data ends, of which only the number is kept, and before them the tag of one, if it was counted
    /// and isn't consumed.
    #[cold]
    fn write_zeros_left(&self, bytes: &mut [u8])
        requires zeros { self.now.gap.at_zeros ≡ true }
        requires long { 8 * length bytes.old ≡ unused_size self.now }
        ensures { (whole : Bits) (tried : ℕ) → IsFeedOf whole tried self.now
            → bits_in self.now.order bytes.new ≡ unused (completed whole self.now) }
    {
        let offset = (self.dropped + self.place).saturating_sub(self.gap.passed);
        if begins_with_one(self.gap.count.tag, offset, bytes.len()) {
            write_one_and_zeros(self.order, bytes);
            return;
        }
        write_zeros(bytes);
    }

    /// Returns whether the bytes that were fed and aren't consumed are kept. They aren't where bits of the gap that is next were
    /// counted, and more data may follow: then only their number is kept. At the end of the image they are.
    pub fn keeps_unused(&self) -> bool
        ensures kept { result ≡ keeps_unused self.now }
        ensures unended { result ≡ false → ended self.now.rows.stand ≡ None }
    {
        self.gap.at_zeros || self.gap.passed == 0
    }

    /// Writes the bytes that were fed and aren't consumed, which are as many as [`unused_len`](RowFeed::unused_len) returns, and
    /// returns true. At the end of the image they are what was fed after it. Returns false and writes nothing where they aren't kept,
    /// as [`keeps_unused`](RowFeed::keeps_unused) says.
    pub fn copy_unused(&self, bytes: &mut [u8]) -> bool
        requires long { 8 * length bytes.old ≡ unused_size self.now }
        ensures copied { result ≡ true → (whole : Bits) (tried : ℕ) → IsFeedOf whole tried self.now
            → bits_in self.now.order bytes.new ≡ unused (completed whole self.now) }
        ensures unwritten { result ≡ false → bytes.new ≡ bytes.old }
        ensures kept { result ≡ keeps_unused self.now }
        ensures unended { result ≡ false → ended self.now.rows.stand ≡ None }
    {
        if self.gap.at_zeros {
            self.write_zeros_left(bytes);
            return true;
        }
        if self.gap.passed > 0 {
            return false;
        }
        bytes.copy_from_slice(&self.data[self.place.div_ceil(8)..]);
        true
    }

    /// Returns the settings by which the rows are read.
    pub fn settings(&self) -> DecodeSettings
        ensures { result ≡ self.now.ctx.held.settings }
    {
        self.ctx.settings()
    }
}
