//! A gap that ends with the zeros with which the data ends, and the line that begins with them, where only their number is kept.

ghost use Rattle.std.specs.Prelude.{◌≡◌, ◌≤◌, ◌<◌, ◌-◌, ◌+◌, ◌^◌, true, false, not, None, IfErr, Ok, ℕ, [], drop};
ghost use Rattle.fax_bits.specs.Bits.{Bits, bits_of};
ghost use Rattle.fax_bits.specs.EndOfLine.{next_eol};
ghost use Rattle.fax_reading.specs.PlainReading.{at_end, is_over, misses_eol};
ghost use Rattle.fax_rows.specs.RowsTried.{PassesGap, TriesRow, rows_after_gap};
ghost use Rattle.fax_rows.specs.TakenRows.{CanTakeRow};
ghost use Rattle.fax_rows.specs.RowsRead.{line_after};
ghost use Rattle.fax_rows.specs.ZerosLast.{ChangesEols, CountsZeros, EndsInZeros, PassesZeros, given_up, zeros_at, zeros_passed};

use crate::counts::count_missed_eol;
use crate::gap_count::{GapCount, ends_image, has_tags, lacks_eol};
use crate::row_reader::{RowState, Stand, missed_since};
use crate::rows::try_row;
use fax_bits::bit_reader::{BitOrder, placed_at};
use fax_bits::{DecodeError, EncodingMode, Result};
use fax_lines::context::DecoderContext;

/// Passes the gap at this offset, in which an EOL is missing and none comes later (T.4, 4.1.2): strict data fails, and in other
/// data EOLs are no longer sought. Returns whether a line follows.
fn give_up_eols(rows: &mut RowState, ctx: &mut DecoderContext, gap_start: usize) -> Result<bool>
    ensures passes { (start : Bits)
        → misses_eol ctx.old.held.settings ctx.old.held.taken ctx.old.held.has_eols start ≡ true → next_eol start ≡ None
        → PassesGap ctx.old ctx.new (given_up ctx.old.held.settings.strict) start start }
    ensures kept { rows.new ≡ rows_after_gap rows.old (given_up ctx.old.held.settings.strict) gap_start ctx.old ctx.new }
    ensures line { result ≡ line_after (given_up ctx.old.held.settings.strict) }
    ensures stand { result ≡ Ok true → rows.new.stand ≡ Stand.AtLine }
    ensures only_code { IfErr result (λ e. e ≡ DecodeError.InvalidCode) }
    ensures frame { ChangesEols ctx.old ctx.new }
{
    let missed_eols = ctx.missed_eols();
    if ctx.settings().strict {
        rows.missed = None;
        rows.started_at = gap_start;
        rows.stand = Stand::AtFault(DecodeError::InvalidCode);
        return Err(DecodeError::InvalidCode);
    }
    count_missed_eol(ctx);
    ctx.set_has_eols(false);
    rows.missed = missed_since(ctx, missed_eols, gap_start);
    rows.stand = Stand::AtLine;
    Ok(true)
}

/// Passes the EOLs that were counted of the gap with which the data ends, where none is missing, and the tag of RTC with them
/// (T.4, 4.2.4). Returns whether a line follows.
fn pass_counted_zeros(rows: &mut RowState, ctx: &DecoderContext, count: &mut GapCount) -> bool
    ensures over { (rest : Bits) → at_end rest ≡ false
        → is_over ctx.now.held.settings ctx.now.held.taken (count.old.eols, rest) ≡ not result }
    ensures kept { (place : ℕ) → rows.new ≡ rows_after_gap rows.old (Ok (not result)) place ctx.now ctx.now }
    ensures count { count.new ≡ zeros_passed ctx.now.held.settings.encoding count.old }
    ensures stand { result ≡ true → rows.new.stand ≡ Stand.AtLine }
{
    if count.eols >= 6 && has_tags(ctx.settings()) {
        count.tag = false;
    }
    rows.missed = None;
    if ends_image(ctx, count, false) {
        rows.stand = Stand::AtEnd;
        return false;
    }
    rows.stand = Stand::AtLine;
    true
}

/// Passes the gap with which the data ends, at this offset if no EOL was counted: after the EOLs that were counted there are a tag
/// of one, if it was counted, and zeros. Returns whether a line follows, which has that tag and these zeros.
pub fn pass_to_zeros(
    rows: &mut RowState,
    ctx: &mut DecoderContext,
    count: &mut GapCount,
    gap_start: usize,
) -> Result<bool>
    requires after { rows.old.stand ≡ Stand.AfterRow }
    requires enough { 11 ≤ count.old.zeros }
    ensures passes { (from : ℕ) (whole : Bits) (start : ℕ) → EndsInZeros from rows.old ctx.old whole start count.old
        → (count.old.eols ≡ 0 → start ≡ gap_start)
        → PassesZeros from rows.old rows.new ctx.old ctx.new whole start count.new result }
    ensures count { count.new ≡ zeros_passed ctx.old.held.settings.encoding count.old }
    ensures stand { result ≡ Ok true → rows.new.stand ≡ Stand.AtLine }
    ensures only_code { IfErr result (λ e. e ≡ DecodeError.InvalidCode) }
    ensures frame { ChangesEols ctx.old ctx.new }
{
    if lacks_eol(ctx, count.eols) {
        return give_up_eols(rows, ctx, gap_start);
    }
    Ok(pass_counted_zeros(rows, ctx, count))
}

/// Returns three bytes whose last bits, so many, are a tag of one, if there is one, and zeros.
fn bytes_of_zeros(tag: bool, bits: usize) -> [u8; 3]
    requires some { 12 ≤ bits }
    requires few { bits < 20 }
    ensures tagged { tag ≡ true → drop (24 - bits) (bits_of result) ≡ (zeros_at true (bits - 1)).bits }
    ensures plain { tag ≡ false → drop (24 - bits) (bits_of result) ≡ (zeros_at false bits).bits }
{
    if !tag {
        return [0, 0, 0];
    }
    match bits {
        12 => [0, 0x08, 0],
        13 => [0, 0x10, 0],
        14 => [0, 0x20, 0],
        15 => [0, 0x40, 0],
        16 => [0, 0x80, 0],
        17 => [0x01, 0, 0],
        18 => [0x02, 0, 0],
        _ => [0x04, 0, 0],
    }
}

/// Reads the line that the last bits of the data are: a tag of one, or none, and so many zeros. It is broken (T.4, 4.1.2), so
/// after its row, if it is repaired, the same bits are next.
pub fn try_zeros(ctx: &mut DecoderContext, tag: bool, zeros: usize) -> Result<bool>
    requires enough { 16 ≤ zeros }
    requires room { CanTakeRow ctx.old.held }
    requires begun { ctx.old.held.front ≡ [] }
    ensures row { 0 < ctx.old.held.settings.columns → (tag ≡ true → ctx.old.held.settings.encoding ≡ EncodingMode.Group3_2D)
        → TriesRow true ctx.old ctx.new result (zeros_at tag zeros) (zeros_at tag zeros) }
    ensures counts { CountsZeros ctx.old ctx.new result }
{
    // Twelve to nineteen bits decide it, before which there are whole bytes of zeros.
    let tags = if tag { 1 } else { 0 };
    let bits = 12 + (zeros - (12 - tags)) % 8;
    let bytes = bytes_of_zeros(tag, bits);
    let mut reader = placed_at(&bytes, BitOrder::HighestFirst, 24 - bits);
    try_row(ctx, &mut reader, false)
}
