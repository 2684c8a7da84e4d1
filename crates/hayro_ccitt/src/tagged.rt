//! Whether damage to a line of two-dimensional data stays before the next one-dimensional line.

ghost use Rattle.std.specs.Prelude.{◌≡◌, ◌≢◌, ◌+◌, ◌-◌, ◌*◌, ◌^◌, ◌<◌, ◌≤◌, ◌⊎◌, ◌↔◌, ℕ, Some, None, Ok};
ghost use Rattle.std.specs.Prelude.{OnOk, IfOk, IfSome, IsOkUnless};
ghost use Rattle.std.specs.Prelude.{IsTrue, true, false, length, drop, []};
ghost use Rattle.hayro_ccitt.specs.Bits.{BitsFit, bits_in, here};
ghost use Rattle.hayro_ccitt.specs.EndOfLine.{after_eol, next_eol};
ghost use Rattle.hayro_ccitt.specs.Context.{fresh};
ghost use Rattle.hayro_ccitt.specs.Decoding.{ReadsLine};
ghost use Rattle.hayro_ccitt.specs.LocalityByK.{IsReadBefore, IsTagOfLine, IsTaggedBody};
ghost use Rattle.hayro_ccitt.specs.Rows.{changes};
ghost use Rattle.hayro_ccitt.specs.Work.{found_here, most_counted};
ghost use Rattle.hayro_ccitt.specs.RowsRead.{IsStandingAtLine, is_at_line};
ghost use Rattle.fax_rows.specs.TakenRows.{CanTakeRow};
ghost use Rattle.hayro_ccitt.specs.TaggedBodies.{CanComeTo, ComesFirst, EndsHere, IsLocal2D, IsNotRead, IsTaggedBodyTo};
ghost use Rattle.hayro_ccitt.specs.TaggedBodies.{MayEndBefore, PassesLine, ReadsRowHere, most_for_tagged_body};

use crate::locality::{end_of_eol, holds_eol, holds_one, is_following_eol, wants_memory};
use crate::reach::is_lenient_2d;
use crate::{DecodeError, DecodeSettings, EncodingMode, Result};
use fax_bits::bit_reader::{BitOrder, BitReader, at_place};
use fax_bits::codes::Ticks;
use fax_lines::context::{DecoderContext, decode_1d_line, decode_2d_line};
use fax_rows::row_reader::{RowState, first_stand, has_ended};
use fax_rows::rows::try_row;

/// Returns whether so many EOLs with their tags, after which this offset is, are RTC and end at another offset: a tag of
/// one after six or more is passed too (T.4, 4.2.4).
fn are_rtc_before(count: usize, after: usize, end: usize) -> bool
    requires { end + 1 < 2 ^ 64 }
    ensures { IsTrue result ↔ ((6 ≤ count) × ((after ≡ end) ⊎ (after ≡ end + 1))) }
{
    count >= 6 && (after == end || after == end + 1)
}

/// Returns whether the tag at an offset where an EOL ends, or the data begins, is a line's and not that of RTC: whether
/// fewer than six EOLs with their tags end there, wherever they begin (T.4, 4.2.2 and 4.2.4).
fn is_tag_of_line(order: BitOrder, data: &[u8], end: usize, ticks: &mut Ticks) -> bool
    requires fit { BitsFit «data».now }
    requires within { end ≤ 8 * length «data».now }
    requires eol { (end ≡ 0) ⊎ ((12 ≤ end)
        × (after_eol 0 (drop (end - 12) (bits_in order «data».now)) ≡ Some (drop end (bits_in order «data».now)))) }
    ensures tag { IsTrue result ↔ IsTagOfLine (bits_in order «data».now) end }
    ensures counts { ticks.old ≤ ticks.new }
    ensures at_most { ticks.new ≤ ticks.old + 5 * length (bits_in order «data».now) }
{
    let mut reader = at_place(data, order, 0);
    'eols: while reader.bit_pos() < end {
        if !reader.skip_to_eol(ticks) {
            return true;
        }
        let count = reader.read_tagged_eols(ticks);
        if are_rtc_before(count, reader.bit_pos(), end) {
            return false;
        }
    }
    true
}

/// Reads the row of the line here. If its line has a fault and isn't repaired, the reading has ended. `OutOfMemory` is the
/// only error.
fn read_row_here(
    rows: &mut RowState,
    ctx: &mut DecoderContext,
    reader: &mut BitReader<'_>,
) -> Result<()>
    requires room { CanTakeRow ctx.old.held }
    requires begun { ctx.old.held.front ≡ [] }
    ensures reads { OnOk result (ReadsRowHere rows.old rows.new ctx.old ctx.new reader.old reader.new) }
    ensures only_memory { IsOkUnless result DecodeError.OutOfMemory }
    ensures settings { ctx.new.held.settings ≡ ctx.old.held.settings }
    ensures same_bits { reader.new.bits ≡ reader.old.bits }
    ensures counts { ctx.old.ticks ≤ ctx.new.ticks }
    ensures at_most { ctx.new.ticks ≤ ctx.old.ticks
        + 4 * length (found_here ctx.old.held.settings ctx.old.held.reference (here reader.old)) + 2
        + length (changes ctx.old.held.reference) }
{
    let line_start = reader.bit_pos();
    let damaged_rows = ctx.damaged_rows();
    let cut_rows = ctx.cut_rows();
    let read = try_row(ctx, reader, true);
    // An offset is known to be within the data once it is read.
    let _end = reader.bit_pos();
    match read {
        Ok(_) => {
            rows.note_line(ctx, &Ok(()), line_start, damaged_rows, cut_rows);
            Ok(())
        }
        Err(error) if wants_memory(error) => Err(error),
        Err(error) => {
            rows.note_line(ctx, &Err(error), line_start, damaged_rows, cut_rows);
            Ok(())
        }
    }
}

/// Reads the row of the line here and passes the gap after it, and returns whether another line follows. `OutOfMemory` is
/// the only error.
fn pass_line(
    rows: &mut RowState,
    ctx: &mut DecoderContext,
    reader: &mut BitReader<'_>,
) -> Result<bool>
    requires at { (base : ℕ) × IsStandingAtLine base rows.old ctx.old reader.old }
    ensures passes { IfOk result (PassesLine rows.old rows.new ctx.old ctx.new reader.old reader.new) }
    ensures only_memory { IsOkUnless result DecodeError.OutOfMemory }
    ensures settings { ctx.new.held.settings ≡ ctx.old.held.settings }
    ensures same_bits { reader.new.bits ≡ reader.old.bits }
    ensures counts { (base : ℕ) → IsStandingAtLine base rows.old ctx.old reader.old → base ≤ ctx.new.ticks }
    ensures at_most { (base : ℕ) → IsStandingAtLine base rows.old ctx.old reader.old
        → ctx.new.ticks ≤ base + most_counted ctx.old.held.settings.encoding (length reader.old.bits) }
{
    // The number of bits is known to be small once an offset is read.
    let _start = reader.bit_pos();
    if let Err(error) = read_row_here(rows, ctx, reader) {
        return Err(error);
    }
    if has_ended(rows.stand) {
        return Ok(false);
    }
    let gap_start = reader.bit_pos();
    match rows.pass_gap_here(ctx, reader, gap_start) {
        Ok(follows) => Ok(follows),
        Err(_) => Ok(false),
    }
}

/// Reads rows from the start of two-dimensional data on, and returns whether the reading comes to a line that begins at an
/// offset; it is there then. `OutOfMemory` is the only error.
fn come_to_line_at(
    ctx: &mut DecoderContext,
    reader: &mut BitReader<'_>,
    place: usize,
) -> Result<bool>
    requires { CanComeTo ctx.old.held reader.old place }
    ensures there { result ≡ Ok true → ComesFirst ctx.old.ticks ctx.old.held.settings reader.old.bits place ctx.new }
    ensures at { result ≡ Ok true → reader.new.place ≡ place }
    ensures none { result ≡ Ok false → IsNotRead ctx.old.held.settings reader.old.bits place }
    ensures only_memory { IsOkUnless result DecodeError.OutOfMemory }
    ensures kept { (ctx.new.held.settings ≡ ctx.old.held.settings) × (reader.new.bits ≡ reader.old.bits) }
    ensures counts { ctx.old.ticks ≤ ctx.new.ticks }
    ensures at_most { ctx.new.ticks ≤ ctx.old.ticks + most_counted ctx.old.held.settings.encoding (length reader.old.bits) }
{
    let mut rows = RowState::new(first_stand(ctx, reader));
    if has_ended(rows.stand) {
        return Ok(false);
    }
    'lines: while reader.bit_pos() < place {
        match pass_line(&mut rows, ctx, reader) {
            Ok(true) => {}
            Ok(false) => return Ok(false),
            Err(error) => return Err(error),
        }
    }
    Ok(reader.bit_pos() == place)
}

/// Decodes the line here as `decode_2d_line` does, and so as a line of T.6 data.
fn decode_untagged_line(ctx: &mut DecoderContext, reader: &mut BitReader<'_>) -> Result<()>
    ensures line { ReadsLine EncodingMode.Group4 1 ctx.old ctx.new result reader.old reader.new }
{
    decode_2d_line(ctx, reader)
}

/// Decodes a line of the kind that its tag selects (T.4, 4.2.2). A missing tag is `UnexpectedEof`, with nothing painted.
fn decode_line_by_tag(ctx: &mut DecoderContext, reader: &mut BitReader<'_>) -> Result<()>
    requires begun { ctx.old.held.front ≡ [] }
    ensures line { ReadsLine EncodingMode.Group3_2D 2 ctx.old ctx.new result reader.old reader.new }
{
    let tag = reader.read_bit()?;
    ctx.ticks().tick();
    if tag == 1 {
        decode_1d_line(ctx, reader)
    } else {
        decode_untagged_line(ctx, reader)
    }
}

/// Returns whether the line here, read against the reference row, is broken or ends at least twelve bits before an offset.
/// `OutOfMemory` is the only error.
fn line_here_ends_before(
    ctx: &mut DecoderContext,
    reader: &mut BitReader<'_>,
    end: usize,
) -> Result<bool>
    requires encoding { ctx.old.held.settings.encoding ≡ EncodingMode.Group3_2D }
    requires begun { ctx.old.held.front ≡ [] }
    requires within { end ≤ length reader.old.bits }
    ensures before { IfOk result (λ before. IsTrue before ↔ EndsHere ctx.old.held.settings ctx.old.held.reference
        (here reader.old) (drop end reader.old.bits)) }
    ensures only_memory { IsOkUnless result DecodeError.OutOfMemory }
    ensures settings { ctx.new.held.settings ≡ ctx.old.held.settings }
    ensures counts { ctx.old.ticks ≤ ctx.new.ticks }
    ensures at_most { ctx.new.ticks ≤ ctx.old.ticks
        + 4 * length (found_here ctx.old.held.settings ctx.old.held.reference (here reader.old)) + 2
        + length (changes ctx.old.held.reference) }
{
    match decode_line_by_tag(ctx, reader) {
        Ok(()) => Ok(reader.bit_pos() + 12 <= end),
        Err(error) if wants_memory(error) => Err(error),
        Err(_) => Ok(true), // A broken line has no end.
    }
}

/// Returns whether the line at an offset of two-dimensional data, as it is read, is broken or ends at least twelve bits
/// before another, or no line is read there. `OutOfMemory` is the only error.
fn is_read_before(
    order: BitOrder,
    data: &[u8],
    ctx: &mut DecoderContext,
    from: usize,
    end: usize,
) -> Result<bool>
    requires fit { BitsFit «data».now }
    requires encoding { ctx.old.held.settings.encoding ≡ EncodingMode.Group3_2D }
    requires line { MayEndBefore (bits_in order «data».now) from end }
    ensures before { IfOk result (λ before. IsTrue before
        ↔ IsReadBefore ctx.old.held.settings (bits_in order «data».now) from (drop end (bits_in order «data».now))) }
    ensures only_memory { IsOkUnless result DecodeError.OutOfMemory }
    ensures settings { ctx.new.held.settings ≡ ctx.old.held.settings }
    ensures counts { ctx.old.ticks ≤ ctx.new.ticks }
    ensures at_most { ctx.new.ticks ≤ ctx.old.ticks
        + most_counted ctx.old.held.settings.encoding (length (bits_in order «data».now)) }
{
    if ctx.settings().columns == 0 {
        return Ok(true); // Each line is its tag.
    }
    ctx.reset();
    let mut reader = at_place(data, order, 0);
    match come_to_line_at(ctx, &mut reader, from) {
        Ok(true) => line_here_ends_before(ctx, &mut reader, end),
        Ok(false) => Ok(true), // No whole line is read there.
        Err(error) => Err(error),
    }
}

/// Returns where the EOL ends that begins at `to`, if the tag and the body of a line of two-dimensional data lie between
/// the offsets, as far as the bits alone show it: only where the line ends as it is read isn't tested. Each bit that is
/// examined is a tick.
fn end_of_tagged_body(
    order: BitOrder,
    data: &[u8],
    from: usize,
    to: usize,
    ticks: &mut Ticks,
) -> Option<usize>
    requires fit { BitsFit «data».now }
    requires within { to ≤ 8 * length «data».now }
    ensures body { IfSome result (λ end. IsTaggedBodyTo (bits_in order «data».now) from to end) }
    ensures none { result ≡ None
        → (settings : DecodeSettings) → IsTaggedBody settings (bits_in order «data».now) from to → ⊥ }
    ensures counts { ticks.old ≤ ticks.new }
    ensures at_most { ticks.new ≤ ticks.old + 10 * length (bits_in order «data».now) }
{
    if from >= to {
        return None;
    }
    if !is_following_eol(order, data, from, ticks) {
        return None;
    }
    if !holds_one(order, data, from + 1, to, ticks) {
        return None;
    }
    let Some(end) = end_of_eol(order, data, to, ticks) else {
        return None;
    };
    if holds_eol(order, data, from, to, ticks) {
        return None;
    }
    if !is_tag_of_line(order, data, from, ticks) {
        return None;
    }
    Some(end)
}

/// Returns whether the tag and the body of a line of lenient two-dimensional data of Group 3 lie from `from` to `to` (T.4,
/// 4.2.2): then damage to these bits changes at most that line's row and, of those after it, as many as
/// [`rows_reached`](crate::rows_reached) says, if the damaged bits are such a line too. An EOL ends at `from`, or it is 0;
/// the bits contain a one after the first, which is the tag, and no EOL; fewer than six EOLs with their tags end at `from`,
/// which six would make RTC; an EOL begins at `to`; and the line that is read at `from`, if one is, is broken or ends
/// before the last twelve bits of that EOL. Each byte has its bits in this order. Offsets are counted in bits; if they are
/// out of range or order, and with other settings, the result is false.
///
/// [`laws::locality_by_k`](crate::laws::locality_by_k) says what follows. Where the line ends depends on the rows before
/// it: they are read from the start of the data on. The settings don't change; the rest of the context is unspecified
/// afterwards, and it may be used again. The work is in proportion to the bits of the data.
///
/// # Errors
///
/// `OutOfMemory` occurs only while a change of a row is stored.
pub fn tagged_body_is_local(
    order: BitOrder,
    data: &[u8],
    ctx: &mut DecoderContext,
    from: usize,
    to: usize,
) -> Result<bool>
    requires fit { BitsFit «data».now }
    ensures local { IfOk result (λ local. IsTrue local
        ↔ IsLocal2D ctx.old.held.settings (bits_in order «data».now) from to) }
    ensures only_memory { IsOkUnless result DecodeError.OutOfMemory }
    ensures settings { ctx.new.held.settings ≡ ctx.old.held.settings }
    ensures counts { ctx.old.ticks ≤ ctx.new.ticks }
    ensures at_most { ctx.new.ticks ≤ ctx.old.ticks + most_for_tagged_body (length (bits_in order «data».now)) }
{
    if !is_lenient_2d(ctx.settings()) {
        return Ok(false);
    }
    if to > data.len() * 8 {
        return Ok(false);
    }
    let Some(end) = end_of_tagged_body(order, data, from, to, ctx.ticks()) else {
        return Ok(false);
    };
    is_read_before(order, data, ctx, from, end)
}
