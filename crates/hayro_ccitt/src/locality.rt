//! Whether damage to a line stays in that line.

ghost use Rattle.std.specs.Prelude.{◌≡◌, ◌≢◌, ◌+◌, ◌-◌, ◌*◌, ◌≤◌, ◌⊎◌, ◌↔◌, Err, Some, IsTrue, IfOk, IfSome, IsOkUnless, is_some};
ghost use Rattle.std.specs.Prelude.{option_map, false, length, take, drop, replicate};
ghost use Rattle.hayro_ccitt.specs.Answers.{HasBlack, front_of};
ghost use Rattle.hayro_ccitt.specs.Bits.{BitsFit, bits_in};
ghost use Rattle.hayro_ccitt.specs.EndOfLine.{after_eol, next_eol};
ghost use Rattle.hayro_ccitt.specs.Lines.{line_1d, found_1d};
ghost use Rattle.hayro_ccitt.specs.Locality.{IsLocal, IsEolAt, EndsBefore};
ghost use Rattle.hayro_ccitt.specs.ContextSteps.{GrowsForBits};
ghost use Rattle.hayro_ccitt.specs.Ticks.{looked};
ghost use Rattle.hayro_ccitt.specs.Work.{most_for_body};

use crate::{DecodeError, DecodeSettings, EncodingMode, Result};
use fax_bits::bit_reader::{BitOrder, at_place};
use fax_bits::codes::{Ticks, pass_eol};
use fax_lines::context::{DecoderContext, decode_1d_line};

/// Returns whether these settings are those of lenient one-dimensional data of Group 3.
fn is_lenient_1d(settings: DecodeSettings) -> bool
    ensures { IsTrue result ↔ ((settings.encoding ≡ EncodingMode.Group3_1D) × (settings.strict ≡ false)) }
{
    matches!(settings.encoding, EncodingMode::Group3_1D) && !settings.strict
}

/// Returns whether an error is an allocation failure.
pub(crate) fn wants_memory(error: DecodeError) -> bool
    ensures { IsTrue result ↔ (error ≡ DecodeError.OutOfMemory) }
{
    matches!(error, DecodeError::OutOfMemory)
}

/// Returns whether an EOL ends at an offset, or the data begins there. Each bit that is examined is a tick.
pub(crate) fn is_following_eol(
    order: BitOrder,
    data: &[u8],
    place: usize,
    ticks: &mut Ticks,
) -> bool
    requires fit { BitsFit «data».now }
    requires within { place ≤ 8 * length «data».now }
    ensures after { IsTrue result ↔ ((place ≡ 0) ⊎ ((12 ≤ place)
        × (after_eol 0 (drop (place - 12) (bits_in order «data».now)) ≡ Some (drop place (bits_in order «data».now))))) }
    ensures counts { ticks.old ≤ ticks.new }
    ensures at_most { ticks.new ≤ ticks.old + looked (drop (place - 12) (bits_in order «data».now)) }
{
    if place < 12 {
        return place == 0;
    }
    match end_of_eol(order, data, place - 12, ticks) {
        Some(end) => end == place,
        None => false,
    }
}

/// Returns whether there is a one between two offsets. Each bit that is examined is a tick.
pub(crate) fn holds_one(
    order: BitOrder,
    data: &[u8],
    from: usize,
    to: usize,
    ticks: &mut Ticks,
) -> bool
    requires fit { BitsFit «data».now }
    requires order { from ≤ to }
    requires within { to ≤ 8 * length «data».now }
    ensures one { IsTrue result
        ↔ (take (to - from) (drop from (bits_in order «data».now)) ≢ replicate (to - from) false) }
    ensures work { ticks.new ≡ ticks.old + looked (drop from (bits_in order «data».now)) }
{
    let (zeros, _) = at_place(data, order, from).zero_run(ticks);
    zeros < to - from
}

/// Returns the offset after the EOL at an offset. Each bit that is examined is a tick.
pub(crate) fn end_of_eol(
    order: BitOrder,
    data: &[u8],
    place: usize,
    ticks: &mut Ticks,
) -> Option<usize>
    requires fit { BitsFit «data».now }
    requires within { place ≤ 8 * length «data».now }
    ensures end { after_eol 0 (drop place (bits_in order «data».now))
        ≡ option_map (λ end. drop end (bits_in order «data».now)) result }
    ensures within { IfSome result (λ end. end ≤ 8 * length «data».now) }
    ensures work { ticks.new ≡ ticks.old + looked (drop place (bits_in order «data».now)) }
{
    let mut reader = at_place(data, order, place);
    if !pass_eol(&mut reader, ticks) {
        return None;
    }
    Some(reader.bit_pos())
}

/// Returns whether there is an EOL between two offsets, the second of which is the start of one. Each bit that is
/// examined is a tick.
pub(crate) fn holds_eol(
    order: BitOrder,
    data: &[u8],
    from: usize,
    to: usize,
    ticks: &mut Ticks,
) -> bool
    requires fit { BitsFit «data».now }
    requires order { from ≤ to }
    requires within { to ≤ 8 * length «data».now }
    requires eol { IsEolAt (drop to (bits_in order «data».now)) }
    ensures eol { result ≡ is_some (next_eol (take (to - from) (drop from (bits_in order «data».now)))) }
    ensures counts { ticks.old ≤ ticks.new }
    ensures at_most { ticks.new ≤ ticks.old + 2 * (to - from) + 2 * looked (drop to (bits_in order «data».now)) }
{
    let mut reader = at_place(data, order, from);
    if !reader.skip_to_eol(ticks) {
        return false;
    }
    match end_of_eol(order, data, reader.bit_pos(), ticks) {
        Some(end) => end <= to,
        None => false,
    }
}

/// Returns whether the line at an offset, if it is whole, ends at least twelve bits before another offset.
/// `OutOfMemory` occurs only if the line paints a black pixel.
fn line_ends_before(
    order: BitOrder,
    data: &[u8],
    ctx: &mut DecoderContext,
    from: usize,
    end: usize,
) -> Result<bool>
    requires fit { BitsFit «data».now }
    requires from { from ≤ 8 * length «data».now }
    requires within { end ≤ 8 * length «data».now }
    requires lenient { ctx.old.held.settings.strict ≡ false }
    ensures before { IfOk result (λ before. IsTrue before
        ↔ EndsBefore ctx.old.held.settings.columns (drop end (bits_in order «data».now)) (drop from (bits_in order «data».now))) }
    ensures memory { result ≡ Err DecodeError.OutOfMemory
        → HasBlack (front_of (line_1d false ctx.old.held.settings.columns (drop from (bits_in order «data».now)))) }
    ensures only_memory { IsOkUnless result DecodeError.OutOfMemory }
    ensures settings { ctx.new.held.settings ≡ ctx.old.held.settings }
    ensures counts { ctx.old.ticks ≤ ctx.new.ticks }
    ensures at_most { ctx.new.ticks ≤ ctx.old.ticks
        + length (found_1d ctx.old.held.settings.strict ctx.old.held.settings.columns (drop from (bits_in order «data».now))) + 1 }
    ensures space { GrowsForBits (bits_in order «data».now) ctx.old ctx.new }
{
    ctx.reset();
    let mut reader = at_place(data, order, from);
    match decode_1d_line(ctx, &mut reader) {
        Ok(()) => Ok(reader.bit_pos() + 12 <= end),
        Err(error) if wants_memory(error) => Err(error),
        Err(_) => Ok(true), // A broken line has no end.
    }
}

/// Returns whether damage to the bits from `from` to `to` stays in one line: in lenient one-dimensional data of Group 3
/// they are the body of a line (T.4, 4.1). An EOL ends at `from`, or it is 0; the bits contain a one and no EOL;
/// an EOL begins at `to`; and the line that is read at `from`, with the context's `columns`, is broken or ends before
/// the last twelve bits of that EOL. Each byte has its bits in this order. Offsets are counted in bits; if they are out of
/// range or order, and with other settings, the result is false.
///
/// The settings don't change; the rest of the context is unspecified afterwards, and it may be used again.
///
/// The work is in proportion to the bits between the offsets, the fill of the EOL at `to` and the words of the line: no
/// other bits are examined but the twelve before `from`.
///
/// # Errors
///
/// `OutOfMemory` occurs only while a change of the line is stored, so only if it paints a black pixel.
pub fn body_is_local(
    order: BitOrder,
    data: &[u8],
    ctx: &mut DecoderContext,
    from: usize,
    to: usize,
) -> Result<bool>
    requires fit { BitsFit «data».now }
    ensures local { IfOk result (λ local. IsTrue local ↔ IsLocal ctx.old.held.settings (bits_in order «data».now) from to) }
    ensures memory { result ≡ Err DecodeError.OutOfMemory
        → HasBlack (front_of (line_1d ctx.old.held.settings.strict ctx.old.held.settings.columns
        (drop from (bits_in order «data».now)))) }
    ensures only_memory { IsOkUnless result DecodeError.OutOfMemory }
    ensures settings { ctx.new.held.settings ≡ ctx.old.held.settings }
    ensures counts { ctx.old.ticks ≤ ctx.new.ticks }
    ensures at_most { ctx.new.ticks
        ≤ ctx.old.ticks + most_for_body ctx.old.held.settings (bits_in order «data».now) from to }
    ensures space { GrowsForBits (bits_in order «data».now) ctx.old ctx.new }
{
    if !is_lenient_1d(ctx.settings()) || from > to || to > data.len() * 8 {
        return Ok(false);
    }
    if !is_following_eol(order, data, from, ctx.ticks()) {
        return Ok(false);
    }
    if !holds_one(order, data, from, to, ctx.ticks()) {
        return Ok(false);
    }
    let Some(end) = end_of_eol(order, data, to, ctx.ticks()) else {
        return Ok(false);
    };
    if holds_eol(order, data, from, to, ctx.ticks()) {
        return Ok(false);
    }
    line_ends_before(order, data, ctx, from, end)
}
