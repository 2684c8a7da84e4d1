//! How many rows damage to a line of two-dimensional data may change.

ghost use Rattle.std.specs.Prelude.{◌≡◌, ◌+◌, ◌*◌, ◌<◌, ◌≤◌, ◌⊎◌, ◌↔◌, [], ◌∷◌, ℕ, suc, Some, IfSome, IsTrue, true, false};
ghost use Rattle.std.specs.Prelude.{length, drop, if◌then◌else◌, is_some, option_map, None, Ok, Err};
ghost use Rattle.hayro_ccitt.specs.Counting.{OnlyCounts};
ghost use Rattle.hayro_ccitt.specs.Bits.{Bits, BitsFit, bits_in, here};
ghost use Rattle.hayro_ccitt.specs.EndOfLine.{after_eol, next_eol};
ghost use Rattle.hayro_ccitt.specs.LocalityByK.{ComeBefore1D, IsFollowedBy, IsLine2D, ReadsModes, after_mode};
ghost use Rattle.hayro_ccitt.specs.Runs.{read_run};
ghost use Rattle.hayro_ccitt.specs.{Ticks.looked, Ticks.run_found, Work.mode_found, Work.most_for_lines};

use crate::{DecodeError, DecodeSettings, EncodingMode};
use fax_bits::bit_reader::{BitOrder, BitReader, at_place, copy};
use fax_bits::codes::{Color, Mode, pass_eol};
use fax_lines::context::{DecoderContext, reading_parts};

/// Passes a run of a colour without drawing it, and returns its length. If there is none, it returns `None`, and the
/// offset is unspecified.
pub(crate) fn run_length(
    ctx: &mut DecoderContext,
    color: Color,
    reader: &mut BitReader<'_>,
) -> Option<u32>
    ensures run { (n : ℕ) → result ≡ Some n → read_run color (here reader.old) ≡ Ok (n, here reader.new) }
    ensures none { result ≡ None → (fault : DecodeError) × (read_run color (here reader.old) ≡ Err fault) }
    ensures same_bits { reader.new.bits ≡ reader.old.bits }
    ensures only_ticks { OnlyCounts ctx.old ctx.new }
    ensures cut { ctx.new.cut ≡ ctx.old.cut }
    ensures at_most { ctx.new.ticks
        ≤ ctx.old.ticks + length (run_found color (0, here reader.old)) + (if is_some result then 0 else 1) }
{
    let (_, tables, ticks) = reading_parts(ctx);
    match reader.decode_run(color, tables, ticks) {
        Ok(run) => Some(run),
        Err(_) => None,
    }
}

/// Passes the mode here, in a line of this colour, with the runs of a horizontal one, without drawing it, and
/// returns the colour after it. If there is none, or one of its runs is broken, it returns `None`, and the offset is
/// unspecified (T.4, 4.2.1.3).
fn pass_mode(ctx: &mut DecoderContext, color: Color, reader: &mut BitReader<'_>) -> Option<Color>
    ensures after { option_map (λ after. (after, here reader.new)) result ≡ after_mode color (here reader.old) }
    ensures same_bits { reader.new.bits ≡ reader.old.bits }
    ensures only_ticks { OnlyCounts ctx.old ctx.new }
    ensures cut { ctx.new.cut ≡ ctx.old.cut }
    ensures at_most { ctx.new.ticks
        ≤ ctx.old.ticks + length (mode_found color (here reader.old)) + (if is_some result then 0 else 1) }
{
    let Ok(mode) = reader.decode_mode(ctx.ticks()) else {
        return None;
    };
    match mode {
        Mode::Pass => Some(color),
        Mode::Vertical(_) => Some(color.opposite()),
        Mode::Horizontal => {
            run_length(ctx, color, reader)?;
            run_length(ctx, color.opposite(), reader)?;
            Some(color)
        }
    }
}

/// Passes the modes of a line, with their runs, as many as can be read.
pub(crate) fn pass_modes(ctx: &mut DecoderContext, reader: &mut BitReader<'_>)
    ensures read { ReadsModes Color.White (here reader.old) (here reader.new) }
    ensures last { (last : Bits) → ReadsModes Color.White (here reader.old) last → length (here reader.new) ≤ length last }
    ensures same_bits { reader.new.bits ≡ reader.old.bits }
    ensures only_ticks { OnlyCounts ctx.old ctx.new }
    ensures at_most { (next after : Bits) → next_eol (here reader.old) ≡ Some next → after_eol 0 next ≡ Some after
        → ctx.new.ticks + length after ≤ ctx.old.ticks + length (here reader.old) }
{
    let mut color = Color::White;
    'modes: loop {
        let mut next = copy(reader);
        match pass_mode(ctx, color, &mut next) {
            Some(after) => {
                color = after;
                *reader = next;
            }
            None => return,
        }
    }
}

/// Returns whether the line of two-dimensional modes after the tag of zero here ends before the next EOL whatever row it is
/// read against, and then moves to that EOL.
fn pass_line(ctx: &mut DecoderContext, reader: &mut BitReader<'_>) -> bool
    ensures line { result ≡ true → (line : Bits) × (here reader.old ≡ false ∷ line) × IsLine2D line (here reader.new) }
    ensures no_line { result ≡ false → (line next : Bits) → here reader.old ≡ false ∷ line → IsLine2D line next → ⊥ }
    ensures onward { length (here reader.new) ≤ length (here reader.old) }
    ensures same_bits { reader.new.bits ≡ reader.old.bits }
    ensures only_ticks { OnlyCounts ctx.old ctx.new }
    ensures at_most { ctx.new.ticks ≤ ctx.old.ticks + 3 * length (here reader.old) }
    ensures to_eol { result ≡ true → ctx.new.ticks + 3 * length (here reader.new)
        ≤ ctx.old.ticks + 3 * length (here reader.old) + 3 * looked (here reader.new) }
{
    let mut modes = copy(reader);
    match modes.read_bit() {
        Ok(0) => {}
        _ => return false,
    }
    let mut end = copy(reader);
    if pass_eol(&mut end, ctx.ticks()) {
        return false;
    }
    if !reader.skip_to_eol(ctx.ticks()) {
        return false;
    }
    end = copy(reader);
    let _ = pass_eol(&mut end, ctx.ticks());
    pass_modes(ctx, &mut modes);
    modes.bit_pos() + 12 <= end.bit_pos()
}

/// Returns whether a two-dimensional line follows EOLs, by its tag.
fn is_at_zero(reader: &BitReader<'_>) -> bool
    ensures zero { result ≡ true → (line : Bits) × (here reader.now ≡ false ∷ line) }
    ensures other { result ≡ false → ((line : Bits) × (here reader.now ≡ true ∷ line)) ⊎ (here reader.now ≡ []) }
{
    matches!(copy(reader).read_bit(), Ok(0))
}

/// Returns whether a one-dimensional line, RTC or the end follows EOLs that were counted; else a two-dimensional line does.
pub(crate) fn is_before_1d(settings: DecodeSettings, count: usize, after: &BitReader<'_>) -> bool
    ensures ends { result ≡ true → ((settings.end_of_block ≡ true) × (6 ≤ count))
        ⊎ (((line : Bits) × (here after.now ≡ true ∷ line)) ⊎ (here after.now ≡ [])) }
    ensures no_rtc { result ≡ false → settings.end_of_block ≡ true → 6 ≤ count → ⊥ }
    ensures zero { result ≡ false → (line : Bits) × (here after.now ≡ false ∷ line) }
{
    if settings.end_of_block {
        if count >= 6 {
            return true;
        }
    }
    !is_at_zero(after)
}

/// Returns one more than the number of two-dimensional lines that follow here up to a one-dimensional line, RTC or the end.
fn rows_before_1d(ctx: &mut DecoderContext, reader: &mut BitReader<'_>) -> Option<u64>
    requires encoding { ctx.old.held.settings.encoding ≡ EncodingMode.Group3_2D }
    ensures rows { (lines : ℕ) → (result ≡ Some (suc lines))
        ↔ ComeBefore1D ctx.old.held.settings lines (here reader.old) }
    ensures some { IfSome result (λ rows. 0 < rows) }
    ensures only_ticks { OnlyCounts ctx.old ctx.new }
    ensures at_most { ctx.new.ticks ≤ ctx.old.ticks + most_for_lines (length (here reader.old)) }
{
    let mut rows: u64 = 1;
    'lines: loop {
        let mut line = copy(reader);
        if !pass_eol(&mut line, ctx.ticks()) {
            return None;
        }
        let mut after = copy(reader);
        let count = after.read_tagged_eols(ctx.ticks());
        if is_before_1d(ctx.settings(), count, &after) {
            return Some(rows);
        }
        if !pass_line(ctx, &mut line) {
            return None;
        }
        *reader = line;
        rows += 1;
    }
}

/// Returns whether these settings are those of lenient two-dimensional data of Group 3.
pub(crate) fn is_lenient_2d(settings: DecodeSettings) -> bool
    ensures { IsTrue result ↔ ((settings.encoding ≡ EncodingMode.Group3_2D) × (settings.strict ≡ false)) }
{
    matches!(settings.encoding, EncodingMode::Group3_2D) && !settings.strict
}

/// Returns how many rows damage to the line whose body ends at `to`, where its EOL begins, may change in lenient
/// two-dimensional data of Group 3 (T.4, 4.2): its own, and one for each two-dimensional line that follows up to
/// the next one-dimensional line, RTC with `end_of_block`, or the end of the data. It is `None`, and nothing is said, with
/// other settings, if no EOL begins at `to`, and if one of the lines that follow has no EOL after it, or reaches into it
/// with its modes and their runs.
///
/// [`laws::locality_by_k`](crate::laws::locality_by_k) says which damage it is: an EOL or the start of the data is before
/// the line's tag and that EOL after its body, both before and after the damage. Each byte has its bits in this order, and
/// `to` is counted in bits. It allocates nothing, and no row is read.
///
/// The work is in proportion to the bits from `to` on: the modes of a line and the zeros of an EOL are read a few times.
pub fn rows_reached(
    order: BitOrder,
    data: &[u8],
    ctx: &mut DecoderContext,
    to: usize,
) -> Option<u64>
    requires fit { BitsFit «data».now }
    ensures rows { (lines : ℕ) → (result ≡ Some (suc lines))
        ↔ IsFollowedBy ctx.old.held.settings (bits_in order «data».now) to lines }
    ensures some { IfSome result (λ rows. 0 < rows) }
    ensures only_ticks { OnlyCounts ctx.old ctx.new }
    ensures at_most { ctx.new.ticks ≤ ctx.old.ticks + most_for_lines (length (drop to (bits_in order «data».now))) }
{
    if !is_lenient_2d(ctx.settings()) {
        return None;
    }
    if to > data.len() * 8 {
        return None;
    }
    let mut reader = at_place(data, order, to);
    rows_before_1d(ctx, &mut reader)
}
