//! From where on damaged data has the same rows again.

ghost use Rattle.std.specs.Prelude.{◌≡◌, ◌+◌, ◌*◌, ◌<◌, ◌≤◌, ◌⊎◌, ◌↔◌, ℕ, Some, None, IfSome, IsTrue, true, false, length, drop};
ghost use Rattle.hayro_ccitt.specs.Counting.{OnlyCounts};
ghost use Rattle.hayro_ccitt.specs.Bits.{Bits, BitsFit, bits_in, here};
ghost use Rattle.hayro_ccitt.specs.EndOfLine.{after_eol, next_eol};
ghost use Rattle.hayro_ccitt.specs.Lines.{Line, line_1d};
ghost use Rattle.hayro_ccitt.specs.Locality.{EndsBefore, IsEolAt};
ghost use Rattle.hayro_ccitt.specs.LocalityByK.{ComesBefore1D, ModesEndBefore};
ghost use Rattle.hayro_ccitt.specs.PlainReading.{eols_here};
ghost use Rattle.hayro_ccitt.specs.Rows.{Row};
ghost use Rattle.hayro_ccitt.specs.RowsKept.{EndsByWords, IsInStepFrom, PutsInStep, RowsFollow, TellsStep};
ghost use Rattle.hayro_ccitt.specs.Work.{most_for_lines};

use crate::reach::{is_before_1d, pass_modes, run_length};
use crate::{DecodeSettings, EncodingMode};
use fax_bits::bit_reader::{BitOrder, BitReader, at_place, copy};
use fax_bits::codes::{Color, pass_eol};
use fax_lines::context::DecoderContext;
use fax_rows::rows::read_eols;

/// Passes the runs of a one-dimensional line without drawing them, as many as its columns take, and returns whether it is
/// whole. If it isn't, the offset is unspecified.
fn pass_runs(ctx: &mut DecoderContext, reader: &mut BitReader<'_>) -> bool
    ensures whole { result ≡ true → (row : Row)
        × (line_1d false ctx.old.held.settings.columns (here reader.old) ≡ Line.whole row (here reader.new)) }
    ensures broken { result ≡ false → (row : Row) (rest : Bits)
        → line_1d false ctx.old.held.settings.columns (here reader.old) ≡ Line.whole row rest → ⊥ }
    ensures same_bits { reader.new.bits ≡ reader.old.bits }
    ensures only_ticks { OnlyCounts ctx.old ctx.new }
    ensures at_most { ctx.new.ticks ≤ ctx.old.ticks + length (here reader.old) + 1 }
{
    let columns = ctx.settings().columns;
    let mut passed: u32 = 0;
    let mut color = Color::White;
    'runs: while passed < columns {
        match run_length(ctx, color, reader) {
            Some(run) => {
                passed += run.min(columns - passed);
                color = color.opposite();
            }
            None => return false,
        }
    }
    true
}

/// Returns whether the one-dimensional line here is broken or ends at least twelve bits before another offset.
fn runs_end_before(ctx: &mut DecoderContext, line: &BitReader<'_>, end: &BitReader<'_>) -> bool
    requires { end.now.bits ≡ line.now.bits }
    ensures before { IsTrue result ↔ EndsBefore ctx.old.held.settings.columns (here end.now) (here line.now) }
    ensures only_ticks { OnlyCounts ctx.old ctx.new }
    ensures at_most { ctx.new.ticks ≤ ctx.old.ticks + length (here line.now) + 1 }
{
    let mut runs = copy(line);
    if !pass_runs(ctx, &mut runs) {
        return true;
    }
    runs.bit_pos() + 12 <= end.bit_pos()
}

/// Returns whether the modes here, as many as can be read, end at least twelve bits before another offset.
fn modes_end_before(ctx: &mut DecoderContext, line: &BitReader<'_>, end: &BitReader<'_>) -> bool
    requires { end.now.bits ≡ line.now.bits }
    ensures before { IsTrue result ↔ ModesEndBefore (here end.now) (here line.now) }
    ensures only_ticks { OnlyCounts ctx.old ctx.new }
    ensures at_most { (next after : Bits) → next_eol (here line.now) ≡ Some next → after_eol 0 next ≡ Some after
        → ctx.new.ticks + length after ≤ ctx.old.ticks + length (here line.now) }
{
    let mut modes = copy(line);
    pass_modes(ctx, &mut modes);
    modes.bit_pos() + 12 <= end.bit_pos()
}

/// Returns whether the line here, by its tag, is broken or ends at least twelve bits before another offset: a one-dimensional
/// one by its runs, a two-dimensional one by its modes.
fn tagged_line_ends_before(
    ctx: &mut DecoderContext,
    line: &BitReader<'_>,
    end: &BitReader<'_>,
) -> bool
    requires { end.now.bits ≡ line.now.bits }
    ensures before { IsTrue result
        ↔ EndsByWords EncodingMode.Group3_2D ctx.old.held.settings.columns (here end.now) (here line.now) }
    ensures only_ticks { OnlyCounts ctx.old ctx.new }
    ensures at_most { (next after : Bits) → after_eol 0 (here line.now) ≡ None → next_eol (here line.now) ≡ Some next
        → after_eol 0 next ≡ Some after → ctx.new.ticks ≤ ctx.old.ticks + length (here line.now) + 1 }
{
    let mut words = copy(line);
    match words.read_bit() {
        Ok(0) => modes_end_before(ctx, &words, end),
        Ok(_) => runs_end_before(ctx, &words, end),
        Err(_) => true,
    }
}

/// Returns whether the line here is broken or ends at least twelve bits before another offset, as its runs or modes show.
fn line_ends_before(ctx: &mut DecoderContext, line: &BitReader<'_>, end: &BitReader<'_>) -> bool
    requires { end.now.bits ≡ line.now.bits }
    ensures before { IsTrue result ↔ EndsByWords ctx.old.held.settings.encoding ctx.old.held.settings.columns
        (here end.now) (here line.now) }
    ensures only_ticks { OnlyCounts ctx.old ctx.new }
    ensures at_most { (next after : Bits) → after_eol 0 (here line.now) ≡ None → next_eol (here line.now) ≡ Some next
        → after_eol 0 next ≡ Some after → ctx.new.ticks ≤ ctx.old.ticks + length (here line.now) + 1 }
{
    match ctx.settings().encoding {
        EncodingMode::Group3_1D => runs_end_before(ctx, line, end),
        EncodingMode::Group3_2D => tagged_line_ends_before(ctx, line, end),
        EncodingMode::Group4 => modes_end_before(ctx, line, end),
    }
}

/// Returns whether the line after EOLs that were counted needs no reference row: it is one-dimensional, or RTC or the end is
/// there.
fn needs_no_reference(settings: DecodeSettings, count: usize, after: &BitReader<'_>) -> bool
    requires group3 { (settings.encoding ≡ EncodingMode.Group3_1D) ⊎ (settings.encoding ≡ EncodingMode.Group3_2D) }
    ensures tag { (next : Bits) → IsEolAt next → eols_here settings next ≡ (count, here after.now)
        → IsTrue result ↔ (settings.encoding ≡ EncodingMode.Group3_2D → ComesBefore1D settings next) }
{
    if matches!(settings.encoding, EncodingMode::Group3_1D) {
        return true;
    }
    is_before_1d(settings, count, after)
}

/// Returns whether as many consecutive EOLs are one alone.
fn is_alone(count: usize) -> bool
    ensures { IsTrue result ↔ (count ≡ 1) }
{
    count == 1
}

/// Returns whether an EOL and the line after it put readings in step, and then moves past the next EOL and those that
/// follow it.
fn pass_to_step(ctx: &mut DecoderContext, reader: &mut BitReader<'_>) -> bool
    requires group3 { (ctx.old.held.settings.encoding ≡ EncodingMode.Group3_1D)
        ⊎ (ctx.old.held.settings.encoding ≡ EncodingMode.Group3_2D) }
    requires lenient { ctx.old.held.settings.strict ≡ false }
    ensures step { result ≡ true → (line : Bits) × TellsStep ctx.old.held.settings (here reader.old) line (here reader.new) }
    ensures no_step { result ≡ false → (line after : Bits) → TellsStep ctx.old.held.settings (here reader.old) line after
        → ⊥ }
    ensures same_bits { reader.new.bits ≡ reader.old.bits }
    ensures only_ticks { OnlyCounts ctx.old ctx.new }
    ensures at_most { ctx.new.ticks ≤ ctx.old.ticks + most_for_lines (length (here reader.old)) }
{
    if !is_alone(read_eols(ctx, reader)) {
        return false;
    }
    let line = copy(reader);
    if !reader.skip_to_eol(ctx.ticks()) {
        return false;
    }
    let mut end = copy(reader);
    let _ = pass_eol(&mut end, ctx.ticks());
    if !line_ends_before(ctx, &line, &end) {
        return false;
    }
    let count = read_eols(ctx, reader);
    needs_no_reference(ctx.settings(), count, reader)
}

/// Returns whether these settings are those of lenient data of Group 3 with columns and without a row limit.
fn are_unlimited(settings: DecodeSettings) -> bool
    ensures { IsTrue result ↔ (((settings.encoding ≡ EncodingMode.Group3_1D) ⊎ (settings.encoding ≡ EncodingMode.Group3_2D))
        × (settings.strict ≡ false) × (settings.rows ≡ 0) × (0 < settings.columns)) }
{
    !matches!(settings.encoding, EncodingMode::Group4)
        && !settings.strict
        && settings.rows == 0
        && settings.columns > 0
}

/// Returns from which bit on the rows of damaged data are the same again, if the damage lies before the EOL that begins at
/// `to`: the offset after the next EOL (T.4, 4.1.2). It is `None`, and nothing is said, if no EOL begins at `to` or another
/// follows it at once, and if the line between the two EOLs, with the context's `columns`, reaches into the last twelve bits
/// of the second. In two-dimensional data the modes of that line show where it ends, and a one-dimensional line, RTC with
/// `end_of_block` or the end must come after it; else it is `None` too, and with other settings than those of lenient
/// Group 3 data without a row limit.
///
/// [`laws::rows_after`](crate::laws::rows_after) says what follows, whatever was changed, lost or added before `to`:
/// undamaged data that is the same from there on has the same rows from that bit on, if EOLs are sought and the damage
/// makes no RTC. Each byte has its bits in this order, and offsets are counted in bits. It allocates nothing, and no row is
/// read.
///
/// The work is in proportion to the bits from `to` on; if there is another EOL, none after it and its zeros are examined.
pub fn in_step_from(
    order: BitOrder,
    data: &[u8],
    ctx: &mut DecoderContext,
    to: usize,
) -> Option<usize>
    requires fit { BitsFit «data».now }
    ensures place { (place : ℕ) → (result ≡ Some place)
        ↔ IsInStepFrom ctx.old.held.settings (bits_in order «data».now) to place }
    ensures step { IfSome result (λ place. (line : Bits)
        × PutsInStep ctx.old.held.settings (drop to (bits_in order «data».now)) line (drop place (bits_in order «data».now))) }
    ensures rows { IfSome result (λ place. RowsFollow ctx.old.held.settings (bits_in order «data».now) to place) }
    ensures within { IfSome result (λ place. place ≤ 8 * length «data».now) }
    ensures only_ticks { OnlyCounts ctx.old ctx.new }
    ensures at_most { ctx.new.ticks ≤ ctx.old.ticks + most_for_lines (length (drop to (bits_in order «data».now))) }
{
    if !are_unlimited(ctx.settings()) {
        return None;
    }
    if to > data.len() * 8 {
        return None;
    }
    let mut reader = at_place(data, order, to);
    if !pass_to_step(ctx, &mut reader) {
        return None;
    }
    Some(reader.bit_pos())
}
