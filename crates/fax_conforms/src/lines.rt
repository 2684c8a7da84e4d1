//! Lines of encodings: the modes and runs of a row, each of them valid.

ghost use Rattle.std.specs.Prelude.{◌≡◌, ◌+◌, ◌-◌, ◌*◌, ◌<◌, ◌≤◌, false, true, IfOk, OnOk, IfErr, [], length, drop, ℕ, List, pos};
ghost use Rattle.std.specs.Prelude.{◌<ℤ◌, ◌≤ℤ◌};
ghost use Rattle.hayro_ccitt.specs.Bits.{Bits, here};
ghost use Rattle.hayro_ccitt.specs.ContextSteps.{PassesChanges};
ghost use Rattle.hayro_ccitt.specs.EncodingMode.TheVariants.{Group4, Group3_1D};
ghost use Rattle.hayro_ccitt.specs.Mode.TheVariants.{Pass, Horizontal, Vertical};
ghost use Rattle.hayro_ccitt.specs.Rows.{Row, AreChanges, pixels, b1, b2, is_black, opposite};
ghost use Rattle.fax_conforms.specs.Standing.{LineStands, Leads, Passes, IsOnly, LineFrom, ModeFrom};
ghost use Rattle.fax_conforms.specs.Standing.{RunsFrom, spot_of, from_of, IsDrawn, IsAbove, IsPainted, DrawsOn};
ghost use Rattle.fax_conforms.specs.Standing.{NextRun, PaintsRun};
ghost use Rattle.fax_conforms.specs.Stops.{EndsAt, RunEndsAt, IsBroken, ModeIsHere, ReadsLine};
ghost use Rattle.fax_conforms.specs.Work.{IsPaid, fund};

use crate::stops::{Rule, Stop, broken};
use crate::words::Words;
use hayro_ccitt::bit_reader::BitReader;
use hayro_ccitt::changes::{append_pixels, b1_index, change_or_end};
use hayro_ccitt::codes::{Color, Mode, Ticks};

/// How far a line is drawn: how many pixels are painted, whether a mode or a run was read, the present colour, how many changes
/// of the reference row are known not to be right of a0, and the offset of the word that is read.
#[derive(Clone, Copy)]
pub struct Pen {
    pub painted: u32,
    pub begun: bool,
    pub color: Color,
    pub passed: usize,
    pub word: usize,
}

/// Returns the pen at the start of a line.
fn at_start() -> Pen
    ensures { result ≡ record { painted = 0; begun = false; color = Color.White; passed = 0; word = 0 } }
{
    Pen {
        painted: 0,
        begun: false,
        color: Color::White,
        passed: 0,
        word: 0,
    }
}

/// Returns the pen with the other colour.
fn turned(pen: Pen) -> Pen
    ensures { result ≡ record pen { color = opposite pen.color } }
{
    Pen {
        painted: pen.painted,
        begun: pen.begun,
        color: pen.color.opposite(),
        passed: pen.passed,
        word: pen.word,
    }
}

/// Returns the first position right of a0.
fn from_of(pen: Pen) -> u64
    ensures { result ≡ from_of pen }
{
    if pen.begun {
        return u64::from(pen.painted) + 1;
    }
    0
}

/// Returns the pen that has passed this many changes of the reference row.
fn with_passed(pen: Pen, passed: usize) -> Pen
    ensures { result ≡ record pen { passed = passed } }
{
    Pen {
        painted: pen.painted,
        begun: pen.begun,
        color: pen.color,
        passed,
        word: pen.word,
    }
}

/// b1 and b2 of a reference row (T.4, 4.2.1.1), and how many changes of it are not right of a0.
#[derive(Clone, Copy)]
struct Above {
    b1: u32,
    b2: u32,
    passed: usize,
}

/// Finds b1 and b2.
fn find_above(columns: u32, reference: &[u32], pen: Pen, ticks: &mut Ticks) -> Above
    requires above { IsAbove columns pen reference.now }
    requires black { pen.begun ≡ true → pen.painted ≡ 0 → pen.color ≡ Color.Black }
    requires start { pen.begun ≡ false → pen.painted ≡ 0 }
    ensures b1 { b1 (pixels columns reference.now) (from_of pen) pen.color ≡ result.b1 }
    ensures b2 { b2 (pixels columns reference.now) (from_of pen) pen.color ≡ result.b2 }
    ensures above { IsAbove columns (record pen { passed = result.passed }) reference.now }
    ensures passes { PassesChanges reference.now pen.painted pen.passed result.passed ticks.old ticks.new }
{
    let mut passed = pen.passed;
    let index = b1_index(
        reference,
        pen.painted,
        pen.color,
        columns,
        &mut passed,
        ticks,
    );
    Above {
        b1: change_or_end(reference, index, columns),
        b2: change_or_end(reference, index + 1, columns),
        passed,
    }
}

/// Paints pixels of the pen's colour up to a position.
fn paint_to(coding: &mut Vec<u32>, pen: Pen, place: u32) -> Result<Pen, Stop>
    requires lawful { AreChanges pen.painted coding.old.items }
    requires right { pen.painted ≤ place }
    ensures painted { IfOk result (λ next. IsPainted pen next coding.old.items coding.new.items place) }
    ensures only_memory { IfErr result (λ e. IsBroken e → ⊥) }
    ensures few { length coding.new.items ≤ length coding.old.items + 1 }
{
    match append_pixels(coding, pen.painted, pen.color, place - pen.painted) {
        Ok(()) => Ok(Pen {
            painted: place,
            begun: true,
            color: pen.color,
            passed: pen.passed,
            word: pen.word,
        }),
        Err(_) => Err(Stop::OutOfMemory),
    }
}

/// Draws pass mode (T.4, 4.2.1.3.2).
fn draw_pass(
    columns: u32,
    reference: &[u32],
    coding: &mut Vec<u32>,
    pen: Pen,
    words: &mut Words,
) -> Result<Pen, Stop>
    requires above { IsAbove columns pen reference.now }
    requires drawn { IsDrawn columns pen coding.old.items }
    requires open_end { pen.painted < columns }
    ensures leads { IfOk result (λ next. (here : Bits) → Leads columns
        (ModeFrom (pixels columns reference.now) (spot_of pen coding.old.items) Pass here)
        (LineFrom (pixels columns reference.now) (spot_of next coding.new.items) here)) }
    ensures on { IfOk result (λ next. DrawsOn columns reference.now pen next coding.new.items) }
    ensures at { IfErr result (λ e. (bits : Bits) → pen.word ≤ length bits → ModeIsHere Pass (drop pen.word bits)
        → EndsAt columns (LineFrom (pixels columns reference.now) (spot_of pen coding.old.items)) bits (drop pen.word bits) e) }
    ensures pays { IsPaid result words.old.ticks words.new.ticks
        (fund (length reference.now - pen.passed) coding.old.items [] + 3)
        (λ next. fund (length reference.now - next.passed) coding.new.items []) }
{
    let above = find_above(columns, reference, pen, &mut words.ticks);
    if above.b2 >= columns {
        return broken(pen.word, Rule::PassToEnd);
    }
    let next = paint_to(coding, pen, above.b2)?;
    Ok(with_passed(next, above.passed))
}

/// Returns the rule that a vertical mode breaks whose position is no number of 32 bits: left of each row, or right of it.
fn rule_outside(offset: i8) -> Rule
    ensures left { offset <ℤ pos 0 → result ≡ Rule.NoPixels }
    ensures right { pos 0 ≤ℤ offset → result ≡ Rule.RowEnd }
{
    if offset < 0 {
        return Rule::NoPixels;
    }
    Rule::RowEnd
}

/// Draws a vertical mode (T.4, 4.2.1.3.3).
fn draw_vertical(
    columns: u32,
    reference: &[u32],
    coding: &mut Vec<u32>,
    pen: Pen,
    words: &mut Words,
    offset: i8,
) -> Result<Pen, Stop>
    requires above { IsAbove columns pen reference.now }
    requires drawn { IsDrawn columns pen coding.old.items }
    requires open_end { pen.painted < columns }
    ensures leads { IfOk result (λ next. (here : Bits) → Leads columns
        (ModeFrom (pixels columns reference.now) (spot_of pen coding.old.items) (Vertical offset) here)
        (LineFrom (pixels columns reference.now) (spot_of next coding.new.items) here)) }
    ensures on { IfOk result (λ next. DrawsOn columns reference.now pen next coding.new.items) }
    ensures at { IfErr result (λ e. (bits : Bits) → pen.word ≤ length bits → ModeIsHere (Vertical offset) (drop pen.word bits)
        → EndsAt columns (LineFrom (pixels columns reference.now) (spot_of pen coding.old.items)) bits (drop pen.word bits) e) }
    ensures pays { IsPaid result words.old.ticks words.new.ticks
        (fund (length reference.now - pen.passed) coding.old.items [] + 3)
        (λ next. fund (length reference.now - next.passed) coding.new.items []) }
{
    let above = find_above(columns, reference, pen, &mut words.ticks);
    let Some(place) = above.b1.checked_add_signed(i32::from(offset)) else {
        return broken(pen.word, rule_outside(offset));
    };
    if u64::from(place) < from_of(pen) {
        return broken(pen.word, Rule::NoPixels);
    }
    if place > columns {
        return broken(pen.word, Rule::RowEnd);
    }
    let next = paint_to(coding, pen, place)?;
    Ok(turned(with_passed(next, above.passed)))
}

/// Returns whether a run has no pixels and isn't allowed to: only the first run of a line may be empty, and one at the row's end.
fn is_empty_run(columns: u32, pen: Pen, run: u32) -> bool
    ensures some { result ≡ false → pen.begun ≡ true → pen.painted < columns → 0 < run }
    ensures none { result ≡ true → (pen.begun ≡ true) × (pen.painted < columns) × (run ≡ 0) }
{
    run == 0 && pen.begun && pen.painted < columns
}

/// Reads the run of the pen's colour here, and returns where it ends (T.4, 4.1.1).
fn run_end(
    words: &mut Words,
    reader: &mut BitReader<'_>,
    columns: u32,
    pen: Pen,
) -> Result<u32, Stop>
    requires within { pen.painted ≤ columns }
    ensures run { IfOk result (λ place. (run : ℕ) × NextRun columns pen (here reader.old) (here reader.new) run
        × (place ≡ pen.painted + run)) }
    ensures at { IfErr result (RunEndsAt columns pen reader.old.bits (here reader.old)) }
    ensures same_bits { reader.new.bits ≡ reader.old.bits }
    ensures pays { IsPaid result words.old.ticks words.new.ticks
        (4 * length (here reader.old)) (λ place. 4 * length (here reader.new) + 2) }
{
    let word = reader.bit_pos();
    let Some(run) = words.run(reader, pen.color) else {
        return broken(word, Rule::Run);
    };
    if run > columns - pen.painted {
        return broken(word, Rule::RowEnd);
    }
    if is_empty_run(columns, pen, run) {
        return broken(word, Rule::NoPixels);
    }
    Ok(pen.painted + run)
}

/// Reads the run of the pen's colour here, paints it and turns the colour (T.4, 4.1.1).
fn paint_run(
    words: &mut Words,
    reader: &mut BitReader<'_>,
    columns: u32,
    coding: &mut Vec<u32>,
    pen: Pen,
) -> Result<Pen, Stop>
    requires within { pen.painted ≤ columns }
    requires lawful { AreChanges pen.painted coding.old.items }
    ensures run { IfOk result (λ next. PaintsRun columns pen next coding.old.items coding.new.items (here reader.old)
        (here reader.new)) }
    ensures at { IfErr result (RunEndsAt columns pen reader.old.bits (here reader.old)) }
    ensures same_bits { reader.new.bits ≡ reader.old.bits }
    ensures pays { IsPaid result words.old.ticks words.new.ticks
        (fund 0 coding.old.items (here reader.old)) (λ next. fund 0 coding.new.items (here reader.new)) }
{
    let place = run_end(words, reader, columns, pen)?;
    let next = paint_to(coding, pen, place)?;
    Ok(turned(next))
}

/// Draws the two runs of horizontal mode (T.4, 4.2.1.3.1).
fn draw_horizontal(
    words: &mut Words,
    reader: &mut BitReader<'_>,
    columns: u32,
    coding: &mut Vec<u32>,
    pen: Pen,
) -> Result<Pen, Stop>
    requires drawn { IsDrawn columns pen coding.old.items }
    requires open_end { pen.painted < columns }
    ensures leads { IfOk result (λ next. (reference : Row) → length reference ≡ columns → Passes columns
        (ModeFrom reference (spot_of pen coding.old.items) Horizontal)
        (LineFrom reference (spot_of next coding.new.items)) (here reader.old) (here reader.new)) }
    ensures on { IfOk result (λ next. (reference : List ℕ) → IsAbove columns pen reference
        → DrawsOn columns reference pen next coding.new.items) }
    ensures at { IfErr result (λ e. (reference : Row) → length reference ≡ columns → EndsAt columns
        (ModeFrom reference (spot_of pen coding.old.items) Horizontal) reader.old.bits (here reader.old) e) }
    ensures same_bits { reader.new.bits ≡ reader.old.bits }
    ensures passed { IfOk result (λ next. next.passed ≡ pen.passed) }
    ensures pays { IsPaid result words.old.ticks words.new.ticks
        (fund 0 coding.old.items (here reader.old)) (λ next. fund 0 coding.new.items (here reader.new)) }
{
    let between = paint_run(words, reader, columns, coding, pen)?;
    let next = paint_run(words, reader, columns, coding, between)?;
    Ok(next)
}

/// Reads the mode here and draws it (T.4, 4.2.1.3; T.6, 2.2).
fn draw_mode(
    words: &mut Words,
    reader: &mut BitReader<'_>,
    columns: u32,
    reference: &[u32],
    coding: &mut Vec<u32>,
    pen: Pen,
) -> Result<Pen, Stop>
    requires above { IsAbove columns pen reference.now }
    requires drawn { IsDrawn columns pen coding.old.items }
    requires open_end { pen.painted < columns }
    ensures leads { IfOk result (λ next. Passes columns
        (LineFrom (pixels columns reference.now) (spot_of pen coding.old.items))
        (LineFrom (pixels columns reference.now) (spot_of next coding.new.items)) (here reader.old) (here reader.new)) }
    ensures on { IfOk result (λ next. DrawsOn columns reference.now pen next coding.new.items) }
    ensures at { IfErr result (EndsAt columns (LineFrom (pixels columns reference.now) (spot_of pen coding.old.items))
        reader.old.bits (here reader.old)) }
    ensures same_bits { reader.new.bits ≡ reader.old.bits }
    ensures pays { IsPaid result words.old.ticks words.new.ticks
        (fund (length reference.now - pen.passed) coding.old.items (here reader.old))
        (λ next. fund (length reference.now - next.passed) coding.new.items (here reader.new)) }
{
    let mut pen = pen;
    pen.word = reader.bit_pos();
    let Some(mode) = words.mode(reader) else {
        return broken(pen.word, Rule::Mode);
    };
    match mode {
        Mode::Pass => draw_pass(columns, reference, coding, pen, words),
        Mode::Vertical(offset) => draw_vertical(columns, reference, coding, pen, words, offset),
        Mode::Horizontal => draw_horizontal(words, reader, columns, coding, pen),
    }
}

/// Reads a two-dimensional line, and leaves the changes of its row (T.4, 4.2.1.3; T.6, 2.2).
pub fn draw_line_2d(
    words: &mut Words,
    reader: &mut BitReader<'_>,
    columns: u32,
    reference: &[u32],
    coding: &mut Vec<u32>,
) -> Result<(), Stop>
    requires wide { 0 < columns }
    requires reference { AreChanges columns reference.now }
    ensures reads { ReadsLine columns
        (λ here row rest. LineStands Group4 (pixels columns reference.now) row here rest)
        coding.new.items (here reader.old) (here reader.new) reader.old.bits result }
    ensures same_bits { reader.new.bits ≡ reader.old.bits }
    ensures pays { IsPaid result words.old.ticks words.new.ticks
        (fund (length reference.now) [] (here reader.old)) (λ done. fund 0 coding.new.items (here reader.new)) }
{
    coding.clear();
    let mut pen = at_start();
    'modes: while pen.painted < columns {
        pen = draw_mode(words, reader, columns, reference, coding, pen)?;
    }
    Ok(())
}

/// Reads the run here and draws it, in a one-dimensional line (T.4, 4.1.1).
fn draw_run(
    words: &mut Words,
    reader: &mut BitReader<'_>,
    columns: u32,
    coding: &mut Vec<u32>,
    pen: Pen,
) -> Result<Pen, Stop>
    requires drawn { IsDrawn columns pen coding.old.items }
    requires open_end { pen.painted < columns }
    ensures leads { IfOk result (λ next. Passes columns
        (RunsFrom (spot_of pen coding.old.items))
        (RunsFrom (spot_of next coding.new.items)) (here reader.old) (here reader.new)) }
    ensures drawn { IfOk result (λ next. IsDrawn columns next coding.new.items) }
    ensures onward { IfOk result (λ next. from_of pen < from_of next) }
    ensures at { IfErr result (EndsAt columns (RunsFrom (spot_of pen coding.old.items)) reader.old.bits (here reader.old)) }
    ensures same_bits { reader.new.bits ≡ reader.old.bits }
    ensures pays { IsPaid result words.old.ticks words.new.ticks
        (fund 0 coding.old.items (here reader.old)) (λ next. fund 0 coding.new.items (here reader.new)) }
{
    let next = paint_run(words, reader, columns, coding, pen)?;
    Ok(next)
}

/// Reads a one-dimensional line, and leaves the changes of its row (T.4, 4.1.1).
pub fn draw_line_1d(
    words: &mut Words,
    reader: &mut BitReader<'_>,
    columns: u32,
    coding: &mut Vec<u32>,
) -> Result<(), Stop>
    requires wide { 0 < columns }
    ensures row { OnOk result ((reference : Row) → Passes columns (λ here row rest. LineStands Group3_1D reference row here rest)
        (IsOnly (pixels columns coding.new.items)) (here reader.old) (here reader.new)) }
    ensures lawful { OnOk result (AreChanges columns coding.new.items) }
    ensures at { IfErr result (λ e. (reference : Row) → EndsAt columns
        (λ here row rest. LineStands Group3_1D reference row here rest) reader.old.bits (here reader.old) e) }
    ensures same_bits { reader.new.bits ≡ reader.old.bits }
    ensures pays { IsPaid result words.old.ticks words.new.ticks
        (fund 0 [] (here reader.old)) (λ done. fund 0 coding.new.items (here reader.new)) }
{
    coding.clear();
    let mut pen = at_start();
    'runs: while pen.painted < columns {
        pen = draw_run(words, reader, columns, coding, pen)?;
    }
    Ok(())
}
