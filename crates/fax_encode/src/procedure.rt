//! Whether the line that the coding procedure writes for a row is next in some data (T.4, 4.1 and 4.2; T.6, 2.2).

ghost use Rattle.std.specs.Prelude.{◌≡◌, ◌+◌, ◌-◌, ◌*◌, ◌<◌, ◌≤◌, ◌++◌, ◌∷◌, [], true, false, length};
ghost use Rattle.fax_bits.specs.Bits.{here, low_bits};
ghost use Rattle.fax_reading.specs.Encodings.{padding};
ghost use Rattle.fax_reading.specs.Rows.{AreChanges, pixels, opposite};
ghost use Rattle.fax_encode.specs.Chosen.{bits_at, chosen_line_2d, chosen_rest, chosen_run, chosen_runs};
ghost use Rattle.fax_encode.specs.Coding.{IsAbove, IsCodedTo, IsNear, color_after, place_of};
ghost use Rattle.fax_encode.specs.Comparing.{Compares, CountsBits, IsOneModeOn, bits_of_mode, bits_of_runs};
ghost use Rattle.fax_encode.specs.Procedure.{StandsUpTo, line_by_procedure, part_by_procedure, tag_of_line};

use crate::encoding::RowBelow;
use fax_bits::EncodingMode;
use fax_bits::bit_reader::BitReader;
use fax_bits::codes::{Color, Ticks};
use fax_coding::group4::{Above, Coding, above_after_vertical, b2_left_of, color_after};
use fax_lines::changes::change_or_end;
use fax_words::words::{
    Word, below_word, horizontal_word, makeup_word, pass_word, terminating_word, vertical_word,
};

/// A kind of line.
#[derive(Clone, Copy)]
pub struct LineKind {
    /// The encoding, which says whether the line has a tag before it.
    pub encoding: EncodingMode,
    /// The line is two-dimensional, and else one-dimensional.
    pub is_two_dimensional: bool,
    /// Zeros follow the line up to a whole byte.
    pub is_filled: bool,
}

/// The lengths of the two runs of horizontal mode.
#[derive(Clone, Copy)]
pub struct Runs {
    pub first: u32,
    pub second: u32,
}

/// A mode of a line: its code word, the runs after it in horizontal mode, and how far the line is coded after it.
#[derive(Clone, Copy)]
pub struct CodedMode {
    pub word: Word,
    pub runs: Option<Runs>,
    pub after: Coding,
}

/// Consumes the next bit if it is this one, and returns whether it is.
#[inline(always)]
fn pass_bit(reader: &mut BitReader<'_>, bit: bool) -> bool
    ensures { Compares (bit ∷ []) reader.old reader.new result }
{
    let is_one = reader.peek_u32() >> 31 == 1;
    if is_one != bit {
        return false;
    }
    reader.read_bit().is_ok()
}

/// Consumes the bits of a code word as far as they are next, and returns whether they all are.
fn pass_code_word(reader: &mut BitReader<'_>, word: Word, ticks: &mut Ticks) -> bool
    requires { word.count ≤ 13 }
    ensures compares { Compares (low_bits word.count word.bits) reader.old reader.new result }
    ensures ticks { CountsBits reader.old reader.new ticks.old ticks.new result }
{
    let mut left = word.count;
    'bits: while left > 0 {
        ticks.tick();
        let bit = (word.bits >> (left - 1)) % 2 == 1;
        if !pass_bit(reader, bit) {
            return false;
        }
        left -= 1;
    }
    true
}

/// Consumes the code words of less than 2560 pixels as far as they are next, and returns whether they all are.
fn pass_rest(reader: &mut BitReader<'_>, color: Color, pixels: u32, ticks: &mut Ticks) -> bool
    requires { pixels < 2560 }
    ensures compares { Compares (chosen_rest color pixels) reader.old reader.new result }
    ensures ticks { CountsBits reader.old reader.new ticks.old ticks.new result }
{
    if pixels < 64 {
        return pass_code_word(reader, terminating_word(color, pixels), ticks);
    }
    if !pass_code_word(reader, makeup_word(color, pixels / 64), ticks) {
        return false;
    }
    pass_code_word(reader, terminating_word(color, pixels % 64), ticks)
}

/// Consumes the code words of a run as far as they are next, and returns whether they all are (T.4, 4.1.1).
fn pass_run(reader: &mut BitReader<'_>, color: Color, pixels: u32, ticks: &mut Ticks) -> bool
    ensures compares { Compares (chosen_run color pixels) reader.old reader.new result }
    ensures ticks { CountsBits reader.old reader.new ticks.old ticks.new result }
{
    let mut left = pixels;
    'long: while left >= 2560 {
        if !pass_code_word(reader, makeup_word(color, 40), ticks) {
            return false;
        }
        left -= 2560;
    }
    pass_rest(reader, color, left, ticks)
}

/// Consumes the runs of a row, white first, as far as they are next, and returns whether they all are (T.4, 4.1.1).
fn pass_row(reader: &mut BitReader<'_>, columns: u32, changes: &[u32], ticks: &mut Ticks) -> bool
    requires { AreChanges columns changes.now }
    ensures compares { Compares (chosen_runs columns Color.White 0 changes.now) reader.old reader.new result }
    ensures ticks { CountsBits reader.old reader.new ticks.old ticks.new result }
{
    let mut color = Color::White;
    let mut place = 0;
    let mut next = 0;
    'changes: while next < changes.len() {
        let change = changes[next];
        if !pass_run(reader, color, change - place, ticks) {
            return false;
        }
        color = color.opposite();
        place = change;
        next += 1;
    }
    pass_run(reader, color, columns - place, ticks)
}

/// Finds b1 of a reference row (T.4, 4.2.1.1), in steps of two changes from the index that was reached before, and counts them.
fn seek_above(columns: u32, reference: &[u32], at: Coding, ticks: &mut Ticks) -> Above
    requires lawful { AreChanges columns reference.now }
    requires inside { at.from ≤ columns }
    requires near { IsNear columns reference.now (place_of at) at.above }
    ensures found { IsAbove columns reference.now (place_of at) result }
    ensures near { IsNear columns reference.now (place_of at) result.index }
    ensures counts { ticks.old ≤ ticks.new }
    ensures work { ticks.new + at.above ≤ ticks.old + result.index }
{
    let from = at.from as u32;
    let mut index = at.above;
    let mut b1 = change_or_end(reference, index, columns);
    'twos: while b1 < from {
        ticks.tick();
        index += 2;
        b1 = change_or_end(reference, index, columns);
    }
    Above { index, b1 }
}

/// Returns the mode at a position, which is given where b1 is: pass if b2 is left of a1; else vertical if a1 is at most three
/// positions from b1; else horizontal (T.4, 4.2.1.3.2).
fn mode_at(columns: u32, rows: RowBelow<'_>, at: Coding, above: Above) -> CodedMode
    requires coded { IsCodedTo columns rows.reference.now rows.changes.now at above.index }
    requires above { IsAbove columns rows.reference.now (place_of at) above }
    ensures bits { bits_at (pixels columns rows.entry.reference.now) (pixels columns rows.entry.changes.now) (place_of at)
        ≡ bits_of_mode (color_after at.next) result }
    ensures some { 0 < result.word.count }
    ensures few { result.word.count ≤ 13 }
    ensures after { IsOneModeOn columns rows.entry.reference.now rows.entry.changes.now at above.index result.after }
{
    let a1 = change_or_end(rows.changes, at.next, columns);
    let next = at.next + 1;
    if let Some(b2) = b2_left_of(columns, rows.reference, above.index, above.b1, a1) {
        return CodedMode {
            word: pass_word(),
            runs: None,
            after: Coding {
                from: u64::from(b2) + 1,
                next: at.next,
                above: above.index + 2,
            },
        };
    }
    if let Some(word) = vertical_word(above.b1, a1) {
        return CodedMode {
            word,
            runs: None,
            after: Coding {
                from: u64::from(a1) + 1,
                next,
                above: above_after_vertical(columns, rows.reference, at, above, a1),
            },
        };
    }
    let a2 = change_or_end(rows.changes, next, columns);
    let runs = Runs {
        first: a1 - at.from.saturating_sub(1) as u32,
        second: a2 - a1,
    };
    CodedMode {
        word: horizontal_word(),
        runs: Some(runs),
        after: Coding {
            from: u64::from(a2) + 1,
            next: at.next + 2,
            above: above.index,
        },
    }
}

/// Consumes the runs after the word of a mode, the first of this colour, as far as they are next, and returns whether they all
/// are (T.4, 4.2.1.3.1).
fn pass_runs(
    reader: &mut BitReader<'_>,
    color: Color,
    runs: Option<Runs>,
    ticks: &mut Ticks,
) -> bool
    ensures compares { Compares (bits_of_runs color runs) reader.old reader.new result }
    ensures ticks { CountsBits reader.old reader.new ticks.old ticks.new result }
{
    match runs {
        Some(runs) => {
            if !pass_run(reader, color, runs.first, ticks) {
                return false;
            }
            pass_run(reader, color.opposite(), runs.second, ticks)
        }
        None => true,
    }
}

/// Consumes the bits of a mode as far as they are next, and returns whether they all are. The runs after its word begin with this
/// colour.
fn pass_mode(reader: &mut BitReader<'_>, color: Color, mode: CodedMode, ticks: &mut Ticks) -> bool
    requires { mode.word.count ≤ 13 }
    ensures compares { Compares (bits_of_mode color mode) reader.old reader.new result }
    ensures ticks { CountsBits reader.old reader.new ticks.old ticks.new result }
{
    if !pass_code_word(reader, mode.word, ticks) {
        return false;
    }
    pass_runs(reader, color, mode.runs, ticks)
}

/// Consumes the modes of a row as far as they are next, and returns whether they all are (T.4, 4.2.1.3).
fn pass_modes(
    reader: &mut BitReader<'_>,
    columns: u32,
    rows: RowBelow<'_>,
    ticks: &mut Ticks,
) -> bool
    requires reference { AreChanges columns rows.reference.now }
    requires changes { AreChanges columns rows.changes.now }
    ensures compares { Compares (chosen_line_2d (pixels columns rows.entry.reference.now) (pixels columns rows.entry.changes.now))
        reader.old reader.new result }
    ensures counts { ticks.old ≤ ticks.new }
    ensures work { ticks.new ≤ ticks.old + length rows.entry.reference.now + 2 * (reader.new.place - reader.old.place) + 2 }
{
    let mut at = Coding {
        from: 0,
        next: 0,
        above: 0,
    };
    'modes: while at.from <= u64::from(columns) {
        let above = seek_above(columns, rows.reference, at, ticks);
        let mode = mode_at(columns, rows, at, above);
        if !pass_mode(reader, color_after(at.next), mode, ticks) {
            return false;
        }
        at = mode.after;
    }
    true
}

/// Consumes the tag of a line if it has one and it is next, and returns whether it has none or this is so (T.4, 4.2.2).
fn pass_tag(reader: &mut BitReader<'_>, kind: LineKind, ticks: &mut Ticks) -> bool
    ensures compares { Compares (tag_of_line kind.encoding kind.is_two_dimensional) reader.old reader.new result }
    ensures ticks { CountsBits reader.old reader.new ticks.old ticks.new result }
{
    match kind.encoding {
        EncodingMode::Group3_2D => {
            ticks.tick();
            pass_bit(reader, !kind.is_two_dimensional)
        }
        EncodingMode::Group3_1D | EncodingMode::Group4 => true,
    }
}

/// Consumes the line of a row without what fills it up, as far as it is next, and returns whether all of it is.
fn pass_line(
    reader: &mut BitReader<'_>,
    columns: u32,
    kind: LineKind,
    rows: RowBelow<'_>,
    ticks: &mut Ticks,
) -> bool
    requires reference { AreChanges columns rows.reference.now }
    requires changes { AreChanges columns rows.changes.now }
    ensures compares { Compares (line_by_procedure kind.encoding kind.is_two_dimensional (pixels columns rows.entry.reference.now)
        (pixels columns rows.entry.changes.now)) reader.old reader.new result }
    ensures counts { ticks.old ≤ ticks.new }
    ensures work { ticks.new ≤ ticks.old + length rows.entry.reference.now + 2 * (reader.new.place - reader.old.place) + 2 }
{
    if !pass_tag(reader, kind, ticks) {
        return false;
    }
    if kind.is_two_dimensional {
        return pass_modes(reader, columns, rows, ticks);
    }
    pass_row(reader, columns, rows.changes, ticks)
}

/// Consumes the zeros that fill up a line of this many bits to a whole byte, as far as they are next, and returns whether they all
/// are (T.4, 4.1.3).
fn pass_fill(reader: &mut BitReader<'_>, bits: usize, ticks: &mut Ticks) -> bool
    ensures compares { Compares (padding bits) reader.old reader.new result }
    ensures ticks { CountsBits reader.old reader.new ticks.old ticks.new result }
{
    let zeros = (8 - bits % 8) % 8;
    let word = Word {
        count: zeros as u8,
        bits: 0,
    };
    pass_code_word(reader, word, ticks)
}

/// Consumes the line that the coding procedure writes for a row below another, if it is next, and returns whether it is;
/// otherwise the reader is at the first bit that differs from it, or at the end. The line is one-dimensional with the words of runs
/// that T.4, 4.1.1 prescribes, or two-dimensional with the modes of T.4, 4.2.1.3 and T.6, 2.2, after its tag in two-dimensional
/// Group 3 (T.4, 4.2.2).
///
/// Both rows are lists of changes. The work is bounded by the changes of the reference row and the bits that are consumed.
pub fn pass_line_by_procedure(
    reader: &mut BitReader<'_>,
    columns: u32,
    kind: LineKind,
    rows: RowBelow<'_>,
    ticks: &mut Ticks,
) -> bool
    requires reference { AreChanges columns rows.reference.now }
    requires changes { AreChanges columns rows.changes.now }
    ensures passed { result ≡ true → here reader.old
        ≡ part_by_procedure kind.encoding kind.is_filled kind.is_two_dimensional (pixels columns rows.entry.reference.now)
        (pixels columns rows.entry.changes.now) ++ here reader.new }
    ensures differs { result ≡ false → StandsUpTo
        (part_by_procedure kind.encoding kind.is_filled kind.is_two_dimensional (pixels columns rows.entry.reference.now)
        (pixels columns rows.entry.changes.now)) (here reader.old) (reader.new.place - reader.old.place) }
    ensures onward { reader.old.place ≤ reader.new.place }
    ensures same_bits { reader.new.bits ≡ reader.old.bits }
    ensures counts { ticks.old ≤ ticks.new }
    ensures work { ticks.new ≤ ticks.old + length rows.entry.reference.now + 2 * (reader.new.place - reader.old.place) + 3 }
{
    let start = reader.bit_pos();
    if !pass_line(reader, columns, kind, rows, ticks) {
        return false;
    }
    if kind.is_filled {
        let bits = reader.bit_pos() - start;
        return pass_fill(reader, bits, ticks);
    }
    true
}
