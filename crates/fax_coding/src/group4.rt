//! Group 4 (T.6): two-dimensional lines (T.4, 4.2).

ghost use Rattle.std.specs.Prelude.{◌≡◌, ◌≢◌, ◌+◌, ◌<◌, ◌≤◌, ◌++◌, [], length};
ghost use Rattle.std.specs.Prelude.{get_or, IfOk, OnOk, MatchOption, if◌then◌else◌, true};
ghost use Rattle.std.specs.Prelude.{false};
ghost use Rattle.fax_reading.specs.Rows.{AreChanges, pixels, opposite, b1, b2};
ghost use Rattle.fax_reading.specs.Encodings.{padding};
ghost use Rattle.fax_words.specs.Chosen.{bits_at, chosen_from, place_after, chosen_mode};
ghost use Rattle.fax_words.specs.Chosen.{word_of_mode, chosen_line_2d, is_near};
ghost use Rattle.fax_words.specs.Chosen.{vertical_mode};
ghost use Rattle.fax_coding.specs.Coding.{AreAllLeft, AreBelow, IsAbove, IsCodedTo, IsNear, place_of, color_after};
ghost use Rattle.fax_words.specs.Writing.{all_bits, WritesHorizontal};

use crate::runs::{put_code_word, put_joined, put_runs};
use fax_bits::codes::Color;
use fax_lines::changes::change_or_end;
use fax_words::bit_writer::BitWriter;
use fax_words::words::{
    below_word, horizontal_word, one_word, pass_word, terminating_word, vertical_word, with_word,
};
use std::alloc::AllocError;

/// How far a line is coded: the first position right of a0, how many changes of the row are left of that position, and an
/// index among the changes of the reference row from which b1 is found. The number of changes determines the present colour.
#[derive(Clone, Copy)]
pub struct Coding {
    pub from: u64,
    pub next: usize,
    pub above: usize,
}

/// Returns the colour after a number of changes.
#[inline(always)]
pub fn color_after(changes: usize) -> Color
    ensures { result ≡ color_after changes }
{
    if changes.is_multiple_of(2) {
        Color::White
    } else {
        Color::Black
    }
}

/// Where b1 is among the changes of a reference row: its index, and its position. b2 is the next change.
#[derive(Clone, Copy)]
pub struct Above {
    pub index: usize,
    pub b1: u32,
}

/// Finds b1 of a reference row (T.4, 4.2.1.1), in steps of two changes from the index that was reached before.
#[inline(always)]
pub fn find_above(columns: u32, reference: &[u32], at: Coding) -> Above
    requires lawful { AreChanges columns reference.now }
    requires inside { at.from ≤ columns }
    requires near { IsNear columns reference.now (place_of at) at.above }
    ensures found { IsAbove columns reference.now (place_of at) result }
    ensures near { IsNear columns reference.now (place_of at) result.index }
    ensures onward { at.above ≤ result.index }
{
    let from = at.from as u32;
    let mut index = at.above;
    let mut b1 = change_or_end(reference, index, columns);
    'twos: while b1 < from {
        index += 2;
        b1 = change_or_end(reference, index, columns);
    }
    Above { index, b1 }
}

/// Returns an index from which b1 is found after a vertical mode that ends at a1.
#[inline(always)]
pub fn above_after_vertical(
    columns: u32,
    reference: &[u32],
    _at: Coding,
    above: Above,
    a1: u32,
) -> usize
    requires lawful { AreChanges columns reference.now }
    requires right { _at.from ≤ a1 }
    requires first { above.b1 ≡ get_or reference.now above.index columns }
    requires near { IsNear columns reference.now (place_of _at) above.index }
    requires within { above.index ≤ length reference.now + 1 }
    ensures near { IsNear columns reference.now (record { from = a1 + 1; color = opposite (color_after _at.next) }) result }
    ensures onward { above.index ≤ result + 1 }
{
    if above.index == 0 {
        return 1;
    }
    let before = above.index - 1;
    if before < reference.len() && reference[before] <= a1 {
        return above.index + 1;
    }
    before
}

/// Returns b2, the change after b1, if it is left of a1.
#[inline(always)]
pub fn b2_left_of(columns: u32, reference: &[u32], index: usize, b1: u32, a1: u32) -> Option<u32>
    requires lawful { AreChanges columns reference.now }
    requires within { index ≤ length reference.now + 1 }
    requires first { b1 ≡ get_or reference.now index columns }
    ensures { MatchOption result (a1 ≤ get_or reference.now (index + 1) columns)
        (λ b2. (b2 ≡ get_or reference.now (index + 1) columns) × (b2 < a1)) }
{
    if a1 <= b1 {
        return None;
    }
    let b2 = change_or_end(reference, index + 1, columns);
    if b2 < a1 { Some(b2) } else { None }
}

/// Writes the vertical mode V0, of a1 below b1.
#[inline(always)]
fn put_below(writer: &mut BitWriter, _b1: u32, _a1: u32) -> Result<(), AllocError>
    requires { _a1 ≡ _b1 }
    ensures near { is_near _b1 _a1 ≡ true }
    ensures written { OnOk result (all_bits writer.new ≡ all_bits writer.old ++ word_of_mode (vertical_mode _b1 _a1)) }
{
    put_code_word(writer, below_word())
}

/// Writes the vertical mode from b1 to a1, if that is at most three positions from it; returns whether it is.
#[inline(always)]
pub fn put_vertical(writer: &mut BitWriter, b1: u32, a1: u32) -> Result<bool, AllocError>
    ensures near { IfOk result (λ is_written. is_written ≡ is_near b1 a1) }
    ensures written { IfOk result (λ is_written. all_bits writer.new ≡ all_bits writer.old
        ++ (if is_written then word_of_mode (vertical_mode b1 a1) else [])) }
{
    if let Some(word) = vertical_word(b1, a1) {
        put_code_word(writer, word)?;
        return Ok(true);
    }
    Ok(false)
}

/// Writes horizontal mode and two runs of less than 64 pixels, the first of this colour.
#[inline(always)]
fn put_short_horizontal(
    writer: &mut BitWriter,
    color: Color,
    first: u32,
    second: u32,
) -> Result<(), AllocError>
    requires { (first < 64) × (second < 64) }
    ensures { OnOk result (WritesHorizontal color first second writer.old writer.new) }
{
    let mode = one_word(horizontal_word());
    let one = with_word(mode, terminating_word(color, first));
    let two = with_word(one, terminating_word(color.opposite(), second));
    put_joined(writer, two)
}

/// Writes horizontal mode and two runs of any length, the first of this colour.
#[inline(never)]
fn put_long_horizontal(
    writer: &mut BitWriter,
    color: Color,
    first: u32,
    second: u32,
) -> Result<(), AllocError>
    ensures { OnOk result (WritesHorizontal color first second writer.old writer.new) }
{
    put_code_word(writer, horizontal_word())?;
    put_runs(writer, color, first, second)
}

/// Writes horizontal mode and its two runs, the first of this colour (T.4, 4.2.1.3.1).
#[inline(always)]
fn put_horizontal(
    writer: &mut BitWriter,
    color: Color,
    first: u32,
    second: u32,
) -> Result<(), AllocError>
    ensures { OnOk result (WritesHorizontal color first second writer.old writer.new) }
{
    if first < 64 && second < 64 {
        return put_short_horizontal(writer, color, first, second);
    }
    put_long_horizontal(writer, color, first, second)
}

/// Writes one mode. Takes where b1 is: pass if b2 is left of a1; else vertical if a1 is at most three positions from b1; else
/// horizontal (T.4, 4.2.1.3.2). Afterwards all changes of the row that are left of the new position are counted. The new position is
/// past the row's end only if no changes are left.
#[inline(always)]
fn put_mode(
    writer: &mut BitWriter,
    columns: u32,
    reference: &[u32],
    changes: &[u32],
    at: Coding,
    above: Above,
) -> Result<Coding, AllocError>
    requires coded { IsCodedTo columns reference.now changes.now at above.index }
    requires above { IsAbove columns reference.now (place_of at) above }
    ensures written { OnOk result (all_bits writer.new ≡ all_bits writer.old
        ++ bits_at (pixels columns reference.now) (pixels columns changes.now) (place_of at)) }
    ensures place { IfOk result (λ after. place_of after
        ≡ place_after (pixels columns reference.now) (pixels columns changes.now) (place_of at)
        (chosen_mode (pixels columns reference.now) (pixels columns changes.now) (place_of at))) }
    ensures near { IfOk result (λ after. IsNear columns reference.now (place_of after) after.above) }
    ensures next { IfOk result (λ after. after.from ≤ columns → AreAllLeft changes.now after.from after.next) }
    ensures inside { IfOk result (λ after. after.next < length changes.now → after.from ≤ columns) }
{
    let a1 = change_or_end(changes, at.next, columns);
    let next = at.next + 1;
    if a1 == above.b1 {
        put_below(writer, above.b1, a1)?;
        return Ok(Coding {
            from: u64::from(a1) + 1,
            next,
            above: above.index + 1,
        });
    }
    if let Some(b2) = b2_left_of(columns, reference, above.index, above.b1, a1) {
        put_code_word(writer, pass_word())?;
        return Ok(Coding {
            from: u64::from(b2) + 1,
            next: at.next,
            above: above.index + 2,
        });
    }
    let is_vertical = put_vertical(writer, above.b1, a1)?;
    if is_vertical {
        return Ok(Coding {
            from: u64::from(a1) + 1,
            next,
            above: above_after_vertical(columns, reference, at, above, a1),
        });
    }
    let a2 = change_or_end(changes, next, columns);
    put_horizontal(
        writer,
        color_after(at.next),
        a1 - at.from.saturating_sub(1) as u32,
        a2 - a1,
    )?;
    Ok(Coding {
        from: u64::from(a2) + 1,
        next: at.next + 2,
        above: above.index,
    })
}

/// Returns how many changes of a row from one index on are where those of the reference row from another index on are, up to 63.
#[inline(always)]
fn count_below(reference: &[u32], index: usize, changes: &[u32], next: usize) -> usize
    requires reference { index < length reference.now }
    requires changes { next < length changes.now }
    requires first { get_or changes.now next 0 ≡ get_or reference.now index 0 }
    ensures some { 0 < result }
    ensures few { result ≤ 63 }
    ensures below { AreBelow reference.now index changes.now next result }
    ensures all { result < 63 → next + result < length changes.now → index + result < length reference.now
        → get_or changes.now (next + result) 0 ≢ get_or reference.now (index + result) 0 }
{
    let most = (changes.len() - next).min(reference.len() - index).min(63);
    let mut count = 1;
    'same: while count < most && changes[next + count] == reference[index + count] {
        count += 1;
    }
    count
}

/// Writes the modes V0 of changes that are all below changes of the reference row, and returns how far the line is coded then.
#[inline(always)]
fn put_all_below(
    writer: &mut BitWriter,
    _columns: u32,
    reference: &[u32],
    changes: &[u32],
    at: Coding,
    above: Above,
) -> Result<Coding, AllocError>
    requires coded { IsCodedTo _columns reference.now changes.now at above.index }
    requires some { at.next < length changes.now }
    requires within { above.index < length reference.now }
    requires below { get_or changes.now at.next 0 ≡ get_or reference.now above.index 0 }
    ensures written { IfOk result (λ after. all_bits writer.new
        ++ chosen_from (pixels _columns reference.now) (pixels _columns changes.now) (place_of after) ≡ all_bits writer.old
        ++ chosen_from (pixels _columns reference.now) (pixels _columns changes.now) (place_of at)) }
    ensures coded { IfOk result (λ after. IsCodedTo _columns reference.now changes.now after after.above) }
    ensures onward { IfOk result (λ after. at.from < after.from) }
{
    let count = count_below(reference, above.index, changes, at.next);
    let last = changes[at.next + count - 1];
    writer.put((1 << count) - 1, count as u32)?;
    Ok(Coding {
        from: u64::from(last) + 1,
        next: at.next + count,
        above: above.index + count,
    })
}

/// Writes the modes of a row, from the position left of it to its end (T.4, 4.2.1.3). Modes V0 that follow one another are written
/// at once.
pub fn put_line(
    writer: &mut BitWriter,
    columns: u32,
    reference: &[u32],
    changes: &[u32],
) -> Result<(), AllocError>
    requires reference { AreChanges columns reference.now }
    requires changes { AreChanges columns changes.now }
    ensures { OnOk result (all_bits writer.new ≡ all_bits writer.old
        ++ chosen_line_2d (pixels columns reference.now) (pixels columns changes.now)) }
{
    let mut at = Coding {
        from: 0,
        next: 0,
        above: 0,
    };
    'changes: while at.next < changes.len() {
        let above = find_above(columns, reference, at);
        if changes[at.next] == above.b1 {
            at = put_all_below(writer, columns, reference, changes, at, above)?;
        } else {
            at = put_mode(writer, columns, reference, changes, at, above)?;
        }
    }
    'modes: while at.from <= u64::from(columns) {
        let above = find_above(columns, reference, at);
        at = put_mode(writer, columns, reference, changes, at, above)?;
    }
    Ok(())
}

/// Writes zeros up to a whole byte if lines are aligned.
pub fn put_padding(writer: &mut BitWriter, aligned: bool) -> Result<(), AllocError>
    ensures { OnOk result (all_bits writer.new ≡ all_bits writer.old
        ++ (if aligned then padding (length (all_bits writer.old)) else [])) }
{
    if aligned { writer.fill_up() } else { Ok(()) }
}
