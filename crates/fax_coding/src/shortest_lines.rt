//! The shortest two-dimensional lines (T.4, 4.2.1.3; T.6, 2.2): the modes with the fewest bits are found from the
//! right to the left, and written from the left to the right.

ghost use Rattle.std.specs.Prelude.{◌≡◌, ℕ, ◌+◌, ◌-◌, ◌*◌, ◌%◌, ◌^◌, ◌<◌, ◌≤◌, ◌++◌, ◌&&◌, length, nat_le, IfOk, OnOk};
ghost use Rattle.std.specs.Prelude.{if◌then◌else◌, true, false};
ghost use Rattle.fax_bits.specs.declared.codes.Mode.TheVariants.{Horizontal};
ghost use Rattle.fax_reading.specs.Rows.{AreChanges, b1, b2, pixels, opposite};
ghost use Rattle.fax_words.specs.Chosen.{word_of_mode, vertical_mode, is_near};
ghost use Rattle.fax_coding.specs.Coding.{place_of, IsAbove, IsNear, IsNotLeft, color_after};
ghost use Rattle.fax_coding.specs.Shortest.{shortest_run, shortest_line_2d};
ghost use Rattle.fax_coding.specs.Ways.{right_of_changes, bits_right_of, IsFound, IsShortest, AreWays, IsAhead, StandsRight};
ghost use Rattle.fax_coding.specs.Ways.{mode_word, bits_in_vertical, bits_in_horizontal, words_of_passes};
ghost use Rattle.fax_coding.specs.Ways.{shortest_rest, way_bits};
ghost use Rattle.fax_words.specs.Writing.{all_bits, IsWord};

use crate::group4::{Above, Coding, b2_left_of, color_after, find_above};
use crate::runs::{put_code_word, put_shortest_run, shortest_run_bits};
use fax_bits::codes::Color;
use fax_lines::changes::change_or_end;
use fax_words::bit_writer::BitWriter;
use fax_words::words::{Word, below_word, horizontal_word, pass_word, vertical_word};
use std::alloc::AllocError;

/// How a line is coded from a change on with the fewest bits: first this many passes, then the word of vertical mode, or else
/// that of horizontal mode, whose first run has this length; and the number of bits from there to the line's end. The fields
/// leave no gaps, which would be copied too.
#[derive(Clone, Copy)]
pub struct Way {
    pub bits: u64,
    pub passes: u64,
    pub first: u32,
    pub word: u16,
    pub count: u8,
    pub is_vertical: bool,
}

/// What is right of a position: the next two changes of the row, and the fewest bits from each on.
#[derive(Clone, Copy)]
pub struct Ahead {
    pub a1: u32,
    pub a2: u32,
    pub after_a1: u64,
    pub after_a2: u64,
}

/// Returns the way with this number of passes and then vertical mode of this word. Takes the number of bits after it.
#[inline(always)]
fn vertical_way(passes: u64, word: Word, after: u64) -> Way
    requires few { (passes < 2 ^ 40) × (word.count ≤ 13) × (after < 2 ^ 41) }
    ensures { result ≡ record {
      bits = passes * 4 + (word.count + after);
      passes = passes;
      first = 0;
      word = word.bits;
      count = word.count;
      is_vertical = true;
    } }
{
    Way {
        bits: passes * 4 + (u64::from(word.count) + after),
        passes,
        first: 0,
        word: word.bits,
        count: word.count,
        is_vertical: true,
    }
}

/// Returns the way with this number of passes up to a position and then horizontal mode.
#[inline(always)]
fn horizontal_way(color: Color, from: u64, passes: u64, ahead: Ahead) -> Way
    requires right { from - 1 ≤ ahead.a1 }
    requires order { ahead.a1 ≤ ahead.a2 }
    requires few { (passes < 2 ^ 40) × (ahead.after_a2 < 2 ^ 40) }
    ensures passes { result.passes ≡ passes }
    ensures vertical { result.is_vertical ≡ false }
    ensures bits { result.bits ≡ passes * 4 + bits_in_horizontal color from ahead }
    ensures word { IsWord (word_of_mode Horizontal) (mode_word result) }
    ensures first { result.first ≡ ahead.a1 - (from - 1) }
{
    let first = ahead.a1 - from.saturating_sub(1) as u32;
    let runs = u64::from(shortest_run_bits(color, first))
        + u64::from(shortest_run_bits(color.opposite(), ahead.a2 - ahead.a1));
    Way {
        first,
        is_vertical: false,
        ..vertical_way(passes, horizontal_word(), runs + ahead.after_a2)
    }
}

/// Returns how a line is coded from a position on without another pass: in vertical mode if a1 is near b1 and that takes no more
/// bits, else in horizontal mode. Takes the number of passes before. The runs of horizontal mode aren't counted where it takes
/// more bits in any case: it has three, a white run four or more, and a black one two or more.
#[inline(always)]
fn way_without_pass(color: Color, from: u64, b1: u32, passes: u64, ahead: Ahead) -> Way
    requires right { from - 1 ≤ ahead.a1 }
    requires order { ahead.a1 ≤ ahead.a2 }
    requires few { (passes < 2 ^ 40) × (ahead.after_a1 < 2 ^ 40) × (ahead.after_a2 < 2 ^ 40) }
    ensures passes { result.passes ≡ passes }
    ensures vertical { result.is_vertical ≡ (is_near b1 ahead.a1 && nat_le (bits_in_vertical b1 ahead) (bits_in_horizontal color from ahead)) }
    ensures bits { result.bits ≡ passes * 4 + (if result.is_vertical then bits_in_vertical b1 ahead else bits_in_horizontal color from ahead) }
    ensures word { IsWord (word_of_mode (if result.is_vertical then vertical_mode b1 ahead.a1 else Horizontal)) (mode_word result) }
    ensures first { result.is_vertical ≡ false → result.first ≡ ahead.a1 - (from - 1) }
{
    match vertical_word(b1, ahead.a1) {
        None => horizontal_way(color, from, passes, ahead),
        Some(word) => {
            let vertical = vertical_way(passes, word, ahead.after_a1);
            if u64::from(word.count) + ahead.after_a1 <= ahead.after_a2 + 9 {
                return vertical;
            }
            let horizontal = horizontal_way(color, from, passes, ahead);
            if vertical.bits <= horizontal.bits {
                return vertical;
            }
            horizontal
        }
    }
}

/// Returns the first of two, unless the second is shorter.
#[inline(always)]
fn shorter_way(first: Way, second: Way) -> Way
    ensures { result ≡ (if nat_le first.bits second.bits then first else second) }
{
    if first.bits <= second.bits {
        first
    } else {
        second
    }
}

/// Returns a number of bits that a line has at least from each position left of a1 on, however many passes are made: after a1, or in
/// horizontal mode, whose runs have six bits or more, and after a2.
#[inline(always)]
fn least_ahead(ahead: Ahead) -> u64
    requires { ahead.after_a2 < 2 ^ 40 }
    ensures vertical { result ≤ ahead.after_a1 }
    ensures horizontal { result ≤ ahead.after_a2 + 9 }
{
    if ahead.after_a1 <= ahead.after_a2 + 9 {
        return ahead.after_a1;
    }
    ahead.after_a2 + 9
}

/// Finds how a line is coded from a change on with the fewest bits, if a pass is made there or not. Takes how it is coded
/// without one. The search ends where more passes take more bits in any case.
#[inline(never)]
fn search_passes(
    columns: u32,
    reference: &[u32],
    _changes: &[u32],
    at: Coding,
    ahead: Ahead,
    without: Way,
) -> Way
    requires stands { StandsRight columns reference.now _changes.now at }
    requires ahead { IsAhead columns reference.now _changes.now at.next ahead }
    requires few { (ahead.after_a1 < 2 ^ 40) × (ahead.after_a2 < 2 ^ 40) }
    requires found { IsFound (pixels columns reference.now) (pixels columns _changes.now) (place_of at) 0 without }
    ensures { IsShortest (pixels columns reference.now) (pixels columns _changes.now) (place_of at) result }
{
    let color = color_after(at.next);
    let mut above = find_above(columns, reference, at);
    let mut passes = 0;
    let mut best = without;
    let mut b2 = change_or_end(reference, above.index + 1, columns);
    let least = least_ahead(ahead) + 4;
    'passes: while b2 < ahead.a1 {
        if best.bits < passes * 4 + least {
            return best;
        }
        let now = Coding {
            from: u64::from(b2) + 1,
            next: at.next,
            above: above.index + 2,
        };
        above = find_above(columns, reference, now);
        passes += 1;
        let way = way_without_pass(color, now.from, above.b1, passes, ahead);
        best = shorter_way(way, best);
        b2 = change_or_end(reference, above.index + 1, columns);
    }
    best
}

/// Searches passes over copies. What is passed to a call that isn't inlined stands in memory from where it is made: here that is
/// the copies, and not what every change makes.
#[inline(always)]
fn search_copies(
    columns: u32,
    reference: &[u32],
    _changes: &[u32],
    at: Coding,
    ahead: Ahead,
    without: Way,
) -> Way
    requires stands { StandsRight columns reference.now _changes.now at }
    requires ahead { IsAhead columns reference.now _changes.now at.next ahead }
    requires few { (ahead.after_a1 < 2 ^ 40) × (ahead.after_a2 < 2 ^ 40) }
    requires found { IsFound (pixels columns reference.now) (pixels columns _changes.now) (place_of at) 0 without }
    ensures { IsShortest (pixels columns reference.now) (pixels columns _changes.now) (place_of at) result }
{
    let at = Coding {
        from: at.from,
        next: at.next,
        above: at.above,
    };
    let ahead = Ahead {
        a1: ahead.a1,
        a2: ahead.a2,
        after_a1: ahead.after_a1,
        after_a2: ahead.after_a2,
    };
    let way = search_passes(
        columns,
        reference,
        _changes,
        at,
        ahead,
        copy_of_way(without),
    );
    copy_of_way(way)
}

/// Returns a copy.
#[inline(always)]
fn copy_of_way(way: Way) -> Way
    ensures { result ≡ way }
{
    Way {
        bits: way.bits,
        passes: way.passes,
        first: way.first,
        word: way.word,
        count: way.count,
        is_vertical: way.is_vertical,
    }
}

/// Finds how a line is coded from a change on with the fewest bits. Takes where b1 is. Where a1 is below
/// b1 no pass can be made, and vertical mode takes one bit.
#[inline(always)]
fn find_way(
    columns: u32,
    reference: &[u32],
    _changes: &[u32],
    at: Coding,
    above: Above,
    ahead: Ahead,
) -> Way
    requires stands { StandsRight columns reference.now _changes.now at }
    requires above { IsAbove columns reference.now (place_of at) above }
    requires ahead { IsAhead columns reference.now _changes.now at.next ahead }
    requires few { (ahead.after_a1 < 2 ^ 40) × (ahead.after_a2 < 2 ^ 40) }
    ensures { IsShortest (pixels columns reference.now) (pixels columns _changes.now) (place_of at) result }
{
    if above.b1 == ahead.a1 && ahead.after_a1 <= ahead.after_a2 + 8 {
        return vertical_way(0, below_word(), ahead.after_a1);
    }
    let way = way_without_pass(color_after(at.next), at.from, above.b1, 0, ahead);
    match b2_left_of(columns, reference, above.index, above.b1, ahead.a1) {
        None => way,
        Some(_) => search_copies(columns, reference, _changes, at, ahead, way),
    }
}

/// Finds b1 of a position (T.4, 4.2.1.1), in steps of two changes to the left, from the index after that of b1 of a position further
/// right.
#[inline(always)]
fn step_back(columns: u32, reference: &[u32], from: u64, _next: usize, index: usize) -> Above
    requires lawful { AreChanges columns reference.now }
    requires inside { from ≤ columns }
    requires right { IsNotLeft columns reference.now from _next index }
    ensures found { IsAbove columns reference.now (record { from = from; color = color_after _next }) result }
    ensures near { IsNear columns reference.now (record { from = from; color = color_after _next }) result.index }
    ensures right { IsNotLeft columns reference.now from _next result.index }
{
    let mut above = index;
    let mut b1 = change_or_end(reference, above, columns);
    'back: while above >= 2 {
        let before = change_or_end(reference, above - 2, columns);
        if u64::from(before) < from {
            return Above { index: above, b1 };
        }
        above -= 2;
        b1 = before;
    }
    Above { index: above, b1 }
}

/// Returns the first position right of a change, or 0 before the first one.
#[inline(always)]
fn place_right_of(columns: u32, changes: &[u32], next: usize) -> u64
    ensures { result ≡ (right_of_changes columns changes.now next).from }
{
    if next == 0 {
        return 0;
    }
    u64::from(change_or_end(changes, next - 1, columns)) + 1
}

/// Finds how a line is coded with the fewest bits from each change on, from the right to the left.
fn find_ways(
    ways: &mut Vec<Way>,
    columns: u32,
    reference: &[u32],
    changes: &[u32],
) -> Result<(), AllocError>
    requires reference { AreChanges columns reference.now }
    requires changes { AreChanges columns changes.now }
    ensures { OnOk result (AreWays columns reference.now changes.now ways.new.items) }
{
    ways.clear();
    ways.reserve_exact(changes.len() + 1)?;
    let mut next = changes.len() + 1;
    let mut index = reference.len() + (reference.len() + next) % 2;
    let mut second = columns;
    let mut after_a1 = 0;
    let mut after_a2 = 0;
    'changes: while next > 0 {
        next -= 1;
        let from = place_right_of(columns, changes, next);
        let above = step_back(columns, reference, from, next, index + 1);
        index = above.index;
        let at = Coding {
            from,
            next,
            above: index,
        };
        let ahead = Ahead {
            a1: change_or_end(changes, next, columns),
            a2: second,
            after_a1,
            after_a2,
        };
        let way = find_way(columns, reference, changes, at, above, ahead);
        ways.push_reserved(way);
        second = ahead.a1;
        after_a2 = after_a1;
        after_a1 = way.bits;
    }
    Ok(())
}

/// Writes the shortest words of two runs, the first of this colour.
#[inline(never)]
fn put_shortest_runs(
    writer: &mut BitWriter,
    color: Color,
    first: u32,
    second: u32,
) -> Result<(), AllocError>
    ensures { OnOk result (all_bits writer.new ≡ all_bits writer.old
        ++ (shortest_run color first ++ shortest_run (opposite color) second)) }
{
    put_shortest_run(writer, color, first)?;
    put_shortest_run(writer, color.opposite(), second)
}

/// Writes the words of passes.
#[inline(always)]
fn put_passes(writer: &mut BitWriter, passes: u64) -> Result<(), AllocError>
    ensures { OnOk result (all_bits writer.new ≡ all_bits writer.old ++ words_of_passes passes) }
{
    let mut left = passes;
    'passes: while left > 0 {
        put_code_word(writer, pass_word())?;
        left -= 1;
    }
    Ok(())
}

/// Writes the passes of a way and the mode after them, and returns how many changes are left of the new position.
#[inline(always)]
fn put_way(
    writer: &mut BitWriter,
    columns: u32,
    _reference: &[u32],
    changes: &[u32],
    next: usize,
    way: Way,
) -> Result<usize, AllocError>
    requires reference { AreChanges columns _reference.now }
    requires changes { AreChanges columns changes.now }
    requires inside { next ≤ length changes.now }
    requires way { IsShortest (pixels columns _reference.now) (pixels columns changes.now) (right_of_changes columns changes.now next) way }
    ensures onward { IfOk result (λ after. next < after) }
    ensures written { IfOk result (λ after. all_bits writer.new ++ shortest_rest (pixels columns _reference.now)
        (pixels columns changes.now) (right_of_changes columns changes.now after) ≡ all_bits writer.old
        ++ way_bits (pixels columns _reference.now) (pixels columns changes.now) (right_of_changes columns changes.now next)
        way.passes way.is_vertical) }
{
    put_passes(writer, way.passes)?;
    let word = Word {
        count: way.count,
        bits: way.word,
    };
    put_code_word(writer, word)?;
    if way.is_vertical {
        return Ok(next + 1);
    }
    let a1 = change_or_end(changes, next, columns);
    let a2 = change_or_end(changes, next + 1, columns);
    put_shortest_runs(writer, color_after(next), way.first, a2 - a1)?;
    Ok(next + 2)
}

/// Writes the ways of a line one after another.
fn put_ways(
    writer: &mut BitWriter,
    ways: &[Way],
    columns: u32,
    _reference: &[u32],
    changes: &[u32],
) -> Result<(), AllocError>
    requires reference { AreChanges columns _reference.now }
    requires changes { AreChanges columns changes.now }
    requires ways { AreWays columns _reference.now changes.now ways.now }
    ensures { OnOk result (all_bits writer.new ≡ all_bits writer.old
        ++ shortest_line_2d (pixels columns _reference.now) (pixels columns changes.now)) }
{
    let mut next = 0;
    'modes: while next < ways.len() {
        let way = ways[ways.len() - 1 - next];
        next = put_way(writer, columns, _reference, changes, next, way)?;
    }
    Ok(())
}

/// Writes the modes of a row that have the fewest bits, from the position left of it to its end (T.4, 4.2.1.3). The list
/// lends its memory.
pub fn put_shortest_line(
    writer: &mut BitWriter,
    ways: &mut Vec<Way>,
    columns: u32,
    reference: &[u32],
    changes: &[u32],
) -> Result<(), AllocError>
    requires reference { AreChanges columns reference.now }
    requires changes { AreChanges columns changes.now }
    ensures { OnOk result (all_bits writer.new ≡ all_bits writer.old
        ++ shortest_line_2d (pixels columns reference.now) (pixels columns changes.now)) }
{
    find_ways(ways, columns, reference, changes)?;
    put_ways(writer, ways.as_slice(), columns, reference, changes)
}
