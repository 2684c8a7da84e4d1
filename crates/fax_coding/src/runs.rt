//! Runs of one colour, and one-dimensional lines (T.4, 4.1).

ghost use Rattle.std.specs.Prelude.{◌≡◌, ◌+◌, ◌*◌, ◌^◌, ◌<◌, ◌≤◌, ◌++◌, OnOk, length, nat_le};
ghost use Rattle.fax_bits.specs.Bits.{low_bits};
ghost use Rattle.fax_reading.specs.Rows.{AreChanges, opposite};
ghost use Rattle.fax_words.specs.Chosen.{chosen_rest, chosen_run, chosen_runs};
ghost use Rattle.fax_coding.specs.Shortest.{first_makeup, shortest_run, shortest_runs_1d};
ghost use Rattle.fax_words.specs.Writing.{all_bits};

use fax_bits::codes::Color;
use fax_words::bit_writer::BitWriter;
use fax_words::words::{Joined, Word, makeup_word, one_word, terminating_word, with_word};
use std::alloc::AllocError;

/// Writes a word.
#[inline(always)]
pub fn put_code_word(writer: &mut BitWriter, word: Word) -> Result<(), AllocError>
    requires few { word.count ≤ 13 }
    requires fits { word.bits < 2 ^ word.count }
    ensures { OnOk result (all_bits writer.new ≡ all_bits writer.old ++ low_bits word.count word.bits) }
{
    writer.put(u64::from(word.bits), u32::from(word.count))
}

/// Writes words, one after another.
#[inline(always)]
pub fn put_joined(writer: &mut BitWriter, words: Joined) -> Result<(), AllocError>
    requires few { words.count ≤ 63 }
    requires fits { words.bits < 2 ^ words.count }
    ensures { OnOk result (all_bits writer.new ≡ all_bits writer.old ++ low_bits words.count words.bits) }
{
    writer.put(words.bits, words.count)
}

/// Writes two words, one after the other.
#[inline(always)]
fn put_two_words(writer: &mut BitWriter, first: Word, second: Word) -> Result<(), AllocError>
    requires few { (first.count ≤ 13) × (second.count ≤ 13) }
    requires fits { (first.bits < 2 ^ first.count) × (second.bits < 2 ^ second.count) }
    ensures { OnOk result (all_bits writer.new
        ≡ all_bits writer.old ++ (low_bits first.count first.bits ++ low_bits second.count second.bits)) }
{
    put_joined(writer, with_word(one_word(first), second))
}

/// Writes the words of less than 2624 pixels: a make-up word if there are 64 or more, and a terminating word.
#[inline(always)]
fn put_rest(writer: &mut BitWriter, color: Color, pixels: u32) -> Result<(), AllocError>
    requires { pixels < 2624 }
    ensures { OnOk result (all_bits writer.new ≡ all_bits writer.old ++ chosen_rest color pixels) }
{
    if pixels < 64 {
        return put_code_word(writer, terminating_word(color, pixels));
    }
    put_two_words(
        writer,
        makeup_word(color, pixels / 64),
        terminating_word(color, pixels % 64),
    )
}

/// Writes the words of a long run: as many of 2560 pixels as fit, and those of the rest (T.4, 4.1.1).
#[inline(never)]
fn put_long_run(writer: &mut BitWriter, color: Color, pixels: u32) -> Result<(), AllocError>
    ensures { OnOk result (all_bits writer.new ≡ all_bits writer.old ++ chosen_run color pixels) }
{
    let mut left = pixels;
    while left >= 2560 {
        put_code_word(writer, makeup_word(color, 40))?;
        left -= 2560;
    }
    put_rest(writer, color, left)
}

/// Writes the words of a run (T.4, 4.1.1).
#[inline(always)]
pub fn put_run(writer: &mut BitWriter, color: Color, pixels: u32) -> Result<(), AllocError>
    ensures { OnOk result (all_bits writer.new ≡ all_bits writer.old ++ chosen_run color pixels) }
{
    if pixels >= 64 {
        return put_long_run(writer, color, pixels);
    }
    put_code_word(writer, terminating_word(color, pixels))
}

/// Writes the words of a run, and those of a run of the other colour after it.
#[inline(always)]
pub fn put_runs(
    writer: &mut BitWriter,
    color: Color,
    first: u32,
    second: u32,
) -> Result<(), AllocError>
    ensures { OnOk result (all_bits writer.new
        ≡ all_bits writer.old ++ (chosen_run color first ++ chosen_run (opposite color) second)) }
{
    if first < 64 && second < 64 {
        return put_two_words(
            writer,
            terminating_word(color, first),
            terminating_word(color.opposite(), second),
        );
    }
    put_run(writer, color, first)?;
    put_run(writer, color.opposite(), second)
}

/// Writes the words of a white run and of a black one, twice.
#[inline(always)]
fn put_four_runs(
    writer: &mut BitWriter,
    white: u32,
    black: u32,
    next_white: u32,
    next_black: u32,
) -> Result<(), AllocError>
    ensures { OnOk result (all_bits writer.new ≡ all_bits writer.old
        ++ ((chosen_run Color.White white ++ chosen_run Color.Black black)
        ++ (chosen_run Color.White next_white ++ chosen_run Color.Black next_black))) }
{
    if white | black | next_white | next_black < 64 {
        let first = one_word(terminating_word(Color::White, white));
        let two = with_word(first, terminating_word(Color::Black, black));
        let three = with_word(two, terminating_word(Color::White, next_white));
        let four = with_word(three, terminating_word(Color::Black, next_black));
        return put_joined(writer, four);
    }
    put_runs(writer, Color::White, white, black)?;
    put_runs(writer, Color::White, next_white, next_black)
}

/// Writes the words of a white row.
#[inline(never)]
fn put_white_row(writer: &mut BitWriter, columns: u32) -> Result<(), AllocError>
    ensures { OnOk result (all_bits writer.new ≡ all_bits writer.old ++ chosen_run Color.White columns) }
{
    if columns >= 2560 {
        return put_long_run(writer, Color::White, columns);
    }
    put_rest(writer, Color::White, columns)
}

/// Writes the runs of a row, white first, up to each change and up to the row's end.
#[inline(always)]
pub fn put_row(writer: &mut BitWriter, columns: u32, changes: &[u32]) -> Result<(), AllocError>
    requires { AreChanges columns changes.now }
    ensures { OnOk result (all_bits writer.new ≡ all_bits writer.old ++ chosen_runs columns Color.White 0 changes.now) }
{
    if changes.is_empty() {
        return put_white_row(writer, columns);
    }
    put_changes(writer, columns, changes)
}

/// Writes the runs of a row, white first, in pairs.
#[inline(never)]
fn put_changes(writer: &mut BitWriter, columns: u32, changes: &[u32]) -> Result<(), AllocError>
    requires { AreChanges columns changes.now }
    ensures { OnOk result (all_bits writer.new ≡ all_bits writer.old ++ chosen_runs columns Color.White 0 changes.now) }
{
    let mut place = 0;
    let mut next = 0;
    'fours: while changes.len() - next >= 4 {
        let black = changes[next];
        let white = changes[next + 1];
        let next_black = changes[next + 2];
        let next_white = changes[next + 3];
        put_four_runs(
            writer,
            black - place,
            white - black,
            next_black - white,
            next_white - next_black,
        )?;
        place = next_white;
        next += 4;
    }
    'twos: while changes.len() - next >= 2 {
        let black = changes[next];
        let white = changes[next + 1];
        put_runs(writer, Color::White, black - place, white - black)?;
        place = white;
        next += 2;
    }
    if next == changes.len() {
        return put_run(writer, Color::White, columns - place);
    }
    let black = changes[next];
    put_runs(writer, Color::White, black - place, columns - black)
}

/// Returns the number of bits of the code words of a run of 64 pixels or more.
#[inline(never)]
fn long_run_bits(color: Color, pixels: u32) -> u32
    ensures { result ≡ length (chosen_run color pixels) }
{
    let rest = pixels % 2560;
    let long = pixels / 2560 * 12 + u32::from(terminating_word(color, rest % 64).count);
    if rest < 64 {
        return long;
    }
    long + u32::from(makeup_word(color, rest / 64).count)
}

/// Returns the number of bits of the code words of a run.
#[inline(always)]
fn run_bits(color: Color, pixels: u32) -> u32
    ensures { result ≡ length (chosen_run color pixels) }
{
    if pixels >= 64 {
        return long_run_bits(color, pixels);
    }
    u32::from(terminating_word(color, pixels).count)
}

/// Returns the number of bits of the runs of a row, white first.
fn row_bits(columns: u32, changes: &[u32]) -> u128
    requires { AreChanges columns changes.now }
    ensures { result ≡ length (chosen_runs columns Color.White 0 changes.now) }
{
    let mut bits = 0;
    let mut place = 0;
    let mut next = 0;
    while changes.len() - next >= 2 {
        let black = changes[next];
        let white = changes[next + 1];
        let runs = u64::from(run_bits(Color::White, black - place))
            + u64::from(run_bits(Color::Black, white - black));
        bits += u128::from(runs);
        place = white;
        next += 2;
    }
    if next == changes.len() {
        return bits + u128::from(run_bits(Color::White, columns - place));
    }
    let black = changes[next];
    let runs = u64::from(run_bits(Color::White, black - place))
        + u64::from(run_bits(Color::Black, columns - black));
    bits + u128::from(runs)
}

/// Returns whether the runs of a row have at least this many bits. They aren't counted where so many changes have as many at
/// least: a white run has four bits or more, a black one two.
pub fn takes_at_least(columns: u32, changes: &[u32], bits: u128) -> bool
    requires { AreChanges columns changes.now }
    ensures { result ≡ nat_le bits (length (chosen_runs columns Color.White 0 changes.now)) }
{
    if bits <= changes.len() as u128 * 3 + 3 {
        return true;
    }
    bits <= row_bits(columns, changes)
}

/// Returns the first make-up word of the shortest words of a run of more than 40 times 64 pixels, in times of 64 pixels.
fn first_makeup(color: Color, times: u32) -> u32
    ensures is { result ≡ first_makeup color times }
    ensures long { (26 ≤ result) × (result ≤ 40) }
{
    match color {
        Color::White => { if times >= 66 && times <= 67 { 40 } else { 26 } }
        Color::Black => {
            if times == 56 || times == 84 {
                return 28;
            }
            if times == 57 || times == 85 {
                return 29;
            }
            if times >= 48 && times <= 67
                || times >= 82 && times <= 107
                || times >= 121 && times <= 123
            {
                return 30;
            }
            40
        }
    }
}

/// Writes the shortest words of a run: make-up words of 1664 pixels and more while the rest needs two of them (T.4,
/// 4.1.1).
#[inline(never)]
fn put_long_shortest_run(
    writer: &mut BitWriter,
    color: Color,
    pixels: u32,
) -> Result<(), AllocError>
    ensures { OnOk result (all_bits writer.new ≡ all_bits writer.old ++ shortest_run color pixels) }
{
    let mut left = pixels;
    while left >= 2624 {
        let times = first_makeup(color, left / 64);
        put_code_word(writer, makeup_word(color, times))?;
        left -= 64 * times;
    }
    put_rest(writer, color, left)
}

/// Writes the shortest words of a run (T.4, 4.1.1).
#[inline(always)]
pub fn put_shortest_run(writer: &mut BitWriter, color: Color, pixels: u32) -> Result<(), AllocError>
    ensures { OnOk result (all_bits writer.new ≡ all_bits writer.old ++ shortest_run color pixels) }
{
    if pixels >= 64 {
        return put_long_shortest_run(writer, color, pixels);
    }
    put_code_word(writer, terminating_word(color, pixels))
}

/// Returns the number of bits of the words of less than 2624 pixels.
#[inline(always)]
fn rest_bits(color: Color, pixels: u32) -> u32
    requires { pixels < 2624 }
    ensures is { result ≡ length (chosen_rest color pixels) }
    ensures few { result ≤ 26 }
{
    let last = u32::from(terminating_word(color, pixels % 64).count);
    if pixels >= 64 {
        return last + u32::from(makeup_word(color, pixels / 64).count);
    }
    last
}

/// The bits of words at the front of a run, and the pixels that are left after them.
#[derive(Clone, Copy)]
struct Front {
    bits: u32,
    left: u32,
}

/// Counts words of one length, 1664 white pixels or 2560 black ones, that the shortest words of a run begin with. What is left after
/// them takes few words.
#[inline(always)]
fn count_front(color: Color, pixels: u32) -> Front
    ensures counted { result.bits + length (shortest_run color result.left) ≡ length (shortest_run color pixels) }
    ensures few { 128 * result.bits + result.left ≤ pixels }
    ensures rest { result.left < 7936 }
{
    match color {
        Color::White => {
            let words = pixels.saturating_sub(2688) / 1664;
            Front {
                bits: 6 * words,
                left: pixels - 1664 * words,
            }
        }
        Color::Black => {
            let words = pixels.saturating_sub(5376) / 2560;
            Front {
                bits: 12 * words,
                left: pixels - 2560 * words,
            }
        }
    }
}

/// Returns the number of bits of the shortest words of a run.
#[inline(never)]
fn long_shortest_run_bits(color: Color, pixels: u32) -> u32
    ensures is { result ≡ length (shortest_run color pixels) }
    ensures few { result ≤ pixels + 26 }
{
    let front = count_front(color, pixels);
    let mut left = front.left;
    let mut bits = front.bits;
    while left >= 2624 {
        let times = first_makeup(color, left / 64);
        bits += u32::from(makeup_word(color, times).count);
        left -= 64 * times;
    }
    bits + rest_bits(color, left)
}

/// Returns the number of bits of the shortest words of a run.
#[inline(always)]
pub fn shortest_run_bits(color: Color, pixels: u32) -> u32
    ensures is { result ≡ length (shortest_run color pixels) }
    ensures few { result ≤ pixels + 26 }
{
    if pixels >= 64 {
        return long_shortest_run_bits(color, pixels);
    }
    u32::from(terminating_word(color, pixels).count)
}

/// Writes the shortest words of the runs of a row, white first, up to each change and up to the row's end.
pub fn put_shortest_row(
    writer: &mut BitWriter,
    columns: u32,
    changes: &[u32],
) -> Result<(), AllocError>
    requires { AreChanges columns changes.now }
    ensures { OnOk result (all_bits writer.new
        ≡ all_bits writer.old ++ shortest_runs_1d columns Color.White 0 changes.now) }
{
    let mut color = Color::White;
    let mut place = 0;
    let mut next = 0;
    'changes: while next < changes.len() {
        let change = changes[next];
        put_shortest_run(writer, color, change - place)?;
        color = color.opposite();
        place = change;
        next += 1;
    }
    put_shortest_run(writer, color, columns - place)
}

/// Returns the number of bits of the shortest words of the runs of a row, white first.
fn shortest_row_bits(columns: u32, changes: &[u32]) -> u128
    requires { AreChanges columns changes.now }
    ensures { result ≡ length (shortest_runs_1d columns Color.White 0 changes.now) }
{
    let mut bits = 0;
    let mut color = Color::White;
    let mut place = 0;
    let mut next = 0;
    'changes: while next < changes.len() {
        let change = changes[next];
        bits += u128::from(shortest_run_bits(color, change - place));
        color = color.opposite();
        place = change;
        next += 1;
    }
    bits + u128::from(shortest_run_bits(color, columns - place))
}

/// Returns whether the shortest words of the runs of a row have at least this many bits. They aren't counted where so many changes
/// have as many at least.
pub fn shortest_takes_at_least(columns: u32, changes: &[u32], bits: u128) -> bool
    requires { AreChanges columns changes.now }
    ensures { result ≡ nat_le bits (length (shortest_runs_1d columns Color.White 0 changes.now)) }
{
    let least = changes.len() as u128 * 3 + 3;
    if bits <= least {
        return true;
    }
    bits <= shortest_row_bits(columns, changes)
}
