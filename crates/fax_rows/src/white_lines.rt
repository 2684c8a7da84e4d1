//! White lines below a white row, by their bits.

ghost use Rattle.std.specs.Prelude.{◌≡◌, ◌+◌, ◌<◌, ◌≤◌, ◌++◌, ◌⊎◌, true, false, ℕ};
ghost use Rattle.fax_rows.specs.WhiteLines.{AreKnown, ArePlacedLines, FitsIn, IsLine, IsWhiteLine, IsWhiteRun, MayFollow};
ghost use Rattle.fax_rows.specs.WhiteLines.{PassesLine, bits_of_word};

use fax_bits::bit_reader::{
    BitReader, PlacedBits, WordsAhead, may_be_next, pass_bits, pass_more_bits,
};
use fax_bits::tables::{CodeWord, white_makeup_word, white_terminating_word};
use fax_bits::{DecodeSettings, EncodingMode};
use fax_lines::context::{DecoderContext, reference_row};

/// The bits of the white lines that may be next below a white row, each with the EOL before it. No bits mean no line.
#[derive(Copy, Clone)]
pub struct WhiteLines {
    /// Whether there is an EOL before each.
    pub has_eols: bool,
    /// The number of its bits, or 0.
    pub gap: usize,
    pub first: CodeWord,
    pub second: CodeWord,
    /// The number of rows after which no line is read, or a number that isn't reached.
    pub limit: u64,
}

/// Returns two words as one.
#[inline(always)]
fn joined(first: CodeWord, second: CodeWord) -> CodeWord
    requires first { FitsIn first 12 }
    requires second { FitsIn second 21 }
    ensures whole { FitsIn result (first.count + second.count) }
    ensures count { result.count ≡ first.count + second.count }
    ensures bits { bits_of_word result ≡ bits_of_word first ++ bits_of_word second }
{
    CodeWord {
        count: first.count + second.count,
        bits: first.bits << second.count | second.bits,
    }
}

/// Returns the words of a white run, if they are at most two (T.4, 4.1.1); otherwise no bits.
fn white_run(columns: u32) -> CodeWord
    ensures whole { FitsIn result 20 }
    ensures run { 0 < result.count → IsWhiteRun columns result }
{
    if columns > 2623 {
        return CodeWord { count: 0, bits: 0 };
    }
    let last = white_terminating_word(columns % 64);
    if columns < 64 {
        return last;
    }
    joined(white_makeup_word(columns / 64), last)
}

/// Returns V0 with a tag of 0 in two-dimensional data of Group 3, and the run in one-dimensional data.
#[inline(always)]
fn first_line(encoding: EncodingMode, columns: u32) -> CodeWord
    requires { 0 < columns }
    ensures { IsLine encoding columns 20 result }
{
    match encoding {
        EncodingMode::Group4 => CodeWord { count: 1, bits: 1 },
        EncodingMode::Group3_1D => white_run(columns),
        EncodingMode::Group3_2D => CodeWord { count: 2, bits: 1 },
    }
}

/// Returns the run with a tag of 1 in two-dimensional data of Group 3.
#[inline(always)]
fn second_line(encoding: EncodingMode, columns: u32) -> CodeWord
    requires { 0 < columns }
    ensures { IsLine encoding columns 21 result }
{
    match encoding {
        EncodingMode::Group4 | EncodingMode::Group3_1D => {
            return CodeWord { count: 0, bits: 0 };
        }
        EncodingMode::Group3_2D => {}
    }
    let run = white_run(columns);
    if run.count == 0 {
        return run;
    }
    joined(CodeWord { count: 1, bits: 1 }, run)
}

/// Returns a white line with the EOL before it, in data that has EOLs.
#[inline(always)]
fn following_eol(has_eols: bool, line: CodeWord) -> CodeWord
    requires { FitsIn line 21 }
    ensures { (encoding : EncodingMode) (columns most : ℕ) → IsLine encoding columns most line
        → IsWhiteLine encoding columns has_eols (12 + most) result }
{
    if !has_eols {
        return line;
    }
    if line.count == 0 {
        return line;
    }
    joined(CodeWord { count: 12, bits: 1 }, line)
}

/// Returns the row limit, or a number that isn't reached if there is none.
#[inline(always)]
fn row_limit(rows: u32) -> u64
    ensures { (rows ≡ 0) ⊎ (result ≡ rows) }
{
    if rows == 0 { u64::MAX } else { u64::from(rows) }
}

/// Returns the white lines of these settings. This is a call, so that rows that aren't white cost nothing for it.
#[cold]
#[inline(never)]
fn white_lines(settings: DecodeSettings, has_eols: bool) -> WhiteLines
    requires { 0 < settings.columns }
    ensures known { AreKnown settings result }
    ensures same { result.has_eols ≡ has_eols }
{
    let first = first_line(settings.encoding, settings.columns);
    let second = second_line(settings.encoding, settings.columns);
    WhiteLines {
        has_eols,
        gap: if has_eols { 12 } else { 0 },
        first: following_eol(has_eols, first),
        second: following_eol(has_eols, second),
        limit: row_limit(settings.rows),
    }
}

/// Passes one of these lines if it is next, and returns whether one is; otherwise nothing changes.
#[inline(always)]
pub fn pass_line(lines: WhiteLines, reader: &mut BitReader<'_>) -> bool
    requires some { 0 < lines.first.count }
    requires first { lines.first.count ≤ 32 }
    requires second { lines.second.count ≤ 33 }
    ensures passed { result ≡ true → PassesLine lines reader.old reader.new }
    ensures unchanged { result ≡ false → reader.new ≡ reader.old }
{
    let first = lines.first;
    if pass_bits(reader, first.bits, first.count) {
        return true;
    }
    let second = lines.second;
    if second.count < 2 {
        return false;
    }
    pass_more_bits(reader, second.bits, second.count)
}

/// Returns whether one of these lines may be next, and has so many bits at least: one is next, if it isn't cut by the end of the data.
#[inline(always)]
pub fn may_follow(lines: &WhiteLines, reader: &BitReader<'_>, least: usize) -> bool
    requires some { 0 < lines.now.first.count }
    requires first { lines.now.first.count ≤ 32 }
    requires second { lines.now.second.count ≤ 33 }
{
    let first = lines.first;
    if first.count < least {
        return false;
    }
    if may_be_next(reader, first.bits, first.count) {
        return true;
    }
    let second = lines.second;
    second.count > 1 && may_be_next(reader, second.bits, second.count)
}

/// White lines as they stand in words of eight bytes: the first twice, if there is no second.
#[derive(Copy, Clone)]
pub struct PlacedLines {
    pub first: PlacedBits,
    pub second: PlacedBits,
}

/// Returns these lines as they stand in the bytes of these bits.
#[inline(always)]
pub fn placed_lines(lines: &WhiteLines, words: &WordsAhead<'_>) -> PlacedLines
    requires some { 0 < lines.now.first.count }
    requires first { lines.now.first.count ≤ 32 }
    requires second { lines.now.second.count ≤ 33 }
    ensures { ArePlacedLines words.now.order lines.now result }
{
    let first = lines.first;
    let placed = words.placed(first.bits, first.count);
    let second = lines.second;
    if second.count == 0 {
        return PlacedLines {
            first: placed,
            second: placed,
        };
    }
    PlacedLines {
        first: placed,
        second: words.placed(second.bits, second.count),
    }
}

/// Passes one of these lines if it is next and eight bytes are left, and returns whether it did; otherwise nothing changes.
#[inline(always)]
pub fn pass_placed_line(placed: &PlacedLines, words: &mut WordsAhead<'_>) -> bool
    requires first { placed.now.first.count ≤ 57 }
    requires second { placed.now.second.count ≤ 57 }
    ensures order { words.new.order ≡ words.old.order }
    ensures passed { (lines : WhiteLines) → result ≡ true → ArePlacedLines words.old.order lines placed.now
        → PassesLine lines words.old.at words.new.at }
    ensures unchanged { result ≡ false → words.new ≡ words.old }
{
    words.pass_either(&placed.first, &placed.second)
}

/// Returns that no white line is known yet.
#[inline(always)]
pub fn no_white_lines(_ctx: &DecoderContext) -> WhiteLines
    ensures { AreKnown _ctx.now.held.settings result }
{
    WhiteLines {
        has_eols: false,
        gap: 0,
        first: CodeWord { count: 0, bits: 0 },
        second: CodeWord { count: 0, bits: 0 },
        limit: 0,
    }
}

/// Returns whether one of these white lines may be next: below a white row, where lines begin anywhere. They are those of
/// the settings then.
#[inline(always)]
pub fn repeats_white(ctx: &DecoderContext, lines: &mut WhiteLines) -> bool
    requires { AreKnown ctx.now.held.settings lines.old }
    ensures known { AreKnown ctx.now.held.settings lines.new }
    ensures follow { result ≡ true
        → MayFollow ctx.now.held.settings ctx.now.held.has_eols ctx.now.held.reference lines.new }
{
    if !reference_row(ctx).is_empty() {
        return false;
    }
    let settings = ctx.settings();
    if settings.columns == 0 {
        return false;
    }
    let has_eols = ctx.has_eols();
    if settings.rows_are_byte_aligned && !has_eols {
        return false;
    }
    // The limit is 0 only before they are found; there may be none.
    if lines.limit == 0 || lines.has_eols != has_eols {
        *lines = white_lines(settings, has_eols);
    }
    lines.first.count != 0
}

/// Returns whether the bits of one of these white lines are next, and that line may be next (see `repeats_white`).
#[inline(always)]
pub fn white_is_next(ctx: &DecoderContext, lines: &mut WhiteLines, reader: &BitReader<'_>) -> bool
    requires { AreKnown ctx.now.held.settings lines.old }
    ensures known { AreKnown ctx.now.held.settings lines.new }
    ensures follow { result ≡ true
        → MayFollow ctx.now.held.settings ctx.now.held.has_eols ctx.now.held.reference lines.new }
{
    repeats_white(ctx, lines) && may_follow(lines, reader, 0)
}
