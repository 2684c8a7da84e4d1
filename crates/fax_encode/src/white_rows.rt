//! White rows below white ones: they are counted by their bytes, and their lines are words that are made once.

ghost use Rattle.std.specs.Prelude.{◌≡◌, ◌*◌, ◌^◌, ◌<◌, ◌≤◌, ◌++◌, List};
ghost use Rattle.std.specs.Prelude.{false, length, replicate, take, IfOk, IfSome, OnOk};
ghost use Rattle.fax_bits.specs.Bits.{bits_of};
ghost use Rattle.fax_reading.specs.Rows.{Row, white_row};
ghost use Rattle.fax_encode.specs.Settings.{chosen_part, left_after, lines_left};
ghost use Rattle.fax_encode.specs.WhiteRows.{IsWhiteLine, AreWhiteLines};
ghost use Rattle.fax_encode.specs.Writing.{all_bits};
ghost use Rattle.fax_encode.specs.Settings.{EndsWhereAligned};

use crate::EncodeSettings;
use crate::encoding::{RowBelow, put_part};
use fax_bitmap::bitmap_rows::zero_bytes;
use fax_bits::EncodingMode;
use fax_coding::runs::put_joined;
use fax_coding::shortest_lines::Way;
use fax_words::bit_writer::BitWriter;
use fax_words::words::Joined;
use std::alloc::{AllocError, Global};

/// The line of a white row below a white one, with what belongs to it, and how many lines after it may be two-dimensional.
#[derive(Clone, Copy)]
pub struct WhiteLine {
    pub line: Joined,
    pub after: u32,
}

/// The lines of white rows below white ones: where no line may be two-dimensional by K, and, with K 2, where one may.
#[derive(Clone, Copy)]
pub struct WhiteLines {
    pub first: WhiteLine,
    pub further: WhiteLine,
}

/// White rows, one below the other: how many columns they have, and how many they are.
#[derive(Clone, Copy)]
pub struct WhiteRows {
    pub columns: u32,
    pub count: usize,
}

/// Returns how many rows at the start of a bitmap are white, with the bits that fill their last bytes.
#[inline(never)]
pub fn white_rows(bitmap: &[u8], width: usize) -> usize
    requires { 0 < width }
    ensures within { result * width ≤ length bitmap.now }
    ensures fits { result * width < 2 ^ 64 }
    ensures white { bits_of (take (result * width) bitmap.now) ≡ replicate (8 * (result * width)) false }
{
    zero_bytes(bitmap) / width
}

/// Makes the line of a white row below a white one, unless it has 64 bits or more.
fn white_line(
    alloc: Global,
    ways: &mut Vec<Way>,
    columns: u32,
    settings: EncodeSettings,
    left: u32,
) -> Result<Option<WhiteLine>, AllocError>
    ensures { IfOk result (λ made. IfSome made (λ white. IsWhiteLine settings columns left white)) }
{
    let mut writer = BitWriter::new(alloc);
    let rows = RowBelow {
        reference: &[],
        changes: &[],
    };
    let after = put_part(&mut writer, ways, columns, settings, left, rows)?;
    let Some(line) = writer.as_joined() else {
        return Ok(None);
    };
    Ok(Some(WhiteLine { line, after }))
}

/// Makes the lines of white rows below white ones, unless they may have 64 bits or more, or depend on where they begin.
#[inline(never)]
pub fn white_lines(
    alloc: Global,
    ways: &mut Vec<Way>,
    columns: u32,
    settings: EncodeSettings,
) -> Result<Option<WhiteLines>, AllocError>
    ensures { IfOk result (λ made. IfSome made (λ lines. AreWhiteLines settings columns lines)) }
{
    if columns >= 2624 || settings.eols_end_at_bytes {
        return Ok(None);
    }
    let Some(first) = white_line(alloc, ways, columns, settings, 0)? else {
        return Ok(None);
    };
    let by_two = EncodeSettings { k: 2, ..settings };
    let Some(further) = white_line(alloc, ways, columns, by_two, 1)? else {
        return Ok(None);
    };
    Ok(Some(WhiteLines { first, further }))
}

/// Returns the lines of white rows below white ones if there are more rows than one: those that were made, or else new ones.
#[inline(never)]
pub fn lines_for(
    lines: Option<WhiteLines>,
    alloc: Global,
    ways: &mut Vec<Way>,
    columns: u32,
    settings: EncodeSettings,
    count: usize,
) -> Result<Option<WhiteLines>, AllocError>
    requires { IfSome lines (λ made. AreWhiteLines settings columns made) }
    ensures { IfOk result (λ made. IfSome made (λ lines. AreWhiteLines settings columns lines)) }
{
    if lines.is_some() || count < 2 {
        return Ok(lines);
    }
    white_lines(alloc, ways, columns, settings)
}

/// Returns how many lines may be two-dimensional after a line of a white row that may be. Takes how many may be after it with K 2:
/// none if it is.
#[inline(always)]
fn left_after_further(_columns: u32, settings: EncodeSettings, left: u32, further: WhiteLine) -> u32
    requires some { 0 < left }
    requires white { IsWhiteLine (record settings { k = 2 }) _columns 1 further }
    ensures { result ≡ left_after settings.effort settings.encoding settings.k left (white_row _columns) (white_row _columns) }
{
    match settings.encoding {
        EncodingMode::Group3_2D => {
            if further.after == 0 {
                left - 1
            } else {
                settings.k.saturating_sub(1)
            }
        }
        _ => 0,
    }
}

/// Writes the line of a white row below a white one, with what belongs to it, from its words.
#[inline(always)]
fn put_words(
    writer: &mut BitWriter,
    _columns: u32,
    settings: EncodeSettings,
    left: u32,
    lines: WhiteLines,
) -> Result<u32, AllocError>
    requires lines { AreWhiteLines settings _columns lines }
    ensures written { OnOk result (all_bits writer.new ≡ all_bits writer.old
        ++ chosen_part settings (length (all_bits writer.old)) left (white_row _columns) (white_row _columns)) }
    ensures left { IfOk result (λ after. after
        ≡ left_after settings.effort settings.encoding settings.k left (white_row _columns) (white_row _columns)) }
{
    if left == 0 {
        put_joined(writer, lines.first.line)?;
        return Ok(lines.first.after);
    }
    put_joined(writer, lines.further.line)?;
    Ok(left_after_further(_columns, settings, left, lines.further))
}

/// Writes the line of a white row below a white one, with what belongs to it. Takes the lines that were made, if any, and the number
/// of lines that may still be two-dimensional, and returns that after this line.
#[inline(always)]
pub fn put_white_line(
    writer: &mut BitWriter,
    ways: &mut Vec<Way>,
    columns: u32,
    settings: EncodeSettings,
    left: u32,
    lines: Option<WhiteLines>,
) -> Result<u32, AllocError>
    requires whole { EndsWhereAligned settings writer.old }
    requires lines { IfSome lines (λ made. AreWhiteLines settings columns made) }
    ensures written { OnOk result (all_bits writer.new ≡ all_bits writer.old
        ++ chosen_part settings (length (all_bits writer.old)) left (white_row columns) (white_row columns)) }
    ensures left { IfOk result (λ after. after
        ≡ left_after settings.effort settings.encoding settings.k left (white_row columns) (white_row columns)) }
    ensures whole { OnOk result (EndsWhereAligned settings writer.new) }
{
    match lines {
        Some(made) => put_words(writer, columns, settings, left, made),
        None => {
            let rows = RowBelow {
                reference: &[],
                changes: &[],
            };
            put_part(writer, ways, columns, settings, left, rows)
        }
    }
}

/// Writes the lines of white rows below a white one, with what belongs to each. Takes the number of lines that may still be
/// two-dimensional, and returns that after them.
#[inline(never)]
pub fn put_white_lines(
    writer: &mut BitWriter,
    ways: &mut Vec<Way>,
    white: WhiteRows,
    settings: EncodeSettings,
    left: u32,
    lines: Option<WhiteLines>,
) -> Result<u32, AllocError>
    requires whole { EndsWhereAligned settings writer.old }
    requires lines { IfSome lines (λ made. AreWhiteLines settings white.columns made) }
    ensures written { IfOk result (λ after. (below : List Row)
        → all_bits writer.new ++ lines_left settings (length (all_bits writer.new)) after (white_row white.columns) below
        ≡ all_bits writer.old ++ lines_left settings (length (all_bits writer.old)) left (white_row white.columns)
        (replicate white.count (white_row white.columns) ++ below)) }
    ensures whole { OnOk result (EndsWhereAligned settings writer.new) }
{
    let mut rows = white.count;
    let mut now = left;
    'rows: while rows > 0 {
        now = put_white_line(writer, ways, white.columns, settings, now, lines)?;
        rows -= 1;
    }
    Ok(now)
}
