//! The bitmap of the input: that of a PBM picture (P4), or rows without a header.

ghost use Rattle.std.specs.Prelude.{◌≡◌, ◌<◌, ◌≤◌, ◌+◌, ◌/◌, IfOk, IfSome, get_or, length, true, false};
ghost use Rattle.fax_program.specs.Arguments.{number_of};
ghost use Rattle.faxpack.specs.Pictures.{digit_count, gap_length, header_of, is_space, number_at, pbm_place, place_of};
ghost use Rattle.faxpack.specs.Pictures.{rows_place};

use crate::arguments::Size;
use fax_program::arguments::number_of;
use std::{fmt, str};

/// Why the input is not encoded.
#[derive(Debug, Clone, Copy, PartialEq, Eq)]
pub enum PictureFault {
    /// The input doesn't begin as a PBM picture (P4) does.
    NoPicture,
    /// The input ends before the picture, or within a row.
    Cut,
    /// The picture has no columns.
    NoColumns,
    /// The picture has no rows, and the encoding needs one.
    NoRows,
}

impl fmt::Display for PictureFault {
    ghost use Rattle.std.specs.Prelude.{Some};
    ghost use Rattle.faxpack.specs.Statuses.{text_of_picture_fault};

    ghost output = { λ fault. Some (text_of_picture_fault fault) };

    ghost styled_output = { λ fault _. Some (text_of_picture_fault fault) };

    fn fmt<W: fmt::Write>(&self, f: &mut fmt::Formatter<W>) -> fmt::Result {
        f.write_str(match self {
            PictureFault::NoPicture => "no PBM picture",
            PictureFault::Cut => "the picture ends early",
            PictureFault::NoColumns => "no columns",
            PictureFault::NoRows => "no rows",
        })
    }
}

/// Where a bitmap is in the input.
#[derive(Debug, Clone, Copy)]
pub struct Place {
    /// The width of its rows in pixels.
    pub columns: u32,
    /// The offset of its first byte.
    pub start: usize,
    /// The number of its bytes.
    pub length: usize,
}

/// A number of a header.
#[derive(Debug, Clone, Copy)]
pub struct Number {
    /// The number.
    pub value: u32,
    /// The number of its bytes, with the white space and comments before it.
    pub length: usize,
}

/// A header.
#[derive(Debug, Clone, Copy)]
pub struct Header {
    /// The width of the rows in pixels.
    pub columns: u32,
    /// The number of rows.
    pub rows: u32,
    /// The number of the header's bytes.
    pub length: usize,
}

/// Returns where the bitmap is in the input: that of rows of this size, or of a PBM picture.
pub fn place_of(size: Option<Size>, input: &[u8]) -> Result<Place, PictureFault>
    ensures place { result ≡ place_of size input.now }
    ensures some { IfOk result (λ place. 0 < place.columns) }
    ensures within { IfOk result (λ place. place.start + place.length ≤ length input.now) }
{
    match size {
        Some(size) => rows_place(size, input.len()),
        None => pbm_place(input),
    }
}

/// Returns the number of bytes of a row of this many columns.
fn bytes_of_row(columns: u32) -> usize
    ensures { result ≡ (columns + 7) / 8 }
{
    (columns as usize).div_ceil(8)
}

/// Returns where rows of this size are in an input of this length.
fn rows_place(size: Size, length: usize) -> Result<Place, PictureFault>
    ensures place { result ≡ rows_place size length }
    ensures some { IfOk result (λ place. 0 < place.columns) }
    ensures within { IfOk result (λ place. place.start + place.length ≤ length) }
{
    if size.columns == 0 {
        return Err(PictureFault::NoColumns);
    }
    let width = bytes_of_row(size.columns);
    if length % width != 0 {
        return Err(PictureFault::Cut);
    }
    let most = size.rows as usize * width;
    Ok(Place {
        columns: size.columns,
        start: 0,
        length: if size.rows > 0 && most < length {
            most
        } else {
            length
        },
    })
}

/// Returns where the bitmap of a PBM picture is.
fn pbm_place(input: &[u8]) -> Result<Place, PictureFault>
    ensures place { result ≡ pbm_place input.now }
    ensures some { IfOk result (λ place. 0 < place.columns) }
    ensures within { IfOk result (λ place. place.start + place.length ≤ length input.now) }
{
    let Some(header) = header_of(input) else {
        return Err(PictureFault::NoPicture);
    };
    if header.columns == 0 {
        return Err(PictureFault::NoColumns);
    }
    let length = header.rows as usize * bytes_of_row(header.columns);
    if input.len() - header.length < length {
        return Err(PictureFault::Cut);
    }
    Ok(Place {
        columns: header.columns,
        start: header.length,
        length,
    })
}

/// Returns the header that an input begins with: `P4`, the width, the height, and a byte of white space.
fn header_of(input: &[u8]) -> Option<Header>
    ensures header { result ≡ header_of input.now }
    ensures within { IfSome result (λ header. header.length ≤ length input.now) }
{
    if input.len() < 2 || input[0] != b'P' || input[1] != b'4' {
        return None;
    }
    let columns = number_at(&input[2..])?;
    let rows = number_at(&input[2 + columns.length..])?;
    let length = 2 + columns.length + rows.length;
    if length == input.len() || !is_space(input[length]) {
        return None;
    }
    Some(Header {
        columns: columns.value,
        rows: rows.value,
        length: length + 1,
    })
}

/// Returns the number that some bytes begin with, after white space and comments.
fn number_at(bytes: &[u8]) -> Option<Number>
    ensures number { result ≡ number_at bytes.now }
    ensures within { IfSome result (λ number. number.length ≤ length bytes.now) }
{
    let gap = gap_length(bytes);
    let rest = &bytes[gap..];
    let digits = digit_count(rest);
    let value = digits_number(&rest[..digits])?;
    Some(Number {
        value,
        length: gap + digits,
    })
}

/// Returns the number of bytes of white space and of comments that some bytes begin with. A comment is a `#` and what
/// follows it up to the end of the line.
fn gap_length(bytes: &[u8]) -> usize
    ensures gap { result ≡ gap_length false bytes.now }
    ensures within { result ≤ length bytes.now }
{
    let mut count = 0;
    let mut in_comment = false;
    while count < bytes.len() {
        let byte = bytes[count];
        if in_comment {
            in_comment = byte != b'\n';
        } else if byte == b'#' {
            in_comment = true;
        } else if !is_space(byte) {
            return count;
        }
        count += 1;
    }
    count
}

/// Returns the number of digits that some bytes begin with.
fn digit_count(bytes: &[u8]) -> usize
    ensures count { result ≡ digit_count bytes.now }
    ensures within { result ≤ length bytes.now }
{
    let mut count = 0;
    while count < bytes.len() && bytes[count].is_ascii_digit() {
        count += 1;
    }
    count
}

/// Returns the number that some bytes write, one to ten digits.
fn digits_number(word: &[u8]) -> Option<u32>
    ensures { result ≡ number_of word.now }
{
    match str::from_utf8(word) {
        Ok(word) => number_of(word),
        Err(_) => None,
    }
}

/// Returns whether a byte is white space: a space, or one of those from tab to carriage return.
fn is_space(byte: u8) -> bool
    ensures { result ≡ is_space byte }
{
    byte == b' ' || (9 <= byte && byte <= 13)
}
