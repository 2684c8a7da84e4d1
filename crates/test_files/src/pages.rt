//! The pages of a file, decoded.

use crate::images::error_letter as pdf_error_letter;
use crate::{Halt, error_letter, put_numbers};
use fax_decode::{DecodedPart, decode_part};
use fax_pages::{Found, Page, Part, PdfPages, TiffPages};
use hayro_ccitt::{EncodingMode, bits_fit};
use paid_cursor::Cursor;
use std::alloc::Global;
use std::io;
use std::io::Write;

/// Writes the answer to a file: its pages, a letter, and how many steps are left.
pub(crate) fn put_pages<W: Write>(
    alloc: Global,
    bytes: &[u8],
    allowance: usize,
    out: &mut W,
) -> io::Result<()> {
    let mut pages = match TiffPages::open(alloc, Cursor::new(bytes, allowance)) {
        Ok(pages) => pages,
        Err(error) => return put_numbers(error_letter(error), &[0], out),
    };
    let letter = match put_all(alloc, &mut pages, out) {
        Ok(()) => b'o',
        Err(Halt::File(error)) => error_letter(error),
        Err(Halt::Device(error)) => return Err(error),
    };
    put_numbers(letter, &[pages.left() as u64], out)
}

fn put_all<W: Write>(alloc: Global, pages: &mut TiffPages<'_>, out: &mut W) -> Result<(), Halt> {
    for _ in 0..u64::MAX {
        let Some(found) = pages.next_page(alloc)? else {
            break;
        };
        put_found(alloc, &found, out)?;
    }
    Ok(())
}

/// Writes the answer to a PDF file: its fax images as pages, a letter as for `images::put_images`, and how many steps are left.
pub(crate) fn put_pdf_pages<W: Write>(
    alloc: Global,
    bytes: &[u8],
    allowance: usize,
    out: &mut W,
) -> io::Result<()> {
    let mut pages = match PdfPages::open(alloc, Cursor::new(bytes, allowance)) {
        Ok(pages) => pages,
        Err(error) => return put_numbers(pdf_error_letter(error), &[0], out),
    };
    let mut letter = b'o';
    for _ in 0..u64::MAX {
        match pages.next_page(alloc) {
            Ok(None) => break,
            Ok(Some(found)) => put_found(alloc, &found, out)?,
            Err(error) => {
                letter = pdf_error_letter(error);
                break;
            }
        }
    }
    put_numbers(letter, &[pages.left() as u64], out)
}

/// Writes a page, or `R` and the numbers of one that isn't decoded.
fn put_found<W: Write>(alloc: Global, found: &Found<'_>, out: &mut W) -> io::Result<()> {
    match found {
        Found::Page(page) => put_page(alloc, page, out),
        Found::Unread(unread) => {
            let numbers = [u64::from(unread.number), u64::from(unread.image)];
            put_numbers(b'R', &numbers, out)
        }
    }
}

/// Writes `G` and what a page is, and its parts.
fn put_page<W: Write>(alloc: Global, page: &Page<'_>, out: &mut W) -> io::Result<()> {
    let numbers = [
        u64::from(page.number),
        u64::from(page.image),
        u64::from(page.has_height),
        u64::from(page.columns),
        u64::from(page.rows),
        u64::from(page.orientation),
        u64::from(page.is_inverted),
        u64::from(page.rows_are_words),
    ];
    put_numbers(b'G', &numbers, out)?;
    for index in 0..page.parts.len() {
        put_part(alloc, page, &page.parts[index], out)?;
    }
    Ok(())
}

/// Writes `S` and where a part is, how it is encoded, and its rows as they are decoded.
fn put_part<W: Write>(alloc: Global, page: &Page<'_>, part: &Part, out: &mut W) -> io::Result<()> {
    let settings = part.settings;
    let encoding = match settings.encoding {
        EncodingMode::Group4 => 4,
        EncodingMode::Group3_1D => 1,
        EncodingMode::Group3_2D => 2,
    };
    let numbers = [
        part.start as u64,
        part.end as u64,
        u64::from(part.is_cut),
        u64::from(part.left),
        u64::from(part.top),
        u64::from(settings.columns),
        u64::from(settings.rows),
        encoding,
        u64::from(settings.end_of_line),
        u64::from(settings.rows_are_byte_aligned),
        u64::from(settings.end_of_block),
    ];
    put_numbers(b'S', &numbers, out)?;
    let data = page.data(part);
    put_numbers(b'B', &[data.len() as u64], out)?;
    out.write_all(data)?;
    if settings.strict || !bits_fit(data) {
        return put_numbers(b'N', &[], out);
    }
    put_rows(&decode_part(alloc, data, page.order, settings), out)
}

/// Writes `W` and whether a strict reading fails, how many bytes there are, and the bytes.
fn put_rows<W: Write>(part: &DecodedPart, out: &mut W) -> io::Result<()> {
    let numbers = [
        u64::from(part.fault.is_some()),
        part.rows.bytes.len() as u64,
    ];
    put_numbers(b'W', &numbers, out)?;
    out.write_all(part.rows.bytes.as_slice())
}
