//! The fax images of a PDF file, and their data.

use crate::put_numbers;
use paid_cursor::Cursor;
use pdf_read::{FaxImage, Pdf, PdfError};
use std::alloc::Global;
use std::io;
use std::io::Write;

/// Writes the answer to a file: `F` and how much was found, its images, a letter (`o`, or for an error: `n` no PDF file, `x` encrypted,
/// `e` no objects, `b` a filter, `s` spent, `m` out of memory), and how many steps are left.
pub(crate) fn put_images<W: Write>(
    alloc: Global,
    bytes: &[u8],
    allowance: usize,
    out: &mut W,
) -> io::Result<()> {
    let mut pdf = match Pdf::open(alloc, Cursor::new(bytes, allowance)) {
        Ok(pdf) => pdf,
        Err(error) => return put_numbers(error_letter(error), &[0], out),
    };
    let count = pdf.images().len();
    let numbers = [
        u64::from(pdf.pages()),
        count as u64,
        pdf.others() as u64,
        pdf.unread() as u64,
    ];
    put_numbers(b'F', &numbers, out)?;
    for index in 0..count {
        let Some(image) = pdf.images().get(index).copied() else {
            break;
        };
        put_image(&mut pdf, &image, out)?;
    }
    put_numbers(b'o', &[pdf.left() as u64], out)
}

/// Returns the letter of an error.
pub(crate) fn error_letter(error: PdfError) -> u8 {
    match error {
        PdfError::NotPdf => b'n',
        PdfError::Encrypted => b'x',
        PdfError::NoObjects => b'e',
        PdfError::BadFilter => b'b',
        PdfError::Spent => b's',
        PdfError::OutOfMemory => b'm',
    }
}

/// Returns 4 for Group 4, 1 for one-dimensional Group 3, and 2 for two-dimensional.
fn encoding_of(k: i64) -> u64 {
    if k < 0 {
        return 4;
    }
    if k == 0 { 1 } else { 2 }
}

/// Writes `A` and what an image is, and then `B` and its data, or the letter of an error.
fn put_image<W: Write>(pdf: &mut Pdf<'_>, image: &FaxImage, out: &mut W) -> io::Result<()> {
    let parameters = image.parameters;
    let numbers = [
        u64::from(image.page),
        u64::from(image.width),
        u64::from(image.height),
        u64::from(image.bits_per_component),
        u64::from(image.is_mask),
        u64::from(image.is_inverted),
        u64::from(image.is_zero_lighter),
        encoding_of(parameters.k),
        u64::from(parameters.end_of_line),
        u64::from(parameters.encoded_byte_align),
        u64::from(parameters.columns),
        u64::from(parameters.rows),
        u64::from(parameters.end_of_block),
        u64::from(parameters.black_is_1),
        u64::from(parameters.damaged_rows_before_error),
    ];
    put_numbers(b'A', &numbers, out)?;
    match pdf.data_of(image) {
        Ok(span) => {
            let data = pdf.bytes(span);
            put_numbers(b'B', &[data.len() as u64], out)?;
            out.write_all(data)
        }
        Err(error) => put_numbers(error_letter(error), &[], out),
    }
}
