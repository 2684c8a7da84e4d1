//! The pictures of a PBM file.

use crate::put_numbers;
use fax_pages::{PbmError, PbmPictures};
use paid_cursor::Cursor;
use std::io;
use std::io::Write;

/// Writes the answer to a file: of each picture `Q`, how many columns, rows and bytes it has, and the bytes; a letter (`o`, or for an error:
/// `n` no PBM file, `z` its size, `e` the end of the file, `s` spent), and how many steps are left.
pub(crate) fn put_pictures<W: Write>(
    bytes: &[u8],
    allowance: usize,
    out: &mut W,
) -> io::Result<()> {
    let mut pictures = PbmPictures::new(Cursor::new(bytes, allowance));
    let mut letter = b'o';
    for _ in 0..u64::MAX {
        match pictures.next_picture() {
            Ok(None) => break,
            Ok(Some(picture)) => {
                let size = picture.bytes.len() as u64;
                let numbers = [u64::from(picture.columns), u64::from(picture.rows), size];
                put_numbers(b'Q', &numbers, out)?;
                out.write_all(picture.bytes)?;
            }
            Err(error) => {
                letter = letter_of(error);
                break;
            }
        }
    }
    put_numbers(letter, &[pictures.left() as u64], out)
}

fn letter_of(error: PbmError) -> u8 {
    match error {
        PbmError::NotPbm => b'n',
        PbmError::Size => b'z',
        PbmError::Cut => b'e',
        PbmError::Spent => b's',
    }
}
