//! How numbers of a page's file are written.

use std::alloc::AllocError;
use tiff_read::Form;

/// Returns what a BigTIFF file with the same order of bytes begins with, whose directory is right behind it.
pub(crate) fn big_head(form: Form) -> [u8; 16] {
    if form.is_big_endian {
        *b"MM\0+\0\x08\0\0\0\0\0\0\0\0\0\x10"
    } else {
        *b"II+\0\x08\0\0\0\x10\0\0\0\0\0\0\0"
    }
}

/// Adds a number of two bytes.
pub(crate) fn put_short(form: Form, number: u16, out: &mut Vec<u8>) -> Result<(), AllocError> {
    let digits = if form.is_big_endian {
        number.to_be_bytes()
    } else {
        number.to_le_bytes()
    };
    out.extend_from_slice(&digits)
}

/// Returns the bytes of a number of eight.
pub(crate) fn long8(form: Form, number: u64) -> [u8; 8] {
    if form.is_big_endian {
        number.to_be_bytes()
    } else {
        number.to_le_bytes()
    }
}
