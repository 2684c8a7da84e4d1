//! Writes a picture from standard input as a PNG file to standard output, for the checks that have other programs read it; with the
//! argument `tiff` or `pdf`, pages as a TIFF or a PDF file, as `documents::write_tiff` says.
//!
//! The input of a picture is four numbers of four bytes with the lowest first, and its rows: how many columns and rows it has, and how many
//! pixels a metre has across and down, 0 if that isn't said. The status is 1 where it isn't written, and 2 where the input has no numbers.
#![tactic(auto)]

ghost use Rattle.std.specs.Prelude.{◌+◌, ◌≤◌, length};

mod documents;

use documents::{Unwritten, write_pdf, write_tiff};
use png_write::{Density, Pixels, write_png};
use std::env;
use std::io::Read;
use std::process::ExitCode;

fn main(rt: HostRuntime) -> ExitCode {
    let word = match env::args(&rt) {
        Ok(words) => words.skip(1).next(),
        Err(_) => None,
    };
    let is_tiff = matches!(&word, Some(word) if word.as_str() == "tiff");
    let is_pdf = matches!(&word, Some(word) if word.as_str() == "pdf");
    let mut input: Vec<u8> = Vec::new(rt.alloc());
    if rt.stdin().read_to_end(&mut input).is_err() {
        return ExitCode::from(2);
    }
    if is_tiff {
        return status_of(write_tiff(rt.alloc(), input.as_slice(), &mut rt.stdout()));
    }
    if is_pdf {
        return status_of(write_pdf(rt.alloc(), input.as_slice(), &mut rt.stdout()));
    }
    if input.len() < HEAD_BYTES {
        return ExitCode::from(2);
    }
    let (head, bytes) = input.split_at(HEAD_BYTES);
    let pixels = Pixels {
        columns: number(head),
        rows: number(&head[4..]),
        bytes,
    };
    match write_png(rt.alloc(), &mut rt.stdout(), &pixels, density(&head[8..])) {
        Ok(()) => ExitCode::from(0),
        Err(_) => ExitCode::from(1),
    }
}

/// Returns the status of a document.
fn status_of(written: Result<(), Unwritten>) -> ExitCode {
    match written {
        Ok(()) => ExitCode::from(0),
        Err(Unwritten::Page(_)) => ExitCode::from(1),
        Err(Unwritten::Input) => ExitCode::from(2),
    }
}

/// The bytes before the rows.
const HEAD_BYTES: usize = 16;

/// Returns the number of the first four bytes, the lowest first.
fn number(bytes: &[u8]) -> u32
    requires { 4 ≤ length bytes.now }
{
    u32::from_le_bytes([bytes[0], bytes[1], bytes[2], bytes[3]])
}

/// Returns how many pixels a metre has.
fn density(bytes: &[u8]) -> Option<Density>
    requires { 8 ≤ length bytes.now }
{
    match (number(bytes), number(&bytes[4..])) {
        (0, _) => None,
        (across, down) => Some(Density { across, down }),
    }
}
