//! Reads the directories of files from standard input, for the checks that compare the readers of files with others.
//!
//! A record is a number of bytes and an allowance, each of four bytes with the lowest first, and the bytes of a file. The answer is what
//! `put_directory` writes for each directory, and at the end a letter (`o`, or for an error: `n` no TIFF file, `e` the end of the file,
//! `l` a loop, `s` spent, `m` out of memory) and how many steps are left. Its numbers have eight bytes. With the argument `pages` the
//! answer is that of `pages::put_pages`, with `pdf_pages` of `pages::put_pdf_pages`, with `images` of `images::put_images`, and with `pictures` that
//! of `pictures::put_pictures`.
#![tactic(auto)]

ghost use Rattle.std.specs.Prelude.{◌+◌, ◌≤◌, IfSome, length};

mod images;
mod pages;
mod pictures;

use images::put_images;
use pages::{put_pages, put_pdf_pages};
use paid_cursor::Cursor;
use pictures::put_pictures;
use std::alloc::Global;
use std::io::{BufWriter, Read, Write};
use std::{env, io};
use tiff_read::{Directory, Layout, Picture, Ratio, ResolutionUnit, Tiff, TiffError};

fn main(rt: HostRuntime) -> io::Result<()> {
    let mut input: Vec<u8> = Vec::new(rt.alloc());
    rt.stdin().read_to_end(&mut input)?;
    let word = match env::args(&rt) {
        Ok(words) => words.skip(1).next(),
        Err(_) => None,
    };
    let word = match &word {
        Some(word) => word.as_str(),
        None => "",
    };
    let mut out = BufWriter::new(rt.alloc(), rt.stdout())?;
    let mut rest = input.as_slice();
    for _ in 0..input.len() {
        let Some(record) = Record::first_of(rest) else {
            break;
        };
        rest = &rest[HEAD_BYTES + record.bytes.len()..];
        match word {
            "pages" => put_pages(rt.alloc(), record.bytes, record.allowance, &mut out)?,
            "pdf_pages" => put_pdf_pages(rt.alloc(), record.bytes, record.allowance, &mut out)?,
            "pictures" => put_pictures(record.bytes, record.allowance, &mut out)?,
            "images" => put_images(rt.alloc(), record.bytes, record.allowance, &mut out)?,
            _ => put_file(rt.alloc(), &record, &mut out)?,
        }
    }
    out.flush()
}

/// The bytes of a record before those of the file.
const HEAD_BYTES: usize = 8;

/// A file, and what may be paid for it.
#[derive(Drop)]
struct Record<'a> {
    allowance: usize,
    bytes: &'a [u8],
}

impl<'a> Record<'a> {
    /// Returns the first record of some bytes, or `None` if they have no whole one.
    fn first_of(input: &'a [u8]) -> Option<Record<'a>>
        ensures { IfSome result (λ found. HEAD_BYTES + length found.bytes.now ≤ length input.now) }
    {
        let head = input.get(..HEAD_BYTES)?;
        let bytes = input[HEAD_BYTES..].get(..number(head))?;
        Some(Record {
            allowance: number(&head[4..]),
            bytes,
        })
    }
}

/// Returns the number of the first four bytes, the lowest first.
fn number(bytes: &[u8]) -> usize
    requires { 4 ≤ length bytes.now }
{
    u32::from_le_bytes([bytes[0], bytes[1], bytes[2], bytes[3]]) as usize
}

/// Why nothing more is written of a file.
enum Halt {
    /// Standard output can't be written.
    Device(io::Error),
    /// The file isn't read on.
    File(TiffError),
}

impl From<io::Error> for Halt {
    fn from(error: io::Error) -> Halt {
        Halt::Device(error)
    }
}

impl From<TiffError> for Halt {
    fn from(error: TiffError) -> Halt {
        Halt::File(error)
    }
}

/// Writes the answer to a record.
fn put_file<W: Write>(alloc: Global, record: &Record<'_>, out: &mut W) -> io::Result<()> {
    let mut tiff = match Tiff::open(alloc, Cursor::new(record.bytes, record.allowance)) {
        Ok(tiff) => tiff,
        Err(error) => return put_numbers(error_letter(error), &[0], out),
    };
    let letter = match put_directories(&mut tiff, out) {
        Ok(()) => b'o',
        Err(Halt::File(error)) => error_letter(error),
        Err(Halt::Device(error)) => return Err(error),
    };
    put_numbers(letter, &[tiff.left() as u64], out)
}

fn error_letter(error: TiffError) -> u8 {
    match error {
        TiffError::NotTiff => b'n',
        TiffError::Outside => b'e',
        TiffError::Loop => b'l',
        TiffError::Spent => b's',
        TiffError::OutOfMemory => b'm',
    }
}

/// Writes what each directory says.
fn put_directories<W: Write>(tiff: &mut Tiff<'_>, out: &mut W) -> Result<(), Halt> {
    for _ in 0..u64::MAX {
        let Some(directory) = tiff.next_directory()? else {
            break;
        };
        put_directory(tiff, &directory, out)?;
    }
    Ok(())
}

/// The texts that are written.
const TEXTS: [u16; 6] = [269, 270, 305, 306, 315, 33432];

/// Writes `D` and what a directory says: its entries, whether it is cut, and its picture; then its texts and its parts.
fn put_directory<W: Write>(
    tiff: &mut Tiff<'_>,
    directory: &Directory,
    out: &mut W,
) -> Result<(), Halt> {
    let entries = directory.entries as u64;
    put_numbers(b'D', &[entries, u64::from(directory.is_cut)], out)?;
    let picture = tiff.picture(directory)?;
    put_picture(&picture, out)?;
    for tag in TEXTS {
        if let Some(text) = tiff.text(directory, tag)? {
            put_numbers(b'T', &[u64::from(tag), text.len() as u64], out)?;
            out.write_all(text)?;
        }
    }
    if let Some(layout) = tiff.layout(directory)? {
        put_parts(tiff, &layout, out)?;
    }
    Ok(())
}

/// Writes `I` and a picture: its colours are 2 ^ 64 - 1 if they aren't said.
fn put_picture<W: Write>(picture: &Picture, out: &mut W) -> io::Result<()> {
    let unit = match picture.unit {
        ResolutionUnit::None => 1,
        ResolutionUnit::Inch => 2,
        ResolutionUnit::Centimetre => 3,
    };
    let numbers = [
        picture.columns,
        picture.rows,
        picture.bits_per_sample,
        picture.samples_per_pixel,
        picture.compression,
        picture.photometric.unwrap_or(u64::MAX),
        u64::from(picture.is_low_first),
        u64::from(picture.orientation),
        picture.t4_options,
        picture.t6_options,
        unit,
    ];
    put_numbers(b'I', &numbers, out)?;
    put_ratio(b'X', picture.across, out)?;
    put_ratio(b'Y', picture.down, out)
}

/// Writes a letter and a ratio, if there is one.
fn put_ratio<W: Write>(letter: u8, ratio: Option<Ratio>, out: &mut W) -> io::Result<()> {
    match ratio {
        None => Ok(()),
        Some(ratio) => put_numbers(letter, &[ratio.above, ratio.below], out),
    }
}

/// Writes `L` and a layout, and `P` and where it is for each part.
fn put_parts<W: Write>(tiff: &mut Tiff<'_>, layout: &Layout, out: &mut W) -> Result<(), Halt> {
    let numbers = [
        u64::from(layout.is_tiled),
        layout.part_columns,
        layout.part_rows,
        layout.across,
        layout.count,
    ];
    put_numbers(b'L', &numbers, out)?;
    for index in 0..layout.count {
        if let Some(part) = tiff.part(layout, index)? {
            let numbers = [part.start as u64, part.end as u64, u64::from(part.is_cut)];
            put_numbers(b'P', &numbers, out)?;
        }
    }
    Ok(())
}

/// Writes a letter and some numbers, the lowest byte of each first.
fn put_numbers<W: Write>(letter: u8, numbers: &[u64], out: &mut W) -> io::Result<()> {
    out.write_all(&[letter])?;
    for number in numbers {
        out.write_all(&number.to_le_bytes())?;
    }
    Ok(())
}
