//! A PBM or PNG picture whose rows are written as they come.

use crate::picture::{Unwritten, density_of, put_pbm_head, why_no_png};
use fax_documents::Resolution;
use faxconv_lib::{Format, NewFile};
use png_write::PngRows;
use std::alloc::Global;
use std::io;
use std::io::Write;

/// How many bytes of white rows are written at a time.
const WHITE_BYTES: usize = 1 << 16;

/// Where rows are written.
#[derive(Drop)]
enum Place {
    /// Nowhere yet.
    None,
    /// A file, which gets its name once it is whole.
    File(NewFile),
    /// Standard output.
    Standard,
}

/// The picture of rows that come one after the other.
#[derive(Drop)]
pub struct RowsOut<'a> {
    rt: &'a HostRuntime,
    place: Place,
    /// What makes it a PNG picture, once its head is written.
    png: Option<PngRows>,
    /// Its format: PNG, or else PBM.
    pub format: Format,
    /// How many pixels a unit has, which PNG says.
    pub resolution: Option<Resolution>,
    /// How many columns it has.
    pub columns: u32,
    /// How many rows it has in the end, 0 if that isn't known: then they are kept.
    pub height: u32,
    /// Whether the rows that are kept are too many.
    pub is_large: bool,
    /// Whether its pixels are those of the rows with the other colour.
    pub is_inverted: bool,
}

impl<'a> RowsOut<'a> {
    /// Returns a PBM picture of which nothing is written.
    pub fn new(rt: &'a HostRuntime, columns: u32, height: u32) -> RowsOut<'a> {
        RowsOut {
            rt,
            place: Place::None,
            png: None,
            format: Format::Pbm,
            resolution: None,
            columns,
            height,
            is_large: false,
            is_inverted: false,
        }
    }

    /// Returns whether its head is written.
    pub fn is_open(&self) -> bool {
        !matches!(self.place, Place::None)
    }

    /// Writes the head, to a file or else to standard output.
    pub fn open(&mut self, file: Option<NewFile>) -> Result<(), Unwritten> {
        let alloc = self.rt.alloc();
        let head = Head {
            columns: self.columns,
            height: self.height,
            format: self.format,
            resolution: self.resolution,
        };
        match file {
            None => {
                self.place = Place::Standard;
                self.png = put_head(alloc, &mut self.rt.stdout(), head)?;
            }
            Some(mut file) => {
                let written = put_head(alloc, &mut file, head);
                self.place = Place::File(file);
                self.png = written?;
            }
        }
        Ok(())
    }

    /// Writes packed rows.
    pub fn put(&mut self, mut rows: Vec<u8>) -> Result<(), Unwritten> {
        if self.is_inverted {
            invert(rows.as_mut_slice(), self.columns);
        }
        self.put_shown(rows.as_slice())
    }

    /// Writes rows as they are shown.
    fn put_shown(&mut self, rows: &[u8]) -> Result<(), Unwritten> {
        match &mut self.place {
            Place::None => Ok(()),
            Place::File(file) => put_rows(file, &mut self.png, rows),
            Place::Standard => put_rows(&mut self.rt.stdout(), &mut self.png, rows),
        }
    }

    /// Writes white rows after so many, and what the picture ends with.
    pub fn put_rest(&mut self, rows: u64) -> Result<(), Unwritten> {
        self.put_white(rows)?;
        let Some(png) = self.png.take() else {
            return Ok(());
        };
        match &mut self.place {
            Place::None => Ok(()),
            Place::File(file) => put_end(file, png),
            Place::Standard => put_end(&mut self.rt.stdout(), png),
        }
    }

    /// Writes white rows after so many.
    fn put_white(&mut self, rows: u64) -> Result<(), Unwritten> {
        let width = (self.columns.div_ceil(8) as usize).max(1);
        let each = (WHITE_BYTES / width).max(1);
        let mut white: Vec<u8> = Vec::new(self.rt.alloc());
        white.resize(width.saturating_mul(each), 0)?;
        if self.is_inverted {
            invert(white.as_mut_slice(), self.columns);
        }
        let mut left = u64::from(self.height).saturating_sub(rows);
        'white: while left > 0 {
            let count = left.min(each as u64);
            let bytes = white.len().min((count as usize).saturating_mul(width));
            self.put_shown(&white[..bytes])?;
            left -= count;
        }
        Ok(())
    }

    /// Gives a file its name, if rows were written to one.
    pub fn finish(self) -> io::Result<()> {
        let RowsOut { rt, place, .. } = self;
        match place {
            Place::File(file) => file.finish(rt),
            Place::None | Place::Standard => Ok(()),
        }
    }

    /// Removes a file, if rows were written to one.
    pub fn discard(self) {
        let RowsOut { rt, place, .. } = self;
        if let Place::File(file) = place {
            file.discard(rt);
        }
    }
}

/// Gives each pixel of packed rows of so many columns the other colour. The bits that fill up a row's last byte stay 0.
fn invert(rows: &mut [u8], columns: u32) {
    let width = (columns.div_ceil(8) as usize).max(1);
    let last = 0xffu8 << (7 - columns.wrapping_sub(1) % 8);
    for index in 0..rows.len() {
        rows[index] ^= if index % width == width - 1 {
            last
        } else {
            0xff
        };
    }
}

/// What comes before the rows of a picture.
#[derive(Clone, Copy)]
struct Head {
    columns: u32,
    height: u32,
    format: Format,
    resolution: Option<Resolution>,
}

/// Writes what comes before the rows of a picture. Returns what takes them, if it is PNG.
fn put_head<W: Write>(
    alloc: Global,
    out: &mut W,
    head: Head,
) -> Result<Option<PngRows>, Unwritten> {
    if !matches!(head.format, Format::Png) {
        put_pbm_head(alloc, out, head.columns, head.height)?;
        return Ok(None);
    }
    let density = density_of(head.resolution);
    match PngRows::begin(alloc, out, head.columns, head.height, density) {
        Ok(png) => Ok(Some(png)),
        Err(error) => Err(why_no_png(error)),
    }
}

/// Writes rows as they are shown.
fn put_rows<W: Write>(
    out: &mut W,
    png: &mut Option<PngRows>,
    rows: &[u8],
) -> Result<(), Unwritten> {
    let Some(png) = png else {
        return put_bytes(out, rows);
    };
    match png.put(out, rows) {
        Ok(()) => Ok(()),
        Err(error) => Err(why_no_png(error)),
    }
}

/// Writes what a PNG picture ends with.
fn put_end<W: Write>(out: &mut W, png: PngRows) -> Result<(), Unwritten> {
    if let Err(error) = png.finish(out) {
        return Err(why_no_png(error));
    }
    match out.flush() {
        Ok(()) => Ok(()),
        Err(_) => Err(Unwritten::Write),
    }
}

/// Writes bytes, so that they can be read at once.
fn put_bytes<W: Write>(out: &mut W, bytes: &[u8]) -> Result<(), Unwritten> {
    if out.write_all(bytes).is_err() || out.flush().is_err() {
        return Err(Unwritten::Write);
    }
    Ok(())
}
