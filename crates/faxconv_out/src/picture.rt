//! Pictures as files.

use fax_documents::{Resolution, pixels_of_metre};
use fax_pictures::Bitmap;
use fax_shown::{COLORS, Canvas};
use faxconv_lib::Format;
use faxconv_lib::options::DotsPerInch;
use png_write::{ColorPixels, Density, Pixels, PngError, write_color_png, write_png};
use std::alloc::Global;
use std::io::Write;
use tiff_read::{Ratio, ResolutionUnit};

/// Why a picture or a page isn't written.
#[derive(Clone, Copy)]
pub enum Unwritten {
    /// An allocation failed.
    OutOfMemory,
    /// It has no size that a file of its format has.
    Size,
    /// The file would become too long.
    TooLong,
    /// The writer failed.
    Write,
    /// A strip that is copied can't be read.
    Read,
}

/// A picture that is written.
#[derive(Clone, Copy)]
pub enum Drawing<'a> {
    /// In black and white.
    Plain(&'a Bitmap),
    /// With its damage in colour.
    Colored(&'a Canvas),
}

/// Writes a picture as PNG, or one in black and white also as PBM.
pub fn put_picture<W: Write>(
    alloc: Global,
    out: &mut W,
    drawing: Drawing<'_>,
    format: Format,
    resolution: Option<Resolution>,
) -> Result<(), Unwritten> {
    let written = match (drawing, format) {
        (Drawing::Plain(picture), Format::Png) => put_png(alloc, out, picture, resolution),
        (Drawing::Plain(picture), _) => put_pbm(alloc, out, picture),
        (Drawing::Colored(canvas), _) => put_colors(alloc, out, canvas, resolution),
    };
    written?;
    match out.flush() {
        Ok(()) => Ok(()),
        Err(_) => Err(Unwritten::Write),
    }
}

/// Writes a picture as PNG.
fn put_png<W: Write>(
    alloc: Global,
    out: &mut W,
    picture: &Bitmap,
    resolution: Option<Resolution>,
) -> Result<(), Unwritten> {
    let pixels = Pixels {
        columns: picture.columns(),
        rows: picture.rows(),
        bytes: picture.bytes(),
    };
    match write_png(alloc, out, &pixels, density_of(resolution)) {
        Ok(()) => Ok(()),
        Err(error) => Err(why_no_png(error)),
    }
}

/// Writes a picture in colours as PNG.
fn put_colors<W: Write>(
    alloc: Global,
    out: &mut W,
    canvas: &Canvas,
    resolution: Option<Resolution>,
) -> Result<(), Unwritten> {
    let pixels = ColorPixels {
        columns: canvas.columns(),
        rows: canvas.rows(),
        palette: &COLORS,
        bytes: canvas.bytes(),
    };
    match write_color_png(alloc, out, &pixels, density_of(resolution)) {
        Ok(()) => Ok(()),
        Err(error) => Err(why_no_png(error)),
    }
}

/// Returns why a picture isn't written as PNG.
pub(crate) fn why_no_png(error: PngError) -> Unwritten {
    match error {
        PngError::Size => Unwritten::Size,
        PngError::OutOfMemory => Unwritten::OutOfMemory,
        PngError::Write => Unwritten::Write,
    }
}

/// Writes a picture as PBM.
fn put_pbm<W: Write>(alloc: Global, out: &mut W, picture: &Bitmap) -> Result<(), Unwritten> {
    let (columns, rows) = (picture.columns(), picture.rows());
    put_pbm_head(alloc, out, columns, rows)?;
    match out.write_all(picture.bytes()) {
        Ok(()) => Ok(()),
        Err(_) => Err(Unwritten::Write),
    }
}

/// Writes what comes before the rows of a PBM picture.
pub fn put_pbm_head<W: Write>(
    alloc: Global,
    out: &mut W,
    columns: u32,
    rows: u32,
) -> Result<(), Unwritten> {
    let Ok(head) = format!(in alloc; "P4\n{columns} {rows}\n") else {
        return Err(Unwritten::OutOfMemory);
    };
    match out.write_all(head.as_bytes()) {
        Ok(()) => Ok(()),
        Err(_) => Err(Unwritten::Write),
    }
}

/// Returns how many pixels a metre has.
pub(crate) fn density_of(resolution: Option<Resolution>) -> Option<Density> {
    let resolution = resolution?;
    Some(Density {
        across: pixels_of_metre(resolution.across, resolution.unit)?,
        down: pixels_of_metre(resolution.down, resolution.unit)?,
    })
}

/// Returns a resolution in pixels an inch.
pub fn resolution_of_dots(dots: DotsPerInch) -> Resolution {
    let ratio = |above: u32| Ratio {
        above: u64::from(above),
        below: 1,
    };
    Resolution {
        across: ratio(dots.across),
        down: ratio(dots.down),
        unit: ResolutionUnit::Inch,
    }
}

/// Returns a resolution with rows and columns exchanged.
pub fn exchanged(resolution: Resolution) -> Resolution {
    Resolution {
        across: resolution.down,
        down: resolution.across,
        unit: resolution.unit,
    }
}
