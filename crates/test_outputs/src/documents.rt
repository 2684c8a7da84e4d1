//! Pages that are written as a TIFF or a PDF file.

use fax_documents::{DocumentError, Page, PdfWriter, Resolution, TiffWriter};
use hayro_ccitt::bit_reader::BitOrder;
use hayro_ccitt::{DecodeSettings, EncodingMode};
use std::alloc::Global;
use std::io::Write;
use tiff_read::{Ratio, ResolutionUnit, Texts};

/// Why a document isn't written.
pub(crate) enum Unwritten {
    /// The input isn't one.
    Input,
    /// A page isn't written.
    Page(DocumentError),
}

impl From<DocumentError> for Unwritten {
    fn from(error: DocumentError) -> Unwritten {
        Unwritten::Page(error)
    }
}

/// What pages are written by.
#[derive(Drop)]
enum Writer {
    Tiff(TiffWriter),
    Pdf(PdfWriter),
}

/// What is left of the input.
#[derive(Drop)]
struct Input<'a> {
    rest: &'a [u8],
}

impl<'a> Input<'a> {
    /// Takes some bytes.
    fn take(&mut self, count: usize) -> Result<&'a [u8], Unwritten> {
        match (self.rest.get(..count), self.rest.get(count..)) {
            (Some(first), Some(rest)) => {
                self.rest = rest;
                Ok(first)
            }
            _ => Err(Unwritten::Input),
        }
    }

    /// Takes a number of four bytes, the lowest first.
    fn number(&mut self) -> Result<u32, Unwritten> {
        match self.take(4)? {
            [a, b, c, d] => Ok(u32::from_le_bytes([*a, *b, *c, *d])),
            _ => Err(Unwritten::Input),
        }
    }

    fn flag(&mut self) -> Result<bool, Unwritten> {
        Ok(self.number()? != 0)
    }

    /// Takes a number of bytes and these; `None` for the highest number.
    fn text(&mut self) -> Result<Option<&'a [u8]>, Unwritten> {
        match self.number()? {
            u32::MAX => Ok(None),
            count => Ok(Some(self.take(count as usize)?)),
        }
    }

    fn settings(&mut self) -> Result<DecodeSettings, Unwritten> {
        Ok(DecodeSettings {
            columns: self.number()?,
            rows: self.number()?,
            encoding: match self.number()? {
                4 => EncodingMode::Group4,
                2 => EncodingMode::Group3_2D,
                _ => EncodingMode::Group3_1D,
            },
            end_of_line: self.flag()?,
            rows_are_byte_aligned: self.flag()?,
            end_of_block: self.flag()?,
            strict: false,
        })
    }

    fn ratio(&mut self) -> Result<Ratio, Unwritten> {
        Ok(Ratio {
            above: u64::from(self.number()?),
            below: u64::from(self.number()?),
        })
    }

    /// Takes a unit, 0 if there is no resolution, and two ratios.
    fn resolution(&mut self) -> Result<Option<Resolution>, Unwritten> {
        let unit = match self.number()? {
            0 => return Ok(None),
            1 => ResolutionUnit::None,
            2 => ResolutionUnit::Inch,
            _ => ResolutionUnit::Centimetre,
        };
        Ok(Some(Resolution {
            across: self.ratio()?,
            down: self.ratio()?,
            unit,
        }))
    }

    fn texts(&mut self) -> Result<Texts<'a>, Unwritten> {
        Ok(Texts {
            document_name: self.text()?,
            image_description: self.text()?,
            page_name: self.text()?,
            software: self.text()?,
            date_time: self.text()?,
            artist: self.text()?,
            copyright: self.text()?,
        })
    }

    /// Takes the strips of a page.
    fn strips(&mut self, alloc: Global) -> Result<Vec<&'a [u8]>, Unwritten> {
        let count = self.number()?;
        let mut strips: Vec<&'a [u8]> = Vec::new(alloc);
        'strips: for _ in 0..count {
            let length = self.number()?;
            let strip = self.take(length as usize)?;
            if strips.push(strip).is_err() {
                return Err(Unwritten::Page(DocumentError::OutOfMemory));
            }
        }
        Ok(strips)
    }
}

/// Writes the pages of an input as a TIFF file: whether it is BigTIFF, how many pages there are, and of each the settings, the order of
/// bits, whether EOLs end at bytes, the rows, the orientation, whether it is inverted, the resolution, the texts and the strips.
pub(crate) fn write_tiff<W: Write>(
    alloc: Global,
    bytes: &[u8],
    out: &mut W,
) -> Result<(), Unwritten> {
    let mut input = Input { rest: bytes };
    let is_big = input.flag()?;
    let mut writer = Writer::Tiff(TiffWriter::begin(out, is_big)?);
    put_pages(alloc, &mut input, &mut writer, out)
}

/// Writes the pages of an input, as [`write_tiff`] has it, as a PDF file.
pub(crate) fn write_pdf<W: Write>(
    alloc: Global,
    bytes: &[u8],
    out: &mut W,
) -> Result<(), Unwritten> {
    let mut input = Input { rest: bytes };
    let _is_big = input.flag()?;
    let mut writer = Writer::Pdf(PdfWriter::begin(alloc, out)?);
    put_pages(alloc, &mut input, &mut writer, out)?;
    if let Writer::Pdf(pdf) = writer {
        pdf.finish(out)?;
    }
    Ok(())
}

/// Writes the pages of an input, of which there are as many as it says first.
fn put_pages<W: Write>(
    alloc: Global,
    input: &mut Input<'_>,
    writer: &mut Writer,
    out: &mut W,
) -> Result<(), Unwritten> {
    let count = input.number()?;
    for index in 0..count {
        let is_last = index == count - 1;
        put_page(alloc, input, writer, out, is_last)?;
    }
    Ok(())
}

fn put_page<W: Write>(
    alloc: Global,
    input: &mut Input<'_>,
    writer: &mut Writer,
    out: &mut W,
    is_last: bool,
) -> Result<(), Unwritten> {
    let settings = input.settings()?;
    let order = if input.flag()? {
        BitOrder::LowestFirst
    } else {
        BitOrder::HighestFirst
    };
    let eols_end_at_bytes = input.flag()?;
    let rows = input.number()?;
    let orientation = input.number()?;
    let is_inverted = input.flag()?;
    let resolution = input.resolution()?;
    let texts = input.texts()?;
    let strips = input.strips(alloc)?;
    let page = Page {
        settings,
        order,
        eols_end_at_bytes,
        rows,
        strips: strips.as_slice(),
        orientation: orientation.min(255) as u8,
        is_inverted,
        resolution,
        texts,
    };
    match writer {
        Writer::Tiff(tiff) => tiff.put_page(alloc, out, &page, is_last)?,
        Writer::Pdf(pdf) => pdf.put_page(out, &page)?,
    }
    Ok(())
}
