//! A document that is being written: the pages of all files in one.

use crate::picture::Unwritten;
use crate::strip_file::StripFile;
use fax_documents::{DocumentError, PdfWriter, TiffWriter};
use fax_strips::{StripPage, Target};
use faxconv_lib::NewFile;
use std::alloc::{AllocError, Global};
use std::fs::File;
use std::io::Write;
use std::{io, mem};
use tiff_split::{CarriedPage, Carrier, SplitError};

/// Where a document is written.
#[derive(Drop)]
enum Place {
    /// A file, which gets its name once it is whole.
    File(NewFile),
    /// Standard output.
    Standard,
}

/// What writes its pages.
#[derive(Drop)]
enum Writer {
    Tiff(TiffWriter),
    Pdf(PdfWriter),
}

/// A page that is added to a document.
#[derive(Drop)]
pub enum AddedPage {
    /// Fax data.
    Fax(StripPage),
    /// Fax data of which the only strip is copied from its file, so that it isn't in memory. A PDF file takes none.
    Apart(StripPage, StripFile),
    /// A page of a TIFF file that isn't fax, as it is. A PDF file takes none.
    Carried(CarriedPage),
}

/// A document that is being written.
#[derive(Drop)]
pub struct Document<'a> {
    rt: &'a HostRuntime,
    place: Place,
    writer: Writer,
    /// The last page of a TIFF file so far, which isn't written before it is known whether another one follows.
    waiting: Option<AddedPage>,
    /// How many pages are written.
    count: u32,
    /// Whether it is a TIFF file with offsets of four bytes.
    is_classic: bool,
}

impl From<AllocError> for Unwritten {
    fn from(_error: AllocError) -> Unwritten {
        Unwritten::OutOfMemory
    }
}

impl<'a> Document<'a> {
    /// Begins a document in a file, or if there is none on standard output; a TIFF file as BigTIFF if `is_big`.
    pub fn begin(
        rt: &'a HostRuntime,
        file: Option<NewFile>,
        target: Target,
        is_big: bool,
    ) -> Result<Document<'a>, Unwritten> {
        let is_classic = matches!(target, Target::Tiff) && !is_big;
        match file {
            None => {
                let writer = begun(rt.alloc(), &mut rt.stdout(), target, is_big)?;
                Ok(Document {
                    rt,
                    place: Place::Standard,
                    writer,
                    waiting: None,
                    count: 0,
                    is_classic,
                })
            }
            Some(mut file) => match begun(rt.alloc(), &mut file, target, is_big) {
                Ok(writer) => Ok(Document {
                    rt,
                    place: Place::File(file),
                    writer,
                    waiting: None,
                    count: 0,
                    is_classic,
                }),
                Err(why) => {
                    file.discard(rt);
                    Err(why)
                }
            },
        }
    }

    /// Adds a page.
    pub fn add(&mut self, page: AddedPage) -> Result<(), Unwritten> {
        let ready = match &self.writer {
            Writer::Tiff(_) => self.waiting.replace(page),
            Writer::Pdf(_) => Some(page),
        };
        match ready {
            Some(page) => self.put(&page, false),
            None => Ok(()),
        }
    }

    /// Writes a page, in a TIFF file begun again as BigTIFF if it would become too long.
    fn put(&mut self, page: &AddedPage, is_last: bool) -> Result<(), Unwritten> {
        match self.put_once(page, is_last) {
            Err(Unwritten::TooLong) if self.is_classic => {
                self.begin_again()?;
                self.put_once(page, is_last)?;
            }
            written => written?,
        }
        self.count = self.count.saturating_add(1);
        Ok(())
    }

    /// Begins again as BigTIFF, with the pages so far.
    fn begin_again(&mut self) -> Result<(), Unwritten> {
        let Place::File(file) = &self.place else {
            return Err(Unwritten::TooLong);
        };
        let Ok((written, mut larger)) = file.again(self.rt) else {
            return Err(Unwritten::TooLong);
        };
        match enlarged(self.rt.alloc(), &written, self.count, &mut larger) {
            Ok(writer) => {
                self.writer = Writer::Tiff(writer);
                self.is_classic = false;
                if let Place::File(smaller) = mem::replace(&mut self.place, Place::File(larger)) {
                    smaller.discard(self.rt);
                }
                Ok(())
            }
            Err(why) => {
                larger.discard(self.rt);
                Err(why)
            }
        }
    }

    /// Writes a page, if the document doesn't become too long.
    fn put_once(&mut self, page: &AddedPage, is_last: bool) -> Result<(), Unwritten> {
        let alloc = self.rt.alloc();
        match &mut self.place {
            Place::File(file) => put_page(alloc, &mut self.writer, file, page, is_last),
            Place::Standard => {
                let mut out = self.rt.stdout();
                put_page(alloc, &mut self.writer, &mut out, page, is_last)
            }
        }
    }

    /// Writes what is left, and gives the file its name.
    pub fn finish(mut self) -> Result<io::Result<()>, Unwritten> {
        let written = match self.waiting.take() {
            Some(page) => self.put(&page, true),
            None => Ok(()),
        };
        let Document {
            rt,
            place,
            writer,
            ..
        } = self;
        match place {
            Place::Standard => {
                written?;
                ended(writer, &mut rt.stdout())?;
                Ok(Ok(()))
            }
            Place::File(mut file) => {
                let ended = match written {
                    Ok(()) => ended(writer, &mut file),
                    Err(why) => Err(why),
                };
                match ended {
                    Ok(()) => Ok(file.finish(rt)),
                    Err(why) => {
                        file.discard(rt);
                        Err(why)
                    }
                }
            }
        }
    }

    /// Removes the file, of which not all is written.
    pub fn discard(self) {
        let Document { rt, place, .. } = self;
        if let Place::File(file) = place {
            file.discard(rt);
        }
    }
}

/// Begins a document.
fn begun<W: Write>(
    alloc: Global,
    out: &mut W,
    target: Target,
    is_big: bool,
) -> Result<Writer, Unwritten> {
    match target {
        Target::Tiff => match TiffWriter::begin(out, is_big) {
            Ok(writer) => Ok(Writer::Tiff(writer)),
            Err(error) => Err(why_unwritten(error)),
        },
        Target::Pdf => match PdfWriter::begin(alloc, out) {
            Ok(writer) => Ok(Writer::Pdf(writer)),
            Err(error) => Err(why_unwritten(error)),
        },
    }
}

/// Begins a BigTIFF file with the pages of a TIFF file, of which there are so many.
fn enlarged(
    alloc: Global,
    written: &File,
    count: u32,
    out: &mut NewFile,
) -> Result<TiffWriter, Unwritten> {
    let Ok(found) = written.metadata() else {
        return Err(Unwritten::Write);
    };
    let mut carrier = Carrier::new(alloc, found.len());
    let begun = TiffWriter::begin(out, true);
    let Ok(mut writer) = begun else {
        return Err(Unwritten::Write);
    };
    'pages: for number in 1..=count {
        let page = match carrier.page(written, number) {
            Ok(Ok(page)) => page,
            Err(SplitError::OutOfMemory) => return Err(Unwritten::OutOfMemory),
            _ => return Err(Unwritten::Write),
        };
        if let Err(error) = writer.put_carried(alloc, out, &page, false) {
            return Err(why_unwritten(error));
        }
    }
    Ok(writer)
}

/// Writes a page.
fn put_page<W: Write>(
    alloc: Global,
    writer: &mut Writer,
    out: &mut W,
    page: &AddedPage,
    is_last: bool,
) -> Result<(), Unwritten> {
    let written = match page {
        AddedPage::Fax(page) => {
            let slices = page.slices(alloc)?;
            let page = page.page(slices.as_slice());
            match writer {
                Writer::Tiff(tiff) => tiff.put_page(alloc, out, &page, is_last),
                Writer::Pdf(pdf) => pdf.put_page(out, &page),
            }
        }
        AddedPage::Apart(page, strip) => match writer {
            Writer::Tiff(tiff) => return put_apart(alloc, tiff, out, (page, strip), is_last),
            Writer::Pdf(_) => Err(DocumentError::Encoding),
        },
        AddedPage::Carried(page) => match writer {
            Writer::Tiff(tiff) => tiff.put_carried(alloc, out, page, is_last),
            Writer::Pdf(_) => Err(DocumentError::Encoding),
        },
    };
    match written {
        Ok(()) => Ok(()),
        Err(error) => Err(why_unwritten(error)),
    }
}

/// Writes a page whose strip is copied from its file.
fn put_apart<W: Write>(
    alloc: Global,
    writer: &mut TiffWriter,
    out: &mut W,
    apart: (&StripPage, &StripFile),
    is_last: bool,
) -> Result<(), Unwritten> {
    let (page, strip) = apart;
    let slices = page.slices(alloc)?;
    let page = page.page(slices.as_slice());
    match writer.put_page_without_strip(alloc, out, &page, strip.len(), is_last) {
        Ok(()) => strip.put(alloc, out),
        Err(error) => Err(why_unwritten(error)),
    }
}

/// Ends a document.
fn ended<W: Write>(writer: Writer, out: &mut W) -> Result<(), Unwritten> {
    if let Writer::Pdf(pdf) = writer {
        if let Err(error) = pdf.finish(out) {
            return Err(why_unwritten(error));
        }
    }
    match out.flush() {
        Ok(()) => Ok(()),
        Err(_) => Err(Unwritten::Write),
    }
}

/// Returns why something isn't written.
fn why_unwritten(error: DocumentError) -> Unwritten {
    match error {
        DocumentError::Encoding | DocumentError::Size => Unwritten::Size,
        DocumentError::TooLong => Unwritten::TooLong,
        DocumentError::OutOfMemory => Unwritten::OutOfMemory,
        DocumentError::Write => Unwritten::Write,
    }
}
