//! The pages of a file of any kind.

use crate::pbm::PbmEntries;
use crate::pdf::PdfEntries;
use crate::tiff::TiffEntries;
use fax_pages::Page;
use fax_pictures::Bitmap;
use faxconv_lib::report::Place;
use std::alloc::AllocError;
use tiff_split::CarriedPage;

/// What a page of a file is.
#[derive(Drop)]
pub enum Content<'a> {
    /// Fax data.
    Page(Page<'a>),
    /// A picture.
    Picture(Bitmap),
    /// It isn't decoded, and why.
    Refused(String),
    /// It isn't decoded but carried along, and why.
    Carried(CarriedPage, String),
}

/// A page of a file.
#[derive(Drop)]
pub struct Entry<'a> {
    /// The number of the page. The first one is 1; an image of a PDF file that no page shows has 0.
    pub number: u32,
    /// The number of the picture in the file. The first one is 1.
    pub image: u32,
    /// What it is.
    pub content: Content<'a>,
    /// What is wrong with what follows it.
    pub note: Option<&'static str>,
}

/// The pages of a file.
#[derive(Drop)]
pub enum Source<'a> {
    Tiff(TiffEntries<'a>),
    Pdf(PdfEntries<'a>),
    Pbm(PbmEntries<'a>),
}

impl<'a> Source<'a> {
    /// Returns the next page.
    pub fn next(&mut self) -> Result<Option<Entry<'a>>, AllocError> {
        match self {
            Source::Tiff(entries) => entries.next(),
            Source::Pdf(entries) => entries.next(),
            Source::Pbm(entries) => entries.next(),
        }
    }

    /// Returns how many pictures there were so far.
    pub fn count(&self) -> u32 {
        match self {
            Source::Tiff(entries) => entries.count,
            Source::Pdf(entries) => entries.count,
            Source::Pbm(entries) => entries.count,
        }
    }

    /// Returns where the page of a number and a picture is, which is that of its image in a PDF file alone.
    pub fn place(&self, number: u64, image: u64, is_shown: bool) -> Place {
        match self {
            Source::Pdf(_) if is_shown => Place::Image(number, image),
            Source::Pdf(_) => Place::Unshown(image),
            _ => Place::Page(number),
        }
    }
}
