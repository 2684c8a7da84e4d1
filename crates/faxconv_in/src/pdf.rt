//! The fax images of a PDF file.

use crate::source::{Content, Entry};
use crate::texts::text_of_refusal;
use fax_pages::{Found, PdfPages};
use paid_cursor::Cursor;
use pdf_read::PdfError;
use std::alloc::{AllocError, Global};

/// The fax images of a file.
#[derive(Drop)]
pub struct PdfEntries<'a> {
    alloc: Global,
    /// The images that are left, and what else is known of the file.
    pub pages: PdfPages<'a>,
    has_ended: bool,
    /// How many images there were.
    pub count: u32,
}

/// How many steps may be taken to read a file's objects and to undo its filters, whatever its length, and for each of its bytes.
const LEAST_STEPS: usize = 1 << 24;

const STEPS_OF_A_BYTE: usize = 80;

/// What is said of a file that asks for more steps.
const SPENT: &str = "reading it takes more work than the file's size allows";

impl<'a> PdfEntries<'a> {
    /// Opens a file, or returns why it isn't read.
    pub fn open(
        alloc: Global,
        file: &'a [u8],
    ) -> Result<Result<PdfEntries<'a>, &'static str>, AllocError> {
        let steps = LEAST_STEPS.saturating_add(STEPS_OF_A_BYTE.saturating_mul(file.len()));
        match PdfPages::open(alloc, Cursor::new(file, steps)) {
            Ok(pages) => Ok(Ok(PdfEntries {
                alloc,
                pages,
                has_ended: false,
                count: 0,
            })),
            Err(PdfError::OutOfMemory) => Err(AllocError),
            Err(error) => Ok(Err(text_of_error(error))),
        }
    }

    /// Returns the next image.
    pub fn next(&mut self) -> Result<Option<Entry<'a>>, AllocError> {
        if self.has_ended {
            return Ok(None);
        }
        match self.pages.next_page(self.alloc) {
            Ok(None) => {
                self.has_ended = true;
                Ok(None)
            }
            Ok(Some(Found::Page(page))) => {
                let (number, image) = (page.number, page.image);
                self.entry(number, image, Content::Page(page))
            }
            Ok(Some(Found::Unread(page))) => {
                let why = text_of_refusal(self.alloc, page.why)?;
                self.entry(page.number, page.image, Content::Refused(why))
            }
            Err(PdfError::OutOfMemory) => Err(AllocError),
            Err(error) => {
                self.has_ended = true;
                let why = String::from_str(self.alloc, text_of_error(error))?;
                self.entry(0, self.count.saturating_add(1), Content::Refused(why))
            }
        }
    }

    /// Returns an image.
    fn entry(
        &mut self,
        number: u32,
        image: u32,
        content: Content<'a>,
    ) -> Result<Option<Entry<'a>>, AllocError> {
        self.count = image;
        Ok(Some(Entry {
            number,
            image,
            content,
            note: None,
        }))
    }
}

/// Returns why a file or an image isn't read.
fn text_of_error(error: PdfError) -> &'static str {
    match error {
        PdfError::Encrypted =>
            "it is encrypted; `qpdf --decrypt IN OUT` writes a file that can be read",
        PdfError::NotPdf | PdfError::NoObjects => "it has no objects",
        PdfError::BadFilter => "a filter before its fax data isn't known, or that data is damaged",
        PdfError::Spent | PdfError::OutOfMemory => SPENT,
    }
}
