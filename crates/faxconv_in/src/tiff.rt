//! The pages of a TIFF file, each with what is wrong with the directory after it.

use crate::source::{Content, Entry};
use crate::texts::text_of_refusal;
use fax_pages::{Found, TiffPages};
use paid_cursor::Cursor;
use std::alloc::{AllocError, Global};
use tiff_read::TiffError;
use tiff_split::LIES_OVER_OTHERS;

/// The pages of a file, read one ahead.
#[derive(Drop)]
pub struct TiffEntries<'a> {
    alloc: Global,
    pages: TiffPages<'a>,
    ahead: Option<Result<Option<Found<'a>>, TiffError>>,
    /// How many pages there were.
    pub count: u32,
    has_ended: bool,
}

/// How many steps may be taken to read a file's directories, whatever its length, and for each of its bytes.
const LEAST_STEPS: usize = 1 << 24;

const STEPS_OF_A_BYTE: usize = 16;

impl<'a> TiffEntries<'a> {
    /// Opens a file; `None` if it has no header.
    pub fn open(alloc: Global, file: &'a [u8]) -> Result<Option<TiffEntries<'a>>, AllocError> {
        let steps = LEAST_STEPS.saturating_add(STEPS_OF_A_BYTE.saturating_mul(file.len()));
        match TiffPages::open(alloc, Cursor::new(file, steps)) {
            Ok(pages) => Ok(Some(TiffEntries {
                alloc,
                pages,
                ahead: None,
                count: 0,
                has_ended: false,
            })),
            Err(TiffError::OutOfMemory) => Err(AllocError),
            Err(_) => Ok(None),
        }
    }

    /// Returns the next page.
    pub fn next(&mut self) -> Result<Option<Entry<'a>>, AllocError> {
        if self.has_ended {
            return Ok(None);
        }
        let found = match self.ahead.take() {
            Some(found) => found,
            None => self.pages.next_page(self.alloc),
        };
        match found {
            Ok(Some(found)) => Ok(Some(self.entry_of(found)?)),
            Err(TiffError::OutOfMemory) => Err(AllocError),
            Err(TiffError::Spent) => self.last("its directory lies over others"),
            Ok(None) | Err(_) if self.count > 0 => {
                self.has_ended = true;
                Ok(None)
            }
            Ok(None) | Err(_) => self.last("its directory isn't in the file"),
        }
    }

    /// Returns the last page, which isn't decoded.
    fn last(&mut self, why: &str) -> Result<Option<Entry<'a>>, AllocError> {
        self.has_ended = true;
        self.count = self.count.saturating_add(1);
        Ok(Some(Entry {
            number: self.count,
            image: self.count,
            content: Content::Refused(String::from_str(self.alloc, why)?),
            note: None,
        }))
    }

    /// Returns a page that was found, and looks at the directory after its own.
    fn entry_of(&mut self, found: Found<'a>) -> Result<Entry<'a>, AllocError> {
        self.count = self.count.saturating_add(1);
        let ahead = self.pages.next_page(self.alloc);
        let note = match &ahead {
            Err(TiffError::Outside) => Some("the next directory isn't in the file"),
            Err(TiffError::Loop) => Some("the next directory is that of an earlier page"),
            _ => None,
        };
        self.ahead = Some(ahead);
        Ok(Entry {
            number: self.count,
            image: self.count,
            content: match found {
                Found::Page(page) => Content::Page(page),
                Found::Unread(page) => Content::Refused(text_of_refusal(self.alloc, page.why)?),
            },
            note,
        })
    }
}

/// Returns what the page of a file of one is.
pub fn content_of(alloc: Global, file: &[u8]) -> Result<Content<'_>, AllocError> {
    if let Some(mut entries) = TiffEntries::open(alloc, file)? {
        if let Some(entry) = entries.next()? {
            return Ok(entry.content);
        }
    }
    Ok(Content::Refused(String::from_str(alloc, LIES_OVER_OTHERS)?))
}
