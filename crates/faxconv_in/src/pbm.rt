//! The pictures of a PBM file.

use crate::source::{Content, Entry};
use crate::texts::too_large;
use fax_pages::{PbmError, PbmPicture, PbmPictures};
use fax_pictures::{Bitmap, PictureError};
use paid_cursor::Cursor;
use std::alloc::{AllocError, Global};

/// The pictures of a file.
#[derive(Drop)]
pub struct PbmEntries<'a> {
    alloc: Global,
    pictures: PbmPictures<'a>,
    has_ended: bool,
    /// How many pictures there were.
    pub count: u32,
}

impl<'a> PbmEntries<'a> {
    /// Opens a file.
    pub fn open(alloc: Global, file: &'a [u8]) -> PbmEntries<'a> {
        PbmEntries {
            alloc,
            pictures: PbmPictures::new(Cursor::new(file, file.len())),
            has_ended: false,
            count: 0,
        }
    }

    /// Returns the next picture. None follows one that isn't there as it should be.
    pub fn next(&mut self) -> Result<Option<Entry<'a>>, AllocError> {
        if self.has_ended {
            return Ok(None);
        }
        let content = match self.pictures.next_picture() {
            Ok(None) => {
                self.has_ended = true;
                return Ok(None);
            }
            Ok(Some(picture)) => picture_of(self.alloc, &picture)?,
            Err(error) => {
                self.has_ended = true;
                Content::Refused(String::from_str(self.alloc, text_of_error(error))?)
            }
        };
        self.count = self.count.saturating_add(1);
        Ok(Some(Entry {
            number: self.count,
            image: self.count,
            content,
            note: None,
        }))
    }
}

/// Returns a picture in memory.
fn picture_of<'a>(alloc: Global, picture: &PbmPicture<'_>) -> Result<Content<'a>, AllocError> {
    let (columns, rows) = (picture.columns, picture.rows);
    let mut made = match Bitmap::white(alloc, columns, rows) {
        Ok(made) => made,
        Err(PictureError::OutOfMemory) => return Err(AllocError),
        Err(PictureError::Size) => {
            return Ok(Content::Refused(too_large(alloc, columns, u64::from(rows))?));
        }
    };
    let width = (columns as usize).div_ceil(8);
    if width > 0 {
        made.lay_over(0, 0, width, picture.bytes);
    }
    Ok(Content::Picture(made))
}

/// Returns why a picture isn't read.
fn text_of_error(error: PbmError) -> &'static str {
    match error {
        PbmError::NotPbm | PbmError::Size => "it isn't a PBM picture",
        PbmError::Cut | PbmError::Spent => "the picture ends early",
    }
}
