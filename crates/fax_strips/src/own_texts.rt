//! What is said of a page, in memory of its own.

use std::alloc::{AllocError, Global};
use tiff_read::Texts;

/// What is said of a page, in memory of its own.
#[derive(Drop)]
pub struct OwnTexts {
    document_name: Option<Vec<u8>>,
    image_description: Option<Vec<u8>>,
    page_name: Option<Vec<u8>>,
    software: Option<Vec<u8>>,
    date_time: Option<Vec<u8>>,
    artist: Option<Vec<u8>>,
    copyright: Option<Vec<u8>>,
}

impl OwnTexts {
    /// Copies texts.
    pub(crate) fn of(alloc: Global, texts: &Texts<'_>) -> Result<OwnTexts, AllocError> {
        Ok(OwnTexts {
            document_name: own(alloc, texts.document_name)?,
            image_description: own(alloc, texts.image_description)?,
            page_name: own(alloc, texts.page_name)?,
            software: own(alloc, texts.software)?,
            date_time: own(alloc, texts.date_time)?,
            artist: own(alloc, texts.artist)?,
            copyright: own(alloc, texts.copyright)?,
        })
    }

    /// Returns the texts.
    pub(crate) fn texts(&self) -> Texts<'_> {
        Texts {
            document_name: lent(&self.document_name),
            image_description: lent(&self.image_description),
            page_name: lent(&self.page_name),
            software: lent(&self.software),
            date_time: lent(&self.date_time),
            artist: lent(&self.artist),
            copyright: lent(&self.copyright),
        }
    }
}

/// Copies a text, if there is one.
fn own(alloc: Global, text: Option<&[u8]>) -> Result<Option<Vec<u8>>, AllocError> {
    match text {
        None => Ok(None),
        Some(text) => Ok(Some(text.to_vec(alloc)?)),
    }
}

/// Returns a text, if there is one.
fn lent(text: &Option<Vec<u8>>) -> Option<&[u8]> {
    match text {
        None => None,
        Some(text) => Some(text.as_slice()),
    }
}
