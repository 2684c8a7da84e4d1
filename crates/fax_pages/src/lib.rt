//! Files as pages of fax data: how each page is encoded, where its parts are, and how they lie in the picture.
//!
//! [`TiffPages`] has the pages of a TIFF file, [`PdfPages`] the fax images of a PDF file, and [`raw_page`] has data without tags or keys. A
//! page names its parts by their places among the file's bytes, and reads none of them; those of an image with more filters than the one
//! for fax data, among what these were undone to. Which settings they are decoded with is defined in `specs/Tags.antt` and
//! `specs/Keys.antt`. [`PbmPictures`] has pictures that may become fax data.
#![tactic(auto)]

mod keys;
mod page;
mod pbm;
mod pdf_pages;
mod raw;
mod refused;
mod tags;
mod tiff_pages;

pub use keys::{columns_shown, is_inverted_by_keys, settings_of_keys};
pub use page::{Page, PageBytes, Part, PartKind, Resolution};
pub use pbm::{PbmError, PbmPicture, PbmPictures};
pub use pdf_pages::PdfPages;
pub use raw::{RawForm, header_bytes, raw_page};
pub use refused::{Found, Refusal, RefusedPage};
pub use tiff_pages::TiffPages;
