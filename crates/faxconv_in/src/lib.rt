//! What `faxconv` reads: the pages of files of any kind, and raw data.
#![tactic(auto)]

mod pbm;
mod pdf;
mod raw;
mod raw_reading;
mod source;
mod strip;
mod texts;
mod tiff;

pub use pbm::PbmEntries;
pub use pdf::PdfEntries;
pub use raw::{MOST_BYTES, RawPage, can_be_piped, page_of, piece_of, read_raw, written_page};
pub use raw_reading::{RawEnd, RawReading};
pub use source::{Content, Entry, Source};
pub use strip::{options_of_strip, takes_all};
pub use texts::{text_of_carried, text_of_no_picture, too_large};
pub use tiff::{TiffEntries, content_of};
