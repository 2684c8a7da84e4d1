//! Writes pages of fax data as TIFF files (TIFF 6.0, and BigTIFF) and as PDF files (ISO 32000-1), a page at a time.
//!
//! Of a TIFF file nothing is kept but where the next page begins, of a PDF file 8 bytes for each object. A TIFF file also takes pages that
//! are carried along from another one, as they are.
#![tactic(auto)]

mod coding;
mod directory;
mod error;
mod one_strip;
mod output;
mod page;
mod pdf;
mod resolution;
mod tiff;

pub use coding::{Coding, FaxKeys, coding_of, fax_keys_of};
pub use error::DocumentError;
pub use page::Page;
pub use pdf::PdfWriter;
pub use resolution::{Resolution, pixels_of_metre, points_of};
pub use tiff::TiffWriter;
