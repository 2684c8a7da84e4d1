//! The objects and the fax images of a PDF file.
#![tactic(auto)]

mod colours;
mod error;
mod image;
mod open;
mod pdf;
mod scan;
mod streams;
mod walk;

pub use error::PdfError;
pub use image::{FaxData, FaxImage, FaxParameters};
pub use pdf::Pdf;
pub use pdf_values::{Item, Span};
