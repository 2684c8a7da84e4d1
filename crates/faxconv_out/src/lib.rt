//! What `faxconv` writes: pictures as files, and the pages of all files as one document.
#![tactic(auto)]

mod document;
mod picture;
mod rows_out;
mod strip_file;

pub use document::{AddedPage, Document};
pub use picture::{Drawing, Unwritten, exchanged, put_pbm_head, put_picture, resolution_of_dots};
pub use rows_out::RowsOut;
pub use strip_file::StripFile;
