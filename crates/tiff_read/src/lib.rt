//! What the directories of a TIFF file say: classic and BigTIFF, either order of bytes, strips and tiles.
//!
//! Every call is total. [`Tiff::next_directory`] pays a step for each directory and each of its entries, the other calls pay a step for
//! each number and each byte of a text that they look up. No directory is read twice, so a file whose directories form a loop ends.
#![tactic(auto)]

mod directory;
mod error;
mod file;
mod form;
mod layout;
mod picture;
mod texts;
mod values;

pub use directory::{Directory, Values};
pub use error::TiffError;
pub use file::Tiff;
pub use form::Form;
pub use layout::{Layout, Part};
pub use picture::{Picture, ResolutionUnit};
pub use texts::{NO_TEXTS, Texts};
pub use values::{Ratio, bytes_of_kind};
