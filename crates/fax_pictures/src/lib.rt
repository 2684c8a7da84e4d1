//! Pictures of one bit a pixel, in memory.
#![tactic(auto)]

mod bitmap;
mod error;
mod placing;
mod turning;

pub use bitmap::Bitmap;
pub use error::PictureError;
