//! An encoder for CCITT fax images, and a sink that packs decoded rows into a bitmap.
#![tactic(auto)]

mod bit_order;
mod by_settings;
mod closed_pictures;
mod encoder;
mod encoding;
mod error;
mod group3;
pub mod laws;
mod procedure;
mod rows;
mod settings;
mod white_rows;

pub use by_settings::{encode, encode_bitmap};
pub use closed_pictures::{encode_1d, encode_bitmap_1d, encode_bitmap_g4, encode_g4};
pub use encoder::Encoder;
pub use encoding::{RowBelow, names_encoding};
pub use error::EncodeError;
pub use fax_bitmap::bitmap_rows::rows_of_bitmap;
pub use fax_bitmap::bitmap_sink::BitmapSink;
pub use fax_bitmap::black_runs::paint_cleared;
pub use fax_bitmap::painting::{most_cleared_first, paint_over, paint_row};
pub use fax_bitmap::pixel_words::{fill_all, fill_apart, fill_bytes};
pub use procedure::{LineKind, pass_line_by_procedure};
pub use settings::{Effort, EncodeSettings};
