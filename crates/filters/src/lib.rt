//! The filters of PDF and TIFF that are no codes for pictures: hexadecimal and base-85 text, runs, LZW, and predictors.
//!
//! Every call is total. It pays a step for each byte that it passes and for each that it adds to the output, also before an error. The
//! output then has what the data says before the error.
#![tactic(auto)]

mod ascii;
mod error;
mod lzw;
mod predictors;
mod runs;

pub use ascii::{decode_ascii_hex, decode_ascii85};
pub use error::FilterError;
pub use lzw::{EarlyChange, decode_lzw};
pub use predictors::{RowShape, undo_png_predictor, undo_tiff_predictor};
pub use runs::{decode_pack_bits, decode_run_length};
