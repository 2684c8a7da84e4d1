//! Pages as the strips of TIFF and PDF files: their own data where a strict reading takes all of it, and else their pictures encoded.
#![tactic(auto)]

mod apart;
mod copied;
mod encoded;
mod ends;
mod own_texts;
mod strict;
mod strip_page;

pub use apart::{StripEnds, page_apart, strict_settings};
pub use copied::{Target, copy_strips};
pub use encoded::encode_picture;
pub use own_texts::OwnTexts;
pub use strict::is_whole_strip;
pub use strip_page::{StripPage, known_resolution};
