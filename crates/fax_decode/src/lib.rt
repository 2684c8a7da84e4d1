//! Fax pages decoded: strictly at first, and leniently if that fails.
//!
//! [`decode_part`] reads the data of a strip, a tile or a stream, and returns its rows as a bitmap, how many are damaged, and where a
//! strict reading fails. [`decode_page`] lays the rows of all parts of a page over a white picture, and lists its damage;
//! [`by_other_keys`] finds keys of PDF by which the data is whole.
#![tactic(auto)]

mod allowance;
mod band;
pub mod damage;
mod listed;
mod otherwise;
mod page;
mod part;
mod words;

pub use allowance::Allowance;
pub use otherwise::by_other_keys;
pub use page::{DecodedPage, NoPicture, decode_page, shown_picture};
pub use part::{Counts, DecodedPart, Fault, PartRows, decode_part};
