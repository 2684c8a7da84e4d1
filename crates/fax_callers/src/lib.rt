//! Small callers of the decoder, each with a contract of its own that follows from the decoder's: they count black pixels,
//! keep the first rows, make a bitmap of a strip or of rows that are encoded before, and find where consecutive pages end and from
//! which row on damage is over.
//!
//! Each accepts data of at most `(usize::MAX - 64) / 8` bytes, as [`hayro_ccitt::decode`] does; [`hayro_ccitt::bits_fit`] tests
//! it.
#![tactic(auto)]

mod black_pixels;
mod blank;
mod first_rows;
mod in_step;
pub mod laws;
mod once;
mod page_feed;
mod page_search;
mod pages;
mod pages_by;
mod round_trip;
mod rtc;
mod strip;

pub use black_pixels::{BlackPixels, count_black};
pub use blank::is_blank;
pub use first_rows::{FirstRows, decode_first_rows};
pub use in_step::row_in_step;
pub use once::decode_once;
pub use page_feed::{PageFed, PageFeed};
pub use page_search::PageSearch;
pub use pages::{group4_pages, page_end, page_ends};
pub use pages_by::{group3_pages, page_end_by, page_ends_by};
pub use round_trip::{bitmap_by_group3, bitmap_by_group4};
pub use strip::strip_to_bitmap;
