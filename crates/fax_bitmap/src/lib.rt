//! Rows as packed pixels: bitmaps of one bit a pixel.
//!
//! [`painting`] makes a row's pixels of its changes, by words of pixels ([`pixel_words`]), by black runs ([`black_runs`]) or by words
//! that are turned ([`turned_words`]). [`bitmap_rows`] finds the changes of a bitmap's rows, and [`bitmap_sink`] packs the rows that a
//! decoder passes to it. What of this a user calls, `fax_encode` passes on.
#![tactic(auto)]

pub mod bitmap_rows;
pub mod bitmap_sink;
pub mod black_runs;
pub mod painting;
pub mod pixel_words;
pub mod turned_words;
