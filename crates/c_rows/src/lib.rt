//! What callers in C get of rows: the decoder's and the encoder's, in memory of theirs.
//!
//! [`settings`] and [`encoding`] are the settings that C writes, [`status`] what a call returns, and [`report`] and [`row_outcome`]
//! what it reports. [`packed_rows`] and [`listed_rows`] are sinks that write rows into a caller's memory, and [`change_count`] is one
//! that counts; [`reading`] gives rows one at a time, [`feeding`] those of data in pieces, and [`strip`] takes them. What of this C
//! names, `hayro_ccitt_c` passes on.
#![tactic(auto)]

pub mod change_count;
pub mod encoding;
pub mod fed_status;
pub mod feeding;
pub mod listed_rows;
pub mod packed_rows;
pub mod reading;
pub mod report;
pub mod row_outcome;
pub mod row_room;
pub mod settings;
pub mod status;
pub mod strip;
