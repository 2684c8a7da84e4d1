//! The rows of CCITT fax data, one at a time, and passed to a sink: ITU-T T.4 (Group 3) and T.6 (Group 4).
//!
//! [`row_reader::RowReader`] and [`row_cursor::RowCursor`] read the rows one at a time; [`push_rows::push_rows`] passes each to a
//! `Decoder` of `fax_lines`, and [`group3`] and [`group4`] are made of it. What is between two rows, and a row that is damaged, is
//! read in [`rows`], and rows are counted in [`counts`]; [`white_lines`] are lines below a white row by their bits. What of this a
//! user calls, `hayro_ccitt` passes on.
#![tactic(auto)]

pub mod counts;
pub mod front_count;
pub mod gap_count;
pub mod group3;
pub mod group4;
pub mod push_rows;
pub mod row_cursor;
pub mod row_reader;
pub mod rows;
pub mod white_lines;
pub mod zeros_last;
