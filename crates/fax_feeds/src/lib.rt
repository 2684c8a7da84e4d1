//! The rows of CCITT fax data that comes in pieces: ITU-T T.4 (Group 3) and T.6 (Group 4).
//!
//! A [`row_feed::RowFeed`] reads each row as soon as no data that follows can change its line. A gap, and a line that is still
//! short, go on where they stopped. `hayro_ccitt` passes it on.
#![tactic(auto)]

mod counted_gaps;
mod gap_look;
mod line_parts;
pub mod row_feed;
mod zeros;
