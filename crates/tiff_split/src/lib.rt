//! A TIFF file split into files of one page each, as it is read by ranges: neither the file nor more than a page of it is in memory.
//!
//! [`Split::next_table`] finds the next directory, and [`Split::page_file`] reads what the tags of one say that is kept by
//! [`tiff_read::Directory`], and the strips or tiles of fax data, as the bytes of a file which has that page alone. [`Split::carried`] reads
//! any page as it is, so that it can be written into another file.
#![tactic(auto)]

mod allowance;
mod carried;
mod carrier;
mod entries;
mod error;
mod form;
mod one_strip;
mod page_file;
mod pages;
mod ranges;
mod runs;
mod split;

pub use allowance::Paid;
pub use carried::{CarriedEntry, CarriedPage};
pub use carrier::Carrier;
pub use error::SplitError;
pub use one_strip::{OneStrip, StripReader};
pub use pages::{LIES_OVER_OTHERS, SplitPage, SplitPages};
pub use ranges::{Held, Ranges};
pub use split::{Split, Table};
