//! What the program `faxconv` does apart from pages and pictures: its options, what it says, the names and files that it writes to, and
//! its status.
#![tactic(auto)]

pub mod arguments;
pub mod damage_text;
pub mod folder;
pub mod guess_text;
pub mod help;
pub mod info;
pub mod json;
pub mod kinds;
mod known;
pub mod names;
pub mod new_file;
pub mod options;
pub mod pages;
pub mod report;
pub mod standard;
pub mod status;
pub mod streams;
pub mod tell;
pub mod visible;

pub use arguments::{ArgumentError, Request, request_of};
pub use kinds::{Kind, kind_of};
pub use new_file::NewFile;
pub use options::{Action, Format, Options, Program};
pub use status::Status;
pub use tell::Teller;
