//! The tokens of PDF files, the values that they are, and what contents of pages show.
//!
//! Each byte that is read costs a step of a cursor, and so does each item that a value has.
#![tactic(auto)]

mod content;
mod items;
mod names;
mod tokens;

pub use content::{Content, Shown, next_shown, read_image};
pub use items::{Item, after_value, push_item, read_value};
pub use names::{Texts, find_key, is_same_name};
pub use tokens::{Span, Token, is_regular, pass_regular, pass_space, read_token};
