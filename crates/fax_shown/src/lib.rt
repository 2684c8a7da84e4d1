//! Pages with their damage in colour.
//!
//! [`marks_of`] says which rows of a page are repaired, cut, without an EOL after them, or missing. [`damage_shown`] is a picture with these
//! rows on grounds in colour, above a legend.
#![tactic(auto)]

mod canvas;
mod font;
mod legend;
mod marks;
mod shown;
mod turns;

pub use canvas::{COLORS, Canvas};
pub use marks::{Mark, MarkedRows, Marks, marks_of};
pub use shown::damage_shown;
