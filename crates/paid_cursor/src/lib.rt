//! A cursor over bytes that pays for each step from an allowance.
//!
//! A reader of a file from a stranger takes a [`Cursor`]: the bytes, a place among them, and the number of steps that may
//! still be taken. Each byte passed costs a step, and so does each byte that the reader adds to its output. Nothing else writes the
//! number, so a reader's contract can say what it paid, also where it ends with an error.
#![tactic(auto)]

mod cursor;
mod output;

pub use cursor::{Cursor, Stop};
