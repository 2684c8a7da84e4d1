//! The runs of the program `faxrows`: each reads all that a reader has, decodes it as the arguments mean, and writes the rows as
//! text or as a bitmap, or the damage, or whether it is an encoding that every decoder must read back as its rows, or what the
//! coding procedure writes for them.
#![tactic(auto)]

mod arguments;
pub mod by_row;
pub mod check;
pub mod damage;
mod damage_lines;
mod digits;
mod input;
mod last_line;
mod output;
pub mod packed;
pub mod program;
pub mod text_sink;

pub use by_row::run_by_row;
pub use check::{run_by_procedure, run_check};
pub use damage::run_damage;
pub use packed::run_packed;
pub use program::{Done, run};
pub use text_sink::TextSink;
