//! Whether data is an encoding of a picture that every decoder of ITU-T T.4 and T.6 must read back as its rows, with any make-up
//! words, modes and kinds of line, closed as its settings ask: for those who write encoders, since a decoder also reads other
//! data.
//!
//! Data has at most `(usize::MAX - 64) / 8` bytes, as in [`hayro_ccitt::decode`]; [`hayro_ccitt::bits_fit`] tests it.
#![tactic(auto)]

mod checking;
mod grades;
pub mod laws;
mod lines;
mod pictures;
mod procedure;
mod stops;
mod words;

pub use checking::{conforms, first_violation};
pub use grades::Grade;
pub use stops::{Rule, Violation};
