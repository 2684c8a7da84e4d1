//! The bits of CCITT fax data and the words among them: ITU-T T.4 (Group 3) and T.6 (Group 4).
//!
//! A [`bit_reader::BitReader`] is the bits of some bytes in either order and an offset among them. [`codes`] reads runs, modes and
//! EOLs from it by the lists of [`tables`], each with its count of work, and [`window_words`], [`pairs`] and [`mode_groups`]
//! read words that are in the window. The settings and the errors of decoding are here too. What of this a user calls,
//! `hayro_ccitt` passes on.
#![tactic(auto)]

ghost use Rattle.std.specs.Prelude.{◌↔◌, IsTrue};
ghost use Rattle.fax_bits.specs.Bits.{BitsFit};

pub mod bit_reader;
pub mod codes;
mod entries;
mod error;
pub mod mode_groups;
pub mod pairs;
mod settings;
pub mod tables;
pub mod window_words;

pub use error::{DecodeError, Result};
pub use settings::{DecodeSettings, EncodingMode};

/// Returns whether eight times the length and 64 more fit in a `usize`, as `decode` requires of its data: whether it
/// has at most `(usize::MAX - 64) / 8` bytes, far more than a 64-bit machine has.
pub fn bits_fit(data: &[u8]) -> bool
    ensures { IsTrue result ↔ BitsFit «data».now }
{
    data.len() <= (usize::MAX - 64) / 8
}
