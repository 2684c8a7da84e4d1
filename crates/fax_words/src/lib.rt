//! Code words and the bits that an encoder writes: ITU-T T.4 (Group 3) and T.6 (Group 4).
//!
//! [`words`] are those of runs and modes, as numbers, and [`bit_writer`] writes bits into bytes. The definitions say which encoding
//! of a picture an encoder chooses.
#![tactic(auto)]

pub mod bit_writer;
pub mod words;
