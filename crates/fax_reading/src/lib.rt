//! What CCITT fax data means: ITU-T T.4 (Group 3) and T.6 (Group 4), by definitions alone.
//!
//! `specs/` has rows and changing elements, lines, the plain reading of data, repair and other damage, encodings and pictures;
//! `proofs/` the lemmas about them, which need no function of a decoder. [`laws`] states what follows of the data, whatever program
//! reads it. `hayro_ccitt` passes all of this on.
#![tactic(auto)]

pub mod laws;
