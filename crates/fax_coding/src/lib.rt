//! The lines of an encoder: ITU-T T.4 (Group 3) and T.6 (Group 4).
//!
//! [`runs`] writes runs and one-dimensional lines (T.4, 4.1), [`group4`] two-dimensional ones by the coding procedure (T.4, 4.2; T.6,
//! 2.2), and [`shortest_lines`] those with the fewest bits.
#![tactic(auto)]

pub mod group4;
pub mod runs;
pub mod shortest_lines;
