//! How strictly data is checked.

/// What is asked of an encoding.
#[derive(Debug, Clone, Copy, PartialEq, Eq)]
pub enum Grade {
    /// Every decoder must read it back as its rows. Any make-up words, modes and kinds of line are taken.
    Readable,
    /// It is what the coding procedure writes for its rows (T.4, 4.1 and 4.2; T.6, 2). With a number K, the lines after a
    /// one-dimensional line of two-dimensional Group 3 that are two-dimensional are at most K - 1 (T.4, 4.2.1); without one,
    /// any number.
    Procedure(Option<u32>),
}
