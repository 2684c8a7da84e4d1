//! Why data isn't decoded.

ghost use Rattle.std.specs.Prelude.{◌≡◌};

use paid_cursor::Stop;

/// Why data isn't decoded.
#[derive(Clone, Copy, Debug, PartialEq, Eq)]
pub enum FilterError {
    /// The data ends within a run, a code or a row.
    Truncated,
    /// The data has a character, a group or a code that means nothing.
    BadData,
    /// The allowance is spent.
    Spent,
    /// No memory is left.
    OutOfMemory,
}

impl From<Stop> for FilterError {
    ghost use Rattle.std.specs.Prelude.{◌≡◌};
    ghost use Rattle.filters.specs.Errors.{error_of};

    ghost from_gives = { λ stop error. error ≡ error_of stop };

    /// Returns `Truncated` at the end of the bytes, else the error of the same name.
    fn from(stop: Stop) -> FilterError {
        match stop {
            Stop::End => FilterError::Truncated,
            Stop::Spent => FilterError::Spent,
            Stop::OutOfMemory => FilterError::OutOfMemory,
        }
    }
}
