use std::alloc::{AllocError, AllocFailed};
use std::error::Error;
use std::fmt;

/// Why an image was not encoded.
#[derive(Debug, Clone, Copy, PartialEq, Eq)]
pub enum EncodeError {
    /// The image has no columns.
    NoColumns,
    /// The image has no rows, and one is needed.
    NoRows,
    /// The row of this index is not strictly ascending and below the number of columns.
    NotARow(usize),
    /// An allocation for the encoded bytes failed.
    OutOfMemory,
}

impl fmt::Display for EncodeError {
    ghost use Rattle.std.specs.Prelude.{Some};
    ghost use Rattle.fax_encode.specs.Refusals.{text_of_refusal, text_with_options};

    ghost output = { λ error. Some (text_of_refusal error) };

    ghost styled_output = { λ error _. text_with_options error };

    fn fmt<W: fmt::Write>(&self, f: &mut fmt::Formatter<W>) -> fmt::Result {
        match self {
            EncodeError::NoColumns => f.write_str("no columns"),
            EncodeError::NoRows => f.write_str("no rows"),
            EncodeError::NotARow(row) => write!(f, "row {row} is not a list of changes"),
            EncodeError::OutOfMemory => f.write_str("out of memory"),
        }
    }
}

impl Error for EncodeError {}

impl From<AllocError> for EncodeError {
    ghost use Rattle.std.specs.Prelude.{◌≡◌};
    ghost use Rattle.fax_encode.specs.declared.error.EncodeError.TheVariants.{OutOfMemory};

    ghost from_gives = { λ _ error. error ≡ OutOfMemory };

    fn from(_error: AllocError) -> EncodeError {
        EncodeError::OutOfMemory
    }
}

impl<T: Drop> From<AllocFailed<T>> for EncodeError {
    ghost use Rattle.std.specs.Prelude.{◌≡◌};
    ghost use Rattle.fax_encode.specs.declared.error.EncodeError.TheVariants.{OutOfMemory};

    ghost from_gives = { λ _ error. error ≡ OutOfMemory };

    fn from(_error: AllocFailed<T>) -> EncodeError {
        EncodeError::OutOfMemory
    }
}
