//! Why there is no picture.

use std::alloc::AllocError;
use std::fmt;

/// Why there is no picture.
#[derive(Debug, Clone, Copy, PartialEq, Eq)]
pub enum PictureError {
    /// It has no columns, or more than 1,073,741,824 bytes.
    Size,
    /// An allocation failed.
    OutOfMemory,
}

impl fmt::Display for PictureError {
    ghost use Rattle.std.specs.Prelude.{Some};
    ghost use Rattle.fax_pictures.specs.Pictures.{text_of};

    ghost output = { λ error. Some (text_of error) };

    ghost styled_output = { λ error _. Some (text_of error) };

    fn fmt<W: fmt::Write>(&self, f: &mut fmt::Formatter<W>) -> fmt::Result {
        f.write_str(match self {
            PictureError::Size => "no columns, or more than 1 GiB",
            PictureError::OutOfMemory => "out of memory",
        })
    }
}

impl From<AllocError> for PictureError {
    ghost use Rattle.std.specs.Prelude.{◌≡◌};
    ghost use Rattle.fax_pictures.specs.declared.error.PictureError.TheVariants.{OutOfMemory};

    ghost from_gives = { λ _ error. error ≡ OutOfMemory };

    fn from(_error: AllocError) -> PictureError {
        PictureError::OutOfMemory
    }
}
