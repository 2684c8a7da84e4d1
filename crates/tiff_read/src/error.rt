//! Why a file isn't read on.

ghost use Rattle.std.specs.Prelude.{◌≡◌};

use paid_cursor::Stop;

/// Why a file isn't read on.
#[derive(Clone, Copy, Debug, PartialEq, Eq)]
pub enum TiffError {
    /// The file doesn't begin as a TIFF file does.
    NotTiff,
    /// The file ends within its header, or the next directory is outside the file.
    Outside,
    /// The next directory is one that was read before.
    Loop,
    /// The allowance is spent.
    Spent,
    /// No memory is left.
    OutOfMemory,
}

impl From<Stop> for TiffError {
    ghost use Rattle.std.specs.Prelude.{◌≡◌};
    ghost use Rattle.tiff_read.specs.Errors.{error_of};

    ghost from_gives = { λ stop error. error ≡ error_of stop };

    /// Returns `Outside` at the end of the bytes, else the error of the same name.
    fn from(stop: Stop) -> TiffError {
        match stop {
            Stop::End => TiffError::Outside,
            Stop::Spent => TiffError::Spent,
            Stop::OutOfMemory => TiffError::OutOfMemory,
        }
    }
}
