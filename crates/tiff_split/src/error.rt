//! Why a file isn't split further.

use std::alloc::AllocError;
use std::io::Error;
use tiff_read::TiffError;

/// Why a file isn't split further.
#[derive(Drop)]
pub enum SplitError {
    /// The file doesn't begin as a TIFF file does, or ends within its header, or the next directory is outside the file.
    Outside,
    /// The next directory is one that was found before.
    Loop,
    /// More is to be read than the file's size allows, or a directory says more than the file has bytes.
    Spent,
    /// No memory is left.
    OutOfMemory,
    /// The file can't be read.
    Unread(Error),
}

impl From<AllocError> for SplitError {
    ghost use Rattle.std.specs.Prelude.{◌≡◌};
    ghost use Rattle.tiff_split.specs.declared.error.SplitError.TheVariants.{OutOfMemory};

    ghost from_gives = { λ _ made. made ≡ OutOfMemory };

    fn from(_error: AllocError) -> SplitError {
        SplitError::OutOfMemory
    }
}

impl From<Error> for SplitError {
    ghost use Rattle.std.specs.Prelude.{◌≡◌};
    ghost use Rattle.tiff_split.specs.declared.error.SplitError.TheVariants.{Unread};

    ghost from_gives = { λ error made. made ≡ Unread error };

    fn from(error: Error) -> SplitError {
        SplitError::Unread(error)
    }
}

impl From<TiffError> for SplitError {
    ghost use Rattle.std.specs.Prelude.{◌≡◌};
    ghost use Rattle.tiff_split.specs.Reads.{error_of};

    ghost from_gives = { λ error made. made ≡ error_of error };

    /// Returns why a page isn't read in whose own file an error is found.
    fn from(error: TiffError) -> SplitError {
        match error {
            TiffError::OutOfMemory => SplitError::OutOfMemory,
            TiffError::NotTiff | TiffError::Outside | TiffError::Loop | TiffError::Spent => {
                SplitError::Spent
            }
        }
    }
}
