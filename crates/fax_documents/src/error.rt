//! Why a page is not written.

use std::alloc::AllocError;
use std::fmt;

/// Why a page is not written.
#[derive(Debug, Clone, Copy, PartialEq, Eq)]
pub enum DocumentError {
    /// The format has no strips of this encoding, or no page of so many strips.
    Encoding,
    /// The page has no columns, rows or strips, or its strips have other rows than it.
    Size,
    /// The file would be longer than its offsets can say.
    TooLong,
    /// An allocation failed.
    OutOfMemory,
    /// The writer failed.
    Write,
}

impl fmt::Display for DocumentError {
    ghost use Rattle.std.specs.Prelude.{Some};
    ghost use Rattle.fax_documents.specs.Errors.{text_of};

    ghost output = { λ error. Some (text_of error) };

    ghost styled_output = { λ error _. Some (text_of error) };

    fn fmt<W: fmt::Write>(&self, f: &mut fmt::Formatter<W>) -> fmt::Result {
        f.write_str(match self {
            DocumentError::Encoding => "the format has no such encoding",
            DocumentError::Size => "no size that a page has",
            DocumentError::TooLong => "the file becomes too long",
            DocumentError::OutOfMemory => "out of memory",
            DocumentError::Write => "can't write",
        })
    }
}

impl From<AllocError> for DocumentError {
    ghost use Rattle.std.specs.Prelude.{◌≡◌};
    ghost use Rattle.fax_documents.specs.declared.error.DocumentError.TheVariants.{OutOfMemory};

    ghost from_gives = { λ _ error. error ≡ OutOfMemory };

    fn from(_error: AllocError) -> DocumentError {
        DocumentError::OutOfMemory
    }
}
