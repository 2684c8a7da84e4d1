//! Why a file isn't read.

ghost use Rattle.std.specs.Prelude.{◌≡◌};

use paid_cursor::Stop;

/// Why a file, or the data of an image, isn't read.
#[derive(Clone, Copy, Debug, PartialEq, Eq)]
pub enum PdfError {
    /// The first 1,024 bytes don't have `%PDF-`.
    NotPdf,
    /// The file is encrypted.
    Encrypted,
    /// No object was found.
    NoObjects,
    /// A filter isn't known here, or its data is damaged, or one follows CCITTFaxDecode.
    BadFilter,
    /// The allowance is spent.
    Spent,
    /// No memory is left.
    OutOfMemory,
}

impl From<Stop> for PdfError {
    ghost use Rattle.std.specs.Prelude.{◌≡◌};
    ghost use Rattle.pdf_read.specs.Errors.{error_of};

    ghost from_gives = { λ stop error. error ≡ error_of stop };

    /// Returns `NoObjects` at the end of the bytes, else the error of the same name.
    fn from(stop: Stop) -> PdfError {
        match stop {
            Stop::End => PdfError::NoObjects,
            Stop::Spent => PdfError::Spent,
            Stop::OutOfMemory => PdfError::OutOfMemory,
        }
    }
}
