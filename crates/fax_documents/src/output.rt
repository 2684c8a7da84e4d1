//! Bytes that are written.

ghost use Rattle.std.specs.Prelude.{◌≡◌, IfErr, OnOk};
ghost use Rattle.std.specs.Io.KnownBytes.{Appends};

use crate::error::DocumentError;
use std::io::Write;

/// Writes bytes.
pub(crate) fn put<W: Write>(out: &mut W, bytes: &[u8]) -> Result<(), DocumentError>
    ensures written { OnOk result (Appends (W.contents out.old) (W.contents out.new) bytes.now) }
    ensures only { IfErr result (λ error. error ≡ DocumentError.Write) }
{
    match out.write_all(bytes) {
        Ok(()) => Ok(()),
        Err(_) => Err(DocumentError::Write),
    }
}
