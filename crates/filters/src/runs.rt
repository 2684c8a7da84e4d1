//! Runs of bytes: RunLengthDecode (ISO 32000-1, 7.4.5) and PackBits (TIFF 6.0, section 9).

ghost use Rattle.std.specs.Prelude.{◌≡◌, ◌+◌, ◌-◌, ◌*◌, ◌<◌, ◌≤◌, ◌^◌, length, IfOk, IfSome, OnOk, OnErr, vec_len};
ghost use Rattle.paid_cursor.specs.Places.{budget, Pays};

use crate::FilterError;
use paid_cursor::{Cursor, Stop};

/// Decodes RunLengthDecode data at the cursor's place, up to the byte 128 that ends it, or to the end of the bytes.
///
/// # Errors
///
/// `Truncated` if the bytes end within a run, `Spent` or `OutOfMemory`.
pub fn decode_run_length(source: &mut Cursor<'_>, out: &mut Vec<u8>) -> Result<(), FilterError>
    ensures paid { Pays result source.old (vec_len out.old) source.new (vec_len out.new) }
{
    'runs: loop {
        match source.step() {
            Ok(128) | Err(Stop::End) => return Ok(()),
            Ok(head) => put_run(source, out, head)?,
            Err(stop) => return Err(FilterError::from(stop)),
        }
    }
}

/// Decodes PackBits data at the cursor's place up to the end of the bytes. The byte 128 means nothing.
///
/// # Errors
///
/// `Truncated` if the bytes end within a run, `Spent` or `OutOfMemory`.
pub fn decode_pack_bits(source: &mut Cursor<'_>, out: &mut Vec<u8>) -> Result<(), FilterError>
    ensures paid { Pays result source.old (vec_len out.old) source.new (vec_len out.new) }
{
    'runs: loop {
        match source.step() {
            Ok(128) => {}
            Err(Stop::End) => return Ok(()),
            Ok(head) => put_run(source, out, head)?,
            Err(stop) => return Err(FilterError::from(stop)),
        }
    }
}

/// Adds what a head other than 128 says: up to 127 that one byte more than it follow, above that the next byte as often as 257
/// exceeds it.
fn put_run(source: &mut Cursor<'_>, out: &mut Vec<u8>, head: u8) -> Result<(), FilterError>
    ensures paid { Pays result source.old (vec_len out.old) source.new (vec_len out.new) }
    ensures left { source.new.left ≤ source.old.left }
{
    if head < 128 {
        let count = usize::from(head) + 1;
        let rest = source.rest();
        source.pass(count)?;
        source.put_all(out, &rest[..count])?;
    } else {
        let byte = source.step()?;
        source.put(out, byte)?;
        source.put_copy(out, 1, 256 - usize::from(head))?;
    }
    Ok(())
}
