//! The last line of the text, made without an allocation.

ghost use Rattle.std.specs.Prelude.{◌≡◌, ◌≤◌, Ok, Err, drop};
ghost use Rattle.faxrows_lib.specs.Text.{line_of_outcome};

use crate::digits::put_decimal;
use hayro_ccitt::DecodeError;

/// The most bytes of `ok` and a count: `ok `, twenty digits and the line's end.
pub const ROOM: usize = 24;

/// Writes the line of a good result at the end of the buffer, and returns where it begins.
pub fn put_ok(count: usize, line: &mut [u8; ROOM]) -> usize
    ensures within { result ≤ ROOM }
    ensures line { drop result line.new ≡ line_of_outcome (Ok count) }
{
    line[ROOM - 1] = b'\n';
    let digits = put_decimal(count as u64, line, ROOM - 1);
    line[digits - 1] = b' ';
    line[digits - 2] = b'k';
    line[digits - 3] = b'o';
    digits - 3
}

/// Returns the line of an error.
pub fn error_line(error: DecodeError) -> &'static [u8]
    ensures { result.now ≡ line_of_outcome (Err error) }
{
    match error {
        DecodeError::UnexpectedEof => b"error: unexpected end of input\n",
        DecodeError::InvalidCode => b"error: invalid CCITT code sequence\n",
        DecodeError::Overflow => b"error: arithmetic overflow in position calculation\n",
        DecodeError::OutOfMemory => b"error: out of memory\n",
        DecodeError::Refused => b"error: row refused\n",
    }
}
