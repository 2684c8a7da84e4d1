//! Numbers in decimal digits, written into a buffer.

ghost use Rattle.std.specs.Prelude.{◌≡◌, ◌≤◌, ◌+◌, ◌++◌, length, drop, decimal};

/// The most digits that a number has.
pub const MOST_DIGITS: usize = 20;

/// Writes a number's decimal digits into the bytes before `end`, and returns where they begin. The bytes from `end` on
/// keep their values.
pub fn put_decimal(number: u64, bytes: &mut [u8], end: usize) -> usize
    requires room { MOST_DIGITS ≤ end }
    requires within { end ≤ length bytes.old }
    ensures digits { drop result bytes.new ≡ decimal number ++ drop end bytes.old }
    ensures most { end ≤ result + MOST_DIGITS }
    ensures before { result ≤ end }
{
    let mut start = end - 1;
    let mut rest = number;
    while rest >= 10 {
        bytes[start] = b'0' + (rest % 10) as u8;
        rest /= 10;
        start -= 1;
    }
    bytes[start] = b'0' + rest as u8;
    start
}
