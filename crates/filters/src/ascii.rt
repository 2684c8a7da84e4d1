//! Bytes as text: ASCIIHexDecode and ASCII85Decode (ISO 32000-1, 7.4.2 and 7.4.3).

ghost use Rattle.std.specs.Prelude.{◌≡◌, ◌+◌, ◌-◌, ◌*◌, ◌<◌, ◌≤◌, ◌^◌, length, IfOk, IfSome, OnOk, OnErr, vec_len};
ghost use Rattle.paid_cursor.specs.Places.{budget, Pays};

use crate::FilterError;
use paid_cursor::{Cursor, Stop};

/// Decodes ASCIIHexDecode data at the cursor's place, up to the `>` that ends it, or to the end of the bytes. White space is passed
/// over; after an odd number of digits the last byte is as if `0` followed.
///
/// # Errors
///
/// `BadData` at any other character, `Spent` or `OutOfMemory`.
pub fn decode_ascii_hex(source: &mut Cursor<'_>, out: &mut Vec<u8>) -> Result<(), FilterError>
    ensures paid { Pays result source.old (vec_len out.old) source.new (vec_len out.new) }
{
    let mut first: Option<u8> = None;
    'digits: loop {
        let digit = match next_character(source, b'>')? {
            None => break,
            Some(character) => hex_digit(character)?,
        };
        first = match first {
            None => Some(digit),
            Some(first) => {
                source.put(out, first << 4 | digit)?;
                None
            }
        };
    }
    if let Some(first) = first {
        source.put(out, first << 4)?;
    }
    Ok(())
}

/// Returns the value of a hexadecimal digit.
fn hex_digit(character: u8) -> Result<u8, FilterError>
    ensures { IfOk result (λ digit. digit < 16) }
{
    match character {
        b'0'..=b'9' => Ok(character - b'0'),
        b'a'..=b'f' => Ok(character - b'a' + 10),
        b'A'..=b'F' => Ok(character - b'A' + 10),
        _ => Err(FilterError::BadData),
    }
}

/// Passes white space and the character after it, and returns this; `None` at the one that ends the data, and at the end of the bytes.
fn next_character(source: &mut Cursor<'_>, end: u8) -> Result<Option<u8>, FilterError>
    ensures paid { budget source.new ≡ budget source.old }
    ensures same { source.new.bytes ≡ source.old.bytes }
    ensures left { source.new.left ≤ source.old.left }
    ensures passed { IfOk result (λ character. IfSome character (λ _. source.new.left < source.old.left)) }
{
    'space: loop {
        match source.step() {
            Ok(0 | b'\t' | b'\n' | 12 | b'\r' | b' ') => {}
            Ok(character) if character == end => return Ok(None),
            Ok(character) => return Ok(Some(character)),
            Err(Stop::End) => return Ok(None),
            Err(stop) => return Err(FilterError::from(stop)),
        }
    }
}

/// Decodes ASCII85Decode data at the cursor's place, up to the `~` of the `~>` that ends it, which is passed, or to the end of the
/// bytes. White space is passed over.
///
/// # Errors
///
/// `BadData` at a character that is no digit, at `z` within a group, at a group of more than 2 ^ 32 - 1 and at a last group of one
/// digit; `Spent` or `OutOfMemory`.
pub fn decode_ascii85(source: &mut Cursor<'_>, out: &mut Vec<u8>) -> Result<(), FilterError>
    ensures paid { Pays result source.old (vec_len out.old) source.new (vec_len out.new) }
{
    let mut digits = [84u8; 5];
    let mut count = 0usize;
    'digits: loop {
        match next_character(source, b'~')? {
            None => break,
            Some(b'z') if count == 0 => source.put_all(out, &[0; 4])?,
            Some(character) => {
                if character < b'!' || character > b'u' {
                    return Err(FilterError::BadData);
                }
                digits[count] = character - b'!';
                count += 1;
                if count == 5 {
                    source.put_all(out, &group_of(&digits)?)?;
                    digits = [84; 5];
                    count = 0;
                }
            }
        }
    }
    if source.peek() == Some(b'>') {
        source.step()?;
    }
    match count {
        0 => Ok(()),
        1 => Err(FilterError::BadData),
        _ => {
            source.put_all(out, &group_of(&digits)?[..count - 1])?;
            Ok(())
        }
    }
}

/// Returns the four bytes of a group of five digits, the first of which counts most. The digits that a last group lacks are 84.
fn group_of(digits: &[u8; 5]) -> Result<[u8; 4], FilterError> {
    let mut value: u64 = 0;
    for digit in digits {
        value = value.wrapping_mul(85).wrapping_add(u64::from(*digit));
    }
    match u32::try_from(value) {
        Ok(value) => Ok(value.to_be_bytes()),
        Err(_) => Err(FilterError::BadData),
    }
}
