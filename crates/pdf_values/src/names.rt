//! Names, and the keys of dictionaries (ISO 32000-1, 7.3.5 and 7.3.7).

ghost use Rattle.std.specs.Prelude.{◌≡◌, ◌+◌, ◌<◌, ◌≤◌, length, IfSome, OnOk};
ghost use Rattle.paid_cursor.specs.Places.{budget};
ghost use Rattle.pdf_values.specs.Payments.{Pays};

use crate::items::{Item, after_value};
use crate::tokens::Span;
use paid_cursor::{Cursor, Stop};

/// The bytes of a file, and what its streams were decoded to.
#[derive(Clone, Copy)]
pub struct Texts<'t> {
    /// The bytes of the file.
    pub file: &'t [u8],
    /// What its streams were decoded to.
    pub decoded: &'t [u8],
}

impl<'t> Texts<'t> {
    /// Returns some bytes; none if they aren't there.
    pub fn bytes(self, span: Span) -> &'t [u8] {
        let size = self.file.len();
        let found = if span.start < size {
            self.file.get(span.start..span.end)
        } else {
            self.decoded.get(span.start.saturating_sub(size)..span.end.saturating_sub(size))
        };
        found.unwrap_or(&[])
    }
}

/// Returns the value of a hexadecimal digit.
fn digit_of(byte: u8) -> Option<u8>
    ensures { IfSome result (λ digit. digit < 16) }
{
    match byte {
        b'0'..=b'9' => Some(byte - b'0'),
        b'a'..=b'f' => Some(byte - b'a' + 10),
        b'A'..=b'F' => Some(byte - b'A' + 10),
        _ => None,
    }
}

/// Returns the byte that `#` and two digits at a place stand for.
fn code_at(name: &[u8], at: usize) -> Option<u8> {
    let [b'#', high, low] = *name.get(at..)?.first_chunk::<3>()? else {
        return None;
    };
    Some(digit_of(high)? << 4 | digit_of(low)?)
}

/// Returns whether two names are the same, in each of which `#` and two digits may stand for a byte.
pub fn is_same_name(one: &[u8], other: &[u8]) -> bool {
    let mut at = 0usize;
    let mut there = 0usize;
    'bytes: loop {
        let (Some(byte), Some(byte_there)) = (one.get(at).copied(), other.get(there).copied())
        else {
            return at >= one.len() && there >= other.len();
        };
        let code = code_at(one, at);
        let code_there = code_at(other, there);
        if code.unwrap_or(byte) != code_there.unwrap_or(byte_there) {
            return false;
        }
        at = at.saturating_add(if code.is_some() { 3 } else { 1 });
        there = there.saturating_add(if code_there.is_some() { 3 } else { 1 });
    }
}

/// Returns the index of the value of a key in a dictionary, for a step for each key that is looked at, and one more for 8 bytes of the name.
pub fn find_key(
    source: &mut Cursor<'_>,
    texts: Texts<'_>,
    items: &[Item],
    dictionary: usize,
    key: &[u8],
) -> Result<Option<usize>, Stop>
    ensures { Pays source.old source.new }
{
    let Some(Item::Dictionary(_)) = items.get(dictionary) else {
        return Ok(None);
    };
    let mut at = dictionary.saturating_add(1);
    'keys: loop {
        let Some(Item::Name(span)) = items.get(at).copied() else {
            return Ok(None);
        };
        source.pay((key.len() / 8).saturating_add(1))?;
        let value = at.saturating_add(1);
        if is_same_name(texts.bytes(span), key) {
            return Ok(Some(value));
        }
        at = after_value(items, value);
    }
}
