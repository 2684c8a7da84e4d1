//! Texts of others, as names of files, made visible: no control character of theirs reaches a terminal, or ends a line.

ghost use Rattle.std.specs.Prelude.{◌≡◌, ◌++◌, ◌<◌, OnOk, chars, flat_map, string_bytes};
ghost use Rattle.faxconv_lib.specs.Visible.{visible_char, byte_escape, hex_digits, hex_digit};

use std::alloc::AllocError;

/// Puts a text with the bytes of each control character as `\x` and two digits.
pub fn put_visible(name: &str, text: &mut String) -> Result<(), AllocError>
    ensures { OnOk result (string_bytes text.new ≡ string_bytes text.old ++ flat_map visible_char (chars name.now)) }
{
    for c in name.chars() {
        put_visible_char(c, text)?;
    }
    Ok(())
}

/// Puts a character, or its bytes as `\x` and two digits if it is a control character.
fn put_visible_char(c: char, text: &mut String) -> Result<(), AllocError>
    ensures { OnOk result (string_bytes text.new ≡ string_bytes text.old ++ visible_char c) }
{
    let code = u32::from(c);
    if code < 0x20 || code == 0x7f {
        put_byte(code, text)
    } else if 0x80 <= code && code < 0xa0 {
        put_byte(0xc2, text)?;
        put_byte(code, text)
    } else {
        text.push(c)
    }
}

/// Puts `\x` and the two digits of a byte.
pub(crate) fn put_byte(byte: u32, text: &mut String) -> Result<(), AllocError>
    requires { byte < 256 }
    ensures { OnOk result (string_bytes text.new ≡ string_bytes text.old ++ byte_escape byte) }
{
    text.push_str("\\x")?;
    put_hex(byte, text)
}

/// Puts the two hexadecimal digits of a byte.
pub(crate) fn put_hex(byte: u32, text: &mut String) -> Result<(), AllocError>
    requires { byte < 256 }
    ensures { OnOk result (string_bytes text.new ≡ string_bytes text.old ++ hex_digits byte) }
{
    text.push(hex_digit(byte / 16))?;
    text.push(hex_digit(byte % 16))
}

/// Returns the hexadecimal digit of a number below 16.
fn hex_digit(value: u32) -> char
    requires { value < 16 }
    ensures { result ≡ hex_digit value }
{
    const DIGITS: &[u8; 16] = b"0123456789abcdef";
    char::from(DIGITS[value as usize])
}
