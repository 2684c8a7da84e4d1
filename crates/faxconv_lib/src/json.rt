//! Texts as strings of JSON (RFC 8259, 7).

ghost use Rattle.std.specs.Prelude.{◌≡◌, ◌++◌, OnOk, chars, flat_map, string_bytes};
ghost use Rattle.faxconv_lib.specs.Json.{json_char, json_text};

use crate::visible::put_hex;
use std::alloc::AllocError;

/// Puts a text as a string of JSON, with its quotes: a quote, a backslash and control characters are escaped.
pub fn put_json_text(value: &str, text: &mut String) -> Result<(), AllocError>
    ensures { OnOk result (string_bytes text.new ≡ string_bytes text.old ++ json_text value.now) }
{
    text.push('"')?;
    put_json_chars(value, text)?;
    text.push('"')
}

/// Puts the characters of a string of JSON.
fn put_json_chars(value: &str, text: &mut String) -> Result<(), AllocError>
    ensures { OnOk result (string_bytes text.new ≡ string_bytes text.old ++ flat_map json_char (chars value.now)) }
{
    for c in value.chars() {
        put_json_char(c, text)?;
    }
    Ok(())
}

/// Puts a character of a string of JSON.
fn put_json_char(c: char, text: &mut String) -> Result<(), AllocError>
    ensures { OnOk result (string_bytes text.new ≡ string_bytes text.old ++ json_char c) }
{
    let code = u32::from(c);
    if c == '"' || c == '\\' {
        text.push('\\')?;
        text.push(c)
    } else if code < 0x20 || (0x7f <= code && code < 0xa0) {
        text.push_str("\\u00")?;
        put_hex(code, text)
    } else {
        text.push(c)
    }
}
