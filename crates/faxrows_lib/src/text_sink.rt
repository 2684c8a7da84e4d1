//! A sink that keeps the rows as text.

ghost use Rattle.std.specs.Prelude.{◌≡◌, ◌++◌, OnOk, OnErr};
ghost use Rattle.std.specs.Io.{StartsWith};
ghost use Rattle.faxrows_lib.specs.Text.{line_of_row, text_of_change};

use crate::digits::{MOST_DIGITS, put_decimal};
use hayro_ccitt::{DecodeError, Decoder};
use std::alloc::{AllocError, Global};
use std::marker::Model;

/// The rows as lines of text, kept in memory. Each row is a line: `r`, and for each change a space and its
/// number.
#[derive(Drop)]
pub struct TextSink {
    text: Vec<u8>,
    has_refused: bool,
}

impl Model for TextSink {
    ghost use Rattle.std.specs.Prelude.{List, ℕ, Bool};

    ghost Value = { List ℕ × Bool };

    ghost view = { λ sink. (sink.text.items, sink.has_refused) };
}

impl TextSink {
    ghost use Rattle.std.specs.Prelude.{◌≡◌, [], false};

    /// Creates a sink without text. It allocates nothing.
    pub fn new(alloc: Global) -> TextSink
        ensures { result ≡ ([], false) }
    {
        TextSink {
            text: Vec::new(alloc),
            has_refused: false,
        }
    }

    /// Returns the lines of the rows that were accepted.
    pub fn text(&self) -> &[u8]
        ensures { result.now ≡ self.now.0 }
    {
        self.text.as_slice()
    }
}

impl Decoder for TextSink {
    ghost use Rattle.std.specs.Prelude.{List, ℕ, ◌++◌};
    ghost use Rattle.faxrows_lib.specs.Text.{line_of_row};

    ghost Meaning = { List ℕ };

    ghost meaning = { λ sink. sink.0 };

    ghost step = { λ _ text row. text ++ line_of_row row };

    ghost width = { λ _. 4294967295 };

    ghost has_refused = { λ sink. sink.1 };

    fn push_row(&mut self, changes: &[u32]) -> hayro_ccitt::Result<()> {
        let length = self.text.len();
        match push_line(&mut self.text, changes) {
            Ok(()) => Ok(()),
            Err(_) => {
                self.text.truncate(length);
                self.has_refused = true;
                Err(DecodeError::Refused)
            }
        }
    }
}

/// Adds a row's line. If an allocation fails, the text begins with what it was before.
fn push_line(text: &mut Vec<u8>, changes: &[u32]) -> Result<(), AllocError>
    ensures ok { OnOk result (text.new.items ≡ text.old.items ++ line_of_row changes.now) }
    ensures err { OnErr result (StartsWith text.new.items text.old.items) }
{
    text.push(b'r')?;
    for change in changes {
        push_number(text, *change)?;
    }
    text.push(b'\n')?;
    Ok(())
}

/// Adds a space and a number.
fn push_number(text: &mut Vec<u8>, number: u32) -> Result<(), AllocError>
    ensures ok { OnOk result (text.new.items ≡ text.old.items ++ text_of_change number) }
    ensures err { OnErr result (StartsWith text.new.items text.old.items) }
{
    let mut digits = [0u8; MOST_DIGITS];
    let start = put_decimal(u64::from(number), &mut digits, MOST_DIGITS);
    text.push(b' ')?;
    text.extend_from_slice(&digits[start..])?;
    Ok(())
}
