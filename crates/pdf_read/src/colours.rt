//! Which of two samples a colour space shows lighter (ISO 32000-1, 8.6).

ghost use Rattle.std.specs.Prelude.{◌≡◌, ◌+◌, ◌<◌, ◌≤◌, length, vec_len, IfOk, OnOk, OnErr};
ghost use Rattle.pdf_read.specs.Payments.{Held, Spends, Uses};

use crate::error::PdfError;
use crate::pdf::Pdf;
use crate::streams::{Filter, undo};
use paid_cursor::{Cursor, Stop};
use pdf_values::{Item, Span, Texts};

impl<'a> Pdf<'a> {
    /// Returns whether a colour space shows sample 0 lighter than sample 1: one of inks does, and a palette whose first colour is the lighter.
    pub(crate) fn is_zero_lighter(
        &mut self,
        space: Option<usize>,
        resources: Option<usize>,
    ) -> Result<bool, PdfError>
        ensures { Spends self.old self.new }
    {
        let space = match self.item(space) {
            Some(Item::Name(name)) => {
                let spaces = self.key(resources, b"ColorSpace")?;
                self.named(spaces, name)?.or(space)
            }
            _ => space,
        };
        let kind = self.element_or_whole(space, 0)?;
        if !self.is_either(kind, b"Indexed", b"I") {
            return Ok(self.is_inks(kind));
        }
        let base = self.element(space, 1)?;
        let base_kind = self.element_or_whole(base, 0)?;
        let (first, second) = self.colours_of(space)?;
        Ok(if self.is_inks(base_kind) {
            first < second
        } else {
            first > second
        })
    }

    /// Returns whether a kind of colour space is one of inks, of which none is white.
    fn is_inks(&self, kind: Option<usize>) -> bool {
        self.is_either(kind, b"Separation", b"DeviceN")
            || self.is_either(kind, b"DeviceCMYK", b"CMYK")
    }

    /// Returns the sums of the components of a palette's two colours.
    fn colours_of(&mut self, space: Option<usize>) -> Result<(u64, u64), PdfError>
        ensures { Spends self.old self.new }
    {
        let table = self.element(space, 3)?;
        let kept = self.decoded.len();
        let bytes = self.palette_of(table)?;
        self.source.pay(bytes.end.saturating_sub(bytes.start))?;
        let sums = sums_of(self.bytes(bytes));
        self.decoded.truncate(kept);
        Ok(sums)
    }

    /// Returns the bytes of a palette, which is a string or a stream. Those that aren't in the file are added to what is decoded.
    fn palette_of(&mut self, table: Option<usize>) -> Result<Span, PdfError>
        ensures { Spends self.old self.new }
    {
        let nothing = Span { start: 0, end: 0 };
        match (table, self.item(table)) {
            (Some(at), Some(Item::Dictionary(_))) => match self.data(at)? {
                Some(data) => match self.decode(at, data) {
                    Err(PdfError::BadFilter) => Ok(nothing),
                    done => done,
                },
                None => Ok(nothing),
            },
            (_, Some(Item::Text(text))) => self.decode_text(text),
            _ => Ok(nothing),
        }
    }

    /// Adds the bytes that a string stands for to what is decoded.
    fn decode_text(&mut self, text: Span) -> Result<Span, PdfError>
        ensures { Spends self.old self.new }
    {
        let mut out: Vec<u8> = Vec::new(self.alloc);
        let texts = Texts {
            file: self.source.bytes(),
            decoded: self.decoded.as_slice(),
        };
        let bytes = texts.bytes(text);
        let mut lent = self.source.lend(bytes);
        let done = read_text(&mut lent, &mut out);
        self.source.take_back(lent);
        match done {
            Ok(()) | Err(PdfError::BadFilter | PdfError::NoObjects) => self.keep(out),
            Err(error) => Err(error),
        }
    }
}

/// Returns the sums of the first and of the second half of some bytes.
fn sums_of(bytes: &[u8]) -> (u64, u64) {
    let half = bytes.len() / 2;
    let mut first: u64 = 0;
    let mut second: u64 = 0;
    for (index, byte) in bytes.iter().enumerate() {
        if index < half {
            first = first.saturating_add(u64::from(*byte));
        } else if index - half < half {
            second = second.saturating_add(u64::from(*byte));
        }
    }
    (first, second)
}

/// Reads a string with its parentheses or angle brackets (ISO 32000-1, 7.3.4).
fn read_text(source: &mut Cursor<'_>, out: &mut Vec<u8>) -> Result<(), PdfError>
    ensures { Uses source.old source.new }
{
    if source.step()? == b'<' {
        let digits = source.rest();
        return undo(source, digits, Filter::AsciiHex, out);
    }
    'text: loop {
        match source.step()? {
            b'\\' => {
                if let Some(byte) = read_escaped(source)? {
                    source.put(out, byte)?;
                }
            }
            b')' if source.peek().is_none() => return Ok(()),
            byte => source.put(out, byte)?,
        }
    }
}

/// Reads what follows a backslash; `None` at the end of a line (ISO 32000-1, table 3).
fn read_escaped(source: &mut Cursor<'_>) -> Result<Option<u8>, Stop>
    ensures { Uses source.old source.new }
{
    let first = source.step()?;
    Ok(match first {
        b'n' => Some(b'\n'),
        b'r' => Some(b'\r'),
        b't' => Some(b'\t'),
        b'b' => Some(8),
        b'f' => Some(12),
        b'\n' | b'\r' => None,
        b'0'..=b'7' => {
            let mut code = u32::from(first - b'0');
            'digits: for _ in 0..2 {
                match source.peek() {
                    Some(digit @ b'0'..=b'7') => {
                        source.pass(1)?;
                        code = code << 3 | u32::from(digit - b'0');
                    }
                    _ => break,
                }
            }
            Some((code & 255) as u8)
        }
        other => Some(other),
    })
}
