//! What a content shows (ISO 32000-1, 8.8 to 8.10).

ghost use Rattle.std.specs.Prelude.{◌≡◌, ◌+◌, ◌<◌, ◌≤◌, length, vec_len, IfOk, IfSome, OnOk, OnErr};
ghost use Rattle.paid_cursor.specs.Places.{budget};
ghost use Rattle.pdf_values.specs.Payments.{Adds, Passes};

use crate::items::{Item, close, push_item, read_value};
use crate::tokens::{Span, Token, is_space, pass_space, read_token};
use paid_cursor::{Cursor, Stop};

/// What is left of a content.
#[derive(Clone, Copy)]
pub struct Content {
    /// The bytes of it.
    pub rest: Span,
    /// How many decoded bytes there were before it.
    pub kept: usize,
    /// The index of the resources that its names are of.
    pub resources: Option<usize>,
    /// The last name that was read.
    pub name: Option<Span>,
}

/// What a content shows next.
#[derive(Clone, Copy)]
pub enum Shown {
    /// Nothing more.
    Nothing,
    /// The object of a name: `Do`.
    Object(Span),
    /// An image, whose keys follow: `BI`.
    Image,
}

/// Reads a content, the bytes of a cursor, up to the next thing that it shows. Returns that and what is left.
pub fn next_shown(source: &mut Cursor<'_>, content: Content) -> Result<(Shown, Content), Stop>
    ensures { Passes source.old source.new }
{
    let before = content.rest.start;
    let mut name = content.name;
    let mut shown = Shown::Nothing;
    'content: loop {
        match read_token(source, before) {
            Ok(Token::Name(span)) => name = Some(span),
            Ok(Token::Word(span)) => {
                let word = source
                    .bytes()
                    .get(span.start.saturating_sub(before)..span.end.saturating_sub(before))
                    .unwrap_or(&[]);
                match (word, name) {
                    (b"Do", Some(name)) => {
                        shown = Shown::Object(name);
                        break;
                    }
                    (b"BI", _) => {
                        shown = Shown::Image;
                        break;
                    }
                    _ => {}
                }
            }
            Ok(_) => {}
            Err(Stop::End) => break,
            Err(stop) => return Err(stop),
        }
    }
    let rest = Span {
        start: before.saturating_add(source.place()),
        end: content.rest.end,
    };
    Ok((
        shown,
        Content {
            rest,
            name,
            ..content
        },
    ))
}

/// Reads an image after `BI`, as if so many bytes came before those of the cursor. Adds its keys as a dictionary, and returns its data;
/// `None` if there is none.
pub fn read_image(
    source: &mut Cursor<'_>,
    before: usize,
    items: &mut Vec<Item>,
) -> Result<Option<Span>, Stop>
    ensures { Adds source.old (vec_len items.old) source.new (vec_len items.new) }
{
    match read_keys(source, before, items) {
        Ok(()) => {}
        Err(Stop::End) => return Ok(None),
        Err(stop) => return Err(stop),
    }
    if !source.rest().starts_with(b"ID") {
        return Ok(None);
    }
    let size = source.rest().len();
    source.pass(size.min(3))?;
    let start = source.place();
    'data: loop {
        if is_end_of_image(source.bytes(), start, source.place()) {
            break;
        }
        match source.step() {
            Ok(_) => {}
            Err(Stop::End) => break,
            Err(stop) => return Err(stop),
        }
    }
    let end = source.place();
    let size = source.rest().len();
    source.pass(size.min(2))?;
    Ok(Some(Span {
        start: before.saturating_add(start),
        end: before.saturating_add(end),
    }))
}

/// Reads the keys of an image in a content, and adds them as a dictionary.
fn read_keys(source: &mut Cursor<'_>, before: usize, items: &mut Vec<Item>) -> Result<(), Stop>
    ensures { Adds source.old (vec_len items.old) source.new (vec_len items.new) }
{
    let start = items.len();
    push_item(source, items, Item::Dictionary(0))?;
    'keys: loop {
        pass_space(source)?;
        if source.peek() != Some(b'/') {
            break;
        }
        read_value(source, before, items)?;
        read_value(source, before, items)?;
    }
    push_item(source, items, Item::End)?;
    let after = items.len();
    close(items, start, after);
    Ok(())
}

/// Returns whether the data of an image, which begins at `start`, ends at a place: at an `EI` before white space and text, and after white
/// space, or `>`, or what is no text.
fn is_end_of_image(content: &[u8], start: usize, place: usize) -> bool {
    let rest = content.get(place..).unwrap_or(&[]);
    if !rest.starts_with(b"EI") || rest.get(2).is_some_and(|byte| !is_space(*byte)) {
        return false;
    }
    let after = rest.get(2..rest.len().min(16)).unwrap_or(&[]);
    let near = start.max(place.saturating_sub(16));
    let before = content.get(near..place).unwrap_or(&[]);
    let is_apart = match before.last() {
        None | Some(b'>') => true,
        Some(byte) => is_space(*byte),
    };
    is_text(after) && (is_apart || !is_text(before))
}

/// Returns whether bytes are text: printable ones of ASCII, and white space but NUL.
fn is_text(bytes: &[u8]) -> bool {
    for byte in bytes {
        let is_printable = *byte >= 32 && *byte <= 126;
        if !is_printable && (*byte == 0 || !is_space(*byte)) {
            return false;
        }
    }
    true
}
