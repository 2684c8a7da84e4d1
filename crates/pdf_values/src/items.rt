//! Values, as a list of items (ISO 32000-1, 7.3).

ghost use Rattle.std.specs.Prelude.{◌≡◌, ◌+◌, ◌<◌, ◌≤◌, length, vec_len, IfOk, IfSome, OnOk, OnErr};
ghost use Rattle.paid_cursor.specs.Places.{budget};
ghost use Rattle.pdf_values.specs.Payments.{Adds};

use crate::tokens::{Span, Token, read_token};
use paid_cursor::{Cursor, Stop};

/// An item of a value. An array or a dictionary is followed by what it holds, keys and values in turn, and by `End`.
#[derive(Clone, Copy, Debug, PartialEq, Eq)]
pub enum Item {
    /// Null.
    Null,
    /// A truth value.
    Boolean(bool),
    /// A whole number.
    Integer(i64),
    /// A number with a point, and its whole part.
    Real(i64),
    /// A name, without its solidus.
    Name(Span),
    /// A string, with its parentheses or angle brackets.
    Text(Span),
    /// A word that is no value.
    Word(Span),
    /// A reference, and the number of its object.
    Reference(i64),
    /// An array, and the index of the item after its `End`.
    Array(usize),
    /// A dictionary, and the index of the item after its `End`.
    Dictionary(usize),
    /// The end of an array or a dictionary.
    End,
    /// The beginning of an object, before its value: its number, and that of the page that showed it last, or 0.
    Object(u32, u32),
    /// The data of an object, after the dictionary that is its value.
    Stream(Span),
}

/// How deep arrays and dictionaries lie in one another; what lies deeper belongs to those of this depth.
const MOST_DEPTH: usize = 64;

/// The arrays and dictionaries that are open.
#[derive(Drop)]
struct Open {
    starts: [usize; MOST_DEPTH],
    depth: usize,
    deeper: usize,
}

/// Adds an item, for a step.
pub fn push_item(source: &mut Cursor<'_>, items: &mut Vec<Item>, item: Item) -> Result<(), Stop>
    ensures adds { Adds source.old (vec_len items.old) source.new (vec_len items.new) }
{
    source.pay(1)?;
    if items.push(item).is_err() {
        return Err(Stop::OutOfMemory);
    }
    Ok(())
}

/// Returns the item that a word is; an `R` takes the two integers before it away, and makes a reference of them.
fn item_of_word(items: &mut Vec<Item>, word: &[u8], span: Span) -> Item
    ensures { vec_len items.new ≤ vec_len items.old }
{
    match word {
        b"true" => Item::Boolean(true),
        b"false" => Item::Boolean(false),
        b"null" => Item::Null,
        b"R" => {
            let count = items.len();
            if count >= 2 {
                if let (Item::Integer(number), Item::Integer(_)) = (
                    items[count - 2],
                    items[count - 1],
                ) {
                    items.truncate(count - 2);
                    return Item::Reference(number);
                }
            }
            Item::Word(span)
        }
        _ => Item::Word(span),
    }
}

impl Open {
    /// Opens an array or a dictionary.
    fn push(
        &mut self,
        source: &mut Cursor<'_>,
        items: &mut Vec<Item>,
        item: Item,
    ) -> Result<(), Stop>
        ensures adds { Adds source.old (vec_len items.old) source.new (vec_len items.new) }
    {
        match self.starts.get_mut(self.depth) {
            Some(start) => {
                *start = items.len();
                self.depth = self.depth.saturating_add(1);
                push_item(source, items, item)
            }
            None => {
                self.deeper = self.deeper.saturating_add(1);
                Ok(())
            }
        }
    }

    /// Closes the array or dictionary that was opened last.
    fn pop(&mut self, source: &mut Cursor<'_>, items: &mut Vec<Item>) -> Result<(), Stop>
        ensures adds { Adds source.old (vec_len items.old) source.new (vec_len items.new) }
    {
        if self.deeper > 0 {
            self.deeper -= 1;
            return Ok(());
        }
        if self.depth == 0 {
            return push_item(source, items, Item::Null);
        }
        self.depth -= 1;
        push_item(source, items, Item::End)?;
        let after = items.len();
        let start = self.starts.get(self.depth).copied().unwrap_or(0);
        close(items, start, after);
        Ok(())
    }

    /// Closes all that is open; if nothing is, the value is null.
    fn pop_all(&mut self, source: &mut Cursor<'_>, items: &mut Vec<Item>) -> Result<(), Stop>
        ensures adds { Adds source.old (vec_len items.old) source.new (vec_len items.new) }
    {
        self.deeper = 0;
        self.pop(source, items)?;
        'open: for _ in 0..MOST_DEPTH {
            if self.depth == 0 {
                break;
            }
            self.pop(source, items)?;
        }
        Ok(())
    }
}

/// Says where the array or dictionary at an index ends.
pub(crate) fn close(items: &mut Vec<Item>, start: usize, after: usize)
    ensures { vec_len items.new ≡ vec_len items.old }
{
    if let Some(item) = items.get_mut(start) {
        match *item {
            Item::Array(_) => *item = Item::Array(after),
            Item::Dictionary(_) => *item = Item::Dictionary(after),
            _ => {}
        }
    }
}

/// Reads a value at the cursor's place, as if so many bytes came before those of the cursor, for a step for each byte and each item. An
/// `endobj` ends it.
pub fn read_value(source: &mut Cursor<'_>, before: usize, items: &mut Vec<Item>) -> Result<(), Stop>
    ensures adds { Adds source.old (vec_len items.old) source.new (vec_len items.new) }
    ensures moves { OnOk result (source.new.left < source.old.left) }
{
    let mut open = Open {
        starts: [0; MOST_DEPTH],
        depth: 0,
        deeper: 0,
    };
    'value: loop {
        match read_token(source, before)? {
            Token::OpenArray => open.push(source, items, Item::Array(0))?,
            Token::OpenDictionary => open.push(source, items, Item::Dictionary(0))?,
            Token::CloseArray | Token::CloseDictionary => open.pop(source, items)?,
            Token::Integer(number) => push_item(source, items, Item::Integer(number))?,
            Token::Real(whole) => push_item(source, items, Item::Real(whole))?,
            Token::Name(span) => push_item(source, items, Item::Name(span))?,
            Token::Text(span) => push_item(source, items, Item::Text(span))?,
            Token::Word(span) => {
                let word = source
                    .bytes()
                    .get(span.start.saturating_sub(before)..span.end.saturating_sub(before))
                    .unwrap_or(&[]);
                if word == b"endobj".as_slice() {
                    return open.pop_all(source, items);
                }
                let item = item_of_word(items, word, span);
                push_item(source, items, item)?;
            }
        }
        if open.depth == 0 {
            return Ok(());
        }
    }
}

/// Returns the index of the item after the value at an index.
pub fn after_value(items: &[Item], at: usize) -> usize {
    match items.get(at) {
        Some(Item::Array(after) | Item::Dictionary(after)) if *after > at => *after,
        _ => at.saturating_add(1),
    }
}
