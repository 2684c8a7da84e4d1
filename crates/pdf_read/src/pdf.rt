//! A PDF file, and what is kept of it.

ghost use Rattle.std.specs.Prelude.{◌≡◌, ◌+◌, ◌<◌, ◌≤◌, length, vec_len, IfOk, IfSome, OnOk, OnErr, None};
ghost use Rattle.pdf_read.specs.Payments.{Held, Spends};

use crate::image::FaxImage;
use crate::walk::Task;
use paid_cursor::{Cursor, Stop};
use pdf_values::{Item, Span, Texts, after_value, find_key, is_same_name, push_item};
use std::alloc::Global;
use std::marker::Model;

/// A PDF file, what is kept of it, and what may still be paid.
#[derive(Drop)]
pub struct Pdf<'a> {
    pub(crate) source: Cursor<'a>,
    pub(crate) alloc: Global,
    pub(crate) items: Vec<Item>,
    /// Of each object its number, which of the objects in the file it is or lies in, and the index of its value.
    pub(crate) objects: Vec<(u32, usize, usize)>,
    /// How many of them are sorted.
    pub(crate) sorted: usize,
    /// What streams were decoded to.
    pub(crate) decoded: Vec<u8>,
    /// How many of those bytes are needed from now on.
    pub(crate) needed: usize,
    /// What is still to be looked through, the next thing last.
    pub(crate) tasks: Vec<Task>,
    pub(crate) images: Vec<FaxImage>,
    pub(crate) others: usize,
    pub(crate) unread: usize,
    pub(crate) pages: u32,
    /// The number of the page that is looked through, 0 if that is none.
    pub(crate) page: u32,
    pub(crate) root: Option<usize>,
    pub(crate) is_encrypted: bool,
}

/// How many references are followed to a value.
const MOST_REFERENCES: usize = 16;

/// A name that is sought: one that is known here, or one that stands in a text.
#[derive(Clone, Copy)]
pub(crate) enum Key<'k> {
    Known(&'k [u8]),
    At(Span),
}

impl<'a> Model for Pdf<'a> {
    ghost use Rattle.std.specs.Prelude.{◌+◌, vec_len};
    ghost use Rattle.pdf_read.specs.Payments.{Held};

    ghost Value = { Held };

    ghost view = { λ p. record {
      left = p.source.left;
      kept = vec_len p.items + vec_len p.objects + vec_len p.decoded + vec_len p.tasks + vec_len p.images;
      images = p.images.items;
      file = p.source.bytes;
    } };
}

impl<'a> Pdf<'a> {
    /// Returns how many steps may still be taken.
    pub fn left(&self) -> usize
        ensures { result ≡ self.now.left }
    {
        self.source.left()
    }

    /// Returns the fax images, in the order in which pages show them: by their contents, forms and patterns there, and the images that lie
    /// in the contents; after those of a page's contents the ones that the page only names, and at last those that no page names.
    pub fn images(&self) -> &[FaxImage]
        ensures { result.now ≡ self.now.images }
    {
        self.images.as_slice()
    }

    /// Returns the bytes of the file.
    pub fn file(&self) -> &'a [u8]
        ensures { result.now ≡ self.now.file }
    {
        self.source.bytes()
    }

    /// Returns how many images that are no fax images pages show or name.
    pub fn others(&self) -> usize {
        self.others
    }

    /// Returns how many object streams and contents of pages couldn't be decoded.
    pub fn unread(&self) -> usize {
        self.unread
    }

    /// Returns how many pages there are.
    pub fn pages(&self) -> u32 {
        self.pages
    }

    /// Returns the items of all objects.
    pub fn items(&self) -> &[Item] {
        self.items.as_slice()
    }

    /// Returns some bytes of the file, or of what its streams were decoded to; none if they aren't there.
    pub fn bytes(&self, span: Span) -> &[u8] {
        self.texts().bytes(span)
    }

    /// Returns the index of the value of the object of a number, for a step for each time that the objects are halved; of several objects
    /// of that number the last one counts.
    ///
    /// # Errors
    ///
    /// `Spent`.
    pub fn object(&mut self, number: i64) -> Result<Option<usize>, Stop>
        ensures { Spends self.old self.new }
    {
        let Ok(number) = u32::try_from(number) else {
            return Ok(None);
        };
        let mut low = 0usize;
        let mut high = self.sorted;
        'halves: while low < high {
            self.pay(1)?;
            let middle = low + (high - low) / 2;
            if self.is_at_most(middle, number) {
                low = middle + 1;
            } else {
                high = middle;
            }
        }
        let Some(before) = low.checked_sub(1) else {
            return Ok(None);
        };
        match self.objects.get(before) {
            Some(object) if object.0 == number => Ok(Some(object.2)),
            _ => Ok(None),
        }
    }

    /// Returns whether the number of one of the sorted objects is at most that.
    fn is_at_most(&self, index: usize, number: u32) -> bool {
        match self.objects.get(index) {
            Some(object) => object.0 <= number,
            None => false,
        }
    }

    /// Pays some steps.
    fn pay(&mut self, count: usize) -> Result<(), Stop>
        ensures spends { Spends self.old self.new }
        ensures moves { OnOk result (self.new.left + count ≤ self.old.left) }
    {
        self.source.pay(count)
    }

    /// Returns whether an array or a dictionary ends at an index.
    fn is_end(&self, at: usize) -> bool {
        matches!(self.items.get(at), Some(Item::End) | None)
    }

    /// Returns the index of the item after the value at an index.
    fn after(&self, at: usize) -> usize {
        after_value(self.items.as_slice(), at)
    }

    /// Returns the texts that names and strings stand in.
    pub(crate) fn texts(&self) -> Texts<'_> {
        Texts {
            file: self.source.bytes(),
            decoded: self.decoded.as_slice(),
        }
    }

    /// Adds an item, for a step.
    pub(crate) fn push(&mut self, item: Item) -> Result<(), Stop>
        ensures { Spends self.old self.new }
    {
        push_item(&mut self.source, &mut self.items, item)
    }

    /// Returns the item at an index.
    pub(crate) fn item(&self, at: Option<usize>) -> Option<Item> {
        self.items.get(at?).copied()
    }

    /// Returns the index of the value at an index, or of the object that it refers to; `None` if that is null.
    pub(crate) fn follow(&mut self, at: usize) -> Result<Option<usize>, Stop>
        ensures { Spends self.old self.new }
    {
        let mut at = at;
        'references: for _ in 0..MOST_REFERENCES {
            match self.items.get(at).copied() {
                Some(Item::Reference(number)) => match self.object(number)? {
                    Some(value) => at = value,
                    None => return Ok(None),
                },
                Some(Item::Null | Item::End) | None => return Ok(None),
                Some(_) => return Ok(Some(at)),
            }
        }
        Ok(None)
    }

    /// Returns the index of the value of a key in a dictionary, without following a reference.
    pub(crate) fn find(
        &mut self,
        dictionary: Option<usize>,
        key: Key<'_>,
    ) -> Result<Option<usize>, Stop>
        ensures { Spends self.old self.new }
    {
        let Some(dictionary) = dictionary else {
            return Ok(None);
        };
        let texts = Texts {
            file: self.source.bytes(),
            decoded: self.decoded.as_slice(),
        };
        let items = self.items.as_slice();
        match key {
            Key::Known(name) => find_key(&mut self.source, texts, items, dictionary, name),
            Key::At(span) => {
                let name = texts.bytes(span);
                find_key(&mut self.source, texts, items, dictionary, name)
            }
        }
    }

    /// Returns the index of the value of a key in a dictionary; a reference is followed.
    pub(crate) fn key(
        &mut self,
        dictionary: Option<usize>,
        key: &[u8],
    ) -> Result<Option<usize>, Stop>
        ensures { Spends self.old self.new }
    {
        match self.find(dictionary, Key::Known(key))? {
            Some(at) => self.follow(at),
            None => Ok(None),
        }
    }

    /// Returns the value of a name that stands in a text; a reference is followed.
    pub(crate) fn named(
        &mut self,
        dictionary: Option<usize>,
        name: Span,
    ) -> Result<Option<usize>, Stop>
        ensures { Spends self.old self.new }
    {
        match self.find(dictionary, Key::At(name))? {
            Some(at) => self.follow(at),
            None => Ok(None),
        }
    }

    /// Returns the value of a key, or of the short one of an image in a content (ISO 32000-1, table 93).
    pub(crate) fn either(
        &mut self,
        dictionary: Option<usize>,
        key: &[u8],
        short: &[u8],
    ) -> Result<Option<usize>, Stop>
        ensures { Spends self.old self.new }
    {
        match self.key(dictionary, key)? {
            Some(at) => Ok(Some(at)),
            None => self.key(dictionary, short),
        }
    }

    /// Returns the index of an item of an array, for a step for each before it; a reference is followed.
    pub(crate) fn element(
        &mut self,
        array: Option<usize>,
        index: usize,
    ) -> Result<Option<usize>, Stop>
        ensures { Spends self.old self.new }
    {
        let (Some(start), Some(Item::Array(_))) = (array, self.item(array)) else {
            return Ok(None);
        };
        let mut at = start.saturating_add(1);
        'elements: for _ in 0..index {
            self.pay(1)?;
            if self.is_end(at) {
                return Ok(None);
            }
            at = self.after(at);
        }
        self.follow(at)
    }

    /// Returns whether the value at an index is a name.
    pub(crate) fn is_name(&self, at: Option<usize>, name: &[u8]) -> bool {
        match self.item(at) {
            Some(Item::Name(span)) => is_same_name(self.bytes(span), name),
            _ => false,
        }
    }

    /// Returns whether the value of a key is a name.
    pub(crate) fn has_name(
        &mut self,
        dictionary: usize,
        key: &[u8],
        name: &[u8],
    ) -> Result<bool, Stop>
        ensures { Spends self.old self.new }
    {
        let at = self.key(Some(dictionary), key)?;
        Ok(self.is_name(at, name))
    }

    /// Returns the number at an index, its whole part if it has a point.
    pub(crate) fn number(&self, at: Option<usize>) -> Option<i64> {
        match self.item(at) {
            Some(Item::Integer(number) | Item::Real(number)) => Some(number),
            _ => None,
        }
    }

    /// Returns the number that is the value of a key, another one if there is none; 0 for one that isn't from 0 to 2 ^ 32 - 1.
    pub(crate) fn count(
        &mut self,
        dictionary: Option<usize>,
        key: &[u8],
        otherwise: u32,
    ) -> Result<u32, Stop>
        ensures { Spends self.old self.new }
    {
        let at = self.key(dictionary, key)?;
        Ok(number_or(self.number(at), otherwise))
    }

    /// Returns how many items an array has, for a step each; 1 for what is no array.
    pub(crate) fn length(&mut self, array: Option<usize>) -> Result<usize, Stop>
        ensures { Spends self.old self.new }
    {
        let (Some(start), Some(Item::Array(_))) = (array, self.item(array)) else {
            return Ok(1);
        };
        let mut at = start.saturating_add(1);
        let mut length = 0usize;
        'elements: loop {
            if self.is_end(at) {
                return Ok(length);
            }
            self.pay(1)?;
            length = length.saturating_add(1);
            at = self.after(at);
        }
    }
}

/// Returns a number, another one if there is none; 0 for one that isn't from 0 to 2 ^ 32 - 1.
pub(crate) fn number_or(number: Option<i64>, otherwise: u32) -> u32
    ensures default { (number ≡ None) → result ≡ otherwise }
{
    match number {
        Some(number) => u32::try_from(number).unwrap_or(0),
        None => otherwise,
    }
}
