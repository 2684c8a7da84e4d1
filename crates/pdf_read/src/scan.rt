//! The objects are found by reading the file from its beginning, as a damaged file is repaired, rather than by its tables.

ghost use Rattle.std.specs.Prelude.{◌≡◌, ◌+◌, ◌<◌, ◌≤◌, length, vec_len, IfOk, OnOk, OnErr};
ghost use Rattle.pdf_read.specs.Payments.{Held, Spends};

use crate::pdf::{Key, Pdf, number_or};
use paid_cursor::Stop;
use pdf_values::{
    Item, Span, Token, after_value, is_regular, pass_regular, pass_space, read_token, read_value,
};

impl<'a> Pdf<'a> {
    /// Reads the objects of the file that aren't in streams, and passes over the streams.
    pub(crate) fn scan(&mut self) -> Result<(), Stop>
        ensures { Spends self.old self.new }
    {
        'file: loop {
            match self.source.peek() {
                None => return Ok(()),
                Some(b'0'..=b'9') => self.read_object()?,
                Some(b't') if self.stands(b"trailer") => self.read_trailer()?,
                Some(byte) => {
                    self.source.pass(1)?;
                    if is_regular(byte) {
                        pass_regular(&mut self.source)?;
                    }
                }
            }
        }
    }

    /// Returns whether a word stands at the place.
    fn stands(&self, word: &[u8]) -> bool {
        self.source.rest().starts_with(word)
    }

    /// Passes a byte, if it is that one.
    fn pass_byte(&mut self, byte: u8) -> Result<(), Stop>
        ensures { Spends self.old self.new }
    {
        if self.source.peek() == Some(byte) {
            self.source.pass(1)?;
        }
        Ok(())
    }

    /// Reads what begins at a digit: an object, or else a number. An object that doesn't end is left out.
    fn read_object(&mut self) -> Result<(), Stop>
        ensures spends { Spends self.old self.new }
        ensures moves { OnOk result (self.new.left < self.old.left) }
    {
        let Some(number) = self.read_head()? else {
            return Ok(());
        };
        let after_head = self.source.place();
        let start = self.items.len();
        match self.read_body(number) {
            Err(Stop::End) => {
                self.items.truncate(start);
                self.source.seek(after_head)
            }
            done => done,
        }
    }

    /// Reads `N G obj`, and returns N. What begins otherwise is passed up to its second number at most.
    fn read_head(&mut self) -> Result<Option<i64>, Stop>
        ensures spends { Spends self.old self.new }
        ensures moves { OnOk result (self.new.left < self.old.left) }
    {
        let Token::Integer(number) = read_token(&mut self.source, 0)? else {
            return Ok(None);
        };
        pass_space(&mut self.source)?;
        let second = self.source.place();
        let Some(b'0'..=b'9') = self.source.peek() else {
            return Ok(None);
        };
        pass_regular(&mut self.source)?;
        pass_space(&mut self.source)?;
        if !self.stands(b"obj") {
            self.source.seek(second)?;
            return Ok(None);
        }
        self.source.pass(3)?;
        Ok(Some(number))
    }

    /// Reads the value of an object, and notes where its data lies.
    fn read_body(&mut self, number: i64) -> Result<(), Stop>
        ensures { Spends self.old self.new }
    {
        self.push(object_mark(number))?;
        let value = self.items.len();
        read_value(&mut self.source, 0, &mut self.items)?;
        pass_space(&mut self.source)?;
        if self.stands(b"stream") {
            self.source.pass(6)?;
            self.pass_byte(b'\r')?;
            self.pass_byte(b'\n')?;
            let start = self.source.place();
            let end = self.pass_data(value, start)?;
            self.push(Item::Stream(Span { start, end }))?;
        }
        let order = self.objects.len();
        self.push_object(number, order, value)
    }

    /// Adds an object, for a step. Numbers from 2 ^ 32 on are left out.
    pub(crate) fn push_object(
        &mut self,
        number: i64,
        order: usize,
        value: usize,
    ) -> Result<(), Stop>
        ensures { Spends self.old self.new }
    {
        let Ok(number) = u32::try_from(number) else {
            return Ok(());
        };
        self.source.pay(1)?;
        if self.objects.push((number, order, value)).is_err() {
            return Err(Stop::OutOfMemory);
        }
        Ok(())
    }

    /// Passes the data of a stream, and returns where it ends: as its dictionary says, if `endstream` stands there, else before the next one.
    fn pass_data(&mut self, dictionary: usize, start: usize) -> Result<usize, Stop>
        ensures { Spends self.old self.new }
    {
        if let Some(end) = self.said_end(dictionary, start)? {
            return Ok(end);
        }
        self.source.seek(start)?;
        'search: loop {
            match self.source.peek() {
                None => break,
                Some(b'e') if self.stands(b"endstream") => break,
                Some(_) => self.source.pass(1)?,
            }
        }
        let data = self
            .source
            .bytes()
            .get(start..self.source.place())
            .unwrap_or(&[]);
        let data = data.strip_suffix(b"\n").unwrap_or(data);
        let data = data.strip_suffix(b"\r").unwrap_or(data);
        Ok(start.saturating_add(data.len()))
    }

    /// Moves to where a dictionary says that its data ends, and returns that; `None` if no `endstream` stands there.
    fn said_end(&mut self, dictionary: usize, start: usize) -> Result<Option<usize>, Stop>
        ensures { Spends self.old self.new }
    {
        let length = self.key(Some(dictionary), b"Length")?;
        let Some(length) = self
            .number(length)
            .and_then(|length| usize::try_from(length).ok())
        else {
            return Ok(None);
        };
        let end = start.saturating_add(length);
        self.source.seek(end)?;
        pass_space(&mut self.source)?;
        Ok(if self.stands(b"endstream") {
            Some(end)
        } else {
            None
        })
    }

    /// Returns the data of the stream whose dictionary is at an index, as the file has it.
    pub(crate) fn data(&mut self, dictionary: usize) -> Result<Option<Span>, Stop>
        ensures { Spends self.old self.new }
    {
        let after = after_value(self.items.as_slice(), dictionary);
        let (Some(Item::Dictionary(_)), Some(Item::Stream(data))) = (
            self.item(Some(dictionary)),
            self.item(Some(after)),
        ) else {
            return Ok(None);
        };
        let end = self.said_end(dictionary, data.start)?;
        Ok(Some(Span {
            start: data.start,
            end: end.unwrap_or(data.end),
        }))
    }

    /// Reads a trailer.
    fn read_trailer(&mut self) -> Result<(), Stop>
        ensures spends { Spends self.old self.new }
        ensures moves { OnOk result (self.new.left < self.old.left) }
    {
        self.source.pass(7)?;
        let after_word = self.source.place();
        let start = self.items.len();
        match read_value(&mut self.source, 0, &mut self.items) {
            Err(Stop::End) => {
                self.items.truncate(start);
                self.source.seek(after_word)
            }
            Err(stop) => Err(stop),
            Ok(()) => self.note_trailer(start),
        }
    }

    /// Notes what a trailer says, or the dictionary of a cross-reference stream: where the root is, and whether the file is encrypted.
    pub(crate) fn note_trailer(&mut self, trailer: usize) -> Result<(), Stop>
        ensures { Spends self.old self.new }
    {
        if self.find(Some(trailer), Key::Known(b"Encrypt"))?.is_some() {
            self.is_encrypted = true;
        }
        let root = self.find(Some(trailer), Key::Known(b"Root"))?;
        self.root = root.or(self.root);
        Ok(())
    }
}

/// Returns the item that begins an object.
pub(crate) fn object_mark(number: i64) -> Item {
    Item::Object(number_or(Some(number), 0), 0)
}
