//! The pictures of a PBM file, which are no fax data, but may become some.

ghost use Rattle.std.specs.Prelude.{◌≡◌, ◌+◌, ◌*◌, ◌/◌, ◌<◌, ◌≤◌, length, slice_range, IfOk, OnOk};
ghost use Rattle.paid_cursor.specs.Places.{budget};
ghost use Rattle.fax_pages.specs.Pbm.{IsNextPicture, Passes};

use paid_cursor::{Cursor, Stop};
use std::marker::Model;

/// Why a picture isn't read.
#[derive(Clone, Copy, Debug, PartialEq, Eq)]
pub enum PbmError {
    /// `P4` and white space don't stand there.
    NotPbm,
    /// It has no columns or no rows, or 4,294,967,295 and more.
    Size,
    /// The file ends before it.
    Cut,
    /// The allowance is spent.
    Spent,
}

impl From<Stop> for PbmError {
    /// Returns `Cut` at the end of the bytes, else `Spent`.
    fn from(stop: Stop) -> PbmError {
        match stop {
            Stop::End => PbmError::Cut,
            Stop::Spent | Stop::OutOfMemory => PbmError::Spent,
        }
    }
}

/// A picture: rows of one bit a pixel, 1 for black, the leftmost pixel in the highest bit of a byte, each up to a whole byte.
#[derive(Clone, Copy, Drop)]
pub struct PbmPicture<'a> {
    /// How many columns it has.
    pub columns: u32,
    /// How many rows it has.
    pub rows: u32,
    /// The rows.
    pub bytes: &'a [u8],
}

/// The pictures of a PBM file, one after the other.
#[derive(Drop)]
pub struct PbmPictures<'a> {
    source: Cursor<'a>,
}

impl<'a> Model for PbmPictures<'a> {
    ghost use Rattle.paid_cursor.specs.Places.{Place};

    ghost Value = { Place };

    ghost view = { λ p. p.source };
}

impl<'a> PbmPictures<'a> {
    /// Begins where a cursor is.
    pub fn new(source: Cursor<'a>) -> PbmPictures<'a>
        ensures { result ≡ source.entry }
    {
        PbmPictures { source }
    }

    /// Returns how many steps may still be taken.
    pub fn left(&self) -> usize
        ensures { result ≡ self.now.left }
    {
        self.source.left()
    }

    /// Returns the next picture, for a step for each of its bytes; `None` at the end of the file.
    ///
    /// # Errors
    ///
    /// Those of [`PbmError`]; what follows can't be read then.
    pub fn next_picture(&mut self) -> Result<Option<PbmPicture<'a>>, PbmError>
        ensures picture { IfOk result (IsNextPicture self.old self.new) }
        ensures paid { Passes self.old self.new }
    {
        if self.source.peek().is_none() {
            return Ok(None);
        }
        if !has_head(self.source.rest()) {
            return Err(PbmError::NotPbm);
        }
        self.source.pass(2)?;
        let columns = read_number(&mut self.source)?;
        let rows = read_number(&mut self.source)?;
        // a single white space stands before the rows
        self.source.pass(1)?;
        let bytes = take(
            &mut self.source,
            (columns as usize).div_ceil(8) * rows as usize,
        )?;
        Ok(Some(PbmPicture {
            columns,
            rows,
            bytes,
        }))
    }
}

/// Returns whether bytes begin a picture.
fn has_head(bytes: &[u8]) -> bool {
    bytes.starts_with(b"P4")
        && bytes
            .get(2)
            .is_some_and(|byte| is_space(*byte) || *byte == b'#')
}

/// Returns whether a byte is white space.
fn is_space(byte: u8) -> bool {
    matches!(byte, b' ' | b'\t' | b'\n' | 11 | 12 | b'\r')
}

/// Passes some bytes, and returns them.
fn take<'a>(source: &mut Cursor<'a>, count: usize) -> Result<&'a [u8], Stop>
    ensures bytes { IfOk result (λ bytes. bytes.now ≡ slice_range source.old.bytes source.old.place source.new.place) }
    ensures count { IfOk result (λ bytes. (length bytes.now ≡ count) × (source.new.place ≡ source.old.place + count)) }
    ensures passes { Passes source.old source.new }
{
    let start = source.place();
    source.pass(count)?;
    Ok(&source.bytes()[start..start + count])
}

/// Reads a number of columns or rows, after white space and comments.
fn read_number(source: &mut Cursor<'_>) -> Result<u32, PbmError>
    ensures some { IfOk result (λ number. 0 < number) }
    ensures passes { Passes source.old source.new }
{
    pass_space(source)?;
    let mut number: u32 = 0;
    'digits: loop {
        match source.peek() {
            Some(digit @ b'0'..=b'9') => {
                source.pass(1)?;
                number = number
                    .saturating_mul(10)
                    .saturating_add(u32::from(digit - b'0'));
            }
            _ => break,
        }
    }
    if number == 0 || number == u32::MAX {
        return Err(PbmError::Size);
    }
    Ok(number)
}

/// Passes white space and comments.
fn pass_space(source: &mut Cursor<'_>) -> Result<(), Stop>
    ensures { Passes source.old source.new }
{
    'space: loop {
        match source.peek() {
            Some(b'#') => pass_line(source)?,
            Some(byte) if is_space(byte) => source.pass(1)?,
            _ => return Ok(()),
        }
    }
}

/// Passes the bytes up to the end of a line, at least one.
fn pass_line(source: &mut Cursor<'_>) -> Result<(), Stop>
    ensures passes { Passes source.old source.new }
    ensures moves { OnOk result (source.new.left < source.old.left) }
{
    source.step()?;
    'line: loop {
        match source.peek() {
            None | Some(b'\n' | b'\r') => return Ok(()),
            Some(_) => source.pass(1)?,
        }
    }
}
