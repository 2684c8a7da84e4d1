//! The entries of a directory that are kept.

ghost use Rattle.std.specs.Prelude.{IfErr};
ghost use Rattle.tiff_split.specs.Reads.{Reads, StopsPage};

use crate::error::SplitError;
use crate::ranges::Ranges;
use crate::split::{Split, Table};
use tiff_read::bytes_of_kind;

/// An entry of a directory.
#[derive(Clone, Copy, PartialEq, Eq, PartialOrd, Ord)]
pub(crate) struct Entry {
    pub(crate) tag: u16,
    /// The number of the type of its values.
    pub(crate) kind: u16,
    /// How many values it has; 0 if the file doesn't have them all, or their type isn't known.
    pub(crate) count: u64,
    /// How many bytes they have.
    pub(crate) size: u64,
    /// Where they are in the file.
    pub(crate) offset: u64,
}

/// How many bytes of a directory are read at a time: a whole number of entries, of 12 or of 20 bytes.
const PIECE: usize = 3840;

impl Split {
    /// Reads the entries of a directory that are kept, of a tag that occurs twice the first one.
    pub(crate) fn entries_of<R: Ranges>(
        &mut self,
        source: &R,
        table: &Table,
    ) -> Result<Vec<Entry>, SplitError>
        ensures reads { Reads self.old self.new }
        ensures why { IfErr result StopsPage }
    {
        let mut entries = Vec::new(self.alloc);
        let mut piece = [0u8; PIECE];
        let entry_bytes = self.form.entry_bytes();
        let each = (PIECE / entry_bytes) as u64;
        let pieces = table.entries.div_ceil(each);
        'pieces: for index in 0..pieces {
            let before = index.saturating_mul(each);
            let count = table.entries.saturating_sub(before).min(each);
            let offset = table
                .start
                .saturating_add(before.saturating_mul(entry_bytes as u64));
            let length = (count as usize).saturating_mul(entry_bytes).min(PIECE);
            let paid = self.pay(length as u64)?;
            source.read_range(paid, offset, &mut piece[..length])?;
            self.keep_all(offset, &piece[..length], &mut entries)?;
        }
        Ok(entries)
    }

    /// Adds the entries from a place of the file on to others.
    fn keep_all(&self, place: u64, bytes: &[u8], entries: &mut Vec<Entry>) -> Result<(), SplitError>
        ensures { IfErr result StopsPage }
    {
        let mut place = place;
        for entry in bytes.chunks_exact(self.form.entry_bytes()) {
            self.keep(place, entry, entries)?;
            place = place.saturating_add(entry.len() as u64);
        }
        Ok(())
    }

    /// Adds the entry at a place of the file to others, if its tag is kept and isn't among them.
    fn keep(&self, place: u64, bytes: &[u8], entries: &mut Vec<Entry>) -> Result<(), SplitError>
        ensures { IfErr result StopsPage }
    {
        let Some(entry) = self.entry_at(place, bytes) else {
            return Ok(());
        };
        if !is_kept(entry.tag) || entries.iter().any(|it| it.tag == entry.tag) {
            return Ok(());
        }
        if entries.push(entry).is_err() {
            return Err(SplitError::OutOfMemory);
        }
        Ok(())
    }

    /// Returns the entry of these bytes at a place of the file. It has no values if the file doesn't have them all, or if their type isn't
    /// known.
    pub(crate) fn entry_at(&self, place: u64, bytes: &[u8]) -> Option<Entry> {
        let offset_bytes = self.form.offset_bytes();
        let [a, b, c, d, rest @ ..] = bytes else {
            return None;
        };
        if rest.len() != 2 * offset_bytes {
            return None;
        }
        let kind = self.form.short(*c, *d);
        let (count, word) = rest.split_at(offset_bytes);
        let count = self.form.number(count);
        let size = count.saturating_mul(bytes_of_kind(kind));
        let offset = if size <= offset_bytes as u64 {
            place.saturating_add(4 + offset_bytes as u64)
        } else {
            self.form.number(word)
        };
        let is_whole = bytes_of_kind(kind) > 0 && offset.saturating_add(size) <= self.size;
        Some(Entry {
            tag: self.form.short(*a, *b),
            kind,
            count: if is_whole { count } else { 0 },
            size: if is_whole { size } else { 0 },
            offset,
        })
    }
}

/// Returns whether the values of a tag are kept, as [`tiff_read::Directory::find`] says.
fn is_kept(tag: u16) -> bool {
    matches!(tag, 254..=328 | 33432)
}
