//! A sink that lists changes in the caller's memory.

ghost use Rattle.std.specs.Prelude.{◌≡◌, ◌+◌, ◌^◌, ◌<◌, ◌≤◌, true, length};

use crate::change_count::counted;
use hayro_ccitt::{DecodeError, Decoder};

/// Rows in the caller's memory, one after another: of each row the number of its changes, and then the changes. A row that
/// doesn't fit is refused.
#[derive(Drop)]
pub struct ListedRows<'a> {
    lists: &'a mut [u32],
    /// The numbers that the rows occupy so far.
    end: usize,
    columns: u32,
    changes: u64,
    has_refused: bool,
    ghost within: { end ≤ length lists.now },
    ghost full: { has_refused ≡ true → length lists.now ≤ end + columns },
}

impl<'a> ListedRows<'a> {
    ghost use Rattle.std.specs.Prelude.{◌≡◌, false};

    /// Creates a sink without rows.
    pub fn new(lists: &'a mut [u32], columns: u32) -> ListedRows<'a>
        ensures same_reference { result.lists.ghost_name ≡ lists.entry.ghost_name }
        ensures numbers { result.lists.now ≡ lists.old }
        ensures end { result.end ≡ 0 }
        ensures columns { result.columns ≡ columns }
        ensures changes { result.changes ≡ 0 }
        ensures has_refused { result.has_refused ≡ false }
    {
        ListedRows {
            lists,
            end: 0,
            columns,
            changes: 0,
            has_refused: false,
        }
    }

    /// Returns the number of the changes of the rows so far.
    pub fn changes(&self) -> u64
        ensures { result ≡ self.now.changes }
    {
        self.changes
    }

    /// Returns the number of the rows so far: each is a number and its changes.
    pub fn rows(&self) -> usize
        requires { self.now.changes ≤ self.now.end }
        ensures rows { result + self.now.changes ≡ self.now.end }
        ensures few { self.now.end < 2 ^ 64 }
    {
        self.end - self.changes as usize
    }

    /// Returns whether a row was refused.
    pub fn has_refused(&self) -> bool
        ensures { result ≡ self.now.has_refused }
    {
        self.has_refused
    }
}

impl Decoder for ListedRows<'_> {
    ghost use Rattle.std.specs.Prelude.{take, drop, ◌+◌, ◌<◌, length};
    ghost use Rattle.c_rows.specs.Listing.{Listing, with_listed};

    ghost Meaning = { Listing };

    ghost meaning = { λ sink. record {
      end = sink.end;
      numbers = take sink.end sink.lists.now;
      rest = drop sink.end sink.lists.now;
      changes = sink.changes;
      name = sink.lists.ghost_name;
    } };

    ghost step = { λ _ before row. with_listed before row };

    ghost width = { λ sink. sink.columns };

    ghost has_refused = { λ sink. sink.has_refused };

    // A row needs one number more than it has changes.
    ghost refuses = { λ sink row. length sink.lists.now < sink.end + 1 + length row };

    #[inline(always)]
    fn push_row(&mut self, changes: &[u32]) -> hayro_ccitt::Result<()> {
        if self.lists.len() - self.end <= changes.len() {
            self.has_refused = true;
            return Err(DecodeError::Refused);
        }
        let begin = self.end + 1;
        let end = begin + changes.len();
        self.lists[self.end] = changes.len() as u32;
        self.lists[begin..end].copy_from_slice(changes);
        self.end = end;
        self.changes = counted(self.changes, changes);
        Ok(())
    }
}
