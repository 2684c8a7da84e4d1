//! The directories of a file that is read by ranges.

ghost use Rattle.std.specs.Prelude.{◌≡◌, ◌+◌, ◌*◌, ◌^◌, ◌-◌, ◌<◌, ◌≤◌, ◌↔◌, ◌++◌, min, length, Err, IfOk, IfErr, IfSome};
ghost use Rattle.std.specs.Prelude.{IsNone, OnErr, OnOk, IsOkUnless};
ghost use Rattle.tiff_split.specs.Reads.{Costs, IsFoundIn, IsMarked, Opens, OpensNot, Passes, Reads, Reading, StopsAdding};
ghost use Rattle.tiff_split.specs.Reads.{StopsAtMark, StopsBy, StopsReading, cost_of_number, is_among};

use crate::allowance::{Allowance, Paid};
use crate::error::SplitError;
use crate::ranges::Ranges;
use std::alloc::Global;
use std::marker::Model;
use tiff_read::Form;

/// The way through the directories of a file that is read by ranges, and how many of its bytes may still be read.
#[derive(Drop)]
pub struct Split {
    pub(crate) alloc: Global,
    pub(crate) form: Form,
    /// How many bytes the file has.
    pub(crate) size: u64,
    /// Where the next directory is; 0 after the last one.
    next: u64,
    /// Where directories were found.
    seen: Vec<u64>,
    /// The last place of those.
    last: u64,
    left: Allowance,
}

impl Model for Split {
    ghost use Rattle.tiff_split.specs.Reads.{Reading};

    ghost Value = { Reading };

    ghost view = { λ s. record {
      form = s.form;
      size = s.size;
      next = s.next;
      seen = s.seen.items;
      last = s.last;
      left = s.left;
    } };
}

/// Where the entries of a directory are.
#[derive(Clone, Copy)]
pub struct Table {
    /// How many bytes of the file come before them.
    pub(crate) start: u64,
    /// How many of them the file has.
    pub(crate) entries: u64,
}

/// How many offsets may be compared in place of a byte that is read.
const COMPARED_FOR_ONE: u64 = 16;

impl Split {
    /// Begins with a file of so many bytes.
    ///
    /// # Errors
    ///
    /// `Outside` if it doesn't begin as a TIFF file does, or ends within its header; `Unread`.
    pub fn open<R: Ranges>(alloc: Global, source: &R, size: u64) -> Result<Split, SplitError>
        ensures allowance { IfOk result (λ split. (split.size ≡ size) × (split.left ≤ 2 ^ 24 + 16 * size)) }
        ensures paid { IfOk result (Opens size) }
        ensures why { IfErr result OpensNot }
        ensures short { size < 8 → result ≡ Err SplitError.Outside }
    {
        let mut head = [0u8; 4];
        if size < 8 {
            return Err(SplitError::Outside);
        }
        let mut left = Allowance::of_size(size);
        let Some(paid) = left.pay(4) else {
            return Err(SplitError::Outside);
        };
        source.read_range(paid, 0, &mut head)?;
        let Some(form) = Form::of_file(&head) else {
            return Err(SplitError::Outside);
        };
        let mut split = Split {
            alloc,
            form,
            size,
            next: 0,
            seen: Vec::new(alloc),
            last: 0,
            left,
        };
        let offset_bytes = form.offset_bytes();
        match split.number_at(source, offset_bytes as u64, offset_bytes)? {
            Some(next) => {
                split.next = next;
                Ok(split)
            }
            None => Err(SplitError::Outside),
        }
    }

    /// Finds the next directory; `None` after the last one. Where the file ends within a directory, that is the last one, of the
    /// entries that are whole.
    ///
    /// # Errors
    ///
    /// `Outside` or `Loop`, after which no directory follows; `Spent`, `OutOfMemory` and `Unread`.
    pub fn next_table<R: Ranges>(&mut self, source: &R) -> Result<Option<Table>, SplitError>
        ensures end { IfOk result (λ found. IsNone found ↔ (self.old.next ≡ 0)) }
        ensures found { IfOk result (λ found. IfSome found (IsFoundIn self.old)) }
        ensures passed { Passes self.old self.new }
        ensures why { IfErr result (StopsBy self.old) }
        ensures last { OnErr result (self.new.next ≡ 0) }
    {
        let at = self.next;
        if at == 0 {
            return Ok(None);
        }
        self.next = 0;
        self.mark(at)?;
        let count_bytes = self.form.count_bytes();
        let entry_bytes = self.form.entry_bytes() as u64;
        let start = at.saturating_add(count_bytes as u64);
        let room = self.size.saturating_sub(start) / entry_bytes;
        let said = self.number_at(source, at, count_bytes)?;
        let entries = said.unwrap_or(0).min(room);
        if said == Some(entries) {
            let end = start.saturating_add(entries.saturating_mul(entry_bytes));
            let next = self.number_at(source, end, self.form.offset_bytes())?;
            self.next = next.unwrap_or(0);
        }
        Ok(Some(Table { start, entries }))
    }

    /// Records that a directory is at an offset.
    fn mark(&mut self, at: u64) -> Result<(), SplitError>
        ensures marked { OnOk result (IsMarked at self.old self.new) }
        ensures reads { Reads self.old self.new }
        ensures why { IfErr result (StopsAtMark at self.old) }
    {
        if at >= self.size {
            return Err(SplitError::Outside);
        }
        if at <= self.last {
            let compared = self.seen.len() as u64 / COMPARED_FOR_ONE;
            self.pay(compared)?;
            if self.has_seen(at) {
                return Err(SplitError::Loop);
            }
        }
        self.last = self.last.max(at);
        if self.seen.push(at).is_err() {
            return Err(SplitError::OutOfMemory);
        }
        Ok(())
    }

    /// Returns whether a directory was found at an offset.
    fn has_seen(&self, at: u64) -> bool
        ensures { result ≡ is_among at self.now.seen }
    {
        self.seen.as_slice().contains(&at)
    }

    /// Pays for what is read or compared.
    pub(crate) fn pay(&mut self, count: u64) -> Result<Paid, SplitError>
        ensures paid { IfOk result (λ paid. (paid ≡ count) × Costs count self.old self.new) }
        ensures unchanged { OnErr result (self.new ≡ self.old) }
        ensures spent { (result ≡ Err SplitError.Spent) ↔ (self.old.left < count) }
        ensures only_spent { IsOkUnless result SplitError.Spent }
    {
        self.left.pay(count).ok_or(SplitError::Spent)
    }

    /// Reads the number of at most eight bytes at an offset; `None` if the file doesn't have them.
    pub(crate) fn number_at<R: Ranges>(
        &mut self,
        source: &R,
        offset: u64,
        count: usize,
    ) -> Result<Option<u64>, SplitError>
        ensures found { IfOk result (λ found. IsNone found ↔ (self.old.size - offset < min count 8)) }
        ensures paid { OnOk result (Costs (cost_of_number self.old.size offset count) self.old self.new) }
        ensures why { IfErr result (StopsReading (cost_of_number self.old.size offset count) self.old self.new) }
    {
        let mut digits = [0u8; 8];
        let count = count.min(8);
        if self.size.saturating_sub(offset) < count as u64 {
            return Ok(None);
        }
        let paid = self.pay(count as u64)?;
        source.read_range(paid, offset, &mut digits[..count])?;
        Ok(Some(self.form.number(&digits[..count])))
    }

    /// Adds bytes of the file, from an offset on.
    pub(crate) fn append<R: Ranges>(
        &mut self,
        source: &R,
        offset: u64,
        count: u64,
        out: &mut Vec<u8>,
    ) -> Result<(), SplitError>
        ensures paid { OnOk result (Costs count self.old self.new) }
        ensures length { OnOk result (length out.new.items ≡ length out.old.items + count) }
        ensures why { IfErr result (StopsAdding count self.old self.new) }
    {
        let paid = self.pay(count)?;
        let before = out.len();
        let Some(length) = before.checked_add(count as usize) else {
            return Err(SplitError::OutOfMemory);
        };
        out.resize(length, 0)?;
        source.read_range(paid, offset, &mut out[before..])?;
        Ok(())
    }
}
