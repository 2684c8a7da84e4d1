//! A TIFF file, and the way to its next directory.

ghost use Rattle.std.specs.Prelude.{◌≡◌, ◌+◌, ◌-◌, ◌*◌, ◌/◌, ◌^◌, ◌<◌, ◌≤◌, ◌↔◌};
ghost use Rattle.std.specs.Prelude.{ℕ, length, Err, Some, None, IfOk, IfSome, IsNone, OnOk, OnErr, IsOkUnless};
ghost use Rattle.std.specs.Prelude.{true, false, ◌≢◌, IfErr};
ghost use Rattle.tiff_read.specs.Directories.{IsDirectoryAt, IsTableAt, IsNotReadAt, StopsBy, entry_at, first_values, next_after};
ghost use Rattle.tiff_read.specs.Directories.{values_start, whole_values, word_at};
ghost use Rattle.tiff_read.specs.Numbers.{IsFormOf, entry_bytes, is_big_tiff, is_tiff, number_at, offset_bytes};
ghost use Rattle.tiff_read.specs.Texts.{values_of};
ghost use Rattle.tiff_read.specs.Values.{bytes_of_kind};
ghost use Rattle.tiff_read.specs.Payments.{CanOpen, Costs, IsSameFile, Moves, Opens, Reading, entries_of, first_of, room_for};

use crate::directory::{Directory, Values};
use crate::error::TiffError;
use crate::form::Form;
use crate::values::bytes_of_kind;
use paid_cursor::Cursor;
use std::alloc::Global;
use std::marker::Model;

/// A TIFF file, the way to its next directory, and what may still be paid.
#[derive(Drop)]
pub struct Tiff<'a> {
    source: Cursor<'a>,
    form: Form,
    /// Where the next directory is; 0 after the last one.
    next: u64,
    /// A bit for each offset in the file, set where a directory was read.
    seen: Vec<u8>,
}

impl<'a> Model for Tiff<'a> {
    ghost use Rattle.tiff_read.specs.Numbers.{IsFormOf};
    ghost use Rattle.tiff_read.specs.Payments.{Reading};

    ghost Value = { Reading };

    ghost view = { λ t. record { bytes = t.source.bytes; place = t.source.place; left = t.source.left; next = t.next } };

    ghost invariant = { λ t. IsFormOf t.source.bytes t.form };
}

/// Where the entries of a directory are.
#[derive(Drop)]
struct Table {
    start: usize,
    entries: usize,
    is_cut: bool,
    next: u64,
}

/// An entry of a directory.
#[derive(Drop)]
struct Entry {
    tag: u16,
    values: Values,
}

impl<'a> Tiff<'a> {
    /// Opens the file that a cursor's bytes are. It pays for a list with a bit for each byte of the file.
    ///
    /// # Errors
    ///
    /// `NotTiff`, `Outside` if the file ends within its header, `Spent` or `OutOfMemory`.
    pub fn open(alloc: Global, mut source: Cursor<'a>) -> Result<Tiff<'a>, TiffError>
        ensures paid { IfOk result (λ tiff. Opens (room_for (length source.entry.bytes)) source.entry tiff) }
        ensures first { IfOk result (λ tiff. Some tiff.next ≡ first_of source.entry.bytes) }
        ensures not_tiff { (result ≡ Err TiffError.NotTiff) ↔ (is_tiff source.entry.bytes ≡ false) }
        ensures outside { (result ≡ Err TiffError.Outside) ↔ ((is_tiff source.entry.bytes ≡ true) × (first_of source.entry.bytes ≡ None)) }
        ensures spent { (result ≡ Err TiffError.Spent) ↔ (CanOpen source.entry.bytes × (source.entry.left < room_for (length source.entry.bytes))) }
        ensures no_loop { IfErr result (λ error. error ≢ TiffError.Loop) }
    {
        let bytes = source.bytes();
        let Some(form) = Form::of_file(bytes) else {
            return Err(TiffError::NotTiff);
        };
        let Some(next) = number_in(bytes, form, form.offset_bytes() as u64, form.offset_bytes())
        else {
            return Err(TiffError::Outside);
        };
        let room = bytes.len() / 8 + 1;
        source.pay(room)?;
        let mut seen: Vec<u8> = Vec::new(alloc);
        if seen.resize(room, 0).is_err() {
            return Err(TiffError::OutOfMemory);
        }
        Ok(Tiff {
            source,
            form,
            next,
            seen,
        })
    }

    /// Returns how many steps may still be taken.
    pub fn left(&self) -> usize
        ensures { result ≡ self.now.left }
    {
        self.source.left()
    }

    /// Returns the bytes of the file.
    pub fn bytes(&self) -> &'a [u8]
        ensures { result.now ≡ self.now.bytes }
    {
        self.source.bytes()
    }

    /// Pays some steps.
    pub(crate) fn pay(&mut self, count: usize) -> Result<(), TiffError>
        ensures paid { OnOk result (Costs count self.old self.new) }
        ensures unchanged { OnErr result (self.new ≡ self.old) }
        ensures spent { (result ≡ Err TiffError.Spent) ↔ (self.old.left < count) }
        ensures only_spent { IsOkUnless result TiffError.Spent }
    {
        self.source.pay(count)?;
        Ok(())
    }

    /// Reads the next directory, for a step and one for each of its entries; `None` after the last one. Where the file ends within
    /// a directory, that is the last one, of the entries that are whole.
    ///
    /// # Errors
    ///
    /// `Outside` or `Loop`, after which no directory follows; `Spent`.
    pub fn next_directory(&mut self) -> Result<Option<Directory>, TiffError>
        ensures paid { IfOk result (λ found. Moves (1 + entries_of found) self.old self.new) }
        ensures end { IfOk result (λ found. IsNone found ↔ (self.old.next ≡ 0)) }
        ensures found { IfOk result (λ found. IfSome found (IsDirectoryAt self.old.bytes self.old.next)) }
        ensures next { OnOk result (self.new.next ≡ next_after self.old.bytes self.old.next) }
        ensures why { IfErr result (StopsBy self.old) }
        ensures last { IfErr result (λ error. error ≢ TiffError.Spent → self.new.next ≡ 0) }
        ensures least { OnErr result (self.new.left ≤ self.old.left) }
        ensures same { IsSameFile self.old self.new }
    {
        self.pay(1)?;
        let at = self.next;
        if at == 0 {
            return Ok(None);
        }
        self.next = 0;
        self.mark(at)?;
        let table = self.table_at(at);
        self.pay(table.entries)?;
        self.next = table.next;
        Ok(Some(self.directory_of(&table)))
    }

    /// Reads the entries of a directory, unpaid.
    fn directory_of(&self, table: &Table) -> Directory
        ensures entries { result.entries ≡ table.now.entries }
        ensures is_cut { result.is_cut ≡ table.now.is_cut }
        ensures values { (tag : ℕ) → values_of result tag ≡ first_values self.now.bytes table.now.start tag table.now.entries }
    {
        let mut directory = Directory::new(table.entries, table.is_cut);
        'entries: for index in 0..table.entries {
            let place = table
                .start
                .saturating_add(index.saturating_mul(self.form.entry_bytes()));
            if let Some(entry) = self.entry_at(place) {
                directory.set(entry.tag, entry.values);
            }
        }
        directory
    }

    /// Records that a directory is read at an offset.
    fn mark(&mut self, at: u64) -> Result<(), TiffError>
        ensures same { self.new ≡ self.old }
        ensures within { OnOk result (at < length self.old.bytes) }
        ensures why { IfErr result (IsNotReadAt at (length self.old.bytes)) }
    {
        if at >= self.bytes().len() as u64 {
            return Err(TiffError::Outside);
        }
        let bit = 1u8 << (at % 8);
        match self.seen.get_mut((at / 8) as usize) {
            Some(bits) if *bits & bit == 0 => {
                *bits |= bit;
                Ok(())
            }
            _ => Err(TiffError::Loop),
        }
    }

    /// Returns where the entries of the directory at an offset are, and the next directory.
    fn table_at(&self, at: u64) -> Table
        requires { at < length self.now.bytes }
        ensures { IsTableAt self.now.bytes at result }
    {
        let count_bytes = self.form.count_bytes();
        let entry_bytes = self.form.entry_bytes();
        let start = (at as usize).saturating_add(count_bytes);
        let room = self.bytes().len().saturating_sub(start) / entry_bytes;
        match self.number_at(at, count_bytes) {
            Some(entries) if entries <= room as u64 => {
                let end = start.saturating_add((entries as usize).saturating_mul(entry_bytes));
                let next = self.number_at(end as u64, self.form.offset_bytes());
                Table {
                    start,
                    entries: entries as usize,
                    is_cut: next.is_none(),
                    next: next.unwrap_or(0),
                }
            }
            Some(_) => Table {
                start,
                entries: room,
                is_cut: true,
                next: 0,
            },
            None => Table {
                start,
                entries: 0,
                is_cut: true,
                next: 0,
            },
        }
    }

    /// Reads the entry at a place; `None` if the file doesn't have it whole.
    fn entry_at(&self, place: usize) -> Option<Entry>
        ensures entry { result ≡ entry_at self.now.bytes place }
        ensures few { length self.now.bytes < 2 ^ 64 }
    {
        let file = self.bytes();
        if file.len() < self.form.entry_bytes() || place > file.len() - self.form.entry_bytes() {
            return None;
        }
        let kind = self.form.short(file[place + 2], file[place + 3]);
        let count = self.word_at(place + 4);
        Some(Entry {
            tag: self.form.short(file[place], file[place + 1]),
            values: self.values_at(place, kind, count),
        })
    }

    /// Returns so many values of a type, of the entry at a place: where they are; none if the file lacks a part of them.
    fn values_at(&self, place: usize, kind: u16, count: u64) -> Values
        requires { place + entry_bytes (is_big_tiff self.now.bytes) ≤ length self.now.bytes }
        ensures { result ≡ whole_values self.now.bytes kind count (values_start self.now.bytes place (count * bytes_of_kind kind)) }
    {
        let end = self.bytes().len() as u64;
        let offset_bytes = self.form.offset_bytes();
        let size = bytes_of_kind(kind);
        let total = count.saturating_mul(size);
        let offset = if total <= offset_bytes as u64 {
            (place + 4 + offset_bytes) as u64
        } else {
            self.word_at(place + 4 + offset_bytes)
        };
        let is_whole = size > 0 && offset.saturating_add(total) <= end;
        Values {
            kind,
            count: if is_whole { count } else { 0 },
            offset,
        }
    }

    /// Returns the number of the bytes at a place, as many as an offset has.
    fn word_at(&self, place: usize) -> u64
        requires { place + offset_bytes (is_big_tiff self.now.bytes) ≤ length self.now.bytes }
        ensures { result ≡ word_at self.now.bytes place }
    {
        self.form
            .number(&self.bytes()[place..place + self.form.offset_bytes()])
    }

    /// Returns the number of some bytes at an offset; `None` if the file doesn't have them.
    pub(crate) fn number_at(&self, offset: u64, count: usize) -> Option<u64>
        requires { count ≤ 8 }
        ensures number { result ≡ number_at self.now.bytes offset count }
        ensures few { length self.now.bytes < 2 ^ 64 }
    {
        number_in(self.bytes(), self.form, offset, count)
    }
}

/// Returns the number of some bytes at an offset of a file; `None` if it doesn't have them.
fn number_in(file: &[u8], form: Form, offset: u64, count: usize) -> Option<u64>
    requires count { count ≤ 8 }
    requires form { IsFormOf file.now form }
    ensures { result ≡ number_at file.now offset count }
{
    let start = offset as usize;
    let digits = file.get(start..start.checked_add(count)?)?;
    Some(form.number(digits))
}
