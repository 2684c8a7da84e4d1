//! A sink that packs rows into the caller's memory.

ghost use Rattle.std.specs.Prelude.{◌≡◌, ◌+◌, ◌/◌, ◌<◌, ◌≤◌, false, true, length, map, not, replicate};
ghost use Rattle.hayro_ccitt.specs.BitOrder.TheVariants.{HighestFirst};
ghost use Rattle.hayro_ccitt.specs.Bits.{bits_of, bits_of_byte};
ghost use Rattle.hayro_ccitt.specs.Rows.{AreChanges, pixels};
ghost use Rattle.fax_encode.specs.Painting.{FitsRow};
ghost use Rattle.c_rows.specs.Packing.{packed_row, packing_up_to, spaced, white_byte};

use crate::change_count::counted;
use fax_encode::{
    fill_all, fill_apart, fill_bytes, most_cleared_first, paint_cleared, paint_over, paint_row,
};
use hayro_ccitt::{DecodeError, Decoder};

/// A white row of fewer bytes is written at once.
const LEAST_WAITING: usize = 16;

/// A white row of more bytes is written at once: its bytes are on their way to the cache while the next row is read.
const MOST_WAITING: usize = 1024;

/// The most bytes that are cleared by one call.
const MOST_TOGETHER: usize = 2047;

/// Where packed rows begin, and what their bits say.
#[derive(Copy, Clone)]
pub struct Layout {
    /// The bytes from one row's start to the next one's.
    pub stride: u32,
    /// Whether 0 stands for black, and 1 for white.
    pub black_is_0: bool,
}

/// Returns the same layout, but rows without columns are a byte apart.
pub fn spaced(layout: Layout) -> Layout
    ensures { result ≡ spaced layout }
{
    Layout {
        stride: layout.stride.max(1),
        black_is_0: layout.black_is_0,
    }
}

/// Returns a byte with all bits inverted.
#[inline(always)]
fn inverted(byte: u8) -> u8
    ensures { bits_of_byte HighestFirst result ≡ map not (bits_of_byte HighestFirst byte) }
{
    255 - byte
}

/// Inverts all bits.
#[inline(never)]
fn invert(bytes: &mut [u8])
    ensures { bits_of bytes.new ≡ map not (bits_of bytes.old) }
{
    let mut index = 0;
    while index < bytes.len() {
        bytes[index] = inverted(bytes[index]);
        index += 1;
    }
}

/// Returns the byte of eight white pixels.
#[inline(always)]
fn white_byte(black_is_0: bool) -> u8
    ensures { result ≡ white_byte black_is_0 }
{
    if black_is_0 { 255 } else { 0 }
}

/// Packs a row with 0 for black: with 1, and then all bits are inverted.
#[inline(always)]
fn pack_inverted(row: &mut [u8], columns: u32, changes: &[u32])
    requires fits { FitsRow columns changes.now row.old }
    ensures packed { bits_of row.new ≡ packed_row true (pixels columns changes.now) }
{
    paint_row(row, columns, changes);
    invert(row);
}

/// Packs a row with 0 for black.
#[inline(never)]
fn pack_black_as_0(row: &mut [u8], columns: u32, changes: &[u32])
    requires fits { FitsRow columns changes.now row.old }
    ensures packed { bits_of row.new ≡ packed_row true (pixels columns changes.now) }
{
    if changes.is_empty() {
        fill_apart(row, white_byte(true));
    } else {
        pack_inverted(row, columns, changes);
    }
}

/// Returns the byte before which a white row of so many bytes begins that need not be written when it comes: it fits, and no bytes
/// are between it and the next one. It is 0 if there is none, or a row is so short or so long that it is written at once.
#[inline(always)]
fn last_waiting(bitmap: &[u8], bytes: usize, layout: Layout) -> usize
    ensures together { 0 < result → bytes ≡ layout.stride }
    ensures ready { 0 < result → result + bytes ≤ length bitmap.now + 1 }
{
    if bytes != layout.stride as usize || bytes < LEAST_WAITING || bytes > MOST_WAITING {
        return 0;
    }
    if bitmap.len() < bytes {
        return 0;
    }
    bitmap.len() - bytes + 1
}

/// Packs a row: its pixels from the left, in each byte from the highest bit on, and white ones up to the end of the last byte.
#[inline(always)]
pub fn pack_row(row: &mut [u8], columns: u32, changes: &[u32], black_is_0: bool)
    requires fits { FitsRow columns changes.now row.old }
    ensures packed { bits_of row.new ≡ packed_row black_is_0 (pixels columns changes.now) }
{
    if black_is_0 {
        pack_black_as_0(row, columns, changes);
    } else {
        paint_row(row, columns, changes);
    }
}

/// Packs a row that isn't best cleared first.
#[inline(always)]
fn pack_uncleared(row: &mut [u8], columns: u32, changes: &[u32], black_is_0: bool)
    requires fits { FitsRow columns changes.now row.old }
    ensures packed { bits_of row.new ≡ packed_row black_is_0 (pixels columns changes.now) }
{
    if black_is_0 {
        pack_black_as_0(row, columns, changes);
    } else {
        paint_over(row, columns, changes);
    }
}

/// Returns the most changes of a row of so many bytes that is cleared first. With 0 for black none is.
#[inline(always)]
fn most_cleared(bytes: usize, black_is_0: bool) -> usize
    ensures long { 0 < result → 8 ≤ bytes }
    ensures plain { 0 < result → black_is_0 ≡ false }
{
    if black_is_0 {
        0
    } else {
        most_cleared_first(bytes)
    }
}

/// Rows as a bitmap in the caller's memory, from the top, as [`pack_row`] packs them. The bytes between them keep their values.
/// A row that doesn't fit is refused.
///
/// White rows that follow one another without bytes between them are written together, at the latest before the next row that
/// isn't white. The last ones are written by [`PackedRows::write_white`].
#[derive(Drop)]
pub struct PackedRows<'a> {
    bitmap: &'a mut [u8],
    layout: Layout,
    /// The byte at which the next row begins.
    start: usize,
    /// The byte up to which the rows are written. Those after it are white.
    written: usize,
    /// A white row that begins before this byte isn't written when it comes.
    waits_until: usize,
    columns: u32,
    /// The bytes of a row.
    bytes: usize,
    /// A row of changes, but no more than these, is cleared first.
    few: usize,
    changes: u64,
    has_refused: bool,
    ghost reaches: { (columns + 7) / 8 ≤ layout.stride },
    ghost within: { start + (columns + 7) / 8 ≤ length bitmap.now + layout.stride },
    ghost whole: { bytes ≡ (columns + 7) / 8 },
    ghost in_order: { written ≤ start },
    ghost inside: { written < start → start ≤ length bitmap.now },
    ghost together: { 0 < waits_until → (columns + 7) / 8 ≡ layout.stride },
    ghost ready: { 0 < waits_until → waits_until + (columns + 7) / 8 ≤ length bitmap.now + 1 },
    ghost long: { 0 < few → 8 ≤ (columns + 7) / 8 },
    ghost plain: { 0 < few → layout.black_is_0 ≡ false },
    ghost full: { has_refused ≡ true → length bitmap.now < start + (columns + 7) / 8 },
}

impl<'a> PackedRows<'a> {
    ghost use Rattle.std.specs.Prelude.{◌≡◌, ◌<◌, ◌≤◌, ◌+◌, ◌-◌, ◌/◌, All, IsOkUnless, OnErr, OnOk, [], false, length, true};
    ghost use Rattle.hayro_ccitt.specs.Rows.{AreChanges};
    ghost use Rattle.c_rows.specs.Packing.{HasNoRows, HasSameShape, counted, packing_up_to, with_packed};

    /// Creates a sink without rows.
    pub fn new(bitmap: &'a mut [u8], columns: u32, layout: Layout) -> PackedRows<'a>
        requires { (columns + 7) / 8 ≤ layout.stride }
        ensures same_reference { result.bitmap.ghost_name ≡ bitmap.entry.ghost_name }
        ensures bytes { result.bitmap.now ≡ bitmap.old }
        ensures are_bytes { All (λ byte. byte < 256) bitmap.old }
        ensures layout { result.layout ≡ layout }
        ensures starts { HasNoRows result.start result.written result.changes }
        ensures columns { result.columns ≡ columns }
        ensures has_refused { result.has_refused ≡ false }
    {
        let bytes = (columns as usize).div_ceil(8);
        let waits_until = last_waiting(bitmap, bytes, layout);
        PackedRows {
            bitmap,
            layout,
            start: 0,
            written: 0,
            waits_until,
            columns,
            bytes,
            few: most_cleared(bytes, layout.black_is_0),
            changes: 0,
            has_refused: false,
        }
    }

    /// Returns the number of the changes of the rows so far.
    pub fn changes(&self) -> u64
        ensures { result ≡ self.now.changes }
    {
        self.changes
    }

    /// Returns the number of the rows so far.
    pub fn rows(&self) -> usize
        requires { 0 < self.now.layout.stride }
        ensures { result ≡ self.now.start / self.now.layout.stride }
    {
        self.start / self.layout.stride as usize
    }

    /// Writes the white rows that aren't written.
    #[inline(never)]
    fn fill_white(&mut self)
        requires { self.old.start ≤ length self.old.bitmap.now }
        ensures meaning { packing_up_to self.new.layout self.new.start self.new.written self.new.bitmap.now self.new.changes
            self.new.bitmap.ghost_name ≡ packing_up_to self.old.layout self.old.start self.old.written self.old.bitmap.now
            self.old.changes self.old.bitmap.ghost_name }
        ensures written { self.new.written ≡ self.new.start }
        ensures shape { HasSameShape self.old.layout self.new.layout self.old.columns self.new.columns }
        ensures start { self.new.start ≡ self.old.start }
        ensures size { length self.new.bitmap.now ≡ length self.old.bitmap.now }
        ensures changes { self.new.changes ≡ self.old.changes }
        ensures has_refused { self.new.has_refused ≡ self.old.has_refused }
    {
        let from = self.written;
        self.written = self.start;
        fill_all(
            &mut self.bitmap[from..self.start],
            white_byte(self.layout.black_is_0),
        );
    }

    /// Writes the white rows that aren't written. All rows are then in memory.
    #[inline(always)]
    pub fn write_white(&mut self)
        ensures meaning { packing_up_to self.new.layout self.new.start self.new.written self.new.bitmap.now self.new.changes
            self.new.bitmap.ghost_name ≡ packing_up_to self.old.layout self.old.start self.old.written self.old.bitmap.now
            self.old.changes self.old.bitmap.ghost_name }
        ensures written { self.new.written ≡ self.new.start }
        ensures shape { HasSameShape self.old.layout self.new.layout self.old.columns self.new.columns }
        ensures start { self.new.start ≡ self.old.start }
        ensures size { length self.new.bitmap.now ≡ length self.old.bitmap.now }
        ensures changes { self.new.changes ≡ self.old.changes }
        ensures has_refused { self.new.has_refused ≡ self.old.has_refused }
    {
        if self.written < self.start {
            self.fill_white();
        }
    }

    /// Goes on after a row that is in memory, as all before it.
    #[inline(always)]
    fn go_on(&mut self, changes: &[u32])
        requires room { self.old.start + (self.old.columns + 7) / 8 ≤ length self.old.bitmap.now }
        ensures start { self.new.start ≡ self.old.start + self.old.layout.stride }
        ensures written { self.new.written ≡ self.new.start }
        ensures changes { self.new.changes ≡ counted self.old.changes (length changes.now) }
        ensures shape { HasSameShape self.old.layout self.new.layout self.old.columns self.new.columns }
        ensures memory { self.new.bitmap.now ≡ self.old.bitmap.now }
        ensures same_reference { self.new.bitmap.ghost_name ≡ self.old.bitmap.ghost_name }
        ensures has_refused { self.new.has_refused ≡ self.old.has_refused }
    {
        self.start += self.layout.stride as usize;
        self.written = self.start;
        self.changes = counted(self.changes, changes);
    }

    /// Packs a row for which there is room, and that isn't cleared first, after the white rows that aren't written.
    #[inline(never)]
    fn pack_next(&mut self, changes: &[u32])
        requires changes { AreChanges self.old.columns changes.now }
        requires room { self.old.start + (self.old.columns + 7) / 8 ≤ length self.old.bitmap.now }
        ensures meaning { packing_up_to self.new.layout self.new.start self.new.written self.new.bitmap.now self.new.changes
            self.new.bitmap.ghost_name ≡ with_packed self.old.columns (packing_up_to self.old.layout self.old.start
            self.old.written self.old.bitmap.now self.old.changes self.old.bitmap.ghost_name) changes.now }
        ensures columns { self.new.columns ≡ self.old.columns }
        ensures has_refused { self.new.has_refused ≡ self.old.has_refused }
    {
        self.write_white();
        let end = self.start + self.bytes;
        pack_uncleared(
            &mut self.bitmap[self.start..end],
            self.columns,
            changes,
            self.layout.black_is_0,
        );
        self.go_on(changes);
    }

    /// Writes the white rows that aren't written if they are too many bytes to be cleared with the next row.
    #[inline(always)]
    fn fill_many(&mut self)
        requires { self.old.start ≤ length self.old.bitmap.now }
        ensures meaning { packing_up_to self.new.layout self.new.start self.new.written self.new.bitmap.now self.new.changes
            self.new.bitmap.ghost_name ≡ packing_up_to self.old.layout self.old.start self.old.written self.old.bitmap.now
            self.old.changes self.old.bitmap.ghost_name }
        ensures shape { HasSameShape self.old.layout self.new.layout self.old.columns self.new.columns }
        ensures start { self.new.start ≡ self.old.start }
        ensures size { length self.new.bitmap.now ≡ length self.old.bitmap.now }
        ensures has_refused { self.new.has_refused ≡ self.old.has_refused }
    {
        if self.start + self.bytes - self.written > MOST_TOGETHER {
            self.fill_white();
        }
    }

    /// Clears the white rows that aren't written, and the next row with them, and paints that by its black runs.
    #[inline(never)]
    fn paint_next(&mut self, changes: &[u32])
        requires changes { AreChanges self.old.columns changes.now }
        requires room { self.old.start + (self.old.columns + 7) / 8 ≤ length self.old.bitmap.now }
        requires some { 0 < length changes.now }
        requires few { length changes.now ≤ self.old.few }
        ensures meaning { packing_up_to self.new.layout self.new.start self.new.written self.new.bitmap.now self.new.changes
            self.new.bitmap.ghost_name ≡ with_packed self.old.columns (packing_up_to self.old.layout self.old.start
            self.old.written self.old.bitmap.now self.old.changes self.old.bitmap.ghost_name) changes.now }
        ensures columns { self.new.columns ≡ self.old.columns }
        ensures has_refused { self.new.has_refused ≡ self.old.has_refused }
    {
        self.fill_many();
        let end = self.start + self.bytes;
        fill_bytes(&mut self.bitmap[self.written..end], 0);
        paint_cleared(&mut self.bitmap[self.start..end], self.columns, changes);
        self.go_on(changes);
    }

    /// Fills a white row for which there is room, after the white rows that aren't written.
    #[inline(never)]
    fn fill_next(&mut self)
        requires room { self.old.start + (self.old.columns + 7) / 8 ≤ length self.old.bitmap.now }
        ensures meaning { packing_up_to self.new.layout self.new.start self.new.written self.new.bitmap.now self.new.changes
            self.new.bitmap.ghost_name ≡ with_packed self.old.columns (packing_up_to self.old.layout self.old.start
            self.old.written self.old.bitmap.now self.old.changes self.old.bitmap.ghost_name) [] }
        ensures columns { self.new.columns ≡ self.old.columns }
        ensures has_refused { self.new.has_refused ≡ self.old.has_refused }
    {
        self.write_white();
        let end = self.start + self.bytes;
        let white = white_byte(self.layout.black_is_0);
        fill_bytes(&mut self.bitmap[self.start..end], white);
        self.go_on(&[]);
    }

    /// Returns whether a row was refused.
    pub fn has_refused(&self) -> bool
        ensures { result ≡ self.now.has_refused }
    {
        self.has_refused
    }
}

impl Decoder for PackedRows<'_> {
    ghost use Rattle.c_rows.specs.Packing.{Packing, packing_up_to, with_packed};

    ghost Meaning = { Packing };

    ghost meaning = { λ sink. packing_up_to sink.layout sink.start sink.written sink.bitmap.now sink.changes
        sink.bitmap.ghost_name };

    ghost step = { with_packed };

    ghost width = { λ sink. sink.columns };

    ghost has_refused = { λ sink. sink.has_refused };

    #[inline(always)]
    fn push_row(&mut self, changes: &[u32]) -> hayro_ccitt::Result<()> {
        if changes.is_empty() && self.start < self.waits_until {
            self.start += self.bytes;
            self.changes = counted(self.changes, changes);
            return Ok(());
        }
        if self.bitmap.len() < self.start.saturating_add(self.bytes) {
            self.has_refused = true;
            return Err(DecodeError::Refused);
        }
        if changes.is_empty() {
            self.fill_next();
        } else if changes.len() <= self.few {
            self.paint_next(changes);
        } else {
            self.pack_next(changes);
        }
        Ok(())
    }
}
