//! Encoding row by row.

ghost use Rattle.std.specs.Prelude.{◌≡◌, ◌≢◌, ◌<◌, ◌≤◌, ◌↔◌, ℕ, true, false, length, Err, IfOk, OnOk, OnErr, IsOk, take};
ghost use Rattle.fax_bits.specs.Bits.{bits_in, bits_of};
ghost use Rattle.fax_reading.specs.Rows.{AreChanges, pixels, white_row};
ghost use Rattle.fax_encode.specs.Chosen.{filled_up};
ghost use Rattle.fax_encode.specs.Packed.{bytes_of_row, in_black};
ghost use Rattle.fax_encode.specs.Refusals.{FailsToPush};
ghost use Rattle.fax_encode.specs.RowByRow.{KeepsSettings, no_rows, with_row};
ghost use Rattle.fax_encode.specs.Settings.{names_encoding, needs_row, with_end};

use crate::bit_order::bytes_in_order;
use crate::by_settings::needs_row;
use crate::encoding::{RowBelow, put_end, put_part};
use crate::rows::is_row;
use crate::white_rows::{WhiteLines, put_white_line, white_lines};
use crate::{EncodeError, EncodeSettings};
use fax_bitmap::bitmap_rows::{scan_in_black, zero_bytes};
use fax_coding::shortest_lines::Way;
use fax_words::bit_writer::BitWriter;
use std::alloc::{AllocError, Global};
use std::marker::Model;
use std::mem;

/// An encoder of an image one row at a time. It holds its output and the last row. Its output is that of
/// [`encode`](crate::encode) for all rows.
#[derive(Drop)]
pub struct Encoder {
    writer: BitWriter,
    /// The last row, a white one before the first.
    reference: Vec<u32>,
    /// The current row.
    row: Vec<u32>,
    /// The ways of the current row, for their memory.
    ways: Vec<Way>,
    /// The lines of white rows below white ones, once there was one.
    lines: Option<WhiteLines>,
    alloc: Global,
    settings: EncodeSettings,
    columns: u32,
    /// How many lines may still be two-dimensional.
    left: u32,
    rows: usize,
    wants_memory: bool,
}

impl Model for Encoder {
    ghost use Rattle.std.specs.Prelude.{◌≡◌, ◌≢◌, ◌<◌, true, false, length, IfSome};
    ghost use Rattle.fax_reading.specs.Rows.{AreChanges, pixels};
    ghost use Rattle.fax_encode.specs.RowByRow.{RowsEncoded};
    ghost use Rattle.fax_encode.specs.WhiteRows.{AreWhiteLines};
    ghost use Rattle.fax_encode.specs.Writing.{all_bits};
    ghost use Rattle.fax_encode.specs.Settings.{EndsWhereAligned};

    ghost Value = { RowsEncoded };

    ghost view = { λ e. record {
      settings = e.settings;
      columns = e.columns;
      lines = all_bits e.writer;
      count = e.rows;
      last = pixels e.columns e.reference.items;
      left = e.left;
      wants_memory = e.wants_memory;
    } };

    ghost invariant = { λ e. (AreChanges e.columns e.reference.items)
        × ((e.wants_memory ≡ false → EndsWhereAligned e.settings e.writer) × IfSome e.lines (λ made. AreWhiteLines e.settings e.columns made)) };
}

impl Encoder {
    /// Creates an encoder of rows of `columns` pixels, by settings that name an encoding
    /// ([`names_encoding`](crate::names_encoding)). It allocates nothing.
    ///
    /// # Errors
    ///
    /// `NoColumns` if `columns` is 0.
    pub fn new(
        alloc: Global,
        columns: u32,
        settings: EncodeSettings,
    ) -> std::result::Result<Encoder, EncodeError>
        requires names { names_encoding settings ≡ true }
        ensures no_columns { (result ≡ Err EncodeError.NoColumns) ↔ (columns ≡ 0) }
        ensures made { IfOk result (λ encoder. encoder ≡ no_rows settings columns) }
        ensures succeeds { IsOk result ↔ (0 < columns) }
    {
        if columns == 0 {
            return Err(EncodeError::NoColumns);
        }
        Ok(Encoder {
            writer: BitWriter::new(alloc),
            reference: Vec::new(alloc),
            row: Vec::new(alloc),
            ways: Vec::new(alloc),
            lines: None,
            alloc,
            settings,
            columns,
            left: 0,
            rows: 0,
            wants_memory: false,
        })
    }

    /// Returns the number of rows.
    pub fn rows(&self) -> usize
        ensures { result ≡ self.now.count }
    {
        self.rows
    }

    /// Returns whether a row is still needed: [`finish`](Encoder::finish) would return `NoRows`.
    pub fn needs_row(&self) -> bool
        ensures { (result ≡ true) ↔ ((self.now.wants_memory ≡ false) × (self.now.count ≡ 0)
            × (needs_row self.now.settings.encoding self.now.settings.end_of_block ≡ true)) }
    {
        !self.wants_memory && self.rows == 0 && needs_row(self.settings)
    }

    /// Adds a white row below a white one, or below none. Until all of it is added, the encoder is marked as out of memory.
    #[inline(never)]
    fn add_white(&mut self) -> Result<(), AllocError>
        requires above { self.old.last ≡ white_row self.old.columns }
        requires memory { self.old.wants_memory ≡ false }
        ensures taken { OnOk result (self.new ≡ with_row self.old (white_row self.old.columns)) }
        ensures wanted { OnErr result (self.new.wants_memory ≡ true) }
        ensures same { KeepsSettings self.old self.new }
    {
        self.wants_memory = true;
        if self.lines.is_none() {
            self.lines = white_lines(self.alloc, &mut self.ways, self.columns, self.settings)?;
        }
        let left = put_white_line(
            &mut self.writer,
            &mut self.ways,
            self.columns,
            self.settings,
            self.left,
            self.lines,
        )?;
        self.left = left;
        self.rows = self.rows.saturating_add(1);
        self.wants_memory = false;
        Ok(())
    }

    /// Adds a row. Until all of it is added, the encoder is marked as out of memory.
    fn add(&mut self, changes: &[u32]) -> Result<(), AllocError>
        requires lawful { AreChanges self.old.columns changes.now }
        requires memory { self.old.wants_memory ≡ false }
        ensures taken { OnOk result (self.new ≡ with_row self.old (pixels self.old.columns changes.now)) }
        ensures wanted { OnErr result (self.new.wants_memory ≡ true) }
        ensures same { KeepsSettings self.old self.new }
    {
        if self.reference.is_empty() && changes.is_empty() {
            return self.add_white();
        }
        self.wants_memory = true;
        let left = put_part(
            &mut self.writer,
            &mut self.ways,
            self.columns,
            self.settings,
            self.left,
            RowBelow {
                reference: self.reference.as_slice(),
                changes,
            },
        )?;
        self.left = left;
        self.reference.clear();
        self.reference.extend_from_slice(changes)?;
        self.rows = self.rows.saturating_add(1);
        self.wants_memory = false;
        Ok(())
    }

    /// Encodes a row, given by its changes.
    ///
    /// # Errors
    ///
    /// - `OutOfMemory` if an allocation fails, and from then on of each call.
    /// - `NotARow`, with the number of rows before it, if the changes are not strictly ascending and below the number of columns;
    ///   nothing is changed then.
    pub fn push_changes(&mut self, changes: &[u32]) -> std::result::Result<(), EncodeError>
        ensures taken { OnOk result (self.new ≡ with_row self.old (pixels self.old.columns changes.now)) }
        ensures lawful { OnOk result (AreChanges self.old.columns changes.now) }
        ensures not_a_row { (k : ℕ) → (result ≡ Err (EncodeError.NotARow k))
            ↔ ((self.old.wants_memory ≡ false) × (AreChanges self.old.columns changes.now → ⊥) × (k ≡ self.old.count)) }
        ensures fails { FailsToPush self.old self.new result }
        ensures same { KeepsSettings self.old self.new }
    {
        if self.wants_memory {
            return Err(EncodeError::OutOfMemory);
        }
        if !is_row(self.columns, changes) {
            return Err(EncodeError::NotARow(self.rows));
        }
        self.add(changes)?;
        Ok(())
    }

    /// Adds the first row of a bitmap, in which 0 stands for black if it says so. Until all of it is added, the encoder is marked as
    /// out of memory.
    #[inline(always)]
    fn add_packed(&mut self, bitmap: &[u8], black_is_0: bool) -> Result<(), AllocError>
        requires whole { bytes_of_row self.old.columns ≤ length bitmap.now }
        requires memory { self.old.wants_memory ≡ false }
        ensures taken { OnOk result (self.new
            ≡ with_row self.old (in_black black_is_0 (take self.old.columns (bits_of bitmap.now)))) }
        ensures wanted { OnErr result (self.new.wants_memory ≡ true) }
        ensures same { KeepsSettings self.old self.new }
    {
        let width = (self.columns as usize).div_ceil(8);
        if !black_is_0 && self.reference.is_empty() && zero_bytes(&bitmap[..width]) == width {
            return self.add_white();
        }
        self.wants_memory = true;
        scan_in_black(&mut self.row, self.columns, bitmap, black_is_0)?;
        let left = put_part(
            &mut self.writer,
            &mut self.ways,
            self.columns,
            self.settings,
            self.left,
            RowBelow {
                reference: self.reference.as_slice(),
                changes: self.row.as_slice(),
            },
        )?;
        self.left = left;
        mem::swap(&mut self.reference, &mut self.row);
        self.rows = self.rows.saturating_add(1);
        self.wants_memory = false;
        Ok(())
    }

    /// Adds the first row of a bitmap, in which 0 stands for black. It is apart, so that a row in which 1 does costs no more.
    #[inline(never)]
    fn add_inverted(&mut self, bitmap: &[u8]) -> Result<(), AllocError>
        requires whole { bytes_of_row self.old.columns ≤ length bitmap.now }
        requires memory { self.old.wants_memory ≡ false }
        ensures taken { OnOk result (self.new
            ≡ with_row self.old (in_black true (take self.old.columns (bits_of bitmap.now)))) }
        ensures wanted { OnErr result (self.new.wants_memory ≡ true) }
        ensures same { KeepsSettings self.old self.new }
    {
        self.add_packed(bitmap, true)
    }

    /// Encodes a row of packed pixels: one bit a pixel, 1 for black, the leftmost pixel in each byte's highest bit. Bits
    /// after the last pixel are ignored.
    ///
    /// # Errors
    ///
    /// - `OutOfMemory` if an allocation fails, and from then on of each call.
    /// - `NotARow`, with the number of rows before it, if there are fewer than (columns + 7) / 8 bytes; nothing is changed then.
    #[inline(always)]
    pub fn push_packed_row(&mut self, row: &[u8]) -> std::result::Result<(), EncodeError>
        ensures taken { OnOk result (self.new ≡ with_row self.old (take self.old.columns (bits_of row.now))) }
        ensures whole { OnOk result (bytes_of_row self.old.columns ≤ length row.now) }
        ensures not_a_row { (k : ℕ) → (result ≡ Err (EncodeError.NotARow k))
            ↔ ((self.old.wants_memory ≡ false) × (length row.now < bytes_of_row self.old.columns) × (k ≡ self.old.count)) }
        ensures fails { FailsToPush self.old self.new result }
        ensures same { KeepsSettings self.old self.new }
    {
        if self.wants_memory {
            return Err(EncodeError::OutOfMemory);
        }
        if row.len() < (self.columns as usize).div_ceil(8) {
            return Err(EncodeError::NotARow(self.rows));
        }
        self.add_packed(row, false)?;
        Ok(())
    }

    /// Encodes a row of packed pixels as [`push_packed_row`](Encoder::push_packed_row) does, in which 0 stands for black and 1 for
    /// white if it says so.
    ///
    /// # Errors
    ///
    /// Those of [`push_packed_row`](Encoder::push_packed_row).
    pub fn push_row_by_polarity(
        &mut self,
        row: &[u8],
        black_is_0: bool,
    ) -> std::result::Result<(), EncodeError>
        ensures taken { OnOk result (self.new ≡ with_row self.old (in_black black_is_0 (take self.old.columns (bits_of row.now)))) }
        ensures whole { OnOk result (bytes_of_row self.old.columns ≤ length row.now) }
        ensures not_a_row { (k : ℕ) → (result ≡ Err (EncodeError.NotARow k))
            ↔ ((self.old.wants_memory ≡ false) × (length row.now < bytes_of_row self.old.columns) × (k ≡ self.old.count)) }
        ensures fails { FailsToPush self.old self.new result }
        ensures same { KeepsSettings self.old self.new }
    {
        if !black_is_0 {
            return self.push_packed_row(row);
        }
        // What refuses a row doesn't depend on its bits.
        if self.wants_memory || row.len() < (self.columns as usize).div_ceil(8) {
            return self.push_packed_row(row);
        }
        self.add_inverted(row)?;
        Ok(())
    }

    /// Returns the bytes of all rows, of EOFB or RTC after them, and of zeros up to a whole byte.
    fn bytes(self) -> Result<Vec<u8>, AllocError>
        ensures { IfOk result (λ bytes. bits_in self.settings.order bytes.items ≡ filled_up (with_end self.settings self.lines)) }
    {
        let settings = self.settings;
        let mut writer = self.writer;
        put_end(&mut writer, settings)?;
        Ok(bytes_in_order(writer.finish()?, settings.order))
    }

    /// Returns the bytes of the image: its lines, EOFB or RTC, and zeros up to a whole byte.
    ///
    /// # Errors
    ///
    /// `OutOfMemory` if an allocation failed before or fails now; else `NoRows` if there are no rows, other than in Group 4 with
    /// EOFB.
    pub fn finish(self) -> std::result::Result<Vec<u8>, EncodeError>
        ensures wanted { self.wants_memory ≡ true → result ≡ Err EncodeError.OutOfMemory }
        ensures no_rows { (result ≡ Err EncodeError.NoRows) ↔ ((self.wants_memory ≡ false) × (self.count ≡ 0)
            × (needs_row self.settings.encoding self.settings.end_of_block ≡ true)) }
        ensures others { (result ≢ Err EncodeError.NoColumns) × ((k : ℕ) → result ≢ Err (EncodeError.NotARow k)) }
        ensures encoded { IfOk result (λ bytes. bits_in self.settings.order bytes.items
            ≡ filled_up (with_end self.settings self.lines)) }
    {
        if self.wants_memory {
            return Err(EncodeError::OutOfMemory);
        }
        if self.rows == 0 && needs_row(self.settings) {
            return Err(EncodeError::NoRows);
        }
        let bytes = self.bytes()?;
        Ok(bytes)
    }
}
