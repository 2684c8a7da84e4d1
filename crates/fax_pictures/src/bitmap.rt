//! A picture in memory.

ghost use Rattle.std.specs.Prelude.{◌≡◌, ◌↔◌, ◌<◌, ◌≤◌, ◌+◌, ◌-◌, ◌*◌, ◌%◌, ℕ, length, [], ◌++◌, drop, replicate, take, get_or};
ghost use Rattle.std.specs.Prelude.{Err, IfOk, OnErr, OnOk};
ghost use Rattle.fax_bits.specs.Bits.{bit_of, bits_of};
ghost use Rattle.fax_reading.specs.Rows.{AreChanges, pixel, pixels, white_row};
ghost use Rattle.fax_encode.specs.Chosen.{filled_up};
ghost use Rattle.fax_encode.specs.Packed.{bytes_of_row, packed};
ghost use Rattle.fax_pictures.specs.Pictures.{HasRoom, laid_over, with_row_at};

use crate::error::PictureError;
use fax_encode::{paint_row, rows_of_bitmap};
use std::alloc::{AllocError, Global};
use std::marker::Model;

/// The most bytes of a picture.
const MOST_BYTES: usize = 1 << 30;

/// A picture: one bit a pixel, 1 for black, the leftmost pixel in the highest bit of each byte, and zeros after each row up to a whole
/// byte.
#[derive(Drop)]
pub struct Bitmap {
    columns: u32,
    rows: u32,
    bytes: Vec<u8>,
}

impl Model for Bitmap {
    ghost use Rattle.fax_encode.specs.Packed.{shown};
    ghost use Rattle.fax_pictures.specs.Pictures.{ArePacked, Picture};

    ghost Value = { Picture };

    ghost view = { λ b. record { columns = b.columns; rows = shown b.columns b.bytes.items } };

    ghost invariant = { λ b. ArePacked b.columns b.rows b.bytes.items };
}

impl Bitmap {
    /// Makes a white picture.
    ///
    /// # Errors
    ///
    /// `Size` if it has no columns, or more than 1,073,741,824 bytes, and `OutOfMemory`.
    pub fn white(alloc: Global, columns: u32, rows: u32) -> Result<Bitmap, PictureError>
        ensures white { IfOk result (λ made. made ≡ record { columns = columns; rows = replicate rows (white_row columns) }) }
        ensures size { (result ≡ Err PictureError.Size) ↔ (¬ (HasRoom columns rows)) }
    {
        let size = rows as usize * (columns as usize).div_ceil(8);
        if columns == 0 || size > MOST_BYTES {
            return Err(PictureError::Size);
        }
        let bytes = zeros(alloc, size)?;
        Ok(Bitmap {
            columns,
            rows,
            bytes,
        })
    }

    /// Returns how many pixels a row has.
    pub fn columns(&self) -> u32
        ensures value { result ≡ self.now.columns }
        ensures some { 0 < result }
    {
        self.columns
    }

    /// Returns how many rows there are.
    pub fn rows(&self) -> u32
        ensures { result ≡ length self.now.rows }
    {
        self.rows
    }

    /// Returns all rows, each of (columns + 7) / 8 bytes.
    pub fn bytes(&self) -> &[u8]
        ensures packed { bits_of result.now ≡ packed self.now.rows }
        ensures length { length result.now ≡ length self.now.rows * bytes_of_row self.now.columns }
    {
        self.bytes.as_slice()
    }

    /// Paints a row, given by its changes, over the one at an index.
    pub fn paint_row(&mut self, index: u32, changes: &[u32])
        requires within { index < length self.old.rows }
        requires changes { AreChanges self.old.columns changes.now }
        ensures { self.new ≡ record self.old { rows = with_row_at index (pixels self.old.columns changes.now) self.old.rows } }
    {
        let start = index as usize * (self.columns as usize).div_ceil(8);
        paint_at(&mut self.bytes, start, self.columns, changes);
    }

    /// Returns the bytes of a row.
    fn row_bytes(&self, index: u32) -> &[u8]
        requires within { index < length self.now.rows }
        ensures length { length result.now ≡ bytes_of_row self.now.columns }
        ensures row { take self.now.columns (bits_of result.now) ≡ get_or self.now.rows index [] }
    {
        let width = (self.columns as usize).div_ceil(8);
        let start = index as usize * width;
        &self.bytes[start..start + width]
    }

    /// Returns the changes of a row.
    ///
    /// # Errors
    ///
    /// The allocation for them.
    pub fn changes_of_row(&self, alloc: Global, index: u32) -> Result<Vec<u32>, AllocError>
        requires within { index < length self.now.rows }
        ensures lawful { IfOk result (λ changes. AreChanges self.now.columns changes.items) }
        ensures row { IfOk result (λ changes. pixels self.now.columns changes.items ≡ get_or self.now.rows index []) }
    {
        changes_of_bits(alloc, self.columns, self.row_bytes(index))
    }

    /// Returns whether the pixel of a column and a row is black.
    pub(crate) fn is_black(&self, column: u32, row: u32) -> bool
        requires column { column < self.now.columns }
        requires row { row < length self.now.rows }
        ensures { result ≡ pixel (get_or self.now.rows row []) column }
    {
        let byte = self.row_bytes(row)[column as usize / 8];
        byte >> (7 - column % 8) & 1 == 1
    }

    /// Returns the byte of a row at an index.
    pub(crate) fn byte_of_row(&self, row: u32, index: usize) -> u8
        requires index { 8 * index < self.now.columns }
        requires row { row < length self.now.rows }
        ensures { (t : ℕ) → t < 8 → 8 * index + t < self.now.columns
            → bit_of result (7 - t) ≡ pixel (get_or self.now.rows row []) (8 * index + t) }
    {
        self.row_bytes(row)[index]
    }

    /// Lays bytes, of eight pixels each, over a row from a column on, as far as the row reaches.
    pub(crate) fn lay_over_row(&mut self, left: u32, index: u32, part: &[u8])
        requires within { index < length self.old.rows }
        requires whole { left % 8 ≡ 0 }
        ensures { self.new ≡ record self.old {
          rows = with_row_at index (laid_over left (bits_of part.now) (get_or self.old.rows index [])) self.old.rows;
        } }
    {
        let columns = self.columns;
        let row_start = index as usize * (columns as usize).div_ceil(8);
        lay_at(&mut self.bytes, row_start, columns, left as usize / 8, part);
    }
}

/// Lays bytes over the row that begins at an index, from a byte of it on.
fn lay_at(bytes: &mut [u8], start: usize, columns: u32, left: usize, part: &[u8])
    requires some { 0 < columns }
    requires within { start + bytes_of_row columns ≤ length bytes.old }
    ensures laid { bits_of bytes.new ≡ bits_of (take start bytes.old)
        ++ (filled_up (take columns (bits_of (laid_over left part.now (take (bytes_of_row columns) (drop start bytes.old)))))
        ++ bits_of (drop (start + bytes_of_row columns) bytes.old)) }
    ensures length { length bytes.new ≡ length bytes.old }
{
    let end = start + (columns as usize).div_ceil(8);
    lay_in_row(&mut bytes[start..end], columns, left, part);
}

/// Lays bytes over those of a row, from one on, and makes the bits after its last pixel zeros.
fn lay_in_row(line: &mut [u8], columns: u32, left: usize, part: &[u8])
    requires some { 0 < columns }
    requires size { length line.old ≡ bytes_of_row columns }
    ensures laid { bits_of line.new ≡ filled_up (take columns (bits_of (laid_over left part.now line.old))) }
    ensures length { length line.new ≡ length line.old }
{
    lay_over(line, left, part);
    let after = (8 - columns % 8) % 8;
    let last = line.len() - 1;
    line[last] = line[last] >> after << after;
}

/// Lays bytes over others from an index on, as far as those reach.
fn lay_over(line: &mut [u8], left: usize, part: &[u8])
    ensures laid { line.new ≡ laid_over left part.now line.old }
    ensures length { length line.new ≡ length line.old }
{
    let start = left.min(line.len());
    let count = part.len().min(line.len() - start);
    line[start..start + count].copy_from_slice(&part[..count]);
}

/// Returns the changes of a row of packed pixels.
fn changes_of_bits(alloc: Global, columns: u32, row: &[u8]) -> Result<Vec<u32>, AllocError>
    requires some { 0 < columns }
    requires size { length row.now ≡ bytes_of_row columns }
    ensures lawful { IfOk result (λ changes. AreChanges columns changes.items) }
    ensures row { IfOk result (λ changes. pixels columns changes.items ≡ take columns (bits_of row.now)) }
{
    let mut rows = rows_of_bitmap(alloc, columns, row)?;
    match rows.pop() {
        Some(changes) => Ok(changes),
        None => unreachable!(),
    }
}

/// Returns zeros.
fn zeros(alloc: Global, count: usize) -> Result<Vec<u8>, AllocError>
    ensures { IfOk result (λ made. made.items ≡ replicate count 0) }
{
    Ok(vec![in alloc; 0; count]?)
}

/// Paints a row, given by its changes, over the bytes from an index on.
fn paint_at(bytes: &mut [u8], start: usize, columns: u32, changes: &[u32])
    requires within { start + bytes_of_row columns ≤ length bytes.old }
    requires changes { AreChanges columns changes.now }
    ensures painted { bits_of bytes.new ≡ bits_of (take start bytes.old)
        ++ (filled_up (pixels columns changes.now) ++ bits_of (drop (start + bytes_of_row columns) bytes.old)) }
    ensures length { length bytes.new ≡ length bytes.old }
{
    let end = start + (columns as usize).div_ceil(8);
    paint_row(&mut bytes[start..end], columns, changes);
}
