//! Pictures turned.

ghost use Rattle.std.specs.Prelude.{◌≡◌, ◌↔◌, ◌<◌, ◌≤◌, ◌+◌, ◌-◌, ◌*◌, ◌/◌, ◌%◌, ℕ, true, [], length, get_or, slice_index};
ghost use Rattle.std.specs.Prelude.{Err, IfOk, OnOk};
ghost use Rattle.fax_bits.specs.Bits.{bit_of};
ghost use Rattle.fax_reading.specs.Rows.{AreChanges, pixel, pixels};
ghost use Rattle.fax_pictures.specs.Pictures.{HasRoom};
ghost use Rattle.fax_pictures.specs.Turned.{columns_turned, counted, is_across, is_column_last, is_row_last, pixel_shown};
ghost use Rattle.fax_pictures.specs.Turned.{column_shown, rows_turned, turned, turned_row};
ghost use Rattle.fax_pictures.specs.Turned.{HasSizeTurned, IsInBlock, Shows};

use crate::bitmap::Bitmap;
use crate::error::PictureError;
use std::alloc::{AllocError, Global};

/// Returns whether the first row of the data is shown as a column.
fn is_across(orientation: u8) -> bool
    ensures { result ≡ is_across orientation }
{
    4 < orientation && orientation < 9
}

/// Returns whether the first column of the data is shown last.
fn is_column_last(orientation: u8) -> bool
    ensures { result ≡ is_column_last orientation }
{
    matches!(orientation, 2 | 3 | 7 | 8)
}

/// Returns whether the first row of the data is shown last.
fn is_row_last(orientation: u8) -> bool
    ensures { result ≡ is_row_last orientation }
{
    matches!(orientation, 3 | 4 | 6 | 7)
}

/// Returns an index among so many, counted from the last one if that comes first.
fn counted(is_last: bool, count: u32, index: u32) -> u32
    requires { index < count }
    ensures value { result ≡ counted is_last count index }
    ensures within { result < count }
{
    if is_last { count - 1 - index } else { index }
}

/// How many rows of the data are shown as columns at a time.
const BLOCK_ROWS: u32 = 512;

/// Returns a bit of each of 512 bytes, the highest one is 0.
fn bits_down(bytes: &[u8; 512], bit: u32) -> [u8; 64]
    requires { bit < 8 }
    ensures size { length result ≡ 64 }
    ensures bits { (i : ℕ) → i < 512
        → bit_of (slice_index result (i / 8)) (7 - i % 8) ≡ bit_of (slice_index bytes.now i) (7 - bit) }
{
    let mut bits = [0; 64];
    for index in 0..64 {
        bits[index] = eight_bits(bytes, 8 * index, bit);
    }
    bits
}

/// Returns a bit of each of eight bytes from a place on.
fn eight_bits(bytes: &[u8; 512], start: usize, bit: u32) -> u8
    requires bit { bit < 8 }
    requires within { start + 8 ≤ 512 }
    ensures { (i : ℕ) → i < 8 → bit_of result (7 - i) ≡ bit_of (slice_index bytes.now (start + i)) (7 - bit) }
{
    let mut bits = 0;
    for i in 0..8 {
        bits = bits << 1 | bytes[start + i] >> (7 - bit) & 1;
    }
    bits
}

impl Bitmap {
    /// Returns the picture that is shown if this one is the data of an image, by its orientation: where its first row and its first column
    /// are shown (TIFF 6.0, section 8). They are the top and the left with 1, and with each number but 2 to 8.
    ///
    /// # Errors
    ///
    /// `Size` if the bytes of the turned rows are more than 1,073,741,824, or this picture has no rows that would be columns; and
    /// `OutOfMemory`.
    pub fn turned(&self, alloc: Global, orientation: u8) -> Result<Bitmap, PictureError>
        ensures turned { IfOk result (λ made. made ≡ turned orientation self.now) }
        ensures size { (result ≡ Err PictureError.Size)
            ↔ (¬ (HasRoom (columns_turned orientation self.now) (rows_turned orientation self.now))) }
    {
        let columns = self.columns_turned(orientation);
        let rows = self.rows_turned(orientation);
        let mut made = Bitmap::white(alloc, columns, rows)?;
        if is_across(orientation) {
            self.show_columns(orientation, &mut made);
        } else {
            self.show_rows(alloc, orientation, &mut made)?;
        }
        Ok(made)
    }

    /// Shows each row of this picture as a row of a white one.
    fn show_rows(&self, alloc: Global, orientation: u8, made: &mut Bitmap) -> Result<(), AllocError>
        requires size { HasSizeTurned orientation self.now made.old }
        ensures { OnOk result (made.new ≡ turned orientation self.now) }
    {
        let columns = self.columns_turned(orientation);
        let rows = self.rows_turned(orientation);
        let mut y = 0;
        while y < rows {
            let changes = self.turned_row(alloc, orientation, y, columns)?;
            made.paint_row(y, changes.as_slice());
            y += 1;
        }
        Ok(())
    }

    /// Shows each column of this picture as a row of a white one: of 512 rows at a time, so that the bytes that are read and written lie
    /// in few lines of the cache.
    fn show_columns(&self, orientation: u8, made: &mut Bitmap)
        requires across { is_across orientation ≡ true }
        requires size { HasSizeTurned orientation self.now made.old }
        ensures { made.new ≡ turned orientation self.now }
    {
        for block in 0..self.rows().div_ceil(BLOCK_ROWS) {
            self.show_block(orientation, block * BLOCK_ROWS, made);
        }
    }

    /// Shows the pixels of 512 rows of this picture in columns of another one, from one on.
    fn show_block(&self, orientation: u8, left: u32, made: &mut Bitmap)
        requires across { is_across orientation ≡ true }
        requires size { HasSizeTurned orientation self.now made.old }
        requires whole { left % 8 ≡ 0 }
        requires within { left < length self.now.rows }
        ensures { Shows orientation self.now made.old made.new (λ x y. IsInBlock left x) }
    {
        for byte in 0..self.columns().div_ceil(8) {
            self.show_byte(orientation, left, byte, made);
        }
    }

    /// Shows the pixels of a byte of each of 512 rows of this picture in columns of another one, from one on.
    fn show_byte(&self, orientation: u8, left: u32, byte: u32, made: &mut Bitmap)
        requires across { is_across orientation ≡ true }
        requires size { HasSizeTurned orientation self.now made.old }
        requires whole { left % 8 ≡ 0 }
        requires within { left < length self.now.rows }
        requires byte { 8 * byte < self.now.columns }
        ensures { Shows orientation self.now made.old made.new
            (λ x y. IsInBlock left x × (column_shown orientation self.now x y / 8 ≡ byte)) }
    {
        let bytes = self.bytes_down(orientation, left, byte as usize);
        let count = (self.columns() - 8 * byte).min(8);
        for bit in 0..count {
            let y = counted(is_column_last(orientation), self.columns(), 8 * byte + bit);
            made.lay_over_row(left, y, &bits_down(&bytes, bit));
        }
    }

    /// Returns the bytes at an index of the rows that are shown as 512 columns, from one on, and zeros where there are fewer.
    fn bytes_down(&self, orientation: u8, left: u32, index: usize) -> [u8; 512]
        requires within { left < length self.now.rows }
        requires index { 8 * index < self.now.columns }
        ensures { (i t : ℕ) → i < 512 → left + i < length self.now.rows → t < 8 → 8 * index + t < self.now.columns
            → bit_of (slice_index result i) (7 - t)
            ≡ pixel (get_or self.now.rows (counted (is_row_last orientation) (length self.now.rows) (left + i)) []) (8 * index + t) }
    {
        let mut bytes = [0; 512];
        let count = (self.rows() - left).min(BLOCK_ROWS);
        for i in 0..count {
            let row = counted(is_row_last(orientation), self.rows(), left + i);
            bytes[i as usize] = self.byte_of_row(row, index);
        }
        bytes
    }

    /// Returns how many columns are shown.
    fn columns_turned(&self, orientation: u8) -> u32
        ensures { result ≡ columns_turned orientation self.now }
    {
        if is_across(orientation) {
            self.rows()
        } else {
            self.columns()
        }
    }

    /// Returns how many rows are shown.
    fn rows_turned(&self, orientation: u8) -> u32
        ensures { result ≡ rows_turned orientation self.now }
    {
        if is_across(orientation) {
            self.columns()
        } else {
            self.rows()
        }
    }

    /// Returns the changes of a row that is shown, of so many columns.
    fn turned_row(
        &self,
        alloc: Global,
        orientation: u8,
        y: u32,
        columns: u32,
    ) -> Result<Vec<u32>, AllocError>
        requires within { y < rows_turned orientation self.now }
        requires columns { columns ≡ columns_turned orientation self.now }
        ensures lawful { IfOk result (λ changes. AreChanges columns changes.items) }
        ensures row { IfOk result (λ changes. pixels columns changes.items ≡ turned_row orientation self.now y) }
    {
        let mut changes = Vec::new(alloc);
        let mut was_black = false;
        let mut x = 0;
        while x < columns {
            let is_black = self.pixel_shown(orientation, x, y);
            if is_black != was_black {
                changes.push(x)?;
            }
            was_black = is_black;
            x += 1;
        }
        Ok(changes)
    }

    /// Returns the pixel that is shown in a column and a row.
    fn pixel_shown(&self, orientation: u8, x: u32, y: u32) -> bool
        requires column { x < columns_turned orientation self.now }
        requires row { y < rows_turned orientation self.now }
        ensures { result ≡ pixel_shown orientation self.now x y }
    {
        let is_across = is_across(orientation);
        let column = if is_across { y } else { x };
        let row = if is_across { x } else { y };
        self.is_black(
            counted(is_column_last(orientation), self.columns(), column),
            counted(is_row_last(orientation), self.rows(), row),
        )
    }
}
