//! How a picture is laid out in strips or tiles.

ghost use Rattle.std.specs.Prelude.{◌≡◌, ◌+◌, ◌-◌, ◌<◌, ◌≤◌, ◌↔◌, length, Err, IfOk, IfSome, OnOk, OnErr, IsOkUnless};
ghost use Rattle.std.specs.Option.{unwrap_or};
ghost use Rattle.tiff_read.specs.Payments.{Costs};
ghost use Rattle.tiff_read.specs.Pictures.{count_of_part, cut_at, is_tiled, layout_of};
ghost use Rattle.tiff_read.specs.Pictures.{part_of, part_values, rows_of_strip, said_of};

use crate::directory::{Directory, Values};
use crate::error::TiffError;
use crate::file::Tiff;

/// How a picture is laid out in strips or tiles: those of a row of them first, the topmost row first.
#[derive(Clone, Copy, Debug, PartialEq, Eq)]
pub struct Layout {
    /// Whether they are tiles.
    pub is_tiled: bool,
    /// How many columns each has.
    pub part_columns: u64,
    /// How many rows each has; the last strip may have fewer.
    pub part_rows: u64,
    /// How many there are beside each other.
    pub across: u64,
    /// How many there are in all.
    pub count: u64,
    /// Where they are in the file.
    pub offsets: Values,
    /// How many bytes each has, if that is said.
    pub byte_counts: Option<Values>,
}

/// The bytes of a strip or tile, cut at the end of the file.
#[derive(Clone, Copy, Debug, PartialEq, Eq)]
pub struct Part {
    /// How many bytes of the file come before them.
    pub start: usize,
    /// How many bytes of the file come before the first one after them.
    pub end: usize,
    /// Whether the file has fewer of them than it says.
    pub is_cut: bool,
}

/// How many numbers a layout is read from.
const LAYOUT_NUMBERS: usize = 5;

/// How many numbers a part is read from.
const PART_NUMBERS: usize = 2;

/// The rows of a strip, if the picture is one strip.
const ALL_ROWS: u64 = 0xffff_ffff;

impl<'a> Tiff<'a> {
    /// Reads how the picture of a directory is laid out, for 5 steps: in tiles if it names the size of one, else in strips. `None` if the
    /// picture, or a tile, has no columns or rows, or if the directory doesn't say where they are.
    ///
    /// # Errors
    ///
    /// `Spent`.
    pub fn layout(&mut self, directory: &Directory) -> Result<Option<Layout>, TiffError>
        ensures layout { IfOk result (λ found. found ≡ layout_of self.old.bytes directory.now) }
        ensures paid { OnOk result (Costs LAYOUT_NUMBERS self.old self.new) }
        ensures unchanged { OnErr result (self.new ≡ self.old) }
        ensures spent { (result ≡ Err TiffError.Spent) ↔ (self.old.left < LAYOUT_NUMBERS) }
        ensures only_spent { IsOkUnless result TiffError.Spent }
        ensures parts { IfOk result (λ found. IfSome found (λ layout. (0 < layout.across) × (0 < layout.part_columns) × (0 < layout.part_rows))) }
    {
        self.pay(LAYOUT_NUMBERS)?;
        Ok(self.layout_of(directory))
    }

    /// Returns how the picture of a directory is laid out, unpaid.
    fn layout_of(&self, directory: &Directory) -> Option<Layout>
        ensures layout { result ≡ layout_of self.now.bytes directory.now }
        ensures parts { IfSome result (λ layout. (0 < layout.across) × (0 < layout.part_columns) × (0 < layout.part_rows)) }
    {
        let columns = self.first_or(directory, 256, 0);
        let rows = self.first_or(directory, 257, 0);
        let is_tiled = directory.find(322).is_some() || directory.find(323).is_some();
        let (part_columns, part_rows) = if is_tiled {
            (
                self.first_or(directory, 322, 0),
                self.first_or(directory, 323, 0),
            )
        } else {
            (
                columns,
                rows_of_strip(self.first_or(directory, 278, ALL_ROWS), rows),
            )
        };
        if columns == 0 || rows == 0 || part_columns == 0 || part_rows == 0 {
            return None;
        }
        let across = columns.div_ceil(part_columns);
        Some(Layout {
            is_tiled,
            part_columns,
            part_rows,
            across,
            count: across.saturating_mul(rows.div_ceil(part_rows)),
            offsets: values_of(directory, is_tiled, 324, 273)?,
            byte_counts: values_of(directory, is_tiled, 325, 279),
        })
    }

    /// Returns the bytes of a strip or tile, for 2 steps; `None` after the last one. Where the directory doesn't say how many they are, or says
    /// that the only strip has none, they reach up to the end of the file. A part of which it says less than of others has none, at 0.
    ///
    /// # Errors
    ///
    /// `Spent`.
    pub fn part(&mut self, layout: &Layout, index: u64) -> Result<Option<Part>, TiffError>
        ensures part { IfOk result (λ found. found ≡ part_of self.old.bytes layout.now index) }
        ensures paid { OnOk result (Costs PART_NUMBERS self.old self.new) }
        ensures unchanged { OnErr result (self.new ≡ self.old) }
        ensures spent { (result ≡ Err TiffError.Spent) ↔ (self.old.left < PART_NUMBERS) }
        ensures only_spent { IsOkUnless result TiffError.Spent }
        ensures within { IfOk result (λ found. IfSome found (λ part. (part.start ≤ part.end) × (part.end ≤ length self.old.bytes))) }
    {
        self.pay(PART_NUMBERS)?;
        if index >= layout.count {
            return Ok(None);
        }
        let start = self.number_among(layout.offsets, index).unwrap_or(0);
        let count = self.count_of_part(layout, index);
        Ok(Some(part_of(start, count, self.bytes().len())))
    }

    /// Returns how many bytes a strip or tile has, if that is said, and isn't 0 of the only strip; unpaid.
    fn count_of_part(&self, layout: &Layout, index: u64) -> Option<u64>
        ensures { result ≡ count_of_part self.now.bytes layout.now index }
    {
        let count = self.said_of(layout.byte_counts, index);
        if layout.count == 1 && !layout.is_tiled && count == Some(0) {
            None
        } else {
            count
        }
    }

    /// Returns how many bytes a strip or tile has, as the directory says it; 0 if it says it of fewer; unpaid.
    fn said_of(&self, byte_counts: Option<Values>, index: u64) -> Option<u64>
        ensures { result ≡ said_of self.now.bytes byte_counts index }
    {
        let byte_counts = byte_counts?;
        if byte_counts.count == 0 {
            return None;
        }
        Some(self.number_among(byte_counts, index).unwrap_or(0))
    }
}

/// Returns how many rows a strip has: no more than the picture.
fn rows_of_strip(said: u64, rows: u64) -> u64
    ensures { result ≡ rows_of_strip said rows }
{
    if said == 0 { rows } else { said.min(rows) }
}

/// Returns the values of the tag for tiles or for strips; if there are none, those of the other.
fn values_of(
    directory: &Directory,
    has_tiles: bool,
    of_tiles: u16,
    of_strips: u16,
) -> Option<Values>
    requires { has_tiles ≡ is_tiled directory.now }
    ensures { result ≡ part_values directory.now of_tiles of_strips }
{
    if has_tiles {
        directory.find(of_tiles).or(directory.find(of_strips))
    } else {
        directory.find(of_strips).or(directory.find(of_tiles))
    }
}

/// Returns so many bytes from an offset on, all of them if their number isn't known, cut at the end of a file of `size` bytes.
fn part_of(start: u64, count: Option<u64>, size: usize) -> Part
    ensures { result ≡ cut_at start (unwrap_or count (size - start)) size }
{
    let room = (size as u64).saturating_sub(start);
    let whole = count.unwrap_or(room);
    let start = (start.min(size as u64)) as usize;
    Part {
        start,
        end: start + whole.min(room) as usize,
        is_cut: whole > room,
    }
}
