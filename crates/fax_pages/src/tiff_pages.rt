//! The pages of a TIFF file.

ghost use Rattle.std.specs.Prelude.{◌≡◌, ◌+◌, ◌*◌, ◌<◌, ◌≤◌, ◌↔◌, ℕ, List, true, length, All, IfOk, IfSome, OnErr, OnOk, IsNone};
ghost use Rattle.std.specs.Prelude.{None, Some, if◌then◌else◌};
ghost use Rattle.tiff_read.specs.Payments.{Costs, IsSameFile, IsSameReading, Opens, room_for};
ghost use Rattle.tiff_read.specs.Pictures.{layout_of, picture_of};
ghost use Rattle.tiff_read.specs.Texts.{AreTexts};
ghost use Rattle.tiff_read.specs.declared.directory.Directory.{Directory};
ghost use Rattle.fax_pages.specs.Tags.{brightness, is_dark_first, is_inverted_by_tags, map_value, settings_of_tags};
ghost use Rattle.fax_pages.specs.TiffPages.{IsFoundBy, IsTiffPage, LiesIn, cost_of, has_parts, is_size, refusal_by};
ghost use Rattle.fax_pages.specs.TiffPages.{kind_of, sizes, why_refused};

use crate::page::{Page, PageBytes, Part, PartKind, Resolution};
use crate::refused::{Found, Refusal, RefusedPage};
use crate::tags::{is_fax_compression, order_of_tags, settings_of_tags};
use paid_cursor::Cursor;
use std::alloc::Global;
use std::marker::Model;
use tiff_read::{Directory, Layout, Picture, Texts, Tiff, TiffError};

/// The pages of a TIFF file, in the order of its directories.
#[derive(Drop)]
pub struct TiffPages<'a> {
    tiff: Tiff<'a>,
    pages: u32,
}

impl<'a> Model for TiffPages<'a> {
    ghost use Rattle.tiff_read.specs.Payments.{Reading};

    ghost Value = { Reading };

    ghost view = { λ p. p.tiff };
}

/// How many columns and rows a picture and each of its parts have.
#[derive(Clone, Copy)]
pub(crate) struct Sizes {
    columns: u32,
    rows: u32,
    part_columns: u32,
    part_rows: u32,
}

/// The tag of the colours of a palette.
const COLOR_MAP: u16 = 320;

impl<'a> TiffPages<'a> {
    /// Opens the file that a cursor's bytes are. It pays for a list with a bit for each byte of the file.
    ///
    /// # Errors
    ///
    /// `NotTiff`, `Outside` if the file ends within its header, `Spent` or `OutOfMemory`.
    pub fn open(alloc: Global, source: Cursor<'a>) -> Result<TiffPages<'a>, TiffError>
        ensures paid { IfOk result (λ pages. Opens (room_for (length source.entry.bytes)) source.entry pages) }
    {
        Ok(TiffPages {
            tiff: Tiff::open(alloc, source)?,
            pages: 0,
        })
    }

    /// Returns how many steps may still be taken.
    pub fn left(&self) -> usize
        ensures { result ≡ self.now.left }
    {
        self.tiff.left()
    }

    /// Returns the next page; `None` after the last one. It pays for the directory, for 18 numbers, for seven texts and their bytes,
    /// and for two numbers of each part, or four where the directory doesn't say how many bytes the parts have.
    ///
    /// # Errors
    ///
    /// `Outside` or `Loop` if the next directory isn't in the file, or is an earlier one: no page follows. `Spent` or `OutOfMemory`.
    pub fn next_page(&mut self, alloc: Global) -> Result<Option<Found<'a>>, TiffError>
        ensures page { IfOk result (λ found. IfSome found (IsTiffPage self.old.bytes self.old.next)) }
        ensures end { IfOk result (λ found. IsNone found ↔ (self.old.next ≡ 0)) }
        ensures paid { IfOk result (λ found. self.new.left + cost_of found ≤ self.old.left) }
        ensures least { self.new.left ≤ self.old.left }
        ensures same { IsSameFile self.old self.new }
    {
        let Some(directory) = self.tiff.next_directory()? else {
            return Ok(None);
        };
        self.pages = self.pages.saturating_add(1);
        let found = self.page_of(alloc, &directory)?;
        Ok(Some(found))
    }

    /// Returns the page of a directory.
    fn page_of(&mut self, alloc: Global, directory: &Directory) -> Result<Found<'a>, TiffError>
        ensures page { IfOk result (IsFoundBy self.old.bytes directory.now) }
        ensures paid { IfOk result (λ found. self.new.left + cost_of (Some found) ≤ self.old.left + 1) }
        ensures least { self.new.left ≤ self.old.left }
        ensures same { IsSameReading self.old self.new }
    {
        let picture = self.picture(directory)?;
        if let Some(why) = why_refused(&picture) {
            return Ok(self.refused(why));
        }
        let Some(layout) = self.layout(directory)? else {
            return Ok(self.refused(Refusal::NoParts));
        };
        let Some(sizes) = sizes_of(&picture, &layout) else {
            return Ok(self.refused(Refusal::TileSize));
        };
        let is_inverted = self.is_inverted(directory, picture.photometric)?;
        let texts = self.texts(directory)?;
        let parts = self.parts(alloc, &picture, &layout, sizes)?;
        Ok(Found::Page(Page {
            number: self.pages,
            image: self.pages,
            kind: kind_of(&layout),
            bytes: PageBytes::File(self.tiff.bytes()),
            parts,
            columns: sizes.columns,
            rows: sizes.rows,
            has_height: true,
            order: order_of_tags(&picture),
            orientation: picture.orientation,
            is_inverted,
            rows_are_words: picture.compression == 32771,
            resolution: Resolution {
                across: picture.across,
                down: picture.down,
                unit: picture.unit,
            },
            texts,
        }))
    }

    /// Returns what a directory says of its picture.
    fn picture(&mut self, directory: &Directory) -> Result<Picture, TiffError>
        ensures picture { IfOk result (λ picture. picture ≡ picture_of self.old.bytes directory.now) }
        ensures paid { OnOk result (Costs 13 self.old self.new) }
        ensures unchanged { OnErr result (self.new ≡ self.old) }
    {
        self.tiff.picture(directory)
    }

    /// Returns how the picture of a directory is laid out.
    fn layout(&mut self, directory: &Directory) -> Result<Option<Layout>, TiffError>
        ensures layout { IfOk result (λ found. found ≡ layout_of self.old.bytes directory.now) }
        ensures paid { OnOk result (Costs 5 self.old self.new) }
        ensures unchanged { OnErr result (self.new ≡ self.old) }
    {
        self.tiff.layout(directory)
    }

    /// Returns what a directory says in words.
    fn texts(&mut self, directory: &Directory) -> Result<Texts<'a>, TiffError>
        ensures texts { IfOk result (AreTexts self.old.bytes directory.now) }
        ensures least { self.new.left ≤ self.old.left }
        ensures same { IsSameReading self.old self.new }
    {
        self.tiff.texts(directory)
    }

    /// Returns that the page isn't decoded.
    fn refused(&self, why: Refusal) -> Found<'a>
        ensures page { (bytes : List ℕ) (directory : Directory) → refusal_by bytes directory ≡ Some why → IsFoundBy bytes directory result }
        ensures cost { cost_of (Some result) ≡ 1 }
    {
        Found::Unread(RefusedPage {
            number: self.pages,
            image: self.pages,
            why,
        })
    }

    /// Returns whether the rows are the negative of the picture.
    fn is_inverted(
        &mut self,
        directory: &Directory,
        photometric: Option<u64>,
    ) -> Result<bool, TiffError>
        ensures inverted { IfOk result (λ it. it ≡ is_inverted_by_tags photometric (is_dark_first self.old.bytes directory.now)) }
        ensures least { self.new.left ≤ self.old.left }
        ensures same { IsSameReading self.old self.new }
    {
        match photometric {
            Some(1) => Ok(true),
            Some(3) => self.is_dark_first(directory),
            _ => Ok(false),
        }
    }

    /// Returns whether the first colour of a palette is darker than the second one.
    fn is_dark_first(&mut self, directory: &Directory) -> Result<bool, TiffError>
        ensures dark { IfOk result (λ it. it ≡ is_dark_first self.old.bytes directory.now) }
        ensures least { self.new.left ≤ self.old.left }
        ensures same { IsSameReading self.old self.new }
    {
        let first = self.brightness(directory, 0)?;
        let second = self.brightness(directory, 1)?;
        Ok(first < second)
    }

    /// Returns the sum of the red, the green and the blue of a palette's first or second colour (TIFF 6.0, section 5).
    fn brightness(&mut self, directory: &Directory, colour: u64) -> Result<u64, TiffError>
        requires { colour < 2 }
        ensures sum { IfOk result (λ sum. sum ≡ brightness self.old.bytes directory.now colour) }
        ensures least { self.new.left ≤ self.old.left }
        ensures same { IsSameReading self.old self.new }
    {
        let red = self.map_value(directory, colour)?;
        let green = self.map_value(directory, colour + 2)?;
        let blue = self.map_value(directory, colour + 4)?;
        Ok(red.saturating_add(green).saturating_add(blue))
    }

    /// Returns one of the numbers of ColorMap; 0 if there are fewer.
    fn map_value(&mut self, directory: &Directory, index: u64) -> Result<u64, TiffError>
        ensures value { IfOk result (λ value. value ≡ map_value self.old.bytes directory.now index) }
        ensures least { self.new.left ≤ self.old.left }
        ensures same { IsSameReading self.old self.new }
    {
        let value = self.tiff.number(directory, COLOR_MAP, index)?;
        Ok(value.unwrap_or(0))
    }

    /// Returns the strips or tiles of a picture, as many as the directory has offsets of.
    fn parts(
        &mut self,
        alloc: Global,
        picture: &Picture,
        layout: &Layout,
        sizes: Sizes,
    ) -> Result<Vec<Part>, TiffError>
        requires { 0 < sizes.columns }
        ensures parts { IfOk result (λ parts. All (LiesIn picture.now sizes (length self.old.bytes)) parts.items) }
        ensures paid { IfOk result (λ parts. self.new.left + 2 * length parts.items ≤ self.old.left) }
        ensures least { self.new.left ≤ self.old.left }
        ensures same { IsSameReading self.old self.new }
    {
        let mut parts = Vec::new(alloc);
        let count = layout.count.min(layout.offsets.count);
        let starts = self.starts(alloc, layout, count)?;
        let size = self.tiff.bytes().len();
        let mut index = 0;
        let mut left: u32 = 0;
        let mut top: u32 = 0;
        'parts: while index < count && top < sizes.rows {
            let Some(found) = self.bytes_of(layout, index)? else {
                break;
            };
            let rows = sizes.part_rows.min(sizes.rows - top);
            let part = Part {
                start: found.start,
                end: if starts.is_empty() {
                    found.end
                } else {
                    end_before_next(starts.as_slice(), found.start, size)
                },
                is_cut: found.is_cut,
                left,
                top,
                settings: settings_of_tags(picture, sizes.part_columns, rows),
            };
            if parts.push(part).is_err() {
                return Err(TiffError::OutOfMemory);
            }
            index += 1;
            left = left.saturating_add(sizes.part_columns);
            if left >= sizes.columns {
                left = 0;
                top = top.saturating_add(sizes.part_rows);
            }
        }
        Ok(parts)
    }

    /// Returns where the bytes of a strip or tile are; `None` after the last one.
    fn bytes_of(
        &mut self,
        layout: &Layout,
        index: u64,
    ) -> Result<Option<tiff_read::Part>, TiffError>
        ensures paid { OnOk result (Costs 2 self.old self.new) }
        ensures unchanged { OnErr result (self.new ≡ self.old) }
        ensures within { IfOk result (λ found. IfSome found (λ part. (part.start ≤ part.end) × (part.end ≤ length self.old.bytes))) }
    {
        self.tiff.part(layout, index)
    }

    /// Returns where the first `count` strips or tiles begin, in ascending order, if the directory doesn't say how many bytes they have, or says
    /// of each that it has none; else nothing.
    fn starts(
        &mut self,
        alloc: Global,
        layout: &Layout,
        count: u64,
    ) -> Result<Vec<usize>, TiffError>
        ensures least { self.new.left ≤ self.old.left }
        ensures same { IsSameReading self.old self.new }
    {
        let mut starts = Vec::new(alloc);
        let mut index = 0;
        'starts: while index < count {
            let Some(part) = self.tiff.part(layout, index)? else {
                break;
            };
            if layout.byte_counts.is_some() && part.start < part.end {
                return Ok(Vec::new(alloc));
            }
            if starts.push(part.start).is_err() {
                return Err(TiffError::OutOfMemory);
            }
            index += 1;
        }
        starts.sort_unstable();
        Ok(starts)
    }
}

/// Returns what the parts of a layout are.
fn kind_of(layout: &Layout) -> PartKind
    ensures { result ≡ kind_of layout.now }
{
    if layout.is_tiled {
        PartKind::Tile
    } else {
        PartKind::Strip
    }
}

/// Returns the first of some offsets, which ascend, after the offset of a part; or a file's size, if there is none.
fn end_before_next(starts: &[usize], start: usize, size: usize) -> usize
    requires { start ≤ size }
    ensures { (start ≤ result) × (result ≤ size) }
{
    match starts.get(starts.partition_point(|it| *it <= start)) {
        Some(next) => (*next).max(start).min(size),
        None => size,
    }
}

/// Returns why a picture isn't decoded, `None` if it is.
fn why_refused(picture: &Picture) -> Option<Refusal>
    ensures { result ≡ why_refused picture.now }
{
    if !is_fax_compression(picture.compression) {
        return Some(Refusal::NotFax(picture.compression));
    }
    if picture.bits_per_sample != 1 || picture.samples_per_pixel != 1 {
        return Some(Refusal::SeveralBits);
    }
    if !is_size(picture.columns) || !is_size(picture.rows) {
        return Some(Refusal::NoSize);
    }
    None
}

/// Returns how many columns and rows the picture, which has some, and its parts have; `None` if these have none of one, or 2^32 and more,
/// or if the width of tiles isn't whole bytes.
fn sizes_of(picture: &Picture, layout: &Layout) -> Option<Sizes>
    requires columns { is_size picture.now.columns ≡ true }
    requires rows { is_size picture.now.rows ≡ true }
    ensures { result ≡ (if has_parts layout.now then Some (sizes picture.now layout.now) else None) }
{
    if layout.is_tiled && layout.part_columns % 8 != 0 {
        return None;
    }
    if !is_size(layout.part_columns) || !is_size(layout.part_rows) {
        return None;
    }
    Some(Sizes {
        columns: picture.columns as u32,
        rows: picture.rows as u32,
        part_columns: layout.part_columns as u32,
        part_rows: layout.part_rows as u32,
    })
}

/// Returns whether a number is one of columns or rows: from 1 to 2^32 - 1.
fn is_size(number: u64) -> bool
    ensures { result ≡ is_size number }
{
    number > 0 && number <= u64::from(u32::MAX)
}
