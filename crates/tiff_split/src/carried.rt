//! A page as it is, for another file.

ghost use Rattle.std.specs.Prelude.{◌<◌, ◌≤◌};
ghost use Rattle.tiff_split.specs.Reads.{Reads};

use crate::entries::Entry;
use crate::error::SplitError;
use crate::ranges::Ranges;
use crate::split::{Split, Table};
use std::alloc::{AllocError, Global};

/// An entry of a page that is carried along.
#[derive(Drop)]
pub struct CarriedEntry {
    pub tag: u16,
    /// The number of the type of its values.
    pub kind: u16,
    /// How many values it has.
    pub count: u64,
    /// The bytes of these, the lowest of each number first.
    pub bytes: Vec<u8>,
}

/// A page that is carried along: what its directory says, and its strips or tiles, which weren't read.
#[derive(Drop)]
pub struct CarriedPage {
    /// The entries, by their tags. Those of where the strips or tiles are and of how many bytes they have are without their values.
    pub entries: Vec<CarriedEntry>,
    /// The tags of entries that are left out: those of directories below this one, of free space, and of values that aren't in the file, or
    /// whose type isn't known.
    pub left_out: Vec<u16>,
    /// The strips or tiles.
    pub strips: Vec<Vec<u8>>,
}

/// A page whose entries were read.
#[derive(Drop)]
struct Carrying {
    page: CarriedPage,
    /// Where its strips or tiles are.
    places: Vec<u64>,
    /// How many bytes they have.
    lengths: Vec<u64>,
}

/// The most entries of a page that is carried along.
const MOST_ENTRIES: u64 = 1000;

/// How many bytes of memory are paid for each strip or tile.
const STRIP_BYTES: u64 = 64;

/// Types of numbers.
const LONG: u16 = 4;

const LONG8: u16 = 16;

impl Split {
    /// Reads the page of a directory as it is, with all of its entries and its strips or tiles; or why it can't be carried into another file.
    ///
    /// # Errors
    ///
    /// `Spent`, `OutOfMemory` and `Unread`.
    pub fn carried<R: Ranges>(
        &mut self,
        source: &R,
        table: &Table,
    ) -> Result<Result<CarriedPage, &'static str>, SplitError>
        ensures reads { Reads self.old self.new }
    {
        if table.entries > MOST_ENTRIES {
            return Ok(Err("it has more than 1000 entries"));
        }
        let entries = self.all_entries(source, table)?;
        let mut carrying = Carrying {
            page: CarriedPage {
                entries: Vec::new(self.alloc),
                left_out: Vec::new(self.alloc),
                strips: Vec::new(self.alloc),
            },
            places: Vec::new(self.alloc),
            lengths: Vec::new(self.alloc),
        };
        let mut most = self.size;
        'entries: for entry in entries.iter() {
            if entry.size > most {
                return Ok(Err("its values lie over each other"));
            }
            most -= entry.size;
            self.carry_entry(source, entry, &mut carrying)?;
        }
        if let Some(why) = self.why_left(&carrying) {
            return Ok(Err(why));
        }
        Ok(Ok(self.with_strips(source, carrying)?))
    }

    /// Reads all entries of a directory, of a tag that occurs twice the first one, by their tags.
    fn all_entries<R: Ranges>(
        &mut self,
        source: &R,
        table: &Table,
    ) -> Result<Vec<Entry>, SplitError>
        ensures { Reads self.old self.new }
    {
        let entry_bytes = self.form.entry_bytes();
        let mut bytes = Vec::new(self.alloc);
        let length = table.entries.saturating_mul(entry_bytes as u64);
        self.append(source, table.start, length, &mut bytes)?;
        let mut entries: Vec<Entry> = Vec::new(self.alloc);
        let mut place = table.start;
        for digits in bytes.chunks_exact(entry_bytes) {
            if let Some(entry) = self.entry_at(place, digits) {
                put_first(&mut entries, entry)?;
            }
            place = place.saturating_add(entry_bytes as u64);
        }
        entries.sort_unstable();
        Ok(entries)
    }

    /// Adds an entry with its values to a page.
    fn carry_entry<R: Ranges>(
        &mut self,
        source: &R,
        entry: &Entry,
        carrying: &mut Carrying,
    ) -> Result<(), SplitError>
        ensures { Reads self.old self.new }
    {
        let width = bytes_of_number(entry.kind);
        if entry.count == 0 || width == 0 || is_left_out(entry.tag) {
            return noted(&mut carrying.page.left_out, entry.tag);
        }
        let mut bytes = Vec::new(self.alloc);
        self.append(source, entry.offset, entry.size, &mut bytes)?;
        let mut kind = entry.kind;
        match entry.tag {
            273 | 324 => {
                self.put_numbers(bytes.as_slice(), width, &mut carrying.places)?;
                bytes.clear();
            }
            279 | 325 => {
                self.put_numbers(bytes.as_slice(), width, &mut carrying.lengths)?;
                bytes.clear();
            }
            _ if width > 1 => {
                let mut numbers = Vec::new(self.alloc);
                self.put_numbers(bytes.as_slice(), width, &mut numbers)?;
                let kept = if kind == LONG8 { 4 } else { width };
                if kind == LONG8 && numbers.iter().any(|it| *it > u64::from(u32::MAX)) {
                    return noted(&mut carrying.page.left_out, entry.tag);
                }
                if kind == LONG8 {
                    kind = LONG;
                }
                bytes = lowest_first(self.alloc, numbers.as_slice(), kept)?;
            }
            _ => {}
        }
        let carried = CarriedEntry {
            tag: entry.tag,
            kind,
            count: entry.count,
            bytes,
        };
        if carrying.page.entries.push(carried).is_err() {
            return Err(SplitError::OutOfMemory);
        }
        Ok(())
    }

    /// Adds the numbers of so many bytes each.
    fn put_numbers(
        &self,
        bytes: &[u8],
        width: usize,
        numbers: &mut Vec<u64>,
    ) -> Result<(), AllocError>
        requires { (0 < width) × (width ≤ 8) }
    {
        for digits in bytes.chunks_exact(width) {
            numbers.push(self.form.number(digits))?;
        }
        Ok(())
    }

    /// Returns why a page can't be carried into another file; `None` if it can.
    fn why_left(&self, carrying: &Carrying) -> Option<&'static str> {
        let page = &carrying.page;
        if page.largest(256) == 0 || page.largest(257) == 0 {
            return Some("it has no width or no height");
        }
        if carrying.places.is_empty() || carrying.places.len() != carrying.lengths.len() {
            return Some("it doesn't say of all its strips or tiles where they are and how long");
        }
        if page.largest(259) == 6 {
            return Some("its JPEG data is of the old kind, which other entries say the places of");
        }
        if self.form.is_big_endian && page.largest(258) > 8 {
            return Some("its samples have the highest byte first");
        }
        let mut most = self.size;
        for (place, length) in carrying.places.iter().zip(carrying.lengths.iter()) {
            if place.saturating_add(*length) > self.size {
                return Some("not all of its data is in the file");
            }
            if *length > most {
                return Some("its strips or tiles lie over each other");
            }
            most -= *length;
        }
        None
    }

    /// Reads the strips or tiles of a page.
    fn with_strips<R: Ranges>(
        &mut self,
        source: &R,
        carrying: Carrying,
    ) -> Result<CarriedPage, SplitError>
        ensures { Reads self.old self.new }
    {
        let Carrying {
            mut page,
            places,
            lengths,
        } = carrying;
        'strips: for (place, length) in places.iter().zip(lengths.iter()) {
            self.pay(STRIP_BYTES)?;
            let mut strip = Vec::new(self.alloc);
            self.append(source, *place, *length, &mut strip)?;
            if page.strips.push(strip).is_err() {
                return Err(SplitError::OutOfMemory);
            }
        }
        Ok(page)
    }
}

impl CarriedPage {
    /// Returns the largest number of a tag; 0 if it has none.
    fn largest(&self, tag: u16) -> u64 {
        let mut largest: u64 = 0;
        for entry in &self.entries {
            if entry.tag == tag {
                let width = bytes_of_number(entry.kind).max(1);
                for digits in entry.bytes.chunks_exact(width) {
                    largest = largest.max(number_of(digits));
                }
            }
        }
        largest
    }
}

/// Returns the number of some bytes, the lowest first.
fn number_of(digits: &[u8]) -> u64 {
    let mut number: u64 = 0;
    for digit in digits.iter().rev() {
        number = number << 8 | u64::from(*digit);
    }
    number
}

/// Returns the lowest bytes of numbers, the lowest first.
fn lowest_first(alloc: Global, numbers: &[u64], width: usize) -> Result<Vec<u8>, AllocError>
    requires { width ≤ 8 }
{
    let mut bytes = Vec::new(alloc);
    for number in numbers {
        bytes.extend_from_slice(&number.to_le_bytes()[..width])?;
    }
    Ok(bytes)
}

/// Adds an entry, unless there is one of its tag.
fn put_first(entries: &mut Vec<Entry>, entry: Entry) -> Result<(), AllocError> {
    if !entries.iter().any(|it| it.tag == entry.tag) {
        entries.push(entry)?;
    }
    Ok(())
}

/// Adds a tag.
fn noted(tags: &mut Vec<u16>, tag: u16) -> Result<(), SplitError> {
    match tags.push(tag) {
        Ok(()) => Ok(()),
        Err(_) => Err(SplitError::OutOfMemory),
    }
}

/// Returns whether the values of a tag say where something else is in the file: free space or other directories (TIFF 6.0, section 8;
/// SubIFDs, and those of EXIF).
fn is_left_out(tag: u16) -> bool {
    matches!(tag, 288 | 289 | 330 | 400 | 34665 | 34853 | 40965)
}

/// Returns how many bytes a number of a type has, of which a value has one or two; 0 if the type isn't known, or if its values are places of
/// the file or numbers that only BigTIFF has.
fn bytes_of_number(kind: u16) -> usize
    ensures { result ≤ 8 }
{
    match kind {
        1 | 2 | 6 | 7 => 1,
        3 | 8 => 2,
        4 | 5 | 9 | 10 | 11 => 4,
        12 | LONG8 => 8,
        _ => 0,
    }
}
