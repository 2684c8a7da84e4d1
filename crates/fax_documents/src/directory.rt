//! The directory of a page in a TIFF file (TIFF 6.0, section 2; BigTIFF has numbers of eight bytes).

ghost use Rattle.std.specs.Prelude.{◌≤◌};

use crate::coding::Coding;
use crate::page::Page;
use fax_bits::bit_reader::BitOrder;
use std::alloc::{AllocError, Global};
use tiff_read::{Ratio, ResolutionUnit};
use tiff_split::{CarriedEntry, CarriedPage};

/// The types of values.
const ASCII: u16 = 2;

const SHORT: u16 = 3;

const LONG: u16 = 4;

const RATIONAL: u16 = 5;

const LONG8: u16 = 16;

/// Where the parts of a page are in a file.
#[derive(Clone, Copy, Debug)]
pub(crate) struct Places {
    /// The directory, at an even offset.
    pub(crate) directory: u64,
    /// The first strip. Each begins at an even offset.
    pub(crate) strips: u64,
    /// The next directory; 0 if there is none.
    pub(crate) next: u64,
}

/// A value: in the entry itself, as a number of its bytes with the lowest first, or at an offset in the values behind the entries.
#[derive(Clone, Copy, Debug)]
enum Value {
    Here(u64),
    There(usize),
    /// The offsets of the strips or tiles, which follow those values if there are several.
    Offsets,
}

/// An entry of a directory.
#[derive(Clone, Copy, Debug)]
struct Entry {
    tag: u16,
    kind: u16,
    count: u64,
    value: Value,
}

/// A directory that is made: its entries in the order of their tags, and the values that they have no room for.
#[derive(Drop)]
pub(crate) struct Directory<'a> {
    alloc: Global,
    is_big: bool,
    entries: Vec<Entry>,
    values: Vec<u8>,
    strips: &'a [&'a [u8]],
}

impl<'a> Directory<'a> {
    /// Makes the directory of a page.
    pub(crate) fn of(
        alloc: Global,
        is_big: bool,
        page: &Page<'a>,
        coding: Coding,
    ) -> Result<Directory<'a>, AllocError> {
        let mut made = Directory {
            alloc,
            is_big,
            entries: Vec::new(alloc),
            values: Vec::new(alloc),
            strips: page.strips,
        };
        made.add_size(page, coding)?;
        made.add_strips(page)?;
        made.add_resolution(page)?;
        made.add_rest(page, coding)?;
        Ok(made)
    }

    /// Makes the directory of a page of one strip, which has so many bytes: it isn't among those of the page, where an empty one stands for it.
    pub(crate) fn of_strip(
        alloc: Global,
        is_big: bool,
        page: &Page<'a>,
        coding: Coding,
        length: u64,
    ) -> Result<Directory<'a>, AllocError> {
        let mut made = Directory::of(alloc, is_big, page, coding)?;
        for entry in made.entries.iter_mut() {
            if entry.tag == 279 {
                entry.value = Value::Here(length);
            }
        }
        Ok(made)
    }

    /// Makes the directory of a page that is carried along.
    pub(crate) fn of_carried(
        alloc: Global,
        is_big: bool,
        page: &CarriedPage,
        strips: &'a [&'a [u8]],
    ) -> Result<Directory<'a>, AllocError> {
        let mut made = Directory {
            alloc,
            is_big,
            entries: Vec::new(alloc),
            values: Vec::new(alloc),
            strips,
        };
        for entry in &page.entries {
            made.add_carried(entry)?;
        }
        Ok(made)
    }

    /// Adds an entry as it is, or of the strips or tiles where they are now.
    fn add_carried(&mut self, entry: &CarriedEntry) -> Result<(), AllocError> {
        match entry.tag {
            273 | 324 => self.add_offsets(entry.tag),
            279 | 325 => self.add_lengths(entry.tag),
            _ => self.add(entry.tag, entry.kind, entry.count, entry.bytes.as_slice()),
        }
    }

    /// Adds the entries up to those of the strips: the size, and how pixels are stored.
    fn add_size(&mut self, page: &Page<'_>, coding: Coding) -> Result<(), AllocError> {
        self.add_long(256, page.settings.columns)?;
        self.add_long(257, page.rows)?;
        self.add_short(258, 1)?;
        self.add_short(259, coding.compression)?;
        self.add_short(262, if page.is_inverted { 1 } else { 0 })?;
        self.add_short(266, fill_order(page.order))?;
        self.add_text(269, page.texts.document_name)?;
        self.add_text(270, page.texts.image_description)
    }

    /// Adds the entries that say where the strips are, and those between them.
    fn add_strips(&mut self, page: &Page<'_>) -> Result<(), AllocError> {
        self.add_offsets(273)?;
        self.add_short(274, orientation_of(page.orientation))?;
        self.add_short(277, 1)?;
        self.add_long(278, page.rows_each())?;
        self.add_lengths(279)
    }

    /// Adds the entry that says where the strips or tiles are.
    fn add_offsets(&mut self, tag: u16) -> Result<(), AllocError> {
        let (kind, count) = (self.kind_of_offset(), self.strips.len() as u64);
        self.entries.push(Entry {
            tag,
            kind,
            count,
            value: Value::Offsets,
        })?;
        Ok(())
    }

    /// Adds the entry that says how many bytes the strips or tiles have.
    fn add_lengths(&mut self, tag: u16) -> Result<(), AllocError> {
        let mut lengths = Vec::new(self.alloc);
        for strip in self.strips {
            self.push_offset(&mut lengths, strip.len() as u64)?;
        }
        let (kind, count) = (self.kind_of_offset(), self.strips.len() as u64);
        self.add(tag, kind, count, lengths.as_slice())
    }

    /// Returns the type of an offset.
    fn kind_of_offset(&self) -> u16 {
        if self.is_big { LONG8 } else { LONG }
    }

    /// Adds how many pixels a unit has, and the name of the page between that and the unit.
    fn add_resolution(&mut self, page: &Page<'_>) -> Result<(), AllocError> {
        if let Some(resolution) = page.resolution {
            self.add_ratio(282, resolution.across)?;
            self.add_ratio(283, resolution.down)?;
        }
        self.add_text(285, page.texts.page_name)
    }

    /// Adds the entries after that: the options of the encoding, the unit, and texts.
    fn add_rest(&mut self, page: &Page<'_>, coding: Coding) -> Result<(), AllocError> {
        match coding.compression {
            3 => self.add_long(292, coding.options)?,
            4 => self.add_long(293, coding.options)?,
            _ => {}
        }
        if let Some(resolution) = page.resolution {
            self.add_short(296, unit_of(resolution.unit))?;
        }
        self.add_text(305, page.texts.software)?;
        self.add_text(306, page.texts.date_time)?;
        self.add_text(315, page.texts.artist)?;
        self.add_text(33432, page.texts.copyright)
    }

    /// Adds an entry of values of some bytes.
    fn add(&mut self, tag: u16, kind: u16, count: u64, bytes: &[u8]) -> Result<(), AllocError> {
        let value = if bytes.len() <= self.offset_bytes() {
            Value::Here(number_of(bytes))
        } else {
            let place = self.values.len();
            self.values.extend_from_slice(bytes)?;
            if bytes.len() % 2 == 1 {
                self.values.push(0)?;
            }
            Value::There(place)
        };
        self.entries.push(Entry {
            tag,
            kind,
            count,
            value,
        })?;
        Ok(())
    }

    fn add_short(&mut self, tag: u16, number: u16) -> Result<(), AllocError> {
        self.add(tag, SHORT, 1, &number.to_le_bytes())
    }

    fn add_long(&mut self, tag: u16, number: u32) -> Result<(), AllocError> {
        self.add(tag, LONG, 1, &number.to_le_bytes())
    }

    fn add_ratio(&mut self, tag: u16, ratio: Ratio) -> Result<(), AllocError> {
        let (above, below) = halved(ratio);
        let above = above.to_le_bytes();
        let below = below.to_le_bytes();
        let bytes = [
            above[0], above[1], above[2], above[3], below[0], below[1], below[2], below[3],
        ];
        self.add(tag, RATIONAL, 1, &bytes)
    }

    /// Adds a text and the NUL after it, if there is one.
    fn add_text(&mut self, tag: u16, text: Option<&[u8]>) -> Result<(), AllocError> {
        let Some(text) = text else {
            return Ok(());
        };
        let mut bytes = text.to_vec(self.alloc)?;
        bytes.push(0)?;
        self.add(tag, ASCII, bytes.len() as u64, bytes.as_slice())
    }

    /// Returns how many bytes an offset has.
    fn offset_bytes(&self) -> usize
        ensures { result ≤ 8 }
    {
        if self.is_big { 8 } else { 4 }
    }

    /// Adds an offset, or a number as wide as one.
    fn push_offset(&self, to: &mut Vec<u8>, number: u64) -> Result<(), AllocError> {
        to.extend_from_slice(&number.to_le_bytes()[..self.offset_bytes()])
    }

    /// Adds the number of entries, which has two bytes, and eight in BigTIFF.
    fn push_count(&self, to: &mut Vec<u8>) -> Result<(), AllocError> {
        let count = (self.entries.len() as u64).to_le_bytes();
        let bytes = if self.is_big { 8 } else { 2 };
        to.extend_from_slice(&count[..bytes])
    }

    /// Returns how many bytes come before the values.
    fn head_bytes(&self) -> u64 {
        let (count, entry) = if self.is_big { (8, 20) } else { (2, 12) };
        (self.entries.len() as u64)
            .saturating_mul(entry)
            .saturating_add(count + self.offset_bytes() as u64)
    }

    /// Returns how many bytes the offsets of the strips have behind the values: none if there is one strip.
    fn bytes_of_offsets(&self) -> u64 {
        match self.strips.len() as u64 {
            0 | 1 => 0,
            count => count.saturating_mul(self.offset_bytes() as u64),
        }
    }

    /// Returns how many bytes the directory and its values have.
    pub(crate) fn len(&self) -> u64 {
        self.head_bytes()
            .saturating_add(self.values.len() as u64)
            .saturating_add(self.bytes_of_offsets())
    }

    /// Adds an entry, with the values behind the entries at an offset.
    fn push_entry(
        &self,
        to: &mut Vec<u8>,
        entry: &Entry,
        places: Places,
    ) -> Result<(), AllocError> {
        let values = places.directory.saturating_add(self.head_bytes());
        to.extend_from_slice(&entry.tag.to_le_bytes())?;
        to.extend_from_slice(&entry.kind.to_le_bytes())?;
        self.push_offset(to, entry.count)?;
        match entry.value {
            Value::Here(number) => self.push_offset(to, number),
            Value::There(place) => self.push_offset(to, values.saturating_add(place as u64)),
            Value::Offsets if self.strips.len() <= 1 => self.push_offset(to, places.strips),
            Value::Offsets => {
                self.push_offset(to, values.saturating_add(self.values.len() as u64))
            }
        }
    }

    /// Adds the offsets of the strips, if there are several.
    fn push_offsets(&self, to: &mut Vec<u8>, places: Places) -> Result<(), AllocError> {
        if self.strips.len() <= 1 {
            return Ok(());
        }
        let mut place = places.strips;
        for strip in self.strips {
            self.push_offset(to, place)?;
            place = place.saturating_add(even(strip.len() as u64));
        }
        Ok(())
    }

    /// Returns the bytes of the directory and its values.
    pub(crate) fn bytes(&self, places: Places) -> Result<Vec<u8>, AllocError> {
        let mut made = Vec::new(self.alloc);
        self.push_count(&mut made)?;
        for entry in self.entries.as_slice() {
            self.push_entry(&mut made, entry, places)?;
        }
        self.push_offset(&mut made, places.next)?;
        made.extend_from_slice(self.values.as_slice())?;
        self.push_offsets(&mut made, places)?;
        Ok(made)
    }
}

/// Returns a number of bytes, one more if it is odd.
pub(crate) fn even(length: u64) -> u64 {
    length.saturating_add(length % 2)
}

/// Returns the number of at most eight bytes, the lowest first.
fn number_of(bytes: &[u8]) -> u64 {
    let mut made = [0; 8];
    for (place, byte) in bytes.iter().enumerate() {
        if place < 8 {
            made[place] = *byte;
        }
    }
    u64::from_le_bytes(made)
}

/// Returns FillOrder (TIFF 6.0, section 8).
fn fill_order(order: BitOrder) -> u16 {
    match order {
        BitOrder::HighestFirst => 1,
        BitOrder::LowestFirst => 2,
    }
}

/// Returns Orientation; 1 for a number that is none.
fn orientation_of(orientation: u8) -> u16 {
    match orientation {
        1..=8 => u16::from(orientation),
        _ => 1,
    }
}

/// Returns ResolutionUnit (TIFF 6.0, section 8).
fn unit_of(unit: ResolutionUnit) -> u16 {
    match unit {
        ResolutionUnit::None => 1,
        ResolutionUnit::Inch => 2,
        ResolutionUnit::Centimetre => 3,
    }
}

/// Returns the numbers of a ratio, each halved until both have four bytes.
fn halved(ratio: Ratio) -> (u32, u32) {
    let mut above = ratio.above;
    let mut below = ratio.below;
    'halves: for _ in 0..32 {
        if above <= u64::from(u32::MAX) && below <= u64::from(u32::MAX) {
            break;
        }
        above /= 2;
        below /= 2;
    }
    (low_bytes(above), low_bytes(below))
}

/// Returns a number, or the highest one of four bytes.
fn low_bytes(number: u64) -> u32 {
    number.min(u64::from(u32::MAX)) as u32
}
