//! A page of fax data.

ghost use Rattle.std.specs.Prelude.{◌≡◌, slice_range};
ghost use Rattle.fax_pages.specs.Pages.{bytes_of};

use fax_bits::DecodeSettings;
use fax_bits::bit_reader::BitOrder;
use tiff_read::{Ratio, ResolutionUnit, Texts};

/// What the parts of a page are.
#[derive(Clone, Copy, Debug, PartialEq, Eq)]
pub enum PartKind {
    /// Strips of a TIFF file: as wide as the page, below each other.
    Strip,
    /// Tiles of a TIFF file: all of one size, some of them beside each other.
    Tile,
    /// A stream: all of the page.
    Stream,
}

/// The bytes that the parts of a page are among.
#[derive(Drop)]
pub enum PageBytes<'a> {
    /// Those of the file.
    File(&'a [u8]),
    /// Those that filters before the fax data were undone to.
    Decoded(Vec<u8>),
}

impl PageBytes<'_> {
    /// Returns the bytes.
    pub fn as_slice(&self) -> &[u8]
        ensures { result.now ≡ bytes_of self.now }
    {
        match self {
            PageBytes::File(bytes) => bytes,
            PageBytes::Decoded(bytes) => bytes.as_slice(),
        }
    }
}

/// How large the pixels of a page are.
#[derive(Clone, Copy, Debug, PartialEq, Eq)]
pub struct Resolution {
    /// Pixels of a row in a unit, if it is known.
    pub across: Option<Ratio>,
    /// Rows in a unit, if it is known.
    pub down: Option<Ratio>,
    /// What they are counted by.
    pub unit: ResolutionUnit,
}

/// A part of a page: a strip, a tile or a stream.
#[derive(Clone, Copy, Debug)]
pub struct Part {
    /// How many of the page's bytes come before those of the part.
    pub start: usize,
    /// How many of the page's bytes come before the first one after those of the part.
    pub end: usize,
    /// Whether the file ends before the part does.
    pub is_cut: bool,
    /// The column of the page that is the part's first one.
    pub left: u32,
    /// The row of the page that is the part's first one.
    pub top: u32,
    /// How the part is encoded, read leniently. Its rows are 0 if the height isn't known.
    pub settings: DecodeSettings,
}

/// A page of fax data.
#[derive(Drop)]
pub struct Page<'a> {
    /// The number of the page in its file. The first one is 1; an image of a PDF file that no page shows has 0.
    pub number: u32,
    /// The number of the picture in its file. The first one is 1.
    pub image: u32,
    /// What its parts are.
    pub kind: PartKind,
    /// The bytes that its parts are among.
    pub bytes: PageBytes<'a>,
    /// The parts, the topmost first, and of those beside each other the leftmost.
    pub parts: Vec<Part>,
    /// How many columns the picture has.
    pub columns: u32,
    /// How many rows the picture has, or if the height isn't known, at most has.
    pub rows: u32,
    /// Whether the height is known.
    pub has_height: bool,
    /// Which bit of a byte comes first.
    pub order: BitOrder,
    /// Which edges of the picture the first row and the first column are: TIFF's Orientation (6.0, section 8), from 1 to 8.
    pub orientation: u8,
    /// Whether the rows are the negative of the picture.
    pub is_inverted: bool,
    /// Whether each row begins at a multiple of 16 bits of its part.
    pub rows_are_words: bool,
    /// How large the pixels are.
    pub resolution: Resolution,
    /// What is said of it in words.
    pub texts: Texts<'a>,
}

impl Page<'_> {
    /// Returns the bytes of a part, as far as the page has them.
    pub fn data(&self, part: &Part) -> &[u8]
        ensures { result.now ≡ slice_range (bytes_of self.now.bytes) part.now.start part.now.end }
    {
        let bytes = self.bytes.as_slice();
        let end = part.end.min(bytes.len());
        if part.start < end {
            &bytes[part.start..end]
        } else {
            &[]
        }
    }
}
