//! A page that is written.

ghost use Rattle.std.specs.Prelude.{◌≡◌, ◌↔◌, IsTrue};
ghost use Rattle.fax_documents.specs.Pages.{HasSize, rows_each};

use crate::resolution::Resolution;
use fax_bits::DecodeSettings;
use fax_bits::bit_reader::BitOrder;
use tiff_read::Texts;

/// A page: a picture whose rows are in strips, one below the other.
#[derive(Drop)]
pub struct Page<'a> {
    /// How the strips are read. Its limit is the number of rows of each strip, of which the last one may have fewer; 0 if one strip has
    /// all. It says that EOFB or RTC ends an image if each strip ends with one.
    pub settings: DecodeSettings,
    /// Which bit of each byte of a strip comes first.
    pub order: BitOrder,
    /// Whether fill precedes EOLs so that they end at whole bytes (T.4, 4.1.3).
    pub eols_end_at_bytes: bool,
    /// How many rows the page has.
    pub rows: u32,
    /// The data of each strip.
    pub strips: &'a [&'a [u8]],
    /// Which edges of the page the first row and the first column are, as TIFF's Orientation says; 1 for the top and the left one.
    pub orientation: u8,
    /// Whether 1 stands for white.
    pub is_inverted: bool,
    /// How many pixels an inch or a centimetre has, if that is known.
    pub resolution: Option<Resolution>,
    /// What is said of the page. PDF files don't say it.
    pub texts: Texts<'a>,
}

impl<'a> Page<'a> {
    /// Returns whether the page has columns and rows, and as many strips as its rows need.
    pub(crate) fn has_size(&self) -> bool
        ensures { IsTrue result ↔ HasSize self.now }
    {
        if self.settings.columns == 0 || self.rows == 0 {
            return false;
        }
        self.rows.div_ceil(self.rows_each()) as usize == self.strips.len()
    }

    /// Returns how many rows each strip has, but the last one.
    pub(crate) fn rows_each(&self) -> u32
        ensures { result ≡ rows_each self.now }
    {
        match self.settings.rows {
            0 => self.rows,
            each => each.min(self.rows),
        }
    }
}
