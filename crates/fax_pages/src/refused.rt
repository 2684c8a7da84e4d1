//! Why a page isn't decoded.

use crate::page::Page;

/// Why a page isn't decoded.
#[derive(Clone, Copy, Debug, PartialEq, Eq)]
pub enum Refusal {
    /// The Compression of a TIFF file is none of 2, 3, 4 and 32771.
    NotFax(u64),
    /// It has more than one bit a pixel.
    SeveralBits,
    /// It has no columns or no rows, or 2^32 of them or more, or of a PDF image nothing says how many.
    NoSize,
    /// It has no strips or tiles.
    NoParts,
    /// The width of its tiles isn't whole bytes.
    TileSize,
    /// A filter before the fax data isn't known, or its data is damaged from the first byte on, or one follows CCITTFaxDecode.
    Filter,
}

/// A page that isn't decoded.
#[derive(Clone, Copy, Debug, PartialEq, Eq)]
pub struct RefusedPage {
    /// The number of the page in its file, as for a [`Page`].
    pub number: u32,
    /// The number of the picture in its file, as for a [`Page`].
    pub image: u32,
    /// Why it isn't decoded.
    pub why: Refusal,
}

/// What a file has next.
#[derive(Drop)]
pub enum Found<'a> {
    /// A page of fax data.
    Page(Page<'a>),
    /// A page that isn't decoded.
    Unread(RefusedPage),
}
