//! A picture of few colours.

use crate::marks::Mark;
use fax_pictures::{Bitmap, PictureError};
use std::alloc::{AllocError, Global};

/// The colours of a picture, each as shares of red, green and blue: white, black, and the grounds of rows that are repaired, in which a run
/// was cut, after which an EOL is missing, and that are missing.
pub const COLORS: [u8; 18] = [
    255, 255, 255, 0, 0, 0, 255, 120, 90, 255, 190, 60, 220, 110, 240, 120, 120, 255,
];

/// White, as an index of [`COLORS`].
pub(crate) const WHITE: u8 = 0;

/// Black, as an index of [`COLORS`].
pub(crate) const BLACK: u8 = 1;

/// Returns the colour of a mark, as an index of [`COLORS`].
pub(crate) fn color_of(mark: Mark) -> u8 {
    match mark {
        Mark::Repaired => 2,
        Mark::Cut => 3,
        Mark::MissedEol => 4,
        Mark::Missing => 5,
    }
}

/// The most bytes of a picture.
const MOST_BYTES: u64 = 1 << 30;

/// A picture whose pixels are indices of [`COLORS`]: one byte for two pixels, the left one in its higher half, each row up to a whole byte.
#[derive(Drop)]
pub struct Canvas {
    columns: u32,
    rows: u32,
    bytes: Vec<u8>,
}

/// Pixels of a picture: those from a column and a row on, up to others.
#[derive(Clone, Copy)]
pub(crate) struct Area {
    /// How many columns come before it.
    pub(crate) left: u64,
    /// How many rows come before it.
    pub(crate) top: u64,
    /// How many columns come before the first one after it.
    pub(crate) right: u64,
    /// How many rows come before the first one after it.
    pub(crate) bottom: u64,
}

impl Canvas {
    /// Makes a white picture.
    ///
    /// # Errors
    ///
    /// `Size` if it has more than 2^30 bytes, or more columns or rows than 32 bits count; and `OutOfMemory`.
    pub(crate) fn white(alloc: Global, columns: u64, rows: u64) -> Result<Canvas, PictureError> {
        let size = columns.div_ceil(2).saturating_mul(rows);
        let (Ok(columns), Ok(rows)) = (u32::try_from(columns), u32::try_from(rows)) else {
            return Err(PictureError::Size);
        };
        if size > MOST_BYTES {
            return Err(PictureError::Size);
        }
        let bytes = zeros(alloc, size as usize)?;
        Ok(Canvas {
            columns,
            rows,
            bytes,
        })
    }

    /// Returns how many pixels a row has.
    pub fn columns(&self) -> u32 {
        self.columns
    }

    /// Returns how many rows there are.
    pub fn rows(&self) -> u32 {
        self.rows
    }

    /// Returns all rows.
    pub fn bytes(&self) -> &[u8] {
        self.bytes.as_slice()
    }

    /// Paints pixels, as far as the picture reaches: of a colour, those that aren't white only if `is_over`.
    pub(crate) fn paint(&mut self, pixels: Area, color: u8, is_over: bool) {
        let right = pixels.right.min(u64::from(self.columns));
        let bottom = pixels.bottom.min(u64::from(self.rows));
        for row in pixels.top..bottom {
            for column in pixels.left..right {
                self.set(column, row, color, is_over);
            }
        }
    }

    /// Paints a pixel.
    fn set(&mut self, column: u64, row: u64, color: u8, is_over: bool) {
        let width = u64::from(self.columns.div_ceil(2));
        let index = row.saturating_mul(width).saturating_add(column / 2);
        let Some(byte) = self.bytes.get_mut(index as usize) else {
            return;
        };
        let (high, low) = (*byte >> 4, *byte & 15);
        let (high, low) = if column % 2 == 0 {
            (painted(high, color, is_over), low)
        } else {
            (high, painted(low, color, is_over))
        };
        *byte = (high & 15) << 4 | low & 15;
    }

    /// Paints the black pixels of a picture.
    pub(crate) fn draw(&mut self, picture: &Bitmap) {
        let width = (picture.columns() as usize).div_ceil(8).max(1);
        for (index, byte) in picture.bytes().iter().enumerate() {
            if *byte != 0 {
                let row = index / width;
                let left = index % width * 8;
                self.draw_byte(left as u64, row as u64, *byte);
            }
        }
    }

    /// Paints the black pixels of eight.
    fn draw_byte(&mut self, left: u64, row: u64, byte: u8) {
        for place in 0..8u32 {
            if byte >> (7 - place) & 1 == 1 {
                let column = left.saturating_add(u64::from(place));
                self.set(column, row, BLACK, true);
            }
        }
    }
}

/// Returns what a pixel is that is painted.
fn painted(before: u8, color: u8, is_over: bool) -> u8 {
    if is_over || before == WHITE {
        color
    } else {
        before
    }
}

/// Returns zeros.
fn zeros(alloc: Global, count: usize) -> Result<Vec<u8>, AllocError> {
    Ok(vec![in alloc; 0; count]?)
}
