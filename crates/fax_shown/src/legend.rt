//! What the colours mean.

use crate::canvas::{Area, BLACK, Canvas, color_of};
use crate::font::{ADVANCE, COLUMNS, rows_of};
use crate::marks::Mark;
use std::alloc::{AllocError, Global};

/// How many pixels a line of a legend has from top to bottom.
pub(crate) const LINE: u64 = 16;

/// A legend is as large as its letters for so many columns, but of a low and wide page.
pub(crate) const LEGEND_COLUMNS: u64 = 600;

/// How many rows a legend of four lines has: one that is larger isn't higher than its page.
pub(crate) const LEGEND_ROWS: u64 = 64;

/// Returns what the rows of a mark are.
fn text_of(mark: Mark) -> &'static str {
    match mark {
        Mark::Repaired => "repaired",
        Mark::Cut => "with a run that was cut",
        Mark::MissedEol => "after which an EOL is missing",
        Mark::Missing => "missing",
    }
}

/// A legend below a picture of so many rows, each of whose pixels is a square of so many.
#[derive(Clone, Copy)]
pub(crate) struct Legend {
    /// How many rows come before it.
    pub(crate) top: u64,
    /// How many pixels one of its own has, across and down.
    pub(crate) size: u64,
    /// How many of its own pixels a line has.
    pub(crate) columns: u64,
}

impl Legend {
    /// Draws a line, after so many: a square in the colour of a mark, of which there are so many rows, and what it is.
    pub(crate) fn draw(
        &self,
        alloc: Global,
        canvas: &mut Canvas,
        line: u64,
        mark: Mark,
        count: u64,
    ) -> Result<(), AllocError> {
        let top = line.saturating_mul(LINE);
        self.paint(canvas, (2, top.saturating_add(2)), (12, 12), BLACK);
        self.paint(canvas, (3, top.saturating_add(3)), (10, 10), color_of(mark));
        let text = format!(in alloc; "{count} rows {}", text_of(mark))?;
        self.write(canvas, text.as_str(), top.saturating_add(4));
        Ok(())
    }

    /// Writes a text from a row of the legend on.
    fn write(&self, canvas: &mut Canvas, text: &str, top: u64) {
        let mut left: u64 = 20;
        for letter in text.chars() {
            self.write_letter(canvas, letter, left, top);
            left = left.saturating_add(ADVANCE);
        }
    }

    /// Writes a letter.
    fn write_letter(&self, canvas: &mut Canvas, letter: char, left: u64, top: u64) {
        let mut row = top;
        for bits in rows_of(letter) {
            for place in 0..COLUMNS {
                if bits >> (4 - place) & 1 == 1 {
                    let column = left.saturating_add(u64::from(place));
                    self.paint(canvas, (column, row), (1, 1), BLACK);
                }
            }
            row = row.saturating_add(1);
        }
    }

    /// Paints pixels of the legend: from a column and a row on, so many across and down.
    fn paint(&self, canvas: &mut Canvas, from: (u64, u64), count: (u64, u64), color: u8) {
        let right = from.0.saturating_add(count.0).min(self.columns);
        let bottom = from.1.saturating_add(count.1);
        let pixels = Area {
            left: from.0.saturating_mul(self.size),
            top: self.top.saturating_add(from.1.saturating_mul(self.size)),
            right: right.saturating_mul(self.size),
            bottom: self.top.saturating_add(bottom.saturating_mul(self.size)),
        };
        canvas.paint(pixels, color, true);
    }
}
