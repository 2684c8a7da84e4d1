//! A picture with its damage in colour.

use crate::canvas::{Area, Canvas, color_of};
use crate::legend::{LEGEND_COLUMNS, LEGEND_ROWS, LINE, Legend};
use crate::marks::{Mark, Marks};
use fax_pictures::{Bitmap, PictureError};
use std::alloc::Global;

/// Returns a picture with each row that isn't sound on a ground in colour, above a legend that says which colour is what, and of how many
/// rows. The marks are turned as the picture is. If there are none, it is the picture alone.
///
/// # Errors
///
/// `Size` if it has more than 1,073,741,824 bytes, each of two pixels, and `OutOfMemory`.
pub fn damage_shown(
    alloc: Global,
    picture: &Bitmap,
    marks: &Marks,
) -> Result<Canvas, PictureError> {
    let (columns, rows) = (u64::from(picture.columns()), u64::from(picture.rows()));
    let lines = lines_of(marks);
    let size = (columns / LEGEND_COLUMNS).min(rows / LEGEND_ROWS).max(1);
    let legend = Legend {
        top: rows,
        size,
        columns: (columns / size).max(LEGEND_COLUMNS / 2),
    };
    let wide = if lines > 0 {
        columns.max(legend.columns.saturating_mul(size))
    } else {
        columns
    };
    let high = rows.saturating_add(lines.saturating_mul(LINE).saturating_mul(size));
    let mut canvas = Canvas::white(alloc, wide, high)?;
    canvas.draw(picture);
    paint_marks(&mut canvas, marks, columns, rows);
    draw_legend(alloc, &mut canvas, legend, marks)?;
    Ok(canvas)
}

/// Returns how many kinds of damage there are.
fn lines_of(marks: &Marks) -> u64 {
    let mut lines: u64 = 0;
    for mark in [Mark::Repaired, Mark::Cut, Mark::MissedEol, Mark::Missing] {
        if marks.count(mark) > 0 {
            lines = lines.saturating_add(1);
        }
    }
    lines
}

/// Paints the grounds of marked rows, within so many columns and rows.
fn paint_marks(canvas: &mut Canvas, marks: &Marks, columns: u64, rows: u64) {
    for marked in marks.rows.iter() {
        let pixels = Area {
            left: marked.left,
            top: marked.top,
            right: marked.right.min(columns),
            bottom: marked.bottom.min(rows),
        };
        canvas.paint(pixels, color_of(marked.mark), false);
    }
}

/// Draws a line for each kind of damage that there is.
fn draw_legend(
    alloc: Global,
    canvas: &mut Canvas,
    legend: Legend,
    marks: &Marks,
) -> Result<(), PictureError> {
    let mut line: u64 = 0;
    for mark in [Mark::Repaired, Mark::Cut, Mark::MissedEol, Mark::Missing] {
        let count = marks.count(mark);
        if count > 0 {
            legend.draw(alloc, canvas, line, mark, count)?;
            line = line.saturating_add(1);
        }
    }
    Ok(())
}
