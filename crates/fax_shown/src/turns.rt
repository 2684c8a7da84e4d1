//! Marks turned as their picture is.

use crate::marks::{MarkedRows, Marks};

impl Marks {
    /// Turns the marks as the data of a picture of so many columns and rows is turned to be shown by an orientation (TIFF 6.0, section 8).
    /// With 1, and with each number but 2 to 8, they stay.
    pub fn turn(&mut self, orientation: u8, columns: u32, rows: u32) {
        for marked in self.rows.iter_mut() {
            *marked = turned(marked, orientation, u64::from(columns), u64::from(rows));
        }
    }
}

/// Returns marked rows turned.
fn turned(marked: &MarkedRows, orientation: u8, columns: u64, rows: u64) -> MarkedRows {
    let is_column_last = matches!(orientation, 2 | 3 | 7 | 8);
    let is_row_last = matches!(orientation, 3 | 4 | 6 | 7);
    let (left, right) = counted(is_column_last, columns, marked.left, marked.right);
    let (top, bottom) = counted(is_row_last, rows, marked.top, marked.bottom);
    if 4 < orientation && orientation < 9 {
        MarkedRows {
            left: top,
            top: left,
            right: bottom,
            bottom: right,
            mark: marked.mark,
        }
    } else {
        MarkedRows {
            left,
            top,
            right,
            bottom,
            mark: marked.mark,
        }
    }
}

/// Returns two places within so many, counted from the end if the last one comes first.
fn counted(is_last: bool, count: u64, from: u64, to: u64) -> (u64, u64) {
    let (from, to) = (from.min(count), to.min(count));
    if is_last {
        (count.saturating_sub(to), count.saturating_sub(from))
    } else {
        (from, to)
    }
}
