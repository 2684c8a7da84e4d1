//! The damage of a page: rows that are missing or whose lines were damaged, and the first place at which a strict reading fails.

use hayro_ccitt::DecodeError;
use std::alloc::{AllocError, Global};

/// Rows that follow each other, numbered from 0.
#[derive(Clone, Copy)]
pub struct RowRange {
    /// The first of them.
    pub first: u64,
    /// The last of them.
    pub last: u64,
}

/// Rows, of which the first ranges are listed.
#[derive(Drop)]
pub struct RowRanges {
    /// How many there are.
    pub count: u64,
    /// The first ranges of them, at most [`MOST_RANGES`].
    pub ranges: Vec<RowRange>,
}

/// The most ranges that are listed.
pub const MOST_RANGES: usize = 6;

/// The first place at which a strict reading fails.
#[derive(Clone, Copy)]
pub struct PageFault {
    /// The row, numbered from 0.
    pub row: u64,
    /// The bit of its part of the page, numbered from 0.
    pub bit: u64,
    /// The part of the page, numbered from 0.
    pub part: u64,
    /// What is wrong there, or `None` if the data ends.
    pub why: Option<DecodeError>,
}

/// What is damaged of a page.
#[derive(Drop)]
pub struct Damage {
    /// Rows that weren't decoded. They are white.
    pub missing: RowRanges,
    /// Rows whose lines were damaged and repaired.
    pub repaired: RowRanges,
    /// Rows in which a run was cut at the row's end.
    pub cut: RowRanges,
    /// Rows after which an EOL is missing.
    pub missed: RowRanges,
    /// The first place at which a strict reading fails.
    pub fault: Option<PageFault>,
    /// How many bytes follow the rows of parts that are whole.
    pub unread: u64,
}

impl RowRanges {
    /// Creates the list of no rows.
    pub fn new(alloc: Global) -> RowRanges {
        RowRanges {
            count: 0,
            ranges: Vec::new(alloc),
        }
    }

    /// Adds `count` rows from `first` on, which follow those that were added before.
    pub fn add(&mut self, first: u64, count: u64) -> Result<(), AllocError> {
        if count == 0 {
            return Ok(());
        }
        let range = RowRange {
            first,
            last: first.saturating_add(count - 1),
        };
        self.count = self.count.saturating_add(count);
        let follows = match self.ranges.last() {
            Some(before) => before.last.checked_add(1) == Some(first),
            None => false,
        };
        if !follows {
            return self.push(range);
        }
        if let Some(before) = self.ranges.last_mut() {
            before.last = range.last;
        }
        Ok(())
    }

    /// Lists a range, if there aren't as many as are listed.
    fn push(&mut self, range: RowRange) -> Result<(), AllocError> {
        if self.ranges.len() < MOST_RANGES {
            self.ranges.push(range)?;
        }
        Ok(())
    }
}

impl Damage {
    /// Creates the damage of a page that is whole.
    pub fn new(alloc: Global) -> Damage {
        Damage {
            missing: RowRanges::new(alloc),
            repaired: RowRanges::new(alloc),
            cut: RowRanges::new(alloc),
            missed: RowRanges::new(alloc),
            fault: None,
            unread: 0,
        }
    }
}
