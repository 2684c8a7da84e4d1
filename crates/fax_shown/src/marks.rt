//! Which rows of a page are damaged.

ghost use Rattle.std.specs.Prelude.{◌<◌};
ghost use Rattle.hayro_ccitt.specs.Bits.{BitsFit};

use fax_pages::{Page, Part};
use hayro_ccitt::{DecodeError, DecodeSettings, RowReader, bits_fit};
use std::alloc::{AllocError, Global};

/// What is wrong with a row.
#[derive(Clone, Copy, Debug, PartialEq, Eq)]
pub enum Mark {
    /// Its line was damaged, and repaired.
    Repaired,
    /// A run was cut at the row's end.
    Cut,
    /// The EOL after it was missed.
    MissedEol,
    /// The data has no such row.
    Missing,
}

/// Pixels of rows that follow each other, with one mark.
#[derive(Clone, Copy, Debug, PartialEq, Eq)]
pub struct MarkedRows {
    /// How many columns come before them.
    pub left: u64,
    /// How many rows come before them.
    pub top: u64,
    /// How many columns come before the first one after them.
    pub right: u64,
    /// How many rows come before the first one after them.
    pub bottom: u64,
    /// What is wrong with them.
    pub mark: Mark,
}

/// The rows of a page that are damaged.
#[derive(Drop)]
pub struct Marks {
    /// The pixels that have marks.
    pub rows: Vec<MarkedRows>,
    /// How many rows of strips, tiles or a stream are repaired, cut, without an EOL after them, and missing.
    counts: [u64; 4],
}

/// Returns which rows of a page are damaged. Of rows that each begin at a multiple of 16 bits nothing is known.
///
/// # Errors
///
/// If an allocation fails.
pub fn marks_of(alloc: Global, page: &Page<'_>) -> Result<Marks, AllocError> {
    let mut marks = Marks {
        rows: Vec::new(alloc),
        counts: [0; 4],
    };
    if page.rows_are_words {
        return Ok(marks);
    }
    for part in page.parts.iter() {
        let data = page.data(part);
        if bits_fit(data) {
            marks.mark_part(alloc, page, part, data)?;
        }
    }
    Ok(marks)
}

/// Returns the settings by which a part is read within its page.
fn settings_within(page: &Page<'_>, part: &Part) -> DecodeSettings {
    let below = page.rows.saturating_sub(part.top);
    let wanted = part.settings.rows;
    DecodeSettings {
        rows: if wanted == 0 {
            below
        } else {
            wanted.min(below)
        },
        strict: false,
        ..part.settings
    }
}

/// Reads the next row, and returns whether there is one.
fn read_row(rows: &mut RowReader<'_>) -> Result<bool, AllocError> {
    match rows.next_row() {
        Ok(is_row) => Ok(is_row),
        Err(DecodeError::OutOfMemory) => Err(AllocError),
        Err(_) => Ok(false),
    }
}

/// Returns the mark of the last row that was read, if it is damaged.
fn mark_of(rows: &RowReader<'_>) -> Option<Mark> {
    if rows.damage().is_some() {
        Some(Mark::Repaired)
    } else if rows.is_cut() {
        Some(Mark::Cut)
    } else {
        None
    }
}

impl Marks {
    /// Returns whether no row is damaged.
    pub fn are_none(&self) -> bool {
        self.rows.is_empty()
    }

    /// Returns how many rows of strips, tiles or a stream have a mark.
    pub fn count(&self, mark: Mark) -> u64 {
        self.counts[index_of(mark)]
    }

    /// Adds the marks of a part, which has this data.
    fn mark_part(
        &mut self,
        alloc: Global,
        page: &Page<'_>,
        part: &Part,
        bytes: &[u8],
    ) -> Result<(), AllocError>
        requires fit { BitsFit bytes.now }
    {
        let settings = settings_within(page, part);
        let Ok(mut rows) = RowReader::new(alloc, bytes, page.order, settings) else {
            return Err(AllocError);
        };
        let mut missed = 0;
        let mut is_sound = false;
        for _ in 0..u64::MAX {
            let is_row = read_row(&mut rows)?;
            let read = rows.rows_read();
            let before = if is_row { read.saturating_sub(1) } else { read };
            if rows.missed_eols() > missed && is_sound {
                self.add(part, before.saturating_sub(1), 1, Mark::MissedEol)?;
            }
            missed = rows.missed_eols();
            if !is_row {
                break;
            }
            let mark = mark_of(&rows);
            is_sound = mark.is_none();
            if let Some(mark) = mark {
                self.add(part, before, 1, mark)?;
            }
        }
        let missing = u64::from(settings.rows).saturating_sub(rows.rows_read());
        if part.settings.rows != 0 {
            self.add(part, rows.rows_read(), missing, Mark::Missing)?;
        }
        Ok(())
    }

    /// Adds rows of a part with a mark, after so many of its rows.
    fn add(&mut self, part: &Part, before: u64, count: u64, mark: Mark) -> Result<(), AllocError> {
        if count == 0 {
            return Ok(());
        }
        let top = u64::from(part.top).saturating_add(before);
        let left = u64::from(part.left);
        let place = index_of(mark);
        self.counts[place] = self.counts[place].saturating_add(count);
        self.rows.push(MarkedRows {
            left,
            top,
            right: left.saturating_add(u64::from(part.settings.columns)),
            bottom: top.saturating_add(count),
            mark,
        })?;
        Ok(())
    }
}

/// Returns the number of a mark, from 0.
fn index_of(mark: Mark) -> usize
    ensures { result < 4 }
{
    match mark {
        Mark::Repaired => 0,
        Mark::Cut => 1,
        Mark::MissedEol => 2,
        Mark::Missing => 3,
    }
}
