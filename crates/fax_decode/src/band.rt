//! Parts beside each other.

use crate::damage::Damage;
use fax_pages::Part;
use hayro_ccitt::DecodeSettings;
use std::alloc::AllocError;

/// The parts of a page, of which those beside each other are a band.
#[derive(Clone, Copy)]
pub(crate) struct Bands {
    /// The columns and the rows of the page.
    columns: u64,
    rows: u64,
    /// The first row of the band, and how many it has.
    top: u64,
    height: u64,
    /// How many rows were decoded of each of its parts.
    decoded: u64,
    /// How many columns its parts have.
    covered: u64,
    /// How many rows come before the first one below all that were decoded.
    end: u64,
}

impl Bands {
    /// Returns the bands of a page of which no part was decoded.
    pub(crate) fn new(columns: u32, rows: u32) -> Bands {
        Bands {
            columns: u64::from(columns),
            rows: u64::from(rows),
            top: 0,
            height: 0,
            decoded: 0,
            covered: u64::from(columns),
            end: 0,
        }
    }

    /// Adds a part of which so many rows were decoded.
    pub(crate) fn add(
        &mut self,
        part: &Part,
        settings: DecodeSettings,
        rows: u64,
        damage: &mut Damage,
    ) -> Result<(), AllocError> {
        let top = u64::from(part.top);
        if rows > 0 {
            self.end = self.end.max(top.saturating_add(rows));
        }
        if part.left == 0 {
            self.note_missing(damage)?;
            self.top = top;
            self.height = u64::from(settings.rows);
            self.decoded = rows;
            self.covered = 0;
        }
        self.decoded = self.decoded.min(rows);
        self.covered = self.covered.saturating_add(u64::from(settings.columns));
        Ok(())
    }

    /// Adds the rows of the band that weren't decoded of all its parts; all of them if those don't reach the right side.
    fn note_missing(&self, damage: &mut Damage) -> Result<(), AllocError> {
        let decoded = if self.covered < self.columns {
            0
        } else {
            self.decoded
        };
        let first = self.top.saturating_add(decoded);
        damage
            .missing
            .add(first, self.height.saturating_sub(decoded))
    }

    /// Adds the rows below the last band too, and returns how many rows come before the first one below all that were decoded.
    pub(crate) fn finish(&self, damage: &mut Damage) -> Result<u64, AllocError> {
        self.note_missing(damage)?;
        let below = self.top.saturating_add(self.height);
        damage.missing.add(below, self.rows.saturating_sub(below))?;
        Ok(self.end)
    }
}
