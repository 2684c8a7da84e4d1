//! Raw fax data that is read as it comes.

use fax_decode::damage::{Damage, PageFault};
use fax_encode::BitmapSink;
use faxconv_lib::options::RawOptions;
use hayro_ccitt::{DecodeError, DecodeSettings, Decoder, EncodingMode, Fed, RowFeed};
use std::alloc::{AllocError, Global};
use std::mem;

/// A reading of data that is fed, and how it ended.
#[derive(Drop)]
struct Reading {
    feed: RowFeed,
    end: Option<Result<(), DecodeError>>,
}

impl Reading {
    /// Creates a reading.
    fn new(alloc: Global, raw: &RawOptions, strict: bool) -> Result<Reading, AllocError> {
        let settings = DecodeSettings {
            strict: strict || raw.settings.strict,
            ..raw.settings
        };
        match RowFeed::new(alloc, raw.order, settings) {
            Ok(feed) => Ok(Reading { feed, end: None }),
            Err(_) => Err(AllocError),
        }
    }

    /// Feeds the bytes that come next. What comes after the end is left out.
    fn feed(&mut self, bytes: &[u8]) {
        if self.end.is_none() && !self.feed.is_finished() {
            if let Err(error) = self.feed.feed(bytes) {
                self.end = Some(Err(error));
            }
        }
    }

    /// Reads the next row, if it is known.
    fn next_row(&mut self) -> bool {
        if self.end.is_some() {
            return false;
        }
        match self.feed.next_row() {
            Ok(Fed::Row) => return true,
            Ok(Fed::NeedsMore) => {}
            Ok(Fed::End) => self.end = Some(Ok(())),
            Err(error) => self.end = Some(Err(error)),
        }
        false
    }

    /// Reads all rows that are known.
    fn pass_rows(&mut self) {
        for _ in 0..u64::MAX {
            if !self.next_row() {
                break;
            }
        }
    }

    /// Why the reading ended early.
    fn fault(&self) -> Option<DecodeError> {
        match self.end {
            Some(Err(error)) => Some(error),
            _ => None,
        }
    }

    /// Returns whether a lenient reading of the same data ends as this strict one did: if it has no fault, or in Group 4 where the
    /// data ends, since nothing is repaired there.
    fn ends_as_lenient(&self) -> bool {
        match self.fault() {
            None => true,
            Some(DecodeError::UnexpectedEof) => matches!(
                self.feed.settings().encoding,
                EncodingMode::Group4
            ),
            Some(_) => false,
        }
    }

    /// Fails if memory ran out.
    fn memory(&self) -> Result<(), AllocError> {
        match self.fault() {
            Some(DecodeError::OutOfMemory) => Err(AllocError),
            _ => Ok(()),
        }
    }
}

/// Raw fax data that is read as it comes: by a reading that repairs what it can, and by one that fails at the first fault. Of data that
/// can be fed again the strict one goes alone: its rows are those of the lenient one up to its fault, and all if there is none.
#[derive(Drop)]
pub struct RawReading {
    alloc: Global,
    /// The reading whose rows are kept.
    leading: Reading,
    /// The strict one, unless it is the leading one.
    strict: Option<Reading>,
    rows: Vec<u8>,
    /// How many rows were read when rows were last taken.
    taken: u64,
    damage: Damage,
    missed_eols: u64,
    bytes: u64,
}

/// How raw data ended.
#[derive(Drop)]
pub struct RawEnd {
    /// How many rows there are.
    pub rows: u64,
    /// Why the reading ended, if that isn't how the data should end.
    pub fault: Option<DecodeError>,
    /// What is damaged.
    pub damage: Damage,
}

impl RawReading {
    /// Creates the reading of data that is fed once.
    pub fn new(alloc: Global, raw: &RawOptions) -> Result<RawReading, AllocError> {
        let strict = Reading::new(alloc, raw, true)?;
        let lenient = Reading::new(alloc, raw, false)?;
        Ok(RawReading::of_readings(alloc, lenient, Some(strict)))
    }

    /// Creates the reading of data that can be fed [again](RawReading::begin_again).
    pub fn strictly(alloc: Global, raw: &RawOptions) -> Result<RawReading, AllocError> {
        let strict = Reading::new(alloc, raw, true)?;
        Ok(RawReading::of_readings(alloc, strict, None))
    }

    /// Creates the reading of data of which nothing was fed.
    fn of_readings(alloc: Global, leading: Reading, strict: Option<Reading>) -> RawReading {
        RawReading {
            alloc,
            leading,
            strict,
            rows: Vec::new(alloc),
            taken: 0,
            damage: Damage::new(alloc),
            missed_eols: 0,
            bytes: 0,
        }
    }

    /// Keeps no rows from now on.
    pub fn keep_no_rows(&mut self) {
        self.taken = u64::MAX;
    }

    /// Returns whether data that is finished is as many rows as its settings have and nothing else, by a reading that goes alone.
    pub fn is_whole(&self) -> bool {
        let feed = &self.leading.feed;
        matches!(self.leading.end, Some(Ok(())))
            && feed.bytes_read() as u64 == self.bytes
            && feed.rows_read() == u64::from(feed.settings().rows)
    }

    /// Begins again with a lenient reading if the strict one went alone over data that is finished, and failed where that may go on.
    /// Returns whether it does: then the data is to be fed again from its start, and finished. Rows that were taken aren't kept again.
    pub fn begin_again(&mut self, raw: &RawOptions) -> Result<bool, AllocError> {
        if self.strict.is_some() || raw.settings.strict || self.leading.ends_as_lenient() {
            return Ok(false);
        }
        let lenient = Reading::new(self.alloc, raw, false)?;
        self.strict = Some(mem::replace(&mut self.leading, lenient));
        self.rows = Vec::new(self.alloc);
        self.bytes = 0;
        Ok(true)
    }

    /// Feeds the bytes that come next, and reads all rows that no data that follows can change. They are added to those that weren't
    /// [taken](RawReading::take_rows).
    pub fn feed(&mut self, bytes: &[u8]) -> Result<(), AllocError> {
        self.leading.feed(bytes);
        if let Some(strict) = &mut self.strict {
            strict.feed(bytes);
        }
        self.bytes = self.bytes.saturating_add(bytes.len() as u64);
        self.read_rows()
    }

    /// Finishes the data, and reads the rows that are left.
    pub fn finish(&mut self) -> Result<(), AllocError> {
        self.leading.feed.finish();
        if let Some(strict) = &mut self.strict {
            strict.feed.finish();
        }
        self.read_rows()
    }

    /// Reads all rows that are known.
    fn read_rows(&mut self) -> Result<(), AllocError> {
        if let Some(strict) = &mut self.strict {
            strict.pass_rows();
            strict.memory()?;
        }
        for _ in 0..u64::MAX {
            if !self.leading.next_row() {
                break;
            }
            self.note_row()?;
            self.keep_row()?;
        }
        self.leading.memory()
    }

    /// Notes what is damaged in the last row, and before it.
    fn note_row(&mut self) -> Result<(), AllocError> {
        let feed = &self.leading.feed;
        let row = feed.rows_read().saturating_sub(1);
        if feed.missed_eols() > self.missed_eols {
            self.missed_eols = feed.missed_eols();
            self.damage.missed.add(row.saturating_sub(1), 1)?;
        }
        if feed.damage().is_some() {
            self.damage.repaired.add(row, 1)?;
        }
        if feed.is_cut() {
            self.damage.cut.add(row, 1)?;
        }
        Ok(())
    }

    /// Keeps the last row, unless it was taken.
    fn keep_row(&mut self) -> Result<(), AllocError> {
        if self.leading.feed.rows_read() <= self.taken {
            return Ok(());
        }
        let mut row = BitmapSink::new(self.alloc, self.leading.feed.settings().columns);
        if row.push_row(self.leading.feed.row()).is_err() {
            return Err(AllocError);
        }
        self.rows.extend_from_slice(row.bytes())
    }

    /// Returns how many bytes the rows have that were read and not taken.
    pub fn kept_bytes(&self) -> usize {
        self.rows.len()
    }

    /// Returns the rows that were read and not taken before, packed: each begins at a byte, 1 is black.
    pub fn take_rows(&mut self) -> Vec<u8> {
        self.taken = self.taken.max(self.leading.feed.rows_read());
        let empty = Vec::new(self.alloc);
        mem::replace(&mut self.rows, empty)
    }

    /// Returns how data ended that is finished, as that of a picture of this height, if it is known.
    pub fn end(self, height: Option<u64>) -> Result<RawEnd, AllocError> {
        let RawReading {
            alloc: _,
            leading,
            strict,
            rows: _,
            taken: _,
            mut damage,
            missed_eols,
            bytes,
        } = self;
        let rows = leading.feed.rows_read();
        let wanted = height.unwrap_or(rows);
        // Without a height no row is sought after the last one.
        if height.is_some() && leading.feed.missed_eols() > missed_eols {
            damage.missed.add(rows.saturating_sub(1), 1)?;
        }
        damage.missing.add(rows, wanted.saturating_sub(rows))?;
        let strict = match &strict {
            Some(strict) => strict,
            None => &leading,
        };
        if strict.feed.rows_read() < wanted {
            damage.fault = Some(fault_of(strict, bytes));
        }
        if matches!(strict.end, Some(Ok(()))) {
            damage.unread = bytes.saturating_sub(strict.feed.bytes_read() as u64);
        }
        Ok(RawEnd {
            rows,
            fault: leading.fault(),
            damage,
        })
    }
}

/// Returns where a strict reading of so many bytes ended.
fn fault_of(strict: &Reading, bytes: u64) -> PageFault {
    let why = strict.fault();
    let bit = match why {
        None => bytes.saturating_mul(8),
        Some(_) => strict.feed.line_start() as u64,
    };
    PageFault {
        row: strict.feed.rows_read(),
        bit,
        part: 0,
        why,
    }
}
