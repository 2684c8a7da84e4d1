//! A reading of the rows of an image whose data C passes in pieces.

ghost use Rattle.std.specs.Prelude.{◌≤◌};
ghost use Rattle.c_rows.specs.Packing.{bytes_of_row};
ghost use Rattle.c_rows.specs.RowsReported.{IsReportedStill};
ghost use Rattle.hayro_ccitt.specs.SinkStates.{state_of};

use crate::fed_status::{is_fed_row, needs_more, status_after, status_of_fed};
use crate::listed_rows::ListedRows;
use crate::packed_rows::{Layout, PackedRows, spaced};
use crate::row_outcome::{RowOutcome, damage_reported, miss_reported};
use crate::row_room::{list_over, pack_over};
use crate::status;
use hayro_ccitt::bit_reader::BitOrder;
use hayro_ccitt::{DecodeError, DecodeSettings, Decoder, Fed, Result, RowFeed};
use std::alloc::Global;

/// What a handle owns: a reading, whether its last row is still to be returned, the layout of packed rows, and what was reported
/// to C last, unless more was read since.
#[derive(Drop)]
pub struct Feeding {
    pub rows: RowFeed,
    pub is_kept: bool,
    pub layout: Layout,
    pub reported: Option<RowOutcome>,
    ghost reaches: { bytes_of_row rows.ctx.held.settings.columns ≤ layout.stride },
    ghost tells: { IsReportedStill rows reported },
}

impl Feeding {
    ghost use Rattle.std.specs.Prelude.{◌≡◌, ◌≢◌, ◌≤◌, ◌<◌, length, not, false, true, IfOk, Ok, Result};
    ghost use Rattle.hayro_ccitt.specs.RowFeeds.{Feeding as RowsFed};
    ghost use Rattle.hayro_ccitt.specs.Rows.{changes};
    ghost use Rattle.c_rows.specs.Packing.{bytes_of_row};
    ghost use Rattle.c_rows.specs.RowsFed.{FinishesFeed, GivesFed, GivesUnused, IsFeedOpened, TakesBytes, TurnsToFed};
    ghost use Rattle.c_rows.specs.RowsReported.{as_paused};
    ghost use Rattle.c_rows.specs.GivenRows.{ListsRows, PacksRows, PassesAll, columns_of};
    ghost use Rattle.c_rows.specs.RowsGiven.{IsListed, IsPacked, TellsOf};
    ghost use Rattle.c_rows.specs.declared.status.TheConstants.{OK, REFUSED};

    /// Creates a reading to which nothing was fed. Its only error is `OutOfMemory`.
    pub fn new(
        alloc: Global,
        order: BitOrder,
        settings: DecodeSettings,
        layout: Layout,
    ) -> Result<Feeding>
        requires reaches { bytes_of_row settings.columns ≤ layout.stride }
        ensures opened { IfOk result (IsFeedOpened settings order layout) }
    {
        let rows = RowFeed::new(alloc, order, settings)?;
        Ok(Feeding {
            rows,
            is_kept: false,
            layout,
            reported: None,
        })
    }

    /// Feeds the bytes that come next in the data, if it is a single one that can be stored at once, and returns whether it was;
    /// otherwise nothing changes.
    #[inline(always)]
    pub fn take_at_once(&mut self, bytes: &[u8]) -> bool
        ensures taken { result ≡ true → TakesBytes bytes.now self.old self.new OK }
        ensures unchanged { result ≡ false → self.new ≡ self.old }
    {
        !self.rows.is_finished() && self.rows.feed_at_once(bytes)
    }

    /// Feeds the bytes that come next in the data, and returns the status.
    pub fn take_bytes(&mut self, bytes: &[u8]) -> u32
        ensures { TakesBytes bytes.now self.old self.new result }
    {
        if self.rows.is_finished() {
            return status::NOT_TAKEN;
        }
        match self.rows.feed(bytes) {
            Ok(()) => status::OK,
            Err(DecodeError::OutOfMemory) => status::OUT_OF_MEMORY,
            Err(_) => status::OVERFLOW,
        }
    }

    /// Finishes the data.
    pub fn finish(&mut self)
        ensures { FinishesFeed self.old self.new }
    {
        self.rows.finish();
    }

    /// Reads the row that is to be returned next, unless it was read before.
    #[inline(always)]
    fn come_to_row(&mut self) -> Result<Fed>
        ensures turns { TurnsToFed self.old.is_kept self.old.rows self.new.rows result }
        ensures none_kept { self.new.is_kept ≡ false }
        ensures layout { self.new.layout ≡ self.old.layout }
    {
        if self.is_kept {
            self.is_kept = false;
            return Ok(Fed::Row);
        }
        let was_within_line = self.rows.is_within_line();
        let answer = self.rows.next_row();
        if !was_within_line || !needs_more(answer) {
            self.reported = None;
        }
        answer
    }

    /// Reads on in the line that is next, where it was found to be short, and returns whether it still is: then more data is
    /// needed.
    #[inline(always)]
    fn stays_within_line(&mut self) -> bool
        ensures more { result ≡ true → TurnsToFed self.old.is_kept self.old.rows self.new.rows (Ok Fed.NeedsMore) }
        ensures none_kept { result ≡ true → self.new.is_kept ≡ false }
        ensures goes_on { result ≡ false → (next : RowsFed) (answer : Result Fed DecodeError)
            → TurnsToFed self.new.is_kept self.new.rows next answer → TurnsToFed self.old.is_kept self.old.rows next answer }
        ensures layout { self.new.layout ≡ self.old.layout }
        ensures columns { columns_of self.new ≡ columns_of self.old }
    {
        if self.is_kept {
            return false;
        }
        self.rows.stays_within_line()
    }

    /// Writes the last row as a list of its changes, or keeps it if there is no room for it. Returns whether there was.
    fn list_row(&mut self, list: &mut [u32]) -> bool
        ensures listed { result ≡ true → IsListed self.old.rows.ctx.held.reference list.old list.new }
        ensures refused { result ≡ false → length list.new < length (changes self.old.rows.ctx.held.reference) }
        ensures unwritten { result ≡ false → list.new ≡ list.old }
        ensures rows { self.new.rows ≡ self.old.rows }
        ensures layout { self.new.layout ≡ self.old.layout }
        ensures kept { self.new.is_kept ≡ not result }
    {
        let has_room = list_over(list, self.rows.row());
        self.is_kept = !has_room;
        has_room
    }

    /// Writes the last row packed, or keeps it if there is no room for it. Returns whether there was.
    fn pack_row(&mut self, bytes: &mut [u8]) -> bool
        ensures packed { result ≡ true → IsPacked self.old.layout.black_is_0 self.old.rows.ctx.held.settings.columns
            self.old.rows.ctx.held.reference bytes.old bytes.new }
        ensures refused { result ≡ false → length bytes.new < bytes_of_row self.old.rows.ctx.held.settings.columns }
        ensures unwritten { result ≡ false → bytes.new ≡ bytes.old }
        ensures rows { self.new.rows ≡ self.old.rows }
        ensures layout { self.new.layout ≡ self.old.layout }
        ensures kept { self.new.is_kept ≡ not result }
    {
        let columns = self.rows.settings().columns;
        let has_room = pack_over(bytes, columns, self.rows.row(), self.layout.black_is_0);
        self.is_kept = !has_room;
        has_room
    }

    /// Writes the next row as a list of its changes, and returns the status.
    pub fn list_next(&mut self, list: &mut [u32]) -> u32
        ensures gives { GivesFed self.old self.new result }
        ensures listed { result ≡ OK → IsListed self.new.rows.ctx.held.reference list.old list.new }
        ensures refused { result ≡ REFUSED → length list.new < length (changes self.new.rows.ctx.held.reference) }
        ensures unwritten { result ≢ OK → list.new ≡ list.old }
    {
        let answer = self.come_to_row();
        if !is_fed_row(answer) {
            return status_of_fed(answer);
        }
        if self.list_row(list) {
            status::OK
        } else {
            status::REFUSED
        }
    }

    /// Writes the next row packed, and returns the status.
    pub fn pack_next(&mut self, bytes: &mut [u8]) -> u32
        ensures gives { GivesFed self.old self.new result }
        ensures packed { result ≡ OK → IsPacked self.new.layout.black_is_0 self.new.rows.ctx.held.settings.columns
            self.new.rows.ctx.held.reference bytes.old bytes.new }
        ensures refused { result ≡ REFUSED → length bytes.new < bytes_of_row self.new.rows.ctx.held.settings.columns }
        ensures unwritten { result ≢ OK → bytes.new ≡ bytes.old }
    {
        let answer = self.come_to_row();
        if !is_fed_row(answer) {
            return status_of_fed(answer);
        }
        if self.pack_row(bytes) {
            status::OK
        } else {
            status::REFUSED
        }
    }

    /// Passes the next rows to a sink of their width, first the one that was kept. None is kept.
    fn push_all<D: Decoder>(&mut self, sink: &mut D) -> Result<Fed>
        requires width { D.width sink.old ≡ self.old.rows.ctx.held.settings.columns }
        requires unrefused { D.has_refused sink.old ≡ false }
        ensures width { D.width sink.new ≡ D.width sink.old }
        ensures passes { PassesAll (D.step (D.width sink.old)) (state_of D.Decoder sink.old) (state_of D.Decoder sink.new)
            self.old self.new result }
    {
        self.reported = None;
        if !self.is_kept {
            return self.rows.push_rows(sink);
        }
        self.is_kept = false;
        if let Err(refusal) = sink.push_row(self.rows.row()) {
            return Err(refusal);
        }
        self.rows.push_rows(sink)
    }

    /// Packs the row that is kept and the next ones, as `pack_rows` does.
    fn pack_kept(&mut self, bytes: &mut [u8], count: &mut usize) -> u32
        ensures { PacksRows self.old self.new bytes.old bytes.new count.new result }
    {
        let columns = self.rows.settings().columns;
        let mut sink = PackedRows::new(bytes, columns, spaced(self.layout));
        let answer = self.push_all(&mut sink);
        sink.write_white();
        *count = sink.rows();
        self.is_kept = sink.has_refused();
        status_after(answer, *count, self.is_kept)
    }

    /// Packs the row that is next and those after it, as `pack_rows` does.
    #[cold]
    #[inline(never)]
    fn pack_next_rows(&mut self, bytes: &mut [u8], count: &mut usize) -> u32
        ensures { PacksRows self.old self.new bytes.old bytes.new count.new result }
    {
        let answer = self.come_to_row();
        if !is_fed_row(answer) {
            *count = 0;
            return status_of_fed(answer);
        }
        self.is_kept = true;
        self.pack_kept(bytes, count)
    }

    /// Packs the next rows, as many as there is room for, each a stride after the one before. `count` is how many.
    pub fn pack_rows(&mut self, bytes: &mut [u8], count: &mut usize) -> u32
        ensures { PacksRows self.old self.new bytes.old bytes.new count.new result }
    {
        if self.stays_within_line() {
            *count = 0;
            return status::NEEDS_MORE;
        }
        self.pack_next_rows(bytes, count)
    }

    /// Lists the row that is kept and the next ones, as `list_rows` does.
    fn list_kept(&mut self, lists: &mut [u32], count: &mut usize) -> u32
        ensures { ListsRows self.old self.new lists.old lists.new count.new result }
    {
        let columns = self.rows.settings().columns;
        let mut sink = ListedRows::new(lists, columns);
        let answer = self.push_all(&mut sink);
        *count = sink.rows();
        self.is_kept = sink.has_refused();
        status_after(answer, *count, self.is_kept)
    }

    /// Lists the row that is next and those after it, as `list_rows` does.
    #[cold]
    #[inline(never)]
    fn list_next_rows(&mut self, lists: &mut [u32], count: &mut usize) -> u32
        ensures { ListsRows self.old self.new lists.old lists.new count.new result }
    {
        let answer = self.come_to_row();
        if !is_fed_row(answer) {
            *count = 0;
            return status_of_fed(answer);
        }
        self.is_kept = true;
        self.list_kept(lists, count)
    }

    /// Lists the next rows, as many as there is room for. `count` is how many.
    pub fn list_rows(&mut self, lists: &mut [u32], count: &mut usize) -> u32
        ensures { ListsRows self.old self.new lists.old lists.new count.new result }
    {
        if self.stays_within_line() {
            *count = 0;
            return status::NEEDS_MORE;
        }
        self.list_next_rows(lists, count)
    }

    /// Writes the bytes that were fed and aren't consumed if there is room for them, and returns the status. `count` is how many
    /// there are. `NEEDS_MORE` says that a gap waits for more data, and only the number of its bits is kept: then none are written,
    /// whatever room there is.
    pub fn give_unused(&self, bytes: &mut [u8], count: &mut usize) -> u32
        ensures { GivesUnused self.now.rows bytes.old bytes.new count.new result }
    {
        let left = self.rows.unused_len();
        *count = left;
        if !self.rows.keeps_unused() {
            return status::NEEDS_MORE;
        }
        if left > bytes.len() {
            return status::REFUSED;
        }
        // All of them are kept.
        let _ = self.rows.copy_unused(&mut bytes[..left]);
        status::OK
    }

    /// Reports the last row to C: what was reported before, if that still holds.
    #[inline(always)]
    pub fn tell(&mut self, outcome: &mut RowOutcome)
        ensures reported { TellsOf (as_paused self.new.rows) outcome.new }
        ensures rows { self.new.rows ≡ self.old.rows }
        ensures kept { self.new.is_kept ≡ self.old.is_kept }
        ensures layout { self.new.layout ≡ self.old.layout }
    {
        if let Some(reported) = self.reported {
            *outcome = reported;
            return;
        }
        let reported = self.reported_anew();
        self.reported = Some(reported);
        *outcome = reported;
    }

    /// Returns what C gets of the last row.
    fn reported_anew(&self) -> RowOutcome
        ensures { TellsOf (as_paused self.now.rows) result }
    {
        RowOutcome {
            rows: self.rows.rows_read(),
            changes: self.rows.row().len() as u64,
            line_start: self.rows.line_start() as u64,
            bytes_read: self.rows.bytes_read() as u64,
            damaged_rows: self.rows.damaged_rows(),
            damage: damage_reported(self.rows.damage()),
            missed_eols: self.rows.missed_eols(),
            cut_rows: self.rows.cut_rows(),
            is_cut: u64::from(self.rows.is_cut()),
            missed_eol: miss_reported(self.rows.missed_eol()),
        }
    }
}
