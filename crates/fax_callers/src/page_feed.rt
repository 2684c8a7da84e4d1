//! Pages of any encoding, one after another, in data that comes in pieces.

ghost use Rattle.std.specs.Prelude.{◌≡◌, ◌≢◌, ◌≤◌, ◌<◌, ◌+◌, ◌-◌, ◌*◌, ◌/◌, ◌⊎◌, ◌↔◌, ℕ, List, [], true, false, Ok, Err, drop};
ghost use Rattle.std.specs.Prelude.{length, max, min, take};
ghost use Rattle.std.specs.Prelude.{IfOk, IfErr, IfNone, IfSome, IsOkUnless, OnOk, OnErr, Result};
ghost use Rattle.hayro_ccitt.specs.Bits.{BitsFit, bits_in};
ghost use Rattle.hayro_ccitt.specs.RowFeeds.{fed_bits};
ghost use Rattle.hayro_ccitt.specs.Rows.{AreChanges, Row, changes};
ghost use Rattle.fax_callers.specs.PageFeeds.{BytesComeNext, GivesNext, GivesOn, GivesPage, GivesPiece, IsPageFeedOf};
ghost use Rattle.fax_callers.specs.PageFeeds.{settings_of};
ghost use Rattle.fax_callers.specs.PageFeeds.{DropsRead, EndsPageHere, HasFailed, Waits, bytes_read, fed_from_start};
ghost use Rattle.fax_callers.specs.PageFeeds.{IsPaidFrom};
ghost use Rattle.fax_callers.specs.Pages.{IsPage};
ghost use Rattle.fax_callers.specs.PagesPaid.{PaysNext};

use crate::pages_by::pages_are_read;
use crate::rtc::{EolsSeen, find_page_end, none_seen};
use hayro_ccitt::bit_reader::BitOrder;
use hayro_ccitt::{DecodeError, DecodeSettings, Fed, Result, RowFeed};
use std::alloc::Global;
use std::marker::Model;

/// What a call of [`PageFeed::next_row`] came to.
#[derive(Copy, Clone, Debug, PartialEq, Eq)]
pub enum PageFed {
    /// A row of the page was read.
    Row,
    /// Data that follows could change what is next: feed more, or finish the data.
    NeedsMore,
    /// The page has ended. The next call begins the next one.
    PageEnd,
    /// The data has ended, and no page is left.
    End,
}

/// The fewest bytes that the reading of a page is given at once, if as many are there. What it is given after its end is given
/// again to that of the next.
const FEWEST_GIVEN: usize = 64;

/// The most bytes that it is given at once.
const MOST_GIVEN: usize = 4096;

/// Returns the first bytes, as many as a page is given at once that was given so many: at first few, then as many as it was
/// given.
fn first_piece<'a>(bytes: &'a [u8], given: usize) -> &'a [u8]
    ensures first { result.now ≡ take (min (length bytes.now) (max 64 (min given 4096))) bytes.now }
    ensures length { length result.now ≡ min (length bytes.now) (max 64 (min given 4096)) }
{
    let most = given.min(MOST_GIVEN).max(FEWEST_GIVEN);
    let count = bytes.len().min(most);
    &bytes[..count]
}

/// Feeds a page the bytes that come next, up to its RTC in Group 3, and returns how many. At RTC the page's data is finished.
fn give_piece(
    page: &mut RowFeed,
    order: BitOrder,
    seen: &mut EolsSeen,
    piece: &[u8],
) -> Result<usize>
    requires unfinished { page.old.finished ≡ false }
    requires fit { BitsFit piece.now }
    requires some { 0 < length piece.now }
    ensures { GivesPiece order piece.now seen.old seen.new page.old page.new result }
{
    let mut after = *seen;
    let end = find_page_end(page.settings().encoding, order, &mut after, piece);
    let count = end.unwrap_or(piece.len());
    page.feed(&piece[..count])?;
    if end.is_some() {
        page.finish();
    }
    *seen = after;
    Ok(count)
}

/// Returns whether more data is needed.
fn needs_more(answer: &Result<PageFed>) -> bool
    ensures more { result ≡ true → answer.now ≡ Ok PageFed.NeedsMore }
    ensures other { result ≡ false → answer.now ≢ Ok PageFed.NeedsMore }
{
    matches!(answer, Ok(PageFed::NeedsMore))
}

/// Reads the rows of pages that follow one another in data that comes in pieces, each row as soon as no data that follows can
/// change its line. Each page begins at the byte after the one before, as for [`page_ends_by`](crate::page_ends_by).
///
/// # Example
///
/// ```text
/// let mut pages = PageFeed::new(alloc, order, group4_pages(columns))?;
/// for piece in pieces {
///     pages.feed(piece)?;
///     show_pages(&mut pages)?;
/// }
/// pages.finish();
/// show_pages(&mut pages)?;
///
/// fn show_pages(pages: &mut PageFeed) -> Result<()> {
///     loop {
///         match pages.next_row()? {
///             PageFed::Row => show(pages.row()),
///             PageFed::PageEnd => turn_over(),
///             PageFed::NeedsMore | PageFed::End => return Ok(()),
///         }
///     }
/// }
/// ```
#[derive(Drop)]
pub struct PageFeed {
    alloc: Global,
    order: BitOrder,
    /// The rows of the page that is next or under way.
    page: RowFeed,
    /// What was seen just before the bytes that it wasn't given yet, where RTC is sought.
    seen: EolsSeen,
    /// The bytes that are still needed.
    held: Vec<u8>,
    /// How many of them the page was given.
    next: usize,
    /// How many bytes it was given in all.
    given: usize,
    is_last: bool,
}

impl Model for PageFeed {
    ghost use Rattle.fax_callers.specs.PageFeeds.{PageFeeding, page_feeding_of, IsHeld};

    ghost Value = { PageFeeding };

    ghost view = { page_feeding_of };

    ghost invariant = { IsHeld };
}

impl PageFeed {
    /// Creates a reader of pages whose bytes hold their bits in this order. Nothing was fed.
    ///
    /// # Errors
    ///
    /// `OutOfMemory` is the only one. Today nothing is allocated here.
    pub fn new(alloc: Global, order: BitOrder, settings: DecodeSettings) -> Result<PageFeed>
        ensures reading { (whole : List ℕ) → BitsFit whole → IfOk result (λ feed. IsPageFeedOf whole 0 feed) }
        ensures settings { IfOk result (λ feed. settings_of feed ≡ settings) }
        ensures order { IfOk result (λ feed. feed.order ≡ order) }
        ensures none_fed { IfOk result (λ feed. (fed_from_start feed ≡ 0) × (feed.finished ≡ false)) }
        ensures none_read { IfOk result (λ feed. feed.page.ctx.held.taken ≡ 0) }
        ensures none_paid { (whole : List ℕ) → BitsFit whole → IfOk result (λ feed. IsPaidFrom whole 0 0 0 feed) }
        ensures only_memory { IsOkUnless result DecodeError.OutOfMemory }
    {
        Ok(PageFeed {
            alloc,
            order,
            page: RowFeed::new(alloc, order, settings)?,
            seen: none_seen(),
            held: Vec::new(alloc),
            next: 0,
            given: 0,
            is_last: false,
        })
    }

    /// Begins the next page after the one that has ended, unless no byte of it was read.
    fn end_page(&mut self) -> Result<PageFed>
        ensures { EndsPageHere self.old self.new result }
    {
        let read = self.page.bytes_read();
        if read == 0 {
            return Ok(PageFed::End);
        }
        self.page = RowFeed::new(self.alloc, self.order, self.page.settings())?;
        let unread = self.given.saturating_sub(read);
        self.next = self.next.saturating_sub(unread);
        self.given = 0;
        self.seen = none_seen();
        Ok(PageFed::PageEnd)
    }

    /// Reads the next row of the page from the bytes that its reading was given.
    fn read_page(&mut self) -> Result<PageFed>
        ensures gives { (whole : List ℕ) (start : ℕ) → IsPageFeedOf whole start self.old
            → GivesNext whole start self.old self.new result }
        ensures waits { result ≡ Ok PageFed.NeedsMore → Waits self.old self.new }
        ensures failed { (error : DecodeError) → HasFailed self.old error → (self.new ≡ self.old) × (result ≡ Err error) }
        ensures order { self.new.order ≡ self.old.order }
        ensures finished { self.new.finished ≡ self.old.finished }
        ensures pays { (whole : List ℕ) (start : ℕ) → IsPageFeedOf whole start self.old
            → PaysNext whole start self.old self.new result }
    {
        match self.page.next_row()? {
            Fed::Row => Ok(PageFed::Row),
            Fed::NeedsMore => Ok(PageFed::NeedsMore),
            Fed::End => self.end_page(),
        }
    }

    /// Gives the reading of the page the bytes that come next, or finishes its data if none follow, and returns whether there was
    /// anything to give.
    fn give(&mut self) -> Result<bool>
        ensures { GivesOn self.old self.new result }
    {
        if self.page.is_finished() {
            return Ok(false);
        }
        if self.next == self.held.len() {
            if !self.is_last {
                return Ok(false);
            }
            self.page.finish();
            return Ok(true);
        }
        let piece = first_piece(&self.held[self.next..], self.given);
        let count = give_piece(&mut self.page, self.order, &mut self.seen, piece)?;
        self.next += count;
        self.given += count;
        Ok(true)
    }

    /// Returns whether the data has ended where the next page would begin.
    fn has_no_page(&self) -> bool
        ensures none { result ≡ true → (self.now.finished ≡ true) × (fed_from_start self.now ≡ 0) }
    {
        self.is_last && self.given == 0 && self.next == self.held.len()
    }

    /// Reads the next row, or ends the page, if no data that follows can change it. After [`PageFed::NeedsMore`] feed more,
    /// or finish the data. After [`PageFed::PageEnd`] the next call begins the next page. There is none, and each further call returns
    /// [`PageFed::End`], when no data is left, or when no byte of the rest is read, as with no columns.
    ///
    /// # Errors
    ///
    /// Those of [`RowFeed::next_row`]. After a fault of a page each further call returns it again; after `OutOfMemory`
    /// nothing was read, and the call can be made again.
    pub fn next_row(&mut self) -> Result<PageFed>
        ensures gives { (whole : List ℕ) (start : ℕ) → IsPageFeedOf whole start self.old
            → GivesNext whole start self.old self.new result }
        ensures needs_more { (whole : List ℕ) (start : ℕ) → IsPageFeedOf whole start self.old
            → result ≡ Ok PageFed.NeedsMore → self.new.finished ≡ false }
        ensures order { self.new.order ≡ self.old.order }
        ensures finished { self.new.finished ≡ self.old.finished }
        ensures failed { (error : DecodeError) → HasFailed self.old error → 0 < fed_from_start self.old
            → (self.new ≡ self.old) × (result ≡ Err error) }
        // A page that is closed by RTC or EOFB is read as its rows, and ends after them.
        ensures pages { (whole : List ℕ) (start : ℕ) (rows : List Row) (count : ℕ) → IsPageFeedOf whole start self.old
            → IsPage (settings_of self.old) rows count (bits_in self.old.order (drop start whole))
            → GivesPage whole start rows count self.old self.new result }
        // What it counts is paid, as `laws::pages_paid` says.
        ensures pays { (whole : List ℕ) (start : ℕ) → IsPageFeedOf whole start self.old
            → PaysNext whole start self.old self.new result }
    {
        pages_are_read(self.page.settings(), self.order);
        if self.has_no_page() {
            return Ok(PageFed::End);
        }
        loop {
            let answer = self.read_page();
            if !needs_more(&answer) {
                return answer;
            }
            if !self.give()? {
                return answer;
            }
        }
    }

    /// Drops the bytes that aren't needed any more.
    fn drop_read(&mut self)
        ensures { DropsRead self.old self.new }
    {
        let unread = self.given.saturating_sub(self.page.bytes_read());
        let bytes = self.next.saturating_sub(unread);
        self.held.rotate_left(bytes);
        let left = self.held.len() - bytes;
        self.held.truncate(left);
        self.next -= bytes;
    }

    /// Feeds the bytes that come next in the data. Those that were read are dropped first.
    ///
    /// # Errors
    ///
    /// `OutOfMemory` is the only one: the bytes can't be stored. No byte is fed then, and the reading is the same.
    pub fn feed(&mut self, bytes: &[u8]) -> Result<()>
        requires unfinished { self.old.finished ≡ false }
        ensures fed { OnOk result ((whole : List ℕ) (start : ℕ) → IsPageFeedOf whole start self.old
            → BytesComeNext whole start self.old bytes.now → IsPageFeedOf whole start self.new) }
        ensures refused { OnErr result ((whole : List ℕ) (start : ℕ) → IsPageFeedOf whole start self.old
            → IsPageFeedOf whole start self.new) }
        ensures only_memory { IsOkUnless result DecodeError.OutOfMemory }
        ensures same { (self.new.page ≡ self.old.page) × (self.new.order ≡ self.old.order)
            × (self.new.finished ≡ self.old.finished) }
        ensures given { self.new.given ≡ self.old.given }
        ensures counts { OnOk result (fed_from_start self.new ≡ fed_from_start self.old + length bytes.now) }
        // Of the bytes that the page was given only those that it hasn't read are held.
        ensures held { OnOk result (length self.new.held + min (bytes_read self.old) self.old.given
            ≤ fed_from_start self.old + length bytes.now) }
    {
        self.drop_read();
        self.held.extend_from_slice(bytes)?;
        Ok(())
    }

    /// Finishes the data: no bytes follow those that were fed.
    pub fn finish(&mut self)
        ensures finished { (whole : List ℕ) (start : ℕ) → IsPageFeedOf whole start self.old
            → length whole ≡ start + fed_from_start self.old → IsPageFeedOf whole start self.new }
        ensures same { self.new ≡ record self.old { finished = true } }
    {
        self.is_last = true;
    }

    /// Returns whether the data is finished.
    pub fn is_finished(&self) -> bool
        ensures { result ≡ self.now.finished }
    {
        self.is_last
    }

    /// Returns the changes of the last row of the page that was read, in ascending order, as [`RowFeed::row`] does. There
    /// are none before its first row.
    pub fn row(&self) -> &[u32]
        ensures changes { result.now ≡ changes self.now.page.ctx.held.reference }
        ensures lawful { AreChanges (settings_of self.now).columns result.now }
    {
        self.page.row()
    }

    /// Returns the number of rows of the page that were read.
    pub fn rows_read(&self) -> u64
        ensures { result ≡ self.now.page.ctx.held.taken }
    {
        self.page.rows_read()
    }

    /// Returns the fault of the last row of the page that was read if its line was damaged and repaired, as [`RowFeed::damage`]
    /// does (T.4, 4.1.2).
    pub fn damage(&self) -> Option<DecodeError>
        ensures { result ≡ self.now.page.rows.damage }
    {
        self.page.damage()
    }

    /// Returns whether a run of that row, or a vertical mode, goes beyond the row's end and was cut there, as
    /// [`RowFeed::is_cut`] does (T.4, 4.1.1).
    pub fn is_cut(&self) -> bool
        ensures { result ≡ self.now.page.rows.cut }
    {
        self.page.is_cut()
    }
}
