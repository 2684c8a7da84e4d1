//! What a handle owns whose rows come from data in pieces.

ghost use Rattle.std.specs.Prelude.{◌≡◌, ◌≢◌, ◌≤◌, ◌<◌, IfOk, length, false, true};
ghost use Rattle.hayro_ccitt.specs.Rows.{changes};
ghost use Rattle.hayro_ccitt_c.specs.Owned.{IfFeeding, IfFeedings, is_feeding};
ghost use Rattle.hayro_ccitt_c.specs.Packing.{bytes_of_row};
ghost use Rattle.hayro_ccitt_c.specs.RowsFed.{FinishesFeed, GivesFed, GivesUnused, IsFeedOpened, TakesBytes};
ghost use Rattle.hayro_ccitt_c.specs.RowsReported.{as_paused};
ghost use Rattle.hayro_ccitt_c.specs.GivenRows.{ListsRows, PacksRows};
ghost use Rattle.hayro_ccitt_c.specs.RowsGiven.{IsListed, IsPacked, TellsOf};
ghost use Rattle.c_rows.specs.declared.status.TheConstants.{OK, REFUSED};

use crate::owned::Owned;
use c_rows::feeding::Feeding;
use c_rows::packed_rows::Layout;
use c_rows::row_outcome::RowOutcome;
use c_rows::status;
use hayro_ccitt::DecodeSettings;
use hayro_ccitt::bit_reader::BitOrder;
use std::alloc::Global;

impl Owned {
    /// Creates a reading to which nothing was fed. Its only error is `OutOfMemory`.
    pub(crate) fn feeding(
        alloc: Global,
        order: BitOrder,
        settings: DecodeSettings,
        layout: Layout,
    ) -> hayro_ccitt::Result<Box<Owned>>
        requires reaches { bytes_of_row settings.columns ≤ layout.stride }
        ensures opened { IfOk result (λ made. IfFeeding made.value (IsFeedOpened settings order layout)) }
        ensures kind { IfOk result (λ made. is_feeding made.value ≡ true) }
    {
        let feeding = Feeding::new(alloc, order, settings, layout)?;
        let held = Box::new(alloc, Owned::Feeding(feeding))?;
        Ok(held)
    }

    /// Feeds the bytes that come next in the data, if it is a single one that can be stored at once, and returns whether it was;
    /// otherwise nothing changes.
    #[inline(always)]
    pub(crate) fn take_at_once(&mut self, bytes: &[u8]) -> bool
        requires feeds { is_feeding self.old ≡ true }
        ensures takes { result ≡ true → IfFeedings self.old self.new (λ old new. TakesBytes bytes.now old new OK) }
        ensures unchanged { result ≡ false → self.new ≡ self.old }
        ensures feeds { is_feeding self.new ≡ true }
    {
        match self {
            Owned::Feeding(feeding) => feeding.take_at_once(bytes),
            Owned::Reading(_) | Owned::Strip(_) => false,
        }
    }

    /// Feeds the bytes that come next in the data, and returns the status.
    pub(crate) fn take_bytes(&mut self, bytes: &[u8]) -> u32
        requires feeds { is_feeding self.old ≡ true }
        ensures takes { IfFeedings self.old self.new (λ old new. TakesBytes bytes.now old new result) }
        ensures feeds { is_feeding self.new ≡ true }
    {
        match self {
            Owned::Feeding(feeding) => feeding.take_bytes(bytes),
            Owned::Reading(_) | Owned::Strip(_) => status::NOT_TAKEN,
        }
    }

    /// Finishes the data, and returns the status.
    pub(crate) fn finish_data(&mut self) -> u32
        requires feeds { is_feeding self.old ≡ true }
        ensures finishes { IfFeedings self.old self.new (λ old new. FinishesFeed old new) }
        ensures finished { result ≡ OK }
        ensures feeds { is_feeding self.new ≡ true }
    {
        match self {
            Owned::Feeding(feeding) => {
                feeding.finish();
                status::OK
            }
            Owned::Reading(_) | Owned::Strip(_) => status::NOT_TAKEN,
        }
    }

    /// Writes the next row of data in pieces as a list of its changes, and returns the status.
    pub(crate) fn list_fed(&mut self, list: &mut [u32], outcome: &mut RowOutcome) -> u32
        requires feeds { is_feeding self.old ≡ true }
        ensures gives { IfFeedings self.old self.new (λ old new. GivesFed old new result) }
        ensures listed { result ≡ OK → IfFeeding self.new (λ feeding.
            IsListed feeding.rows.ctx.held.reference list.old list.new) }
        ensures refused { result ≡ REFUSED → IfFeeding self.new (λ feeding.
            length list.new < length (changes feeding.rows.ctx.held.reference)) }
        ensures unwritten { result ≢ OK → list.new ≡ list.old }
        ensures reported { IfFeeding self.new (λ feeding. TellsOf (as_paused feeding.rows) outcome.new) }
        ensures feeds { is_feeding self.new ≡ true }
    {
        match self {
            Owned::Feeding(feeding) => {
                let status = feeding.list_next(list);
                feeding.tell(outcome);
                status
            }
            Owned::Reading(_) | Owned::Strip(_) => status::NOT_TAKEN,
        }
    }

    /// Writes the next row of data in pieces packed, and returns the status.
    pub(crate) fn pack_fed(&mut self, bytes: &mut [u8], outcome: &mut RowOutcome) -> u32
        requires feeds { is_feeding self.old ≡ true }
        ensures gives { IfFeedings self.old self.new (λ old new. GivesFed old new result) }
        ensures packed { result ≡ OK → IfFeeding self.new (λ feeding.
            IsPacked feeding.layout.black_is_0 feeding.rows.ctx.held.settings.columns feeding.rows.ctx.held.reference
            bytes.old bytes.new) }
        ensures refused { result ≡ REFUSED → IfFeeding self.new (λ feeding.
            length bytes.new < bytes_of_row feeding.rows.ctx.held.settings.columns) }
        ensures unwritten { result ≢ OK → bytes.new ≡ bytes.old }
        ensures reported { IfFeeding self.new (λ feeding. TellsOf (as_paused feeding.rows) outcome.new) }
        ensures feeds { is_feeding self.new ≡ true }
    {
        match self {
            Owned::Feeding(feeding) => {
                let status = feeding.pack_next(bytes);
                feeding.tell(outcome);
                status
            }
            Owned::Reading(_) | Owned::Strip(_) => status::NOT_TAKEN,
        }
    }

    /// Packs the next rows of data in pieces, as many as there is room for, and returns the status. `count` is how many.
    pub(crate) fn pack_all_fed(
        &mut self,
        bytes: &mut [u8],
        count: &mut usize,
        outcome: &mut RowOutcome,
    ) -> u32
        requires feeds { is_feeding self.old ≡ true }
        ensures packs { IfFeedings self.old self.new (λ old new. PacksRows old new bytes.old bytes.new count.new result) }
        ensures reported { IfFeeding self.new (λ feeding. TellsOf (as_paused feeding.rows) outcome.new) }
        ensures feeds { is_feeding self.new ≡ true }
    {
        match self {
            Owned::Feeding(feeding) => {
                let status = feeding.pack_rows(bytes, count);
                feeding.tell(outcome);
                status
            }
            Owned::Reading(_) | Owned::Strip(_) => status::NOT_TAKEN,
        }
    }

    /// Lists the next rows of data in pieces, as many as there is room for, and returns the status. `count` is how many.
    pub(crate) fn list_all_fed(
        &mut self,
        lists: &mut [u32],
        count: &mut usize,
        outcome: &mut RowOutcome,
    ) -> u32
        requires feeds { is_feeding self.old ≡ true }
        ensures lists { IfFeedings self.old self.new (λ old new. ListsRows old new lists.old lists.new count.new result) }
        ensures reported { IfFeeding self.new (λ feeding. TellsOf (as_paused feeding.rows) outcome.new) }
        ensures feeds { is_feeding self.new ≡ true }
    {
        match self {
            Owned::Feeding(feeding) => {
                let status = feeding.list_rows(lists, count);
                feeding.tell(outcome);
                status
            }
            Owned::Reading(_) | Owned::Strip(_) => status::NOT_TAKEN,
        }
    }

    /// Writes the bytes that were fed and aren't consumed if there is room for them, and returns the status. `count` is how many
    /// there are. `NEEDS_MORE` says that a gap waits for more data, and only the number of its bits is kept: then none are written,
    /// whatever room there is.
    pub(crate) fn give_unused(&self, bytes: &mut [u8], count: &mut usize) -> u32
        requires feeds { is_feeding self.now ≡ true }
        ensures { IfFeeding self.now (λ feeding. GivesUnused feeding.rows bytes.old bytes.new count.new result) }
    {
        match self {
            Owned::Feeding(feeding) => feeding.give_unused(bytes, count),
            Owned::Reading(_) | Owned::Strip(_) => status::REFUSED,
        }
    }
}
