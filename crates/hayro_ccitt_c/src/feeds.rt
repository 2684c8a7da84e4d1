//! The calls for C that read rows from data in pieces.

ghost use Rattle.std.specs.Prelude.{◌≡◌, ◌≢◌, ◌<◌, ◌⊎◌, ◌↔◌, None, IfSome, length, false, true};
ghost use Rattle.hayro_ccitt.specs.Rows.{changes};
ghost use Rattle.hayro_ccitt_c.specs.Owned.{OnFeeding, OnFeedings};
ghost use Rattle.hayro_ccitt_c.specs.Packing.{bytes_of_row};
ghost use Rattle.hayro_ccitt_c.specs.RowsFed.{FinishesFeed, GivesFed, GivesUnused, IsFeedOpened, TakesBytes};
ghost use Rattle.hayro_ccitt_c.specs.RowsReported.{as_paused};
ghost use Rattle.hayro_ccitt_c.specs.GivenRows.{ListsRows, PacksRows};
ghost use Rattle.hayro_ccitt_c.specs.RowsGiven.{IsListed, IsPacked, TellsOf, reported_nothing};
ghost use Rattle.hayro_ccitt_c.specs.Settings.{layout_of, order_of, settings_of};
ghost use Rattle.c_rows.specs.declared.status.TheConstants.{OK, OUT_OF_MEMORY, REFUSED, NOT_TAKEN, NEEDS_MORE};

use crate::feed_handle::Feed;
use crate::owned::Owned;
use c_rows::row_outcome::{RowOutcome, nothing_reported};
use c_rows::settings::{Settings, layout_of, order_of, settings_of};
use c_rows::status;
use std::alloc::Global;

/// Opens a reader of the rows of data that comes in pieces. The reader must be closed: all zeros, or as
/// [`hayro_ccitt_feed_close`] left it. The data is passed to [`hayro_ccitt_feed`], and finished by [`hayro_ccitt_feed_finish`].
///
/// `OUT_OF_MEMORY` says that an allocation failed; `NOT_TAKEN`, that the settings are invalid or the reader is open. With all
/// but `OK` the reader is unchanged.
#[unsafe(no_mangle)]
pub extern "C" fn hayro_ccitt_feed_open(alloc: Global, settings: &Settings, feed: &mut Feed) -> u32
    ensures statuses { (result ≡ OK) ⊎ (result ≡ OUT_OF_MEMORY) ⊎ (result ≡ NOT_TAKEN) }
    ensures opened { result ≡ OK → IfSome (settings_of settings.now) (λ s.
        OnFeeding feed.new.handle.value (IsFeedOpened s (order_of settings.now) (layout_of settings.now))) }
    ensures is_open { result ≡ OK → feed.new.is_open ≡ true }
    ensures unchanged { result ≢ OK → feed.new ≡ feed.old }
    ensures untaken { (result ≡ NOT_TAKEN) ↔ ((settings_of settings.now ≡ None) ⊎ (feed.old.is_open ≡ true)) }
{
    if feed.is_open {
        return status::NOT_TAKEN;
    }
    let Some(meant) = settings_of(settings) else {
        return status::NOT_TAKEN;
    };
    let layout = layout_of(settings);
    let Ok(feeding) = Owned::feeding(alloc, order_of(settings), meant, layout) else {
        return status::OUT_OF_MEMORY;
    };
    feed.hold(feeding);
    status::OK
}

/// Feeds bytes as [`hayro_ccitt_feed`] does, by a call.
#[cold]
#[inline(never)]
fn feed_by_call(alloc: Global, feed: &mut Feed, bytes: &[u8]) -> u32
    requires { feed.old.is_open ≡ true }
    ensures takes { OnFeedings feed.old.handle.value feed.new.handle.value (λ old new. TakesBytes bytes.now old new result) }
    ensures is_open { feed.new.is_open ≡ true }
{
    let mut feeding = feed.take(alloc);
    let status = feeding.take_bytes(bytes);
    feed.hold(feeding);
    status
}

/// Feeds the bytes that come next in the data. They are copied, as far as they aren't read at once by the calls that follow.
///
/// `OUT_OF_MEMORY` says that an allocation failed; `OVERFLOW`, that all bytes fed would be more than 2^61 - 9; `NOT_TAKEN`,
/// that the reader isn't open or the data is finished. With all but `OK` no byte is fed, and the reading is the same.
#[unsafe(no_mangle)]
pub extern "C" fn hayro_ccitt_feed(alloc: Global, feed: &mut Feed, bytes: &[u8]) -> u32
    ensures takes { feed.old.is_open ≡ true → OnFeedings feed.old.handle.value feed.new.handle.value
        (λ old new. TakesBytes bytes.now old new result) }
    ensures is_open { feed.new.is_open ≡ feed.old.is_open }
    ensures untaken { feed.old.is_open ≡ false → (result ≡ NOT_TAKEN) × (feed.new ≡ feed.old) }
{
    if !feed.is_open {
        return status::NOT_TAKEN;
    }
    let mut feeding = feed.take(alloc);
    let is_fed = feeding.take_at_once(bytes);
    feed.hold(feeding);
    if is_fed {
        return status::OK;
    }
    feed_by_call(alloc, feed, bytes)
}

/// Finishes the data: no bytes follow those that were fed. `NOT_TAKEN` says that the reader isn't open.
#[unsafe(no_mangle)]
pub extern "C" fn hayro_ccitt_feed_finish(alloc: Global, feed: &mut Feed) -> u32
    ensures finishes { feed.old.is_open ≡ true → OnFeedings feed.old.handle.value feed.new.handle.value
        (λ old new. FinishesFeed old new) }
    ensures was_open { feed.old.is_open ≡ true → result ≡ OK }
    ensures is_open { feed.new.is_open ≡ feed.old.is_open }
    ensures untaken { feed.old.is_open ≡ false → (result ≡ NOT_TAKEN) × (feed.new ≡ feed.old) }
{
    if !feed.is_open {
        return status::NOT_TAKEN;
    }
    let mut feeding = feed.take(alloc);
    let status = feeding.finish_data();
    feed.hold(feeding);
    status
}

/// Reads the next row, if no data that follows can change it, and lists its changes in `list`. The numbers after the last
/// change keep their values.
///
/// `NEEDS_MORE` says that more data is needed, or its end; `NO_ROW`, that no row is left; `REFUSED`, that there is no room for
/// the row, which the next call returns; `OUT_OF_MEMORY`, that an allocation failed: then nothing is read, and the call can be
/// made again; `NOT_TAKEN`, that the reader isn't open. `outcome` describes the last row that was read; with `NOT_TAKEN`, it is
/// zeros.
#[unsafe(no_mangle)]
pub extern "C" fn hayro_ccitt_feed_next_changes(
    alloc: Global,
    feed: &mut Feed,
    list: &mut [u32],
    outcome: &mut RowOutcome,
) -> u32
    ensures gives { feed.old.is_open ≡ true → OnFeedings feed.old.handle.value feed.new.handle.value
        (λ old new. GivesFed old new result) }
    ensures listed { result ≡ OK → OnFeeding feed.new.handle.value (λ feeding.
        IsListed feeding.rows.ctx.held.reference list.old list.new) }
    ensures refused { result ≡ REFUSED → OnFeeding feed.new.handle.value (λ feeding.
        length list.new < length (changes feeding.rows.ctx.held.reference)) }
    ensures unwritten { result ≢ OK → list.new ≡ list.old }
    ensures reported { feed.old.is_open ≡ true → OnFeeding feed.new.handle.value (λ feeding.
        TellsOf (as_paused feeding.rows) outcome.new) }
    ensures is_open { feed.new.is_open ≡ feed.old.is_open }
    ensures untaken { feed.old.is_open ≡ false
        → (result ≡ NOT_TAKEN) × (feed.new ≡ feed.old) × (outcome.new ≡ reported_nothing) }
{
    if !feed.is_open {
        *outcome = nothing_reported();
        return status::NOT_TAKEN;
    }
    let mut feeding = feed.take(alloc);
    let status = feeding.list_fed(list, outcome);
    feed.hold(feeding);
    status
}

/// Reads the next row as [`hayro_ccitt_feed_next_changes`] does, with the same statuses, and packs it into `bytes`:
/// (columns + 7) / 8 bytes, the leftmost pixel in a byte's highest bit, 1 for black, and zeros after the last pixel; if the settings
/// had a flag of 32, all of its bits are inverted. The bytes after the row keep their values.
#[unsafe(no_mangle)]
pub extern "C" fn hayro_ccitt_feed_next_packed(
    alloc: Global,
    feed: &mut Feed,
    bytes: &mut [u8],
    outcome: &mut RowOutcome,
) -> u32
    ensures gives { feed.old.is_open ≡ true → OnFeedings feed.old.handle.value feed.new.handle.value
        (λ old new. GivesFed old new result) }
    ensures packed { result ≡ OK → OnFeeding feed.new.handle.value (λ feeding.
        IsPacked feeding.layout.black_is_0 feeding.rows.ctx.held.settings.columns feeding.rows.ctx.held.reference
        bytes.old bytes.new) }
    ensures refused { result ≡ REFUSED → OnFeeding feed.new.handle.value (λ feeding.
        length bytes.new < bytes_of_row feeding.rows.ctx.held.settings.columns) }
    ensures unwritten { result ≢ OK → bytes.new ≡ bytes.old }
    ensures reported { feed.old.is_open ≡ true → OnFeeding feed.new.handle.value (λ feeding.
        TellsOf (as_paused feeding.rows) outcome.new) }
    ensures is_open { feed.new.is_open ≡ feed.old.is_open }
    ensures untaken { feed.old.is_open ≡ false
        → (result ≡ NOT_TAKEN) × (feed.new ≡ feed.old) × (outcome.new ≡ reported_nothing) }
{
    if !feed.is_open {
        *outcome = nothing_reported();
        return status::NOT_TAKEN;
    }
    let mut feeding = feed.take(alloc);
    let status = feeding.pack_fed(bytes, outcome);
    feed.hold(feeding);
    status
}

/// Reports that no reading is open, and so no row is given.
fn nothing_given(count: &mut usize, outcome: &mut RowOutcome) -> u32
    ensures status { result ≡ NOT_TAKEN }
    ensures none { count.new ≡ 0 }
    ensures reported { outcome.new ≡ reported_nothing }
{
    *count = 0;
    *outcome = nothing_reported();
    status::NOT_TAKEN
}

/// Reads the next rows, as many as there is room for, and packs them into `bitmap`, each as [`hayro_ccitt_feed_next_packed`] does,
/// and each a stride after the one before. `count` is how many. The bytes between them, and after the last one, keep their values.
///
/// `OK` says that there is no room for one more, which was read: the next call gives it first. The other statuses are those of
/// [`hayro_ccitt_feed_next_packed`] after these rows: of them `REFUSED` says that there is no room for the first. `outcome`
/// describes the last row that was read.
#[unsafe(no_mangle)]
pub extern "C" fn hayro_ccitt_feed_rows_packed(
    alloc: Global,
    feed: &mut Feed,
    bitmap: &mut [u8],
    count: &mut usize,
    outcome: &mut RowOutcome,
) -> u32
    ensures packs { feed.old.is_open ≡ true → OnFeedings feed.old.handle.value feed.new.handle.value
        (λ old new. PacksRows old new bitmap.old bitmap.new count.new result) }
    ensures reported { feed.old.is_open ≡ true → OnFeeding feed.new.handle.value (λ feeding.
        TellsOf (as_paused feeding.rows) outcome.new) }
    ensures is_open { feed.new.is_open ≡ feed.old.is_open }
    ensures untaken { feed.old.is_open ≡ false → (result ≡ NOT_TAKEN) × (feed.new ≡ feed.old) × (bitmap.new ≡ bitmap.old)
        × (count.new ≡ 0) × (outcome.new ≡ reported_nothing) }
{
    if !feed.is_open {
        return nothing_given(count, outcome);
    }
    let mut feeding = feed.take(alloc);
    let status = feeding.pack_all_fed(bitmap, count, outcome);
    feed.hold(feeding);
    status
}

/// Reads the next rows, as many as there is room for, and lists them in `lists`, one after another: of each row the number of its
/// changes, and then the changes. `count` is how many. The numbers after the last row keep their values.
///
/// `OK` says that there is no room for one more, which was read: the next call gives it first. The other statuses are those of
/// [`hayro_ccitt_feed_next_changes`] after these rows: of them `REFUSED` says that there is no room for the first. `outcome`
/// describes the last row that was read.
#[unsafe(no_mangle)]
pub extern "C" fn hayro_ccitt_feed_rows_changes(
    alloc: Global,
    feed: &mut Feed,
    lists: &mut [u32],
    count: &mut usize,
    outcome: &mut RowOutcome,
) -> u32
    ensures lists { feed.old.is_open ≡ true → OnFeedings feed.old.handle.value feed.new.handle.value
        (λ old new. ListsRows old new lists.old lists.new count.new result) }
    ensures reported { feed.old.is_open ≡ true → OnFeeding feed.new.handle.value (λ feeding.
        TellsOf (as_paused feeding.rows) outcome.new) }
    ensures is_open { feed.new.is_open ≡ feed.old.is_open }
    ensures untaken { feed.old.is_open ≡ false → (result ≡ NOT_TAKEN) × (feed.new ≡ feed.old) × (lists.new ≡ lists.old)
        × (count.new ≡ 0) × (outcome.new ≡ reported_nothing) }
{
    if !feed.is_open {
        return nothing_given(count, outcome);
    }
    let mut feeding = feed.take(alloc);
    let status = feeding.list_all_fed(lists, count, outcome);
    feed.hold(feeding);
    status
}

/// Copies the bytes that were fed and aren't consumed to the front of `bytes`; after the end of the image they are what follows
/// it. `count` is how many there are. The bytes after them keep their values, and the reading doesn't change.
///
/// `NEEDS_MORE` says that a gap waits for more data, and only the number of its bits is kept: then none is copied, whatever room
/// there is. `REFUSED` says that there is no room for them; `NOT_TAKEN`, that the reader isn't open: then `count` is 0.
#[unsafe(no_mangle)]
pub extern "C" fn hayro_ccitt_feed_unused(
    alloc: Global,
    feed: &mut Feed,
    bytes: &mut [u8],
    count: &mut usize,
) -> u32
    ensures statuses { (result ≡ OK) ⊎ (result ≡ REFUSED) ⊎ (result ≡ NEEDS_MORE) ⊎ (result ≡ NOT_TAKEN) }
    ensures gives { feed.old.is_open ≡ true → OnFeeding feed.new.handle.value (λ feeding.
        GivesUnused feeding.rows bytes.old bytes.new count.new result) }
    ensures unwritten { result ≢ OK → bytes.new ≡ bytes.old }
    ensures unchanged { feed.new.handle.value ≡ feed.old.handle.value }
    ensures is_open { feed.new.is_open ≡ feed.old.is_open }
    ensures untaken { (result ≡ NOT_TAKEN) ↔ (feed.old.is_open ≡ false) }
    ensures none_reported { feed.old.is_open ≡ false → (count.new ≡ 0) × (feed.new ≡ feed.old) }
{
    if !feed.is_open {
        *count = 0;
        return status::NOT_TAKEN;
    }
    let feeding = feed.take(alloc);
    let status = feeding.give_unused(bytes, count);
    feed.hold(feeding);
    status
}

/// Closes a reader, and frees what it holds. `NOT_TAKEN` says that it isn't open; then nothing is done.
#[unsafe(no_mangle)]
pub extern "C" fn hayro_ccitt_feed_close(alloc: Global, feed: &mut Feed) -> u32
    ensures closed { feed.new.is_open ≡ false }
    ensures was_open { feed.old.is_open ≡ true → result ≡ OK }
    ensures was_closed { feed.old.is_open ≡ false → (result ≡ NOT_TAKEN) × (feed.new ≡ feed.old) }
{
    if !feed.is_open {
        return status::NOT_TAKEN;
    }
    drop(feed.take(alloc));
    status::OK
}
