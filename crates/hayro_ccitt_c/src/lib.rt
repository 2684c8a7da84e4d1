//! The decoder and the encoder for callers in C, and in other languages that call C. `c/hayro_ccitt.h` and
//! `c/fax_encode.h` declare what is exported here.
//!
//! A call never reads or writes outside the memory that it is passed, whatever the data is, and frees all that it has
//! allocated before it returns, except what an open reader or writer holds.
#![tactic(auto)]

ghost use Rattle.std.specs.Prelude.{◌≡◌, ◌≢◌, ◌<◌, ◌≤◌, ◌+◌, ◌*◌, ◌⊎◌, ◌↔◌, None, IfSome, length, get_or, [], false, true};
ghost use Rattle.hayro_ccitt.specs.PlainReading.{plain};
ghost use Rattle.hayro_ccitt.specs.Rows.{AreChanges, changes, pixels};
ghost use Rattle.hayro_ccitt.specs.Bits.{BitsFit, bits_of};
ghost use Rattle.fax_encode.specs.Packed.{shown};
ghost use Rattle.fax_encode.specs.RowByRow.{no_rows};
ghost use Rattle.hayro_ccitt_c.specs.Encoding.{asked, bits_asked, layout_asked, of_rows, rows_asked, AreEncoded};
ghost use Rattle.hayro_ccitt_c.specs.Encoding.{HaveNoRoom};
ghost use Rattle.hayro_ccitt_c.specs.Owned.{OnReading, OnReadings, OnStrip, OnStrips};
ghost use Rattle.hayro_ccitt_c.specs.Packing.{bytes_of_row, row_read, together};
ghost use Rattle.hayro_ccitt_c.specs.Reports.{OnSettings, IsReport, TellsDamage, changes_taken};
ghost use Rattle.hayro_ccitt_c.specs.Reports.{outcome_of};
ghost use Rattle.hayro_ccitt_c.specs.Reports.{ArePacked, AreListed, AreTogether, numbers_taken};
ghost use Rattle.hayro_ccitt_c.specs.RowsGiven.{GivesRow, IsListed, IsOpened, IsPacked, TellsOf, reported_nothing};
ghost use Rattle.hayro_ccitt_c.specs.RowsTaken.{Finishes, IfFinished, IsGiven, TakesRow, strip_reported};
ghost use Rattle.hayro_ccitt_c.specs.Settings.{layout_of, order_of, settings_of};
ghost use Rattle.c_rows.specs.declared.strip.Strip.TheVariants.{Rows};
ghost use Rattle.c_rows.specs.declared.status.TheConstants.{OK, OUT_OF_MEMORY, REFUSED, NOT_TAKEN};

mod checks;
mod feed_handle;
mod feeds;
mod handle;
mod owned;
mod owned_feeding;
mod row_handle;

use c_rows::change_count::ChangeCount;
use c_rows::encoding::{Unencoded, encoded, encoder_of_rows, layout_asked, rows_asked};
pub use c_rows::encoding::{EncodeOutcome, EncodeSettings};
use c_rows::listed_rows::ListedRows;
use c_rows::packed_rows::PackedRows;
pub use c_rows::report::Outcome;
use c_rows::report::{decoded, reported, untaken};
pub use c_rows::row_outcome::RowOutcome;
use c_rows::row_outcome::nothing_reported;
pub use c_rows::settings::Settings;
use c_rows::settings::{layout_of, order_of, settings_for};
use c_rows::status;
pub use checks::{ViolationOutcome, hayro_ccitt_check};
pub use feed_handle::Feed;
pub use feeds::{
    hayro_ccitt_feed, hayro_ccitt_feed_close, hayro_ccitt_feed_finish,
    hayro_ccitt_feed_next_changes, hayro_ccitt_feed_next_packed, hayro_ccitt_feed_open,
    hayro_ccitt_feed_rows_changes, hayro_ccitt_feed_rows_packed, hayro_ccitt_feed_unused,
};
use hayro_ccitt::bits_fit;
use owned::Owned;
pub use row_handle::{Reader, Writer};
use std::alloc::Global;

/// Counts the rows of the data and their changes.
///
/// `outcome` has the number of rows, of their changes, and of the bytes consumed if the status is `OK`, else 0; if the status
/// is `UNEXPECTED_EOF` to `REFUSED`, the offset of the fault in bits. `NOT_TAKEN` says that the data is too long or the
/// settings are invalid; no row is refused.
#[unsafe(no_mangle)]
pub extern "C" fn hayro_ccitt_measure(
    alloc: Global,
    data: &[u8],
    settings: &Settings,
    outcome: &mut Outcome,
) -> u32
    ensures report { OnSettings settings.now «data».now (λ s bits.
        IsReport s bits result outcome.new.rows outcome.new.bytes_read outcome.new.fault_start) }
    ensures changes { OnSettings settings.now «data».now (λ s bits.
        outcome.new.changes ≡ changes_taken s bits outcome.new.rows) }
    ensures damage { OnSettings settings.now «data».now (λ s bits.
        TellsDamage s bits outcome.new.rows outcome.new.damaged_rows outcome.new.missed_eols outcome.new.cut_rows) }
    ensures never_refused { result ≢ REFUSED }
    ensures untaken { (settings_of settings.now ≡ None) ⊎ (¬ (BitsFit «data».now))
        → (result ≡ NOT_TAKEN) × (outcome.new ≡ outcome_of 0 0 0 0 0 0 0) }
{
    let Some(meant) = settings_for(data, settings) else {
        return untaken(outcome);
    };
    let mut count = ChangeCount::new();
    let report = decoded(alloc, data, order_of(settings), meant, &mut count);
    reported(&report, count.changes(), outcome)
}

/// Packs the rows of the data into `bitmap`, one below the other: a row occupies (columns + 7) / 8 bytes, the leftmost pixel in
/// a byte's highest bit, 1 for black, and zeros after the row up to a whole byte; with a flag of 32 all of its bits are
/// inverted. Each row begins `stride` bytes after the one before, or right after it if `stride` is 0. The bytes between the
/// rows and after the last one keep their values.
///
/// `outcome` has the number of rows, of their changes, and of the bytes consumed if the status is `OK`, else 0; if the status
/// is `UNEXPECTED_EOF` to `REFUSED`, the offset of the fault in bits. `REFUSED` says that there is no room for the next row;
/// `NOT_TAKEN`, that the data is too long or the settings are invalid.
#[unsafe(no_mangle)]
pub extern "C" fn hayro_ccitt_decode_packed(
    alloc: Global,
    data: &[u8],
    settings: &Settings,
    bitmap: &mut [u8],
    outcome: &mut Outcome,
) -> u32
    ensures report { OnSettings settings.now «data».now (λ s bits.
        IsReport s bits result outcome.new.rows outcome.new.bytes_read outcome.new.fault_start) }
    ensures changes { OnSettings settings.now «data».now (λ s bits.
        outcome.new.changes ≡ changes_taken s bits outcome.new.rows) }
    ensures damage { OnSettings settings.now «data».now (λ s bits.
        TellsDamage s bits outcome.new.rows outcome.new.damaged_rows outcome.new.missed_eols outcome.new.cut_rows) }
    ensures packed { OnSettings settings.now «data».now (λ s bits.
        ArePacked (layout_of settings.now) s bits outcome.new.rows bitmap.old bitmap.new) }
    ensures together { OnSettings settings.now «data».now (λ s bits. layout_of settings.now ≡ together s.columns
        → AreTogether s bits outcome.new.rows bitmap.old bitmap.new) }
    ensures refused { result ≡ REFUSED → OnSettings settings.now «data».now (λ s bits.
        length bitmap.new < outcome.new.rows * (layout_of settings.now).stride + bytes_of_row s.columns) }
    ensures untaken { (settings_of settings.now ≡ None) ⊎ (¬ (BitsFit «data».now))
        → (result ≡ NOT_TAKEN) × (outcome.new ≡ outcome_of 0 0 0 0 0 0 0)
        × (bitmap.new ≡ bitmap.old) }
{
    let Some(meant) = settings_for(data, settings) else {
        return untaken(outcome);
    };
    let mut rows = PackedRows::new(bitmap, meant.columns, layout_of(settings));
    let report = decoded(alloc, data, order_of(settings), meant, &mut rows);
    rows.write_white();
    reported(&report, rows.changes(), outcome)
}

/// Lists the changes of the rows of the data in `lists`, row after row: of each row the number of its changes, and then the
/// positions at which its colour changes, white first, ascending. The numbers after the last row keep their values.
///
/// `outcome` has the number of rows, of their changes, and of the bytes consumed if the status is `OK`, else 0; if the status
/// is `UNEXPECTED_EOF` to `REFUSED`, the offset of the fault in bits. `REFUSED` says that there is no room for the next row;
/// `NOT_TAKEN`, that the data is too long or the settings are invalid.
#[unsafe(no_mangle)]
pub extern "C" fn hayro_ccitt_decode_changes(
    alloc: Global,
    data: &[u8],
    settings: &Settings,
    lists: &mut [u32],
    outcome: &mut Outcome,
) -> u32
    ensures report { OnSettings settings.now «data».now (λ s bits.
        IsReport s bits result outcome.new.rows outcome.new.bytes_read outcome.new.fault_start) }
    ensures changes { OnSettings settings.now «data».now (λ s bits.
        outcome.new.changes ≡ changes_taken s bits outcome.new.rows) }
    ensures damage { OnSettings settings.now «data».now (λ s bits.
        TellsDamage s bits outcome.new.rows outcome.new.damaged_rows outcome.new.missed_eols outcome.new.cut_rows) }
    ensures listed { OnSettings settings.now «data».now (λ s bits.
        AreListed s bits outcome.new.rows lists.old lists.new) }
    ensures refused { result ≡ REFUSED → OnSettings settings.now «data».now (λ s bits.
        length lists.new < numbers_taken s bits outcome.new.rows + 1
        + length (changes (get_or (plain s bits).rows outcome.new.rows []))) }
    ensures untaken { (settings_of settings.now ≡ None) ⊎ (¬ (BitsFit «data».now))
        → (result ≡ NOT_TAKEN) × (outcome.new ≡ outcome_of 0 0 0 0 0 0 0)
        × (lists.new ≡ lists.old) }
{
    let Some(meant) = settings_for(data, settings) else {
        return untaken(outcome);
    };
    let mut rows = ListedRows::new(lists, meant.columns);
    let report = decoded(alloc, data, order_of(settings), meant, &mut rows);
    reported(&report, rows.changes(), outcome)
}

/// Opens a reader of the rows of the data before the first row. The reader must be closed: all zeros, or as
/// [`hayro_ccitt_close`] left it. The rows are read by [`hayro_ccitt_next_changes`] and [`hayro_ccitt_next_packed`].
///
/// `OUT_OF_MEMORY` says that an allocation failed; `NOT_TAKEN`, that the data is too long, the settings are invalid or the
/// reader is open. With all but `OK` the reader is unchanged.
#[unsafe(no_mangle)]
pub extern "C" fn hayro_ccitt_open(
    alloc: Global,
    data: &[u8],
    settings: &Settings,
    reader: &mut Reader,
) -> u32
    ensures statuses { (result ≡ OK) ⊎ (result ≡ OUT_OF_MEMORY) ⊎ (result ≡ NOT_TAKEN) }
    ensures opened { result ≡ OK → OnSettings settings.now «data».now (λ s bits.
        OnReading reader.new.handle.value (IsOpened s bits (order_of settings.now) (layout_of settings.now).black_is_0)) }
    ensures is_open { result ≡ OK → reader.new.is_open ≡ true }
    ensures unchanged { result ≢ OK → reader.new ≡ reader.old }
    ensures untaken { (result ≡ NOT_TAKEN) ↔ ((settings_of settings.now ≡ None) ⊎ ((¬ (BitsFit «data».now)) ⊎ (reader.old.is_open ≡ true))) }
{
    if reader.is_open {
        return status::NOT_TAKEN;
    }
    let Some(meant) = settings_for(data, settings) else {
        return status::NOT_TAKEN;
    };
    let black_is_0 = layout_of(settings).black_is_0;
    let Ok(reading) = Owned::reading(alloc, data, order_of(settings), meant, black_is_0) else {
        return status::OUT_OF_MEMORY;
    };
    reader.hold(reading);
    status::OK
}

/// Reads the next row of the data, and lists its changes in `list`. The data is passed to each call again. The numbers after
/// the last change keep their values.
///
/// `NO_ROW` says that no row is left; `REFUSED`, that there is no room for the row, which the next call returns; `NOT_TAKEN`,
/// that the reader isn't open or the data is too long. `outcome` describes the last row that was read; with `NOT_TAKEN`, it is
/// zeros.
#[unsafe(no_mangle)]
pub extern "C" fn hayro_ccitt_next_changes(
    alloc: Global,
    data: &[u8],
    reader: &mut Reader,
    list: &mut [u32],
    outcome: &mut RowOutcome,
) -> u32
    ensures gives { reader.old.is_open ≡ true → BitsFit «data».now → OnReadings reader.old.handle.value reader.new.handle.value
        (λ old new. GivesRow «data».now old new result) }
    ensures listed { result ≡ OK → OnReading reader.new.handle.value (λ reading.
        IsListed reading.rows.ctx.held.reference list.old list.new) }
    ensures refused { result ≡ REFUSED → OnReading reader.new.handle.value (λ reading.
        length list.new < length (changes reading.rows.ctx.held.reference)) }
    ensures unwritten { result ≢ OK → list.new ≡ list.old }
    ensures reported { reader.old.is_open ≡ true → BitsFit «data».now → OnReading reader.new.handle.value (λ reading.
        TellsOf reading.rows outcome.new) }
    ensures is_open { reader.new.is_open ≡ reader.old.is_open }
    ensures untaken { (reader.old.is_open ≡ false) ⊎ (¬ (BitsFit «data».now))
        → (result ≡ NOT_TAKEN) × (reader.new ≡ reader.old) × (outcome.new ≡ reported_nothing) }
{
    if !reader.is_open || !bits_fit(data) {
        *outcome = nothing_reported();
        return status::NOT_TAKEN;
    }
    let mut reading = reader.take(alloc);
    let status = reading.list_next(data, list, outcome);
    reader.hold(reading);
    status
}

/// Reads the next row of the data, and packs it into `bytes`: (columns + 7) / 8 bytes, the leftmost pixel in a byte's highest
/// bit, 1 for black, and zeros after the last pixel; if the settings had a flag of 32, all of its bits are inverted. The data
/// is passed to each call again. The bytes after the row keep their values.
///
/// `NO_ROW` says that no row is left; `REFUSED`, that there is no room for the row, which the next call returns; `NOT_TAKEN`,
/// that the reader isn't open or the data is too long. `outcome` describes the last row that was read; with `NOT_TAKEN`, it is
/// zeros.
#[unsafe(no_mangle)]
pub extern "C" fn hayro_ccitt_next_packed(
    alloc: Global,
    data: &[u8],
    reader: &mut Reader,
    bytes: &mut [u8],
    outcome: &mut RowOutcome,
) -> u32
    ensures gives { reader.old.is_open ≡ true → BitsFit «data».now → OnReadings reader.old.handle.value reader.new.handle.value
        (λ old new. GivesRow «data».now old new result) }
    ensures packed { result ≡ OK → OnReading reader.new.handle.value (λ reading.
        IsPacked reading.black_is_0 reading.rows.ctx.held.settings.columns reading.rows.ctx.held.reference bytes.old bytes.new) }
    ensures refused { result ≡ REFUSED → OnReading reader.new.handle.value (λ reading.
        length bytes.new < bytes_of_row reading.rows.ctx.held.settings.columns) }
    ensures unwritten { result ≢ OK → bytes.new ≡ bytes.old }
    ensures reported { reader.old.is_open ≡ true → BitsFit «data».now → OnReading reader.new.handle.value (λ reading.
        TellsOf reading.rows outcome.new) }
    ensures is_open { reader.new.is_open ≡ reader.old.is_open }
    ensures untaken { (reader.old.is_open ≡ false) ⊎ (¬ (BitsFit «data».now))
        → (result ≡ NOT_TAKEN) × (reader.new ≡ reader.old) × (outcome.new ≡ reported_nothing) }
{
    if !reader.is_open || !bits_fit(data) {
        *outcome = nothing_reported();
        return status::NOT_TAKEN;
    }
    let mut reading = reader.take(alloc);
    let status = reading.pack_next(data, bytes, outcome);
    reader.hold(reading);
    status
}

/// Closes a reader, and frees what it holds. `NOT_TAKEN` says that it isn't open; then nothing is done.
#[unsafe(no_mangle)]
pub extern "C" fn hayro_ccitt_close(alloc: Global, reader: &mut Reader) -> u32
    ensures closed { reader.new.is_open ≡ false }
    ensures was_open { reader.old.is_open ≡ true → result ≡ OK }
    ensures was_closed { reader.old.is_open ≡ false → (result ≡ NOT_TAKEN) × (reader.new ≡ reader.old) }
{
    if !reader.is_open {
        return status::NOT_TAKEN;
    }
    drop(reader.take(alloc));
    status::OK
}

/// Encodes a bitmap into `data`: a row occupies (columns + 7) / 8 bytes, the leftmost pixel in a byte's highest bit, 1 for
/// black, or 0 with a flag of 128, and bits after the last pixel are ignored. Each row begins `stride` bytes after the one
/// before, or right after it if `stride` is 0. The bytes between the rows are ignored, and the last one needs only its own
/// bytes. The bytes after the encoded ones keep their values.
///
/// `outcome` has the number of rows and of the encoded bytes if the status is `OK` or `REFUSED`, else 0. `OUT_OF_MEMORY` says
/// that an allocation failed; `REFUSED`, that `data` has no room for that many bytes; `NOT_TAKEN`, that the settings name no
/// encoding or are invalid, or that the bitmap isn't whole rows, or has none and only Group 4 closed by EOFB has a picture
/// without rows. With all but `OK` `data` keeps its values.
#[unsafe(no_mangle)]
pub extern "C" fn fax_encode_bitmap(
    alloc: Global,
    bitmap: &[u8],
    settings: &EncodeSettings,
    data: &mut [u8],
    outcome: &mut EncodeOutcome,
) -> u32
    ensures statuses { (result ≡ OK) ⊎ (result ≡ OUT_OF_MEMORY) ⊎ (result ≡ REFUSED) ⊎ (result ≡ NOT_TAKEN) }
    ensures encoded { result ≡ OK → IfSome (asked settings.now bitmap.now) (λ meant.
        AreEncoded meant.order (bits_asked meant settings.now.columns (rows_asked settings.now bitmap.now)) outcome.new.bytes «data».old «data».new) }
    ensures refused { result ≡ REFUSED → IfSome (asked settings.now bitmap.now) (λ meant.
        HaveNoRoom (bits_asked meant settings.now.columns (rows_asked settings.now bitmap.now)) outcome.new.bytes (length «data».new)) }
    ensures untaken { (result ≡ NOT_TAKEN) ↔ (asked settings.now bitmap.now ≡ None) }
    ensures rows { (result ≡ OK) ⊎ (result ≡ REFUSED) → outcome.new.rows ≡ length (rows_asked settings.now bitmap.now) }
    ensures together { layout_asked settings.now ≡ together settings.now.columns → 0 < settings.now.columns
        → rows_asked settings.now bitmap.now ≡ shown settings.now.columns bitmap.now }
    ensures kept { result ≢ OK → «data».new ≡ «data».old }
    ensures nothing_reported { (result ≡ OUT_OF_MEMORY) ⊎ (result ≡ NOT_TAKEN) → outcome.new ≡ record { rows = 0; bytes = 0 } }
{
    *outcome = EncodeOutcome { rows: 0, bytes: 0 };
    let bytes = match encoded(alloc, bitmap, settings) {
        Ok(bytes) => bytes,
        Err(Unencoded::NotTaken) => return status::NOT_TAKEN,
        Err(Unencoded::OutOfMemory) => return status::OUT_OF_MEMORY,
    };
    let length = bytes.len();
    *outcome = EncodeOutcome {
        rows: rows_asked(settings, bitmap),
        bytes: length as u64,
    };
    if length > data.len() {
        return status::REFUSED;
    }
    data[..length].copy_from_slice(bytes.as_slice());
    status::OK
}

/// Opens a writer of rows before the first row. The writer must be closed: all zeros, or as [`fax_encode_close`] left it. The
/// rows are added by [`fax_encode_row_packed`] and [`fax_encode_row_changes`], and [`fax_encode_finish`] gives the strip.
///
/// `OUT_OF_MEMORY` says that an allocation failed; `NOT_TAKEN`, that the settings name no encoding or are invalid, there are no
/// columns or the writer is open. With all but `OK` the writer is unchanged.
#[unsafe(no_mangle)]
pub extern "C" fn fax_encode_open(
    alloc: Global,
    settings: &EncodeSettings,
    writer: &mut Writer,
) -> u32
    ensures statuses { (result ≡ OK) ⊎ (result ≡ OUT_OF_MEMORY) ⊎ (result ≡ NOT_TAKEN) }
    ensures opened { result ≡ OK → IfSome (of_rows settings.now) (λ meant.
        OnStrip writer.new.handle.value (λ strip. strip ≡ Rows (no_rows meant settings.now.columns))) }
    ensures is_open { result ≡ OK → writer.new.is_open ≡ true }
    ensures black { result ≡ OK → writer.new.black_is_0 ≡ (layout_asked settings.now).black_is_0 }
    ensures unchanged { result ≢ OK → writer.new ≡ writer.old }
    ensures untaken { (result ≡ NOT_TAKEN) ↔ ((of_rows settings.now ≡ None) ⊎ (writer.old.is_open ≡ true)) }
{
    if writer.is_open {
        return status::NOT_TAKEN;
    }
    let Some(meant) = encoder_of_rows(settings) else {
        return status::NOT_TAKEN;
    };
    let Ok(strip) = Owned::strip(alloc, settings.columns, meant) else {
        return status::OUT_OF_MEMORY;
    };
    writer.hold(strip, layout_asked(settings).black_is_0);
    status::OK
}

/// Adds a row, given by its changes: the positions at which its colour changes, white first, strictly ascending and below the
/// number of columns.
///
/// `OUT_OF_MEMORY` says that an allocation failed, and each further call of this writer but [`fax_encode_close`] returns it;
/// `NOT_TAKEN`, that the writer isn't open, the strip is finished, or the changes aren't those of a row. With `NOT_TAKEN` nothing is
/// changed.
#[unsafe(no_mangle)]
pub extern "C" fn fax_encode_row_changes(alloc: Global, writer: &mut Writer, changes: &[u32]) -> u32
    ensures takes { writer.old.is_open ≡ true → OnStrips writer.old.handle.value writer.new.handle.value (λ old new.
        TakesRow old new (λ columns. AreChanges columns changes.now) (λ columns. pixels columns changes.now) result) }
    ensures is_open { writer.new.is_open ≡ writer.old.is_open }
    ensures black { writer.new.black_is_0 ≡ writer.old.black_is_0 }
    ensures untaken { writer.old.is_open ≡ false → (result ≡ NOT_TAKEN) × (writer.new ≡ writer.old) }
{
    if !writer.is_open {
        return status::NOT_TAKEN;
    }
    let mut strip = writer.take(alloc);
    let status = strip.add_changes(changes);
    writer.hold(strip, writer.black_is_0);
    status
}

/// Adds a row of packed pixels: (columns + 7) / 8 bytes, the leftmost pixel in a byte's highest bit, 1 for black, or 0 if the
/// settings had a flag of 128. Bits after the last pixel, and bytes after the row, are ignored.
///
/// `OUT_OF_MEMORY` says that an allocation failed, and each further call of this writer but [`fax_encode_close`] returns it;
/// `NOT_TAKEN`, that the writer isn't open, the strip is finished, or there are too few bytes. With `NOT_TAKEN` nothing is changed.
#[unsafe(no_mangle)]
pub extern "C" fn fax_encode_row_packed(alloc: Global, writer: &mut Writer, row: &[u8]) -> u32
    ensures takes { writer.old.is_open ≡ true → OnStrips writer.old.handle.value writer.new.handle.value (λ old new.
        TakesRow old new (λ columns. bytes_of_row columns ≤ length row.now)
        (λ columns. row_read writer.old.black_is_0 columns (bits_of row.now)) result) }
    ensures is_open { writer.new.is_open ≡ writer.old.is_open }
    ensures black { writer.new.black_is_0 ≡ writer.old.black_is_0 }
    ensures untaken { writer.old.is_open ≡ false → (result ≡ NOT_TAKEN) × (writer.new ≡ writer.old) }
{
    if !writer.is_open {
        return status::NOT_TAKEN;
    }
    let mut strip = writer.take(alloc);
    let status = strip.add_packed(row, writer.black_is_0);
    writer.hold(strip, writer.black_is_0);
    status
}

/// Finishes the strip, unless it is finished, and writes its bytes into `data`: the lines of all rows, EOFB or RTC, and zeros
/// up to a whole byte. The bytes after them keep their values. No row may be added after `OK` or `REFUSED`, and each further
/// call returns the same bytes.
///
/// `outcome` has the number of rows and of bytes if the status is `OK` or `REFUSED`, else 0. `OUT_OF_MEMORY` says that an
/// allocation failed, and each further call of this writer but [`fax_encode_close`] returns it; `REFUSED`, that `data` has no
/// room for that many bytes; `NOT_TAKEN`, that the writer isn't open, or there are no rows, other than in Group 4 with EOFB:
/// then nothing is changed. With all but `OK` `data` keeps its values.
#[unsafe(no_mangle)]
pub extern "C" fn fax_encode_finish(
    alloc: Global,
    writer: &mut Writer,
    data: &mut [u8],
    outcome: &mut EncodeOutcome,
) -> u32
    ensures finishes { writer.old.is_open ≡ true
        → OnStrips writer.old.handle.value writer.new.handle.value (λ old new. Finishes old new result) }
    ensures given { result ≡ OK → OnStrip writer.new.handle.value (λ strip.
        IfFinished strip (λ bytes. IsGiven bytes «data».old «data».new)) }
    ensures refused { result ≡ REFUSED → OnStrip writer.new.handle.value (λ strip.
        IfFinished strip (λ bytes. length «data».new < length bytes)) }
    ensures unwritten { result ≢ OK → «data».new ≡ «data».old }
    ensures reported { writer.old.is_open ≡ true
        → OnStrip writer.new.handle.value (λ strip. outcome.new ≡ strip_reported strip) }
    ensures is_open { writer.new.is_open ≡ writer.old.is_open }
    ensures black { writer.new.black_is_0 ≡ writer.old.black_is_0 }
    ensures untaken { writer.old.is_open ≡ false
        → (result ≡ NOT_TAKEN) × (writer.new ≡ writer.old) × (outcome.new ≡ record { rows = 0; bytes = 0 }) }
{
    if !writer.is_open {
        *outcome = EncodeOutcome { rows: 0, bytes: 0 };
        return status::NOT_TAKEN;
    }
    let mut strip = writer.take(alloc);
    let status = strip.give_bytes(data, outcome);
    writer.hold(strip, writer.black_is_0);
    status
}

/// Closes a writer, and frees what it holds. `NOT_TAKEN` says that it isn't open; then nothing is done.
#[unsafe(no_mangle)]
pub extern "C" fn fax_encode_close(alloc: Global, writer: &mut Writer) -> u32
    ensures closed { writer.new.is_open ≡ false }
    ensures was_open { writer.old.is_open ≡ true → result ≡ OK }
    ensures was_closed { writer.old.is_open ≡ false → (result ≡ NOT_TAKEN) × (writer.new ≡ writer.old) }
{
    if !writer.is_open {
        return status::NOT_TAKEN;
    }
    drop(writer.take(alloc));
    status::OK
}
