//! A run of the program that writes each row as soon as it is known.

ghost use Rattle.std.specs.Prelude.{◌≡◌, ◌↔◌, ℕ, [], IfOk, IfErr, OnOk, None, Err, true, false, map, string_bytes};
ghost use Rattle.hayro_ccitt.specs.Bits.{Bits};
ghost use Rattle.hayro_ccitt.specs.RowFeeds.{IsFeedOf};
ghost use Rattle.faxrows_lib.specs.Output.{FailsByWriter, used};
ghost use Rattle.faxrows_lib.specs.RowsFed.{FeedsNone, FeedsPiece, IsNewFeed, IsReadToEnd, PutsRows};
ghost use Rattle.faxrows_lib.specs.RunsAsRead.{RunsAsRead, WritesAsRead};
ghost use Rattle.faxrows_lib.specs.RunsByRow.{IsTextByRow};

use crate::arguments::arguments_of;
use crate::output::{PIECE, flush, put_last_line, put_row};
use crate::program::{Done, done_of};
use fax_program::{Device, RunFault};
use hayro_ccitt::{DecodeError, Fed, RowFeed};
use std::alloc::Global;
use std::io::{Read, Write};

/// Reads what the reader has in pieces of at most 64 KiB, and writes what [`run`](crate::run) writes, but each row as soon as
/// no data that follows can change it: a line for each row, and then a line with the result. Before each read all lines so far
/// are written. It reads no more after the end of the image. Memory doesn't grow with the data or the rows.
///
/// # Errors
///
/// Those of [`RunFault`]: `TooLong` once what was read is. The lines of the first rows may have been written, or a front of the
/// text if the writer failed. A fault of the data is no error of the run: it is written, and `Done::Faulty` returned.
pub fn run_by_row<R: Read, W: Write>(
    alloc: Global,
    args: &[String],
    reader: &mut Device<R>,
    writer: &mut Device<W>,
) -> std::result::Result<Done, RunFault>
    ensures runs { RunsAsRead IsTextByRow (map string_bytes args.now) (used R.remaining reader.old reader.new)
        (used W.contents writer.old writer.new) result }
{
    let Some(arguments) = arguments_of(args) else {
        return Err(RunFault::BadArguments);
    };
    let Ok(mut rows) = RowFeed::new(alloc, arguments.order, arguments.settings) else {
        return Err(RunFault::Memory);
    };
    write_by_row(alloc, &mut rows, reader, writer)
}

/// Feeds what the reader has, and writes a line for each row, and then how the reading ended.
fn write_by_row<R: Read, W: Write>(
    alloc: Global,
    rows: &mut RowFeed,
    reader: &mut Device<R>,
    writer: &mut Device<W>,
) -> std::result::Result<Done, RunFault>
    requires new { IsNewFeed rows.old }
    ensures writes { WritesAsRead IsTextByRow rows.old.ctx.held.settings rows.old.order (used R.remaining reader.old reader.new)
        (used W.contents writer.old writer.new) result }
{
    let mut waiting = Vec::new(alloc);
    let outcome = put_all_rows(rows, reader, &mut waiting, writer)?;
    put_last_line(&outcome, &mut waiting, writer)?;
    flush(&mut waiting, writer)?;
    Ok(done_of(&outcome))
}

/// Feeds what the reader has, puts a line for each row, and returns how the reading ended.
fn put_all_rows<R: Read, W: Write>(
    rows: &mut RowFeed,
    reader: &mut Device<R>,
    waiting: &mut Vec<u8>,
    writer: &mut Device<W>,
) -> std::result::Result<hayro_ccitt::Result<usize>, RunFault>
    requires new { IsNewFeed rows.old }
    requires none_waits { waiting.old.items ≡ [] }
    ensures reads { IfOk result (λ outcome. IsReadToEnd rows.old.ctx.held.settings rows.old.order
        (used R.remaining reader.old reader.new) (W.contents writer.old.0) (W.contents writer.new.0) rows.new waiting.new.items
        outcome) }
    ensures fails { IfErr result (λ fault. WritesAsRead IsTextByRow rows.old.ctx.held.settings rows.old.order
        (used R.remaining reader.old reader.new) (used W.contents writer.old writer.new) (Err fault)) }
    ensures reader { OnOk result (reader.new.1 ≡ reader.old.1) }
    ensures writer { OnOk result (writer.new.1 ≡ writer.old.1) }
{
    let mut piece = [0u8; PIECE];
    loop {
        match put_rows(rows, waiting, writer)? {
            Some(outcome) => return Ok(outcome),
            None => flush(waiting, writer)?,
        }
        feed_piece(rows, reader, &mut piece)?;
    }
}

/// Puts a line for each row that no data that follows can change. Returns how the reading ended, or `None` if more data is
/// needed.
fn put_rows<W: Write>(
    rows: &mut RowFeed,
    waiting: &mut Vec<u8>,
    writer: &mut Device<W>,
) -> std::result::Result<Option<hayro_ccitt::Result<usize>>, RunFault>
    requires some { (whole : Bits) × (tried : ℕ) × IsFeedOf whole tried rows.old }
    ensures puts { PutsRows (used W.contents writer.old writer.new) rows.old rows.new waiting.old.items waiting.new.items result }
    ensures by_writer { FailsByWriter (used W.contents writer.old writer.new) result }
{
    loop {
        match rows.next_row() {
            Ok(Fed::Row) => {
                // The number of rows is known to fit once it is read.
                let _read = rows.rows_read();
                put_row(rows.row(), waiting, writer)?;
            }
            Ok(Fed::NeedsMore) => return Ok(None),
            Ok(Fed::End) => return Ok(Some(Ok(rows.bytes_read()))),
            Err(error) => return Ok(Some(Err(error))),
        }
    }
}

/// Feeds what the reader has next, or finishes the data if it has no more.
///
/// # Errors
///
/// `Read` if the reader fails, `Memory` if an allocation fails, and `TooLong` if all bytes fed are more than
/// `hayro_ccitt::bits_fit` holds of.
fn feed_piece<R: Read>(
    rows: &mut RowFeed,
    reader: &mut Device<R>,
    piece: &mut [u8; PIECE],
) -> std::result::Result<(), RunFault>
    requires unfinished { rows.old.finished ≡ false }
    ensures fed { OnOk result (FeedsPiece (R.remaining reader.old.0) (R.remaining reader.new.0) rows.old rows.new) }
    ensures none { IfErr result (FeedsNone (R.remaining reader.old.0) (R.remaining reader.new.0) rows.old) }
    ensures flag { OnOk result (reader.new.1 ≡ reader.old.1) }
    ensures read { reader.old.1 ≡ false → ((result ≡ Err RunFault.Read) ↔ (reader.new.1 ≡ true)) }
{
    let Ok(count) = reader.read(piece) else {
        return Err(RunFault::Read);
    };
    if count == 0 {
        rows.finish();
        return Ok(());
    }
    match rows.feed(&piece[..count]) {
        Ok(()) => Ok(()),
        Err(DecodeError::Overflow) => Err(RunFault::TooLong),
        Err(_) => Err(RunFault::Memory),
    }
}
