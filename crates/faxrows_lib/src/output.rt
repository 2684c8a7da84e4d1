//! Text that is written in pieces, so that short lines take few writes.

ghost use Rattle.std.specs.Prelude.{◌≡◌, ◌<◌, ◌≤◌, ◌^◌, [], drop, OnOk, OnErr};
ghost use Rattle.std.specs.Io.KnownBytes.{Appends};
ghost use Rattle.fax_program.specs.Devices.{AppendsFront};
ghost use Rattle.faxrows_lib.specs.Output.{FailsByWriter, PutsText, used};
ghost use Rattle.faxrows_lib.specs.Text.{line_of_outcome, line_of_row, text_of_change};

use crate::digits::{MOST_DIGITS, put_decimal};
use crate::last_line::{ROOM, error_line, put_ok};
use fax_program::{Device, RunFault, write_all};
use std::io::Write;

/// The most bytes that are written at once.
pub(crate) const PIECE: usize = 65536;

/// Writes the bytes that wait.
pub(crate) fn flush<W: Write>(
    waiting: &mut Vec<u8>,
    writer: &mut Device<W>,
) -> std::result::Result<(), RunFault>
    ensures ok { OnOk result (Appends (W.contents writer.old.0) (W.contents writer.new.0) waiting.old.items) }
    ensures empty { OnOk result (waiting.new.items ≡ []) }
    ensures front { OnErr result (AppendsFront (W.contents writer.old.0) (W.contents writer.new.0) waiting.old.items) }
    ensures by_writer { FailsByWriter (used W.contents writer.old writer.new) result }
{
    write_all(writer, waiting.as_slice())?;
    waiting.clear();
    Ok(())
}

/// Writes the bytes that wait, if they and this many more are longer than a piece.
fn make_room<W: Write>(
    count: usize,
    waiting: &mut Vec<u8>,
    writer: &mut Device<W>,
) -> std::result::Result<(), RunFault>
    requires fits { count < 2 ^ 63 }
    ensures { PutsText [] waiting.old.items waiting.new.items (used W.contents writer.old writer.new) result }
{
    if waiting.len() + count > PIECE {
        return flush(waiting, writer);
    }
    Ok(())
}

/// Puts a text after the bytes that wait, which are written first if both are longer than a piece. A text for which an
/// allocation fails is written at once.
pub(crate) fn put<W: Write>(
    text: &[u8],
    waiting: &mut Vec<u8>,
    writer: &mut Device<W>,
) -> std::result::Result<(), RunFault>
    ensures { PutsText text.now waiting.old.items waiting.new.items (used W.contents writer.old writer.new) result }
{
    make_room(text.len(), waiting, writer)?;
    if waiting.extend_from_slice(text).is_err() {
        flush(waiting, writer)?;
        write_all(writer, text)?;
    }
    Ok(())
}

/// Puts a row's line.
pub(crate) fn put_row<W: Write>(
    changes: &[u32],
    waiting: &mut Vec<u8>,
    writer: &mut Device<W>,
) -> std::result::Result<(), RunFault>
    ensures { PutsText (line_of_row changes.now)
        waiting.old.items waiting.new.items (used W.contents writer.old writer.new) result }
{
    put(b"r", waiting, writer)?;
    for change in changes {
        put_change(*change, waiting, writer)?;
    }
    put(b"\n", waiting, writer)
}

/// The most bytes of a space and a number.
const CHANGE_ROOM: usize = 21;

/// Puts a change: a space and its number.
fn put_change<W: Write>(
    change: u32,
    waiting: &mut Vec<u8>,
    writer: &mut Device<W>,
) -> std::result::Result<(), RunFault>
    ensures { PutsText (text_of_change change)
        waiting.old.items waiting.new.items (used W.contents writer.old writer.new) result }
{
    let mut text = [0u8; CHANGE_ROOM];
    let start = put_change_text(change, &mut text);
    put(&text[start..], waiting, writer)
}

/// Writes a space and a number at the end of the buffer, and returns where it begins.
fn put_change_text(change: u32, text: &mut [u8; CHANGE_ROOM]) -> usize
    ensures within { result ≤ CHANGE_ROOM }
    ensures text { drop result text.new ≡ text_of_change change }
{
    let digits = put_decimal(u64::from(change), text, CHANGE_ROOM);
    text[digits - 1] = b' ';
    digits - 1
}

/// Puts the line that says how the decoding ended.
pub(crate) fn put_last_line<W: Write>(
    outcome: &hayro_ccitt::Result<usize>,
    waiting: &mut Vec<u8>,
    writer: &mut Device<W>,
) -> std::result::Result<(), RunFault>
    ensures { PutsText (line_of_outcome outcome.now)
        waiting.old.items waiting.new.items (used W.contents writer.old writer.new) result }
{
    match outcome {
        Ok(count) => {
            let mut line = [0u8; ROOM];
            let start = put_ok(*count, &mut line);
            put(&line[start..], waiting, writer)
        }
        Err(error) => put(error_line(*error), waiting, writer),
    }
}
