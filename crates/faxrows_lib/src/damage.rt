//! A run of the program that writes the damage of the data instead of its rows.

ghost use Rattle.std.specs.Prelude.{◌≡◌, ◌<◌, ◌-◌, ◌++◌, [], IfOk, OnOk, OnErr, map, string_bytes, length};
ghost use Rattle.std.specs.Prelude.{Some, Err};
ghost use Rattle.hayro_ccitt.specs.PlainReading.{failed_at};
ghost use Rattle.fax_program.specs.Devices.{AppendsFront};
ghost use Rattle.faxrows_lib.specs.DamageText.{IsAtFirstRow, IsDamageText, IsOfSameData, damage_lines, line_of_damage};
ghost use Rattle.faxrows_lib.specs.DamageText.{last_line_of_damage};
ghost use Rattle.faxrows_lib.specs.Output.{FailsByWriter, PassesOn, PutsText, WritesText, used};
ghost use Rattle.faxrows_lib.specs.ProgramRuns.{RunsProgram};
ghost use Rattle.faxrows_lib.specs.Runs.{rows_of};
ghost use Rattle.faxrows_lib.specs.RunsByRow.{EndsByRow};

use crate::damage_lines::{put_cut, put_fault, put_good_end, put_missed};
use crate::input::read_input;
use crate::output::flush;
use crate::program::{Done, done_of};
use fax_program::{Device, RunFault};
use hayro_ccitt::RowReader;
use std::alloc::Global;
use std::io::{Read, Write};

/// Reads all that the reader has, decodes it row by row as the arguments mean, and writes the damage instead of the rows. Offsets
/// are in bits.
///
/// - `damaged`, the row's index, the offset of its line, and the fault: for each row that was repaired.
/// - `cut`, the row's index, and the offset of its line: for each row in which a run was cut.
/// - `missed`, the index of the row before, and the offset at which the EOL is expected: for each EOL that was missed.
///
/// The last line is `ok`, the number of rows, how many of them were repaired, and the byte count; or `error`, the index of the
/// row that can't be read, the offset at which its line begins or its EOL is missing, and the fault.
///
/// # Errors
///
/// Those of [`run`](crate::run).
pub fn run_damage<R: Read, W: Write>(
    alloc: Global,
    args: &[String],
    reader: &mut Device<R>,
    writer: &mut Device<W>,
) -> std::result::Result<Done, RunFault>
    ensures runs { RunsProgram IsDamageText (map string_bytes args.now) (used R.remaining reader.old reader.new)
        (used W.contents writer.old writer.new) result }
{
    let (arguments, input) = read_input(alloc, args, reader)?;
    let Ok(mut rows) = RowReader::new(alloc, input.as_slice(), arguments.order, arguments.settings)
    else {
        return Err(RunFault::Memory);
    };
    write_damage(alloc, &mut rows, writer)
}

/// Reads row by row from the first one on, and writes a line for each row that was repaired or in which a run was cut, and for
/// each missed EOL, and then how the reading ended. It fails only if the writer does.
fn write_damage<W: Write>(
    alloc: Global,
    rows: &mut RowReader<'_>,
    writer: &mut Device<W>,
) -> std::result::Result<Done, RunFault>
    requires first { IsAtFirstRow rows.old }
    ensures writes { WritesText (IsDamageText rows.old.settings rows.old.bits) (used W.contents writer.old writer.new) result }
{
    let mut waiting = Vec::new(alloc);
    let outcome = put_damage(rows, &mut waiting, writer)?;
    put_end(rows, &outcome, &mut waiting, writer)?;
    flush(&mut waiting, writer)?;
    Ok(done_of(&outcome))
}

/// Reads row by row from the first one on, puts a line for each row that was repaired or in which a run was cut, and for each
/// missed EOL, and returns how the reading ended.
fn put_damage<W: Write>(
    rows: &mut RowReader<'_>,
    waiting: &mut Vec<u8>,
    writer: &mut Device<W>,
) -> std::result::Result<hayro_ccitt::Result<usize>, RunFault>
    requires first { IsAtFirstRow rows.old }
    requires none_waits { waiting.old.items ≡ [] }
    ensures same { OnOk result (IsOfSameData rows.old rows.new) }
    ensures ends { IfOk result (λ outcome. EndsByRow rows.old.settings rows.old.bits rows.new.taken outcome) }
    ensures fails { IfOk result (λ outcome. OnErr outcome
        (rows.new.line_start ≡ failed_at rows.new.settings rows.new.bits rows.new.taken)) }
    ensures lines { OnOk result (PassesOn (W.contents writer.old.0) (W.contents writer.new.0)
        [] (damage_lines rows.old.settings rows.old.bits rows.new.taken) waiting.new.items) }
    ensures front { OnErr result (AppendsFront (W.contents writer.old.0) (W.contents writer.new.0)
        (damage_lines rows.old.settings rows.old.bits (length (rows_of rows.old.settings rows.old.bits)))) }
    ensures by_writer { FailsByWriter (used W.contents writer.old writer.new) result }
{
    loop {
        let read = rows.rows_read();
        let answer = rows.next_row();
        put_missed(read, rows.missed_eol(), waiting, writer)?;
        match answer {
            Ok(true) => put_last_row(rows, waiting, writer)?,
            Ok(false) => return Ok(Ok(rows.bytes_read())),
            Err(error) => return Ok(Err(error)),
        }
    }
}

/// Puts the line of the last row that was read, if it was repaired or a run of it was cut.
fn put_last_row<W: Write>(
    rows: &RowReader<'_>,
    waiting: &mut Vec<u8>,
    writer: &mut Device<W>,
) -> std::result::Result<(), RunFault>
    requires some { 0 < rows.now.taken }
    ensures { PutsText (line_of_damage (rows.now.taken - 1) rows.now.line_start rows.now.damage rows.now.cut)
        waiting.old.items waiting.new.items (used W.contents writer.old writer.new) result }
{
    match rows.damage() {
        Some(fault) => {
            let row = rows.rows_read() - 1;
            let start = rows.line_start() as u64;
            put_fault(b"damaged ", row, start, fault, waiting, writer)
        }
        None => {
            let row = rows.rows_read() - 1;
            let start = rows.line_start() as u64;
            put_cut(row, start, rows.is_cut(), waiting, writer)
        }
    }
}

/// Puts the last line.
fn put_end<W: Write>(
    rows: &RowReader<'_>,
    outcome: &hayro_ccitt::Result<usize>,
    waiting: &mut Vec<u8>,
    writer: &mut Device<W>,
) -> std::result::Result<(), RunFault>
    requires fails { OnErr outcome.now (rows.now.line_start ≡ failed_at rows.now.settings rows.now.bits rows.now.taken) }
    ensures { PutsText (last_line_of_damage rows.now.settings rows.now.bits rows.now.taken outcome.now)
        waiting.old.items waiting.new.items (used W.contents writer.old writer.new) result }
{
    match outcome {
        Ok(count) => put_good_end(
            rows.rows_read(),
            rows.damaged_rows(),
            *count as u64,
            waiting,
            writer,
        ),
        Err(error) => {
            let start = rows.line_start() as u64;
            put_fault(b"error ", rows.rows_read(), start, *error, waiting, writer)
        }
    }
}
