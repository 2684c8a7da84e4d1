//! A run of the program: decodes all that a reader has, and writes it as text.

ghost use Rattle.std.specs.Prelude.{◌≡◌, ◌≤◌, IfOk, IfErr, OnOk, OnErr, true, false, map, string_bytes};
ghost use Rattle.hayro_ccitt.specs.Bits.{BitsFit, bits_in};
ghost use Rattle.faxrows_lib.specs.Output.{WritesText, used};
ghost use Rattle.faxrows_lib.specs.ProgramRuns.{RunsProgram};
ghost use Rattle.faxrows_lib.specs.Runs.{IsRowsText, done_of};
ghost use Rattle.faxrows_lib.specs.Text.{line_of_outcome};

use crate::input::read_input;
use crate::last_line::{ROOM, error_line, put_ok};
use crate::text_sink::TextSink;
use fax_program::{Device, RunFault, write_all};
use hayro_ccitt::bit_reader::BitOrder;
use hayro_ccitt::{DecodeError, DecoderContext, decode_in};
use std::alloc::Global;
use std::io::{Read, Write};

/// How a run ended that wrote its text.
#[derive(Debug, Clone, Copy, PartialEq, Eq)]
pub enum Done {
    /// The data was decoded.
    Good,
    /// The data is at fault. The rows before the fault were written.
    Faulty,
    /// An allocation failed while decoding. The rows that were accepted were written.
    Memory,
}

/// Reads all that the reader has, decodes it with the settings and in the order of bits that the arguments mean, and
/// writes a line for each row, and then a line with the result.
///
/// # Errors
///
/// Those of [`RunFault`], of which all but `Write` come before anything is written. A fault of the data is no error of the run: it
/// is written, and `Done::Faulty` returned.
pub fn run<R: Read, W: Write>(
    alloc: Global,
    args: &[String],
    reader: &mut Device<R>,
    writer: &mut Device<W>,
) -> std::result::Result<Done, RunFault>
    ensures runs { RunsProgram IsRowsText (map string_bytes args.now) (used R.remaining reader.old reader.new)
        (used W.contents writer.old writer.new) result }
{
    let (arguments, input) = read_input(alloc, args, reader)?;
    let Ok(mut ctx) = DecoderContext::new(alloc, arguments.settings) else {
        return Err(RunFault::Memory);
    };
    write_decoded(alloc, input.as_slice(), arguments.order, &mut ctx, writer)
}

/// Decodes bytes whose bits come in this order, and writes a line for each row that was accepted, and then how the decoding
/// ended. It fails only if the writer does.
fn write_decoded<W: Write>(
    alloc: Global,
    input: &[u8],
    order: BitOrder,
    ctx: &mut DecoderContext,
    writer: &mut Device<W>,
) -> std::result::Result<Done, RunFault>
    requires fit { BitsFit input.now }
    requires columns { ctx.old.held.settings.columns ≤ 4294967295 }
    ensures writes { WritesText (IsRowsText ctx.old.held.settings (bits_in order input.now)) (used W.contents writer.old writer.new)
        result }
{
    let mut sink = TextSink::new(alloc);
    let outcome = decode_in(order, input, &mut sink, ctx);
    let lines = sink.text();
    write_all(writer, lines)?;
    write_last_line(writer, &outcome)?;
    Ok(done_of(&outcome))
}

/// Writes the line that says how the decoding ended.
fn write_last_line<W: Write>(
    writer: &mut Device<W>,
    outcome: &hayro_ccitt::Result<usize>,
) -> std::result::Result<(), RunFault>
    ensures writes { WritesText (λ _ text. text ≡ line_of_outcome outcome.now) (used W.contents writer.old writer.new) result }
{
    match outcome {
        Ok(count) => {
            let mut line = [0u8; ROOM];
            let start = put_ok(*count, &mut line);
            write_all(writer, &line[start..])
        }
        Err(error) => write_all(writer, error_line(*error)),
    }
}

/// Returns how a run ends that wrote this result.
pub(crate) fn done_of(outcome: &hayro_ccitt::Result<usize>) -> Done
    ensures { result ≡ done_of outcome.now }
{
    match outcome {
        Ok(_) => Done::Good,
        Err(DecodeError::OutOfMemory) | Err(DecodeError::Refused) => Done::Memory,
        Err(_) => Done::Faulty,
    }
}
