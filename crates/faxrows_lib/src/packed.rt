//! A run of the program that writes packed rows: decodes all that a reader has, and writes it as a bitmap.

ghost use Rattle.std.specs.Prelude.{◌≡◌, map, string_bytes};
ghost use Rattle.hayro_ccitt.specs.Bits.{BitsFit, bits_in};
ghost use Rattle.faxrows_lib.specs.Output.{WritesText, used};
ghost use Rattle.faxrows_lib.specs.PackedRuns.{IsPackedOf, answer_of};
ghost use Rattle.faxrows_lib.specs.ProgramRuns.{RunsProgram};

use crate::input::read_input;
use fax_encode::BitmapSink;
use fax_encode::laws::rows_are_packed;
use fax_program::{Device, RunFault, write_all};
use hayro_ccitt::bit_reader::BitOrder;
use hayro_ccitt::{DecodeError, DecoderContext, decode_in};
use std::alloc::Global;
use std::io::{Read, Write};

/// Reads all that the reader has, decodes it with the settings and in the order of bits that the arguments mean, and writes
/// the rows as a bitmap: one bit a pixel, 1 for black, the leftmost pixel in each byte's highest bit, and zeros after each
/// row up to a whole byte. The inner result is that of decoding.
///
/// # Errors
///
/// The outer ones are those of [`RunFault`]. With an inner one, the rows before the fault were written, or with
/// `OutOfMemory` and `Refused` the rows that were accepted.
pub fn run_packed<R: Read, W: Write>(
    alloc: Global,
    args: &[String],
    reader: &mut Device<R>,
    writer: &mut Device<W>,
) -> std::result::Result<std::result::Result<(), DecodeError>, RunFault>
    ensures runs { RunsProgram IsPackedOf (map string_bytes args.now) (used R.remaining reader.old reader.new)
        (used W.contents writer.old writer.new) result }
{
    let (arguments, input) = read_input(alloc, args, reader)?;
    let Ok(mut ctx) = DecoderContext::new(alloc, arguments.settings) else {
        return Err(RunFault::Memory);
    };
    write_packed(alloc, input.as_slice(), arguments.order, &mut ctx, writer)
}

/// Decodes bytes whose bits come in this order, writes the bitmap of the rows that were accepted, and returns how the
/// decoding ended. It fails only if the writer does.
fn write_packed<W: Write>(
    alloc: Global,
    input: &[u8],
    order: BitOrder,
    ctx: &mut DecoderContext,
    writer: &mut Device<W>,
) -> std::result::Result<std::result::Result<(), DecodeError>, RunFault>
    requires fit { BitsFit input.now }
    ensures writes { WritesText (IsPackedOf ctx.old.held.settings (bits_in order input.now)) (used W.contents writer.old writer.new)
        result }
{
    rows_are_packed();
    let mut sink = BitmapSink::new(alloc, ctx.settings().columns);
    let outcome = decode_in(order, input, &mut sink, ctx);
    let bytes = sink.bytes();
    write_all(writer, bytes)?;
    Ok(answer_of(&outcome))
}

/// Returns how the decoding ended, without the byte count.
fn answer_of(outcome: &hayro_ccitt::Result<usize>) -> std::result::Result<(), DecodeError>
    ensures { result ≡ answer_of outcome.now }
{
    match outcome {
        Ok(_) => Ok(()),
        Err(error) => Err(*error),
    }
}
