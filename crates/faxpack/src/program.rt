//! A run of the program: reads all that a reader has, and writes it encoded.

ghost use Rattle.std.specs.Prelude.{◌≡◌, ◌↔◌, ◌≢◌, ◌⊎◌, IfOk, IfErr, true, false, map, string_bytes, None, Ok, Err};
ghost use Rattle.fax_encode.specs.Settings.{names_encoding};
ghost use Rattle.fax_program.specs.Devices.{ReadsInput};
ghost use Rattle.faxpack.specs.Arguments.{arguments_of};
ghost use Rattle.faxpack.specs.Runs.{IsAnswer, OnKnown};

use crate::arguments::{Arguments, arguments_of};
use crate::picture::{PictureFault, place_of};
use fax_encode::{EncodeError, encode_bitmap};
use fax_program::{Device, RunFault, read_all, write_all};
use std::alloc::Global;
use std::io::{Read, Write};

/// Reads all that the reader has, encodes the picture in it as the arguments say, and writes the strip. The inner result
/// says what is wrong with the picture.
///
/// # Errors
///
/// The outer ones are those of [`RunFault`], the inner ones those of [`PictureFault`]. Nothing is written with any but
/// `Write`.
pub fn run<R: Read, W: Write>(
    alloc: Global,
    args: &[String],
    reader: &mut Device<R>,
    writer: &mut Device<W>,
) -> std::result::Result<std::result::Result<(), PictureFault>, RunFault>
    ensures bad_arguments { (result ≡ Err RunFault.BadArguments)
        ↔ (arguments_of (map string_bytes args.now) ≡ None) }
    ensures unread { result ≡ Err RunFault.BadArguments → reader.new ≡ reader.old }
    ensures unwritten { IfErr result (λ fault. fault ≢ RunFault.Write → writer.new ≡ writer.old) }
    ensures refused { IfOk result (λ answer. IfErr answer (λ _. writer.new ≡ writer.old)) }
    ensures answer { IfOk result (λ answer.
        OnKnown (arguments_of (map string_bytes args.now)) (R.remaining reader.old.0) (λ arguments input.
        IsAnswer arguments input answer (W.contents writer.old.0) (W.contents writer.new.0))) }
    ensures input { ReadsInput (R.remaining reader.old.0) (R.remaining reader.new.0) result }
    ensures read { reader.old.1 ≡ false → ((result ≡ Err RunFault.Read) ↔ (reader.new.1 ≡ true)) }
    ensures write { writer.old.1 ≡ false → ((result ≡ Err RunFault.Write) ↔ (writer.new.1 ≡ true)) }
{
    let Some(arguments) = arguments_of(args) else {
        return Err(RunFault::BadArguments);
    };
    let input = read_all(alloc, reader)?;
    write_encoded(alloc, input.as_slice(), arguments, writer)
}

/// Encodes the picture in an input, and writes the strip. It fails only if the writer or an allocation does.
fn write_encoded<W: Write>(
    alloc: Global,
    input: &[u8],
    arguments: Arguments,
    writer: &mut Device<W>,
) -> std::result::Result<std::result::Result<(), PictureFault>, RunFault>
    requires names { names_encoding arguments.settings ≡ true }
    ensures answer { IfOk result (λ answer.
        IsAnswer arguments input.now answer (W.contents writer.old.0) (W.contents writer.new.0)) }
    ensures refused { IfOk result (λ answer. IfErr answer (λ _. writer.new ≡ writer.old)) }
    ensures memory { result ≡ Err RunFault.Memory → writer.new ≡ writer.old }
    ensures write { writer.old.1 ≡ false → ((result ≡ Err RunFault.Write) ↔ (writer.new.1 ≡ true)) }
    ensures only { IfErr result (λ fault. (fault ≡ RunFault.Memory) ⊎ (fault ≡ RunFault.Write)) }
{
    let place = match place_of(arguments.size, input) {
        Ok(place) => place,
        Err(fault) => return Ok(Err(fault)),
    };
    let bitmap = &input[place.start..place.start + place.length];
    match encode_bitmap(alloc, place.columns, bitmap, arguments.settings) {
        Ok(bytes) => {
            write_all(writer, bytes.as_slice())?;
            Ok(Ok(()))
        }
        Err(EncodeError::NoRows) => Ok(Err(PictureFault::NoRows)),
        Err(_) => Err(RunFault::Memory),
    }
}
