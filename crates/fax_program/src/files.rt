//! Reading all that a device has, and writing all of some bytes to one.

ghost use Rattle.std.specs.Prelude.{◌≡◌, ◌↔◌, ◌≢◌, IfOk, IfErr, OnOk, OnErr, IfSome, true, false, Err};
ghost use Rattle.std.specs.Io.KnownBytes.{Appends, IsAtEnd};
ghost use Rattle.fax_bits.specs.Bits.{BitsFit};
ghost use Rattle.fax_program.specs.Devices.{AppendsFront, WasRead};

use crate::device::Device;
use crate::fault::RunFault;
use std::alloc::Global;
use std::io::{Read, Write};

/// Reads until the reader has no more, and returns what it had.
///
/// # Errors
///
/// `Read` if the reader fails, `Memory` if an allocation fails, and `TooLong` if there are more bytes than
/// `fax_bits::bits_fit` holds of.
pub fn read_all<R: Read>(
    alloc: Global,
    reader: &mut Device<R>,
) -> std::result::Result<Vec<u8>, RunFault>
    ensures all { IfOk result (λ input. IfSome (R.remaining reader.old.0) (λ known. input.items ≡ known)) }
    ensures drained { IfOk result (λ _. IsAtEnd (R.remaining reader.new.0)) }
    ensures fit { IfOk result (λ input. BitsFit input.items) }
    ensures too_long { result ≡ Err RunFault.TooLong
        → IfSome (R.remaining reader.old.0) (λ known. ¬ (BitsFit known)) }
    ensures fit_so_far { result ≢ Err RunFault.TooLong
        → WasRead (R.remaining reader.old.0) (R.remaining reader.new.0) BitsFit }
    ensures read { reader.old.1 ≡ false → ((result ≡ Err RunFault.Read) ↔ (reader.new.1 ≡ true)) }
    ensures not_write { result ≢ Err RunFault.Write }
    ensures not_arguments { result ≢ Err RunFault.BadArguments }
{
    let mut input = Vec::new(alloc);
    let mut buffer = [0u8; READ_AT_ONCE];
    loop {
        let Ok(count) = reader.read(&mut buffer) else {
            return Err(RunFault::Read);
        };
        if count == 0 {
            return Ok(input);
        }
        if input.len() > MOST_BYTES - count {
            return Err(RunFault::TooLong);
        }
        if input.extend_from_slice(&buffer[..count]).is_err() {
            return Err(RunFault::Memory);
        }
    }
}

/// The most bytes that are read at once.
const READ_AT_ONCE: usize = 65536;

/// The most bytes that `fax_bits::bits_fit` holds of.
const MOST_BYTES: usize = (usize::MAX - 64) / 8;

/// Writes bytes until all of them are written.
///
/// # Errors
///
/// `Write` if the writer fails. It has written a front of the bytes.
pub fn write_all<W: Write>(
    writer: &mut Device<W>,
    bytes: &[u8],
) -> std::result::Result<(), RunFault>
    ensures ok { OnOk result (Appends (W.contents writer.old.0) (W.contents writer.new.0) bytes.now) }
    ensures front { OnErr result (AppendsFront (W.contents writer.old.0) (W.contents writer.new.0) bytes.now) }
    ensures flag { OnOk result (writer.new.1 ≡ writer.old.1) }
    ensures failed { OnErr result (writer.new.1 ≡ true) }
    ensures only { IfErr result (λ fault. fault ≡ RunFault.Write) }
{
    let mut rest = bytes;
    while !rest.is_empty() {
        let Ok(count) = writer.write(rest) else {
            return Err(RunFault::Write);
        };
        rest = &rest[count..];
    }
    Ok(())
}
