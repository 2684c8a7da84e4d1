//! What a run is given: what its arguments mean, and all that its reader has.

ghost use Rattle.std.specs.Prelude.{IfOk, IfErr, map, string_bytes};
ghost use Rattle.faxrows_lib.specs.Output.{used};
ghost use Rattle.faxrows_lib.specs.ProgramRuns.{HasInput, LacksInput};

use crate::arguments::{Arguments, arguments_of};
use fax_program::{Device, RunFault, read_all};
use std::alloc::Global;
use std::io::Read;

/// Returns what the arguments mean, and all that the reader has.
///
/// # Errors
///
/// `BadArguments` if the arguments mean nothing; nothing is read then. Otherwise those of [`read_all`].
pub(crate) fn read_input<R: Read>(
    alloc: Global,
    args: &[String],
    reader: &mut Device<R>,
) -> std::result::Result<(Arguments, Vec<u8>), RunFault>
    ensures has { IfOk result (λ input. HasInput (map string_bytes args.now) (used R.remaining reader.old reader.new)
        input.0 input.1.items) }
    ensures lacks { IfErr result (LacksInput (map string_bytes args.now) (used R.remaining reader.old reader.new)) }
{
    let Some(arguments) = arguments_of(args) else {
        return Err(RunFault::BadArguments);
    };
    let input = read_all(alloc, reader)?;
    Ok((arguments, input))
}
