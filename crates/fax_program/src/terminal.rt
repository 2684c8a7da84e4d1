//! The arguments of a program's run, and texts for standard output.

ghost use Rattle.std.specs.Prelude.{◌≡◌, IfErr};

use crate::fault::RunFault;
use std::env;

/// Returns the arguments of the program's run, without the program's name.
///
/// # Errors
///
/// `BadArguments` if they can't be fetched: an argument isn't UTF-8, or an allocation fails.
pub fn args(rt: &HostRuntime) -> Result<Vec<String>, RunFault>
    ensures only { IfErr result (λ fault. fault ≡ RunFault.BadArguments) }
{
    let Ok(all) = env::args(rt) else {
        return Err(RunFault::BadArguments);
    };
    all.skip(1)
        .collect(rt.alloc())
        .map_err(|_| RunFault::BadArguments)
}

/// Prints a text and a newline to standard output.
///
/// # Errors
///
/// `Write` if standard output fails.
pub fn print(rt: &HostRuntime, text: &str) -> Result<(), RunFault>
    ensures only { IfErr result (λ fault. fault ≡ RunFault.Write) }
{
    match println!(rt; "{text}") {
        Ok(()) => Ok(()),
        Err(_) => Err(RunFault::Write),
    }
}
