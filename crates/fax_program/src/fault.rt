//! Why a run ended early.

ghost use Rattle.std.specs.Prelude.{◌≡◌};
ghost use Rattle.fax_program.specs.Faults.{status_of_fault};

use std::fmt;

/// Why a run ended early.
#[derive(Debug, Clone, Copy, PartialEq, Eq)]
pub enum RunFault {
    /// The arguments are invalid, or could not be fetched. Nothing was read or written.
    BadArguments,
    /// The reader failed.
    Read,
    /// An allocation failed.
    Memory,
    /// There are more bytes than a decoder's bit offsets can count.
    TooLong,
    /// The writer failed.
    Write,
}

impl fmt::Display for RunFault {
    ghost use Rattle.std.specs.Prelude.{Some};
    ghost use Rattle.fax_program.specs.Faults.{text_of_fault};

    ghost output = { λ fault. Some (text_of_fault fault) };

    ghost styled_output = { λ fault _. Some (text_of_fault fault) };

    fn fmt<W: fmt::Write>(&self, f: &mut fmt::Formatter<W>) -> fmt::Result {
        f.write_str(match self {
            RunFault::BadArguments => "bad arguments",
            RunFault::Read => "cannot read",
            RunFault::Memory => "out of memory",
            RunFault::TooLong => "input too long",
            RunFault::Write => "cannot write",
        })
    }
}

/// Returns the exit status of a run that ended early: 2 for invalid arguments, 3 for a failed allocation or device.
pub fn status_of_fault(fault: RunFault) -> u8
    ensures status { result ≡ status_of_fault fault }
{
    match fault {
        RunFault::BadArguments => 2,
        RunFault::Read | RunFault::Memory | RunFault::TooLong | RunFault::Write => 3,
    }
}
