//! `faxrows`: decodes a fax image from standard input, and writes its rows as text to standard output.
//!
//! It is called as `faxrows MODE COLUMNS ROWS FLAGS`. Before these arguments `-o` writes the rows as a bitmap, `-i` each row as
//! it is read, `-d` the damage, `-c` whether every decoder must read the data back as the same rows, and `-p` whether it is what
//! the coding procedure writes for them, for which a K may follow. `--help` explains the arguments.
#![tactic(auto)]

ghost use Rattle.std.specs.Prelude.{◌≡◌, IfOk};
ghost use Rattle.faxrows.specs.Statuses.{IsStatusOfRun, status_of_answer, status_of_done};

use fax_program::arguments::{is_first_arg, is_only_arg};
use fax_program::{Uninterrupted, args, print, status_of_fault};
pub use fax_program::{Device, Failed, RunFault};
pub use faxrows_lib::{
    Done, TextSink, run, run_by_procedure, run_by_row, run_check, run_damage, run_packed,
};
use hayro_ccitt::DecodeError;
use std::process::ExitCode;

fn main(rt: HostRuntime) -> ExitCode {
    match run_args(&rt) {
        Ok(status) => ExitCode::from(status),
        Err(fault) => {
            let _ = eprintln!(rt; "faxrows: {fault}");
            ExitCode::from(status_of_fault(fault))
        }
    }
}

/// Runs with the arguments of the program's run, and returns the exit status.
fn run_args(rt: &HostRuntime) -> Result<u8, RunFault>
    ensures status { IfOk result IsStatusOfRun }
{
    let args = args(rt)?;
    run_with(rt, args.as_slice())
}

/// Runs with these arguments, on standard input and output, and returns the exit status. It prints the error of a bitmap's
/// decoding.
fn run_with(rt: &HostRuntime, args: &[String]) -> Result<u8, RunFault>
    ensures status { IfOk result IsStatusOfRun }
{
    if is_only_arg(args, "--help") {
        print(rt, USAGE)?;
        return Ok(0);
    }
    if is_only_arg(args, "--version") {
        print(rt, VERSION)?;
        return Ok(0);
    }
    let mut reader = Device::new(Uninterrupted(rt.stdin()));
    let mut writer = Device::new(Uninterrupted(rt.stdout()));
    if is_first_arg(args, "-o") {
        let answer = run_packed(rt.alloc(), &args[1..], &mut reader, &mut writer)?;
        if let Err(error) = answer {
            let _ = eprintln!(rt; "faxrows: {error}");
        }
        return Ok(status_of_answer(answer));
    }
    let done = if is_first_arg(args, "-i") {
        run_by_row(rt.alloc(), &args[1..], &mut reader, &mut writer)?
    } else if is_first_arg(args, "-d") {
        run_damage(rt.alloc(), &args[1..], &mut reader, &mut writer)?
    } else if is_first_arg(args, "-c") {
        run_check(rt.alloc(), &args[1..], &mut reader, &mut writer)?
    } else if is_first_arg(args, "-p") {
        run_by_procedure(rt.alloc(), &args[1..], &mut reader, &mut writer)?
    } else {
        run(rt.alloc(), args, &mut reader, &mut writer)?
    };
    Ok(status_of_done(done))
}

/// What `--help` prints.
const USAGE: &str = "\
usage: faxrows [-o | -i | -d | -c] MODE COLUMNS ROWS FLAGS
       faxrows -p MODE COLUMNS ROWS FLAGS [K]
       faxrows --help | --version

Decodes a strip of CCITT fax data from standard input, and writes to standard output:
      each row as a line: r, and the positions at which its colour changes
  -o  the rows as a bitmap: one bit for each pixel, 1 for black
  -i  the same lines as without an option, each as soon as it is known
  -d  the damage: the rows that were repaired or cut, and the EOLs that were missed
  -c  ok if every decoder must read the data back as the same rows, or a rule that it breaks
  -p  ok if the data is what the coding procedure writes for its rows, or a rule that it breaks

MODE is g4 (Group 4), 1d or 2d (Group 3). COLUMNS is the width in pixels, ROWS the largest
number of rows, 0 for no limit. K is that of two-dimensional Group 3: at most K - 1 lines in
turn have two dimensions, or any number without it. FLAGS are letters, or - for none:
  b  EOFB or RTC may end the data
  l  an EOL precedes each line
  a  rows are aligned to bytes
  s  strict: data that breaks a rule is an error
  r  the lowest bit of each byte comes first";

/// What `--version` prints.
const VERSION: &str = "faxrows 0.9.0";

/// Returns the status of a run that wrote its text.
fn status_of_done(done: Done) -> u8
    ensures status { result ≡ status_of_done done }
{
    match done {
        Done::Good => 0,
        Done::Faulty => 1,
        Done::Memory => 3,
    }
}

/// Returns the status of a run that wrote its bitmap.
fn status_of_answer(answer: Result<(), DecodeError>) -> u8
    ensures status { result ≡ status_of_answer answer }
{
    match answer {
        Ok(()) => 0,
        Err(DecodeError::OutOfMemory | DecodeError::Refused) => 3,
        Err(_) => 1,
    }
}
