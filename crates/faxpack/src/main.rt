//! `faxpack`: encodes a bitmap from standard input as a fax image, and writes the strip to standard output.
//!
//! It is called as `faxpack MODE FLAGS`, with a PBM picture (P4) on standard input, or as `faxpack -o MODE COLUMNS ROWS FLAGS`,
//! with the rows that `faxrows -o` writes for the same arguments. A last argument may be the K of two-dimensional lines, which is
//! 4 without it. `--help` explains the arguments.
#![tactic(auto)]

ghost use Rattle.std.specs.Prelude.{◌≡◌, ◌⊎◌, IfOk};
ghost use Rattle.faxpack.specs.Statuses.{IsStatusOfRun, status_of_answer};

mod arguments;
pub mod picture;
pub mod program;

use fax_program::arguments::is_only_arg;
use fax_program::{Device, RunFault, Uninterrupted, args, print, status_of_fault};
pub use picture::PictureFault;
pub use program::run;
use std::process::ExitCode;

fn main(rt: HostRuntime) -> ExitCode {
    match run_args(&rt) {
        Ok(status) => ExitCode::from(status),
        Err(fault) => {
            let _ = eprintln!(rt; "faxpack: {fault}");
            ExitCode::from(status_of_fault(fault))
        }
    }
}

/// Runs with the arguments of the program's run, and returns the exit status.
fn run_args(rt: &HostRuntime) -> Result<u8, RunFault>
    ensures status { IfOk result IsStatusOfRun }
{
    let args = args(rt)?;
    run_with(rt, args.as_slice())
}

/// Runs with these arguments, on standard input and output, and returns the exit status. It prints what is wrong with the
/// picture.
fn run_with(rt: &HostRuntime, args: &[String]) -> Result<u8, RunFault>
    ensures status { IfOk result IsStatusOfRun }
{
    if is_only_arg(args, "--help") {
        print(rt, USAGE)?;
        return Ok(0);
    }
    if is_only_arg(args, "--version") {
        print(rt, VERSION)?;
        return Ok(0);
    }
    let mut reader = Device::new(Uninterrupted(rt.stdin()));
    let mut writer = Device::new(Uninterrupted(rt.stdout()));
    let answer = run(rt.alloc(), args, &mut reader, &mut writer)?;
    if let Err(fault) = answer {
        let _ = eprintln!(rt; "faxpack: {fault}");
    }
    Ok(status_of_answer(answer))
}

/// What `--help` prints.
const USAGE: &str = "\
usage: faxpack MODE FLAGS [K]
       faxpack -o MODE COLUMNS ROWS FLAGS [K]
       faxpack --help | --version

Encodes a bitmap from standard input as a strip of CCITT fax data, and writes it to standard output.
      the input is a PBM picture (P4)
  -o  the input is rows without a header, as faxrows -o writes them

MODE is g4 (Group 4), 1d or 2d (Group 3). COLUMNS is the width in pixels, ROWS the largest
number of rows, 0 for all. K is that of two-dimensional Group 3: 4 if it isn't given.
FLAGS are letters, or - for none:
  b  EOFB or RTC after the last line
  l  an EOL before each line
  f  fill before EOLs, so that they end at whole bytes
  a  rows are aligned to bytes
  r  the lowest bit of each byte comes first
  m  the shortest lines: the fewest bits
  s  no effect; faxrows then reads strictly";

/// What `--version` prints.
const VERSION: &str = "faxpack 0.9.0";

/// Returns the status of a run that read its input: 0 if the strip was written, 1 if the input is no picture that can be
/// encoded.
fn status_of_answer(answer: Result<(), PictureFault>) -> u8
    ensures status { result ≡ status_of_answer answer }
{
    match answer {
        Ok(()) => 0,
        Err(_) => 1,
    }
}
