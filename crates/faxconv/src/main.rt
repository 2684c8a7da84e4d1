//! `faxconv`: reads fax pages of TIFF and PDF files and raw fax data, and writes them as pictures or documents: see `faxconv --help`.
#![tactic(auto)]

mod carried;
mod copied_strip;
mod guess;
mod long_strip;
mod output;
mod piped;
mod run;
mod shown;
mod split;
mod written;

use crate::run::Run;
use faxconv_lib::help::{HELP, HELP_OF_FAX2PBM};
use faxconv_lib::streams::open_standard_streams;
use faxconv_lib::{Options, Program, Request, Status, Teller, request_of};
use std::alloc::AllocError;
use std::env;
use std::process::ExitCode;

fn main(rt: HostRuntime) -> ExitCode {
    let Ok(_streams) = open_standard_streams(&rt) else {
        return ExitCode::from(Status::CannotGoOn.exit_code());
    };
    ExitCode::from(run_words(&rt).exit_code())
}

/// Runs with the words that the program is called by.
fn run_words(rt: &HostRuntime) -> Status {
    let mut teller = Teller::new(rt, "faxconv");
    let words: Vec<String> = match env::args(rt) {
        Ok(all) => match all.collect(rt.alloc()) {
            Ok(words) => words,
            Err(_) => return cannot(&mut teller, "out of memory"),
        },
        Err(_) => return cannot(&mut teller, "the arguments can't be read: one isn't UTF-8"),
    };
    let Some((first, arguments)) = words.as_slice().split_first() else {
        return cannot(&mut teller, "there are no arguments");
    };
    let name = match first.as_str().rsplit_once('/') {
        Some((_, name)) => name,
        None => first.as_str(),
    };
    run_named(rt, name, arguments)
}

/// Runs with arguments, called by a name.
fn run_named<'a>(rt: &'a HostRuntime, name: &'a str, arguments: &'a [String]) -> Status {
    let program = if name == "fax2pbm" {
        Program::Fax2pbm
    } else {
        Program::Faxconv
    };
    let mut teller = Teller::new(rt, name);
    match request_of(rt.alloc(), program, arguments) {
        Ok(Request::Run(options)) => run_options(rt, teller, &options),
        Ok(Request::Help) => print(rt, help_of(program)),
        Ok(Request::Version) => match println!(rt; "{name} {VERSION}") {
            Ok(()) => Status::Whole,
            Err(_) => Status::CannotGoOn,
        },
        Err(error) => {
            match format!(in rt.alloc(); "{error}") {
                Ok(text) => teller.tell(None, text.as_str()),
                Err(_) => teller.tell(None, "out of memory"),
            }
            if error.is_of_usage() {
                teller.tell(None, "try `--help`");
            }
            Status::CannotGoOn
        }
    }
}

/// What `--version` prints after the name.
const VERSION: &str = "0.9.0";

/// Returns the text of `--help`.
fn help_of(program: Program) -> &'static str {
    match program {
        Program::Faxconv => HELP,
        Program::Fax2pbm => HELP_OF_FAX2PBM,
    }
}

/// Prints a text.
fn print(rt: &HostRuntime, text: &str) -> Status {
    match print!(rt; "{text}") {
        Ok(()) => Status::Whole,
        Err(_) => Status::CannotGoOn,
    }
}

/// Tells why nothing is done.
fn cannot(teller: &mut Teller<'_>, why: &str) -> Status {
    teller.tell(None, why);
    Status::CannotGoOn
}

/// Runs with options.
fn run_options<'a>(rt: &'a HostRuntime, teller: Teller<'a>, options: &Options<'_>) -> Status {
    let mut run = Run::new(rt, teller, options);
    let status = match run.do_files() {
        Ok(status) => status,
        Err(AllocError) => {
            run.tell_run("out of memory");
            Status::CannotGoOn
        }
    };
    run.end();
    status
}
