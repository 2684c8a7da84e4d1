//! Guesses how raw data is encoded.

use crate::run::{Run, text_in};
use fax_guess::{Guess, guesses};
use faxconv_lib::Status;
use faxconv_lib::guess_text::{put_guess, put_json_guess};
use faxconv_lib::info::Contents;
use faxconv_lib::options::RawOptions;
use faxconv_lib::report::Place;
use faxconv_lib::standard::violation_of;
use std::alloc::{AllocError, Global};

impl<'a, 'b, 'c> Run<'a, 'b, 'c> {
    /// Prints how raw data may be encoded, the likeliest first, a line for each way. Its status is that of the first one.
    pub(crate) fn do_guess(&mut self, name: &str, data: &[u8]) -> Result<Status, AllocError> {
        let alloc = self.rt.alloc();
        let raw = self.options.raw;
        let columns = if raw.has_width {
            Some(raw.settings.columns)
        } else {
            None
        };
        let found = guesses(alloc, data, columns)?;
        let Some(first) = found.first() else {
            return self.print_contents(name, Place::File, &Contents::Refused(NOT_FAX));
        };
        let status = if first.settings.strict {
            Status::Whole
        } else {
            Status::Damaged
        };
        for guess in found.iter() {
            let line = line_of(alloc, name, data, guess, self.options.is_json)?;
            if print!(self.rt; "{line}").is_err() {
                return self.cannot_print();
            }
        }
        Ok(status)
    }
}

/// What is said of data that no reading fits.
const NOT_FAX: &str = "not fax data";

/// Returns the line of a guess.
fn line_of(
    alloc: Global,
    name: &str,
    data: &[u8],
    guess: &Guess,
    is_json: bool,
) -> Result<String, AllocError> {
    let raw = RawOptions::of_guess(guess.settings, guess.order);
    let page = raw.page(alloc, data, Some(guess.rows))?;
    let violation = violation_of(alloc, &page)?;
    let mut line = String::new(alloc);
    if is_json {
        put_json_guess(name, guess, text_in(&violation), &mut line)?;
    } else {
        put_guess(name, guess, text_in(&violation), &mut line)?;
    }
    line.push('\n')?;
    Ok(line)
}
