//! What is said of a guess.

use crate::json::put_json_text;
use crate::visible::put_visible;
use fax_guess::Guess;
use std::alloc::AllocError;

/// Puts the line of a guess about a file: what it is, what speaks for it and where its data breaks a rule by which every decoder must read
/// it so, and the options by which it is read.
pub fn put_guess(
    name: &str,
    guess: &Guess,
    violation: Option<&str>,
    text: &mut String,
) -> Result<(), AllocError> {
    put_visible(name, text)?;
    text.push_str(": ")?;
    guess.put_words(text)?;
    text.push_str("; ")?;
    guess.put_reasons(text)?;
    text.push_str("; ")?;
    text.push_str(violation.unwrap_or("every decoder must read it so"))?;
    text.push_str("; ")?;
    guess.put_options(text)
}

/// Puts a guess as an object of JSON.
pub fn put_json_guess(
    name: &str,
    guess: &Guess,
    violation: Option<&str>,
    text: &mut String,
) -> Result<(), AllocError> {
    text.push_str("{\"file\": ")?;
    put_json_text(name, text)?;
    text.push_str(", ")?;
    guess.put_members(text)?;
    text.push_str(", \"violation\": ")?;
    match violation {
        None => text.push_str("null")?,
        Some(why) => put_json_text(why, text)?,
    }
    text.push('}')
}
