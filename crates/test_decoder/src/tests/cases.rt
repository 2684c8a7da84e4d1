//! Cases as text, one a line, of fields between `|`: the settings, the data in hexadecimal digits, and what is expected.
//!
//! ```text
//! Group4 8 columns 2 rows b | 31F8 | [[3, 5], [3, 5]] Ok(2)
//! ```
//!
//! The settings are the encoding, the columns, the row limit, and the flags, if there are any: a for aligned rows, b for EOFB
//! or RTC, l for EOLs and s for strict. Words of digits are joined, and `AB*3` is AB three times. A line that begins with `//` is
//! a comment. The proof of a test takes time by the size of its body, and a text is one value.

use super::{
    bytes_of, context_of, decoded, decoded_low_first, joined, mirrored, number_in, same_text,
};
use hayro_ccitt::{DecodeSettings, DecoderContext, EncodingMode};
use std::alloc::AllocGlobal;
use std::process::Abort;

/// Reads the encoding of settings.
fn encoding_in(rt: &impl Abort, word: &str) -> EncodingMode {
    match word {
        "Group4" => EncodingMode::Group4,
        "Group3_1D" => EncodingMode::Group3_1D,
        "Group3_2D" => EncodingMode::Group3_2D,
        _ => panic!(rt; "no encoding: {word}"),
    }
}

/// Adds a flag to settings.
fn set(rt: &impl Abort, settings: &mut DecodeSettings, flag: &str) {
    match flag {
        "a" => settings.rows_are_byte_aligned = true,
        "b" => settings.end_of_block = true,
        "l" => settings.end_of_line = true,
        "s" => settings.strict = true,
        _ => panic!(rt; "no flag: {flag}"),
    }
}

/// Reads settings.
pub(super) fn settings_in(rt: &impl Abort, text: &str) -> DecodeSettings {
    let mut words = text.split_whitespace();
    let mut settings = DecodeSettings {
        columns: 0,
        rows: 0,
        end_of_block: false,
        end_of_line: false,
        rows_are_byte_aligned: false,
        encoding: encoding_in(rt, words.next().unwrap_or("")),
        strict: false,
    };
    settings.columns = number_in(rt, words.next().unwrap_or(""));
    assert!(rt; words.next() == Some("columns"));
    settings.rows = number_in(rt, words.next().unwrap_or(""));
    assert!(rt; words.next() == Some("rows"));
    for flag in words {
        set(rt, &mut settings, flag);
    }
    settings
}

/// Returns the fields of a case.
fn fields_of(case: &str) -> Option<(&str, &str, &str)> {
    let (settings, others) = case.split_once('|')?;
    let (digits, expected) = others.split_once('|')?;
    Some((settings.trim(), digits.trim(), expected.trim()))
}

/// Returns the cases of a text: the settings, the digits and what is expected.
pub(super) fn cases_of<'a>(
    rt: &(impl Abort + AllocGlobal),
    text: &'a str,
) -> Vec<(&'a str, &'a str, &'a str)> {
    let mut cases = Vec::new(rt.alloc());
    for line in text.lines() {
        let case = line.trim();
        if !case.is_empty() && !case.starts_with('/') {
            let fields = fields_of(case).expect(rt, case);
            assert!(rt; cases.push(fields).is_ok());
        }
    }
    assert!(rt; !cases.is_empty());
    cases
}

/// Writes what a context says after it decoded: the offset of a fault, the damaged rows, the missed EOLs, and whether EOLs are
/// sought.
fn reported(rt: &(impl Abort + AllocGlobal), ctx: &DecoderContext) -> String {
    let fault = ctx.fault_start();
    let (damaged, missed) = (ctx.damaged_rows(), ctx.missed_eols());
    let has_eols = ctx.has_eols();
    format!(in rt.alloc(); "{fault:?} {damaged} {missed} {has_eols}").expect(rt, "memory")
}

/// Makes a new context if there are settings, and returns how many rows the sink takes.
fn prepares(rt: &(impl Abort + AllocGlobal), ctx: &mut DecoderContext, words: &str) -> u64 {
    let (settings, taken) = words.split_once(',').unwrap_or((words, "9999"));
    if !settings.is_empty() {
        *ctx = context_of(rt, settings_in(rt, settings));
    }
    u64::from(number_in(rt, taken.trim()))
}

/// Decodes digits in a context up to a number of rows, with the highest bit first and then with the lowest, and compares the
/// rows, the results, and what the context says if that is given.
fn decodes(
    rt: &(impl Abort + AllocGlobal),
    ctx: &mut DecoderContext,
    limit: u64,
    digits: &str,
    expected: &str,
) {
    if digits == "reset" {
        ctx.reset();
        same_text(rt, digits, reported(rt, ctx).as_str(), expected);
        return;
    }
    let data = bytes_of(rt, digits);
    let (rows, says) = expected.split_once('|').unwrap_or((expected, ""));
    let wanted = joined(rt, rows);
    let found = decoded(rt, ctx, &data, limit);
    same_text(rt, digits, found.as_str(), wanted.as_str());
    if !says.is_empty() {
        let found = reported(rt, ctx);
        same_text(rt, digits, found.as_str(), says.trim());
    }
    let found = decoded_low_first(rt, ctx, &mirrored(rt, &data), limit);
    same_text(rt, digits, found.as_str(), wanted.as_str());
}

/// Decodes each case of a text, and compares the rows with the result, as `Debug` writes them, and a fourth field, if there is
/// one, with what the context says then. A case without settings is decoded in the context of the one before. With a
/// number after the settings the sink refuses the row after so many, and `reset` as data resets the context.
///
/// ```text
/// Group3_1D 8 columns 0 rows l, 1 | 0019800C400033 | [[]] Err(Refused) | Some(29) 0 0 true
/// ```
pub(super) fn decodes_each(rt: &(impl Abort + AllocGlobal), text: &str) {
    let mut ctx = context_of(rt, settings_in(rt, "Group4 0 columns 0 rows"));
    for (words, digits, expected) in &cases_of(rt, text) {
        let limit = prepares(rt, &mut ctx, words);
        decodes(rt, &mut ctx, limit, digits, expected);
    }
}
