//! Cases as texts, which are far quicker to prove than tables: one case a line, a call with its arguments, a colon, and what is
//! found.
//!
//! ```text
//! encode_g4 8 3,5/3,5 aligned: 31C0E0001001
//! ```
//!
//! The arguments are the number of columns, the image and words for settings; `refused` is a call with each allocation refused in
//! turn (`made_at_last`). An image is rows, as changes between commas, or bytes
//! as hexadecimal digits. What is found is written as bytes are, or as `Debug` writes it; errors are written by their names.

ghost use Rattle.std.specs.Prelude.{◌≡◌, true};
ghost use Rattle.fax_encode.specs.Settings.{names_encoding};

use crate::same;
use fax_callers::{
    FirstRows, bitmap_by_group3, bitmap_by_group4, count_black, decode_first_rows, group3_pages,
    group4_pages, is_blank, page_end, page_end_by, page_ends, page_ends_by, strip_to_bitmap,
};
use fax_encode::{
    BitmapSink, Effort, EncodeError, EncodeSettings, Encoder, encode, encode_1d, encode_bitmap,
    encode_bitmap_1d, encode_bitmap_g4, encode_g4, names_encoding, rows_of_bitmap,
};
use hayro_ccitt::bit_reader::BitOrder;
use hayro_ccitt::{DecodeSettings, DecoderContext, EncodingMode, bits_fit};
use std::alloc::{AllocGlobal, Global};
use std::fmt::Debug;
use std::process::Abort;
use test_allocations::made_at_last;

/// Checks the case of each line of a text, with the same words in front of each. A line that begins with `//` is a comment.
pub fn check(rt: &(impl Abort + AllocGlobal), front: &str, cases: &str) {
    let mut has_cases = false;
    for line in cases.lines() {
        let line = line.trim();
        if !line.is_empty() && !line.starts_with("//") {
            check_case(rt, front, line);
            has_cases = true;
        }
    }
    assert!(rt; has_cases, "no cases");
}

/// Makes the call of a case, and compares what is found.
fn check_case(rt: &(impl Abort + AllocGlobal), front: &str, line: &str) {
    let whole = format!(in rt.alloc(); "{front} {line}").expect(rt, "memory");
    let (call, expected) = whole.as_str().split_once(": ").expect(rt, line);
    let found = found_by(rt, call);
    same(rt, (call, found.as_str()), (call, expected));
}

/// Makes a call, and writes what it returns.
fn found_by(rt: &(impl Abort + AllocGlobal), call: &str) -> String {
    let mut words = call.split_whitespace();
    let name = words.next().expect(rt, call);
    let columns = words
        .next()
        .expect(rt, call)
        .parse::<u32>()
        .expect(rt, call);
    let image = words.next().expect(rt, call);
    for word in words {
        assert!(rt; is_setting(word), "{word} is no setting");
    }
    match name {
        "encode_g4"
        | "encode_1d"
        | "encode"
        | "bitmap_by_group4"
        | "bitmap_by_group3"
        | "push_changes" => { encoded_by(rt, call, name, columns, &rows_of(rt, image), &[]) }
        "encode_bitmap_g4" | "encode_bitmap_1d" | "encode_bitmap" | "push_packed_row" => {
            encoded_by(rt, call, name, columns, &[], &bytes_of(rt, image))
        }
        "decode_first_rows" => first_rows_in(rt, call, columns, &bytes_of(rt, image)),
        "group3_pages" | "page_end_by" | "page_ends_by" => {
            pages_in(rt, call, name, columns, &bytes_of(rt, image))
        }
        _ => found_in(rt, name, columns, &bytes_of(rt, image), order_by(call)),
    }
}

/// Decodes the first rows into a bitmap, at most as many as given, and returns the result and the rows.
pub fn first_of(
    rt: &(impl Abort + AllocGlobal),
    columns: u32,
    order: BitOrder,
    data: &[u8],
    most: u64,
) -> (hayro_ccitt::Result<bool>, FirstRows<BitmapSink>) {
    assert!(rt; bits_fit(data));
    let mut ctx = DecoderContext::new(rt.alloc(), group4_pages(columns)).expect(rt, "memory");
    let mut first = FirstRows::new(BitmapSink::new(rt.alloc(), columns), most);
    let found = decode_first_rows(order, data, &mut first, &mut ctx);
    (found, first)
}

/// Writes the result of decoding the first rows, their number, and their bitmap.
fn first_rows_in(rt: &(impl Abort + AllocGlobal), call: &str, columns: u32, data: &[u8]) -> String {
    let most = u64::from(number_by(call, "most=", 0));
    let (found, first) = first_of(rt, columns, order_by(call), data, most);
    let bitmap = digits_of(rt, first.sink.bytes());
    format!(in rt.alloc(); "{found:?} {} {bitmap:?}", first.rows).expect(rt, "memory")
}

/// Writes the bytes of an encoded image or of a bitmap, where the call says so after each allocation was refused in turn.
fn encoded_by(
    rt: &(impl Abort + AllocGlobal),
    call: &str,
    name: &str,
    columns: u32,
    rows: &[Vec<u32>],
    bitmap: &[u8],
) -> String {
    let alloc = rt.alloc();
    let settings = settings_by(call);
    if has(call, "refused") {
        let made = made_in_want(rt, alloc, name, columns, rows, bitmap, settings);
        digits_of(rt, &made.expect(rt, call))
    } else {
        bytes_or_error(
            rt,
            by_name(rt, alloc, name, columns, rows, bitmap, settings),
        )
    }
}

/// Makes a call with each of its allocations refused in turn, and returns what `made_at_last` does.
fn made_in_want(
    rt: &impl Abort,
    alloc: Global,
    name: &str,
    columns: u32,
    rows: &[Vec<u32>],
    bitmap: &[u8],
    settings: EncodeSettings,
) -> Result<Vec<u8>, (usize, Option<EncodeError>)> {
    made_at_last(
        alloc,
        &|| by_name(rt, alloc, name, columns, rows, bitmap, settings),
        &is_want,
    )
}

/// Returns whether an error is `OutOfMemory`.
fn is_want(error: &EncodeError) -> bool {
    matches!(error, EncodeError::OutOfMemory)
}

/// Writes what the calls that take bytes and an order of bits return.
fn found_in(
    rt: &(impl Abort + AllocGlobal),
    name: &str,
    columns: u32,
    bytes: &[u8],
    order: BitOrder,
) -> String {
    assert!(rt; bits_fit(bytes));
    let (alloc, settings) = (rt.alloc(), group4_pages(columns));
    match name {
        "rows_of_bitmap" => said(rt, rows_of_bitmap(alloc, columns, bytes)),
        "count_black" => said(rt, count_black(alloc, settings, order, bytes)),
        "is_blank" => said(rt, is_blank(alloc, settings, order, bytes)),
        "group4_pages" => said(rt, settings),
        "page_end" => said(rt, page_end(alloc, columns, order, bytes)),
        "page_ends" => said(rt, page_ends(alloc, columns, order, bytes)),
        "strip_to_bitmap" => { bytes_or_error(rt, strip_to_bitmap(alloc, settings, order, bytes)) }
        _ => panic!(rt; "no call is named {name}"),
    }
}

/// Returns the settings for pages of the encoding that words name.
pub fn pages_by(columns: u32, words: &str) -> DecodeSettings {
    match encoding_by(words) {
        EncodingMode::Group4 => group4_pages(columns),
        EncodingMode::Group3_1D => group3_pages(columns, false),
        EncodingMode::Group3_2D => group3_pages(columns, true),
    }
}

/// Writes what the calls that find pages of any encoding return.
fn pages_in(
    rt: &(impl Abort + AllocGlobal),
    call: &str,
    name: &str,
    columns: u32,
    bytes: &[u8],
) -> String {
    assert!(rt; bits_fit(bytes));
    let (alloc, settings, order) = (rt.alloc(), pages_by(columns, call), order_by(call));
    match name {
        "group3_pages" => said(rt, settings),
        "page_end_by" => said(rt, page_end_by(alloc, settings, order, bytes)),
        _ => said(rt, page_ends_by(alloc, settings, order, bytes)),
    }
}

/// Writes a value as `Debug` does.
fn said<T: Debug + Drop>(rt: &(impl Abort + AllocGlobal), value: T) -> String {
    format!(in rt.alloc(); "{value:?}").expect(rt, "memory")
}

/// Calls a function that returns bytes, or whose sink holds some.
fn by_name(
    rt: &impl Abort,
    alloc: Global,
    name: &str,
    columns: u32,
    rows: &[Vec<u32>],
    bitmap: &[u8],
    settings: EncodeSettings,
) -> Result<Vec<u8>, EncodeError> {
    assert!(rt; names_encoding(settings), "no encoding");
    let aligned = settings.rows_are_byte_aligned;
    match name {
        "encode_bitmap_g4" => encode_bitmap_g4(alloc, columns, bitmap, aligned),
        "encode_bitmap_1d" => encode_bitmap_1d(alloc, columns, bitmap),
        "encode_bitmap" => encode_bitmap(alloc, columns, bitmap, settings),
        "push_packed_row" => by_packed_rows(alloc, columns, bitmap, settings),
        _ => by_name_of_rows(alloc, name, columns, rows, settings),
    }
}

/// Calls a function that takes rows.
fn by_name_of_rows(
    alloc: Global,
    name: &str,
    columns: u32,
    rows: &[Vec<u32>],
    settings: EncodeSettings,
) -> Result<Vec<u8>, EncodeError>
    requires { names_encoding settings ≡ true }
{
    let aligned = settings.rows_are_byte_aligned;
    match name {
        "encode_g4" => encode_g4(alloc, columns, rows, aligned),
        "encode_1d" => encode_1d(alloc, columns, rows),
        "encode" => encode(alloc, columns, rows, settings),
        "bitmap_by_group4" => Ok(bitmap_by_group4(alloc, columns, rows, aligned)?.into_bytes()),
        "bitmap_by_group3" => Ok(bitmap_by_group3(alloc, columns, rows)?.into_bytes()),
        _ => by_changes(alloc, columns, rows, settings),
    }
}

/// Encodes row by row, by the changes of each.
fn by_changes(
    alloc: Global,
    columns: u32,
    rows: &[Vec<u32>],
    settings: EncodeSettings,
) -> Result<Vec<u8>, EncodeError>
    requires { names_encoding settings ≡ true }
{
    let mut encoder = Encoder::new(alloc, columns, settings)?;
    for row in rows {
        encoder.push_changes(row)?;
    }
    encoder.finish()
}

/// Encodes row by row, by the packed rows of a bitmap, each passed with those that follow it.
fn by_packed_rows(
    alloc: Global,
    columns: u32,
    bitmap: &[u8],
    settings: EncodeSettings,
) -> Result<Vec<u8>, EncodeError>
    requires { names_encoding settings ≡ true }
{
    let mut encoder = Encoder::new(alloc, columns, settings)?;
    for start in (0..bitmap.len()).step_by(columns.div_ceil(8).max(1) as usize) {
        encoder.push_packed_row(&bitmap[start..])?;
    }
    encoder.finish()
}

/// Writes bytes as hexadecimal digits, or an error by its name.
fn bytes_or_error<E: Debug + Drop>(
    rt: &(impl Abort + AllocGlobal),
    found: Result<Vec<u8>, E>,
) -> String {
    match found {
        Ok(bytes) => digits_of(rt, &bytes),
        Err(error) => said(rt, error),
    }
}

/// Writes bytes as hexadecimal digits.
fn digits_of(rt: &(impl Abort + AllocGlobal), bytes: &[u8]) -> String {
    let mut text = String::new(rt.alloc());
    for byte in bytes {
        let digits = format!(in rt.alloc(); "{byte:02X}").expect(rt, "memory");
        text.push_str(digits.as_str()).expect(rt, "memory");
    }
    text
}

/// Compares the text of an error.
pub fn says(rt: &(impl Abort + AllocGlobal), error: EncodeError, text: &str) {
    let said = format!(in rt.alloc(); "{error}").expect(rt, "memory");
    same(rt, said.as_str(), text);
}

/// Returns the bytes that hexadecimal digits write, two each; `-` is none.
pub fn bytes_of(rt: &(impl Abort + AllocGlobal), digits: &str) -> Vec<u8> {
    let mut bytes = Vec::new(rt.alloc());
    if digits == "-" {
        return bytes;
    }
    let mut high = None;
    for digit in digits.bytes() {
        let value = value_of(rt, digit);
        high = match high {
            None => Some(value),
            Some(half) => {
                bytes.push(half << 4 | value).expect(rt, digits);
                None
            }
        };
    }
    assert!(rt; high.is_none(), "{digits}: half a byte");
    bytes
}

/// Returns the value of a hexadecimal digit.
fn value_of(rt: &impl Abort, digit: u8) -> u8 {
    match digit {
        b'0'..=b'9' => digit - b'0',
        b'A'..=b'F' => digit - b'A' + 10,
        _ => panic!(rt; "{digit} is no hexadecimal digit"),
    }
}

/// Returns the rows that are parted by slashes; `-` is an image without rows.
pub fn rows_of(rt: &(impl Abort + AllocGlobal), image: &str) -> Vec<Vec<u32>> {
    let mut rows = Vec::new(rt.alloc());
    if image != "-" {
        for row in image.split('/') {
            rows.push(row_of(rt, row)).expect(rt, image);
        }
    }
    rows
}

/// Returns the changes of a row.
pub fn row_of(rt: &(impl Abort + AllocGlobal), row: &str) -> Vec<u32> {
    let mut changes = Vec::new(rt.alloc());
    if row != "white" {
        for change in row.split(',') {
            changes
                .push(change.parse::<u32>().expect(rt, row))
                .expect(rt, row);
        }
    }
    changes
}

/// Returns whether a word names a setting.
fn is_setting(word: &str) -> bool {
    has(
        "g4 1d 2d eol fill aligned rtc low refused k=0 k=1 k=3 k=4 k=9 most=0 most=1 most=2 most=3",
        word,
    )
}

/// Returns whether a word is among others.
fn has(words: &str, sought: &str) -> bool {
    for word in words.split_whitespace() {
        if word == sought {
            return true;
        }
    }
    false
}

/// Returns the settings that words name: Group 4 and K of 2 where no word names others, the highest bit first, and lines alone.
pub fn settings_by(words: &str) -> EncodeSettings {
    EncodeSettings {
        encoding: encoding_by(words),
        k: number_by(words, "k=", 2),
        end_of_line: has(words, "eol"),
        eols_end_at_bytes: has(words, "fill"),
        rows_are_byte_aligned: has(words, "aligned"),
        end_of_block: has(words, "rtc"),
        order: order_by(words),
        effort: effort_by(words),
    }
}

/// Returns the encoding that words name: Group 4 where none does.
pub fn encoding_by(words: &str) -> EncodingMode {
    if has(words, "1d") {
        EncodingMode::Group3_1D
    } else if has(words, "2d") {
        EncodingMode::Group3_2D
    } else {
        EncodingMode::Group4
    }
}

/// Returns the order of bits that words name.
pub fn order_by(words: &str) -> BitOrder {
    if has(words, "low") {
        BitOrder::LowestFirst
    } else {
        BitOrder::HighestFirst
    }
}

/// Returns the effort that words name.
fn effort_by(words: &str) -> Effort {
    if has(words, "shortest") {
        Effort::Shortest
    } else {
        Effort::Procedure
    }
}

/// Returns the number that a word gives after a front, or another number where no word does.
fn number_by(words: &str, front: &str, otherwise: u32) -> u32 {
    for word in words.split_whitespace() {
        if let Some(digits) = word.strip_prefix(front) {
            return digits.parse::<u32>().unwrap_or(0);
        }
    }
    otherwise
}
