//! What no clause says: that the rules are those of the standards, and that each call succeeds. The results were worked
//! out from T.4 and T.6, apart from the decoder.

mod bit_reads;
mod calls;
mod cases;
mod group3;
mod group4;
mod local_bodies;
mod look_ups;
mod parts;
mod refused_memory;
mod rows;

use hayro_ccitt::DecodeError::{InvalidCode, OutOfMemory, Overflow, Refused, UnexpectedEof};
use hayro_ccitt::codes::{Color, Ticks};
use hayro_ccitt::{
    DecodeError, DecodeSettings, Decoder, DecoderContext, EncodingMode, Result, bits_fit, decode,
    decode_low_first,
};
use std::alloc::{AllocError, AllocGlobal};
use std::fmt::Debug;
use std::process::Abort;

/// A sink that writes rows as `Debug` does, with commas between them, up to a number of rows, and refuses the next.
#[derive(Drop)]
struct RowsAsText {
    text: String,
    rows: u64,
    limit: u64,
    has_refused: bool,
}

impl Decoder for RowsAsText {
    ghost Meaning = { Unit {0} };

    ghost meaning = { λ _. tt };

    ghost step = { λ _ _ _. tt };

    ghost width = { λ _. 4294967295 };

    ghost has_refused = { λ s. s.has_refused };

    fn push_row(&mut self, changes: &[u32]) -> Result<()> {
        let comma = if self.rows == 0 { "" } else { "," };
        if self.rows < self.limit && write!(self.text, "{comma}{changes:?}").is_ok() {
            self.rows += 1;
            return Ok(());
        }
        self.has_refused = true;
        Err(Refused)
    }
}

/// Creates a sink. It allocates nothing for the rows of a test.
fn sink_of(rt: &(impl Abort + AllocGlobal), limit: u64) -> RowsAsText {
    RowsAsText {
        text: String::with_capacity(rt.alloc(), 1 << 16).expect(rt, "memory"),
        rows: 0,
        limit,
        has_refused: false,
    }
}

/// Writes the rows of a sink and a result, without spaces.
fn written(rt: &(impl Abort + AllocGlobal), sink: &RowsAsText, answer: Result<usize>) -> String {
    let rows = sink.text.as_str();
    let text = format!(in rt.alloc(); "[{rows}] {answer:?}").expect(rt, "memory");
    joined(rt, text.as_str())
}

/// Compares two values. The proof of this call takes no time, and that of `assert_eq!` seconds.
fn same<T: PartialEq + Debug + Drop>(rt: &impl Abort, found: T, expected: T) {
    assert_eq!(rt; found, expected);
}

/// Compares the texts of a case.
fn same_text(rt: &impl Abort, case: &str, found: &str, expected: &str) {
    same(rt, (case, found), (case, expected));
}

/// Writes a value as `Debug` does.
fn said<T: Debug + Drop>(rt: &(impl Abort + AllocGlobal), value: T) -> String {
    format!(in rt.alloc(); "{value:?}").expect(rt, "memory")
}

/// Joins words, without the spaces between them. A word `AB*3` is AB three times.
fn joined(rt: &(impl Abort + AllocGlobal), words: &str) -> String {
    let mut text = String::new(rt.alloc());
    for word in words.split_whitespace() {
        let (piece, times) = word.split_once('*').unwrap_or((word, "1"));
        for _ in 0..number_in(rt, times) {
            assert!(rt; text.push_str(piece).is_ok());
        }
    }
    text
}

/// Reads a number.
fn number_in(rt: &impl Abort, text: &str) -> u32 {
    let mut number = 0u32;
    for digit in text.bytes() {
        let value = u32::from(value_of(rt, digit));
        number = number.saturating_mul(10).saturating_add(value);
    }
    number
}

/// Returns the value of a hexadecimal digit.
fn value_of(rt: &impl Abort, digit: u8) -> u8 {
    match digit {
        b'0'..=b'9' => digit - b'0',
        b'A'..=b'F' => digit - b'A' + 10,
        _ => panic!(rt; "not a digit: {digit}"),
    }
}

/// Returns the bytes of hexadecimal digits, two a byte, in words as `joined` takes them.
fn bytes_of(rt: &(impl Abort + AllocGlobal), words: &str) -> Vec<u8> {
    let digits = joined(rt, words);
    let mut data = Vec::new(rt.alloc());
    let mut high = None;
    for digit in digits.as_str().bytes() {
        let value = value_of(rt, digit);
        match high {
            None => high = Some(value),
            Some(half) => {
                assert!(rt; data.push(half << 4 | value).is_ok());
                high = None;
            }
        }
    }
    assert!(rt; high.is_none());
    data
}

/// Returns the bytes with their bits in the other order.
fn mirrored(rt: &(impl Abort + AllocGlobal), data: &[u8]) -> Vec<u8> {
    let mut bytes = Vec::new(rt.alloc());
    for byte in data {
        assert!(rt; bytes.push(byte.reverse_bits()).is_ok());
    }
    bytes
}

/// Makes a context.
fn context_of(rt: &(impl Abort + AllocGlobal), settings: DecodeSettings) -> DecoderContext {
    DecoderContext::new(rt.alloc(), settings).expect(rt, "memory")
}

/// Decodes in a context up to a number of rows, and writes the rows and the result.
fn decoded(
    rt: &(impl Abort + AllocGlobal),
    ctx: &mut DecoderContext,
    data: &[u8],
    limit: u64,
) -> String {
    assert!(rt; bits_fit(data));
    let mut sink = sink_of(rt, limit);
    // The range of a number is known once it is read.
    let _columns = ctx.settings().columns;
    let read = decode(data, &mut sink, ctx);
    same(rt, sink.rows, ctx.decoded_rows());
    written(rt, &sink, read)
}

/// Decodes as `decoded` does, with each byte's lowest bit first.
fn decoded_low_first(
    rt: &(impl Abort + AllocGlobal),
    ctx: &mut DecoderContext,
    data: &[u8],
    limit: u64,
) -> String {
    assert!(rt; bits_fit(data));
    let mut sink = sink_of(rt, limit);
    let _columns = ctx.settings().columns;
    let read = decode_low_first(data, &mut sink, ctx);
    written(rt, &sink, read)
}

#[test]
fn colors_and_ticks(rt: HostRuntime) {
    let colors = [Color::White.opposite(), Color::Black.opposite()];
    same(&rt, colors, [Color::Black, Color::White]);
    assert!(rt; Color::White.is_white() && !Color::Black.is_white());
    same(&rt, std::mem::size_of::<Ticks>(), 0);
}

#[test]
fn prints_errors(rt: HostRuntime) {
    let printed = format!(in rt.alloc();
        "{UnexpectedEof}, {InvalidCode}, {Overflow}, {OutOfMemory}, {Refused}"
    );
    same_text(
        &rt,
        "by Display",
        printed.expect(&rt, "memory").as_str(),
        "unexpected end of input, invalid CCITT code sequence, arithmetic overflow in position calculation, \
         out of memory, row refused",
    );
    same(&rt, DecodeError::from(AllocError), OutOfMemory);
}
