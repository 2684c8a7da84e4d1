//! Decodes records from standard input, for the checks that compare the readers of deflate data and of filters with others, and deflates
//! them.
//!
//! A record is a letter for what decodes it, its number of bytes, an allowance, the bytes of a pixel and of a row, each of four
//! bytes with the lowest first, and the bytes. The answer is a letter (`o`, or for an error: `t` truncated, `s` spent, `m` out of
//! memory, `b` what means nothing), the number of bytes passed, of steps left and of bytes made, each of eight bytes, and what was
//! made.
#![tactic(auto)]

ghost use Rattle.std.specs.Prelude.{◌+◌, ◌≤◌, IfSome, length};

use deflate::Crc32;
use filters::{EarlyChange, FilterError, RowShape};
use inflate::InflateError;
use paid_cursor::Cursor;
use std::alloc::AllocError;
use std::io;
use std::io::{BufWriter, Read, Write};

fn main(rt: HostRuntime) -> io::Result<()> {
    let mut input: Vec<u8> = Vec::new(rt.alloc());
    rt.stdin().read_to_end(&mut input)?;
    let mut out = BufWriter::new(rt.alloc(), rt.stdout())?;
    let mut made: Vec<u8> = Vec::new(rt.alloc());
    let mut rest = input.as_slice();
    for _ in 0..input.len() {
        let Some(record) = Record::first_of(rest) else {
            break;
        };
        rest = &rest[HEAD_BYTES + record.bytes.len()..];
        made.clear();
        let mut source = Cursor::new(record.bytes, record.allowance);
        let letter = match record.letter {
            b'D' => deflated(deflate::deflate(rt.alloc(), record.bytes), &mut made),
            b'Z' => deflated(deflate::deflate_zlib(rt.alloc(), record.bytes), &mut made),
            b'C' => summed(record.bytes, &mut made),
            _ => decode(&record, &mut source, &mut made),
        };
        out.write_all(&[letter])?;
        out.write_all(&(source.place() as u64).to_le_bytes())?;
        out.write_all(&(source.left() as u64).to_le_bytes())?;
        out.write_all(&(made.len() as u64).to_le_bytes())?;
        out.write_all(made.as_slice())?;
    }
    out.flush()
}

/// The bytes of a record before those to be decoded.
const HEAD_BYTES: usize = 17;

/// What is to be decoded, and how.
#[derive(Drop)]
struct Record<'a> {
    letter: u8,
    allowance: usize,
    shape: RowShape,
    bytes: &'a [u8],
}

impl<'a> Record<'a> {
    /// Returns the first record of some bytes, or `None` if they have no whole one.
    fn first_of(input: &'a [u8]) -> Option<Record<'a>>
        ensures { IfSome result (λ found. HEAD_BYTES + length found.bytes.now ≤ length input.now) }
    {
        let head = input.get(..HEAD_BYTES)?;
        let count = number(&head[1..]);
        let bytes = input[HEAD_BYTES..].get(..count)?;
        Some(Record {
            letter: head[0],
            allowance: number(&head[5..]),
            shape: RowShape {
                pixel_bytes: number(&head[9..]),
                row_bytes: number(&head[13..]),
            },
            bytes,
        })
    }
}

/// Returns the number of the first four bytes, the lowest first.
fn number(bytes: &[u8]) -> usize
    requires { 4 ≤ length bytes.now }
{
    u32::from_le_bytes([bytes[0], bytes[1], bytes[2], bytes[3]]) as usize
}

/// Makes the output of deflated data, and returns the letter of the answer.
fn deflated(done: Result<Vec<u8>, AllocError>, made: &mut Vec<u8>) -> u8 {
    match done {
        Ok(data) => {
            *made = data;
            b'o'
        }
        Err(AllocError) => b'm',
    }
}

/// Makes the output of the CRC-32 of a record in two parts, the highest byte first, and returns the letter of the answer.
fn summed(bytes: &[u8], made: &mut Vec<u8>) -> u8 {
    let (first, second) = bytes.split_at(bytes.len() / 3);
    let mut sum = Crc32::new();
    sum.add(first);
    sum.add(second);
    match made.extend_from_slice(&sum.value().to_be_bytes()) {
        Ok(()) => b'o',
        Err(AllocError) => b'm',
    }
}

/// Decodes a record, and returns the letter of the answer.
fn decode(record: &Record<'_>, source: &mut Cursor<'_>, made: &mut Vec<u8>) -> u8 {
    match record.letter {
        b'd' => inflate_letter(inflate::inflate(source, made)),
        b'z' => inflate_letter(inflate::inflate_zlib(source, made)),
        b'x' => filter_letter(filters::decode_ascii_hex(source, made)),
        b'a' => filter_letter(filters::decode_ascii85(source, made)),
        b'r' => filter_letter(filters::decode_run_length(source, made)),
        b'p' => filter_letter(filters::decode_pack_bits(source, made)),
        b'l' => filter_letter(filters::decode_lzw(source, made, EarlyChange::Early)),
        b'k' => filter_letter(filters::decode_lzw(source, made, EarlyChange::Late)),
        b'f' => filter_letter(filters::undo_png_predictor(source, made, record.shape)),
        b'2' => filter_letter(filters::undo_tiff_predictor(source, made, record.shape)),
        _ => b'?',
    }
}

/// Returns the letter of an answer.
fn inflate_letter(done: Result<(), InflateError>) -> u8 {
    match done {
        Ok(()) => b'o',
        Err(InflateError::Truncated) => b't',
        Err(InflateError::Spent) => b's',
        Err(InflateError::OutOfMemory) => b'm',
        Err(_) => b'b',
    }
}

/// Returns the letter of an answer.
fn filter_letter(done: Result<(), FilterError>) -> u8 {
    match done {
        Ok(()) => b'o',
        Err(FilterError::Truncated) => b't',
        Err(FilterError::Spent) => b's',
        Err(FilterError::OutOfMemory) => b'm',
        Err(FilterError::BadData) => b'b',
    }
}
