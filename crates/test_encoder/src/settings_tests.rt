//! Encoding by settings. The bytes of the picture are those of libtiff 4.5.0 where it writes such data; the others were worked
//! out from T.4 and T.6, apart from the encoder.

use crate::cases::{bytes_of, check, row_of, says, settings_by};
use crate::same;
use fax_encode::{
    BitmapSink, Effort, EncodeError, EncodeSettings, Encoder, encode_bitmap, names_encoding,
};
use hayro_ccitt::bit_reader::BitOrder;
use hayro_ccitt::{DecodeSettings, DecoderContext, EncodingMode, bits_fit, decode_in};
use std::alloc::AllocGlobal;
use std::process::Abort;
use test_allocations::{refuse_request, was_refused};

/// A picture of 24 columns as a bitmap; its rows are 3,5/3,5/4,7/white/0,9.
const BITMAP: [u8; 15] = [
    0x18, 0x00, 0x00, 0x18, 0x00, 0x00, 0x0E, 0x00, 0x00, 0x00, 0x00, 0x00, 0xFF, 0x80, 0x00,
];

/// Compares the bytes of an encoded picture.
fn has_bytes(rt: &impl Abort, encoded: Result<Vec<u8>, EncodeError>, bytes: &[u8]) {
    let encoded = encoded.expect(rt, "the picture is refused");
    same(rt, encoded.as_slice(), bytes);
}

/// Encodes the picture from its rows, from its bitmap, and row by row, by settings and bytes that texts name.
fn encodes(rt: &(impl Abort + AllocGlobal), cases: &str) {
    for call in [
        "encode 24 3,5/3,5/4,7/white/0,9",
        "encode_bitmap 24 1800001800000E0000000000FF8000",
        "push_changes 24 3,5/3,5/4,7/white/0,9",
        "push_packed_row 24 1800001800000E0000000000FF8000",
    ] {
        check(rt, call, cases);
    }
}

#[test]
fn as_libtiff_encodes(rt: HostRuntime) {
    encodes(
        &rt,
        "
        g4 rtc: 31FB0E326A24004004
        1d aligned: 8C608C60BAB050351350
        1d eol: 0018C6000C630006EAC00540009A89A8
        1d eol fill: 00018C6000018C600001BAB001500001351350
        2d eol: 001C630005C0077560021800CD44D4
        2d eol fill: 0001C63000017001DD5800010C00019A89A8
        2d eol fill low: 0080630C00800E80BB1A0080300080599115
        ",
    );
}

#[test]
fn by_k(rt: HostRuntime) {
    // 1 1000 11 00010111 | 0 1 1 1 | 0 011 000011 1 | 0 0001 1 | and the last line is one-dimensional, as K is 4.
    encodes(
        &rt,
        "
        2d k=4: C631CC38735135
        2d k=9: C631CC38626A24
        2d k=1: C63318CDD5D44D44D4
        2d eol rtc: 001C630005C0077560021800CD44D4006003001800C0060030
        ",
    );
}

/// A bit of the second line is wrong, and the third is one-dimensional: one row changes.
#[test]
fn damage_ends_after_k_rows(rt: HostRuntime) {
    let lenient = DecodeSettings {
        columns: 24,
        rows: 0,
        end_of_block: true,
        end_of_line: true,
        rows_are_byte_aligned: false,
        encoding: EncodingMode::Group3_2D,
        strict: false,
    };
    let damaged = bytes_of(&rt, "001C63000540077560021800CD44D4006003001800C0060030");
    let mut ctx = DecoderContext::new(rt.alloc(), lenient).expect(&rt, "no memory");
    assert!(&rt; bits_fit(&damaged));
    let mut sink = BitmapSink::new(rt.alloc(), 24);
    let read = decode_in(BitOrder::HighestFirst, &damaged, &mut sink, &mut ctx);
    let rows = bytes_of(&rt, "1800001000000E0000000000FF8000");
    same(
        &rt,
        (read, sink.bytes(), ctx.damaged_rows()),
        (Ok(25), rows.as_slice(), 1),
    );
}

#[test]
fn shorter_line(rt: HostRuntime) {
    // The second row takes five pass modes and V0, or seven bits: it is one-dimensional, and the third is V0 after it.
    check(
        &rt,
        "encode 24",
        "1,2,3,4,5,6,7,8,9,10/white/white 2d k=3: 8E8743A1D0EB4A84",
    );
}

/// Tests whether the settings that each line of a text names name an encoding.
fn are_named(rt: &(impl Abort + AllocGlobal), lines: &str, expected: bool) {
    for words in lines.trim().lines() {
        same(
            rt,
            (words, names_encoding(settings_by(words))),
            (words, expected),
        );
    }
}

#[test]
fn names(rt: HostRuntime) {
    are_named(
        &rt,
        "
        g4 eol
        g4 fill
        g4 eol rtc
        1d fill
        2d fill
        1d rtc
        2d rtc
        1d eol aligned
        2d eol aligned
        2d k=0
        2d eol k=0
        ",
        false,
    );
    are_named(
        &rt,
        "
        g4
        g4 rtc
        g4 aligned rtc
        g4 k=0
        1d
        1d aligned
        1d k=0
        1d eol
        1d eol fill rtc
        2d k=1
        2d aligned
        2d eol fill rtc
        ",
        true,
    );
}

#[test]
fn refusals(rt: HostRuntime) {
    check(
        &rt,
        "",
        "
        encode 0 - 1d: NoColumns
        encode 0 3,5/3,5/4,7/white/0,9 1d: NoColumns
        encode 24 - 1d: NoRows
        encode 9 3,5/3,5/4,7/white/0,9 1d: NotARow(4)
        encode_bitmap 0 1800001800000E0000000000FF8000 1d: NoColumns
        encode_bitmap 24 1800 g4: NoRows
        ",
    );
}

#[test]
fn refused_memory(rt: HostRuntime) {
    check(
        &rt,
        "",
        "
        encode 24 3,5/3,5/4,7/white/0,9 2d eol fill refused: 0001C63000017001DD5800010C00019A89A8
        encode_bitmap 24 1800001800000E0000000000FF8000 2d eol fill refused: 0001C63000017001DD5800010C00019A89A8
        ",
    );
}

/// Creates an encoder of rows of 24 pixels, by the settings that words name.
fn encoder_by(rt: &(impl Abort + AllocGlobal), words: &str) -> Encoder {
    let settings = settings_by(words);
    assert!(rt; names_encoding(settings), "{words}");
    Encoder::new(rt.alloc(), 24, settings).expect(rt, "no columns")
}

/// Adds a row by its changes, and compares what is returned and how many rows there are.
fn pushes(
    rt: &(impl Abort + AllocGlobal),
    encoder: &mut Encoder,
    row: &str,
    answer: Result<(), EncodeError>,
    rows: usize,
) {
    let added = encoder.push_changes(&row_of(rt, row));
    same(rt, (row, added), (row, answer));
    same(rt, (row, encoder.rows()), (row, rows));
}

#[test]
fn refusals_row_by_row(rt: HostRuntime) {
    check(
        &rt,
        "push_changes",
        "
        0 - 1d: NoColumns
        24 - 1d: NoRows
        ",
    );
    let mut encoder = encoder_by(&rt, "1d");
    assert!(&rt; encoder.needs_row());
    pushes(&rt, &mut encoder, "24", Err(EncodeError::NotARow(0)), 0);
    pushes(&rt, &mut encoder, "3,5", Ok(()), 1);
    pushes(&rt, &mut encoder, "5,3", Err(EncodeError::NotARow(1)), 1);
    let packed = encoder.push_packed_row(&[0, 0]);
    same(&rt, packed, Err(EncodeError::NotARow(1)));
    same(&rt, (encoder.needs_row(), encoder.rows()), (false, 1));
    // 1000 11 00001 0111, filled up
    has_bytes(&rt, encoder.finish(), &[0x8C, 0x60]);
}

#[test]
fn refused_memory_row_by_row(rt: HostRuntime) {
    check(
        &rt,
        "",
        "
        push_changes 24 3,5/3,5/4,7/white/0,9 2d eol fill refused: 0001C63000017001DD5800010C00019A89A8
        push_packed_row 24 1800001800000E0000000000FF8000 2d eol fill refused: 0001C63000017001DD5800010C00019A89A8
        ",
    );
}

#[test]
fn wanting_memory_stays(rt: HostRuntime) {
    let alloc = rt.alloc();
    let mut encoder = encoder_by(&rt, "1d");
    refuse_request(alloc, 1);
    let first = encoder.push_changes(&[3, 5]);
    if was_refused(alloc) {
        same(&rt, first, Err(EncodeError::OutOfMemory));
        same(
            &rt,
            encoder.push_changes(&[24]),
            Err(EncodeError::OutOfMemory),
        );
        same(
            &rt,
            encoder.push_packed_row(&[]),
            Err(EncodeError::OutOfMemory),
        );
        same(&rt, encoder.finish().err(), Some(EncodeError::OutOfMemory));
    }
}

/// Returns the matching settings of the decoder.
fn to_read(settings: EncodeSettings) -> DecodeSettings {
    let is_closed = settings.end_of_block;
    DecodeSettings {
        columns: 24,
        rows: if is_closed { 0 } else { 5 },
        end_of_block: is_closed,
        end_of_line: settings.end_of_line,
        rows_are_byte_aligned: settings.rows_are_byte_aligned,
        encoding: settings.encoding,
        strict: true,
    }
}

/// Encodes the picture, decodes it to its last byte, and encodes the bitmap again.
fn comes_back(rt: &(impl Abort + AllocGlobal), settings: EncodeSettings) {
    assert!(rt; names_encoding(settings), "no encoding");
    let alloc = rt.alloc();
    let bytes = encode_bitmap(alloc, 24, &BITMAP, settings).expect(rt, "the picture is refused");
    let mut ctx = DecoderContext::new(alloc, to_read(settings)).expect(rt, "no memory");
    assert!(rt; bits_fit(&bytes));
    let columns = ctx.settings().columns;
    let mut sink = BitmapSink::new(alloc, columns);
    let read = decode_in(settings.order, &bytes, &mut sink, &mut ctx);
    same(
        rt,
        (read, sink.bytes()),
        (Ok(bytes.len()), BITMAP.as_slice()),
    );
    let again = encode_bitmap(alloc, 24, sink.bytes(), settings);
    has_bytes(rt, again, &bytes);
}

/// Encodes the picture, and decodes it, by settings that name an encoding.
fn comes_back_by(
    rt: &(impl Abort + AllocGlobal),
    encoding: EncodingMode,
    order: BitOrder,
    flags: u32,
) {
    let settings = EncodeSettings {
        encoding,
        k: 4,
        end_of_line: flags & 1 == 1,
        eols_end_at_bytes: flags & 2 == 2,
        rows_are_byte_aligned: flags & 4 == 4,
        end_of_block: flags & 8 == 8,
        order,
        effort: Effort::Procedure,
    };
    if names_encoding(settings) {
        comes_back(rt, settings);
    }
}

#[test]
fn all_settings_come_back(rt: HostRuntime) {
    for encoding in [
        EncodingMode::Group4,
        EncodingMode::Group3_1D,
        EncodingMode::Group3_2D,
    ] {
        for flags in 0..16u32 {
            comes_back_by(&rt, encoding, BitOrder::HighestFirst, flags);
            comes_back_by(&rt, encoding, BitOrder::LowestFirst, flags);
        }
    }
}
