//! What no clause says: that allocations succeed, and that the bytes are those of the standards. They were worked out
//! from T.4 and T.6, apart from the encoder.

use crate::cases::{check, says};
use crate::same;
use fax_callers::{bitmap_by_group3, bitmap_by_group4};
use fax_encode::{
    BitmapSink, EncodeError, encode_1d, encode_bitmap_1d, encode_bitmap_g4, encode_g4, fill_all,
    paint_row, rows_of_bitmap,
};
use hayro_ccitt::{
    DecodeError, DecodeSettings, Decoder, DecoderContext, EncodingMode, bits_fit, decode,
};
use std::alloc::AllocGlobal;
use std::process::Abort;
use test_allocations::{refuse_request, was_refused};

/// Encodes rows as Group 4, from their changes and from their bitmap, and decodes them, and compares the bytes and the bitmaps.
fn packs(
    rt: &(impl Abort + AllocGlobal),
    columns: u32,
    lists: &[Vec<u32>],
    aligned: bool,
    bitmap: &[u8],
) {
    let alloc = rt.alloc();
    let bytes = encode_g4(alloc, columns, lists, aligned).expect(rt, "rows");
    let of_bitmap = encode_bitmap_g4(alloc, columns, bitmap, aligned).expect(rt, "a bitmap");
    let sink = bitmap_by_group4(alloc, columns, lists, aligned).expect(rt, "a bitmap");
    same(
        rt,
        (columns, aligned, of_bitmap.as_slice(), sink.bytes()),
        (columns, aligned, bytes.as_slice(), bitmap),
    );
}

/// Encodes rows as one-dimensional Group 3, from their changes and from their bitmap, decodes them in a context, and at once, and
/// compares the bytes and the bitmaps.
fn packs_1d(
    rt: &(impl Abort + AllocGlobal),
    ctx: &mut DecoderContext,
    lists: &[Vec<u32>],
    bitmap: &[u8],
) {
    let alloc = rt.alloc();
    let columns = ctx.settings().columns;
    let bytes = encode_1d(alloc, columns, lists).expect(rt, "rows");
    let of_bitmap = encode_bitmap_1d(alloc, columns, bitmap).expect(rt, "a bitmap");
    let at_once = bitmap_by_group3(alloc, columns, lists).expect(rt, "a bitmap");
    same(
        rt,
        (columns, of_bitmap.as_slice(), at_once.bytes()),
        (columns, bytes.as_slice(), bitmap),
    );
    assert!(rt; bits_fit(&bytes));
    let mut sink = BitmapSink::new(alloc, columns);
    let read = decode(&bytes, &mut sink, ctx);
    same(
        rt,
        (columns, read, sink.bytes()),
        (columns, Ok(bytes.len()), bitmap),
    );
}

#[test]
fn group_4_bytes(rt: HostRuntime) {
    check(
        &rt,
        "encode_g4 8",
        "
        -: 001001
        3,5: 31C0040040
        3,5/3,5: 31F8008008
        3,5/3,5 aligned: 31C0E0001001
        3,5/white: 31C6002002
        0: 26A280080080
        ",
    );
}

#[test]
fn one_dimensional_bytes(rt: HostRuntime) {
    check(
        &rt,
        "encode_1d",
        "
        8 white: 001980080080080080080080
        8 3,5: 0018E0004004004004004004
        2560 white: 00101F35001001001001001001
        ",
    );
}

#[test]
fn refusals(rt: HostRuntime) {
    check(
        &rt,
        "",
        "
        encode_g4 0 3,3: NoColumns
        encode_g4 8 3,3: NotARow(0)
        encode_g4 8 7/8: NotARow(1)
        encode_1d 0 -: NoColumns
        encode_1d 8 -: NoRows
        encode_1d 8 3,3: NotARow(0)
        ",
    );
    says(
        &rt,
        EncodeError::NotARow(12),
        "row 12 is not a list of changes",
    );
}

#[test]
fn bitmaps(rt: HostRuntime) {
    check(
        &rt,
        "bitmap_by_group4",
        "
        8 3,5: 18
        8 3,5/white aligned: 1800
        8 0: FF
        20 1,18/9,10,19 aligned: 7FFFC0004010
        ",
    );
    let mut sink = BitmapSink::new(rt.alloc(), 8);
    let taken: Result<(), DecodeError> = sink.push_row(&[7]);
    same(&rt, (taken, sink.bytes()), (Ok(()), [0x01u8].as_slice()));
}

#[test]
fn paints_over_words(rt: HostRuntime) {
    let mut row = [0x55u8; 18];
    paint_row(&mut row, 140, &[3, 64, 65, 128]);
    let mut painted = [0xFFu8; 18];
    painted[0] = 0x1F;
    painted[8] = 0x7F;
    painted[16] = 0x00;
    painted[17] = 0x00;
    same(&rt, row, painted);
    paint_row(&mut row, 140, &[139]);
    let mut last = [0u8; 18];
    last[17] = 0x10;
    same(&rt, row, last);
    let mut eight = [0x55u8; 8];
    paint_row(&mut eight, 64, &[0]);
    same(&rt, eight, [0xFFu8; 8]);
}

/// Fills bytes that were filled with another byte.
fn fills(rt: &(impl Abort + AllocGlobal), count: usize) {
    let mut bytes = vec![in rt.alloc(); 0x55u8; count].expect(rt, "memory");
    let filled = vec![in rt.alloc(); 0xA3u8; count].expect(rt, "memory");
    fill_all(&mut bytes, 0xA3);
    same(rt, bytes.as_slice(), filled.as_slice());
}

#[test]
fn fills_by_pieces(rt: HostRuntime) {
    for count in [0, 1, 2047, 2048, 5000] {
        fills(&rt, count);
    }
}

/// Returns the changes of a row of at most four pixels, given by the bits of a number, the last pixel the lowest.
fn changes_of(rt: &(impl Abort + AllocGlobal), pixels: u8, columns: u32) -> Vec<u32> {
    let mut changes = Vec::new(rt.alloc());
    let mut before = 0;
    for place in 0..columns.min(4) {
        let pixel = pixels >> (3 - place) & 1;
        if pixel != before {
            changes.push(place).expect(rt, "memory");
        }
        before = pixel;
    }
    changes
}

/// Finds the changes of a bitmap's rows, and packs them in each encoding.
fn packs_each_way(
    rt: &(impl Abort + AllocGlobal),
    ctx: &mut DecoderContext,
    lists: &[Vec<u32>],
    bytes: &[u8],
) {
    let columns = ctx.settings().columns;
    let found = rows_of_bitmap(rt.alloc(), columns, bytes).expect(rt, "memory");
    same(rt, (columns, found.as_slice()), (columns, lists));
    packs(rt, columns, lists, false, bytes);
    packs(rt, columns, lists, true, bytes);
    packs_1d(rt, ctx, lists, bytes);
}

/// Finds the changes of the first rows of a picture, and packs them. It is given by its bits, three rows one after another, the
/// first the lowest.
fn small_picture(rt: &(impl Abort + AllocGlobal), ctx: &mut DecoderContext, picture: u16) {
    let columns = ctx.settings().columns;
    assert!(rt; 1 <= columns && columns <= 4);
    let mut lists = Vec::new(rt.alloc());
    let mut bytes = Vec::new(rt.alloc());
    for row in 0..3u32 {
        let pixels = ((picture >> (columns * row)) % (1 << columns)) as u8;
        let left = pixels << (4 - columns);
        bytes.push(left << 4).expect(rt, "memory");
        lists
            .push(changes_of(rt, left, columns))
            .expect(rt, "memory");
        packs_each_way(rt, ctx, &lists, &bytes);
    }
}

#[test]
fn every_small_picture(rt: HostRuntime) {
    for columns in 1..5u32 {
        let settings = DecodeSettings {
            columns,
            rows: 0,
            end_of_block: true,
            end_of_line: true,
            rows_are_byte_aligned: false,
            encoding: EncodingMode::Group3_1D,
            strict: true,
        };
        let mut ctx = DecoderContext::new(rt.alloc(), settings).expect(&rt, "memory");
        for picture in 0..1u16 << (3 * columns) {
            small_picture(&rt, &mut ctx, picture);
        }
    }
}

/// Sixteen rows with the changes 3 and 5, as lists and as a bitmap. One-dimensional, four of them are 0018E0006380018E000638.
#[test]
fn refused_memory(rt: HostRuntime) {
    check(
        &rt,
        "",
        "
        encode_g4 8 3,5/3,5/3,5/3,5/3,5/3,5/3,5/3,5/3,5/3,5/3,5/3,5/3,5/3,5/3,5/3,5 refused: 31FFFFFFFFFFFE002002
        encode_1d 8 3,5/3,5/3,5/3,5/3,5/3,5/3,5/3,5/3,5/3,5/3,5/3,5/3,5/3,5/3,5/3,5 refused: \
            0018E0006380018E000638\
            0018E0006380018E000638\
            0018E0006380018E000638\
            0018E0006380018E000638\
            001001001001001001
        // In data this short a decoder asks for no room that it can do without.
        bitmap_by_group4 8 3,5/3,5/3,5 aligned refused: 181818
        bitmap_by_group3 8 3,5/3,5/3,5/3,5/3,5/3,5/3,5/3,5/3,5/3,5/3,5/3,5/3,5/3,5/3,5/3,5 refused: \
            18181818181818181818181818181818
        encode_bitmap_g4 8 18181818181818181818181818181818 refused: 31FFFFFFFFFFFE002002
        encode_bitmap_1d 8 18181818181818181818181818181818 refused: \
            0018E0006380018E000638\
            0018E0006380018E000638\
            0018E0006380018E000638\
            0018E0006380018E000638\
            001001001001001001
        ",
    );
}

#[test]
fn sink_without_memory(rt: HostRuntime) {
    refuse_request(rt.alloc(), 1);
    let sink = BitmapSink::new(rt.alloc(), u32::MAX);
    assert!(rt; !was_refused(rt.alloc()));
    same(&rt, sink.bytes(), [0u8; 0].as_slice());
}
