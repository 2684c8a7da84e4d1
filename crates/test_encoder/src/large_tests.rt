//! Pictures of many rows: no clause says that allocations for them succeed. The bytes were worked out from T.4 and T.6.
//!
//! A row of 2048 columns that is black from 3 to 5, 8 to 16, 17 to 129 and from 1024 on occupies twelve bytes
//! one-dimensional with its EOL, and as many below a white row; below a row like itself it is eight times V0.

use crate::same;
use fax_callers::{bitmap_by_group3, bitmap_by_group4};
use fax_encode::{BitmapSink, encode_1d, encode_g4, rows_of_bitmap};
use std::alloc::AllocGlobal;
use std::process::Abort;

/// The width of the rows, and how many there are: a bitmap of 32 MB.
const COLUMNS: u32 = 2048;

const ROWS: usize = 131072;

/// The changes of each row.
const CHANGES: [u32; 7] = [3, 5, 8, 16, 17, 129, 1024];

/// An EOL and the row as a one-dimensional line.
const LINE: [u8; 12] = [
    0x00, 0x18, 0xE0, 0x51, 0xC0, 0xF0, 0x64, 0x69, 0x1A, 0x01, 0xD0, 0x37,
];

/// The row as a line below a white row.
const FIRST_LINE: [u8; 12] = [
    0x31, 0x98, 0x14, 0x8E, 0x07, 0x83, 0x21, 0x69, 0x1A, 0x01, 0xD0, 0x37,
];

/// Six EOLs.
const RTC: [u8; 9] = [0x00, 0x10, 0x01, 0x00, 0x10, 0x01, 0x00, 0x10, 0x01];

/// Appends `times` copies of a piece to bytes.
fn extend(rt: &impl Abort, bytes: &mut Vec<u8>, piece: &[u8], times: usize) {
    for _ in 0..times {
        bytes.extend_from_slice(piece).expect(rt, "memory");
    }
}

/// Returns the lists of changes of all rows.
fn lists(rt: &(impl Abort + AllocGlobal)) -> Vec<Vec<u32>> {
    let mut rows = Vec::new(rt.alloc());
    for _ in 0..ROWS {
        let row = CHANGES.to_vec(rt.alloc()).expect(rt, "memory");
        rows.push(row).expect(rt, "memory");
    }
    rows
}

/// Returns the bitmap of all rows.
fn bitmap(rt: &(impl Abort + AllocGlobal)) -> Vec<u8> {
    let mut row = Vec::new(rt.alloc());
    extend(rt, &mut row, &[0x18, 0xFF, 0x7F], 1);
    extend(rt, &mut row, &[0xFF], 13);
    extend(rt, &mut row, &[0x80], 1);
    extend(rt, &mut row, &[0x00], 111);
    extend(rt, &mut row, &[0xFF], 128);
    let mut bytes = Vec::new(rt.alloc());
    extend(rt, &mut bytes, &row, ROWS);
    bytes
}

/// Compares bytes, which are too many to be printed.
fn are_same(rt: &impl Abort, found: &[u8], expected: &[u8], what: &str) {
    same(rt, (what, found.len()), (what, expected.len()));
    assert!(rt; found == expected, "{what}");
}

/// Compares the bytes of a sink.
fn holds(rt: &(impl Abort + AllocGlobal), sink: &BitmapSink, what: &str) {
    are_same(rt, sink.bytes(), &bitmap(rt), what);
}

#[test]
fn many_rows_of_group_3(rt: HostRuntime) {
    let rows = lists(&rt);
    let mut expected = Vec::new(rt.alloc());
    extend(&rt, &mut expected, &LINE, ROWS);
    extend(&rt, &mut expected, &RTC, 1);
    let encoded = encode_1d(rt.alloc(), COLUMNS, rows.as_slice()).expect(
        &rt,
        "the rows are refused",
    );
    are_same(&rt, &encoded, &expected, "Group 3");
}

#[test]
fn many_rows_of_group_4(rt: HostRuntime) {
    let rows = lists(&rt);
    let mut expected = Vec::new(rt.alloc());
    extend(&rt, &mut expected, &FIRST_LINE, 1);
    extend(&rt, &mut expected, &[0xFF], ROWS - 1);
    extend(&rt, &mut expected, &[0x00, 0x10, 0x01], 1);
    for aligned in [false, true] {
        let encoded = encode_g4(rt.alloc(), COLUMNS, rows.as_slice(), aligned).expect(
            &rt,
            "the rows are refused",
        );
        are_same(&rt, &encoded, &expected, "Group 4");
    }
}

#[test]
fn large_bitmap_by_group_3(rt: HostRuntime) {
    let rows = lists(&rt);
    let sink = bitmap_by_group3(rt.alloc(), COLUMNS, rows.as_slice()).expect(&rt, "no bitmap");
    holds(&rt, &sink, "by way of Group 3");
}

#[test]
fn large_bitmap_by_group_4(rt: HostRuntime) {
    let rows = lists(&rt);
    let sink = bitmap_by_group4(rt.alloc(), COLUMNS, rows.as_slice(), false).expect(
        &rt,
        "no bitmap",
    );
    holds(&rt, &sink, "by way of Group 4");
}

#[test]
fn rows_of_a_large_bitmap(rt: HostRuntime) {
    let bytes = bitmap(&rt);
    let rows = rows_of_bitmap(rt.alloc(), COLUMNS, &bytes).expect(&rt, "memory");
    same(&rt, rows.len(), ROWS);
    for row in rows.iter() {
        same(&rt, row.as_slice(), CHANGES.as_slice());
    }
}
