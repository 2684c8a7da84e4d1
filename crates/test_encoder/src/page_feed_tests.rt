//! Pages that are fed in pieces: that allocations succeed, and that what is read is the same wherever the data is cut.

ghost use Rattle.std.specs.Prelude.{◌<◌};

use crate::callers_tests::append_page;
use crate::cases::{order_by, pages_by, rows_of};
use crate::same;
use fax_callers::{PageFed, PageFeed, group3_pages, group4_pages};
use hayro_ccitt::DecodeError::{InvalidCode, OutOfMemory};
use hayro_ccitt::bit_reader::BitOrder::HighestFirst;
use hayro_ccitt::{DecodeSettings, Result};
use std::alloc::AllocGlobal;
use std::process::Abort;
use test_allocations::{refuse_request, was_refused};

/// What is noted after a row.
const ROW: u32 = 1000;

/// What is noted after a page.
const PAGE: u32 = 2000;

/// Three rows and the end of their page, and two and the end of theirs.
const TWO_PAGES: [u32; 14] = [3, 5, ROW, 3, 5, ROW, ROW, PAGE, 0, ROW, 3, 5, ROW, PAGE];

/// Returns room for notes.
fn no_notes(rt: &(impl Abort + AllocGlobal)) -> Vec<u32> {
    Vec::with_capacity(rt.alloc(), 100).expect(rt, "memory")
}

/// Reads what is next and notes it, and returns whether it was a row or the end of a page.
fn notes_next(rt: &impl Abort, pages: &mut PageFeed, notes: &mut Vec<u32>) -> Result<bool> {
    match pages.next_row()? {
        PageFed::Row => {
            notes.extend_from_slice(pages.row()).expect(rt, "memory");
            notes.push(ROW).expect(rt, "memory");
            Ok(true)
        }
        PageFed::PageEnd => {
            notes.push(PAGE).expect(rt, "memory");
            Ok(true)
        }
        PageFed::NeedsMore | PageFed::End => Ok(false),
    }
}

/// Notes all that can be read. After an allocation failure the same call is made again.
fn notes_all(rt: &impl Abort, pages: &mut PageFeed, notes: &mut Vec<u32>) {
    for _ in 0..100 {
        let found = match notes_next(rt, pages, notes) {
            Err(OutOfMemory) => notes_next(rt, pages, notes),
            other => other,
        };
        if !found.expect(rt, "a page") {
            return;
        }
    }
    panic!(rt; "no end")
}

/// Feeds a piece and notes what can be read then. After an allocation failure it is fed again.
fn notes_piece(rt: &impl Abort, pages: &mut PageFeed, piece: &[u8], notes: &mut Vec<u32>) {
    assert!(rt; !pages.is_finished());
    if pages.feed(piece).is_err() {
        assert!(rt; !pages.is_finished());
        same(rt, pages.feed(piece), Ok(()));
    }
    notes_all(rt, pages, notes);
}

/// Notes what is read of data that is fed in pieces of a size, the last one shorter.
fn notes_pieces(
    rt: &impl Abort,
    pages: &mut PageFeed,
    data: &[u8],
    size: usize,
    notes: &mut Vec<u32>,
) {
    let mut rest = data;
    for _ in 0..data.len() {
        let (piece, more) = rest.split_at(size.min(rest.len()));
        notes_piece(rt, pages, piece, notes);
        rest = more;
    }
    pages.finish();
    notes_all(rt, pages, notes);
    same(rt, pages.next_row(), Ok(PageFed::End));
    assert!(rt; pages.is_finished());
}

/// Pages of both groups are read as their rows, whatever the size of the pieces.
#[test]
fn pages_by_pieces(rt: HostRuntime) {
    for words in [
        "1d eol rtc",
        "1d eol fill rtc low",
        "2d eol rtc k=9",
        "2d eol rtc low",
        "g4 rtc",
        "g4 rtc low",
    ] {
        let mut data = Vec::new(rt.alloc());
        append_page(&rt, &mut data, words, &rows_of(&rt, "3,5/3,5/white"));
        append_page(&rt, &mut data, words, &rows_of(&rt, "0/3,5"));
        for size in 1..=data.len() {
            let mut notes = no_notes(&rt);
            let mut pages = PageFeed::new(rt.alloc(), order_by(words), pages_by(8, words)).expect(
                &rt, words,
            );
            notes_pieces(&rt, &mut pages, &data, size, &mut notes);
            same(
                &rt,
                (words, size, notes.as_slice()),
                (words, size, TWO_PAGES.as_slice()),
            );
        }
    }
}

/// Pages of one row, without EOFB: what is looked at after the row is the start of the next page, also where it came before.
#[test]
fn pages_of_one_row(rt: HostRuntime) {
    let data = [0x31, 0xC0, 0x31, 0xC0, 0x31, 0xC0];
    let mut settings = group4_pages(8);
    settings.rows = 1;
    for size in 1..=6 {
        let mut notes = no_notes(&rt);
        let mut pages = PageFeed::new(rt.alloc(), HighestFirst, settings).expect(&rt, "memory");
        notes_pieces(&rt, &mut pages, &data, size, &mut notes);
        same(
            &rt,
            (size, notes.as_slice()),
            (
                size,
                [3, 5, ROW, PAGE, 3, 5, ROW, PAGE, 3, 5, ROW, PAGE].as_slice(),
            ),
        );
    }
}

/// Each row of a page reports whether its line was damaged, and whether a run of it was cut: after a whole line one with a
/// wrong code, and a run of ten white pixels in eight columns.
#[test]
fn damage_of_pages(rt: HostRuntime) {
    let data = [
        0x00, 0x18, 0xE0, 0x00, 0x40, 0x3C, 0x00, 0x4E, 0x00, 0x20, 0x02, 0x00, 0x20, 0x02, 0x00,
        0x20, 0x02,
    ];
    let mut settings = pages_by(8, "1d eol rtc");
    settings.strict = false;
    let mut pages = PageFeed::new(rt.alloc(), HighestFirst, settings).expect(&rt, "memory");
    same(&rt, pages.feed(&data), Ok(()));
    for (number, damage, is_cut) in [
        (1, None, false),
        (2, Some(InvalidCode), false),
        (3, None, true),
    ] {
        same(&rt, pages.next_row(), Ok(PageFed::Row));
        same(&rt, pages.rows_read(), number);
        same(&rt, pages.damage(), damage);
        same(&rt, pages.is_cut(), is_cut);
    }
    same(&rt, pages.next_row(), Ok(PageFed::PageEnd));
}

/// Reads data that is fed at once, and returns the notes and the last result, twice.
fn ends_with(
    rt: &(impl Abort + AllocGlobal),
    settings: DecodeSettings,
    data: &[u8],
    rows: usize,
    expected: Result<PageFed>,
) {
    let mut notes = no_notes(rt);
    let mut pages = PageFeed::new(rt.alloc(), HighestFirst, settings).expect(rt, "memory");
    assert!(rt; !pages.is_finished());
    same(rt, pages.feed(data), Ok(()));
    pages.finish();
    for _ in 0..rows {
        same(rt, notes_next(rt, &mut pages, &mut notes), Ok(true));
    }
    same(rt, pages.next_row(), expected);
    same(rt, pages.next_row(), expected);
}

/// No data, no columns, a page and no more, and one that lacks its end.
#[test]
fn ends_of_pages(rt: HostRuntime) {
    let one = [0x31, 0xC0, 0x04, 0x00, 0x40];
    ends_with(&rt, group4_pages(8), &[], 0, Ok(PageFed::End));
    ends_with(&rt, group4_pages(0), &one, 0, Ok(PageFed::End));
    ends_with(&rt, group4_pages(8), &one, 2, Ok(PageFed::End));
    let cut = [0x00, 0x11, 0xC0];
    ends_with(&rt, group3_pages(1, false), &cut, 1, Err(InvalidCode));
}

/// Reads two pages that are fed in pieces while the allocation with this number is to be refused, and returns whether it was.
fn reads_in_want(rt: &(impl Abort + AllocGlobal), words: &str, data: &[u8], number: usize) -> bool
    requires { number < 100 }
{
    let mut notes = no_notes(rt);
    let mut pages = PageFeed::new(rt.alloc(), order_by(words), pages_by(8, words)).expect(
        rt, words,
    );
    refuse_request(rt.alloc(), number);
    notes_pieces(rt, &mut pages, data, 7, &mut notes);
    let was_refused = was_refused(rt.alloc());
    same(
        rt,
        (words, number, notes.as_slice()),
        (words, number, TWO_PAGES.as_slice()),
    );
    was_refused
}

/// A call that lacks memory can be made again, whichever allocation it is.
#[test]
fn refused_memory(rt: HostRuntime) {
    for words in ["g4 rtc", "2d eol rtc"] {
        let mut data = Vec::new(rt.alloc());
        append_page(&rt, &mut data, words, &rows_of(&rt, "3,5/3,5/white"));
        append_page(&rt, &mut data, words, &rows_of(&rt, "0/3,5"));
        for number in 1..100 {
            if !reads_in_want(&rt, words, &data, number) {
                break;
            }
        }
    }
}
