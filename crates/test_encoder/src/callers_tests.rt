//! What no clause says: that allocations succeed, and that the results are those of the standards. The bytes were worked out
//! from T.6 by hand.
//!
//! With 8 columns a row whose pixels 3 and 4 are black is, below a white one, horizontal mode, a white run of 3, a black run of 2
//! and V0: 001 1000 11 1. Below a row like itself it is three times V0: 111. EOFB is 000000000001 twice.

ghost use Rattle.std.specs.Prelude.{◌≡◌};
ghost use Rattle.hayro_ccitt.specs.Rows.{AreChanges};

use crate::cases::{check, encoding_by, first_of, order_by, pages_by, rows_of, settings_by};
use crate::same;
use fax_callers::{
    BlackPixels, FirstRows, PageSearch, count_black, decode_first_rows, decode_once, group4_pages,
    page_end, page_ends, page_ends_by, row_in_step, strip_to_bitmap,
};
use fax_encode::{BitmapSink, encode, names_encoding};
use hayro_ccitt::DecodeError::{OutOfMemory, Refused};
use hayro_ccitt::bit_reader::BitOrder::{HighestFirst, LowestFirst};
use hayro_ccitt::{
    DecodeError, DecodeSettings, Decoder, DecoderContext, EncodingMode, Result, bits_fit,
};
use std::alloc::{AllocGlobal, Global};
use std::process::Abort;
use test_allocations::made_at_last;

/// One row with the changes 3 and 5, and EOFB: 31C0040040.
const ONE_ROW: [u8; 5] = [0x31, 0xC0, 0x04, 0x00, 0x40];

/// Two rows with the changes 3 and 5, and EOFB: 31F8008008.
const TWO_ROWS: [u8; 5] = [0x31, 0xF8, 0x00, 0x80, 0x08];

/// The page of one row, and after it that of two.
const TWO_PAGES: [u8; 10] = [0x31, 0xC0, 0x04, 0x00, 0x40, 0x31, 0xF8, 0x00, 0x80, 0x08];

#[test]
fn settings_of_pages(rt: HostRuntime) {
    check(
        &rt,
        "group4_pages 8 -",
        ": DecodeSettings { columns: 8, rows: 0, end_of_block: true, end_of_line: false, \
            rows_are_byte_aligned: false, encoding: Group4, strict: true }",
    );
    check(
        &rt,
        "group3_pages 8 - 2d",
        ": DecodeSettings { columns: 8, rows: 0, end_of_block: true, end_of_line: true, \
            rows_are_byte_aligned: false, encoding: Group3_2D, strict: true }",
    );
}

/// Counts the black pixels of one more row, and returns how many all rows have.
fn black_with(sink: &mut BlackPixels, row: &[u32]) -> Result<u64>
    requires { AreChanges sink.old.columns row.now }
    ensures { sink.new.columns ≡ sink.old.columns }
{
    sink.push_row(row)?;
    Ok(sink.black())
}

#[test]
fn black_pixels(rt: HostRuntime) {
    check(
        &rt,
        "count_black 8",
        "
        31C0040040: Ok(2)
        31F8008008: Ok(4)
        31CC: Err(UnexpectedEof)
        ",
    );
    let mut sink = BlackPixels::new(8);
    let read = decode_once(
        rt.alloc(),
        group4_pages(8),
        HighestFirst,
        &TWO_PAGES,
        &mut sink,
    );
    same(&rt, (read, sink.black()), (Ok(5), 2));
    // A white row, a black one, and the first and the last pixel.
    same(&rt, black_with(&mut sink, &[]), Ok(2));
    same(&rt, black_with(&mut sink, &[0]), Ok(10));
    same(&rt, black_with(&mut sink, &[0, 1, 7]), Ok(12));
}

#[test]
fn bitmaps_of_strips(rt: HostRuntime) {
    check(
        &rt,
        "strip_to_bitmap 8",
        "
        31C0040040: 18
        31F8008008: 1818
        31CC: UnexpectedEof
        ",
    );
}

#[test]
fn blank_images(rt: HostRuntime) {
    check(
        &rt,
        "is_blank 8",
        "
        // V0 twice, and EOFB: 11 000000000001 000000000001.
        C0040040: Ok(true)
        03200002 low: Ok(true)
        31C0040040: Ok(false)
        // A white row, and one whose pixels 3 and 4 are black: what follows it doesn't matter.
        98E0: Ok(false)
        // A white row, and no code word.
        8000: Err(InvalidCode)
        ",
    );
}

/// Three one-dimensional lines of 8 columns, each after an EOL: a white row, one whose pixels 3 and 4 are black, and a white one.
const THREE_LINES: [u8; 7] = [0x00, 0x19, 0x80, 0x0C, 0x70, 0x00, 0x33];

/// The same lines with the lowest bit of each byte first.
const THREE_LINES_LOW_FIRST: [u8; 7] = [0x00, 0x98, 0x01, 0x30, 0x0E, 0x00, 0xCC];

/// Returns the settings of lenient one-dimensional data with EOLs.
fn lines_with_eols(columns: u32) -> DecodeSettings {
    DecodeSettings {
        columns,
        rows: 0,
        end_of_block: false,
        end_of_line: true,
        rows_are_byte_aligned: false,
        encoding: EncodingMode::Group3_1D,
        strict: false,
    }
}

/// Damage before the first EOL, before the second, between them, and before the last.
#[test]
fn rows_after_damage(rt: HostRuntime) {
    let settings = lines_with_eols(8);
    for (to, row) in [(0, Some(1)), (17, Some(2)), (18, None), (36, None)] {
        for (order, data) in [
            (HighestFirst, THREE_LINES),
            (LowestFirst, THREE_LINES_LOW_FIRST),
        ] {
            same(
                &rt,
                row_in_step(rt.alloc(), settings, order, &data, to),
                Ok(row),
            );
        }
    }
}

#[test]
fn first_rows(rt: HostRuntime) {
    check(
        &rt,
        "decode_first_rows 8",
        r#"
        31F8008008 most=0: Ok(true) 0 ""
        31F8008008 most=1: Ok(true) 1 "18"
        31F8008008 most=2: Ok(true) 2 "1818"
        31F8008008 most=3: Ok(false) 2 "1818"
        31CC most=1: Ok(true) 1 "18"
        31CC most=2: Err(UnexpectedEof) 1 "18"
        "#,
    );
}

#[test]
fn rows_that_are_refused(rt: HostRuntime) {
    let alloc = rt.alloc();
    let mut ctx = DecoderContext::new(alloc, group4_pages(8)).expect(&rt, "memory");
    let mut first = FirstRows::new(FirstRows::new(BitmapSink::new(alloc, 8), 1), 3);
    let of_three = decode_first_rows(HighestFirst, &TWO_ROWS, &mut first, &mut ctx);
    let mut one = FirstRows::new(BitmapSink::new(alloc, 8), 1);
    let of_one = decode_once(alloc, group4_pages(8), HighestFirst, &TWO_ROWS, &mut one);
    same(
        &rt,
        (of_three, first.sink.sink.bytes(), of_one),
        (Err(Refused), [0x18u8].as_slice(), Err(Refused)),
    );
}

#[test]
fn pages(rt: HostRuntime) {
    check(
        &rt,
        "",
        "
        page_end 8 31C0040040: Ok(5)
        page_end 8 31C004004031F8008008: Ok(5)
        page_end 8 31CC: Err(UnexpectedEof)
        page_ends 8 31C004004031F8008008: Ok([5, 10])
        page_ends 8 -: Ok([])
        page_ends 0 31C0040040: Ok([])
        page_ends 8 31C004004031: Err(UnexpectedEof)
        ",
    );
}

/// A white row of one column is, after an EOL, 000111, and RTC six EOLs. In two-dimensional Group 3 a tag of 1 follows each EOL; or one
/// of 0 the first, and V0 is 1.
#[test]
fn pages_of_any_encoding(rt: HostRuntime) {
    check(
        &rt,
        "",
        "
        page_end_by 1 0011C0040040040040040040 1d: Ok(12)
        page_end_by 1 0011C00400400400400400400011C0040040040040040040 1d: Ok(12)
        page_ends_by 1 0011C00400400400400400400011C0040040040040040040 1d: Ok([12, 24])
        page_ends_by 1 008803200002200002200002008803200002200002200002 1d low: Ok([12, 24])
        page_ends_by 1 0018E003001800C006003001800018E003001800C00600300180 2d: Ok([13, 26])
        page_ends_by 1 0014006003001800C00600300014006003001800C0060030 2d: Ok([12, 24])
        // The last page has no RTC.
        page_end_by 1 0011C0 1d: Err(InvalidCode)
        page_ends_by 1 0011C00400400400400400400011C0040040 1d: Err(UnexpectedEof)
        page_ends_by 0 0011C0 1d: Ok([])
        page_ends_by 8 31C004004031F8008008 g4: Ok([5, 10])
        ",
    );
}

/// Appends the encoding of an image, by the settings that words name, and returns how many bytes there are then.
pub fn append_page(
    rt: &(impl Abort + AllocGlobal),
    data: &mut Vec<u8>,
    words: &str,
    rows: &[Vec<u32>],
) -> usize {
    let settings = settings_by(words);
    assert!(rt; names_encoding(settings), "{words}");
    let page = encode(rt.alloc(), 8, rows, settings).expect(rt, words);
    data.extend_from_slice(&page).expect(rt, "memory");
    data.len()
}

/// Compares the bitmap of the page that bytes are.
fn is_page(rt: &(impl Abort + AllocGlobal), words: &str, data: &[u8], expected: &[u8]) {
    assert!(rt; bits_fit(data));
    let found = strip_to_bitmap(rt.alloc(), pages_by(8, words), order_by(words), data);
    let bitmap = found.expect(rt, words);
    same(rt, bitmap.len(), expected.len());
    assert!(rt; bitmap.as_slice() == expected, "{words}");
}

/// Returns two pages that the encoder makes, one after the other, and where they end.
fn two_pages(rt: &(impl Abort + AllocGlobal), words: &str) -> (Vec<u8>, [usize; 2]) {
    let mut data = Vec::new(rt.alloc());
    let first = append_page(rt, &mut data, words, &rows_of(rt, "3,5/3,5/white"));
    let second = append_page(rt, &mut data, words, &rows_of(rt, "0/3,5"));
    (data, [first, second])
}

/// Finds the ends of pages, and compares them.
fn has_ends(rt: &(impl Abort + AllocGlobal), words: &str, data: &[u8], expected: &[usize]) {
    assert!(rt; bits_fit(data));
    let found = page_ends_by(rt.alloc(), pages_by(8, words), order_by(words), data);
    let ends = found.expect(rt, words);
    same(rt, (words, ends.as_slice()), (words, expected));
}

/// Encodes two pages, finds them, and reads each.
fn finds_pages(rt: &(impl Abort + AllocGlobal), words: &str) {
    let (data, ends) = two_pages(rt, words);
    has_ends(rt, words, &data, &ends);
    let (one, two) = data.split_at(ends[0].min(data.len()));
    is_page(rt, words, one, &[0x18, 0x18, 0x00]);
    is_page(rt, words, two, &[0xFF, 0x18]);
}

/// Two pages that the encoder makes are found, and the bytes of each are read as its rows.
#[test]
fn encoded_pages(rt: HostRuntime) {
    for words in [
        "1d eol rtc",
        "1d eol rtc low",
        "1d eol fill rtc",
        "2d eol rtc",
        "2d eol fill rtc low k=9",
        "g4 rtc",
        "g4 rtc low",
    ] {
        finds_pages(&rt, words);
    }
}

/// Finds the ends of pages of Group 3 in a piece that begins at an offset, and returns the search for the next end.
fn find_ends(
    rt: &(impl Abort + AllocGlobal),
    words: &str,
    search: PageSearch,
    piece: &[u8],
    ends: &mut Vec<usize>,
    offset: usize,
) -> PageSearch {
    let mut search = search;
    let mut begin = offset;
    let mut rest = piece;
    for _page in 0..piece.len() {
        assert!(rt; bits_fit(rest));
        let Some(end) = search.find_end(rest) else {
            break;
        };
        begin = begin.wrapping_add(end);
        ends.push(begin).expect(rt, "memory");
        rest = &rest[end..];
        search = new_search(words);
    }
    search
}

/// Returns a search at the start of a page of Group 3, by the words that name its settings.
fn new_search(words: &str) -> PageSearch {
    PageSearch::new(
        order_by(words),
        matches!(encoding_by(words), EncodingMode::Group3_2D),
    )
}

/// Finds the ends of pages in two pieces, and compares them.
fn has_ends_if_cut(
    rt: &(impl Abort + AllocGlobal),
    words: &str,
    data: &[u8],
    cut: usize,
    expected: &[usize],
) {
    let mut ends = Vec::new(rt.alloc());
    let (one, two) = data.split_at(cut.min(data.len()));
    let search = find_ends(rt, words, new_search(words), one, &mut ends, 0);
    find_ends(rt, words, search, two, &mut ends, cut);
    same(rt, (words, cut, ends.as_slice()), (words, cut, expected));
}

/// The ends of two pages that the encoder makes are found, wherever the data is cut.
#[test]
fn pages_in_pieces(rt: HostRuntime) {
    for words in [
        "1d eol rtc",
        "1d eol fill rtc low",
        "2d eol rtc k=9",
        "2d eol rtc low",
    ] {
        let (data, ends) = two_pages(&rt, words);
        for cut in 0..=data.len() {
            has_ends_if_cut(&rt, words, &data, cut, &ends);
        }
    }
}

/// Returns `times` copies of a piece between a start and an end.
fn repeated(
    rt: &(impl Abort + AllocGlobal),
    front: &[u8],
    piece: &[u8],
    times: usize,
    end: &[u8],
) -> Vec<u8> {
    let mut data = front.to_vec(rt.alloc()).expect(rt, "memory");
    for _ in 0..times {
        data.extend_from_slice(piece).expect(rt, "memory");
    }
    data.extend_from_slice(end).expect(rt, "memory");
    data
}

#[test]
fn many_pages(rt: HostRuntime) {
    let data = repeated(&rt, &[], &ONE_ROW, 10000, &[]);
    assert!(&rt; bits_fit(&data));
    let ends = page_ends(rt.alloc(), 8, HighestFirst, &data).expect(&rt, "pages");
    same(&rt, ends.len(), 10000);
    let mut end = 0usize;
    for found in ends.iter() {
        end = end.wrapping_add(ONE_ROW.len());
        same(&rt, *found, end);
    }
}

/// Decodes a strip in each way, and compares its bitmap, its black pixels, two in a row, and its end.
fn decodes_strip(rt: &(impl Abort + AllocGlobal), data: &[u8], expected: &[u8]) {
    let alloc = rt.alloc();
    assert!(rt; bits_fit(data));
    let bitmap = strip_to_bitmap(alloc, group4_pages(8), HighestFirst, data).expect(rt, "a strip");
    same(rt, bitmap.len(), expected.len());
    assert!(rt; bitmap.as_slice() == expected);
    let black = count_black(alloc, group4_pages(8), HighestFirst, data);
    same(rt, black, Ok((expected.len() as u64).wrapping_mul(2)));
    same(rt, page_end(alloc, 8, HighestFirst, data), Ok(data.len()));
}

/// Decodes all rows of a strip as its first ones, and compares them.
fn takes_all(rt: &(impl Abort + AllocGlobal), data: &[u8], expected: &[u8]) {
    let (stopped, first) = first_of(rt, 8, HighestFirst, data, u64::MAX);
    same(
        rt,
        (stopped, first.rows),
        (Ok(false), expected.len() as u64),
    );
    assert!(rt; first.sink.bytes() == expected);
}

/// A row with the changes 3 and 5 and two copies of it occupy two bytes, eight more copies three, each three times V0.
#[test]
fn long_strips(rt: HostRuntime) {
    let times = 1 << 19;
    let data = repeated(&rt, &[0x31, 0xFF], &[0xFF; 3], times, &[0x00, 0x10, 0x01]);
    let expected = repeated(&rt, &[0x18; 3], &[0x18; 8], times, &[]);
    decodes_strip(&rt, &data, &expected);
    takes_all(&rt, &data, &expected);
}

/// Returns whether an error is `OutOfMemory`.
fn is_want(error: &DecodeError) -> bool {
    matches!(error, OutOfMemory | Refused)
}

/// Makes the call of this name: the black pixels or a row, the bitmap, and the ends of pages, of which it returns one.
fn called(alloc: Global, name: &str) -> Result<(u64, Vec<u8>, Vec<usize>)> {
    let mut black = 0;
    let mut bitmap = Vec::new(alloc);
    let mut ends = Vec::new(alloc);
    match name {
        "count_black" => black = count_black(alloc, group4_pages(8), HighestFirst, &TWO_ROWS)?,
        "strip_to_bitmap" => {
            bitmap = strip_to_bitmap(alloc, group4_pages(8), HighestFirst, &TWO_ROWS)?;
        }
        "row_in_step" => {
            black = row_in_step(
                alloc,
                lines_with_eols(8),
                HighestFirst,
                &THREE_LINES,
                17,
            )?.unwrap_or(0);
        }
        "page_ends_by" => ends = page_ends_by(alloc, group4_pages(8), HighestFirst, &TWO_PAGES)?,
        _ => ends = page_ends(alloc, 8, HighestFirst, &TWO_PAGES)?,
    }
    Ok((black, bitmap, ends))
}

/// Makes the call of this name with each allocation refused in turn, and compares the result.
fn made_with(rt: &(impl Abort + AllocGlobal), name: &str, expected: &str) {
    let made = made_at_last(rt.alloc(), &|| called(rt.alloc(), name), &is_want);
    let made = format!(in rt.alloc(); "{made:?}").expect(rt, "memory");
    same(rt, (name, made.as_str()), (name, expected));
}

#[test]
fn refused_memory(rt: HostRuntime) {
    made_with(&rt, "count_black", "Ok((4, [], []))");
    made_with(&rt, "strip_to_bitmap", "Ok((0, [24, 24], []))");
    made_with(&rt, "page_ends", "Ok((0, [], [5, 10]))");
    made_with(&rt, "page_ends_by", "Ok((0, [], [5, 10]))");
    made_with(&rt, "row_in_step", "Ok((2, [], []))");
}
