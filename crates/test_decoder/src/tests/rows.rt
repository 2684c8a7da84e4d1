//! Rows one at a time, as cases: the settings, the data, and what each call of `next_row` returns, with what is then said of the
//! row and of all rows.

ghost use Rattle.std.specs.Prelude.{◌<◌};

use super::cases::{cases_of, settings_in};
use super::{RowsAsText, bytes_of, context_of, decoded, said, same, same_text, sink_of, written};
use hayro_ccitt::bit_reader::BitOrder;
use hayro_ccitt::{
    DecodeError, DecodeSettings, Fed, Result, RowCursor, RowFeed, RowReader, bits_fit,
};
use std::alloc::AllocGlobal;
use std::process::Abort;

/// Makes a reader of rows.
fn reader_of<'a>(
    rt: &(impl Abort + AllocGlobal),
    data: &'a [u8],
    settings: DecodeSettings,
) -> RowReader<'a> {
    assert!(rt; bits_fit(data));
    RowReader::new(rt.alloc(), data, BitOrder::HighestFirst, settings).expect(rt, "memory")
}

/// Makes a cursor over rows.
fn cursor_of(rt: &(impl Abort + AllocGlobal), data: &[u8], settings: DecodeSettings) -> RowCursor {
    assert!(rt; bits_fit(data));
    RowCursor::new(rt.alloc(), data, BitOrder::HighestFirst, settings).expect(rt, "memory")
}

/// Reads the next row. The proofs of the callers carry none of what its contract says.
fn next_of(reader: &mut RowReader) -> Result<bool> {
    reader.next_row()
}

/// Reads a cursor's next row, as `next_of` does that of a reader.
fn next_in(rt: &impl Abort, cursor: &mut RowCursor, data: &[u8]) -> Result<bool> {
    assert!(rt; bits_fit(data));
    cursor.next_row(data)
}

/// Reads a feed's next row, and feeds one byte of the data whenever more is needed, from this one on.
fn next_fed(
    rt: &(impl Abort + AllocGlobal),
    feed: &mut RowFeed,
    data: &[u8],
    fed: &mut usize,
) -> Result<bool> {
    for _ in 0..data.len() + 2 {
        match feed.next_row()? {
            Fed::Row => return Ok(true),
            Fed::End => return Ok(false),
            Fed::NeedsMore => {
                assert!(rt; !feed.is_finished());
                if *fed < data.len() {
                    feed.feed(&data[*fed..*fed + 1])?;
                    *fed += 1;
                } else {
                    feed.finish();
                }
            }
        }
    }
    panic!(rt; "more is needed once the data is finished")
}

/// Writes what a feed says.
fn said_by_feed(rt: &(impl Abort + AllocGlobal), feed: &RowFeed) -> String {
    let counts = [feed.rows_read(), feed.damaged_rows(), feed.missed_eols()];
    let places = (feed.line_start(), feed.bytes_read());
    said(rt, (feed.row(), places.0, feed.damage(), counts, places.1))
}

/// Compares what a feed and a reader say.
fn are_alike(rt: &(impl Abort + AllocGlobal), feed: &RowFeed, reader: &RowReader, digits: &str) {
    let (found, expected) = (said_by_feed(rt, feed), said_by_reader(rt, reader));
    same_text(rt, digits, found.as_str(), expected.as_str());
    let found = (feed.missed_eol(), feed.is_cut(), feed.cut_rows());
    let expected = (reader.missed_eol(), reader.is_cut(), reader.cut_rows());
    same(rt, found, expected);
}

/// Compares what is unused with the bytes that were fed after those that were consumed.
fn unused_is_after(rt: &(impl Abort + AllocGlobal), feed: &RowFeed, fed: &[u8]) {
    let size = feed.unused_len();
    let mut found = vec![in rt.alloc(); 0xEEu8; size].expect(rt, "memory");
    assert!(rt; feed.copy_unused(&mut found));
    let read = feed.bytes_read();
    assert!(rt; read <= fed.len());
    same(rt, &found[..], &fed[read..]);
}

/// Reads the rows of data that comes byte by byte, as a reader does from all of it.
fn feeds_bytes(
    rt: &(impl Abort + AllocGlobal),
    data: &[u8],
    settings: DecodeSettings,
    digits: &str,
) {
    assert!(rt; bits_fit(data));
    let mut reader = reader_of(rt, data, settings);
    let mut feed = RowFeed::new(rt.alloc(), BitOrder::HighestFirst, settings).expect(rt, "memory");
    let mut fed = 0;
    for _ in 0..8 * data.len() + 4 {
        let found = next_of(&mut reader);
        same(rt, next_fed(rt, &mut feed, data, &mut fed), found);
        are_alike(rt, &feed, &reader, digits);
        assert!(rt; fed <= data.len());
        unused_is_after(rt, &feed, &data[..fed]);
    }
}

/// Passes the rows of a feed on. The proofs of the callers carry none of what its contract says.
pub(super) fn pushes_fed(feed: &mut RowFeed, sink: &mut RowsAsText) -> Result<Fed> {
    // The range of a number is known once it is read.
    let _columns = feed.settings().columns;
    feed.push_rows(sink)
}

/// Passes on the rows of data that comes in pieces of so many bytes, and writes them as a decoder's.
fn pushed_in_pieces(
    rt: &(impl Abort + AllocGlobal),
    data: &[u8],
    settings: DecodeSettings,
    size: usize,
) -> String
    requires { 0 < size }
{
    let mut feed = RowFeed::new(rt.alloc(), BitOrder::HighestFirst, settings).expect(rt, "memory");
    let mut sink = sink_of(rt, 99);
    for piece in data.chunks(size) {
        assert!(rt; !feed.is_finished());
        same(rt, feed.feed(piece), Ok(()));
        let _fed = pushes_fed(&mut feed, &mut sink);
    }
    feed.finish();
    let fed = pushes_fed(&mut feed, &mut sink);
    assert!(rt; fed != Ok(Fed::Row) && fed != Ok(Fed::NeedsMore));
    same(rt, sink.rows, feed.rows_read());
    written(rt, &sink, fed.map(|_| feed.bytes_read()))
}

/// Feeds bytes of this value one at a time, after each of which more is needed.
fn feeds_alike(rt: &impl Abort, feed: &mut RowFeed, byte: u8, count: usize) {
    for _ in 0..count {
        assert!(rt; !feed.is_finished());
        same(rt, feed.feed(&[byte]), Ok(()));
        same(rt, feed.next_row(), Ok(Fed::NeedsMore));
    }
}

/// Feeds these bytes.
fn feeds(rt: &impl Abort, feed: &mut RowFeed, data: &[u8]) {
    assert!(rt; !feed.is_finished());
    same(rt, feed.feed(data), Ok(()));
}

/// Feeds these bytes, and reads a row.
fn feeds_row(rt: &impl Abort, feed: &mut RowFeed, data: &[u8]) {
    assert!(rt; !feed.is_finished());
    same(rt, feed.feed(data), Ok(()));
    same(rt, feed.next_row(), Ok(Fed::Row));
}

/// Writes what a reader says.
fn said_by_reader(rt: &(impl Abort + AllocGlobal), reader: &RowReader) -> String {
    let counts = [
        reader.rows_read(),
        reader.damaged_rows(),
        reader.missed_eols(),
    ];
    let places = (reader.line_start(), reader.bytes_read());
    said(
        rt,
        (reader.row(), places.0, reader.damage(), counts, places.1),
    )
}

/// Writes what a cursor says.
fn said_by_cursor(rt: &(impl Abort + AllocGlobal), cursor: &RowCursor) -> String {
    let counts = [
        cursor.rows_read(),
        cursor.damaged_rows(),
        cursor.missed_eols(),
    ];
    let places = (cursor.line_start(), cursor.bytes_read());
    said(
        rt,
        (cursor.row(), places.0, cursor.damage(), counts, places.1),
    )
}

/// Reads the next row by a reader and by a cursor, and compares what they return and say.
fn reads_next(
    rt: &(impl Abort + AllocGlobal),
    reader: &mut RowReader,
    cursor: &mut RowCursor,
    data: &[u8],
    expected: &str,
) {
    let found = next_of(reader);
    let in_cursor = next_in(rt, cursor, data);
    let missed = reader.missed_eol();
    same(rt, (in_cursor, cursor.missed_eol()), (found, missed));
    let entry = said_by_reader(rt, reader);
    same_text(
        rt,
        "by a cursor",
        said_by_cursor(rt, cursor).as_str(),
        entry.as_str(),
    );
    let found = format!(in rt.alloc(); "{found:?} {entry} {missed:?}").expect(rt, "memory");
    same_text(rt, "by a reader", found.as_str(), expected);
}

/// Compares what a reader and a cursor say before the first row.
fn start_alike(
    rt: &(impl Abort + AllocGlobal),
    reader: &RowReader,
    cursor: &RowCursor,
    columns: u32,
    digits: &str,
) {
    let found = (cursor.settings().columns, reader.missed_eol());
    same(rt, found, (columns, None));
    let (by_reader, by_cursor) = (said_by_reader(rt, reader), said_by_cursor(rt, cursor));
    same_text(rt, digits, by_cursor.as_str(), by_reader.as_str());
    assert!(rt; by_reader.as_str().starts_with("([], 0, None, [0, 0, 0], "));
}

/// Reads the rows of a case: each call of `next_row` with what it returns, the last row, the offset of its line, its damage, how
/// many rows were read and damaged and EOLs missed, the bytes read, and the EOL that was missed.
fn reads_case(
    rt: &(impl Abort + AllocGlobal),
    settings: DecodeSettings,
    data: &[u8],
    digits: &str,
    expected: &str,
) {
    let mut reader = reader_of(rt, data, settings);
    let mut cursor = cursor_of(rt, data, settings);
    start_alike(rt, &reader, &cursor, settings.columns, digits);
    for entry in expected.split(';') {
        reads_next(rt, &mut reader, &mut cursor, data, entry.trim());
    }
    feeds_bytes(rt, data, settings, digits);
}

/// Reads the rows of each case of a text.
fn reads_each(rt: &(impl Abort + AllocGlobal), text: &str) {
    for (words, digits, expected) in &cases_of(rt, text) {
        let data = bytes_of(rt, digits);
        reads_case(rt, settings_in(rt, words), &data, digits, expected);
    }
}

/// An EOL and a white line, an EOL and 3 white pixels, 2 black ones and 3 white ones, an EOL and a white line; the same with a
/// black run that has no word, which strict data may not have.
#[test]
fn rows_one_at_a_time(rt: HostRuntime) {
    reads_each(
        &rt,
        "Group3_1D 8 columns 0 rows l | 0019800C700033 | Ok(true) ([], 12, None, [1, 0, 0], 3) None; \
         Ok(true) ([3, 5], 29, None, [2, 0, 0], 5) None; Ok(true) ([], 51, None, [3, 0, 0], 7) None; \
         Ok(false) ([], 51, None, [3, 0, 0], 7) None; Ok(false) ([], 51, None, [3, 0, 0], 7) None
        Group3_1D 8 columns 2 rows l | 0019800C700033 | Ok(true) ([], 12, None, [1, 0, 0], 3) None; \
         Ok(true) ([3, 5], 29, None, [2, 0, 0], 5) None; Ok(false) ([3, 5], 29, None, [2, 0, 0], 7) None; \
         Ok(false) ([3, 5], 29, None, [2, 0, 0], 7) None
        Group3_1D 8 columns 0 rows l | 0019800C400033 | Ok(true) ([], 12, None, [1, 0, 0], 3) None; \
         Ok(true) ([3, 6], 29, Some(InvalidCode), [2, 1, 0], 4) None; Ok(true) ([], 51, None, [3, 1, 0], 7) None; \
         Ok(false) ([], 51, None, [3, 1, 0], 7) None
        Group3_1D 8 columns 2 rows l | 0019800C400033 | Ok(true) ([], 12, None, [1, 0, 0], 3) None; \
         Ok(true) ([3, 6], 29, Some(InvalidCode), [2, 1, 0], 4) None; Ok(false) ([3, 6], 29, Some(InvalidCode), [2, 1, 0], 4) None
        Group3_1D 8 columns 0 rows l s | 0019800C400033 | Ok(true) ([], 12, None, [1, 0, 0], 3) None; \
         Err(InvalidCode) ([], 29, None, [1, 0, 0], 4) None; Err(InvalidCode) ([], 29, None, [1, 0, 0], 4) None
        // no line
        Group3_1D 8 columns 0 rows l | | Ok(true) ([], 0, Some(UnexpectedEof), [1, 1, 0], 0) None; \
         Ok(false) ([], 0, Some(UnexpectedEof), [1, 1, 0], 0) None
        // a tagged line without its end
        Group3_2D 8 columns 0 rows l | 18C0 | Ok(true) ([3, 5], 0, Some(InvalidCode), [1, 1, 0], 0) None; \
         Err(InvalidCode) ([3, 5], 0, Some(InvalidCode), [1, 1, 0], 0) None",
    );
}

/// Bits stand after a whole line, and then an EOL, which is missed once the second line is read; or no EOL is left.
#[test]
fn missed_eols_are_reported(rt: HostRuntime) {
    reads_each(
        &rt,
        "Group3_1D 8 columns 2 rows l | 0019F800CC | Ok(true) ([], 12, None, [1, 0, 0], 3) None; \
         Ok(true) ([], 33, None, [2, 0, 1], 5) Some(17); Ok(false) ([], 33, None, [2, 0, 1], 5) None
        Group3_1D 8 columns 2 rows l s | 0019F800CC | Ok(true) ([], 12, None, [1, 0, 0], 3) None; \
         Err(InvalidCode) ([], 17, None, [1, 0, 0], 3) None
        Group3_1D 2 columns 0 rows l | 7770 | Ok(true) ([], 0, None, [1, 0, 0], 1) None; \
         Ok(true) ([], 4, None, [2, 0, 1], 1) Some(4); Ok(true) ([], 8, None, [3, 0, 1], 2) None; \
         Err(UnexpectedEof) ([], 12, None, [3, 0, 1], 2) None",
    );
}

/// An EOL, and a run of ten in eight columns, which is cut.
#[test]
fn cut_rows_are_reported(rt: HostRuntime) {
    let settings = settings_in(&rt, "Group3_1D 8 columns 1 rows l");
    let data = &bytes_of(&rt, "001380");
    let mut reader = reader_of(&rt, data, settings);
    let mut cursor = cursor_of(&rt, data, settings);
    let before = reader.is_cut();
    same(&rt, next_in(&rt, &mut cursor, data), next_of(&mut reader));
    let found = (before, reader.is_cut(), reader.cut_rows());
    same(&rt, found, (false, true, 1));
    same(&rt, (cursor.is_cut(), cursor.cut_rows()), (true, 1));
}

/// Horizontal mode, 3 white pixels, 2 black ones, V0; then EOFB, or padding that is no mode.
#[test]
fn rows_of_group_4_one_at_a_time(rt: HostRuntime) {
    reads_each(
        &rt,
        "Group4 8 columns 0 rows b | 31C0040040 | Ok(true) ([3, 5], 0, None, [1, 0, 0], 2) None; \
         Ok(false) ([3, 5], 0, None, [1, 0, 0], 5) None; Ok(false) ([3, 5], 0, None, [1, 0, 0], 5) None
        Group4 8 columns 0 rows | 31C0 | Ok(true) ([3, 5], 0, None, [1, 0, 0], 2) None; \
         Err(InvalidCode) ([3, 5], 10, None, [1, 0, 0], 2) None; Err(InvalidCode) ([3, 5], 10, None, [1, 0, 0], 2) None
        Group4 0 columns 0 rows | 31C0 | Ok(false) ([], 0, None, [0, 0, 0], 0) None; Ok(false) ([], 0, None, [0, 0, 0], 0) None",
    );
}

/// Without columns there is no row, whatever data follows: a feed is at its end at once, as `decode` is.
#[test]
fn no_columns_are_no_rows(rt: HostRuntime) {
    let cases = cases_of(
        &rt,
        "Group4 0 columns 0 rows b | 31C0 | []
        Group3_1D 0 columns 0 rows l | 31C0 | []
        Group3_2D 0 columns 3 rows | 31C0 | []",
    );
    for (words, digits, _) in &cases {
        let settings = settings_in(&rt, words);
        let mut feed = RowFeed::new(rt.alloc(), BitOrder::HighestFirst, settings).expect(
            &rt, "memory",
        );
        same(&rt, feed.next_row(), Ok(Fed::End));
        feeds(&rt, &mut feed, &bytes_of(&rt, digits));
        same(&rt, feed.next_row(), Ok(Fed::End));
        same(&rt, feed.bytes_read(), 0);
    }
}

/// Rows that are passed on from data in pieces are those of `decode`.
#[test]
fn rows_are_pushed_in_pieces(rt: HostRuntime) {
    let cases = cases_of(
        &rt,
        "Group3_1D 8 columns 0 rows l | 0019800C700033 | []
        Group3_1D 8 columns 0 rows l | 0019800C400033 | []
        Group3_1D 8 columns 0 rows l s | 0019800C400033 | []
        Group3_2D 8 columns 0 rows b | 001C70002E00231C006003001800C0060030 | []
        Group4 8 columns 0 rows b | 31C0040040 | []
        Group4 8 columns 40 rows | 31FFFFFFFFFFFF | []
        Group4 8 columns 0 rows b | FFFFFFFF31FFFF001001 | []
        Group4 0 columns 0 rows | 31C0 | []",
    );
    for (words, digits, _) in &cases {
        let (settings, data) = (settings_in(&rt, words), bytes_of(&rt, digits));
        let expected = decoded(&rt, &mut context_of(&rt, settings), &data, 99);
        for size in [1usize, 3, 100] {
            let found = pushed_in_pieces(&rt, &data, settings, size);
            same_text(&rt, digits, found.as_str(), expected.as_str());
        }
    }
}

/// A row that the sink refuses was read, and the next call goes on after it.
#[test]
fn pushed_rows_are_refused(rt: HostRuntime) {
    let settings = settings_in(&rt, "Group4 8 columns 4 rows");
    let mut feed = RowFeed::new(rt.alloc(), BitOrder::HighestFirst, settings).expect(&rt, "memory");
    let mut sink = sink_of(&rt, 1);
    feeds(&rt, &mut feed, &bytes_of(&rt, "31F9F8"));
    let fed = pushes_fed(&mut feed, &mut sink);
    let found = (fed, sink.rows, feed.rows_read());
    same(&rt, found, (Err(DecodeError::Refused), 1, 2));
    sink.limit = 9;
    let fed = pushes_fed(&mut feed, &mut sink);
    let found = (fed, sink.rows, feed.rows_read());
    same(&rt, found, (Ok(Fed::NeedsMore), 2, 3));
}

/// A line of 64 pixels in turn white and black that comes byte by byte goes on from a part of it; after it none does.
#[test]
fn a_line_goes_on_where_it_stopped(rt: HostRuntime) {
    let settings = settings_in(&rt, "Group3_1D 64 columns 1 rows");
    let mut feed = RowFeed::new(rt.alloc(), BitOrder::HighestFirst, settings).expect(&rt, "memory");
    let line = bytes_of(
        &rt,
        "1D0E8743A1D0E8743A1D0E8743A1D0E8743A1D0E8743A1D0E8743A1D0E8743A1D0E8743A",
    );
    let mut within: usize = 0;
    let mut stays: usize = 0;
    for byte in &line {
        assert!(rt; !feed.is_finished());
        same(&rt, feed.feed(&[*byte]), Ok(()));
        let is_reported = feed.stays_within_line();
        let fed = feed.next_row();
        if is_reported {
            same(&rt, fed, Ok(Fed::NeedsMore));
            stays = stays.saturating_add(1);
        }
        if feed.is_within_line() {
            same(&rt, fed, Ok(Fed::NeedsMore));
            within = within.saturating_add(1);
        }
    }
    same(&rt, feed.rows_read(), 1);
    // Of 36 bytes not after the first, where nothing is kept yet, and the last, where the row was read.
    same(&rt, within, 34);
    // Nor after the second, where it was kept.
    same(&rt, stays, 33);
}

/// Fill, and a damaged stretch before the next EOL, that come byte by byte (T.4, 4.1.2 and 4.1.3): what was looked at once isn't
/// looked at again, else this would take minutes.
#[test]
fn long_gaps_come_byte_by_byte(rt: HostRuntime) {
    let settings = settings_in(&rt, "Group3_1D 8 columns 0 rows l");
    let mut feed = RowFeed::new(rt.alloc(), BitOrder::HighestFirst, settings).expect(&rt, "memory");
    feeds_alike(&rt, &mut feed, 0x00, 100_000);
    let line = bytes_of(&rt, "0019FF");
    feeds_row(&rt, &mut feed, &line);
    let first = feed.line_start();
    feeds_alike(&rt, &mut feed, 0xFF, 100_000);
    feeds_row(&rt, &mut feed, &line);
    let found = (first, feed.line_start(), feed.missed_eol());
    same(&rt, found, (800_012, 1_600_036, Some(800_017)));
}

/// Of a gap that waits only the number of its bits is kept: they aren't written as unused.
#[test]
fn a_gap_that_waits_is_not_unused(rt: HostRuntime) {
    let settings = settings_in(&rt, "Group3_1D 8 columns 0 rows l");
    let mut feed = RowFeed::new(rt.alloc(), BitOrder::HighestFirst, settings).expect(&rt, "memory");
    feeds_alike(&rt, &mut feed, 0x00, 3);
    assert!(rt; feed.unused_len() == 3);
    same(&rt, feed.keeps_unused(), false);
    let mut bytes = [0xEEu8; 3];
    same(&rt, feed.copy_unused(&mut bytes), false);
    same(&rt, bytes, [0xEE; 3]);
}
