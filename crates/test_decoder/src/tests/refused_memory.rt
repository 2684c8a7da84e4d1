//! Allocations that are refused. A test names the allocation that is to be refused; if `checks/programs/refuse_named.c` is
//! loaded before it, as `checks/programs/built_tests.py` does, that one alone is refused, and else none is.

ghost use Rattle.std.specs.Prelude.{◌<◌};

use super::calls::{draws_2d, fills, is_local, moves_on, places_of, reach_of, step_of};
use super::cases::{cases_of, settings_in};
use super::rows::pushes_fed;
use super::{RowsAsText, bytes_of, context_of, decoded, joined, same, same_text, sink_of, written};
use hayro_ccitt::DecodeError::{OutOfMemory, Refused};
use hayro_ccitt::bit_reader::BitOrder::HighestFirst;
use hayro_ccitt::bit_reader::{BitOrder, BitReader};
use hayro_ccitt::{DecodeSettings, DecoderContext, Result, RowFeed, bits_fit, decode};
use std::alloc::AllocGlobal;
use std::process::Abort;
use test_allocations::{refuse_request, was_refused};

/// More allocations than any call here makes.
const MANY: usize = 100;

/// Decodes while the allocation with this number is to be refused, and returns the result, and whether it was refused.
fn decodes_without(
    rt: &(impl Abort + AllocGlobal),
    ctx: &mut DecoderContext,
    data: &[u8],
    sink: &mut RowsAsText,
    number: usize,
) -> (Result<usize>, bool)
    requires { number < 100 }
{
    assert!(rt; bits_fit(data));
    let _columns = ctx.settings().columns;
    refuse_request(rt.alloc(), number);
    let read = decode(data, sink, ctx);
    (read, was_refused(rt.alloc()))
}

/// Refuses an allocation of a decoding: it returns `OutOfMemory` after the first of the rows, or can do without, and the same
/// context then decodes the data whole. Returns whether there was such an allocation.
fn refuses_request(
    rt: &(impl Abort + AllocGlobal),
    settings: DecodeSettings,
    data: &[u8],
    expected: &str,
    number: usize,
) -> bool
    requires { number < 100 }
{
    let mut ctx = context_of(rt, settings);
    let mut sink = sink_of(rt, 9);
    let (found, is_refused) = decodes_without(rt, &mut ctx, data, &mut sink, number);
    if matches!(found, Err(OutOfMemory)) {
        same(rt, (is_refused, ctx.decoded_rows()), (true, sink.rows));
        // As many rows as a sink takes that refuses the next.
        let mut other = context_of(rt, settings);
        let first = decoded(rt, &mut other, data, sink.rows);
        let rows = written(rt, &sink, Err(Refused));
        same_text(rt, "first rows", rows.as_str(), first.as_str());
    } else {
        // A decoder can do without the room for a window's changes.
        same_text(rt, "without", written(rt, &sink, found).as_str(), expected);
    }
    same_text(
        rt,
        "then",
        decoded(rt, &mut ctx, data, 9).as_str(),
        expected,
    );
    is_refused
}

/// Refuses each allocation of a decoding in turn.
fn refuses_each_request(
    rt: &(impl Abort + AllocGlobal),
    words: &str,
    digits: &str,
    expected: &str,
) {
    let settings = settings_in(rt, words);
    let data = bytes_of(rt, digits);
    let expected = joined(rt, expected);
    for number in 1..MANY {
        if !refuses_request(rt, settings, &data, expected.as_str(), number) {
            return;
        }
    }
    panic!(rt; "each of {MANY} requests was refused");
}

#[test]
fn contexts_without_memory(rt: HostRuntime) {
    let settings = settings_in(&rt, "Group4 8 columns 2 rows");
    refuse_request(rt.alloc(), 1);
    let made = DecoderContext::new(rt.alloc(), settings).is_ok();
    same(&rt, (made, was_refused(rt.alloc())), (true, false));
}

/// Two rows, the second a copy; three tagged lines and RTC; three lines, the second damaged.
#[test]
fn refused_rows(rt: HostRuntime) {
    let cases = cases_of(
        &rt,
        "Group4 8 columns 2 rows | 31F8 | [[3, 5], [3, 5]] Ok(2)
        Group3_2D 8 columns 0 rows b | 001C70002E00231C006003001800C0060030 | [[3, 5], [3, 5], [3, 5]] Ok(18)
        Group3_1D 8 columns 0 rows l | 0019800C400033 | [[], [3, 6], []] Ok(7)",
    );
    for (settings, digits, expected) in &cases {
        refuses_each_request(&rt, settings, digits, expected);
    }
}

/// A row of 4095 changes, for which memory is allocated again and again.
#[test]
fn refused_growths_of_a_row(rt: HostRuntime) {
    let mut changes = Vec::new(rt.alloc());
    for place in 1..4096u32 {
        assert!(rt; changes.push(place).is_ok());
    }
    let expected = format!(in rt.alloc(); "[{changes:?}] Ok(3072)").expect(&rt, "memory");
    refuses_each_request(
        &rt,
        "Group4 4096 columns 1 rows",
        "23A23A*1024",
        expected.as_str(),
    );
}

/// Asks for the body of a white line and that of a line with black pixels while an allocation is refused; the same context then
/// answers, and decodes. Returns whether there was such an allocation.
fn refuses_body(
    rt: &(impl Abort + AllocGlobal),
    settings: DecodeSettings,
    data: &[u8],
    number: usize,
) -> bool
    requires { number < 100 }
{
    let mut ctx = context_of(rt, settings);
    refuse_request(rt.alloc(), number);
    let white = is_local(rt, HighestFirst, data, &mut ctx, 12, 17);
    let found = is_local(rt, HighestFirst, data, &mut ctx, 29, 39);
    let is_refused = was_refused(rt.alloc());
    let wanted = if is_refused {
        Err(OutOfMemory)
    } else {
        Ok(true)
    };
    same(rt, (number, white, found), (number, Ok(true), wanted));
    same(
        rt,
        is_local(rt, HighestFirst, data, &mut ctx, 29, 39),
        Ok(true),
    );
    let read = decoded(rt, &mut ctx, data, 9);
    same_text(rt, "then", read.as_str(), "[[],[3,5],[]]Ok(7)");
    is_refused
}

#[test]
fn refused_bodies(rt: HostRuntime) {
    let data = bytes_of(&rt, "0019800C700033");
    let settings = settings_in(&rt, "Group3_1D 8 columns 0 rows l");
    for number in 1..MANY {
        if !refuses_body(&rt, settings, &data, number) {
            return;
        }
    }
    panic!(rt; "each of {MANY} requests was refused");
}

/// The first allocation is to be refused, and none is made.
#[test]
fn calls_without_memory(rt: HostRuntime) {
    let mut ctx = context_of(&rt, settings_in(&rt, "Group4 8 columns 0 rows"));
    let data = bytes_of(&rt, "31C0");
    let mut sink = sink_of(&rt, 2);
    assert!(rt; bits_fit(&data));
    let drawn = draws_2d(&mut ctx, &mut BitReader::new(&data));
    refuse_request(rt.alloc(), 1);
    let moved = moves_on(&rt, &mut ctx, &mut sink);
    same(
        &rt,
        (drawn, moved, places_of(&mut ctx)),
        (Ok(()), Ok(()), (3, 5)),
    );
    let filled = fills(&mut ctx);
    let moved = moves_on(&rt, &mut ctx, &mut sink);
    same(
        &rt,
        (filled, moved, places_of(&mut ctx)),
        (Ok(()), Ok(()), (8, 8)),
    );
    let moved = moves_on(&rt, &mut ctx, &mut sink);
    ctx.reset();
    let is_refused = was_refused(rt.alloc());
    let found = (moved, ctx.decoded_rows(), ctx.has_eols(), is_refused);
    same(&rt, found, (Err(Refused), 0, false, false));
}

#[test]
fn reach_without_memory(rt: HostRuntime) {
    let settings = settings_in(&rt, "Group3_2D 8 columns 0 rows l");
    let mut ctx = context_of(&rt, settings);
    let lines = bytes_of(&rt, "001CC005400398");
    refuse_request(rt.alloc(), 1);
    let reach = reach_of(&rt, HighestFirst, &lines, &mut ctx, 18);
    let step = step_of(&rt, HighestFirst, &lines, &mut ctx, 0);
    let is_refused = was_refused(rt.alloc());
    same(&rt, (reach, step, is_refused), (Some(2), None, false));
}

/// Decodes while the first allocation is to be refused, and none is made.
fn decodes_without_any(rt: &(impl Abort + AllocGlobal), words: &str, digits: &str, expected: &str) {
    let mut ctx = context_of(rt, settings_in(rt, words));
    let mut sink = sink_of(rt, 9);
    let data = bytes_of(rt, digits);
    let (found, is_refused) = decodes_without(rt, &mut ctx, &data, &mut sink, 1);
    same(rt, is_refused, false);
    let expected = joined(rt, expected);
    same_text(
        rt,
        digits,
        written(rt, &sink, found).as_str(),
        expected.as_str(),
    );
}

/// Data that paints no black pixel.
#[test]
fn white_rows_without_memory(rt: HostRuntime) {
    let cases = cases_of(
        &rt,
        "Group4 8 columns 3 rows | E0 | [[], [], []] Ok(1)
        Group4 4294967295 columns 0 rows b | 80080080 | [[]] Ok(4)
        Group3_1D 8 columns 0 rows b | 001980080080080080080080 | [[]] Ok(12)
        Group3_1D 8 columns 0 rows l | 0019800C000033 | [[], [], []] Ok(7)
        Group3_2D 8 columns 0 rows b | 001CC005001800C006003001800C | [[], []] Ok(14)",
    );
    for (settings, digits, expected) in &cases {
        decodes_without_any(&rt, settings, digits, expected);
    }
}

/// Passes on the rows of a feed while the allocation with this number is to be refused; a call that lacks memory is made again.
/// Returns what was passed on, and whether it was refused.
fn pushes_without(
    rt: &(impl Abort + AllocGlobal),
    settings: DecodeSettings,
    data: &[u8],
    number: usize,
) -> (String, bool)
    requires { number < 100 }
{
    let mut feed = RowFeed::new(rt.alloc(), BitOrder::HighestFirst, settings).expect(rt, "memory");
    let mut sink = sink_of(rt, 9);
    refuse_request(rt.alloc(), number);
    assert!(rt; !feed.is_finished());
    if feed.feed(data) == Err(OutOfMemory) {
        assert!(rt; !feed.is_finished());
        same(rt, feed.feed(data), Ok(()));
    }
    feed.finish();
    let mut fed = pushes_fed(&mut feed, &mut sink);
    if fed == Err(OutOfMemory) {
        fed = pushes_fed(&mut feed, &mut sink);
    }
    let is_refused = was_refused(rt.alloc());
    let text = written(rt, &sink, fed.map(|_| feed.bytes_read()));
    (text, is_refused)
}

/// Two rows, the second a copy, and three tagged lines, in one piece.
#[test]
fn pushed_rows_without_memory(rt: HostRuntime) {
    let cases = cases_of(
        &rt,
        "Group4 8 columns 2 rows | 31F8 | [[3, 5], [3, 5]] Ok(2)
        Group3_2D 8 columns 0 rows b | 001C70002E00231C006003001800C0060030 | [[3, 5], [3, 5], [3, 5]] Ok(18)",
    );
    for (words, digits, expected) in &cases {
        let (settings, data) = (settings_in(&rt, words), bytes_of(&rt, digits));
        let expected = joined(&rt, expected);
        for number in 1..MANY {
            let (found, is_refused) = pushes_without(&rt, settings, &data, number);
            same_text(&rt, digits, found.as_str(), expected.as_str());
            if !is_refused {
                break;
            }
        }
    }
}
