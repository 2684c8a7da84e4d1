//! Whether data conforms: what no clause says. The strips are libtiff's, from the corpus; the other data, and the places and rules of
//! violations, were worked out by hand from T.4 and T.6.

use crate::cases::bytes_of;
use crate::same;
use fax_conforms::{Grade, Rule, Violation, conforms, first_violation};
use hayro_ccitt::DecodeError::{OutOfMemory, Refused};
use hayro_ccitt::bit_reader::BitOrder;
use hayro_ccitt::bit_reader::BitOrder::{HighestFirst, LowestFirst};
use hayro_ccitt::codes::Ticks;
use hayro_ccitt::{DecodeError, DecodeSettings, EncodingMode, Result, bits_fit};
use std::alloc::{AllocGlobal, Global};
use std::process::Abort;
use test_allocations::made_at_last;

/// Returns the settings that words name: the encoding, the number of columns, the row limit, and a letter for each flag.
fn settings_named(
    rt: &impl Abort,
    encoding: &str,
    columns: &str,
    rows: &str,
    flags: &str,
) -> DecodeSettings {
    DecodeSettings {
        columns: columns.parse::<u32>().expect(rt, columns),
        rows: rows.parse::<u32>().expect(rt, rows),
        end_of_block: flags.contains('b'),
        end_of_line: flags.contains('l'),
        rows_are_byte_aligned: flags.contains('a'),
        encoding: match encoding {
            "g4" => EncodingMode::Group4,
            "1d" => EncodingMode::Group3_1D,
            _ => EncodingMode::Group3_2D,
        },
        strict: false,
    }
}

/// Returns the settings, the order of bits and the data that words name.
fn case_of(rt: &(impl Abort + AllocGlobal), case: &str) -> (DecodeSettings, BitOrder, Vec<u8>) {
    let mut words = case.split_whitespace();
    let encoding = words.next().expect(rt, case);
    let columns = words.next().expect(rt, case);
    let rows = words.next().expect(rt, case);
    let flags = words.next().expect(rt, case);
    let data = bytes_of(rt, words.next().expect(rt, case));
    let settings = settings_named(rt, encoding, columns, rows, flags);
    let order = if flags.contains('r') {
        LowestFirst
    } else {
        HighestFirst
    };
    (settings, order, data)
}

/// Writes whether data conforms, and where it first breaks a rule, and which.
fn written(rt: &(impl Abort + AllocGlobal), case: &str) -> String {
    let (settings, order, data) = case_of(rt, case);
    assert!(rt; bits_fit(&data), "too long");
    let mut ticks = Ticks::new();
    let grade = Grade::Readable;
    let holds = conforms(rt.alloc(), settings, grade, order, &data, &mut ticks).expect(rt, case);
    match first_violation(rt.alloc(), settings, grade, order, &data, &mut ticks).expect(rt, case) {
        None if holds => format!(in rt.alloc(); "conforms").expect(rt, case),
        None => format!(in rt.alloc(); "no violation").expect(rt, case),
        Some(found) => {
            format!(in rt.alloc(); "{holds} at {}: {:?}", found.place, found.rule).expect(rt, case)
        }
    }
}

/// Checks each line of a text: the settings and the data, and what is found.
fn check_each(rt: &(impl Abort + AllocGlobal), cases: &str) {
    for line in cases.lines() {
        let (case, expected) = line.trim().split_once(": ").expect(rt, line);
        let found = written(rt, case);
        same(rt, (case, found.as_str()), (case, expected));
    }
}

#[test]
fn strips_of_libtiff_conform(rt: HostRuntime) {
    check_each(
        &rt,
        "g4 1 60 - FD5D7FDAEFEBFBFFFD7FF7D77AEC004004: conforms
        g4 1 60 b FD5D7FDAEFEBFBFFFD7FF7D77AEC004004: conforms
        g4 1 60 r BFBAFE5BF7D7DFFFBFFEEFEB5E37000220: conforms
        g4 1 60 br BFBAFE5BF7D7DFFFBFFEEFEB5E37000220: conforms
        g4 1 60 - FD5D7FDAEFEBFBFFFD7FF7D77AEC004004: conforms
        g4 1 60 b FD5D7FDAEFEBFBFFFD7FF7D77AEC004004: conforms
        g4 1728 1 - 3B150D10010010: conforms
        g4 1728 1 b 3B150D10010010: conforms
        1d 1728 1 - 001D8A8684D4C0: conforms
        1d 1728 1 l 001D8A8684D4C0: conforms
        1d 1728 1 - 0001D8A8684D4C: conforms
        1d 1728 1 l 0001D8A8684D4C: conforms",
    );
}

#[test]
fn closed_and_limited_pictures_conform(rt: HostRuntime) {
    check_each(
        &rt,
        "g4 8 0 b 31C0040040: conforms
        g4 8 0 br 8C03200002: conforms
        g4 8 1 - 31C0: conforms
        1d 8 0 b 001980080080080080080080: conforms
        2d 8 0 b 001CC006003001800C006003: conforms
        2d 8 2 - CD: conforms",
    );
}

#[test]
fn each_rule_is_found_broken(rt: HostRuntime) {
    check_each(
        &rt,
        "g4 0 0 b -: false at 0: Columns
        g4 8 2 - 31C0040040: false at 10: Mode
        g4 1 0 b 10010010: false at 0: PassToEnd
        g4 8 1 - 2000: false at 3: Run
        1d 8 1 - A0: false at 0: RowEnd
        1d 8 1 - 80DC: false at 4: NoPixels
        g4 8 1 - 3182: false at 9: NoPixels
        g4 8 2 - 26A2A0: false at 17: NoPixels
        g4 8 2 a C0: false at 1: Padding
        1d 8 1 l 98: false at 0: Eol
        2d 8 1 l 0001: false at 16: Tag
        1d 8 0 b 00198008008008008008: false at 29: Run
        1d 8 2 - 0013514D400660: false at 26: Eol",
    );
}

/// Writes whether data is readable, whether it is what the coding procedure writes with this K, and where it first isn't.
fn grades(rt: &(impl Abort + AllocGlobal), k: Option<u32>, case: &str) -> String {
    let (settings, order, data) = case_of(rt, case);
    assert!(rt; bits_fit(&data), "too long");
    let mut ticks = Ticks::new();
    let readable = conforms(
        rt.alloc(),
        settings,
        Grade::Readable,
        order,
        &data,
        &mut ticks,
    )
    .expect(rt, case);
    let grade = Grade::Procedure(k);
    let by_procedure = conforms(rt.alloc(), settings, grade, order, &data, &mut ticks).expect(
        rt, case,
    );
    match first_violation(rt.alloc(), settings, grade, order, &data, &mut ticks).expect(rt, case) {
        None => format!(in rt.alloc(); "{readable} {by_procedure}").expect(rt, case),
        Some(found) => format!(in rt.alloc();
            "{readable} {by_procedure} at {}: {:?}",
            found.place, found.rule
        )
        .expect(rt, case),
    }
}

/// Checks each line of a text: the settings and the data, and in which grades it conforms.
fn check_grades(rt: &(impl Abort + AllocGlobal), k: Option<u32>, cases: &str) {
    for line in cases.lines() {
        let (case, expected) = line.trim().split_once(": ").expect(rt, line);
        let found = grades(rt, k, case);
        same(rt, (case, found.as_str()), (case, expected));
    }
}

#[test]
fn each_choice_of_the_procedure_is_checked(rt: HostRuntime) {
    check_grades(
        &rt,
        None,
        "1d 128 1 - 91A8: true true
        1d 128 1 - DECD40: true false at 1: Procedure
        g4 8 1 - 80: true true
        g4 8 1 - 330DC0: true false at 0: Procedure
        2d 8 1 - CC: true true
        2d 8 1 - 40: true false at 0: Kind
        2d 8 3 l 001400500140: true false at 12: Kind
        1d 8 0 b 001980080080080080080080: true true
        1d 8 0 b 000330001000100010001000100010: true false at 0: Fill
        1d 8 0 b 001980080008008008008008: true false at 29: Fill
        1d 8 1 l 000198: true false at 0: Fill
        g4 8 1 - 8000: true false at 1: End
        g4 8 1 - 81: true false at 1: End
        g4 8 1 b 80: true false at 1: End
        g4 8 0 b 80080080: true true
        g4 8 0 b 8008008000: true false at 25: End
        g4 8 2 - 31C0040040: false false at 10: Mode",
    );
    check_grades(&rt, Some(2), "2d 8 3 - CD40: true false at 8: Kind");
    check_grades(&rt, Some(3), "2d 8 3 - CD40: true true");
    check_grades(&rt, None, "2d 8 3 - CD40: true true");
}

/// Returns where data first breaks a rule, the place and the rule as `Debug` writes it.
fn found(
    rt: &(impl Abort + AllocGlobal),
    settings: DecodeSettings,
    order: BitOrder,
    data: &[u8],
) -> Option<(usize, Rule)> {
    assert!(rt; bits_fit(data), "too long");
    let mut ticks = Ticks::new();
    let grade = Grade::Readable;
    let found = first_violation(rt.alloc(), settings, grade, order, data, &mut ticks).expect(
        rt, "memory",
    );
    found.map(|violation| (violation.place, violation.rule))
}

/// Returns a copy of data with one bit flipped, counted from the highest one of the first byte.
fn flipped(rt: &(impl Abort + AllocGlobal), data: &[u8], bit: usize) -> Vec<u8> {
    let mut copy = data.to_vec(rt.alloc()).expect(rt, "memory");
    if let Some(byte) = copy.get_mut(bit / 8) {
        *byte ^= 128 >> (bit % 8);
    }
    copy
}

/// Checks a strip that conforms with each of its bits flipped in turn, and cut off before each byte. A violation is within the data,
/// and not before the words that have the bit: those of a run have at most 13 bits in a row of eight pixels, and 25 in one of 1728;
/// EOFB has 24, and RTC 78.
fn damages(rt: &(impl Abort + AllocGlobal), case: &str, longest: usize) {
    let (settings, order, data) = case_of(rt, case);
    same(rt, found(rt, settings, order, &data), None);
    for bit in 0..data.len().saturating_mul(8) {
        let damaged = flipped(rt, &data, bit);
        if let Some((place, _)) = found(rt, settings, order, &damaged) {
            let last = place.saturating_add(longest);
            assert!(rt;
                bit < last && place <= damaged.len().saturating_mul(8),
                "{bit}: {place}"
            );
        }
    }
    for left in 0..data.len() {
        if let Some((place, _)) = found(rt, settings, order, &data[..left]) {
            assert!(rt; place <= left.saturating_mul(8), "{left}: {place}");
        }
    }
}

#[test]
fn damaged_strips(rt: HostRuntime) {
    damages(&rt, "g4 8 1 - 31C0", 13);
    damages(&rt, "g4 1728 1 - 3B150D10", 25);
    damages(&rt, "1d 1728 1 l 001D8A8684D4C0", 25);
    damages(&rt, "g4 1728 1 b 3B150D10010010", 25);
    damages(&rt, "2d 8 0 b 001CC006003001800C006003", 78);
}

/// Returns whether an error is `OutOfMemory`.
fn is_want(error: &DecodeError) -> bool {
    matches!(error, OutOfMemory)
}

/// Returns where data first breaks a rule, and whether it conforms.
fn both(
    alloc: Global,
    settings: DecodeSettings,
    grade: Grade,
    order: BitOrder,
    data: &[u8],
) -> Result<(Option<Violation>, bool)> {
    if !bits_fit(data) {
        return Err(Refused);
    }
    let mut ticks = Ticks::new();
    let found = first_violation(alloc, settings, grade, order, data, &mut ticks)?;
    let holds = conforms(alloc, settings, grade, order, data, &mut ticks)?;
    Ok((found, holds))
}

/// Checks data with each allocation refused in turn, and compares what is found in the end.
fn found_with(rt: &(impl Abort + AllocGlobal), grade: Grade, case: &str, expected: &str) {
    let (settings, order, data) = case_of(rt, case);
    let made = made_at_last(
        rt.alloc(),
        &|| both(rt.alloc(), settings, grade, order, &data),
        &is_want,
    );
    let made = format!(in rt.alloc(); "{made:?}").expect(rt, "memory");
    same(rt, (case, made.as_str()), (case, expected));
}

#[test]
fn refused_memory(rt: HostRuntime) {
    let by_procedure = Grade::Procedure(None);
    found_with(&rt, Grade::Readable, "g4 8 1 - 31C0", "Ok((None, true))");
    found_with(
        &rt,
        Grade::Readable,
        "g4 8 2 - 31C0040040",
        "Ok((Some(Violation { place: 10, rule: Mode }), false))",
    );
    found_with(&rt, by_procedure, "g4 8 1 - 31C0", "Ok((None, true))");
    found_with(
        &rt,
        by_procedure,
        "g4 8 1 - 330DC0",
        "Ok((Some(Violation { place: 0, rule: Procedure }), false))",
    );
}
