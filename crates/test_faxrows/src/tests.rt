use fax_program::{Device, RunFault};
use faxrows_lib::{
    Done, TextSink, run, run_by_procedure, run_by_row, run_check, run_damage, run_packed,
};
use std::alloc::AllocGlobal;
use std::fmt::Debug;
use std::io;
use std::io::{Read, Write};
use std::process::Abort;
use test_allocations::{refuse_request, was_refused};

/// Compares two values. The proof of this call takes no time, and that of `assert_eq!` seconds.
pub(crate) fn same<T: PartialEq + Debug + Drop>(rt: &impl Abort, found: T, expected: T) {
    assert_eq!(rt; found, expected);
}

/// The calls of a device: how many were made, the first that fails, and the first after it that doesn't.
#[derive(Drop)]
struct Calls {
    made: usize,
    fail_from: usize,
    fail_until: usize,
}

impl Calls {
    /// Counts a call, and returns whether it fails.
    fn fails(&mut self) -> bool {
        let call = self.made;
        self.made = call.saturating_add(1);
        self.fail_from <= call && call < self.fail_until
    }
}

/// A reader that supplies one byte a read, and fails at some reads.
#[derive(Drop)]
struct Dripping {
    bytes: Vec<u8>,
    place: usize,
    calls: Calls,
}

impl Read for Dripping {
    fn read(&mut self, buf: &mut [u8]) -> io::Result<usize> {
        if self.calls.fails() {
            return Err(io::Error::from(io::ErrorKind::Other));
        }
        if buf.is_empty() {
            return Ok(0);
        }
        let Some(byte) = self.bytes.get(self.place) else {
            return Ok(0);
        };
        buf[0] = *byte;
        self.place += 1;
        Ok(1)
    }
}

/// A writer that accepts one byte a write, and at some writes fails, or accepts nothing.
#[derive(Drop)]
struct Choking {
    bytes: Vec<u8>,
    calls: Calls,
    stalls: bool,
}

impl Write for Choking {
    fn write(&mut self, buf: &[u8]) -> io::Result<usize> {
        let Some(byte) = buf.first() else {
            return Ok(0);
        };
        if self.calls.fails() {
            if self.stalls {
                return Ok(0);
            }
            return Err(io::Error::from(io::ErrorKind::Other));
        }
        if self.bytes.push(*byte).is_err() {
            return Err(io::Error::from(io::ErrorKind::OutOfMemory));
        }
        Ok(1)
    }

    fn flush(&mut self) -> io::Result<()> {
        Ok(())
    }
}

/// Returns a writer with room for the texts of the tests, which allocates nothing for them.
fn writer_that_fails(
    rt: &(impl Abort + AllocGlobal),
    fail_from: usize,
    fail_until: usize,
    stalls: bool,
) -> Device<Choking> {
    let bytes = Vec::with_capacity(rt.alloc(), 128).expect(rt, "memory");
    let calls = Calls {
        made: 0,
        fail_from,
        fail_until,
    };
    Device::new(Choking {
        bytes,
        calls,
        stalls,
    })
}

/// Splits a line at its spaces.
fn words_of(rt: &(impl Abort + AllocGlobal), line: &str) -> Vec<String> {
    let mut words = Vec::new(rt.alloc());
    for word in line.split(' ') {
        let word = String::from_str(rt.alloc(), word).expect(rt, "memory");
        words.push(word).expect(rt, "memory");
    }
    words
}

/// Returns the bytes that hexadecimal digits write, two each.
fn bytes_of(rt: &(impl Abort + AllocGlobal), digits: &str) -> Vec<u8> {
    let mut bytes = Vec::new(rt.alloc());
    let mut high = None;
    for digit in digits.chars() {
        let value = digit.to_digit(16).expect(rt, digits) as u8;
        high = match high {
            None => Some(value << 4),
            Some(half) => {
                bytes.push(half | value).expect(rt, "memory");
                None
            }
        };
    }
    assert!(rt; high.is_none(), "half a byte");
    bytes
}

/// Makes the run of this name.
fn made<R: Read, W: Write>(
    rt: &(impl Abort + AllocGlobal),
    name: &str,
    words: &[String],
    reader: &mut Device<R>,
    writer: &mut Device<W>,
) -> Result<Done, RunFault> {
    let alloc = rt.alloc();
    match name {
        "run" => run(alloc, words, reader, writer),
        "run_by_row" => run_by_row(alloc, words, reader, writer),
        "run_by_procedure" => run_by_procedure(alloc, words, reader, writer),
        "run_check" => run_check(alloc, words, reader, writer),
        "run_damage" => run_damage(alloc, words, reader, writer),
        "run_packed" => match run_packed(alloc, words, reader, writer)? {
            Ok(()) => Ok(Done::Good),
            Err(_) => Ok(Done::Faulty),
        },
        _ => panic!(rt; "no run is named {name}"),
    }
}

/// Writes how a run ended, and what it wrote, as `Debug` writes them.
fn reported(
    rt: &(impl Abort + AllocGlobal),
    answer: Result<Done, RunFault>,
    written: &[u8],
) -> String {
    let text = str::from_utf8(written).expect(rt, "no text was written");
    format!(in rt.alloc(); "{answer:?} {text:?}").expect(rt, "memory")
}

/// Makes a run over bytes, and writes how it ended, and what it wrote.
fn ran(rt: &(impl Abort + AllocGlobal), name: &str, line: &str, input: &[u8]) -> String {
    let words = words_of(rt, line);
    let mut reader = Device::new(input);
    let mut writer = Device::new(Vec::new(rt.alloc()));
    let answer = made(rt, name, &words, &mut reader, &mut writer);
    reported(rt, answer, &writer.into_inner())
}

/// Makes the run of this name for each line of a text: the arguments, a colon, the input in hexadecimal digits, a colon, and how
/// the run ends and what it writes, as `Debug` writes them. A line that begins with `//` is a comment. The proof of a test takes
/// time by the size of its body, and a text is one value.
fn check(rt: &(impl Abort + AllocGlobal), name: &str, cases: &str) {
    for case in cases.lines() {
        let case = case.trim_start();
        if !case.is_empty() && !case.starts_with("//") {
            let (line, rest) = case.split_once(": ").expect(rt, case);
            let (digits, expected) = rest.split_once(": ").expect(rt, case);
            let found = ran(rt, name, line, &bytes_of(rt, digits));
            same(rt, (name, line, found.as_str()), (name, line, expected));
        }
    }
}

/// Two runs over three rows, the second of which is damaged; in the second run a bit, an EOL and a white line follow.
const DAMAGED_ROWS: &str = "
    1d 8 0 l: 0019800C400033: Ok(Good) \"damaged 1 29 invalid CCITT code sequence\\nok 3 1 7\\n\"
    1d 8 4 l: 0019800C400033800CC0: Ok(Good) \"damaged 1 29 invalid CCITT code sequence\\nmissed 2 56\\n\
        ok 4 1 10\\n\"
";

#[test]
fn writes_damage(rt: HostRuntime) {
    check(&rt, "run_damage", DAMAGED_ROWS);
    check(
        &rt,
        "run_damage",
        r#"
        1d 8 0 ls: 0019800C400033: Ok(Faulty) "error 1 29 invalid CCITT code sequence\n"
        1d 8 0 ls: 0019CC: Ok(Faulty) "error 1 17 invalid CCITT code sequence\n"
        1d 8 1 l: 0019800C400033: Ok(Good) "ok 1 0 4\n"
        1d 8 0 l: 0019CC: Ok(Faulty) "missed 0 17\nerror 2 22 unexpected end of input\n"
        // An EOL, a white line, a bit, and RTC.
        1d 8 0 lb: 0019C0040040040040040040: Ok(Good) "missed 0 17\nok 1 0 12\n"
        g4 8 2 -: 31F8: Ok(Good) "ok 2 0 2\n"
        2d 8 0 l: : Ok(Good) "damaged 0 0 unexpected end of input\nok 1 1 0\n"
        2d 8 0 -: : Ok(Faulty) "error 0 0 unexpected end of input\n"
        // A run of ten in eight columns is cut.
        1d 8 1 l: 001380: Ok(Good) "cut 0 12\nok 1 0 3\n"
        // In no columns nothing is read.
        g4 0 0 -: 80: Ok(Good) "ok 0 0 0\n"
        "#,
    );
}

#[test]
fn checks_each_rule(rt: HostRuntime) {
    check(
        &rt,
        "run_check",
        r#"
        g4 8 0 b: 31C0040040: Ok(Good) "ok\n"
        g4 8 0 br: 8C03200002: Ok(Good) "ok\n"
        g4 8 0 bs: 31C0040040: Ok(Good) "ok\n"
        // What follows the last row or EOFB is ignored.
        g4 8 1 -: 31C0FF: Ok(Good) "ok\n"
        // Nothing closes the picture.
        g4 8 0 -: 31C0: Ok(Faulty) "violation 10 a mode is expected (T.4, 4.2.1.3)\n"
        g4 8 1 -: 2000: Ok(Faulty) "violation 3 a run is expected (T.4, 4.1.1)\n"
        1d 8 1 -: A0: Ok(Faulty) "violation 0 beyond the row's end (T.4, 4.1.1 and 4.2.1.3)\n"
        1d 8 1 -: 80DC: Ok(Faulty) "violation 4 no pixels (T.4, 4.1.1 and 4.2.1.3)\n"
        g4 0 0 b: : Ok(Faulty) "violation 0 no columns\n"
        1d 8 1 l: 98: Ok(Faulty) "violation 0 an EOL is expected (T.4, 4.1.2)\n"
        2d 8 1 l: 0001: Ok(Faulty) "violation 16 a tag is expected (T.4, 4.2.2)\n"
        g4 8 2 a: C0: Ok(Faulty) "violation 1 zeros up to a whole byte are expected (T.4, 4.1.3)\n"
        g4 1 0 b: 10010010: Ok(Faulty) "violation 0 pass mode to the row's end (T.4, 4.2.1.3.2)\n"
        g4 8 1 bb: 31C0: Err(BadArguments) ""
        "#,
    );
}

#[test]
fn checks_by_the_procedure(rt: HostRuntime) {
    check(
        &rt,
        "run_by_procedure",
        r#"
        g4 8 0 b: 31C0040040: Ok(Good) "ok\n"
        // What every decoder must read breaks a rule first.
        g4 8 2 -: 330DC0: Ok(Faulty) "violation 18 a mode is expected (T.4, 4.2.1.3)\n"
        g4 8 1 -: 330DC0: Ok(Faulty) "violation 0 not what the coding procedure writes (T.4, 4.1.1 and 4.2.1.3; T.6, 2.2)\n"
        1d 8 0 b: 000330001000100010001000100010: Ok(Faulty) "violation 0 fill where none may be (T.4, 4.1.3 and 4.1.4)\n"
        g4 8 1 -: 31C0FF: Ok(Faulty) "violation 10 not the end that the coding procedure writes (T.4, 4.1.4; T.6, 2.4.1.1)\n"
        // Two lines after a one-dimensional one are two-dimensional.
        2d 8 3 -: CD40: Ok(Good) "ok\n"
        2d 8 3 - 3: CD40: Ok(Good) "ok\n"
        2d 8 3 - 2: CD40: Ok(Faulty) "violation 8 a two-dimensional line where none may be (T.4, 4.2.1)\n"
        2d 8 3 - 0: CD40: Err(BadArguments) ""
        2d 8 3 - 2 2: CD40: Err(BadArguments) ""
        "#,
    );
}

/// Runs that write rows, of which each is made at once and row by row.
const ROWS: &str = r#"
    g4 8 1 -: 31C0: Ok(Good) "r 3 5\nok 2\n"
    g4 0000000008 1 -: 31C0: Ok(Good) "r 3 5\nok 2\n"
    g4 8 0000000001 -: 31C0: Ok(Good) "r 3 5\nok 2\n"
    g4 0 0 -: 31C0: Ok(Good) "ok 0\n"
    1d 8 0 l: 0019800C700033: Ok(Good) "r\nr 3 5\nr\nok 7\n"
    1d 8 0 s: 001980: Ok(Faulty) "r\nerror: invalid CCITT code sequence\n"
    2d 8 1 sal: CC: Ok(Good) "r\nok 1\n"
    g4 8 1 r: 8C03: Ok(Good) "r 3 5\nok 2\n"
    1d 8 0 rl: 009801300E00CC: Ok(Good) "r\nr 3 5\nr\nok 7\n"
    g4 8 0 sr: 04: Ok(Faulty) "error: unexpected end of input\n"
    g4 8 0 -: 80: Ok(Faulty) "r\nerror: invalid CCITT code sequence\n"
    g4 8 0 s: 20: Ok(Faulty) "error: unexpected end of input\n"
"#;

#[test]
fn writes_rows_and_the_outcome(rt: HostRuntime) {
    check(&rt, "run", ROWS);
    check(&rt, "run_by_row", ROWS);
}

#[test]
fn writes_a_bitmap_in_either_order(rt: HostRuntime) {
    check(
        &rt,
        "run_packed",
        r#"
        g4 8 1 -: 31C0: Ok(Good) "\u{18}"
        g4 8 1 r: 8C03: Ok(Good) "\u{18}"
        "#,
    );
}

/// Arguments that mean something, one list a line.
const GOOD_WORDS: &str = "g4 8 2 asbl
g4 8 2 blas
g4 8 2 b
g4 8 2 sa
g4 8 2 r
g4 8 2 brals
1d 8 2 -
2d 8 2 bls
g4 4294967295 1 -
g4 8 4294967295 -";

#[test]
fn knows_good_words(rt: HostRuntime) {
    for line in GOOD_WORDS.lines() {
        let found = ran(&rt, "run", line, &[]);
        assert!(&rt; !found.as_str().contains("BadArguments"), "{line}");
    }
}

/// Runs whose arguments mean nothing. The first has one empty argument, and others end in a space, before an empty argument.
const BAD_WORDS: &str = r#"
    : 31C0: Err(BadArguments) ""
    g4: 31C0: Err(BadArguments) ""
    g4 8 1: 31C0: Err(BadArguments) ""
    g4 8 1 - -: 31C0: Err(BadArguments) ""
    3d 8 1 -: 31C0: Err(BadArguments) ""
    1D 8 1 -: 31C0: Err(BadArguments) ""
    1 8 1 -: 31C0: Err(BadArguments) ""
    G4 8 1 -: 31C0: Err(BadArguments) ""
    g4 00000000008 1 -: 31C0: Err(BadArguments) ""
    g4 8 00000000001 -: 31C0: Err(BadArguments) ""
    g4 4294967296 1 -: 31C0: Err(BadArguments) ""
    g4 8 4294967296 -: 31C0: Err(BadArguments) ""
    g4 9999999999 1 -: 31C0: Err(BadArguments) ""
    g4 +8 1 -: 31C0: Err(BadArguments) ""
    g4 -8 1 -: 31C0: Err(BadArguments) ""
    g4  1 -: 31C0: Err(BadArguments) ""
    g4 8x 1 -: 31C0: Err(BadArguments) ""
    g4 8 1 : 31C0: Err(BadArguments) ""
    g4 8 1 bb: 31C0: Err(BadArguments) ""
    g4 8 1 bsb: 31C0: Err(BadArguments) ""
    g4 8 1 x: 31C0: Err(BadArguments) ""
    g4 8 1 rr: 31C0: Err(BadArguments) ""
    g4 8 1 rbr: 31C0: Err(BadArguments) ""
    g4 8 1 R: 31C0: Err(BadArguments) ""
    g4 8 1 bx: 31C0: Err(BadArguments) ""
    g4 8 1 b-: 31C0: Err(BadArguments) ""
    g4 8 1 --: 31C0: Err(BadArguments) ""
"#;

#[test]
fn knows_bad_words(rt: HostRuntime) {
    check(&rt, "run", BAD_WORDS);
    check(&rt, "run_by_row", BAD_WORDS);
}

/// Makes a run with a reader that supplies one byte a read and fails at some reads, and compares how it ends, what it writes, and
/// how many bytes were read.
fn reads(
    rt: &(impl Abort + AllocGlobal),
    name: &str,
    line: &str,
    input: Vec<u8>,
    fails: (usize, usize),
    expected: (&str, usize),
) {
    let words = words_of(rt, line);
    let mut reader = Device::new(Dripping {
        bytes: input,
        place: 0,
        calls: Calls {
            made: 0,
            fail_from: fails.0,
            fail_until: fails.1,
        },
    });
    let mut writer = Device::new(Vec::new(rt.alloc()));
    let answer = made(rt, name, &words, &mut reader, &mut writer);
    let found = reported(rt, answer, &writer.into_inner());
    same(rt, (found.as_str(), reader.into_inner().place), expected);
}

/// Makes a run with a reader that fails at a read, once or for ever, and compares as [`reads`] does.
fn fails_at_read(
    rt: &(impl Abort + AllocGlobal),
    name: &str,
    line: &str,
    digits: &str,
    from: usize,
    expected: (&str, usize),
) {
    for until in [from.saturating_add(1), usize::MAX] {
        let input = bytes_of(rt, digits);
        reads(rt, name, line, input, (from, until), expected);
    }
}

#[test]
fn fails_at_each_read(rt: HostRuntime) {
    for from in 0..3usize {
        let failed = (r#"Err(Read) """#, from);
        fails_at_read(&rt, "run", "g4 8 1 -", "31C0", from, failed);
    }
    for from in 3..5usize {
        let good = (r#"Ok(Good) "r 3 5\nok 2\n""#, 2);
        fails_at_read(&rt, "run", "g4 8 1 -", "31C0", from, good);
    }
}

/// How a run row by row over three rows of one, two and one bytes ends, and what it writes, if it fails at each read in turn.
const ROWS_BEFORE_A_FAULT: &str = r#"
    Err(Read) ""
    Err(Read) ""
    Err(Read) "r 3 5\n"
    Err(Read) "r 3 5\nr 3 5\n"
    Err(Read) "r 3 5\nr 3 5\nr 3 5\n"
    Ok(Good) "r 3 5\nr 3 5\nr 3 5\nok 4\n"
"#;

/// Row by row each row is written before more is read.
#[test]
fn writes_rows_before_a_read_fails(rt: HostRuntime) {
    let mut from = 0usize;
    for outcome in ROWS_BEFORE_A_FAULT.trim().lines() {
        let expected = (outcome.trim_start(), from.min(4));
        fails_at_read(&rt, "run_by_row", "g4 8 0 a", "31C0E0E0", from, expected);
        from = from.saturating_add(1);
    }
    same(&rt, from, 6);
}

/// Runs row by row, each with the number of bytes that are read: none after EOFB, or after one that shows that no EOFB follows the
/// last row; none at all without columns.
const READ_SO_FAR: &str = r#"
    g4 8 0 b: 31C0040040FFFF: Ok(Good) "r 3 5\nok 5\n": 5
    g4 8 1 -: 31C0FFFF: Ok(Good) "r 3 5\nok 2\n": 3
    g4 8 0 b: 31C0: Ok(Faulty) "r 3 5\nerror: invalid CCITT code sequence\n": 2
    g4 0 0 -: 31C0: Ok(Good) "ok 0\n": 0
    1d 8 0 l: 0019800C700033: Ok(Good) "r\nr 3 5\nr\nok 7\n": 7
    g4 8 0 s: 20: Ok(Faulty) "error: unexpected end of input\n": 1
"#;

#[test]
fn reads_no_more_than_the_image(rt: HostRuntime) {
    for case in READ_SO_FAR.trim().lines() {
        let (line, rest) = case.trim_start().split_once(": ").expect(&rt, case);
        let (digits, rest) = rest.split_once(": ").expect(&rt, case);
        let (reported, read) = rest.rsplit_once(": ").expect(&rt, case);
        let read = read.parse().expect(&rt, case);
        let input = bytes_of(&rt, digits);
        reads(
            &rt,
            "run_by_row",
            line,
            input,
            (usize::MAX, usize::MAX),
            (reported, read),
        );
    }
}

/// Makes a run with a writer that fails or stalls at some writes, and compares how it ends, what it writes, and how many writes
/// it tried.
fn writes(
    rt: &(impl Abort + AllocGlobal),
    name: &str,
    line: &str,
    input: &[u8],
    writer: Device<Choking>,
    expected: (&str, usize),
) {
    let words = words_of(rt, line);
    let mut reader = Device::new(input);
    let mut writer = writer;
    let answer = made(rt, name, &words, &mut reader, &mut writer);
    let writer: Choking = writer.into_inner();
    let found = reported(rt, answer, &writer.bytes);
    same(
        rt,
        (name, line, found.as_str(), writer.calls.made),
        (name, line, expected.0, expected.1),
    );
}

/// Makes a run with a writer that fails once, for ever, or stalls, at each write in turn.
fn fails_at_writes(
    rt: &(impl Abort + AllocGlobal),
    name: &str,
    line: &str,
    digits: &str,
    text: &str,
) {
    let input = bytes_of(rt, digits);
    for from in 0..100usize {
        let front = text.as_bytes().get(..from).unwrap_or(text.as_bytes());
        let answer = if from < text.len() {
            Err(RunFault::Write)
        } else {
            Ok(Done::Good)
        };
        let reported = reported(rt, answer, front);
        let expected = (reported.as_str(), text.len().min(from + 1));
        writes(
            rt,
            name,
            line,
            &input,
            writer_that_fails(rt, from, from + 1, false),
            expected,
        );
        writes(
            rt,
            name,
            line,
            &input,
            writer_that_fails(rt, from, usize::MAX, false),
            expected,
        );
        writes(
            rt,
            name,
            line,
            &input,
            writer_that_fails(rt, from, from + 1, true),
            expected,
        );
    }
}

#[test]
fn fails_at_each_write(rt: HostRuntime) {
    fails_at_writes(&rt, "run", "g4 8 1 -", "31C0", "r 3 5\nok 2\n");
    fails_at_writes(&rt, "run_by_row", "g4 8 1 -", "31C0", "r 3 5\nok 2\n");
    fails_at_writes(
        &rt,
        "run_damage",
        "1d 8 0 l",
        "0019800C400033",
        "damaged 1 29 invalid CCITT code sequence\nok 3 1 7\n",
    );
    fails_at_writes(&rt, "run_check", "g4 8 0 b", "31C0040040", "ok\n");
}

/// Compares the text of a fault, plain and where it is given a width, which it ignores.
fn says(rt: &(impl Abort + AllocGlobal), fault: RunFault, text: &str) {
    let said = format!(in rt.alloc(); "{fault}, {fault:>20}").expect(rt, "memory");
    same(rt, said.as_str(), text);
}

#[test]
fn prints_faults(rt: HostRuntime) {
    says(&rt, RunFault::BadArguments, "bad arguments, bad arguments");
    says(&rt, RunFault::Read, "cannot read, cannot read");
    says(&rt, RunFault::Memory, "out of memory, out of memory");
    says(&rt, RunFault::TooLong, "input too long, input too long");
    says(&rt, RunFault::Write, "cannot write, cannot write");
}

#[test]
fn sink_without_memory(rt: HostRuntime) {
    refuse_request(rt.alloc(), 1);
    let sink = TextSink::new(rt.alloc());
    assert!(rt; !was_refused(rt.alloc()));
    same(&rt, sink.text(), [0u8; 0].as_slice());
}

/// Makes a run with each allocation refused in turn. How it ends and what it writes is each time a line of a text.
fn in_want(rt: &(impl Abort + AllocGlobal), name: &str, line: &str, digits: &str, outcomes: &str) {
    let words = words_of(rt, line);
    let input = bytes_of(rt, digits);
    for number in 1..20usize {
        let mut reader = Device::new(input.as_slice());
        let mut writer = writer_that_fails(rt, usize::MAX, usize::MAX, false);
        refuse_request(rt.alloc(), number);
        let answer = made(rt, name, &words, &mut reader, &mut writer);
        let _ = was_refused(rt.alloc());
        let found = reported(rt, answer, &writer.into_inner().bytes);
        assert!(rt; outcomes.contains(found.as_str()), "{number}: {found}");
    }
}

/// A run without the memory to begin writes nothing, one without that for a row writes the rows before it, and one without that
/// for a piece of text writes all of it.
#[test]
fn refused_memory_by_row(rt: HostRuntime) {
    in_want(
        &rt,
        "run_by_row",
        "g4 8 2 -",
        "31F8",
        r#"
        Ok(Good) "r 3 5\nr 3 5\nok 2\n"
        Ok(Memory) "error: out of memory\n"
        Ok(Memory) "r 3 5\nerror: out of memory\n"
        Err(Memory) ""
        "#,
    );
}

/// A run without the memory to begin writes nothing, one without that for the second row reports it, and one without that for a
/// piece of text writes all of it.
#[test]
fn refused_memory_of_damage(rt: HostRuntime) {
    in_want(
        &rt,
        "run_damage",
        "1d 8 0 l",
        "0019800C400033",
        r#"
        Ok(Good) "damaged 1 29 invalid CCITT code sequence\nok 3 1 7\n"
        Ok(Memory) "error 1 29 out of memory\n"
        Err(Memory) ""
        "#,
    );
}

/// A run without the memory to check the data writes nothing, and one without that for a piece of text writes all of it.
#[test]
fn refused_memory_of_checks(rt: HostRuntime) {
    in_want(
        &rt,
        "run_check",
        "g4 8 0 -",
        "31C0",
        r#"
        Ok(Faulty) "violation 10 a mode is expected (T.4, 4.2.1.3)\n"
        Err(Memory) ""
        "#,
    );
}
