//! A line that is read a word at a time and not drawn: whether the data ends within it.

ghost use Rattle.std.specs.Prelude.{◌≡◌, ◌≢◌, ◌≤◌, ◌<◌, ◌+◌, ◌*◌, true, false, length, IfSome, IfNone, Err, None, [], not, pos};
ghost use Rattle.fax_bits.specs.Bits.{Bits, here};
ghost use Rattle.fax_reading.specs.Context.{ArePassed, right_of_painted};
ghost use Rattle.fax_reading.specs.Continuations.{is_short};
ghost use Rattle.fax_bits.specs.Faults.{misses_end};
ghost use Rattle.fax_feeds.specs.LineParts.{ContinuesLine, CountsMode, GoesOnByMode, IsInRun, IsLawfulPart, IsPartOf, Leads};
ghost use Rattle.fax_feeds.specs.LineParts.{OnlyPaints, PaintsTo, PassesRun};
ghost use Rattle.fax_feeds.specs.LineParts.{ReadsWord, StepsInRun, first_kept, is_missing, left_to_read, pen_of_part};
ghost use Rattle.fax_feeds.specs.LineParts.{run_of_part};
ghost use Rattle.fax_reading.specs.LinesGoOn.{OpenRun, word_added};
ghost use Rattle.fax_reading.specs.PlainReading.{line_here};
ghost use Rattle.fax_reading.specs.Rows.{Row, b1, b2, changes, opposite, paint, too_many_pixels};
ghost use Rattle.fax_bits.specs.CodeReading.{read_code};
ghost use Rattle.fax_bits.specs.ReaderSteps.{Reads};
ghost use Rattle.fax_bits.specs.Runs.{codes_of};
ghost use Rattle.fax_lines.specs.ContextSteps.{PassesChanges};

use fax_bits::bit_reader::{BitReader, BitScanner};
use fax_bits::codes::{Color, Mode};
use fax_bits::{DecodeError, DecodeSettings, EncodingMode, Result};
use fax_lines::changes::{b1_index, change_or_end, vertical_place};
use fax_lines::context::{DecoderContext, reading_parts};

/// Where in a line its next word begins. Of its front only the number of pixels is kept.
#[derive(Clone, Copy)]
pub(crate) struct KeptPart {
    is_2d: bool,
    /// Whether a run goes on; if not, a mode is next, or a run of a one-dimensional line.
    in_run: bool,
    /// Whether another run follows that one in its horizontal mode.
    another: bool,
    /// The colour of the next pixels.
    color: Color,
    /// The sum of the run's words so far.
    total: u32,
    painted: u32,
    /// How many changes of the reference row are known not to be right of a0.
    passed: usize,
}

/// What a word of a line leads to.
pub(crate) enum Word {
    /// The line goes on after it.
    GoesOn,
    /// The data ends before the word does.
    Missing,
    /// The line ends with it: the row is full, or the word is wrong.
    Ends,
}

/// Counts pixels as painted, as many as the row has room for. Returns false if strict data has more.
#[inline(always)]
fn paint(part: &mut KeptPart, settings: DecodeSettings, count: u32) -> bool
    requires { part.old.painted ≤ settings.columns }
    ensures painted { result ≡ true → (front : Row) → length front ≡ part.old.painted
        → PaintsTo settings front part.old.color count part.new.painted }
    ensures too_many { result ≡ false → (front : Row) → length front ≡ part.old.painted
        → paint settings.strict settings.columns front part.old.color count ≡ Err too_many_pixels }
    ensures frame { part.new ≡ record part.old { painted = part.new.painted } }
    ensures onward { part.old.painted ≤ part.new.painted }
    ensures within { part.new.painted ≤ settings.columns }
{
    let room = settings.columns - part.painted;
    if count <= room {
        part.painted += count;
        return true;
    }
    if settings.strict {
        return false;
    }
    part.painted = settings.columns;
    true
}

/// Returns what a word leads to that is read with this error.
#[inline(always)]
fn word_of_fault(error: DecodeError) -> Word
    ensures missing { is_missing result ≡ misses_end error }
    ensures ends { result ≢ Word.GoesOn }
{
    if matches!(error, DecodeError::UnexpectedEof) {
        Word::Missing
    } else {
        Word::Ends
    }
}

/// Reads a word of a run of a colour without drawing it.
#[inline(always)]
fn read_word(ctx: &mut DecoderContext, color: Color, reader: &mut BitScanner<'_>) -> Result<u16>
    ensures word { Reads (read_code (codes_of color)) reader.old reader.new result }
    ensures same_bits { reader.new.bits ≡ reader.old.bits }
    ensures onward { reader.old.place ≤ reader.new.place }
    ensures lacking { result ≡ Err DecodeError.UnexpectedEof → reader.new ≡ reader.old }
    ensures frame { ctx.new ≡ record ctx.old { ticks = ctx.old.ticks + 1 } }
{
    let (_, tables, ticks) = reading_parts(ctx);
    reader.read_word(color, tables, ticks)
}

/// Returns b1 and b2 of a row of which this many pixels are painted, and whose next ones have this colour (T.4, 4.2.1.1).
/// `passed` is how many changes of the reference row are known not to be right of a0; afterwards it is the number of all such
/// changes.
#[inline(always)]
fn places_after(
    ctx: &mut DecoderContext,
    painted: u32,
    color: Color,
    passed: &mut usize,
) -> (u32, u32)
    requires { ArePassed (changes ctx.old.held.reference) painted passed.old }
    ensures b1 { result.0 ≡ b1 ctx.old.held.reference (right_of_painted painted) color }
    ensures b2 { result.1 ≡ b2 ctx.old.held.reference (right_of_painted painted) color }
    ensures within { result.0 ≤ ctx.old.held.settings.columns }
    ensures onward { painted ≤ ctx.old.held.settings.columns → painted ≤ result.0 }
    ensures passes { PassesChanges (changes ctx.old.held.reference) painted passed.old passed.new ctx.old.ticks
        ctx.new.ticks }
    ensures frame { ctx.new ≡ record ctx.old { ticks = ctx.new.ticks } }
{
    let columns = ctx.settings().columns;
    let (reference, _, ticks) = reading_parts(ctx);
    let index = b1_index(reference, painted, color, columns, passed, ticks);
    (
        change_or_end(reference, index, columns),
        change_or_end(reference, index + 1, columns),
    )
}

/// Goes on after a pass: the colour continues to below b2 (T.4, 4.2.1.3).
#[inline(always)]
fn pass(ctx: &mut DecoderContext, part: &mut KeptPart) -> Word
    requires lawful { IsLawfulPart ctx.old.held.settings ctx.old.held.reference part.old }
    requires run { part.old.in_run ≡ false }
    requires mode { part.old.is_2d ≡ true }
    ensures goes { GoesOnByMode Mode.Pass ctx.old.held part.old part.new result }
    ensures counts { CountsMode part.old part.new ctx.old ctx.new }
    ensures known { result ≢ Word.Missing }
{
    let (_, b2) = places_after(ctx, part.painted, part.color, &mut part.passed);
    if !paint(part, ctx.settings(), b2.saturating_sub(part.painted)) {
        return Word::Ends;
    }
    Word::GoesOn
}

/// Goes on after a vertical mode: the colour turns this far from b1 (T.4, 4.2.1.3).
#[inline(always)]
fn turn(ctx: &mut DecoderContext, part: &mut KeptPart, offset: i8) -> Word
    requires lawful { IsLawfulPart ctx.old.held.settings ctx.old.held.reference part.old }
    requires run { part.old.in_run ≡ false }
    requires mode { part.old.is_2d ≡ true }
    ensures goes { GoesOnByMode (Mode.Vertical offset) ctx.old.held part.old part.new result }
    ensures counts { CountsMode part.old part.new ctx.old ctx.new }
    ensures known { result ≢ Word.Missing }
{
    let (b1, _) = places_after(ctx, part.painted, part.color, &mut part.passed);
    let Some(place) = vertical_place(b1, part.painted, offset) else {
        return Word::Ends;
    };
    if !paint(part, ctx.settings(), place - part.painted) {
        return Word::Ends;
    }
    part.color = part.color.opposite();
    Word::GoesOn
}

/// Goes on after V0: the colour turns at b1 (T.4, 4.2.1.3), which is in the row and not left of a0.
#[inline(always)]
fn turn_below(ctx: &mut DecoderContext, part: &mut KeptPart)
    requires lawful { IsLawfulPart ctx.old.held.settings ctx.old.held.reference part.old }
    requires run { part.old.in_run ≡ false }
    requires mode { part.old.is_2d ≡ true }
    ensures goes { GoesOnByMode (Mode.Vertical (pos 0)) ctx.old.held part.old part.new Word.GoesOn }
    ensures counts { CountsMode part.old part.new ctx.old ctx.new }
{
    let (b1, _) = places_after(ctx, part.painted, part.color, &mut part.passed);
    part.painted = b1;
    part.color = part.color.opposite();
}

/// Goes on after a mode (T.4, 4.2.1.3).
#[inline(always)]
fn add_mode(ctx: &mut DecoderContext, part: &mut KeptPart, mode: Mode) -> Word
    requires lawful { IsLawfulPart ctx.old.held.settings ctx.old.held.reference part.old }
    requires run { part.old.in_run ≡ false }
    requires mode { part.old.is_2d ≡ true }
    ensures goes { GoesOnByMode mode ctx.old.held part.old part.new result }
    ensures counts { CountsMode part.old part.new ctx.old ctx.new }
    ensures known { result ≢ Word.Missing }
{
    match mode {
        Mode::Pass => pass(ctx, part),
        Mode::Vertical(offset) => turn(ctx, part, offset),
        Mode::Horizontal => {
            part.in_run = true;
            part.another = true;
            part.total = 0;
            Word::GoesOn
        }
    }
}

/// Goes on after a mode that is read here.
#[inline(always)]
fn read_any_mode(ctx: &mut DecoderContext, reader: &mut BitScanner<'_>, part: &mut KeptPart) -> Word
    requires lawful { IsLawfulPart ctx.old.held.settings ctx.old.held.reference part.old }
    requires run { part.old.in_run ≡ false }
    requires mode { part.old.is_2d ≡ true }
    requires open { part.old.painted < ctx.old.held.settings.columns }
    ensures reads { ReadsWord part.old part.new ctx.old ctx.new reader.old reader.new result }
{
    match reader.next_mode(ctx.ticks()) {
        Ok(mode) => add_mode(ctx, part, mode),
        Err(error) => word_of_fault(error),
    }
}

/// Goes on after a mode that is read here: mostly V0, which is looked for first.
#[inline(always)]
fn read_mode(ctx: &mut DecoderContext, reader: &mut BitScanner<'_>, part: &mut KeptPart) -> Word
    requires lawful { IsLawfulPart ctx.old.held.settings ctx.old.held.reference part.old }
    requires run { part.old.in_run ≡ false }
    requires mode { part.old.is_2d ≡ true }
    requires open { part.old.painted < ctx.old.held.settings.columns }
    ensures reads { ReadsWord part.old part.new ctx.old ctx.new reader.old reader.new result }
{
    if reader.pass_v0() {
        ctx.ticks().tick();
        turn_below(ctx, part);
        return Word::GoesOn;
    }
    read_any_mode(ctx, reader, part)
}

/// Goes on after a word of a run (T.4, 4.1.1).
#[inline(always)]
fn add_word(part: &mut KeptPart, settings: DecodeSettings, n: u32) -> Word
    requires within { part.old.painted ≤ settings.columns }
    requires run { part.old.in_run ≡ true }
    ensures goes { (rest : Bits) (front : Row) → length front ≡ part.old.painted → Leads result part.new rest
        (word_added settings.strict settings.columns (run_of_part part.old) (pen_of_part part.old front rest) n).turn }
    ensures within { part.new.painted ≤ settings.columns }
    ensures onward { part.old.painted ≤ part.new.painted }
    ensures passed { part.new.passed ≡ part.old.passed }
    ensures known { result ≢ Word.Missing }
{
    let Some(total) = part.total.checked_add(n) else {
        return Word::Ends;
    };
    if n >= 64 {
        part.total = total;
        return Word::GoesOn;
    }
    if !paint(part, settings, total) {
        return Word::Ends;
    }
    part.color = part.color.opposite();
    if part.another {
        part.another = false;
        part.total = 0;
    } else {
        part.in_run = false;
    }
    Word::GoesOn
}

/// Goes on after a word of a run that is read here.
#[inline(always)]
fn read_run(ctx: &mut DecoderContext, reader: &mut BitScanner<'_>, part: &mut KeptPart) -> Word
    requires lawful { IsLawfulPart ctx.old.held.settings ctx.old.held.reference part.old }
    requires run { part.old.in_run ≡ true }
    ensures reads { ReadsWord part.old part.new ctx.old ctx.new reader.old reader.new result }
{
    match read_word(ctx, part.color, reader) {
        Ok(n) => add_word(part, ctx.settings(), u32::from(n)),
        Err(error) => word_of_fault(error),
    }
}

/// Begins a run of a one-dimensional line, which reads nothing. Only contracts read the context and the reader.
#[inline(always)]
fn begin_run(_ctx: &DecoderContext, _reader: &BitScanner<'_>, part: &mut KeptPart)
    requires lawful { IsLawfulPart _ctx.now.held.settings _ctx.now.held.reference part.old }
    requires run { part.old.in_run ≡ false }
    requires line { part.old.is_2d ≡ false }
    requires open { part.old.painted ≢ _ctx.now.held.settings.columns }
    ensures reads { ReadsWord part.old part.new _ctx.now _ctx.now _reader.now _reader.now Word.GoesOn }
    ensures run { part.new.in_run ≡ true }
{
    part.in_run = true;
    part.another = false;
    part.total = 0;
}

/// Goes on after the step that is next, unless the row is full: after a mode, or to the start of a run of a one-dimensional
/// line, which reads nothing.
#[inline(always)]
fn read_step(ctx: &mut DecoderContext, reader: &mut BitScanner<'_>, part: &mut KeptPart) -> Word
    requires lawful { IsLawfulPart ctx.old.held.settings ctx.old.held.reference part.old }
    requires run { part.old.in_run ≡ false }
    ensures reads { ReadsWord part.old part.new ctx.old ctx.new reader.old reader.new result }
    ensures smaller { result ≡ Word.GoesOn
        → left_to_read part.new.in_run (here reader.new) < left_to_read part.old.in_run (here reader.old) }
{
    if part.painted == ctx.settings().columns {
        return Word::Ends;
    }
    if part.is_2d {
        return read_mode(ctx, reader, part);
    }
    begin_run(ctx, reader, part);
    Word::GoesOn
}

/// Returns the part with which the words of a line begin.
fn first_part(is_2d: bool) -> KeptPart
    ensures { result ≡ first_kept is_2d }
{
    KeptPart {
        is_2d,
        in_run: false,
        another: false,
        color: Color::White,
        total: 0,
        painted: 0,
        passed: 0,
    }
}

/// Reads the tag of the line here, if it has one (T.4, 4.2.2), and returns the part from which it goes on. Returns `None` if the
/// tag is missing.
pub(crate) fn begin_part(ctx: &mut DecoderContext, reader: &mut BitReader<'_>) -> Option<KeptPart>
    ensures begins { IfSome result (λ part. IsPartOf ctx.old.held.settings ctx.old.held.reference (here reader.old) part
        (here reader.new)) }
    ensures lawful { IfSome result (λ part. IsLawfulPart ctx.old.held.settings ctx.old.held.reference part) }
    ensures no_tag { IfNone result ((ctx.old.held.settings.encoding ≡ EncodingMode.Group3_2D) × (here reader.old ≡ [])) }
    ensures frame { ctx.new ≡ ctx.old }
    ensures same_bits { reader.new.bits ≡ reader.old.bits }
    ensures onward { reader.old.place ≤ reader.new.place }
{
    match ctx.settings().encoding {
        EncodingMode::Group3_1D => Some(first_part(false)),
        EncodingMode::Group4 => Some(first_part(true)),
        EncodingMode::Group3_2D => match reader.read_bit() {
            Ok(tag) => Some(first_part(tag != 1)),
            Err(_) => None,
        },
    }
}

/// Returns whether a part is one of a one-dimensional line.
#[inline(always)]
pub(crate) fn is_1d(part: &KeptPart) -> bool
    ensures { result ≡ not part.now.is_2d }
{
    !part.is_2d
}

/// Returns whether the next pixels of a part are black.
#[inline(always)]
fn is_black(part: &KeptPart) -> bool
    ensures black { result ≡ true → part.now.color ≡ Color.Black }
    ensures white { result ≡ false → part.now.color ≡ Color.White }
{
    match part.color {
        Color::White => false,
        Color::Black => true,
    }
}

/// Returns whether a part of a one-dimensional line is within a run.
#[inline(always)]
pub(crate) fn is_in_1d_run(part: &KeptPart) -> bool
    requires { part.now.is_2d ≡ false }
    ensures { result ≡ true → IsInRun part.now }
{
    part.in_run && !part.another
}

/// What a word of a run of a one-dimensional line leads to.
pub(crate) enum RunStep {
    /// The run ends with it, and the next one begins.
    Next,
    /// The run goes on after it.
    Same,
    /// The data ends before the word does.
    Short,
    /// The line ends with it: the row is full, or the word is wrong.
    Ended,
}

/// Returns whether a word is missing that is read with this error.
#[inline(always)]
fn misses_end(error: DecodeError) -> bool
    ensures { result ≡ misses_end error }
{
    matches!(error, DecodeError::UnexpectedEof)
}

/// Reads a word of a run of a one-dimensional line. A run that ends at the row's end or beyond it ends the line.
#[inline(always)]
fn read_next_run(
    ctx: &mut DecoderContext,
    reader: &mut BitScanner<'_>,
    part: &mut KeptPart,
    color: Color,
) -> RunStep
    requires lawful { IsLawfulPart ctx.old.held.settings ctx.old.held.reference part.old }
    requires run { IsInRun part.old }
    requires color { part.old.color ≡ color }
    ensures steps { StepsInRun result part.old part.new ctx.old ctx.new reader.old reader.new color }
    ensures paints { OnlyPaints part.old part.new }
{
    match read_word(ctx, color, reader) {
        Ok(n) => {
            if n >= 64 {
                let Some(total) = part.total.checked_add(u32::from(n)) else {
                    return RunStep::Ended;
                };
                part.total = total;
                return RunStep::Same;
            }
            let end = u64::from(part.painted) + u64::from(part.total) + u64::from(n);
            if end >= u64::from(ctx.settings().columns) {
                return RunStep::Ended;
            }
            part.painted = end as u32;
            part.total = 0;
            part.color = color.opposite();
            RunStep::Next
        }
        Err(error) => {
            if misses_end(error) {
                RunStep::Short
            } else {
                RunStep::Ended
            }
        }
    }
}

/// Reads on to the end of a run of a one-dimensional line that has a make-up word. Returns `None` if the next run begins there,
/// and else whether the line is short.
#[inline(always)]
fn finish_run(
    ctx: &mut DecoderContext,
    reader: &mut BitScanner<'_>,
    part: &mut KeptPart,
    color: Color,
) -> Option<bool>
    requires lawful { IsLawfulPart ctx.old.held.settings ctx.old.held.reference part.old }
    requires run { IsInRun part.old }
    requires color { part.old.color ≡ color }
    ensures passes { PassesRun result part.old part.new ctx.old ctx.new reader.old reader.new color }
    ensures paints { OnlyPaints part.old part.new }
{
    // An offset is known to be within the data once it is read.
    let _start = reader.offset();
    'words: loop {
        match read_next_run(ctx, reader, part, color) {
            RunStep::Next => return None,
            RunStep::Same => {}
            RunStep::Short => return Some(true),
            RunStep::Ended => return Some(false),
        }
    }
}

/// Reads a run of a one-dimensional line as `finish_run` does, mostly one word, which has code of its own.
#[inline(always)]
fn continue_run(
    ctx: &mut DecoderContext,
    reader: &mut BitScanner<'_>,
    part: &mut KeptPart,
    color: Color,
) -> Option<bool>
    requires lawful { IsLawfulPart ctx.old.held.settings ctx.old.held.reference part.old }
    requires run { IsInRun part.old }
    requires color { part.old.color ≡ color }
    ensures passes { PassesRun result part.old part.new ctx.old ctx.new reader.old reader.new color }
    ensures paints { OnlyPaints part.old part.new }
{
    // An offset is known to be within the data once it is read.
    let _start = reader.offset();
    match read_next_run(ctx, reader, part, color) {
        RunStep::Next => None,
        RunStep::Same => finish_run(ctx, reader, part, color),
        RunStep::Short => Some(true),
        RunStep::Ended => Some(false),
    }
}

/// Keeps what words of a one-dimensional line changed of a part.
#[inline(always)]
fn keep_painted(part: &mut KeptPart, now: &KeptPart)
    requires { OnlyPaints part.old now.now }
    ensures { part.new ≡ now.now }
{
    part.color = now.color;
    part.total = now.total;
    part.painted = now.painted;
}

/// Reads words from a part within a run of a one-dimensional line on, and returns whether the data ends within the line. If it
/// does, the part is then that from which the line goes on, and the reader is there. Each colour has code of its own.
#[inline(always)]
pub(crate) fn continue_runs(
    ctx: &mut DecoderContext,
    reader: &mut BitScanner<'_>,
    part: &mut KeptPart,
) -> bool
    requires lawful { IsLawfulPart ctx.old.held.settings ctx.old.held.reference part.old }
    requires run { IsInRun part.old }
    ensures { ContinuesLine part.old part.new ctx.old ctx.new reader.old reader.new result }
{
    // An offset is known to be within the data once it is read.
    let _start = reader.offset();
    // A part of its own, so that its fields are values of this call.
    let mut now = *part;
    if is_black(&now) {
        if let Some(short) = finish_run(ctx, reader, &mut now, Color::Black) {
            keep_painted(part, &now);
            return short;
        }
    } else if now.total > 0 {
        if let Some(short) = finish_run(ctx, reader, &mut now, Color::White) {
            keep_painted(part, &now);
            return short;
        }
        if let Some(short) = continue_run(ctx, reader, &mut now, Color::Black) {
            keep_painted(part, &now);
            return short;
        }
    }
    'runs: loop {
        if let Some(short) = continue_run(ctx, reader, &mut now, Color::White) {
            keep_painted(part, &now);
            return short;
        }
        if let Some(short) = continue_run(ctx, reader, &mut now, Color::Black) {
            keep_painted(part, &now);
            return short;
        }
    }
}

/// Reads words from a part of a line on, and returns whether the data ends within the line. If it does, the part is then that
/// from which the line goes on, and the second number is the offset there. Otherwise it is the offset of the word with which the
/// line ends. The reader's offset is then unspecified. Each word that is looked for is a tick, and so is each change of the
/// reference row that is examined.
#[inline(always)]
pub(crate) fn continue_line(
    ctx: &mut DecoderContext,
    reader: &mut BitScanner<'_>,
    part: &mut KeptPart,
) -> (bool, usize)
    requires { IsLawfulPart ctx.old.held.settings ctx.old.held.reference part.old }
    ensures goes_on { ContinuesLine part.old part.new ctx.old ctx.new reader.old
        (record reader.old { place = result.1 }) result.0 }
    ensures within { result.1 ≤ length reader.old.bits }
{
    // An offset is known to be within the data once it is read.
    let _start = reader.offset();
    'steps: loop {
        'run: while part.in_run {
            let word_start = reader.offset();
            match read_run(ctx, reader, part) {
                Word::GoesOn => {}
                Word::Missing => return (true, word_start),
                Word::Ends => return (false, word_start),
            }
        }
        // Steps are a loop of their own, since mostly a mode follows a mode.
        'modes: while !part.in_run {
            let step_start = reader.offset();
            match read_step(ctx, reader, part) {
                Word::GoesOn => {}
                Word::Missing => return (true, step_start),
                Word::Ends => return (false, step_start),
            }
        }
    }
}
