//! A gap between rows whose bits are counted as they come, each once, so that none of them is kept.

ghost use Rattle.std.specs.Prelude.{◌≡◌, ◌≢◌, ◌&&◌, ◌==◌, ◌≤◌, ◌<◌, ◌+◌, ◌-◌, ◌∷◌, ◌^◌, [], false};
ghost use Rattle.std.specs.Prelude.{true, length, None, Some, Ok, not, ℕ};
ghost use Rattle.fax_bits.specs.Bits.{Bits, here};
ghost use Rattle.fax_reading.specs.PlainReading.{at_end, is_over, limit_met};
ghost use Rattle.fax_lines.specs.Counting.{OnlyCounts};
ghost use Rattle.fax_rows.specs.GapsCounted.{CanGoOn, CountsEol, CountsTo, EndsAtOne, EndsAtTwo, KeepsRows, StaysOpen, StepSays};
ghost use Rattle.fax_rows.specs.GapsCounted.{StepsInGap, counted, ends_at_two, has_tags, left_before, one_counted, past_eols};
ghost use Rattle.fax_rows.specs.GapsCounted.{to_last_eol};
ghost use Rattle.fax_rows.specs.RowsTried.{rows_after_gap};

use crate::row_reader::{RowState, Stand};
use crate::rows::{is_end_of_block, is_over, limit_met};
use fax_bits::bit_reader::{BitReader, at_bit, bit_len, copy};
use fax_bits::codes::Ticks;
use fax_bits::{DecodeSettings, EncodingMode};
use fax_lines::context::DecoderContext;

/// What was counted of a gap.
#[derive(Copy, Clone)]
pub struct GapCount {
    /// The EOLs that were passed.
    pub eols: usize,
    /// Whether a tag of one came after the last of them.
    pub tag: bool,
    /// The zeros that came last.
    pub zeros: usize,
}

/// Counts a one: it ends an EOL (T.4, 4.1.2), or it is a tag (T.4, 4.2.2). Returns false if the gap ends before it, or with it as
/// the second of two EOLs that end the data (T.6, 2.4.1.1): then nothing changes.
fn count_one(count: &mut GapCount, has_tags: bool, ends_at_two: bool) -> bool
    requires { count.old.eols + 1 < 2 ^ 64 }
    ensures one { result ≡ true → one_counted has_tags ends_at_two count.old ≡ Some count.new }
    ensures none { result ≡ false → one_counted has_tags ends_at_two count.old ≡ None }
    ensures unchanged { result ≡ false → count.new ≡ count.old }
    ensures most { count.new.eols + count.new.zeros ≤ count.old.eols + count.old.zeros }
{
    if count.zeros >= 11 {
        if ends_at_two && count.eols > 0 {
            return false;
        }
        count.eols += 1;
        count.tag = false;
        count.zeros = 0;
        return true;
    }
    if has_tags && count.eols > 0 && !count.tag && count.zeros == 0 {
        count.tag = true;
        return true;
    }
    false
}

/// Counts the bits here, up to the one with which the gap ends, and returns whether there is such a one: then the reader is after
/// it. Otherwise all bits here were counted, and the reader stays. Each bit that is looked at is a tick.
pub fn count_on(
    count: &mut GapCount,
    has_tags: bool,
    ends_at_two: bool,
    reader: &mut BitReader<'_>,
    ticks: &mut Ticks,
) -> bool
    requires fits { count.old.eols + count.old.zeros + length (here reader.old) + 1 < 2 ^ 64 }
    ensures open { result ≡ false → counted has_tags ends_at_two count.old (here reader.old) ≡ Some count.new }
    ensures unchanged { result ≡ false → reader.new ≡ reader.old }
    ensures ends { result ≡ true
        → CountsTo has_tags ends_at_two count.old count.new (here reader.old) (true ∷ here reader.new) }
    ensures over { result ≡ true → one_counted has_tags ends_at_two count.new ≡ None }
    ensures same_bits { reader.new.bits ≡ reader.old.bits }
    ensures work { result ≡ true → ticks.new + length (here reader.new) ≡ ticks.old + length (here reader.old) }
    ensures work_open { result ≡ false → ticks.new ≡ ticks.old + length (here reader.old) }
{
    let mut rest = copy(reader);
    'ones: loop {
        let (zeros, after) = rest.zero_run(ticks);
        count.zeros += zeros;
        match after {
            Some(after) => {
                if !count_one(count, has_tags, ends_at_two) {
                    *reader = after;
                    return true;
                }
                rest = after;
            }
            None => return false,
        }
    }
}

/// How far the bits of a gap were counted.
#[derive(Copy, Clone)]
pub enum GapEnd {
    /// All bits were counted, but for few that can be of the gap too: data that follows can change it.
    Open,
    /// It ends with the last EOL that was counted, and the reader is after it.
    AtOne,
    /// It ends with the second of two EOLs that end the data (T.6, 2.4.1.1), and the reader is after it.
    AtTwo,
}

/// Returns whether tags follow EOLs (T.4, 4.2.2).
pub(crate) fn has_tags(settings: DecodeSettings) -> bool
    ensures { result ≡ has_tags settings.encoding }
{
    matches!(settings.encoding, EncodingMode::Group3_2D)
}

/// Returns whether two EOLs end the data (T.6, 2.4.1.1).
fn ends_at_two(settings: DecodeSettings) -> bool
    ensures { result ≡ ends_at_two settings.encoding settings.end_of_block }
{
    matches!(settings.encoding, EncodingMode::Group4) && settings.end_of_block
}

/// Goes back from this offset to the last EOL that was counted: over the tag and the zeros after it.
fn go_back_to_eol(count: &mut GapCount, reader: &mut BitReader<'_>, end: usize)
    requires after { length (left_before count.old []) ≤ end }
    requires within { end ≤ length reader.old.bits }
    ensures last { count.new ≡ to_last_eol count.old }
    ensures place { reader.new ≡ record reader.old { place = end - length (left_before count.old []) } }
{
    let tags = if count.tag { 1 } else { 0 };
    *reader = at_bit(reader, end - tags - count.zeros);
    count.tag = false;
    count.zeros = 0;
}

/// Counts the bits here of a gap of which this was counted, and returns how far. Behind those that were counted the reader has the
/// few that can be of the gap too. Each bit that is looked at is a tick.
pub fn count_gap(
    settings: DecodeSettings,
    count: &mut GapCount,
    reader: &mut BitReader<'_>,
    ticks: &mut Ticks,
) -> GapEnd
    requires { CanGoOn count.old (here reader.old) }
    ensures open { result ≡ GapEnd.Open → StaysOpen settings count.old count.new (here reader.old) (here reader.new) }
    ensures ends { result ≡ GapEnd.AtOne → EndsAtOne settings count.old count.new (here reader.old) (here reader.new) }
    ensures two { result ≡ GapEnd.AtTwo → EndsAtTwo settings count.old count.new (here reader.old) (here reader.new) }
    ensures same_bits { reader.new.bits ≡ reader.old.bits }
    ensures counts { ticks.old ≤ ticks.new }
    ensures work { ticks.new + length (here reader.new) ≤ ticks.old + length (here reader.old) + 16 }
    ensures onward { length (here reader.new) ≤ length (here reader.old) }
{
    let has_tags = has_tags(settings);
    let ends_at_two = ends_at_two(settings);
    let _start = reader.bit_pos();
    let ended = count_on(count, has_tags, ends_at_two, reader, ticks);
    let place = reader.bit_pos();
    let bits = bit_len(reader);
    if ended && count.zeros >= 11 {
        return GapEnd::AtTwo;
    }
    if ended {
        go_back_to_eol(count, reader, place - 1);
        return GapEnd::AtOne;
    }
    if count.zeros < 16 {
        go_back_to_eol(count, reader, bits);
    } else {
        *reader = at_bit(reader, bits);
    }
    GapEnd::Open
}

/// Returns whether the image ends after a gap of which this was counted, given whether no bits follow its EOLs: at EOFB or RTC, at
/// the row limit or at the end of the data (T.4, 4.1.4; T.6, 2.4.1.1).
pub fn ends_image(ctx: &DecoderContext, count: &GapCount, none_follow: bool) -> bool
    ensures { (rest : Bits) → none_follow ≡ at_end rest
        → result ≡ is_over ctx.now.held.settings ctx.now.held.taken (count.now.eols, rest) }
{
    is_end_of_block(ctx, count.eols) || limit_met(ctx) || none_follow
}

/// Passes the tag of RTC (T.4, 4.2.4), if one is here after so many EOLs.
fn pass_tag_of_rtc(settings: DecodeSettings, eols: usize, reader: &mut BitReader<'_>)
    ensures eols { past_eols settings.encoding (eols, here reader.old) ≡ (eols, here reader.new) }
    ensures same_bits { reader.new.bits ≡ reader.old.bits }
    ensures onward { reader.old.place ≤ reader.new.place }
{
    if eols < 6 || !has_tags(settings) {
        return;
    }
    let mut after = copy(reader);
    if let Ok(1) = after.read_bit() {
        *reader = after;
    }
}

/// Passes a gap whose EOLs were counted and end here, and returns whether a line follows it.
pub fn pass_counted(
    rows: &mut RowState,
    ctx: &DecoderContext,
    eols: usize,
    reader: &mut BitReader<'_>,
) -> bool
    ensures eols { past_eols ctx.now.held.settings.encoding (eols, here reader.old) ≡ (eols, here reader.new) }
    ensures over { is_over ctx.now.held.settings ctx.now.held.taken (eols, here reader.new) ≡ not result }
    ensures kept { (place : ℕ) → rows.new ≡ rows_after_gap rows.old (Ok (not result)) place ctx.now ctx.now }
    ensures line { result ≡ true → rows.new.stand ≡ Stand.AtLine }
    ensures same_bits { reader.new.bits ≡ reader.old.bits }
    ensures onward { reader.old.place ≤ reader.new.place }
    ensures within { reader.new.place ≤ length reader.new.bits }
{
    pass_tag_of_rtc(ctx.settings(), eols, reader);
    let _place = reader.bit_pos();
    rows.missed = None;
    if is_over(ctx, reader, eols) {
        rows.stand = Stand::AtEnd;
        return false;
    }
    rows.stand = Stand::AtLine;
    true
}

/// What a step in a gap came to.
#[derive(Copy, Clone)]
pub enum GapStep {
    /// Data that follows can change the gap.
    Waits,
    /// The data ends with zeros that were counted, sixteen or more.
    Zeros,
    /// The gap has no EOL, although there must be one (T.4, 4.1.2): it is to be passed from here.
    Missed,
    /// The gap was passed, and a line follows or not.
    Passed(bool),
}

/// Returns whether an EOL is missing if so many were counted before some bits (T.4, 4.1.2).
pub(crate) fn lacks_eol(ctx: &DecoderContext, eols: usize) -> bool
    ensures { result ≡ ((eols == 0) && ctx.now.held.has_eols && not (limit_met ctx.now.held.settings ctx.now.held.taken)) }
{
    eols == 0 && ctx.has_eols() && !limit_met(ctx)
}

/// Goes on in a gap after a row, of which this was counted, and passes it if no data that follows can change it.
pub fn step_in_gap(
    rows: &mut RowState,
    ctx: &mut DecoderContext,
    count: &mut GapCount,
    reader: &mut BitReader<'_>,
    is_last: bool,
) -> GapStep
    requires on { CanGoOn count.old (here reader.old) }
    requires after { rows.old.stand ≡ Stand.AfterRow }
    ensures steps { StepsInGap is_last rows.old rows.new ctx.old count.old count.new reader.old reader.new result }
    ensures moves { (reader.new.bits ≡ reader.old.bits) × (reader.old.place ≤ reader.new.place)
        × (reader.new.place ≤ length reader.new.bits) }
    ensures kept { OnlyCounts ctx.old ctx.new × KeepsRows result rows.old rows.new }
    ensures says { StepSays is_last count.old count.new (here reader.old) (here reader.new) result }
    ensures eol { result ≡ GapStep.Passed true → is_last ≡ false → ctx.old.held.has_eols ≡ true
        → CountsEol ctx.old.held.settings count.old (here reader.old) (here reader.new) }
    ensures work { ctx.new.ticks + reader.old.place ≤ ctx.old.ticks + reader.new.place + 16 }
{
    let _start = reader.bit_pos();
    let settings = ctx.settings();
    let end = count_gap(settings, count, reader, ctx.ticks());
    let _end = reader.bit_pos();
    match end {
        GapEnd::Open => {
            if !is_last {
                return GapStep::Waits;
            }
            if count.zeros >= 16 {
                return GapStep::Zeros;
            }
            if lacks_eol(ctx, count.eols) && !reader.at_end() {
                return GapStep::Missed;
            }
            GapStep::Passed(pass_counted(rows, ctx, count.eols, reader))
        }
        GapEnd::AtOne => {
            if lacks_eol(ctx, count.eols) {
                return GapStep::Missed;
            }
            GapStep::Passed(pass_counted(rows, ctx, count.eols, reader))
        }
        GapEnd::AtTwo => GapStep::Passed(pass_counted(rows, ctx, 2, reader)),
    }
}
