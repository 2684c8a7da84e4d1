//! A gap between rows whose bits are counted as they come, in data of which a part is kept.

ghost use Rattle.std.specs.Prelude.{◌≡◌, ◌+◌, ◌<◌, ◌^◌, [], None, false, true, length};
ghost use Rattle.fax_reading.specs.Context.{fresh};
ghost use Rattle.fax_rows.specs.GapsCounted.{left_before};
ghost use Rattle.fax_bits.specs.Bits.{here};
ghost use Rattle.fax_rows.specs.GapsCounted.{CanGoOn, IsTidy};
ghost use Rattle.fax_feeds.specs.CountedGaps.{ComesCounted, ComesFirst};
ghost use Rattle.fax_feeds.specs.RowFeeds.{no_gap};
ghost use Rattle.fax_rows.specs.RowsRead.{ended, is_at_line};
ghost use Rattle.fax_feeds.specs.GapsSeen.{IsSeen, nothing_seen, rules_for};

use crate::gap_look::{GapLook, is_settled_at_once, rules_after_row};
use crate::row_feed::{of_settled_gap, pass_settled_gap};
use fax_bits::Result;
use fax_bits::bit_reader::BitReader;
use fax_lines::context::DecoderContext;
use fax_rows::front_count::{pass_front, step_at_front};
use fax_rows::gap_count::{GapCount, GapStep, step_in_gap};
use fax_rows::row_reader::{RowState, Stand, is_at_line};
use fax_rows::zeros_last::pass_to_zeros;

/// What is known of the gap that is next, whose first bits aren't kept.
#[derive(Drop)]
pub(crate) struct GapSoFar {
    /// What was counted of it.
    pub(crate) count: GapCount,
    /// How many bits were counted; or how many are left, where the data ends with zeros.
    pub(crate) passed: usize,
    /// Whether the data ends with the tag and the zeros that were counted last.
    pub(crate) at_zeros: bool,
    /// How far the gap was looked at, where its EOL is missing.
    pub(crate) look: GapLook,
}

/// Returns what is known of a gap that begins.
pub(crate) fn no_gap() -> GapSoFar
    ensures { result ≡ no_gap }
{
    GapSoFar {
        count: GapCount {
            eols: 0,
            tag: false,
            zeros: 0,
        },
        passed: 0,
        at_zeros: false,
        look: GapLook::new(),
    }
}

/// Returns how many bits are left of what was counted: a tag of one, and zeros.
pub(crate) fn bits_left(count: &GapCount) -> usize
    ensures { length (left_before count.now []) < 2 ^ 64 → result ≡ length (left_before count.now []) }
{
    let tags = if count.tag { 1 } else { 0 };
    count.zeros.saturating_add(tags)
}

/// Returns whether no bit of a gap was counted or looked at, whose zeros don't end the data.
fn nothing_known(gap: &GapSoFar) -> bool
    requires tidy { IsTidy gap.now.count }
    requires some { gap.now.at_zeros ≡ false }
    ensures counted { result ≡ true → gap.now ≡ record no_gap { look = gap.now.look } }
    ensures looked { result ≡ true → gap.now.look.bits ≡ 0 }
{
    let count = &gap.count;
    gap.passed == 0 && gap.look.bits == 0 && count.eols == 0 && count.zeros == 0
}

/// Passes what is before the first line, of which this is known, if no data that follows can change it. Returns whether there is a
/// line after it, or `None` if more data is needed.
pub(crate) fn come_to_first_line(
    ctx: &mut DecoderContext,
    gap: &mut GapSoFar,
    reader: &mut BitReader<'_>,
    is_last: bool,
) -> Option<bool>
    requires on { CanGoOn gap.old.count (here reader.old) }
    requires fresh { ctx.old.held ≡ fresh ctx.old.held.settings }
    requires wide { 0 < ctx.old.held.settings.columns }
    requires some { gap.old.at_zeros ≡ false }
    requires unlooked { gap.old.look ≡ nothing_seen }
    ensures { ComesFirst is_last gap.old gap.new ctx.old ctx.new reader.old reader.new result }
{
    let before = reader.bit_pos();
    let step = step_at_front(ctx, &mut gap.count, reader, is_last);
    let place = reader.bit_pos();
    match step {
        GapStep::Waits => {
            gap.passed = gap.passed.saturating_add(place - before);
            None
        }
        GapStep::Zeros | GapStep::Missed => {
            gap.at_zeros = true;
            gap.passed = bits_left(&gap.count);
            Some(pass_front(ctx, gap.count.eols, false))
        }
        GapStep::Passed(line) => {
            *gap = no_gap();
            Some(line)
        }
    }
}

/// Passes the gap here, of which this is known, as `come_to_counted_line` does: its bits are counted as they come, or, where its EOL
/// is missing, looked at.
#[cold]
#[inline(never)]
fn come_by_counts(
    rows: &mut RowState,
    ctx: &mut DecoderContext,
    gap: &mut GapSoFar,
    reader: &mut BitReader<'_>,
    is_last: bool,
    dropped: usize,
) -> Result<Option<bool>>
    requires after { rows.old.stand ≡ Stand.AfterRow }
    requires on { CanGoOn gap.old.count (here reader.old) }
    requires seen { IsSeen (rules_for true ctx.old.held) gap.old.look (here reader.old) }
    requires fits { dropped + length reader.old.bits + 64 < 2 ^ 64 }
    requires missed { 0 < gap.old.look.bits → gap.old ≡ record no_gap { look = gap.old.look } }
    requires some { gap.old.at_zeros ≡ false }
    ensures { ComesCounted is_last dropped rows.old rows.new gap.old gap.new ctx.old ctx.new reader.old reader.new result }
{
    let before = reader.bit_pos();
    if gap.look.bits > 0 {
        return pass_settled_gap(rows, ctx, &mut gap.look, reader, is_last, dropped + before);
    }
    let step = step_in_gap(rows, ctx, &mut gap.count, reader, is_last);
    let place = reader.bit_pos();
    match step {
        GapStep::Waits => {
            gap.passed = gap.passed.saturating_add(place - before);
            Ok(None)
        }
        GapStep::Zeros => {
            let start = (dropped + place).saturating_sub(gap.count.zeros);
            let line = pass_to_zeros(rows, ctx, &mut gap.count, start);
            gap.at_zeros = true;
            gap.passed = bits_left(&gap.count);
            of_settled_gap(line)
        }
        GapStep::Passed(line) => {
            *gap = no_gap();
            Ok(Some(line))
        }
        GapStep::Missed => {
            *gap = no_gap();
            pass_settled_gap(rows, ctx, &mut gap.look, reader, is_last, dropped + place)
        }
    }
}

/// Passes the gap before the next line, if there is one here, of which this is known, if no data that follows can change it, where
/// so many bits came before those of the reader. Returns whether there is a line after it, or `None` if more data is needed.
#[inline(always)]
pub(crate) fn come_to_counted_line(
    rows: &mut RowState,
    ctx: &mut DecoderContext,
    gap: &mut GapSoFar,
    reader: &mut BitReader<'_>,
    is_last: bool,
    dropped: usize,
) -> Result<Option<bool>>
    requires unended { ended rows.old.stand ≡ None }
    requires line { is_at_line rows.old.stand ≡ true → gap.old ≡ no_gap }
    requires on { CanGoOn gap.old.count (here reader.old) }
    requires seen { IsSeen (rules_for true ctx.old.held) gap.old.look (here reader.old) }
    requires fits { dropped + length reader.old.bits + 64 < 2 ^ 64 }
    requires missed { 0 < gap.old.look.bits → gap.old ≡ record no_gap { look = gap.old.look } }
    requires some { gap.old.at_zeros ≡ false }
    ensures { ComesCounted is_last dropped rows.old rows.new gap.old gap.new ctx.old ctx.new reader.old reader.new result }
{
    let before = reader.bit_pos();
    if is_at_line(rows.stand) {
        return Ok(Some(true));
    }
    let rules = rules_after_row(ctx);
    if nothing_known(gap) && is_settled_at_once(&rules, reader) {
        return of_settled_gap(rows.pass_gap_here(ctx, reader, dropped + before));
    }
    come_by_counts(rows, ctx, gap, reader, is_last, dropped)
}
