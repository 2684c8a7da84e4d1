//! What is before the first line, whose bits are counted as they come, so that none of them is kept.

ghost use Rattle.std.specs.Prelude.{◌≡◌, ◌≢◌, ◌≤◌, ◌<◌, ◌+◌, ◌||◌, nat_lt, true, not, length, ℕ};
ghost use Rattle.fax_bits.specs.Bits.{Bits, here};
ghost use Rattle.fax_reading.specs.Context.{fresh};
ghost use Rattle.fax_reading.specs.PlainReading.{at_end, is_over};
ghost use Rattle.fax_rows.specs.FrontsCounted.{StaysUnless, StepsAtFront, TakesNoRow, front_rules};
ghost use Rattle.fax_rows.specs.GapsCounted.{CanGoOn, StepSays};

use crate::gap_count::{GapCount, GapEnd, GapStep, count_gap};
use crate::rows::{is_end_of_block, limit_met};
use fax_bits::bit_reader::BitReader;
use fax_bits::{DecodeSettings, EncodingMode};
use fax_lines::context::DecoderContext;

/// Returns the settings by which EOLs before the first line are counted: they have no tags (T.4, 4.1.2).
fn front_rules(settings: DecodeSettings) -> DecodeSettings
    ensures { result ≡ front_rules settings }
{
    let mut rules = settings;
    if settings.encoding != EncodingMode::Group4 {
        rules.encoding = EncodingMode::Group3_1D;
    }
    rules
}

/// Passes what is before the first line, where so many EOLs were counted, and whether no bits follow them is given. Returns
/// whether a line follows: in Group 3 always (T.4, 4.1.2; T.6, 2.4.1.1).
pub fn pass_front(ctx: &mut DecoderContext, eols: usize, none_follow: bool) -> bool
    ensures group4 { ctx.old.held.settings.encoding ≡ EncodingMode.Group4 → (ctx.new ≡ ctx.old)
        × ((rest : Bits) → none_follow ≡ at_end rest
        → is_over ctx.old.held.settings ctx.old.held.taken (eols, rest) ≡ not result) }
    ensures group3 { ctx.old.held.settings.encoding ≢ EncodingMode.Group4 → (result ≡ true)
        × (ctx.new ≡ record ctx.old {
          held = record ctx.old.held { has_eols = nat_lt 0 eols || ctx.old.held.settings.end_of_line };
        }) }
{
    if ctx.settings().encoding == EncodingMode::Group4 {
        return !(is_end_of_block(ctx, eols) || limit_met(ctx) || none_follow);
    }
    let end_of_line = ctx.settings().end_of_line;
    ctx.set_has_eols(eols > 0 || end_of_line);
    true
}

/// Goes on in what is before the first line, of which this was counted, and passes it if no data that follows can change it.
pub fn step_at_front(
    ctx: &mut DecoderContext,
    count: &mut GapCount,
    reader: &mut BitReader<'_>,
    is_last: bool,
) -> GapStep
    requires on { CanGoOn count.old (here reader.old) }
    requires fresh { ctx.old.held ≡ fresh ctx.old.held.settings }
    requires wide { 0 < ctx.old.held.settings.columns }
    ensures steps { StepsAtFront is_last ctx.old ctx.new count.old count.new reader.old reader.new result }
    ensures moves { (reader.new.bits ≡ reader.old.bits) × (reader.old.place ≤ reader.new.place)
        × (reader.new.place ≤ length reader.new.bits) }
    ensures kept { StaysUnless result ctx.old ctx.new × TakesNoRow ctx.old ctx.new }
    ensures says { StepSays is_last count.old count.new (here reader.old) (here reader.new) result }
    ensures work { ctx.new.ticks + reader.old.place ≤ ctx.old.ticks + reader.new.place + 16 }
{
    let _start = reader.bit_pos();
    let rules = front_rules(ctx.settings());
    let end = count_gap(rules, count, reader, ctx.ticks());
    let _end = reader.bit_pos();
    match end {
        GapEnd::Open => {
            if !is_last {
                return GapStep::Waits;
            }
            if count.zeros >= 16 {
                return GapStep::Zeros;
            }
            GapStep::Passed(pass_front(ctx, count.eols, reader.at_end()))
        }
        GapEnd::AtOne => GapStep::Passed(pass_front(ctx, count.eols, false)),
        GapEnd::AtTwo => GapStep::Passed(pass_front(ctx, 2, reader.at_end())),
    }
}
