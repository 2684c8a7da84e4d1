//! Looking at a gap between rows as its bits come, each once.

ghost use Rattle.std.specs.Prelude.{◌≡◌, ◌≤◌, ◌+◌, false, true, length};
ghost use Rattle.fax_bits.specs.Bits.{here};
ghost use Rattle.fax_feeds.specs.GapsSeen.{LooksOn, is_settled, nothing_seen, rules_after_row, stage_after};
ghost use Rattle.fax_feeds.specs.GapsSeen.{stage_following};

use fax_bits::bit_reader::{BitReader, copy};
use fax_bits::codes::Ticks;
use fax_bits::{DecodeSettings, EncodingMode};
use fax_lines::context::DecoderContext;
use fax_rows::rows::limit_met;

/// What was found in a gap so far.
#[derive(Copy, Clone)]
pub(crate) enum GapStage {
    /// Zeros alone.
    Start,
    /// No EOL is here, so the next one is sought.
    Damage,
    /// An EOL was the last with a one in it.
    AfterEol,
    /// A tag of one after an EOL was.
    AfterTag,
    /// Nothing that follows can change the gap.
    Settled,
}

/// On what a look at a gap depends.
#[derive(Drop)]
pub(crate) struct GapRules {
    /// A tag follows each EOL (T.4, 4.2.2).
    pub(crate) has_tags: bool,
    /// Two EOLs end the data (T.6, 2.4.1.1).
    pub(crate) ends_at_two: bool,
    /// Where there is no EOL, the next one is sought (T.4, 4.1.2).
    pub(crate) seeks: bool,
}

/// How far a gap was looked at.
#[derive(Drop)]
pub(crate) struct GapLook {
    pub(crate) stage: GapStage,
    /// The zeros since the last one.
    pub(crate) zeros: usize,
    /// The bits looked at.
    pub(crate) bits: usize,
}

/// Returns what the look at a gap after a row depends on.
pub(crate) fn rules_after_row(ctx: &DecoderContext) -> GapRules
    ensures { result ≡ rules_after_row ctx.now.held.settings ctx.now.held.taken ctx.now.held.has_eols }
{
    let settings = ctx.settings();
    GapRules {
        has_tags: settings.encoding == EncodingMode::Group3_2D,
        ends_at_two: settings.encoding == EncodingMode::Group4 && settings.end_of_block,
        seeks: ctx.has_eols() && !limit_met(ctx) && !settings.strict,
    }
}

/// Returns whether nothing that follows can change the gap.
fn is_settled(stage: GapStage) -> bool
    ensures { result ≡ is_settled stage }
{
    matches!(&stage, GapStage::Settled)
}

/// Returns what was found once a one comes after this many zeros: they may be an EOL (T.4, 4.1.2), or the one a tag (T.4,
/// 4.2.2).
fn stage_after(rules: &GapRules, stage: GapStage, zeros: usize) -> GapStage
    ensures { result ≡ stage_after rules.now stage zeros }
{
    match stage {
        GapStage::Start if zeros >= 11 => GapStage::AfterEol,
        GapStage::Start if rules.seeks => GapStage::Damage,
        GapStage::Start => GapStage::Settled,
        GapStage::Damage if zeros >= 11 => GapStage::AfterEol,
        GapStage::Damage => GapStage::Damage,
        GapStage::AfterEol | GapStage::AfterTag if zeros >= 11 && !rules.ends_at_two =>
            GapStage::AfterEol,
        GapStage::AfterEol if zeros == 0 && rules.has_tags => GapStage::AfterTag,
        GapStage::AfterEol | GapStage::AfterTag | GapStage::Settled => GapStage::Settled,
    }
}

/// Returns whether the next 32 bits alone settle the gap: no EOL is here nor sought, or one is, and after it and its tag there is
/// none. Nothing is counted.
#[inline(always)]
pub(crate) fn is_settled_at_once(rules: &GapRules, reader: &BitReader<'_>) -> bool
    ensures { result ≡ true → is_settled (stage_following rules.now GapStage.Start 0 (here reader.now)) ≡ true }
{
    let next = reader.peek_u32();
    let zeros = next.leading_zeros();
    if zeros < 11 {
        return !rules.seeks;
    }
    if zeros > 20 {
        return false;
    }
    // After the EOL and a bit, which may be its tag, there is a one among ten bits.
    (next >> (20 - zeros)) % 1024 != 0
}

impl GapLook {
    /// Creates a look at a gap of which nothing was seen.
    pub(crate) fn new() -> GapLook
        ensures { result ≡ nothing_seen }
    {
        GapLook {
            stage: GapStage::Start,
            zeros: 0,
            bits: 0,
        }
    }

    /// Looks on at the bits here, and returns whether nothing that follows can change the gap; else all bits were looked at.
    /// Each bit that is looked at is a tick.
    pub(crate) fn look_on(
        &mut self,
        rules: &GapRules,
        reader: &BitReader<'_>,
        ticks: &mut Ticks,
    ) -> bool
        requires zeros { self.old.zeros ≤ self.old.bits }
        requires before { self.old.bits ≤ reader.now.place }
        ensures looks { LooksOn rules.now self.old self.new (here reader.now) }
        ensures settled { result ≡ is_settled self.new.stage }
        ensures all { result ≡ false → self.new.bits ≡ self.old.bits + length (here reader.now) }
        ensures ticks { ticks.new + self.old.bits ≡ ticks.old + self.new.bits }
    {
        // An offset is known to be within the data once it is read.
        let _start = reader.bit_pos();
        let mut rest = copy(reader);
        'ones: while !is_settled(self.stage) {
            let (zeros, after) = rest.zero_run(ticks);
            self.zeros += zeros;
            self.bits += zeros;
            match after {
                Some(after) => {
                    self.stage = stage_after(rules, self.stage, self.zeros);
                    self.zeros = 0;
                    self.bits += 1;
                    rest = after;
                }
                None => return false,
            }
        }
        true
    }
}
