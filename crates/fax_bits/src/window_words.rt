//! Code words of runs that are in the window.

ghost use Rattle.std.specs.Prelude.{◌≡◌, ◌≢◌, ◌+◌, ◌^◌, ◌<◌, ◌≤◌, IfSome, IfNone, true, length};
ghost use Rattle.fax_bits.specs.Bits.{here};
ghost use Rattle.fax_bits.specs.LookUps.{AreEntriesOf};
ghost use Rattle.fax_bits.specs.WordsHere.{IsRunHere, IsWordHere, RunGoesOn};
ghost use Rattle.fax_bits.specs.Window.{moved};

use crate::bit_reader::Window;
use crate::codes::{Color, Ticks};
use crate::tables::LOOKUP_INVALID;

/// Returns the run and the number of bits of the code word at an offset in the window; the run is `LOOKUP_INVALID` if there
/// is none.
#[inline(always)]
pub fn word_at_hand(window: &Window<'_>, skip: usize, color: Color, words: &[u16]) -> (u32, usize)
    requires within { skip + 13 ≤ window.now.left }
    requires entries { AreEntriesOf color words.now }
    ensures word { result.0 ≢ 4095 → IsWordHere color (moved skip window.now.at) result.0 result.1 }
    ensures below { result.0 ≤ 4095 }
    ensures narrow { result.1 ≤ 15 }
{
    let entry = words[window.run_index(skip, color)];
    (u32::from(entry & LOOKUP_INVALID), usize::from(entry >> 12))
}

/// Fills the window if it has fewer than 28 bits; returns false if it can't be filled.
#[inline(always)]
fn has_two_words(window: &mut Window<'_>) -> bool
    ensures same { window.new.at ≡ window.old.at }
    ensures enough { result ≡ true → 28 ≤ window.new.left }
{
    if window.left() >= 28 {
        return true;
    }
    window.refill()
}

/// Passes a make-up word of a run whose words before it sum to `total`, and returns the sum with it; or `None`, passing
/// nothing, if none is at hand or the sum may exceed 32 bits.
#[inline(always)]
fn pass_makeup_word(
    window: &mut Window<'_>,
    color: Color,
    words: &[u16],
    total: u32,
    ticks: &mut Ticks,
) -> Option<u32>
    requires entries { AreEntriesOf color words.now }
    ensures on { IfSome result (λ sum. RunGoesOn color total (here window.old.at) sum (here window.new.at) ticks.old ticks.new) }
    ensures shorter { IfSome result (λ sum. length (here window.new.at) < length (here window.old.at)) }
    ensures same_bits { window.new.at.bits ≡ window.old.at.bits }
    ensures left { IfNone result ((window.new.at ≡ window.old.at) × (ticks.new ≡ ticks.old)) }
{
    if !has_two_words(window) {
        return None;
    }
    let (run, width) = word_at_hand(window, 0, color, words);
    if run < 64 {
        return None;
    }
    if run == 4095 {
        return None;
    }
    if total > u32::MAX - 4095 {
        return None;
    }
    window.pass(width);
    ticks.tick();
    Some(total + run)
}

/// Passes the make-up words at hand of a run whose words before them sum to `start`, and returns the sum with them.
#[inline(always)]
pub fn pass_makeup_words(
    window: &mut Window<'_>,
    color: Color,
    words: &[u16],
    start: u32,
    ticks: &mut Ticks,
) -> u32
    requires entries { AreEntriesOf color words.now }
    ensures on { RunGoesOn color start (here window.old.at) result (here window.new.at) ticks.old ticks.new }
    ensures same_bits { window.new.at.bits ≡ window.old.at.bits }
{
    let mut total = start;
    'words: loop {
        match pass_makeup_word(window, color, words, total, ticks) {
            None => return total,
            Some(sum) => total = sum,
        }
    }
}

/// A run that was passed.
#[derive(Clone, Copy)]
pub struct PassedRun {
    /// Its pixels.
    pub run: u32,
    /// The number of its bits.
    pub width: usize,
    /// The number of its code words.
    pub words: usize,
}

/// Fills the window if it has fewer than thirteen bits; returns false if it can't be filled.
#[inline(always)]
fn has_word(window: &mut Window<'_>) -> bool
    ensures same { window.new.at ≡ window.old.at }
    ensures enough { result ≡ true → 13 ≤ window.new.left }
{
    if window.left() >= 13 {
        return true;
    }
    window.refill()
}

/// Passes a run of any number of code words. Returns `None` if they aren't all at hand, or it has 2^31 pixels or more; the offset is
/// unspecified then.
#[inline(always)]
pub fn pass_run(window: &mut Window<'_>, color: Color, words: &[u16]) -> Option<PassedRun>
    requires entries { AreEntriesOf color words.now }
    ensures run { IfSome result (λ run. IsRunHere color window.old.at run.run run.width run.words) }
    ensures moved { IfSome result (λ run. window.new.at ≡ moved run.width window.old.at) }
    ensures below { IfSome result (λ run. (run.run < 2 ^ 31) × (run.width < 2 ^ 31) × (run.words < 2 ^ 31)) }
    ensures same_bits { window.new.at.bits ≡ window.old.at.bits }
{
    let mut total: u32 = 0;
    let mut width: usize = 0;
    let mut count: usize = 0;
    'words: loop {
        if !has_word(window) {
            return None;
        }
        let (run, bits) = word_at_hand(window, 0, color, words);
        if run == 4095 {
            return None;
        }
        window.pass(bits);
        total += run;
        width += bits;
        count += 1;
        if run < 64 {
            return Some(PassedRun {
                run: total,
                width,
                words: count,
            });
        }
        if total > (1 << 31) - 4096 {
            return None;
        }
    }
}
