//! A reading of data in one way.

ghost use Rattle.std.specs.Prelude.{◌≡◌, ◌<◌, ◌*◌, ◌-◌, ◌^◌, ℕ, drop, length, min, IfErr, IfOk, IsTrue, OnErr};
ghost use Rattle.hayro_ccitt.specs.Answers.{IsFault, OnAnswer};
ghost use Rattle.hayro_ccitt.specs.Bits.{BitsFit, bits_in};
ghost use Rattle.hayro_ccitt.specs.PlainReading.{plain};
ghost use Rattle.fax_guess.specs.Outcomes.{AreZeros, IsWithin};

use crate::pixel_count::PixelCount;
use hayro_ccitt::bit_reader::BitOrder;
use hayro_ccitt::{DecodeError, DecodeSettings, DecoderContext, decode_in};
use std::alloc::{AllocError, Global};

/// What a reading comes to.
#[derive(Clone, Copy)]
pub(crate) struct Outcome {
    /// How many rows it has.
    pub(crate) rows: u64,
    /// How many bytes were read, or why the reading ended.
    pub(crate) end: hayro_ccitt::Result<usize>,
    /// Where the line begins that can't be read, or where an EOL is missing, in bits; 0 if there is none.
    pub(crate) fault_start: usize,
    /// How many rows are damaged.
    pub(crate) damaged: u64,
    /// How many pixels are black.
    pub(crate) black: u64,
}

impl Outcome {
    /// Returns how many bits were read, up to a whole byte where the reading ended without a fault.
    pub(crate) fn bits(&self) -> usize
        ensures ok { IfOk self.now.end (λ bytes. result ≡ min (8 * bytes) (2 ^ 64 - 1)) }
        ensures fault { OnErr self.now.end (result ≡ self.now.fault_start) }
    {
        match self.end {
            Ok(bytes) => bytes.saturating_mul(8),
            Err(_) => self.fault_start,
        }
    }
}

/// Reads data by settings.
///
/// # Errors
///
/// If an allocation fails.
pub(crate) fn read(
    alloc: Global,
    data: &[u8],
    order: BitOrder,
    settings: DecodeSettings,
) -> Result<Outcome, AllocError>
    requires fit { BitsFit «data».now }
    ensures rows { IfOk result (λ outcome. outcome.rows ≡ length (plain settings (bits_in order «data».now)).rows) }
    ensures end { IfOk result (λ outcome. outcome.end ≡ (plain settings (bits_in order «data».now)).outcome) }
    ensures within { IfOk result (IsWithin (length «data».now)) }
{
    with_all_rows(outcome_of(alloc, data, order, settings))
}

/// Returns what a reading comes to, if no allocation failed.
fn with_all_rows(outcome: Outcome) -> Result<Outcome, AllocError>
    ensures same { IfOk result (λ kept. kept ≡ outcome) }
    ensures fault { IfOk result (λ kept. IfErr kept.end IsFault) }
{
    match outcome.end {
        Err(DecodeError::OutOfMemory | DecodeError::Refused) => Err(AllocError),
        _ => Ok(outcome),
    }
}

/// Returns what a reading of data by settings comes to.
fn outcome_of(alloc: Global, data: &[u8], order: BitOrder, settings: DecodeSettings) -> Outcome
    requires fit { BitsFit «data».now }
    ensures rows { OnAnswer result.end (result.rows ≡ length (plain settings (bits_in order «data».now)).rows) }
    ensures end { OnAnswer result.end (result.end ≡ (plain settings (bits_in order «data».now)).outcome) }
    ensures within { IsWithin (length «data».now) result }
{
    let mut sink = PixelCount {
        columns: settings.columns,
        black: 0,
    };
    let mut ctx = match DecoderContext::new(alloc, settings) {
        Ok(ctx) => ctx,
        Err(error) => return without_rows(Err(error)),
    };
    let end = decode_in(order, data, &mut sink, &mut ctx);
    let damaged = ctx.damaged_rows().saturating_add(ctx.cut_rows());
    Outcome {
        rows: ctx.decoded_rows(),
        fault_start: ctx.fault_start().unwrap_or(0),
        damaged: damaged.saturating_add(ctx.missed_eols()),
        black: sink.black,
        end,
    }
}

/// Returns a reading without rows that ended so.
fn without_rows(end: hayro_ccitt::Result<usize>) -> Outcome
    ensures end { result.end ≡ end }
    ensures start { result.fault_start ≡ 0 }
{
    Outcome {
        rows: 0,
        end,
        fault_start: 0,
        damaged: 0,
        black: 0,
    }
}

/// Returns whether data has only zeros from an offset in bits on.
pub(crate) fn only_zeros(data: &[u8], place: usize, order: BitOrder) -> bool
    ensures { (count : ℕ) → place ≡ 8 * count → AreZeros (drop count «data».now) → IsTrue result }
{
    let first = place / 8;
    if first >= data.len() {
        return true;
    }
    bits_after(data[first], place % 8, order) == 0 && are_zeros(&data[first + 1..])
}

/// Returns the bits of a byte after the first ones, as they stand in it.
fn bits_after(byte: u8, used: usize, order: BitOrder) -> u32
    requires { used < 8 }
    ensures { byte ≡ 0 → result ≡ 0 }
{
    let byte = u32::from(byte);
    match order {
        BitOrder::HighestFirst => byte & (0xff >> used),
        BitOrder::LowestFirst => byte >> used,
    }
}

/// Returns whether all bytes are zeros.
fn are_zeros(bytes: &[u8]) -> bool
    ensures { AreZeros bytes.now → IsTrue result }
{
    for byte in bytes {
        if *byte != 0 {
            return false;
        }
    }
    true
}
