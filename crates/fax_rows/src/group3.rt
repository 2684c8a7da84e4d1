//! Group 3: EOLs at the start of the data, between the lines and at the end, and repair of damaged lines (T.4).

ghost use Rattle.std.specs.Prelude.{◌≡◌, ◌≢◌, ◌↔◌, ◌<◌, ◌≤◌, ◌+◌, ◌*◌, Err, OnOk, OnErr, IfOk, IfErr, IsOkUnless, IsTrue, true};
ghost use Rattle.std.specs.Prelude.{nat_lt, ◌||◌, length};
ghost use Rattle.fax_reading.specs.Answers.{IsFault, IsRepairable, RepairStoresChange};
ghost use Rattle.fax_bits.specs.Bits.{here};
ghost use Rattle.fax_reading.specs.Context.{after_repair};
ghost use Rattle.fax_rows.specs.Contract.{BeginsRows};
ghost use Rattle.fax_bits.specs.EndOfLine.{all_eols};
ghost use Rattle.fax_reading.specs.Decoding.{DecodesRows, FailsHere, leaving, gap_said, repairs_after};
ghost use Rattle.fax_reading.specs.PlainReading.{gap_after_row};
ghost use Rattle.fax_reading.specs.Rows.{changes};
ghost use Rattle.fax_rows.specs.RowsTried.{LacksEol, PassesGap};
ghost use Rattle.fax_lines.specs.ContextSteps.{GrowsFor, GrowsForBits};
ghost use Rattle.fax_lines.specs.SinkStates.{state_of};
ghost use Rattle.fax_bits.specs.Ticks.{looked, looked_ahead};

use crate::push_rows::push_rows;
use crate::rows::pass_gap;
use fax_bits::bit_reader::BitReader;
use fax_bits::{DecodeError, EncodingMode, Result};
use fax_lines::Decoder;
use fax_lines::context::DecoderContext;

/// Returns whether an error is a fault of the data, not an allocation failure or a refusal of the sink.
fn is_fault(error: DecodeError) -> bool
    ensures { IsTrue result ↔ IsFault error }
{
    !matches!(error, DecodeError::OutOfMemory | DecodeError::Refused)
}

/// Repairs a line that failed with this error and began at `line_start` (T.4, 4.1.2). In lenient data with EOLs,
/// after a fault of the data, the rest of the row is white, and the reader goes back to the line's start, to look for
/// the next EOL from there.
///
/// # Errors
///
/// The error itself if it isn't repaired, as allocation failures and refusals never are; `OutOfMemory` while a change
/// is stored. After an error nothing has changed.
pub fn recover<'a>(
    ctx: &mut DecoderContext,
    reader: &mut BitReader<'a>,
    line_start: BitReader<'a>,
    error: DecodeError,
) -> Result<()>
    ensures only_damage { OnOk result (IsRepairable ctx.old.held error) }
    ensures frame { OnOk result (ctx.new ≡ record ctx.old { held = after_repair ctx.old.held; space = ctx.new.space }) }
    ensures put_back { OnOk result (reader.new ≡ line_start.entry) }
    ensures only_memory { IsRepairable ctx.old.held error → IsOkUnless result DecodeError.OutOfMemory }
    ensures memory { IsRepairable ctx.old.held error → result ≡ Err DecodeError.OutOfMemory
        → RepairStoresChange ctx.old.held }
    ensures otherwise { (IsRepairable ctx.old.held error → ⊥) → result ≡ Err error }
    ensures unchanged { OnErr result ((ctx.new ≡ ctx.old) × (reader.new ≡ reader.old)) }
    ensures space { GrowsFor (length (changes ctx.old.held.front)) ctx.old.space ctx.new.space }
{
    if ctx.settings().strict || !ctx.has_eols() || !is_fault(error) {
        return Err(error);
    }
    ctx.fill_white()?;
    *reader = line_start;
    Ok(())
}

/// Returns whether the image ends after a row (T.4, 4.1.2 and 4.1.4): true at RTC, the row limit or the end of
/// the data. It counts the EOLs there. If there are none although the data has EOLs, the next one is looked for, and if
/// none is left EOLs are no longer sought; in lenient data an EOL is counted as missed then, unless the last row was
/// repaired. It allocates nothing. Each bit that is examined is a tick: one that is consumed at most four times.
///
/// # Errors
///
/// `InvalidCode` if an EOL is missing in strict data.
pub fn check_eob(ctx: &mut DecoderContext, reader: &mut BitReader<'_>) -> Result<bool>
    requires encoding { ctx.old.held.settings.encoding ≢ EncodingMode.Group4 }
    requires some { 0 < ctx.old.held.taken }
    ensures passes { PassesGap ctx.old ctx.new result (here reader.old) (here reader.new) }
    ensures lacks { OnErr result (LacksEol ctx.old ctx.new (here reader.old) (here reader.new)) }
    ensures at_least { OnOk result (ctx.old.ticks + length (here reader.old) ≤ ctx.new.ticks + length (here reader.new)) }
    ensures same_bits { reader.new.bits ≡ reader.old.bits }
    ensures space { ctx.new.space ≡ ctx.old.space }
{
    pass_gap(ctx, reader)
}

/// Reads the EOLs at the start of the data, which have no tags. Any of them, or the settings, say that the data has
/// EOLs.
pub(crate) fn read_leading_eols(ctx: &mut DecoderContext, reader: &mut BitReader<'_>)
    ensures rest { here reader.new ≡ (all_eols (here reader.old)).1 }
    ensures has_eols { ctx.new.held ≡ record ctx.old.held {
      has_eols = nat_lt 0 (all_eols (here reader.old)).0 || ctx.old.held.settings.end_of_line;
    } }
    ensures same_bits { reader.new.bits ≡ reader.old.bits }
    ensures counts { ctx.old.ticks ≤ ctx.new.ticks }
    ensures work { ctx.new.ticks + length (here reader.new)
        ≤ ctx.old.ticks + length (here reader.old) + looked (here reader.new) }
    ensures space { ctx.new.space ≡ ctx.old.space }
{
    let count = reader.read_eol_if_available(ctx.ticks());
    let end_of_line = ctx.settings().end_of_line;
    ctx.set_has_eols(count > 0 || end_of_line);
}

/// Decodes the rows of one-dimensional data of Group 3 (T.4, 4.1) until RTC (with `end_of_block`), the row limit
/// or the end of the data.
///
/// # Errors
///
/// Those of a line that isn't repaired, `InvalidCode` if strict data misses an EOL, and `Refused` if the sink refuses a
/// row.
pub fn decode_1d<D: Decoder>(
    ctx: &mut DecoderContext,
    reader: &mut BitReader<'_>,
    decoder: &mut D,
) -> Result<()>
    requires encoding { ctx.old.held.settings.encoding ≡ EncodingMode.Group3_1D }
    requires begins { BeginsRows ctx.old reader.old }
    requires width { ctx.old.held.settings.columns ≤ D.width decoder.old }
    ensures width { D.width decoder.new ≡ D.width decoder.old }
    ensures rows { DecodesRows reader.old.bits (D.step (D.width decoder.old))
        (state_of D.Decoder decoder.old) (state_of D.Decoder decoder.new) ctx.old ctx.new (leaving result (here reader.new)) }
    ensures fails { OnErr result (FailsHere ctx.old.held.settings reader.old.bits ctx.new.held.taken (here reader.new)) }
    ensures same_bits { reader.new.bits ≡ reader.old.bits }
    ensures space { GrowsForBits reader.old.bits ctx.old ctx.new }
{
    push_rows(ctx, reader, decoder) // No line has a tag.
}

/// Decodes the rows of two-dimensional data of Group 3 (T.4, 4.2), each after its tag, until RTC (with
/// `end_of_block`), the row limit or the end of the data.
///
/// # Errors
///
/// Those of a line that isn't repaired, `InvalidCode` if strict data misses an EOL, and `Refused` if the sink refuses a
/// row.
pub fn decode_2d<D: Decoder>(
    ctx: &mut DecoderContext,
    reader: &mut BitReader<'_>,
    decoder: &mut D,
) -> Result<()>
    requires encoding { ctx.old.held.settings.encoding ≡ EncodingMode.Group3_2D }
    requires begins { BeginsRows ctx.old reader.old }
    requires width { ctx.old.held.settings.columns ≤ D.width decoder.old }
    ensures width { D.width decoder.new ≡ D.width decoder.old }
    ensures rows { DecodesRows reader.old.bits (D.step (D.width decoder.old))
        (state_of D.Decoder decoder.old) (state_of D.Decoder decoder.new) ctx.old ctx.new (leaving result (here reader.new)) }
    ensures fails { OnErr result (FailsHere ctx.old.held.settings reader.old.bits ctx.new.held.taken (here reader.new)) }
    ensures same_bits { reader.new.bits ≡ reader.old.bits }
    ensures space { GrowsForBits reader.old.bits ctx.old ctx.new }
{
    push_rows(ctx, reader, decoder) // Each line has its tag.
}
