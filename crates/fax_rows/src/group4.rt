//! Group 4: every line is two-dimensional (T.6).

ghost use Rattle.std.specs.Prelude.{◌≡◌, ◌<◌, ◌≤◌, OnErr, false};
ghost use Rattle.fax_bits.specs.Bits.{here};
ghost use Rattle.fax_rows.specs.Contract.{BeginsRows};
ghost use Rattle.fax_reading.specs.Decoding.{DecodesRows, FailsHere, leaving};
ghost use Rattle.fax_lines.specs.ContextSteps.{GrowsForBits};
ghost use Rattle.fax_lines.specs.SinkStates.{state_of};

use crate::push_rows::push_rows;
use fax_bits::bit_reader::BitReader;
use fax_bits::{EncodingMode, Result};
use fax_lines::Decoder;
use fax_lines::context::DecoderContext;

/// Decodes the rows of Group 4 data until EOFB (with `end_of_block`), the row limit or the end of the data.
///
/// # Errors
///
/// Those of a line, and `Refused` if the sink refuses a row.
pub fn decode<D: Decoder>(
    ctx: &mut DecoderContext,
    reader: &mut BitReader<'_>,
    decoder: &mut D,
) -> Result<()>
    requires encoding { ctx.old.held.settings.encoding ≡ EncodingMode.Group4 }
    requires begins { BeginsRows ctx.old reader.old }
    requires width { ctx.old.held.settings.columns ≤ D.width decoder.old }
    ensures width { D.width decoder.new ≡ D.width decoder.old }
    ensures rows { DecodesRows reader.old.bits (D.step (D.width decoder.old))
        (state_of D.Decoder decoder.old) (state_of D.Decoder decoder.new) ctx.old ctx.new (leaving result (here reader.new)) }
    ensures fails { OnErr result (FailsHere ctx.old.held.settings reader.old.bits ctx.new.held.taken (here reader.new)) }
    ensures no_eols { ctx.new.held.has_eols ≡ false }
    ensures same_bits { reader.new.bits ≡ reader.old.bits }
    ensures space { GrowsForBits reader.old.bits ctx.old ctx.new }
{
    push_rows(ctx, reader, decoder) // Each line is two-dimensional.
}
