//! Rows of a context as they are counted: those taken, damaged, cut or refused, and EOLs missed.

ghost use Rattle.std.specs.Prelude.{◌≡◌, ◌+◌, ◌-◌, ◌^◌, ◌<◌, false};
ghost use Rattle.fax_reading.specs.Context.{fresh, with_cut, with_missed};

use fax_bits::DecodeError;
use fax_bits::codes::{Ticks, tick_times};
use fax_lines::context::DecoderContext;
use fax_lines::context::row_record::{row_record, set_row_record};

/// Counts a row whose line was repaired after this fault.
pub(crate) fn count_damaged_row(ctx: &mut DecoderContext, fault: DecodeError)
    requires { ctx.old.held.repairs.rows + 1 < 2 ^ 64 }
    ensures frame { ctx.new ≡ record ctx.old {
      held = record ctx.old.held {
        repairs = record ctx.old.held.repairs {
          rows = ctx.old.held.repairs.rows + 1;
          fault = fault;
          last = ctx.old.held.taken;
        };
      };
    } }
{
    let mut rows = row_record(ctx);
    rows.damaged_rows += 1;
    rows.last_fault = fault;
    rows.last_damaged = rows.decoded_rows;
    set_row_record(ctx, rows);
}

/// Counts the last row as one in which a run was cut.
#[cold]
#[inline(never)]
pub(crate) fn count_cut_row(ctx: &mut DecoderContext)
    requires { 0 < ctx.old.held.taken }
    ensures frame { ctx.new ≡ record ctx.old {
      held = record ctx.old.held { repairs = with_cut (ctx.old.held.taken - 1) ctx.old.held.repairs };
    } }
{
    let mut rows = row_record(ctx);
    // At most one row is cut a row.
    if rows.cut_rows < rows.decoded_rows {
        rows.cut_rows += 1;
        set_row_record(ctx, rows);
    }
}

/// Counts an EOL that is missed after the rows so far, unless the last of them was repaired.
#[cold]
#[inline(never)]
pub(crate) fn count_missed_eol(ctx: &mut DecoderContext)
    ensures frame { ctx.new ≡ record ctx.old {
      held = record ctx.old.held { repairs = with_missed ctx.old.held.taken ctx.old.held.repairs };
    } }
{
    let mut rows = row_record(ctx);
    // At most one EOL is missed a row.
    if rows.last_damaged != rows.decoded_rows && rows.missed_eols < rows.decoded_rows {
        rows.missed_eols += 1;
        set_row_record(ctx, rows);
    }
}

/// Sets the offset of the fault.
pub fn set_fault_start(ctx: &mut DecoderContext, place: Option<usize>)
    ensures frame { ctx.new ≡ record ctx.old { held = record ctx.old.held { fault_start = place } } }
{
    let mut rows = row_record(ctx);
    rows.fault_start = place;
    set_row_record(ctx, rows);
}

/// Resets all but the settings to what a new context has.
pub fn restart(ctx: &mut DecoderContext)
    ensures frame { ctx.new ≡ record { held = fresh ctx.old.held.settings; passed = 0; cut = false; ticks = 0; space = ctx.old.space } }
{
    ctx.reset();
    *ctx.ticks() = Ticks::new();
}

/// Counts so many more rows that are the reference row again, each with two ticks: for its mode and for b1, or for the words of its run.
#[inline(always)]
pub(crate) fn take_rows_again(ctx: &mut DecoderContext, count: u64)
    requires { ctx.old.held.taken + count < 2 ^ 64 }
    ensures frame { ctx.new ≡ record ctx.old {
      held = record ctx.old.held { taken = ctx.old.held.taken + count };
      ticks = ctx.old.ticks + count + count;
    } }
{
    let mut rows = row_record(ctx);
    rows.decoded_rows += count;
    set_row_record(ctx, rows);
    tick_times(ctx.ticks(), count as usize);
    tick_times(ctx.ticks(), count as usize);
}

/// Takes back the last row, which the sink refused: it isn't counted, and this many rows are damaged, and in this many a
/// run was cut.
#[cold]
#[inline(never)]
pub(crate) fn take_back_row(ctx: &mut DecoderContext, damaged_rows: u64, cut_rows: u64)
    requires { 0 < ctx.old.held.taken }
    ensures frame { ctx.new ≡ record ctx.old {
      held = record ctx.old.held {
        taken = ctx.old.held.taken - 1;
        repairs = record ctx.old.held.repairs { rows = damaged_rows; cut = cut_rows };
      };
    } }
{
    let mut rows = row_record(ctx);
    rows.decoded_rows -= 1;
    rows.damaged_rows = damaged_rows;
    rows.cut_rows = cut_rows;
    set_row_record(ctx, rows);
}
