//! What draws a line by bits at hand.

ghost use Rattle.std.specs.Prelude.{vec_capacity, ◌≡◌};
ghost use Rattle.fax_lines.specs.DrawnModes.{pen_with};

use fax_bits::bit_reader::Window;
use fax_bits::codes::Ticks;
use std::mem;

/// The bits that are read, the changes of the row that is drawn, and the count of work.
#[derive(Drop)]
pub(crate) struct RowPen<'a> {
    pub(crate) window: Window<'a>,
    pub(crate) row: Vec<u32>,
    pub(crate) ticks: Ticks,
}

/// Returns a pen with these bits, and with the row and the count moved into it. The count that is left is zero.
#[inline(always)]
pub(crate) fn take_up<'a>(window: &Window<'a>, row: &mut Vec<u32>, ticks: &mut Ticks) -> RowPen<'a>
    ensures pen { result ≡ pen_with window.now row.old ticks.old }
    ensures none { ticks.new ≡ 0 }
{
    let empty = Vec::new(*row.allocator());
    RowPen {
        window: window.copy(),
        row: mem::replace(row, empty),
        ticks: mem::replace(ticks, Ticks::new()),
    }
}

/// Moves what a pen has back to where it was. Nothing was counted there meanwhile.
#[inline(always)]
pub(crate) fn lay_down<'a>(
    pen: RowPen<'a>,
    window: &mut Window<'a>,
    row: &mut Vec<u32>,
    ticks: &mut Ticks,
)
    requires none { ticks.old ≡ 0 }
    ensures { pen_with window.new row.new ticks.new ≡ pen.entry }
{
    let RowPen {
        window: bits,
        row: own,
        ticks: count,
    } = pen;
    *window = bits;
    // What is left there is empty.
    mem::forget(mem::replace(row, own));
    *ticks = count;
}
