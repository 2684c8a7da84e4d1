//! Rows as lists of changes: the positions at which a row's colour turns, white at first.

ghost use Rattle.std.specs.Prelude.{vec_len, vec_capacity, ◌≡◌, ◌≢◌, ◌+◌, ◌<◌, ◌≤◌, OnOk, OnErr, Err, IsOkUnless, false, length};
ghost use Rattle.std.specs.Prelude.{get_or, ◌++◌, ◌∷◌, [], replicate, true, max, IfSome, IfNone, Ok, pos, ◌+ℤ◌};
ghost use Rattle.fax_reading.specs.Rows.{AreChanges, pixels, b1, b2, is_black, last_pixel};
ghost use Rattle.fax_reading.specs.Lines.{place_from};
ghost use Rattle.fax_lines.specs.ContextSteps.{GrowsFor, PassesChanges, StaysFull};
ghost use Rattle.fax_reading.specs.Context.{right_of_painted, ArePassed, passed_changes};

use fax_bits::codes::{Color, Ticks};
use fax_bits::{DecodeError, Result};

/// Returns the index of b1 among the changes of a reference row, given the number of pixels painted and the colour of
/// the next ones; b2 is the next change. `passed` is how many changes are known not to be right of a0; afterwards it is
/// the number of all such changes. Each change that is examined is a tick, and known ones are not examined.
#[inline(always)]
pub fn b1_index(
    changes: &[u32],
    painted: u32,
    color: Color,
    columns: u32,
    passed: &mut usize,
    ticks: &mut Ticks,
) -> usize
    requires lawful { AreChanges columns changes.now }
    requires passed { ArePassed changes.now painted passed.old }
    ensures passes { PassesChanges changes.now painted passed.old passed.new ticks.old ticks.new }
    ensures all { passed.new ≡ passed_changes changes.now painted }
    ensures b1 { b1 (pixels columns changes.now) (right_of_painted painted) color
        ≡ get_or changes.now result columns }
    ensures b2 { b2 (pixels columns changes.now) (right_of_painted painted) color
        ≡ get_or changes.now (result + 1) columns }
    ensures within { result ≤ length changes.now + 1 }
{
    let mut index = *passed;
    if painted > 0 {
        while index < changes.len() && changes[index] <= painted {
            ticks.tick();
            index += 1;
        }
    }
    *passed = index;
    ticks.tick();
    // A change with an even index turns to black.
    if index.is_multiple_of(2) != color.is_white() {
        index += 1;
    }
    index
}

/// Returns the change at an index, or the row's end if there is none.
#[inline(always)]
pub fn change_or_end(changes: &[u32], index: usize, columns: u32) -> u32
    ensures { result ≡ get_or changes.now index columns }
{
    changes.get(index).copied().unwrap_or(columns)
}

/// Returns the position that a vertical mode names, this far from b1, unless it is left of the pixels painted or has more than 32
/// bits (T.4, 4.2.1.3).
#[inline(always)]
pub fn vertical_place(b1: u32, painted: u32, offset: i8) -> Option<u32>
    ensures place { IfSome result (λ place. place_from painted (pos b1 +ℤ offset) ≡ Ok place) }
    ensures none { IfNone result (place_from painted (pos b1 +ℤ offset) ≡ Err DecodeError.Overflow) }
    ensures right { IfSome result (λ place. painted ≤ place) }
{
    let place = i64::from(b1) + i64::from(offset);
    if place < i64::from(painted) || place > i64::from(u32::MAX) {
        return None;
    }
    Some(place as u32)
}

/// Makes room for as many changes again, and for at least 64 more, and for no more than that; returns whether there is.
#[cold]
#[inline(never)]
pub(crate) fn make_room(changes: &mut Vec<u32>) -> bool
    ensures room { result ≡ true → vec_len changes.new + 64 ≤ vec_capacity changes.new }
    ensures same { changes.new.items ≡ changes.old.items }
    ensures full { result ≡ false → vec_capacity changes.old < vec_len changes.old + max 64 (vec_len changes.old) }
    ensures space { GrowsFor (vec_len changes.old) (vec_capacity changes.old) (vec_capacity changes.new) }
    ensures left { result ≡ false → vec_capacity changes.new ≡ vec_capacity changes.old }
{
    let more = changes.len().max(64);
    changes.reserve_exact(more).is_ok()
}

/// Stores a change at a position.
///
/// # Errors
///
/// `OutOfMemory` if the list is full and can't grow. Then nothing has changed.
#[inline(always)]
fn try_push_change(changes: &mut Vec<u32>, place: u32) -> Result<()>
    ensures items { OnOk result (changes.new.items ≡ changes.old.items ++ place ∷ []) }
    ensures full { OnErr result (StaysFull changes.old.items changes.new.items (vec_capacity changes.old)
        (vec_capacity changes.new)) }
    ensures only_memory { IsOkUnless result DecodeError.OutOfMemory }
    ensures space { GrowsFor (vec_len changes.old) (vec_capacity changes.old) (vec_capacity changes.new) }
{
    if changes.len() == changes.capacity() {
        if !make_room(changes) {
            return Err(DecodeError::OutOfMemory);
        }
    }
    changes.push_reserved(place);
    Ok(())
}

/// Appends `count` pixels of a colour to the changes of a front of `painted` pixels. A change is stored only if the
/// last pixel has another colour.
///
/// # Errors
///
/// `OutOfMemory` if the list is full and can't grow. Then nothing has changed.
#[inline(always)]
pub fn append_pixels(changes: &mut Vec<u32>, painted: u32, color: Color, count: u32) -> Result<()>
    requires { AreChanges painted changes.old.items }
    ensures lawful { OnOk result (AreChanges (painted + count) changes.new.items) }
    ensures painted { OnOk result (pixels (painted + count) changes.new.items
        ≡ pixels painted changes.old.items ++ replicate count (is_black color)) }
    ensures memory { result ≡ Err DecodeError.OutOfMemory
        → (0 < count) × (last_pixel false (pixels painted changes.old.items) ≢ is_black color) }
    ensures full { OnErr result (StaysFull changes.old.items changes.new.items (vec_capacity changes.old)
        (vec_capacity changes.new)) }
    ensures only_memory { IsOkUnless result DecodeError.OutOfMemory }
    ensures few { length changes.new.items ≤ length changes.old.items + 1 }
    ensures space { GrowsFor (vec_len changes.old) (vec_capacity changes.old) (vec_capacity changes.new) }
{
    // The colours of a row alternate, so after an odd number of changes its last pixel is black.
    let last_is_white = changes.len().is_multiple_of(2);
    if count > 0 && last_is_white != color.is_white() {
        try_push_change(changes, painted)?;
    }
    Ok(())
}
