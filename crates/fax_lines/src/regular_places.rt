//! Where four vertical modes lead to, found at once.

ghost use Rattle.std.specs.Prelude.{get_or, length, ℕ, ◌≡◌, ◌+◌, ◌-◌, ◌<◌, ◌≤◌, ◌^◌, ◌∷◌};
ghost use Rattle.fax_lines.specs.RegularModes.{AreSet, IsRegular};

use std::simd::prelude::*;

/// Returns where four vertical modes lead to, whose b1 are four changes of the reference row from an index on: the place of
/// each is its change plus its offset, less three. The second result has a bit for each mode, the lowest for the first: if it
/// and those below it are set, the mode is regular.
#[inline(always)]
pub(crate) fn regular_places(
    places: &[u32],
    _columns: u32,
    index: usize,
    offsets: &[u8],
    painted: u32,
) -> ([u32; 4], u64)
    requires offsets { (4 ≤ length offsets.now) × ((k : ℕ) → k < 4 → get_or offsets.now k 3 ≤ 6) }
    requires within { (0 < index) × (index + 5 ≤ length places.now) }
    requires below { (k : ℕ) → get_or places.now k _columns ≤ _columns }
    requires fit { (painted ≤ _columns) × (_columns + 3 < 2 ^ 31) }
    ensures four { (length result.0 ≡ 4) × (result.1 < 16) }
    ensures place { (k : ℕ) → k < 4 → get_or result.0 k 0 ≤ _columns
        → get_or places.now (index + k) _columns + get_or offsets.now k 3 ≡ get_or result.0 k 0 + 3 }
    ensures regular { (k : ℕ) → k < 4 → AreSet result.1 (k + 1)
        → IsRegular _columns places.now (get_or (painted ∷ result.0) k 0) (index + k) (get_or result.0 k 0) }
{
    let offset = u8x4::from_slice(offsets);
    let here = u32x4::from_slice(&places[index..]);
    let next = u32x4::from_slice(&places[index + 1..]).cast::<i32>();
    let before = u32x4::from_slice(&places[index - 1..]).cast::<i32>();
    let reached = here.cast::<i32>() + offset.cast::<i32>() - i32x4::splat(3);
    let start = reached.shuffle::<4>(i32x4::splat(painted as i32), [4, 0, 1, 2]);
    let regular = reached.simd_gt(start) & next.simd_gt(reached) & !before.simd_gt(reached);
    // These are the sums of `reached`, without a sign: the compiler adds once.
    let place = here + offset.cast::<u32>() - u32x4::splat(3);
    (place.to_array(), regular.to_bitmask())
}
