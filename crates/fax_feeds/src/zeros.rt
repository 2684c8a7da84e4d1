//! Bytes of zeros, after a one or none.

ghost use Rattle.std.specs.Prelude.{◌≡◌, ◌≢◌, ◌<◌, ◌*◌, ◌-◌, ◌%◌, ◌∷◌, length, true, false, replicate, []};
ghost use Rattle.fax_bits.specs.Bits.{bits_in};

use fax_bits::bit_reader::BitOrder;

/// Returns the byte of which the first bit alone is one.
fn first_one(order: BitOrder) -> u8
    ensures { bits_in order (result ∷ []) ≡ true ∷ replicate 7 false }
{
    match order {
        BitOrder::HighestFirst => 0x80,
        BitOrder::LowestFirst => 0x01,
    }
}

/// Writes zeros over bytes.
pub(crate) fn write_zeros(bytes: &mut [u8])
    ensures { bytes.new ≡ replicate (length bytes.old) 0 }
{
    bytes.fill(0);
}

/// Writes a one and zeros over bytes.
pub(crate) fn write_one_and_zeros(order: BitOrder, bytes: &mut [u8])
    requires some { 0 < length bytes.old }
    ensures { bits_in order bytes.new ≡ true ∷ replicate (8 * length bytes.old - 1) false }
{
    write_zeros(bytes);
    bytes[0] = first_one(order);
}

/// Returns whether a tag of one is at this offset that is the first bit of so many bytes.
pub(crate) fn begins_with_one(tag: bool, offset: usize, size: usize) -> bool
    ensures one { result ≡ true → (tag ≡ true) × (offset % 8 ≡ 0) × (0 < size) }
    ensures none { result ≡ false → tag ≡ true → 0 < size → offset % 8 ≢ 0 }
{
    tag && offset % 8 == 0 && size > 0
}
