//! What data begins and ends with.

use hayro_ccitt::bit_reader::BitOrder;

/// How many zeros an EOL has at least (T.4, 4.1.2).
const ZEROS_OF_EOL: u64 = 11;

/// EOFB: two EOLs, each of eleven zeros and a one (T.6, 2.4.1.1).
const EOFB: u32 = 0x1001;

/// How many bits EOFB has.
const BITS_OF_EOFB: u32 = 24;

/// Returns whether data begins with an EOL, perhaps with fill before it (T.4, 4.1.2 and 4.1.3).
pub(crate) fn begins_with_eol(data: &[u8], order: BitOrder) -> bool {
    let mut zeros: u64 = 0;
    for byte in data {
        if *byte != 0 {
            return zeros.saturating_add(u64::from(zeros_before(*byte, order))) >= ZEROS_OF_EOL;
        }
        zeros = zeros.saturating_add(8);
    }
    false
}

/// Returns how many zeros come before the first one of a byte.
fn zeros_before(byte: u8, order: BitOrder) -> u32 {
    match order {
        BitOrder::HighestFirst => byte.leading_zeros(),
        BitOrder::LowestFirst => byte.trailing_zeros(),
    }
}

/// Returns a byte with its first bit as the highest one.
pub(crate) fn highest_first(byte: u8, order: BitOrder) -> u8 {
    match order {
        BitOrder::HighestFirst => byte,
        BitOrder::LowestFirst => byte.reverse_bits(),
    }
}

/// Returns whether data ends with EOFB and fewer than eight zeros (T.6, 2.4.1.1).
pub(crate) fn ends_with_eofb(data: &[u8], order: BitOrder) -> bool {
    let start = data.len().saturating_sub(4);
    let mut last: u32 = 0;
    for byte in &data[start..] {
        last = last << 8 | u32::from(highest_first(*byte, order));
    }
    let zeros = last.trailing_zeros();
    if zeros >= 8 || (data.len() < 4 && zeros > 0) {
        return false;
    }
    last >> zeros & ((1 << BITS_OF_EOFB) - 1) == EOFB
}
