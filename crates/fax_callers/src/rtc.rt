//! Where a page of Group 3 ends: after RTC, the first six EOLs in a row.

ghost use Rattle.std.specs.Prelude.{◌≡◌, ◌≤◌, ◌+◌, ◌++◌, ℕ, List, true, false, Some, IfNone, IfSome, length};
ghost use Rattle.hayro_ccitt.specs.Bits.{Bits, BitsFit, bits_in, here};
ghost use Rattle.fax_callers.specs.Rtc.{after_rtc, is_rtc, none_seen, one_more_up_to, page_size, rtc_size, with_bit, with_one};
ghost use Rattle.fax_callers.specs.Rtc.{FindsRtc, GoesOnAfter, PassesBits};

use hayro_ccitt::EncodingMode;
use hayro_ccitt::bit_reader::{BitOrder, BitReader};

/// What was seen just before a bit: EOLs in a row, at most six; zeros, at most eleven; and whether the bit is a tag.
#[derive(Copy, Clone)]
pub(crate) struct EolsSeen {
    eols: u32,
    zeros: u32,
    at_tag: bool,
}

/// Returns one more, up to a number.
fn one_more_up_to(most: u32, n: u32) -> u32
    ensures { result ≡ one_more_up_to most n }
{
    if n < most { n + 1 } else { n }
}

/// Returns what was seen after a one.
fn with_one(tags: bool, seen: EolsSeen) -> EolsSeen
    ensures { result ≡ with_one tags seen }
{
    if seen.zeros < 11 {
        return EolsSeen {
            eols: 0,
            zeros: 0,
            at_tag: false,
        };
    }
    EolsSeen {
        eols: one_more_up_to(6, seen.eols),
        zeros: 0,
        at_tag: tags,
    }
}

/// Returns what was seen after a bit.
fn with_bit(tags: bool, seen: EolsSeen, bit: bool) -> EolsSeen
    ensures { result ≡ with_bit tags seen bit }
{
    match (seen.at_tag, bit) {
        (true, true) => EolsSeen {
            eols: seen.eols,
            zeros: 0,
            at_tag: false,
        },
        (true, false) => EolsSeen {
            eols: 0, // the tag of a line
            zeros: 1,
            at_tag: false,
        },
        (false, true) => with_one(tags, seen),
        (false, false) => EolsSeen {
            eols: seen.eols,
            zeros: one_more_up_to(11, seen.zeros),
            at_tag: seen.at_tag,
        },
    }
}

/// Returns whether RTC was seen.
fn is_rtc(seen: EolsSeen) -> bool
    ensures { result ≡ is_rtc seen }
{
    seen.eols >= 6 && !seen.at_tag
}

/// Moves past the first RTC that ends here or later, and returns whether there is one; otherwise all bits are passed, and what
/// was seen is brought up to date.
fn pass_rtc(tags: bool, seen: &mut EolsSeen, reader: &mut BitReader<'_>) -> bool
    ensures found { result ≡ true → (more : Bits)
        → after_rtc tags seen.old (here reader.old ++ more) ≡ Some (here reader.new ++ more) }
    ensures none { result ≡ false → (more : Bits)
        → after_rtc tags seen.old (here reader.old ++ more) ≡ after_rtc tags seen.new more }
    ensures same_bits { reader.new.bits ≡ reader.old.bits }
{
    'bits: loop {
        match reader.read_bit() {
            Err(_) => return false,
            Ok(bit) => {
                *seen = with_bit(tags, *seen, bit == 1);
                if is_rtc(*seen) {
                    return true;
                }
            }
        }
    }
}

/// Creates a reader at the first bit of some data.
fn reader_of<'a>(order: BitOrder, data: &'a [u8]) -> BitReader<'a>
    requires fit { BitsFit «data».now }
    ensures { result ≡ record { bits = bits_in order «data».now; place = 0 } }
{
    match order {
        BitOrder::HighestFirst => BitReader::new(data),
        BitOrder::LowestFirst => BitReader::new_low_first(data),
    }
}

/// Returns what was seen at the start of a page: nothing.
pub(crate) fn none_seen() -> EolsSeen
    ensures { result ≡ none_seen }
{
    EolsSeen {
        eols: 0,
        zeros: 0,
        at_tag: false,
    }
}

/// Returns how many of the bytes that come next the first RTC ends within, the last one filled up; or `None` if it doesn't end
/// among them, and brings what was seen up to date.
pub(crate) fn find_rtc(
    tags: bool,
    order: BitOrder,
    seen: &mut EolsSeen,
    data: &[u8],
) -> Option<usize>
    requires fit { BitsFit «data».now }
    ensures found { IfSome result (λ n. (n ≤ length «data».now) × FindsRtc tags order seen.old «data».now n) }
    ensures none { IfNone result (PassesBits tags seen.old (bits_in order «data».now) seen.new) }
{
    let mut reader = reader_of(order, data);
    if !pass_rtc(tags, seen, &mut reader) {
        return None;
    }
    Some(reader.bit_pos().div_ceil(8))
}

/// Returns how many bytes the first RTC ends within, the last one filled up, or all if there is none.
fn rtc_size(tags: bool, order: BitOrder, data: &[u8]) -> usize
    requires fit { BitsFit «data».now }
    ensures size { result ≡ rtc_size tags (bits_in order «data».now) (length «data».now) }
    ensures within { result ≤ length «data».now }
{
    let mut seen = none_seen();
    find_rtc(tags, order, &mut seen, data).unwrap_or(data.len())
}

/// Returns how many bytes the page at the start of the data may occupy: in Group 3 those up to the end of the first RTC, in
/// Group 4 all.
pub(crate) fn page_size(encoding: EncodingMode, order: BitOrder, data: &[u8]) -> usize
    requires fit { BitsFit «data».now }
    ensures size { result ≡ page_size encoding order «data».now }
    ensures within { result ≤ length «data».now }
{
    match encoding {
        EncodingMode::Group4 => data.len(),
        EncodingMode::Group3_1D => rtc_size(false, order, data),
        EncodingMode::Group3_2D => rtc_size(true, order, data),
    }
}

/// Returns how many of the bytes that come next the page ends within; or `None` if it goes on after them, and brings what was seen
/// up to date. In Group 3 it ends with the first RTC, and in Group 4 where the reading finds its end.
pub(crate) fn find_page_end(
    encoding: EncodingMode,
    order: BitOrder,
    seen: &mut EolsSeen,
    piece: &[u8],
) -> Option<usize>
    requires fit { BitsFit piece.now }
    ensures found { IfSome result (λ n. (n ≤ length piece.now) × ((front more : List ℕ) → GoesOnAfter encoding order front seen.old
        → page_size encoding order (front ++ (piece.now ++ more)) ≡ length front + n)) }
    ensures none { IfNone result ((front : List ℕ) → GoesOnAfter encoding order front seen.old
        → GoesOnAfter encoding order (front ++ piece.now) seen.new) }
{
    match encoding {
        EncodingMode::Group4 => None,
        EncodingMode::Group3_1D => find_rtc(false, order, seen, piece),
        EncodingMode::Group3_2D => find_rtc(true, order, seen, piece),
    }
}
