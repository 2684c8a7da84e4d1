//! Where a page of Group 3 ends in data that comes in pieces.

ghost use Rattle.std.specs.Prelude.{◌≡◌, ◌≤◌, ◌++◌, List, ℕ, [], IfNone, IfSome, length};
ghost use Rattle.hayro_ccitt.specs.Bits.{BitsFit, bits_in};
ghost use Rattle.hayro_ccitt.specs.DecodeSettings.{DecodeSettings};
ghost use Rattle.hayro_ccitt.specs.Rows.{Row};
ghost use Rattle.fax_callers.specs.PageSearches.{EndsPageWithin, FoundAt, HasPassed, kind_of};
ghost use Rattle.fax_callers.specs.Pages.{IsPage};

use crate::rtc::{EolsSeen, find_rtc, none_seen};
use hayro_ccitt::bit_reader::BitOrder;

/// Finds where a page of Group 3 ends in data that comes in pieces: after RTC, the first six EOLs in a row.
///
/// # Example
///
/// ```text
/// let mut search = PageSearch::new(order, two_dimensional);
/// let mut rows = RowFeed::new(alloc, order, settings)?;
/// for piece in pieces {
///     let mut piece = piece;
///     while let Some(end) = search.find_end(piece) {
///         rows.feed(&piece[..end])?;
///         rows.finish();
///         while rows.next_row()? == Fed::Row {
///             show(rows.row());
///         }
///         piece = &piece[end..];
///         search = PageSearch::new(order, two_dimensional);
///         rows = RowFeed::new(alloc, order, settings)?;
///     }
///     rows.feed(piece)?;
///     while rows.next_row()? == Fed::Row {
///         show(rows.row());
///     }
/// }
/// ```
#[derive(Drop)]
pub struct PageSearch {
    two_dimensional: bool,
    order: BitOrder,
    seen: EolsSeen,
}

impl PageSearch {
    /// Creates a search at the start of a page, one- or two-dimensional, whose bytes hold their bits in this order.
    pub fn new(order: BitOrder, two_dimensional: bool) -> PageSearch
        ensures start { HasPassed result [] }
        ensures kind { result.two_dimensional ≡ two_dimensional }
        ensures order { result.order ≡ order }
    {
        PageSearch {
            two_dimensional,
            order,
            seen: none_seen(),
        }
    }

    /// Returns after how many of the bytes that come next the page ends, or `None` if it goes on after them. Once it was found,
    /// a search for the end of the next page is a new one.
    pub fn find_end(&mut self, piece: &[u8]) -> Option<usize>
        requires fit { BitsFit piece.now }
        // Whatever the bytes before were and those after are, the first RTC ends within the last of these.
        ensures found { IfSome result (λ n. (n ≤ length piece.now) × EndsPageWithin self.old piece.now n) }
        ensures none { IfNone result ((front : List ℕ) → HasPassed self.old front → HasPassed self.new (front ++ piece.now)) }
        // The end of a page is found among the bytes that have it, whatever the pieces are and whatever follows it.
        ensures closed { (front more : List ℕ) (settings : DecodeSettings) (rows : List Row) (count : ℕ) → HasPassed self.old front
            → settings.encoding ≡ kind_of self.old.two_dimensional
            → IsPage settings rows count (bits_in self.old.order (front ++ (piece.now ++ more)))
            → FoundAt result (length front) (length piece.now) count }
        ensures kind { self.new.two_dimensional ≡ self.old.two_dimensional }
        ensures order { self.new.order ≡ self.old.order }
    {
        find_rtc(self.two_dimensional, self.order, &mut self.seen, piece)
    }
}
