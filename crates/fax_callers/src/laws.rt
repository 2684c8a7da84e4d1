//! Laws of these callers: each is the contract of a function that does nothing.

ghost use Rattle.fax_callers.specs.PagesPaid.{PagesArePaid};

/// What all calls of a [`PageFeed`](crate::PageFeed) count: at most 544 ticks for each byte that was fed, or given again to the
/// next page, 288 for each page, and 32 for each call of `next_row`, whatever pieces the data comes in. A call that fails for
/// memory costs more. Of pages of Group 3, each closed by RTC, no byte is given again; of pages of Group 4 without a row limit no
/// more than there are up to the end of the last, and 66 a page.
pub fn pages_paid()
    ensures { PagesArePaid }
{}
