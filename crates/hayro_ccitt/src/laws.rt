//! Laws of CCITT data, whatever program reads it: each is the contract of a function that does nothing. Those about definitions
//! alone are `fax_reading`'s.

ghost use Rattle.fax_feeds.specs.FeedsKeepLittle.{FeedsKeepLittle};
ghost use Rattle.fax_feeds.specs.FeedsPaid.{FeedsArePaid};
ghost use Rattle.hayro_ccitt.specs.Laws.{StepsOnRows};
ghost use Rattle.hayro_ccitt.specs.RowsOfFeeds.{PassesPlainRows};

use crate::Decoder;
pub use fax_reading::laws::{
    after_eofb, bits_of_bytes, changes_are_rows, code_reading, code_words,
    every_picture_has_an_encoding, gaps_settle, lines_by_eols, lines_go_on, lines_settle, locality,
    locality_by_k, no_damage, one_picture, pictures, row_limit, rows_after, rows_before,
    strict_then_lenient, synchronised, t4_pictures, t6_pictures,
};

/// A sink whose step depends on the pixels of a row's changes: over rows of its width it means what a fold of the step
/// over these rows yields (T.4, 4.2.1.1).
pub fn steps_on_rows<D: Decoder>()
    ensures { StepsOnRows D.Meaning }
{}

/// What all calls of a [`RowFeed`](crate::RowFeed) count: at most 64 ticks a bit that was fed and 256, and 32 for each call of
/// `next_row`, whatever pieces the data comes in. A call that fails for memory costs more.
pub fn feeds_paid()
    ensures { FeedsArePaid }
{}

/// How little of the data a [`RowFeed`](crate::RowFeed) keeps. After a call that needs more, each bit that was fed from the line or
/// the gap that is next on is needed for it: a line that is whole has all such bits, and a gap passes all but eleven. Where each
/// piece is fed after such a call, no more bits are kept than sixteen, or than the longest line needs, or gap whose EOL is missing,
/// than a piece has, and seven; and there is room for no more than twice as many (T.4, 4; T.6, 2).
pub fn feeds_keep_little()
    ensures { FeedsKeepLittle }
{}

/// The rows that a call of [`RowFeed::push_rows`](crate::RowFeed::push_rows) passes to its sink: those that the plain reading has
/// next, of any data of which the bytes fed so far are a beginning, in whatever pieces they came. Its end, its fault, or the
/// refusal of the sink comes after them (T.4, 4; T.6, 2).
pub fn feeds_pass_rows<D: Decoder>()
    ensures { PassesPlainRows D.meaning D.has_refused D.refuses }
{}
