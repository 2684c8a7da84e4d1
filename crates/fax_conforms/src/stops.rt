//! Where data breaks a rule, and which one.

ghost use Rattle.std.specs.Prelude.{◌≡◌, Err};
ghost use Rattle.fax_conforms.specs.Stops.{IsViolated};

/// A rule of T.4 or T.6 that data breaks. What is expected at a place is what each line has there that begins with the same bits.
#[derive(Debug, Clone, Copy, PartialEq, Eq)]
pub enum Rule {
    /// A word of a mode is expected, and none is there (T.4 table 4, T.6 table 1).
    Mode,
    /// The words of a run are expected, which are make-up words and one terminating word, and none are there (T.4, 4.1.1).
    Run,
    /// A run is longer than the one that is expected, or a vertical mode is farther to the right than each that is: it ends beyond
    /// the row's end (T.4, 4.1.1 and 4.2.1.3).
    RowEnd,
    /// A run has no pixels where one of some is expected (T.4, 4.1.1), or a vertical mode is farther to the left than each that is:
    /// it isn't right of a0 (T.4, 4.2.1.3).
    NoPixels,
    /// The row has no columns.
    Columns,
    /// An EOL is expected before a line, and none is there (T.4, 4.1.2).
    Eol,
    /// A tag bit is expected, and the data ends (T.4, 4.2.2).
    Tag,
    /// Zeros up to a whole byte are expected after a line, and aren't there (T.4, 4.1.3).
    Padding,
    /// Pass mode where no pass mode is expected: b2 is the row's end, so that it isn't left of a1 (T.4, 4.2.1.3.2).
    PassToEnd,
    /// The coding procedure writes the row of the line here with other words of a run or other modes (T.4, 4.1.1 and 4.2.1.3; T.6,
    /// 2.2): the place is the first bit that differs.
    Procedure,
    /// A two-dimensional line where K allows none (T.4, 4.2.1): the place is its tag's.
    Kind,
    /// Fill before the first EOL, or before another EOL of RTC than its first (T.4, 4.1.3 and 4.1.4): the place is the fill's.
    Fill,
    /// The end isn't as the coding procedure writes it: RTC or EOFB isn't here, though due (T.4, 4.1.4; T.6, 2.4.1.1), or more
    /// than zeros up to a whole byte are here after the end.
    End,
}

/// Where data breaks a rule: the offset in bits of the word that breaks it.
#[derive(Debug, Clone, Copy, PartialEq, Eq)]
pub struct Violation {
    /// The number of bits before that word, or, with [`Rule::Procedure`], before the first bit that differs.
    pub place: usize,
    /// The rule that it breaks.
    pub rule: Rule,
}

/// Why a check ended early.
#[derive(Debug, Clone, Copy, PartialEq, Eq)]
pub enum Stop {
    /// The data breaks a rule.
    Violation(Violation),
    /// An allocation failed.
    OutOfMemory,
}

/// Returns the stop at a place where a rule is broken.
pub fn broken<T>(place: usize, rule: Rule) -> Result<T, Stop>
    ensures violated { IsViolated result }
    ensures exact { result ≡ Err (Stop.Violation (record { place = place; rule = rule })) }
{
    Err(Stop::Violation(Violation { place, rule }))
}
