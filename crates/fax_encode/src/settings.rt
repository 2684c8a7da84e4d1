//! The settings of encoding: how the lines are encoded, and what precedes and follows them.

use fax_bits::EncodingMode;
use fax_bits::bit_reader::BitOrder;

/// How much is done to find the words of a line (T.4, 4.1.1 and 4.2.1.3). Every decoder reads either.
#[derive(Copy, Clone, Debug, PartialEq, Eq)]
pub enum Effort {
    /// The make-up words of T.4, 4.1.1 and the procedure of T.4, 4.2.1.3.2 and T.6, 2.2.5, which other encoders follow: their
    /// lines bit for bit.
    Procedure,
    /// The fewest bits that encode the line. Where the other line has as few, it is that line. One-dimensional lines differ
    /// only in runs of more than 2623 pixels.
    Shortest,
}

/// How an image is encoded. The matching `DecodeSettings` have the same encoding, `end_of_line` and
/// `rows_are_byte_aligned`, and either `end_of_block` or the number of rows as the limit.
#[derive(Copy, Clone, Debug)]
pub struct EncodeSettings {
    /// How the lines are encoded.
    pub encoding: EncodingMode,
    /// K of two-dimensional Group 3, at least 1: after a one-dimensional line at most K - 1 lines are two-dimensional (T.4,
    /// 4.2.1). In the other encodings it has no effect.
    pub k: u32,
    /// Whether an EOL precedes each line of Group 3 (T.4, 4.1.2). Group 4 has none.
    pub end_of_line: bool,
    /// Whether fill precedes EOLs so that they end at whole bytes (T.4, 4.1.3), as TIFF's T4Options bit 2 says.
    pub eols_end_at_bytes: bool,
    /// Whether each line without an EOL is padded up to a whole byte with zeros. In one-dimensional Group 3 this is TIFF's
    /// compression 2.
    pub rows_are_byte_aligned: bool,
    /// Whether EOFB follows the last line of Group 4 (T.6, 2.4.1.1), or RTC that of Group 3 with EOLs (T.4,
    /// 4.1.4 and 4.2.4).
    pub end_of_block: bool,
    /// Which bit of each byte comes first.
    pub order: BitOrder,
    /// How the words of lines are found.
    pub effort: Effort,
}
