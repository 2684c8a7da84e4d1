//! The settings of decoding: how the data is encoded, and how much of it is decoded.

/// How the image is encoded. In PDF a `K` below 0 is Group 4, 0 one-dimensional and above 0 two-dimensional Group 3; in TIFF
/// compression 4 is Group 4, and 3 is Group 3, two-dimensional if the lowest bit of T4Options is set.
#[derive(Copy, Clone, Debug, PartialEq, Eq)]
pub enum EncodingMode {
    /// Group 4: every line is two-dimensional (T.6, MMR).
    Group4,
    /// Group 3, one-dimensional (T.4, 4.1, MH).
    Group3_1D,
    /// Group 3, two-dimensional: a tag bit before each line says which kind it is (T.4, 4.2, MR).
    Group3_2D,
}

/// How the data is encoded, and how much of it is decoded. The data itself doesn't say: these come from the file around it,
/// from the parameters of a PDF's CCITTFaxDecode filter or a TIFF's tags.
#[derive(Copy, Clone, Debug)]
pub struct DecodeSettings {
    /// The width of the image in pixels. If it is 0, nothing is decoded, and the result is 0 bytes.
    pub columns: u32,
    /// The largest number of rows that are decoded; 0 is no limit. When the limit is reached the image ends without an
    /// error.
    pub rows: u32,
    /// Whether EOFB (two EOLs, T.6, 2.4.1.1) or RTC (six EOLs, T.4, 4.1.4 and 4.2.4) ends the image. It
    /// may be missing: the row limit and the end of the data end the image as well.
    pub end_of_block: bool,
    /// Whether an EOL precedes each line of Group 3 (T.4, 4.1.2). Data that begins with an EOL is read as if this
    /// were set. In Group 4 it has no effect.
    pub end_of_line: bool,
    /// Whether each row is padded up to a whole byte, with bits of any value. In Group 3 with EOLs it has no effect.
    pub rows_are_byte_aligned: bool,
    /// How the image is encoded.
    pub encoding: EncodingMode,
    /// Whether data that breaks a rule is an error. A lenient reading cuts runs at the row's end, repairs damaged lines of
    /// Group 3 with EOLs, and continues if an EOL is missing.
    pub strict: bool,
}
