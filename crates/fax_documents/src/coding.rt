//! What tags of a TIFF and keys of a PDF say of how rows are encoded.

ghost use Rattle.std.specs.Prelude.{◌≡◌};
ghost use Rattle.fax_documents.specs.Codings.{coding_of, fax_keys_of};

use fax_bits::{DecodeSettings, EncodingMode};

/// What a TIFF's tags say of how rows are encoded (TIFF 6.0, section 11).
#[derive(Clone, Copy, Debug, PartialEq, Eq)]
pub struct Coding {
    /// Compression.
    pub compression: u16,
    /// T4Options of compression 3, T6Options of 4; 0 of compression 2.
    pub options: u32,
}

/// What a PDF says of how rows are encoded: the entries of its filter's dictionary (ISO 32000-1, table 11).
#[derive(Clone, Copy, Debug, PartialEq, Eq)]
pub struct FaxKeys {
    /// K: below 0 for Group 4, 0 and above for Group 3 of one and of two dimensions.
    pub k: i32,
    /// EndOfLine.
    pub end_of_line: bool,
    /// EncodedByteAlign.
    pub encoded_byte_align: bool,
    /// EndOfBlock.
    pub end_of_block: bool,
    /// BlackIs1.
    pub black_is_1: bool,
}

/// Returns what a TIFF's tags say of rows that are encoded as settings say; `None` if TIFF has no such rows: those of Group 4 that are
/// aligned, and those of Group 3 without EOLs that have two dimensions or aren't aligned. `eols_end_at_bytes` says that fill precedes EOLs so
/// that they end at whole bytes (T.4, 4.1.3).
pub fn coding_of(settings: DecodeSettings, eols_end_at_bytes: bool) -> Option<Coding>
    ensures { result ≡ coding_of settings eols_end_at_bytes }
{
    let fill = if eols_end_at_bytes { 4 } else { 0 };
    let (compression, options) = match settings.encoding {
        EncodingMode::Group4 if !settings.rows_are_byte_aligned => (4, 0),
        EncodingMode::Group3_1D if settings.end_of_line => (3, fill),
        EncodingMode::Group3_1D if settings.rows_are_byte_aligned => (2, 0),
        EncodingMode::Group3_2D if settings.end_of_line => (3, fill + 1),
        _ => return None,
    };
    Some(Coding {
        compression,
        options,
    })
}

/// Returns what a PDF says of rows that are encoded as settings say, in which 1 stands for white if they are inverted.
pub fn fax_keys_of(settings: DecodeSettings, is_inverted: bool) -> FaxKeys
    ensures { result ≡ fax_keys_of settings is_inverted }
{
    FaxKeys {
        k: match settings.encoding {
            EncodingMode::Group4 => -1,
            EncodingMode::Group3_1D => 0,
            EncodingMode::Group3_2D => 4,
        },
        end_of_line: settings.end_of_line,
        encoded_byte_align: settings.rows_are_byte_aligned,
        end_of_block: settings.end_of_block,
        black_is_1: is_inverted,
    }
}
