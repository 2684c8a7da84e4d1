//! The ways in which data may be encoded.

ghost use Rattle.std.specs.Prelude.{◌≡◌, ℕ, ◌<◌, IsTrue, IsFalse, get_or, false};
ghost use Rattle.hayro_ccitt.specs.Bits.{bits_in, bits_of_byte};
ghost use Rattle.fax_guess.specs.Guesses.{MayBegin, form_of, may_have_eols, settings_of};

use hayro_ccitt::bit_reader::BitOrder;
use hayro_ccitt::{DecodeSettings, EncodingMode};

/// An encoding, whether its rows end at whole bytes, and its order of bits.
#[derive(Clone, Copy)]
pub(crate) struct Form {
    /// The encoding.
    pub(crate) encoding: EncodingMode,
    /// Whether each row is padded up to a whole byte.
    pub(crate) is_aligned: bool,
    /// Which bit of each byte comes first.
    pub(crate) order: BitOrder,
}

/// Encodings, whether their rows end at whole bytes, and orders of bits. Rows that end so have no EOLs, and no tags.
pub(crate) const FORMS: [(EncodingMode, bool, BitOrder); 10] = [
    (EncodingMode::Group3_1D, false, BitOrder::HighestFirst),
    (EncodingMode::Group3_2D, false, BitOrder::HighestFirst),
    (EncodingMode::Group4, false, BitOrder::HighestFirst),
    (EncodingMode::Group4, true, BitOrder::HighestFirst),
    (EncodingMode::Group3_1D, true, BitOrder::HighestFirst),
    (EncodingMode::Group3_1D, false, BitOrder::LowestFirst),
    (EncodingMode::Group3_2D, false, BitOrder::LowestFirst),
    (EncodingMode::Group4, false, BitOrder::LowestFirst),
    (EncodingMode::Group4, true, BitOrder::LowestFirst),
    (EncodingMode::Group3_1D, true, BitOrder::LowestFirst),
];

/// Widths of fax machines (T.4, 2 and T.6, 1; 200, 300 and 400 dots an inch), and of scanned A4, letter and legal pages.
pub(crate) const USUAL: [u32; 19] = [
    1728, 2048, 2432, 2592, 3456, 3072, 4096, 2480, 2550, 2560, 1240, 1700, 1656, 1704, 4960, 5100,
    864, 1216, 1024,
];

/// Other widths are tried up to this one.
pub(crate) const MOST_COLUMNS: u32 = 10_000;

/// Returns whether a width is one of fax machines, or of scanned pages of A4, letter or legal.
pub fn is_usual(columns: u32) -> bool {
    USUAL.contains(&columns)
}

impl Form {
    /// Returns the form of this encoding and order of bits.
    pub(crate) fn of(form: (EncodingMode, bool, BitOrder)) -> Form
        ensures { result ≡ form_of form }
    {
        Form {
            encoding: form.0,
            is_aligned: form.1,
            order: form.2,
        }
    }

    /// Returns the settings by which data of this form and width is read.
    pub(crate) fn settings(&self, columns: u32, strict: bool) -> DecodeSettings
        ensures { result ≡ settings_of self.now columns strict }
    {
        DecodeSettings {
            columns,
            rows: 0,
            end_of_block: true,
            end_of_line: false,
            rows_are_byte_aligned: self.is_aligned,
            encoding: self.encoding,
            strict,
        }
    }

    /// Returns whether the first bits of data allow this form: only Group 3 begins with an EOL, and no rows that end at whole bytes.
    pub(crate) fn may_begin(&self, data: &[u8]) -> bool
        ensures { MayBegin self.now «data».now → IsTrue result }
    {
        self.may_have_eols() || !begins_with_zeros(data, self.order)
    }

    /// Returns whether data of this form may have EOLs.
    fn may_have_eols(&self) -> bool
        ensures { result ≡ may_have_eols self.now.encoding self.now.is_aligned }
    {
        match self.encoding {
            EncodingMode::Group4 => false,
            EncodingMode::Group3_1D | EncodingMode::Group3_2D => !self.is_aligned,
        }
    }
}

/// Returns whether data begins with eleven zeros, as many as an EOL has at least (T.4, 4.1.2), or is shorter and has no one.
fn begins_with_zeros(data: &[u8], order: BitOrder) -> bool
    ensures { IsTrue result → (i : ℕ) → i < 11 → get_or (bits_in order «data».now) i false ≡ false }
{
    let first = data.first().copied().unwrap_or(0);
    let second = data.get(1).copied().unwrap_or(0);
    first == 0 && has_three_zeros(second, order)
}

/// Returns whether a byte begins with three zeros.
fn has_three_zeros(byte: u8, order: BitOrder) -> bool
    ensures { IsTrue result → (i : ℕ) → i < 3 → get_or (bits_of_byte order byte) i false ≡ false }
{
    match order {
        BitOrder::HighestFirst => byte < 32,
        BitOrder::LowestFirst => byte % 8 == 0,
    }
}
