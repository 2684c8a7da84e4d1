//! A way to read data.

use crate::forms::is_usual;
use hayro_ccitt::DecodeSettings;
use hayro_ccitt::bit_reader::BitOrder;

/// A way to read data as a fax image.
#[derive(Clone, Copy)]
pub struct Guess {
    /// The settings by which it is read: strict exactly if all data is then read, but for zeros after it.
    pub settings: DecodeSettings,
    /// Which bit of each byte comes first.
    pub order: BitOrder,
    /// How many rows are read so.
    pub rows: u64,
    /// How many of them are repaired, have a run that was cut, or an EOL missing after them: 0 if the settings are strict.
    pub damaged: u64,
    /// Whether most pixels are black, so that the picture is likely to be a negative.
    pub is_negative: bool,
}

impl Guess {
    /// Returns whether the guess is to stand before another one: its width is usual and that of the other isn't, or else it has more rows.
    pub(crate) fn is_before(&self, other: &Guess) -> bool {
        let usual = is_usual(self.settings.columns);
        if usual == is_usual(other.settings.columns) {
            self.rows > other.rows
        } else {
            usual
        }
    }
}
