//! What is said of a guess.

use crate::forms::is_usual;
use crate::guess::Guess;
use hayro_ccitt::EncodingMode;
use hayro_ccitt::bit_reader::BitOrder;
use std::alloc::AllocError;

impl Guess {
    /// Puts the guess in words: its size, its encoding, and what else isn't as usual.
    pub fn put_words(&self, text: &mut String) -> Result<(), AllocError> {
        let encoding = match self.settings.encoding {
            EncodingMode::Group4 => "Group 4",
            EncodingMode::Group3_1D => "Group 3, one-dimensional",
            EncodingMode::Group3_2D => "Group 3, two-dimensional",
        };
        write!(
            text,
            "{} x {}, {encoding}",
            self.settings.columns, self.rows
        )?;
        if self.settings.rows_are_byte_aligned {
            text.push_str(", rows end at whole bytes")?;
        }
        if self.is_low_first() {
            text.push_str(", lowest bit first")?;
        }
        if self.is_negative {
            text.push_str(", negative")?;
        }
        if !self.settings.strict {
            text.push_str(", damaged")?;
        }
        Ok(())
    }

    /// Puts what speaks for the guess: how much of the data is read, and whether its width is usual.
    pub fn put_reasons(&self, text: &mut String) -> Result<(), AllocError> {
        if self.settings.strict {
            text.push_str("all data is read strictly")?;
        } else {
            write!(text, "{} of its rows are damaged", self.damaged)?;
        }
        if is_usual(self.settings.columns) {
            text.push_str(", a usual width")?;
        }
        Ok(())
    }

    /// Puts the options of `faxconv` by which the data is read so.
    pub fn put_options(&self, text: &mut String) -> Result<(), AllocError> {
        let mode = match self.settings.encoding {
            EncodingMode::Group4 => "g4",
            EncodingMode::Group3_1D => "1d",
            EncodingMode::Group3_2D => "2d",
        };
        write!(
            text,
            "-m {mode} -w {} -r {}",
            self.settings.columns, self.rows
        )?;
        text.push_str(
            match (self.settings.rows_are_byte_aligned, self.is_low_first()) {
                (false, false) => "",
                (false, true) => " -F br",
                (true, false) => " -F ba",
                (true, true) => " -F bar",
            },
        )
    }

    /// Puts the guess as members of an object of JSON: its size, whether all data is read strictly, how many rows are damaged, whether its
    /// width is usual and most pixels are black, and the options of `faxconv`.
    pub fn put_members(&self, text: &mut String) -> Result<(), AllocError> {
        write!(
            text,
            "\"columns\": {}, \"rows\": {}, \"whole\": {}, \"damaged\": {}, \"usual\": {}, \"negative\": {}, \"options\": \"",
            self.settings.columns,
            self.rows,
            self.settings.strict,
            self.damaged,
            is_usual(self.settings.columns),
            self.is_negative
        )?;
        self.put_options(text)?;
        text.push('"')
    }

    /// Returns whether each byte's lowest bit comes first.
    fn is_low_first(&self) -> bool {
        matches!(self.order, BitOrder::LowestFirst)
    }
}
