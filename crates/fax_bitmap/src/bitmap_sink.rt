//! A sink that packs rows into a bitmap.

ghost use Rattle.std.specs.Prelude.{◌≡◌, ◌++◌, OnOk, OnErr};
ghost use Rattle.fax_bits.specs.Bits.{bits_of};
ghost use Rattle.fax_reading.specs.Rows.{AreChanges, pixels};
ghost use Rattle.fax_words.specs.Chosen.{filled_up};

use crate::painting::paint_row;
use fax_bits::DecodeError;
use fax_lines::Decoder;
use std::alloc::{AllocError, Global};
use std::marker::Model;

/// Rows as a bitmap, kept in memory: one bit a pixel, 1 for black, the leftmost pixel in each byte's highest bit, and
/// zeros after each row up to a whole byte. Row k begins at byte k times (columns + 7) / 8. A row is refused if the allocation
/// for it fails, and those before stay.
///
/// # Example
///
/// A row of 8 pixels of which 3 and 4 are black, `[3, 5]`, is the byte 18.
#[derive(Drop)]
pub struct BitmapSink {
    bytes: Vec<u8>,
    columns: u32,
    has_refused: bool,
}

impl Model for BitmapSink {
    ghost use Rattle.fax_bitmap.specs.Packed.{Bitmap};

    ghost Value = { Bitmap };

    ghost view = { λ s. record { bytes = s.bytes.items; columns = s.columns; has_refused = s.has_refused } };
}

impl BitmapSink {
    ghost use Rattle.std.specs.Prelude.{◌≡◌, [], false};

    /// Creates a sink for rows of `columns` pixels. It is empty, and allocates nothing.
    pub fn new(alloc: Global, columns: u32) -> BitmapSink
        ensures { result ≡ record { bytes = []; columns = columns; has_refused = false } }
    {
        BitmapSink {
            bytes: Vec::new(alloc),
            columns,
            has_refused: false,
        }
    }

    /// Returns the bytes of the rows so far.
    pub fn bytes(&self) -> &[u8]
        ensures { result.now ≡ self.now.bytes }
    {
        self.bytes.as_slice()
    }

    /// Returns the bytes of the rows so far, and drops the sink.
    pub fn into_bytes(self) -> Vec<u8>
        ensures { result.items ≡ self.bytes }
    {
        self.bytes
    }

    /// Adds a row. Its bytes are allocated first; if that fails, nothing changes.
    fn add_row(&mut self, changes: &[u32]) -> Result<(), AllocError>
        requires { AreChanges self.old.columns changes.now }
        ensures added { OnOk result (bits_of self.new.bytes
            ≡ bits_of self.old.bytes ++ filled_up (pixels self.old.columns changes.now)) }
        ensures kept { OnErr result (self.new.bytes ≡ self.old.bytes) }
        ensures columns { self.new.columns ≡ self.old.columns }
        ensures has_refused { self.new.has_refused ≡ self.old.has_refused }
    {
        let start = self.bytes.len();
        let end = start + (self.columns as usize).div_ceil(8);
        self.bytes.resize(end, 0)?;
        paint_row(&mut self.bytes[start..end], self.columns, changes);
        Ok(())
    }
}

impl Decoder for BitmapSink {
    ghost use Rattle.fax_bits.specs.Bits.{Bits, bits_of};
    ghost use Rattle.fax_bitmap.specs.Packed.{with_packed_row};

    ghost Meaning = { Bits };

    ghost meaning = { λ sink. bits_of sink.bytes };

    ghost step = { with_packed_row };

    ghost width = { λ sink. sink.columns };

    ghost has_refused = { λ sink. sink.has_refused };

    fn push_row(&mut self, changes: &[u32]) -> fax_bits::Result<()> {
        match self.add_row(changes) {
            Ok(()) => Ok(()),
            Err(_) => {
                self.has_refused = true;
                Err(DecodeError::Refused)
            }
        }
    }
}
