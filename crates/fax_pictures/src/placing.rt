//! Rows laid over a picture, and black and white exchanged.

ghost use Rattle.std.specs.Prelude.{◌≡◌, ◌<◌, ◌*◌, ◌%◌, length, map, not, IfOk, OnOk};
ghost use Rattle.fax_reading.specs.Rows.{AreChanges, pixels};
ghost use Rattle.fax_encode.specs.Packed.{shown};
ghost use Rattle.fax_pictures.specs.Pictures.{LieOver, inverted};

use crate::bitmap::Bitmap;
use std::alloc::{AllocError, Global};

impl Bitmap {
    /// Lays rows, each of so many bytes of eight pixels, over the picture from a column and a row on, as far as it reaches.
    pub fn lay_over(&mut self, left: u32, top: u32, width: usize, part: &[u8])
        requires whole { left % 8 ≡ 0 }
        requires some { 0 < width }
        ensures laid { LieOver left top (shown (8 * width) part.now) self.old self.new }
        ensures columns { self.new.columns ≡ self.old.columns }
        ensures rows { length self.new.rows ≡ length self.old.rows }
    {
        let mut rest = part;
        let mut index = top;
        while rest.len() >= width && index < self.rows() {
            let (row, below) = rest.split_at(width);
            self.lay_over_row(left, index, row);
            rest = below;
            index += 1;
        }
    }

    /// Exchanges black and white.
    ///
    /// # Errors
    ///
    /// An allocation for a row: those before it are exchanged.
    pub fn invert(&mut self, alloc: Global) -> Result<(), AllocError>
        ensures inverted { OnOk result (self.new ≡ inverted self.old) }
        ensures columns { self.new.columns ≡ self.old.columns }
        ensures rows { length self.new.rows ≡ length self.old.rows }
    {
        let mut index = 0;
        while index < self.rows() {
            let changes = self.changes_of_row(alloc, index)?;
            let others = inverted_changes(alloc, self.columns(), changes.as_slice())?;
            self.paint_row(index, others.as_slice());
            index += 1;
        }
        Ok(())
    }
}

/// Returns the changes of the row in which each pixel has the other colour.
fn inverted_changes(alloc: Global, columns: u32, changes: &[u32]) -> Result<Vec<u32>, AllocError>
    requires some { 0 < columns }
    requires lawful { AreChanges columns changes.now }
    ensures lawful { IfOk result (λ others. AreChanges columns others.items) }
    ensures row { IfOk result (λ others. pixels columns others.items ≡ map not (pixels columns changes.now)) }
{
    if 0 < changes.len() && changes[0] == 0 {
        let rest = changes[1..].to_vec(alloc)?;
        return Ok(rest);
    }
    let mut others = Vec::with_capacity(alloc, changes.len() + 1)?;
    others.push(0)?;
    others.extend_from_slice(changes)?;
    Ok(others)
}
