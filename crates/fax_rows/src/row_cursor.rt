//! Rows one at a time, from data that is passed to each call.

ghost use Rattle.std.specs.Prelude.{◌≡◌, ◌≤◌, ◌+◌, ◌*◌, ◌/◌, None, Some, IfOk, IsOkUnless, Result, length, max};
ghost use Rattle.fax_bits.specs.Bits.{BitsFit, bits_in};
ghost use Rattle.fax_reading.specs.Rows.{AreChanges, changes};
ghost use Rattle.fax_reading.specs.Space.{most_room};
ghost use Rattle.fax_reading.specs.Work.{CountsWork};
ghost use Rattle.fax_rows.specs.RowsRead.{ReadsNext, at_end_of_rows, ended};
ghost use Rattle.fax_rows.specs.RowCursors.{IsReadingOf, rows_over};

use crate::row_reader::{RowState, Stand, first_stand};
use fax_bits::bit_reader::{BitOrder, at_place, placed_at};
use fax_bits::{DecodeError, DecodeSettings, Result};
use fax_lines::context::{DecoderContext, reference_row};
use std::alloc::Global;
use std::marker::Model;

/// Reads the rows of an image one at a time, as [`RowReader`](crate::row_reader::RowReader) does, but holds no reference to the data:
/// it is passed to each call again. It holds two rows in memory.
///
/// Pass the same data each time. With other data the rows and errors mean nothing, but each call returns, and reads nothing
/// outside of the data.
#[derive(Drop)]
pub struct RowCursor {
    ctx: DecoderContext,
    rows: RowState,
    order: BitOrder,
    place: usize,
}

impl Model for RowCursor {
    ghost use Rattle.fax_rows.specs.RowCursors.{Paused, paused_of};

    ghost Value = { Paused };

    ghost view = { paused_of };
}

impl RowCursor {
    /// Creates a reader of the rows of an image, whose bytes hold their bits in this order. It is before the first row.
    ///
    /// # Errors
    ///
    /// `OutOfMemory` is the only one. Today nothing is allocated here.
    pub fn new(
        alloc: Global,
        data: &[u8],
        order: BitOrder,
        settings: DecodeSettings,
    ) -> Result<RowCursor>
        requires fit { BitsFit «data».now }
        ensures reading { IfOk result (λ rows. IsReadingOf (bits_in order «data».now) rows) }
        ensures settings { IfOk result (λ rows. rows.ctx.held.settings ≡ settings) }
        ensures order { IfOk result (λ rows. rows.order ≡ order) }
        ensures none_read { IfOk result (λ rows. rows.ctx.held.taken ≡ 0) }
        ensures work { IfOk result
            (λ rows. CountsWork settings (bits_in order «data».now) rows.ctx.held.taken rows.ctx.ticks) }
        ensures only_memory { IsOkUnless result DecodeError.OutOfMemory }
        ensures space { IfOk result (λ rows. rows.ctx.space ≡ 0) }
    {
        let mut ctx = DecoderContext::new(alloc, settings)?;
        let mut reader = at_place(data, order, 0);
        let stand = first_stand(&mut ctx, &mut reader);
        Ok(RowCursor {
            ctx,
            rows: RowState::new(stand),
            order,
            place: reader.bit_pos(),
        })
    }

    /// Reads the next row from where the last call ended.
    fn read_on(&mut self, data: &[u8]) -> Result<bool>
        requires fit { BitsFit «data».now }
        requires unended { ended self.old.rows.stand ≡ None }
        ensures reads { IsReadingOf (bits_in self.old.order «data».now) self.old → ReadsNext
            (rows_over (bits_in self.old.order «data».now) self.old) (rows_over (bits_in self.old.order «data».now) self.new) result }
        ensures reading { IsReadingOf (bits_in self.old.order «data».now) self.old
            → IsReadingOf (bits_in self.old.order «data».now) self.new }
        ensures settings { self.new.ctx.held.settings ≡ self.old.ctx.held.settings }
        ensures order { self.new.order ≡ self.old.order }
        ensures most { self.new.ctx.space ≤ max self.old.ctx.space (2 * self.old.ctx.held.settings.columns + 66) }
    {
        if self.place > data.len() * 8 {
            return Err(DecodeError::UnexpectedEof);
        }
        let mut reader = placed_at(data, self.order, self.place);
        let answer = self.rows.next_row(&mut self.ctx, &mut reader);
        self.place = reader.bit_pos();
        answer
    }

    /// Reads the next row of the data, and returns whether there was one; its changes are those of [`row`](RowCursor::row). At the
    /// end of the image it returns `Ok(false)`, and so does each further call. The work of all calls together has the bound
    /// of `decode`.
    ///
    /// # Errors
    ///
    /// Those of `decode`, except `Refused`. After an error each further call returns the same error. Data
    /// that ends before the offset where the last call ended is `UnexpectedEof`.
    pub fn next_row(&mut self, data: &[u8]) -> Result<bool>
        requires fit { BitsFit «data».now }
        ensures reads { IsReadingOf (bits_in self.old.order «data».now) self.old → ended self.old.rows.stand ≡ None → ReadsNext
            (rows_over (bits_in self.old.order «data».now) self.old) (rows_over (bits_in self.old.order «data».now) self.new) result }
        ensures reading { IsReadingOf (bits_in self.old.order «data».now) self.old
            → IsReadingOf (bits_in self.old.order «data».now) self.new }
        ensures work { IsReadingOf (bits_in self.old.order «data».now) self.old
            → CountsWork self.new.ctx.held.settings (bits_in self.old.order «data».now) self.new.ctx.held.taken self.new.ctx.ticks }
        ensures ended { (end : Result (Unit {0}) DecodeError) → ended self.old.rows.stand ≡ Some end
            → (self.new ≡ self.old) × (result ≡ at_end_of_rows end) }
        ensures settings { self.new.ctx.held.settings ≡ self.old.ctx.held.settings }
        ensures order { self.new.order ≡ self.old.order }
        ensures space { IsReadingOf (bits_in self.old.order «data».now) self.old
            → self.new.ctx.space ≤ most_room self.new.ctx.held.settings (bits_in self.old.order «data».now) }
        ensures most { self.new.ctx.space ≤ max self.old.ctx.space (2 * self.old.ctx.held.settings.columns + 66) }
    {
        match self.rows.stand {
            Stand::AtEnd => Ok(false),
            Stand::AtFault(error) => Err(error),
            Stand::AtLine | Stand::AfterRow => self.read_on(data),
        }
    }

    /// Returns the changes of the last row that was read, in ascending order: the pixels at which its colour changes. There
    /// are none before the first row.
    pub fn row(&self) -> &[u32]
        ensures changes { result.now ≡ changes self.now.ctx.held.reference }
        ensures lawful { AreChanges self.now.ctx.held.settings.columns result.now }
        ensures width { length self.now.ctx.held.reference ≡ self.now.ctx.held.settings.columns }
    {
        reference_row(&self.ctx)
    }

    /// Returns the number of rows that were read.
    pub fn rows_read(&self) -> u64
        ensures { result ≡ self.now.ctx.held.taken }
    {
        self.ctx.decoded_rows()
    }

    /// Returns the settings.
    pub fn settings(&self) -> DecodeSettings
        ensures { result ≡ self.now.ctx.held.settings }
    {
        self.ctx.settings()
    }

    /// Returns the offset in bits at which the line of the last row begins, as
    /// [`RowReader::line_start`](crate::row_reader::RowReader::line_start) does.
    pub fn line_start(&self) -> usize
        ensures { result ≡ self.now.rows.started_at }
    {
        self.rows.started_at
    }

    /// Returns the fault of the last row if its line was damaged and repaired, as in a lenient reading of Group 3 with EOLs
    /// (T.4, 4.1.2); `None` if the line was whole, and before the first row.
    pub fn damage(&self) -> Option<DecodeError>
        ensures { result ≡ self.now.rows.damage }
    {
        self.rows.damage
    }

    /// Returns the number of rows read whose line was damaged and repaired.
    pub fn damaged_rows(&self) -> u64
        ensures { result ≡ self.now.ctx.held.repairs.rows }
    {
        self.ctx.damaged_rows()
    }

    /// Returns whether a run of the last row, or a vertical mode, goes beyond the row's end and was cut there, where a strict
    /// reading fails (T.4, 4.1.1); false before the first row, and for a row that was repaired.
    pub fn is_cut(&self) -> bool
        ensures { result ≡ self.now.rows.cut }
    {
        self.rows.cut
    }

    /// Returns the number of rows read in which a run was cut.
    pub fn cut_rows(&self) -> u64
        ensures { result ≡ self.now.ctx.held.repairs.cut }
    {
        self.ctx.cut_rows()
    }

    /// Returns the number of rows read after which the EOL was missed (T.4, 4.1.2): of the last row it is known when
    /// the next call of [`next_row`](RowCursor::next_row) returns.
    pub fn missed_eols(&self) -> u64
        ensures { result ≡ self.now.ctx.held.repairs.missed }
    {
        self.ctx.missed_eols()
    }

    /// Returns the offset in bits at which the last call of [`next_row`](RowCursor::next_row) missed an EOL (T.4, 4.1.2):
    /// the first bit after the row that had been the last one before. `None` if none was missed there.
    pub fn missed_eol(&self) -> Option<usize>
        ensures { result ≡ self.now.rows.missed }
    {
        self.rows.missed
    }

    /// Returns the number of bytes consumed so far, as [`RowReader::bytes_read`](crate::row_reader::RowReader::bytes_read) does.
    pub fn bytes_read(&self) -> usize
        ensures { result ≡ (self.now.place + 7) / 8 }
    {
        self.place.div_ceil(8)
    }
}
