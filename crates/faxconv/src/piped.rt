//! Raw data whose rows are written as it comes.

use crate::output::{Output, STANDARD_OUTPUT};
use crate::run::Run;
use fax_program::Uninterrupted;
use faxconv_in::{MOST_BYTES, RawPage, RawReading, page_of, piece_of, written_page};
use faxconv_lib::names::name_of_picture;
use faxconv_lib::{NewFile, Status};
use faxconv_out::{RowsOut, Unwritten};
use std::alloc::AllocError;
use std::io;
use std::io::Read;

/// How many bytes are read at a time.
const PIECE: usize = 1 << 16;

impl<'a, 'b, 'c> Run<'a, 'b, 'c> {
    /// Reads raw data of which the first bytes were read, and writes its picture. With a height, the rows are written as soon as they
    /// are known.
    pub(crate) fn do_piped<R: Read>(
        &mut self,
        name: &str,
        first: &[u8],
        source: &mut R,
    ) -> Result<Status, AllocError> {
        let raw = self.options.raw;
        let output = self.output_of_raw();
        let mut reading = RawReading::new(self.rt.alloc(), &raw)?;
        let height = if raw.has_height { raw.settings.rows } else { 0 };
        let mut out = RowsOut::new(self.rt, raw.settings.columns, height);
        let mut status = self.take_bytes(first, &mut reading, &mut out, output)?;
        if !matches!(status, Status::CannotGoOn) {
            status = self.read_piped(name, source, &mut reading, &mut out, output)?;
        }
        if matches!(status, Status::CannotGoOn) {
            out.discard();
            return Ok(status);
        }
        self.end_piped(name, reading, out, output)
    }

    /// Reads data to its end, after its first bytes.
    pub(crate) fn read_piped<R: Read>(
        &mut self,
        name: &str,
        source: &mut R,
        reading: &mut RawReading,
        out: &mut RowsOut<'a>,
        output: Output,
    ) -> Result<Status, AllocError> {
        let mut piece = vec![in self.rt.alloc(); 0u8; PIECE]?;
        for _ in 0..u64::MAX {
            let read = match Uninterrupted(&mut *source).read(piece.as_mut_slice()) {
                Ok(read) => read,
                Err(error) => return self.cannot(name, &error),
            };
            let status = match piece.get(..read) {
                Some(bytes) if read > 0 => self.take_bytes(bytes, reading, out, output)?,
                _ => break,
            };
            if matches!(status, Status::CannotGoOn) {
                return Ok(status);
            }
        }
        reading.finish()?;
        self.put_rows(reading, out, output)
    }

    /// Reads the rows of bytes that come next, and writes them if the height is known.
    fn take_bytes(
        &mut self,
        bytes: &[u8],
        reading: &mut RawReading,
        out: &mut RowsOut<'a>,
        output: Output,
    ) -> Result<Status, AllocError> {
        let piece = piece_of(out.columns);
        let mut rest = bytes;
        'pieces: while !rest.is_empty() {
            let (front, after) = rest.split_at(piece.min(rest.len()));
            reading.feed(front)?;
            rest = after;
            let status = self.put_rows(reading, out, output)?;
            if matches!(status, Status::CannotGoOn) {
                return Ok(status);
            }
            out.is_large = out.is_large || reading.kept_bytes() > MOST_BYTES;
            if out.is_large {
                reading.take_rows();
            }
        }
        Ok(Status::Whole)
    }

    /// Writes the rows that are known, if the height is. Returns `CannotGoOn` if that can't be done, which is told.
    fn put_rows(
        &mut self,
        reading: &mut RawReading,
        out: &mut RowsOut<'a>,
        output: Output,
    ) -> Result<Status, AllocError> {
        if out.height == 0 || reading.kept_bytes() == 0 {
            return Ok(Status::Whole);
        }
        if !out.is_open() {
            let status = self.open_rows(out, output)?;
            if matches!(status, Status::CannotGoOn) {
                return Ok(status);
            }
        }
        match out.put(reading.take_rows()) {
            Ok(()) => Ok(Status::Whole),
            Err(why) => self.cannot_write_rows(output, why),
        }
    }

    /// Opens where rows are written, and writes the head of the picture.
    fn open_rows(&mut self, out: &mut RowsOut<'a>, output: Output) -> Result<Status, AllocError> {
        let name = self.name_of_rows(output)?;
        let file = match name {
            None => None,
            Some(name) => match NewFile::create(
                self.rt,
                name.as_str(),
                self.options.may_overwrite,
            ) {
                Ok(file) => Some(file),
                Err(error) => return self.cannot_create(name.as_str(), &error),
            },
        };
        match out.open(file) {
            Ok(()) => Ok(Status::Whole),
            Err(why) => self.cannot_write_rows(output, why),
        }
    }

    /// Returns the name of the file that rows are written to, `None` for standard output.
    fn name_of_rows(&self, output: Output) -> Result<Option<String>, AllocError> {
        let number = self.told(output.number);
        name_of_picture(self.rt.alloc(), self.options, number, output.is_only)
    }

    /// Tells why rows aren't written.
    fn cannot_write_rows(&mut self, output: Output, why: Unwritten) -> Result<Status, AllocError> {
        match self.name_of_rows(output)? {
            Some(name) => self.cannot_write(name.as_str(), why),
            None => self.cannot_write(STANDARD_OUTPUT, why),
        }
    }

    /// Tells why the file that rows were written to doesn't get its name.
    fn cannot_name_rows(
        &mut self,
        output: Output,
        error: &io::Error,
    ) -> Result<Status, AllocError> {
        match self.name_of_rows(output)? {
            Some(name) => self.cannot_create(name.as_str(), error),
            None => self.cannot(STANDARD_OUTPUT, error),
        }
    }

    /// Tells of data that has ended, and writes what is left of its picture.
    fn end_piped(
        &mut self,
        name: &str,
        mut reading: RawReading,
        out: RowsOut<'a>,
        output: Output,
    ) -> Result<Status, AllocError> {
        let raw = self.options.raw;
        let rows = reading.take_rows();
        let end = reading.end(raw.height())?;
        let count = end.rows;
        if out.height > 0 && count > 0 {
            let page = written_page(self.rt.alloc(), &raw, end)?;
            let status = self.tell_raw(name, &page, &None)?;
            return self.finish_rows(out, count, status, output);
        }
        let page = page_of(self.rt.alloc(), &raw, rows, end, out.is_large)?;
        let status = self.tell_raw(name, &page, &None)?;
        let RawPage {
            picture,
            rows: _,
            damage: _,
            note: _,
        } = page;
        let Ok(Some(picture)) = picture else {
            return Ok(status);
        };
        self.write_if_wanted(status, picture, output)
    }

    /// Writes what is left after so many rows, and gives the file its name.
    pub(crate) fn finish_rows(
        &mut self,
        mut out: RowsOut<'a>,
        rows: u64,
        status: Status,
        output: Output,
    ) -> Result<Status, AllocError> {
        if let Err(why) = out.put_rest(rows) {
            out.discard();
            return self.cannot_write_rows(output, why);
        }
        match out.finish() {
            Ok(()) => Ok(status),
            Err(error) => self.cannot_name_rows(output, &error),
        }
    }
}
