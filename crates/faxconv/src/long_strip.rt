//! Pages of one long strip, which is read as it comes.

use crate::output::Output;
use crate::run::{Job, Run, report_of};
use crate::split::{MOST_READ_WHOLE, SplitReading};
use fax_pages::Page;
use fax_strips::known_resolution;
use faxconv_in::{Content, RawReading, content_of, options_of_strip};
use faxconv_lib::options::{RawOptions, Rotation};
use faxconv_lib::{Action, Format, Status};
use faxconv_out::RowsOut;
use std::alloc::AllocError;
use std::fs::File;
use tiff_split::{OneStrip, SplitError, SplitPage, StripReader};

impl<'a, 'b, 'c> Run<'a, 'b, 'c> {
    /// Reads a page of one long strip as it comes; `None` if the page has none, or isn't read so: then it is to be read whole.
    pub(crate) fn do_long_strip(
        &mut self,
        job: &Job<'_>,
        page: &SplitPage,
        reading: &mut SplitReading<'_>,
    ) -> Result<Option<Status>, SplitError> {
        if !self.takes_long_strips() {
            return Ok(None);
        }
        let number = page.number;
        let strip = match reading.pages.one_strip(page)? {
            Some(strip) if strip.length > MOST_READ_WHOLE => strip,
            _ => return Ok(None),
        };
        let Content::Page(page) = content_of(self.rt.alloc(), strip.entries.as_slice())? else {
            return Ok(None);
        };
        let allowance = reading.allowance;
        self.teller.show_progress(job.name, u64::from(number));
        let done = match self.target_of_copies() {
            Some(_) => self.copy_long_strip(job, &page, &strip, reading)?,
            None => self.read_long_strip(job, &page, &strip, reading)?,
        };
        if done.is_none() {
            reading.allowance = allowance;
        }
        Ok(done)
    }

    /// Returns whether strips are read as they come: to check them, to write the pictures of their rows, and to copy them into a TIFF file.
    fn takes_long_strips(&self) -> bool {
        let options = self.options;
        match (options.action, options.format) {
            (Action::Check, _) => !options.is_standard,
            (Action::Convert, Format::Pbm | Format::Png) => {
                matches!(options.rotation, Rotation::None) && !options.is_damage_shown
            }
            (Action::Convert, Format::Tiff) => self.target_of_copies().is_some(),
            _ => false,
        }
    }

    /// Returns whether a page is checked.
    fn is_checking(&self) -> bool {
        matches!(self.options.action, Action::Check)
    }

    /// Checks a strip as it comes, or writes its rows; `None` if they aren't those of the picture, and if there are none.
    fn read_long_strip(
        &mut self,
        job: &Job<'_>,
        page: &Page<'_>,
        strip: &OneStrip,
        reading: &mut SplitReading<'_>,
    ) -> Result<Option<Status>, AllocError> {
        let is_checking = self.is_checking();
        if !is_checking && (page.orientation != 1 || !self.can_take_rows(job.output)) {
            return Ok(None);
        }
        let Some(raw) = options_of_strip(page) else {
            return Ok(None);
        };
        let bytes = u64::from(page.columns.div_ceil(8)).saturating_mul(u64::from(page.rows));
        if reading.allowance.data == 0 || !reading.allowance.pay_picture(bytes.saturating_mul(2)) {
            return Ok(None);
        }
        reading.allowance.pay_data(strip.length);
        reading.allowance.allow_data(bytes);
        let out = self.rows_of_page(page, job.output);
        if is_checking {
            return self.check_strip(job, &raw, reading.file, strip, out);
        }
        self.write_strip(job, &raw, reading.file, strip, out)
    }

    /// Returns whether a picture can be written as its rows come: all but a PNG picture on standard output that isn't the only one.
    fn can_take_rows(&self, output: Output) -> bool {
        !matches!(self.options.format, Format::Png)
            || self.options.output.is_some()
            || output.is_only
    }

    /// Returns the picture of a page, of which nothing is written.
    fn rows_of_page(&self, page: &Page<'_>, output: Output) -> RowsOut<'a> {
        let resolution = known_resolution(&page.resolution, false);
        let output = self.with_resolution(
            Output {
                resolution,
                ..output
            },
            false,
        );
        let mut out = RowsOut::new(self.rt, page.columns, page.rows);
        out.is_inverted = page.is_inverted;
        out.format = self.options.format;
        out.resolution = output.resolution;
        out
    }

    /// Checks a strip; `None` if it has no row. It is read again if it is damaged.
    fn check_strip(
        &mut self,
        job: &Job<'_>,
        raw: &RawOptions,
        file: &File,
        strip: &OneStrip,
        mut out: RowsOut<'a>,
    ) -> Result<Option<Status>, AllocError> {
        let mut reading = RawReading::strictly(self.rt.alloc(), raw)?;
        reading.keep_no_rows();
        let status = self.read_strip(job, &mut reading, (file, strip), raw, &mut out)?;
        if matches!(status, Status::CannotGoOn) {
            return Ok(Some(status));
        }
        let end = reading.end(raw.height())?;
        if end.rows == 0 {
            return Ok(None);
        }
        let report = report_of(job, None, &end.damage, "strip", u64::from(out.height));
        Ok(Some(self.tell_page(job.name, &report)?))
    }

    /// Writes the rows of a strip; `None` if there are none. The strip is read again if it is damaged.
    fn write_strip(
        &mut self,
        job: &Job<'_>,
        raw: &RawOptions,
        file: &File,
        strip: &OneStrip,
        mut out: RowsOut<'a>,
    ) -> Result<Option<Status>, AllocError> {
        let mut reading = RawReading::strictly(self.rt.alloc(), raw)?;
        let status = self.read_strip(job, &mut reading, (file, strip), raw, &mut out)?;
        if matches!(status, Status::CannotGoOn) {
            out.discard();
            return Ok(Some(status));
        }
        let end = reading.end(raw.height())?;
        if end.rows == 0 {
            return Ok(None);
        }
        let report = report_of(job, None, &end.damage, "strip", u64::from(out.height));
        let status = self.tell_page(job.name, &report)?;
        Ok(Some(self.finish_rows(out, end.rows, status, job.output)?))
    }

    /// Reads a strip of a file, and again if it is damaged. Its rows are written as far as they are kept.
    fn read_strip(
        &mut self,
        job: &Job<'_>,
        reading: &mut RawReading,
        of_file: (&File, &OneStrip),
        raw: &RawOptions,
        out: &mut RowsOut<'a>,
    ) -> Result<Status, AllocError> {
        let (file, strip) = of_file;
        let mut source = StripReader::new(file, strip);
        let status = self.read_piped(job.name, &mut source, reading, out, job.output)?;
        if matches!(status, Status::CannotGoOn) || !reading.begin_again(raw)? {
            return Ok(status);
        }
        let mut again = StripReader::new(file, strip);
        self.read_piped(job.name, &mut again, reading, out, job.output)
    }
}
