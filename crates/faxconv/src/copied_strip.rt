//! Pages of one long strip, which is copied into a TIFF file.

use crate::run::{Job, Run, report_of};
use crate::split::SplitReading;
use fax_decode::damage::Damage;
use fax_pages::Page;
use fax_strips::{StripEnds, StripPage, page_apart, strict_settings};
use faxconv_in::{options_of_strip, takes_all};
use faxconv_lib::Status;
use faxconv_out::StripFile;
use std::alloc::{AllocError, Global};
use std::fs::File;
use std::os::unix::fs::FileExt;
use tiff_split::{OneStrip, SplitError, StripReader};

/// How many bytes of a strip are read to see what it begins with.
const FIRST: usize = 1 << 12;

impl<'a, 'b, 'c> Run<'a, 'b, 'c> {
    /// Copies the strip of a page into the document; `None` if it can't be copied, or a strict reading doesn't take all of it.
    pub(crate) fn copy_long_strip(
        &mut self,
        job: &Job<'_>,
        page: &Page<'_>,
        strip: &OneStrip,
        reading: &mut SplitReading<'_>,
    ) -> Result<Option<Status>, SplitError> {
        reading.allowance.pay_data(strip.length);
        if reading.allowance.data == 0 {
            return Ok(None);
        }
        let alloc = self.rt.alloc();
        let Some(copied) = page_of_strip(alloc, page, reading.file, strip)? else {
            return Ok(None);
        };
        if !self.is_copied_unread(strip, reading.size) {
            if !is_whole(alloc, page, reading.file, strip)? {
                return Ok(None);
            }
            let bytes = u64::from(page.columns.div_ceil(8)).saturating_mul(u64::from(page.rows));
            reading.allowance.allow_data(bytes);
        }
        match reading.file.try_clone() {
            Ok(file) => {
                let strip = StripFile::new(file, strip.start, strip.length);
                Ok(Some(self.add_strip(job, page.rows, copied, strip)?))
            }
            Err(_) => Ok(None),
        }
    }

    /// Returns whether a strip of a file of so many bytes is copied unread: if the options say so, and it doesn't reach the file's end, where
    /// it may be cut.
    fn is_copied_unread(&self, strip: &OneStrip, size: u64) -> bool {
        self.options.is_copy && strip.start.saturating_add(strip.length) < size
    }

    /// Tells of a page whose strip is copied, and adds it to the document.
    fn add_strip(
        &mut self,
        job: &Job<'_>,
        rows: u32,
        copied: StripPage,
        strip: StripFile,
    ) -> Result<Status, AllocError> {
        let none = Damage::new(self.rt.alloc());
        let report = report_of(job, None, &none, "strip", u64::from(rows));
        let status = self.tell_page(job.name, &report)?;
        let added = self.add_apart(copied, strip)?;
        Ok(status.worse(added))
    }
}

/// Returns a page for a TIFF file without its strip, which is copied; `None` if it can't be.
fn page_of_strip(
    alloc: Global,
    page: &Page<'_>,
    file: &File,
    strip: &OneStrip,
) -> Result<Option<StripPage>, SplitError> {
    let mut first = [0u8; FIRST];
    let mut last = [0u8; 4];
    let end = strip.start.saturating_add(strip.length);
    if let Err(error) = file.read_exact_at(&mut first, strip.start) {
        return Err(SplitError::Unread(error));
    }
    if let Err(error) = file.read_exact_at(&mut last, end.saturating_sub(4)) {
        return Err(SplitError::Unread(error));
    }
    let ends = StripEnds {
        first: &first,
        last: &last,
    };
    Ok(page_apart(alloc, page, ends)?)
}

/// Returns whether a strict reading takes all of a strip as the rows of its page.
fn is_whole(
    alloc: Global,
    page: &Page<'_>,
    file: &File,
    strip: &OneStrip,
) -> Result<bool, SplitError> {
    let Some(mut raw) = options_of_strip(page) else {
        return Ok(false);
    };
    raw.settings = strict_settings(raw.settings);
    let mut source = StripReader::new(file, strip);
    match takes_all(alloc, &raw, &mut source)? {
        Ok(is_whole) => Ok(is_whole),
        Err(error) => Err(SplitError::Unread(error)),
    }
}
