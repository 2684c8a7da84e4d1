//! TIFF files of which no more than a page is in memory.

use crate::output::Output;
use crate::run::{Job, Run, note_of};
use fax_decode::Allowance;
use faxconv_in::{Content, Entry, content_of};
use faxconv_lib::report::Place;
use faxconv_lib::{Action, Kind, Status, kind_of};
use std::alloc::AllocError;
use std::fs::File;
use std::os::unix::fs::FileExt;
use tiff_split::{Carrier, SplitError, SplitPage, SplitPages};

/// The most bytes of a TIFF file that is read whole.
pub(crate) const MOST_READ_WHOLE: u64 = 1 << 20;

/// A file whose pages are read.
#[derive(Drop)]
pub(crate) struct SplitReading<'f> {
    pub(crate) file: &'f File,
    /// How many bytes it has.
    pub(crate) size: u64,
    pub(crate) pages: SplitPages<'f>,
    /// Its pages that aren't fax.
    carrier: Carrier,
    pub(crate) allowance: Allowance,
}

impl<'a, 'b, 'c> Run<'a, 'b, 'c> {
    /// Returns how many bytes a file has, if it is a TIFF file that is read page by page.
    pub(crate) fn size_if_split(&self, file: &File) -> Option<u64> {
        let found = file.metadata().ok()?;
        let mut first = [0u8; 8];
        if !found.is_file()
            || found.len() <= MOST_READ_WHOLE
            || matches!(self.options.action, Action::Guess)
            || file.read_exact_at(&mut first, 0).is_err()
        {
            return None;
        }
        match kind_of(&first, false) {
            Some(Kind::Tiff) => Some(found.len()),
            _ => None,
        }
    }

    /// Reads the pages of a TIFF file of so many bytes, each by itself.
    pub(crate) fn do_split(
        &mut self,
        name: &str,
        file: &File,
        size: u64,
    ) -> Result<Status, AllocError> {
        match self.do_split_pages(name, file, size) {
            Ok(status) => Ok(status),
            Err(SplitError::Unread(error)) => self.cannot(name, &error),
            Err(SplitError::OutOfMemory) => Err(AllocError),
            Err(_) => self.do_other(name, "its directory isn't in the file"),
        }
    }

    /// Reads the pages of a file, as [`Run::do_source`] does.
    fn do_split_pages(&mut self, name: &str, file: &File, size: u64) -> Result<Status, SplitError> {
        let mut reading = SplitReading {
            file,
            size,
            pages: SplitPages::open(self.rt.alloc(), file, size)?,
            carrier: Carrier::new(self.rt.alloc(), size),
            allowance: Allowance::of_file(size as usize),
        };
        let mut status = Status::Whole;
        let mut done: u64 = 0;
        let mut now = self.next_split(&mut reading.pages)?;
        for _ in 0..u64::MAX {
            let Some(page) = now else {
                break;
            };
            let after = self.next_split(&mut reading.pages)?;
            let is_only = done == 0 && after.is_none() && self.options.files.len() <= 1;
            let job = self.job_of_split(name, &page, is_only);
            status = status.worse(self.do_split_page(&job, &page, &mut reading)?);
            done = done.saturating_add(1);
            now = if matches!(status, Status::CannotGoOn) || reading.pages.is_spent {
                None
            } else {
                after
            };
        }
        self.before = self.before.saturating_add(u64::from(reading.pages.count));
        if done > 0 {
            return Ok(status);
        }
        self.teller.tell(Some(name), "there is no such page");
        Ok(Status::Missing)
    }

    /// Finds the next page that is wanted.
    fn next_split(&self, pages: &mut SplitPages<'_>) -> Result<Option<SplitPage>, SplitError> {
        for _ in 0..u64::MAX {
            let Some(page) = pages.next()? else {
                break;
            };
            if self.is_wanted(u64::from(page.number)) {
                return Ok(Some(page));
            }
        }
        Ok(None)
    }

    /// Returns what is known of a page before it is read.
    fn job_of_split<'n>(&self, name: &'n str, page: &SplitPage, is_only: bool) -> Job<'n> {
        let number = u64::from(page.number);
        Job {
            name,
            place: Place::Page(self.told(number)),
            output: Output {
                number: self.before.saturating_add(number),
                is_only,
                resolution: None,
            },
            note: note_of(page.note),
        }
    }

    /// Reads a page as a file of its own.
    fn do_split_page(
        &mut self,
        job: &Job<'_>,
        page: &SplitPage,
        reading: &mut SplitReading<'_>,
    ) -> Result<Status, SplitError> {
        if let Some(status) = self.do_long_strip(job, page, reading)? {
            return Ok(status);
        }
        let alloc = self.rt.alloc();
        let read = reading.pages.read(page)?;
        let content = match &read {
            Ok(bytes) => content_of(alloc, bytes.as_slice())?,
            Err(why) => Content::Refused(String::from_str(alloc, why)?),
        };
        let entry = Entry {
            number: page.number,
            image: page.number,
            content,
            note: page.note,
        };
        let entry = self.carried(entry, &mut reading.carrier, reading.file)?;
        Ok(self.do_entry(job, entry, &mut reading.allowance)?)
    }
}
