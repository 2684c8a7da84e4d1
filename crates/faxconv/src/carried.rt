//! Pages that aren't fax, carried from TIFF files into a TIFF file.

use crate::run::{Job, Run, report_of};
use fax_decode::damage::Damage;
use fax_strips::Target;
use faxconv_in::{Content, Entry, text_of_carried};
use faxconv_lib::Status;
use faxconv_lib::report::{Note, PageReport};
use faxconv_out::AddedPage;
use std::alloc::AllocError;
use tiff_split::{CarriedPage, Carrier, Ranges, SplitError};

impl<'a, 'b, 'c> Run<'a, 'b, 'c> {
    /// Returns a page of a TIFF file; with its entries and its data if it isn't decoded and can be carried into the document.
    pub(crate) fn carried<'d, R: Ranges>(
        &self,
        entry: Entry<'d>,
        carrier: &mut Carrier,
        source: &R,
    ) -> Result<Entry<'d>, AllocError> {
        if !matches!(self.target_of_pages(), Some(Target::Tiff)) {
            return Ok(entry);
        }
        let alloc = self.rt.alloc();
        let Entry {
            number,
            image,
            content,
            note,
        } = entry;
        let content = match content {
            Content::Refused(why) => match carrier.page(source, number) {
                Ok(Ok(page)) => {
                    let told = text_of_carried(alloc, why.as_str(), &page)?;
                    Content::Carried(page, told)
                }
                Ok(Err(other)) => Content::Refused(format!(in alloc;
                    "{why}, and can't be carried along: {other}"
                )?),
                Err(SplitError::OutOfMemory) => return Err(AllocError),
                Err(_) => Content::Refused(why),
            },
            other => other,
        };
        Ok(Entry {
            number,
            image,
            content,
            note,
        })
    }

    /// Tells that a page isn't decoded, and adds it to the document.
    pub(crate) fn do_carried(
        &mut self,
        job: &Job<'_>,
        page: CarriedPage,
        told: &str,
    ) -> Result<Status, AllocError> {
        let none = Damage::new(self.rt.alloc());
        let note = Note {
            text: told,
            status: Status::Whole,
        };
        let report = PageReport {
            note: Some(note),
            ..report_of(job, None, &none, "strip", 0)
        };
        let status = self.tell_page(job.name, &report)?;
        let added = self.add_page(AddedPage::Carried(page))?;
        Ok(status.worse(added))
    }
}
