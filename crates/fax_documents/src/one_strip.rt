//! A page of a TIFF file whose strip isn't in memory.

ghost use Rattle.std.specs.Prelude.{◌≡◌, ◌↔◌, ◌⊎◌, Err, IfErr, IsSome, OnOk};
ghost use Rattle.std.specs.Io.KnownBytes.{Keeps};
ghost use Rattle.fax_documents.specs.Codings.{coding_of};
ghost use Rattle.fax_documents.specs.Pages.{HasSize};

use crate::coding::coding_of;
use crate::directory::{Directory, Places, even};
use crate::error::DocumentError;
use crate::output::put;
use crate::page::Page;
use crate::tiff::TiffWriter;
use std::alloc::Global;
use std::io::Write;

impl TiffWriter {
    /// Writes all of a page of one strip but the strip, for which an empty one stands among those of the page. The caller writes it next: so
    /// many bytes, and a zero after them if that is an odd number. `is_last` says that the page is the last one.
    ///
    /// # Errors
    ///
    /// Those of [`put_page`](TiffWriter::put_page).
    pub fn put_page_without_strip<W: Write>(
        &mut self,
        alloc: Global,
        out: &mut W,
        page: &Page<'_>,
        length: u64,
        is_last: bool,
    ) -> Result<(), DocumentError>
        ensures size { (result ≡ Err DocumentError.Size) ↔ (¬ HasSize page.now) }
        ensures encoding { OnOk result (IsSome (coding_of page.now.settings page.now.eols_end_at_bytes)) }
        ensures unwritten { IfErr result (λ error. (error ≡ DocumentError.Write) ⊎ (Keeps (W.contents out.old) (W.contents out.new))) }
    {
        if !page.has_size() {
            return Err(DocumentError::Size);
        }
        let Some(coding) = coding_of(page.settings, page.eols_end_at_bytes) else {
            return Err(DocumentError::Encoding);
        };
        let directory = Directory::of_strip(alloc, self.is_big, page, coding, length)?;
        let strip = self.place.saturating_add(directory.len());
        let end = strip.saturating_add(even(length));
        if end > self.most() {
            return Err(DocumentError::TooLong);
        }
        let places = Places {
            directory: self.place,
            strips: strip,
            next: if is_last { 0 } else { end },
        };
        let bytes = directory.bytes(places)?;
        put(out, bytes.as_slice())?;
        self.place = end;
        Ok(())
    }
}
