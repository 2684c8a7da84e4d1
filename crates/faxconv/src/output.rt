//! What is written: pictures to their files or to standard output, and the pages of all files to one document.

use crate::run::Run;
use crate::written::Written;
use fax_decode::shown_picture;
use fax_documents::Resolution;
use fax_encode::EncodeError;
use fax_pages::Page;
use fax_pictures::{Bitmap, PictureError};
use fax_strips::{StripPage, Target, encode_picture};
use faxconv_in::too_large;
use faxconv_lib::folder::files_in;
use faxconv_lib::names::name_of_picture;
use faxconv_lib::options::{Encoding, Rotation};
use faxconv_lib::{Action, Format, NewFile, Status};
use faxconv_out::{
    AddedPage, Document, Drawing, StripFile, Unwritten, exchanged, put_picture, resolution_of_dots,
};
use std::alloc::AllocError;
use std::io::ErrorKind;
use std::{fs, io, mem};
use tiff_read::Texts;

/// What is to be written.
#[derive(Clone, Copy)]
pub(crate) struct Output {
    /// The number of the picture in the run.
    pub(crate) number: u64,
    /// Whether it is the only one of the run.
    pub(crate) is_only: bool,
    /// How many pixels a unit has.
    pub(crate) resolution: Option<Resolution>,
}

impl<'a, 'b, 'c> Run<'a, 'b, 'c> {
    /// Returns what document is written, if one is.
    fn target(&self) -> Option<Target> {
        match self.options.format {
            Format::Tiff => Some(Target::Tiff),
            Format::Pdf => Some(Target::Pdf),
            Format::Pbm | Format::Png => None,
        }
    }

    /// Returns the document into which pages go as they are stored, if they aren't turned.
    pub(crate) fn target_of_pages(&self) -> Option<Target> {
        match (self.options.action, self.options.rotation) {
            (Action::Convert, Rotation::None) => self.target(),
            _ => None,
        }
    }

    /// Returns the document into which strips are copied, if they may be.
    pub(crate) fn target_of_copies(&self) -> Option<Target> {
        match self.options.encoding {
            None => self.target_of_pages(),
            Some(_) => None,
        }
    }

    /// Writes the picture of a page as it is shown.
    pub(crate) fn write_page(
        &mut self,
        page: &Page<'_>,
        picture: Bitmap,
        output: Output,
    ) -> Result<Status, AllocError> {
        match shown_picture(self.rt.alloc(), page, picture) {
            Ok(shown) if self.options.is_damage_shown => self.write_shown(page, shown, output),
            Ok(shown) => self.write_turned(shown, output, &page.texts),
            Err(error) => self.cannot_turn(error, page.columns, page.rows),
        }
    }

    /// Tells why a picture isn't turned.
    pub(crate) fn cannot_turn(
        &mut self,
        error: PictureError,
        columns: u32,
        rows: u32,
    ) -> Result<Status, AllocError> {
        match error {
            PictureError::OutOfMemory => Err(AllocError),
            PictureError::Size => {
                let text = too_large(self.rt.alloc(), rows, u64::from(columns))?;
                self.tell_run(text.as_str());
                Ok(Status::CannotGoOn)
            }
        }
    }

    /// Writes a picture, turned as the options say.
    pub(crate) fn write_turned(
        &mut self,
        picture: Bitmap,
        output: Output,
        texts: &Texts<'_>,
    ) -> Result<Status, AllocError> {
        let orientation = self.orientation();
        if orientation == 1 {
            return self.write(&picture, self.with_resolution(output, false), texts);
        }
        match picture.turned(self.rt.alloc(), orientation) {
            Ok(turned) => {
                let output = self.with_resolution(output, orientation != 3);
                self.write(&turned, output, texts)
            }
            Err(error) => self.cannot_turn(error, picture.columns(), picture.rows()),
        }
    }

    /// Returns the orientation that turns a picture as the options say.
    pub(crate) fn orientation(&self) -> u8 {
        match self.options.rotation {
            Rotation::None => 1,
            Rotation::Quarter => 6,
            Rotation::Half => 3,
            Rotation::ThreeQuarters => 8,
        }
    }

    /// Returns a picture with the resolution of the options, if they have one; else its own, with rows and columns exchanged if it was
    /// turned so.
    pub(crate) fn with_resolution(&self, output: Output, is_across: bool) -> Output {
        let resolution = match (self.options.resolution, output.resolution) {
            (Some(dots), _) => Some(resolution_of_dots(dots)),
            (None, Some(own)) if is_across => Some(exchanged(own)),
            (None, own) => own,
        };
        Output {
            resolution,
            ..output
        }
    }

    /// Writes a picture into the document, to its file, or to standard output.
    fn write(
        &mut self,
        picture: &Bitmap,
        output: Output,
        texts: &Texts<'_>,
    ) -> Result<Status, AllocError> {
        if self.target().is_some() {
            return self.write_encoded(picture, output.resolution, texts);
        }
        let alloc = self.rt.alloc();
        let number = self.told(output.number);
        let name = name_of_picture(alloc, self.options, number, output.is_only)?;
        match name {
            Some(name) => self.write_file(name.as_str(), Drawing::Plain(picture), output),
            None => self.write_to_output(picture, output),
        }
    }

    /// Encodes a picture into the document.
    fn write_encoded(
        &mut self,
        picture: &Bitmap,
        resolution: Option<Resolution>,
        texts: &Texts<'_>,
    ) -> Result<Status, AllocError> {
        let settings = self.options.encoding.unwrap_or(Encoding::Group4).settings();
        let rows = self.options.rows_per_strip;
        match encode_picture(self.rt.alloc(), picture, settings, rows, resolution, texts) {
            Ok(page) => self.add_page(AddedPage::Fax(page)),
            Err(EncodeError::OutOfMemory) => Err(AllocError),
            Err(_) => self.cannot_write(self.name_of_output(), Unwritten::Size),
        }
    }

    /// Adds a page whose strips were copied to the document.
    pub(crate) fn add_copied(&mut self, mut page: StripPage) -> Result<Status, AllocError> {
        if let Some(dots) = self.options.resolution {
            page.resolution = Some(resolution_of_dots(dots));
        }
        self.add_page(AddedPage::Fax(page))
    }

    /// Adds a page whose only strip is copied from its file to the document.
    pub(crate) fn add_apart(
        &mut self,
        mut page: StripPage,
        strip: StripFile,
    ) -> Result<Status, AllocError> {
        if let Some(dots) = self.options.resolution {
            page.resolution = Some(resolution_of_dots(dots));
        }
        self.add_page(AddedPage::Apart(page, strip))
    }

    /// Adds a page to the document, which is begun with the first one.
    pub(crate) fn add_page(&mut self, page: AddedPage) -> Result<Status, AllocError> {
        let mut document = match mem::replace(&mut self.written, Written::Failed) {
            Written::Failed => return Ok(Status::CannotGoOn),
            Written::Document(document) => document,
            Written::Pictures(_) => match self.begin_document()? {
                Some(document) => document,
                None => return Ok(Status::CannotGoOn),
            },
        };
        match document.add(page) {
            Ok(()) => {
                self.written = Written::Document(document);
                Ok(Status::Whole)
            }
            Err(why) => {
                document.discard();
                self.cannot_write(self.name_of_output(), why)
            }
        }
    }

    /// Begins the document. `None` if that can't be done, which is told.
    fn begin_document(&mut self) -> Result<Option<Document<'a>>, AllocError> {
        let Some(target) = self.target() else {
            return Ok(None);
        };
        let file = match self.options.output {
            None => None,
            Some(name) => match NewFile::create(self.rt, name, self.options.may_overwrite) {
                Ok(file) => Some(file),
                Err(error) => {
                    self.cannot_create(name, &error)?;
                    return Ok(None);
                }
            },
        };
        let is_big = self.size_of_files() > MOST_OF_CLASSIC;
        match Document::begin(self.rt, file, target, is_big) {
            Ok(document) => Ok(Some(document)),
            Err(why) => {
                self.cannot_write(self.name_of_output(), why)?;
                Ok(None)
            }
        }
    }

    /// Returns how many bytes the files have together; what can't be read has none.
    fn size_of_files(&self) -> u64 {
        let mut size: u64 = 0;
        for path in self.options.files.as_slice() {
            match fs::metadata(self.rt, path) {
                Ok(found) if found.is_dir() => {
                    if let Ok(names) = files_in(self.rt, path) {
                        for name in names.as_slice() {
                            if let Ok(found) = fs::metadata(self.rt, name.as_str()) {
                                size = size.saturating_add(found.len());
                            }
                        }
                    }
                }
                Ok(found) => size = size.saturating_add(found.len()),
                Err(_) => {}
            }
        }
        size
    }

    /// Finishes the document, if one was begun.
    pub(crate) fn finish_document(&mut self) -> Result<Status, AllocError> {
        let document = match mem::replace(&mut self.written, Written::Failed) {
            Written::Document(document) => document,
            Written::Pictures(_) | Written::Failed => return Ok(Status::Whole),
        };
        match document.finish() {
            Ok(Ok(())) => Ok(Status::Whole),
            Ok(Err(error)) => self.cannot_create(self.name_of_output(), &error),
            Err(why) => self.cannot_write(self.name_of_output(), why),
        }
    }

    /// Removes the document, if one was begun and isn't finished.
    pub(crate) fn discard_document(&mut self) {
        if let Written::Document(document) = mem::replace(&mut self.written, Written::Failed) {
            document.discard();
        }
    }

    /// Returns what the output is called.
    fn name_of_output(&self) -> &'c str {
        self.options.output.unwrap_or(STANDARD_OUTPUT)
    }

    /// Writes a picture to standard output.
    fn write_to_output(&mut self, picture: &Bitmap, output: Output) -> Result<Status, AllocError> {
        let format = self.options.format;
        let before = match self.written {
            Written::Pictures(before) => before,
            Written::Document(_) | Written::Failed => 0,
        };
        if matches!(format, Format::Png) && (before > 0 || !output.is_only) {
            self.tell_run("standard output takes one PNG picture; -p chooses a page");
            return Ok(Status::CannotGoOn);
        }
        self.written = Written::Pictures(before.saturating_add(1));
        let mut out = self.rt.stdout();
        match put_picture(
            self.rt.alloc(),
            &mut out,
            Drawing::Plain(picture),
            format,
            output.resolution,
        ) {
            Ok(()) => Ok(Status::Whole),
            Err(why) => self.cannot_write(STANDARD_OUTPUT, why),
        }
    }

    /// Writes a picture to a file, which gets its name once it is whole.
    pub(crate) fn write_file(
        &mut self,
        name: &str,
        drawing: Drawing<'_>,
        output: Output,
    ) -> Result<Status, AllocError> {
        let mut file = match NewFile::create(self.rt, name, self.options.may_overwrite) {
            Ok(file) => file,
            Err(error) => return self.cannot_create(name, &error),
        };
        let format = self.options.format;
        if let Err(why) = put_picture(
            self.rt.alloc(),
            &mut file,
            drawing,
            format,
            output.resolution,
        ) {
            file.discard(self.rt);
            return self.cannot_write(name, why);
        }
        match file.finish(self.rt) {
            Ok(()) => Ok(Status::Whole),
            Err(error) => self.cannot_create(name, &error),
        }
    }

    /// Tells why a file isn't created.
    pub(crate) fn cannot_create(
        &mut self,
        name: &str,
        error: &io::Error,
    ) -> Result<Status, AllocError> {
        if error.kind() == ErrorKind::AlreadyExists {
            self.teller
                .tell(Some(name), "it exists; --overwrite replaces it");
            return Ok(Status::CannotGoOn);
        }
        self.cannot(name, error)
    }

    /// Tells that a line can't be printed.
    pub(crate) fn cannot_print(&mut self) -> Result<Status, AllocError> {
        self.cannot_write(STANDARD_OUTPUT, Unwritten::Write)
    }

    /// Tells why a picture or a document isn't written.
    pub(crate) fn cannot_write(
        &mut self,
        name: &str,
        why: Unwritten,
    ) -> Result<Status, AllocError> {
        let text = match why {
            Unwritten::OutOfMemory => return Err(AllocError),
            Unwritten::Size => "the picture has no size that a file of this format has",
            Unwritten::TooLong => "the document is too large",
            Unwritten::Write => "can't be written",
            Unwritten::Read => "a strip that is copied can't be read",
        };
        self.teller.tell(Some(name), text);
        Ok(Status::CannotGoOn)
    }
}

/// The most bytes of files whose pages are written as a classic TIFF file: pages that are encoded again may be larger, and such a file has
/// 4 GiB at most.
const MOST_OF_CLASSIC: u64 = 1 << 31;

/// What standard output is called.
pub(crate) const STANDARD_OUTPUT: &str = "standard output";
