//! A run: the files that are read, and what is written and said of their pages.

use crate::output::Output;
use crate::written::Written;
use fax_decode::damage::Damage;
use fax_decode::{Allowance, DecodedPage, by_other_keys, decode_page};
use fax_pages::{Page, PartKind};
use fax_pictures::Bitmap;
use fax_strips::{copy_strips, known_resolution};
use faxconv_in::{
    Content, Entry, PbmEntries, PdfEntries, RawPage, Source, TiffEntries, can_be_piped, read_raw,
    text_of_no_picture,
};
use faxconv_lib::folder::files_in;
use faxconv_lib::info::{Contents, name_of_part, put_info, put_json_info};
use faxconv_lib::kinds::{behind_digifax, name_of_other};
use faxconv_lib::options::Rotation;
use faxconv_lib::report::{Note, PageReport, Place, note_of_keys};
use faxconv_lib::standard::violation_of;
use faxconv_lib::streams::read_first;
use faxconv_lib::visible::put_visible;
use faxconv_lib::{Action, Format, Kind, Options, Program, Status, Teller, kind_of};
use std::alloc::{AllocError, Global};
use std::io::Read;
use std::{fs, io};
use tiff_read::NO_TEXTS;
use tiff_split::{Carrier, Held};

/// A run of the program.
#[derive(Drop)]
pub(crate) struct Run<'a, 'b, 'c> {
    pub(crate) rt: &'a HostRuntime,
    pub(crate) teller: Teller<'a>,
    pub(crate) options: &'b Options<'c>,
    /// The pictures of the files before.
    pub(crate) before: u64,
    /// What was written.
    pub(crate) written: Written<'a>,
}

/// A page that is read, among those of its file.
#[derive(Clone, Copy)]
pub(crate) struct Job<'n> {
    /// The name of the file.
    pub(crate) name: &'n str,
    /// Where the page is in it.
    pub(crate) place: Place,
    /// What is to be written.
    pub(crate) output: Output,
    /// What is wrong with what follows it.
    pub(crate) note: Option<Note<'static>>,
}

impl<'a, 'b, 'c> Run<'a, 'b, 'c> {
    /// Creates a run that has done nothing.
    pub(crate) fn new(
        rt: &'a HostRuntime,
        teller: Teller<'a>,
        options: &'b Options<'c>,
    ) -> Run<'a, 'b, 'c> {
        Run {
            rt,
            teller,
            options,
            before: 0,
            written: Written::Pictures(0),
        }
    }

    /// Tells something of the run.
    pub(crate) fn tell_run(&mut self, message: &str) {
        self.teller.tell(None, message);
    }

    /// Removes what shows the progress, and a document that isn't whole.
    pub(crate) fn end(&mut self) {
        self.teller.end_progress();
        self.discard_document();
    }

    /// Reads all files, and returns how whole they are.
    pub(crate) fn do_files(&mut self) -> Result<Status, AllocError> {
        let read = self.read_files()?;
        let written = self.finish_document()?;
        Ok(read.worse(written))
    }

    /// Reads all files, or standard input if there are none.
    fn read_files(&mut self) -> Result<Status, AllocError> {
        if self.options.files.is_empty() {
            return self.do_file("-");
        }
        let mut status = Status::Whole;
        for path in self.options.files.as_slice() {
            status = status.worse(self.do_path(path)?);
        }
        Ok(status)
    }

    /// Reads a file, or the files of a folder.
    fn do_path(&mut self, path: &str) -> Result<Status, AllocError> {
        let is_folder = match fs::metadata(self.rt, path) {
            Ok(found) => path != "-" && found.is_dir(),
            Err(_) => false,
        };
        if !is_folder {
            return self.do_file(path);
        }
        let names = match files_in(self.rt, path) {
            Ok(names) => names,
            Err(error) => return self.cannot(path, &error),
        };
        let mut status = Status::Whole;
        for name in names.as_slice() {
            status = status.worse(self.do_file(name.as_str())?);
        }
        Ok(status)
    }

    /// Tells an error of the system about a file.
    pub(crate) fn cannot(&mut self, name: &str, error: &io::Error) -> Result<Status, AllocError> {
        let text = format!(in self.rt.alloc(); "{error}")?;
        self.teller.tell(Some(name), text.as_str());
        Ok(Status::CannotGoOn)
    }

    /// Reads a file, or standard input for `-`.
    fn do_file(&mut self, path: &str) -> Result<Status, AllocError> {
        if path == "-" {
            return self.do_stream(STANDARD_INPUT, &mut self.rt.stdin());
        }
        match fs::File::open(self.rt, path) {
            Ok(mut file) => match self.size_if_split(&file) {
                Some(size) => self.do_split(path, &file, size),
                None => self.do_stream(path, &mut file),
            },
            Err(error) => self.cannot(path, &error),
        }
    }

    /// Reads raw data whose rows can be written as it comes, or else all that there is.
    fn do_stream<R: Read>(&mut self, name: &str, source: &mut R) -> Result<Status, AllocError> {
        let mut bytes = Vec::new(self.rt.alloc());
        if let Err(error) = read_first(source, &mut bytes) {
            return self.cannot(name, &error);
        }
        if self.is_piped(bytes.as_slice()) {
            self.teller.show_progress(name, 1);
            return self.do_piped(name, behind_digifax(bytes.as_slice()), source);
        }
        match source.read_to_end(&mut bytes) {
            Ok(_) => self.do_bytes(name, bytes.as_slice()),
            Err(error) => self.cannot(name, &error),
        }
    }

    /// Returns whether what begins so is raw data whose rows can be written as it comes: as PBM, as it is read.
    fn is_piped(&self, first: &[u8]) -> bool {
        let options = self.options;
        matches!(options.format, Format::Pbm)
            && matches!(options.action, Action::Convert)
            && matches!(options.rotation, Rotation::None)
            && self.is_wanted(1)
            && matches!(kind_of(first, options.raw.is_wanted), Some(Kind::Raw))
            && can_be_piped(&options.raw)
    }

    /// Reads the bytes of a file.
    fn do_bytes(&mut self, name: &str, file: &[u8]) -> Result<Status, AllocError> {
        if matches!(self.options.action, Action::Guess) {
            self.teller.show_progress(name, 1);
            return self.do_guess(name, behind_digifax(file));
        }
        match kind_of(file, self.options.raw.is_wanted) {
            Some(Kind::Tiff) => self.do_tiff(name, file),
            Some(Kind::Raw) => self.do_raw(name, behind_digifax(file)),
            Some(Kind::Pdf) => self.do_pdf(name, file),
            Some(Kind::Pbm) => {
                let entries = PbmEntries::open(self.rt.alloc(), file);
                self.do_source(name, Source::Pbm(entries), file)
            }
            None => {
                let other = name_of_other(file);
                let text = format!(in self.rt.alloc();
                    "it is {other}; -m says how raw fax data is encoded"
                )?;
                self.do_other(name, text.as_str())
            }
        }
    }

    /// Tells why a file isn't read.
    pub(crate) fn do_other(&mut self, name: &str, why: &str) -> Result<Status, AllocError> {
        self.teller.tell(Some(name), why);
        Ok(Status::Missing)
    }

    /// Reads a TIFF file.
    fn do_tiff(&mut self, name: &str, file: &[u8]) -> Result<Status, AllocError> {
        match TiffEntries::open(self.rt.alloc(), file)? {
            Some(entries) => self.do_source(name, Source::Tiff(entries), file),
            None => self.do_other(name, "its directory isn't in the file"),
        }
    }

    /// Reads a PDF file.
    fn do_pdf(&mut self, name: &str, file: &[u8]) -> Result<Status, AllocError> {
        match PdfEntries::open(self.rt.alloc(), file)? {
            Ok(entries) => self.do_source(name, Source::Pdf(entries), file),
            Err(why) => self.do_other(name, why),
        }
    }

    /// Reads the pages of a file. A page is written after the next one is found, since its name depends on whether
    /// there are others.
    fn do_source(
        &mut self,
        name: &str,
        mut source: Source<'_>,
        file: &[u8],
    ) -> Result<Status, AllocError> {
        let mut allowance = Allowance::of_file(file.len());
        let mut carrier = Carrier::new(self.rt.alloc(), file.len() as u64);
        let mut status = Status::Whole;
        let mut done: u64 = 0;
        let mut now = self.next_wanted(&mut source)?;
        for _ in 0..u64::MAX {
            let Some(entry) = now else {
                break;
            };
            let after = self.next_wanted(&mut source)?;
            let is_only = done == 0 && after.is_none() && self.options.files.len() <= 1;
            let job = self.job_of(name, &source, &entry, is_only);
            let entry = if matches!(source, Source::Tiff(_)) {
                self.carried(entry, &mut carrier, &Held(file))?
            } else {
                entry
            };
            status = status.worse(self.do_entry(&job, entry, &mut allowance)?);
            done = done.saturating_add(1);
            now = if matches!(status, Status::CannotGoOn) {
                None
            } else {
                after
            };
        }
        self.before = self.before.saturating_add(u64::from(source.count()));
        if matches!(status, Status::CannotGoOn) {
            return Ok(status);
        }
        let rest = self.tell_rest(name, &source, done)?;
        Ok(status.worse(rest))
    }

    /// Returns the number of a page or a picture as it is told.
    pub(crate) fn told(&self, number: u64) -> u64 {
        match self.options.program {
            Program::Faxconv => number,
            Program::Fax2pbm => number.saturating_sub(1),
        }
    }

    /// Returns whether the page of a number is wanted; an image that no page shows has the number 0.
    pub(crate) fn is_wanted(&self, number: u64) -> bool {
        match u32::try_from(self.told(number)) {
            Ok(told) if number > 0 => self.options.pages.contains(told),
            _ => self.options.pages.ranges.is_empty(),
        }
    }

    /// Returns the next page that is wanted.
    fn next_wanted<'d>(&self, source: &mut Source<'d>) -> Result<Option<Entry<'d>>, AllocError> {
        for _ in 0..u64::MAX {
            let Some(entry) = source.next()? else {
                break;
            };
            if self.is_wanted(u64::from(entry.number)) {
                return Ok(Some(entry));
            }
        }
        Ok(None)
    }

    /// Returns what is known of a page before it is read.
    fn job_of<'n>(
        &self,
        name: &'n str,
        source: &Source<'_>,
        entry: &Entry<'_>,
        is_only: bool,
    ) -> Job<'n> {
        let (number, image) = (u64::from(entry.number), u64::from(entry.image));
        Job {
            name,
            place: source.place(self.told(number), self.told(image), number > 0),
            output: Output {
                number: self.before.saturating_add(image),
                is_only,
                resolution: None,
            },
            note: note_of(entry.note),
        }
    }

    /// Tells what of a file isn't among the pages that were read, of which there are so many.
    fn tell_rest(
        &mut self,
        name: &str,
        source: &Source<'_>,
        done: u64,
    ) -> Result<Status, AllocError> {
        let mut status = Status::Whole;
        if done == 0 {
            status = Status::Missing;
        }
        let Source::Pdf(pdf) = source else {
            if done == 0 {
                self.teller.tell(Some(name), "there is no such page");
            }
            return Ok(status);
        };
        let file = pdf.pages.pdf();
        if file.unread() > 0 {
            self.teller.tell(
                Some(name),
                "objects or the contents of pages can't be read; images of theirs may be missing",
            );
            status = Status::Missing;
        }
        let others = file.others();
        let alloc = self.rt.alloc();
        if pdf.pages.images().is_empty() {
            let text = format!(in alloc; "it has no fax images, and {others} others")?;
            self.teller.tell(Some(name), text.as_str());
        } else if done == 0 {
            self.teller
                .tell(Some(name), "these pages have no fax image");
        } else if others > 0 && self.is_wanted(0) && !self.options.is_quiet {
            let images = if others == 1 { "image" } else { "images" };
            let text = format!(in alloc; "left out: {others} {images} without fax data")?;
            self.teller.tell(Some(name), text.as_str());
        }
        Ok(status)
    }

    /// Reads a page, tells of it, and writes it.
    pub(crate) fn do_entry(
        &mut self,
        job: &Job<'_>,
        entry: Entry<'_>,
        allowance: &mut Allowance,
    ) -> Result<Status, AllocError> {
        self.teller.show_progress(job.name, u64::from(entry.number));
        if matches!(self.options.action, Action::Info) {
            return self.print_info(job, &entry.content);
        }
        let none = Damage::new(self.rt.alloc());
        match entry.content {
            Content::Refused(why) => {
                let report = report_of(job, Some(why.as_str()), &none, "strip", 0);
                self.tell_page(job.name, &report)
            }
            Content::Carried(page, told) => self.do_carried(job, page, told.as_str()),
            Content::Picture(picture) => {
                let rows = u64::from(picture.rows());
                let report = report_of(job, None, &none, "picture", rows);
                let status = self.tell_page(job.name, &report)?;
                self.write_if_wanted(status, picture, job.output)
            }
            Content::Page(mut page) => {
                if let Some(status) = self.copy_page(job, &page, allowance)? {
                    return Ok(status);
                }
                let decoded = decode_page(self.rt.alloc(), &page, allowance)?;
                if matches!(page.kind, PartKind::Stream) && decoded.damage.fault.is_some() {
                    let otherwise = by_other_keys(self.rt.alloc(), &page, allowance)?;
                    if let (Some(part), Some(own)) = (otherwise, page.parts.first_mut()) {
                        *own = part;
                        let decoded = decode_page(self.rt.alloc(), &page, allowance)?;
                        let note = Some(note_of_keys(&part.settings));
                        return self.do_decoded(&Job { note, ..*job }, &page, decoded);
                    }
                }
                self.do_decoded(job, &page, decoded)
            }
        }
    }

    /// Copies the strips of a page into the document, if there is one and that can be done.
    fn copy_page(
        &mut self,
        job: &Job<'_>,
        page: &Page<'_>,
        allowance: &mut Allowance,
    ) -> Result<Option<Status>, AllocError> {
        let alloc = self.rt.alloc();
        let Some(target) = self.target_of_copies() else {
            return Ok(None);
        };
        let is_trusted = self.options.is_copy;
        let Some(copied) = copy_strips(alloc, page, target, is_trusted, allowance)? else {
            return Ok(None);
        };
        let none = Damage::new(alloc);
        let report = report_of(job, None, &none, "strip", u64::from(page.rows));
        let status = self.tell_page(job.name, &report)?;
        let added = self.add_copied(copied)?;
        Ok(Some(status.worse(added)))
    }

    /// Tells of a page that was decoded, and writes its picture.
    fn do_decoded(
        &mut self,
        job: &Job<'_>,
        page: &Page<'_>,
        decoded: DecodedPage,
    ) -> Result<Status, AllocError> {
        let DecodedPage { picture, damage } = decoded;
        let part = name_of_part(page.kind);
        let why = match &picture {
            Ok(_) => None,
            Err(why) => {
                let size = (page.columns, page.rows);
                Some(text_of_no_picture(self.rt.alloc(), *why, size, part, &damage)?)
            }
        };
        let violation = match &picture {
            Ok(_) if self.options.is_standard => violation_of(self.rt.alloc(), page)?,
            _ => None,
        };
        let report = PageReport {
            violation: text_in(&violation),
            ..report_of(job, text_in(&why), &damage, part, u64::from(page.rows))
        };
        let status = self.tell_page(job.name, &report)?;
        match picture {
            Ok(picture) if self.is_converting(status) => {
                let output = Output {
                    resolution: known_resolution(&page.resolution, 5 <= page.orientation),
                    ..job.output
                };
                let written = self.write_page(page, picture, output)?;
                Ok(status.worse(written))
            }
            _ => Ok(status),
        }
    }

    /// Prints what is known of a page that isn't decoded.
    fn print_info(&mut self, job: &Job<'_>, content: &Content<'_>) -> Result<Status, AllocError> {
        let contents = match content {
            Content::Page(page) => Contents::Fax(page),
            Content::Picture(picture) => Contents::Picture(picture.columns(), picture.rows()),
            Content::Refused(why) | Content::Carried(_, why) => Contents::Refused(why.as_str()),
        };
        self.print_contents(job.name, job.place, &contents)
    }

    /// Prints what is known of a page.
    pub(crate) fn print_contents(
        &mut self,
        name: &str,
        place: Place,
        contents: &Contents<'_>,
    ) -> Result<Status, AllocError> {
        let mut line = String::new(self.rt.alloc());
        if self.options.is_json {
            put_json_info(name, place, contents, &mut line)?;
        } else {
            put_visible(name, &mut line)?;
            line.push_str(": ")?;
            put_info(place, contents, &mut line)?;
        }
        line.push('\n')?;
        match (print!(self.rt; "{line}"), contents) {
            (Err(_), _) => self.cannot_print(),
            (Ok(()), Contents::Refused(_)) => Ok(Status::Missing),
            (Ok(()), _) => Ok(Status::Whole),
        }
    }

    /// Returns whether a page of this status is written.
    fn is_converting(&self, status: Status) -> bool {
        matches!(self.options.action, Action::Convert) && !matches!(status, Status::CannotGoOn)
    }

    /// Writes a picture of this status, unless nothing is to be written. Returns the worse of that status and of how that went.
    pub(crate) fn write_if_wanted(
        &mut self,
        status: Status,
        picture: Bitmap,
        output: Output,
    ) -> Result<Status, AllocError> {
        if !self.is_converting(status) {
            return Ok(status);
        }
        let written = self.write_turned(picture, output, &NO_TEXTS)?;
        Ok(status.worse(written))
    }

    /// Reads raw data, tells of it, and writes its picture.
    fn do_raw(&mut self, name: &str, data: &[u8]) -> Result<Status, AllocError> {
        self.teller.show_progress(name, 1);
        if !self.is_wanted(1) {
            self.teller.tell(Some(name), "there is no such page");
            return Ok(Status::Missing);
        }
        let alloc = self.rt.alloc();
        if matches!(self.options.action, Action::Info) {
            let page = self.options.raw.page(alloc, data, None)?;
            return self.print_contents(name, Place::File, &Contents::Fax(&page));
        }
        let page = read_raw(alloc, data, &self.options.raw)?;
        let output = self.output_of_raw();
        self.do_raw_page(name, data, page, output)
    }

    /// Returns what is to be written of raw data.
    pub(crate) fn output_of_raw(&mut self) -> Output {
        self.before = self.before.saturating_add(1);
        Output {
            number: self.before,
            is_only: self.options.files.len() <= 1,
            resolution: None,
        }
    }

    /// Tells of raw data that was read, and writes its picture, or into a document the data as it is where that can be done.
    fn do_raw_page(
        &mut self,
        name: &str,
        data: &[u8],
        page: RawPage,
        output: Output,
    ) -> Result<Status, AllocError> {
        let alloc = self.rt.alloc();
        let whole = self.options.raw.page(alloc, data, Some(page.rows))?;
        let violation = match &page.picture {
            Ok(_) if self.options.is_standard => violation_of(alloc, &whole)?,
            _ => None,
        };
        let status = self.tell_raw(name, &page, &violation)?;
        let RawPage {
            picture,
            rows: _,
            damage: _,
            note: _,
        } = page;
        let Ok(Some(picture)) = picture else {
            return Ok(status);
        };
        if let Some(target) = self.target_of_copies() {
            let mut allowance = Allowance::of_file(data.len());
            let copied = copy_strips(alloc, &whole, target, false, &mut allowance)?;
            if let Some(copied) = copied {
                let added = self.add_copied(copied)?;
                return Ok(status.worse(added));
            }
        }
        if !self.is_converting(status) {
            return Ok(status);
        }
        let written = self.write_page(&whole, picture, output)?;
        Ok(status.worse(written))
    }

    /// Tells what is wrong with raw data.
    pub(crate) fn tell_raw(
        &mut self,
        name: &str,
        page: &RawPage,
        violation: &Option<String>,
    ) -> Result<Status, AllocError> {
        let report = PageReport {
            place: Place::File,
            refused: match &page.picture {
                Ok(_) => None,
                Err(why) => Some(why.as_str()),
            },
            damage: &page.damage,
            part: "stream",
            note: note_in(&page.note),
            rows: page.rows,
            violation: text_in(violation),
        };
        self.tell_page(name, &report)
    }

    /// Tells what is wrong with a page, or in a check that nothing is. Returns its status.
    pub(crate) fn tell_page(
        &mut self,
        name: &str,
        report: &PageReport<'_>,
    ) -> Result<Status, AllocError> {
        let alloc = self.rt.alloc();
        if matches!(self.options.action, Action::Check) {
            let line = self.line_of_check(alloc, name, report)?;
            return match print!(self.rt; "{line}") {
                Ok(()) => Ok(report.status()),
                Err(_) => self.cannot_print(),
            };
        }
        let mut line = String::new(alloc);
        if report.put_line(&mut line)? && !self.options.is_quiet {
            self.teller.tell(Some(name), line.as_str());
        }
        Ok(report.status())
    }

    /// Returns the line of a page in a check.
    fn line_of_check(
        &self,
        alloc: Global,
        name: &str,
        report: &PageReport<'_>,
    ) -> Result<String, AllocError> {
        let mut line = String::new(alloc);
        if self.options.is_json {
            report.put_json(name, &mut line)?;
        } else {
            put_visible(name, &mut line)?;
            line.push_str(": ")?;
            report.put_line(&mut line)?;
        }
        line.push('\n')?;
        Ok(line)
    }
}

/// What standard input is called.
const STANDARD_INPUT: &str = "standard input";

/// Returns what is said of a page.
pub(crate) fn report_of<'r>(
    job: &Job<'_>,
    refused: Option<&'r str>,
    damage: &'r Damage,
    part: &'r str,
    rows: u64,
) -> PageReport<'r> {
    PageReport {
        place: job.place,
        refused,
        damage,
        part,
        note: job.note,
        rows,
        violation: None,
    }
}

/// Returns what is wrong with what follows a page.
pub(crate) fn note_of(note: Option<&'static str>) -> Option<Note<'static>> {
    match note {
        None => None,
        Some(text) => Some(Note {
            text,
            status: Status::Damaged,
        }),
    }
}

/// Returns what else there is to say of raw data, if there is something.
fn note_in(note: &Option<(String, Status)>) -> Option<Note<'_>> {
    match note {
        None => None,
        Some((text, status)) => Some(Note {
            text: text.as_str(),
            status: *status,
        }),
    }
}

/// Returns a text, if there is one.
pub(crate) fn text_in(text: &Option<String>) -> Option<&str> {
    match text {
        None => None,
        Some(text) => Some(text.as_str()),
    }
}
