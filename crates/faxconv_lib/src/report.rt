//! What is said of a page that was read.

ghost use Rattle.std.specs.Prelude.{◌≡◌};
ghost use Rattle.faxconv_lib.specs.Reports.{status_of_damage};

use crate::damage_text::put_damage;
use crate::json::put_json_text;
use crate::status::Status;
use fax_decode::damage::Damage;
use hayro_ccitt::DecodeSettings;
use std::alloc::AllocError;

/// Where a page is in its file.
#[derive(Clone, Copy)]
pub enum Place {
    /// It is all of the file.
    File,
    /// It is the page of this number.
    Page(u64),
    /// It is the image of the second number in a file, on the page of the first.
    Image(u64, u64),
    /// It is the image of this number, and no page shows it.
    Unshown(u64),
}

/// Something that isn't damage, and how bad it is.
#[derive(Clone, Copy)]
pub struct Note<'a> {
    /// What it is.
    pub text: &'a str,
    /// How bad it is.
    pub status: Status,
}

/// A page that was read.
#[derive(Clone, Copy)]
pub struct PageReport<'a> {
    /// Where the page is.
    pub place: Place,
    /// Why there is no picture of the page.
    pub refused: Option<&'a str>,
    /// What is damaged.
    pub damage: &'a Damage,
    /// What a part of the page is called.
    pub part: &'a str,
    /// What else there is to say.
    pub note: Option<Note<'a>>,
    /// How many rows its picture has.
    pub rows: u64,
    /// Where its data breaks a rule by which every decoder must read it as the same picture, if that was sought.
    pub violation: Option<&'a str>,
}

/// Returns how whole a page with this damage is.
fn status_of_damage(damage: &Damage) -> Status
    ensures { result ≡ status_of_damage damage.now }
{
    if damage.missing.count > 0 {
        Status::Missing
    } else if damage.fault.is_some() {
        Status::Damaged
    } else {
        Status::Whole
    }
}

impl PageReport<'_> {
    /// Returns how whole the page is: the worst of its damage, of what else there is to say, and of a rule that its data breaks.
    pub fn status(&self) -> Status {
        let status = match self.refused {
            Some(_) => Status::Missing,
            None => status_of_damage(self.damage),
        };
        let status = match self.violation {
            Some(_) => status.worse(Status::Damaged),
            None => status,
        };
        match self.note {
            Some(note) => status.worse(note.status),
            None => status,
        }
    }

    /// Puts what is wrong with the page. Returns whether something is.
    fn put_wrong(&self, text: &mut String) -> Result<bool, AllocError> {
        let start = text.len();
        match self.refused {
            Some(why) => text.push_str(why)?,
            None => put_damage(self.damage, self.part, text)?,
        }
        if let Some(note) = self.note {
            if text.len() > start {
                text.push_str("; ")?;
            }
            text.push_str(note.text)?;
        }
        Ok(text.len() > start)
    }

    /// Puts a line about the page without the name of its file: what is wrong, or that nothing is. Returns whether something is wrong.
    pub fn put_line(&self, text: &mut String) -> Result<bool, AllocError> {
        put_place(self.place, text)?;
        let is_wrong = self.put_wrong(text)?;
        if !is_wrong {
            write!(text, "ok, {} rows", self.rows)?;
            if self.damage.unread > 0 {
                write!(text, "; {} bytes after them", self.damage.unread)?;
            }
        }
        if let Some(violation) = self.violation {
            text.push_str("; ")?;
            text.push_str(violation)?;
        }
        Ok(is_wrong)
    }

    /// Puts the page as an object of JSON: its file, its number, the exit status of a run that reads it alone, its rows, what is wrong, and
    /// how many bytes follow the rows, if some do.
    pub fn put_json(&self, file: &str, text: &mut String) -> Result<(), AllocError> {
        let mut wrong = String::new(text.allocator().clone()?);
        self.put_wrong(&mut wrong)?;
        text.push_str("{\"file\": ")?;
        put_json_text(file, text)?;
        put_json_place(self.place, text)?;
        write!(
            text,
            ", \"status\": {}, \"rows\": {}",
            self.status().exit_code(),
            self.rows
        )?;
        text.push_str(", \"wrong\": ")?;
        if wrong.is_empty() {
            text.push_str("null")?;
        } else {
            put_json_text(wrong.as_str(), text)?;
        }
        if self.damage.unread > 0 {
            write!(text, ", \"unread\": {}", self.damage.unread)?;
        }
        if let Some(violation) = self.violation {
            text.push_str(", \"violation\": ")?;
            put_json_text(violation, text)?;
        }
        text.push('}')
    }
}

/// Returns that an image of a PDF file is read by these keys, which aren't those of the file.
pub fn note_of_keys(settings: &DecodeSettings) -> Note<'static> {
    let text = match (settings.end_of_line, settings.rows_are_byte_aligned) {
        (false, false) =>
            "read by other keys than the file's: EndOfLine false, EncodedByteAlign false",
        (false, true) =>
            "read by other keys than the file's: EndOfLine false, EncodedByteAlign true",
        (true, false) =>
            "read by other keys than the file's: EndOfLine true, EncodedByteAlign false",
        (true, true) => "read by other keys than the file's: EndOfLine true, EncodedByteAlign true",
    };
    Note {
        text,
        status: Status::Whole,
    }
}

/// Puts where a page is, before what is said of it.
pub(crate) fn put_place(place: Place, text: &mut String) -> Result<(), AllocError> {
    match place {
        Place::File => Ok(()),
        Place::Page(page) => write!(text, "page {page}: "),
        Place::Image(page, image) => write!(text, "page {page}, image {image}: "),
        Place::Unshown(image) => write!(text, "no page, image {image}: "),
    }
}

/// Puts where a page is as members of an object.
pub(crate) fn put_json_place(place: Place, text: &mut String) -> Result<(), AllocError> {
    match place {
        Place::File => Ok(()),
        Place::Page(page) => write!(text, ", \"page\": {page}"),
        Place::Image(page, image) => write!(text, ", \"page\": {page}, \"image\": {image}"),
        Place::Unshown(image) => write!(text, ", \"page\": null, \"image\": {image}"),
    }
}
