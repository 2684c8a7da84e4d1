//! What a directory says in words.

ghost use Rattle.std.specs.Prelude.{◌≡◌, ◌<◌, ◌≤◌, ◌↔◌, Err, IfOk, OnOk, IsOkUnless};
ghost use Rattle.tiff_read.specs.Payments.{Costs, IsSameReading};
ghost use Rattle.tiff_read.specs.Texts.{AreTexts, cost_of_texts};

use crate::directory::Directory;
use crate::error::TiffError;
use crate::file::Tiff;

/// What is said of a page, each without a NUL (TIFF 6.0, sections 8 and 12).
#[derive(Clone, Copy, Drop)]
pub struct Texts<'a> {
    /// DocumentName.
    pub document_name: Option<&'a [u8]>,
    /// ImageDescription.
    pub image_description: Option<&'a [u8]>,
    /// PageName.
    pub page_name: Option<&'a [u8]>,
    /// Software.
    pub software: Option<&'a [u8]>,
    /// DateTime.
    pub date_time: Option<&'a [u8]>,
    /// Artist.
    pub artist: Option<&'a [u8]>,
    /// Copyright.
    pub copyright: Option<&'a [u8]>,
}

/// What is said of a page without texts.
pub const NO_TEXTS: Texts<'static> = Texts {
    document_name: None,
    image_description: None,
    page_name: None,
    software: None,
    date_time: None,
    artist: None,
    copyright: None,
};

impl<'a> Tiff<'a> {
    /// Reads what a directory says in words, each as [`Tiff::text`] does: for seven steps, and one for each byte of the texts.
    ///
    /// # Errors
    ///
    /// `Spent`.
    pub fn texts(&mut self, directory: &Directory) -> Result<Texts<'a>, TiffError>
        ensures texts { IfOk result (λ texts. AreTexts self.old.bytes directory.now texts) }
        ensures paid { OnOk result (Costs (cost_of_texts self.old.bytes directory.now) self.old self.new) }
        ensures least { self.new.left ≤ self.old.left }
        ensures same { IsSameReading self.old self.new }
        ensures spent { (result ≡ Err TiffError.Spent) ↔ (self.old.left < cost_of_texts self.old.bytes directory.now) }
        ensures only_spent { IsOkUnless result TiffError.Spent }
    {
        let document_name = self.text(directory, 269)?;
        let image_description = self.text(directory, 270)?;
        let page_name = self.text(directory, 285)?;
        let software = self.text(directory, 305)?;
        let date_time = self.text(directory, 306)?;
        let artist = self.text(directory, 315)?;
        let copyright = self.text(directory, 33432)?;
        Ok(Texts {
            document_name,
            image_description,
            page_name,
            software,
            date_time,
            artist,
            copyright,
        })
    }
}
