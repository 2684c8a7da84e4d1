//! What a directory says of its picture.

ghost use Rattle.std.specs.Prelude.{◌≡◌, ◌+◌, ◌<◌, ◌≤◌, ◌↔◌, length, Err, IfOk, IfSome, OnOk, OnErr, IsOkUnless};
ghost use Rattle.tiff_read.specs.Payments.{Costs};
ghost use Rattle.tiff_read.specs.Pictures.{first_or, orientation_of, picture_of, unit_of};

use crate::directory::Directory;
use crate::error::TiffError;
use crate::file::Tiff;
use crate::values::Ratio;

/// What resolutions are counted by.
#[derive(Clone, Copy, Debug, PartialEq, Eq)]
pub enum ResolutionUnit {
    /// Nothing: they tell the shape of a pixel alone.
    None,
    /// An inch.
    Inch,
    /// A centimetre.
    Centimetre,
}

/// What a directory says of its picture; of what it doesn't say, the default of TIFF 6.0.
#[derive(Clone, Copy, Debug, PartialEq, Eq)]
pub struct Picture {
    /// ImageWidth; 0 if it is missing.
    pub columns: u64,
    /// ImageLength; 0 if it is missing.
    pub rows: u64,
    /// BitsPerSample of the first component.
    pub bits_per_sample: u64,
    /// SamplesPerPixel.
    pub samples_per_pixel: u64,
    /// Compression: 2 to 4 are those of T.4 and T.6.
    pub compression: u64,
    /// PhotometricInterpretation; 0 if 0 bits are white.
    pub photometric: Option<u64>,
    /// Whether the first pixel of a byte is its lowest bit: FillOrder is 2.
    pub is_low_first: bool,
    /// Orientation: which edges row 0 and column 0 are, from 1 to 8.
    pub orientation: u8,
    /// T4Options.
    pub t4_options: u64,
    /// T6Options.
    pub t6_options: u64,
    /// XResolution: pixels of a row in a unit.
    pub across: Option<Ratio>,
    /// YResolution: rows in a unit.
    pub down: Option<Ratio>,
    /// ResolutionUnit.
    pub unit: ResolutionUnit,
}

/// How many numbers a picture is read from.
const PICTURE_NUMBERS: usize = 13;

impl<'a> Tiff<'a> {
    /// Reads what a directory says of its picture, for 13 steps.
    ///
    /// # Errors
    ///
    /// `Spent`.
    pub fn picture(&mut self, directory: &Directory) -> Result<Picture, TiffError>
        ensures picture { IfOk result (λ picture. picture ≡ picture_of self.old.bytes directory.now) }
        ensures paid { OnOk result (Costs PICTURE_NUMBERS self.old self.new) }
        ensures unchanged { OnErr result (self.new ≡ self.old) }
        ensures spent { (result ≡ Err TiffError.Spent) ↔ (self.old.left < PICTURE_NUMBERS) }
        ensures only_spent { IsOkUnless result TiffError.Spent }
        ensures orientation { IfOk result (λ picture. (1 ≤ picture.orientation) × (picture.orientation ≤ 8)) }
    {
        self.pay(PICTURE_NUMBERS)?;
        Ok(Picture {
            columns: self.first_or(directory, 256, 0),
            rows: self.first_or(directory, 257, 0),
            bits_per_sample: self.first_or(directory, 258, 1),
            samples_per_pixel: self.first_or(directory, 277, 1),
            compression: self.first_or(directory, 259, 1),
            photometric: self.number_of_tag(directory, 262, 0),
            is_low_first: self.first_or(directory, 266, 1) == 2,
            orientation: orientation_of(self.first_or(directory, 274, 1)),
            t4_options: self.first_or(directory, 292, 0),
            t6_options: self.first_or(directory, 293, 0),
            across: self.ratio_of_tag(directory, 282, 0),
            down: self.ratio_of_tag(directory, 283, 0),
            unit: unit_of(self.first_or(directory, 296, 2)),
        })
    }

    /// Returns the first number of a tag, unpaid, or another one if there is none.
    pub(crate) fn first_or(&self, directory: &Directory, tag: u16, otherwise: u64) -> u64
        ensures { result ≡ first_or self.now.bytes directory.now tag otherwise }
    {
        self.number_of_tag(directory, tag, 0).unwrap_or(otherwise)
    }
}

/// Returns an orientation; 1 for a number that is none.
fn orientation_of(number: u64) -> u8
    ensures { result ≡ orientation_of number }
{
    match number {
        1..=8 => number as u8,
        _ => 1,
    }
}

/// Returns a unit; inches for a number that is none.
fn unit_of(number: u64) -> ResolutionUnit
    ensures { result ≡ unit_of number }
{
    match number {
        1 => ResolutionUnit::None,
        3 => ResolutionUnit::Centimetre,
        _ => ResolutionUnit::Inch,
    }
}
