//! A fax image, and what its dictionary says of it.

ghost use Rattle.std.specs.Prelude.{◌≡◌, ◌+◌, ◌<◌, ◌≤◌, length, vec_len, IfOk, OnOk, OnErr};
ghost use Rattle.pdf_read.specs.Payments.{Held, Spends, IsPaidData};

use crate::error::PdfError;
use crate::pdf::{Pdf, number_or};
use pdf_values::{Item, Span, Texts};
use std::mem;

/// What the dictionary of CCITTFaxDecode says of the data (ISO 32000-1, table 11); of what it doesn't say, the default.
#[derive(Clone, Copy, Debug, PartialEq, Eq)]
pub struct FaxParameters {
    /// K: below 0 for Group 4, 0 for Group 3 of one dimension, above 0 for Group 3 of two.
    pub k: i64,
    /// EndOfLine.
    pub end_of_line: bool,
    /// EncodedByteAlign.
    pub encoded_byte_align: bool,
    /// Columns, 1728 by default; 0 if that isn't a number from 0 to 2 ^ 32 - 1.
    pub columns: u32,
    /// Rows, 0 by default: the data says where it ends.
    pub rows: u32,
    /// EndOfBlock, true by default.
    pub end_of_block: bool,
    /// BlackIs1.
    pub black_is_1: bool,
    /// DamagedRowsBeforeError, 0 by default.
    pub damaged_rows_before_error: u32,
}

/// A fax image, and what its dictionary says of it (ISO 32000-1, tables 89 and 93).
#[derive(Clone, Copy, Debug, PartialEq, Eq)]
pub struct FaxImage {
    /// The number of the page that shows or names it, from 1; 0 if no page does.
    pub page: u32,
    /// Width; 0 if it is missing.
    pub width: u32,
    /// Height; 0 if it is missing.
    pub height: u32,
    /// BitsPerComponent, 1 by default.
    pub bits_per_component: u32,
    /// ImageMask.
    pub is_mask: bool,
    /// Whether the first number of Decode is 1: samples are inverted.
    pub is_inverted: bool,
    /// Whether its colour space shows sample 0 lighter than sample 1, as inks do, and some palettes; never of a mask.
    pub is_zero_lighter: bool,
    /// What CCITTFaxDecode is told.
    pub parameters: FaxParameters,
    /// Where its data is, as the file has it.
    pub(crate) data: Span,
    /// The index of its dictionary among the items.
    pub(crate) dictionary: usize,
}

/// The bytes of a fax image before CCITTFaxDecode.
#[derive(Drop)]
pub enum FaxData {
    /// Bytes of the file.
    InFile(Span),
    /// What the filters before it were undone to.
    Own(Vec<u8>),
}

impl<'a> Pdf<'a> {
    /// Returns whether CCITTFaxDecode is among the filters of an image.
    pub(crate) fn is_fax(&mut self, image: usize) -> Result<bool, PdfError>
        ensures { Spends self.old self.new }
    {
        let filters = self.either(Some(image), b"Filter", b"F")?;
        let count = self.length(filters)?;
        'filters: for index in 0..count {
            let name = self.element_or_whole(filters, index)?;
            if self.is_fax_name(name) {
                return Ok(true);
            }
        }
        Ok(false)
    }

    /// Returns whether a name is that of the fax filter.
    fn is_fax_name(&self, name: Option<usize>) -> bool {
        self.is_either(name, b"CCITTFaxDecode", b"CCF")
    }

    /// Adds a fax image whose data is a stream.
    pub(crate) fn add_stored_image(
        &mut self,
        image: usize,
        resources: Option<usize>,
    ) -> Result<(), PdfError>
        ensures { Spends self.old self.new }
    {
        let data = self.data(image)?.unwrap_or(Span { start: 0, end: 0 });
        self.add_image(image, resources, data)
    }

    /// Adds a fax image, for a step.
    pub(crate) fn add_image(
        &mut self,
        image: usize,
        resources: Option<usize>,
        data: Span,
    ) -> Result<(), PdfError>
        ensures { Spends self.old self.new }
    {
        let found = self.image_of(image, resources, data)?;
        self.source.pay(1)?;
        if self.images.push(found).is_err() {
            return Err(PdfError::OutOfMemory);
        }
        Ok(())
    }

    /// Returns what the dictionary of a fax image says.
    fn image_of(
        &mut self,
        image: usize,
        resources: Option<usize>,
        data: Span,
    ) -> Result<FaxImage, PdfError>
        ensures { Spends self.old self.new }
    {
        let at = Some(image);
        let width = self.either(at, b"Width", b"W")?;
        let height = self.either(at, b"Height", b"H")?;
        let bits = self.either(at, b"BitsPerComponent", b"BPC")?;
        let mask = self.either(at, b"ImageMask", b"IM")?;
        let decode = self.either(at, b"Decode", b"D")?;
        let first = self.element(decode, 0)?;
        let space = self.either(at, b"ColorSpace", b"CS")?;
        let parameters = self.fax_parameters(image)?;
        let is_mask = self.item(mask) == Some(Item::Boolean(true));
        Ok(FaxImage {
            page: self.page,
            width: number_or(self.number(width), 0),
            height: number_or(self.number(height), 0),
            bits_per_component: number_or(self.number(bits), 1),
            is_mask,
            is_inverted: self.number(first) == Some(1),
            is_zero_lighter: !is_mask && self.is_zero_lighter(space, resources)?,
            parameters: self.parameters_of(parameters)?,
            data,
            dictionary: image,
        })
    }

    /// Returns the index of the parameters of CCITTFaxDecode: those of the last filter.
    fn fax_parameters(&mut self, image: usize) -> Result<Option<usize>, PdfError>
        ensures { Spends self.old self.new }
    {
        let filters = self.either(Some(image), b"Filter", b"F")?;
        let all = self.either(Some(image), b"DecodeParms", b"DP")?;
        let last = self.length(filters)?.saturating_sub(1);
        match self.item(all) {
            Some(Item::Array(_)) => Ok(self.element(all, last)?),
            _ => Ok(all),
        }
    }

    /// Returns what a dictionary of parameters says.
    fn parameters_of(&mut self, at: Option<usize>) -> Result<FaxParameters, PdfError>
        ensures { Spends self.old self.new }
    {
        let k = self.key(at, b"K")?;
        Ok(FaxParameters {
            k: self.number(k).unwrap_or(0),
            end_of_line: self.is_true(at, b"EndOfLine", false)?,
            encoded_byte_align: self.is_true(at, b"EncodedByteAlign", false)?,
            columns: self.count(at, b"Columns", 1728)?,
            rows: self.count(at, b"Rows", 0)?,
            end_of_block: self.is_true(at, b"EndOfBlock", true)?,
            black_is_1: self.is_true(at, b"BlackIs1", false)?,
            damaged_rows_before_error: self.count(at, b"DamagedRowsBeforeError", 0)?,
        })
    }

    /// Returns whether the value of a key is true; another truth value if there is none.
    fn is_true(
        &mut self,
        dictionary: Option<usize>,
        key: &[u8],
        otherwise: bool,
    ) -> Result<bool, PdfError>
        ensures { Spends self.old self.new }
    {
        let at = self.key(dictionary, key)?;
        Ok(match self.item(at) {
            None => otherwise,
            Some(item) => item == Item::Boolean(true),
        })
    }

    /// Returns the bytes of a fax image before CCITTFaxDecode. Where filters come before it, they are undone, and the bytes are kept up to
    /// the next call.
    ///
    /// # Errors
    ///
    /// `BadFilter` if a filter isn't known, or its data is damaged from the first byte on, or one follows CCITTFaxDecode; `Spent` or
    /// `OutOfMemory`.
    pub fn data_of(&mut self, image: &FaxImage) -> Result<Span, PdfError>
        ensures { Spends self.old self.new }
    {
        self.decoded.truncate(self.needed);
        let filters = self.either(Some(image.dictionary), b"Filter", b"F")?;
        let last = self.length(filters)?.saturating_sub(1);
        let name = self.element_or_whole(filters, last)?;
        if !self.is_fax_name(name) {
            return Err(PdfError::BadFilter);
        }
        self.decode(image.dictionary, image.data)
    }

    /// Returns the bytes of a fax image before CCITTFaxDecode, as [`Pdf::data_of`] does; those that aren't in the file as bytes of their own,
    /// for a step each.
    ///
    /// # Errors
    ///
    /// Those of [`Pdf::data_of`].
    pub fn own_data_of(&mut self, image: &FaxImage) -> Result<FaxData, PdfError>
        ensures data { IfOk result (IsPaidData (length self.new.file) self.old.left self.new.left) }
        ensures least { self.new.left ≤ self.old.left }
    {
        let span = self.data_of(image)?;
        if span.start <= span.end && span.end <= self.source.bytes().len() {
            return Ok(FaxData::InFile(span));
        }
        let texts = Texts {
            file: self.source.bytes(),
            decoded: self.decoded.as_slice(),
        };
        let mut own: Vec<u8> = Vec::new(self.alloc);
        self.source.put_all(&mut own, texts.bytes(span))?;
        Ok(FaxData::Own(own))
    }

    /// Hands the fax images to the caller, in the order of [`Pdf::images`]; none are left here.
    pub fn take_images(&mut self) -> Vec<FaxImage>
        ensures images { result.items ≡ self.old.images }
        ensures same { (self.new.left ≡ self.old.left) × (self.new.file ≡ self.old.file) }
    {
        let mut images: Vec<FaxImage> = Vec::new(self.alloc);
        mem::swap(&mut self.images, &mut images);
        images
    }
}
