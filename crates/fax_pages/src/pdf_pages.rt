//! The pages of a PDF file: its fax images.

ghost use Rattle.std.specs.Prelude.{◌≡◌, ◌+◌, ◌≤◌, length, slice_get, IfOk};
ghost use Rattle.fax_pages.specs.Pages.{bytes_of};
ghost use Rattle.fax_pages.specs.PdfPages.{IsFoundImage, IsNextImage, IsPageOfImage, cost_of_image};
ghost use Rattle.fax_pages.specs.PdfPages.{number_of_image, own_bytes, refusal_of, refused_as, rows_of_image};

use crate::keys::{columns_shown, is_inverted_by_keys, settings_of_keys};
use crate::page::{Page, PageBytes, Part, PartKind, Resolution};
use crate::refused::{Found, Refusal, RefusedPage};
use fax_bits::bit_reader::BitOrder;
use paid_cursor::Cursor;
use pdf_read::{FaxData, FaxImage, Pdf, PdfError};
use std::alloc::{AllocError, Global};
use std::marker::Model;
use tiff_read::{NO_TEXTS, ResolutionUnit};

/// The fax images of a PDF file as pages, in the order in which its pages show them.
#[derive(Drop)]
pub struct PdfPages<'a> {
    pdf: Pdf<'a>,
    images: Vec<FaxImage>,
    given: usize,
}

impl<'a> Model for PdfPages<'a> {
    ghost use Rattle.fax_pages.specs.PdfPages.{Images};

    ghost Value = { Images };

    ghost view = { λ p. record { images = p.images.items; given = p.given; left = p.pdf.left } };
}

/// The bytes of an image, among others.
#[derive(Drop)]
struct Stream<'a> {
    bytes: PageBytes<'a>,
    start: usize,
    end: usize,
}

impl<'a> PdfPages<'a> {
    /// Begins with the first image of a file that was opened.
    pub fn new(mut pdf: Pdf<'a>) -> PdfPages<'a>
        ensures { result ≡ record { images = pdf.entry.images; given = 0; left = pdf.entry.left } }
    {
        let images = pdf.take_images();
        PdfPages {
            pdf,
            images,
            given: 0,
        }
    }

    /// Opens the file that a cursor's bytes are.
    ///
    /// # Errors
    ///
    /// Those of [`Pdf::open`].
    pub fn open(alloc: Global, source: Cursor<'a>) -> Result<PdfPages<'a>, PdfError>
        ensures begins { IfOk result (λ pages. (pages.given ≡ 0) × (pages.left ≤ source.entry.left)) }
    {
        Ok(PdfPages::new(Pdf::open(alloc, source)?))
    }

    /// Returns the fax images, also those that were given.
    pub fn images(&self) -> &[FaxImage]
        ensures { result.now ≡ self.now.images }
    {
        self.images.as_slice()
    }

    /// Returns the file, and what was found in it besides.
    pub fn pdf(&self) -> &Pdf<'a> {
        &self.pdf
    }

    /// Returns how many steps may still be taken.
    pub fn left(&self) -> usize
        ensures { result ≡ self.now.left }
    {
        self.pdf.left()
    }

    /// Returns the next image as a page; `None` after the last one. It pays for undoing the filters before CCITTFaxDecode, and for a copy
    /// of what they were undone to.
    ///
    /// # Errors
    ///
    /// `Spent` or `OutOfMemory`; `NoObjects` doesn't occur once a file is open.
    pub fn next_page(&mut self, alloc: Global) -> Result<Option<Found<'a>>, PdfError>
        ensures page { IfOk result (IsNextImage self.old self.new) }
        ensures same { self.new.images ≡ self.old.images }
        ensures paid { IfOk result (λ found. self.new.left + cost_of_image found ≤ self.old.left) }
        ensures least { self.new.left ≤ self.old.left }
    {
        let Some(image) = image_at(self.images.as_slice(), self.given) else {
            return Ok(None);
        };
        let given = self.given;
        self.given += 1;
        if let Some(why) = refusal_of(&image) {
            return Ok(Some(refused(&image, given, why)));
        }
        let stream = match stream_of(&mut self.pdf, &image) {
            Err(PdfError::BadFilter) => return Ok(Some(refused(&image, given, Refusal::Filter))),
            found => found?,
        };
        let Ok(page) = page_of(alloc, &image, given, stream) else {
            return Err(PdfError::OutOfMemory);
        };
        Ok(Some(Found::Page(page)))
    }
}

/// Returns the image at an index, if there is one.
fn image_at(images: &[FaxImage], index: usize) -> Option<FaxImage>
    ensures { result ≡ slice_get images.now index }
{
    images.get(index).copied()
}

/// Returns the bytes of an image before CCITTFaxDecode.
fn stream_of<'a>(pdf: &mut Pdf<'a>, image: &FaxImage) -> Result<Stream<'a>, PdfError>
    ensures within { IfOk result (λ stream. (stream.start ≤ stream.end) × (stream.end ≤ length (bytes_of stream.bytes))) }
    ensures paid { IfOk result (λ stream. pdf.new.left + own_bytes stream.bytes ≤ pdf.old.left) }
    ensures least { pdf.new.left ≤ pdf.old.left }
{
    match pdf.own_data_of(image)? {
        FaxData::InFile(span) => Ok(Stream {
            bytes: PageBytes::File(pdf.file()),
            start: span.start,
            end: span.end,
        }),
        FaxData::Own(bytes) => Ok(Stream {
            start: 0,
            end: bytes.len(),
            bytes: PageBytes::Decoded(bytes),
        }),
    }
}

/// Returns an image, before which so many were given, as a page of some bytes.
fn page_of<'a>(
    alloc: Global,
    image: &FaxImage,
    given: usize,
    stream: Stream<'a>,
) -> Result<Page<'a>, AllocError>
    requires within { (stream.start ≤ stream.end) × (stream.end ≤ length (bytes_of stream.bytes)) }
    ensures page { IfOk result (IsPageOfImage image.now given) }
    ensures bytes { IfOk result (λ page. own_bytes page.bytes ≡ own_bytes stream.entry.bytes) }
{
    let keys = &image.parameters;
    let mut parts = Vec::new(alloc);
    let only = Part {
        start: stream.start,
        end: stream.end,
        is_cut: false,
        left: 0,
        top: 0,
        settings: settings_of_keys(keys, image.height),
    };
    if parts.push(only).is_err() {
        return Err(AllocError);
    }
    Ok(Page {
        number: image.page,
        image: number_of_image(given),
        kind: PartKind::Stream,
        bytes: stream.bytes,
        parts,
        columns: columns_shown(keys, image.width),
        rows: rows_of_image(image),
        has_height: image.height != 0,
        order: BitOrder::HighestFirst,
        orientation: 1,
        is_inverted: is_inverted_by_keys(keys, image.is_inverted, image.is_zero_lighter),
        rows_are_words: false,
        resolution: Resolution {
            across: None,
            down: None,
            unit: ResolutionUnit::None,
        },
        texts: NO_TEXTS,
    })
}

/// Returns that an image, before which so many were given, isn't decoded.
fn refused<'a>(image: &FaxImage, given: usize, why: Refusal) -> Found<'a>
    ensures { result ≡ refused_as image.now given why }
{
    Found::Unread(RefusedPage {
        number: image.page,
        image: number_of_image(given),
        why,
    })
}

/// Returns how many rows an image has, or if its height isn't known, at most has.
fn rows_of_image(image: &FaxImage) -> u32
    ensures { result ≡ rows_of_image image.now }
{
    if image.height == 0 {
        image.parameters.rows
    } else {
        image.height
    }
}

/// Returns why an image isn't decoded, by what its dictionary says; `None` if it is.
fn refusal_of(image: &FaxImage) -> Option<Refusal>
    ensures { result ≡ refusal_of image.now }
{
    if image.parameters.columns == 0 || rows_of_image(image) == 0 {
        Some(Refusal::NoSize)
    } else if !image.is_mask && image.bits_per_component != 1 {
        Some(Refusal::SeveralBits)
    } else {
        None
    }
}

/// Returns the number of the image before which so many were given, or the highest number.
fn number_of_image(given: usize) -> u32
    ensures { result ≡ number_of_image given }
{
    given.saturating_add(1).min(u32::MAX as usize) as u32
}
