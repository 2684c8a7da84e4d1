//! The values of a tag: whole numbers, ratios and texts.

ghost use Rattle.std.specs.Prelude.{◌≡◌, ◌+◌, ◌-◌, ◌^◌, ◌<◌, ◌≤◌, ◌↔◌, length};
ghost use Rattle.std.specs.Prelude.{take, Err, IfOk, OnOk, OnErr, IsOkUnless, SomeIff, option_map, option_and_then};
ghost use Rattle.tiff_read.specs.Payments.{Costs, IsSameReading};
ghost use Rattle.tiff_read.specs.Texts.{before_nul, bytes_at, cost_of, text_of, values_of};
ghost use Rattle.tiff_read.specs.Values.{bytes_of_kind, is_negative, is_whole_kind, number_among, number_of_tag, place_of};
ghost use Rattle.tiff_read.specs.Values.{ratio_among, ratio_at, ratio_of_tag, unless_negative};

use crate::directory::{Directory, Values};
use crate::error::TiffError;
use crate::file::Tiff;

/// A number as a ratio, as resolutions are.
#[derive(Clone, Copy, Debug, PartialEq, Eq)]
pub struct Ratio {
    pub above: u64,
    pub below: u64,
}

/// The type of a ratio of two numbers of four bytes.
const RATIONAL: u16 = 5;

impl<'a> Tiff<'a> {
    /// Returns one of the numbers of a tag, for a step; `None` if there are fewer, or if it isn't a whole number, or is negative.
    ///
    /// # Errors
    ///
    /// `Spent`.
    pub fn number(
        &mut self,
        directory: &Directory,
        tag: u16,
        index: u64,
    ) -> Result<Option<u64>, TiffError>
        ensures number { IfOk result (λ found. found ≡ number_of_tag self.old.bytes directory.now tag index) }
        ensures paid { OnOk result (Costs 1 self.old self.new) }
        ensures unchanged { OnErr result (self.new ≡ self.old) }
        ensures spent { (result ≡ Err TiffError.Spent) ↔ (self.old.left < 1) }
        ensures only_spent { IsOkUnless result TiffError.Spent }
    {
        self.pay(1)?;
        Ok(self.number_of_tag(directory, tag, index))
    }

    /// Returns one of the ratios of a tag, for a step; a whole number is one over 1. `None` if there are fewer, or if it is negative
    /// or of another type.
    ///
    /// # Errors
    ///
    /// `Spent`.
    pub fn ratio(
        &mut self,
        directory: &Directory,
        tag: u16,
        index: u64,
    ) -> Result<Option<Ratio>, TiffError>
        ensures ratio { IfOk result (λ found. found ≡ ratio_of_tag self.old.bytes directory.now tag index) }
        ensures paid { OnOk result (Costs 1 self.old self.new) }
        ensures unchanged { OnErr result (self.new ≡ self.old) }
        ensures spent { (result ≡ Err TiffError.Spent) ↔ (self.old.left < 1) }
        ensures only_spent { IsOkUnless result TiffError.Spent }
    {
        self.pay(1)?;
        Ok(self.ratio_of_tag(directory, tag, index))
    }

    /// Returns the text of a tag up to its first NUL, for a step and one for each byte; `None` if there is none of type ASCII, BYTE or
    /// UNDEFINED.
    ///
    /// # Errors
    ///
    /// `Spent`.
    pub fn text(&mut self, directory: &Directory, tag: u16) -> Result<Option<&'a [u8]>, TiffError>
        ensures text { IfOk result (λ found. option_map (λ text. text.now) found ≡ text_of self.old.bytes directory.now tag) }
        ensures paid { OnOk result (Costs (cost_of (text_of self.old.bytes directory.now tag)) self.old self.new) }
        ensures least { self.new.left ≤ self.old.left }
        ensures same { IsSameReading self.old self.new }
        ensures spent { (result ≡ Err TiffError.Spent) ↔ (self.old.left < cost_of (text_of self.old.bytes directory.now tag)) }
        ensures only_spent { IsOkUnless result TiffError.Spent }
    {
        self.pay(1)?;
        let Some(bytes) = self.text_of_tag(directory, tag) else {
            return Ok(None);
        };
        let text = before_nul(bytes, self.left());
        self.pay(text.len())?;
        Ok(Some(text))
    }

    /// Returns one of the numbers of a tag, unpaid.
    pub(crate) fn number_of_tag(&self, directory: &Directory, tag: u16, index: u64) -> Option<u64>
        ensures { result ≡ number_of_tag self.now.bytes directory.now tag index }
    {
        self.number_among(directory.find(tag)?, index)
    }

    /// Returns one of some values, unpaid, if it is a whole number that isn't negative.
    pub(crate) fn number_among(&self, values: Values, index: u64) -> Option<u64>
        ensures { result ≡ number_among self.now.bytes values index }
    {
        if index >= values.count || !is_whole_kind(values.kind) {
            return None;
        }
        let size = bytes_of_kind(values.kind);
        unless_negative(
            values.kind,
            self.number_at(self.place_of(values, index)?, size as usize)?,
        )
    }

    /// Returns one of the ratios of a tag, unpaid.
    pub(crate) fn ratio_of_tag(&self, directory: &Directory, tag: u16, index: u64) -> Option<Ratio>
        ensures { result ≡ ratio_of_tag self.now.bytes directory.now tag index }
    {
        self.ratio_among(directory.find(tag)?, index)
    }

    /// Returns one of some values as a ratio, unpaid.
    fn ratio_among(&self, values: Values, index: u64) -> Option<Ratio>
        ensures { result ≡ ratio_among self.now.bytes values index }
    {
        if values.kind != RATIONAL {
            let above = self.number_among(values, index)?;
            return Some(Ratio { above, below: 1 });
        }
        if index >= values.count {
            return None;
        }
        self.ratio_at(self.place_of(values, index)?)
    }

    /// Returns the ratio of two numbers of four bytes at a place, unpaid.
    fn ratio_at(&self, place: u64) -> Option<Ratio>
        ensures { result ≡ ratio_at self.now.bytes place }
    {
        let above = self.number_at(place, 4)?;
        let below = self.number_at(place.checked_add(4)?, 4)?;
        Some(Ratio { above, below })
    }

    /// Returns how many bytes of the file come before one of some values; `None` if it has fewer.
    fn place_of(&self, values: Values, index: u64) -> Option<u64>
        ensures { SomeIff result (place_of values index ≤ length self.now.bytes) (place_of values index) }
    {
        let size = self.bytes().len() as u64;
        let before = index.checked_mul(bytes_of_kind(values.kind))?;
        let place = values.offset.checked_add(before)?;
        if place <= size { Some(place) } else { None }
    }

    /// Returns the bytes of a tag of type ASCII, BYTE or UNDEFINED, unpaid.
    fn text_of_tag(&self, directory: &Directory, tag: u16) -> Option<&'a [u8]>
        ensures { option_map (λ text. text.now) result ≡ option_and_then (bytes_at self.now.bytes) (values_of directory.now tag) }
    {
        let values = directory.find(tag)?;
        if !matches!(values.kind, 1 | 2 | 7) {
            return None;
        }
        let start = values.offset as usize;
        self.bytes()
            .get(start..start.checked_add(values.count as usize)?)
    }
}

/// Returns how many bytes a value of a type has (TIFF 6.0, section 2, and BigTIFF), 0 if there is no such type.
pub fn bytes_of_kind(kind: u16) -> u64
    ensures { result ≡ bytes_of_kind kind }
{
    match kind {
        1 | 2 | 6 | 7 => 1,
        3 | 8 => 2,
        4 | 9 | 11 | 13 => 4,
        5 | 10 | 12 | 16 | 17 | 18 => 8,
        _ => 0,
    }
}

/// Returns whether the values of a type are whole numbers.
fn is_whole_kind(kind: u16) -> bool
    ensures { result ≡ is_whole_kind kind }
{
    matches!(kind, 1 | 3 | 4 | 6 | 8 | 9 | 13 | 16 | 17 | 18)
}

/// Returns whether a number is a negative one of a type with a sign: its highest bit is set.
fn is_negative(kind: u16, number: u64) -> bool
    ensures { result ≡ is_negative kind number }
{
    match kind {
        6 => number >= 128,
        8 => number >= 32768,
        9 => number >= 2147483648,
        17 => number >= 9223372036854775808,
        _ => false,
    }
}

/// Returns a number, `None` if it is a negative one of a type.
fn unless_negative(kind: u16, number: u64) -> Option<u64>
    ensures { result ≡ unless_negative kind number }
{
    if is_negative(kind, number) {
        None
    } else {
        Some(number)
    }
}

/// Returns the bytes before the first NUL; one more than `most` if there is none among them.
fn before_nul(bytes: &[u8], most: usize) -> &[u8]
    ensures { result.now ≡ before_nul (take (1 + most) bytes.now) }
{
    let near = first_bytes(bytes, most);
    for index in 0..near.len() {
        if near[index] == 0 {
            return &near[..index];
        }
    }
    near
}

/// Returns the first bytes, one more than `most` if there are so many.
fn first_bytes(bytes: &[u8], most: usize) -> &[u8]
    ensures { result.now ≡ take (1 + most) bytes.now }
{
    if most < bytes.len() {
        &bytes[..most + 1]
    } else {
        bytes
    }
}
