//! The picture of a page.

ghost use Rattle.std.specs.Prelude.{◌≡◌, ◌+◌, ◌*◌, ◌≤◌, false, length, min, Err, None, IfErr, IfOk, IsFalse, IsTrue, OnOk};
ghost use Rattle.hayro_ccitt.specs.Answers.{IsFault};
ghost use Rattle.hayro_ccitt.specs.Bits.{BitsFit, bits_in};
ghost use Rattle.hayro_ccitt.specs.PlainReading.{plain};
ghost use Rattle.fax_encode.specs.Packed.{bytes_of_row};
ghost use Rattle.fax_decode.specs.Parts.{HasReading};
ghost use Rattle.fax_decode.specs.Drawn.{AreDrawn, IsDecoded, IsDrawn, settings_in, shown_as, turned_as, white_picture};

use crate::allowance::Allowance;
use crate::band::Bands;
use crate::damage::{Damage, PageFault};
use crate::listed::list_damage;
use crate::part::{DecodedPart, PartRows, decode_part};
use crate::words::decode_words;
use fax_pages::{Page, Part};
use fax_pictures::{Bitmap, PictureError};
use hayro_ccitt::{DecodeError, DecodeSettings, bits_fit};
use std::alloc::{AllocError, Global};

/// Why there is no picture of a page.
#[derive(Clone, Copy, Debug, PartialEq, Eq)]
pub enum NoPicture {
    /// It would have no columns, or more than 1,073,741,824 bytes.
    TooLarge,
    /// The file asks for more pictures than its [`Allowance`].
    NotAllowed,
    /// Its parts lie over each other: they ask for more data than the file has.
    PartsOverlap,
    /// It has more than 2^20 columns and isn't whole: the width is false.
    FalseWidth,
    /// No row can be decoded.
    NoRow,
}

/// A page that was decoded.
#[derive(Drop)]
pub struct DecodedPage {
    /// The picture as its data has it, not yet turned or inverted; rows that weren't decoded are white.
    pub picture: Result<Bitmap, NoPicture>,
    /// What is damaged.
    pub damage: Damage,
}

/// The most columns of a picture that isn't whole.
const WIDEST: u32 = 1 << 20;

/// The most bytes of the rows of a part.
const MOST_BYTES: u64 = 1 << 30;

/// Decodes the parts of a page into its picture, each strictly at first and leniently if that fails. What they cost is paid from an
/// allowance.
///
/// # Errors
///
/// If an allocation fails.
pub fn decode_page(
    alloc: Global,
    page: &Page<'_>,
    allowance: &mut Allowance,
) -> Result<DecodedPage, AllocError>
    ensures columns { IfOk result (λ decoded. IfOk decoded.picture (λ picture. picture.columns ≡ page.now.columns)) }
    ensures rows { IfOk result (λ decoded. IfOk decoded.picture (λ picture. length picture.rows ≡ page.now.rows)) }
    ensures paid { IfOk result (λ decoded. IfOk decoded.picture
        (λ picture. allowance.new.pictures + page.now.rows * bytes_of_row page.now.columns ≤ allowance.old.pictures)) }
    ensures least { allowance.new.pictures ≤ allowance.old.pictures }
    ensures drawn { IfOk result (λ decoded. IfOk decoded.picture (λ picture. page.now.rows_are_words ≡ false
        → AreDrawn page.now page.now.parts.items (white_picture page.now.columns page.now.rows) picture)) }
{
    let size = bytes_of_rows(page.columns, page.rows);
    if size <= MOST_BYTES && !allowance.pay_picture(size) {
        return Ok(without_picture(alloc, NoPicture::NotAllowed));
    }
    let picture = match Bitmap::white(alloc, page.columns, page.rows) {
        Ok(picture) => picture,
        Err(PictureError::OutOfMemory) => return Err(AllocError),
        Err(PictureError::Size) => return Ok(without_picture(alloc, NoPicture::TooLarge)),
    };
    let mut drawing = Drawing {
        alloc,
        picture,
        damage: Damage::new(alloc),
        refused: None,
    };
    let decoded = drawing.draw_parts(page, allowance)?;
    Ok(drawing.finish(page, decoded))
}

/// Returns how many bytes rows of so many columns have.
pub(crate) fn bytes_of_rows(columns: u32, rows: u32) -> u64
    ensures { result ≡ rows * bytes_of_row columns }
{
    u64::from(columns.div_ceil(8)) * u64::from(rows)
}

/// Returns that there is no picture of a page.
fn without_picture(alloc: Global, why: NoPicture) -> DecodedPage
    ensures { result.picture ≡ Err why }
{
    DecodedPage {
        picture: Err(why),
        damage: Damage::new(alloc),
    }
}

/// A page whose parts are being decoded.
#[derive(Drop)]
struct Drawing {
    alloc: Global,
    picture: Bitmap,
    damage: Damage,
    /// Why it has no picture, once that is known.
    refused: Option<NoPicture>,
}

impl Drawing {
    /// Decodes the parts of a page, and returns how many rows come before the first one below all that were decoded.
    fn draw_parts(&mut self, page: &Page<'_>, allowance: &mut Allowance) -> Result<u64, AllocError>
        ensures columns { self.new.picture.columns ≡ self.old.picture.columns }
        ensures rows { length self.new.picture.rows ≡ length self.old.picture.rows }
        ensures least { allowance.new.pictures ≤ allowance.old.pictures }
        ensures drawn { OnOk result (self.new.refused ≡ None → page.now.rows_are_words ≡ false
            → AreDrawn page.now page.now.parts.items self.old.picture self.new.picture) }
    {
        let mut bands = Bands::new(page.columns, page.rows);
        for (index, part) in page.parts.iter().enumerate() {
            let settings = settings_within(part, self.picture.rows());
            let rows = self.draw_part(page, index as u64, part, settings, allowance)?;
            if part.top < self.picture.rows() {
                bands.add(part, settings, rows, &mut self.damage)?;
            }
        }
        bands.finish(&mut self.damage)
    }

    /// Decodes a part, and lays its rows over the picture. Returns how many there are.
    fn draw_part(
        &mut self,
        page: &Page<'_>,
        index: u64,
        part: &Part,
        settings: DecodeSettings,
        allowance: &mut Allowance,
    ) -> Result<u64, AllocError>
        requires settings { settings ≡ settings_in (length self.old.picture.rows) part.now }
        ensures columns { self.new.picture.columns ≡ self.old.picture.columns }
        ensures rows { length self.new.picture.rows ≡ length self.old.picture.rows }
        ensures least { allowance.new.pictures ≤ allowance.old.pictures }
        ensures refused { self.new.refused ≡ None → self.old.refused ≡ None }
        ensures drawn { OnOk result (self.new.refused ≡ None → page.now.rows_are_words ≡ false
            → IsDrawn page.now part.now self.old.picture self.new.picture) }
    {
        let data = page.data(part);
        if !is_decoded(page, part, settings, self.picture.rows()) {
            return Ok(0);
        }
        let most = most_rows(data, settings.rows);
        if !self.pay(bytes_of_rows(settings.columns, most), allowance) {
            return Ok(0);
        }
        let decoded = read_part(self.alloc, page, data, settings)?;
        allowance.pay_data(bytes_read(&decoded, data));
        self.note(page, index, part, settings, &decoded)?;
        let width = (settings.columns as usize).div_ceil(8);
        let rows = decoded.rows.bytes.as_slice();
        self.picture.lay_over(part.left, part.top, width, rows);
        allowance.allow_data(decoded.rows.rows.saturating_mul(width as u64));
        Ok(decoded.rows.rows)
    }

    /// Pays for rows of so many bytes, and returns whether they are decoded. If not, there is no picture.
    fn pay(&mut self, bytes: u64, allowance: &mut Allowance) -> bool
        ensures picture { self.new.picture ≡ self.old.picture }
        ensures least { allowance.new.pictures ≤ allowance.old.pictures }
        ensures refused { self.new.refused ≡ None → self.old.refused ≡ None }
        ensures paid { self.new.refused ≡ None → IsTrue result }
    {
        if self.refused.is_some() {
            return false;
        }
        if allowance.data == 0 {
            self.refused = Some(NoPicture::PartsOverlap);
            return false;
        }
        if !allowance.pay_picture(bytes) {
            self.refused = Some(NoPicture::NotAllowed);
            return false;
        }
        true
    }
}

/// Returns whether a part is decoded by these settings in a picture of so many rows.
pub(crate) fn is_decoded(page: &Page<'_>, part: &Part, settings: DecodeSettings, rows: u32) -> bool
    requires settings { settings ≡ settings_in rows part.now }
    ensures yes { IsTrue result → IsDecoded page.now rows part.now }
    ensures no { IsFalse result → ¬ (IsDecoded page.now rows part.now) }
{
    let data = page.data(part);
    let most = most_rows(data, settings.rows);
    part.top < rows
        && part.left % 8 == 0
        && settings.columns > 0
        && bits_fit(data)
        && bytes_of_rows(settings.columns, most) <= MOST_BYTES
}

/// Returns how many rows data has at most, of so many that are wanted: one for each bit.
pub(crate) fn most_rows(data: &[u8], rows: u32) -> u32
    ensures { result ≡ min (8 * length «data».now) rows }
{
    match u32::try_from(data.len().saturating_mul(8)) {
        Ok(bits) => rows.min(bits),
        Err(_) => rows,
    }
}

impl Drawing {
    /// Notes where a strict reading of a part fails first, if it is the first of the page that does, and which rows are damaged.
    fn note(
        &mut self,
        page: &Page<'_>,
        index: u64,
        part: &Part,
        settings: DecodeSettings,
        decoded: &DecodedPart,
    ) -> Result<(), AllocError>
        ensures picture { self.new.picture ≡ self.old.picture }
        ensures refused { self.new.refused ≡ self.old.refused }
    {
        let data = page.data(part);
        let unread = (data.len() as u64).saturating_sub(bytes_read(decoded, data));
        self.damage.unread = self.damage.unread.saturating_add(unread);
        if self.damage.fault.is_none() {
            self.damage.fault = fault_on_page(index, part, settings, decoded, data);
        }
        if has_damage(&decoded.rows) && !page.rows_are_words && bits_fit(data) {
            list_damage(
                self.alloc,
                data,
                page.order,
                settings,
                part.top,
                &mut self.damage,
            )?;
        }
        Ok(())
    }

    /// Returns the page, of which so many rows come before the first one below all that were decoded.
    fn finish(self, page: &Page<'_>, decoded: u64) -> DecodedPage
        ensures picture { IfOk result.picture (λ picture. picture ≡ self.picture) }
        ensures refused { IfOk result.picture (λ _. self.refused ≡ None) }
    {
        let Drawing {
            alloc: _,
            picture,
            damage,
            refused,
        } = self;
        let why = if refused.is_some() {
            refused
        } else if page.columns > WIDEST && damage.fault.is_some() {
            Some(NoPicture::FalseWidth)
        } else if decoded == 0 {
            Some(NoPicture::NoRow)
        } else {
            None
        };
        DecodedPage {
            picture: match why {
                None => Ok(picture),
                Some(why) => Err(why),
            },
            damage,
        }
    }
}

/// Returns the settings of a part in a picture of so many rows: read leniently, and no row below the picture.
pub(crate) fn settings_within(part: &Part, rows: u32) -> DecodeSettings
    ensures { result ≡ settings_in rows part.now }
{
    let below = rows.saturating_sub(part.top);
    let wanted = part.settings.rows;
    DecodeSettings {
        rows: if wanted == 0 {
            below
        } else {
            wanted.min(below)
        },
        strict: false,
        ..part.settings
    }
}

/// Decodes the data of a part.
///
/// # Errors
///
/// If an allocation fails.
fn read_part(
    alloc: Global,
    page: &Page<'_>,
    data: &[u8],
    settings: DecodeSettings,
) -> Result<DecodedPart, AllocError>
    requires fit { BitsFit «data».now }
    requires lenient { settings.strict ≡ false }
    ensures { IfOk result (λ decoded. page.now.rows_are_words ≡ false
        → HasReading settings.columns (plain settings (bits_in page.now.order «data».now)) decoded.rows) }
{
    if page.rows_are_words {
        return with_all_rows(decode_words(alloc, data, page.order, settings));
    }
    with_all_rows(decode_part(alloc, data, page.order, settings))
}

/// Returns a part, if no allocation failed.
pub(crate) fn with_all_rows(decoded: DecodedPart) -> Result<DecodedPart, AllocError>
    ensures same { IfOk result (λ kept. kept ≡ decoded) }
    ensures fault { IfOk result (λ kept. IfErr kept.rows.end IsFault) }
{
    match decoded.rows.end {
        Err(DecodeError::OutOfMemory | DecodeError::Refused) => Err(AllocError),
        _ => Ok(decoded),
    }
}

/// Returns how many bytes of the data of a part were read: all, if a strict reading fails.
fn bytes_read(decoded: &DecodedPart, data: &[u8]) -> u64 {
    match (decoded.fault, decoded.rows.end) {
        (None, Ok(bytes)) => bytes as u64,
        _ => data.len() as u64,
    }
}

/// Returns where a strict reading of a part fails, or where its data ends if it ends early.
fn fault_on_page(
    index: u64,
    part: &Part,
    settings: DecodeSettings,
    decoded: &DecodedPart,
    data: &[u8],
) -> Option<PageFault> {
    let top = u64::from(part.top);
    match decoded.fault {
        Some(fault) => Some(PageFault {
            row: top.saturating_add(fault.row),
            bit: fault.bit as u64,
            part: index,
            why: Some(fault.why),
        }),
        None if decoded.rows.rows < u64::from(settings.rows) => Some(PageFault {
            row: top.saturating_add(decoded.rows.rows),
            bit: (data.len() as u64).saturating_mul(8),
            part: index,
            why: None,
        }),
        None => None,
    }
}

/// Returns whether rows are damaged.
fn has_damage(rows: &PartRows) -> bool {
    let damage = rows.damage;
    damage.repaired > 0 || damage.cut > 0 || damage.missed > 0
}

/// Returns the picture of a page as it is shown: turned, and inverted if its rows are the negative of it.
///
/// # Errors
///
/// `Size` if the turned picture has more than 1,073,741,824 bytes, and `OutOfMemory`.
pub fn shown_picture(
    alloc: Global,
    page: &Page<'_>,
    picture: Bitmap,
) -> Result<Bitmap, PictureError>
    ensures { IfOk result (λ shown. shown ≡ shown_as page.now.orientation page.now.is_inverted picture) }
{
    let mut shown = turned_picture(alloc, page.orientation, picture)?;
    if page.is_inverted {
        shown.invert(alloc)?;
    }
    Ok(shown)
}

/// Returns a picture turned by an orientation, if it isn't as it is shown.
fn turned_picture(alloc: Global, orientation: u8, picture: Bitmap) -> Result<Bitmap, PictureError>
    ensures { IfOk result (λ turned. turned ≡ turned_as orientation picture) }
{
    if 2 <= orientation && orientation <= 8 {
        picture.turned(alloc, orientation)
    } else {
        Ok(picture)
    }
}
