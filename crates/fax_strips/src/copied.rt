//! Strips that are copied.

ghost use Rattle.std.specs.Prelude.{◌≤◌};

use crate::apart::strict_settings;
use crate::ends::{begins_with_eol, ends_with_eofb, highest_first};
use crate::own_texts::OwnTexts;
use crate::strict::is_whole_strip;
use crate::strip_page::{StripPage, known_resolution};
use fax_decode::Allowance;
use fax_pages::{Page, Part};
use hayro_ccitt::bit_reader::BitOrder;
use hayro_ccitt::{DecodeSettings, EncodingMode, bits_fit};
use std::alloc::{AllocError, Global};

/// What a page is written to.
#[derive(Clone, Copy, Debug, PartialEq, Eq)]
pub enum Target {
    /// A TIFF file. Its Group 3 has either EOLs or aligned rows, so that all strips of a page are of one kind, and its Group 4 has no
    /// aligned rows.
    Tiff,
    /// A PDF file. It has one stream a page, with the highest bit of each byte first.
    Pdf,
}

/// Returns a page with its strips as they are; `None` if that can't be done: they don't lie below each other, the target has no such
/// strips, or a strict reading doesn't take all of one. If they are trusted, they aren't read, but for those that reach the
/// end of the file: it may end within them, or not say how long they are. What they cost is paid from an allowance.
///
/// # Errors
///
/// If an allocation fails.
pub fn copy_strips(
    alloc: Global,
    page: &Page<'_>,
    target: Target,
    is_trusted: bool,
    allowance: &mut Allowance,
) -> Result<Option<StripPage>, AllocError>
    ensures least { allowance.new.pictures ≤ allowance.old.pictures }
{
    let Some(first) = page.parts.first() else {
        return Ok(None);
    };
    if !are_strips(page, first) || (target == Target::Pdf && page.parts.len() > 1) {
        return Ok(None);
    }
    let has_eols = has_eols(page, first);
    let mut is_closed = true;
    let mut strips = Vec::new(alloc);
    for part in &page.parts {
        let data = page.data(part);
        if !is_paid(allowance, data) || !has_kind(page, part, target, has_eols) {
            return Ok(None);
        }
        let is_unread = is_trusted && !data.is_empty() && part.end < page.bytes.as_slice().len();
        if !is_unread && !is_whole_part(alloc, page, part, allowance)? {
            return Ok(None);
        }
        is_closed = is_closed && is_group4(part.settings) && ends_with_eofb(data, page.order);
        strips.push(bytes_for(alloc, data, target, page.order)?)?;
    }
    Ok(Some(StripPage {
        settings: DecodeSettings {
            end_of_block: is_closed,
            end_of_line: has_eols,
            ..first.settings
        },
        order: order_for(target, page.order),
        rows: page.rows,
        strips,
        orientation: page.orientation,
        is_inverted: page.is_inverted,
        resolution: known_resolution(&page.resolution, false),
        texts: OwnTexts::of(alloc, &page.texts)?,
    }))
}

/// Returns whether the parts of a page are strips of one height, below each other, as many as the page needs.
fn are_strips(page: &Page<'_>, first: &Part) -> bool {
    let each = first.settings.rows;
    let mut top: u32 = 0;
    for part in &page.parts {
        let rows = part.settings.rows;
        let wanted = each.min(page.rows.saturating_sub(top));
        if part.left != 0
            || part.top != top
            || part.settings.columns != page.columns
            || rows != wanted
        {
            return false;
        }
        top = top.saturating_add(rows);
    }
    each > 0 && top == page.rows && !page.rows_are_words
}

/// Returns whether settings are those of Group 4.
pub(crate) fn is_group4(settings: DecodeSettings) -> bool {
    matches!(settings.encoding, EncodingMode::Group4)
}

/// Returns whether a part has EOLs: whether it is of Group 3, and begins with one.
fn has_eols(page: &Page<'_>, part: &Part) -> bool {
    !is_group4(part.settings) && begins_with_eol(page.data(part), page.order)
}

/// Returns whether a target has strips as a part is, beside others that have EOLs or don't.
fn has_kind(page: &Page<'_>, part: &Part, target: Target, are_eols: bool) -> bool {
    has_eols(page, part) == are_eols && has_strips(target, part.settings, are_eols)
}

/// Returns whether a target has strips that are encoded so, with EOLs or without.
pub(crate) fn has_strips(target: Target, settings: DecodeSettings, are_eols: bool) -> bool {
    let is_aligned = settings.rows_are_byte_aligned;
    match (target, settings.encoding) {
        (Target::Pdf, _) => true,
        (Target::Tiff, EncodingMode::Group4) => !is_aligned,
        (Target::Tiff, EncodingMode::Group3_1D) => are_eols != is_aligned,
        (Target::Tiff, EncodingMode::Group3_2D) => are_eols && !is_aligned,
    }
}

/// Pays for data that is read, and returns whether something is left.
fn is_paid(allowance: &mut Allowance, data: &[u8]) -> bool
    ensures least { allowance.new.pictures ≤ allowance.old.pictures }
{
    allowance.pay_data(data.len() as u64);
    allowance.data > 0
}

/// Returns whether a strict reading takes all of a part. What it read is allowed to be read again.
fn is_whole_part(
    alloc: Global,
    page: &Page<'_>,
    part: &Part,
    allowance: &mut Allowance,
) -> Result<bool, AllocError>
    ensures least { allowance.new.pictures ≤ allowance.old.pictures }
{
    let data = page.data(part);
    if !bits_fit(data) {
        return Ok(false);
    }
    let settings = strict_settings(part.settings);
    let is_whole = is_whole_strip(alloc, data, page.order, settings)?;
    if is_whole {
        let row = u64::from(settings.columns.div_ceil(8));
        allowance.allow_data(row.saturating_mul(u64::from(settings.rows)));
    }
    Ok(is_whole)
}

/// Returns which bit of each byte comes first at a target.
fn order_for(target: Target, order: BitOrder) -> BitOrder {
    match target {
        Target::Tiff => order,
        Target::Pdf => BitOrder::HighestFirst,
    }
}

/// Returns the bytes of a strip for a target.
fn bytes_for(
    alloc: Global,
    data: &[u8],
    target: Target,
    order: BitOrder,
) -> Result<Vec<u8>, AllocError> {
    let mut bytes = data.to_vec(alloc)?;
    if target == Target::Pdf && matches!(order, BitOrder::LowestFirst) {
        for byte in bytes.iter_mut() {
            *byte = highest_first(*byte, order);
        }
    }
    Ok(bytes)
}
