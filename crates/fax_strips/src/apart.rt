//! Pages whose only strip isn't in memory.

ghost use Rattle.std.specs.Prelude.{◌≡◌, true, IfOk, IfSome};

use crate::copied::{Target, has_strips, is_group4};
use crate::ends::{begins_with_eol, ends_with_eofb};
use crate::own_texts::OwnTexts;
use crate::strip_page::{StripPage, known_resolution};
use fax_pages::{Page, Part};
use hayro_ccitt::DecodeSettings;
use std::alloc::{AllocError, Global};

/// What a strip that isn't in memory begins and ends with.
#[derive(Clone, Copy)]
pub struct StripEnds<'a> {
    /// Its first bytes.
    pub first: &'a [u8],
    /// Its last four bytes.
    pub last: &'a [u8],
}

/// Returns a page of one strip for a TIFF file, with an empty strip in place of its own, which is to be copied as it is; `None` if TIFF has
/// no such strips, if the page isn't this strip alone, or if its first bytes don't show whether it begins with an EOL. With the strip it is
/// the page that [`copy_strips`](crate::copy_strips) returns if a strict reading takes all of it.
///
/// # Errors
///
/// If an allocation fails.
pub fn page_apart(
    alloc: Global,
    page: &Page<'_>,
    ends: StripEnds<'_>,
) -> Result<Option<StripPage>, AllocError>
    ensures rows { IfOk result (λ found. IfSome found (λ made. made.rows ≡ page.now.rows)) }
    ensures columns { IfOk result (λ found. IfSome found (λ made. made.settings.columns ≡ page.now.columns)) }
{
    let Some(part) = page.parts.first() else {
        return Ok(None);
    };
    if page.parts.len() > 1 || !is_all(page, part) || !shows_eol(ends.first) {
        return Ok(None);
    }
    let is_group4 = is_group4(part.settings);
    let has_eols = !is_group4 && begins_with_eol(ends.first, page.order);
    if !has_strips(Target::Tiff, part.settings, has_eols) {
        return Ok(None);
    }
    let mut strips = Vec::new(alloc);
    strips.push(Vec::new(alloc))?;
    Ok(Some(StripPage {
        settings: DecodeSettings {
            end_of_block: is_group4 && ends_with_eofb(ends.last, page.order),
            end_of_line: has_eols,
            ..part.settings
        },
        order: page.order,
        rows: page.rows,
        strips,
        orientation: page.orientation,
        is_inverted: page.is_inverted,
        resolution: known_resolution(&page.resolution, false),
        texts: OwnTexts::of(alloc, &page.texts)?,
    }))
}

/// Returns whether a part has all rows and columns of a page.
fn is_all(page: &Page<'_>, part: &Part) -> bool
    ensures { result ≡ true → part.now.settings.columns ≡ page.now.columns }
{
    part.left == 0
        && part.top == 0
        && part.settings.columns == page.columns
        && part.settings.rows == page.rows
        && page.rows > 0
        && !page.rows_are_words
}

/// Returns whether bytes show whether the data that begins with them begins with an EOL: whether they aren't zeros alone, as fill is
/// (T.4, 4.1.3).
fn shows_eol(first: &[u8]) -> bool {
    first.iter().any(|byte| *byte != 0)
}

/// Returns the settings by which a reading shows whether a strip can be copied as it is: a strict one, which ends after the rows, or of Group 4
/// also at EOFB.
pub fn strict_settings(settings: DecodeSettings) -> DecodeSettings
    ensures strict { result.strict ≡ true }
    ensures rows { result.rows ≡ settings.rows }
    ensures columns { result.columns ≡ settings.columns }
{
    DecodeSettings {
        end_of_block: is_group4(settings),
        end_of_line: false,
        strict: true,
        ..settings
    }
}
