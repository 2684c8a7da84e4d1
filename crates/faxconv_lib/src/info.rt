//! What is said of a page that isn't decoded: its size, its resolution, and how it is encoded.

use crate::json::put_json_text;
use crate::report::{Place, put_json_place, put_place};
use fax_pages::{Page, PartKind, Resolution};
use hayro_ccitt::EncodingMode;
use std::alloc::AllocError;
use tiff_read::{Ratio, ResolutionUnit};

/// What is known of a page before it is decoded.
#[derive(Clone, Copy)]
pub enum Contents<'a> {
    /// Fax data.
    Fax(&'a Page<'a>),
    /// A picture of so many columns and rows.
    Picture(u32, u32),
    /// It isn't decoded, and why.
    Refused(&'a str),
}

/// Puts a line about a page without the name of its file.
pub fn put_info(
    place: Place,
    contents: &Contents<'_>,
    text: &mut String,
) -> Result<(), AllocError> {
    put_place(place, text)?;
    match contents {
        Contents::Fax(page) => put_page(page, text),
        Contents::Picture(columns, rows) => write!(text, "{columns} x {rows} pixels"),
        Contents::Refused(why) => text.push_str(why),
    }
}

/// Puts the page as an object of JSON.
pub fn put_json_info(
    file: &str,
    place: Place,
    contents: &Contents<'_>,
    text: &mut String,
) -> Result<(), AllocError> {
    text.push_str("{\"file\": ")?;
    put_json_text(file, text)?;
    put_json_place(place, text)?;
    match contents {
        Contents::Fax(page) => put_json_page(page, text)?,
        Contents::Picture(columns, rows) => {
            write!(text, ", \"columns\": {columns}, \"rows\": {rows}")?;
        }
        Contents::Refused(why) => {
            text.push_str(", \"wrong\": ")?;
            put_json_text(why, text)?;
        }
    }
    text.push('}')
}

/// Puts what is known of a page.
fn put_page(page: &Page<'_>, text: &mut String) -> Result<(), AllocError> {
    write!(text, "{} x ", page.columns)?;
    if page.has_height {
        write!(text, "{}", page.rows)?;
    } else {
        text.push_str("an unknown number of")?;
    }
    text.push_str(" pixels, ")?;
    match dots_of(&page.resolution) {
        None => text.push_str("no resolution")?,
        Some((across, down)) => {
            put_dots(across, text)?;
            text.push_str(" x ")?;
            put_dots(down, text)?;
            text.push_str(" dots an inch")?;
        }
    }
    write!(text, ", {}", name_of_encoding(page))?;
    let count = page.parts.len();
    let part = name_of_part(page.kind);
    write!(
        text,
        ", {count} {part}{}",
        if count == 1 { "" } else { "s" }
    )
}

/// Puts what is known of a page as members of an object.
fn put_json_page(page: &Page<'_>, text: &mut String) -> Result<(), AllocError> {
    write!(text, ", \"columns\": {}, \"rows\": ", page.columns)?;
    if page.has_height {
        write!(text, "{}", page.rows)?;
    } else {
        text.push_str("null")?;
    }
    text.push_str(", \"dpi\": ")?;
    match dots_of(&page.resolution) {
        None => text.push_str("null")?,
        Some((across, down)) => {
            text.push('[')?;
            put_dots(across, text)?;
            text.push_str(", ")?;
            put_dots(down, text)?;
            text.push(']')?;
        }
    }
    text.push_str(", \"encoding\": ")?;
    put_json_text(name_of_encoding(page), text)?;
    write!(
        text,
        ", \"{}s\": {}",
        name_of_part(page.kind),
        page.parts.len()
    )
}

/// Returns what parts are called.
pub fn name_of_part(kind: PartKind) -> &'static str {
    match kind {
        PartKind::Strip => "strip",
        PartKind::Tile => "tile",
        PartKind::Stream => "stream",
    }
}

/// Returns how the first part of a page is encoded.
fn name_of_encoding(page: &Page<'_>) -> &'static str {
    match page.parts.first() {
        None => "no data",
        Some(part) => match part.settings.encoding {
            EncodingMode::Group4 => "Group 4",
            EncodingMode::Group3_1D => "Group 3 of one dimension",
            EncodingMode::Group3_2D => "Group 3 of two dimensions",
        },
    }
}

/// Returns how many hundredths of a pixel an inch has, across and down, if both are known.
fn dots_of(resolution: &Resolution) -> Option<(u64, u64)> {
    let across = hundredths_of_inch(resolution.across?, resolution.unit)?;
    let down = hundredths_of_inch(resolution.down?, resolution.unit)?;
    Some((across, down))
}

/// Returns how many hundredths of a pixel an inch has, rounded, by how many pixels a unit has; `None` for none, and for 2^64 and
/// more.
fn hundredths_of_inch(ratio: Ratio, unit: ResolutionUnit) -> Option<u64> {
    let above = u128::from(ratio.above);
    let below = u128::from(ratio.below);
    let whole = match unit {
        ResolutionUnit::None => return None,
        ResolutionUnit::Inch => above * 100,
        ResolutionUnit::Centimetre => above * 254,
    };
    if below == 0 || whole == 0 {
        return None;
    }
    u64::try_from((whole + below / 2) / below).ok()
}

/// Puts hundredths as a number, without zeros at the end.
fn put_dots(hundredths: u64, text: &mut String) -> Result<(), AllocError> {
    let (whole, part) = (hundredths / 100, hundredths % 100);
    write!(text, "{whole}")?;
    if part == 0 {
        Ok(())
    } else if part % 10 == 0 {
        write!(text, ".{}", part / 10)
    } else {
        write!(text, ".{part:02}")
    }
}
