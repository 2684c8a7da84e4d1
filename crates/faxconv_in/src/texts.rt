//! What is said of pages that have no picture.

use fax_decode::NoPicture;
use fax_decode::damage::Damage;
use fax_pages::Refusal;
use std::alloc::{AllocError, Global};
use tiff_split::CarriedPage;

/// Returns why a page of a TIFF file isn't decoded.
pub(crate) fn text_of_refusal(alloc: Global, why: Refusal) -> Result<String, AllocError> {
    match why {
        Refusal::NotFax(compression) => {
            format!(in alloc; "compression {compression} isn't fax (2, 3, 4 or 32771)")
        }
        Refusal::SeveralBits => String::from_str(alloc, "it has more than one bit a pixel"),
        Refusal::NoSize => String::from_str(alloc, "it has no width or no height"),
        Refusal::NoParts => String::from_str(alloc, "it has no strips or tiles"),
        Refusal::TileSize => String::from_str(
            alloc,
            "its tiles have no size, or a width that isn't whole bytes",
        ),
        Refusal::Filter => String::from_str(
            alloc,
            "a filter before its fax data isn't known, or that data is damaged",
        ),
    }
}

/// Returns why there is no picture of so many columns and rows, whose parts are called so.
pub fn text_of_no_picture(
    alloc: Global,
    why: NoPicture,
    size: (u32, u32),
    part: &str,
    damage: &Damage,
) -> Result<String, AllocError> {
    let (columns, rows) = size;
    match why {
        NoPicture::TooLarge => too_large(alloc, columns, u64::from(rows)),
        NoPicture::NotAllowed => format!(in alloc;
            "its picture of {columns} columns and {rows} rows is too large for a file of this length"
        ),
        NoPicture::PartsOverlap => format!(in alloc; "its {part}s lie over each other"),
        NoPicture::FalseWidth => {
            let mut text = format!(in alloc; "its rows don't have {columns} columns: ")?;
            put_fault(damage, &mut text)?;
            if let Some(fault) = &damage.fault {
                write!(text, " in row {}", fault.row.saturating_add(1))?;
            }
            Ok(text)
        }
        NoPicture::NoRow => {
            let mut text = String::from_str(alloc, "no row can be decoded: ")?;
            put_fault(damage, &mut text)?;
            Ok(text)
        }
    }
}

/// Puts what is wrong where a strict reading fails first.
fn put_fault(damage: &Damage, text: &mut String) -> Result<(), AllocError> {
    match &damage.fault {
        None => text.push_str("there is no data"),
        Some(fault) => match fault.why {
            None => text.push_str("the data ends"),
            Some(error) => write!(text, "{error}"),
        },
    }
}

/// Returns that a picture is too large.
pub fn too_large(alloc: Global, columns: u32, rows: u64) -> Result<String, AllocError> {
    format!(in alloc; "a picture of {columns} columns and {rows} rows is too large")
}

/// Returns why a page isn't decoded, and what of it isn't carried along.
pub fn text_of_carried(alloc: Global, why: &str, page: &CarriedPage) -> Result<String, AllocError> {
    let mut text = format!(in alloc; "{why}; carried along unread")?;
    for (index, tag) in page.left_out.iter().enumerate() {
        let before = if index == 0 {
            " without tag"
        } else {
            ", without tag"
        };
        write!(text, "{before} {tag}")?;
    }
    Ok(text)
}
