//! Fax data without tags or keys, which someone describes.

ghost use Rattle.std.specs.Prelude.{◌≡◌, ◌≤◌, length, IfOk};
ghost use Rattle.fax_pages.specs.Raw.{IsRawPage, header_bytes};

use crate::page::{Page, PageBytes, Part, PartKind, Resolution};
use fax_bits::DecodeSettings;
use fax_bits::bit_reader::BitOrder;
use std::alloc::{AllocError, Global};
use tiff_read::{NO_TEXTS, ResolutionUnit};

/// How raw data is described.
#[derive(Clone, Copy, Debug)]
pub struct RawForm {
    /// How it is encoded. Its rows are the height, or the largest number of rows, and 0 if nothing is known of them.
    pub settings: DecodeSettings,
    /// Which bit of a byte comes first.
    pub order: BitOrder,
    /// Whether the rows of the settings are the height.
    pub has_height: bool,
}

/// How many bytes the header of mgetty has.
const DIGIFAX_BYTES: usize = 64;

/// What the header of mgetty begins with.
const DIGIFAX_MARK: &[u8] = b"\0PC Research, Inc\0";

/// Returns raw data as a page of one part, which begins after the header of mgetty if the data has it.
///
/// # Errors
///
/// The allocation for the part.
pub fn raw_page<'a>(alloc: Global, file: &'a [u8], form: &RawForm) -> Result<Page<'a>, AllocError>
    ensures page { IfOk result (IsRawPage file.now form.now) }
{
    let mut parts = Vec::new(alloc);
    let only = Part {
        start: header_bytes(file),
        end: file.len(),
        is_cut: false,
        left: 0,
        top: 0,
        settings: form.settings,
    };
    if parts.push(only).is_err() {
        return Err(AllocError);
    }
    Ok(Page {
        number: 1,
        image: 1,
        kind: PartKind::Stream,
        bytes: PageBytes::File(file),
        parts,
        columns: form.settings.columns,
        rows: form.settings.rows,
        has_height: form.has_height,
        order: form.order,
        orientation: 1,
        is_inverted: false,
        rows_are_words: false,
        resolution: Resolution {
            across: None,
            down: None,
            unit: ResolutionUnit::None,
        },
        texts: NO_TEXTS,
    })
}

/// Returns how many bytes precede raw fax data: 64 if it begins as the header of mgetty does, else none.
pub fn header_bytes(file: &[u8]) -> usize
    ensures count { result ≡ header_bytes file.now }
    ensures within { result ≤ length file.now }
{
    if file.len() >= DIGIFAX_BYTES && file.starts_with(DIGIFAX_MARK) {
        DIGIFAX_BYTES
    } else {
        0
    }
}
