//! What a file is, by its first bytes.

use fax_pages::header_bytes;

/// A kind of file that is read.
#[derive(Clone, Copy)]
pub enum Kind {
    /// TIFF or BigTIFF
    Tiff,
    /// PDF
    Pdf,
    /// PBM pictures (P4)
    Pbm,
    /// Raw fax data
    Raw,
}

/// The most bytes that say what a file is.
pub const FIRST_BYTES: usize = 1024;

/// Returns what a file is that begins with these bytes, of which [`FIRST_BYTES`] are enough. `None` if it is of no kind that is known,
/// and `is_raw` doesn't say that it is then raw fax data.
pub fn kind_of(first: &[u8], is_raw: bool) -> Option<Kind> {
    if is_tiff(first) {
        Some(Kind::Tiff)
    } else if has_pdf_header(first) {
        Some(Kind::Pdf)
    } else if is_pbm(first) {
        Some(Kind::Pbm)
    } else if is_raw || header_bytes(first) > 0 {
        Some(Kind::Raw)
    } else {
        None
    }
}

/// Returns whether bytes begin with the header of a TIFF or a BigTIFF file (TIFF 6.0, 2).
fn is_tiff(first: &[u8]) -> bool {
    let starts: [&[u8; 4]; 4] = [b"II*\0", b"MM\0*", b"II+\0", b"MM\0+"];
    first.len() >= 8
        && starts
            .iter()
            .any(|start| first.starts_with(start.as_slice()))
}

/// Returns whether the header of a PDF file (ISO 32000-1, 7.5.2) is among the first 1024 bytes.
fn has_pdf_header(first: &[u8]) -> bool {
    let front = first.get(..FIRST_BYTES).unwrap_or(first);
    front.windows(5).any(|place| place == b"%PDF-".as_slice())
}

/// Returns whether bytes begin with the header of a PBM picture (P4).
fn is_pbm(first: &[u8]) -> bool {
    matches!(first, [b'P', b'4', b' ' | b'\t' | b'\r' | b'\n' | b'#', ..])
}

/// Returns the raw data behind mgetty's header, if it begins with one.
pub fn behind_digifax(first: &[u8]) -> &[u8] {
    &first[header_bytes(first)..]
}

/// Returns what bytes are called that begin a file of no kind that is read.
pub fn name_of_other(first: &[u8]) -> &'static str {
    if first.is_empty() {
        return "empty";
    }
    let others: [(&[u8], &'static str); 15] = [
        (b"\xff\xd8\xff", "a JPEG picture"),
        (b"\x89PNG", "a PNG picture"),
        (b"GIF8", "a GIF picture"),
        (b"BM", "a BMP picture"),
        (b"%!", "PostScript"),
        (b"\x97JB2", "a JBIG2 file"),
        (b"\0\0\0\x0cjP", "a JPEG 2000 picture"),
        (b"\x1f\x8b", "a gzip file"),
        (b"PK\x03\x04", "a ZIP file"),
        (b"II*", "the beginning of a TIFF file"),
        (b"MM\0*", "the beginning of a TIFF file"),
        (b"P1", "a PBM picture as text"),
        (b"P5", "a PGM picture"),
        (b"P6", "a PPM picture"),
        (b"AT&TFORM", "a DjVu file"),
    ];
    for (start, name) in &others {
        if first.starts_with(start) {
            return name;
        }
    }
    "not a TIFF, PDF or PBM file"
}
