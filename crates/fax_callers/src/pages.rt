//! Pages of Group 4, one after another.

ghost use Rattle.std.specs.Prelude.{◌≡◌, ◌≢◌, ◌≤◌, ◌+◌, ◌⊎◌, ℕ, List, IfOk, IfErr, IsOk, length};
ghost use Rattle.hayro_ccitt.specs.Answers.{OnAnswer, IsFault};
ghost use Rattle.hayro_ccitt.specs.Bits.{BitsFit, bits_in};
ghost use Rattle.hayro_ccitt.specs.Pictures.{IsClosedPicture};
ghost use Rattle.hayro_ccitt.specs.Rows.{Row};
ghost use Rattle.fax_callers.specs.Pages.{page_settings, page_from, ReadsClosedPages, EndAt, StandAt};

use hayro_ccitt::bit_reader::BitOrder;
use hayro_ccitt::laws::{bits_of_bytes, pictures};
use hayro_ccitt::{
    DecodeError, DecodeSettings, Decoder, DecoderContext, EncodingMode, Result, decode_in,
};
use std::alloc::Global;

/// A sink that ignores each row.
#[derive(Drop)]
pub(crate) struct NoRows;

impl Decoder for NoRows {
    ghost use Rattle.std.specs.Prelude.{false};

    ghost Meaning = { Unit {0} };

    ghost meaning = { λ _. tt };

    ghost step = { λ _ _ _. tt };

    ghost width = { λ _. 4294967295 };

    ghost has_refused = { λ _. false };

    fn push_row(&mut self, _changes: &[u32]) -> Result<()> {
        Ok(())
    }
}

/// Returns the settings for pages of Group 4 with this width, each closed by EOFB: no row limit, no alignment, strict.
pub fn group4_pages(columns: u32) -> DecodeSettings
    ensures { result ≡ page_settings columns }
{
    DecodeSettings {
        columns,
        rows: 0,
        end_of_block: true,
        end_of_line: false,
        rows_are_byte_aligned: false,
        encoding: EncodingMode::Group4,
        strict: true,
    }
}

/// Returns how many bytes the page that begins at a byte offset occupies. Its rows are ignored.
fn skip_page(order: BitOrder, data: &[u8], begin: usize, ctx: &mut DecoderContext) -> Result<usize>
    requires fit { BitsFit «data».now }
    requires begin { begin ≤ length «data».now }
    ensures settings { ctx.new.held.settings ≡ ctx.old.held.settings }
    ensures page { (columns : ℕ) → ctx.old.held.settings ≡ page_settings columns
        → OnAnswer result (result ≡ page_from columns order «data».now begin) }
    ensures within { IfOk result (λ n. begin + n ≤ length «data».now) }
    ensures never_refused { result ≢ Err DecodeError.Refused }
{
    // The range of a number is known once it is read.
    let _settings = ctx.settings();
    decode_in(order, &data[begin..], &mut NoRows, ctx)
}

/// A closed page is read up to its end, whatever follows it.
fn closed_pages(columns: u32, order: BitOrder)
    ensures { ReadsClosedPages columns order }
{
    pictures();
    bits_of_bytes();
}

/// Returns where the page at the start of the data ends: the number of its bytes, the last one filled up. The next page
/// begins there.
///
/// # Errors
///
/// `UnexpectedEof`, `InvalidCode` and `Overflow` if the data is invalid, and `OutOfMemory` if an allocation fails.
///
/// # Example
///
/// With 8 columns the bytes 31 C0 04 00 40 are a row whose pixels 3 and 4 are black, and EOFB: the result is `Ok(5)`, whatever
/// follows them.
pub fn page_end(alloc: Global, columns: u32, order: BitOrder, data: &[u8]) -> Result<usize>
    requires fit { BitsFit «data».now }
    ensures page { OnAnswer result (result ≡ page_from columns order «data».now 0) }
    ensures within { IfOk result (λ n. n ≤ length «data».now) }
    ensures never_refused { result ≢ Err DecodeError.Refused }

    // A page closed by EOFB ends where its picture does, whatever follows it.
    ensures closed { (rows : List Row) (count : ℕ)
        → IsClosedPicture (page_settings columns) rows count (bits_in order «data».now) → OnAnswer result (result ≡ Ok count) }
{
    closed_pages(columns, order);
    let mut ctx = DecoderContext::new(alloc, group4_pages(columns))?;
    skip_page(order, data, 0, &mut ctx)
}

/// Returns where the consecutive pages of the data end, from its start on: each begins where the one before ends. It stops
/// when no data is left, or when no byte of the rest is read, as with no columns.
///
/// # Errors
///
/// Those of [`page_end`], for the first page that has one.
///
/// # Example
///
/// With 8 columns the bytes 31 C0 04 00 40 31 C0 04 00 40 are two pages: the result is 5 and 10.
pub fn page_ends(alloc: Global, columns: u32, order: BitOrder, data: &[u8]) -> Result<Vec<usize>>
    requires fit { BitsFit «data».now }
    ensures pages { IfOk result (λ ends. (last : ℕ) × EndAt columns order «data».now 0 ends.items last
        × ((last ≡ length «data».now) ⊎ (page_from columns order «data».now last ≡ Ok 0))) }
    ensures fault { IfErr result (λ e. IsFault e → (ends : List ℕ) × (begin : ℕ) × EndAt columns order «data».now 0 ends begin
        × (page_from columns order «data».now begin ≡ Err e)) }
    ensures never_refused { result ≢ Err DecodeError.Refused }

    // If the data is closed pages and nothing else, these are found.
    ensures closed { (ends : List ℕ) → StandAt columns order «data».now 0 ends
        → OnAnswer result (IsOk result × IfOk result (λ found. found.items ≡ ends)) }
{
    closed_pages(columns, order);
    let mut ctx = DecoderContext::new(alloc, group4_pages(columns))?;
    let mut ends = Vec::new(alloc);
    let mut begin = 0;
    while begin < data.len() {
        let count = skip_page(order, data, begin, &mut ctx)?;
        if count == 0 {
            break;
        }
        begin += count;
        ends.push(begin)?;
    }
    Ok(ends)
}
