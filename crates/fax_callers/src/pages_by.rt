//! Pages of any encoding, one after another.

ghost use Rattle.std.specs.Prelude.{◌≡◌, ◌≢◌, ◌<◌, ◌≤◌, ◌+◌, ◌^◌, ◌⊎◌, ℕ, List, IfOk, IfErr, IsOk, length, take};
ghost use Rattle.hayro_ccitt.specs.Answers.{OnAnswer, IsFault};
ghost use Rattle.hayro_ccitt.specs.Bits.{BitsFit, bits_in};
ghost use Rattle.hayro_ccitt.specs.Rows.{Row};
ghost use Rattle.fax_callers.specs.Pages.{group3_settings, page_by, AreRead, IsPage, PagesEnd, PagesStand, ReadsPages};

use crate::pages::NoRows;
use crate::rtc::page_size;
use hayro_ccitt::bit_reader::BitOrder;
use hayro_ccitt::laws::{bits_of_bytes, pictures};
use hayro_ccitt::{DecodeError, DecodeSettings, DecoderContext, EncodingMode, Result, decode_in};
use std::alloc::Global;

/// Returns the settings for pages of Group 3 with this width, one- or two-dimensional, with an EOL before each line, each closed
/// by RTC: no row limit, strict.
pub fn group3_pages(columns: u32, two_dimensional: bool) -> DecodeSettings
    ensures { result ≡ group3_settings columns two_dimensional }
{
    let encoding = if two_dimensional {
        EncodingMode::Group3_2D
    } else {
        EncodingMode::Group3_1D
    };
    DecodeSettings {
        columns,
        rows: 0,
        end_of_block: true,
        end_of_line: true,
        rows_are_byte_aligned: false,
        encoding,
        strict: true,
    }
}

/// A number of columns and a row limit have 32 bits.
fn have_32_bits(columns: u32, rows: u32)
    ensures columns { columns < 2 ^ 32 }
    ensures rows { rows < 2 ^ 32 }
{}

/// Every page is read as its rows up to its end, whatever follows it.
pub(crate) fn pages_are_read(settings: DecodeSettings, order: BitOrder)
    ensures { ReadsPages settings order }
{
    have_32_bits(settings.columns, settings.rows);
    pictures();
    bits_of_bytes();
}

/// Returns how many bytes the page that begins at a byte offset occupies, by the settings of the context. Its rows are ignored.
fn read_page(order: BitOrder, data: &[u8], begin: usize, ctx: &mut DecoderContext) -> Result<usize>
    requires fit { BitsFit «data».now }
    requires begin { begin ≤ length «data».now }
    ensures settings { ctx.new.held.settings ≡ ctx.old.held.settings }
    ensures page { OnAnswer result (result ≡ page_by ctx.old.held.settings order «data».now begin) }
    ensures within { IfOk result (λ n. begin + n ≤ length «data».now) }
    ensures never_refused { result ≢ Err DecodeError.Refused }
{
    let rest = &data[begin..];
    let size = page_size(ctx.settings().encoding, order, rest);
    decode_in(order, &rest[..size], &mut NoRows, ctx)
}

/// Returns where the page at the start of the data ends, in any encoding: the number of its bytes, the last one filled up. The
/// next page begins there.
///
/// In Group 3 the page is read up to the end of the first RTC, which is six EOLs: [`decode`](hayro_ccitt::decode) also takes the
/// EOLs after them, and so the first one of the next page. Without RTC it is read up to the end of the data.
///
/// # Errors
///
/// `UnexpectedEof`, `InvalidCode` and `Overflow` if the data is invalid, and `OutOfMemory` if an allocation fails.
///
/// # Example
///
/// With the settings `group3_pages(1, false)` the bytes 00 11 C0 04 00 40 04 00 40 04 00 40 are a white row, and RTC: the
/// result is `Ok(12)`, whatever follows them.
pub fn page_end_by(
    alloc: Global,
    settings: DecodeSettings,
    order: BitOrder,
    data: &[u8],
) -> Result<usize>
    requires fit { BitsFit «data».now }
    ensures page { OnAnswer result (result ≡ page_by settings order «data».now 0) }
    ensures within { IfOk result (λ n. n ≤ length «data».now) }
    ensures never_refused { result ≢ Err DecodeError.Refused }

    // A page ends where its RTC or EOFB does, whatever follows it.
    ensures closed { (rows : List Row) (count : ℕ)
        → IsPage settings rows count (bits_in order «data».now) → OnAnswer result (result ≡ Ok count) }
    // The bytes up to there alone are read as its rows.
    ensures rows { (rows : List Row) (count : ℕ)
        → IsPage settings rows count (bits_in order «data».now) → AreRead settings order rows (take count «data».now) }
{
    pages_are_read(settings, order);
    let mut ctx = DecoderContext::new(alloc, settings)?;
    read_page(order, data, 0, &mut ctx)
}

/// Returns where the consecutive pages of the data end, in any encoding, from its start on: each begins where the one before
/// ends. It stops when no data is left, or when no byte of the rest is read, as with no columns.
///
/// # Errors
///
/// Those of [`page_end_by`], for the first page that has one.
///
/// # Example
///
/// With the settings `group3_pages(1, false)` twice the bytes 00 11 C0 04 00 40 04 00 40 04 00 40 are two pages: the result is
/// 12 and 24.
pub fn page_ends_by(
    alloc: Global,
    settings: DecodeSettings,
    order: BitOrder,
    data: &[u8],
) -> Result<Vec<usize>>
    requires fit { BitsFit «data».now }
    ensures pages { IfOk result (λ ends. (last : ℕ) × PagesEnd settings order «data».now 0 ends.items last
        × ((last ≡ length «data».now) ⊎ (page_by settings order «data».now last ≡ Ok 0))) }
    ensures fault { IfErr result (λ e. IsFault e → (ends : List ℕ) × (begin : ℕ)
        × PagesEnd settings order «data».now 0 ends begin × (page_by settings order «data».now begin ≡ Err e)) }
    ensures never_refused { result ≢ Err DecodeError.Refused }

    // If the data is pages and nothing else, these are found.
    ensures closed { (ends : List ℕ) → PagesStand settings order «data».now 0 ends
        → OnAnswer result (IsOk result × IfOk result (λ found. found.items ≡ ends)) }
{
    pages_are_read(settings, order);
    let mut ctx = DecoderContext::new(alloc, settings)?;
    let mut ends = Vec::new(alloc);
    let mut begin = 0;
    while begin < data.len() {
        let count = read_page(order, data, begin, &mut ctx)?;
        if count == 0 {
            break;
        }
        begin += count;
        ends.push(begin)?;
    }
    Ok(ends)
}
