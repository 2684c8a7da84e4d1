//! A decoder for CCITT fax images: ITU-T T.4 (Group 3, one- and two-dimensional) and T.6 (Group 4).
//!
//! [`decode`] takes the encoded bytes and a [`DecoderContext`], made with the [`DecodeSettings`] that belong to them,
//! and passes each row as a list of colour changes to a [`Decoder`]. It returns the number of bytes consumed. Every call
//! returns, whatever the data is, and invalid data is reported as a [`DecodeError`].
//!
//! The modules are the decoder's parts, for other drivers: [`bit_reader`] and [`codes`] read bits, code words and EOLs,
//! [`context`] draws lines, [`group3`] and [`group4`] read rows, and [`laws`] states what is true of the data whatever
//! program reads it.
#![tactic(auto)]

ghost use Rattle.std.specs.Prelude.{◌≡◌, ◌*◌, ◌≤◌, ◌-◌, false, None, Some, Ok, OnOk, OnErr, IfOk, length};
ghost use Rattle.hayro_ccitt.specs.Answers.{OnAnswer};
ghost use Rattle.hayro_ccitt.specs.Bits.{AreWholeBytes, BitsFit, bits_in, bits_of, low_first_bits_of, here};
ghost use Rattle.fax_rows.specs.Contract.{BeginsRows, Decodes};
ghost use Rattle.hayro_ccitt.specs.Decoding.{DecodesRows, FailsHere, leaving};
ghost use Rattle.hayro_ccitt.specs.PlainReading.{plain};
ghost use Rattle.hayro_ccitt.specs.ContextSteps.{ExpectsNoEols, GrowsForBits};
ghost use Rattle.hayro_ccitt.specs.SinkStates.{state_of};
ghost use Rattle.hayro_ccitt.specs.Work.{CountsWork};

/// The bits of a slice of bytes, read from the start.
pub mod bit_reader {
    pub use fax_bits::bit_reader::{BitOrder, BitReader, copy};
}

/// Colours, modes, and the count of work.
pub mod codes {
    pub use fax_bits::codes::{Color, Mode, Ticks};
}

/// Rows as lists of changes: the positions at which a row's colour turns, white at first.
pub mod changes {
    pub use fax_lines::changes::{append_pixels, b1_index, change_or_end};
}

/// What a decoder keeps from line to line, and the lines themselves.
pub mod context {
    pub use fax_lines::context::{DecoderContext, decode_1d_line, decode_2d_line};
}

/// Group 3: EOLs at the start of the data, between the lines and at the end, and repair of damaged lines (T.4).
pub mod group3 {
    pub use fax_rows::group3::{check_eob, decode_1d, decode_2d, recover};
}

/// Group 4: every line is two-dimensional (T.6).
pub mod group4 {
    pub use fax_rows::group4::decode;
}

mod in_step;
pub mod laws;
mod locality;
mod reach;
mod tagged;

use bit_reader::{BitOrder, BitReader};
pub use context::DecoderContext;
pub use fax_bits::{DecodeError, DecodeSettings, EncodingMode, Result, bits_fit, tables};
pub use fax_feeds::row_feed::{Fed, RowFeed};
pub use fax_lines::Decoder;
use fax_rows::counts::{restart, set_fault_start};
pub use fax_rows::row_cursor::RowCursor;
pub use fax_rows::row_reader::RowReader;
pub use in_step::in_step_from;
pub use locality::body_is_local;
pub use reach::rows_reached;
pub use tagged::tagged_body_is_local;

/// Decodes the rows of an image according to its encoding.
fn decode_rows<D: Decoder>(
    ctx: &mut DecoderContext,
    reader: &mut BitReader<'_>,
    decoder: &mut D,
) -> Result<()>
    requires begins { BeginsRows ctx.old reader.old }
    requires width { ctx.old.held.settings.columns ≤ D.width decoder.old }
    ensures width { D.width decoder.new ≡ D.width decoder.old }
    ensures rows { DecodesRows reader.old.bits (D.step (D.width decoder.old))
        (state_of D.Decoder decoder.old) (state_of D.Decoder decoder.new) ctx.old ctx.new (leaving result (here reader.new)) }
    ensures fails { OnErr result (FailsHere ctx.old.held.settings reader.old.bits ctx.new.held.taken (here reader.new)) }
    ensures no_eols { ExpectsNoEols ctx.old ctx.new }
    ensures same_bits { reader.new.bits ≡ reader.old.bits }
    ensures space { GrowsForBits reader.old.bits ctx.old ctx.new }
{
    match ctx.settings().encoding {
        EncodingMode::Group4 => group4::decode(ctx, reader, decoder),
        EncodingMode::Group3_1D => group3::decode_1d(ctx, reader, decoder),
        EncodingMode::Group3_2D => group3::decode_2d(ctx, reader, decoder),
    }
}

/// Returns the offset of the bits that a run over rows left unread, if it failed.
fn fault_start_of(answer: Result<()>, reader: &BitReader<'_>) -> Option<usize>
    ensures fault { OnErr answer (result ≡ Some (length reader.now.bits - length (here reader.now))) }
    ensures none { OnOk answer (result ≡ None) }
{
    match answer {
        Ok(()) => None,
        Err(_) => Some(reader.bit_pos()),
    }
}

/// Decodes the image whose bits a reader has from its start on, in whichever order its bytes have them.
#[inline(always)]
fn decode_bits<D: Decoder>(
    reader: &mut BitReader<'_>,
    decoder: &mut D,
    ctx: &mut DecoderContext,
) -> Result<usize>
    requires start { reader.old.place ≡ 0 }
    requires whole { AreWholeBytes reader.old.bits }
    requires width { ctx.old.held.settings.columns ≤ D.width decoder.old }
    ensures width { D.width decoder.new ≡ D.width decoder.old }
    ensures settings { ctx.new.held.settings ≡ ctx.old.held.settings }
    ensures within { IfOk result (λ n. 8 * n ≤ length reader.old.bits) }
    ensures decodes { Decodes ctx.old.held.settings reader.old.bits (D.step (D.width decoder.old))
        (state_of D.Decoder decoder.old) (state_of D.Decoder decoder.new) ctx.new.held ctx.new.ticks result }
    ensures space { GrowsForBits reader.old.bits ctx.old ctx.new }
{
    restart(ctx);
    if ctx.settings().columns == 0 {
        return Ok(0);
    }
    let answer = decode_rows(ctx, reader, decoder);
    set_fault_start(ctx, fault_start_of(answer, reader));
    answer?;
    reader.align();
    Ok(reader.byte_pos())
}

/// Decodes an image: passes its rows to the sink, and returns the number of bytes consumed, the last one rounded up. Each
/// byte's highest bit comes first. The context is reset first, so what it decoded before has no effect; it may be used
/// again, even after an error.
///
/// The image ends at EOFB or RTC with `end_of_block` (T.6, 2.4.1.1, T.4, 4.1.4), at the row limit, or at
/// the end of the data, whichever comes first.
///
/// # Errors
///
/// - `UnexpectedEof`, `InvalidCode` and `Overflow` say that the data is invalid. All rows before the fault were passed
///   on. A lenient reading of Group 3 with EOLs repairs a damaged line instead, and continues at the next EOL (T.4,
///   4.1.2).
/// - `OutOfMemory` occurs only while a change of a row is stored, so in a line that paints a black pixel.
/// - `Refused` occurs only if the sink refuses a row.
///
/// After the last two the rows passed on are the first of the image's. After each error
/// [`DecoderContext::decoded_rows`] is the number of rows passed on, and [`DecoderContext::fault_start`] the offset of the
/// line after them.
///
/// # Example
///
/// In Group 4 with 8 columns and `end_of_block` the bytes 31 C0 04 00 40 are 001 1000 11 1, which is horizontal mode, 3
/// white pixels, 2 black ones and a vertical mode, and then EOFB. The sink receives one row, `[3, 5]`, and the result
/// is `Ok(5)`:
///
/// ```text
/// let settings = DecodeSettings {
///     columns: 8,
///     rows: 0,
///     end_of_block: true,
///     end_of_line: false,
///     rows_are_byte_aligned: false,
///     encoding: EncodingMode::Group4,
///     strict: false,
/// };
/// let mut ctx = DecoderContext::new(alloc, settings)?;
/// let mut sink = BitmapSink::new(alloc, 8);
/// let count = decode(&[0x31, 0xC0, 0x04, 0x00, 0x40], &mut sink, &mut ctx)?;
/// ```
pub fn decode<D: Decoder>(data: &[u8], decoder: &mut D, ctx: &mut DecoderContext) -> Result<usize>
    requires fit { BitsFit «data».now }
    requires width { ctx.old.held.settings.columns ≤ D.width decoder.old }
    ensures width { D.width decoder.new ≡ D.width decoder.old }
    ensures settings { ctx.new.held.settings ≡ ctx.old.held.settings }
    ensures within { IfOk result (λ n. n ≤ length «data».now) }
    ensures work { CountsWork ctx.old.held.settings (bits_of «data».now) ctx.new.held.taken ctx.new.ticks }
    ensures count { IfOk result (λ n. (plain ctx.old.held.settings (bits_of «data».now)).outcome ≡ Ok n) }
    ensures row_number { OnAnswer result (ctx.new.held.taken
        ≡ length (plain ctx.old.held.settings (bits_of «data».now)).rows) }

    // Each of the context's two lists has room for no more changes than before, or than twice the columns, or the bits if these
    // are fewer, and 66.
    ensures space { GrowsForBits (bits_of «data».now) ctx.old ctx.new }

    // All that it leaves, over the bits in this order, is stated field by field in `specs/Contract.antt`.
    ensures decodes { Decodes ctx.old.held.settings (bits_of «data».now) (D.step (D.width decoder.old))
        (state_of D.Decoder decoder.old) (state_of D.Decoder decoder.new) ctx.new.held ctx.new.ticks result }
{
    decode_bits(&mut BitReader::new(data), decoder, ctx)
}

/// Decodes an image as [`decode`] does, but with each byte's lowest bit first: TIFF's FillOrder 2, and the order in which
/// most fax modems transfer bytes. The data need not be reversed before.
///
/// So 8C 03, which is 31 C0 with each byte's bits in the other order, is the row `[3, 5]` of 8 columns.
///
/// # Errors
///
/// Those of [`decode`] over these bits.
pub fn decode_low_first<D: Decoder>(
    data: &[u8],
    decoder: &mut D,
    ctx: &mut DecoderContext,
) -> Result<usize>
    requires fit { BitsFit «data».now }
    requires width { ctx.old.held.settings.columns ≤ D.width decoder.old }
    ensures width { D.width decoder.new ≡ D.width decoder.old }
    ensures settings { ctx.new.held.settings ≡ ctx.old.held.settings }
    ensures within { IfOk result (λ n. n ≤ length «data».now) }
    ensures work { CountsWork ctx.old.held.settings (low_first_bits_of «data».now) ctx.new.held.taken ctx.new.ticks }
    ensures count { IfOk result (λ n. (plain ctx.old.held.settings (low_first_bits_of «data».now)).outcome ≡ Ok n) }
    ensures row_number { OnAnswer result (ctx.new.held.taken
        ≡ length (plain ctx.old.held.settings (low_first_bits_of «data».now)).rows) }
    ensures space { GrowsForBits (low_first_bits_of «data».now) ctx.old ctx.new }

    // All that it leaves, over the bits in this order, is stated field by field in `specs/Contract.antt`.
    ensures decodes { Decodes ctx.old.held.settings (low_first_bits_of «data».now) (D.step (D.width decoder.old))
        (state_of D.Decoder decoder.old) (state_of D.Decoder decoder.new) ctx.new.held ctx.new.ticks result }
{
    decode_bits(&mut BitReader::new_low_first(data), decoder, ctx)
}

/// Decodes an image whose bytes have their bits in this order: as [`decode`] does for [`BitOrder::HighestFirst`], and
/// as [`decode_low_first`] for [`BitOrder::LowestFirst`].
///
/// # Errors
///
/// Those of [`decode`] over these bits.
pub fn decode_in<D: Decoder>(
    order: BitOrder,
    data: &[u8],
    decoder: &mut D,
    ctx: &mut DecoderContext,
) -> Result<usize>
    requires fit { BitsFit «data».now }
    requires width { ctx.old.held.settings.columns ≤ D.width decoder.old }
    ensures width { D.width decoder.new ≡ D.width decoder.old }
    ensures settings { ctx.new.held.settings ≡ ctx.old.held.settings }
    ensures within { IfOk result (λ n. n ≤ length «data».now) }
    ensures space { GrowsForBits (bits_in order «data».now) ctx.old ctx.new }

    // All that it leaves, over the bits in this order, is stated field by field in `specs/Contract.antt`.
    ensures decodes { Decodes ctx.old.held.settings (bits_in order «data».now) (D.step (D.width decoder.old))
        (state_of D.Decoder decoder.old) (state_of D.Decoder decoder.new) ctx.new.held ctx.new.ticks result }
{
    match order {
        BitOrder::HighestFirst => decode(data, decoder, ctx),
        BitOrder::LowestFirst => decode_low_first(data, decoder, ctx),
    }
}
