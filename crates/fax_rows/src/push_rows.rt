//! Decoding into a sink: the rows of a reading one at a time, each passed to the sink.

ghost use Rattle.std.specs.Prelude.{◌≡◌, ◌<◌, ◌≤◌, ◌+◌, ◌-◌, ◌^◌, OnErr, false, true, length};
ghost use Rattle.fax_bits.specs.Bits.{here};
ghost use Rattle.fax_rows.specs.Contract.{BeginsRows};
ghost use Rattle.fax_reading.specs.Decoding.{DecodesRows, FailsHere, leaving};
ghost use Rattle.fax_lines.specs.ContextSteps.{ExpectsNoEols, GrowsForBits};
ghost use Rattle.fax_lines.specs.SinkStates.{state_of};
ghost use Rattle.fax_rows.specs.WhiteLines.{MayFollow};
ghost use Rattle.fax_rows.specs.WhiteRows.{PushesWhite};

use crate::counts::take_back_row;
use crate::row_reader::{RowState, first_stand, has_ended};
use crate::white_lines::{
    WhiteLines, may_follow, no_white_lines, pass_line, pass_placed_line, placed_lines,
    white_is_next,
};
use fax_bits::bit_reader::{
    BitOrder, BitReader, WordsAhead, at_bit, bit_len, go_on_at, words_ahead,
};
use fax_bits::{EncodingMode, Result};
use fax_lines::Decoder;
use fax_lines::context::{DecoderContext, reference_row};

/// Of lines with fewer bits many are in the window of a reader, which passes them as fast.
const LEAST_BITS: usize = 8;

/// White lines that may be next, and where in the data that is.
#[derive(Clone, Copy)]
pub struct WhiteLinesAhead<'a> {
    /// The lines, each with the EOL before it.
    pub lines: &'a WhiteLines,
    /// Whether the data comes in pieces.
    pub in_pieces: bool,
    /// How many bits of the data come before those of the reader.
    pub dropped: usize,
}

/// Returns how many more rows come before the row limit.
#[inline(always)]
fn rows_left(limit: u64, rows: u64) -> u64
    ensures { result ≡ limit - rows }
{
    limit.saturating_sub(rows)
}

/// Reads each line that is one of these white lines, from words of eight bytes as they stand, and passes its row to the sink, up to
/// the row limit and the last eight bytes. After `Refused` that row was read.
#[inline(always)]
fn push_white_words<D: Decoder>(
    mut words: WordsAhead<'_>,
    white: WhiteLinesAhead<'_>,
    rows: &mut RowState,
    ctx: &mut DecoderContext,
    reader: &mut BitReader<'_>,
    decoder: &mut D,
) -> Result<()>
    requires here { words.at ≡ reader.old }
    requires follow { MayFollow ctx.old.held.settings ctx.old.held.has_eols ctx.old.held.reference white.lines.now }
    requires fits { white.dropped + length reader.old.bits + 64 < 2 ^ 64 }
    ensures width { D.width decoder.new ≡ D.width decoder.old }
    ensures pushes { PushesWhite (D.step (D.width decoder.old)) white.entry.lines.now white.entry.dropped
        (state_of D.Decoder decoder.old) (state_of D.Decoder decoder.new) rows.old rows.new ctx.old ctx.new reader.old
        reader.new result }
{
    let placed = placed_lines(white.lines, &words);
    let most = rows_left(white.lines.limit, ctx.decoded_rows());
    let mut count = 0;
    let mut start = words.passed();
    'many: while count < most {
        let place = words.passed();
        if !pass_placed_line(&placed, &mut words) {
            break 'many;
        }
        start = place;
        count += 1;
        if let Err(refusal) = decoder.push_row(&[]) {
            rows.take_white_rows(count, white.dropped + start + white.lines.gap, ctx);
            go_on_at(reader, &words);
            return Err(refusal);
        }
    }
    if count > 0 {
        rows.take_white_rows(count, white.dropped + start + white.lines.gap, ctx);
        go_on_at(reader, &words);
    }
    Ok(())
}

/// Reads lines and passes their rows as `push_white_words` does, in either order of bits.
#[inline(always)]
fn push_white_in_order<D: Decoder>(
    white: WhiteLinesAhead<'_>,
    rows: &mut RowState,
    ctx: &mut DecoderContext,
    reader: &mut BitReader<'_>,
    decoder: &mut D,
) -> Result<()>
    requires follow { MayFollow ctx.old.held.settings ctx.old.held.has_eols ctx.old.held.reference white.lines.now }
    requires fits { white.dropped + length reader.old.bits + 64 < 2 ^ 64 }
    ensures width { D.width decoder.new ≡ D.width decoder.old }
    ensures pushes { PushesWhite (D.step (D.width decoder.old)) white.entry.lines.now white.entry.dropped
        (state_of D.Decoder decoder.old) (state_of D.Decoder decoder.new) rows.old rows.new ctx.old ctx.new reader.old
        reader.new result }
{
    if let Some(words) = words_ahead(reader, BitOrder::HighestFirst) {
        return push_white_words(words, white, rows, ctx, reader, decoder);
    }
    if let Some(words) = words_ahead(reader, BitOrder::LowestFirst) {
        return push_white_words(words, white, rows, ctx, reader, decoder);
    }
    Ok(())
}

/// Reads white lines as `push_white_in_order` does, in a call of its own, so that registers hold what each row needs.
#[inline(never)]
fn push_white_by_call<D: Decoder>(
    white: WhiteLinesAhead<'_>,
    rows: &mut RowState,
    ctx: &mut DecoderContext,
    reader: &mut BitReader<'_>,
    decoder: &mut D,
) -> Result<()>
    requires follow { MayFollow ctx.old.held.settings ctx.old.held.has_eols ctx.old.held.reference white.lines.now }
    requires fits { white.dropped + length reader.old.bits + 64 < 2 ^ 64 }
    ensures width { D.width decoder.new ≡ D.width decoder.old }
    ensures pushes { PushesWhite (D.step (D.width decoder.old)) white.entry.lines.now white.entry.dropped
        (state_of D.Decoder decoder.old) (state_of D.Decoder decoder.new) rows.old rows.new ctx.old ctx.new reader.old
        reader.new result }
{
    push_white_in_order(white, rows, ctx, reader, decoder)
}

/// Reads white lines that aren't short as `push_white_words` does; of data in pieces also short ones.
#[inline(always)]
fn push_white_ahead<D: Decoder>(
    white: WhiteLinesAhead<'_>,
    rows: &mut RowState,
    ctx: &mut DecoderContext,
    reader: &mut BitReader<'_>,
    decoder: &mut D,
) -> Result<()>
    requires follow { MayFollow ctx.old.held.settings ctx.old.held.has_eols ctx.old.held.reference white.lines.now }
    requires fits { white.dropped + length reader.old.bits + 64 < 2 ^ 64 }
    ensures width { D.width decoder.new ≡ D.width decoder.old }
    ensures pushes { PushesWhite (D.step (D.width decoder.old)) white.entry.lines.now white.entry.dropped
        (state_of D.Decoder decoder.old) (state_of D.Decoder decoder.new) rows.old rows.new ctx.old ctx.new reader.old
        reader.new result }
{
    let least = if white.in_pieces { 0 } else { LEAST_BITS };
    if !may_follow(white.lines, reader, least) {
        return Ok(());
    }
    if white.in_pieces {
        return push_white_by_call(white, rows, ctx, reader, decoder);
    }
    push_white_in_order(white, rows, ctx, reader, decoder)
}

/// Reads each line that is one of these white lines, one at a time, and passes its row to the sink, up to the row limit. After
/// `Refused` that row was read.
#[inline(always)]
fn push_white_lines<D: Decoder>(
    white: WhiteLinesAhead<'_>,
    rows: &mut RowState,
    ctx: &mut DecoderContext,
    reader: &mut BitReader<'_>,
    decoder: &mut D,
) -> Result<()>
    requires follow { MayFollow ctx.old.held.settings ctx.old.held.has_eols ctx.old.held.reference white.lines.now }
    requires fits { white.dropped + length reader.old.bits + 64 < 2 ^ 64 }
    ensures width { D.width decoder.new ≡ D.width decoder.old }
    ensures pushes { PushesWhite (D.step (D.width decoder.old)) white.entry.lines.now white.entry.dropped
        (state_of D.Decoder decoder.old) (state_of D.Decoder decoder.new) rows.old rows.new ctx.old ctx.new reader.old
        reader.new result }
{
    let lines = *white.lines;
    let most = rows_left(lines.limit, ctx.decoded_rows());
    let mut count = 0;
    let mut start = reader.bit_pos();
    'white: while count < most {
        let line_start = reader.bit_pos();
        if !pass_line(lines, reader) {
            break 'white;
        }
        start = line_start;
        count += 1;
        if let Err(refusal) = decoder.push_row(&[]) {
            rows.take_white_rows(count, white.dropped + start + lines.gap, ctx);
            return Err(refusal);
        }
    }
    if count > 0 {
        rows.take_white_rows(count, white.dropped + start + lines.gap, ctx);
    }
    Ok(())
}

/// If a white row repeats, reads each line that is one of these white lines, and passes its row to the sink, up to the row limit.
/// After `Refused` that row was read.
#[inline(always)]
pub fn push_white_rows<D: Decoder>(
    repeats: bool,
    white: WhiteLinesAhead<'_>,
    rows: &mut RowState,
    ctx: &mut DecoderContext,
    reader: &mut BitReader<'_>,
    decoder: &mut D,
) -> Result<()>
    requires follow { repeats ≡ true
        → MayFollow ctx.old.held.settings ctx.old.held.has_eols ctx.old.held.reference white.lines.now }
    requires fits { white.dropped + length reader.old.bits + 64 < 2 ^ 64 }
    ensures width { D.width decoder.new ≡ D.width decoder.old }
    ensures pushes { PushesWhite (D.step (D.width decoder.old)) white.entry.lines.now white.entry.dropped
        (state_of D.Decoder decoder.old) (state_of D.Decoder decoder.new) rows.old rows.new ctx.old ctx.new reader.old
        reader.new result }
{
    if !repeats {
        return Ok(());
    }
    if let Err(refusal) = push_white_ahead(white, rows, ctx, reader, decoder) {
        return Err(refusal);
    }
    push_white_lines(white, rows, ctx, reader, decoder)
}

/// Reads the rows of an image and passes each to the sink, in every encoding, until EOFB or RTC (with `end_of_block`), the row
/// limit or the end of the data. The errors are those of a line that isn't repaired, `InvalidCode` if strict data misses an
/// EOL, and `Refused` if the sink refuses a row; the reader is then where the line begins that has no row, or where the EOL is
/// missing.
pub(crate) fn push_rows<D: Decoder>(
    ctx: &mut DecoderContext,
    reader: &mut BitReader<'_>,
    decoder: &mut D,
) -> Result<()>
    requires begins { BeginsRows ctx.old reader.old }
    requires width { ctx.old.held.settings.columns ≤ D.width decoder.old }
    ensures width { D.width decoder.new ≡ D.width decoder.old }
    ensures rows { DecodesRows reader.old.bits (D.step (D.width decoder.old))
        (state_of D.Decoder decoder.old) (state_of D.Decoder decoder.new) ctx.old ctx.new (leaving result (here reader.new)) }
    ensures fails { OnErr result (FailsHere ctx.old.held.settings reader.old.bits ctx.new.held.taken (here reader.new)) }
    ensures no_eols { ExpectsNoEols ctx.old ctx.new }
    ensures same_bits { reader.new.bits ≡ reader.old.bits }
    ensures space { GrowsForBits reader.old.bits ctx.old ctx.new }
{
    let mut lines = no_white_lines(ctx);
    let mut rows = RowState::new(first_stand(ctx, reader));
    if has_ended(rows.stand) {
        return Ok(());
    }
    'rows: loop {
        let damaged_rows = ctx.damaged_rows();
        let cut_rows = ctx.cut_rows();
        if !rows.next_row(ctx, reader)? {
            return Ok(());
        }
        if let Err(refusal) = decoder.push_row(reference_row(ctx)) {
            take_back_row(ctx, damaged_rows, cut_rows);
            *reader = at_bit(reader, rows.started_at);
            return Err(refusal);
        }
        let repeats = white_is_next(ctx, &mut lines, reader);
        // The number of bits is known to be small once it is read.
        let _length = bit_len(reader);
        let white = WhiteLinesAhead {
            lines: &lines,
            in_pieces: false,
            dropped: 0,
        };
        if let Err(refusal) = push_white_rows(repeats, white, &mut rows, ctx, reader, decoder) {
            let repaired = ctx.damaged_rows();
            let cut = ctx.cut_rows();
            take_back_row(ctx, repaired, cut);
            let begin = rows.started_at;
            *reader = at_bit(reader, begin);
            return Err(refusal);
        }
    }
}
