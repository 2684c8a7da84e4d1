//! Calls of a reader of bits and of a context, as cases: the settings, the data, and calls with what each returns, as `Debug`
//! writes it.
//!
//! ```text
//! Group4 8 columns 0 rows | 31C0 | decode_2d_line = Ok(()); next_line = Ok(()); bit_pos = 10; rows = [3,5]
//! ```
//!
//! What follows the name of a call are its arguments. A call with a long contract is made by a function without one, so that
//! the proof of its caller carries none of that.

use super::cases::{cases_of, settings_in};
use super::{
    RowsAsText, bytes_of, context_of, joined, mirrored, number_in, said, same_text, sink_of,
};
use hayro_ccitt::DecodeError::{OutOfMemory, Refused, UnexpectedEof};
use hayro_ccitt::bit_reader::BitOrder::{HighestFirst, LowestFirst};
use hayro_ccitt::bit_reader::{BitOrder, BitReader};
use hayro_ccitt::codes::{Color, Mode, Ticks};
use hayro_ccitt::context::{decode_1d_line, decode_2d_line};
use hayro_ccitt::group3::{check_eob, decode_1d, decode_2d, recover};
use hayro_ccitt::tables::Tables;
use hayro_ccitt::{
    DecodeError, DecodeSettings, DecoderContext, EncodingMode, Result, bits_fit, body_is_local,
    group4, in_step_from, rows_reached, tagged_body_is_local,
};
use std::alloc::AllocGlobal;
use std::process::Abort;

/// Reads a run.
fn run_of(rt: &(impl Abort + AllocGlobal), reader: &mut BitReader, color: Color) -> Result<u32> {
    let tables = Tables::new(rt.alloc()).expect(rt, "memory");
    reader.decode_run(color, &tables, &mut Ticks::new())
}

/// Reads a mode.
fn mode_of(reader: &mut BitReader) -> Result<Mode> {
    reader.decode_mode(&mut Ticks::new())
}

/// The zeros up to the next one, and the offset after that one.
pub(super) fn zeros_of(reader: &BitReader) -> (usize, Option<usize>) {
    let (zeros, after) = reader.zero_run(&mut Ticks::new());
    match after {
        Some(after) => (zeros, Some(after.bit_pos())),
        None => (zeros, None),
    }
}

/// Counts EOLs, at most so many.
fn eols_of(reader: &mut BitReader, most: u32) -> usize {
    reader.read_eols(most as usize, &mut Ticks::new())
}

/// Counts the EOLs that are there.
fn all_eols_of(reader: &mut BitReader) -> usize {
    reader.read_eol_if_available(&mut Ticks::new())
}

/// Counts EOLs with tags of one.
fn tagged_eols_of(reader: &mut BitReader) -> usize {
    reader.read_tagged_eols(&mut Ticks::new())
}

/// Looks for the next EOL.
fn has_eol_left(reader: &mut BitReader) -> bool {
    reader.skip_to_eol(&mut Ticks::new())
}

/// Draws a line of one dimension.
fn draws_1d(ctx: &mut DecoderContext, reader: &mut BitReader) -> Result<()> {
    decode_1d_line(ctx, reader)
}

/// Draws a line of two dimensions.
pub(super) fn draws_2d(ctx: &mut DecoderContext, reader: &mut BitReader) -> Result<()> {
    decode_2d_line(ctx, reader)
}

/// Passes the row that was drawn on.
pub(super) fn moves_on(
    rt: &impl Abort,
    ctx: &mut DecoderContext,
    sink: &mut RowsAsText,
) -> Result<()> {
    // The range of a number is known once it is read.
    let _columns = ctx.settings().columns;
    assert!(rt; ctx.decoded_rows() < u64::MAX);
    ctx.next_line(sink)
}

/// Makes the rest of a row white.
pub(super) fn fills(ctx: &mut DecoderContext) -> Result<()> {
    ctx.fill_white()
}

/// Paints pixels of the present colour.
fn paints(ctx: &mut DecoderContext, count: u32) -> Result<()> {
    ctx.push_pixels(count)
}

/// The next change of the reference row, and the one after it.
pub(super) fn places_of(ctx: &mut DecoderContext) -> (u32, u32) {
    (ctx.b1(), ctx.b2())
}

/// Counts a tick.
fn counts_tick(ctx: &mut DecoderContext) {
    ctx.ticks().tick();
}

/// Returns whether the image ends after a row.
fn is_over(rt: &impl Abort, ctx: &mut DecoderContext, reader: &mut BitReader) -> Result<bool> {
    if matches!(ctx.settings().encoding, EncodingMode::Group4) || ctx.decoded_rows() == 0 {
        panic!(rt; "check_eob is called after a row of Group 3");
    }
    check_eob(ctx, reader)
}

/// Repairs a line that began at the data's start.
fn repairs<'a>(
    rt: &impl Abort,
    ctx: &mut DecoderContext,
    reader: &mut BitReader<'a>,
    data: &'a [u8],
    error: DecodeError,
) -> Result<()> {
    assert!(rt; bits_fit(data));
    recover(ctx, reader, BitReader::new(data), error)
}

/// Decodes rows of a context's encoding, from a reader at its start.
fn decodes_rows(
    rt: &impl Abort,
    ctx: &mut DecoderContext,
    reader: &mut BitReader,
    sink: &mut RowsAsText,
) -> Result<()> {
    ctx.reset();
    let settings = ctx.settings();
    assert!(rt; settings.columns > 0 && reader.bit_pos() == 0);
    match settings.encoding {
        EncodingMode::Group4 => group4::decode(ctx, reader, sink),
        EncodingMode::Group3_1D => decode_1d(ctx, reader, sink),
        EncodingMode::Group3_2D => decode_2d(ctx, reader, sink),
    }
}

/// Returns whether a body is local.
pub(super) fn is_local(
    rt: &impl Abort,
    order: BitOrder,
    data: &[u8],
    ctx: &mut DecoderContext,
    from: usize,
    to: usize,
) -> Result<bool> {
    assert!(rt; bits_fit(data));
    body_is_local(order, data, ctx, from, to)
}

/// Returns whether the tag and the body of a line lie between two offsets.
pub(super) fn is_tagged_local(
    rt: &impl Abort,
    order: BitOrder,
    data: &[u8],
    ctx: &mut DecoderContext,
    from: usize,
    to: usize,
) -> Result<bool> {
    assert!(rt; bits_fit(data));
    tagged_body_is_local(order, data, ctx, from, to)
}

/// Returns whether the tag and the body of a line lie between two offsets in an argument.
fn is_tagged_local_by(
    rt: &impl Abort,
    order: BitOrder,
    data: &[u8],
    ctx: &mut DecoderContext,
    argument: &str,
) -> Result<bool> {
    let (from, to) = argument.split_once(' ').expect(rt, argument);
    is_tagged_local(
        rt,
        order,
        data,
        ctx,
        number_in(rt, from) as usize,
        number_in(rt, to) as usize,
    )
}

/// Returns whether the body between two offsets in an argument is local.
fn is_local_by(
    rt: &impl Abort,
    order: BitOrder,
    data: &[u8],
    ctx: &mut DecoderContext,
    argument: &str,
) -> Result<bool> {
    let (from, to) = argument.split_once(' ').expect(rt, argument);
    is_local(
        rt,
        order,
        data,
        ctx,
        number_in(rt, from) as usize,
        number_in(rt, to) as usize,
    )
}

/// Returns how many rows damage before an EOL reaches.
pub(super) fn reach_of(
    rt: &impl Abort,
    order: BitOrder,
    data: &[u8],
    ctx: &mut DecoderContext,
    to: usize,
) -> Option<u64> {
    assert!(rt; bits_fit(data));
    rows_reached(order, data, ctx, to)
}

/// Returns from which bit on the rows are the same again, if damage is before an EOL.
pub(super) fn step_of(
    rt: &impl Abort,
    order: BitOrder,
    data: &[u8],
    ctx: &mut DecoderContext,
    to: usize,
) -> Option<usize> {
    assert!(rt; bits_fit(data));
    in_step_from(order, data, ctx, to)
}

/// Returns the error that an argument names.
fn error_of(argument: &str) -> DecodeError {
    match argument {
        "UnexpectedEof" => UnexpectedEof,
        "OutOfMemory" => OutOfMemory,
        _ => Refused,
    }
}

/// Consumes a number of bits.
fn consumes(rt: &impl Abort, reader: &mut BitReader, count: u32) -> Result<()> {
    assert!(rt; count <= 32);
    reader.consume(count as usize)
}

/// What a call returns. It is written last, since the proof of each call that makes a text takes half a second.
#[derive(Clone, Copy)]
enum Returned {
    Nothing,
    Flag(bool),
    Number(u64),
    Run(Result<u32>),
    Done(Result<()>),
    Answer(Result<bool>),
    Mode(Result<Mode>),
    Zeros((usize, Option<usize>)),
    Places((u32, u32)),
    Reach(Option<u64>),
    Step(Option<usize>),
    Settings(DecodeSettings),
}

/// Writes what a call returns, as `Debug` writes the value.
fn written_as(rt: &(impl Abort + AllocGlobal), returned: Returned) -> String {
    match returned {
        Returned::Nothing => said(rt, ()),
        Returned::Flag(flag) => said(rt, flag),
        Returned::Number(number) => said(rt, number),
        Returned::Run(run) => said(rt, run),
        Returned::Done(done) => said(rt, done),
        Returned::Answer(answer) => said(rt, answer),
        Returned::Mode(mode) => said(rt, mode),
        Returned::Zeros(zeros) => said(rt, zeros),
        Returned::Places(places) => said(rt, places),
        Returned::Reach(reach) => said(rt, reach),
        Returned::Step(step) => said(rt, step),
        Returned::Settings(settings) => said(rt, settings),
    }
}

/// Returns a place or a count.
fn number(value: usize) -> Returned {
    Returned::Number(value as u64)
}

/// Calls a reader of bits that reads bits.
fn reads(rt: &impl Abort, call: &str, argument: &str, reader: &mut BitReader) -> Returned {
    match call {
        "read_bit" => Returned::Run(reader.read_bit()),
        "peek_u32" => Returned::Number(u64::from(reader.peek_u32())),
        "consume" => Returned::Done(consumes(rt, reader, number_in(rt, argument))),
        "align" => {
            reader.align();
            Returned::Nothing
        }
        "at_end" => Returned::Flag(reader.at_end()),
        "byte_pos" => number(reader.byte_pos()),
        "bit_pos" => number(reader.bit_pos()),
        "holds_one" => Returned::Flag(reader.holds_one()),
        _ => panic!(rt; "no call: {call}"),
    }
}

/// Calls a reader of bits.
fn reads_codes(
    rt: &(impl Abort + AllocGlobal),
    call: &str,
    argument: &str,
    reader: &mut BitReader,
) -> Returned {
    match call {
        "white_run" => Returned::Run(run_of(rt, reader, Color::White)),
        "black_run" => Returned::Run(run_of(rt, reader, Color::Black)),
        "decode_mode" => Returned::Mode(mode_of(reader)),
        "zero_run" => Returned::Zeros(zeros_of(reader)),
        "read_eols" => number(eols_of(reader, number_in(rt, argument))),
        "read_eol_if_available" => number(all_eols_of(reader)),
        "read_tagged_eols" => number(tagged_eols_of(reader)),
        "skip_to_eol" => Returned::Flag(has_eol_left(reader)),
        _ => reads(rt, call, argument, reader),
    }
}

/// Sets what a context keeps.
fn sets(ctx: &mut DecoderContext, call: &str, argument: &str) -> Returned {
    match call {
        "set_has_eols" => ctx.set_has_eols(argument == "true"),
        "tick" => counts_tick(ctx),
        _ => ctx.reset(),
    }
    Returned::Nothing
}

/// Asks or sets what a context keeps, or calls a reader of bits.
fn asks(
    rt: &(impl Abort + AllocGlobal),
    call: &str,
    argument: &str,
    ctx: &mut DecoderContext,
    reader: &mut BitReader,
) -> Returned {
    match call {
        "settings" => Returned::Settings(ctx.settings()),
        "decoded_rows" => Returned::Number(ctx.decoded_rows()),
        "has_eols" => Returned::Flag(ctx.has_eols()),
        "set_has_eols" | "tick" | "reset" => sets(ctx, call, argument),
        _ => reads_codes(rt, call, argument, reader),
    }
}

/// Asks about damage to data whose bytes have their bits in this order, if the call does that.
fn says_of_damage(
    rt: &impl Abort,
    order: BitOrder,
    call: &str,
    argument: &str,
    data: &[u8],
    ctx: &mut DecoderContext,
) -> Option<Returned> {
    match call {
        "body_is_local" => Some(Returned::Answer(is_local_by(rt, order, data, ctx, argument))),
        "tagged_body_is_local" => Some(Returned::Answer(is_tagged_local_by(
            rt, order, data, ctx, argument,
        ))),
        "rows_reached" => Some(Returned::Reach(reach_of(
            rt,
            order,
            data,
            ctx,
            number_in(rt, argument) as usize,
        ))),
        "in_step_from" => Some(Returned::Step(step_of(
            rt,
            order,
            data,
            ctx,
            number_in(rt, argument) as usize,
        ))),
        _ => None,
    }
}

/// Asks about damage, in either order of bits, or calls what `asks` does.
fn asks_of_damage(
    rt: &(impl Abort + AllocGlobal),
    call: &str,
    argument: &str,
    data: &[u8],
    ctx: &mut DecoderContext,
    reader: &mut BitReader,
) -> Returned {
    let Some(said) = says_of_damage(rt, HighestFirst, call, argument, data, ctx) else {
        return asks(rt, call, argument, ctx, reader);
    };
    let bytes = mirrored(rt, data);
    let other = says_of_damage(rt, LowestFirst, call, argument, &bytes, ctx).expect(rt, call);
    let (found, expected) = (written_as(rt, other), written_as(rt, said));
    same_text(rt, call, found.as_str(), expected.as_str());
    said
}

/// Draws a line in a context, or calls what `asks_of_damage` does.
fn draws(
    rt: &(impl Abort + AllocGlobal),
    call: &str,
    argument: &str,
    data: &[u8],
    ctx: &mut DecoderContext,
    reader: &mut BitReader,
) -> Returned {
    match call {
        "decode_1d_line" => Returned::Done(draws_1d(ctx, reader)),
        "decode_2d_line" => Returned::Done(draws_2d(ctx, reader)),
        "push_pixels" => Returned::Done(paints(ctx, number_in(rt, argument))),
        "fill_white" => Returned::Done(fills(ctx)),
        "b1_and_b2" => Returned::Places(places_of(ctx)),
        _ => asks_of_damage(rt, call, argument, data, ctx, reader),
    }
}

/// Decodes rows in a context, or calls what `draws` does.
fn calls<'a>(
    rt: &(impl Abort + AllocGlobal),
    call: &str,
    argument: &str,
    data: &'a [u8],
    ctx: &mut DecoderContext,
    reader: &mut BitReader<'a>,
    sink: &mut RowsAsText,
) -> Returned {
    match call {
        "decode" => Returned::Done(decodes_rows(rt, ctx, reader, sink)),
        "next_line" => Returned::Done(moves_on(rt, ctx, sink)),
        "check_eob" => Returned::Answer(is_over(rt, ctx, reader)),
        "recover" => Returned::Done(repairs(rt, ctx, reader, data, error_of(argument))),
        _ => draws(rt, call, argument, data, ctx, reader),
    }
}

/// Returns the name of a call, its argument, and what is expected.
fn parts_of(line: &str) -> Option<(&str, &str, &str)> {
    let (call, expected) = line.split_once('=')?;
    let (name, argument) = call.trim().split_once(' ').unwrap_or((call.trim(), ""));
    Some((name, argument, expected.trim()))
}

/// Makes the calls of a case, and compares what each returns.
fn makes_calls(
    rt: &(impl Abort + AllocGlobal),
    settings: DecodeSettings,
    data: &[u8],
    listed: &str,
) {
    assert!(rt; bits_fit(data));
    let mut ctx = context_of(rt, settings);
    let mut reader = BitReader::new(data);
    let mut sink = sink_of(rt, 2);
    for line in listed.split(';') {
        let (name, argument, expected) = parts_of(line).expect(rt, line);
        let found = if name == "rows" {
            joined(rt, sink.text.as_str())
        } else {
            let returned = calls(rt, name, argument, data, &mut ctx, &mut reader, &mut sink);
            written_as(rt, returned)
        };
        same_text(rt, line, found.as_str(), expected);
    }
}

/// Makes the calls of each case of a text, and compares what they return.
pub(super) fn calls_each(rt: &(impl Abort + AllocGlobal), text: &str) {
    for (settings, digits, listed) in &cases_of(rt, text) {
        makes_calls(rt, settings_in(rt, settings), &bytes_of(rt, digits), listed);
    }
}
