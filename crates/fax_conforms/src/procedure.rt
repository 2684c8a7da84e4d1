//! Pictures by the coding procedure: lines in order, and how they end.

ghost use Rattle.std.specs.Prelude.{◌≡◌, ◌≢◌, ◌+◌, ◌*◌, ◌<◌, ◌≤◌, ◌↔◌, ◌++◌, ◌^◌, Bool, true, false, Some, None, length, IsTrue};
ghost use Rattle.std.specs.Prelude.{IfErr, IfNone, IfSome, OnOk, not, ◌&&◌};
ghost use Rattle.hayro_ccitt.specs.Bits.{Bits, here};
ghost use Rattle.hayro_ccitt.specs.EncodingMode.TheVariants.{Group4};
ghost use Rattle.hayro_ccitt.specs.Encodings.{eol, tag_of};
ghost use Rattle.hayro_ccitt.specs.Pictures.{Allows};
ghost use Rattle.hayro_ccitt.specs.Rows.{AreChanges, Row, pixels, white_row};
ghost use Rattle.hayro_ccitt.specs.EndOfLine.{after_eol};
ghost use Rattle.hayro_ccitt.specs.Ticks.{looked};
ghost use Rattle.fax_encode.specs.Procedure.{part_by_procedure};
ghost use Rattle.fax_encode.specs.Settings.{is_closed};
ghost use Rattle.fax_conforms.specs.ByProcedure.{ClosingStands, EndStands, EndsHere, FewZerosStand, HasKind, LeadStands};
ghost use Rattle.fax_conforms.specs.ByProcedure.{LinesByProcedure, PartStands, PlainRtcStands, left_after, left_at_first};
ghost use Rattle.fax_conforms.specs.ByProcedure.{part_of};
ghost use Rattle.fax_conforms.specs.Checks.{Checks, PassesPart, ReadsPart};
ghost use Rattle.fax_conforms.specs.Conforming.{EolsStand};
ghost use Rattle.fax_conforms.specs.Departures.{ClosesOr, ClosingDeparts, EndsAfterLines, EndsAtLimit, FillInRtc};
ghost use Rattle.fax_conforms.specs.Departures.{FilledEolStands, IsAt, LeadEndsAt, LineEndsAt, NoClosing, PartEndsAt};
ghost use Rattle.fax_conforms.specs.Departures.{ReadableFrom, TagSays};
ghost use Rattle.fax_conforms.specs.Stops.{IsBroken};
ghost use Rattle.fax_conforms.specs.Work.{IsPaid, LooksForEnd};

use crate::pictures::{
    after_plain_eol, after_tagged_eol, draw_line, has_eol, limit_met, pass_closing_tag, pass_eol,
};
use crate::stops::{Rule, Stop, Violation, broken};
use crate::words::Words;
use fax_encode::{LineKind, RowBelow, pass_line_by_procedure};
use hayro_ccitt::bit_reader::{BitReader, copy};
use hayro_ccitt::codes::Ticks;
use hayro_ccitt::{DecodeSettings, EncodingMode};
use std::alloc::Global;
use std::mem;

/// What is asked of a picture: its settings, K if it is given, and whether an EOL is before each line.
#[derive(Clone, Copy)]
pub struct Asked {
    pub alloc: Global,
    pub settings: DecodeSettings,
    pub k: Option<u32>,
    pub has_eols: bool,
}

/// Returns how many lines from the first one on may be two-dimensional, if that is limited (T.4, 4.2.1).
fn left_at_first(encoding: EncodingMode) -> Option<u32>
    ensures { result ≡ left_at_first encoding }
{
    match encoding {
        EncodingMode::Group3_2D => Some(0),
        EncodingMode::Group3_1D | EncodingMode::Group4 => None,
    }
}

/// Returns how many lines after a line may be two-dimensional, if that is limited (T.4, 4.2.1).
fn left_after(k: Option<u32>, left: Option<u32>, is_two: bool) -> Option<u32>
    ensures { result ≡ left_after k left is_two }
{
    let most = if is_two { left } else { k };
    match most {
        Some(most) => Some(most.saturating_sub(1)),
        None => None,
    }
}

/// Returns whether a line of this kind may come next, if this many may be two-dimensional (T.4, 4.2.1).
fn may_come(left: Option<u32>, is_two: bool) -> bool
    ensures { IsTrue result ↔ (is_two ≡ true → left ≢ Some 0) }
{
    !is_two || !matches!(left, Some(0))
}

/// Returns whether the line that is next is two-dimensional: in two-dimensional Group 3, whether its tag is 0 (T.4, 4.2.2).
fn next_is_two(encoding: EncodingMode, reader: &BitReader<'_>, ticks: &mut Ticks) -> bool
    ensures kind { HasKind encoding result }
    ensures tag { TagSays encoding (here reader.now) result }
    ensures only { (fills is_two : Bool) (reference row : Row) (rest : Bits) → HasKind encoding is_two
        → here reader.now ≡ part_by_procedure encoding fills is_two reference row ++ rest → is_two ≡ result }
    ensures counts { ticks.old ≤ ticks.new }
    ensures at_most { ticks.new ≤ ticks.old + looked (here reader.now) }
{
    match encoding {
        EncodingMode::Group4 => true,
        EncodingMode::Group3_1D => false,
        EncodingMode::Group3_2D => {
            let (zeros, _after) = reader.zero_run(ticks);
            zeros > 0
        }
    }
}

/// Consumes what is before a line: an EOL, if lines have EOLs, with no fill before the first one (T.4, 4.1.2 and 4.1.3). That one is
/// known to be here, with some fill or none.
fn pass_lead(
    has_eols: bool,
    taken: u64,
    reader: &mut BitReader<'_>,
    ticks: &mut Ticks,
) -> Result<(), Stop>
    ensures found { OnOk result (LeadStands has_eols taken (here reader.old) (here reader.new)) }
    ensures none { IfErr result (λ e. IsBroken e → (rest : Bits) → LeadStands has_eols taken (here reader.old) rest → ⊥) }
    ensures at { IfErr result (LeadEndsAt has_eols taken reader.old) }
    ensures same_bits { reader.new.bits ≡ reader.old.bits }
    ensures pays { IsPaid result ticks.old ticks.new (length (here reader.old)) (λ done. length (here reader.new)) }
{
    let place = reader.bit_pos();
    if !has_eols {
        return Ok(());
    }
    if taken > 0 {
        if pass_eol(reader, ticks) {
            return Ok(());
        }
        return broken(place, Rule::Eol);
    }
    match after_plain_eol(reader, ticks) {
        Some(after) => {
            *reader = after;
            Ok(())
        }
        None => broken(place, Rule::Fill),
    }
}

/// Returns whether zeros up to a whole byte follow each line: if lines are aligned, and have no EOLs (T.4, 4.1.3).
fn is_filled(asked: Asked) -> bool
    ensures { result ≡ (asked.settings.rows_are_byte_aligned && not asked.has_eols) }
{
    asked.settings.rows_are_byte_aligned && !asked.has_eols
}

/// Consumes the line of a row, if it is here as the coding procedure writes it.
fn pass_line(
    reader: &mut BitReader<'_>,
    asked: Asked,
    is_two: bool,
    rows: RowBelow<'_>,
    ticks: &mut Ticks,
) -> Result<(), Stop>
    requires reference { AreChanges asked.settings.columns rows.reference.now }
    requires changes { AreChanges asked.settings.columns rows.changes.now }
    ensures passes { PassesPart (part_of asked.settings asked.has_eols is_two (pixels asked.settings.columns rows.entry.reference.now)
        (pixels asked.settings.columns rows.entry.changes.now)) (here reader.old) (here reader.new) result }
    ensures at { IfErr result (PartEndsAt (part_of asked.settings asked.has_eols is_two
        (pixels asked.settings.columns rows.entry.reference.now) (pixels asked.settings.columns rows.entry.changes.now)) reader.old) }
    ensures same_bits { reader.new.bits ≡ reader.old.bits }
    ensures pays { IsPaid result ticks.old ticks.new (length rows.entry.reference.now + 2 * length (here reader.old) + 3)
        (λ done. 2 * length (here reader.new)) }
{
    let kind = LineKind {
        encoding: asked.settings.encoding,
        is_two_dimensional: is_two,
        is_filled: is_filled(asked),
    };
    if pass_line_by_procedure(reader, asked.settings.columns, kind, rows, ticks) {
        // The range of a place is known once it is read.
        let _end = reader.bit_pos();
        return Ok(());
    }
    broken(reader.bit_pos(), Rule::Procedure)
}

/// Reads the next line, if it is one that the coding procedure writes and that may come next, and leaves the changes of its row.
/// Returns whether it is two-dimensional.
fn draw_part(
    words: &mut Words,
    reader: &mut BitReader<'_>,
    asked: Asked,
    left: Option<u32>,
    reference: &[u32],
    coding: &mut Vec<u32>,
) -> Result<bool, Stop>
    requires wide { 0 < asked.settings.columns }
    requires reference { AreChanges asked.settings.columns reference.now }
    requires unlimited { asked.settings.encoding ≡ Group4 → left ≡ None }
    ensures reads { ReadsPart asked.settings (PartStands asked.settings asked.has_eols left (pixels asked.settings.columns reference.now)
        (here reader.old)) coding.new.items (here reader.old) (here reader.new) result }
    ensures at { IfErr result (LineEndsAt asked.settings asked.has_eols left (pixels asked.settings.columns reference.now)
        reader.old) }
    ensures fit { length reader.old.bits + 64 < 2 ^ 64 }
    ensures same_bits { reader.new.bits ≡ reader.old.bits }
    ensures pays { IsPaid result words.old.ticks words.new.ticks (2 * length reference.now + 10 * length (here reader.old) + 3)
        (λ is_two. 2 * length coding.new.items + 10 * length (here reader.new) + 3) }
{
    // The range of a number is known once it is read.
    let _columns = asked.settings.columns;
    let start = reader.bit_pos();
    let is_two = next_is_two(asked.settings.encoding, reader, &mut words.ticks);
    if !may_come(left, is_two) {
        return broken(start, Rule::Kind);
    }
    let mut line = copy(reader);
    draw_line(words, &mut line, asked.settings, reference, coding)?;
    let rows = RowBelow {
        reference,
        changes: coding.as_slice(),
    };
    match pass_line(reader, asked, is_two, rows, &mut words.ticks) {
        Ok(()) => Ok(is_two),
        Err(stop) => Err(stop),
    }
}

/// Returns a reader after the EOL without fill that is here, and its tag, if there is one (T.4, 4.1.4 and 4.2.4).
fn after_plain_tagged_eol<'a>(
    encoding: EncodingMode,
    reader: &BitReader<'a>,
    ticks: &mut Ticks,
) -> Option<BitReader<'a>>
    ensures found { IfSome result (λ after. here reader.now ≡ eol 0 ++ (tag_of encoding ++ here after)) }
    ensures none { IfNone result ((rest : Bits) → here reader.now ≡ eol 0 ++ (tag_of encoding ++ rest) → ⊥) }
    ensures same_bits { IfSome result (λ after. after.bits ≡ reader.now.bits) }
    ensures counts { ticks.old ≤ ticks.new }
    ensures at_most { ticks.new ≤ ticks.old + looked (here reader.now) + length (tag_of encoding) }
    ensures no_eol { after_eol 0 (here reader.now) ≡ None → ticks.new ≤ ticks.old + looked (here reader.now) }
{
    match after_plain_eol(reader, ticks) {
        Some(mut after) => {
            if pass_closing_tag(encoding, &mut after, ticks) {
                Some(after)
            } else {
                None
            }
        }
        None => None,
    }
}

/// Returns a reader after the RTC that is here with no fill between its EOLs, if there is one (T.4, 4.1.4 and 4.2.4).
fn after_plain_rtc<'a>(
    encoding: EncodingMode,
    reader: &BitReader<'a>,
    ticks: &mut Ticks,
) -> Option<BitReader<'a>>
    ensures found { IfSome result (λ after. (rest : Bits) → PlainRtcStands encoding (here reader.now) rest ↔ (here after ≡ rest)) }
    ensures none { IfNone result ((rest : Bits) → PlainRtcStands encoding (here reader.now) rest → ⊥) }
    ensures same_bits { IfSome result (λ after. after.bits ≡ reader.now.bits) }
    ensures looks { LooksForEnd encoding (here reader.now) ticks.old ticks.new }
    ensures pays { IfSome result (λ after. ticks.new + length (here after) ≤ ticks.old + length (here reader.now)) }
{
    let Some(mut next) = after_tagged_eol(encoding, reader, ticks) else {
        return None;
    };
    let mut left: usize = 5;
    'eols: while left > 0 {
        match after_plain_tagged_eol(encoding, &next, ticks) {
            Some(after) => next = after,
            None => return None,
        }
        left -= 1;
    }
    Some(next)
}

/// Returns a reader after the end of the block that is here after this number of rows, if there is one: EOFB, or RTC after some
/// row (T.6, 2.4.1.1; T.4, 4.1.4).
fn after_closing<'a>(
    encoding: EncodingMode,
    taken: u64,
    reader: &BitReader<'a>,
    ticks: &mut Ticks,
) -> Option<BitReader<'a>>
    ensures found { IfSome result (λ after. (rest : Bits) → ClosingStands encoding taken (here reader.now) rest ↔ (here after ≡ rest)) }
    ensures none { IfNone result ((rest : Bits) → ClosingStands encoding taken (here reader.now) rest → ⊥) }
    ensures same_bits { IfSome result (λ after. after.bits ≡ reader.now.bits) }
    ensures looks { LooksForEnd encoding (here reader.now) ticks.old ticks.new }
    ensures pays { IfSome result (λ after. ticks.new + length (here after) ≤ ticks.old + length (here reader.now)) }
{
    match encoding {
        EncodingMode::Group4 => match after_plain_eol(reader, ticks) {
            Some(after) => after_plain_eol(&after, ticks),
            None => None,
        },
        EncodingMode::Group3_1D | EncodingMode::Group3_2D => {
            if taken == 0 {
                return None;
            }
            after_plain_rtc(encoding, reader, ticks)
        }
    }
}

/// Returns whether fewer than eight zeros are all that is left.
fn has_few_zeros(reader: &BitReader<'_>, ticks: &mut Ticks) -> bool
    ensures stands { IsTrue result ↔ FewZerosStand (here reader.now) }
    ensures ticks { ticks.new ≡ ticks.old + looked (here reader.now) }
{
    let (zeros, after) = reader.zero_run(ticks);
    zeros < 8 && after.is_none()
}

/// Returns whether an end of the block is to follow the lines.
fn is_closed(asked: Asked) -> bool
    ensures { result ≡ is_closed asked.settings.encoding asked.has_eols asked.settings.end_of_block }
{
    match asked.settings.encoding {
        EncodingMode::Group4 => asked.settings.end_of_block,
        EncodingMode::Group3_1D | EncodingMode::Group3_2D => {
            asked.has_eols && asked.settings.end_of_block
        }
    }
}

/// Returns whether the row limit, if there is one, allows this number of rows.
fn is_allowed(settings: DecodeSettings, taken: u64) -> bool
    ensures { IsTrue result ↔ Allows settings taken }
{
    settings.rows == 0 || taken <= u64::from(settings.rows)
}

/// Returns whether the end of the block is here after this number of rows, and then the end of the data.
fn closes_here(asked: Asked, taken: u64, reader: &BitReader<'_>, ticks: &mut Ticks) -> bool
    ensures stands { IsTrue result ↔ ((rest : Bits) × EndStands true asked.settings taken (here reader.now) rest × FewZerosStand rest) }
    ensures looks { LooksForEnd asked.settings.encoding (here reader.now) ticks.old ticks.new }
{
    if !is_allowed(asked.settings, taken) {
        return false;
    }
    match after_closing(asked.settings.encoding, taken, reader, ticks) {
        Some(after) => has_few_zeros(&after, ticks),
        None => false,
    }
}

/// Returns whether the picture ends here after this number of rows, and then the data.
fn ends_here(asked: Asked, taken: u64, reader: &BitReader<'_>, ticks: &mut Ticks) -> bool
    ensures stands { IsTrue result ↔ EndsHere asked.settings asked.has_eols taken (here reader.now) }
    ensures looks { LooksForEnd asked.settings.encoding (here reader.now) ticks.old ticks.new }
{
    if is_closed(asked) {
        return closes_here(asked, taken, reader, ticks);
    }
    limit_met(asked.settings, taken) && has_few_zeros(reader, ticks)
}

/// Returns where the EOL that is here with fill begins, if one is.
fn filled_eol(reader: &BitReader<'_>, ticks: &mut Ticks) -> Option<Violation>
    ensures found { IfSome result (λ found. IsAt Rule.Fill reader.now found × FilledEolStands (here reader.now)) }
    ensures none { IfNone result (FilledEolStands (here reader.now) → ⊥) }
    ensures counts { ticks.old ≤ ticks.new }
    ensures at_most { ticks.new ≤ ticks.old + 2 * length (here reader.now) }
{
    let place = reader.bit_pos();
    if after_plain_eol(reader, ticks).is_some() {
        return None;
    }
    if !has_eol(reader, ticks) {
        return None;
    }
    Some(Violation {
        place,
        rule: Rule::Fill,
    })
}

/// Returns where fill is in the RTC that is here, after its first EOL (T.4, 4.1.3 and 4.1.4).
fn fill_in_rtc(
    encoding: EncodingMode,
    reader: &BitReader<'_>,
    ticks: &mut Ticks,
) -> Option<Violation>
    ensures found { IfSome result (FillInRtc encoding reader.now) }
    ensures none { IfNone result (EolsStand encoding 6 (here reader.now) → (rest : Bits) × PlainRtcStands encoding (here reader.now) rest) }
    ensures counts { ticks.old ≤ ticks.new }
    ensures at_most { ticks.new ≤ ticks.old + 3 * length (here reader.now) + 1 }
{
    let Some(mut next) = after_tagged_eol(encoding, reader, ticks) else {
        return None;
    };
    let mut others: usize = 5;
    'eols: while others > 0 {
        match after_plain_tagged_eol(encoding, &next, ticks) {
            Some(after) => next = after,
            None => return filled_eol(&next, ticks),
        }
        others -= 1;
    }
    None
}

/// Returns what is wrong with the end of the block that is here after this number of rows, if there is one: what follows it, or
/// fill in RTC.
fn wrong_closing(
    asked: Asked,
    taken: u64,
    reader: &BitReader<'_>,
    ticks: &mut Ticks,
) -> Option<Violation>
    ensures found { IfSome result (ClosingDeparts asked.settings asked.has_eols taken reader.now) }
    ensures none { IfNone result (NoClosing asked.settings asked.has_eols taken (here reader.now)) }
    ensures counts { ticks.old ≤ ticks.new }
    ensures at_most { ticks.new ≤ ticks.old + 4 * length (here reader.now) + 2 }
{
    if !is_closed(asked) {
        return None;
    }
    let encoding = asked.settings.encoding;
    if let Some(after) = after_closing(encoding, taken, reader, ticks) {
        return Some(Violation {
            place: after.bit_pos(),
            rule: Rule::End,
        });
    }
    match encoding {
        EncodingMode::Group3_1D | EncodingMode::Group3_2D if taken > 0 => {
            fill_in_rtc(encoding, reader, ticks)
        }
        _ => None,
    }
}

/// Returns the stop where lines don't go on in this way, or where the end of the block that is here is wrong.
fn stop_here(
    asked: Asked,
    taken: u64,
    reader: &BitReader<'_>,
    ticks: &mut Ticks,
    stop: Stop,
) -> Stop
    ensures broken { IsBroken result → IsBroken stop }
    ensures at { ClosesOr asked.settings asked.has_eols taken reader.now stop result }
    ensures counts { ticks.old ≤ ticks.new }
    ensures at_most { ticks.new ≤ ticks.old + 4 * length (here reader.now) + 2 }
{
    match stop {
        Stop::OutOfMemory => Stop::OutOfMemory,
        Stop::Violation(found) => match wrong_closing(asked, taken, reader, ticks) {
            Some(other) => Stop::Violation(other),
            None => Stop::Violation(found),
        },
    }
}

/// Returns the stop where a picture ends after as many rows as the row limit, and its end is wrong.
fn stop_at_limit(asked: Asked, taken: u64, reader: &BitReader<'_>, ticks: &mut Ticks) -> Stop
    ensures at { EndsAtLimit asked.settings asked.has_eols taken reader.now result }
    ensures counts { ticks.old ≤ ticks.new }
    ensures at_most { ticks.new ≤ ticks.old + 4 * length (here reader.now) + 2 }
{
    let place = reader.bit_pos();
    match wrong_closing(asked, taken, reader, ticks) {
        Some(found) => Stop::Violation(found),
        None => Stop::Violation(Violation {
            place,
            rule: Rule::End,
        }),
    }
}

/// Returns the same with an EOL before each line.
pub fn with_eols(asked: Asked) -> Asked
    ensures { result ≡ record asked { has_eols = true } }
{
    Asked {
        alloc: asked.alloc,
        settings: asked.settings,
        k: asked.k,
        has_eols: true,
    }
}

/// Reads lines by the coding procedure up to their end and that of the data, if they are here (T.4, 4.1 and 4.2; T.6, 2).
pub fn are_by_procedure(
    words: &mut Words,
    reader: &mut BitReader<'_>,
    asked: Asked,
) -> Result<(), Stop>
    requires wide { 0 < asked.settings.columns }
    requires start { reader.old.place ≡ 0 }
    requires eols { asked.has_eols ≡ true → asked.settings.encoding ≢ Group4 }
    requires readable { ReadableFrom asked.settings asked.has_eols 0 (white_row asked.settings.columns) (here reader.old) }
    ensures at { IfErr result (EndsAfterLines asked.settings asked.k asked.has_eols reader.old.bits) }
    ensures checks { Checks (LinesByProcedure asked.settings asked.k asked.has_eols 0 (left_at_first asked.settings.encoding)
        (white_row asked.settings.columns) (here reader.old)) result }
    ensures counts { words.old.ticks ≤ words.new.ticks }
    ensures at_most { words.new.ticks ≤ words.old.ticks + 16 * length (here reader.old) + 20 }
{
    // The range of a number is known once it is read.
    let _columns = asked.settings.columns;
    let mut reference = Vec::new(asked.alloc);
    let mut coding = Vec::new(asked.alloc);
    let mut taken = 0;
    let mut left = left_at_first(asked.settings.encoding);
    'rows: loop {
        if ends_here(asked, taken, reader, &mut words.ticks) {
            return Ok(());
        }
        if limit_met(asked.settings, taken) {
            return Err(stop_at_limit(asked, taken, reader, &mut words.ticks));
        }
        let start = copy(reader);
        if let Err(stop) = pass_lead(asked.has_eols, taken, reader, &mut words.ticks) {
            return Err(stop_here(asked, taken, &start, &mut words.ticks, stop));
        }
        let drawn = draw_part(
            words,
            reader,
            asked,
            left,
            reference.as_slice(),
            &mut coding,
        );
        match drawn {
            Ok(is_two) => {
                mem::swap(&mut reference, &mut coding);
                taken += 1;
                left = left_after(asked.k, left, is_two);
            }
            Err(stop) => return Err(stop_here(asked, taken, &start, &mut words.ticks, stop)),
        }
    }
}
