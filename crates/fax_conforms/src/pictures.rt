//! Pictures: lines in order, and how they end.

ghost use Rattle.std.specs.Prelude.{◌≡◌, ◌+◌, ◌*◌, ◌<◌, ◌≤◌, ◌%◌, ◌++◌, ◌∷◌, ◌^◌, ◌↔◌, false, true, OnOk, IfErr, IfSome, IfNone};
ghost use Rattle.std.specs.Prelude.{IsTrue, None, [], length};
ghost use Rattle.hayro_ccitt.specs.Bits.{Bits, here};
ghost use Rattle.hayro_ccitt.specs.EncodingMode.TheVariants.{Group3_2D};
ghost use Rattle.hayro_ccitt.specs.Encodings.{eol, padding, tag_of};
ghost use Rattle.hayro_ccitt.specs.EndOfLine.{after_eol};
ghost use Rattle.hayro_ccitt.specs.Pictures.{Allows};
ghost use Rattle.hayro_ccitt.specs.Rows.{AreChanges, pixels, white_row};
ghost use Rattle.hayro_ccitt.specs.Ticks.{looked};
ghost use Rattle.fax_conforms.specs.Conforming.{EofbStands, SeeksEofb, TwoEolsStand, BodyStands, FilledStands, fill_at};
ghost use Rattle.fax_conforms.specs.Conforming.{EolStands, TaggedEolStands, EolsStand, RtcStands};
ghost use Rattle.fax_conforms.specs.Conforming.{EolLineStands, LinesStand};
ghost use Rattle.fax_conforms.specs.Standing.{LineStands};
ghost use Rattle.fax_conforms.specs.Stops.{EndsInLine, IsBroken, LineOfPicture, ReadsLine};
ghost use Rattle.fax_conforms.specs.Work.{IsPaid, fund};

use crate::lines::{draw_line_1d, draw_line_2d};
use crate::stops::{Rule, Stop, broken};
use crate::words::Words;
use hayro_ccitt::bit_reader::BitReader;
use hayro_ccitt::codes::Ticks;
use hayro_ccitt::{DecodeSettings, EncodingMode};
use std::mem;

/// Reads the tag of a line of two-dimensional Group 3, and the line (T.4, 4.2.2).
fn draw_tagged_line(
    words: &mut Words,
    reader: &mut BitReader<'_>,
    columns: u32,
    reference: &[u32],
    coding: &mut Vec<u32>,
) -> Result<(), Stop>
    requires wide { 0 < columns }
    requires reference { AreChanges columns reference.now }
    ensures reads { ReadsLine columns
        (λ here row rest. LineStands Group3_2D (pixels columns reference.now) row here rest)
        coding.new.items (here reader.old) (here reader.new) reader.old.bits result }
    ensures same_bits { reader.new.bits ≡ reader.old.bits }
    ensures pays { IsPaid result words.old.ticks words.new.ticks
        (fund (length reference.now) [] (here reader.old)) (λ done. fund 0 coding.new.items (here reader.new)) }
{
    let place = reader.bit_pos();
    words.ticks.tick();
    match reader.read_bit() {
        Ok(0) => draw_line_2d(words, reader, columns, reference, coding),
        Ok(_) => draw_line_1d(words, reader, columns, coding),
        Err(_) => broken(place, Rule::Tag),
    }
}

/// Reads a line of the encoding, and leaves the changes of its row (T.4, 4.1 and 4.2; T.6, 2.2).
pub fn draw_line(
    words: &mut Words,
    reader: &mut BitReader<'_>,
    settings: DecodeSettings,
    reference: &[u32],
    coding: &mut Vec<u32>,
) -> Result<(), Stop>
    requires wide { 0 < settings.columns }
    requires reference { AreChanges settings.columns reference.now }
    ensures reads { ReadsLine settings.columns
        (λ here row rest. LineStands settings.encoding (pixels settings.columns reference.now) row here rest)
        coding.new.items (here reader.old) (here reader.new) reader.old.bits result }
    ensures same_bits { reader.new.bits ≡ reader.old.bits }
    ensures pays { IsPaid result words.old.ticks words.new.ticks
        (fund (length reference.now) [] (here reader.old)) (λ done. fund 0 coding.new.items (here reader.new)) }
{
    let columns = settings.columns;
    match settings.encoding {
        EncodingMode::Group4 => draw_line_2d(words, reader, columns, reference, coding),
        EncodingMode::Group3_1D => draw_line_1d(words, reader, columns, coding),
        EncodingMode::Group3_2D => draw_tagged_line(words, reader, columns, reference, coding),
    }
}

/// Returns whether there are as many rows as the row limit, if there is one.
pub fn limit_met(settings: DecodeSettings, taken: u64) -> bool
    ensures met { result ≡ true → (settings.rows ≡ taken) × (0 < taken) }
    ensures unmet { result ≡ false → settings.rows ≡ taken → 0 < taken → ⊥ }
    ensures allows { result ≡ false → Allows settings taken → Allows settings (taken + 1) }
{
    settings.rows != 0 && u64::from(settings.rows) == taken
}

/// Returns a reader after the EOL without fill that is here, if there is one (T.4, 4.1.2).
pub fn after_plain_eol<'a>(reader: &BitReader<'a>, ticks: &mut Ticks) -> Option<BitReader<'a>>
    ensures found { IfSome result (λ after. here reader.now ≡ eol 0 ++ here after) }
    ensures none { IfNone result ((rest : Bits) → here reader.now ≡ eol 0 ++ rest → ⊥) }
    ensures same_bits { IfSome result (λ after. after.bits ≡ reader.now.bits) }
    ensures ticks { ticks.new ≡ ticks.old + looked (here reader.now) }
{
    let (zeros, after) = reader.zero_run(ticks);
    if zeros == 11 {
        return after;
    }
    None
}

/// Returns whether two EOLs without fill are here (T.6, 2.4.1.1).
fn has_two_eols(reader: &BitReader<'_>, ticks: &mut Ticks) -> bool
    ensures stands { IsTrue result ↔ TwoEolsStand (here reader.now) }
    ensures counts { ticks.old ≤ ticks.new }
    ensures work { after_eol 0 (here reader.now) ≡ None → ticks.new ≤ ticks.old + looked (here reader.now) }
    ensures at_most { ticks.new ≤ ticks.old + length (here reader.now) }
{
    match after_plain_eol(reader, ticks) {
        Some(after) => after_plain_eol(&after, ticks).is_some(),
        None => false,
    }
}

/// Returns whether the settings look for EOFB (T.6, 2.4.1.1).
fn seeks_eofb(settings: DecodeSettings) -> bool
    ensures { IsTrue result ↔ SeeksEofb settings }
{
    settings.end_of_block && matches!(settings.encoding, EncodingMode::Group4)
}

/// Returns whether EOFB is here, and the settings look for it (T.6, 2.4.1.1).
fn is_eofb(settings: DecodeSettings, reader: &BitReader<'_>, ticks: &mut Ticks) -> bool
    ensures stands { IsTrue result ↔ EofbStands settings (here reader.now) }
    ensures counts { ticks.old ≤ ticks.new }
    ensures work { after_eol 0 (here reader.now) ≡ None → ticks.new ≤ ticks.old + looked (here reader.now) }
    ensures at_most { ticks.new ≤ ticks.old + length (here reader.now) }
{
    seeks_eofb(settings) && has_two_eols(reader, ticks)
}

/// Consumes a zero if it is next, and returns whether it is; otherwise the offset is unspecified.
fn pass_zero(reader: &mut BitReader<'_>) -> bool
    ensures zero { result ≡ true → here reader.old ≡ false ∷ here reader.new }
    ensures place { result ≡ true → reader.new.place ≡ reader.old.place + 1 }
    ensures none { result ≡ false → (rest : Bits) → here reader.old ≡ false ∷ rest → ⊥ }
    ensures same_bits { reader.new.bits ≡ reader.old.bits }
{
    match reader.read_bit() {
        Ok(bit) => bit == 0,
        Err(_) => false,
    }
}

/// Consumes zeros up to a whole byte, and returns whether there are as many (T.4, 4.1.3).
fn pass_padding(reader: &mut BitReader<'_>, ticks: &mut Ticks) -> bool
    ensures padding { result ≡ true → (rest : Bits) → (here reader.old ≡ padding reader.old.place ++ rest) ↔
        (here reader.new ≡ rest) }
    ensures whole { result ≡ true → reader.new.place % 8 ≡ 0 }
    ensures none { result ≡ false → (rest : Bits) → here reader.old ≡ padding reader.old.place ++ rest → ⊥ }
    ensures same_bits { reader.new.bits ≡ reader.old.bits }
    ensures counts { ticks.old ≤ ticks.new }
    ensures at_most { ticks.new ≤ ticks.old + length (padding reader.old.place) }
{
    let mut left = (8 - reader.bit_pos() % 8) % 8;
    'zeros: while left > 0 {
        ticks.tick();
        if !pass_zero(reader) {
            return false;
        }
        left -= 1;
    }
    true
}

/// Consumes the padding after a line where lines are aligned, and returns whether it is there (T.4, 4.1.3).
fn pass_fill(aligned: bool, reader: &mut BitReader<'_>, ticks: &mut Ticks) -> bool
    ensures fill { result ≡ true → (rest : Bits) → (here reader.old ≡ fill_at aligned reader.old.place ++ rest) ↔
        (here reader.new ≡ rest) }
    ensures whole { result ≡ true → aligned ≡ true → reader.new.place % 8 ≡ 0 }
    ensures none { result ≡ false → (rest : Bits) → here reader.old ≡ fill_at aligned reader.old.place ++ rest → ⊥ }
    ensures same_bits { reader.new.bits ≡ reader.old.bits }
    ensures counts { ticks.old ≤ ticks.new }
    ensures at_most { ticks.new ≤ ticks.old + length (fill_at aligned reader.old.place) }
    ensures few { ticks.new ≤ ticks.old + 7 }
{
    if aligned {
        return pass_padding(reader, ticks);
    }
    true
}

/// Reads the next line and what fills it up to a whole byte, and leaves the changes of its row.
fn draw_filled_line(
    words: &mut Words,
    reader: &mut BitReader<'_>,
    settings: DecodeSettings,
    reference: &[u32],
    coding: &mut Vec<u32>,
) -> Result<(), Stop>
    requires wide { 0 < settings.columns }
    requires reference { AreChanges settings.columns reference.now }
    requires whole { settings.rows_are_byte_aligned ≡ true → reader.old.place % 8 ≡ 0 }
    ensures reads { ReadsLine settings.columns
        (LineOfPicture settings false (pixels settings.columns reference.now))
        coding.new.items (here reader.old) (here reader.new) reader.old.bits result }
    ensures whole { OnOk result (settings.rows_are_byte_aligned ≡ true → reader.new.place % 8 ≡ 0) }
    ensures shorter { OnOk result (length (here reader.new) < length (here reader.old)) }
    ensures same_bits { reader.new.bits ≡ reader.old.bits }
    ensures pays { IsPaid result words.old.ticks words.new.ticks
        (fund (length reference.now) [] (here reader.old)) (λ done. fund 0 coding.new.items (here reader.new)) }
{
    // The range of a number is known once it is read.
    let _columns = settings.columns;
    let _start = reader.bit_pos();
    draw_line(words, reader, settings, reference, coding)?;
    let place = reader.bit_pos();
    if !pass_fill(settings.rows_are_byte_aligned, reader, &mut words.ticks) {
        return broken(place, Rule::Padding);
    }
    Ok(())
}

/// Reads lines without EOLs up to their end: by the row limit, or by EOFB (T.4, 4.1.1 and 4.2.1; T.6, 2.2 and 2.4.1.1).
pub fn read_body(
    words: &mut Words,
    reader: &mut BitReader<'_>,
    settings: DecodeSettings,
    reference: &mut Vec<u32>,
    coding: &mut Vec<u32>,
) -> Result<(), Stop>
    requires wide { 0 < settings.columns }
    requires start { reader.old.place ≡ 0 }
    ensures stands { OnOk result (BodyStands settings 0 (white_row settings.columns) (here reader.old)) }
    ensures none { IfErr result (λ e. IsBroken e → BodyStands settings 0 (white_row settings.columns) (here reader.old) → ⊥) }
    ensures at { IfErr result (EndsInLine settings false reader.old.bits (here reader.old)) }
    ensures counts { words.old.ticks ≤ words.new.ticks }
    ensures at_most { words.new.ticks ≤ words.old.ticks + 5 * length (here reader.old) + 7 }
{
    // The range of a number is known once it is read.
    let _start = reader.bit_pos();
    reference.clear();
    let mut taken = 0;
    'rows: loop {
        if limit_met(settings, taken) || is_eofb(settings, reader, &mut words.ticks) {
            return Ok(());
        }
        draw_filled_line(words, reader, settings, reference.as_slice(), coding)?;
        mem::swap(reference, coding);
        taken += 1;
    }
}

/// Returns a reader after the EOL that is here with its fill, if there is one (T.4, 4.1.2 and 4.1.3).
fn following_eol<'a>(reader: &BitReader<'a>, ticks: &mut Ticks) -> Option<BitReader<'a>>
    ensures found { IfSome result (λ after. EolStands (here reader.now) (here after)) }
    ensures none { IfNone result ((rest : Bits) → EolStands (here reader.now) rest → ⊥) }
    ensures same_bits { IfSome result (λ after. after.bits ≡ reader.now.bits) }
    ensures ticks { ticks.new ≡ ticks.old + looked (here reader.now) }
{
    let (zeros, after) = reader.zero_run(ticks);
    if zeros < 11 {
        return None;
    }
    after
}

/// Returns whether a tag of 1 is here, or needn't be, and consumes it (T.4, 4.2.4).
pub fn pass_closing_tag(
    encoding: EncodingMode,
    reader: &mut BitReader<'_>,
    ticks: &mut Ticks,
) -> bool
    ensures tag { result ≡ true → here reader.old ≡ tag_of encoding ++ here reader.new }
    ensures none { result ≡ false → (rest : Bits) → here reader.old ≡ tag_of encoding ++ rest → ⊥ }
    ensures same_bits { reader.new.bits ≡ reader.old.bits }
    ensures ticks { ticks.new ≡ ticks.old + length (tag_of encoding) }
{
    match encoding {
        EncodingMode::Group3_2D => {
            ticks.tick();
            match reader.read_bit() {
                Ok(bit) => bit == 1,
                Err(_) => false,
            }
        }
        EncodingMode::Group3_1D | EncodingMode::Group4 => true,
    }
}

/// Returns a reader after the EOL of RTC that is here, and its tag, if there is one (T.4, 4.1.4 and 4.2.4).
pub fn after_tagged_eol<'a>(
    encoding: EncodingMode,
    reader: &BitReader<'a>,
    ticks: &mut Ticks,
) -> Option<BitReader<'a>>
    ensures found { IfSome result (λ after. TaggedEolStands encoding (here reader.now) (here after)) }
    ensures none { IfNone result ((rest : Bits) → TaggedEolStands encoding (here reader.now) rest → ⊥) }
    ensures same_bits { IfSome result (λ after. after.bits ≡ reader.now.bits) }
    ensures counts { ticks.old ≤ ticks.new }
    ensures at_most { ticks.new ≤ ticks.old + looked (here reader.now) + length (tag_of encoding) }
    ensures no_eol { after_eol 0 (here reader.now) ≡ None → ticks.new ≤ ticks.old + looked (here reader.now) }
{
    match following_eol(reader, ticks) {
        Some(mut after) => {
            if pass_closing_tag(encoding, &mut after, ticks) {
                Some(after)
            } else {
                None
            }
        }
        None => None,
    }
}

/// Returns whether six EOLs are here, each with its tag (T.4, 4.1.4 and 4.2.4).
fn has_six_eols(encoding: EncodingMode, reader: &BitReader<'_>, ticks: &mut Ticks) -> bool
    ensures stands { IsTrue result ↔ EolsStand encoding 6 (here reader.now) }
    ensures counts { ticks.old ≤ ticks.new }
    ensures none { ((rest : Bits) → TaggedEolStands encoding (here reader.now) rest → ⊥)
        → ticks.new ≤ ticks.old + looked (here reader.now) + length (tag_of encoding) }
    ensures one { (rest : Bits) → TaggedEolStands encoding (here reader.now) rest → after_eol 0 rest ≡ None
        → ticks.new ≤ ticks.old + looked (here reader.now) + length (tag_of encoding) + looked rest }
    ensures at_most { ticks.new ≤ ticks.old + length (here reader.now) + 1 }
{
    let Some(mut next) = after_tagged_eol(encoding, reader, ticks) else {
        return false;
    };
    let mut left: usize = 5;
    'eols: while left > 0 {
        match after_tagged_eol(encoding, &next, ticks) {
            Some(after) => next = after,
            None => return false,
        }
        left -= 1;
    }
    true
}

/// Returns whether RTC is here after some row, and the settings look for it (T.4, 4.1.4).
fn is_rtc(settings: DecodeSettings, taken: u64, reader: &BitReader<'_>, ticks: &mut Ticks) -> bool
    ensures stands { IsTrue result ↔ RtcStands settings taken (here reader.now) }
    ensures counts { ticks.old ≤ ticks.new }
    ensures none { ((rest : Bits) → TaggedEolStands settings.encoding (here reader.now) rest → ⊥)
        → ticks.new ≤ ticks.old + looked (here reader.now) + length (tag_of settings.encoding) }
    ensures one { (rest : Bits) → TaggedEolStands settings.encoding (here reader.now) rest → after_eol 0 rest ≡ None
        → ticks.new ≤ ticks.old + looked (here reader.now) + length (tag_of settings.encoding) + looked rest }
    ensures at_most { ticks.new ≤ ticks.old + length (here reader.now) + 1 }
{
    settings.end_of_block && taken > 0 && has_six_eols(settings.encoding, reader, ticks)
}

/// Consumes the EOL that is here with its fill, and returns whether there is one (T.4, 4.1.2 and 4.1.3).
pub fn pass_eol(reader: &mut BitReader<'_>, ticks: &mut Ticks) -> bool
    ensures found { result ≡ true → EolStands (here reader.old) (here reader.new) }
    ensures none { result ≡ false → (rest : Bits) → EolStands (here reader.old) rest → ⊥ }
    ensures same_bits { reader.new.bits ≡ reader.old.bits }
    ensures ticks { ticks.new ≡ ticks.old + looked (here reader.old) }
{
    match following_eol(reader, ticks) {
        Some(after) => {
            *reader = after;
            true
        }
        None => false,
    }
}

/// Reads the EOL before a line and the line, and leaves the changes of its row (T.4, 4.1.2).
fn draw_line_following_eol(
    words: &mut Words,
    reader: &mut BitReader<'_>,
    settings: DecodeSettings,
    reference: &[u32],
    coding: &mut Vec<u32>,
) -> Result<(), Stop>
    requires wide { 0 < settings.columns }
    requires reference { AreChanges settings.columns reference.now }
    ensures reads { ReadsLine settings.columns
        (LineOfPicture settings true (pixels settings.columns reference.now))
        coding.new.items (here reader.old) (here reader.new) reader.old.bits result }
    ensures shorter { OnOk result (length (here reader.new) < length (here reader.old)) }
    ensures same_bits { reader.new.bits ≡ reader.old.bits }
    ensures pays { IsPaid result words.old.ticks words.new.ticks
        (fund (length reference.now) [] (here reader.old)) (λ done. fund 0 coding.new.items (here reader.new)) }
{
    // The range of a number is known once it is read.
    let _columns = settings.columns;
    let place = reader.bit_pos();
    if !pass_eol(reader, &mut words.ticks) {
        return broken(place, Rule::Eol);
    }
    draw_line(words, reader, settings, reference, coding)
}

/// Reads lines up to their end, each after an EOL: by the row limit, or by RTC (T.4, 4.1.2 and 4.1.4).
pub fn read_lines(
    words: &mut Words,
    reader: &mut BitReader<'_>,
    settings: DecodeSettings,
    reference: &mut Vec<u32>,
    coding: &mut Vec<u32>,
) -> Result<(), Stop>
    requires wide { 0 < settings.columns }
    ensures stands { OnOk result (LinesStand settings 0 (white_row settings.columns) (here reader.old)) }
    ensures none { IfErr result (λ e. IsBroken e → LinesStand settings 0 (white_row settings.columns) (here reader.old) → ⊥) }
    ensures at { IfErr result (EndsInLine settings true reader.old.bits (here reader.old)) }
    ensures counts { words.old.ticks ≤ words.new.ticks }
    ensures at_most { words.new.ticks ≤ words.old.ticks + 5 * length (here reader.old) + 8 }
{
    // The range of a number is known once it is read.
    let _start = reader.bit_pos();
    reference.clear();
    let mut taken = 0;
    'rows: loop {
        if limit_met(settings, taken) || is_rtc(settings, taken, reader, &mut words.ticks) {
            return Ok(());
        }
        draw_line_following_eol(words, reader, settings, reference.as_slice(), coding)?;
        mem::swap(reference, coding);
        taken += 1;
    }
}

/// Returns whether an EOL is here, with its fill (T.4, 4.1.2 and 4.1.3).
pub fn has_eol(reader: &BitReader<'_>, ticks: &mut Ticks) -> bool
    ensures found { result ≡ true → (rest : Bits) × EolStands (here reader.now) rest }
    ensures none { result ≡ false → (rest : Bits) → EolStands (here reader.now) rest → ⊥ }
    ensures ticks { ticks.new ≡ ticks.old + looked (here reader.now) }
{
    following_eol(reader, ticks).is_some()
}
