//! Whether data is an encoding.

ghost use Rattle.std.specs.Prelude.{◌≡◌, ◌+◌, ◌*◌, ◌<◌, ◌≤◌, ◌↔◌, None, IsTrue, IfOk, IfSome, OnOk, IfErr, IsOkUnless, length};
ghost use Rattle.hayro_ccitt.specs.Bits.{Bits, BitsFit, bits_in, here};
ghost use Rattle.hayro_ccitt.specs.EncodingMode.TheVariants.{Group4};
ghost use Rattle.fax_conforms.specs.Conforming.{Conforms, EolStands};
ghost use Rattle.fax_conforms.specs.ByProcedure.{ConformsByProcedure, ConformsIn};
ghost use Rattle.fax_conforms.specs.Checks.{Checks, IsViolationIn, StopsIn};
ghost use Rattle.fax_conforms.specs.Departures.{EndsByProcedure};
ghost use Rattle.fax_conforms.specs.Stops.{EndsInPicture, IsBroken};
ghost use Rattle.fax_conforms.specs.Work.{most_for_check};

use crate::grades::Grade;
use crate::pictures::{has_eol, read_body, read_lines};
use crate::procedure::{Asked, are_by_procedure, with_eols};
use crate::stops::{Rule, Stop, Violation, broken};
use crate::words::Words;
use hayro_ccitt::bit_reader::{BitOrder, BitReader};
use hayro_ccitt::codes::Ticks;
use hayro_ccitt::{DecodeError, DecodeSettings, EncodingMode};
use std::alloc::Global;
use std::mem;

/// Returns whether the encoding is Group 4.
fn is_group4(settings: DecodeSettings) -> bool
    ensures { IsTrue result ↔ (settings.encoding ≡ Group4) }
{
    matches!(settings.encoding, EncodingMode::Group4)
}

/// Reads a picture to its end.
fn read_picture(
    words: &mut Words,
    reader: &mut BitReader<'_>,
    settings: DecodeSettings,
    reference: &mut Vec<u32>,
    coding: &mut Vec<u32>,
) -> Result<(), Stop>
    requires wide { 0 < settings.columns }
    requires start { reader.old.place ≡ 0 }
    ensures stands { OnOk result (Conforms settings (here reader.old)) }
    ensures none { IfErr result (λ e. IsBroken e → Conforms settings (here reader.old) → ⊥) }
    ensures at { IfErr result (EndsInPicture settings reader.old.bits) }
    ensures counts { words.old.ticks ≤ words.new.ticks }
    ensures at_most { words.new.ticks ≤ words.old.ticks + 6 * length (here reader.old) + 8 }
{
    // The range of a number is known once it is read.
    let _columns = settings.columns;
    if is_group4(settings) {
        return read_body(words, reader, settings, reference, coding);
    }
    if has_eol(reader, &mut words.ticks) {
        return read_lines(words, reader, settings, reference, coding);
    }
    if settings.end_of_line {
        return broken(0, Rule::Eol);
    }
    read_body(words, reader, settings, reference, coding)
}

/// Reads a readable picture to its end, if it is what the coding procedure writes, with this K if it is given.
fn follow_procedure(
    alloc: Global,
    words: &mut Words,
    reader: &mut BitReader<'_>,
    settings: DecodeSettings,
    k: Option<u32>,
) -> Result<(), Stop>
    requires start { reader.old.place ≡ 0 }
    requires readable { Conforms settings (here reader.old) }
    ensures checks { Checks (ConformsByProcedure settings k (here reader.old)) result }
    ensures at { IfErr result (EndsByProcedure settings k reader.old.bits) }
    ensures counts { words.old.ticks ≤ words.new.ticks }
    ensures at_most { words.new.ticks ≤ words.old.ticks + 17 * length (here reader.old) + 20 }
{
    // The range of a number is known once it is read.
    let _columns = settings.columns;
    let asked = Asked {
        alloc,
        settings,
        k,
        has_eols: false,
    };
    if is_group4(settings) {
        return are_by_procedure(words, reader, asked);
    }
    if has_eol(reader, &mut words.ticks) {
        return are_by_procedure(words, reader, with_eols(asked));
    }
    are_by_procedure(words, reader, asked)
}

/// Checks readable data from the start of some bytes by the coding procedure.
fn check_by_procedure(
    alloc: Global,
    settings: DecodeSettings,
    k: Option<u32>,
    order: BitOrder,
    data: &[u8],
    ticks: &mut Ticks,
) -> Result<(), Stop>
    requires fit { BitsFit «data».now }
    requires readable { Conforms settings (bits_in order «data».now) }
    ensures checks { Checks (ConformsByProcedure settings k (bits_in order «data».now)) result }
    ensures at { IfErr result (EndsByProcedure settings k (bits_in order «data».now)) }
    ensures counts { ticks.old ≤ ticks.new }
    ensures at_most { ticks.new ≤ ticks.old + 17 * length (bits_in order «data».now) + 20 }
{
    let Ok(mut words) = Words::new(alloc) else {
        return Err(Stop::OutOfMemory);
    };
    let mut reader = reader_of(order, data);
    mem::swap(ticks, &mut words.ticks);
    let followed = follow_procedure(alloc, &mut words, &mut reader, settings, k);
    mem::swap(ticks, &mut words.ticks);
    followed
}

/// Checks data from the start of some bytes: whether it is readable, and then, if that is asked, whether it is what the coding
/// procedure writes.
fn check_data(
    alloc: Global,
    settings: DecodeSettings,
    grade: Grade,
    order: BitOrder,
    data: &[u8],
    ticks: &mut Ticks,
) -> Result<(), Stop>
    requires fit { BitsFit «data».now }
    ensures checks { Checks (ConformsIn grade settings (bits_in order «data».now)) result }
    ensures at { IfErr result (StopsIn grade settings (bits_in order «data».now)) }
    ensures counts { ticks.old ≤ ticks.new }
    ensures at_most { ticks.new ≤ ticks.old + 23 * length (bits_in order «data».now) + 28 }
{
    // The ranges of numbers are known once they are read.
    let _columns = settings.columns;
    let _rows = settings.rows;
    read_data(alloc, settings, order, data, ticks)?;
    match grade {
        Grade::Readable => Ok(()),
        Grade::Procedure(k) => check_by_procedure(alloc, settings, k, order, data, ticks),
    }
}

/// Creates a reader at the first bit of some bytes, which have their bits in this order.
fn reader_of<'a>(order: BitOrder, data: &'a [u8]) -> BitReader<'a>
    requires fit { BitsFit «data».now }
    ensures { result ≡ record { bits = bits_in order «data».now; place = 0 } }
{
    match order {
        BitOrder::HighestFirst => BitReader::new(data),
        BitOrder::LowestFirst => BitReader::new_low_first(data),
    }
}

/// Reads a picture to its end from the start of some bytes.
fn read_data(
    alloc: Global,
    settings: DecodeSettings,
    order: BitOrder,
    data: &[u8],
    ticks: &mut Ticks,
) -> Result<(), Stop>
    requires fit { BitsFit «data».now }
    ensures stands { OnOk result (Conforms settings (bits_in order «data».now)) }
    ensures none { IfErr result (λ e. IsBroken e → Conforms settings (bits_in order «data».now) → ⊥) }
    ensures at { IfErr result (EndsInPicture settings (bits_in order «data».now)) }
    ensures counts { ticks.old ≤ ticks.new }
    ensures at_most { ticks.new ≤ ticks.old + 6 * length (bits_in order «data».now) + 8 }
{
    if settings.columns == 0 {
        return broken(0, Rule::Columns);
    }
    let Ok(mut words) = Words::new(alloc) else {
        return Err(Stop::OutOfMemory);
    };
    let mut reader = reader_of(order, data);
    let mut reference = Vec::new(alloc);
    let mut coding = Vec::new(alloc);
    mem::swap(ticks, &mut words.ticks);
    let read = read_picture(
        &mut words,
        &mut reader,
        settings,
        &mut reference,
        &mut coding,
    );
    mem::swap(ticks, &mut words.ticks);
    read
}

/// Returns `None` if data conforms in a grade, and else a place where it breaks a rule, and which rule. Each byte has its bits in
/// this order.
///
/// In the grade [`Grade::Readable`] data conforms that begins with an encoding of a picture that every decoder must read back as
/// its rows, closed as the settings ask: by EOFB (T.6, 2.4.1.1) or RTC (T.4, 4.1.4) with `end_of_block`, or by as many rows as the
/// row limit, whichever comes first. What follows the picture is ignored. Any make-up words, modes and kinds of line that lead to
/// the rows are taken. So the choices that T.4 and T.6 prescribe to an encoder aren't checked: a run of 128 may be 64 + 64 + 0
/// (T.4, 4.1.1), horizontal mode may stand for a vertical one (T.4, 4.2.1.3.2), each line may be two-dimensional (T.4, 4.2.1), and
/// fill may precede the first EOL (T.4, 4.1.3).
///
/// In this grade the place is where the data departs from what conforms (`IsViolationOf`). Without columns it is 0, of [`Rule::Columns`]. Else
/// the bits before it are the lines of some rows and the beginning of another line, of a row that the row limit allows; and each
/// line that begins so goes on with other bits than the data, which break the rule as [`Rule`] says.
///
/// More is asked here than of data that [`hayro_ccitt::decode`] reads strictly. Pass mode is only where b2 is left of a1, and
/// each vertical mode to the right of a0 (T.4, 4.2.1.3); only the first run of a row has no pixels, and one at the row's end in
/// horizontal mode (T.4, 4.1.1); nothing but zeros is between a line and the next whole byte where rows are aligned (T.4,
/// 4.1.3); and EOLs and their tags are only where they belong (T.4, 4.1.2 and 4.2.2). Whether the settings are strict has no
/// effect.
///
/// In the grade [`Grade::Procedure`] the choices are checked too. A violation is that of the other grade, if there is one. Else the
/// data begins with lines as the coding procedure writes them, and after them it departs (`DepartsFromProcedure`): at the first bit
/// of a line that differs ([`Rule::Procedure`]), the tag of a line that K doesn't allow ([`Rule::Kind`]), fill ([`Rule::Fill`]), or
/// the end ([`Rule::End`]).
///
/// `ticks` counts the work: each word that is looked for, each bit that is looked at for an EOL, a tag or padding, and each change of
/// a reference row that is examined. There are at most 128 ticks for each bit, and 256 more.
///
/// # Errors
///
/// `OutOfMemory` is the only one.
///
/// # Example
///
/// In Group 4 with one column and `end_of_block` the bytes 10 01 00 10 are pass mode below a white row, and EOFB, from the
/// fifth bit on. A strict reading takes the pass mode, and here it is the violation: place 0, [`Rule::PassToEnd`]. With 8 columns
/// and a row limit of 1 the bytes 33 0D C0 are horizontal mode for a white row. Readable they are without a violation; the procedure
/// writes a vertical mode: place 0, [`Rule::Procedure`].
pub fn first_violation(
    alloc: Global,
    settings: DecodeSettings,
    grade: Grade,
    order: BitOrder,
    data: &[u8],
    ticks: &mut Ticks,
) -> hayro_ccitt::Result<Option<Violation>>
    requires fit { BitsFit «data».now }
    ensures none { IfOk result (λ found. (found ≡ None) ↔ ConformsIn grade settings (bits_in order «data».now)) }
    ensures place { IfOk result (λ found. IfSome found (IsViolationIn grade settings (bits_in order «data».now))) }
    ensures only_memory { IsOkUnless result DecodeError.OutOfMemory }
    ensures counts { ticks.old ≤ ticks.new }
    ensures work { ticks.new ≤ ticks.old + most_for_check (length (bits_in order «data».now)) }
{
    match check_data(alloc, settings, grade, order, data, ticks) {
        Ok(()) => Ok(None),
        Err(Stop::Violation(violation)) => Ok(Some(violation)),
        Err(Stop::OutOfMemory) => Err(DecodeError::OutOfMemory),
    }
}

/// Returns whether data conforms in a grade, and so has no [`first_violation`]: whether it begins with an encoding of a picture that
/// every decoder must read back as its rows, closed as the settings ask; or whether it is, up to zeros in its last byte, the picture
/// that the coding procedure writes.
///
/// The procedure's words of a run are as many of 2560 as fit, at most one more make-up word, and a terminating word (T.4, 4.1.1);
/// its modes are those of T.4, 4.2.1.3 and T.6, 2.2. In two-dimensional Group 3 the first line is one-dimensional, and at most
/// K - 1 lines after a one-dimensional one are two-dimensional, if K is given (T.4, 4.2.1). Fill is only between a line and its
/// EOL, and before RTC (T.4, 4.1.3). An end of the block must be there if the settings look for one, and in Group 3 lines have
/// EOLs; else there are as many rows as the row limit. Fewer than eight zeros may follow, and nothing else.
///
/// `ticks` counts the work as [`first_violation`] does.
///
/// # Errors
///
/// `OutOfMemory` is the only one.
///
/// # Example
///
/// In Group 4 with 8 columns and `end_of_block` the bytes 31 C0 04 00 40 are horizontal mode, 3 white pixels, 2 black ones and
/// a vertical mode, and then EOFB: the result is `Ok(true)` in both grades. The bytes 33 0D C0 with a row limit of 1 are
/// horizontal mode, 8 white pixels and no black ones: each decoder reads them as a white row, and the procedure writes a vertical
/// mode.
pub fn conforms(
    alloc: Global,
    settings: DecodeSettings,
    grade: Grade,
    order: BitOrder,
    data: &[u8],
    ticks: &mut Ticks,
) -> hayro_ccitt::Result<bool>
    requires fit { BitsFit «data».now }
    ensures conforms { IfOk result (λ conforms. IsTrue conforms ↔ ConformsIn grade settings (bits_in order «data».now)) }
    ensures only_memory { IsOkUnless result DecodeError.OutOfMemory }
    ensures counts { ticks.old ≤ ticks.new }
    ensures work { ticks.new ≤ ticks.old + most_for_check (length (bits_in order «data».now)) }
{
    Ok(first_violation(alloc, settings, grade, order, data, ticks)?.is_none())
}
