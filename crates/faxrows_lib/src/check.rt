//! Runs of the program that write whether the data conforms: whether it is an encoding of a picture that every decoder must read
//! back as its rows, or what the coding procedure writes; and otherwise where it breaks a rule.

ghost use Rattle.std.specs.Prelude.{◌≡◌, map, string_bytes};
ghost use Rattle.faxrows_lib.specs.Arguments.{k_of, without_k};
ghost use Rattle.faxrows_lib.specs.CheckText.{IsCheck, done_of_check, end_with_rule, line_of_check};
ghost use Rattle.faxrows_lib.specs.Output.{PutsText, WritesText, used};
ghost use Rattle.faxrows_lib.specs.ProgramRuns.{RunsProgram};

use crate::arguments::split_k;
use crate::damage_lines::put_number;
use crate::input::read_input;
use crate::output::{flush, put};
use crate::program::Done;
use fax_conforms::{Grade, Rule, Violation, first_violation};
use fax_program::{Device, RunFault};
use hayro_ccitt::codes::Ticks;
use std::alloc::Global;
use std::io::{Read, Write};

/// Reads all that the reader has, and writes whether it begins with an encoding of a picture that every decoder must read back as
/// its rows, closed as the arguments ask ([`Grade::Readable`]): `ok` if it does; and if not, `violation`, an offset in bits, and
/// the rule that is broken there. It is `Done::Good` in the first case, and `Done::Faulty` in the second.
///
/// # Errors
///
/// Those of [`run`](crate::run). An allocation that fails during the check is `Memory`; nothing is written then.
pub fn run_check<R: Read, W: Write>(
    alloc: Global,
    args: &[String],
    reader: &mut Device<R>,
    writer: &mut Device<W>,
) -> std::result::Result<Done, RunFault>
    ensures runs { RunsProgram (IsCheck Grade.Readable) (map string_bytes args.now) (used R.remaining reader.old reader.new)
        (used W.contents writer.old writer.new) result }
{
    check_input(alloc, Grade::Readable, args, reader, writer)
}

/// Reads all that the reader has, and writes whether it is what the coding procedure writes for its rows, closed as the arguments
/// ask ([`Grade::Procedure`]), as [`run_check`] does. After the four arguments there may be K, a number of at least 1: then at most
/// K - 1 lines after a one-dimensional one are two-dimensional (T.4, 4.2.1).
///
/// # Errors
///
/// Those of [`run_check`].
pub fn run_by_procedure<R: Read, W: Write>(
    alloc: Global,
    args: &[String],
    reader: &mut Device<R>,
    writer: &mut Device<W>,
) -> std::result::Result<Done, RunFault>
    ensures runs { RunsProgram (IsCheck (Grade.Procedure (k_of (map string_bytes args.now)))) (without_k (map string_bytes args.now))
        (used R.remaining reader.old reader.new) (used W.contents writer.old writer.new) result }
{
    let (k, words) = split_k(args);
    check_input(alloc, Grade::Procedure(k), words, reader, writer)
}

/// Reads all that the reader has, and writes whether it conforms in a grade.
fn check_input<R: Read, W: Write>(
    alloc: Global,
    grade: Grade,
    args: &[String],
    reader: &mut Device<R>,
    writer: &mut Device<W>,
) -> std::result::Result<Done, RunFault>
    ensures runs { RunsProgram (IsCheck grade) (map string_bytes args.now) (used R.remaining reader.old reader.new)
        (used W.contents writer.old writer.new) result }
{
    let (arguments, input) = read_input(alloc, args, reader)?;
    let order = arguments.order;
    let mut ticks = Ticks::new();
    let Ok(found) = first_violation(
        alloc,
        arguments.settings,
        grade,
        order,
        input.as_slice(),
        &mut ticks,
    ) else {
        return Err(RunFault::Memory);
    };
    write_found(alloc, found, writer)
}

/// Writes the line of a check. It fails only if the writer does.
fn write_found<W: Write>(
    alloc: Global,
    found: Option<Violation>,
    writer: &mut Device<W>,
) -> std::result::Result<Done, RunFault>
    ensures writes { WritesText (λ done text. (done ≡ done_of_check found) × (text ≡ line_of_check found))
        (used W.contents writer.old writer.new) result }
{
    let mut waiting = Vec::new(alloc);
    put_found(found, &mut waiting, writer)?;
    flush(&mut waiting, writer)?;
    Ok(done_of_check(found))
}

/// Returns how a run ends that wrote the line of a check.
fn done_of_check(found: Option<Violation>) -> Done
    ensures { result ≡ done_of_check found }
{
    match found {
        None => Done::Good,
        Some(_) => Done::Faulty,
    }
}

/// Puts the line of a check: `ok`, or `violation`, its offset in bits, and the rule.
fn put_found<W: Write>(
    found: Option<Violation>,
    waiting: &mut Vec<u8>,
    writer: &mut Device<W>,
) -> std::result::Result<(), RunFault>
    ensures { PutsText (line_of_check found)
        waiting.old.items waiting.new.items (used W.contents writer.old writer.new) result }
{
    let Some(violation) = found else {
        return put(b"ok\n", waiting, writer);
    };
    put(b"violation ", waiting, writer)?;
    put_number(violation.place as u64, b' ', waiting, writer)?;
    put(rule_and_end(violation.rule), waiting, writer)
}

/// Returns a rule's text with the line's end.
fn rule_and_end(rule: Rule) -> &'static [u8]
    ensures { result.now ≡ end_with_rule rule }
{
    match rule {
        Rule::Mode => b"a mode is expected (T.4, 4.2.1.3)\n",
        Rule::Run => b"a run is expected (T.4, 4.1.1)\n",
        Rule::RowEnd => b"beyond the row's end (T.4, 4.1.1 and 4.2.1.3)\n",
        Rule::NoPixels => b"no pixels (T.4, 4.1.1 and 4.2.1.3)\n",
        Rule::Columns => b"no columns\n",
        Rule::Eol => b"an EOL is expected (T.4, 4.1.2)\n",
        Rule::Tag => b"a tag is expected (T.4, 4.2.2)\n",
        Rule::Padding => b"zeros up to a whole byte are expected (T.4, 4.1.3)\n",
        Rule::PassToEnd => b"pass mode to the row's end (T.4, 4.2.1.3.2)\n",
        Rule::Procedure =>
            b"not what the coding procedure writes (T.4, 4.1.1 and 4.2.1.3; T.6, 2.2)\n",
        Rule::Kind => b"a two-dimensional line where none may be (T.4, 4.2.1)\n",
        Rule::Fill => b"fill where none may be (T.4, 4.1.3 and 4.1.4)\n",
        Rule::End => b"not the end that the coding procedure writes (T.4, 4.1.4; T.6, 2.4.1.1)\n",
    }
}
