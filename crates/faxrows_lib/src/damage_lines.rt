//! Lines that report damage.

ghost use Rattle.std.specs.Prelude.{◌≡◌, ◌≤◌, ◌-◌, ◌++◌, drop, codes};
ghost use Rattle.faxrows_lib.specs.DamageText.{end_with_fault, line_of_cut, line_of_miss, number_and, numbered};
ghost use Rattle.faxrows_lib.specs.Output.{PutsText, used};

use crate::digits::{MOST_DIGITS, put_decimal};
use crate::output::put;
use fax_program::{Device, RunFault};
use hayro_ccitt::DecodeError;
use std::io::Write;

/// The most bytes of a number and a sign.
const NUMBER_ROOM: usize = 21;

/// Writes a number and a sign at the end of the buffer, and returns where they begin.
fn put_number_text(number: u64, sign: u8, text: &mut [u8; NUMBER_ROOM]) -> usize
    ensures within { result ≤ NUMBER_ROOM }
    ensures text { drop result text.new ≡ number_and number sign }
{
    text[NUMBER_ROOM - 1] = sign;
    put_decimal(number, text, NUMBER_ROOM - 1)
}

/// Puts a number and a sign.
pub(crate) fn put_number<W: Write>(
    number: u64,
    sign: u8,
    waiting: &mut Vec<u8>,
    writer: &mut Device<W>,
) -> std::result::Result<(), RunFault>
    ensures { PutsText (number_and number sign)
        waiting.old.items waiting.new.items (used W.contents writer.old writer.new) result }
{
    let mut text = [0u8; NUMBER_ROOM];
    let start = put_number_text(number, sign, &mut text);
    put(&text[start..], waiting, writer)
}

/// Puts a word, a number, a space, and a number and a sign.
pub(crate) fn put_numbers<W: Write>(
    word: &[u8],
    first: u64,
    second: u64,
    sign: u8,
    waiting: &mut Vec<u8>,
    writer: &mut Device<W>,
) -> std::result::Result<(), RunFault>
    ensures { PutsText (word.now ++ (number_and first 32 ++ number_and second sign))
        waiting.old.items waiting.new.items (used W.contents writer.old writer.new) result }
{
    put(word, waiting, writer)?;
    put_number(first, b' ', waiting, writer)?;
    put_number(second, sign, waiting, writer)
}

/// Returns a fault's text with the line's end.
pub(crate) fn fault_and_end(fault: DecodeError) -> &'static [u8]
    ensures { result.now ≡ end_with_fault fault }
{
    match fault {
        DecodeError::UnexpectedEof => b"unexpected end of input\n",
        DecodeError::InvalidCode => b"invalid CCITT code sequence\n",
        DecodeError::Overflow => b"arithmetic overflow in position calculation\n",
        DecodeError::OutOfMemory => b"out of memory\n",
        DecodeError::Refused => b"row refused\n",
    }
}

/// Puts the line of a row that is damaged or can't be read: a word, the row's index, an offset in bits, and the fault.
pub(crate) fn put_fault<W: Write>(
    word: &[u8],
    row: u64,
    start: u64,
    fault: DecodeError,
    waiting: &mut Vec<u8>,
    writer: &mut Device<W>,
) -> std::result::Result<(), RunFault>
    ensures { PutsText (numbered word.now row start ++ end_with_fault fault)
        waiting.old.items waiting.new.items (used W.contents writer.old writer.new) result }
{
    put_numbers(word, row, start, b' ', waiting, writer)?;
    put(fault_and_end(fault), waiting, writer)
}

/// Puts the line of an EOL that was missed after the row before this number of rows, if one was.
pub(crate) fn put_missed<W: Write>(
    rows: u64,
    missed: Option<usize>,
    waiting: &mut Vec<u8>,
    writer: &mut Device<W>,
) -> std::result::Result<(), RunFault>
    ensures { PutsText (line_of_miss (rows - 1) missed)
        waiting.old.items waiting.new.items (used W.contents writer.old writer.new) result }
{
    match missed {
        Some(start) => {
            let row = rows.saturating_sub(1);
            put_numbers(b"missed ", row, start as u64, b'\n', waiting, writer)
        }
        None => Ok(()),
    }
}

/// Puts the line of a row in which a run was cut, if one was.
pub(crate) fn put_cut<W: Write>(
    row: u64,
    start: u64,
    cut: bool,
    waiting: &mut Vec<u8>,
    writer: &mut Device<W>,
) -> std::result::Result<(), RunFault>
    ensures { PutsText (line_of_cut row start cut)
        waiting.old.items waiting.new.items (used W.contents writer.old writer.new) result }
{
    if !cut {
        return Ok(());
    }
    put_numbers(b"cut ", row, start, b'\n', waiting, writer)
}

/// Puts the last line of a good reading: the rows, the number of them that were repaired, and the byte count.
pub(crate) fn put_good_end<W: Write>(
    rows: u64,
    damaged: u64,
    count: u64,
    waiting: &mut Vec<u8>,
    writer: &mut Device<W>,
) -> std::result::Result<(), RunFault>
    ensures { PutsText (numbered (codes "ok ") rows damaged ++ number_and count 10)
        waiting.old.items waiting.new.items (used W.contents writer.old writer.new) result }
{
    put_numbers(b"ok ", rows, damaged, b' ', waiting, writer)?;
    put_number(count, b'\n', waiting, writer)
}
