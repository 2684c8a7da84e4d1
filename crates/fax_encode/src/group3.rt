//! One-dimensional Group 3 (T.4, 4.1).

ghost use Rattle.std.specs.Prelude.{◌≡◌, ◌<◌, ◌++◌, length, OnOk};
ghost use Rattle.fax_reading.specs.Encodings.{eol, tag_of};
ghost use Rattle.fax_encode.specs.Settings.{chosen_eols, fill_of};
ghost use Rattle.fax_encode.specs.Writing.{all_bits};

use fax_bits::EncodingMode;
use fax_words::bit_writer::BitWriter;
use std::alloc::AllocError;

/// Writes an end-of-line code without fill: eleven zeros and a one (T.4, 4.1.2).
pub fn put_eol(writer: &mut BitWriter) -> Result<(), AllocError>
    ensures { OnOk result (all_bits writer.new ≡ all_bits writer.old ++ eol 0) }
{
    writer.put(1, 12)
}

/// Returns the number of zeros of fill before the next EOL.
#[inline(always)]
fn fill_of(writer: &BitWriter, fills: bool) -> u32
    ensures fill { result ≡ fill_of fills (length (all_bits writer.now)) }
    ensures few { result < 8 }
{
    if fills { writer.eol_fill() } else { 0 }
}

/// Writes an EOL, with fill before it where it is to end at a whole byte (T.4, 4.1.2 and 4.1.3).
#[inline(always)]
pub fn put_filled_eol(writer: &mut BitWriter, fills: bool) -> Result<(), AllocError>
    ensures { OnOk result (all_bits writer.new
        ≡ all_bits writer.old ++ eol (fill_of fills (length (all_bits writer.old)))) }
{
    let fill = fill_of(writer, fills);
    writer.put(1, 12 + fill)
}

/// Writes an EOL and the tag after it (T.4, 4.2.4).
fn put_tagged_eol(
    writer: &mut BitWriter,
    encoding: EncodingMode,
    fills: bool,
) -> Result<(), AllocError>
    ensures { OnOk result (all_bits writer.new ≡ all_bits writer.old
        ++ (eol (fill_of fills (length (all_bits writer.old))) ++ tag_of encoding)) }
{
    put_filled_eol(writer, fills)?;
    match encoding {
        EncodingMode::Group3_2D => writer.put(1, 1),
        _ => Ok(()),
    }
}

/// Writes RTC: six EOLs, each with its tag (T.4, 4.1.4 and 4.2.4).
pub fn put_closing_eols(
    writer: &mut BitWriter,
    encoding: EncodingMode,
    fills: bool,
) -> Result<(), AllocError>
    ensures { OnOk result (all_bits writer.new ≡ all_bits writer.old
        ++ chosen_eols encoding fills (length (all_bits writer.old)) 6) }
{
    let mut left: u32 = 6;
    while left > 0 {
        put_tagged_eol(writer, encoding, fills)?;
        left -= 1;
    }
    Ok(())
}
