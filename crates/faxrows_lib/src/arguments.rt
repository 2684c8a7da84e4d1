//! The arguments of the program, and what they mean.

ghost use Rattle.std.specs.Prelude.{◌≡◌, map, string_bytes};
ghost use Rattle.faxrows_lib.specs.Arguments.{arguments_of, k_of, k_of_word, without_k};

use fax_program::arguments::{are_flags, has_flag, mode_of, number_of, order_with};
use hayro_ccitt::DecodeSettings;
use hayro_ccitt::bit_reader::BitOrder;

/// What the arguments mean.
#[derive(Debug, Clone, Copy)]
pub struct Arguments {
    /// The settings of decoding.
    pub settings: DecodeSettings,
    /// Which bit of each byte comes first.
    pub order: BitOrder,
}

/// Returns what the arguments mean, a mode, the columns, the rows and the flags, or `None` if they are invalid.
pub fn arguments_of(args: &[String]) -> Option<Arguments>
    ensures { result ≡ arguments_of (map string_bytes args.now) }
{
    let [mode, columns, rows, flags] = args else {
        return None;
    };
    let encoding = mode_of(mode.as_str())?;
    let columns = number_of(columns.as_str())?;
    let rows = number_of(rows.as_str())?;
    let flags = flags.as_bytes();
    if !are_flags(flags, b"blasr") {
        return None;
    }
    let settings = DecodeSettings {
        columns,
        rows,
        end_of_block: has_flag(flags, b'b'),
        end_of_line: has_flag(flags, b'l'),
        rows_are_byte_aligned: has_flag(flags, b'a'),
        encoding,
        strict: has_flag(flags, b's'),
    };
    Some(Arguments {
        settings,
        order: order_with(flags),
    })
}

/// Returns the K that a word writes, a number of at least 1: it counts the one-dimensional line (T.4, 4.2.1).
fn k_of_word(word: &str) -> Option<u32>
    ensures { result ≡ k_of_word word.now }
{
    let k = number_of(word)?;
    if k == 0 {
        return None;
    }
    Some(k)
}

/// Splits the arguments into the K that is the last of five, if it is one, and the others.
pub fn split_k(args: &[String]) -> (Option<u32>, &[String])
    ensures k { result.0 ≡ k_of (map string_bytes args.now) }
    ensures others { map string_bytes result.1.now ≡ without_k (map string_bytes args.now) }
{
    let [_, _, _, _, word] = args else {
        return (None, args);
    };
    match k_of_word(word.as_str()) {
        Some(k) => (Some(k), &args[..4]),
        None => (None, args),
    }
}
