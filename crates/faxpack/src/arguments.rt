//! The arguments of the program, and what they mean.

ghost use Rattle.std.specs.Prelude.{◌≡◌, true, IfSome, map, string_bytes};
ghost use Rattle.faxpack.specs.Arguments.{arguments_of, picture_args, rows_args, settings_of_args, k_of, effort_with};
ghost use Rattle.fax_encode.specs.Settings.{names_encoding};

use fax_encode::{Effort, EncodeSettings, names_encoding};
use fax_program::arguments::{are_flags, has_flag, is_first_arg, mode_of, number_of, order_with};

/// The size of rows without a header.
#[derive(Debug, Clone, Copy)]
pub struct Size {
    /// The width in pixels.
    pub columns: u32,
    /// The largest number of rows, or 0 for no limit.
    pub rows: u32,
}

/// What the arguments mean.
#[derive(Debug, Clone, Copy)]
pub struct Arguments {
    /// The size of the rows, or `None` for a PBM picture, which has it in its header.
    pub size: Option<Size>,
    /// The settings of encoding.
    pub settings: EncodeSettings,
}

/// Returns what the arguments mean, or `None` if they are invalid or name no encoding.
pub fn arguments_of(args: &[String]) -> Option<Arguments>
    ensures arguments { result ≡ arguments_of (map string_bytes args.now) }
    ensures names { IfSome result (λ arguments. names_encoding arguments.settings ≡ true) }
{
    if is_first_arg(args, "-o") {
        return rows_args(&args[1..]);
    }
    picture_args(args)
}

/// Returns what a mode and flags mean, for a PBM picture.
fn picture_args(args: &[String]) -> Option<Arguments>
    ensures arguments { result ≡ picture_args (map string_bytes args.now) }
    ensures names { IfSome result (λ arguments. names_encoding arguments.settings ≡ true) }
{
    let [mode, flags, more @ ..] = args else {
        return None;
    };
    let settings = settings_of_args(mode.as_str(), flags.as_str(), more)?;
    Some(Arguments {
        size: None,
        settings,
    })
}

/// Returns what a mode, the columns, the rows and flags mean, for rows without a header.
fn rows_args(args: &[String]) -> Option<Arguments>
    ensures arguments { result ≡ rows_args (map string_bytes args.now) }
    ensures names { IfSome result (λ arguments. names_encoding arguments.settings ≡ true) }
{
    let [mode, columns, rows, flags, more @ ..] = args else {
        return None;
    };
    let settings = settings_of_args(mode.as_str(), flags.as_str(), more)?;
    let columns = number_of(columns.as_str())?;
    let rows = number_of(rows.as_str())?;
    Some(Arguments {
        size: Some(Size { columns, rows }),
        settings,
    })
}

/// Returns the settings that a mode, flags and the arguments after them mean, if they name an encoding.
fn settings_of_args(mode: &str, flags: &str, more: &[String]) -> Option<EncodeSettings>
    ensures settings { result ≡ settings_of_args mode.now flags.now (map string_bytes more.now) }
    ensures names { IfSome result (λ settings. names_encoding settings ≡ true) }
{
    let encoding = mode_of(mode)?;
    let k = k_of(more)?;
    let flags = flags.as_bytes();
    if !are_flags(flags, b"blasrfm") {
        return None;
    }
    let settings = EncodeSettings {
        encoding,
        k,
        end_of_line: has_flag(flags, b'l'),
        eols_end_at_bytes: has_flag(flags, b'f'),
        rows_are_byte_aligned: has_flag(flags, b'a'),
        end_of_block: has_flag(flags, b'b'),
        order: order_with(flags),
        effort: effort_with(flags),
    };
    if !names_encoding(settings) {
        return None;
    }
    Some(settings)
}

/// Returns the effort that flags mean.
#[tactic(auto, unfolding(crate::specs::Arguments::effort_with))]
fn effort_with(flags: &[u8]) -> Effort
    ensures { result ≡ effort_with flags.now }
{
    if has_flag(flags, b'm') {
        Effort::Shortest
    } else {
        Effort::Procedure
    }
}

/// Returns the K that the arguments after the flags mean: 4 without one.
fn k_of(args: &[String]) -> Option<u32>
    ensures { result ≡ k_of (map string_bytes args.now) }
{
    match args {
        [] => Some(4),
        [arg] => number_of(arg.as_str()),
        _ => None,
    }
}
