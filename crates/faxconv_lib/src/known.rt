//! The options by their names.

use crate::options::Program;

/// An option.
#[derive(Clone, Copy)]
pub enum Known {
    /// `--output NAME`
    Output,
    /// `--format FORMAT`
    Format,
    /// `--pages PAGES`
    Pages,
    /// `--encode ENCODING`
    Encode,
    /// `--copy`
    Copy,
    /// `--check`
    Check,
    /// `--standard`
    Standard,
    /// `--info`
    Info,
    /// `--guess`
    Guess,
    /// `--show-damage NAME`
    ShowDamage,
    /// `--json`
    Json,
    /// `--overwrite`
    Overwrite,
    /// `--no-overwrite`
    NoOverwrite,
    /// `--quiet`
    Quiet,
    /// `--resolution DPI`
    Resolution,
    /// `--rotate DEGREES`
    Rotate,
    /// `--rows-per-strip ROWS`
    RowsPerStrip,
    /// `--mode MODE`
    Mode,
    /// `--width COLUMNS`
    Width,
    /// `--rows ROWS`
    Rows,
    /// `--height ROWS`
    Height,
    /// `--flags FLAGS`
    Flags,
    /// `--help`
    Help,
    /// `--version`
    Version,
}

impl Known {
    /// Returns whether an argument follows the option.
    pub fn has_value(self) -> bool {
        match self {
            Known::Copy
            | Known::Check
            | Known::Standard
            | Known::Info
            | Known::Guess
            | Known::Json
            | Known::Overwrite
            | Known::NoOverwrite
            | Known::Quiet => false,
            Known::Help | Known::Version => false,
            _ => true,
        }
    }

    /// Returns the option of a letter.
    pub fn of_letter(program: Program, letter: char) -> Option<Known> {
        let known = match letter {
            'o' => Known::Output,
            'f' if matches!(program, Program::Fax2pbm) => Known::Flags,
            'p' => Known::Pages,
            'm' => Known::Mode,
            'w' => Known::Width,
            'r' => Known::Rows,
            'H' => Known::Height,
            'h' => Known::Help,
            _ if matches!(program, Program::Fax2pbm) => return None,
            'f' => Known::Format,
            'e' => Known::Encode,
            'F' => Known::Flags,
            'n' => Known::NoOverwrite,
            'q' => Known::Quiet,
            _ => return None,
        };
        Some(known)
    }

    /// Returns the option of a name without its hyphens.
    pub fn of_name(name: &str) -> Option<Known> {
        let known = match name {
            "output" => Known::Output,
            "format" => Known::Format,
            "pages" => Known::Pages,
            "encode" => Known::Encode,
            "copy" => Known::Copy,
            "check" => Known::Check,
            "standard" => Known::Standard,
            "info" => Known::Info,
            "guess" => Known::Guess,
            "show-damage" => Known::ShowDamage,
            "json" => Known::Json,
            "overwrite" => Known::Overwrite,
            "no-overwrite" => Known::NoOverwrite,
            "quiet" => Known::Quiet,
            "resolution" => Known::Resolution,
            "rotate" => Known::Rotate,
            "rows-per-strip" => Known::RowsPerStrip,
            "mode" => Known::Mode,
            "width" => Known::Width,
            "rows" => Known::Rows,
            "height" => Known::Height,
            "flags" => Known::Flags,
            "help" => Known::Help,
            "version" => Known::Version,
            _ => return None,
        };
        Some(known)
    }
}
