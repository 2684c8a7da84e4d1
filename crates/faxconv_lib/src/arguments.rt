//! The arguments of a run, and what they ask for.

ghost use Rattle.std.specs.Prelude.{◌<◌, IfOk, IfSome, IsTrue, length};

use crate::known::Known;
use crate::names::split_extension;
use crate::options::{Action, DotsPerInch, Encoding, Format, Options, Program, Rotation};
use crate::pages::page_list_of;
use fax_program::arguments::{mode_of, number_of};
use std::alloc::{AllocError, Global};
use std::fmt;

/// What the arguments ask for.
#[derive(Drop)]
pub enum Request<'a> {
    /// A run with these options.
    Run(Options<'a>),
    /// The text of `--help`.
    Help,
    /// The text of `--version`.
    Version,
}

/// Why arguments are invalid.
#[derive(Clone, Copy)]
pub enum ArgumentError<'a> {
    /// An option that there isn't.
    Unknown(&'a str),
    /// An option whose argument is missing.
    NoValue(&'a str),
    /// An option that has no argument is given one.
    HasNoValue(&'a str),
    /// The argument of an option is invalid.
    BadValue {
        /// The option.
        option: &'a str,
        /// Its argument.
        value: &'a str,
    },
    /// The name of the output has no extension that is a format's, and no option says the format.
    NoFormat(&'a str),
    /// Two options exclude each other.
    Excluded(&'static str, &'static str),
    /// An option is there without another one that it needs.
    Needs(&'static str, &'static str),
    /// An allocation failed.
    OutOfMemory,
}

impl ArgumentError<'_> {
    /// Returns whether it is an error of usage, which `--help` may mend.
    pub fn is_of_usage(&self) -> bool {
        !matches!(
            self,
            ArgumentError::OutOfMemory
                | ArgumentError::NoFormat(_)
                | ArgumentError::Excluded(_, _)
                | ArgumentError::Needs(_, _)
        )
    }
}

impl fmt::Display for ArgumentError<'_> {
    fn fmt<W: fmt::Write>(&self, f: &mut fmt::Formatter<W>) -> fmt::Result {
        match self {
            ArgumentError::Unknown(option) => write!(f, "invalid option `{option}`"),
            ArgumentError::NoValue(option) => write!(f, "option `{option}` needs an argument"),
            ArgumentError::HasNoValue(option) => write!(f, "option `{option}` has no argument"),
            ArgumentError::BadValue { option, value } => write!(
                f,
                "invalid argument `{value}` of option `{option}`"
            ),
            ArgumentError::NoFormat(name) => {
                write!(
                    f,
                    "{name}: the name doesn't end in .pbm, .png, .tif or .pdf; use -f for the format"
                )
            }
            ArgumentError::Excluded(one, other) => write!(
                f,
                "{one} and {other} exclude each other"
            ),
            ArgumentError::Needs(one, other) => write!(f, "{one} needs {other}"),
            ArgumentError::OutOfMemory => write!(f, "out of memory"),
        }
    }
}

impl<'a> From<AllocError> for ArgumentError<'a> {
    fn from(_error: AllocError) -> ArgumentError<'a> {
        ArgumentError::OutOfMemory
    }
}

/// The options so far, and what is known only of the arguments.
#[derive(Drop)]
struct Reading<'a> {
    alloc: Global,
    options: Options<'a>,
    has_output: bool,
    has_format: bool,
    has_limit: bool,
    request: Option<Known>,
}

/// Returns what the arguments after the program's name ask for. Options may stand after files; after `--` all are files.
///
/// # Errors
///
/// If they are invalid, or an allocation fails.
pub fn request_of<'a>(
    alloc: Global,
    program: Program,
    args: &'a [String],
) -> Result<Request<'a>, ArgumentError<'a>> {
    let mut reading = Reading {
        alloc,
        options: Options::new(alloc, program),
        has_output: false,
        has_format: false,
        has_limit: false,
        request: None,
    };
    let mut rest = args;
    for _ in args {
        let Some((first, others)) = rest.split_first() else {
            break;
        };
        if first.as_str() == "--" {
            reading.put_files(others)?;
            break;
        }
        let used = reading.put_argument(first.as_str(), others)?;
        match reading.request {
            Some(Known::Help) => return Ok(Request::Help),
            Some(_) => return Ok(Request::Version),
            None => {}
        }
        rest = if used { &others[1..] } else { others };
    }
    reading.finish()
}

impl<'a> Reading<'a> {
    /// Takes all arguments as files.
    fn put_files(&mut self, args: &'a [String]) -> Result<(), ArgumentError<'a>> {
        for arg in args {
            self.put_file(arg.as_str())?;
        }
        Ok(())
    }

    /// Takes an argument as a file.
    fn put_file(&mut self, file: &'a str) -> Result<(), ArgumentError<'a>> {
        match self.options.files.push(file) {
            Ok(()) => Ok(()),
            Err(_) => Err(ArgumentError::OutOfMemory),
        }
    }

    /// Takes an argument. Returns whether the one after it is its value.
    fn put_argument(
        &mut self,
        arg: &'a str,
        others: &'a [String],
    ) -> Result<bool, ArgumentError<'a>>
        ensures { IfOk result (λ used. IsTrue used → 0 < length others.now) }
    {
        if let Some(long) = arg.strip_prefix("--") {
            return self.put_long(arg, long, others);
        }
        match arg.strip_prefix('-') {
            None | Some("") => {
                self.put_file(arg)?;
                Ok(false)
            }
            Some(letters) => self.put_letters(arg, letters, others),
        }
    }

    /// Takes an option by its name, whose value may stand after `=`.
    fn put_long(
        &mut self,
        arg: &'a str,
        long: &'a str,
        others: &'a [String],
    ) -> Result<bool, ArgumentError<'a>>
        ensures { IfOk result (λ used. IsTrue used → 0 < length others.now) }
    {
        let (name, value) = match long.split_once('=') {
            Some((name, value)) => (name, Some(value)),
            None => (long, None),
        };
        let Some(known) = Known::of_name(name) else {
            return Err(ArgumentError::Unknown(arg));
        };
        match value {
            Some(_) if !known.has_value() => Err(ArgumentError::HasNoValue(arg)),
            Some(value) => {
                self.put(known, arg, value)?;
                Ok(false)
            }
            None => self.put_with_next(known, arg, others),
        }
    }

    /// Takes options by their letters: the last may have a value, which follows it or is the next argument.
    fn put_letters(
        &mut self,
        arg: &'a str,
        letters: &'a str,
        others: &'a [String],
    ) -> Result<bool, ArgumentError<'a>>
        ensures { IfOk result (λ used. IsTrue used → 0 < length others.now) }
    {
        let mut rest = letters.chars();
        while let Some(letter) = rest.next() {
            let Some(known) = Known::of_letter(self.options.program, letter) else {
                return Err(ArgumentError::Unknown(arg));
            };
            let value = rest.as_str();
            if known.has_value() && !value.is_empty() {
                self.put(known, arg, value)?;
                return Ok(false);
            }
            if self.put_with_next(known, arg, others)? {
                return Ok(true);
            }
        }
        Ok(false)
    }

    /// Takes an option whose value, if it has one, is the next argument. Returns whether it has.
    fn put_with_next(
        &mut self,
        known: Known,
        arg: &'a str,
        others: &'a [String],
    ) -> Result<bool, ArgumentError<'a>>
        ensures { IfOk result (λ used. IsTrue used → 0 < length others.now) }
    {
        if !known.has_value() {
            self.put(known, arg, "")?;
            return Ok(false);
        }
        let Some(value) = others.first() else {
            return Err(ArgumentError::NoValue(arg));
        };
        self.put(known, arg, value.as_str())?;
        Ok(true)
    }

    /// Takes an option with its value.
    fn put(
        &mut self,
        known: Known,
        option: &'a str,
        value: &'a str,
    ) -> Result<(), ArgumentError<'a>> {
        let taken = match known {
            Known::Pages => return self.put_pages(option, value),
            Known::Mode | Known::Width | Known::Rows | Known::Height | Known::Flags => self.put_raw(
                known, value,
            ),
            _ if known.has_value() => self.put_value(known, value),
            _ => {
                self.put_switch(known);
                Some(())
            }
        };
        match taken {
            Some(()) => Ok(()),
            None => Err(ArgumentError::BadValue { option, value }),
        }
    }

    /// Takes the pages.
    fn put_pages(&mut self, option: &'a str, value: &'a str) -> Result<(), ArgumentError<'a>> {
        let first = match self.options.program {
            Program::Faxconv => 1,
            Program::Fax2pbm => 0,
        };
        match page_list_of(self.alloc, value, first)? {
            Some(pages) => self.options.pages = pages,
            None => return Err(ArgumentError::BadValue { option, value }),
        }
        Ok(())
    }

    /// Takes an option without a value.
    fn put_switch(&mut self, known: Known) {
        match known {
            Known::Copy => self.options.is_copy = true,
            Known::Check => self.options.action = Action::Check,
            Known::Standard => self.options.is_standard = true,
            Known::Info => self.options.action = Action::Info,
            Known::Guess => self.options.action = Action::Guess,
            Known::Json => self.options.is_json = true,
            Known::Overwrite => self.options.may_overwrite = true,
            Known::NoOverwrite => self.options.may_overwrite = false,
            Known::Quiet => self.options.is_quiet = true,
            _ => self.request = Some(known),
        }
    }

    /// Takes an option of what is written. Returns `None` if its value is invalid.
    fn put_value(&mut self, known: Known, value: &'a str) -> Option<()> {
        match known {
            Known::Output if value.is_empty() => return None,
            Known::ShowDamage => {
                if !matches!(format_of_name(value), Some(Format::Png)) {
                    return None;
                }
                self.options.output = Some(value);
                self.options.format = Format::Png;
                self.options.is_damage_shown = true;
            }
            Known::Output => {
                self.options.output = Some(value);
                self.has_output = true;
            }
            Known::Format => {
                self.options.format = format_of(value)?;
                self.has_format = true;
            }
            Known::Encode => self.options.encoding = Some(encoding_of(value)?),
            Known::Resolution => self.options.resolution = Some(resolution_of(value)?),
            Known::Rotate => self.options.rotation = rotation_of(value)?,
            _ => self.options.rows_per_strip = above_zero(value)?,
        }
        Some(())
    }

    /// Takes an option of raw data. Returns `None` if its value is invalid.
    fn put_raw(&mut self, known: Known, value: &str) -> Option<()> {
        let raw = &mut self.options.raw;
        match known {
            Known::Mode => {
                raw.settings.encoding = mode_of(value)?;
                raw.is_wanted = true;
            }
            Known::Width => {
                raw.settings.columns = above_zero(value)?;
                raw.has_width = true;
            }
            Known::Rows => {
                raw.settings.rows = number_of(value)?;
                self.has_limit = true;
            }
            Known::Height => {
                raw.settings.rows = above_zero(value)?;
                raw.has_height = true;
            }
            _ => raw.set_flags(value)?,
        }
        Some(())
    }

    /// Returns the run that is asked for, once all arguments are taken.
    fn finish(self) -> Result<Request<'a>, ArgumentError<'a>> {
        let Reading {
            alloc: _,
            mut options,
            has_output,
            has_format,
            has_limit,
            request: _,
        } = self;
        if !has_format && matches!(options.program, Program::Faxconv) {
            if let Some(name) = options.output {
                match format_of_name(name) {
                    Some(format) => options.format = format,
                    None => return Err(ArgumentError::NoFormat(name)),
                }
            }
        }
        if options.is_damage_shown && has_output {
            return Err(ArgumentError::Excluded("--show-damage", "--output"));
        }
        if options.is_damage_shown && has_format {
            return Err(ArgumentError::Excluded("--show-damage", "--format"));
        }
        if options.is_copy && options.encoding.is_some() {
            return Err(ArgumentError::Excluded("--copy", "--encode"));
        }
        if options.is_standard && !matches!(options.action, Action::Check) {
            return Err(ArgumentError::Needs("--standard", "--check"));
        }
        if has_limit && options.raw.has_height {
            return Err(ArgumentError::Excluded("--rows", "--height"));
        }
        Ok(Request::Run(options))
    }
}

/// Returns the number above 0 that an argument writes.
fn above_zero(arg: &str) -> Option<u32>
    ensures { IfSome result (λ number. 0 < number) }
{
    match number_of(arg) {
        Some(number) if number > 0 => Some(number),
        _ => None,
    }
}

/// Returns the format that an argument names.
fn format_of(arg: &str) -> Option<Format> {
    match arg {
        "pbm" => Some(Format::Pbm),
        "png" => Some(Format::Png),
        "tif" | "tiff" => Some(Format::Tiff),
        "pdf" => Some(Format::Pdf),
        _ => None,
    }
}

/// Returns the format that the extension of a name names.
fn format_of_name(name: &str) -> Option<Format> {
    let (_, extension) = split_extension(name)?;
    format_of(extension)
}

/// Returns the encoding that an argument names.
fn encoding_of(arg: &str) -> Option<Encoding> {
    match arg {
        "g4" => Some(Encoding::Group4),
        "1d" => Some(Encoding::OneDimension),
        "2d" => Some(Encoding::TwoDimensions),
        "shortest" => Some(Encoding::Shortest),
        _ => None,
    }
}

/// Returns the turn that an argument names in degrees clockwise.
fn rotation_of(arg: &str) -> Option<Rotation> {
    match arg {
        "0" => Some(Rotation::None),
        "90" => Some(Rotation::Quarter),
        "180" => Some(Rotation::Half),
        "270" => Some(Rotation::ThreeQuarters),
        _ => None,
    }
}

/// Returns the resolution that an argument names: a number, or two with `x` between them, across and down.
fn resolution_of(arg: &str) -> Option<DotsPerInch> {
    let (across, down) = match arg.split_once('x') {
        Some((across, down)) => (across, down),
        None => (arg, arg),
    };
    Some(DotsPerInch {
        across: above_zero(across)?,
        down: above_zero(down)?,
    })
}
