//! What the program is asked to do.

ghost use Rattle.std.specs.Prelude.{◌≡◌, OnSome, IfNone, is_some, codes, true};
ghost use Rattle.fax_encode.specs.Settings.{names_encoding};
ghost use Rattle.fax_program.specs.Arguments.{are_flags};
ghost use Rattle.faxconv_lib.specs.RawData.{with_flags};

use crate::pages::PageList;
use fax_encode::{Effort, EncodeSettings};
use fax_pages::{Page, RawForm, raw_page};
use fax_program::arguments::{are_flags, has_flag, order_with};
use hayro_ccitt::bit_reader::BitOrder;
use hayro_ccitt::{DecodeSettings, EncodingMode};
use std::alloc::{AllocError, Global};

/// The name by which the program is called.
#[derive(Clone, Copy)]
pub enum Program {
    /// `faxconv`
    Faxconv,
    /// `fax2pbm`, which counts pages from 0, numbers each picture, and writes PBM alone.
    Fax2pbm,
}

/// What is done with the pages of each file.
#[derive(Clone, Copy)]
pub enum Action {
    /// They are written as pictures, or as pages of a document.
    Convert,
    /// A line for each page says whether it can be read strictly.
    Check,
    /// A line for each page says its size, its resolution and how it is encoded. It isn't decoded.
    Info,
    /// A line for each way in which raw fax data may be encoded says what speaks for it.
    Guess,
}

/// The format that is written.
#[derive(Clone, Copy)]
pub enum Format {
    /// A portable bitmap.
    Pbm,
    /// A picture of Portable Network Graphics.
    Png,
    /// A TIFF document.
    Tiff,
    /// A PDF document.
    Pdf,
}

/// How pages of a document are encoded again.
#[derive(Clone, Copy)]
pub enum Encoding {
    /// Group 4
    Group4,
    /// Group 3 of one dimension
    OneDimension,
    /// Group 3 of two dimensions
    TwoDimensions,
    /// Group 4 in the fewest bits that encode the lines
    Shortest,
}

impl Encoding {
    /// Returns the settings of the encoder: Group 4 is closed by EOFB, the lines of Group 3 have EOLs and no RTC, and K is 4.
    pub fn settings(self) -> EncodeSettings
        ensures { names_encoding result ≡ true }
    {
        let (encoding, effort) = match self {
            Encoding::Group4 => (EncodingMode::Group4, Effort::Procedure),
            Encoding::OneDimension => (EncodingMode::Group3_1D, Effort::Procedure),
            Encoding::TwoDimensions => (EncodingMode::Group3_2D, Effort::Procedure),
            Encoding::Shortest => (EncodingMode::Group4, Effort::Shortest),
        };
        let is_group4 = matches!(encoding, EncodingMode::Group4);
        EncodeSettings {
            encoding,
            k: 4,
            end_of_line: !is_group4,
            eols_end_at_bytes: false,
            rows_are_byte_aligned: false,
            end_of_block: is_group4,
            order: BitOrder::HighestFirst,
            effort,
        }
    }
}

/// How far pages are turned clockwise.
#[derive(Clone, Copy)]
pub enum Rotation {
    /// Not at all
    None,
    /// By 90 degrees
    Quarter,
    /// By 180 degrees
    Half,
    /// By 270 degrees
    ThreeQuarters,
}

/// Pixels an inch.
#[derive(Clone, Copy)]
pub struct DotsPerInch {
    /// From left to right.
    pub across: u32,
    /// From top to bottom.
    pub down: u32,
}

/// What raw fax data is.
#[derive(Clone, Copy)]
pub struct RawOptions {
    /// Whether a file of no other kind is raw fax data: an option has named its encoding.
    pub is_wanted: bool,
    /// The settings of its decoding.
    pub settings: DecodeSettings,
    /// Which bit of each byte comes first.
    pub order: BitOrder,
    /// Whether the settings' rows are the height of the picture. Else they are the most rows that there can be, and 0 is no limit.
    pub has_height: bool,
    /// Whether an option has named the width.
    pub has_width: bool,
}

/// What is read and written, and how.
#[derive(Drop)]
pub struct Options<'a> {
    /// The name by which the program was called.
    pub program: Program,
    /// What is done.
    pub action: Action,
    /// The format that is written.
    pub format: Format,
    /// The name that is written to, or `None` for standard output.
    pub output: Option<&'a str>,
    /// The pages that are wanted.
    pub pages: PageList,
    /// How pages of a document are encoded again. `None` if they are copied where they can be.
    pub encoding: Option<Encoding>,
    /// Whether pages are copied without reading them, where they can be.
    pub is_copy: bool,
    /// Whether a check also says where data breaks a rule by which every decoder must read it as the same picture.
    pub is_standard: bool,
    /// Whether lines of `--info`, `--check` and `--guess` are JSON.
    pub is_json: bool,
    /// Whether damaged rows are shown in colour, above a legend.
    pub is_damage_shown: bool,
    /// Whether files that exist are overwritten.
    pub may_overwrite: bool,
    /// Whether damage and what is left out isn't reported.
    pub is_quiet: bool,
    /// The resolution in place of that of the files.
    pub resolution: Option<DotsPerInch>,
    /// How far pages are turned.
    pub rotation: Rotation,
    /// The rows of each strip of TIFF, or 0 for one strip a page.
    pub rows_per_strip: u32,
    /// What raw data is.
    pub raw: RawOptions,
    /// The files that are read. Standard input is read if there are none, and where one is `-`.
    pub files: Vec<&'a str>,
}

impl<'a> Options<'a> {
    /// Creates the options of a run without arguments.
    pub fn new(alloc: Global, program: Program) -> Options<'a> {
        Options {
            program,
            action: Action::Convert,
            format: Format::Pbm,
            output: None,
            pages: PageList::all(alloc),
            encoding: None,
            is_copy: false,
            is_standard: false,
            is_json: false,
            is_damage_shown: false,
            may_overwrite: false,
            is_quiet: false,
            resolution: None,
            rotation: Rotation::None,
            rows_per_strip: 0,
            raw: RawOptions::new(),
            files: Vec::new(alloc),
        }
    }
}

impl RawOptions {
    /// Creates the options of data that nothing is said of: Group 3 of one dimension, 1728 columns, perhaps with RTC.
    fn new() -> RawOptions {
        RawOptions {
            is_wanted: false,
            settings: DecodeSettings {
                columns: 1728,
                rows: 0,
                end_of_block: true,
                end_of_line: false,
                rows_are_byte_aligned: false,
                encoding: EncodingMode::Group3_1D,
                strict: false,
            },
            order: BitOrder::HighestFirst,
            has_height: false,
            has_width: false,
        }
    }

    /// Creates the options of data that is read by these settings.
    pub fn of_guess(settings: DecodeSettings, order: BitOrder) -> RawOptions
        ensures settings { result.settings ≡ settings }
        ensures order { result.order ≡ order }
    {
        let mut raw = RawOptions::new();
        raw.settings = settings;
        raw.order = order;
        raw
    }

    /// Returns the height of the picture, if it is known.
    pub fn height(&self) -> Option<u64> {
        if self.has_height {
            Some(u64::from(self.settings.rows))
        } else {
            None
        }
    }

    /// Returns data as a page, of so many rows if it is known how many it has.
    ///
    /// # Errors
    ///
    /// If an allocation fails.
    pub fn page<'a>(
        &self,
        alloc: Global,
        bytes: &'a [u8],
        rows: Option<u64>,
    ) -> Result<Page<'a>, AllocError> {
        let (rows, has_height) = match rows {
            Some(rows) => (u32::try_from(rows).unwrap_or(u32::MAX), true),
            None => (self.settings.rows, self.has_height),
        };
        let form = RawForm {
            settings: DecodeSettings {
                rows,
                ..self.settings
            },
            order: self.order,
            has_height,
        };
        raw_page(alloc, bytes, &form)
    }

    /// Sets what the letters of `--flags` mean. Returns `None` if they are no flags.
    pub(crate) fn set_flags(&mut self, flags: &str) -> Option<()>
        ensures valid { is_some result ≡ are_flags (codes "blasr") flags.now }
        ensures set { OnSome result (self.new ≡ with_flags flags.now self.old) }
        ensures unchanged { IfNone result (self.new ≡ self.old) }
    {
        let flags = flags.as_bytes();
        if !are_flags(flags, b"blasr") {
            return None;
        }
        self.settings.end_of_block = has_flag(flags, b'b');
        self.settings.end_of_line = has_flag(flags, b'l');
        self.settings.rows_are_byte_aligned = has_flag(flags, b'a');
        self.settings.strict = has_flag(flags, b's');
        self.order = order_with(flags);
        Some(())
    }
}
