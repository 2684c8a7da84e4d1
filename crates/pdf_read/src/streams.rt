//! The filters of streams (ISO 32000-1, 7.4), those of pictures excepted.

ghost use Rattle.std.specs.Prelude.{◌≡◌, ◌+◌, ◌*◌, ◌<◌, ◌≤◌, length, vec_len, IfOk, IfSome, OnOk, OnErr};
ghost use Rattle.pdf_read.specs.Payments.{Held, Spends};
ghost use Rattle.pdf_values.specs.Payments.{Pays};

use crate::error::PdfError;
use crate::pdf::Pdf;
use filters::{
    EarlyChange, FilterError, RowShape, decode_ascii_hex, decode_ascii85, decode_lzw,
    decode_run_length, undo_png_predictor, undo_tiff_predictor,
};
use inflate::{InflateError, inflate_zlib};
use paid_cursor::{Cursor, Stop};
use pdf_values::{Item, Span, Texts};

/// What is to be undone.
#[derive(Clone, Copy)]
pub(crate) enum Filter {
    AsciiHex,
    Ascii85,
    Lzw(EarlyChange),
    Flate,
    RunLength,
    PngPredictor(RowShape),
    TiffPredictor(RowShape),
    /// CCITTFaxDecode.
    Fax,
    /// One that isn't known here.
    Unknown,
}

/// How many filters a stream has at most.
const MOST_FILTERS: usize = 8;

/// Undoes a filter in some bytes. Data that is damaged gives what comes before the damage, and no data, though said to be deflated, gives
/// none.
pub(crate) fn undo(
    source: &mut Cursor<'_>,
    bytes: &[u8],
    filter: Filter,
    out: &mut Vec<u8>,
) -> Result<(), PdfError>
    ensures { Pays source.old source.new }
{
    let mut lent = source.lend(bytes);
    let done = match filter {
        Filter::AsciiHex => outcome(decode_ascii_hex(&mut lent, out)),
        Filter::Ascii85 => outcome(decode_ascii85(&mut lent, out)),
        Filter::Lzw(change) => outcome(decode_lzw(&mut lent, out, change)),
        Filter::RunLength => outcome(decode_run_length(&mut lent, out)),
        Filter::PngPredictor(shape) => outcome(undo_png_predictor(&mut lent, out, shape)),
        Filter::TiffPredictor(shape) => outcome(undo_tiff_predictor(&mut lent, out, shape)),
        // Empty contents are written so.
        Filter::Flate if bytes.is_empty() => Ok(()),
        Filter::Flate => match inflate_zlib(&mut lent, out) {
            Err(InflateError::Spent) => Err(PdfError::Spent),
            Err(InflateError::OutOfMemory) => Err(PdfError::OutOfMemory),
            Err(_) => Err(PdfError::BadFilter),
            Ok(()) => Ok(()),
        },
        Filter::Fax | Filter::Unknown => Err(PdfError::BadFilter),
    };
    source.take_back(lent);
    match done {
        Err(PdfError::BadFilter) if out.len() > 0 => Ok(()),
        done => done,
    }
}

/// Returns what the outcome of a filter means here.
fn outcome(done: Result<(), FilterError>) -> Result<(), PdfError> {
    match done {
        Ok(()) => Ok(()),
        Err(FilterError::Spent) => Err(PdfError::Spent),
        Err(FilterError::OutOfMemory) => Err(PdfError::OutOfMemory),
        Err(_) => Err(PdfError::BadFilter),
    }
}

impl<'a> Pdf<'a> {
    /// Returns whether a name is one of two.
    pub(crate) fn is_either(&self, name: Option<usize>, long: &[u8], short: &[u8]) -> bool {
        self.is_name(name, long) || self.is_name(name, short)
    }

    /// Returns the filter of a name (ISO 32000-1, tables 6 and 94).
    fn filter_of(&mut self, name: Option<usize>, parameters: Option<usize>) -> Result<Filter, Stop>
        ensures { Spends self.old self.new }
    {
        if self.is_either(name, b"CCITTFaxDecode", b"CCF") {
            Ok(Filter::Fax)
        } else if self.is_either(name, b"FlateDecode", b"Fl") {
            Ok(Filter::Flate)
        } else if self.is_either(name, b"LZWDecode", b"LZW") {
            Ok(Filter::Lzw(match self.count(parameters, b"EarlyChange", 1)? {
                0 => EarlyChange::Late,
                _ => EarlyChange::Early,
            }))
        } else if self.is_either(name, b"ASCII85Decode", b"A85") {
            Ok(Filter::Ascii85)
        } else if self.is_either(name, b"ASCIIHexDecode", b"AHx") {
            Ok(Filter::AsciiHex)
        } else if self.is_either(name, b"RunLengthDecode", b"RL") {
            Ok(Filter::RunLength)
        } else {
            Ok(Filter::Unknown)
        }
    }

    /// Returns one of the filters of a stream, and the index of its parameters; `None` after the last one.
    fn filter_at(
        &mut self,
        dictionary: usize,
        index: usize,
    ) -> Result<Option<(Filter, Option<usize>)>, Stop>
        ensures { Spends self.old self.new }
    {
        let filters = self.either(Some(dictionary), b"Filter", b"F")?;
        let name = self.element_or_whole(filters, index)?;
        if name.is_none() {
            return Ok(None);
        }
        let all = self.either(Some(dictionary), b"DecodeParms", b"DP")?;
        let parameters = self.element_or_whole(all, index)?;
        Ok(Some((self.filter_of(name, parameters)?, parameters)))
    }

    /// Returns the element of an array; of what is none, the whole is its first.
    pub(crate) fn element_or_whole(
        &mut self,
        at: Option<usize>,
        index: usize,
    ) -> Result<Option<usize>, Stop>
        ensures { Spends self.old self.new }
    {
        match self.item(at) {
            Some(Item::Array(_)) => self.element(at, index),
            _ if index == 0 => Ok(at),
            _ => Ok(None),
        }
    }

    /// Returns the predictor that parameters name (ISO 32000-1, table 8), if there is one.
    fn predictor_of(&mut self, parameters: Option<usize>) -> Result<Option<Filter>, Stop>
        ensures { Spends self.old self.new }
    {
        let predictor = self.count(parameters, b"Predictor", 1)?;
        if predictor < 2 {
            return Ok(None);
        }
        let components = self.count(parameters, b"Colors", 1)?;
        let bits = self.count(parameters, b"BitsPerComponent", 8)?;
        let columns = self.count(parameters, b"Columns", 1)?;
        let pixel_bits = u64::from(components).saturating_mul(u64::from(bits));
        let shape = RowShape {
            pixel_bytes: (pixel_bits.div_ceil(8)).max(1) as usize,
            row_bytes: pixel_bits.saturating_mul(u64::from(columns)).div_ceil(8) as usize,
        };
        Ok(Some(match predictor {
            2 if bits == 8 => Filter::TiffPredictor(shape),
            2 => Filter::Unknown,
            _ => Filter::PngPredictor(shape),
        }))
    }

    /// Undoes a filter, in what was undone before it, or else in the data as it stands.
    fn undo_one(
        &mut self,
        undone: Option<Vec<u8>>,
        data: Span,
        filter: Filter,
    ) -> Result<Vec<u8>, PdfError>
        ensures { Spends self.old self.new }
    {
        let mut out: Vec<u8> = Vec::new(self.alloc);
        match undone {
            Some(before) => undo(&mut self.source, before.as_slice(), filter, &mut out)?,
            None => {
                let texts = Texts {
                    file: self.source.bytes(),
                    decoded: self.decoded.as_slice(),
                };
                undo(&mut self.source, texts.bytes(data), filter, &mut out)?;
            }
        }
        Ok(out)
    }

    /// Undoes the filters of a stream, up to CCITTFaxDecode if it is among them. Returns `None` if there are none to be undone.
    pub(crate) fn undo_filters(
        &mut self,
        dictionary: usize,
        data: Span,
    ) -> Result<Option<Vec<u8>>, PdfError>
        ensures { Spends self.old self.new }
    {
        let mut undone: Option<Vec<u8>> = None;
        'filters: for index in 0..MOST_FILTERS {
            let (filter, parameters) = match self.filter_at(dictionary, index)? {
                None | Some((Filter::Fax, _)) => return Ok(undone),
                Some(it) => it,
            };
            undone = Some(self.undo_one(undone, data, filter)?);
            if let Filter::Lzw(_) | Filter::Flate = filter {
                if let Some(predictor) = self.predictor_of(parameters)? {
                    undone = Some(self.undo_one(undone, data, predictor)?);
                }
            }
        }
        Err(PdfError::BadFilter)
    }

    /// Adds the data of a stream, without its filters, to what is decoded, and returns it; as it is if it has none.
    pub(crate) fn decode(&mut self, dictionary: usize, data: Span) -> Result<Span, PdfError>
        ensures { Spends self.old self.new }
    {
        match self.undo_filters(dictionary, data)? {
            None => Ok(data),
            Some(bytes) => self.keep(bytes),
        }
    }

    /// Adds bytes to what is decoded, for a step each.
    pub(crate) fn keep(&mut self, bytes: Vec<u8>) -> Result<Span, PdfError>
        ensures { Spends self.old self.new }
    {
        let start = self.end_of_decoded();
        self.source.put_all(&mut self.decoded, bytes.as_slice())?;
        let end = self.end_of_decoded();
        Ok(Span { start, end })
    }

    /// Returns how many bytes the file and what is decoded have.
    pub(crate) fn end_of_decoded(&self) -> usize {
        self.source.bytes().len().saturating_add(self.decoded.len())
    }
}
