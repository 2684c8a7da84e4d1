//! Laws of the chosen encoding: each is the contract of a function that does nothing.

ghost use Rattle.fax_encode.specs.Laws.{ChosenBySettings, ChosenComesBack, ChosenIsRead, ChosenLinesEncode, DamageReachesKRows};
ghost use Rattle.fax_encode.specs.Laws.{NeverLonger, NoLineIsShorter, NoRunsAreShorter, NoneIsShorter, WorkedSettings};
ghost use Rattle.fax_encode.specs.Laws.{RowsAreChosen, BitmapRoundTripT4, BitmapRoundTripT6, ChosenIsAnEncoding, PackedIsShown};
ghost use Rattle.fax_encode.specs.Laws.{RoundTripT6, RoundTripT4, RowsArePacked};
ghost use Rattle.fax_encode.specs.Shortest.{ShortestLines, ShortestPicturesT6, ShortestRuns};

/// What is chosen for a picture encodes it: as T.6, closed by EOFB, and as one-dimensional T.4 with an EOL before each
/// line, closed by RTC.
pub fn chosen_is_an_encoding()
    ensures { ChosenIsAnEncoding }
{}

/// The bytes of a chosen encoding are read as the rows that were encoded, with settings that match: all rows, all bytes.
pub fn round_trip()
    ensures t6 { RoundTripT6 }
    ensures t4 { RoundTripT4 }
{}

/// Rows of its width that [`BitmapSink`](crate::BitmapSink) receives are packed after those that it has.
pub fn rows_are_packed()
    ensures { RowsArePacked }
{}

/// A bitmap of packed rows, with zeros after each up to a whole byte, shows those rows.
pub fn packed_is_shown()
    ensures { PackedIsShown }
{}

/// The bytes of a bitmap's chosen encoding are read as the rows that it shows, with settings that match: all rows, all
/// bytes.
pub fn bitmap_round_trip()
    ensures t6 { BitmapRoundTripT6 }
    ensures t4 { BitmapRoundTripT4 }
{}

/// For all settings of an encoder, the lines that are chosen encode the rows, with EOLs and without, as T.6 and as T.4 of either
/// kind, and so does the RTC that is chosen; a line of two-dimensional Group 3 is never longer than its one-dimensional line.
/// What [`encode_g4`](crate::encode_g4) and [`encode_1d`](crate::encode_1d) choose is chosen by some settings.
/// Four small pictures show the bytes.
pub fn chosen_by_settings()
    ensures lines { ChosenLinesEncode }
    ensures shorter { NeverLonger }
    ensures same { ChosenBySettings }
    ensures worked { WorkedSettings }
{}

/// What is chosen for a picture by any settings of an encoder, in bytes, is read as its rows, without a fault, by the settings
/// of the decoder that match: up to the end of the block if one is written, and else with the number of rows as row limit.
pub fn chosen_is_read()
    ensures read { ChosenIsRead }
    ensures again { ChosenComesBack }
{}

/// Rows passed to an [`Encoder`](crate::Encoder) one by one are encoded as all of them at once.
pub fn rows_are_chosen()
    ensures { RowsAreChosen }
{}

/// In two-dimensional Group 3 with EOLs and RTC, as it is encoded, damage within one line, tag and body, changes at most `k` rows
/// for a lenient reading: that of the line, and those of the two-dimensional lines up to the next one-dimensional one (T.4,
/// 4.2.1). What replaces the line must be a line too: after its tag is a one and no EOL, the tag isn't that of RTC, and as it is
/// read the line is broken or ends before its EOL.
pub fn damage_reaches_k_rows()
    ensures { DamageReachesKRows }
{}

/// The shortest words of a run, modes of a two-dimensional line against a reference row, and T.6 picture are encodings, and no
/// other encoding of them, with the same alignment, has fewer bits. Where T.4's words of a run, or the modes of the procedure of
/// T.4, 4.2.1.3.2 with those words, are as short, they are the shortest. What an encoder chooses with
/// [`Effort::Shortest`](crate::Effort) has no more bits than any lines that encode the rows with the same encoding, EOLs, fill,
/// alignment and end. In two-dimensional Group 3 that is said of lines of the same kinds, and there a line that may be
/// two-dimensional has no more bits than any two-dimensional one. A line of one-dimensional Group 3 has no more than any other.
pub fn shortest()
    ensures runs { ShortestRuns }
    ensures lines { ShortestLines }
    ensures pictures { ShortestPicturesT6 }
    ensures chosen { NoneIsShorter }
    ensures kinds { NoLineIsShorter }
    ensures rows { NoRunsAreShorter }
{}
