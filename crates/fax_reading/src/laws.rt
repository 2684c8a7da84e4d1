//! Laws of CCITT data, whatever program reads it: each is the contract of a function that does nothing.

ghost use Rattle.std.specs.Prelude.{IsTrue};
ghost use Rattle.fax_bits.specs.CodeLists.{white_codes, black_codes, mode_codes};
ghost use Rattle.fax_bits.specs.CodeReading.{is_prefix_free, ReadsCodes};
ghost use Rattle.fax_bits.specs.Runs.{codes_of};
ghost use Rattle.fax_bits.specs.declared.codes.Color.{Color};
ghost use Rattle.fax_reading.specs.Continuations.{LinesSettle};
ghost use Rattle.fax_reading.specs.LinesGoOn.{LinesGoOn};
ghost use Rattle.fax_reading.specs.Laws.{each_word, has_few_zeros, Synchronised, StrictThenLenient, RowLimit};
ghost use Rattle.fax_reading.specs.Laws.{ReadsClosedPictures, ReadsLimitedPictures, StrictIsUndamaged, PicturesAreUndamaged};
ghost use Rattle.fax_reading.specs.Laws.{ReadsPictureT6, ReadsLimitedRowsT6, ReadsPictureT4, ReadsLimitedPictureT4};
ghost use Rattle.fax_reading.specs.Laws.{ReadsLimitedRowsT4};
ghost use Rattle.fax_reading.specs.Laws.{AfterEofb, PicturesComeToEofb, OnePictureT6, OnePictureT4};
ghost use Rattle.fax_reading.specs.Laws.{EveryPictureHasAnEncoding, BytesBeginWithAnyBits, BitsOfBytesAreWhole, OrdersMirror};
ghost use Rattle.fax_reading.specs.Laws.{RowsOfChanges, ChangesOfRows};
ghost use Rattle.fax_reading.specs.GapsContinued.{GapsSettle};
ghost use Rattle.fax_reading.specs.Locality.{LinesByEols, StartsAre, Locality, LocalByTests};
ghost use Rattle.fax_reading.specs.LocalityByK.{LocalityByK, EncodedLinesAreBodies};
ghost use Rattle.fax_reading.specs.RowsKept.{RowsBefore, RowsAfter};

/// Code words contain few zeros. Each word of a run has at most seven at its start and three at its end, each word of a
/// mode at most five and one; none has eight consecutive ones, and each contains a one.
pub fn code_words()
    ensures white { IsTrue (each_word (has_few_zeros 7 3) white_codes) }
    ensures black { IsTrue (each_word (has_few_zeros 7 3) black_codes) }
    ensures mode { IsTrue (each_word (has_few_zeros 5 1) mode_codes) }
{}

/// Reading a code list returns the word of it that begins here, whatever follows it. If none does, the error is
/// `UnexpectedEof` exactly if the bits up to the end of the data are a prefix of a word; else it is `InvalidCode`.
pub fn code_reading()
    ensures runs { (color : Color) → ReadsCodes (codes_of color) }
    ensures modes { ReadsCodes mode_codes }
{}

/// The code words stay in step with EOLs. No word of a list is a prefix of another one. Consecutive words, and a tag
/// before them, never contain the eleven zeros of an EOL; so every word that the reading of a line finds ends before
/// the one of each EOL at or after the line's start.
pub fn synchronised()
    ensures law { Synchronised }
    ensures white { IsTrue (is_prefix_free white_codes) }
    ensures black { IsTrue (is_prefix_free black_codes) }
    ensures mode { IsTrue (is_prefix_free mode_codes) }
{}

/// The rows of a strict reading are the first rows of the lenient one; if it ends without a fault, both have the same
/// result.
pub fn strict_then_lenient()
    ensures { StrictThenLenient }
{}

/// With a row limit the rows are the first ones, as many as it allows; with that many rows the reading ends without a
/// fault.
pub fn row_limit()
    ensures { RowLimit }
{}

/// A T.6 picture is read as its rows, whatever follows: closed by EOFB, with the exact byte count; or ended by a row
/// limit of as many rows.
pub fn t6_pictures()
    ensures closed { ReadsPictureT6 }
    ensures limited { ReadsLimitedRowsT6 }
{}

/// A T.4 picture is read as its rows, whatever follows: closed by RTC, with the exact byte count; or ended by a row
/// limit of as many rows, with EOLs before its lines or without.
pub fn t4_pictures()
    ensures closed { ReadsPictureT4 }
    ensures limited { ReadsLimitedPictureT4 }
    ensures body { ReadsLimitedRowsT4 }
{}

/// A picture of any kind is read as its rows, whatever follows: closed, with the exact byte count; or ended by a row
/// limit of as many rows.
pub fn pictures()
    ensures closed { ReadsClosedPictures }
    ensures limited { ReadsLimitedPictures }
{}

/// The strict reading ends without a fault exactly if the lenient one does, and repairs no row, cuts no run and misses no EOL.
/// In a picture of any kind there is no damage.
pub fn no_damage()
    ensures strict { StrictIsUndamaged }
    ensures pictures { PicturesAreUndamaged }
{}

/// If one stream is a prefix of another, both closed, of one width, and of one alignment in T.6 or one kind in T.4,
/// their pictures are the same.
pub fn one_picture()
    ensures t6 { OnePictureT6 }
    ensures t4 { OnePictureT4 }
{}

/// If T.6 data was read up to its EOFB, as pictures are, data that begins with the same bytes up to there is read
/// the same, whatever follows.
pub fn after_eofb()
    ensures law { AfterEofb }
    ensures pictures { PicturesComeToEofb }
{}

/// One-dimensional lenient data with EOLs, read without a row limit and without looking for RTC. If each line that is
/// whole ends before the last twelve bits of the next EOL, the first rows are those of the lines that begin after EOLs,
/// each read by itself (T.4, 4.1.2).
pub fn lines_by_eols()
    ensures rows { LinesByEols }
    ensures starts { StartsAre }
{}

/// One-dimensional lenient data with EOLs. A body lies between two EOLs, or at the start of the data before the first; it
/// contains a one and no EOL, and its line, if it is whole, ends before the last twelve bits of the EOL after it. Any
/// other such body instead of it changes at most the row that is read there, and the reading ends alike (T.4,
/// 4.1.2).
pub fn locality()
    ensures one_row { Locality }
    ensures tests { LocalByTests }
{}

/// Two-dimensional lenient data of Group 3 with EOLs. A line lies between two EOLs, or at the start of the data before the
/// first, with its tag; after the tag is a one, no EOL is in between, and the line as it is read, if it is whole, ends before
/// the last twelve bits of the EOL after it. If the two-dimensional lines that follow it, up to the next one-dimensional
/// one, are lines of encodings, then another such line instead of it changes at most its row and theirs, and the reading
/// ends alike. Each line of an encoding is such a line (T.4, 4.1.2 and 4.2).
pub fn locality_by_k()
    ensures rows { LocalityByK }
    ensures bodies { EncodedLinesAreBodies }
{}

/// Damage changes no row before it, in any encoding: if two inputs begin with the same bits up to the start of a line of the
/// one, the rows before that line are the same in both. The line is one that the reading reaches without having given up
/// EOLs, which it does where it misses one and there is none in the rest of the data (T.4, 4.1.2).
pub fn rows_before()
    ensures { RowsBefore }
{}

/// Whatever damage there is between two EOLs of lenient Group 3 data, bits that are changed, lost or added, the rows are the
/// same again after the next EOL. The line between that EOL and the damage is broken or ends before the last twelve bits of
/// the EOL, whatever row it is read against; the damage makes no RTC; and in two-dimensional data a one-dimensional line
/// follows the EOL. The readings have no row limit, seek EOLs, and end alike (T.4, 4.1.2).
/// `hayro_ccitt::in_step_from` finds where.
pub fn rows_after()
    ensures { RowsAfter }
{}

/// `gap_is_settled` tests the bits that are known after a row: it says exactly whether the gap there is the same whatever bits
/// follow. Then whether an EOL is missed is the same too, and so is what is counted of it. Where the test fails, whole bytes
/// can follow that change the gap. `first_gap_is_settled` says so of the first gap of the data (T.4, 4.1.2 and 4.1.4; T.6,
/// 2.4.1.1).
pub fn gaps_settle()
    ensures { GapsSettle }
{}

/// Valid lists of changes and rows of pixels correspond one to one (T.4, 4.2.1.1).
pub fn changes_are_rows()
    ensures pixels { RowsOfChanges }
    ensures changes { ChangesOfRows }
{}

/// The laws speak of bits. The bits of bytes fill whole bytes, in either order, and the orders mirror each other in each
/// byte.
pub fn bits_of_bytes()
    ensures whole { BitsOfBytesAreWhole }
    ensures mirrored { OrdersMirror }
{}

/// Every picture with a column has a T.6 encoding, and with a row a T.4 encoding of each kind, and any bits are the
/// first of some bytes, in either order: the laws about encodings apply to all pictures.
pub fn every_picture_has_an_encoding()
    ensures bits { EveryPictureHasAnEncoding }
    ensures bytes { BytesBeginWithAnyBits }
{}

/// A line is short if the bits end within it before any of its words is wrong. Exactly the lines that aren't short are the
/// same whatever bits follow; so are the strict reading of such a line, its words and, if whole bytes follow, its row or
/// its fault. No line is short that has two bytes of zeros after it.
pub fn lines_settle()
    ensures { LinesSettle }
{}

/// Each short line goes on from a part of it, whatever bits follow: the words that were read are not read again, and fewer than
/// thirteen bits are left, which are the beginning of the next word. The line from the start on is the line; after one word more it
/// is the same line, and it ends with that word as it does whatever follows.
pub fn lines_go_on()
    ensures { LinesGoOn }
{}
