//! Laws of data that conforms, whatever program reads or writes it: contracts of functions that do nothing.

ghost use Rattle.fax_conforms.specs.Conforming.{RoundTrip};
ghost use Rattle.fax_conforms.specs.Laws.{ChosenConforms, ProcedureIsEncoded, ProcedureIsReadable};

/// Data conforms exactly if it begins with an encoding of the rows that are decoded from it, closed as the settings ask: these
/// rows, encoded by the same choices, are the same bits again.
pub fn round_trip()
    ensures { RoundTrip }
{}

/// What `fax_encode` chooses for a picture with the effort of the coding procedure conforms by it, with the K of its settings, if
/// EOLs needn't end at whole bytes. Where they must, fill is before the first EOL and before those of RTC, where the procedure writes
/// none (T.4, 4.1.3): a white row of eight columns in one dimension is `00 01 98`, and doesn't conform by the procedure.
pub fn chosen_conforms()
    ensures { ChosenConforms }
{}

/// What conforms by the procedure also conforms in the grade that every decoder must read back as its rows.
pub fn procedure_is_readable()
    ensures { ProcedureIsReadable }
{}

/// What conforms by the procedure is, bit for bit, what `fax_encode` chooses with this effort for the rows of its lines. Of the
/// data three things are asked: its lines have EOLs, and EOFB or RTC follows them, as the settings of the encoder ask; each line is
/// of the kind that the encoder chooses, with this K; and no EOL has fill. So the procedure leaves no other choice.
pub fn procedure_is_encoded()
    ensures { ProcedureIsEncoded }
{}
