//! What a call says that reads a row of data in pieces.

ghost use Rattle.std.specs.Prelude.{◌≡◌, ◌≢◌, Ok, false, true};
ghost use Rattle.c_rows.specs.GivenRows.{status_after};
ghost use Rattle.c_rows.specs.RowsFed.{is_fed_row, status_of_fed};
ghost use Rattle.c_rows.specs.declared.status.TheConstants.{OK, REFUSED};

use crate::reading::status_of_row;
use crate::status;
use hayro_ccitt::{Fed, Result};

/// Returns whether there was a row.
pub fn is_fed_row(answer: Result<Fed>) -> bool
    ensures { result ≡ is_fed_row answer }
{
    matches!(answer, Ok(Fed::Row))
}

/// Returns whether more data is needed.
pub fn needs_more(answer: Result<Fed>) -> bool
    ensures { result ≡ true → answer ≡ Ok Fed.NeedsMore }
{
    matches!(answer, Ok(Fed::NeedsMore))
}

/// Returns the status of a result.
pub fn status_of_fed(answer: Result<Fed>) -> u32
    ensures status { result ≡ status_of_fed answer }
    ensures not_refused { result ≢ REFUSED }
    ensures no_row { is_fed_row answer ≡ false → result ≢ OK }
{
    match answer {
        Ok(Fed::Row) => status::OK,
        Ok(Fed::End) => status::NO_ROW,
        Ok(Fed::NeedsMore) => status::NEEDS_MORE,
        Err(error) => status_of_row(Err(error)),
    }
}

/// Returns the status of a call that comes to this after this number of rows, or keeps a row.
pub fn status_after(answer: Result<Fed>, count: usize, is_kept: bool) -> u32
    ensures { result ≡ status_after answer count is_kept }
{
    if !is_kept {
        status_of_fed(answer)
    } else if count > 0 {
        status::OK
    } else {
        status::REFUSED
    }
}
