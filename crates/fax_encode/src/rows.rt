//! Lists of changes, tested before they are encoded.

ghost use Rattle.std.specs.Prelude.{◌↔◌, IsTrue, MatchOption, map};
ghost use Rattle.fax_reading.specs.Rows.{AreChanges};
ghost use Rattle.fax_encode.specs.Chosen.{AreRows};
ghost use Rattle.fax_encode.specs.Refusals.{IsFirstUnlawful};

/// Returns whether a list is strictly ascending and below the width.
pub fn is_row(columns: u32, changes: &[u32]) -> bool
    ensures { IsTrue result ↔ AreChanges columns changes.now }
{
    let mut least: u64 = 0;
    for change in changes {
        let place = u64::from(*change);
        if place < least || *change >= columns {
            return false;
        }
        least = place + 1;
    }
    true
}

/// Returns the index of the first list that isn't a row of the width.
pub fn first_unlawful(columns: u32, rows: &[Vec<u32>]) -> Option<usize>
    ensures { MatchOption result (AreRows columns (map (λ row. row.items) rows.now))
        (λ k. IsFirstUnlawful columns (map (λ row. row.items) rows.now) k) }
{
    for (index, row) in rows.iter().enumerate() {
        if !is_row(columns, row.as_slice()) {
            return Some(index);
        }
    }
    None
}
