//! Counting changes, and a sink that only does that.

ghost use Rattle.std.specs.Prelude.{◌≡◌, length};
ghost use Rattle.c_rows.specs.Packing.{counted};

use hayro_ccitt::Decoder;

/// Returns the number of changes with those of a row added, saturated at 2^64 - 1.
pub fn counted(count: u64, changes: &[u32]) -> u64
    ensures { result ≡ counted count (length changes.now) }
{
    count.saturating_add(changes.len() as u64)
}

/// The number of the changes of the rows so far.
#[derive(Drop)]
pub struct ChangeCount {
    changes: u64,
}

impl ChangeCount {
    ghost use Rattle.std.specs.Prelude.{◌≡◌};

    /// Creates a sink without rows.
    pub fn new() -> ChangeCount
        ensures { result ≡ record { changes = 0 } }
    {
        ChangeCount { changes: 0 }
    }

    /// Returns the number of changes.
    pub fn changes(&self) -> u64
        ensures { result ≡ self.now.changes }
    {
        self.changes
    }
}

impl Decoder for ChangeCount {
    ghost use Rattle.std.specs.Prelude.{ℕ, length, false};
    ghost use Rattle.c_rows.specs.Packing.{counted};

    ghost Meaning = { ℕ };

    ghost meaning = { λ sink. sink.changes };

    ghost step = { λ _ count row. counted count (length row) };

    ghost width = { λ _. 4294967295 };

    ghost has_refused = { λ _. false };

    fn push_row(&mut self, changes: &[u32]) -> hayro_ccitt::Result<()> {
        self.changes = counted(self.changes, changes);
        Ok(())
    }
}
