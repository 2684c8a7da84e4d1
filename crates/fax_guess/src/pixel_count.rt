//! A sink that counts black pixels.

ghost use Rattle.std.specs.Prelude.{◌≡◌, ◌+◌, ◌-◌, ◌^◌, length, min};
ghost use Rattle.fax_guess.specs.BlackPixels.{black_of};

use hayro_ccitt::{Decoder, Result};

/// A sink that counts black pixels and keeps nothing else. The count saturates. It refuses no row.
#[derive(Drop)]
pub(crate) struct PixelCount {
    /// How many pixels a row has.
    pub(crate) columns: u32,
    /// How many of those so far were black.
    pub(crate) black: u64,
}

impl Decoder for PixelCount {
    ghost use Rattle.std.specs.Prelude.{ℕ, false};
    ghost use Rattle.fax_guess.specs.BlackPixels.{counted};

    ghost Meaning = { ℕ };

    ghost meaning = { λ sink. sink.black };

    ghost step = { counted };

    ghost width = { λ sink. sink.columns };

    ghost has_refused = { λ _. false };

    fn push_row(&mut self, changes: &[u32]) -> Result<()> {
        let black = black_in_row(self.columns, changes);
        self.black = self.black.saturating_add(black);
        Ok(())
    }
}

/// Returns how many pixels of a row are black: those between a change to black and the next one, or the row's end.
fn black_in_row(columns: u32, changes: &[u32]) -> u64
    ensures { result ≡ min (black_of columns changes.now) (2 ^ 64 - 1) }
{
    let mut black: u64 = 0;
    let mut index = 0;
    'runs: while changes.len() - index > 1 {
        black = black.saturating_add(run(changes[index], changes[index + 1]));
        index += 2;
    }
    match changes.get(index) {
        None => black,
        Some(from) => black.saturating_add(run(*from, columns)),
    }
}

/// Returns how many pixels are from one place up to another one.
fn run(from: u32, to: u32) -> u64
    ensures { result ≡ to - from }
{
    u64::from(to.saturating_sub(from))
}
