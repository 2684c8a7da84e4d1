//! How much of a file may still be read.

ghost use Rattle.std.specs.Prelude.{◌≡◌, ◌+◌, ◌*◌, ◌^◌, ◌-◌, ◌<◌, ◌↔◌, min, nat_lt, IfSome, IsNone, if◌then◌else◌};

use std::marker::Model;

/// How many bytes may be read of a file, whatever its size, and for each of its bytes.
pub(crate) const LEAST: u64 = 1 << 24;

const READS_OF_A_BYTE: u64 = 16;

/// How many bytes may still be read.
#[derive(Drop)]
pub(crate) struct Allowance {
    left: u64,
}

impl Model for Allowance {
    ghost use Rattle.std.specs.Prelude.{ℕ};

    ghost Value = { ℕ };

    ghost view = { λ a. a.left };
}

/// Leave to read so many bytes, which are paid for.
#[derive(Drop)]
pub struct Paid {
    count: u64,
}

impl Model for Paid {
    ghost use Rattle.std.specs.Prelude.{ℕ};

    ghost Value = { ℕ };

    ghost view = { λ p. p.count };
}

impl Allowance {
    /// Returns the allowance of a file of so many bytes.
    pub(crate) fn of_size(size: u64) -> Allowance
        ensures { result ≡ min (2 ^ 24 + 16 * size) (2 ^ 64 - 1) }
    {
        Allowance {
            left: LEAST.saturating_add(READS_OF_A_BYTE.saturating_mul(size)),
        }
    }

    /// Pays for so many bytes; `None` if fewer may be read.
    pub(crate) fn pay(&mut self, count: u64) -> Option<Paid>
        ensures paid { IfSome result (λ paid. paid ≡ count) }
        ensures left { self.new ≡ (if nat_lt self.old count then self.old else self.old - count) }
        ensures spent { IsNone result ↔ (self.old < count) }
    {
        if count > self.left {
            return None;
        }
        self.left -= count;
        Some(Paid { count })
    }
}
