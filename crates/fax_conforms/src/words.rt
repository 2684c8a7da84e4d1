//! Words of modes and runs.

ghost use Rattle.std.specs.Prelude.{◌≡◌, ◌+◌, ◌<◌, ◌≤◌, ℕ, Ok, IfOk, IfSome, IfNone, length};
ghost use Rattle.hayro_ccitt.specs.Bits.{Bits, here};
ghost use Rattle.hayro_ccitt.specs.CodeLists.{mode_codes};
ghost use Rattle.hayro_ccitt.specs.CodeReading.{read_code};
ghost use Rattle.hayro_ccitt.specs.Mode.{Mode};
ghost use Rattle.hayro_ccitt.specs.Runs.{read_run};

use hayro_ccitt::Result;
use hayro_ccitt::bit_reader::BitReader;
use hayro_ccitt::codes::{Color, Mode, Ticks};
use hayro_ccitt::tables::Tables;
use std::alloc::Global;

/// What is needed to read words: the lookup tables, and a count of work.
#[derive(Drop)]
pub struct Words {
    tables: Tables,
    pub ticks: Ticks,
}

impl Words {
    /// Creates the tables.
    pub fn new(alloc: Global) -> Result<Words>
        ensures ticks { IfOk result (λ words. words.ticks ≡ 0) }
    {
        Ok(Words {
            tables: Tables::new(alloc)?,
            ticks: Ticks::new(),
        })
    }

    /// Reads the mode here, if there is one (T.4 table 4, T.6 table 1).
    pub fn mode(&mut self, reader: &mut BitReader<'_>) -> Option<Mode>
        ensures found { IfSome result (λ mode. read_code mode_codes (here reader.old) ≡ Ok (mode, here reader.new)) }
        ensures none { IfNone result ((mode : Mode) (rest : Bits) → read_code mode_codes (here reader.old) ≡ Ok (mode, rest)
            → ⊥) }
        ensures same_bits { reader.new.bits ≡ reader.old.bits }
        ensures ticks { self.new.ticks ≡ self.old.ticks + 1 }
        ensures shorter { IfSome result (λ mode. length (here reader.new) < length (here reader.old)) }
    {
        match reader.decode_mode(&mut self.ticks) {
            Ok(mode) => Some(mode),
            Err(_) => None,
        }
    }

    /// Reads the run of a colour here, if there is one (T.4, 4.1.1).
    pub fn run(&mut self, reader: &mut BitReader<'_>, color: Color) -> Option<u32>
        ensures found { IfSome result (λ run. read_run color (here reader.old) ≡ Ok (run, here reader.new)) }
        ensures none { IfNone result ((run : ℕ) (rest : Bits) → read_run color (here reader.old) ≡ Ok (run, rest) → ⊥) }
        ensures same_bits { reader.new.bits ≡ reader.old.bits }
        ensures counts { self.old.ticks ≤ self.new.ticks }
        ensures work { IfSome result (λ run. self.new.ticks + length (here reader.new) ≤ self.old.ticks + length (here reader.old)) }
        ensures shorter { IfSome result (λ run. length (here reader.new) < length (here reader.old)) }
        ensures at_most { self.new.ticks ≤ self.old.ticks + length (here reader.old) + 1 }
    {
        match reader.decode_run(color, &self.tables, &mut self.ticks) {
            Ok(run) => Some(run),
            Err(_) => None,
        }
    }
}
