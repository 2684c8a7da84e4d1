//! Colours, modes, and the code words and EOLs of the data.

ghost use Rattle.std.specs.Prelude.{◌≡◌, ◌≢◌, ℕ, ◌+◌, ◌-◌, ◌*◌, ◌^◌, ◌<◌, ◌≤◌, ◌==◌, ◌↔◌, ◌++◌, ◌∷◌, IsTrue, IfSome, IfNone};
ghost use Rattle.std.specs.Prelude.{IfErr, MatchResult, Ok, Err, Some, None, true, false, length, replicate, nat_le};
ghost use Rattle.std.specs.Prelude.{if◌then◌else◌};
ghost use Rattle.std.specs.Prelude.{drop, [], slice_get, is_some, min, pos};
ghost use Rattle.std.specs.Borrow.{ftrue};
ghost use Rattle.fax_bits.specs.Faults.{IsFault};
ghost use Rattle.fax_bits.specs.Bits.{Bits, here};
ghost use Rattle.fax_bits.specs.CodeLists.{mode_codes};
ghost use Rattle.fax_bits.specs.CodeReading.{read_code, leading_zeros};
ghost use Rattle.fax_bits.specs.EndOfLine.{after_eol, eols, all_eols, next_eol, past_tag, eols_with_tags, pass_last_tag};
ghost use Rattle.fax_bits.specs.EndOfLine.{tagged_eols};
ghost use Rattle.fax_bits.specs.Ones.{holds_one};
ghost use Rattle.fax_bits.specs.LookUps.{entry_of, lookup_bits, mode_in, padded, seven_bits};
ghost use Rattle.fax_bits.specs.ReaderSteps.{CountsBits, CountsBitsAtLeast, CountsNoEol, Reads};
ghost use Rattle.fax_bits.specs.Runs.{codes_of, opposite, read_run, run_from};
ghost use Rattle.fax_bits.specs.WordsHere.{IsWordHere, RunGoesOn};
ghost use Rattle.fax_bits.specs.Window.{moved};
ghost use Rattle.fax_bits.specs.Ticks.{run_found, missed, looked, looked_at_tag};

use crate::bit_reader::{BitReader, BitScanner, at_bit, copy, go_to, none_at_hand};
use crate::tables::{LOOKUP_INVALID, Tables};
use crate::window_words::pass_makeup_words;
use crate::{DecodeError, Result};
use std::marker::Model;

/// The colour of a run of pixels.
#[derive(Debug, Clone, Copy, PartialEq, Eq)]
pub enum Color {
    /// A white pixel, a 0 in a bitmap.
    White,
    /// A black pixel, a 1 in a bitmap.
    Black,
}

impl Color {
    /// Returns the other colour.
    pub fn opposite(self) -> Color
        ensures { result ≡ opposite self }
    {
        match self {
            Color::White => Color::Black,
            Color::Black => Color::White,
        }
    }

    /// Returns whether this is white.
    pub fn is_white(self) -> bool
        ensures { IsTrue result ↔ (self ≡ Color.White) }
    {
        matches!(self, Color::White)
    }

    /// Returns the number of bits by which runs of this colour are looked up: those of its longest word.
    #[inline(always)]
    pub(crate) fn lookup_bits(self) -> usize
        ensures value { result ≡ lookup_bits self }
        ensures some { 0 < result }
        ensures few { result ≤ 13 }
    {
        match self {
            Color::White => 12,
            Color::Black => 13,
        }
    }
}

/// A mode of a two-dimensional line (T.4, 4.2.1.3, T.6, 2.2.3).
#[derive(Debug, Clone, Copy, PartialEq, Eq)]
pub enum Mode {
    /// Pass mode: the colour continues up to below b2.
    Pass,
    /// Horizontal mode: two runs follow.
    Horizontal,
    /// Vertical mode: the next changing element is this far right of b1, from -3 to 3.
    Vertical(i8),
}

/// The count of work that decoding has done: code words read, bits examined, stored changes examined. It has no bytes
/// and a program can't read it; contracts see a number.
#[derive(Drop)]
pub struct Ticks {
    ghost count: { ℕ },
}

impl Model for Ticks {
    ghost also_owns = { λ _. ftrue };

    ghost Value = { ℕ };

    ghost view = { λ t. t.count };
}

impl Ticks {
    /// Creates a count of zero.
    pub fn new() -> Ticks
        ensures { result ≡ 0 }
    {
        Ticks {}
    }

    /// Returns the count after one more tick. Besides `new` this is the only function that is proved by hand: no other
    /// can make a count.
    fn after(_before: &Ticks) -> Ticks
        ensures { result ≡ _before.now + 1 }
    {
        Ticks {}
    }

    /// Counts one tick.
    pub fn tick(&mut self)
        ensures { self.new ≡ self.old + 1 }
    {
        let next = Ticks::after(self);
        *self = next;
    }
}

/// Counts `n` ticks. This is only for the proof: the loop does nothing, and so it leaves no code.
pub fn tick_times(ticks: &mut Ticks, n: usize)
    ensures { ticks.new ≡ ticks.old + n }
{
    for _ in 0..n {
        ticks.tick();
    }
}

/// Returns the mode whose word begins these seven bits, `None` if there is none, and the number of bits that decide it:
/// those of the word, or one more than the bits that agree with any.
#[inline(always)]
pub fn mode_of(bits: u32) -> (Option<Mode>, usize)
    requires { bits < 128 }
    ensures found { result ≡ mode_in (seven_bits bits) }
    ensures few { result.1 ≤ 7 }
    ensures v0 { result.0 ≡ Some (Mode.Vertical (pos 0)) → result.1 ≡ 1 }
    ensures horizontal { result.0 ≡ Some Mode.Horizontal → result.1 ≡ 3 }
    ensures pass { result.0 ≡ Some Mode.Pass → result.1 ≡ 4 }
{
    // Each test is of one bit: those before it are zeros.
    if (bits >> 6) % 2 == 1 {
        (Some(Mode::Vertical(0)), 1)
    } else if (bits >> 5) % 2 == 1 {
        if (bits >> 4) % 2 == 1 {
            (Some(Mode::Vertical(1)), 3)
        } else {
            (Some(Mode::Vertical(-1)), 3)
        }
    } else if (bits >> 4) % 2 == 1 {
        (Some(Mode::Horizontal), 3)
    } else if (bits >> 3) % 2 == 1 {
        (Some(Mode::Pass), 4)
    } else if (bits >> 2) % 2 == 1 {
        if (bits >> 1) % 2 == 1 {
            (Some(Mode::Vertical(2)), 6)
        } else {
            (Some(Mode::Vertical(-2)), 6)
        }
    } else if (bits >> 1) % 2 == 1 {
        if bits % 2 == 1 {
            (Some(Mode::Vertical(3)), 7)
        } else {
            (Some(Mode::Vertical(-3)), 7)
        }
    } else {
        (None, 6)
    }
}

/// Returns whether a mode is V0.
#[inline(always)]
fn is_v0(mode: Option<Mode>) -> bool
    ensures v0 { result ≡ true → mode ≡ Some (Mode.Vertical (pos 0)) }
    ensures other { result ≡ false → mode ≢ Some (Mode.Vertical (pos 0)) }
{
    matches!(mode, Some(Mode::Vertical(0)))
}

impl<'a> BitReader<'a> {
    /// Returns the entry of the next bits, padded with zeros, in the lookup table of a colour.
    #[inline(always)]
    fn look_up(&self, color: Color, tables: &Tables) -> u16
        ensures { result ≡ entry_of (codes_of color) (padded (lookup_bits color) (here self.now)) }
    {
        let index = self.peek_u32() >> (32 - color.lookup_bits());
        tables.lookup(color)[index as usize]
    }

    /// Reads a word of a colour's list, which is one tick.
    #[inline(always)]
    fn decode_word(&mut self, color: Color, tables: &Tables, ticks: &mut Ticks) -> Result<u16>
        ensures word { Reads (read_code (codes_of color)) self.old self.new result }
        ensures fault { IfErr result IsFault }
        ensures same_bits { self.new.bits ≡ self.old.bits }
        ensures ticks { ticks.new ≡ ticks.old + 1 }
    {
        // A word that isn't here was looked for too.
        ticks.tick();
        let entry = self.look_up(color, tables);
        // If the data ends inside a word these bits aren't there.
        self.consume(usize::from(entry >> 12))?;
        let run = entry & LOOKUP_INVALID;
        if run == LOOKUP_INVALID {
            return Err(DecodeError::InvalidCode);
        }
        Ok(run)
    }

    /// Passes make-up words of a run whose words before them sum to `start`, as long as they are at hand, and returns the
    /// sum with them. Runs with so many words are rare.
    #[cold]
    #[inline(never)]
    fn pass_makeup_words(
        &mut self,
        color: Color,
        tables: &Tables,
        ticks: &mut Ticks,
        start: u32,
    ) -> u32
        ensures on { RunGoesOn color start (here self.old) result (here self.new) ticks.old ticks.new }
        ensures same_bits { self.new.bits ≡ self.old.bits }
    {
        let mut window = none_at_hand(self);
        let sum = pass_makeup_words(&mut window, color, tables.lookup(color), start, ticks);
        go_to(self, &window);
        sum
    }

    /// Reads the rest of a run whose words before it sum to `start`, as `decode_run` does. Runs with so many words are rare.
    #[cold]
    #[inline(never)]
    fn decode_long_run(
        &mut self,
        color: Color,
        tables: &Tables,
        ticks: &mut Ticks,
        start: u32,
    ) -> Result<u32>
        ensures run { MatchResult result
            (λ n. run_from color (start, here self.old) ≡ Ok (n, here self.new))
            (λ e. run_from color (start, here self.old) ≡ Err e) }
        ensures fault { IfErr result IsFault }
        ensures same_bits { self.new.bits ≡ self.old.bits }
        ensures ticks { ticks.new ≡ ticks.old + length (run_found color (start, here self.old)) + missed result }
    {
        let mut total = self.pass_makeup_words(color, tables, ticks, start);
        'words: loop {
            let run = self.decode_word(color, tables, ticks)?;
            total = total
                .checked_add(u32::from(run))
                .ok_or(DecodeError::Overflow)?;
            if run < 64 {
                return Ok(total);
            }
        }
    }

    /// Returns the run and the number of bits of the code word after the next `skip` bits; the run is `LOOKUP_INVALID` if there
    /// is none.
    #[inline(always)]
    fn word_after(&self, skip: usize, color: Color, tables: &Tables) -> (u32, usize)
        requires near { skip ≤ 20 }
        ensures word { result.0 ≢ 4095 → self.now.place + skip + result.1 ≤ length self.now.bits
            → IsWordHere color (moved skip self.now) result.0 result.1 }
        ensures cut { length self.now.bits < self.now.place + skip + result.1
            → read_code (codes_of color) (here (moved skip self.now)) ≡ Err DecodeError.UnexpectedEof }
        ensures below { result.0 ≤ 4095 }
        ensures narrow { result.1 ≤ 15 }
    {
        let entry = tables.lookup(color)[self.run_index(skip, color)];
        (u32::from(entry & LOOKUP_INVALID), usize::from(entry >> 12))
    }

    /// Reads a make-up word of a run whose words before it sum to `total`, and the word after it. Returns the sum with them, and
    /// whether the run ends; or `None`, reading nothing, if they aren't both here.
    #[inline(always)]
    fn read_two_words(
        &mut self,
        color: Color,
        tables: &Tables,
        ticks: &mut Ticks,
        total: u32,
    ) -> Option<(u32, bool)>
        requires below { total ≤ 40960 }
        ensures last { IfSome result (λ sum. sum.1 ≡ true → (run_from color (total, here self.old) ≡ Ok (sum.0, here self.new))
            × (ticks.new ≡ ticks.old + length (run_found color (total, here self.old)))) }
        ensures on { IfSome result (λ sum. sum.1 ≡ false
            → RunGoesOn color total (here self.old) sum.0 (here self.new) ticks.old ticks.new) }
        ensures shorter { IfSome result (λ sum. length (here self.new) < length (here self.old)) }
        ensures left { IfNone result ((self.new ≡ self.old) × (ticks.new ≡ ticks.old)) }
        ensures same_bits { self.new.bits ≡ self.old.bits }
    {
        let (first, width) = self.word_after(0, color, tables);
        if first < 64 {
            return None;
        }
        if first == 4095 {
            return None;
        }
        let (second, more) = self.word_after(width, color, tables);
        if second == 4095 {
            return None;
        }
        let place = self.bit_pos();
        if self.consume(width + more).is_err() {
            *self = at_bit(self, place);
            return None;
        }
        tick_times(ticks, 2);
        Some((total + first + second, second < 64))
    }

    /// Reads a run of a colour: make-up words and one terminating word (T.4, 4.1.1). Each word that is looked
    /// for is a tick.
    ///
    /// # Errors
    ///
    /// `UnexpectedEof` if the data ends inside a word, `InvalidCode` if there is none, and `Overflow` if the sum
    /// exceeds 32 bits. The offset is then unspecified.
    #[inline(always)]
    pub fn decode_run(&mut self, color: Color, tables: &Tables, ticks: &mut Ticks) -> Result<u32>
        ensures run { Reads (read_run color) self.old self.new result }
        ensures fault { IfErr result IsFault }
        ensures same_bits { self.new.bits ≡ self.old.bits }
        ensures ticks { ticks.new ≡ ticks.old + length (run_found color (0, here self.old)) + missed result }
    {
        // In each case the colour is a value that the compiler knows.
        match color {
            Color::White => self.decode_words(Color::White, tables, ticks),
            Color::Black => self.decode_words(Color::Black, tables, ticks),
        }
    }

    /// Reads a run as `decode_run` does. It is inlined for each colour, so that the colour is a constant.
    #[inline(always)]
    fn decode_words(&mut self, color: Color, tables: &Tables, ticks: &mut Ticks) -> Result<u32>
        ensures run { MatchResult result
            (λ n. read_run color (here self.old) ≡ Ok (n, here self.new))
            (λ e. read_run color (here self.old) ≡ Err e) }
        ensures fault { IfErr result IsFault }
        ensures same_bits { self.new.bits ≡ self.old.bits }
        ensures ticks { ticks.new ≡ ticks.old + length (run_found color (0, here self.old)) + missed result }
    {
        let mut total: u32 = 0;
        'words: loop {
            let (last, taken) = self.word_after(0, color, tables);
            if last < 64 {
                ticks.tick();
                // If the data ends inside the word these bits aren't there.
                self.consume(taken)?;
                return Ok(total + last);
            }
            match self.read_two_words(color, tables, ticks, total) {
                Some((sum, is_whole)) => {
                    if is_whole {
                        return Ok(sum);
                    }
                    total = sum;
                }
                None => {
                    let run = self.decode_word(color, tables, ticks)?;
                    total += u32::from(run);
                    if run < 64 {
                        return Ok(total);
                    }
                }
            }
            // Longer than sixteen of the longest make-up words: many more of them may follow.
            if total > 40960 {
                return self.decode_long_run(color, tables, ticks, total);
            }
        }
    }

    /// Reads a mode of a two-dimensional line (T.4 table 4, T.6 table 1), which is one tick.
    ///
    /// # Errors
    ///
    /// `UnexpectedEof` if the data ends inside a word, and `InvalidCode` if there is none.
    #[inline(always)]
    pub fn decode_mode(&mut self, ticks: &mut Ticks) -> Result<Mode>
        ensures mode { Reads (read_code mode_codes) self.old self.new result }
        ensures fault { IfErr result IsFault }
        ensures same_bits { self.new.bits ≡ self.old.bits }
        ensures ticks { ticks.new ≡ ticks.old + 1 }
    {
        // The usual mode, V0, is separate: what follows is compiled for it alone.
        if self.peek_u32() >> 31 == 1 {
            return self.read_mode(ticks);
        }
        self.read_mode(ticks)
    }

    /// Reads any mode, as `decode_mode` does.
    #[inline(always)]
    fn read_mode(&mut self, ticks: &mut Ticks) -> Result<Mode>
        ensures mode { Reads (read_code mode_codes) self.old self.new result }
        ensures fault { IfErr result IsFault }
        ensures same_bits { self.new.bits ≡ self.old.bits }
        ensures ticks { ticks.new ≡ ticks.old + 1 }
    {
        ticks.tick();
        let (mode, width) = mode_of(self.peek_u32() >> 25);
        // If the data ends inside a word these bits aren't there.
        self.consume(width)?;
        match mode {
            Some(mode) => Ok(mode),
            None => Err(DecodeError::InvalidCode),
        }
    }

    /// Consumes the zeros here, a word at a time, and returns whether a one follows. If none does, the data ends with
    /// them.
    fn pass_zeros(&mut self) -> bool
        ensures zeros { here self.old ≡ replicate (self.new.place - self.old.place) false ++ here self.new }
        ensures forward { self.old.place ≤ self.new.place }
        ensures one { result ≡ true → slice_get self.new.bits self.new.place ≡ Some true }
        ensures end { result ≡ false → here self.new ≡ [] }
        ensures same_bits { self.new.bits ≡ self.old.bits }
    {
        'words: loop {
            let zeros = self.peek_u32().leading_zeros();
            match self.consume(zeros as usize) {
                Err(_) => return false,
                Ok(()) if zeros < 32 => return true,
                Ok(()) => {}
            }
        }
    }

    /// Returns whether a one is left: whether the bits from the offset on aren't all zeros. Nothing is consumed.
    #[inline(always)]
    pub fn holds_one(&self) -> bool
        ensures { result ≡ holds_one (here self.now) }
    {
        self.peek_u32() != 0 || self.holds_far_one()
    }

    /// Returns whether a one is left, where the next 32 bits may be zeros.
    #[cold]
    #[inline(never)]
    fn holds_far_one(&self) -> bool
        ensures { result ≡ holds_one (here self.now) }
    {
        let mut reader = copy(self);
        reader.pass_zeros()
    }

    /// Returns the number of zeros up to the next one, and a reader just after that one; or the number up to the end
    /// and `None`, if no one follows. Each bit that is examined is a tick.
    pub fn zero_run(&self, ticks: &mut Ticks) -> (usize, Option<BitReader<'a>>)
        ensures zeros { result.0 ≡ leading_zeros (here self.now) }
        ensures one { IfSome result.1 (λ after. (after.bits ≡ self.now.bits)
            × (here self.now ≡ replicate result.0 false ++ true ∷ here after)) }
        ensures end { IfNone result.1 (here self.now ≡ replicate result.0 false) }
        ensures eol { IfSome result.1 (λ after. after_eol 0 (here self.now)
            ≡ (if nat_le 11 result.0 then Some (here after) else None)) }
        ensures no_eol { IfNone result.1 (after_eol 0 (here self.now) ≡ None) }
        ensures ticks { ticks.new ≡ ticks.old + looked (here self.now) }
    {
        let mut reader = copy(self);
        let is_one = reader.pass_zeros();
        let zeros = reader.bit_pos() - self.bit_pos();
        tick_times(ticks, zeros);
        if !is_one {
            return (zeros, None);
        }
        ticks.tick();
        // The one is there to be consumed.
        let _ = reader.consume(1);
        (zeros, Some(reader))
    }

    /// Returns whether a one is among the next eleven bits, so that there is no EOL here. Then each bit up to it is a
    /// tick.
    #[inline(always)]
    fn is_near_one(&self, ticks: &mut Ticks) -> bool
        ensures near { result ≡ true → after_eol 0 (here self.now) ≡ None }
        ensures looked { result ≡ true → ticks.new ≡ ticks.old + looked (here self.now) }
        ensures far { result ≡ false → ticks.new ≡ ticks.old }
    {
        let next = self.peek_u32();
        if next >> 21 == 0 {
            return false;
        }
        tick_times(ticks, next.leading_zeros() as usize + 1);
        true
    }

    /// Consumes an EOL here that may have any fill, as [`pass_eol`] does.
    #[cold]
    #[inline(never)]
    fn pass_far_eol(&mut self, ticks: &mut Ticks) -> bool
        ensures eol { after_eol 0 (here self.old) ≡ (if result then Some (here self.new) else None) }
        ensures unchanged { result ≡ false → self.new ≡ self.old }
        ensures same_bits { self.new.bits ≡ self.old.bits }
        ensures ticks { ticks.new ≡ ticks.old + looked (here self.old) }
    {
        let (zeros, after) = self.zero_run(ticks);
        match after {
            Some(after) if zeros >= 11 => {
                *self = after;
                true
            }
            _ => false,
        }
    }

    /// Consumes consecutive EOLs, each with its fill (T.4, 4.1.2 and 4.1.3), at most `max`, and returns their
    /// number. It never fails. Each bit that is examined is a tick.
    pub fn read_eols(&mut self, max: usize, ticks: &mut Ticks) -> usize
        ensures eols { eols max (here self.old) ≡ (result, here self.new) }
        ensures same_bits { self.new.bits ≡ self.old.bits }
        ensures ticks { ticks.new + length (here self.new)
            ≡ ticks.old + length (here self.old) + (if result == max then 0 else looked (here self.new)) }
    {
        let mut count = 0;
        'eols: while count < max {
            if self.is_near_one(ticks) || !pass_eol(self, ticks) {
                return count;
            }
            count += 1;
        }
        count
    }

    /// Consumes an EOL without fill here, and returns whether there is one. Each bit that is consumed is a tick.
    #[inline(always)]
    fn pass_plain_eol(&mut self, ticks: &mut Ticks) -> bool
        ensures eol { result ≡ true → after_eol 0 (here self.old) ≡ Some (here self.new) }
        ensures twelve { result ≡ true → self.new.place ≡ self.old.place + 12 }
        ensures onward { length (here self.new) ≤ length (here self.old) }
        ensures unchanged { result ≡ false → self.new ≡ self.old }
        ensures same_bits { self.new.bits ≡ self.old.bits }
        ensures ticks { CountsBits self.old self.new ticks.old ticks.new }
    {
        if self.peek_u32() >> 20 != 1 {
            return false;
        }
        tick_times(ticks, 12);
        // The eleven zeros and the one are there to be consumed.
        let _ = self.consume(12);
        true
    }

    /// Consumes all consecutive EOLs, and returns their number. It never fails. Each bit that is examined is a tick.
    pub fn read_eol_if_available(&mut self, ticks: &mut Ticks) -> usize
        ensures eols { all_eols (here self.old) ≡ (result, here self.new) }
        ensures same_bits { self.new.bits ≡ self.old.bits }
        ensures ticks { ticks.new + length (here self.new)
            ≡ ticks.old + length (here self.old) + looked (here self.new) }
    {
        // The usual cases are no EOL, and one without fill that no other follows.
        if self.is_near_one(ticks) {
            return 0;
        }
        if !self.pass_plain_eol(ticks) {
            return self.read_all_eols(ticks);
        }
        if self.is_near_one(ticks) {
            return 1;
        }
        1 + self.read_all_eols(ticks)
    }

    /// Consumes all consecutive EOLs, of any number and with any fill, and returns their number.
    #[inline(never)]
    fn read_all_eols(&mut self, ticks: &mut Ticks) -> usize
        ensures eols { all_eols (here self.old) ≡ (result, here self.new) }
        ensures few { result + 1 < 2 ^ 64 }
        ensures same_bits { self.new.bits ≡ self.old.bits }
        ensures ticks { ticks.new + length (here self.new)
            ≡ ticks.old + length (here self.old) + looked (here self.new) }
    {
        if self.at_end() {
            return 0;
        }
        // An EOL has more than one bit, so there are fewer than that.
        self.read_eols(usize::MAX, ticks)
    }

    /// Consumes the next eleven bits up to the last one among them, before which no EOL begins, and returns whether there
    /// is one. Each bit that is consumed is a tick.
    #[inline(always)]
    fn pass_near_ones(&mut self, ticks: &mut Ticks) -> bool
        ensures next { next_eol (here self.old) ≡ next_eol (here self.new) }
        ensures onward { length (here self.new) ≤ length (here self.old) }
        ensures fewer { result ≡ true → length (here self.new) < length (here self.old) }
        ensures same_bits { self.new.bits ≡ self.old.bits }
        ensures ticks { CountsBits self.old self.new ticks.old ticks.new }
    {
        let next = self.peek_u32() >> 21;
        if next == 0 {
            return false;
        }
        let passed = 11 - next.trailing_zeros() as usize;
        tick_times(ticks, passed);
        // The last one is there to be consumed.
        let _ = self.consume(passed);
        true
    }

    /// Moves to the start of the zeros of the next EOL at or after here (T.4, 4.1.2 and 4.1.3), without reading
    /// it. If there is none it returns false, and the offset doesn't change. It never fails. Each bit that is examined
    /// is a tick.
    pub fn skip_to_eol(&mut self, ticks: &mut Ticks) -> bool
        ensures next { next_eol (here self.old) ≡ (if result then Some (here self.new) else None) }
        ensures unchanged { result ≡ false → self.new ≡ self.old }
        ensures same_bits { self.new.bits ≡ self.old.bits }
        ensures ticks { ticks.new + length (here self.new)
            ≡ ticks.old + length (here self.old) + (if result then looked (here self.new) else length (here self.new)) }
    {
        let mut reader = copy(self);
        'eols: loop {
            if !reader.pass_near_ones(ticks) {
                let (zeros, after) = reader.zero_run(ticks);
                match after {
                    Some(_) if zeros >= 11 => {
                        *self = reader;
                        return true;
                    }
                    Some(after) => reader = after,
                    None => return false,
                }
            }
        }
    }

    /// Returns whether an EOL without fill is here. Then each of its bits is a tick.
    #[inline(always)]
    fn is_at_plain_eol(&self, ticks: &mut Ticks) -> bool
        ensures eol { result ≡ true → (rest : Bits) × (after_eol 0 (here self.now) ≡ Some rest) }
        ensures looked { result ≡ true → ticks.new ≡ ticks.old + looked (here self.now) }
        ensures other { result ≡ false → ticks.new ≡ ticks.old }
    {
        if self.peek_u32() >> 20 != 1 {
            return false;
        }
        tick_times(ticks, 12);
        true
    }

    /// Consumes a tag of 1 here before an EOL (T.4, 4.2.2). Each bit that is examined is a tick.
    fn pass_tag(&mut self, ticks: &mut Ticks)
        ensures rest { here self.new ≡ past_tag (here self.old) }
        ensures same_bits { self.new.bits ≡ self.old.bits }
        ensures ticks { ticks.new ≡ ticks.old + looked_at_tag (here self.old) }
    {
        let mut after = copy(self);
        match after.read_bit() {
            Ok(0) => ticks.tick(),
            Ok(_) => {
                ticks.tick();
                if after.is_at_plain_eol(ticks) {
                    *self = after;
                    return;
                }
                let mut end = copy(&after);
                if pass_eol(&mut end, ticks) {
                    *self = after;
                }
            }
            Err(_) => {}
        }
    }

    /// Consumes the tag of 1 after the last EOL if the EOLs are RTC: six or more (T.4, 4.2.4). The bit that is
    /// examined is a tick.
    fn pass_last_tag(&mut self, count: usize, ticks: &mut Ticks)
        ensures rest { pass_last_tag (count, here self.old) ≡ (count, here self.new) }
        ensures same_bits { self.new.bits ≡ self.old.bits }
        ensures ticks { ticks.new ≡ ticks.old + (if nat_le 6 count then min 1 (length (here self.old)) else 0) }
    {
        if count < 6 {
            return;
        }
        let mut after = copy(self);
        match after.read_bit() {
            Ok(0) => ticks.tick(),
            Ok(_) => {
                ticks.tick();
                *self = after;
            }
            Err(_) => {}
        }
    }

    /// Consumes consecutive EOLs with the tags between them, and returns the number of EOLs. A tick is a bit that is
    /// examined: each one consumed, at most twice; and at the end those of a tag and of the zeros.
    fn read_eols_with_tags(&mut self, ticks: &mut Ticks) -> usize
        ensures eols { eols_with_tags (length (here self.old)) (here self.old) ≡ (result, here self.new) }
        ensures same_bits { self.new.bits ≡ self.old.bits }
        ensures at_least { CountsBitsAtLeast self.old self.new ticks.old ticks.new }
        ensures at_most { ticks.new + 2 * length (here self.new)
            ≤ ticks.old + 2 * length (here self.old) + looked_at_tag (here self.new) + looked (here self.new) }
        ensures none { CountsNoEol self.old result ticks.old ticks.new }
    {
        let mut count = 0;
        'eols: while !self.at_end() {
            if self.read_eols(1, ticks) == 0 {
                return count;
            }
            self.pass_tag(ticks);
            count += 1;
        }
        count
    }

    /// Consumes an EOL without fill here if no other follows, nor a tag and another, and returns whether it did. Each
    /// bit that is consumed is a tick.
    #[inline(always)]
    fn pass_single_tagged_eol(&mut self, ticks: &mut Ticks) -> bool
        ensures eols { result ≡ true → tagged_eols (here self.old) ≡ (1, here self.new) }
        ensures onward { length (here self.new) ≤ length (here self.old) }
        ensures unchanged { result ≡ false → self.new ≡ self.old }
        ensures same_bits { self.new.bits ≡ self.old.bits }
        ensures ticks { CountsBits self.old self.new ticks.old ticks.new }
    {
        // A one among the ten bits after the tag is near, seen from the tag and from the bit after it.
        let is_single = (self.peek_u32() >> 9) % 1024 != 0;
        is_single && self.pass_plain_eol(ticks)
    }

    /// Consumes all consecutive EOLs of two-dimensional data of Group 3, and returns their number (T.4, 4.2.2
    /// and 4.2.4). A tag of 1 between two EOLs is consumed; after the last EOL it is consumed if there were six or
    /// more, which are RTC. It never fails. Each bit that is examined is a tick: one that is consumed at most twice.
    pub fn read_tagged_eols(&mut self, ticks: &mut Ticks) -> usize
        ensures eols { tagged_eols (here self.old) ≡ (result, here self.new) }
        ensures same_bits { self.new.bits ≡ self.old.bits }
        ensures at_least { CountsBitsAtLeast self.old self.new ticks.old ticks.new }
        ensures at_most { ticks.new + 2 * length (here self.new)
            ≤ ticks.old + 2 * length (here self.old) + 3 + looked (drop 1 (here self.new)) }
        ensures none { CountsNoEol self.old result ticks.old ticks.new }
    {
        // The usual cases are no EOL, and one without fill that no other follows, nor a tag and another.
        if self.is_near_one(ticks) {
            return 0;
        }
        if self.pass_single_tagged_eol(ticks) {
            return 1;
        }
        self.read_all_tagged_eols(ticks)
    }

    /// Consumes all consecutive EOLs with their tags, of any number and with any fill, and returns their number.
    #[inline(never)]
    fn read_all_tagged_eols(&mut self, ticks: &mut Ticks) -> usize
        ensures eols { tagged_eols (here self.old) ≡ (result, here self.new) }
        ensures same_bits { self.new.bits ≡ self.old.bits }
        ensures at_least { CountsBitsAtLeast self.old self.new ticks.old ticks.new }
        ensures at_most { ticks.new + 2 * length (here self.new)
            ≤ ticks.old + 2 * length (here self.old) + 3 + looked (drop 1 (here self.new)) }
        ensures none { CountsNoEol self.old result ticks.old ticks.new }
    {
        let count = self.read_eols_with_tags(ticks);
        self.pass_last_tag(count, ticks);
        count
    }
}

impl<'a> BitScanner<'a> {
    /// Returns the entry of the next bits, padded with zeros, in the lookup table of a colour.
    #[inline(always)]
    fn entry_here(&self, color: Color, tables: &Tables) -> u16
        ensures { result ≡ entry_of (codes_of color) (padded (lookup_bits color) (here self.now)) }
    {
        tables.lookup(color)[self.run_index(color)]
    }

    /// Reads a word of a run of a colour, a make-up word or a terminating one (T.4, 4.1.1), which is one tick.
    ///
    /// # Errors
    ///
    /// `UnexpectedEof` if the data ends inside a word: then the offset is the same. `InvalidCode` if there is none.
    #[inline(always)]
    pub fn read_word(&mut self, color: Color, tables: &Tables, ticks: &mut Ticks) -> Result<u16>
        ensures word { Reads (read_code (codes_of color)) self.old self.new result }
        ensures same_bits { self.new.bits ≡ self.old.bits }
        ensures onward { self.old.place ≤ self.new.place }
        ensures lacking { result ≡ Err DecodeError.UnexpectedEof → self.new ≡ self.old }
        ensures ticks { ticks.new ≡ ticks.old + 1 }
    {
        // The look-up counts even if no word is here.
        ticks.tick();
        let entry = self.entry_here(color, tables);
        // If the data ends inside a word these bits aren't there.
        self.consume(usize::from(entry >> 12))?;
        let run = entry & LOOKUP_INVALID;
        // A terminating word is known by one comparison.
        if run < 64 {
            return Ok(run);
        }
        if run == LOOKUP_INVALID {
            return Err(DecodeError::InvalidCode);
        }
        Ok(run)
    }

    /// Consumes V0 if it is here, and returns whether it is; otherwise nothing changes.
    #[inline(always)]
    pub fn pass_v0(&mut self) -> bool
        ensures mode { result ≡ true
            → read_code mode_codes (here self.old) ≡ Ok (Mode.Vertical (pos 0), here self.new) }
        ensures other { result ≡ false → (rest : Bits) → read_code mode_codes (here self.old) ≢ Ok (Mode.Vertical (pos 0), rest) }
        ensures same_bits { self.new.bits ≡ self.old.bits }
        ensures unchanged { result ≡ false → self.new ≡ self.old }
    {
        let (mode, _) = mode_of(self.peek_7());
        if !is_v0(mode) {
            return false;
        }
        match self.consume(1) {
            Ok(()) => true,
            Err(_) => false,
        }
    }

    /// Reads a mode of a two-dimensional line (T.4 table 4, T.6 table 1), which is one tick.
    ///
    /// # Errors
    ///
    /// `UnexpectedEof` if the data ends inside a word, and `InvalidCode` if there is none.
    #[inline(always)]
    pub fn next_mode(&mut self, ticks: &mut Ticks) -> Result<Mode>
        ensures mode { Reads (read_code mode_codes) self.old self.new result }
        ensures same_bits { self.new.bits ≡ self.old.bits }
        ensures ticks { ticks.new ≡ ticks.old + 1 }
    {
        // Six zeros are separate, as mostly a word ends the data there: what follows is compiled for them alone.
        if self.peek_7() < 2 {
            return self.mode_here(ticks);
        }
        self.mode_here(ticks)
    }

    /// Reads any mode, as `next_mode` does.
    #[inline(always)]
    fn mode_here(&mut self, ticks: &mut Ticks) -> Result<Mode>
        ensures mode { Reads (read_code mode_codes) self.old self.new result }
        ensures same_bits { self.new.bits ≡ self.old.bits }
        ensures ticks { ticks.new ≡ ticks.old + 1 }
    {
        ticks.tick();
        let (mode, bits) = mode_of(self.peek_7());
        // If the data ends inside a word these bits aren't there.
        self.consume(bits)?;
        match mode {
            Some(mode) => Ok(mode),
            None => Err(DecodeError::InvalidCode),
        }
    }
}

/// Consumes V0 if it is here, and returns whether it is; otherwise nothing changes.
#[inline(always)]
pub fn pass_v0(reader: &mut BitReader<'_>) -> bool
    ensures mode { result ≡ true → read_code mode_codes (here reader.old)
        ≡ Ok (Mode.Vertical (pos 0), here (moved 1 reader.old)) }
    ensures other { result ≡ false → (rest : Bits) → read_code mode_codes (here reader.old) ≢ Ok (Mode.Vertical (pos 0), rest) }
    ensures passed { result ≡ true → reader.new ≡ moved 1 reader.old }
    ensures unchanged { result ≡ false → reader.new ≡ reader.old }
{
    let (mode, _) = mode_of(reader.peek_u32() >> 25);
    if !is_v0(mode) {
        return false;
    }
    // The bit is there to be consumed.
    let _ = reader.consume(1);
    true
}

/// Consumes an EOL here, with its fill (T.4, 4.1.2 and 4.1.3), and returns whether there is one. Each bit
/// that is examined is a tick.
#[inline(never)]
pub fn pass_eol(reader: &mut BitReader<'_>, ticks: &mut Ticks) -> bool
    ensures eol { after_eol 0 (here reader.old) ≡ (if result then Some (here reader.new) else None) }
    ensures unchanged { result ≡ false → reader.new ≡ reader.old }
    ensures same_bits { reader.new.bits ≡ reader.old.bits }
    ensures ticks { ticks.new ≡ ticks.old + looked (here reader.old) }
{
    let zeros = reader.peek_u32().leading_zeros() as usize;
    if zeros >= 32 {
        return reader.pass_far_eol(ticks);
    }
    tick_times(ticks, zeros + 1);
    if zeros < 11 {
        return false;
    }
    // The one is there to be consumed.
    let _ = reader.consume(zeros + 1);
    true
}
