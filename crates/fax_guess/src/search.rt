//! The search for ways to read data.

ghost use Rattle.std.specs.Prelude.{◌≡◌, ◌<◌, ◌≤◌, ◌+◌, ◌*◌, ◌^◌, ℕ, length, Some, IfOk, OnOk};
ghost use Rattle.std.specs.List.{All};
ghost use Rattle.hayro_ccitt.specs.Bits.{BitsFit};
ghost use Rattle.fax_guess.specs.Guesses.{FindsAll, IsAmong, IsFound, IsReadSo, IsSearchOf, Keeps, cost_of};

use crate::forms::{FORMS, Form, MOST_COLUMNS, USUAL, is_usual};
use crate::guess::Guess;
use crate::reading::{Outcome, only_zeros, read};
use hayro_ccitt::bit_reader::BitOrder;
use hayro_ccitt::{DecodeSettings, bits_fit};
use std::alloc::{AllocError, Global};
use std::mem;

/// The most guesses that are returned.
const MOST_GUESSES: usize = 10;

/// A width that isn't usual, or damaged data, is likely only with so many rows before the first fault.
const LEAST_ROWS: u64 = 8;

/// A damaged reading is a guess if at most one of so many rows is damaged.
const ROWS_OF_A_DAMAGED: u64 = 5;

/// What all readings together may take, in bits, whatever the length of the data.
const LEAST_BITS: u64 = 1 << 28;

/// What they may take more for each bit of the data.
const BITS_OF_A_BIT: u64 = 64;

/// What a reading takes besides the bits that it reads.
const BITS_OF_A_READING: u64 = 64;

/// Returns the ways in which data may be read as a fax image, at most ten, the likeliest first. There are none if it seems to be no fax
/// image.
///
/// Each order of bits and each encoding is tried, for the width that is given, or else for each usual one, and then for those up to 10,000.
/// If there are ways in which all data is read strictly, only these are returned; else those with few damaged rows. A usual width comes
/// before another, and more rows come before fewer. No more is tried once the readings took more than 2^28 bits together, and 64 for each
/// of the data.
///
/// # Errors
///
/// If an allocation fails.
pub fn guesses(alloc: Global, data: &[u8], columns: Option<u32>) -> Result<Vec<Guess>, AllocError>
    ensures most { IfOk result (λ found. length found.items ≤ 10) }
    ensures read { IfOk result (λ found. All (IsReadSo «data».now) found.items) }
    ensures finds { IfOk result (λ found. (width : ℕ) → columns ≡ Some width → length «data».now < 2 ^ 57
        → FindsAll width «data».now found.items) }
{
    let mut search = Search::new(alloc, data);
    if !bits_fit(data) {
        return Ok(search.best);
    }
    search.try_strictly(data, columns)?;
    search.repair(data)?;
    Ok(search.best)
}

/// A search among the readings of bytes.
#[derive(Drop)]
pub(crate) struct Search {
    alloc: Global,
    /// What the readings may still take.
    left: u64,
    /// The best guesses so far.
    best: Vec<Guess>,
    /// Forms and widths whose strict readings fail after some rows.
    partial: Vec<(Form, u32)>,
}

impl Search {
    /// Begins a search in which nothing was tried.
    fn new(alloc: Global, bytes: &[u8]) -> Search
        ensures found { IsSearchOf bytes.now result }
        ensures none { length result.best.items ≡ 0 }
        ensures left { length bytes.now < 2 ^ 57 → 10 * cost_of bytes.now ≤ result.left }
    {
        let bits = (bytes.len() as u64).saturating_mul(8);
        Search {
            alloc,
            left: LEAST_BITS.saturating_add(BITS_OF_A_BIT.saturating_mul(bits)),
            best: Vec::new(alloc),
            partial: Vec::new(alloc),
        }
    }

    /// Tries the width that is given, or else each usual one and others.
    fn try_strictly(&mut self, bytes: &[u8], columns: Option<u32>) -> Result<(), AllocError>
        requires fit { BitsFit bytes.now }
        requires none { length self.old.best.items ≡ 0 }
        requires found { IsSearchOf bytes.now self.old }
        ensures found { IsSearchOf bytes.now self.new }
        ensures finds { OnOk result ((width : ℕ) → columns ≡ Some width → 10 * cost_of bytes.now ≤ self.old.left
            → FindsAll width bytes.now self.new.best.items) }
    {
        match columns {
            Some(columns) => self.try_width(bytes, columns),
            None => self.try_widths(bytes),
        }
    }

    /// Tries each usual width, and others if no reading takes all data.
    fn try_widths(&mut self, bytes: &[u8]) -> Result<(), AllocError>
        requires fit { BitsFit bytes.now }
        requires found { IsSearchOf bytes.now self.old }
        ensures found { IsSearchOf bytes.now self.new }
    {
        'usual: for form in FORMS.iter() {
            self.try_usual(bytes, Form::of(*form))?;
        }
        if !self.best.is_empty() {
            return Ok(());
        }
        'others: for form in FORMS.iter() {
            self.try_others(bytes, Form::of(*form))?;
        }
        Ok(())
    }

    /// Tries each usual width in a form.
    fn try_usual(&mut self, bytes: &[u8], form: Form) -> Result<(), AllocError>
        requires fit { BitsFit bytes.now }
        requires found { IsSearchOf bytes.now self.old }
        ensures found { IsSearchOf bytes.now self.new }
    {
        'widths: for columns in USUAL.iter() {
            self.try_form(bytes, form, *columns, 1)?;
        }
        Ok(())
    }

    /// Tries the widths that aren't usual in a form.
    fn try_others(&mut self, bytes: &[u8], form: Form) -> Result<(), AllocError>
        requires fit { BitsFit bytes.now }
        requires found { IsSearchOf bytes.now self.old }
        ensures found { IsSearchOf bytes.now self.new }
    {
        'widths: for columns in 1..MOST_COLUMNS + 1 {
            if !is_usual(columns) {
                self.try_form(bytes, form, columns, LEAST_ROWS)?;
            }
        }
        Ok(())
    }

    /// Tries a width that is known.
    fn try_width(&mut self, bytes: &[u8], columns: u32) -> Result<(), AllocError>
        requires fit { BitsFit bytes.now }
        requires none { length self.old.best.items ≡ 0 }
        requires found { IsSearchOf bytes.now self.old }
        ensures found { IsSearchOf bytes.now self.new }
        ensures finds { OnOk result (10 * cost_of bytes.now ≤ self.old.left → FindsAll columns bytes.now self.new.best.items) }
    {
        'forms: for form in FORMS.iter() {
            self.try_form(bytes, Form::of(*form), columns, 1)?;
        }
        Ok(())
    }

    /// Reads data strictly in a form, if it may begin so. That is a guess if it takes all data, and has so many rows.
    fn try_form(
        &mut self,
        bytes: &[u8],
        form: Form,
        columns: u32,
        least: u64,
    ) -> Result<(), AllocError>
        requires fit { BitsFit bytes.now }
        requires some { 0 < least }
        requires found { IsSearchOf bytes.now self.old }
        ensures found { IsSearchOf bytes.now self.new }
        ensures paid { OnOk result (self.old.left ≤ self.new.left + cost_of bytes.now) }
        ensures count { OnOk result (length self.new.best.items ≤ length self.old.best.items + 1) }
        ensures keeps { OnOk result (length self.old.best.items < 10 → Keeps self.old.best.items self.new.best.items) }
        ensures finds { OnOk result (0 < self.old.left → length self.old.best.items < 10 → least ≤ 1
            → IsFound columns bytes.now self.new.best.items form) }
    {
        if self.left == 0 || !form.may_begin(bytes) {
            return Ok(());
        }
        let settings = form.settings(columns, true);
        let outcome = read(self.alloc, bytes, form.order, settings)?;
        self.pay(outcome.bits());
        if !only_zeros(bytes, outcome.bits(), form.order) {
            return self.keep_partial(form, columns, outcome.rows);
        }
        if outcome.rows < least {
            return Ok(());
        }
        self.place(bytes, guess_of(settings, form.order, &outcome))
    }

    /// Keeps a form and a width whose strict reading fails, if that is after some rows.
    fn keep_partial(&mut self, form: Form, columns: u32, rows: u64) -> Result<(), AllocError>
        ensures best { self.new.best ≡ self.old.best }
        ensures left { self.new.left ≡ self.old.left }
    {
        if rows >= LEAST_ROWS {
            self.partial.push((form, columns))?;
        }
        Ok(())
    }

    /// Pays for a reading of so many bits.
    fn pay(&mut self, bits: usize)
        ensures best { self.new.best ≡ self.old.best }
        ensures left { self.old.left ≤ self.new.left + (bits + 64) }
    {
        let cost = (bits as u64).saturating_add(BITS_OF_A_READING);
        self.left = self.left.saturating_sub(cost);
    }

    /// Reads data leniently in the forms whose strict readings failed, if no guess was found. That is a guess if it takes half of the data,
    /// and has few damaged rows.
    fn repair(&mut self, bytes: &[u8]) -> Result<(), AllocError>
        requires fit { BitsFit bytes.now }
        requires found { IsSearchOf bytes.now self.old }
        ensures found { IsSearchOf bytes.now self.new }
        ensures finds { OnOk result ((width : ℕ) → FindsAll width bytes.now self.old.best.items
            → FindsAll width bytes.now self.new.best.items) }
    {
        if !self.best.as_slice().is_empty() {
            return Ok(());
        }
        let none = Vec::new(self.alloc);
        let partial = mem::replace(&mut self.partial, none);
        'forms: for (form, columns) in partial.iter() {
            self.repair_form(bytes, *form, *columns)?;
        }
        Ok(())
    }

    /// Reads data leniently in a form.
    fn repair_form(&mut self, bytes: &[u8], form: Form, columns: u32) -> Result<(), AllocError>
        requires fit { BitsFit bytes.now }
        requires found { IsSearchOf bytes.now self.old }
        ensures found { IsSearchOf bytes.now self.new }
    {
        if self.left == 0 {
            return Ok(());
        }
        let settings = form.settings(columns, false);
        let outcome = read(self.alloc, bytes, form.order, settings)?;
        self.pay(outcome.bits());
        let is_sound = outcome.damaged <= outcome.rows / ROWS_OF_A_DAMAGED;
        let is_most = outcome.bits() / 8 >= bytes.len().div_ceil(2);
        if outcome.rows > 0 && is_sound && is_most {
            self.place(bytes, guess_of(settings, form.order, &outcome))?;
        }
        Ok(())
    }

    /// Places a guess among the best, behind those that are as good: the first ten of them are kept.
    fn place(&mut self, bytes: &[u8], guess: Guess) -> Result<(), AllocError>
        requires read { IsReadSo bytes.now guess }
        requires found { IsSearchOf bytes.now self.old }
        ensures found { IsSearchOf bytes.now self.new }
        ensures left { self.new.left ≡ self.old.left }
        ensures count { OnOk result (length self.new.best.items ≤ length self.old.best.items + 1) }
        ensures keeps { OnOk result (length self.old.best.items < 10 → Keeps self.old.best.items self.new.best.items) }
        ensures among { OnOk result (length self.old.best.items < 10 → IsAmong guess.settings guess.order self.new.best.items) }
    {
        let place = place_of(self.best.as_slice(), &guess);
        self.best.insert(place, guess)?;
        self.best.truncate(MOST_GUESSES);
        Ok(())
    }
}

/// Returns how many of some guesses are before another one: those up to the first that it is to stand before.
fn place_of(best: &[Guess], guess: &Guess) -> usize
    ensures { result ≤ length best.now }
{
    for index in 0..best.len() {
        if guess.is_before(&best[index]) {
            return index;
        }
    }
    best.len()
}

/// Returns a reading as a guess.
fn guess_of(settings: DecodeSettings, order: BitOrder, outcome: &Outcome) -> Guess
    ensures settings { result.settings ≡ settings }
    ensures order { result.order ≡ order }
    ensures rows { result.rows ≡ outcome.now.rows }
{
    let pixels = u64::from(settings.columns).saturating_mul(outcome.rows);
    Guess {
        settings,
        order,
        rows: outcome.rows,
        damaged: outcome.damaged,
        is_negative: outcome.black > pixels / 2,
    }
}
