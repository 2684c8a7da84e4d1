//! The cursor, and why it stops.

ghost use Rattle.std.specs.Prelude.{◌≡◌, ◌+◌, ◌<◌, ◌≤◌, ℕ, List, length, drop, slice_get, slice_index, Some, Err};
ghost use Rattle.std.specs.Prelude.{IfOk, OnOk, OnErr, IsOkUnless, ◌↔◌, min};
ghost use Rattle.paid_cursor.specs.Places.{Place, rest_of, moved, paid};

use std::marker::Model;

/// Why a cursor stops.
#[derive(Clone, Copy, Debug, PartialEq, Eq)]
pub enum Stop {
    /// The bytes end.
    End,
    /// The allowance is spent.
    Spent,
    /// No memory is left for the output.
    OutOfMemory,
}

/// Some bytes, a place among them, and how many steps may still be taken.
#[derive(Drop)]
pub struct Cursor<'a> {
    bytes: &'a [u8],
    place: usize,
    left: usize,
}

impl<'a> Model for Cursor<'a> {
    ghost use Rattle.std.specs.Prelude.{◌≤◌, length};
    ghost use Rattle.paid_cursor.specs.Places.{Place};

    ghost Value = { Place };

    ghost view = { λ c. record { bytes = c.bytes.now; place = c.place; left = c.left } };

    ghost invariant = { λ c. c.place ≤ length c.bytes.now };
}

impl<'a> Cursor<'a> {
    /// Creates a cursor at the first of some bytes, with an allowance of steps.
    pub fn new(bytes: &'a [u8], allowance: usize) -> Cursor<'a>
        ensures { result ≡ record { bytes = bytes.now; place = 0; left = allowance } }
    {
        Cursor {
            bytes,
            place: 0,
            left: allowance,
        }
    }

    /// Lends all steps that are left to a cursor over other bytes. [`Cursor::take_back`] takes back what it doesn't spend.
    pub fn lend<'b>(&mut self, bytes: &'b [u8]) -> Cursor<'b>
        ensures lent { result ≡ record { bytes = bytes.now; place = 0; left = self.old.left } }
        ensures none_left { self.new ≡ record self.old { left = 0 } }
    {
        let left = self.left;
        self.left = 0;
        Cursor {
            bytes,
            place: 0,
            left,
        }
    }

    /// Hands the place and all steps that are left to a cursor of the caller's own; no steps are left here.
    pub fn hand_over(&mut self) -> Cursor<'a>
        ensures handed { result ≡ self.old }
        ensures none_left { self.new ≡ record self.old { left = 0 } }
    {
        let left = self.left;
        self.left = 0;
        Cursor {
            bytes: self.bytes,
            place: self.place,
            left,
        }
    }

    /// Takes back the steps that another cursor has left, which was lent to. Lends nothing itself: it has no steps before.
    pub fn take_back(&mut self, lent: Cursor<'_>)
        requires { self.old.left ≡ 0 }
        ensures { self.new ≡ record self.old { left = lent.entry.left } }
    {
        self.left = lent.left;
    }

    /// Returns the place: how many bytes come before it.
    #[inline(always)]
    pub fn place(&self) -> usize
        ensures place { result ≡ self.now.place }
        ensures within { result ≤ length self.now.bytes }
    {
        self.place
    }

    /// Returns how many steps may still be taken.
    #[inline(always)]
    pub fn left(&self) -> usize
        ensures { result ≡ self.now.left }
    {
        self.left
    }

    /// Returns all the bytes, also those before the place.
    #[inline(always)]
    pub fn bytes(&self) -> &'a [u8]
        ensures { result.now ≡ self.now.bytes }
    {
        self.bytes
    }

    /// Returns the bytes from the place on.
    #[inline(always)]
    pub fn rest(&self) -> &'a [u8]
        ensures rest { result.now ≡ rest_of self.now }
        ensures count { self.now.place + length result.now ≡ length self.now.bytes }
    {
        &self.bytes[self.place..]
    }

    /// Returns the byte at the place, without a step; `None` at the end.
    #[inline(always)]
    pub fn peek(&self) -> Option<u8>
        ensures { result ≡ slice_get self.now.bytes self.now.place }
    {
        self.bytes.get(self.place).copied()
    }

    /// Passes a byte, for one step.
    ///
    /// # Errors
    ///
    /// `Spent` if no steps are left, else `End` at the end. Nothing is paid then.
    #[inline(always)]
    pub fn step(&mut self) -> Result<u8, Stop>
        ensures byte { IfOk result (λ byte. slice_get self.old.bytes self.old.place ≡ Some byte) }
        ensures paid { OnOk result ((self.new ≡ paid 1 (moved 1 self.old)) × (0 < self.old.left)) }
        ensures within { OnOk result (self.old.place < length self.old.bytes) }
        ensures unchanged { OnErr result (self.new ≡ self.old) }
        ensures spent { (result ≡ Err Stop.Spent) ↔ (self.old.left ≡ 0) }
        ensures end { (result ≡ Err Stop.End) ↔ ((0 < self.old.left) × (length self.old.bytes ≤ self.old.place)) }
    {
        if self.left == 0 {
            return Err(Stop::Spent);
        }
        if self.place >= self.bytes.len() {
            return Err(Stop::End);
        }
        let byte = self.bytes[self.place];
        self.place += 1;
        self.left -= 1;
        Ok(byte)
    }

    /// Passes some bytes, for one step each.
    ///
    /// # Errors
    ///
    /// `Spent` if fewer steps are left, else `End` if fewer bytes are. Nothing is paid then.
    #[inline(always)]
    pub fn pass(&mut self, count: usize) -> Result<(), Stop>
        ensures paid { OnOk result ((self.new ≡ paid count (moved count self.old)) × (count ≤ self.old.left)) }
        ensures within { OnOk result (self.old.place + count ≤ length self.old.bytes) }
        ensures unchanged { OnErr result (self.new ≡ self.old) }
        ensures spent { (result ≡ Err Stop.Spent) ↔ (self.old.left < count) }
        ensures end { (result ≡ Err Stop.End) ↔ ((count ≤ self.old.left) × (length self.old.bytes < self.old.place + count)) }
    {
        if self.left < count {
            return Err(Stop::Spent);
        }
        if self.bytes.len() - self.place < count {
            return Err(Stop::End);
        }
        self.place += count;
        self.left -= count;
        Ok(())
    }

    /// Pays some steps, and stays.
    ///
    /// # Errors
    ///
    /// `Spent` if fewer are left. Nothing is paid then.
    #[inline(always)]
    pub fn pay(&mut self, count: usize) -> Result<(), Stop>
        ensures paid { OnOk result ((self.new ≡ paid count self.old) × (count ≤ self.old.left)) }
        ensures unchanged { OnErr result (self.new ≡ self.old) }
        ensures spent { (result ≡ Err Stop.Spent) ↔ (self.old.left < count) }
        ensures only_spent { IsOkUnless result Stop.Spent }
    {
        if self.left < count {
            return Err(Stop::Spent);
        }
        self.left -= count;
        Ok(())
    }

    /// Moves to a place, for one step; to the end, if the place is beyond it.
    ///
    /// # Errors
    ///
    /// `Spent` if no steps are left. Nothing is paid then.
    pub fn seek(&mut self, place: usize) -> Result<(), Stop>
        ensures paid { OnOk result ((self.new ≡ paid 1 (record self.old { place = min place (length self.old.bytes) })) × (0 < self.old.left)) }
        ensures unchanged { OnErr result (self.new ≡ self.old) }
        ensures spent { (result ≡ Err Stop.Spent) ↔ (self.old.left ≡ 0) }
        ensures only_spent { IsOkUnless result Stop.Spent }
    {
        if self.left == 0 {
            return Err(Stop::Spent);
        }
        self.left -= 1;
        self.place = place.min(self.bytes.len());
        Ok(())
    }
}
