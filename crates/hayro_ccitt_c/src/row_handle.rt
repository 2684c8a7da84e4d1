//! What C holds of rows that it reads or writes one at a time.

ghost use Rattle.std.specs.Prelude.{◌≡◌, Some, false, true};
ghost use Rattle.hayro_ccitt_c.specs.Owned.{holds_reading, holds_strip, is_reading, is_strip};

use crate::handle::Handle;
use crate::owned::Owned;
use std::alloc::Global;
use std::mem;

/// A reader of rows as C holds it: all zeros, or as a call left it.
#[repr(C)]
#[derive(Drop)]
pub struct Reader {
    pub(crate) handle: Handle,
    /// A pointer that a handle of nothing has; nothing is read or written there.
    dangling: *mut u8,
    /// Whether the handle holds a reading.
    pub(crate) is_open: bool,
    pub(crate) ghost tied: { is_open ≡ true → holds_reading handle.value ≡ true },
}

impl Reader {
    /// Takes the reading out. The reader is closed.
    pub(crate) fn take(&mut self, alloc: Global) -> Box<Owned>
        requires { self.old.is_open ≡ true }
        ensures reading { Some result.value ≡ self.old.handle.value }
        ensures kind { is_reading result.value ≡ true }
        ensures closed { self.new.is_open ≡ false }
    {
        self.is_open = false;
        let handle = mem::replace(&mut self.handle, Handle::dangling(self.dangling, alloc));
        handle.into_box()
    }

    /// Holds a reading. The reader is open.
    pub(crate) fn hold(&mut self, reading: Box<Owned>)
        requires { is_reading reading.value ≡ true }
        ensures reading { self.new.handle.value ≡ Some reading.value }
        ensures open { self.new.is_open ≡ true }
    {
        let dangling = self.dangling;
        *self = Reader {
            handle: Handle::of(reading),
            dangling,
            is_open: true,
        };
    }
}

/// A writer of rows as C holds it: all zeros, or as a call left it.
#[repr(C)]
#[derive(Drop)]
pub struct Writer {
    pub(crate) handle: Handle,
    /// A pointer that a handle of nothing has; nothing is read or written there.
    dangling: *mut u8,
    /// Whether the handle holds a strip.
    pub(crate) is_open: bool,
    /// Whether 0 stands for black in packed rows.
    pub(crate) black_is_0: bool,
    pub(crate) ghost tied: { is_open ≡ true → holds_strip handle.value ≡ true },
}

impl Writer {
    /// Takes the strip out. The writer is closed.
    pub(crate) fn take(&mut self, alloc: Global) -> Box<Owned>
        requires { self.old.is_open ≡ true }
        ensures strip { Some result.value ≡ self.old.handle.value }
        ensures kind { is_strip result.value ≡ true }
        ensures closed { self.new.is_open ≡ false }
        ensures black { self.new.black_is_0 ≡ self.old.black_is_0 }
    {
        self.is_open = false;
        let handle = mem::replace(&mut self.handle, Handle::dangling(self.dangling, alloc));
        handle.into_box()
    }

    /// Holds a strip, to which packed rows are added with 0 for black if it says so. The writer is open.
    pub(crate) fn hold(&mut self, strip: Box<Owned>, black_is_0: bool)
        requires { is_strip strip.value ≡ true }
        ensures strip { self.new.handle.value ≡ Some strip.value }
        ensures open { self.new.is_open ≡ true }
        ensures black { self.new.black_is_0 ≡ black_is_0 }
    {
        let dangling = self.dangling;
        *self = Writer {
            handle: Handle::of(strip),
            dangling,
            is_open: true,
            black_is_0,
        };
    }
}
