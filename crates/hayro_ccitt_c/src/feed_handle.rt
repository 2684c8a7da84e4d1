//! What C holds of rows that it reads from data in pieces.

ghost use Rattle.std.specs.Prelude.{◌≡◌, Some, false, true};
ghost use Rattle.hayro_ccitt_c.specs.Owned.{holds_feeding, is_feeding};

use crate::handle::Handle;
use crate::owned::Owned;
use std::alloc::Global;
use std::mem;

/// A reader of rows of data in pieces as C holds it: all zeros, or as a call left it.
#[repr(C)]
#[derive(Drop)]
pub struct Feed {
    pub(crate) handle: Handle,
    /// A pointer that a handle of nothing has; nothing is read or written there.
    dangling: *mut u8,
    /// Whether the handle holds a reading.
    pub(crate) is_open: bool,
    pub(crate) ghost tied: { is_open ≡ true → holds_feeding handle.value ≡ true },
}

impl Feed {
    /// Takes the reading out. The reader is closed.
    pub(crate) fn take(&mut self, alloc: Global) -> Box<Owned>
        requires { self.old.is_open ≡ true }
        ensures feeding { Some result.value ≡ self.old.handle.value }
        ensures kind { is_feeding result.value ≡ true }
        ensures closed { self.new.is_open ≡ false }
    {
        self.is_open = false;
        let handle = mem::replace(&mut self.handle, Handle::dangling(self.dangling, alloc));
        handle.into_box()
    }

    /// Holds a reading. The reader is open.
    pub(crate) fn hold(&mut self, feeding: Box<Owned>)
        requires { is_feeding feeding.value ≡ true }
        ensures feeding { self.new.handle.value ≡ Some feeding.value }
        ensures open { self.new.is_open ≡ true }
    {
        self.handle = Handle::of(feeding);
        self.is_open = true;
    }
}
