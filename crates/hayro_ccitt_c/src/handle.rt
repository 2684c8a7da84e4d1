//! A value behind an opaque pointer.

ghost use Rattle.std.specs.Prelude.{◌≡◌, Option, Some, None, IsSome};
ghost use Rattle.std_alloc.specs.Box.Ownership.{box_owns};
ghost use Rattle.hayro_ccitt_c.specs.declared.owned.Owned.{Owned};
ghost use Rattle.hayro_ccitt_c.specs.Handles.{value_coded, value_owned};

use crate::owned::Owned;
use std::alloc::{Allocator, Global};
use std::marker::Model;

/// A box taken apart: its pointer, and the value there, which the pointer owns.
struct Unboxed<T, A: Allocator> {
    at: *mut T,
    alloc: A,
    ghost value: { T },
}

impl<T, A: Allocator> Model for Unboxed<T, A> {
    ghost also_owns = { λ u. box_owns (A.dealloc_token u.alloc) T.row u.at u.value };
}

impl<T: Drop, A: Allocator> Unboxed<T, A> {
    /// Takes a box apart.
    fn from_box(value: Box<T, A>) -> Unboxed<T, A>
        ensures { result.value ≡ value.value }
    {
        let (at, alloc) = Box::into_raw_with_allocator(value);
        Unboxed { at, alloc }
    }

    /// Makes the box again.
    fn into_box(self) -> Box<T, A>
        ensures { result.value ≡ self.value }
    {
        let Unboxed { at, alloc } = self;
        unsafe { Box::from_raw(alloc, at) }
    }
}

/// A pointer that owns a value, or nothing: its type doesn't say what it points to, so that C can hold it. Dropping a
/// handle frees nothing: a value is freed by the box that [`Handle::into_box`] makes.
#[repr(C)]
#[derive(Drop)]
pub struct Handle {
    pub(crate) at: *mut u8,
    alloc: Global,
    pub(crate) ghost value: { Option Owned } by { value_coded },
}

impl Model for Handle {
    ghost also_owns = { λ h. value_owned h.alloc h.at h.value };
}

impl Handle {
    /// Creates a handle of nothing, whose pointer is never dereferenced.
    pub(crate) fn dangling(at: *mut u8, alloc: Global) -> Handle
        ensures { result.value ≡ None }
    {
        Handle { at, alloc }
    }

    /// Changes the type to one that doesn't say what the pointer points to.
    fn from_unboxed(unboxed: Unboxed<Owned, Global>) -> Handle
        ensures { result.value ≡ Some unboxed.value }
    {
        let Unboxed { at, alloc } = unboxed;
        Handle {
            at: at.cast::<u8>(),
            alloc,
        }
    }

    /// Changes the type back to one that says what the pointer points to.
    fn into_unboxed(self) -> Unboxed<Owned, Global>
        requires { IsSome self.value }
        ensures { Some result.value ≡ self.value }
    {
        let Handle { at, alloc } = self;
        Unboxed {
            at: at.cast::<Owned>(),
            alloc,
        }
    }

    /// Creates a handle of the value in a box.
    pub(crate) fn of(value: Box<Owned>) -> Handle
        ensures { result.value ≡ Some value.value }
    {
        Handle::from_unboxed(Unboxed::from_box(value))
    }

    /// Returns the box of the value.
    pub(crate) fn into_box(self) -> Box<Owned>
        requires { IsSome self.value }
        ensures { Some result.value ≡ self.value }
    {
        self.into_unboxed().into_box()
    }
}
