//! The handle by which a program owns an end, a worker's packets or a pool: one pointer.
ghost use Rattle.std.specs.Prelude.{◌≡◌, ◌≢◌, ◌⊎◌, true, false, Option, Some, None, IfNone, IfSome, MatchOption};
ghost use Rattle.poll82599_c.specs.declared.end.End.{End as Held};

mod lending;

use crate::end::End;
use ffi_handle::Parts;
use std::alloc::Global;
use std::marker::Model;
use std::mem::replace;
use std::ptr::null_mut;

/// A pointer that owns an object, or null. A program starts it as null, passes its address, and never copies it.
#[repr(C)]
#[derive(Drop)]
pub struct Handle {
    ptr: *mut u8,
    alloc: Global,
    pub ghost held: { Option Held },
}

impl Model for Handle {
    ghost use Rattle.ffi_handle.specs.Held.{held_owns};
    ghost use Rattle.std.specs.contracts.impls.GlobalAllocator.TheImpl.{ghosts};
    ghost use Rattle.poll82599_c.specs.contracts.end.End.{the_row};

    ghost also_owns = { λ h. held_owns (ghosts.dealloc_token h.alloc) the_row h.ptr h.held };
}

impl Handle {
    fn empty(alloc: Global) -> Handle
        ensures { result.held ≡ None }
    {
        Handle {
            ptr: null_mut(),
            alloc,
        }
    }

    fn of_parts(parts: Parts<End, Global>) -> Handle
        ensures { result.held ≡ Some parts.value }
    {
        let Parts { ptr, alloc } = parts;
        Handle {
            ptr: ptr as *mut u8,
            alloc,
        }
    }

    /// Returns the object's parts, or nothing if the handle is empty.
    fn into_parts(self) -> Option<Parts<End, Global>>
        ensures { MatchOption result (self.held ≡ None) (λ p. self.held ≡ Some p.value) }
    {
        let Handle { ptr, alloc } = self;
        if ptr.is_null() {
            None
        } else {
            Some(Parts {
                ptr: ptr as *mut End,
                alloc,
            })
        }
    }

    /// Takes the object, if there is one, and leaves the handle empty.
    pub(crate) fn take(&mut self, alloc: Global) -> Option<Box<End>>
        ensures value { MatchOption result (self.old.held ≡ None) (λ b. self.old.held ≡ Some b.value) }
        ensures left { self.new.held ≡ None }
    {
        match replace(self, Handle::empty(alloc)).into_parts() {
            None => None,
            Some(parts) => Some(parts.into_box()),
        }
    }

    /// Whether the handle holds no object.
    pub(crate) fn is_empty(&mut self) -> bool
        ensures empty { result ≡ true → self.old.held ≡ None }
        ensures in_use { result ≡ false → self.old.held ≢ None }
        ensures kept { self.new.held ≡ self.old.held }
    {
        match self.lent() {
            None => true,
            Some(_) => false,
        }
    }

    /// Puts an object into the handle.
    pub(crate) fn put(&mut self, made: Box<End>)
        ensures { self.new.held ≡ Some made.value }
    {
        *self = Handle::of_parts(Parts::of(made));
    }
}

/// Takes the objects of two handles. If either is empty, returns nothing and leaves both unchanged.
pub(crate) fn take_both(
    alloc: Global,
    one: &mut Handle,
    other: &mut Handle,
) -> Option<(Box<End>, Box<End>)>
    ensures one { IfSome result (λ r. one.old.held ≡ Some r.0.value) }
    ensures other { IfSome result (λ r. other.old.held ≡ Some r.1.value) }
    ensures left { IfSome result (λ _. (one.new.held ≡ None) × (other.new.held ≡ None)) }
    ensures none { IfNone result ((one.old.held ≡ None) ⊎ (other.old.held ≡ None)) }
    ensures kept { IfNone result ((one.new.held ≡ one.old.held) × (other.new.held ≡ other.old.held)) }
{
    let first = one.take(alloc)?;
    match other.take(alloc) {
        Some(second) => Some((first, second)),
        None => {
            one.put(first);
            None
        }
    }
}

// One thread at a time uses the object behind the handle.
unsafe impl Send for Handle {}
