//! An object, or none, by its place in memory. C can't have a struct with a type parameter, so the crates above have a struct of
//! the same parts for each kind of object.

ghost use Rattle.std.specs.Prelude.{◌≡◌, Option, None, Some, option_map};
ghost use Rattle.std.specs.Coded.{coded_option};

use crate::raw_box::RawBox;
use std::alloc::Global;
use std::marker::Model;
use std::ptr::null_mut;

/// The place of an object in memory, or none. It is not dropped: `into_box` returns the object.
pub struct Handle<T> {
    pub at: *mut T,
    pub alloc: Global,
    pub ghost held: { Option T } by { coded_option T.code },
}

impl<T> Model for Handle<T> {
    ghost use Rattle.c_base.specs.Held.{held_at};

    ghost also_owns = { λ h. held_at T.row h.alloc h.at h.held };
}

impl<T: Drop> Handle<T> {
    /// Makes a handle without an object.
    pub fn none(alloc: Global) -> Handle<T>
        ensures { result.held ≡ None }
    {
        Handle {
            at: null_mut(),
            alloc,
        }
    }

    /// Makes the handle of an object.
    pub fn of(object: Box<T>) -> Handle<T>
        ensures { result.held ≡ Some object.value }
    {
        Handle::of_raw(RawBox::of(object))
    }

    /// Returns the object, where there is one.
    pub fn into_box(self) -> Option<Box<T>>
        ensures { option_map (λ b. b.value) result ≡ self.held }
    {
        match self.into_raw() {
            None => None,
            Some(raw) => Some(raw.into_box()),
        }
    }

    fn of_raw(object: RawBox<T, Global>) -> Handle<T>
        ensures { result.held ≡ Some object.value }
    {
        let RawBox { at, alloc } = object;
        Handle { at, alloc }
    }

    fn into_raw(self) -> Option<RawBox<T, Global>>
        ensures { option_map (λ r. r.value) result ≡ self.held }
    {
        let Handle { at, alloc } = self;
        if at.is_null() {
            None
        } else {
            Some(RawBox { at, alloc })
        }
    }
}
