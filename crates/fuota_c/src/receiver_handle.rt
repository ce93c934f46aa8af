//! A receiver as C holds it.

ghost use Rattle.std.specs.Prelude.{◌≡◌, Option, Some, option_map};
ghost use Rattle.fuota_c.specs.declared.sized_receiver.Receiver.{Receiver as Held};

use crate::sized_receiver::Receiver;
use c_base::Handle;
use std::alloc::Global;
use std::marker::Model;

/// The place of a receiver in memory, or none. To C it is one pointer.
#[repr(C)]
pub struct ReceiverHandle {
    at: *mut u8,
    alloc: Global,
    ghost held: { Option Held },
}

impl Model for ReceiverHandle {
    ghost use Rattle.c_base.specs.Held.{held_at};
    ghost use Rattle.fuota_c.specs.Held.{receiver_row};

    ghost also_owns = { λ h. held_at receiver_row h.alloc h.at h.held };
}

impl ReceiverHandle {
    ghost use Rattle.std.specs.Borrow.{LendsIf, sem};
    ghost use Rattle.fuota_c.specs.Held.{receiver_row};
    ghost use Rattle.fuota_c.specs.contracts.receiver_handle.ReceiverHandle.{the_row};

    /// Lends the receiver, where there is one.
    pub fn get_mut(&mut self) -> Option<&mut Receiver>
        ensures* lends { sem 𝓛 (LendsIf the_row receiver_row self.entry result
            (λ w. record self.entry.now { held = Some w }) self.entry.now) }
        ensures value { option_map (λ x. x.now) result ≡ self.old.held }
    {
        let at = self.at as *mut Receiver;
        if at.is_null() {
            return None;
        }
        Some(unsafe { &mut *at })
    }

    /// Puts what a handle has in the place of what this one has, which it returns.
    pub fn replace(&mut self, handle: Handle<Receiver>) -> Handle<Receiver>
        ensures old { result.held ≡ self.old.held }
        ensures new { self.new.held ≡ handle.held }
    {
        let Handle { at, alloc } = handle;
        let old = self.at as *mut Receiver;
        self.at = at as *mut u8;
        Handle { at: old, alloc }
    }
}
