//! A server as C holds it.

ghost use Rattle.std.specs.Prelude.{◌≡◌, Option, Some, option_map};
ghost use Rattle.campaign_server.specs.Server.{ServerState};

use crate::campaign::Campaign;
use c_base::Handle;
use std::alloc::Global;
use std::marker::Model;

/// The place of a server in memory, or none. To C it is one pointer.
#[repr(C)]
pub struct ServerHandle {
    at: *mut u8,
    alloc: Global,
    ghost held: { Option ServerState },
}

impl Model for ServerHandle {
    ghost use Rattle.c_base.specs.Held.{held_at};
    ghost use Rattle.fuota_server_c.specs.Held.{server_row};

    ghost also_owns = { λ h. held_at server_row h.alloc h.at h.held };
}

impl ServerHandle {
    ghost use Rattle.std.specs.Borrow.{LendsIf, sem};
    ghost use Rattle.fuota_server_c.specs.Held.{server_row};
    ghost use Rattle.fuota_server_c.specs.contracts.server_handle.ServerHandle.{the_row};

    /// Lends the server, where there is one.
    pub fn get_mut(&mut self) -> Option<&mut Campaign>
        ensures* lends { sem 𝓛 (LendsIf the_row server_row self.entry result
            (λ w. record self.entry.now { held = Some w }) self.entry.now) }
        ensures value { option_map (λ x. x.now) result ≡ self.old.held }
    {
        let at = self.at as *mut Campaign;
        if at.is_null() {
            return None;
        }
        Some(unsafe { &mut *at })
    }

    /// Puts what a handle has in the place of what this one has, which it returns.
    pub fn replace(&mut self, handle: Handle<Campaign>) -> Handle<Campaign>
        ensures old { result.held ≡ self.old.held }
        ensures new { self.new.held ≡ handle.held }
    {
        let Handle { at, alloc } = handle;
        let old = self.at as *mut Campaign;
        self.at = at as *mut u8;
        Handle { at: old, alloc }
    }
}
