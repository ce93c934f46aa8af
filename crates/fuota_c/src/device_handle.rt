//! A device as C holds it.

ghost use Rattle.std.specs.Prelude.{◌≡◌, Option, Some, option_map};
ghost use Rattle.flash_session.specs.Flashes.{Cells};
ghost use Rattle.device_core.specs.HeldDevice.{HeldDevice};

use c_base::Handle;
use device_core::Device;
use flash_session::CellFlash;
use std::alloc::Global;
use std::marker::Model;

/// The place of a device in memory, or none. To C it is one pointer.
#[repr(C)]
pub struct DeviceHandle {
    at: *mut u8,
    alloc: Global,
    ghost held: { Option (HeldDevice Cells) },
}

impl Model for DeviceHandle {
    ghost use Rattle.c_base.specs.Held.{held_at};
    ghost use Rattle.fuota_c.specs.Held.{device_row};

    ghost also_owns = { λ h. held_at device_row h.alloc h.at h.held };
}

impl DeviceHandle {
    ghost use Rattle.std.specs.Borrow.{LendsIf, sem};
    ghost use Rattle.fuota_c.specs.Held.{device_row};
    ghost use Rattle.fuota_c.specs.contracts.device_handle.DeviceHandle.{the_row};

    /// Lends the device, where there is one.
    pub fn get_mut(&mut self) -> Option<&mut Device<CellFlash>>
        ensures* lends { sem 𝓛 (LendsIf the_row device_row self.entry result
            (λ w. record self.entry.now { held = Some w }) self.entry.now) }
        ensures value { option_map (λ x. x.now) result ≡ self.old.held }
    {
        let at = self.at as *mut Device<CellFlash>;
        if at.is_null() {
            return None;
        }
        Some(unsafe { &mut *at })
    }

    /// Puts what a handle has in the place of what this one has, which it returns.
    pub fn replace(&mut self, handle: Handle<Device<CellFlash>>) -> Handle<Device<CellFlash>>
        ensures old { result.held ≡ self.old.held }
        ensures new { self.new.held ≡ handle.held }
    {
        let Handle { at, alloc } = handle;
        let old = self.at as *mut Device<CellFlash>;
        self.at = at as *mut u8;
        Handle { at: old, alloc }
    }
}
