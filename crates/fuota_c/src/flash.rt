//! A device whose sessions are held in a flash that C has as bytes: it takes them at the start, and hands them out between
//! calls, so that the device outlasts its process as it is.

ghost use Rattle.std.specs.Prelude.{◌≡◌};
ghost use Rattle.c_base.specs.Answer.{no_object};
ghost use Rattle.c_base.specs.Bytes.{Copied};
ghost use Rattle.c_base.specs.Calls.{Does, Tells};
ghost use Rattle.fuota_c.specs.Config.{held_config_of};
ghost use Rattle.fuota_c.specs.Device.{IsNewDevice};
ghost use Rattle.fuota_c.specs.Flash.{PowersOrNot};
ghost use Rattle.fuota_c.specs.Saving.{IsDeviceBack};

use crate::config::{ConfigFields, held_config_of};
use crate::device::put_new;
use crate::device_handle::DeviceHandle;
use crate::saving::put_back;
use c_base::answer::{DONE, FLASH, NO_OBJECT, NOTHING};
use c_base::copy_part;
use std::alloc::Global;

/// Does what `fuota_device_new` does, for a device whose sessions are held in a flash of these bytes, each in `span` of them.
/// They are down until `fuota_device_power`. Out of range also where the flash has no room for four spans of at least 24,640
/// bytes, or has 2^32 bytes and more.
#[unsafe(no_mangle)]
pub extern "C" fn fuota_device_new_in_flash(
    handle: &mut DeviceHandle,
    alloc: Global,
    size: u8,
    config: &ConfigFields,
    span: u32,
    flash: &[u8],
) -> u8
    ensures { IsNewDevice
        (record { size = size; config = held_config_of config.now span; bytes = flash.now })
        handle.new.held result }
{
    put_new(handle, alloc, size, held_config_of(config, span), flash)
}

/// Does what `fuota_device_restore` does, for a device whose sessions are held in a flash of these bytes, each in `span` of
/// them. They are down until `fuota_device_power`. Out of range also as `fuota_device_new_in_flash`.
#[unsafe(no_mangle)]
pub extern "C" fn fuota_device_restore_in_flash(
    handle: &mut DeviceHandle,
    alloc: Global,
    size: u8,
    config: &ConfigFields,
    span: u32,
    flash: &[u8],
    saved: &[u8],
    running: &[u8],
    next: &[u8],
) -> u8
    ensures { IsDeviceBack
        (record { size = size; config = held_config_of config.now span; bytes = flash.now })
        saved.now running.now next.now handle.new.held result }
{
    put_back(
        handle,
        alloc,
        size,
        held_config_of(config, span),
        flash,
        saved,
        running,
        next,
    )
}

/// Opens the sessions that are held in flash, and offers each file that is whole now, and was not when the device was last up,
/// to next: done; flash where the bytes of a session's range are of no session, and then they are down; nothing where the
/// sessions are in memory.
#[unsafe(no_mangle)]
pub extern "C" fn fuota_device_power(handle: &mut DeviceHandle, alloc: Global) -> u8
    ensures { Does handle.old.held handle.new.held (λ x y. PowersOrNot x y result)
        (result ≡ no_object) }
{
    let Some(device) = handle.get_mut() else {
        return NO_OBJECT;
    };
    if !device.is_held() {
        return NOTHING;
    }
    match device.power() {
        Ok(()) => DONE,
        Err(_) => FLASH,
    }
}

/// Copies bytes of the flash from the offset on, as many as there are and have room, and returns their count; 0 where sessions
/// are in memory.
#[unsafe(no_mangle)]
pub extern "C" fn fuota_device_flash(
    handle: &mut DeviceHandle,
    alloc: Global,
    offset: usize,
    into: &mut [u8],
) -> usize
    ensures same { handle.new.held ≡ handle.old.held }
    ensures flash { Tells handle.old.held
        (λ x. Copied x.sessions.flash.bytes offset into.old into.new result)
        ((result ≡ 0) × (into.new ≡ into.old)) }
{
    match handle.get_mut() {
        None => 0,
        Some(device) => copy_part(device.flash().bytes(), offset, into),
    }
}
