//! A device outlasts its process: what it saves, the files of its slots, and the device that is restored from both.

ghost use Rattle.std.specs.Prelude.{◌≡◌, []};
ghost use Rattle.c_base.specs.Bytes.{Copied};
ghost use Rattle.c_base.specs.Calls.{Tells};
ghost use Rattle.fuota_c.specs.Config.{config_of};
ghost use Rattle.fuota_c.specs.Saving.{IsDeviceBack, SavesTo, slot_file};

use crate::config::{ConfigFields, config_of};
use crate::device::{fuota_device_free, made};
use crate::device_handle::DeviceHandle;
use c_base::answer::{CORRUPT, DONE};
use c_base::{Handle, copy_part, put_whole};
use device_core::{Device, DeviceConfig};
use flash_session::CellFlash;
use std::alloc::Global;

/// Copies what the device knows, as 492 bytes for `fuota_device_restore`, to the front of `into`, and returns their count; 0
/// where they have no room, or without a device.
#[unsafe(no_mangle)]
pub extern "C" fn fuota_device_save(
    handle: &mut DeviceHandle,
    alloc: Global,
    into: &mut [u8],
) -> usize
    ensures same { handle.new.held ≡ handle.old.held }
    ensures saved { Tells handle.old.held (λ x. SavesTo x into.old into.new result)
        ((result ≡ 0) × (into.new ≡ into.old)) }
{
    match handle.get_mut() {
        None => 0,
        Some(device) => put_whole(device.save().as_slice(), into),
    }
}

/// Copies bytes of the file that was received to run next, or of the one that runs, from the offset on, as many as there are and
/// have room, and returns their count.
#[unsafe(no_mangle)]
pub extern "C" fn fuota_device_firmware(
    handle: &mut DeviceHandle,
    alloc: Global,
    is_next: bool,
    offset: usize,
    into: &mut [u8],
) -> usize
    ensures same { handle.new.held ≡ handle.old.held }
    ensures file { Tells handle.old.held
        (λ x. Copied (slot_file x is_next) offset into.old into.new result)
        ((result ≡ 0) × (into.new ≡ into.old)) }
{
    match handle.get_mut() {
        None => 0,
        Some(device) => copy_part(slot_file(device, is_next), offset, into),
    }
}

fn slot_file(device: &Device<CellFlash>, is_next: bool) -> &[u8]
    ensures { result.now ≡ slot_file device.now is_next }
{
    if is_next {
        device.next_file()
    } else {
        device.slots().running().1
    }
}

/// Frees what was there, and puts the device of this configuration that saved these bytes, with the files of its slots, into the
/// handle, without sessions: done; out of range as `fuota_device_new`; corrupt where no such device saved them; no memory. Except
/// at done there is no device.
#[unsafe(no_mangle)]
pub extern "C" fn fuota_device_restore(
    handle: &mut DeviceHandle,
    alloc: Global,
    size: u8,
    config: &ConfigFields,
    saved: &[u8],
    running: &[u8],
    next: &[u8],
) -> u8
    ensures { IsDeviceBack (record { size = size; config = config_of config.now; bytes = [] })
        saved.now running.now next.now handle.new.held result }
{
    put_back(
        handle,
        alloc,
        size,
        config_of(config),
        &[],
        saved,
        running,
        next,
    )
}

/// Frees what was there, and puts the device that saved these bytes, over a flash of those, into the handle.
pub fn put_back(
    handle: &mut DeviceHandle,
    alloc: Global,
    size: u8,
    config: DeviceConfig,
    flash: &[u8],
    saved: &[u8],
    running: &[u8],
    next: &[u8],
) -> u8
    ensures { IsDeviceBack (record { size = size; config = config; bytes = flash.now })
        saved.now running.now next.now handle.new.held result }
{
    fuota_device_free(handle, alloc);
    match made(alloc, size, config, flash) {
        Ok(mut device) => {
            if !device.resume(saved, running, next) {
                return CORRUPT;
            }
            // What the handle had is dropped.
            let _none = handle.replace(Handle::of(device)).into_box();
            DONE
        }
        Err(answer) => answer,
    }
}
