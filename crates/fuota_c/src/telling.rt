//! What a device shows besides its sessions: its counters, and what was received to run next.

ghost use Rattle.std.specs.Prelude.{◌≡◌};
ghost use Rattle.device_core.specs.Firmware.{after_migration};
ghost use Rattle.device_core.specs.HeldDevice.{Becomes};
ghost use Rattle.c_base.specs.Answer.{done, no_object};
ghost use Rattle.c_base.specs.Calls.{Does, Tells};
ghost use Rattle.device_core.specs.Saving.{next_byte, next_version};
ghost use Rattle.fuota_c.specs.Telling.{counts_of, next_of};

use crate::device_handle::DeviceHandle;
use c_base::answer::{DONE, NO_OBJECT};
use device_core::Counts;
use image_slots::ImageState;
use std::alloc::Global;

/// The counters of a device, as `Counts` of `device_core` has them.
#[repr(C)]
#[derive(Drop)]
pub struct CountsFields {
    pub deaf: u64,
    pub refused: u64,
    pub full: u64,
    pub dropped: u64,
}

/// What was received to run next: 0 none, 1 corrupt, 2 incompatible, 3 valid; the version of a valid one, else 0.
#[repr(C)]
#[derive(Drop)]
pub struct NextFields {
    pub version: u32,
    pub state: u8,
}

/// Writes the counters: done.
#[unsafe(no_mangle)]
pub extern "C" fn fuota_device_counts(
    handle: &mut DeviceHandle,
    alloc: Global,
    out: &mut CountsFields,
) -> u8
    ensures same { handle.new.held ≡ handle.old.held }
    ensures counts { Tells handle.old.held (λ x. (result ≡ done) × (out.new ≡ counts_of x.counts))
        ((result ≡ no_object) × (out.new ≡ out.old)) }
{
    match handle.get_mut() {
        None => NO_OBJECT,
        Some(device) => {
            *out = counts_of(device.counts());
            DONE
        }
    }
}

fn counts_of(counts: Counts) -> CountsFields
    ensures { result ≡ counts_of counts }
{
    CountsFields {
        deaf: counts.deaf,
        refused: counts.refused,
        full: counts.full,
        dropped: counts.dropped,
    }
}

/// Writes what the file that was received to run next is to the device: done.
#[unsafe(no_mangle)]
pub extern "C" fn fuota_device_next(
    handle: &mut DeviceHandle,
    alloc: Global,
    out: &mut NextFields,
) -> u8
    ensures same { handle.new.held ≡ handle.old.held }
    ensures next { Tells handle.old.held (λ x. (result ≡ done) × (out.new ≡ next_of x.slots.next))
        ((result ≡ no_object) × (out.new ≡ out.old)) }
{
    match handle.get_mut() {
        None => NO_OBJECT,
        Some(device) => {
            *out = next_of(device.slots().next());
            DONE
        }
    }
}

fn next_of(state: ImageState) -> NextFields
    ensures { result ≡ next_of state }
{
    NextFields {
        version: version_of(state),
        state: image_number(state),
    }
}

fn version_of(state: ImageState) -> u32
    ensures { result ≡ next_version state }
{
    match state {
        ImageState::Valid(version) => version,
        _ => 0,
    }
}

fn image_number(state: ImageState) -> u8
    ensures { result ≡ next_byte state }
{
    match state {
        ImageState::None => 0,
        ImageState::Corrupt => 1,
        ImageState::Incompatible => 2,
        ImageState::Valid(_) => 3,
    }
}

/// Makes both image formats known from now on, and reads what was received to run next again: done.
#[unsafe(no_mangle)]
pub extern "C" fn fuota_device_raise(handle: &mut DeviceHandle, alloc: Global) -> u8
    ensures { Does handle.old.held handle.new.held
        (λ x y. (result ≡ done) × Becomes x y after_migration) (result ≡ no_object) }
{
    match handle.get_mut() {
        None => NO_OBJECT,
        Some(device) => {
            device.raise();
            DONE
        }
    }
}
