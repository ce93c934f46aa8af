//! A device of all four packages.

ghost use Rattle.std.specs.Prelude.{◌≡◌, ◌≤◌, Some, None, Ok, [], length, MatchResult};
ghost use Rattle.wire_base.specs.Payload.{max_payload};
ghost use Rattle.c_base.specs.Answer.{done, no_object};
ghost use Rattle.c_base.specs.Calls.{Does, Tells};
ghost use Rattle.fuota_c.specs.Config.{config_of};
ghost use Rattle.fuota_c.specs.Device.{IsNewDevice, DeliversOrNot, WakesOrNot, TakesUplink, IsUplinkOut, IsSessionShown, IsSessionFile, downlink_of, delivered_number, unmade_number};

use crate::config::{ConfigFields, config_of, fits};
use crate::device_handle::DeviceHandle;
use crate::shown::{ViewFields, file_in, show};
use crate::size::{sessions_of, size_of};
use c_base::answer::{
    DEAF, DONE, DOWN, FLASH, FULL, NO_MEMORY, NO_OBJECT, NOTHING, RANGE, REFUSED,
};
use c_base::{Handle, copy_part, put_whole};
use device_core::{Delivered, Device, DeviceConfig, OutboxFull, ReserveError, Uplink};
use flash_session::CellFlash;
use package_grammar::{Downlink, To};
use std::alloc::Global;
use wire_base::{MAX_PAYLOAD, Payload};

/// Session indices, 0 to 3.
const SESSIONS: u8 = 4;

/// The last ms of true time at which a device is called.
pub const MAX_MOMENT: u64 = 4_294_967_295_999;

/// When and how a payload comes: `t` in ms of true time, a random word, the number at which a verdict is marked; by
/// unicast, or by the multicast group with an address, with a frame count.
#[repr(C)]
#[derive(Drop)]
pub struct ArrivalFields {
    pub t: u64,
    pub mark: u64,
    pub word: u32,
    pub addr: u32,
    pub count: u32,
    pub is_group: bool,
}

/// An uplink: when it is due, in ms of true time; its bytes are the first `length`.
#[repr(C)]
#[derive(Drop)]
pub struct UplinkFields {
    pub due: u64,
    pub length: usize,
    pub port: u8,
    pub payload: [u8; 242],
}

/// Frees what was there, and puts a new device into the handle, with all memory that it ever needs: done; out of range where a
/// number of the configuration is, or at a size above 2, or no memory, and then there is no device. Each of its sessions has room
/// for 256 pieces and 16 rows of 48 bytes at size 0, for 1,024 pieces and 64 rows of 48 bytes at 1, and for any file at 2.
#[unsafe(no_mangle)]
pub extern "C" fn fuota_device_new(
    handle: &mut DeviceHandle,
    alloc: Global,
    size: u8,
    config: &ConfigFields,
) -> u8
    ensures { IsNewDevice (record { size = size; config = config_of config.now; bytes = [] })
        handle.new.held result }
{
    put_new(handle, alloc, size, config_of(config), &[])
}

/// Frees what was there, and puts a new device over a flash of these bytes into the handle.
pub fn put_new(
    handle: &mut DeviceHandle,
    alloc: Global,
    size: u8,
    config: DeviceConfig,
    bytes: &[u8],
) -> u8
    ensures { IsNewDevice (record { size = size; config = config; bytes = bytes.now })
        handle.new.held result }
{
    fuota_device_free(handle, alloc);
    match made(alloc, size, config, bytes) {
        Ok(device) => {
            // What the handle had is dropped.
            let _none = handle.replace(Handle::of(device)).into_box();
            DONE
        }
        Err(answer) => answer,
    }
}

/// Makes a device over a flash of these bytes, or answers why there is none. It is never inlined, so that no caller has the
/// device on its stack that is made here.
#[inline(never)]
pub fn made(
    alloc: Global,
    size: u8,
    config: DeviceConfig,
    bytes: &[u8],
) -> Result<Box<Device<CellFlash>>, u8>
    ensures { MatchResult result
        (λ x. IsNewDevice (record { size = size; config = config; bytes = bytes.now })
        (Some x.value) done)
        (λ answer. IsNewDevice (record { size = size; config = config; bytes = bytes.now })
        None answer) }
{
    let Some(size) = size_of(size) else {
        return Err(RANGE);
    };
    if !fits(&config, bytes) {
        return Err(RANGE);
    }
    let Ok(flash) = CellFlash::of_bytes(alloc, bytes) else {
        return Err(NO_MEMORY);
    };
    boxed(
        alloc,
        Device::reserve_sized(alloc, config, sessions_of(size), flash),
    )
}

/// Puts the device that was made into memory of its own, or answers why there is none. It is never inlined, so that while the
/// device is made no room for one that moves is on the stack.
#[inline(never)]
pub fn boxed(
    alloc: Global,
    made: Result<Device<CellFlash>, ReserveError>,
) -> Result<Box<Device<CellFlash>>, u8>
    ensures { MatchResult result (λ x. made ≡ Ok x.value) (λ answer. answer ≡ unmade_number made) }
{
    match made {
        Ok(device) => match Box::new(alloc, device) {
            Ok(device) => Ok(device),
            Err(_) => Err(NO_MEMORY),
        },
        Err(ReserveError::BadConfig) => Err(RANGE),
        Err(ReserveError::Memory) => Err(NO_MEMORY),
    }
}

/// Frees the device, if there is one; the handle has none afterwards.
#[unsafe(no_mangle)]
pub extern "C" fn fuota_device_free(handle: &mut DeviceHandle, alloc: Global)
    ensures { handle.new.held ≡ None }
{
    // It is dropped here, and its memory with it.
    let _device = handle.replace(Handle::none(alloc)).into_box();
}

/// Brings a payload: done, where its commands acted; deaf, refused or full, where they did not; down where its sessions are;
/// out of range at more than 242 bytes and at a `t` of more than 4,294,967,295,999. Nothing changes at the last two.
#[unsafe(no_mangle)]
pub extern "C" fn fuota_device_deliver(
    handle: &mut DeviceHandle,
    alloc: Global,
    port: u8,
    payload: &[u8],
    arrival: &ArrivalFields,
) -> u8
    ensures { Does handle.old.held handle.new.held
        (λ x y. DeliversOrNot x y port payload.now arrival.now result) (result ≡ no_object) }
{
    let Some(device) = handle.get_mut() else {
        return NO_OBJECT;
    };
    if payload.len() > MAX_PAYLOAD || arrival.t > MAX_MOMENT {
        return RANGE;
    }
    let down = downlink_of(port, payload, arrival);
    delivered_number(device.deliver(arrival.t, &down, arrival.word, arrival.mark))
}

fn downlink_of(port: u8, payload: &[u8], arrival: &ArrivalFields) -> Downlink
    requires { length payload.now ≤ max_payload }
    ensures { result ≡ downlink_of port payload.now arrival.now }
{
    let to = if arrival.is_group {
        To::Group {
            addr: arrival.addr,
            count: arrival.count,
        }
    } else {
        To::Unicast
    };
    Downlink {
        to,
        port,
        payload: Payload::from_slice(payload),
    }
}

/// Returns the number of what happened to a payload.
pub fn delivered_number(delivered: Delivered) -> u8
    ensures { result ≡ delivered_number delivered }
{
    match delivered {
        Delivered::Done => DONE,
        Delivered::Deaf => DEAF,
        Delivered::Refused(_) => REFUSED,
        Delivered::OutboxFull(_) => FULL,
        Delivered::Down => DOWN,
        // Cells never fail.
        Delivered::FlashFault => FLASH,
    }
}

/// Wakes the device at `t` ms of true time, and it asks for the time: done; full where it holds 8 uplinks; out of range at a `t`
/// of more than 4,294,967,295,999, where nothing changes.
#[unsafe(no_mangle)]
pub extern "C" fn fuota_device_wake(handle: &mut DeviceHandle, alloc: Global, t: u64) -> u8
    ensures { Does handle.old.held handle.new.held (λ x y. WakesOrNot x y t result)
        (result ≡ no_object) }
{
    let Some(device) = handle.get_mut() else {
        return NO_OBJECT;
    };
    if t > MAX_MOMENT {
        return RANGE;
    }
    match device.wake(t) {
        Ok(()) => DONE,
        Err(OutboxFull) => FULL,
    }
}

/// Takes the oldest uplink that is held: done, or nothing where none is held.
#[unsafe(no_mangle)]
pub extern "C" fn fuota_device_take_uplink(
    handle: &mut DeviceHandle,
    alloc: Global,
    out: &mut UplinkFields,
) -> u8
    ensures { Does handle.old.held handle.new.held (λ x y. TakesUplink x y out.old out.new result)
        ((result ≡ no_object) × (out.new ≡ out.old)) }
{
    let Some(device) = handle.get_mut() else {
        return NO_OBJECT;
    };
    match device.take_uplink() {
        None => NOTHING,
        Some(uplink) => {
            put_uplink(&uplink, out);
            DONE
        }
    }
}

fn put_uplink(uplink: &Uplink, out: &mut UplinkFields)
    ensures { IsUplinkOut uplink.now out.old out.new }
{
    out.due = uplink.due;
    out.port = uplink.port;
    out.length = put_whole(uplink.payload.as_slice(), &mut out.payload);
}

/// Writes what the session of an index, 0 to 3, shows: done, or nothing where there is no session; out of range at any other
/// index.
#[unsafe(no_mangle)]
pub extern "C" fn fuota_device_view(
    handle: &mut DeviceHandle,
    alloc: Global,
    index: u8,
    out: &mut ViewFields,
) -> u8
    ensures same { handle.new.held ≡ handle.old.held }
    ensures view { Tells handle.old.held (λ x. IsSessionShown x index out.old out.new result)
        ((result ≡ no_object) × (out.new ≡ out.old)) }
{
    let Some(device) = handle.get_mut() else {
        return NO_OBJECT;
    };
    if index >= SESSIONS {
        return RANGE;
    }
    show(device.session(index), out)
}

/// Copies bytes of the whole file of the session of an index, 0 to 3, from the offset on, as many as there are and have room, and
/// returns their count.
#[unsafe(no_mangle)]
pub extern "C" fn fuota_device_file(
    handle: &mut DeviceHandle,
    alloc: Global,
    index: u8,
    offset: usize,
    into: &mut [u8],
) -> usize
    ensures same { handle.new.held ≡ handle.old.held }
    ensures file { Tells handle.old.held
        (λ x. IsSessionFile x index offset into.old into.new result)
        ((result ≡ 0) × (into.new ≡ into.old)) }
{
    let Some(device) = handle.get_mut() else {
        return 0;
    };
    if index >= SESSIONS {
        return 0;
    }
    copy_part(file_in(device.session(index)), offset, into)
}

/// Writes the version of the firmware that runs, 0 at first: done.
#[unsafe(no_mangle)]
pub extern "C" fn fuota_device_running(
    handle: &mut DeviceHandle,
    alloc: Global,
    version: &mut u32,
) -> u8
    ensures same { handle.new.held ≡ handle.old.held }
    ensures version { Tells handle.old.held (λ x. (result ≡ done) × (version.new ≡ x.slots.version))
        ((result ≡ no_object) × (version.new ≡ version.old)) }
{
    match handle.get_mut() {
        None => NO_OBJECT,
        Some(device) => {
            *version = device.slots().running().0;
            DONE
        }
    }
}
