//! What happens at a device of a campaign. Its memory is taken at its first event, and its uplinks are numbered after each event.

ghost use Rattle.std.specs.Prelude.{◌≡◌, ◌≤◌, true, length, OnOk, OnErr};
ghost use Rattle.device_core.specs.Device.{DeviceState, max_moment, outbox_size};
ghost use Rattle.campaign_world.specs.HeldEvent.{after_event, time_of, makes_uplinks, TakesUplinks, Happens, OneHappens};
ghost use Rattle.campaign_world.specs.HeldLate.{IsAtRest, DeviceRests};
ghost use Rattle.campaign_world.specs.HeldLog.{HasRoom};

use crate::late::{LateDevice, created};
use crate::logs::UplinkLog;
use device_core::{Device, Moment, Uplink};
use flash_session::CellFlash;
use package_grammar::DownlinkRef;
use std::alloc::{AllocError, Global};
use wire_base::Payload;

/// The most uplinks that a device holds, and so the most that one event can make.
pub const OUTBOX: usize = 8;

/// What happens at a device.
#[derive(Clone, Copy)]
pub enum Event<'a> {
    /// A payload reaches it.
    Deliver(&'a DownlinkRef<'a>, Moment),
    /// Bytes reach its radio.
    Radio(&'a [u8], Moment),
    /// It wakes, at a time in ms.
    Wake(u64),
    /// It knows both image formats from now on.
    Raise,
    /// Power comes to it again.
    Power,
}

/// Makes an event happen at the device with a number, and numbers its uplinks, oldest first. Where there is no memory for them or
/// for the device, the device is not called. Each caller knows its event, so that no match on it is left in the built code.
#[inline(always)]
pub fn happen(
    devices: &mut Vec<LateDevice>,
    alloc: Global,
    uplinks: &mut UplinkLog,
    id: u8,
    event: &Event<'_>,
) -> Result<(), AllocError>
    requires first { 1 ≤ id }
    requires last { id ≤ length devices.old.items }
    requires moment { time_of event.now ≤ max_moment }
    ensures happens { OnOk result (OneHappens (after_event event.now) id
        devices.old.items devices.new.items uplinks.old.items uplinks.new.items) }
    ensures devices { OnErr result (devices.new.items ≡ devices.old.items) }
    ensures uplinks { OnErr result (uplinks.new.items ≡ uplinks.old.items) }
{
    reserve_for(uplinks, event)?;
    let late = &mut devices[id as usize - 1];
    happen_late(late, alloc, uplinks, id, event)
}

/// Takes room for the uplinks that the device may make by an event.
#[inline(always)]
fn reserve_for(uplinks: &mut UplinkLog, event: &Event<'_>) -> Result<(), AllocError>
    ensures same { uplinks.new.items ≡ uplinks.old.items }
    ensures room { OnOk result (makes_uplinks event.now ≡ true
        → HasRoom outbox_size uplinks.new) }
{
    match event {
        Event::Raise | Event::Power => Ok(()),
        _ => uplinks.reserve(),
    }
}

/// Makes an event happen at a device, which is created at its first one.
#[inline(always)]
fn happen_late(
    late: &mut LateDevice,
    alloc: Global,
    uplinks: &mut UplinkLog,
    id: u8,
    event: &Event<'_>,
) -> Result<(), AllocError>
    requires first { 1 ≤ id }
    requires moment { time_of event.now ≤ max_moment }
    requires room { makes_uplinks event.now ≡ true → HasRoom outbox_size uplinks.old }
    ensures happens { OnOk result (Happens DeviceRests (after_event event.now) id
        late.old late.new uplinks.old.items uplinks.new.items) }
    ensures device { OnErr result (late.new ≡ late.old) }
    ensures uplinks { OnErr result (uplinks.new.items ≡ uplinks.old.items) }
{
    if let Some(device) = &mut late.device {
        happen_at(device, uplinks, id, event);
        return Ok(());
    }
    let mut device = created(alloc, late.config)?;
    happen_at(&mut device, uplinks, id, event);
    late.device = Some(device);
    Ok(())
}

/// Makes an event happen at a device, and takes its uplinks.
#[inline(always)]
fn happen_at(device: &mut Device<CellFlash>, uplinks: &mut UplinkLog, id: u8, event: &Event<'_>)
    requires first { 1 ≤ id }
    requires moment { time_of event.now ≤ max_moment }
    requires room { makes_uplinks event.now ≡ true → HasRoom outbox_size uplinks.old }
    ensures { Happens IsAtRest (after_event event.now) id
        device.old device.new uplinks.old.items uplinks.new.items }
{
    match event {
        Event::Deliver(down, at) => {
            // the device counts what happened to it
            let _delivered = device.receive(at.t, down, at.word, at.mark);
            take_uplinks(id, device, uplinks);
        }
        Event::Radio(bytes, at) => {
            // so here
            let _heard = device.radio(at.t, bytes, at.word, at.mark);
            take_uplinks(id, device, uplinks);
        }
        Event::Wake(time) => {
            // without room for a request it asks for nothing
            let _asked = device.wake(*time);
            take_uplinks(id, device, uplinks);
        }
        Event::Raise => device.raise(),
        // A script's flash keeps what is written and never fails, so a device that opened it again would find itself as it is
        // (that is a law of `Device::power`): it need not be opened.
        Event::Power => {}
    }
}

/// Takes all uplinks of a device, oldest first. It has no more of them than there is room for.
fn take_uplinks(id: u8, device: &mut Device<CellFlash>, uplinks: &mut UplinkLog)
    requires first { 1 ≤ id }
    requires room { HasRoom outbox_size uplinks.old }
    ensures { TakesUplinks id device.old device.new uplinks.old.items uplinks.new.items }
{
    if device.has_uplink() {
        take_held(id, device, uplinks);
    }
}

/// The same for a device that holds some. It is a function by itself, so that no other payload keeps room for an uplink.
#[inline(never)]
fn take_held(id: u8, device: &mut Device<CellFlash>, uplinks: &mut UplinkLog)
    requires first { 1 ≤ id }
    requires room { HasRoom outbox_size uplinks.old }
    ensures { TakesUplinks id device.old device.new uplinks.old.items uplinks.new.items }
{
    let mut left = OUTBOX;
    while left > 0 {
        if !device.has_uplink() {
            return;
        }
        let mut uplink = Uplink {
            due: 0,
            port: 0,
            payload: Payload::new(),
        };
        device.take_uplink_into(&mut uplink);
        uplinks.push(id, &uplink);
        left -= 1;
    }
}
