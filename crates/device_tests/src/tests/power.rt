//! A small update of a device whose sessions are in flash, stopped at each call of the flash.

ghost use Rattle.std.specs.Prelude.{◌≤◌};

use crate::tests::common;
use crate::tests::common::IMAGE;
use device_core::{Delivered, Device, DeviceConfig};
use flash_session::{MemFlash, StopFlash};
use frag_session::Verdict;
use image_slots::ImageState;
use package_grammar::{Downlink, To};
use std::alloc::Global;
use std::process::Abort;
use std::test::*;
use wire_base::Payload;

/// Room for the records of five fragments.
const SPAN: u32 = 24_640 + 5 * 36;

/// Room for the steps of all that the update writes.
const ROOM: u32 = 120_000;

/// More calls than the update makes.
const ALL: u64 = 1_000_000;

const CONFIG: DeviceConfig = DeviceConfig {
    formats: 1,
    rows: 2,
    groups: 1,
    area: 64,
    held: true,
    span: SPAN,
    ..common::CONFIG
};

/// The payloads of the update on port 201, which has `IMAGE` in two pieces of 26 bytes: a status request with a setup of
/// session 0 after it, piece 1 twice, a setup of session 3, piece 2, and the end of session 3 with a status request after
/// it.
static PAYLOADS: [&[u8]; 6] = [
    &[0x01, 0x01, 0x02, 0x00, 2, 0, 26, 0x00, 0, 0, 0, 0, 0],
    &[
        0x08, 0x01, 0x00, 0x46, 0x55, 0x49, 0x4d, 0x01, 0x01, 0x00, 0x00, 0x00, 0x02, 0x00, 0x00,
        0x00, 0x03, 0x00, 0x00, 0x00, 0xba, 0x78, 0x16, 0xbf, 0x8f, 0x01, 0xcf, 0xea, 0x41,
    ],
    &[
        0x08, 0x01, 0x00, 0x46, 0x55, 0x49, 0x4d, 0x01, 0x01, 0x00, 0x00, 0x00, 0x02, 0x00, 0x00,
        0x00, 0x03, 0x00, 0x00, 0x00, 0xba, 0x78, 0x16, 0xbf, 0x8f, 0x01, 0xcf, 0xea, 0x41,
    ],
    &[0x02, 0x30, 1, 0, 26, 0x00, 0, 0, 0, 0, 0],
    &[
        0x08, 0x02, 0x00, 0x41, 0x40, 0xde, 0x5d, 0xae, 0x22, 0x23, 0xb0, 0x03, 0x61, 0xa3, 0x96,
        0x17, 0x7a, 0x9c, 0xb4, 0x10, 0xff, 0x61, 0xf2, 0x00, 0x15, 0xad, 0x61, 0x62, 0x63,
    ],
    &[0x03, 0x03, 0x01, 0x01],
];

/// What sessions 0 and 3 received; none where there is no session.
type Shown = (Option<u16>, Option<u16>);

fn memory(rt: &impl Abort, alloc: Global) -> MemFlash {
    match MemFlash::reserve(alloc, 4 * SPAN, ROOM, Vec::new(alloc)) {
        Ok(flash) => flash,
        Err(_) => panic!(rt; "no memory"),
    }
}

/// A device whose flash is stopped after so many calls.
fn device(rt: &impl Abort, alloc: Global, flash: MemFlash, calls: u64) -> Device<StopFlash> {
    match Device::reserve(alloc, CONFIG, StopFlash::over(flash, calls)) {
        Ok(device) => device,
        Err(_) => panic!(rt; "no device"),
    }
}

/// The same over the flash of a device that has ended.
fn over(rt: &impl Abort, alloc: Global, first: Device<StopFlash>) -> Device<StopFlash> {
    device(rt, alloc, first.close().inner(), ALL)
}

fn power(rt: &impl Abort, device: &mut Device<StopFlash>) -> bool {
    assert!(rt; device.is_held());
    device.power().is_ok()
}

/// Whether a payload acted; a device whose flash failed is down.
fn acted(rt: &impl Abort, device: &mut Device<StopFlash>, payload: &[u8]) -> bool {
    assert!(rt; payload.len() <= 242);
    let down = Downlink {
        to: To::Unicast,
        port: 201,
        payload: Payload::from_slice(payload),
    };
    match device.deliver(0, &down, 0, 1) {
        Delivered::Done => true,
        Delivered::FlashFault => {
            assert!(rt; device.is_down());
            assert!(rt; device.deliver(0, &down, 0, 1) == Delivered::Down);
            false
        }
        _ => panic!(rt; "a payload is not heard"),
    }
}

fn received(device: &Device<StopFlash>, index: u8) -> Option<u16>
    requires { index ≤ 3 }
{
    match device.session(index) {
        Some(view) => Some(view.received),
        None => None,
    }
}

fn shows(device: &Device<StopFlash>) -> Shown {
    (received(device, 0), received(device, 3))
}

/// Whether session 0 has the image.
fn has_image(device: &Device<StopFlash>) -> bool {
    match device.session(0) {
        Some(view) => view.verdict == Verdict::Complete(1) && view.file == IMAGE.as_slice(),
        None => false,
    }
}

/// Whether the image is whole, and is to run next.
fn is_done(device: &Device<StopFlash>) -> bool {
    has_image(device)
        && received(device, 3) == None
        && device.slots().next() == ImageState::Valid(2)
}

/// What the sessions of a device that gets power show before each payload, and after the last.
fn all_shown_by(rt: &impl Abort, device: &mut Device<StopFlash>) -> [Shown; 7] {
    assert!(rt; device.is_down());
    assert!(rt; power(rt, device));
    let mut all = [(None, None); 7];
    for (at, payload) in PAYLOADS.iter().enumerate() {
        all[at] = shows(device);
        assert!(rt; acted(rt, device, payload));
    }
    all[6] = shows(device);
    assert!(rt; is_done(device));
    all
}

fn all_shown(rt: &impl Abort, alloc: Global) -> [Shown; 7] {
    let mut device = device(rt, alloc, memory(rt, alloc), ALL);
    let all = all_shown_by(rt, &mut device);
    drop(device);
    all
}

/// The update from a payload on, as far as the flash goes; how many payloads acted by then.
fn updated(rt: &impl Abort, device: &mut Device<StopFlash>, from: usize) -> usize {
    for (number, payload) in PAYLOADS.iter().enumerate() {
        if number >= from && !acted(rt, device, payload) {
            return number;
        }
    }
    PAYLOADS.len()
}

/// Power after a stop in the payload `at`; the payload from which the update goes on. The sessions are as before that
/// one, after it, or between where it sets a session up or ends one.
fn resumes(rt: &impl Abort, device: &mut Device<StopFlash>, all: &[Shown; 7], at: usize) -> usize {
    assert!(rt; power(rt, device));
    assert!(rt; at <= 6);
    let shown = shows(device);
    let behind = if at < 6 { at + 1 } else { at };
    if shown == all[behind] {
        return behind;
    }
    let is_between = at == 0 || at == 3 || at == 5;
    assert!(rt; shown == all[at] || is_between);
    at
}

/// The update with a flash that is stopped, from its first power on; how many payloads acted by then.
fn goes_as_far(rt: &impl Abort, first: &mut Device<StopFlash>) -> usize {
    let at = if power(rt, first) {
        updated(rt, first, 0)
    } else {
        0
    };
    assert!(rt; first.is_down() == (at < 6));
    at
}

/// The update goes on after a stop in the payload `at`, to its end.
fn ends(rt: &impl Abort, again: &mut Device<StopFlash>, all: &[Shown; 7], at: usize) {
    let from = resumes(rt, again, all, at);
    assert!(rt; updated(rt, again, from) == 6);
    assert!(rt; is_done(again));
}

/// The update with a flash that is stopped after so many calls, and another device over what it left; true where no
/// call was stopped.
fn goes_on(rt: &impl Abort, alloc: Global, all: &[Shown; 7], calls: u64) -> bool {
    let mut first = device(rt, alloc, memory(rt, alloc), calls);
    let at = goes_as_far(rt, &mut first);
    let mut again = over(rt, alloc, first);
    ends(rt, &mut again, all, at);
    drop(again);
    at == 6
}

#[test]
fn an_update_goes_on_after_a_stop_at_any_call(rt: HostRuntime) {
    let all = all_shown(&rt, rt.alloc());
    for calls in 0..1_000 {
        if goes_on(&rt, rt.alloc(), &all, calls) {
            assert!(&rt; calls > 25);
            return;
        }
    }
    panic!(&rt; "it never ends");
}
