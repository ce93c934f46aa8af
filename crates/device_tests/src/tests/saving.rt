//! A device that is saved, ends, and is restored.

ghost use Rattle.std.specs.Prelude.{◌≤◌, length};

use crate::tests::common;
use crate::tests::common::{IMAGE, no_flash};
use device_core::{Delivered, Device, DeviceConfig, RestoreError, SavedDevice};
use flash_session::CellFlash;
use image_slots::ImageState;
use package_grammar::{Downlink, To};
use std::alloc::Global;
use std::process::Abort;
use std::test::*;
use wire_base::Payload;

/// Room for the records of five fragments.
const SPAN: u32 = 24_640 + 5 * 36;

/// Its sessions are held in flash.
const CONFIG: DeviceConfig = DeviceConfig {
    formats: 1,
    rows: 2,
    key: [7; 16],
    groups: 1,
    area: 64,
    held: true,
    span: SPAN,
    ..common::CONFIG
};

/// An update with `IMAGE` in two pieces of 26 bytes, and a reboot: a setup of session 0, its two pieces, and DevRebootTimeReq.
static SETUP: [u8; 11] = [0x02, 0x00, 2, 0, 26, 0x00, 0, 0, 0, 0, 0];

static PIECES: [&[u8]; 2] = [
    &[
        0x08, 0x01, 0x00, 0x46, 0x55, 0x49, 0x4d, 0x01, 0x01, 0x00, 0x00, 0x00, 0x02, 0x00, 0x00,
        0x00, 0x03, 0x00, 0x00, 0x00, 0xba, 0x78, 0x16, 0xbf, 0x8f, 0x01, 0xcf, 0xea, 0x41,
    ],
    &[
        0x08, 0x02, 0x00, 0x41, 0x40, 0xde, 0x5d, 0xae, 0x22, 0x23, 0xb0, 0x03, 0x61, 0xa3, 0x96,
        0x17, 0x7a, 0x9c, 0xb4, 0x10, 0xff, 0x61, 0xf2, 0x00, 0x15, 0xad, 0x61, 0x62, 0x63,
    ],
];

static REBOOT: [u8; 5] = [0x02, 0, 0, 0, 0];

/// The digest of a first device of `CONFIG` that runs version 2, which is `IMAGE`; made with Python's `hashlib` from the
/// table of `Saving.antt`.
static DIGEST: [u8; 32] = [
    0xb4, 0x51, 0x78, 0x00, 0xbf, 0x96, 0x12, 0xb3, 0xb4, 0x2d, 0x0d, 0xa1, 0x0d, 0xa7, 0x96, 0xb9,
    0x42, 0x03, 0x7a, 0xbb, 0x05, 0x1f, 0xdf, 0xe1, 0x49, 0xa8, 0xd4, 0x4a, 0x2f, 0xb3, 0x5c, 0x7f,
];

fn flash(rt: &impl Abort, alloc: Global) -> CellFlash {
    match CellFlash::reserve(alloc, 4 * SPAN) {
        Ok(flash) => flash,
        Err(_) => panic!(rt; "no flash"),
    }
}

/// Whether a payload acts.
fn acts(rt: &impl Abort, device: &mut Device<CellFlash>, port: u8, bytes: &[u8]) -> bool {
    assert!(rt; bytes.len() <= 242);
    let down = Downlink {
        to: To::Unicast,
        port,
        payload: Payload::from_slice(bytes),
    };
    device.deliver(0, &down, 20, 1) == Delivered::Done
}

/// Why no device of a configuration is restored from these bytes.
fn fault(
    rt: &impl Abort,
    alloc: Global,
    config: DeviceConfig,
    saved: &[u8],
) -> Option<RestoreError> {
    Device::restore(alloc, config, no_flash(rt, alloc), saved, &[], &[]).err()
}

/// A device of the same configuration, over the flash and with the files of another one that ends.
fn restarted(rt: &impl Abort, alloc: Global, first: Device<CellFlash>) -> Device<CellFlash> {
    let saved = first.save();
    let running = copied(rt, alloc, first.slots().running().1);
    let next = copied(rt, alloc, first.next_file());
    let flash = first.close();
    powered(rt, alloc, flash, &saved, &running, &next)
}

fn copied(rt: &impl Abort, alloc: Global, bytes: &[u8]) -> Vec<u8> {
    match bytes.to_vec(alloc) {
        Ok(bytes) => bytes,
        Err(_) => panic!(rt; "no memory"),
    }
}

/// A device of these bytes and files that gets power.
fn powered(
    rt: &impl Abort,
    alloc: Global,
    flash: CellFlash,
    saved: &[u8],
    running: &[u8],
    next: &[u8],
) -> Device<CellFlash> {
    let mut again = match Device::restore(alloc, CONFIG, flash, saved, running, next) {
        Ok(again) => again,
        Err(_) => panic!(rt; "not restored"),
    };
    assert!(rt; again.is_held() && again.is_down());
    assert!(rt; again.save().as_slice() == saved);
    assert!(rt; again.power().is_ok());
    again
}

#[test]
fn a_restored_device_goes_on(rt: HostRuntime) {
    let mut device = match Device::reserve(rt.alloc(), CONFIG, flash(&rt, rt.alloc())) {
        Ok(device) => device,
        Err(_) => panic!(&rt; "no device"),
    };
    assert!(rt; device.is_held());
    assert!(rt; device.power().is_ok());
    assert!(rt; acts(&rt, &mut device, 201, &SETUP));
    for piece in PIECES {
        device = restarted(&rt, rt.alloc(), device);
        assert!(rt; device.take_uplink().is_some() == (piece[1] == 1));
        assert!(rt; acts(&rt, &mut device, 201, piece));
    }
    device = restarted(&rt, rt.alloc(), device);
    assert!(rt; device.slots().next() == ImageState::Valid(2));
    assert!(rt; acts(&rt, &mut device, 203, &REBOOT));
    assert!(rt; device.slots().running().0 == 2);
    // it runs, and the session that is whole does not offer it again
    device = restarted(&rt, rt.alloc(), device);
    assert!(rt; device.slots().running().1 == IMAGE.as_slice());
    assert!(rt; device.slots().next() == ImageState::None);
    assert!(rt; device.take_uplink().is_some());
    drop(device);
}

#[test]
fn a_first_device_runs_what_its_maker_put_there(rt: HostRuntime) {
    let mut saved = [0; 492];
    saved[..5].copy_from_slice(b"FUSD\x01");
    saved[181] = 1;
    saved[182] = 2;
    saved[191] = 52;
    saved[460..].copy_from_slice(&DIGEST);
    let device = powered(&rt, rt.alloc(), flash(&rt, rt.alloc()), &saved, &IMAGE, &[]);
    assert!(rt; device.slots().running().0 == 2);
    assert!(rt; device.slots().running().1 == IMAGE.as_slice());
    drop(device);
}

/// The bytes of a device of `CONFIG` whose sessions are in memory, with an answer.
fn saved(rt: &impl Abort, alloc: Global, config: DeviceConfig) -> SavedDevice {
    let mut device = match Device::reserve(alloc, config, no_flash(rt, alloc)) {
        Ok(device) => device,
        Err(_) => panic!(rt; "no device"),
    };
    assert!(rt; acts(rt, &mut device, 201, &SETUP));
    device.save()
}

#[test]
fn other_bytes_are_corrupt(rt: HostRuntime) {
    let config = DeviceConfig {
        held: false,
        ..CONFIG
    };
    let mut bytes = [0; 492];
    let first = saved(&rt, rt.alloc(), config);
    assert!(rt; first.len() == bytes.len());
    bytes.copy_from_slice(first.as_slice());
    assert!(rt; fault(&rt, rt.alloc(), config, &bytes).is_none());
    for k in 0..bytes.len() {
        bytes[k] ^= 1;
        assert!(rt; fault(&rt, rt.alloc(), config, &bytes) == Some(RestoreError::Corrupt));
        bytes[k] ^= 1;
        assert!(rt; fault(&rt, rt.alloc(), config, &bytes[..k]) == Some(RestoreError::Corrupt));
    }
    let other = DeviceConfig { rows: 3, ..config };
    assert!(rt; fault(&rt, rt.alloc(), other, &bytes) == Some(RestoreError::Corrupt));
    let bad = DeviceConfig {
        rows: 257,
        ..config
    };
    assert!(rt; fault(&rt, rt.alloc(), bad, &bytes) == Some(RestoreError::BadConfig));
}
