//! What several tests take: an image file, and a device whose sessions are only in memory.

use device_core::{Class, DeviceConfig, MAX_AREA};
use flash_session::CellFlash;
use mc_keys::RootKind;
use std::alloc::Global;
use std::process::Abort;
use std::test::*;

/// An image file for hardware 1 with firmware 2, its body and digest those of the text abc.
pub static IMAGE: [u8; 52] = [
    0x46, 0x55, 0x49, 0x4d, 0x01, 0x01, 0x00, 0x00, 0x00, 0x02, 0x00, 0x00, 0x00, 0x03, 0x00, 0x00,
    0x00, 0xba, 0x78, 0x16, 0xbf, 0x8f, 0x01, 0xcf, 0xea, 0x41, 0x41, 0x40, 0xde, 0x5d, 0xae, 0x22,
    0x23, 0xb0, 0x03, 0x61, 0xa3, 0x96, 0x17, 0x7a, 0x9c, 0xb4, 0x10, 0xff, 0x61, 0xf2, 0x00, 0x15,
    0xad, 0x61, 0x62, 0x63,
];

/// A device of class C without rows for coded fragments, whose clock is right.
pub const CONFIG: DeviceConfig = DeviceConfig {
    class: Class::C,
    hw: 1,
    formats: 2,
    rows: 0,
    offset: 0,
    key: [0; 16],
    root: RootKind::V10,
    descriptor: None,
    sessions: 4,
    groups: 4,
    area: MAX_AREA,
    held: false,
    span: 0,
};

/// A device whose sessions are only in memory needs no flash.
pub fn no_flash(rt: &impl Abort, alloc: Global) -> CellFlash {
    match CellFlash::reserve(alloc, 0) {
        Ok(flash) => flash,
        Err(_) => panic!(rt; "no flash"),
    }
}
