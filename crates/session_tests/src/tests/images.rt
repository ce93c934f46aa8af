//! What a file is to a device, and when it runs.

ghost use Rattle.std.specs.Prelude.{◌≡◌, ◌<◌};

use crate::tests::common::IMAGE;
use image_slots::*;
use std::alloc::Global;
use std::process::Abort;
use std::test::*;

/// An image file for hardware 1 with firmware 2 and no body, its digest that of no bytes.
static EMPTY: [u8; 49] = [
    0x46, 0x55, 0x49, 0x4d, 0x01, 0x01, 0x00, 0x00, 0x00, 0x02, 0x00, 0x00, 0x00, 0x00, 0x00, 0x00,
    0x00, 0xe3, 0xb0, 0xc4, 0x42, 0x98, 0xfc, 0x1c, 0x14, 0x9a, 0xfb, 0xf4, 0xc8, 0x99, 0x6f, 0xb9,
    0x24, 0x27, 0xae, 0x41, 0xe4, 0x64, 0x9b, 0x93, 0x4c, 0xa4, 0x95, 0x99, 0x1b, 0x78, 0x52, 0xb8,
    0x55,
];

/// An image file of format 2 for hardware 1 to 3 with firmware 2, and the body and digest of `IMAGE`.
static RANGED: [u8; 56] = [
    0x46, 0x55, 0x49, 0x4d, 0x02, 0x01, 0x00, 0x00, 0x00, 0x03, 0x00, 0x00, 0x00, 0x02, 0x00, 0x00,
    0x00, 0x03, 0x00, 0x00, 0x00, 0xba, 0x78, 0x16, 0xbf, 0x8f, 0x01, 0xcf, 0xea, 0x41, 0x41, 0x40,
    0xde, 0x5d, 0xae, 0x22, 0x23, 0xb0, 0x03, 0x61, 0xa3, 0x96, 0x17, 0x7a, 0x9c, 0xb4, 0x10, 0xff,
    0x61, 0xf2, 0x00, 0x15, 0xad, 0x61, 0x62, 0x63,
];

/// `IMAGE` with a byte after it.
fn longer() -> [u8; 53] {
    let mut file = [0; 53];
    file[..52].copy_from_slice(&IMAGE);
    file
}

/// `IMAGE` with one byte changed.
fn changed(at: u8, byte: u8) -> [u8; 52]
    requires { at < 52 }
{
    let mut file = IMAGE;
    file[at as usize] = byte;
    file
}

/// What a file is to a device of this hardware that knows so many formats.
fn is_read(rt: &impl Abort, file: &[u8], hw: u32, formats: u8, state: ImageState) {
    assert!(rt; ImageView::read(file, hw, formats) == state);
    assert!(rt; is_image(file) == (state != ImageState::Corrupt));
}

#[test]
fn a_file_is_what_its_bytes_make_it(rt: HostRuntime) {
    is_read(&rt, &IMAGE, 1, 1, ImageState::Valid(2));
    is_read(&rt, &IMAGE, 2, 2, ImageState::Incompatible);
    is_read(&rt, &EMPTY, 1, 2, ImageState::Valid(2));
    is_read(&rt, &changed(51, b'd'), 1, 2, ImageState::Corrupt);
    is_read(&rt, &changed(4, 2), 1, 2, ImageState::Corrupt);
    is_read(&rt, &changed(9, 0), 1, 2, ImageState::Corrupt);
    is_read(&rt, &longer(), 1, 2, ImageState::Corrupt);
    is_read(&rt, &IMAGE[..48], 1, 2, ImageState::Corrupt);
    is_read(&rt, &[], 1, 2, ImageState::Corrupt);
}

#[test]
fn a_file_of_format_2_is_what_its_bytes_make_it(rt: HostRuntime) {
    is_read(&rt, &RANGED, 1, 2, ImageState::Valid(2));
    is_read(&rt, &RANGED, 3, 2, ImageState::Valid(2));
    is_read(&rt, &RANGED, 4, 2, ImageState::Incompatible);
    is_read(&rt, &RANGED[..52], 1, 2, ImageState::Corrupt);
    assert!(rt; ImageView::read(&RANGED, 1, 1) == ImageState::Corrupt);
}

#[test]
fn an_image_tells_its_hardware_and_its_firmware(rt: HostRuntime) {
    assert!(rt; is_image(&IMAGE) && is_image(&RANGED));
    assert!(rt; is_for(&IMAGE, 1) && !is_for(&IMAGE, 2) && firmware(&IMAGE) == 2);
    assert!(rt; lowest(&RANGED) == 1 && highest(&RANGED) == 3);
}

fn reserved(rt: &impl Abort, alloc: Global, area: u32, hw: u32, formats: u8) -> Slots
    ensures { result.area ≡ area }
{
    match Slots::reserve(alloc, area, hw, formats) {
        Ok(slots) => slots,
        Err(_) => panic!(rt; "no memory"),
    }
}

fn has_next(rt: &impl Abort, slots: &Slots, state: ImageState) {
    assert!(rt; slots.next() == state);
}

/// Firmware 2 of this file runs.
fn runs(rt: &impl Abort, slots: &Slots, file: &[u8]) {
    assert!(rt; slots.running().0 == 2 && slots.running().1 == file);
}

fn deletes(rt: &impl Abort, slots: &mut Slots, firmware: u32, errors: u8)
    ensures { slots.new.area ≡ slots.old.area }
{
    assert!(rt; slots.delete(firmware) == errors);
}

#[test]
fn a_file_runs_once_it_is_swapped_in(rt: HostRuntime) {
    let mut slots = reserved(&rt, rt.alloc(), 52, 1, 2);
    slots.swap();
    has_next(&rt, &slots, ImageState::None);
    deletes(&rt, &mut slots, 2, 1);
    slots.offer(&IMAGE);
    has_next(&rt, &slots, ImageState::Valid(2));
    deletes(&rt, &mut slots, 3, 2);
    slots.swap();
    runs(&rt, &slots, &IMAGE);
    has_next(&rt, &slots, ImageState::None);
    slots.offer(&IMAGE);
    deletes(&rt, &mut slots, 2, 0);
    has_next(&rt, &slots, ImageState::None);
    slots.offer(&IMAGE[..48]);
    slots.swap();
    has_next(&rt, &slots, ImageState::Corrupt);
    drop(slots);
}

#[test]
fn a_file_of_format_2_is_read_again_once_both_are_known(rt: HostRuntime) {
    let mut slots = reserved(&rt, rt.alloc(), 56, 3, 1);
    slots.offer(&RANGED);
    has_next(&rt, &slots, ImageState::Corrupt);
    slots.raise();
    has_next(&rt, &slots, ImageState::Valid(2));
    slots.raise();
    has_next(&rt, &slots, ImageState::Valid(2));
    slots.swap();
    runs(&rt, &slots, &RANGED);
    slots.raise();
    has_next(&rt, &slots, ImageState::None);
    runs(&rt, &slots, &RANGED);
    drop(slots);
}
