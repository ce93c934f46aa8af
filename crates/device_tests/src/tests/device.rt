//! What a device answers, payload by payload.

use crate::tests::common::{CONFIG, IMAGE, no_flash};
use device_core::*;
use flash_session::CellFlash;
use image_slots::ImageState;
use mc_frames::FrameFault;
use mc_keys::RootKind;
use package_grammar::{Downlink, To};
use std::alloc::Global;
use std::process::Abort;
use std::test::*;
use wire_base::{Payload, Refusal, Why};

/// A payload by unicast on a port that is acted on, and the payload of its uplink; none where that is empty.
type Exchange = (u8, &'static [u8], &'static [u8]);

/// PackageVersionReq is answered on the port that it came on.
static PACKAGES: [Exchange; 4] = [
    (200, &[0x00], &[0x00, 2, 1]),
    (201, &[0x00], &[0x00, 3, 1]),
    (202, &[0x00], &[0x00, 1, 1]),
    (203, &[0x00], &[0x00, 4, 1]),
];

/// Sessions are set up, hear, answer their status and end, each by its own index.
static FRAGMENTS: [Exchange; 20] = [
    (201, &[0x01, 0x01], &[]),
    (201, &[0x03, 0x00], &[0x03, 0x04]),
    (
        201,
        &[0x02, 0x00, 4, 0, 1, 0x00, 0, 0, 0, 0, 0],
        &[0x02, 0x00],
    ),
    (
        201,
        &[0x02, 0x30, 4, 0, 1, 0x00, 0, 0, 0, 0, 0],
        &[0x02, 0xc0],
    ),
    (201, &[0x08, 0x01, 0xc0, 0x11], &[]),
    (201, &[0x01, 0x07], &[0x01, 0x01, 0xc0, 3, 0]),
    (201, &[0x01, 0x06], &[0x01, 0x01, 0xc0, 3, 0]),
    (201, &[0x01, 0x01], &[0x01, 0x00, 0x00, 4, 0]),
    (201, &[0x01, 0x03], &[]),
    (201, &[0x03, 0x03], &[0x03, 0x03]),
    (201, &[0x03, 0x03], &[0x03, 0x07]),
    (201, &[0x01, 0x07], &[]),
    (
        201,
        &[0x02, 0x00, 0, 0, 1, 0x00, 0, 0, 0, 0, 0],
        &[0x02, 0x01],
    ),
    (
        201,
        &[0x02, 0x00, 4, 0, 1, 0x00, 1, 0, 0, 0, 0],
        &[0x02, 0x01],
    ),
    (
        201,
        &[0x02, 0x00, 1, 0x10, 1, 0x00, 0, 0, 0, 0, 0],
        &[0x02, 0x02],
    ),
    (
        201,
        &[0x02, 0x30, 4, 0, 1, 0x08, 0, 0, 0, 0, 0],
        &[0x02, 0xc1],
    ),
    (201, &[0x08, 0x00, 0x00, 0x11], &[]),
    (
        201,
        &[0x02, 0x00, 1, 4, 1, 0x00, 0, 0, 0, 0, 0],
        &[0x02, 0x00],
    ),
    (
        201,
        &[0x02, 0x00, 0, 0x10, 64, 0x00, 0, 0, 0, 0, 0],
        &[0x02, 0x00],
    ),
    (
        201,
        &[0x02, 0x00, 1, 0x10, 64, 0x00, 0, 0, 0, 0, 0],
        &[0x02, 0x02],
    ),
];

/// Groups 0 and 2 are set up, listed and ended; then a session of class C on none, and one on group 2.
static GROUPS: [Exchange; 7] = [
    (
        200,
        &[
            0x02, 0, 0x44, 0x33, 0x22, 0x11, 0, 0, 0, 0, 0, 0, 0, 0, 0, 0, 0, 0, 0, 0, 0, 0, 0, 0,
            0, 0, 10, 0, 0, 0,
        ],
        &[0x02, 0x00],
    ),
    (
        200,
        &[
            0x02, 2, 0x88, 0x77, 0x66, 0x55, 0, 0, 0, 0, 0, 0, 0, 0, 0, 0, 0, 0, 0, 0, 0, 0, 0, 0,
            0, 0, 10, 0, 0, 0,
        ],
        &[0x02, 0x02],
    ),
    (
        200,
        &[0x01, 0x0f],
        &[
            0x01, 0x25, 0x00, 0x44, 0x33, 0x22, 0x11, 0x02, 0x88, 0x77, 0x66, 0x55,
        ],
    ),
    (200, &[0x03, 0x01], &[0x03, 0x05]),
    (200, &[0x03, 0x00], &[0x03, 0x00]),
    (
        200,
        &[0x04, 0x00, 0xf2, 0x03, 0, 0, 0, 0, 0, 0, 6],
        &[0x04, 0x1c],
    ),
    (
        200,
        &[0x04, 0x02, 0xf2, 0x03, 0, 0, 0, 0x28, 0x76, 0x84, 0],
        &[0x04, 0x02, 0x0a, 0, 0],
    ),
];

/// A session for the image in one fragment.
static SETUP: [Exchange; 2] = [
    (201, &[0x01, 0x01], &[]),
    (
        201,
        &[0x02, 0x00, 1, 0, 52, 0x00, 0, 0, 0, 0, 0],
        &[0x02, 0x00],
    ),
];

/// A received image is shown, deleted only by its version, and runs after a reboot; all ones cancel one.
static FIRMWARE: [Exchange; 8] = [
    (203, &[0x04], &[0x04, 0x03, 2, 0, 0, 0]),
    (203, &[0x05, 3, 0, 0, 0], &[0x05, 0x02]),
    (
        203,
        &[0x02, 0xff, 0xff, 0xff, 0xff],
        &[0x02, 0xff, 0xff, 0xff, 0xff],
    ),
    (203, &[0x01], &[0x01, 0, 0, 0, 0, 1, 0, 0, 0]),
    (203, &[0x03, 0, 0, 0], &[0x03, 0, 0, 0]),
    (203, &[0x01], &[0x01, 2, 0, 0, 0, 1, 0, 0, 0]),
    (203, &[0x04], &[0x04, 0x00]),
    (203, &[0x05, 2, 0, 0, 0], &[0x05, 0x01]),
];

/// A campaign of four fragments, of which two are lost and two coded ones heard: what the server
/// sends, and what is answered.
static CAMPAIGN: [Exchange; 10] = [
    (
        203,
        &[0x01],
        &[0x01, 0x00, 0x00, 0x00, 0x00, 0x01, 0x00, 0x00, 0x00],
    ),
    (
        201,
        &[
            0x02, 0x00, 0x04, 0x00, 0x0d, 0x00, 0x00, 0x02, 0x00, 0x00, 0x00,
        ],
        &[0x02, 0x00],
    ),
    (
        201,
        &[
            0x08, 0x01, 0x00, 0x46, 0x55, 0x49, 0x4d, 0x01, 0x01, 0x00, 0x00, 0x00, 0x02, 0x00,
            0x00, 0x00,
        ],
        &[],
    ),
    (
        201,
        &[
            0x08, 0x03, 0x00, 0x41, 0x40, 0xde, 0x5d, 0xae, 0x22, 0x23, 0xb0, 0x03, 0x61, 0xa3,
            0x96, 0x17,
        ],
        &[],
    ),
    (
        201,
        &[
            0x08, 0x07, 0x00, 0x79, 0x9c, 0xb4, 0x10, 0x45, 0x19, 0xe4, 0xbf, 0x9a, 0xac, 0xae,
            0x88, 0x22,
        ],
        &[],
    ),
    (
        201,
        &[
            0x08, 0x08, 0x00, 0x42, 0x40, 0xde, 0x5d, 0x14, 0x5a, 0x35, 0x0f, 0x8c, 0x60, 0x6c,
            0x7c, 0x56,
        ],
        &[],
    ),
    (201, &[0x01, 0x01], &[0x01, 0x04, 0x00, 0x00, 0x00]),
    (203, &[0x04], &[0x04, 0x03, 0x02, 0x00, 0x00, 0x00]),
    (203, &[0x03, 0x00, 0x00, 0x00], &[0x03, 0x00, 0x00, 0x00]),
    (
        203,
        &[0x01],
        &[0x01, 0x02, 0x00, 0x00, 0x00, 0x01, 0x00, 0x00, 0x00],
    ),
];

/// Sessions of class C on group 0: one is refused, and one replaces the other.
static WINDOWS: [Exchange; 5] = [
    (
        200,
        &[0x04, 0x00, 0xf2, 0x03, 0, 0, 0, 0, 0, 0, 6],
        &[0x04, 0x1c],
    ),
    (
        200,
        &[
            0x02, 0, 0x44, 0x33, 0x22, 0x11, 0, 0, 0, 0, 0, 0, 0, 0, 0, 0, 0, 0, 0, 0, 0, 0, 0, 0,
            0, 0, 10, 0, 0, 0,
        ],
        &[0x02, 0x00],
    ),
    (
        200,
        &[0x04, 0x00, 0xf2, 0x03, 0, 0, 0, 0x28, 0x76, 0x84, 0],
        &[0x04, 0x00, 0x0a, 0, 0],
    ),
    (
        200,
        &[0x04, 0x00, 0xe8, 0x03, 0, 0, 0, 0xd2, 0xad, 0x84, 0],
        &[0x04, 0x00, 0, 0, 0],
    ),
    (
        201,
        &[0x02, 0x01, 1, 0, 52, 0x00, 0, 2, 0, 0, 0],
        &[0x02, 0x00],
    ),
];

/// The image as one fragment, in the frame 3 of the group of `WINDOWS`; made with the AES and CMAC of Python's
/// `cryptography`, as are the frames below. Its group's key is unwrapped by a device of LoRaWAN 1.0.
const FRAME: [u8; 68] = [
    0x60, 0x44, 0x33, 0x22, 0x11, 0x00, 0x03, 0x00, 0xc9, 0x4d, 0x1e, 0x2d, 0xfe, 0x68, 0x03, 0xf3,
    0xc7, 0xf8, 0xad, 0x18, 0xd2, 0x4d, 0xf4, 0x47, 0x75, 0xf9, 0xb5, 0x54, 0x10, 0x9f, 0x6c, 0xf2,
    0x8a, 0x89, 0x32, 0x5a, 0x90, 0x37, 0xe0, 0xe8, 0x58, 0xe6, 0x46, 0xa7, 0xda, 0xb5, 0x63, 0x04,
    0x6f, 0x6c, 0xde, 0x05, 0x4f, 0x4b, 0x2c, 0xe7, 0xea, 0x3e, 0x9b, 0x27, 0xa6, 0x12, 0x7f, 0xbd,
    0x41, 0xb8, 0x58, 0xdc,
];

/// The same where a device of LoRaWAN 1.1 unwraps the key.
const FRAME_1_1: [u8; 68] = [
    0x60, 0x44, 0x33, 0x22, 0x11, 0x00, 0x03, 0x00, 0xc9, 0x62, 0x60, 0x11, 0xb7, 0x24, 0x77, 0x94,
    0xbd, 0x17, 0x02, 0x89, 0xd8, 0x67, 0xe2, 0x6b, 0x7b, 0x26, 0xb7, 0x6c, 0x74, 0x33, 0x6b, 0x2f,
    0x99, 0xc0, 0x08, 0xb7, 0xc3, 0x78, 0x24, 0x4c, 0x03, 0x91, 0xd6, 0xd3, 0xb2, 0xa0, 0xac, 0x83,
    0xbd, 0xca, 0x4d, 0x05, 0x67, 0x67, 0x1b, 0xe2, 0x69, 0x47, 0x94, 0xf7, 0x4c, 0xea, 0xf7, 0x74,
    0xd2, 0xd9, 0xf2, 0xf1,
];

/// Bytes that the radio hears where no group is heard, and the answer: none is a frame for the device.
static STRANGE: [(&[u8], FrameFault); 4] = [
    (&[0x60; 12], FrameFault::Short),
    (&[0x60; 256], FrameFault::Long),
    (&[0x60; 255], FrameFault::Header),
    (&FRAME, FrameFault::Address),
];

/// Bytes that the radio hears at a moment in ms, with the session of `WINDOWS`, and the answer.
static AIRED: [(u64, &[u8], Aired); 11] = [
    (1_000_000, &FRAME_1_1, Aired::Foreign(FrameFault::Mic)),
    (1_000_000, &[0; 12], Aired::Foreign(FrameFault::Short)),
    (
        1_000_000,
        &[0x60, 0x44, 0x33, 0x22, 0x11, 0x20, 0, 0, 201, 0, 0, 0, 0],
        Aired::Foreign(FrameFault::Header),
    ),
    (
        1_000_000,
        &[0x60, 0x44, 0x33, 0x22, 0x10, 0, 0, 0, 201, 0, 0, 0, 0],
        Aired::Foreign(FrameFault::Address),
    ),
    (
        1_000_000,
        &[0x60, 0x44, 0x33, 0x22, 0x11, 0, 0, 0, 0, 0, 0, 0, 0],
        Aired::Foreign(FrameFault::Port),
    ),
    // of count 10, which is the group's MAX
    (
        1_000_000,
        &[
            0x60, 0x44, 0x33, 0x22, 0x11, 0x00, 0x0a, 0x00, 0xc9, 0xd2, 0x52, 0xe0, 0x18, 0xdd,
        ],
        Aired::Foreign(FrameFault::Count),
    ),
    (999_999, &FRAME, Aired::Heard(Delivered::Deaf)),
    (
        1_000_000,
        &[
            0x60, 0x44, 0x33, 0x22, 0x11, 0x00, 0x04, 0x00, 0x07, 0xab, 0x34, 0x05, 0x42, 0xe7,
        ],
        Aired::Heard(Delivered::Refused(Refusal {
            at: 0,
            why: Why::Port,
        })),
    ),
    // with FPending: McGroupDeleteReq, which does not act by multicast
    (
        1_000_000,
        &[
            0x60, 0x44, 0x33, 0x22, 0x11, 0x10, 0x09, 0x00, 0xc8, 0x7e, 0x1b, 0x34, 0x99, 0x7e,
            0xa9,
        ],
        Aired::Heard(Delivered::Done),
    ),
    (1_000_999, &FRAME, Aired::Heard(Delivered::Done)),
    (1_001_000, &FRAME, Aired::Heard(Delivered::Deaf)),
];

/// An image is deleted only by its version, and once; all ones cancel a reboot.
static DELETIONS: [Exchange; 5] = [
    (203, &[0x05, 3, 0, 0, 0], &[0x05, 0x02]),
    (203, &[0x05, 2, 0, 0, 0], &[0x05, 0x00]),
    (203, &[0x05, 2, 0, 0, 0], &[0x05, 0x01]),
    (
        203,
        &[0x02, 0xff, 0xff, 0xff, 0xff],
        &[0x02, 0xff, 0xff, 0xff, 0xff],
    ),
    (203, &[0x01], &[0x01, 0, 0, 0, 0, 1, 0, 0, 0]),
];

/// Commands in one payload at 1,000 ms, to a device whose clock is 5 s ahead; then a moment, and the
/// version that runs there.
static REBOOTS: [(&[u8], u64, u32); 14] = [
    (&[0x03, 0, 0, 0], 1000, 2),
    (&[0x03, 10, 0, 0], 10_999, 0),
    (&[0x03, 10, 0, 0], 11_000, 2),
    (&[0x03, 0xff, 0xff, 0xff], 20_000_000_000, 0),
    (&[0x02, 0, 0, 0, 0], 1000, 2),
    (&[0x02, 16, 0, 0, 0], 10_999, 0),
    (&[0x02, 16, 0, 0, 0], 11_000, 2),
    (&[0x02, 0xff, 0xff, 0xff, 0xff], 20_000_000_000, 0),
    (&[0x02, 0x06, 0, 0, 0x80], 1000, 0),
    (&[0x02, 0x07, 0, 0, 0x80], 1000, 2),
    (&[0x03, 10, 0, 0, 0x03, 0xff, 0xff, 0xff], 11_000, 0),
    (&[0x03, 10, 0, 0, 0x03, 20, 0, 0], 20_999, 0),
    (&[0x03, 10, 0, 0, 0x03, 20, 0, 0], 21_000, 2),
    (&[0x03, 20, 0, 0, 0x02, 16, 0, 0, 0], 11_000, 2),
];

/// A reboot at once.
static COUNTDOWN: [Exchange; 1] = [(203, &[0x03, 0, 0, 0], &[0x03, 0, 0, 0])];

/// Payloads at a fresh device: the port, the payload, and the uplinks that it may make.
static WEIGHTS: [(u8, &[u8], u16); 6] = [
    (202, &[0x03, 0x07], 7),
    (202, &[0x03, 0x07, 0x03, 0x07], 14),
    (202, &[0x03, 0x00], 0),
    (202, &[0x01, 5, 0, 0, 0, 0xf3], 0),
    (201, &[0, 0, 0, 0, 0, 0, 0, 0], 8),
    (201, &[0, 0, 0, 0, 0, 0, 0, 0, 0], 9),
];

fn reserved(rt: &impl Abort, alloc: Global, config: DeviceConfig) -> Device<CellFlash> {
    match Device::reserve(alloc, config, no_flash(rt, alloc)) {
        Ok(device) => device,
        Err(_) => panic!(rt; "no device"),
    }
}

/// The answer to a payload at a moment.
fn delivered(
    rt: &impl Abort,
    device: &mut Device<CellFlash>,
    t: u64,
    to: To,
    port: u8,
    bytes: &[u8],
) -> Delivered {
    assert!(rt; bytes.len() <= 242 && t <= 4_294_967_295_999);
    let down = Downlink {
        to,
        port,
        payload: Payload::from_slice(bytes),
    };
    device.deliver(t, &down, 20, 1)
}

/// Whether a payload acts that comes by unicast.
fn acts(rt: &impl Abort, device: &mut Device<CellFlash>, t: u64, port: u8, bytes: &[u8]) -> bool {
    delivered(rt, device, t, To::Unicast, port, bytes) == Delivered::Done
}

/// The answer to bytes that the radio hears.
fn aired(rt: &impl Abort, device: &mut Device<CellFlash>, t: u64, bytes: &[u8]) -> Aired {
    assert!(rt; t <= 4_294_967_295_999);
    device.radio(t, bytes, 0, 1)
}

fn wakes(rt: &impl Abort, device: &mut Device<CellFlash>, t: u64) -> bool {
    assert!(rt; t <= 4_294_967_295_999);
    device.wake(t).is_ok()
}

/// Whether the uplink that was made has this due moment, port and bytes; none is made where there are no bytes.
fn makes(device: &mut Device<CellFlash>, due: u64, port: u8, bytes: &[u8]) -> bool {
    match device.take_uplink() {
        Some(uplink) => {
            uplink.due == due && uplink.port == port && uplink.payload.as_slice() == bytes
        }
        None => bytes.is_empty(),
    }
}

fn makes_none(device: &mut Device<CellFlash>) -> bool {
    device.take_uplink().is_none()
}

/// The version that runs.
fn runs(device: &Device<CellFlash>) -> u32 {
    device.slots().running().0
}

fn runs_the_image(device: &Device<CellFlash>) -> bool {
    device.slots().running().1 == &IMAGE[..]
}

fn is_to_run(device: &Device<CellFlash>) -> bool {
    device.slots().next() == ImageState::Valid(2)
}

fn deaf(device: &Device<CellFlash>) -> u64 {
    device.counts().deaf
}

/// How many uplinks are held, at most 8; none is afterwards.
fn uplinks(device: &mut Device<CellFlash>) -> u16 {
    let mut number = 0;
    for taken in 0..9 {
        if device.take_uplink().is_some() {
            number = taken + 1;
        }
    }
    number
}

/// Payloads that come at one moment.
fn exchanges(rt: &impl Abort, device: &mut Device<CellFlash>, t: u64, all: &[Exchange]) {
    for (port, payload, answer) in all {
        assert!(rt; acts(rt, device, t, *port, payload));
        assert!(rt; makes(device, t, *port, answer));
        assert!(rt; makes_none(device));
    }
}

#[test]
fn commands_are_answered(rt: HostRuntime) {
    let mut device = reserved(&rt, rt.alloc(), CONFIG);
    exchanges(&rt, &mut device, 0, &PACKAGES);
    exchanges(&rt, &mut device, 0, &FRAGMENTS);
    exchanges(&rt, &mut device, 1_000_000, &GROUPS);
    assert!(rt; device.counts().dropped == 1);
    drop(device);
}

#[test]
fn a_group_beyond_the_last_is_refused(rt: HostRuntime) {
    let two = DeviceConfig {
        groups: 2,
        ..CONFIG
    };
    let mut device = reserved(&rt, rt.alloc(), two);
    let mut setup = [0; 30];
    setup[0] = 0x02;
    setup[1] = 0x03;
    assert!(rt; acts(&rt, &mut device, 0, 200, &setup));
    assert!(rt; makes(&mut device, 0, 200, &[0x02, 0x07]));
    drop(device);
}

/// A device that received the image at 0 ms.
fn with_image(rt: &impl Abort, alloc: Global, config: DeviceConfig) -> Device<CellFlash> {
    let mut device = reserved(rt, alloc, config);
    receive_image(rt, &mut device);
    device
}

/// The image comes in one fragment, at 0 ms.
fn receive_image(rt: &impl Abort, device: &mut Device<CellFlash>) {
    exchanges(rt, device, 0, &SETUP);
    assert!(rt; acts(rt, device, 0, 201, &fragment()));
}

/// The image as one fragment of session 0.
fn fragment() -> [u8; 55] {
    let mut payload = [0; 55];
    payload[0] = 0x08;
    payload[1] = 0x01;
    payload[3..].copy_from_slice(&IMAGE);
    payload
}

/// Whether session 0 has the image.
fn shows_the_image(device: &Device<CellFlash>) -> bool {
    match device.session(0) {
        Some(view) => view.file == &IMAGE[..],
        None => false,
    }
}

#[test]
fn a_received_image_runs_after_a_reboot(rt: HostRuntime) {
    let mut device = with_image(&rt, rt.alloc(), CONFIG);
    assert!(rt; shows_the_image(&device));
    exchanges(&rt, &mut device, 0, &FIRMWARE);
    assert!(rt; runs_the_image(&device));
    let mut other = with_image(&rt, rt.alloc(), CONFIG);
    exchanges(&rt, &mut other, 0, &DELETIONS);
    drop(device);
    drop(other);
}

#[test]
fn a_campaign_is_answered_in_bytes(rt: HostRuntime) {
    let mut device = reserved(&rt, rt.alloc(), DeviceConfig { rows: 4, ..CONFIG });
    exchanges(&rt, &mut device, 1000, &CAMPAIGN);
    assert!(rt; runs_the_image(&device));
    drop(device);
}

/// A device whose clock is 5 s ahead.
const AHEAD: DeviceConfig = DeviceConfig {
    offset: 5,
    ..CONFIG
};

/// What runs at a moment after commands at 1,000 ms.
fn runs_at(rt: &impl Abort, alloc: Global, payload: &[u8], t: u64) -> u32 {
    let mut device = with_image(rt, alloc, AHEAD);
    assert!(rt; acts(rt, &mut device, 1000, 203, payload));
    assert!(rt; acts(rt, &mut device, t, 203, &[]));
    let version = runs(&device);
    drop(device);
    version
}

#[test]
fn a_reboot_comes_at_its_moment(rt: HostRuntime) {
    for (payload, t, version) in &REBOOTS {
        assert!(rt; runs_at(&rt, rt.alloc(), payload, *t) == *version);
    }
}

#[test]
fn without_an_image_the_moment_is_cleared_all_the_same(rt: HostRuntime) {
    let mut device = reserved(&rt, rt.alloc(), CONFIG);
    exchanges(&rt, &mut device, 0, &COUNTDOWN);
    receive_image(&rt, &mut device);
    assert!(rt; wakes(&rt, &mut device, 1000) && runs(&device) == 0);
    drop(device);
}

/// The clock is right after the answer, whether it was before or not.
fn takes_the_correction(rt: &impl Abort, device: &mut Device<CellFlash>) {
    let answer = [0x01, 0xfb, 0xff, 0xff, 0xff, 0x00];
    assert!(rt; acts(rt, device, 10_000, 202, &answer));
    assert!(rt; device.clock() == (0, 1));
}

#[test]
fn a_clock_is_mended_once(rt: HostRuntime) {
    let mut device = reserved(&rt, rt.alloc(), AHEAD);
    assert!(rt; wakes(&rt, &mut device, 10_000));
    assert!(rt; makes(&mut device, 10_000, 202, &[0x01, 15, 0, 0, 0, 0x10]));
    takes_the_correction(&rt, &mut device);
    takes_the_correction(&rt, &mut device);
    drop(device);
}

/// A payload acts where it may make at most 8 uplinks.
fn weighs(rt: &impl Abort, alloc: Global, port: u8, payload: &[u8], weight: u16) {
    let mut device = reserved(rt, alloc, CONFIG);
    let answer = delivered(rt, &mut device, 0, To::Unicast, port, payload);
    if weight <= 8 {
        assert!(rt; answer == Delivered::Done && uplinks(&mut device) == weight);
    } else {
        assert!(rt; answer == Delivered::OutboxFull(weight));
        assert!(rt; uplinks(&mut device) == 0 && device.counts().full == 1);
    }
    drop(device);
}

#[test]
fn nothing_acts_where_too_many_uplinks_could_come(rt: HostRuntime) {
    for (port, payload, weight) in &WEIGHTS {
        weighs(&rt, rt.alloc(), *port, payload, *weight);
    }
}

#[test]
fn a_full_outbox_takes_what_makes_no_uplink(rt: HostRuntime) {
    let mut device = reserved(&rt, rt.alloc(), CONFIG);
    for _ in 0..8 {
        assert!(rt; wakes(&rt, &mut device, 0));
    }
    assert!(rt; !wakes(&rt, &mut device, 0));
    assert!(rt; acts(&rt, &mut device, 0, 202, &[0x01, 5, 0, 0, 0, 0xf3]));
    let full = Delivered::OutboxFull(9);
    assert!(rt; delivered(&rt, &mut device, 0, To::Unicast, 203, &[0x01]) == full);
    assert!(rt; makes(&mut device, 0, 202, &[0x01, 0, 0, 0, 0, 0x10]));
    assert!(rt; acts(&rt, &mut device, 0, 203, &[0x01]));
    drop(device);
}

/// An empty payload is heard at a moment, or the device is deaf.
fn hears(rt: &impl Abort, device: &mut Device<CellFlash>, t: u64) -> bool {
    match delivered(rt, device, t, To::Unicast, 201, &[]) {
        Delivered::Done => true,
        Delivered::Deaf => false,
        _ => panic!(rt; "it is neither"),
    }
}

/// Moments in ms, and whether a device of class A hears then; its uplink was due at 5,000 ms.
static HEARD_BY_A: [(u64, bool); 5] = [
    (5999, false),
    (6000, true),
    (6099, true),
    (6100, false),
    (7000, true),
];

#[test]
fn class_a_hears_behind_its_uplink(rt: HostRuntime) {
    let class_a = DeviceConfig {
        class: Class::A,
        ..CONFIG
    };
    let mut device = reserved(&rt, rt.alloc(), class_a);
    assert!(rt; !hears(&rt, &mut device, 6000));
    assert!(rt; wakes(&rt, &mut device, 5000));
    for (t, heard) in &HEARD_BY_A {
        assert!(rt; hears(&rt, &mut device, *t) == *heard);
    }
    assert!(rt; deaf(&device) == 3);
    drop(device);
}

/// A session of a piece of a byte, which only group 2 feeds.
static OF_GROUP_2: [Exchange; 1] = [(
    201,
    &[0x02, 0x04, 1, 0, 1, 0x00, 0, 0, 0, 0, 0],
    &[0x02, 0x00],
)];

/// Whether a status request to a group is answered, 4 s after its moment; else the device is deaf.
fn group_is_heard(
    rt: &impl Abort,
    device: &mut Device<CellFlash>,
    t: u64,
    addr: u32,
    count: u32,
) -> bool {
    let to = To::Group { addr, count };
    match delivered(rt, device, t, to, 201, &[0x01, 0x01, 0x00]) {
        Delivered::Done => {
            assert!(rt; makes(device, t.wrapping_add(4000), 201, &[0x01, 0, 0, 1, 0]));
            assert!(rt; makes_none(device));
            true
        }
        Delivered::Deaf => false,
        _ => panic!(rt; "it is neither"),
    }
}

/// Moments, addresses and counts, and whether a frame is heard that has them.
static HEARD_BY_GROUP: [(u64, u32, u32, bool); 6] = [
    (1_009_999, 0x55667788, 0, false),
    (1_010_000, 0x55667788, 0, true),
    (1_010_999, 0x55667788, 9, true),
    (1_010_999, 0x55667788, 10, false),
    (1_010_999, 0x11223344, 0, false),
    (1_011_000, 0x55667788, 0, false),
];

#[test]
fn a_group_is_heard_while_its_session_runs(rt: HostRuntime) {
    let mut device = reserved(&rt, rt.alloc(), CONFIG);
    exchanges(&rt, &mut device, 1_000_000, &GROUPS);
    exchanges(&rt, &mut device, 1_000_000, &OF_GROUP_2);
    for (t, addr, count, heard) in &HEARD_BY_GROUP {
        assert!(rt; group_is_heard(&rt, &mut device, *t, *addr, *count) == *heard);
    }
    drop(device);
}

/// This is the answer to a payload to the group of `WINDOWS`, which makes no uplink.
fn becomes(
    rt: &impl Abort,
    device: &mut Device<CellFlash>,
    t: u64,
    port: u8,
    payload: &[u8],
    answer: Delivered,
) {
    let to = To::Group {
        addr: 0x11223344,
        count: 0,
    };
    assert!(rt; delivered(rt, device, t, to, port, payload) == answer);
    assert!(rt; makes_none(device));
}

/// The end of group 0.
static END_OF_GROUP: [Exchange; 1] = [(200, &[0x03, 0x00], &[0x03, 0x00])];

#[test]
fn a_file_comes_by_the_group_in_its_window(rt: HostRuntime) {
    let mut device = reserved(&rt, rt.alloc(), CONFIG);
    exchanges(&rt, &mut device, 1_000_000, &WINDOWS);
    let whole = fragment();
    // only fragments and status requests act, but a skipped command has its weight too
    becomes(&rt, &mut device, 999_999, 201, &whole, Delivered::Deaf);
    becomes(
        &rt,
        &mut device,
        1_000_000,
        200,
        &[0x03, 0x00],
        Delivered::Done,
    );
    becomes(
        &rt,
        &mut device,
        1_000_000,
        203,
        &[1; 9],
        Delivered::OutboxFull(9),
    );
    becomes(&rt, &mut device, 1_000_999, 201, &whole, Delivered::Done);
    becomes(
        &rt,
        &mut device,
        1_000_999,
        200,
        &[0x03, 0x00],
        Delivered::Done,
    );
    becomes(&rt, &mut device, 1_001_000, 201, &whole, Delivered::Deaf);
    assert!(rt; is_to_run(&device) && deaf(&device) == 2);
    // by unicast the group is deleted, and its session ends
    exchanges(&rt, &mut device, 1_000_999, &END_OF_GROUP);
    becomes(&rt, &mut device, 1_000_999, 201, &[], Delivered::Deaf);
    drop(device);
}

/// What the radio hears where no group is heard is foreign, and counted as not heard.
#[test]
fn strange_frames_are_foreign(rt: HostRuntime) {
    let mut device = reserved(&rt, rt.alloc(), CONFIG);
    for (bytes, fault) in &STRANGE {
        assert!(rt; aired(&rt, &mut device, 1_000_000, bytes) == Aired::Foreign(*fault));
    }
    assert!(rt; deaf(&device) == 4);
    drop(device);
}

/// What the radio hears is a frame of the class session's group, or foreign; what is foreign is counted as not heard, and an
/// image comes by a frame in the window.
#[test]
fn frames_of_the_group_are_heard(rt: HostRuntime) {
    let mut device = reserved(&rt, rt.alloc(), CONFIG);
    exchanges(&rt, &mut device, 1_000_000, &WINDOWS);
    for (t, bytes, answer) in &AIRED {
        assert!(rt; aired(&rt, &mut device, *t, bytes) == *answer);
        assert!(rt; makes_none(&mut device));
    }
    assert!(rt; deaf(&device) == 8 && device.counts().refused == 1);
    assert!(rt; is_to_run(&device));
    drop(device);
}

/// A device of LoRaWAN 1.1 unwraps the group's key under another root key.
#[test]
fn the_root_key_decides_which_frames_are_heard(rt: HostRuntime) {
    let config = DeviceConfig {
        root: RootKind::V11,
        ..CONFIG
    };
    let mut device = reserved(&rt, rt.alloc(), config);
    exchanges(&rt, &mut device, 1_000_000, &WINDOWS);
    assert!(rt; aired(&rt, &mut device, 1_000_000, &FRAME) == Aired::Foreign(FrameFault::Mic));
    let heard = Aired::Heard(Delivered::Done);
    assert!(rt; aired(&rt, &mut device, 1_000_000, &FRAME_1_1) == heard);
    assert!(rt; is_to_run(&device));
    drop(device);
}

/// Whether a device can have so many formats, rows, sessions, groups and bytes for its files.
fn is_made(
    rt: &impl Abort,
    alloc: Global,
    formats: u8,
    rows: u16,
    sessions: u8,
    groups: u8,
    area: u32,
) -> bool {
    let config = DeviceConfig {
        formats,
        rows,
        sessions,
        groups,
        area,
        ..CONFIG
    };
    match Device::reserve(alloc, config, no_flash(rt, alloc)) {
        Ok(device) => {
            drop(device);
            true
        }
        Err(why) => {
            assert!(rt; why == ReserveError::BadConfig);
            false
        }
    }
}

/// Formats, rows, sessions, groups and bytes; one of them is out of bounds.
static OUT_OF_BOUNDS: [(u8, u16, u8, u8, u32); 9] = [
    (0, 0, 4, 4, MAX_AREA),
    (3, 0, 4, 4, MAX_AREA),
    (2, 257, 4, 4, MAX_AREA),
    (2, 0, 0, 4, MAX_AREA),
    (2, 0, 5, 4, MAX_AREA),
    (2, 0, 4, 0, MAX_AREA),
    (2, 0, 4, 5, MAX_AREA),
    (2, 0, 4, 4, 0),
    (2, 0, 4, 4, MAX_AREA + 1),
];

#[test]
fn numbers_out_of_bounds_make_no_device(rt: HostRuntime) {
    for (formats, rows, sessions, groups, area) in &OUT_OF_BOUNDS {
        assert!(rt; !is_made(&rt, rt.alloc(), *formats, *rows, *sessions, *groups, *area));
    }
    assert!(rt; is_made(&rt, rt.alloc(), 2, 256, 4, 4, MAX_AREA));
}

/// Every command to a device with more than one byte, on its port; of a fragment as much as a cut leaves no fragment.
static COMMANDS: [(u8, &[u8]); 16] = [
    (200, &[0x01, 0x0f]),
    (
        200,
        &[
            0x02, 0x00, 0x44, 0x33, 0x22, 0x11, 0, 1, 2, 3, 4, 5, 6, 7, 8, 9, 10, 11, 12, 13, 14,
            15, 0, 0, 0, 0, 10, 0, 0, 0,
        ],
    ),
    (200, &[0x03, 0x00]),
    (
        200,
        &[
            0x04, 0x00, 0xe8, 0x03, 0x00, 0x00, 0x00, 0xd2, 0xad, 0x84, 0x00,
        ],
    ),
    (
        200,
        &[
            0x05, 0x00, 0xe8, 0x03, 0x00, 0x00, 0x00, 0xd2, 0xad, 0x84, 0x00,
        ],
    ),
    (201, &[0x01, 0x01]),
    (201, &[0x02, 0, 1, 0, 1, 0, 0, 0, 0, 0, 0]),
    (201, &[0x03, 0x00]),
    (201, &[0x08, 0x01, 0x00, 0x5a]),
    (202, &[0x01, 5, 0, 0, 0, 0x00]),
    (202, &[0x02, 0x01]),
    (202, &[0x03, 0x01]),
    (203, &[0x02, 0, 0, 0, 0]),
    (203, &[0x03, 0, 0, 0]),
    (203, &[0x05, 0, 0, 0, 0]),
    (203, &[0x05, 2, 0, 0, 0]),
];

/// The command is refused at each cut, alone and after a whole one; how many payloads that were.
fn is_cut(rt: &impl Abort, device: &mut Device<CellFlash>, port: u8, command: &[u8]) -> u64 {
    let mut bytes = [0; 40];
    assert!(rt; command.len() <= 39);
    bytes[1..command.len() + 1].copy_from_slice(command);
    let mut refused = 0u64;
    for length in 2..command.len() + 1 {
        is_short(rt, device, port, &bytes[1..length]);
        is_short(rt, device, port, &bytes[..length]);
        refused = refused.saturating_add(2);
    }
    refused
}

/// A command that is cut after any of its bytes is refused there, also after a whole command. The device counts it and stays as
/// it was: no uplink, no session, the same clock and slots.
#[test]
fn cut_commands_change_nothing(rt: HostRuntime) {
    let mut device = reserved(&rt, rt.alloc(), AHEAD);
    let mut refused = 0u64;
    for (port, command) in &COMMANDS {
        refused = refused.saturating_add(is_cut(&rt, &mut device, *port, command));
    }
    assert!(rt; device.counts().refused == refused);
    assert!(rt; device.clock() == (5, 0));
    drop(device);
}

/// A payload is refused at its end, and the device has no uplink, no session and no file.
fn is_short(rt: &impl Abort, device: &mut Device<CellFlash>, port: u8, bytes: &[u8]) {
    assert!(rt; bytes.len() <= 242);
    let refusal = Refusal {
        at: bytes.len() as u16,
        why: Why::Short,
    };
    assert!(rt; delivered(rt, device, 0, To::Unicast, port, bytes) == Delivered::Refused(refusal));
    assert!(rt; makes_none(device));
    for index in 0..4u8 {
        assert!(rt; device.session(index).is_none());
    }
    assert!(rt; device.slots().next() == ImageState::None);
}
