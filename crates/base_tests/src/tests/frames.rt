//! Codes and frames against RFC 4493 and another CMAC.

use mc_frames::{FrameFault, Keys, cmac, frame, open};
use std::process::Abort;
use std::test::*;
use wire_base::Payload;

const KEY: u128 = 0x2b7e151628aed2a6abf7158809cf4f3c;

/// The message of RFC 4493's examples; each takes its first bytes.
static MESSAGE: [u8; 64] = [
    0x6b, 0xc1, 0xbe, 0xe2, 0x2e, 0x40, 0x9f, 0x96, 0xe9, 0x3d, 0x7e, 0x11, 0x73, 0x93, 0x17, 0x2a,
    0xae, 0x2d, 0x8a, 0x57, 0x1e, 0x03, 0xac, 0x9c, 0x9e, 0xb7, 0x6f, 0xac, 0x45, 0xaf, 0x8e, 0x51,
    0x30, 0xc8, 0x1c, 0x46, 0xa3, 0x5c, 0xe4, 0x11, 0xe5, 0xfb, 0xc1, 0x19, 0x1a, 0x0a, 0x52, 0xef,
    0xf6, 0x9f, 0x24, 0x45, 0xdf, 0x4f, 0x9b, 0x17, 0xad, 0x2b, 0x41, 0x7b, 0xe6, 0x6c, 0x37, 0x10,
];

#[test]
fn codes_are_those_of_the_standard(rt: HostRuntime) {
    let key = KEY.to_be_bytes();
    assert!(rt; cmac(&key, &[]) == 0xbb1d6929e95937287fa37d129b756746u128.to_be_bytes());
    assert!(rt; cmac(&key, &MESSAGE[..16]) == 0x070a16b46b4d4144f79bdd9dd04a287cu128.to_be_bytes());
    assert!(rt; cmac(&key, &MESSAGE[..40]) == 0xdfa66747de9ae63030ca32611497c827u128.to_be_bytes());
    assert!(rt; cmac(&key, &MESSAGE) == 0x51f0bebf7e3b9d92fc49741779363cfeu128.to_be_bytes());
}

/// The codes of the first bytes of that message.
struct Vector {
    key: u128,
    len: usize,
    code: u128,
}

/// Computed with the CMAC of Python's `cryptography`, under keys whose two subkeys lose a bit or not.
static VECTORS: [Vector; 8] = [
    Vector {
        key: 0xd1a5ac9a015fac2ef7b341673635512a,
        len: 1,
        code: 0xa6d367e8eb9ddea40bbc7b9a68fe4bdd,
    },
    Vector {
        key: 0x2f5052c9fd15b19a18c584d013635681,
        len: 15,
        code: 0xb9fe72aef7e11a5fc292b8c771734ad2,
    },
    Vector {
        key: 0x88dbf612972c594a2c2f6dde493ef1c4,
        len: 17,
        code: 0x86b70df2dc05dfe69e60563c6c621e88,
    },
    Vector {
        key: 0x4ae43fd8358484a65b03cff3b3f0ebe5,
        len: 31,
        code: 0x98141cbf1610cb73fd7abbec3662f4ad,
    },
    Vector {
        key: 0xcb67903a62d3d4d64e5c0a3b477e5223,
        len: 32,
        code: 0xfab542b6c1fdf180eb0af5db6d9dc797,
    },
    Vector {
        key: 0xacf6bb284c6a9b3d06406f998c53dd08,
        len: 33,
        code: 0x2462c95e58dab517383c6040fefc6a95,
    },
    Vector {
        key: 0xc30630c8f93e7a5765f8412b2838f0cb,
        len: 48,
        code: 0x5e7d9d7bf13088eb9f3f9d351e6d5a64,
    },
    Vector {
        key: 0x2bdaa8a1972c0c431d0dc687adf16624,
        len: 63,
        code: 0xf6098e7e8d2029c54e6ce22d70addacf,
    },
];

#[test]
fn codes_are_those_of_another_cmac(rt: HostRuntime) {
    for vector in &VECTORS {
        let len = vector.len.min(MESSAGE.len());
        assert!(rt; cmac(&vector.key.to_be_bytes(), &MESSAGE[..len]) == vector.code.to_be_bytes());
    }
}

const KEYS: Keys = Keys {
    app_s: [0, 1, 2, 3, 4, 5, 6, 7, 8, 9, 10, 11, 12, 13, 14, 15],
    net_s: [
        16, 17, 18, 19, 20, 21, 22, 23, 24, 25, 26, 27, 28, 29, 30, 31,
    ],
};

const ADDR: u32 = 0x11223344;

/// Port 201, count 65,537 and the payload ab cd; computed, as the frames below, with the AES and the CMAC of Python's
/// `cryptography`.
const FRAME: [u8; 15] = [
    0x60, 0x44, 0x33, 0x22, 0x11, 0x00, 0x01, 0x00, 0xc9, 0x06, 0x5a, 0xa8, 0xb9, 0x4b, 0xec,
];

/// The same with FCtrl 10.
static PENDING_FRAME: [u8; 15] = [
    0x60, 0x44, 0x33, 0x22, 0x11, 0x10, 0x01, 0x00, 0xc9, 0x06, 0x5a, 0xf8, 0xaf, 0xbc, 0x81,
];

/// Port 200, count 01020304 and the payload 00 01 .. 22.
static LONG_FRAME: [u8; 48] = [
    0x60, 0x44, 0x33, 0x22, 0x11, 0x00, 0x04, 0x03, 0xc8, 0x4f, 0xa6, 0x4a, 0xcb, 0x74, 0x52, 0x8e,
    0x12, 0xc4, 0xb7, 0xb4, 0xb3, 0x57, 0x8a, 0xae, 0x37, 0xc3, 0xb2, 0xfb, 0x5f, 0x56, 0xc2, 0x1e,
    0x7d, 0x01, 0x55, 0x84, 0xbf, 0x50, 0xb9, 0x4b, 0xc0, 0xb4, 0xae, 0x3a, 0xad, 0x0a, 0xd8, 0xe3,
];

fn long_payload() -> Payload {
    let mut bytes = [0; 35];
    for (i, byte) in bytes.iter_mut().enumerate() {
        *byte = i as u8;
    }
    Payload::from_slice(&bytes)
}

#[test]
fn frames_are_those_of_another_maker(rt: HostRuntime) {
    let short = frame(
        &KEYS,
        ADDR,
        65_537,
        201,
        &Payload::from_slice(&[0xab, 0xcd]),
    );
    assert!(rt; short.as_slice() == FRAME.as_slice());
    let long = frame(&KEYS, ADDR, 0x0102_0304, 200, &long_payload());
    assert!(rt; long.as_slice() == LONG_FRAME.as_slice());
}

/// The frame is opened, whose count is from `min` up to below `max`.
fn is_opened(
    rt: &impl Abort,
    min: u32,
    max: u32,
    bytes: &[u8],
    count: u32,
    port: u8,
    payload: &[u8],
) {
    match open(&KEYS, ADDR, min, max, bytes) {
        Ok(opened) => {
            assert!(rt; opened.count == count && opened.port == port);
            assert!(rt; opened.payload.as_slice() == payload);
        }
        Err(_) => panic!(rt; "it is not opened"),
    }
}

#[test]
fn frames_are_opened(rt: HostRuntime) {
    is_opened(&rt, 2, 70_000, &FRAME, 65_537, 201, &[0xab, 0xcd]);
    is_opened(&rt, 2, 70_000, &PENDING_FRAME, 65_537, 201, &[0xab, 0xcd]);
    let long = long_payload();
    let count = 0x0102_0304;
    is_opened(
        &rt,
        count,
        count + 1,
        &LONG_FRAME,
        count,
        200,
        long.as_slice(),
    );
}

fn fault(keys: &Keys, addr: u32, min: u32, max: u32, bytes: &[u8]) -> Option<FrameFault> {
    match open(keys, addr, min, max, bytes) {
        Ok(_) => None,
        Err(fault) => Some(fault),
    }
}

/// With its last bit turned, and to port 0.
const TURNED: [u8; 15] = [
    0x60, 0x44, 0x33, 0x22, 0x11, 0x00, 0x01, 0x00, 0xc9, 0x06, 0x5a, 0xa8, 0xb9, 0x4b, 0xed,
];

const PORTLESS: [u8; 15] = [
    0x60, 0x44, 0x33, 0x22, 0x11, 0x00, 0x01, 0x00, 0x00, 0x06, 0x5a, 0xa8, 0xb9, 0x4b, 0xec,
];

/// The counts from which and below which a frame is heard, and what is wrong with it. With one count above its own, the low bytes
/// of `FRAME` stand for 131,073.
static FAULTS: [(u32, u32, &[u8], FrameFault); 8] = [
    (2, 70_000, &TURNED, FrameFault::Mic),
    (
        2,
        70_000,
        &[
            0x60, 0x44, 0x33, 0x22, 0x11, 0x00, 0x01, 0x00, 0xc9, 0x06, 0x5a, 0xa8,
        ],
        FrameFault::Short,
    ),
    (2, 65_537, &FRAME, FrameFault::Count),
    (65_538, 131_073, &FRAME, FrameFault::Count),
    (65_538, 131_074, &FRAME, FrameFault::Mic),
    (2, 70_000, &[0x60; 256], FrameFault::Long),
    (2, 70_000, &[0; 13], FrameFault::Header),
    (2, 70_000, &PORTLESS, FrameFault::Port),
];

#[test]
fn each_fault_is_told(rt: HostRuntime) {
    for (min, max, bytes, wrong) in &FAULTS {
        assert!(rt; fault(&KEYS, ADDR, *min, *max, bytes) == Some(*wrong));
    }
    assert!(rt; fault(&KEYS, ADDR + 1, 2, 70_000, &FRAME) == Some(FrameFault::Address));
}
