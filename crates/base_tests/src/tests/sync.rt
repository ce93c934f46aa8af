//! Commands of the clock and of the firmware, as values and as bytes.

use std::process::Abort;
use std::test::*;
use sync_wire::*;
use wire_base::{Direction, Payload, Refusal, Why};

/// The bytes spell the command, and it is written with these bytes again.
fn spells(rt: &impl Abort, port: u8, dir: Direction, bytes: &[u8], cmd: &Cmd) {
    reads(rt, port, dir, bytes, cmd);
    let mut out = Payload::new();
    assert!(rt; valid(cmd));
    assert!(rt; write_one(cmd, &mut out).is_ok());
    assert!(rt; out.as_slice() == bytes);
}

/// The bytes spell the command.
fn reads(rt: &impl Abort, port: u8, dir: Direction, bytes: &[u8], cmd: &Cmd) {
    assert!(rt; bytes.len() <= 242 && !bytes.is_empty());
    match read_one(port, dir, bytes, 0) {
        Ok((found, next)) => {
            assert!(rt; found == *cmd);
            assert!(rt; next as usize == bytes.len());
        }
        Err(_) => assert!(rt; false),
    }
}

static CLOCK: [(Direction, &[u8], Cmd); 8] = [
    (Direction::Down, &[0x00], Cmd::PackageVersionReq),
    (
        Direction::Up,
        &[0x00, 0x01, 0x01],
        Cmd::PackageVersionAns {
            identifier: 1,
            version: 1,
        },
    ),
    (
        Direction::Up,
        &[0x01, 0x44, 0x33, 0x22, 0x11, 0x19],
        Cmd::AppTimeReq {
            time: 0x11223344,
            required: true,
            token: 9,
        },
    ),
    (
        Direction::Down,
        &[0x01, 0x05, 0x00, 0x00, 0x00, 0x03],
        Cmd::AppTimeAns {
            correction: 5,
            token: 3,
        },
    ),
    (
        Direction::Down,
        &[0x01, 0xfe, 0xff, 0xff, 0xff, 0x0f],
        Cmd::AppTimeAns {
            correction: -2,
            token: 15,
        },
    ),
    (
        Direction::Down,
        &[0x02, 0x07],
        Cmd::DeviceAppTimePeriodicityReq { period: 7 },
    ),
    (
        Direction::Up,
        &[0x02, 0x01, 0xf2, 0x03, 0x00, 0x00],
        Cmd::DeviceAppTimePeriodicityAns {
            unsupported: true,
            time: 1_010,
        },
    ),
    (
        Direction::Down,
        &[0x03, 0x05],
        Cmd::ForceDeviceResyncReq { count: 5 },
    ),
];

#[test]
fn commands_of_the_clock_are_spelled_as_the_standard_has_them(rt: HostRuntime) {
    for (dir, bytes, cmd) in &CLOCK {
        spells(&rt, 202, *dir, bytes, cmd);
    }
}

#[test]
fn the_four_reserved_bits_are_free(rt: HostRuntime) {
    let later = Cmd::AppTimeAns {
        correction: 5,
        token: 3,
    };
    let bytes = [0x01, 0x05, 0x00, 0x00, 0x00, 0xf3];
    reads(&rt, 202, Direction::Down, &bytes, &later);
}

static FIRMWARE: [(Direction, &[u8], Cmd); 12] = [
    (Direction::Down, &[0x00], Cmd::PackageVersionReq),
    (Direction::Down, &[0x01], Cmd::DevVersionReq),
    (
        Direction::Up,
        &[0x01, 0x02, 0x00, 0x00, 0x00, 0x01, 0x00, 0x00, 0x00],
        Cmd::DevVersionAns {
            firmware: 2,
            hardware: 1,
        },
    ),
    (
        Direction::Down,
        &[0x02, 0xf2, 0x03, 0x00, 0x00],
        Cmd::DevRebootTimeReq { time: 1_010 },
    ),
    (
        Direction::Up,
        &[0x02, 0xf2, 0x03, 0x00, 0x00],
        Cmd::DevRebootTimeAns { time: 1_010 },
    ),
    (
        Direction::Down,
        &[0x03, 0x33, 0x22, 0x11],
        Cmd::DevRebootCountdownReq { count: 0x112233 },
    ),
    (
        Direction::Up,
        &[0x03, 0x33, 0x22, 0x11],
        Cmd::DevRebootCountdownAns { count: 0x112233 },
    ),
    (Direction::Down, &[0x04], Cmd::DevUpgradeImageReq),
    (
        Direction::Up,
        &[0x04, 0x03, 0x02, 0x00, 0x00, 0x00],
        Cmd::DevUpgradeImageAns {
            status: 3,
            next: Some(2),
        },
    ),
    (
        Direction::Up,
        &[0x04, 0x02],
        Cmd::DevUpgradeImageAns {
            status: 2,
            next: None,
        },
    ),
    (
        Direction::Down,
        &[0x05, 0x02, 0x00, 0x00, 0x00],
        Cmd::DevDeleteImageReq { version: 2 },
    ),
    (
        Direction::Up,
        &[0x05, 0x02],
        Cmd::DevDeleteImageAns { errors: 2 },
    ),
];

#[test]
fn commands_of_the_firmware_are_spelled_as_the_standard_has_them(rt: HostRuntime) {
    for (dir, bytes, cmd) in &FIRMWARE {
        spells(&rt, 203, *dir, bytes, cmd);
    }
}

/// Where a reading is refused, and why.
fn refused(rt: &impl Abort, port: u8, dir: Direction, bytes: &[u8], at: u16, why: Why) {
    assert!(rt; !bytes.is_empty());
    assert!(rt; read_one(port, dir, bytes, 0) == Err(Refusal { at, why }));
}

#[test]
fn other_bytes_are_refused_at_their_place(rt: HostRuntime) {
    refused(&rt, 204, Direction::Down, &[0x00], 0, Why::Port);
    refused(&rt, 202, Direction::Down, &[0; 243], 242, Why::TooLong);
    refused(
        &rt,
        202,
        Direction::Up,
        &[0x03, 0x05],
        0,
        Why::UnknownCommand,
    );
    refused(
        &rt,
        203,
        Direction::Up,
        &[0x04, 0x03, 0x02, 0x00, 0x00],
        5,
        Why::Short,
    );
}
