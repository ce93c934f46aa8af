//! Payloads of the four packages, and two that are none.

use sample_decoder::{DecodeError, decode};
use std::alloc::Global;
use std::process::Abort;
use std::test::*;
use wire_base::{Direction, Refusal, Why};

/// Payloads and their texts.
static DECODED: [(u8, Direction, &[u8], &str); 5] = [
    (
        202,
        Direction::Down,
        &[0x01, 5, 0, 0, 0, 0xf3],
        "AppTimeAns correction=5 token=3\n",
    ),
    (
        201,
        Direction::Down,
        &[0x08, 1, 0, 0xaa],
        "DataFragment index=0 n=1 bytes=aa\n",
    ),
    (
        203,
        Direction::Up,
        &[0x01, 2, 0, 0, 0, 1, 0, 0, 0],
        "DevVersionAns fw=2 hw=1\n",
    ),
    (
        200,
        Direction::Down,
        &[0x00, 0x00],
        "PackageVersionReq\nPackageVersionReq\n",
    ),
    (200, Direction::Up, &[], ""),
];

fn is_shown(
    rt: &impl Abort,
    alloc: Global,
    port: u8,
    direction: Direction,
    payload: &[u8],
    text: &str,
) {
    match decode(alloc, port, direction, payload) {
        Ok(decoded) => {
            assert!(rt; decoded.as_slice() == text.as_bytes());
            drop(decoded);
        }
        Err(_) => panic!(rt; "it is refused"),
    }
}

#[test]
fn payloads_are_shown_command_by_command(rt: HostRuntime) {
    for (port, direction, payload, text) in &DECODED {
        is_shown(&rt, rt.alloc(), *port, *direction, payload, text);
    }
}

fn is_refused(rt: &impl Abort, alloc: Global, port: u8, payload: &[u8], at: u16, why: Why) {
    match decode(alloc, port, Direction::Down, payload) {
        Ok(decoded) => {
            drop(decoded);
            panic!(rt; "it is shown");
        }
        Err(DecodeError::Refused(refusal)) => assert!(rt; refusal == Refusal { at, why }),
        Err(_) => panic!(rt; "no memory"),
    }
}

#[test]
fn what_is_no_message_is_refused(rt: HostRuntime) {
    is_refused(&rt, rt.alloc(), 202, &[0x00, 0x01, 5], 3, Why::Short);
    is_refused(&rt, rt.alloc(), 202, &[0x00, 0x09], 1, Why::UnknownCommand);
    is_refused(&rt, rt.alloc(), 204, &[], 0, Why::Port);
}
