//! Corrections, and a clock that takes them.

use clock_sync::{DeviceClock, Taken, answer_needed, correction};
use std::test::*;
use sync_wire::Cmd;

/// The server's seconds, the device's, and the correction, as Python's integers give it.
static CORRECTIONS: [(u32, u32, i32); 25] = [
    (0, 0, 0),
    (0, 1, -1),
    (0, 2_147_483_647, -2_147_483_647),
    (0, 2_147_483_648, i32::MIN),
    (0, 4_294_967_295, 1),
    (1, 0, 1),
    (1, 1, 0),
    (1, 2_147_483_647, -2_147_483_646),
    (1, 2_147_483_648, -2_147_483_647),
    (1, 4_294_967_295, 2),
    (2_147_483_647, 0, 2_147_483_647),
    (2_147_483_647, 1, 2_147_483_646),
    (2_147_483_647, 2_147_483_647, 0),
    (2_147_483_647, 2_147_483_648, -1),
    (2_147_483_647, 4_294_967_295, i32::MIN),
    (2_147_483_648, 0, i32::MIN),
    (2_147_483_648, 1, 2_147_483_647),
    (2_147_483_648, 2_147_483_647, 1),
    (2_147_483_648, 2_147_483_648, 0),
    (2_147_483_648, 4_294_967_295, -2_147_483_647),
    (4_294_967_295, 0, -1),
    (4_294_967_295, 1, -2),
    (4_294_967_295, 2_147_483_647, i32::MIN),
    (4_294_967_295, 2_147_483_648, 2_147_483_647),
    (4_294_967_295, 4_294_967_295, 0),
];

#[test]
fn corrections_are_the_shorter_way_round(rt: HostRuntime) {
    for (server, device, seconds) in &CORRECTIONS {
        assert!(rt; correction(*server, *device) == *seconds);
    }
    assert!(rt; answer_needed(true, 0));
    assert!(rt; answer_needed(false, -5));
    assert!(rt; !answer_needed(false, 0));
}

#[test]
fn an_answer_is_taken_once(rt: HostRuntime) {
    let mut clock = DeviceClock::new(5);
    let request = Cmd::AppTimeReq {
        time: 15,
        required: true,
        token: 0,
    };
    assert!(rt; clock.request(10_000, true) == request);
    assert!(rt; clock.millis(10_250) == 15_250);
    assert!(rt; clock.take_answer(-5, 3) == Taken::OtherToken);
    assert!(rt; clock.take_answer(-5, 0) == Taken::Set);
    assert!(rt; clock.take_answer(-5, 0) == Taken::OtherToken);
    assert!(rt; clock.now(10_000) == 10);
    assert!(rt; (clock.offset(), clock.token()) == (0, 1));
}
