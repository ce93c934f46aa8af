//! When a device hears, by class.

use class_windows::{ClassA, ClassB, ClassC, session_answer};
use std::process::Abort;
use std::test::*;

/// A beacon's seconds, a McAddr, a periodicity, and the first ping slot.
type PingSlots = (u32, u32, u8, u16);

/// The slots were computed with the AES of Python's `cryptography`.
static PING_SLOTS: [PingSlots; 12] = [
    (0, 0x11223344, 0, 21),
    (128, 0x11223344, 0, 16),
    (1024, 0x11223344, 0, 23),
    (1024, 0x55667788, 0, 14),
    (1024, 0x11223344, 3, 87),
    (1024, 0x11223344, 7, 1367),
    (99_456, 0x26011bda, 6, 178),
    (128_000, 0xffffffff, 1, 58),
    (1_000_064, 0x00000001, 5, 147),
    (2_147_483_648, 0x01020304, 2, 34),
    (4_294_967_040, 0x80000000, 4, 57),
    (4_294_967_168, 0xdeadbeef, 7, 3372),
];

/// Whether a session of one beacon period hears at so many ms after its beacon.
fn hears(rt: &impl Abort, beacon: u32, addr: u32, periodicity: u8, ms: u64) -> bool {
    assert!(rt; beacon <= 4_294_967_168 && periodicity < 8 && ms < 128_000);
    let session = ClassB {
        session_time: beacon,
        periodicity,
        timeout: 0,
    };
    session.open_at(1000 * beacon as u64 + ms, addr)
}

/// The first and the last ms of a slot are heard, and its neighbours aren't.
fn hears_in_slot(rt: &impl Abort, beacon: u32, addr: u32, periodicity: u8, slot: u16) {
    let begin = 2120 + 30 * slot as u64;
    assert!(rt; !hears(rt, beacon, addr, periodicity, begin - 1));
    assert!(rt; hears(rt, beacon, addr, periodicity, begin));
    assert!(rt; hears(rt, beacon, addr, periodicity, begin + 29));
    assert!(rt; !hears(rt, beacon, addr, periodicity, begin + 30));
}

/// It hears in the slot and in the last one of the beacon period; a slot after that is past slot 4,095, and none begins before
/// 2,120 ms.
fn hears_in_slots(rt: &impl Abort, beacon: u32, addr: u32, periodicity: u8, offset: u16) {
    assert!(rt; periodicity < 8 && offset < 4096);
    let period = 32u16 << periodicity;
    let last = 4096 - period + offset % period;
    hears_in_slot(rt, beacon, addr, periodicity, offset);
    hears_in_slot(rt, beacon, addr, periodicity, last);
    is_deaf(rt, beacon, addr, periodicity, 0);
    is_deaf(rt, beacon, addr, periodicity, 2119);
    is_deaf(
        rt,
        beacon,
        addr,
        periodicity,
        2120 + 30 * (last as u64 + period as u64),
    );
}

/// It hears nothing so many ms after its beacon, where the beacon period is not over.
fn is_deaf(rt: &impl Abort, beacon: u32, addr: u32, periodicity: u8, ms: u64) {
    assert!(rt; ms >= 128_000 || !hears(rt, beacon, addr, periodicity, ms));
}

#[test]
fn class_b_hears_in_its_slots(rt: HostRuntime) {
    for (beacon, addr, periodicity, offset) in &PING_SLOTS {
        hears_in_slots(&rt, *beacon, *addr, *periodicity, *offset);
    }
}

#[test]
fn a_class_b_session_runs_from_its_beacon_on(rt: HostRuntime) {
    let session = ClassB {
        session_time: 1030,
        periodicity: 0,
        timeout: 1,
    };
    let addr = 0x11223344;
    // beacons at 896, 1,024, 1,152 and 1,280 s have the ping offsets that are listed
    assert!(rt; !session.open_at(896_000 + 2120 + 30 * 18, addr));
    assert!(rt; session.open_at(1_024_000 + 2120 + 30 * 23, addr));
    assert!(rt; session.open_at(1_152_000 + 2120 + 30 * 19, addr));
    assert!(rt; !session.open_at(1_280_000 + 2120 + 30 * 11, addr));
}

#[test]
fn class_c_hears_while_it_runs(rt: HostRuntime) {
    let session = ClassC {
        session_time: 1010,
        timeout: 2,
    };
    assert!(rt; !session.open_at(1_009_999));
    assert!(rt; session.open_at(1_010_000));
    assert!(rt; session.open_at(1_013_999));
    assert!(rt; !session.open_at(1_014_000));
}

/// Moments, and whether a device hears then; its uplink was due at 5,000 ms.
static MOMENTS_OF_A: [(u64, bool); 11] = [
    (0, false),
    (3000, false),
    (4000, false),
    (5999, false),
    (6000, true),
    (6099, true),
    (6100, false),
    (6999, false),
    (7000, true),
    (7099, true),
    (7100, false),
];

#[test]
fn class_a_hears_in_two_windows(rt: HostRuntime) {
    let device = ClassA {
        last_due: Some(5000),
    };
    for (t, open) in &MOMENTS_OF_A {
        assert!(rt; device.open_at(*t) == *open);
    }
    let silent = ClassA { last_due: None };
    assert!(rt; !silent.open_at(6000));
}

/// Whether the group is there, the time, the session's start, frequency and data rate, and the answer.
static ANSWERED: [(bool, u32, u32, u32, u8, (u8, Option<u32>)); 13] = [
    (true, 1000, 1010, 8_681_000, 0, (0, Some(10))),
    (true, 1000, 1010, 8_630_000, 5, (0, Some(10))),
    (true, 1000, 1010, 8_700_000, 0, (0, Some(10))),
    (false, 1000, 1010, 0, 6, (0x1c, None)),
    (false, 1000, 1010, 8_681_000, 0, (0x10, None)),
    (true, 1000, 1010, 8_629_999, 0, (0x08, None)),
    (true, 1000, 1010, 8_700_001, 0, (0x08, None)),
    (true, 1000, 1010, 8_681_000, 6, (0x04, None)),
    (true, 1000, 999, 8_681_000, 0, (0, Some(0))),
    (true, 0, 0x7fff_ffff, 8_681_000, 0, (0, Some(0xff_ffff))),
    (true, 0, 0x8000_0000, 8_681_000, 0, (0, Some(0))),
    (true, 0, 0xff_fffe, 8_681_000, 0, (0, Some(0xff_fffe))),
    (true, 0xffff_ffff, 1, 8_681_000, 0, (0, Some(2))),
];

#[test]
fn requests_are_answered(rt: HostRuntime) {
    for (there, now, start, freq, dr, answer) in &ANSWERED {
        assert!(rt; session_answer(*there, *now, *start, *freq, *dr) == *answer);
    }
}
