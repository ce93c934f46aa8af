//! Erases of three sessions, one after the other, of 256 pieces of 48 bytes of which 10 are lost.

use crate::tests::bench::{empty, encoder, flash_over, received, started};
use crate::tests::letter::Letter;
use crate::tests::part::TestPart;
use flash_session::Flash;
use sample_flash_receiver::SPAN;
use std::alloc::Global;
use std::process::Abort;
use std::test::*;

/// The erases of all sectors, and of the one that has most.
fn sum_and_most(erases: &[u32]) -> (u32, u32) {
    let mut sum = 0u32;
    let mut most = 0;
    for count in erases {
        sum = sum.saturating_add(*count);
        most = most.max(*count);
    }
    (sum, most)
}

/// The erases from the first session on, and those of the sector that has most: after one session,
/// two, and three.
static OF_DRIVER: [(u32, u32); 3] = [(0, 0), (7, 1), (15, 2)];

static OF_LETTER: [(u32, u32); 3] = [(258, 256), (776, 514), (1294, 772)];

static OF_TURNED: [(u32, u32); 3] = [(0, 0), (262, 72), (525, 144)];

#[test]
fn a_session_takes_at_most_eight_erases(rt: HostRuntime) {
    let Ok(part) = TestPart::reserve(rt.alloc()) else {
        panic!(rt; "no memory");
    };
    let flash = flash_over(&rt, part);
    let mut stand = started(&rt, flash, empty(&rt, rt.alloc()));
    let mut counts = [(0, 0); 3];
    for k in 0..3 {
        let encoder = encoder(&rt, rt.alloc(), 256, k as u32);
        stand = received(&rt, stand, &encoder, k as u32);
        counts[k] = sum_and_most(&stand.flash.part().erases);
        drop(encoder);
    }
    assert!(rt; counts == OF_DRIVER);
    drop(stand);
}

#[test]
fn a_session_leaves_another_range_alone(rt: HostRuntime) {
    let Ok(part) = TestPart::reserve(rt.alloc()) else {
        panic!(rt; "no memory");
    };
    let mut flash = flash_over(&rt, part);
    assert!(rt; flash.write(SPAN + 64, &[0xa5]).is_ok());
    let mut stand = started(&rt, flash, empty(&rt, rt.alloc()));
    for k in 0..2 {
        let encoder = encoder(&rt, rt.alloc(), 256, k);
        stand = received(&rt, stand, &encoder, k);
        drop(encoder);
    }
    let part = stand.flash.part();
    for (place, byte) in part.bytes.iter().enumerate() {
        if 17 * 4096 <= place {
            let wanted = if place == 18 * 4096 { 0x5a } else { 0xff };
            assert!(rt; *byte == wanted);
        }
    }
    drop(stand);
}

/// The erases, by the letter, of one session after another.
fn by_the_letter(rt: &impl Abort, alloc: Global, first: u16, is_turned: bool) -> [(u32, u32); 3] {
    let Ok(flash) = Letter::reserve(alloc, first as usize, is_turned) else {
        panic!(rt; "no memory");
    };
    let mut stand = started(rt, flash, empty(rt, alloc));
    let mut counts = [(0, 0); 3];
    for k in 0..3 {
        let encoder = encoder(rt, alloc, 256, k as u32);
        stand = received(rt, stand, &encoder, k as u32);
        counts[k] = sum_and_most(&stand.flash.erases);
        drop(encoder);
    }
    drop(stand);
    counts
}

#[test]
fn by_the_letter_a_fragment_takes_one(rt: HostRuntime) {
    assert!(rt; by_the_letter(&rt, rt.alloc(), 0, false) == OF_LETTER);
    assert!(rt; by_the_letter(&rt, rt.alloc(), 4032, true) == OF_TURNED);
}
