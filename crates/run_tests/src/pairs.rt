//! Scripts of two campaigns, by their reports.

use crate::common::IMAGE;
use image_slots::is_image;
use pair_run::Pair;
use report_lines::{LineError, LineFault, LineWhy};
use std::alloc::Global;
use std::process::Abort;
use std::test::*;

/// `IMAGE` with the text abcdefg.
static IMAGE_B: [u8; 56] = [
    0x46, 0x55, 0x49, 0x4d, 0x01, 0x01, 0x00, 0x00, 0x00, 0x02, 0x00, 0x00, 0x00, 0x07, 0x00, 0x00,
    0x00, 0x7d, 0x1a, 0x54, 0x12, 0x7b, 0x22, 0x25, 0x02, 0xf5, 0xb7, 0x9b, 0x5f, 0xb0, 0x80, 0x30,
    0x61, 0x15, 0x2a, 0x44, 0xf9, 0x2b, 0x37, 0xe2, 0x3c, 0x65, 0x27, 0xba, 0xf6, 0x65, 0xd4, 0xda,
    0x9a, 0x61, 0x62, 0x63, 0x64, 0x65, 0x66, 0x67,
];

fn pair(rt: &impl Abort, alloc: Global) -> Pair {
    assert!(rt; is_image(&IMAGE));
    assert!(rt; is_image(&IMAGE_B));
    match Pair::new(alloc, &IMAGE, &IMAGE_B) {
        Ok(pair) => pair,
        Err(_) => panic!(rt; "no memory"),
    }
}

const FAULT: LineError = LineError::Line(LineFault {
    line: 3,
    why: LineWhy::Range,
});

/// There is no report for this fault.
fn reports_none(rt: &impl Abort, alloc: Global, pair: &Pair) {
    match pair.report(alloc) {
        Ok(text) => {
            drop(text);
            panic!(rt; "a report");
        }
        Err(error) => assert!(rt; error == FAULT),
    }
}

/// The second campaign's session has another index than the first one's.
#[test]
fn campaigns_have_different_indexes(rt: HostRuntime) {
    let mut pair = pair(&rt, rt.alloc());
    assert!(rt; pair.line(b"fuota 2").is_ok());
    assert!(rt; pair.line(b"image a 52 0 0").is_ok());
    assert!(rt; pair.line(b"image b 56 0 0") == Err(FAULT));
    reports_none(&rt, rt.alloc(), &pair);
    drop(pair);
}
