//! Excess by the plain program, worked out by hand. Its lines are those of `lines`.

use frag_model::gains::plain_excess;
use frag_model::lines::MAX_PARITY_INDEX;
use std::alloc::Global;
use std::process::Abort;
use std::test::*;

/// The excess of fragments with these numbers, of so many pieces.
pub fn excess(rt: &impl Abort, alloc: Global, pieces: u16, numbers: &[u16]) -> usize {
    assert!(rt; 1 <= pieces && pieces <= 64);
    let in_range = numbers
        .iter()
        .all(|n| 1 <= *n && *n <= pieces + MAX_PARITY_INDEX);
    assert!(rt; in_range);
    match plain_excess(alloc, pieces, numbers) {
        Ok(excess) => excess,
        Err(_) => panic!(rt; "no memory"),
    }
}

/// Numbers of fragments, newest first, and their excess.
static ROWS: [(&[u16], usize); 7] = [
    (&[2, 3, 1, 4], 0),
    (&[8, 7, 3, 1], 2),
    (&[3, 1, 8, 7], 2),
    (&[6, 5, 1], 1),
    (&[11, 3, 2, 1], 1),
    (&[8, 7], 2),
    (&[2, 2, 2], 0),
];

#[test]
fn excess_over_four_pieces(rt: HostRuntime) {
    for (numbers, wanted) in &ROWS {
        assert!(rt; excess(&rt, rt.alloc(), 4, numbers) == *wanted);
    }
}
