//! Slots over a few pieces of one byte, by worked rows.

ghost use Rattle.std.specs.Prelude.{◌≡◌};

use crate::tests::common;
use crate::tests::common::LIMITS;
use frag_session::*;
use row_elimination::Solver;
use std::alloc::Global;
use std::process::Abort;
use std::test::*;

/// Storage for four rows of four pieces of one byte.
type SmallSlot = Slot<4, 4>;

const SETUP: SetupReq = SetupReq {
    mask: 0b10,
    delay: 5,
    ..common::SETUP
};

/// What is shown after fragments that are heard, the first of them at mark 3.
#[derive(Clone, Copy)]
struct Row<'a> {
    rows: u16,
    fragments: &'a [(u16, u8)],
    received: u16,
    missing: u16,
    verdict: Verdict,
    file: &'a [u8],
}

/// A session of four pieces that heard nothing.
const NOTHING: Row = Row {
    rows: 0,
    fragments: &[],
    received: 0,
    missing: 4,
    verdict: Verdict::Receiving,
    file: &[],
};

fn reserved<const W: usize, const B: usize>(
    rt: &impl Abort,
    alloc: Global,
    area: u32,
) -> Slot<W, B> {
    assert!(rt; W <= 16384 && B <= 61184);
    match Solver::<W, B>::reserve(alloc, area) {
        Ok(solver) => Slot::new(Idle::new(solver)),
        Err(_) => panic!(rt; "no memory"),
    }
}

fn sets_up(slot: &mut SmallSlot, req: SetupReq, limits: Limits) -> u8 {
    slot.setup(req, limits)
}

fn takes(rt: &impl Abort, slot: &mut SmallSlot, req: SetupReq, limits: Limits) {
    assert!(rt; sets_up(slot, req, limits) == 0);
}

fn hears(slot: &mut SmallSlot, via: Via, n: u16, part: &[u8], mark: u64) -> Heard {
    slot.fragment(via, n, part, mark)
}

fn lives(slot: &SmallSlot) -> bool {
    slot.view().is_some()
}

/// A slot with a new session of so many pieces and rows.
fn begun(rt: &impl Abort, alloc: Global, nb_frag: u16, rows: u16) -> SmallSlot {
    let mut slot = reserved(rt, alloc, 4);
    let req = SetupReq { nb_frag, ..SETUP };
    assert!(rt; sets_up(&mut slot, req, Limits { rows, ..LIMITS }) == 0);
    slot
}

fn feed(rt: &impl Abort, slot: &mut SmallSlot, fragments: &[(u16, u8)], first_mark: u64) {
    for (i, (n, byte)) in fragments.iter().enumerate() {
        let mark = first_mark.wrapping_add(i as u64);
        let heard = hears(slot, Via::Unicast, *n, &[*byte], mark);
        assert!(rt; matches!(heard, Heard::Fed(_)));
    }
}

/// Whether this is shown.
fn shows(slot: &SmallSlot, row: &Row) -> bool {
    match slot.view() {
        Some(view) => {
            view.received == row.received
                && view.missing == row.missing
                && view.verdict == row.verdict
                && view.file == row.file
        }
        None => false,
    }
}

fn is_shown(rt: &impl Abort, slot: &SmallSlot, row: &Row) {
    assert!(rt; shows(slot, row));
}

fn follows(rt: &impl Abort, alloc: Global, nb_frag: u16, row: &Row) {
    let mut slot = begun(rt, alloc, nb_frag, row.rows);
    feed(rt, &mut slot, row.fragments, 3);
    assert!(rt; shows(&slot, row));
    drop(slot);
}

/// Sessions of four pieces.
static FOUR: [Row<'static>; 13] = [
    Row {
        rows: 0,
        fragments: &[(4, 0x44), (1, 0x11), (3, 0x33), (2, 0x22)],
        received: 4,
        missing: 0,
        verdict: Verdict::Complete(6),
        file: &[0x11, 0x22, 0x33, 0x44],
    },
    Row {
        rows: 2,
        fragments: &[(1, 0x11), (3, 0x33), (7, 0x66), (8, 0x11)],
        received: 4,
        missing: 0,
        verdict: Verdict::Complete(6),
        file: &[0x11, 0x22, 0x33, 0x44],
    },
    Row {
        rows: 2,
        fragments: &[(7, 0x66), (8, 0x11), (1, 0x11), (3, 0x33)],
        received: 4,
        missing: 0,
        verdict: Verdict::Complete(6),
        file: &[0x11, 0x22, 0x33, 0x44],
    },
    Row {
        rows: 2,
        fragments: &[(1, 0x11), (5, 0x22), (6, 0x22)],
        received: 3,
        missing: 2,
        verdict: Verdict::Receiving,
        file: &[],
    },
    Row {
        rows: 1,
        fragments: &[(1, 0x11), (2, 0x22), (3, 0x33), (11, 0x44)],
        received: 4,
        missing: 0,
        verdict: Verdict::Complete(6),
        file: &[0x11, 0x22, 0x33, 0x44],
    },
    Row {
        rows: 1,
        fragments: &[(7, 0x66), (8, 0x11)],
        received: 2,
        missing: 3,
        verdict: Verdict::NoRows(4),
        file: &[],
    },
    Row {
        rows: 1,
        fragments: &[(1, 0x11), (3, 0x33), (7, 0x66), (8, 0x11)],
        received: 4,
        missing: 1,
        verdict: Verdict::NoRows(6),
        file: &[],
    },
    Row {
        rows: 0,
        fragments: &[(1, 0x11), (1, 0x12)],
        received: 2,
        missing: 3,
        verdict: Verdict::Conflict(4),
        file: &[],
    },
    Row {
        rows: 0,
        fragments: &[(2, 0x22), (2, 0x22), (2, 0x22)],
        received: 3,
        missing: 3,
        verdict: Verdict::Receiving,
        file: &[],
    },
    Row {
        rows: 0,
        fragments: &[(7, 0x66)],
        received: 1,
        missing: 4,
        verdict: Verdict::NoRows(3),
        file: &[],
    },
    Row {
        rows: 1,
        fragments: &[(7, 0x66), (8, 0x11), (1, 0x11), (3, 0x33)],
        received: 4,
        missing: 3,
        verdict: Verdict::NoRows(4),
        file: &[],
    },
    Row {
        rows: 0,
        fragments: &[(1, 0x11), (1, 0x12), (1, 0x11), (2, 0x22)],
        received: 4,
        missing: 3,
        verdict: Verdict::Conflict(4),
        file: &[],
    },
    Row {
        rows: 0,
        fragments: &[(3, 0x33), (1, 0x11), (4, 0x44), (2, 0x22), (1, 0x12)],
        received: 5,
        missing: 0,
        verdict: Verdict::Complete(6),
        file: &[0x11, 0x22, 0x33, 0x44],
    },
];

/// Sessions of four pieces: a verdict comes at the fragment that decides, and stays while more are counted.
#[test]
fn verdicts_come_at_the_fragment_that_decides(rt: HostRuntime) {
    for row in &FOUR {
        follows(&rt, rt.alloc(), 4, row);
    }
}

/// Sessions of one piece.
static ONE_PIECE: [Row<'static>; 3] = [
    Row {
        rows: 0,
        fragments: &[(2, 0), (1, 0x5a)],
        received: 2,
        missing: 0,
        verdict: Verdict::Complete(4),
        file: &[0x5a],
    },
    Row {
        rows: 1,
        fragments: &[(2, 0), (1, 0x5a)],
        received: 2,
        missing: 0,
        verdict: Verdict::Complete(4),
        file: &[0x5a],
    },
    Row {
        rows: 0,
        fragments: &[(2, 1)],
        received: 1,
        missing: 1,
        verdict: Verdict::Conflict(3),
        file: &[],
    },
];

/// Sessions of one piece, for which a coded fragment is not new.
#[test]
fn over_one_piece_coded_lines_are_empty(rt: HostRuntime) {
    for row in &ONE_PIECE {
        follows(&rt, rt.alloc(), 1, row);
    }
}

/// The bits of a setup, 0 where there is a session then.
fn refusal(rt: &impl Abort, alloc: Global, req: SetupReq, limits: Limits) -> u8 {
    let mut slot = reserved(rt, alloc, 262_382);
    let bits = sets_up(&mut slot, req, limits);
    assert!(rt; lives(&slot) == (bits == 0));
    drop(slot);
    bits
}

/// Only the descriptor 7 is taken.
const ONLY: Limits = Limits {
    descriptor: Some(7),
    ..LIMITS
};

static REFUSED: [(SetupReq, Limits, u8); 6] = [
    (
        SetupReq {
            nb_frag: 0,
            ..SETUP
        },
        LIMITS,
        0b0001,
    ),
    (
        SetupReq {
            padding: 1,
            ..SETUP
        },
        LIMITS,
        0b0001,
    ),
    (
        SetupReq {
            nb_frag: 4097,
            ..SETUP
        },
        LIMITS,
        0b0010,
    ),
    (
        SetupReq {
            index: 3,
            algo: 1,
            ..SETUP
        },
        LIMITS,
        0b0001,
    ),
    (
        SetupReq {
            index: 4,
            frag_size: 240,
            descriptor: 8,
            ..SETUP
        },
        ONLY,
        0b1110,
    ),
    (
        SetupReq {
            descriptor: 7,
            ..SETUP
        },
        ONLY,
        0b0000,
    ),
];

#[test]
fn refusals_are_told_together(rt: HostRuntime) {
    for (req, limits, bits) in &REFUSED {
        assert!(rt; refusal(&rt, rt.alloc(), *req, *limits) == *bits);
    }
}

/// The bits of a setup of four pieces of one byte, over two rows.
fn bits_of<const W: usize, const B: usize>(rt: &impl Abort, alloc: Global, area: u32) -> u8 {
    let mut slot: Slot<W, B> = reserved(rt, alloc, area);
    let bits = slot.setup(SETUP, Limits { rows: 2, ..LIMITS });
    drop(slot);
    bits
}

#[test]
fn two_rows_of_four_pieces_need_storage(rt: HostRuntime) {
    let alloc = rt.alloc();
    assert!(rt; bits_of::<2, 2>(&rt, alloc, 4) == 0);
    assert!(rt; bits_of::<1, 2>(&rt, alloc, 4) == 2);
    assert!(rt; bits_of::<2, 1>(&rt, alloc, 4) == 2);
    assert!(rt; bits_of::<2, 2>(&rt, alloc, 3) == 2);
}

/// How a fragment comes, its number and its bytes, and what is answered.
static HEARD: [(Via, u16, &[u8], Heard); 9] = [
    (Via::Group(0), 0, &[], Heard::Dropped(Cause::Group)),
    (Via::Group(9), 1, &[0x11], Heard::Dropped(Cause::Group)),
    (Via::Unicast, 0, &[], Heard::Dropped(Cause::Index)),
    (Via::Unicast, 0, &[0x11], Heard::Dropped(Cause::Index)),
    (Via::Unicast, 8385, &[0x11], Heard::Dropped(Cause::Index)),
    (Via::Group(1), 1, &[0x11, 0x22], Heard::Dropped(Cause::Size)),
    (Via::Unicast, 8384, &[], Heard::Dropped(Cause::Size)),
    (Via::Group(1), 1, &[0x11], Heard::Fed(News::New)),
    (Via::Unicast, 8384, &[0x11], Heard::Fed(News::New)),
];

/// Without a session it hears nothing.
fn is_deaf(rt: &impl Abort, slot: &mut SmallSlot, via: Via, n: u16, part: &[u8]) {
    assert!(rt; hears(slot, via, n, part, 9) == Heard::Dropped(Cause::NoSession));
}

fn are_heard(rt: &impl Abort, slot: &mut SmallSlot) {
    for (via, n, part, answer) in &HEARD {
        assert!(rt; hears(slot, *via, *n, part, 2) == *answer);
    }
}

#[test]
fn fragments_are_dropped_for_the_first_cause(rt: HostRuntime) {
    let mut slot = reserved(&rt, rt.alloc(), 4);
    is_deaf(&rt, &mut slot, Via::Group(0), 0, &[]);
    takes(&rt, &mut slot, SETUP, Limits { rows: 4, ..LIMITS });
    are_heard(&rt, &mut slot);
    let heard = Row {
        received: 2,
        missing: 2,
        ..NOTHING
    };
    is_shown(&rt, &slot, &heard);
    drop(slot);
}

#[test]
fn an_equal_setup_keeps_the_session_and_another_begins_anew(rt: HostRuntime) {
    let mut slot = begun(&rt, rt.alloc(), 4, 0);
    feed(&rt, &mut slot, &[(1, 0x11), (2, 0x22)], 3);
    takes(&rt, &mut slot, SETUP, LIMITS);
    feed(&rt, &mut slot, &[(3, 0x33)], 6);
    let kept = Row {
        received: 3,
        missing: 1,
        ..NOTHING
    };
    is_shown(&rt, &slot, &kept);
    let other = SetupReq {
        descriptor: 1,
        ..SETUP
    };
    takes(&rt, &mut slot, other, LIMITS);
    is_shown(&rt, &slot, &NOTHING);
    drop(slot);
}

fn is_news(rt: &impl Abort, slot: &mut SmallSlot, n: u16, part: &[u8], mark: u64) {
    assert!(rt; hears(slot, Via::Unicast, n, part, mark) == Heard::Fed(News::New));
}

#[test]
fn the_padding_is_no_part_of_the_file(rt: HostRuntime) {
    let mut slot = reserved(&rt, rt.alloc(), 4);
    let padded = SetupReq {
        nb_frag: 2,
        frag_size: 2,
        padding: 1,
        ..SETUP
    };
    takes(&rt, &mut slot, padded, LIMITS);
    is_news(&rt, &mut slot, 2, &[0x33, 0], 1);
    is_news(&rt, &mut slot, 1, &[0x11, 0x22], 2);
    let whole = Row {
        rows: 0,
        fragments: &[],
        received: 2,
        missing: 0,
        verdict: Verdict::Complete(2),
        file: &[0x11, 0x22, 0x33],
    };
    is_shown(&rt, &slot, &whole);
    drop(slot);
}

/// What is answered after fragments, to a request that asks all, and whether a request for missing pieces is answered too.
struct Asked<'a> {
    rows: u16,
    fragments: &'a [(u16, u8)],
    status: StatusAns,
    lacks: bool,
}

const STATUS: StatusAns = StatusAns {
    received: 2,
    missing: 3,
    norows: false,
    delay: 5,
};

/// Whether the request is answered with this.
fn is_answered(slot: &SmallSlot, via: Via, all: bool, wanted: StatusAns) -> bool {
    match slot.status(via, all) {
        Some(status) => status == wanted,
        None => false,
    }
}

fn answers(rt: &impl Abort, slot: &SmallSlot, via: Via, status: StatusAns, lacks: bool) {
    assert!(rt; is_answered(slot, via, true, status));
    if lacks {
        assert!(rt; is_answered(slot, via, false, status));
    } else {
        assert!(rt; slot.status(via, false).is_none());
    }
}

fn is_silent(rt: &impl Abort, slot: &SmallSlot, via: Via) {
    assert!(rt; slot.status(via, true).is_none() && slot.status(via, false).is_none());
}

fn tells(rt: &impl Abort, alloc: Global, asked: &Asked) {
    let mut slot = begun(rt, alloc, 4, asked.rows);
    feed(rt, &mut slot, asked.fragments, 3);
    answers(rt, &slot, Via::Unicast, asked.status, asked.lacks);
    answers(rt, &slot, Via::Group(1), asked.status, asked.lacks);
    is_silent(rt, &slot, Via::Group(0));
    is_silent(rt, &slot, Via::Group(9));
    drop(slot);
}

static ASKED: [Asked<'static>; 4] = [
    Asked {
        rows: 0,
        fragments: &[(2, 0x22), (2, 0x22)],
        status: STATUS,
        lacks: true,
    },
    Asked {
        rows: 1,
        fragments: &[(7, 0x66), (8, 0x11)],
        status: StatusAns {
            norows: true,
            ..STATUS
        },
        lacks: true,
    },
    Asked {
        rows: 0,
        fragments: &[(1, 0x11), (1, 0x12)],
        status: STATUS,
        lacks: true,
    },
    Asked {
        rows: 2,
        fragments: &[(1, 0x11), (3, 0x33), (7, 0x66), (8, 0x11)],
        status: StatusAns {
            received: 4,
            missing: 0,
            ..STATUS
        },
        lacks: false,
    },
];

#[test]
fn a_status_names_what_is_missing_and_whether_rows_sufficed(rt: HostRuntime) {
    for asked in &ASKED {
        tells(&rt, rt.alloc(), asked);
    }
}

#[test]
fn a_status_stays_at_255_pieces_missing(rt: HostRuntime) {
    let mut slot = reserved(&rt, rt.alloc(), 300);
    is_silent(&rt, &slot, Via::Unicast);
    let large = SetupReq {
        nb_frag: 300,
        ..SETUP
    };
    takes(&rt, &mut slot, large, LIMITS);
    feed(&rt, &mut slot, &[(1, 0x11), (1, 0x11)], 3);
    let most = StatusAns {
        missing: 255,
        ..STATUS
    };
    answers(&rt, &slot, Via::Unicast, most, true);
    let heard = Row {
        received: 2,
        missing: 299,
        ..NOTHING
    };
    is_shown(&rt, &slot, &heard);
    drop(slot);
}

/// Ends a session.
fn ends(rt: &impl Abort, slot: &mut SmallSlot) {
    assert!(rt; slot.delete());
    assert!(rt; !lives(slot));
    is_silent(rt, slot, Via::Unicast);
    is_deaf(rt, slot, Via::Unicast, 1, &[0x11]);
    assert!(rt; !slot.delete());
}

/// Ends a session after fragments, and begins another in its memory.
fn is_deleted(rt: &impl Abort, alloc: Global, fragments: &[(u16, u8)]) {
    let mut slot = begun(rt, alloc, 4, 1);
    feed(rt, &mut slot, fragments, 3);
    ends(rt, &mut slot);
    assert!(rt; sets_up(&mut slot, SETUP, Limits { rows: 1, ..LIMITS }) == 0);
    assert!(rt; shows(&slot, &NOTHING));
    drop(slot);
}

/// Fragments after which a session is new, receives, is complete, has too few rows, or has a conflict.
static STATES: [&[(u16, u8)]; 5] = [
    &[],
    &[(2, 0x22)],
    &[(4, 0x44), (1, 0x11), (3, 0x33), (2, 0x22)],
    &[(7, 0x66), (8, 0x11)],
    &[(1, 0x11), (1, 0x12)],
];

#[test]
fn a_session_is_deleted_in_every_state(rt: HostRuntime) {
    for fragments in &STATES {
        is_deleted(&rt, rt.alloc(), fragments);
    }
}

/// A session of a setup that is not refused.
#[tactic(auto, unfolding(frag_session::specs::Session::new_session))]
fn accepted(rt: &impl Abort, idle: Idle<4, 4>, req: SetupReq) -> Receiving<4, 4>
    ensures { result.setup ≡ req }
{
    match idle.setup(req, LIMITS) {
        Ok(receiving) => receiving,
        Err(_) => panic!(rt; "refused"),
    }
}

/// The memory of a setup that is refused for its algorithm.
fn given_back(rt: &impl Abort, idle: Idle<4, 4>) -> Idle<4, 4> {
    match idle.setup(SetupReq { algo: 1, ..SETUP }, LIMITS) {
        Ok(_) => panic!(rt; "accepted"),
        Err((idle, bits)) => {
            assert!(rt; bits == 1);
            idle
        }
    }
}

const ONE: SetupReq = SetupReq {
    nb_frag: 1,
    ..SETUP
};

/// The memory of a session of one piece that is whole.
fn whole_and_deleted(rt: &impl Abort, idle: Idle<4, 4>) -> Idle<4, 4> {
    match accepted(rt, idle, ONE).feed(1, &[0x5a], 3) {
        Next::Complete(complete) => complete.delete(),
        _ => panic!(rt; "not complete"),
    }
}

#[test]
fn states_hand_their_memory_on(rt: HostRuntime) {
    let Ok(solver) = Solver::<4, 4>::reserve(rt.alloc(), 4) else {
        panic!(rt; "no memory");
    };
    let idle = whole_and_deleted(&rt, given_back(&rt, Idle::new(solver)));
    let mut slot = Slot::new(accepted(&rt, idle, SETUP).delete());
    assert!(rt; sets_up(&mut slot, ONE, LIMITS) == 0);
    feed(&rt, &mut slot, &[(1, 0x5a)], 3);
    let whole = Row {
        received: 1,
        verdict: Verdict::Complete(3),
        file: &[0x5a],
        missing: 0,
        ..NOTHING
    };
    assert!(rt; shows(&slot, &whole));
    drop(slot);
}
