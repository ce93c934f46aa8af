//! Three sessions with losses, stopped before and within each program and erase of the part.

ghost use Rattle.std.specs.Prelude.{◌≡◌, ◌≤◌};
ghost use Rattle.sample_receiver.specs.HeldReceiver.{extent};
ghost use Rattle.sample_flash_receiver.specs.HeldReceiver.{span, IsReceiver};

use crate::tests::bench::{Stand, empty, encoder, flash_over, is_whole, payload, request};
use crate::tests::part::{Tear, TestPart};
use frag_encoder::Encoder;
use frag_session::Via;
use sample_flash_receiver::{Arena, Receiver, hear, set_up, start};
use sample_nor_flash::NorFlash;
use std::alloc::Global;
use std::process::Abort;
use std::test::*;

/// Pieces of the three files: their records lie in two sectors.
static PIECES: [u16; 3] = [76, 75, 77];

/// Each of these fragments is lost, and the one after it comes twice.
const LOST: u16 = 20;

/// A driver over the part, and the receiver over it.
type Driven = Stand<NorFlash<TestPart>>;

/// How many fragments of the session were heard; None where there is none.
fn heard_by(receiver: &Receiver) -> Option<u16> {
    match receiver.status(Via::Unicast, true) {
        Some(status) => Some(status.received),
        None => None,
    }
}

/// The power comes back.
fn powered(rt: &impl Abort, flash: NorFlash<TestPart>) -> NorFlash<TestPart>
    ensures { span ≤ result.size }
{
    let mut part = flash.inner();
    part.power();
    flash_over(rt, part)
}

/// With what the flash holds, once more where the opening is stopped.
fn opened(rt: &impl Abort, flash: NorFlash<TestPart>, empty: Arena) -> Driven
    requires arena { empty ≡ extent }
    requires room { span ≤ flash.size }
{
    let mut flash = flash;
    match start(&mut flash, empty) {
        Ok(receiver) => Stand { flash, receiver },
        Err((empty, _)) => {
            let mut flash = powered(rt, flash);
            match start(&mut flash, empty) {
                Ok(receiver) => Stand { flash, receiver },
                Err(_) => panic!(rt; "the flash is not opened"),
            }
        }
    }
}

/// A fragment is heard. After a stop there is what was acknowledged, or that and the fragment.
fn heard(rt: &impl Abort, stand: Driven, payload: &[u8; 51]) -> Driven {
    let before = heard_by(&stand.receiver).unwrap_or(0);
    let Stand {
        mut flash,
        receiver,
    } = stand;
    match hear(receiver, &mut flash, payload, 1) {
        Ok(receiver) => {
            assert!(rt; heard_by(&receiver) == Some(before.saturating_add(1)));
            Stand { flash, receiver }
        }
        Err(empty) => {
            let stand = opened(rt, powered(rt, flash), empty);
            let now = heard_by(&stand.receiver);
            assert!(rt; now == Some(before) || now == Some(before.saturating_add(1)));
            stand
        }
    }
}

/// A setup. After a stop there is the session that was, none, or the new one with nothing heard.
fn set_up_once(
    rt: &impl Abort,
    stand: Driven,
    old: Option<&Encoder>,
    encoder: &Encoder,
    number: u32,
) -> Driven {
    let before = heard_by(&stand.receiver);
    let Stand {
        mut flash,
        receiver,
    } = stand;
    match set_up(receiver, &mut flash, request(encoder, number)) {
        Ok((receiver, bits)) => {
            assert!(rt; bits == 0 && heard_by(&receiver) == Some(0));
            Stand { flash, receiver }
        }
        Err(empty) => {
            let stand = opened(rt, powered(rt, flash), empty);
            let now = heard_by(&stand.receiver);
            assert!(rt; now == before || now == None || now == Some(0));
            if now != None && now != Some(0) {
                if let Some(old) = old {
                    assert!(rt; is_whole(&stand.receiver, old));
                }
            }
            stand
        }
    }
}

/// A session from its setup until its file is whole. A fragment in which the part was stopped is
/// not sent again.
fn received(
    rt: &impl Abort,
    stand: Driven,
    old: Option<&Encoder>,
    encoder: &Encoder,
    number: u32,
) -> Driven {
    let mut stand = set_up_once(rt, stand, old, encoder, number);
    for _ in 0..2 {
        stand = set_up_once(rt, stand, old, encoder, number);
    }
    assert!(rt; heard_by(&stand.receiver) == Some(0));
    for n in 1..encoder.nb_frag() + 24 {
        if n % LOST != 0 && !is_whole(&stand.receiver, encoder) {
            let payload = payload(rt, encoder, n);
            stand = heard(rt, stand, &payload);
            if n % LOST == 1 && !is_whole(&stand.receiver, encoder) {
                stand = heard(rt, stand, &payload);
            }
        }
    }
    assert!(rt; is_whole(&stand.receiver, encoder));
    stand
}

/// Three sessions over a part, of which the journal may have one entry left, that is stopped after
/// so many programs and erases, and again: how many it made.
fn run(
    rt: &impl Abort,
    alloc: Global,
    files: &[Encoder; 3],
    is_full: bool,
    stops: [(u32, Tear); 2],
) -> u32 {
    let Ok(mut part) = TestPart::reserve(alloc) else {
        panic!(rt; "no memory");
    };
    if is_full {
        part.fill_journal();
    }
    part.left = stops[0].0;
    part.tear = stops[0].1;
    part.then = stops[1].0;
    part.then_tear = stops[1].1;
    let mut stand = opened(rt, flash_over(rt, part), empty(rt, alloc));
    let mut old = None;
    for k in 0..3 {
        stand = received(rt, stand, old, &files[k], k as u32);
        old = Some(&files[k]);
    }
    let calls = stand.flash.part().calls;
    drop(stand);
    calls
}

fn files(rt: &impl Abort, alloc: Global) -> [Encoder; 3] {
    [
        encoder(rt, alloc, PIECES[0], 0),
        encoder(rt, alloc, PIECES[1], 1),
        encoder(rt, alloc, PIECES[2], 2),
    ]
}

const NEVER: (u32, Tear) = (u32::MAX, Tear::Nothing);

static TEARS: [Tear; 5] = [
    Tear::Nothing,
    Tear::Drawn,
    Tear::Open,
    Tear::Entry,
    Tear::All,
];

/// Stopped at each moment, and a second time soon after it.
fn stopped_everywhere(rt: &impl Abort, alloc: Global, is_full: bool, kind: u8) {
    let files = files(rt, alloc);
    let all = run(rt, alloc, &files, is_full, [NEVER, NEVER]);
    assert!(rt; 500 < all && all < 700);
    for first in 0..700u32 {
        if first < all {
            let tear = TEARS[(first as usize + kind as usize) % 5];
            let soon = 7 * first % 37;
            run(
                rt,
                alloc,
                &files,
                is_full,
                [(first, TEARS[kind as usize % 5]), (soon, tear)],
            );
        }
    }
    drop(files);
}

#[test]
fn a_session_outlasts_a_stop_that_leaves_drawn_bits(rt: HostRuntime) {
    stopped_everywhere(&rt, rt.alloc(), false, 1);
}

#[test]
fn a_session_outlasts_a_stop_that_leaves_open_gates(rt: HostRuntime) {
    stopped_everywhere(&rt, rt.alloc(), false, 2);
}

#[test]
fn a_session_outlasts_a_stop_before_each_call(rt: HostRuntime) {
    stopped_everywhere(&rt, rt.alloc(), false, 0);
}

#[test]
fn a_session_outlasts_a_stop_after_each_call(rt: HostRuntime) {
    stopped_everywhere(&rt, rt.alloc(), false, 4);
}

#[test]
fn a_full_journal_outlasts_a_stop_that_leaves_drawn_bits(rt: HostRuntime) {
    stopped_everywhere(&rt, rt.alloc(), true, 1);
}

#[test]
fn a_full_journal_outlasts_a_stop_that_leaves_open_entries(rt: HostRuntime) {
    stopped_everywhere(&rt, rt.alloc(), true, 3);
}
