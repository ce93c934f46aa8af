//! A small update into sessions in flash, stopped at each call of the flash.

ghost use Rattle.std.specs.Prelude.{◌*◌, ◌≤◌};

use crate::tests::common::SETUP;
use flash_session::{Flash, MemFlash, StopFlash};
use frag_session::{Limits, SetupReq, Verdict, Via};
use session_store::{Layout, SessionSize, SessionStore};
use std::alloc::Global;
use std::process::Abort;
use std::test::*;

/// Room for the records of four fragments of a byte.
const SPAN: u32 = 24_640 + 9 * 11;

const LAYOUT: Layout = Layout {
    area: 8,
    span: SPAN,
    limits: Limits {
        sessions: 4,
        rows: 4,
        descriptor: None,
    },
};

/// Room for the steps of all that the update writes.
const ROOM: u32 = 90_000;

/// More calls than the update makes.
const ALL: u64 = 1_000_000;

/// A setup of four pieces of a byte at an index, a fragment for it, or the end of it.
#[derive(Clone, Copy)]
enum Call {
    Setup(u8),
    Hear(u8, u16, u8),
    Delete(u8),
}

/// A session that hears one fragment and ends at last, and another one whose file comes.
static UPDATE: [Call; 8] = [
    Call::Setup(3),
    Call::Hear(3, 2, 0x55),
    Call::Setup(1),
    Call::Hear(1, 1, 0x11),
    Call::Hear(1, 2, 0x22),
    Call::Hear(1, 4, 0x44),
    Call::Hear(1, 3, 0x33),
    Call::Delete(3),
];

static FILE: [u8; 4] = [0x11, 0x22, 0x33, 0x44];

/// How many fragments the two sessions heard; none where there is no session.
type Shown = (Option<u16>, Option<u16>);

type Store = SessionStore<StopFlash>;

fn memory(rt: &impl Abort, alloc: Global) -> MemFlash {
    match MemFlash::reserve(alloc, 4 * SPAN, ROOM, Vec::new(alloc)) {
        Ok(flash) => flash,
        Err(_) => panic!(rt; "no memory"),
    }
}

/// A store whose flash is stopped after so many calls.
fn store(rt: &impl Abort, alloc: Global, flash: MemFlash, calls: u64) -> Store {
    let flash = StopFlash::over(flash, calls);
    assert!(rt; flash.size() as u64 >= 4 * SPAN as u64);
    match SessionStore::reserve(alloc, flash, LAYOUT, SessionSize::Large, true) {
        Ok(store) => store,
        Err(_) => panic!(rt; "no memory"),
    }
}

/// The same over the flash of a store that has ended.
fn over(rt: &impl Abort, alloc: Global, first: Store) -> Store {
    store(rt, alloc, first.close().inner(), ALL)
}

fn power(rt: &impl Abort, store: &mut Store) -> bool {
    assert!(rt; store.is_held());
    store.power().is_ok()
}

fn sets_up(rt: &impl Abort, store: &mut Store, index: u8) -> bool {
    assert!(rt; index < 4 && !store.is_down());
    let req = SetupReq { index, ..SETUP };
    match store.setup(req) {
        Ok(bits) => {
            assert!(rt; bits == 0);
            true
        }
        Err(_) => false,
    }
}

fn hears(rt: &impl Abort, store: &mut Store, index: u8, n: u16, byte: u8) -> bool {
    assert!(rt; index < 4 && !store.is_down());
    store.fragment(index, Via::Unicast, n, &[byte], 7).is_ok()
}

fn deletes(rt: &impl Abort, store: &mut Store, index: u8) -> bool {
    assert!(rt; index < 4 && !store.is_down());
    store.delete(index).is_ok()
}

/// Whether a call was made; else the flash was stopped in it.
fn made(rt: &impl Abort, store: &mut Store, call: Call) -> bool {
    match call {
        Call::Setup(index) => sets_up(rt, store, index),
        Call::Hear(index, n, byte) => hears(rt, store, index, n, byte),
        Call::Delete(index) => deletes(rt, store, index),
    }
}

fn received(store: &Store, index: u8) -> Option<u16>
    requires { index ≤ 3 }
{
    match store.view(index) {
        Some(view) => Some(view.received),
        None => None,
    }
}

fn shows(store: &Store) -> Shown {
    (received(store, 1), received(store, 3))
}

/// Whether the update is whole.
fn is_done(store: &Store) -> bool {
    match store.view(1) {
        Some(view) => {
            view.verdict == Verdict::Complete(7)
                && view.file == FILE.as_slice()
                && received(store, 3) == None
        }
        None => false,
    }
}

/// What the sessions of a store that gets power show before each call, and after the last.
fn all_shown_by(rt: &impl Abort, store: &mut Store) -> [Shown; 9] {
    assert!(rt; store.is_down());
    assert!(rt; power(rt, store));
    let mut all = [(None, None); 9];
    for (at, call) in UPDATE.iter().enumerate() {
        all[at] = shows(store);
        assert!(rt; made(rt, store, *call));
    }
    all[8] = shows(store);
    all
}

fn all_shown(rt: &impl Abort, alloc: Global) -> [Shown; 9] {
    let mut store = store(rt, alloc, memory(rt, alloc), ALL);
    let all = all_shown_by(rt, &mut store);
    drop(store);
    all
}

/// The update from a call on, as far as the flash goes; how many calls were made by then.
fn updated(rt: &impl Abort, store: &mut Store, from: usize) -> usize {
    for (number, call) in UPDATE.iter().enumerate() {
        if number >= from && !made(rt, store, *call) {
            return number;
        }
    }
    UPDATE.len()
}

/// A store whose flash was stopped is down and has no session, also where it gets power again.
fn stays_down(rt: &impl Abort, store: &mut Store) {
    assert!(rt; store.is_down() && !power(rt, store));
    assert!(rt; received(store, 3) == None);
}

/// Power after a stop in the call `at`; the call from which the update goes on. The sessions are as before that one or
/// after it, or, where it sets one up or ends one, with none at its index.
fn resumes(rt: &impl Abort, store: &mut Store, all: &[Shown; 9], at: usize) -> usize {
    assert!(rt; power(rt, store));
    assert!(rt; at <= 8);
    let shown = shows(store);
    let behind = if at < 8 { at + 1 } else { at };
    if shown == all[behind] {
        return behind;
    }
    let is_setup = at < 8 && matches!(UPDATE[at], Call::Setup(_) | Call::Delete(_));
    assert!(rt; shown == all[at] || is_setup);
    at
}

/// The update with a flash that is stopped, from its first power on; how many calls were made by then.
fn goes_as_far(rt: &impl Abort, first: &mut Store) -> usize {
    let at = if power(rt, first) {
        updated(rt, first, 0)
    } else {
        0
    };
    if at < 8 {
        stays_down(rt, first);
    } else {
        assert!(rt; !first.is_down());
    }
    at
}

/// The update goes on after a stop in the call `at`, to its end.
fn ends(rt: &impl Abort, again: &mut Store, all: &[Shown; 9], at: usize) {
    let from = resumes(rt, again, all, at);
    assert!(rt; updated(rt, again, from) == 8);
    assert!(rt; is_done(again));
}

/// The update with a flash that is stopped after so many calls, and power after it; true where no call was stopped.
fn goes_on(rt: &impl Abort, alloc: Global, all: &[Shown; 9], calls: u64) -> bool {
    let mut first = store(rt, alloc, memory(rt, alloc), calls);
    let at = goes_as_far(rt, &mut first);
    let mut again = over(rt, alloc, first);
    ends(rt, &mut again, all, at);
    drop(again);
    at == 8
}

#[test]
fn an_update_goes_on_after_a_stop_at_any_call(rt: HostRuntime) {
    let all = all_shown(&rt, rt.alloc());
    for calls in 0..1_000 {
        if goes_on(&rt, rt.alloc(), &all, calls) {
            assert!(&rt; calls > 35);
            return;
        }
    }
    panic!(&rt; "it never ends");
}
