//! Calls that are stopped at each call of the flash, bytes that a stop tears, places that are foreign, and each public call.

ghost use Rattle.std.specs.Prelude.{◌≡◌, ◌+◌, ◌≤◌, IfOk};
ghost use Rattle.std.specs.Bool.{OnTrue};

use crate::tests::common::{LIMITS, SETUP};
use flash_session::{CellFlash, Flash, Held, MemFlash, OpenFault, StopFlash};
use frag_session::{Cause, Heard, Idle, News, SetupReq, Verdict, Via};
use row_elimination::Solver;
use std::alloc::Global;
use std::process::Abort;
use std::test::*;

/// Storage for four rows of eight pieces of a byte.
type SmallHeld = Held<4, 4>;

type SmallIdle = Idle<4, 4>;

/// Room for the records of four fragments of a byte.
const SPAN: u32 = 24_640 + 9 * 11;

/// Room for the steps of two setups, and of what is heard in them.
const ROOM: u32 = 60_000;

/// A call of a session: a setup of so many pieces, a fragment of one byte, or a delete.
#[derive(Clone, Copy)]
enum Call {
    Setup(u16),
    Hear(u16, u8),
    Delete,
}

/// How many fragments a session received, and how many of its pieces are missing; none where there is no session.
type Shown = Option<(u16, u16)>;

/// After one fragment of four, two, and the same one twice; a session that heard nothing, and one of three pieces.
const HEARD_ONE: Shown = Some((1, 3));

const HEARD_TWO: Shown = Some((2, 2));

const HEARD_TWICE: Shown = Some((2, 3));

const NEW: Shown = Some((0, 4));

const NEW_OF_THREE: Shown = Some((0, 3));

fn solver(rt: &impl Abort, alloc: Global) -> SmallIdle {
    match Solver::reserve(alloc, 8) {
        Ok(solver) => Idle::new(solver),
        Err(_) => panic!(rt; "no memory"),
    }
}

/// Whether a session from there has room.
fn fits<F: Flash>(flash: &F, base: u32) -> bool
    ensures { OnTrue result (base + SPAN ≤ (F.seen flash.now).room) }
{
    base as u64 + SPAN as u64 <= flash.size() as u64
}

fn open_at<F: Flash>(rt: &impl Abort, flash: &mut F, base: u32, idle: SmallIdle) -> SmallHeld
    ensures base { result.base ≡ base }
    ensures span { result.span ≡ SPAN }
{
    assert!(rt; fits(flash, base));
    match Held::open(flash, base, SPAN, idle, LIMITS) {
        Ok(held) => held,
        Err(_) => panic!(rt; "it does not open"),
    }
}

fn open<F: Flash>(rt: &impl Abort, flash: &mut F, idle: SmallIdle) -> SmallHeld
    ensures base { result.base ≡ 0 }
    ensures span { result.span ≡ SPAN }
{
    open_at(rt, flash, 0, idle)
}

/// A call of the session from `base` on.
fn make<F: Flash>(
    rt: &impl Abort,
    held: SmallHeld,
    base: u32,
    flash: &mut F,
    call: Call,
) -> Result<SmallHeld, SmallIdle>
    requires base { held.base ≡ base }
    requires span { held.span ≡ SPAN }
    ensures base { IfOk result (λ h. h.base ≡ base) }
    ensures span { IfOk result (λ h. h.span ≡ SPAN) }
{
    assert!(rt; fits(flash, base));
    match call {
        Call::Setup(nb_frag) => match held.setup(flash, SetupReq { nb_frag, ..SETUP }) {
            Ok((held, _)) => Ok(held),
            Err(idle) => Err(idle),
        },
        Call::Hear(n, byte) => match held.hear(flash, Via::Unicast, n, &[byte], 7) {
            Ok((held, _)) => Ok(held),
            Err(idle) => Err(idle),
        },
        Call::Delete => match held.delete(flash) {
            Ok((held, _)) => Ok(held),
            Err(idle) => Err(idle),
        },
    }
}

/// Calls one after another; none of them fails.
fn make_each<F: Flash>(rt: &impl Abort, held: SmallHeld, flash: &mut F, calls: &[Call]) -> SmallHeld
    requires base { held.base ≡ 0 }
    requires span { held.span ≡ SPAN }
    ensures base { result.base ≡ 0 }
    ensures span { result.span ≡ SPAN }
{
    if calls.is_empty() {
        return held;
    }
    match make(rt, held, 0, flash, calls[0]) {
        Ok(held) => make_each(rt, held, flash, &calls[1..]),
        Err(_) => panic!(rt; "a call failed"),
    }
}

fn make_all<F: Flash>(rt: &impl Abort, flash: &mut F, idle: SmallIdle, calls: &[Call]) -> SmallHeld
    ensures base { result.base ≡ 0 }
    ensures span { result.span ≡ SPAN }
{
    let held = open(rt, flash, idle);
    make_each(rt, held, flash, calls)
}

fn shows(held: &SmallHeld) -> Shown {
    match held.view() {
        Some(view) => Some((view.received, view.missing)),
        None => None,
    }
}

/// Memory for a flash of so many bytes, whose calls never fail.
fn memory(rt: &impl Abort, alloc: Global, size: u32, room: u32) -> MemFlash {
    match MemFlash::reserve(alloc, size, room, Vec::new(alloc)) {
        Ok(flash) => flash,
        Err(_) => panic!(rt; "no memory"),
    }
}

/// The same for a session from 0 on, whose calls are not logged.
fn cells(rt: &impl Abort, alloc: Global) -> CellFlash {
    match CellFlash::reserve(alloc, SPAN) {
        Ok(flash) => flash,
        Err(_) => panic!(rt; "no memory"),
    }
}

/// What is left of a call that was stopped.
#[derive(Drop)]
struct Left {
    flash: MemFlash,
    idle: SmallIdle,
    done: bool,
}

/// The last call after others, stopped after `k` calls of the flash.
fn stop(rt: &impl Abort, alloc: Global, before: &[Call], last: Call, k: u64) -> Left {
    let mut flash = memory(rt, alloc, SPAN, ROOM);
    let held = make_all(rt, &mut flash, solver(rt, alloc), before);
    make_stopped(rt, held, 0, flash, last, k)
}

/// A call of the session from `base` on that is stopped after `k` calls of the flash.
fn make_stopped(
    rt: &impl Abort,
    held: SmallHeld,
    base: u32,
    flash: MemFlash,
    last: Call,
    k: u64,
) -> Left
    requires base { held.base ≡ base }
    requires span { held.span ≡ SPAN }
{
    let mut stopped = StopFlash::over(flash, k);
    let (idle, done) = match make(rt, held, base, &mut stopped, last) {
        Ok(held) => (held.close(), true),
        Err(idle) => (idle, false),
    };
    Left {
        flash: stopped.inner(),
        idle,
        done,
    }
}

/// A call after others, and what opens where it is stopped after 0, 1, 2 .. calls of the flash, up to all of them.
struct Stopped<'a> {
    before: &'a [Call],
    last: Call,
    found: &'a [Shown],
}

const ONE: [Call; 2] = [Call::Setup(4), Call::Hear(1, 0x11)];

static STOPPED: [Stopped; 9] = [
    // A record and its gate, each written and synced.
    Stopped {
        before: &ONE,
        last: Call::Hear(3, 0x33),
        found: &[HEARD_ONE, HEARD_ONE, HEARD_ONE, HEARD_TWO, HEARD_TWO],
    },
    // A gate alone.
    Stopped {
        before: &ONE,
        last: Call::Hear(1, 0x11),
        found: &[HEARD_ONE, HEARD_TWICE, HEARD_TWICE],
    },
    // One that is dropped.
    Stopped {
        before: &ONE,
        last: Call::Hear(0, 0x11),
        found: &[HEARD_ONE],
    },
    // No session before: the header's gate is not written at first.
    Stopped {
        before: &[],
        last: Call::Setup(4),
        found: &[None, None, None, None, NEW, NEW],
    },
    Stopped {
        before: &ONE,
        last: Call::Setup(3),
        found: &[
            HEARD_ONE,
            None,
            None,
            None,
            None,
            None,
            NEW_OF_THREE,
            NEW_OF_THREE,
        ],
    },
    // An equal setup, and a refused one.
    Stopped {
        before: &ONE,
        last: Call::Setup(4),
        found: &[HEARD_ONE],
    },
    Stopped {
        before: &ONE,
        last: Call::Setup(0),
        found: &[HEARD_ONE],
    },
    Stopped {
        before: &ONE,
        last: Call::Delete,
        found: &[HEARD_ONE, None, None],
    },
    // No session to delete.
    Stopped {
        before: &[],
        last: Call::Delete,
        found: &[None],
    },
];

/// Whether a session opens there that shows this.
fn opens<F: Flash>(
    rt: &impl Abort,
    flash: &mut F,
    base: u32,
    idle: SmallIdle,
    found: Shown,
) -> bool {
    let held = open_at(rt, flash, base, idle);
    let shown = shows(&held);
    drop(held);
    shown == found
}

/// What opens where the call is stopped after `k` calls of the flash; whether it was done by then.
fn opens_behind(rt: &impl Abort, alloc: Global, row: &Stopped, k: u64, found: Shown) -> bool {
    let Left {
        mut flash,
        idle,
        done,
    } = stop(rt, alloc, row.before, row.last, k);
    assert!(rt; opens(rt, &mut flash, 0, idle, found));
    drop(flash);
    done
}

fn opens_again(rt: &impl Abort, alloc: Global, row: &Stopped) {
    for (k, found) in row.found.iter().enumerate() {
        let done = opens_behind(rt, alloc, row, k as u64, *found);
        assert!(rt; done == (k + 1 == row.found.len()));
    }
}

#[test]
fn a_stop_leaves_what_was_or_what_comes(rt: HostRuntime) {
    for row in &STOPPED {
        opens_again(&rt, rt.alloc(), row);
    }
}

/// A call after others that is stopped after a call of the flash that wrote a byte, not yet synced, and what opens where that
/// byte is left open, and where it is left as any other.
struct Torn<'a> {
    before: &'a [Call],
    last: Call,
    stop: u64,
    place: u32,
    open: Shown,
    shut: Shown,
}

static TORN: [Torn; 8] = [
    // The record's number, and its gate.
    Torn {
        before: &ONE,
        last: Call::Hear(3, 0x33),
        stop: 1,
        place: 24_640 + 11,
        open: HEARD_ONE,
        shut: HEARD_ONE,
    },
    Torn {
        before: &ONE,
        last: Call::Hear(3, 0x33),
        stop: 3,
        place: 64 + 1,
        open: HEARD_TWO,
        shut: HEARD_ONE,
    },
    // The gate of a fragment that is not new.
    Torn {
        before: &ONE,
        last: Call::Hear(1, 0x11),
        stop: 1,
        place: 8257,
        open: HEARD_TWICE,
        shut: HEARD_ONE,
    },
    // The header's gate, closed and opened, and others between.
    Torn {
        before: &ONE,
        last: Call::Setup(3),
        stop: 1,
        place: 0,
        open: HEARD_ONE,
        shut: None,
    },
    Torn {
        before: &ONE,
        last: Call::Setup(3),
        stop: 3,
        place: 64,
        open: None,
        shut: None,
    },
    Torn {
        before: &ONE,
        last: Call::Setup(3),
        stop: 6,
        place: 0,
        open: NEW_OF_THREE,
        shut: None,
    },
    Torn {
        before: &[],
        last: Call::Setup(4),
        stop: 4,
        place: 0,
        open: NEW,
        shut: None,
    },
    Torn {
        before: &ONE,
        last: Call::Delete,
        stop: 1,
        place: 0,
        open: HEARD_ONE,
        shut: None,
    },
];

fn poke<F: Flash>(rt: &impl Abort, flash: &mut F, place: u32, byte: u8) {
    assert!(rt; place < flash.size());
    assert!(rt; flash.write(place, &[byte]).is_ok());
}

/// Whether the flash has the byte.
fn has<F: Flash>(rt: &impl Abort, flash: &mut F, place: u32, byte: u8) -> bool {
    let mut bytes = [0];
    assert!(rt; place < flash.size());
    assert!(rt; flash.read(place, &mut bytes).is_ok());
    bytes == [byte]
}

/// Whether the flashes differ there.
fn differs<F: Flash>(rt: &impl Abort, one: &mut F, other: &mut F, place: u32) -> bool {
    for byte in 0..=255u8 {
        if has(rt, one, place, byte) {
            return !has(rt, other, place, byte);
        }
    }
    false
}

/// It opens with each byte at the place.
fn opens_with_each_byte(rt: &impl Abort, alloc: Global, flash: &mut MemFlash, row: &Torn) {
    for byte in 0..=255u8 {
        poke(rt, flash, row.place, byte);
        let found = if byte == 0xa5 { row.open } else { row.shut };
        assert!(rt; opens(rt, flash, 0, solver(rt, alloc), found));
    }
}

/// The flash that is left of the torn call, stopped after so many calls of the flash.
fn left_flash(rt: &impl Abort, alloc: Global, row: &Torn, calls: u64) -> MemFlash {
    let Left {
        flash,
        idle,
        done: _done,
    } = stop(rt, alloc, row.before, row.last, calls);
    drop(idle);
    flash
}

fn opens_torn(rt: &impl Abort, alloc: Global, row: &Torn) {
    let mut one_call_less = left_flash(rt, alloc, row, row.stop.saturating_sub(1));
    let mut flash = left_flash(rt, alloc, row, row.stop);
    assert!(rt; differs(rt, &mut one_call_less, &mut flash, row.place));
    opens_with_each_byte(rt, alloc, &mut flash, row);
    drop(one_call_less);
    drop(flash);
}

#[test]
fn any_byte_that_a_stop_leaves_opens(rt: HostRuntime) {
    for row in &TORN {
        opens_torn(&rt, rt.alloc(), row);
    }
}

/// Bytes that are written over a session with records 1 and 3, and the place that is foreign then.
struct Foreign<'a> {
    bytes: &'a [(u32, u8)],
    place: Option<u32>,
}

static FOREIGN: [Foreign; 13] = [
    // Another coding, and one piece more than there is room for.
    Foreign {
        bytes: &[(5, 8)],
        place: Some(1),
    },
    Foreign {
        bytes: &[(2, 5)],
        place: Some(1),
    },
    // A record's gate after one that is closed, the last that counts, and the first that does not.
    Foreign {
        bytes: &[(64 + 3, 0xa5)],
        place: Some(64 + 3),
    },
    Foreign {
        bytes: &[(64 + 8, 0xa5)],
        place: Some(64 + 8),
    },
    Foreign {
        bytes: &[(64 + 9, 0xa5)],
        place: None,
    },
    // The first tally's gate is closed; the last one's is open.
    Foreign {
        bytes: &[(8257 + 1, 0xa5)],
        place: Some(8257 + 1),
    },
    Foreign {
        bytes: &[(8257 + 16_382, 0xa5)],
        place: Some(8257 + 16_382),
    },
    // The number 0, one beyond all, and one that was heard.
    Foreign {
        bytes: &[(24_640 + 11, 0)],
        place: Some(24_640 + 11),
    },
    Foreign {
        bytes: &[(24_640 + 12, 0xff)],
        place: Some(24_640 + 11),
    },
    Foreign {
        bytes: &[(24_640 + 11, 1), (24_640 + 21, 0x11)],
        place: Some(24_640 + 11),
    },
    // Two at once: the lower one is named.
    Foreign {
        bytes: &[(24_640, 0), (8257 + 5, 0xa5)],
        place: Some(8257 + 5),
    },
    Foreign {
        bytes: &[(8257 + 5, 0xa5), (64 + 4, 0xa5), (64 + 6, 0xa5)],
        place: Some(64 + 4),
    },
    // Without a session nothing is foreign.
    Foreign {
        bytes: &[(0, 0xa4), (5, 8), (64 + 3, 0xa5)],
        place: None,
    },
];

/// The place that is foreign to a session from 0 on.
fn foreign_place(rt: &impl Abort, flash: &mut CellFlash, idle: SmallIdle) -> Option<u32> {
    assert!(rt; fits(flash, 0));
    match Held::open(flash, 0, SPAN, idle, LIMITS) {
        Ok(held) => {
            drop(held);
            None
        }
        Err((idle, fault)) => {
            drop(idle);
            place_of(rt, fault)
        }
    }
}

fn place_of(rt: &impl Abort, fault: OpenFault) -> Option<u32> {
    match fault {
        OpenFault::Foreign(place) => Some(place),
        _ => panic!(rt; "a call of the flash"),
    }
}

static WRITTEN: [Call; 3] = [Call::Setup(4), Call::Hear(1, 0x11), Call::Hear(3, 0x33)];

/// Writes bytes over what a session with records 1 and 3 wrote.
fn writes_over(rt: &impl Abort, alloc: Global, flash: &mut CellFlash, row: &Foreign) -> SmallIdle {
    let idle = make_all(rt, flash, solver(rt, alloc), &WRITTEN).close();
    for (place, byte) in row.bytes {
        poke(rt, flash, *place, *byte);
    }
    idle
}

fn is_foreign(rt: &impl Abort, alloc: Global, row: &Foreign) {
    let mut flash = cells(rt, alloc);
    let idle = writes_over(rt, alloc, &mut flash, row);
    assert!(rt; foreign_place(rt, &mut flash, idle) == row.place);
    drop(flash);
}

#[test]
fn the_lowest_foreign_place_is_named(rt: HostRuntime) {
    for row in &FOREIGN {
        is_foreign(&rt, rt.alloc(), row);
    }
}

/// A setup of another algorithm is refused.
fn refuses(rt: &impl Abort, flash: &mut CellFlash, held: SmallHeld) -> SmallHeld
    requires base { held.base ≡ 0 }
    requires span { held.span ≡ SPAN }
    ensures base { result.base ≡ 0 }
    ensures span { result.span ≡ SPAN }
{
    assert!(rt; fits(flash, 0));
    match held.setup(flash, SetupReq { algo: 1, ..SETUP }) {
        Ok((held, bits)) => {
            assert!(rt; bits == 1);
            held
        }
        Err(_) => panic!(rt; "the setup failed"),
    }
}

/// There is no session that hears.
fn is_deaf(rt: &impl Abort, flash: &mut CellFlash, held: SmallHeld) -> SmallIdle
    requires base { held.base ≡ 0 }
    requires span { held.span ≡ SPAN }
{
    assert!(rt; fits(flash, 0));
    match held.hear(flash, Via::Unicast, 1, &[0x11], 5) {
        Ok((held, heard)) => {
            assert!(rt; heard == Heard::Dropped(Cause::NoSession));
            held.close()
        }
        Err(_) => panic!(rt; "the fragment failed"),
    }
}

/// The last piece comes, and this is its answer.
fn hears_last(
    rt: &impl Abort,
    flash: &mut CellFlash,
    held: SmallHeld,
    mark: u64,
    news: News,
) -> SmallHeld
    requires base { held.base ≡ 0 }
    requires span { held.span ≡ SPAN }
    ensures base { result.base ≡ 0 }
    ensures span { result.span ≡ SPAN }
{
    assert!(rt; fits(flash, 0));
    match held.hear(flash, Via::Unicast, 4, &[0x44], mark) {
        Ok((held, heard)) => {
            assert!(rt; heard == Heard::Fed(news));
            held
        }
        Err(_) => panic!(rt; "the fragment failed"),
    }
}

/// Whether four pieces are whole by six fragments, at mark 9.
fn is_whole(held: &SmallHeld) -> bool {
    match (held.view(), held.status(Via::Unicast, true)) {
        (Some(view), Some(status)) => {
            view.received == 6
                && view.missing == 0
                && view.verdict == Verdict::Complete(9)
                && view.file == [0x11, 0x22, 0x33, 0x44].as_slice()
                && status.received == 6
        }
        _ => false,
    }
}

fn is_deleted(rt: &impl Abort, flash: &mut CellFlash, held: SmallHeld) -> SmallIdle
    requires base { held.base ≡ 0 }
    requires span { held.span ≡ SPAN }
{
    assert!(rt; fits(flash, 0));
    let Ok((held, lived)) = held.delete(flash) else {
        panic!(rt; "the delete failed");
    };
    assert!(rt; lived);
    held.close()
}

static ALL_BUT_ONE: [Call; 5] = [
    Call::Setup(4),
    Call::Hear(1, 0x11),
    Call::Hear(2, 0x22),
    Call::Hear(2, 0x22),
    Call::Hear(3, 0x33),
];

/// The memory of a session that is whole.
fn is_whole_again(rt: &impl Abort, flash: &mut CellFlash, idle: SmallIdle) -> SmallIdle {
    let held = open(rt, flash, idle);
    assert!(rt; is_whole(&held));
    is_deleted(rt, flash, held)
}

#[test]
fn a_session_is_whole_is_deleted_and_begins_again(rt: HostRuntime) {
    let mut flash = cells(&rt, rt.alloc());
    let held = open(&rt, &mut flash, solver(&rt, rt.alloc()));
    let held = refuses(&rt, &mut flash, held);
    let idle = is_deaf(&rt, &mut flash, held);
    let held = make_all(&rt, &mut flash, idle, &ALL_BUT_ONE);
    let held = hears_last(&rt, &mut flash, held, 9, News::New);
    let held = hears_last(&rt, &mut flash, held, 10, News::Old);
    let idle = is_whole_again(&rt, &mut flash, held.close());
    assert!(rt; opens(&rt, &mut flash, 0, idle, None));
    drop(flash);
}

const COUNTED_ALL: Shown = Some((16_383, 3));

/// Opens the gates of all tallies.
fn count_all<F: Flash>(rt: &impl Abort, flash: &mut F) {
    for place in 8257..24_639 {
        poke(rt, flash, place, 0xa5);
    }
}

/// One more fragment is heard without a call of the flash, and not counted.
fn counts_no_more(rt: &impl Abort, held: SmallHeld, flash: MemFlash)
    requires base { held.base ≡ 0 }
    requires span { held.span ≡ SPAN }
{
    let mut stopped = StopFlash::over(flash, 0);
    match make(rt, held, 0, &mut stopped, Call::Hear(1, 0x11)) {
        Ok(held) => {
            assert!(rt; shows(&held) == COUNTED_ALL);
            drop(held);
        }
        Err(_) => panic!(rt; "a call of the flash"),
    }
    drop(stopped);
}

/// 16,383 fragments are counted; one more takes no call of the flash.
#[test]
fn the_count_ends(rt: HostRuntime) {
    let mut flash = memory(&rt, rt.alloc(), SPAN, ROOM);
    let idle = make_all(&rt, &mut flash, solver(&rt, rt.alloc()), &ONE).close();
    count_all(&rt, &mut flash);
    let held = open(&rt, &mut flash, idle);
    assert!(rt; shows(&held) == COUNTED_ALL);
    counts_no_more(&rt, held, flash);
}

/// Two sessions on one flash: where a call of one is stopped, the other opens as it was.
#[test]
fn a_stop_leaves_the_session_beside(rt: HostRuntime) {
    let mut flash = memory(&rt, rt.alloc(), 2 * SPAN, 2 * ROOM);
    let first = make_all(&rt, &mut flash, solver(&rt, rt.alloc()), &ONE).close();
    let second = open_at(&rt, &mut flash, SPAN, solver(&rt, rt.alloc()));
    let left = make_stopped(&rt, second, SPAN, flash, Call::Setup(3), 3);
    goes_on_beside(&rt, left, first);
}

/// The second session was stopped as it began, and goes on; the first one opens as it was.
fn goes_on_beside(rt: &impl Abort, left: Left, first: SmallIdle) {
    let Left {
        mut flash,
        idle,
        done,
    } = left;
    let first = open(rt, &mut flash, first);
    assert!(rt; !done && shows(&first) == HEARD_ONE);
    let second = open_at(rt, &mut flash, SPAN, idle);
    assert!(rt; shows(&second) == None);
    match make(rt, second, SPAN, &mut flash, Call::Setup(3)) {
        Ok(second) => ends_beside(
            rt,
            make_stopped(rt, first, 0, flash, Call::Delete, 1),
            second.close(),
        ),
        Err(_) => panic!(rt; "the setup failed"),
    }
}

/// The first session was stopped as it ends.
fn ends_beside(rt: &impl Abort, left: Left, second: SmallIdle) {
    let Left {
        mut flash,
        idle,
        done,
    } = left;
    assert!(rt; !done && opens(rt, &mut flash, SPAN, second, NEW_OF_THREE));
    assert!(rt; opens(rt, &mut flash, 0, idle, None));
    drop(flash);
}

fn writes(rt: &impl Abort, flash: &mut MemFlash, place: u32, bytes: &[u8; 2]) -> bool {
    assert!(rt; place as u64 + 2 <= flash.size() as u64);
    flash.write(place, bytes).is_ok()
}

fn fills(rt: &impl Abort, flash: &mut MemFlash, place: u32, count: u32) -> bool {
    assert!(rt; place as u64 + count as u64 <= flash.size() as u64);
    flash.fill(place, count).is_ok()
}

fn syncs(flash: &mut MemFlash) -> bool {
    flash.sync().is_ok()
}

/// Whether the first four bytes are read, and are these.
fn reads(rt: &impl Abort, flash: &mut MemFlash, wanted: &[u8; 4]) -> bool {
    let mut bytes = [7; 4];
    assert!(rt; 4 <= flash.size());
    flash.read(0, &mut bytes).is_ok() && bytes == *wanted
}

fn fails_to_read(rt: &impl Abort, flash: &mut MemFlash) -> bool {
    assert!(rt; 4 <= flash.size());
    flash.read(0, &mut [7; 4]).is_err()
}

/// Calls 2 and 6 fail, and those for which the log has no room.
fn fails_where_it_is_told_to(rt: &impl Abort, flash: &mut MemFlash) {
    assert!(rt; flash.size() == 8);
    assert!(rt; writes(rt, flash, 0, &[1, 2]));
    assert!(rt; !writes(rt, flash, 0, &[3, 4]));
    assert!(rt; syncs(flash));
    assert!(rt; !fills(rt, flash, 1, 3));
    assert!(rt; fills(rt, flash, 1, 2));
    assert!(rt; fails_to_read(rt, flash));
    assert!(rt; reads(rt, flash, &[1, 0, 0, 0]));
    assert!(rt; !syncs(flash));
}

/// The calls that fail: those that are listed, and those for which the log has no room.
#[test]
fn a_flash_in_memory_fails_where_it_is_told_to(rt: HostRuntime) -> Result<(), Fail> {
    let fails = vec![in rt.alloc(); 2, 6]?;
    let mut flash = MemFlash::reserve(rt.alloc(), 8, 5, fails)?;
    fails_where_it_is_told_to(&rt, &mut flash);
    drop(flash);
    Ok(())
}
