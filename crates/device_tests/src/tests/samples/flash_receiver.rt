//! A receiver over the tests' own part, stopped between any two of its calls and started again.

ghost use Rattle.std.specs.Prelude.{◌≡◌, ◌≤◌, length};
ghost use Rattle.wire_base.specs.Payload.{max_payload};
ghost use Rattle.sample_receiver.specs.HeldReceiver.{extent};
ghost use Rattle.sample_flash_receiver.specs.HeldReceiver.{IsReceiver};

use super::{FILE, SETUP};
use sample_flash_receiver::{
    Arena, Driver, Part, Receiver, SPAN, arena, file, hear, set_up, start,
};
use std::alloc::Global;
use std::process::Abort;
use std::test::*;

/// A part in memory. Once its calls are spent it fails, until it is given more.
#[derive(Drop)]
struct Ram {
    bytes: Vec<u8>,
    calls: u32,
}

impl Ram {
    fn passes(&mut self) -> bool {
        if self.calls == 0 {
            return false;
        }
        self.calls -= 1;
        true
    }
}

impl Driver for Ram {
    fn read(&mut self, at: u32, buf: &mut [u8]) -> bool {
        if !self.passes() {
            return false;
        }
        for i in 0..buf.len() {
            if let Some(byte) = self.bytes.get(at as usize + i) {
                buf[i] = *byte;
            }
        }
        true
    }

    fn write(&mut self, at: u32, piece: &[u8]) -> bool {
        if !self.passes() {
            return false;
        }
        for i in 0..piece.len() {
            if let Some(byte) = self.bytes.get_mut(at as usize + i) {
                *byte = piece[i];
            }
        }
        true
    }

    fn clear(&mut self, at: u32, n: u32) -> bool {
        if !self.passes() {
            return false;
        }
        for i in 0..n as usize {
            if let Some(byte) = self.bytes.get_mut(at as usize + i) {
                *byte = 0;
            }
        }
        true
    }

    fn settle(&mut self) -> bool {
        self.passes()
    }
}

/// Pieces 1 and 3 of session 0, piece 2 of session 1, no fragment, and coded fragment 1, in whose line piece 2 is.
static PIECE_ONE: [u8; 5] = [0x08, 0x01, 0x00, 0x11, 0x22];

static PIECE_THREE: [u8; 5] = [0x08, 0x03, 0x00, 0x55, 0x00];

static OF_ANOTHER: [u8; 5] = [0x08, 0x02, 0x40, 0x33, 0x44];

static NO_FRAGMENT: [u8; 1] = [0x00];

static CODED: [u8; 5] = [0x08, 0x04, 0x00, 0x33, 0x44];

/// Calls of the part that no test reaches.
const ENOUGH: u32 = 1_000_000;

fn part_of(rt: &impl Abort, alloc: Global, calls: u32) -> Part<Ram> {
    match vec![in alloc; 0u8; SPAN as usize] {
        Ok(bytes) => Part {
            driver: Ram { bytes, calls },
            failed: 0,
        },
        Err(_) => panic!(rt; "no memory"),
    }
}

/// All memory of a receiver.
fn empty(rt: &impl Abort, alloc: Global) -> Arena
    ensures { result ≡ extent }
{
    match arena(alloc) {
        Ok(empty) => empty,
        Err(_) => panic!(rt; "no memory"),
    }
}

/// The part works again, and is opened.
fn started(rt: &impl Abort, part: &mut Part<Ram>, empty: Arena) -> Receiver
    requires { empty ≡ extent }
    ensures { IsReceiver result }
{
    part.driver.calls = ENOUGH;
    match start(part, empty) {
        Ok(receiver) => receiver,
        Err(_) => panic!(rt; "the part is not opened"),
    }
}

/// The setup, once more where the part failed in it.
fn begun(rt: &impl Abort, receiver: Receiver, part: &mut Part<Ram>) -> Receiver
    requires { IsReceiver receiver }
    ensures { IsReceiver result }
{
    let empty = match set_up(receiver, part, SETUP) {
        Ok((receiver, bits)) => {
            assert!(rt; bits == 0);
            return receiver;
        }
        Err(empty) => empty,
    };
    let receiver = started(rt, part, empty);
    match set_up(receiver, part, SETUP) {
        Ok((receiver, _)) => receiver,
        Err(_) => panic!(rt; "the part failed twice"),
    }
}

/// A payload, once more where the part failed in it.
fn heard(rt: &impl Abort, receiver: Receiver, part: &mut Part<Ram>, payload: &[u8]) -> Receiver
    requires receiver { IsReceiver receiver }
    requires short { length payload.now ≤ max_payload }
    ensures { IsReceiver result }
{
    let empty = match hear(receiver, part, payload, 1) {
        Ok(receiver) => return receiver,
        Err(empty) => empty,
    };
    let receiver = started(rt, part, empty);
    match hear(receiver, part, payload, 1) {
        Ok(receiver) => receiver,
        Err(_) => panic!(rt; "the part failed twice"),
    }
}

/// The first start, once more where the part failed in it.
fn first(rt: &impl Abort, part: &mut Part<Ram>, empty: Arena) -> Receiver
    requires { empty ≡ extent }
    ensures { IsReceiver result }
{
    match start(part, empty) {
        Ok(receiver) => receiver,
        Err((empty, _)) => started(rt, part, empty),
    }
}

/// What leaves piece 2 missing.
fn heard_most(rt: &impl Abort, receiver: Receiver, part: &mut Part<Ram>) -> Receiver
    requires { IsReceiver receiver }
    ensures { IsReceiver result }
{
    let receiver = heard(rt, receiver, part, &PIECE_ONE);
    let receiver = heard(rt, receiver, part, &PIECE_THREE);
    let receiver = heard(rt, receiver, part, &OF_ANOTHER);
    let receiver = heard(rt, receiver, part, &NO_FRAGMENT);
    assert!(rt; file(&receiver).is_none());
    receiver
}

fn is_whole(receiver: &Receiver) -> bool {
    match file(receiver) {
        Some(bytes) => bytes == FILE.as_slice(),
        None => false,
    }
}

/// Receives the file, which is whole at the end.
fn receives(rt: &impl Abort, part: &mut Part<Ram>, empty: Arena)
    requires { empty ≡ extent }
{
    let receiver = first(rt, part, empty);
    let receiver = begun(rt, receiver, part);
    let receiver = heard_most(rt, receiver, part);
    let receiver = heard(rt, receiver, part, &CODED);
    assert!(rt; is_whole(&receiver));
    drop(receiver);
}

/// Over a part that fails once, after so many calls: how often it failed.
fn received(rt: &impl Abort, alloc: Global, calls: u32) -> u64 {
    let mut part = part_of(rt, alloc, calls);
    receives(rt, &mut part, empty(rt, alloc));
    let failed = part.failed;
    drop(part);
    failed
}

#[test]
fn a_file_outlasts_a_stop_at_any_call(rt: HostRuntime) {
    // a start reads after a sync, a setup makes five calls, and each of three fragments two writes with a sync after each
    let all = 2 + 5 + 3 * 4;
    for calls in 0..all {
        assert!(rt; received(&rt, rt.alloc(), calls) == 1);
    }
    assert!(rt; received(&rt, rt.alloc(), all) == 0);
}
