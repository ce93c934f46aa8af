//! A receiver, by payloads that were worked out by hand.

use super::{FILE, SETUP};
use frag_session::SetupReq;
use sample_receiver::{Receiver, file, hear, receiver, set_up};
use std::alloc::Global;
use std::process::Abort;
use std::test::*;

fn begun(rt: &impl Abort, alloc: Global) -> Receiver {
    match receiver(alloc) {
        Ok(receiver) => receiver,
        Err(_) => panic!(rt; "no memory"),
    }
}

/// Pieces 1 and 3 of session 0, piece 2 of session 1, two commands, and no fragment.
static HEARD: [&[u8]; 5] = [
    &[0x08, 0x01, 0x00, 0x11, 0x22],
    &[0x08, 0x03, 0x00, 0x55, 0x00],
    &[0x08, 0x02, 0x40, 0x33, 0x44],
    &[0x00, 0x08, 0x02, 0x00, 0x33, 0x44],
    &[],
];

fn is_whole(receiver: &Receiver) -> bool {
    match file(receiver) {
        Some(bytes) => bytes == FILE.as_slice(),
        None => false,
    }
}

#[test]
fn two_pieces_and_a_coded_fragment_are_a_file(rt: HostRuntime) {
    let mut receiver = begun(&rt, rt.alloc());
    assert!(rt; set_up(&mut receiver, SETUP) == 0);
    for payload in &HEARD {
        hear(&mut receiver, payload, 1);
        assert!(rt; file(&receiver).is_none());
    }
    // coded fragment 1 of 3 pieces, in whose line is piece 2
    hear(&mut receiver, &[0x08, 0x04, 0x00, 0x33, 0x44], 2);
    assert!(rt; is_whole(&receiver));
    drop(receiver);
}

/// A setup of so many pieces of so many bytes.
fn of_pieces(nb_frag: u16, frag_size: u8) -> SetupReq {
    SetupReq {
        nb_frag,
        frag_size,
        ..SETUP
    }
}

#[test]
fn what_has_no_room_is_refused(rt: HostRuntime) {
    let mut receiver = begun(&rt, rt.alloc());
    assert!(rt; set_up(&mut receiver, SETUP) == 0);
    assert!(rt; set_up(&mut receiver, SetupReq { index: 1, ..SETUP }) == 4);
    assert!(rt; set_up(&mut receiver, SetupReq { algo: 1, ..SETUP }) == 1);
    assert!(rt; set_up(&mut receiver, of_pieces(257, 48)) == 2);
    assert!(rt; set_up(&mut receiver, of_pieces(256, 48)) == 0);
    assert!(rt; set_up(&mut receiver, of_pieces(200, 51)) == 2);
    drop(receiver);
}
