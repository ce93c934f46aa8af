//! The payloads of a file of three pieces, the last of one byte, and what is no file.

ghost use Rattle.std.specs.Prelude.{◌≡◌};

use frag_encoder::{Encoder, EncoderError};
use sample_sender::{fragment, sender, setup};
use std::alloc::Global;
use std::process::Abort;
use std::test::*;

/// The bytes 0 to 96: two pieces of 48, and one more byte.
fn file() -> [u8; 97] {
    let mut file = [0; 97];
    for (place, byte) in file.iter_mut().enumerate() {
        *byte = place as u8;
    }
    file
}

fn made(rt: &impl Abort, alloc: Global, file: &[u8]) -> Encoder
    ensures { result.frag_size ≡ 48 }
{
    match sender(alloc, file) {
        Ok(encoder) => encoder,
        Err(_) => panic!(rt; "no encoder"),
    }
}

/// The fragment has 51 bytes, of which these are the first.
fn begins(rt: &impl Abort, encoder: &Encoder, n: u16, front: &[u8; 4])
    requires { encoder.now.frag_size ≡ 48 }
{
    match fragment(encoder, n) {
        Some(payload) => {
            let bytes = payload.as_slice();
            assert!(rt; bytes.len() == 51 && &bytes[..4] == front.as_slice());
        }
        None => panic!(rt; "no fragment"),
    }
}

/// The number with the session's index in the two bits above, and the first data byte.
static FRONTS: [(u16, [u8; 4]); 4] = [
    (1, [0x08, 0x01, 0x00, 0]),
    (2, [0x08, 0x02, 0x00, 48]),
    (3, [0x08, 0x03, 0x00, 96]),
    (4, [0x08, 0x04, 0x00, 48]),
];

static SETUP: [u8; 11] = [0x02, 0x00, 3, 0, 48, 0, 47, 4, 3, 2, 1];

#[test]
fn a_file_is_set_up_and_sent(rt: HostRuntime) {
    let encoder = made(&rt, rt.alloc(), &file());
    assert!(rt; encoder.file().len() == 97);
    assert!(rt; setup(&encoder, 0x01020304).as_slice() == SETUP.as_slice());
    for (n, front) in &FRONTS {
        begins(&rt, &encoder, *n, front);
    }
    assert!(rt; fragment(&encoder, 19).is_some());
    assert!(rt; fragment(&encoder, 0).is_none());
    assert!(rt; fragment(&encoder, 20).is_none());
    assert!(rt; fragment(&encoder, 65535).is_none());
    drop(encoder);
}

/// Whether the file is refused for its length.
fn is_refused(rt: &impl Abort, alloc: Global, file: &[u8]) -> bool {
    match sender(alloc, file) {
        Ok(encoder) => {
            drop(encoder);
            false
        }
        Err(EncoderError::BadSize) => true,
        Err(_) => panic!(rt; "no memory"),
    }
}

#[test]
fn what_is_no_file_is_refused(rt: HostRuntime) {
    assert!(rt; is_refused(&rt, rt.alloc(), &[]));
    assert!(rt; is_refused(&rt, rt.alloc(), &[0; 196609]));
    assert!(rt; !is_refused(&rt, rt.alloc(), &[0; 196608]));
}
