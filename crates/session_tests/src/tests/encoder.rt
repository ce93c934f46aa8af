//! Fragments of a file, by hand, of an image, and as the plain program gives them.

ghost use Rattle.std.specs.Prelude.{◌≤◌};

use crate::tests::common::IMAGE;
use arrayvec::ArrayVec;
use frag_encoder::{Encoder, EncoderError};
use frag_model::lines::{MAX_PARITY_INDEX, plain_line};
use std::alloc::Global;
use std::process::Abort;
use std::test::*;

/// An encoder of a file that can be cut so.
fn encoder(rt: &impl Abort, alloc: Global, file: &[u8], frag_size: u8) -> Encoder {
    match Encoder::new(alloc, file, frag_size) {
        Ok(encoder) => encoder,
        Err(_) => panic!(rt; "no encoder"),
    }
}

/// The file is cut into so many pieces, with so much padding.
fn is_cut(rt: &impl Abort, alloc: Global, file: &[u8], frag_size: u8, nb_frag: u16, padding: u8) {
    let encoder = encoder(rt, alloc, file, frag_size);
    assert!(rt; encoder.nb_frag() == nb_frag && encoder.padding() == padding);
    drop(encoder);
}

/// The file has no pieces of this size.
fn is_uncut(rt: &impl Abort, alloc: Global, file: &[u8], frag_size: u8) {
    match Encoder::new(alloc, file, frag_size) {
        Ok(encoder) => {
            drop(encoder);
            panic!(rt; "it is cut");
        }
        Err(error) => assert!(rt; error == EncoderError::BadSize),
    }
}

#[test]
fn a_file_is_cut_as_its_sizes_say(rt: HostRuntime) {
    let zeros = [0; 8191];
    is_cut(&rt, rt.alloc(), &[7], 239, 1, 238);
    is_cut(&rt, rt.alloc(), &[7], 1, 1, 0);
    is_cut(&rt, rt.alloc(), &IMAGE, 13, 4, 0);
    is_cut(&rt, rt.alloc(), &IMAGE, 10, 6, 8);
    is_cut(&rt, rt.alloc(), &IMAGE, 51, 2, 50);
    is_cut(&rt, rt.alloc(), &zeros[..4096], 1, 4096, 0);
    is_cut(&rt, rt.alloc(), &zeros, 2, 4096, 1);
}

#[test]
fn a_size_that_makes_no_pieces_is_refused(rt: HostRuntime) {
    is_uncut(&rt, rt.alloc(), &[], 13);
    is_uncut(&rt, rt.alloc(), &[7], 0);
    is_uncut(&rt, rt.alloc(), &[7], 240);
    is_uncut(&rt, rt.alloc(), &[7], 255);
    is_uncut(&rt, rt.alloc(), &[0; 4097], 1);
}

/// Fragment `n` of the file 11 22 33 44 55 in pieces of `frag_size` bytes is this; there is none where it is empty.
fn is_part(rt: &impl Abort, alloc: Global, frag_size: u8, n: u16, part: &[u8]) {
    let encoder = encoder(rt, alloc, &[0x11, 0x22, 0x33, 0x44, 0x55], frag_size);
    let mut out = ArrayVec::new();
    let is_made = encoder.fragment(n, &mut out).is_ok();
    drop(encoder);
    assert!(rt; is_made == !part.is_empty() && out.as_slice() == part);
}

/// A size of pieces, a number, and the fragment.
static PARTS: [(u8, u16, &[u8]); 16] = [
    (1, 0, &[]),
    (1, 1, &[0x11]),
    (1, 5, &[0x55]),
    (2, 1, &[0x11, 0x22]),
    (2, 3, &[0x55, 0]),
    (2, 4, &[0x33, 0x44]),
    (3, 1, &[0x11, 0x22, 0x33]),
    (3, 2, &[0x44, 0x55, 0]),
    (3, 3, &[0x44, 0x55, 0]),
    (5, 1, &[0x11, 0x22, 0x33, 0x44, 0x55]),
    (5, 2, &[0, 0, 0, 0, 0]),
    (5, 8381, &[0, 0, 0, 0, 0]),
    (5, 8382, &[]),
    (1, 8386, &[]),
    (5, 65535, &[]),
    (5, 0, &[]),
];

#[test]
fn fragments_worked_out_by_hand(rt: HostRuntime) {
    for (frag_size, n, part) in &PARTS {
        is_part(&rt, rt.alloc(), *frag_size, *n, *part);
    }
}

/// Coded fragments of `IMAGE` in pieces of 13 bytes.
static CODED: [(u16, [u8; 13]); 5] = [
    (
        5,
        [
            0x07, 0x15, 0x97, 0x10, 0xaf, 0x23, 0x23, 0xb0, 0x03, 0x63, 0xa3, 0x96, 0x17,
        ],
    ),
    (
        6,
        [
            0x07, 0x15, 0x97, 0x10, 0xaf, 0x23, 0x23, 0xb0, 0x03, 0x63, 0xa3, 0x96, 0x17,
        ],
    ),
    (
        7,
        [
            0x79, 0x9c, 0xb4, 0x10, 0x45, 0x19, 0xe4, 0xbf, 0x9a, 0xac, 0xae, 0x88, 0x22,
        ],
    ),
    (
        8,
        [
            0x42, 0x40, 0xde, 0x5d, 0x14, 0x5a, 0x35, 0x0f, 0x8c, 0x60, 0x6c, 0x7c, 0x56,
        ],
    ),
    (
        11,
        [
            0x7a, 0x9c, 0xb4, 0x10, 0xff, 0x61, 0xf2, 0x00, 0x15, 0xad, 0x61, 0x62, 0x63,
        ],
    ),
];

fn is_bytes(out: &ArrayVec<u8, 239>, part: &[u8; 13]) -> bool {
    out.as_slice() == part.as_slice()
}

/// The fragment is this; one that doesn't exist leaves it unchanged.
fn is_coded(rt: &impl Abort, encoder: &Encoder, n: u16, part: &[u8; 13]) {
    let mut out = ArrayVec::new();
    let is_made = encoder.fragment(n, &mut out).is_ok();
    assert!(rt; is_made && is_bytes(&out, part));
    let is_made = encoder.fragment(0, &mut out).is_ok();
    assert!(rt; !is_made && is_bytes(&out, part));
}

#[test]
fn coded_fragments_of_an_image(rt: HostRuntime) {
    let encoder = encoder(&rt, rt.alloc(), &IMAGE, 13);
    for (n, part) in &CODED {
        is_coded(&rt, &encoder, *n, part);
    }
    drop(encoder);
}

/// The XOR of the bytes at one place of the pieces in the line, zeros after the file.
fn plain_byte(file: &[u8], line: &[bool], frag_size: u8, place: usize) -> u8 {
    let mut byte = 0;
    let mut at = place;
    for column in line {
        if *column {
            byte ^= file.get(at).copied().unwrap_or(0);
        }
        at = at.saturating_add(frag_size as usize);
    }
    byte
}

/// Whether coded fragment `n` of the encoder's file is the one that the plain program gives.
fn agrees(encoder: &Encoder, file: &[u8], frag_size: u8, n: u16) -> bool
    requires first { 1 ≤ n }
    requires last { n ≤ MAX_PARITY_INDEX }
{
    let cols = encoder.nb_frag();
    let mut line = [false; 4096];
    let line = &mut line[..cols as usize];
    plain_line(n, cols, line);
    let mut out = ArrayVec::new();
    if encoder.fragment(cols + n, &mut out).is_err() {
        return false;
    }
    for (place, byte) in out.as_slice().iter().enumerate() {
        if *byte != plain_byte(file, line, frag_size, place) {
            return false;
        }
    }
    true
}

static NUMBERS: [u16; 5] = [1, 2, 9, 4096, 8380];

/// Coded fragments of the first bytes are those that the plain program gives.
fn each_agrees(rt: &impl Abort, alloc: Global, bytes: &[u8], len: usize, frag_size: u8) {
    assert!(rt; len <= bytes.len());
    let file = &bytes[..len];
    let encoder = encoder(rt, alloc, file, frag_size);
    for n in &NUMBERS {
        assert!(rt; 1 <= *n && *n <= MAX_PARITY_INDEX);
        assert!(rt; agrees(&encoder, file, frag_size, *n));
    }
    drop(encoder);
}

fn some_bytes() -> [u8; 8192] {
    let mut bytes = [0; 8192];
    for (i, byte) in bytes.iter_mut().enumerate() {
        *byte = (i * 37 % 251) as u8;
    }
    bytes
}

/// Lengths of files, and sizes of pieces.
static SIZES: [(usize, u8); 7] = [
    (1, 1),
    (64, 1),
    (65, 1),
    (4096, 1),
    (1000, 8),
    (8191, 2),
    (8192, 239),
];

#[test]
fn coded_fragments_as_the_plain_program_gives_them(rt: HostRuntime) {
    let bytes = some_bytes();
    for (len, frag_size) in &SIZES {
        each_agrees(&rt, rt.alloc(), &bytes, *len, *frag_size);
    }
}
