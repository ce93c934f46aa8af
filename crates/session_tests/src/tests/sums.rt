//! Sums of every length from 0 to 300. What is added differs at each place by the same, so that a byte added elsewhere shows.

ghost use Rattle.std.specs.Prelude.{◌≤◌};

use row_arena::{xor_bytes, xor_words};
use std::test::*;

/// Bytes, each other than its neighbours.
fn some_bytes(first: u8) -> [u8; 300] {
    let mut bytes = [0; 300];
    for (i, byte) in bytes.iter_mut().enumerate() {
        *byte = (i % 251) as u8 ^ first;
    }
    bytes
}

/// Words, each other than its neighbours.
fn some_words(first: u64) -> [u64; 300] {
    let mut words = [0; 300];
    for (i, word) in words.iter_mut().enumerate() {
        *word = i as u64 ^ first;
    }
    words
}

const BYTE: u8 = 0xa5;

const OTHER_BYTE: u8 = 0x3c;

const WORD: u64 = 0xa5a5_a5a5_0000_0000;

const OTHER_WORD: u64 = 0x3c3c_0000_0000_3c3c;

/// Whether so many bytes are added each to its own: each is then the same.
fn adds_bytes(n: usize) -> bool
    requires { n ≤ 300 }
{
    let mut sum = some_bytes(OTHER_BYTE);
    xor_bytes(&mut sum[..n], &some_bytes(BYTE)[..n]);
    for byte in &sum[..n] {
        if *byte != BYTE ^ OTHER_BYTE {
            return false;
        }
    }
    true
}

/// The same of words.
fn adds_words(n: usize) -> bool
    requires { n ≤ 300 }
{
    let mut sum = some_words(OTHER_WORD);
    xor_words(&mut sum[..n], &some_words(WORD)[..n]);
    for word in &sum[..n] {
        if *word != WORD ^ OTHER_WORD {
            return false;
        }
    }
    true
}

#[test]
fn sums_of_every_length(rt: HostRuntime) {
    for n in 0..301 {
        assert!(rt; adds_bytes(n) && adds_words(n));
    }
}
