//! Sums of lists of numbers by XOR, in lanes over whole chunks.

ghost use Rattle.std.specs.Prelude.{◌≡◌, ℕ, List, ◌+◌, ◌<◌, ◌≤◌, length, bit_xor};
ghost use Rattle.std.specs.Simd.Lanes.{zip2};
ghost use Rattle.row_arena.specs.Rows.{line_in};
ghost use Rattle.row_arena.specs.Steps.{AddedTo, AddsRest};

use std::simd::prelude::*;

/// Adds `from` to `into`, which is as long, byte by byte.
pub fn xor_bytes(into: &mut [u8], from: &[u8])
    requires { length into.old ≡ length from.now }
    ensures { into.new ≡ zip2 bit_xor into.old from.now }
{
    if from.len() < 4 {
        rest_plain(into, from, 0);
    } else {
        in_lanes(into, from);
    }
}

/// The same, 32 bytes at a time, and then what is left.
fn in_lanes(into: &mut [u8], from: &[u8])
    requires { length into.old ≡ length from.now }
    ensures { into.new ≡ zip2 bit_xor into.old from.now }
{
    for k in 0..from.len() / 32 {
        xor_32(into, from, k * 32);
    }
    rest_16(into, from, from.len() / 32 * 32);
}

/// Adds what is left from a place on, 16 bytes first if there are so many.
fn rest_16(into: &mut [u8], from: &[u8], at: usize)
    requires same { length into.old ≡ length from.now }
    requires inside { at ≤ length from.now }
    ensures { AddsRest at from.now into.old into.new }
{
    if from.len() - at >= 16 {
        let sum = u8x16::from_slice(&into[at..]) ^ u8x16::from_slice(&from[at..]);
        sum.copy_to_slice(&mut into[at..]);
        rest_8(into, from, at + 16);
    } else {
        rest_8(into, from, at);
    }
}

/// The same, 8 bytes first.
fn rest_8(into: &mut [u8], from: &[u8], at: usize)
    requires same { length into.old ≡ length from.now }
    requires inside { at ≤ length from.now }
    ensures { AddsRest at from.now into.old into.new }
{
    if from.len() - at >= 8 {
        let sum = u8x8::from_slice(&into[at..]) ^ u8x8::from_slice(&from[at..]);
        sum.copy_to_slice(&mut into[at..]);
        rest_4(into, from, at + 8);
    } else {
        rest_4(into, from, at);
    }
}

/// The same, 4 bytes first.
fn rest_4(into: &mut [u8], from: &[u8], at: usize)
    requires same { length into.old ≡ length from.now }
    requires inside { at ≤ length from.now }
    ensures { AddsRest at from.now into.old into.new }
{
    if from.len() - at >= 4 {
        let sum = u8x4::from_slice(&into[at..]) ^ u8x4::from_slice(&from[at..]);
        sum.copy_to_slice(&mut into[at..]);
        rest_plain(into, from, at + 4);
    } else {
        rest_plain(into, from, at);
    }
}

/// Adds what is left, byte by byte.
fn rest_plain(into: &mut [u8], from: &[u8], at: usize)
    requires same { length into.old ≡ length from.now }
    requires inside { at ≤ length from.now }
    ensures { AddsRest at from.now into.old into.new }
{
    for i in at..from.len() {
        into[i] ^= from[i];
    }
}

/// Adds the 32 bytes from a place on.
fn xor_32(into: &mut [u8], from: &[u8], at: usize)
    requires same { length into.old ≡ length from.now }
    requires inside { at + 32 ≤ length from.now }
    ensures { (old : List ℕ) → AddedTo at old from.now into.old
        → AddedTo (at + 32) old from.now into.new }
{
    let sum = u8x32::from_slice(&into[at..]) ^ u8x32::from_slice(&from[at..]);
    sum.copy_to_slice(&mut into[at..]);
}

/// Adds `from` to `into`, which is as long, word by word.
pub fn xor_words(into: &mut [u64], from: &[u64])
    requires { length into.old ≡ length from.now }
    ensures sum { into.new ≡ zip2 bit_xor into.old from.now }
    ensures line { line_in into.new ≡ bit_xor (line_in into.old) (line_in from.now) }
{
    for k in 0..from.len() / 4 {
        xor_4(into, from, k * 4);
    }
    for i in from.len() / 4 * 4..from.len() {
        into[i] ^= from[i];
    }
}

/// Adds the four words from a place on.
fn xor_4(into: &mut [u64], from: &[u64], at: usize)
    requires same { length into.old ≡ length from.now }
    requires inside { at + 4 ≤ length from.now }
    ensures { (old : List ℕ) → AddedTo at old from.now into.old
        → AddedTo (at + 4) old from.now into.new }
{
    let sum = u64x4::from_slice(&into[at..]) ^ u64x4::from_slice(&from[at..]);
    sum.copy_to_slice(&mut into[at..]);
}
