//! The sum of a part and some of the pieces in an area.

ghost use Rattle.std.specs.Prelude.{◌≡◌, ℕ, ◌+◌, ◌*◌, ◌<◌, ◌≤◌, ◌⊎◌, length, slice_index};
ghost use Rattle.row_arena.specs.Sums.{AreInside, IsSum, SumsFrom};

use crate::lanes::xor_bytes;
use std::simd::prelude::*;

/// Writes the sum of `part` and the picked pieces over `rest`, which is as long. Piece k begins in `area` at k times the length
/// of `part`, and is as long as `part`.
pub fn sum_pieces(area: &[u8], picks: &[u16], part: &[u8], rest: &mut [u8])
    requires sized { length rest.old ≡ length part.now }
    requires picks { AreInside picks.now (length part.now) area.now }
    ensures { IsSum area.now picks.now part.now rest.new }
{
    if part.len() >= 64 {
        sum_long(area, picks, part, rest);
    } else if part.len() >= 16 {
        sum_middle(area, picks, part, rest);
    } else {
        sum_short(area, picks, part, rest);
    }
}

/// The same, each piece in the lanes of 16 bytes. A part has fewer.
fn sum_short(area: &[u8], picks: &[u16], part: &[u8], rest: &mut [u8])
    requires sized { length rest.old ≡ length part.now }
    requires few { length part.now < 16 }
    requires picks { AreInside picks.now (length part.now) area.now }
    ensures { IsSum area.now picks.now part.now rest.new }
{
    let size = part.len();
    let mut sum = lanes_at(part, 0);
    for n in 0..picks.len() {
        sum ^= lanes_at(area, picks[n] as usize * size);
    }
    rest.copy_from_slice(&sum.to_array()[..size]);
}

/// The 16 bytes from a place on; after the last of the slice they are zero.
fn lanes_at(bytes: &[u8], at: usize) -> u8x16
    requires inside { at ≤ length bytes.now }
    ensures wide { length result ≡ 16 }
    ensures each { (i : ℕ) → i < 16 → at + i < length bytes.now
        → slice_index result i ≡ slice_index bytes.now (at + i) }
{
    if bytes.len() - at >= 16 {
        return u8x16::from_slice(&bytes[at..]);
    }
    let mut lanes = [0; 16];
    lanes[..bytes.len() - at].copy_from_slice(&bytes[at..]);
    u8x16::from_array(lanes)
}

/// The same, 16 bytes of all of them, twice at a time, so that a part of at most 32 takes one pass. A part has at least 16, and
/// fewer than 64.
fn sum_middle(area: &[u8], picks: &[u16], part: &[u8], rest: &mut [u8])
    requires sized { length rest.old ≡ length part.now }
    requires some { 16 ≤ length part.now }
    requires few { length part.now < 64 }
    requires picks { AreInside picks.now (length part.now) area.now }
    ensures { IsSum area.now picks.now part.now rest.new }
{
    let end = part.len();
    if end > 32 {
        two_stripes(area, picks, part, rest, 0, 16);
        two_stripes(area, picks, part, rest, end - 32, end - 16);
    } else {
        two_stripes(area, picks, part, rest, 0, end - 16);
    }
}

/// Writes 16 bytes of the sum from each of two places on.
fn two_stripes(area: &[u8], picks: &[u16], part: &[u8], rest: &mut [u8], at: usize, other: usize)
    requires sized { length rest.old ≡ length part.now }
    requires inside { at + 16 ≤ length part.now }
    requires other_inside { other + 16 ≤ length part.now }
    requires picks { AreInside picks.now (length part.now) area.now }
    ensures here { SumsFrom at 16 area.now picks.now part.now rest.new }
    ensures there { SumsFrom other 16 area.now picks.now part.now rest.new }
    ensures others { (i : ℕ) → (i < at) ⊎ (at + 16 ≤ i) → (i < other) ⊎ (other + 16 ≤ i)
        → slice_index rest.new i ≡ slice_index rest.old i }
{
    let size = part.len();
    let mut sum = u8x16::from_slice(&part[at..]);
    let mut more = u8x16::from_slice(&part[other..]);
    for n in 0..picks.len() {
        let k = picks[n] as usize;
        sum ^= u8x16::from_slice(&area[k * size + at..]);
        more ^= u8x16::from_slice(&area[k * size + other..]);
    }
    sum.copy_to_slice(&mut rest[at..]);
    more.copy_to_slice(&mut rest[other..]);
}

/// The same, 64 bytes of all of them at a time. A part has at least 64.
fn sum_long(area: &[u8], picks: &[u16], part: &[u8], rest: &mut [u8])
    requires sized { length rest.old ≡ length part.now }
    requires long { 64 ≤ length part.now }
    requires picks { AreInside picks.now (length part.now) area.now }
    ensures { IsSum area.now picks.now part.now rest.new }
{
    for s in 0..part.len() / 64 {
        stripe(area, picks, part, rest, s * 64);
    }
    if part.len() % 64 != 0 {
        stripe(area, picks, part, rest, part.len() - 64);
    }
}

/// Writes 64 bytes of the sum.
fn stripe(area: &[u8], picks: &[u16], part: &[u8], rest: &mut [u8], at: usize)
    requires sized { length rest.old ≡ length part.now }
    requires inside { at + 64 ≤ length part.now }
    requires picks { AreInside picks.now (length part.now) area.now }
    ensures here { SumsFrom at 64 area.now picks.now part.now rest.new }
    ensures others { (i : ℕ) → (i < at) ⊎ (at + 64 ≤ i)
        → slice_index rest.new i ≡ slice_index rest.old i }
{
    let size = part.len();
    let mut sum = u8x64::from_slice(&part[at..]);
    for n in 0..picks.len() {
        let k = picks[n] as usize;
        sum ^= u8x64::from_slice(&area[k * size + at..]);
    }
    sum.copy_to_slice(&mut rest[at..]);
}
