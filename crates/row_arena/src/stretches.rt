//! The stretches of a slice: rows of one length, one after the other.

ghost use Rattle.std.specs.Prelude.{◌≡◌, ◌≢◌, ℕ, ◌+◌, ◌*◌, ◌<◌, ◌≤◌, length, bit_xor, replicate};
ghost use Rattle.std.specs.Simd.Lanes.{zip2};
ghost use Rattle.row_arena.specs.Rows.{line_in};
ghost use Rattle.row_arena.specs.Stretch.{stretch};

use crate::lanes::{xor_bytes, xor_words};

/// Adds a stretch of so many words to another.
#[tactic(auto, using(crate::proofs::Written::summed))]
pub fn xor_words_at(words: &mut [u64], into: usize, from: usize, size: usize)
    requires into { into * size + size ≤ length words.old }
    requires from { from * size + size ≤ length words.old }
    requires apart { into ≢ from }
    ensures there { stretch into size words.new
        ≡ zip2 bit_xor (stretch into size words.old) (stretch from size words.old) }
    ensures line { line_in (stretch into size words.new)
        ≡ bit_xor (line_in (stretch into size words.old)) (line_in (stretch from size words.old)) }
    ensures others { (j : ℕ) → j ≢ into → stretch j size words.new ≡ stretch j size words.old }
{
    if into < from {
        let (low, high) = words.split_at_mut(from * size);
        xor_words(&mut low[into * size..into * size + size], &high[..size]);
    } else {
        let (low, high) = words.split_at_mut(into * size);
        xor_words(&mut high[..size], &low[from * size..from * size + size]);
    }
}

/// Adds a stretch of so many bytes to another.
#[tactic(auto, using(crate::proofs::Written::summed))]
pub fn xor_bytes_at(bytes: &mut [u8], into: usize, from: usize, size: usize)
    requires into { into * size + size ≤ length bytes.old }
    requires from { from * size + size ≤ length bytes.old }
    requires apart { into ≢ from }
    ensures there { stretch into size bytes.new
        ≡ zip2 bit_xor (stretch into size bytes.old) (stretch from size bytes.old) }
    ensures others { (j : ℕ) → j ≢ into → stretch j size bytes.new ≡ stretch j size bytes.old }
{
    if into < from {
        let (low, high) = bytes.split_at_mut(from * size);
        xor_bytes(&mut low[into * size..into * size + size], &high[..size]);
    } else {
        let (low, high) = bytes.split_at_mut(into * size);
        xor_bytes(&mut high[..size], &low[from * size..from * size + size]);
    }
}

/// Writes `from` over the `k`-th stretch of its length.
#[tactic(auto, using(crate::proofs::Written::written))]
pub fn put_words(words: &mut [u64], k: usize, from: &[u64])
    requires { k * length from.now + length from.now ≤ length words.old }
    ensures there { stretch k (length from.now) words.new ≡ from.now }
    ensures others { (j : ℕ) → j ≢ k
        → stretch j (length from.now) words.new ≡ stretch j (length from.now) words.old }
{
    let at = k * from.len();
    words[at..at + from.len()].copy_from_slice(from);
}

/// Writes `from` over the `k`-th stretch of its length.
#[tactic(auto, using(crate::proofs::Written::written))]
pub fn put_bytes(bytes: &mut [u8], k: usize, from: &[u8])
    requires { k * length from.now + length from.now ≤ length bytes.old }
    ensures there { stretch k (length from.now) bytes.new ≡ from.now }
    ensures others { (j : ℕ) → j ≢ k
        → stretch j (length from.now) bytes.new ≡ stretch j (length from.now) bytes.old }
{
    let at = k * from.len();
    bytes[at..at + from.len()].copy_from_slice(from);
}

/// Returns the `k`-th stretch of so many words.
#[tactic(auto, using(crate::proofs::Written::written))]
pub fn words_at(words: &[u64], k: usize, size: usize) -> &[u64]
    requires { k * size + size ≤ length words.now }
    ensures value { result.now ≡ stretch k size words.now }
    ensures len { length result.now ≡ size }
{
    &words[k * size..k * size + size]
}

/// Returns the `k`-th stretch of so many bytes.
#[tactic(auto, using(crate::proofs::Written::written))]
pub fn bytes_at(bytes: &[u8], k: usize, size: usize) -> &[u8]
    requires { k * size + size ≤ length bytes.now }
    ensures value { result.now ≡ stretch k size bytes.now }
    ensures len { length result.now ≡ size }
{
    &bytes[k * size..k * size + size]
}

/// Writes zeros over the `k`-th stretch of so many words.
#[tactic(auto, using(crate::proofs::Written::written))]
pub fn clear_words(words: &mut [u64], k: usize, size: usize)
    requires { k * size + size ≤ length words.old }
    ensures there { stretch k size words.new ≡ replicate size 0 }
    ensures others { (j : ℕ) → j ≢ k → stretch j size words.new ≡ stretch j size words.old }
{
    let at = k * size;
    words[at..at + size].fill(0);
}

/// Writes zeros over the `k`-th stretch of so many bytes.
#[tactic(auto, using(crate::proofs::Written::written))]
pub fn clear_bytes(bytes: &mut [u8], k: usize, size: usize)
    requires { k * size + size ≤ length bytes.old }
    ensures there { stretch k size bytes.new ≡ replicate size 0 }
    ensures others { (j : ℕ) → j ≢ k → stretch j size bytes.new ≡ stretch j size bytes.old }
{
    let at = k * size;
    bytes[at..at + size].fill(0);
}

/// Adds `from` to the `k`-th stretch of its length.
#[tactic(auto, using(crate::proofs::Written::written))]
pub fn add_words(words: &mut [u64], k: usize, from: &[u64])
    requires { k * length from.now + length from.now ≤ length words.old }
    ensures line { line_in (stretch k (length from.now) words.new)
        ≡ bit_xor (line_in (stretch k (length from.now) words.old)) (line_in from.now) }
    ensures others { (j : ℕ) → j ≢ k
        → stretch j (length from.now) words.new ≡ stretch j (length from.now) words.old }
{
    let at = k * from.len();
    xor_words(&mut words[at..at + from.len()], from);
}

/// Adds `from` to the `k`-th stretch of its length.
#[tactic(auto, using(crate::proofs::Written::written))]
pub fn add_bytes(bytes: &mut [u8], k: usize, from: &[u8])
    requires { k * length from.now + length from.now ≤ length bytes.old }
    ensures there { stretch k (length from.now) bytes.new
        ≡ zip2 bit_xor (stretch k (length from.now) bytes.old) from.now }
    ensures others { (j : ℕ) → j ≢ k
        → stretch j (length from.now) bytes.new ≡ stretch j (length from.now) bytes.old }
{
    let at = k * from.len();
    xor_bytes(&mut bytes[at..at + from.len()], from);
}
