//! The key expansion (FIPS 197, 5.2), four words in a row at a time.

ghost use Rattle.std.specs.Prelude.{◌≡◌, ℕ, ◌<◌, ◌≤◌, [], slice_index, slice_index_or};
ghost use Rattle.aes_block.specs.Cipher.{added, next_words};
ghost use Rattle.aes_block.specs.CipherInside.{byte_of, state_of_words, AreRoundKeys};

use crate::steps::sub_byte;
use crate::words::{byte, from_block, word};

/// The first byte of Rcon: the powers of x from the first on.
pub const POWERS: [u8; 10] = [0x01, 0x02, 0x04, 0x08, 0x10, 0x20, 0x40, 0x80, 0x1b, 0x36];

/// Expands a key to the key itself and the keys of the ten rounds: of each column its words, round by round.
pub fn round_keys(key: &[u8; 16]) -> [[u32; 11]; 4]
    ensures { AreRoundKeys key.now result }
{
    let mut words = from_block(key);
    let mut keys = [words; 11];
    for i in 4..44 {
        words = next_words(&words, i);
        if i % 4 == 3 {
            keys[i / 4] = words;
        }
    }
    [
        words_of(&keys, 0),
        words_of(&keys, 1),
        words_of(&keys, 2),
        words_of(&keys, 3),
    ]
}

/// A column's words.
fn words_of(keys: &[[u32; 4]; 11], column: usize) -> [u32; 11]
    requires { column < 4 }
    ensures { (n : ℕ) → n < 11 →
        slice_index result n ≡ slice_index (slice_index_or keys.now n []) column }
{
    let mut words = [0; 11];
    for (n, word) in words.iter_mut().enumerate() {
        *word = keys[n][column];
    }
    words
}

/// The four words one further on, where word `i` is the last.
fn next_words(words: &[u32; 4], i: usize) -> [u32; 4]
    requires low { 4 ≤ i }
    requires high { i < 44 }
    ensures { state_of_words result ≡ next_words i (state_of_words words.now) }
{
    [words[1], words[2], words[3], words[0] ^ added(words, i)]
}

/// What word `i` is the sum of word `i - 4` with.
fn added(words: &[u32; 4], i: usize) -> u32
    requires low { 4 ≤ i }
    requires high { i < 44 }
    ensures { (row : ℕ) → row < 4 →
        byte_of result row ≡ added i (state_of_words words.now) row }
{
    let d = words[3];
    if i % 4 == 0 {
        word(
            sub_byte(byte(d, 1)) ^ POWERS[i / 4 - 1],
            sub_byte(byte(d, 2)),
            sub_byte(byte(d, 3)),
            sub_byte(byte(d, 0)),
        )
    } else {
        d
    }
}
