//! The steps of a round (FIPS 197, 5.1) by tables, a column at a time.

ghost use Rattle.std.specs.Prelude.{◌≡◌, ℕ, ◌+◌, ◌-◌, ◌%◌, ◌<◌, slice_index};
ghost use Rattle.aes_block.specs.Field.{sub_byte};
ghost use Rattle.aes_block.specs.Cipher.{sub_bytes, shift_rows, mix_columns};
ghost use Rattle.aes_block.specs.CipherInside.{byte_of, state_of_words, mixed_row};

use crate::tables::{SPREAD, SUB};
use crate::words::{byte, word};

#[tactic(auto, using(crate::proofs::Substitution::substituted))]
pub fn sub_byte(b: u8) -> u8
    ensures { result ≡ sub_byte b }
{
    SUB[b as usize]
}

/// The column that MixColumns makes of SubBytes of a byte alone in a row.
fn spread(b: u8, row: u32) -> u32
    requires { row < 4 }
    ensures { (k : ℕ) → k < 4 →
        byte_of result k ≡ mixed_row ((k + 4 - row) % 4) (sub_byte b) 0 0 0 }
{
    SPREAD[b as usize].rotate_right(8 * row)
}

/// A column after SubBytes and MixColumns, from the bytes that ShiftRows brings there:
/// the sum of what each makes alone.
fn mixed_column(a: u8, b: u8, c: u8, d: u8) -> u32
    ensures { (row : ℕ) → row < 4 →
        byte_of result row ≡ mixed_row row (sub_byte a) (sub_byte b) (sub_byte c) (sub_byte d) }
{
    spread(a, 0) ^ spread(b, 1) ^ spread(c, 2) ^ spread(d, 3)
}

/// Makes a round before its key is added.
pub fn mixed_round(s: [u32; 4]) -> [u32; 4]
    ensures { state_of_words result ≡ mix_columns (shift_rows (sub_bytes (state_of_words s))) }
{
    let [a, b, c, d] = s;
    [
        mixed_column(byte(a, 0), byte(b, 1), byte(c, 2), byte(d, 3)),
        mixed_column(byte(b, 0), byte(c, 1), byte(d, 2), byte(a, 3)),
        mixed_column(byte(c, 0), byte(d, 1), byte(a, 2), byte(b, 3)),
        mixed_column(byte(d, 0), byte(a, 1), byte(b, 2), byte(c, 3)),
    ]
}

/// A column after SubBytes, from the bytes that ShiftRows brings there.
fn substituted_column(a: u8, b: u8, c: u8, d: u8) -> u32
    ensures first { byte_of result 0 ≡ sub_byte a }
    ensures second { byte_of result 1 ≡ sub_byte b }
    ensures third { byte_of result 2 ≡ sub_byte c }
    ensures fourth { byte_of result 3 ≡ sub_byte d }
{
    word(sub_byte(a), sub_byte(b), sub_byte(c), sub_byte(d))
}

/// Makes the last round before its key is added.
pub fn last_round(s: [u32; 4]) -> [u32; 4]
    ensures { state_of_words result ≡ shift_rows (sub_bytes (state_of_words s)) }
{
    let [a, b, c, d] = s;
    [
        substituted_column(byte(a, 0), byte(b, 1), byte(c, 2), byte(d, 3)),
        substituted_column(byte(b, 0), byte(c, 1), byte(d, 2), byte(a, 3)),
        substituted_column(byte(c, 0), byte(d, 1), byte(a, 2), byte(b, 3)),
        substituted_column(byte(d, 0), byte(a, 1), byte(b, 2), byte(c, 3)),
    ]
}
