//! The inverse steps: each returns the words from which the step makes those given.

ghost use Rattle.std.specs.Prelude.{◌≡◌, ℕ, ◌<◌, ◌==◌, if◌then◌else◌, slice_index};
ghost use Rattle.aes_block.specs.Cipher.{sub_bytes, shift_rows, mix_columns, add_round_key};
ghost use Rattle.aes_block.specs.CipherInside.{byte_of, state_of_words, words_at, mixed_word};

use crate::tables::{INVERSE_SUB, UNMIXED};
use crate::words::{add_round_key, byte, word};

fn undo_sub_byte(b: u8) -> u8
    ensures { result ≡ slice_index INVERSE_SUB b }
{
    INVERSE_SUB[b as usize]
}

/// A column before SubBytes, from the bytes that ShiftRows took elsewhere.
fn restored_column(a: u8, b: u8, c: u8, d: u8) -> u32
    ensures first { byte_of result 0 ≡ slice_index INVERSE_SUB a }
    ensures second { byte_of result 1 ≡ slice_index INVERSE_SUB b }
    ensures third { byte_of result 2 ≡ slice_index INVERSE_SUB c }
    ensures fourth { byte_of result 3 ≡ slice_index INVERSE_SUB d }
{
    word(
        undo_sub_byte(a),
        undo_sub_byte(b),
        undo_sub_byte(c),
        undo_sub_byte(d),
    )
}

/// Undoes SubBytes and ShiftRows: each row moves right by as many places as its number says.
pub fn undo_last_round(s: [u32; 4]) -> [u32; 4]
    ensures { shift_rows (sub_bytes (state_of_words result)) ≡ state_of_words s }
{
    let [a, b, c, d] = s;
    [
        restored_column(byte(a, 0), byte(d, 1), byte(c, 2), byte(b, 3)),
        restored_column(byte(b, 0), byte(a, 1), byte(d, 2), byte(c, 3)),
        restored_column(byte(c, 0), byte(b, 1), byte(a, 2), byte(d, 3)),
        restored_column(byte(d, 0), byte(c, 1), byte(b, 2), byte(a, 3)),
    ]
}

/// The column that MixColumns takes to a byte alone in a row.
fn unmixed(b: u8, row: u32) -> u32
    requires { row < 4 }
    ensures { (k : ℕ) → k < 4 → mixed_word k result ≡ (if k == row then b else 0) }
{
    UNMIXED[b as usize].rotate_right(8 * row)
}

/// The column that MixColumns takes to the one given: the sum of those of its bytes.
fn unmixed_column(w: u32) -> u32
    ensures { (k : ℕ) → k < 4 → mixed_word k result ≡ byte_of w k }
{
    unmixed(byte(w, 0), 0)
        ^ unmixed(byte(w, 1), 1)
        ^ unmixed(byte(w, 2), 2)
        ^ unmixed(byte(w, 3), 3)
}

pub fn undo_mix_columns(s: [u32; 4]) -> [u32; 4]
    ensures { mix_columns (state_of_words result) ≡ state_of_words s }
{
    [
        unmixed_column(s[0]),
        unmixed_column(s[1]),
        unmixed_column(s[2]),
        unmixed_column(s[3]),
    ]
}

/// AddRoundKey undoes itself.
pub fn undo_add_round_key(s: [u32; 4], keys: &[[u32; 11]; 4], round: usize) -> [u32; 4]
    requires { round < 11 }
    ensures { add_round_key (state_of_words result) (state_of_words (words_at keys.now round)) ≡
        state_of_words s }
{
    add_round_key(s, keys, round)
}
