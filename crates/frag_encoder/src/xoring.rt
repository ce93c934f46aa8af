//! The XOR of the pieces at a line's columns.

ghost use Rattle.std.specs.Prelude.{◌≡◌, ◌+◌, ◌-◌, ◌*◌, ◌^◌, ◌<◌, ◌≤◌, length, take, drop};
ghost use Rattle.frag_model.specs.Fragments.{columns_in, xor_bytes, xor_all, pieces_at};
ghost use Rattle.parity_lines.specs.Words.{words_number};
ghost use Rattle.frag_encoder.specs.Encoding.{pieces_of};

use crate::encoder::MAX_FRAGMENT;
use parity_lines::Steps;
use row_arena::sum_pieces;
use std::sync::ledger::Ledger;

/// XORs the pieces at a line's columns into `sum`, and counts them. The line's words are just those that its columns need.
pub fn xor_line<M: Ledger>(
    line: &[u64],
    columns: usize,
    bytes: &[u8],
    sum: &mut [u8],
    sums: &mut Steps<M>,
)
    requires words { 64 * length line.now < columns + 64 }
    requires line { words_number line.now < 2 ^ columns }
    requires bytes { length bytes.now ≡ columns * length sum.old }
    requires size { length sum.old ≤ MAX_FRAGMENT }
    ensures sum { sum.new ≡ xor_bytes sum.old (xor_all (length sum.old)
        (pieces_at (words_number line.now) (pieces_of columns (length sum.old) bytes.now))) }
    ensures count { sums.new ≡ sums.old + columns_in (words_number line.now) }
{
    let size = sum.len();
    for (k, word) in line.iter().enumerate() {
        let column = 64 * k;
        xor_word(
            *word,
            columns - column,
            pieces_from(bytes, size, column),
            sum,
            sums,
        );
    }
}

/// XORs the pieces at a word's columns into `sum`, and counts them.
fn xor_word<M: Ledger>(word: u64, columns: usize, bytes: &[u8], sum: &mut [u8], sums: &mut Steps<M>)
    requires word { word < 2 ^ columns }
    requires bytes { length bytes.now ≡ columns * length sum.old }
    requires size { length sum.old ≤ MAX_FRAGMENT }
    ensures sum { sum.new ≡ xor_bytes sum.old
        (xor_all (length sum.old) (pieces_at word (pieces_of columns (length sum.old) bytes.now))) }
    ensures count { sums.new ≡ sums.old + columns_in word }
{
    let mut picks = [0; 64];
    let mut count = 0;
    let mut left = word;
    while left != 0 {
        picks[count] = left.trailing_zeros() as u16;
        count += 1;
        left &= left - 1;
    }
    let mut part = [0; MAX_FRAGMENT];
    let part = &mut part[..sum.len()];
    part.copy_from_slice(sum);
    sum_pieces(bytes, &picks[..count], part, sum);
    sums.add(count);
}

/// The pieces from a column on.
fn pieces_from(bytes: &[u8], size: usize, column: usize) -> &[u8]
    requires { column * size ≤ length bytes.now }
    ensures { result.now ≡ drop (column * size) bytes.now }
{
    &bytes[column * size..]
}

/// Returns the piece of a column, counted from 0.
pub fn piece_at(bytes: &[u8], size: usize, column: usize) -> &[u8]
    requires { (column + 1) * size ≤ length bytes.now }
    ensures piece { result.now ≡ take size (drop (column * size) bytes.now) }
    ensures size { length result.now ≡ size }
{
    let at = column * size;
    &bytes[at..at + size]
}
