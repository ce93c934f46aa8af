//! Gain, direct and excess, by trying all sums of lines of at most 64 columns.

ghost use Rattle.std.specs.Prelude.{◌≡◌, ◌==◌, ◌+◌, ◌-◌, ◌≤◌, ◌&&◌, not, nat_le, if◌then◌else◌, All, IfOk, length};
ghost use Rattle.std.specs.List.{list_any};
ghost use Rattle.frag_model.specs.Parity.{number_of};
ghost use Rattle.frag_model.specs.Fragments.{line_of};
ghost use Rattle.frag_model.specs.Gain.{is_sum, gain_of_lines, gain_of, direct_of};

use crate::lines::{MAX_PARITY_INDEX, plain_line};
use std::alloc::{AllocError, Global};

/// The most columns of a line that fits one word.
pub const WORD_COLUMNS: u16 = 64;

/// Says whether `x` is the XOR of some of the lines, or of none.
pub fn plain_is_sum(x: u64, lines: &[u64]) -> bool
    ensures { result ≡ is_sum x lines.now }
{
    if lines.is_empty() {
        x == 0
    } else {
        let older = &lines[1..];
        plain_is_sum(x, older) || plain_is_sum(lines[0] ^ x, older)
    }
}

/// Counts the lines that are no sum of those after them.
pub fn plain_gain(lines: &[u64]) -> usize
    ensures value { result ≡ gain_of_lines lines.now }
    ensures most { result ≤ length lines.now }
{
    if lines.is_empty() {
        0
    } else {
        let older = &lines[1..];
        plain_gain(older) + one_if(!plain_is_sum(lines[0], older))
    }
}

/// Counts the different pieces among the numbers.
pub fn plain_direct(nb_frag: u16, numbers: &[u16]) -> usize
    ensures value { result ≡ direct_of nb_frag numbers.now }
    ensures most { result ≤ length numbers.now }
{
    if numbers.is_empty() {
        0
    } else {
        let older = &numbers[1..];
        plain_direct(nb_frag, older) + one_if(is_new_piece(nb_frag, numbers[0], older))
    }
}

/// Whether `n` is the number of a piece, and not among the older numbers.
fn is_new_piece(nb_frag: u16, n: u16, older: &[u16]) -> bool
    ensures { result ≡ (nat_le n nb_frag && not (list_any (λ m. m == n) older.now)) }
{
    n <= nb_frag && !is_among(n, older)
}

fn is_among(n: u16, older: &[u16]) -> bool
    ensures { result ≡ list_any (λ m. m == n) older.now }
{
    older.iter().any(|m| *m == n)
}

fn one_if(test: bool) -> usize
    ensures value { result ≡ (if test then 1 else 0) }
    ensures most { result ≤ 1 }
{
    if test { 1 } else { 0 }
}

/// Makes the word of a line that is given column by column.
pub fn plain_word(columns: &[bool]) -> u64
    requires { length columns.now ≤ WORD_COLUMNS }
    ensures { result ≡ number_of columns.now }
{
    let mut word = 0;
    for (c, column) in columns.iter().enumerate() {
        if *column {
            word |= 1 << c;
        }
    }
    word
}

/// Makes the line of fragment `n` of `nb_frag` pieces (TS004-1.0.0, DataFragment).
pub fn plain_line_of(nb_frag: u16, n: u16) -> u64
    requires some { 1 ≤ nb_frag }
    requires most { nb_frag ≤ WORD_COLUMNS }
    requires first { 1 ≤ n }
    requires last { n ≤ nb_frag + MAX_PARITY_INDEX }
    ensures { result ≡ line_of nb_frag n }
{
    if n <= nb_frag {
        1 << (n - 1)
    } else {
        let mut columns = [false; 64];
        let columns = &mut columns[..nb_frag as usize];
        plain_line(n - nb_frag, nb_frag, columns);
        plain_word(columns)
    }
}

/// Counts the independent coded fragments that must be kept, of fragments with these numbers, newest first.
pub fn plain_excess(alloc: Global, nb_frag: u16, numbers: &[u16]) -> Result<usize, AllocError>
    requires some { 1 ≤ nb_frag }
    requires most { nb_frag ≤ WORD_COLUMNS }
    requires numbers { All (λ n. (1 ≤ n) × (n ≤ nb_frag + MAX_PARITY_INDEX)) numbers.now }
    ensures { IfOk result
        (λ excess. excess ≡ gain_of nb_frag numbers.now - direct_of nb_frag numbers.now) }
{
    let mut lines = Vec::new(alloc);
    for n in numbers {
        lines.push(plain_line_of(nb_frag, *n))?;
    }
    Ok(plain_gain(&lines).saturating_sub(plain_direct(nb_frag, numbers)))
}
