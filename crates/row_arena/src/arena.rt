//! Rows of one shape in storage of fixed size.

ghost use Rattle.std.specs.Prelude.{◌≡◌, ◌≢◌, ℕ, ◌+◌, ◌*◌, ◌^◌, ◌<◌, ◌≤◌, ◌==◌, length, is_ok, OnOk, OnErr, replicate, MatchOption};
ghost use Rattle.std.specs.Int.{bit_at};
ghost use Rattle.row_arena.specs.Limits.{max_bytes, max_width, max_words};
ghost use Rattle.row_arena.specs.Rows.{Row, row_at, with_row, zero_row, row_sum, words_for, has_room, line_in};

use crate::lines::{first_bit, has_bit};
use crate::stretches::{
    add_bytes, add_words, bytes_at, clear_bytes, clear_words, put_bytes, put_words, words_at,
    xor_bytes_at, xor_words_at,
};
use arrayvec::ArrayVec;
use std::marker::Model;
use thiserror::Error;

/// The rows do not fit in the storage.
#[derive(Clone, Copy, Debug, PartialEq, Eq, Error)]
#[error("the storage is too small")]
pub struct NoRoom;

/// Rows of one shape: each has a line, a bit for each of its columns, and bytes. All are held in the value itself, in `WORDS`
/// words of 64 bits (at most 16,384) and `BYTES` bytes (at most 61,184). A contract sees the rows as a list.
#[derive(Drop)]
pub struct RowArena<const WORDS: usize, const BYTES: usize> {
    words: ArrayVec<u64, WORDS>,
    bytes: ArrayVec<u8, BYTES>,
    rows: u16,
    cols: u16,
    cell: u16,
}

impl<const WORDS: usize, const BYTES: usize> Model for RowArena<WORDS, BYTES> {
    ghost use Rattle.row_arena.specs.Rows.{Arena, words_for};
    ghost use Rattle.row_arena.specs.ArenaInside.{rows_in, IsArena};

    ghost Value = { Arena };

    ghost view = { λ a. record {
      cols = a.cols;
      cell = a.cell;
      rows = rows_in a.rows (words_for a.cols) a.cell a.words.items a.bytes.items;
    } };

    ghost invariant = { λ a. IsArena a.rows a.cols a.cell a.words.items a.bytes.items };
}

impl<const WORDS: usize, const BYTES: usize> RowArena<WORDS, BYTES> {
    /// Makes an arena of no rows, columns or bytes.
    pub fn new() -> Self
        requires words { WORDS ≤ max_words }
        requires bytes { BYTES ≤ max_bytes }
        ensures { result ≡ record { cols = 0; cell = 0; rows = replicate 0 (zero_row 0) } }
    {
        RowArena {
            words: ArrayVec::new(),
            bytes: ArrayVec::new(),
            rows: 0,
            cols: 0,
            cell: 0,
        }
    }

    /// Gives the arena so many rows, of `cols` columns and `cell` bytes each (any numbers of 16 bits), all zero. Where their
    /// words, (`cols` + 63) / 64 a row, or their bytes do not fit, `NoRoom` comes and the arena stays as it was.
    pub fn shape(&mut self, rows: u16, cols: u16, cell: u16) -> Result<(), NoRoom>
        ensures room { is_ok result ≡ has_room WORDS BYTES rows cols cell }
        ensures shaped { OnOk result (self.new
            ≡ record { cols = cols; cell = cell; rows = replicate rows (zero_row cell) }) }
        ensures refused { OnErr result (self.new ≡ self.old) }
    {
        let words = rows as usize * words_for(cols);
        let bytes = rows as usize * cell as usize;
        if words > WORDS || bytes > BYTES {
            return Err(NoRoom);
        }
        zero_words(&mut self.words, words);
        zero_bytes(&mut self.bytes, bytes);
        self.rows = rows;
        self.cols = cols;
        self.cell = cell;
        Ok(())
    }

    /// Returns how many rows there are.
    pub fn rows(&self) -> u16
        ensures { result ≡ length self.now.rows }
    {
        self.rows
    }

    /// Returns how many columns each row has.
    pub fn cols(&self) -> u16
        ensures { result ≡ self.now.cols }
    {
        self.cols
    }

    /// Adds row `from` to row `into`, bit by bit; these are two different rows. All others stay.
    pub fn xor_row(&mut self, into: u16, from: u16)
        requires into { into < length self.old.rows }
        requires from { from < length self.old.rows }
        requires apart { into ≢ from }
        ensures { self.new
            ≡ with_row self.old into (row_sum (row_at self.old into) (row_at self.old from)) }
    {
        let width = words_for(self.cols);
        let cell = self.cell as usize;
        xor_words_at(&mut self.words, into as usize, from as usize, width);
        xor_bytes_at(&mut self.bytes, into as usize, from as usize, cell);
    }

    /// Writes a line and bytes over row `r`. The line has as many words as a row, the lowest first, and no bit after the last
    /// column; there are as many bytes as a row has. All other rows stay.
    #[tactic(auto, using(crate::proofs::Arenas::arenas))]
    pub fn set_row(&mut self, r: u16, line: &[u64], part: &[u8])
        requires inside { r < length self.old.rows }
        requires line { length line.now ≡ words_for self.old.cols }
        requires within { line_in line.now < 2 ^ self.old.cols }
        requires part { length part.now ≡ self.old.cell }
        ensures { self.new
            ≡ with_row self.old r (record { line = line_in line.now; part = part.now }) }
    {
        put_words(&mut self.words, r as usize, line);
        put_bytes(&mut self.bytes, r as usize, part);
    }

    /// Adds a line and bytes, as `set_row` takes them, to row `r`, bit by bit. All other rows stay.
    #[tactic(auto, using(crate::proofs::Arenas::arenas))]
    pub fn add_to_row(&mut self, r: u16, line: &[u64], part: &[u8])
        requires inside { r < length self.old.rows }
        requires line { length line.now ≡ words_for self.old.cols }
        requires within { line_in line.now < 2 ^ self.old.cols }
        requires part { length part.now ≡ self.old.cell }
        ensures { self.new ≡ with_row self.old r
            (row_sum (row_at self.old r) (record { line = line_in line.now; part = part.now })) }
    {
        add_words(&mut self.words, r as usize, line);
        add_bytes(&mut self.bytes, r as usize, part);
    }

    /// Makes the line and the bytes of row `r` zero. All other rows stay.
    pub fn clear_row(&mut self, r: u16)
        requires inside { r < length self.old.rows }
        ensures { self.new ≡ with_row self.old r (zero_row self.old.cell) }
    {
        let width = words_for(self.cols);
        let cell = self.cell as usize;
        clear_words(&mut self.words, r as usize, width);
        clear_bytes(&mut self.bytes, r as usize, cell);
    }

    /// Returns the words of row `r`, the lowest first.
    pub fn words(&self, r: u16) -> &[u64]
        requires { r < length self.now.rows }
        ensures line { line_in result.now ≡ (row_at self.now r).line }
        ensures within { line_in result.now < 2 ^ self.now.cols }
        ensures len { length result.now ≡ words_for self.now.cols }
        ensures few { length result.now ≤ max_width }
    {
        let width = words_for(self.cols);
        words_at(&self.words, r as usize, width)
    }

    /// Returns the bytes of row `r`.
    pub fn bytes(&self, r: u16) -> &[u8]
        requires { r < length self.now.rows }
        ensures part { result.now ≡ (row_at self.now r).part }
        ensures len { length result.now ≡ self.now.cell }
    {
        let cell = self.cell as usize;
        bytes_at(&self.bytes, r as usize, cell)
    }

    /// Returns the first column of row `r`; None exactly where its line is zero.
    pub fn first_set(&self, r: u16) -> Option<u16>
        requires { r < length self.now.rows }
        ensures { MatchOption result ((row_at self.now r).line ≡ 0)
            (λ p. (p < self.now.cols) × (bit_at (row_at self.now r).line p ≡ 1)
            × ((c : ℕ) → c < p → bit_at (row_at self.now r).line c ≡ 0)) }
    {
        match first_bit(self.words(r)) {
            Some(p) => Some(p as u16),
            None => None,
        }
    }

    /// Says whether row `r` has column `c`, which is below the number of columns.
    pub fn bit(&self, r: u16, c: u16) -> bool
        requires inside { r < length self.now.rows }
        requires column { c < self.now.cols }
        ensures { result ≡ (bit_at (row_at self.now r).line c == 1) }
    {
        has_bit(self.words(r), c as usize)
    }
}

/// Returns how many words of 64 bits a row of so many columns takes.
#[tactic(auto, unfolding(crate::specs::Rows::words_for))]
pub fn words_for(cols: u16) -> usize
    ensures value { result ≡ words_for cols }
    ensures few { result ≤ max_width }
{
    (cols as usize + 63) / 64
}

/// Makes so many words, all zero. They are copied in whole stretches: pushing them one by one takes twelve instructions each.
fn zero_words<const N: usize>(words: &mut ArrayVec<u64, N>, n: usize)
    requires { n ≤ N }
    ensures { words.new.items ≡ replicate n 0 }
{
    let zeros = [0; 32];
    words.clear();
    let mut done = 0;
    while done < n {
        let count = (n - done).min(32);
        words.try_extend_from_slice(&zeros[..count]).unwrap();
        done += count;
    }
}

/// Makes so many bytes, all zero, copied in as words are.
fn zero_bytes<const N: usize>(bytes: &mut ArrayVec<u8, N>, n: usize)
    requires { n ≤ N }
    ensures { bytes.new.items ≡ replicate n 0 }
{
    let zeros = [0; 256];
    bytes.clear();
    let mut done = 0;
    while done < n {
        let count = (n - done).min(256);
        bytes.try_extend_from_slice(&zeros[..count]).unwrap();
        done += count;
    }
}
