//! Putting pieces and rows into a table.

ghost use Rattle.std.specs.Prelude.{◌≡◌, ℕ, ◌+◌, ◌*◌, ◌<◌, ◌≤◌, ◌^◌, length, get_or, set, take, bit_xor};
ghost use Rattle.frag_model.specs.Fragments.{Equation, IsPiece};
ghost use Rattle.row_arena.specs.Rows.{line_in, words_for};
ghost use Rattle.row_elimination.specs.HeldPlaces.{free, piece as known, grown, rows_held};
ghost use Rattle.row_arena.specs.Stretch.{stretch};
ghost use Rattle.row_elimination.specs.HeldSteps.{Knows, Tells};
ghost use Rattle.row_elimination.specs.HeldTable.{IsPut, SameRoom};
ghost use Rattle.row_elimination.specs.Asked.{MayPush, MayLearn};

use super::Table;
use crate::additions::{add_piece, add_piece_and_row, add_row};
use crate::columns::Column;
use crate::entries::put_parts;
use crate::widening::widen;
use parity_lines::Steps;
use row_arena::{flip_bit, words_for};
use std::sync::ledger::Ledger;

/// How many bytes beyond a piece the area grows at once.
const AHEAD: usize = 1792;

impl<const W: usize, const B: usize> Table<W, B> {
    /// Takes in a new row that its column `p` leads, and counts the rows that it is added to.
    pub fn push<M: Ledger>(&mut self, p: u16, line: &[u64], part: &[u8], sums: &mut Steps<M>)
        requires { MayPush self.old p line.now part.now }
        ensures grown { self.new
            ≡ record self.old { places = grown p (line_in line.now) part.now self.old.places } }
        ensures few { sums.new ≤ sums.old + self.old.shape.rows }
    {
        let slot = self.spare[self.count as usize];
        add_row(
            &mut self.columns,
            &mut *self.arena,
            slot,
            p,
            line,
            part,
            sums,
        );
        self.count += 1;
        self.gained += 1;
    }

    /// Takes in a piece of which nothing is known, where no row is held.
    pub fn put(&mut self, k: usize, piece: &[u8])
        requires inside { k < self.old.shape.nb_frag }
        requires piece { IsPiece self.old.shape.frag_size piece.now }
        requires fresh { get_or self.old.places k free ≡ free }
        requires none { rows_held self.old.places ≡ 0 }
        ensures { IsPut k piece.now self.old self.new }
    {
        self.reach_piece(k);
        self.put_reached(k, piece);
    }

    /// The same, where the area reaches so far.
    fn put_reached(&mut self, k: usize, piece: &[u8])
        requires inside { k < self.old.shape.nb_frag }
        requires reached { k * self.old.shape.frag_size + self.old.shape.frag_size
            ≤ length self.old.area }
        requires piece { IsPiece self.old.shape.frag_size piece.now }
        requires fresh { get_or self.old.places k free ≡ free }
        requires none { rows_held self.old.places ≡ 0 }
        ensures { IsPut k piece.now self.old self.new }
    {
        add_piece(
            &mut self.columns,
            self.nb_frag as usize,
            &mut self.area,
            k,
            piece,
        );
        mark(&mut self.known, self.nb_frag, k);
        self.gained += 1;
    }

    /// Takes in a piece and a new row that column `p` leads: the row is the piece itself, or it replaces the row that the piece's
    /// column led. Counts the rows that it is added to.
    pub fn learn<M: Ledger>(
        &mut self,
        k: usize,
        piece: &[u8],
        p: u16,
        line: &[u64],
        part: &[u8],
        sums: &mut Steps<M>,
    )
        requires { MayLearn self.old k piece.now p line.now part.now }
        ensures places { self.new.places
            ≡ set (grown p (line_in line.now) part.now self.old.places) k (known piece.now) }
        ensures room { SameRoom self.old self.new }
        ensures few { sums.new ≤ sums.old + self.old.shape.rows }
    {
        self.reach_piece(k);
        self.learn_reached(k, piece, p, line, part, sums);
    }

    /// The same, where the area reaches so far.
    fn learn_reached<M: Ledger>(
        &mut self,
        k: usize,
        piece: &[u8],
        p: u16,
        line: &[u64],
        part: &[u8],
        sums: &mut Steps<M>,
    )
        requires reached { k * self.old.shape.frag_size + self.old.shape.frag_size
            ≤ length self.old.area }
        requires new { MayLearn self.old k piece.now p line.now part.now }
        ensures places { self.new.places
            ≡ set (grown p (line_in line.now) part.now self.old.places) k (known piece.now) }
        ensures room { SameRoom self.old self.new }
        ensures few { sums.new ≤ sums.old + self.old.shape.rows }
    {
        add_piece_and_row(
            &mut self.columns,
            &mut self.area,
            &mut *self.arena,
            k,
            piece,
            p,
            line,
            part,
            sums,
        );
        mark(&mut self.known, self.nb_frag, k);
        self.gained += 1;
    }

    /// Takes in a piece that follows from the equations already.
    pub fn settle(&mut self, k: usize, piece: &[u8])
        requires known { Knows self.old.shape self.old.places k piece.now }
        ensures { IsPut k piece.now self.old self.new }
    {
        self.reach_piece(k);
        self.settle_reached(k, piece);
    }

    /// The same, where the area reaches so far.
    fn settle_reached(&mut self, k: usize, piece: &[u8])
        requires reached { k * self.old.shape.frag_size + self.old.shape.frag_size
            ≤ length self.old.area }
        requires known { Knows self.old.shape self.old.places k piece.now }
        ensures { IsPut k piece.now self.old self.new }
    {
        if let Column::Row(slot) = self.columns[k].column() {
            add_piece(
                &mut self.columns,
                self.nb_frag as usize,
                &mut self.area,
                k,
                piece,
            );
            mark(&mut self.known, self.nb_frag, k);
            self.count -= 1;
            self.spare[self.count as usize] = slot;
        }
    }

    /// Puts the parts of all rows into the area, as the pieces of the columns that lead them.
    pub fn finish(&mut self)
        ensures places { self.new.places ≡ self.old.places }
        ensures parts { (c : ℕ) (e : Equation) → Tells self.old.places c e
            → stretch c self.old.shape.frag_size self.new.area ≡ e.part }
        ensures room { SameRoom self.old self.new }
    {
        self.reach(self.nb_frag as usize * self.frag_size as usize);
        self.finish_reached();
    }

    /// The same, where the area reaches to the last piece.
    fn finish_reached(&mut self)
        requires reached { self.old.shape.nb_frag * self.old.shape.frag_size
            ≤ length self.old.area }
        ensures places { self.new.places ≡ self.old.places }
        ensures parts { (c : ℕ) (e : Equation) → Tells self.old.places c e
            → stretch c self.old.shape.frag_size self.new.area ≡ e.part }
        ensures room { SameRoom self.old self.new }
    {
        let columns = &self.columns[..self.nb_frag as usize];
        put_parts(columns, &mut self.area, &*self.arena);
    }

    /// Extends the area to the end of piece `k`.
    fn reach_piece(&mut self, k: usize)
        requires inside { k < self.old.shape.nb_frag }
        ensures places { self.new.places ≡ self.old.places }
        ensures room { SameRoom self.old self.new }
        ensures reached { k * self.old.shape.frag_size + self.old.shape.frag_size
            ≤ length self.new.area }
    {
        let size = self.frag_size as usize;
        let end = k * size + size;
        if self.area.len() < end {
            self.reach((end + AHEAD).min(self.nb_frag as usize * size));
        }
    }

    /// Extends the area to at least so many bytes of the pieces.
    fn reach(&mut self, n: usize)
        requires inside { n ≤ self.old.shape.nb_frag * self.old.shape.frag_size }
        ensures places { self.new.places ≡ self.old.places }
        ensures room { SameRoom self.old self.new }
        ensures reached { n ≤ length self.new.area }
    {
        widen(&mut self.area, n, 0);
    }
}

/// Marks column `k` of a line that doesn't have it, among the words that a line of so many columns takes.
fn mark(known: &mut [u64], cols: u16, k: usize)
    requires words { words_for cols ≤ length known.old }
    requires inside { k < cols }
    ensures { line_in (take (words_for cols) known.new)
        ≡ bit_xor (line_in (take (words_for cols) known.old)) (2 ^ k) }
{
    flip_bit(&mut known[..words_for(cols)], k);
}
