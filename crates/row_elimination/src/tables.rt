//! The table of all that is held: pieces in their area, and the rows in slots.

ghost use Rattle.std.specs.Prelude.{◌≡◌, ◌-◌, ◌*◌, ◌<◌, ◌≤◌, ◌==◌, length, get_or, replicate, take, true, false, IfOk, MatchOption};
ghost use Rattle.row_arena.specs.Limits.{max_bytes, max_words};
ghost use Rattle.row_arena.specs.Rows.{has_room, line_in, words_for};
ghost use Rattle.row_elimination.specs.HeldPlaces.{free, piece as known, is_piece, pieces_held, rows_held, gained_held};
ghost use Rattle.row_elimination.specs.Inside.{IsReduced};
ghost use Rattle.row_elimination.specs.HeldSteps.{Reduced};
ghost use Rattle.row_elimination.specs.HeldTable.{Grid, max_line_words};
ghost use Rattle.frag_model.specs.Limits.{max_pieces};
ghost use Rattle.row_elimination.specs.Asked.{MayReduce};
ghost use Rattle.row_elimination.specs.Work.{AddsColumns};

mod filling;

use crate::bytes::stretch;
use crate::columns::{Column, PackedColumn};
use crate::passes::reduce;
use crate::widening::{forget, free_all, spare_all};
use frag_model::lines::MAX_PIECES;
use parity_lines::Steps;
use row_arena::{RowArena, words_for};
use std::alloc::{AllocError, Global};
use std::marker::Model;
use std::sync::ledger::Ledger;

/// How many words of 64 columns the line of the largest file takes.
pub const LINE_WORDS: usize = MAX_PIECES as usize / 64;

/// All that is held of a file: for each of its columns a piece, a row or nothing. The rows have `W` words and `B` bytes in all.
#[derive(Drop)]
pub struct Table<const W: usize, const B: usize> {
    nb_frag: u16,
    frag_size: u8,
    rows: u16,
    count: u16,
    gained: u16,
    /// The file's columns; the memory is for `most` of them, as is that of all that has an item for each column.
    columns: Vec<PackedColumn>,
    /// Slots; those from the `count`-th on are not in use. There are as many as any file had rows so far.
    spare: Vec<u16>,
    /// The line of the pieces that came uncoded, in as many words as any file needed so far.
    known: Vec<u64>,
    /// The bytes of the pieces, as far as any file's pieces reached so far; its memory is for `room` bytes.
    area: Vec<u8>,
    room: u32,
    most: u16,
    arena: Box<RowArena<W, B>>,
}

impl<const W: usize, const B: usize> Model for Table<W, B> {
    ghost use Rattle.std.specs.Prelude.{take, vec_capacity};
    ghost use Rattle.row_elimination.specs.HeldTable.{Grid, IsTable};
    ghost use Rattle.row_elimination.specs.HeldStorage.{places_in};

    ghost Value = { Grid };

    ghost view = { λ t. record {
      shape = record { nb_frag = t.nb_frag; frag_size = t.frag_size; rows = t.rows };
      places = places_in t.frag_size t.area.items t.arena.value (take t.nb_frag t.columns.items);
      area = t.area.items;
      room = record { area = t.room; pieces = t.most };
    } };

    ghost invariant = { λ t. IsTable W B t.nb_frag t.frag_size t.rows t.count t.gained t.most t.room
        (vec_capacity t.columns) (vec_capacity t.spare) (vec_capacity t.known) (vec_capacity t.area)
        t.columns.items t.spare.items t.known.items t.area.items t.arena.value };
}

impl<const W: usize, const B: usize> Table<W, B> {
    /// Makes the table of no file yet, with memory for an area of so many bytes and for so many pieces.
    pub fn new(alloc: Global, area: u32, most: u16) -> Result<Table<W, B>, AllocError>
        requires words { W ≤ max_words }
        requires bytes { B ≤ max_bytes }
        requires few { most ≤ max_pieces }
        ensures room { IfOk result (λ table. table.room ≡ record { area = area; pieces = most }) }
        ensures shape { IfOk result
            (λ table. table.shape ≡ record { nb_frag = 0; frag_size = 0; rows = 0 }) }
    {
        let columns = Vec::with_capacity(alloc, most as usize)?;
        let spare = Vec::with_capacity(alloc, most as usize)?;
        let known = Vec::with_capacity(alloc, words_for(most))?;
        let bytes = Vec::with_capacity(alloc, area as usize)?;
        let arena = Box::new(alloc, RowArena::new())?;
        Ok(Table {
            nb_frag: 0,
            frag_size: 0,
            rows: 0,
            count: 0,
            gained: 0,
            columns,
            spare,
            known,
            area: bytes,
            room: area,
            most,
            arena,
        })
    }

    /// Returns how many bytes the area has room for.
    pub fn room(&self) -> usize
        ensures { result ≡ self.now.room.area }
    {
        self.room as usize
    }

    /// Returns the most pieces that a file may have.
    pub fn most(&self) -> u16
        ensures { result ≡ self.now.room.pieces }
    {
        self.most
    }

    /// Returns how many pieces the file has.
    pub fn nb_frag(&self) -> u16
        ensures { result ≡ self.now.shape.nb_frag }
    {
        self.nb_frag
    }

    /// Returns how many pieces are still to be gained.
    pub fn missing(&self) -> u16
        ensures { result ≡ self.now.shape.nb_frag - gained_held self.now.places }
    {
        self.nb_frag.saturating_sub(self.gained)
    }

    /// Returns how many pieces came uncoded.
    #[tactic(auto, unfolding(crate::specs::HeldPlaces::gained_held))]
    pub fn pieces(&self) -> u16
        ensures { result ≡ pieces_held self.now.places }
    {
        self.gained.saturating_sub(self.count)
    }

    /// Says whether each slot has a row.
    pub fn is_full(&self) -> bool
        ensures { result ≡ (rows_held self.now.places == self.now.shape.rows) }
    {
        self.count == self.rows
    }

    /// Returns the bytes of the file's pieces in the area, as far as it reaches.
    pub fn content(&self) -> &[u8]
        ensures bytes { result.now
            ≡ take (self.now.shape.nb_frag * self.now.shape.frag_size) self.now.area }
        ensures within { length result.now ≤ self.now.room.area }
    {
        let size = self.nb_frag as usize * self.frag_size as usize;
        &self.area[..size.min(self.area.len())]
    }

    /// Returns the piece of column `k`, where it came uncoded.
    pub fn piece(&self, k: usize) -> Option<&[u8]>
        requires inside { k < self.now.shape.nb_frag }
        ensures value { MatchOption result (is_piece (get_or self.now.places k free) ≡ false)
            (λ piece. get_or self.now.places k free ≡ known piece.now) }
        ensures held { IsReduced self.now.shape.nb_frag self.now.shape.frag_size self.now.places }
        ensures room { rows_held self.now.places ≤ self.now.shape.rows }
    {
        match self.columns[k].column() {
            Column::Free => None,
            Column::Piece => Some(stretch(&self.area, k, self.frag_size as usize)),
            Column::Row(_) => None,
        }
    }

    /// Says whether no slot has a row.
    pub fn has_no_rows(&self) -> bool
        ensures { result ≡ (rows_held self.now.places == 0) }
    {
        self.count == 0
    }

    /// Returns how many words of 64 columns a line of the file takes.
    pub fn width(&self) -> usize
        ensures value { result ≡ words_for self.now.shape.nb_frag }
        ensures few { result ≤ max_line_words }
    {
        words_for(self.nb_frag)
    }

    /// Removes from a line, and from the bytes `part`, all columns of which something is held, and writes what is left of the
    /// bytes over `rest`. `picks` is room for the columns of a line. Counts each piece and each row that is added.
    pub fn reduce<M: Ledger>(
        &self,
        line: &mut [u64],
        picks: &mut [u16],
        part: &[u8],
        rest: &mut [u8],
        sums: &mut Steps<M>,
    )
        requires { MayReduce self.now line.old picks.old part.now rest.old }
        ensures left { Reduced self.now.shape.nb_frag self.now.shape.frag_size self.now.places
            (line_in line.old) part.now (line_in line.new) rest.new }
        ensures held { IsReduced self.now.shape.nb_frag self.now.shape.frag_size self.now.places }
        ensures room { rows_held self.now.places ≤ self.now.shape.rows }
        ensures few { AddsColumns (line_in line.old) sums.old sums.new }
    {
        let columns = &self.columns[..self.nb_frag as usize];
        let known = &self.known[..line.len()];
        reduce(
            columns,
            &self.area,
            known,
            &*self.arena,
            line,
            picks,
            part,
            rest,
            sums,
        );
    }

    /// Drops all that is held, and takes fragments of another file.
    pub fn begin(&mut self, nb_frag: u16, frag_size: u8, rows: u16)
        requires most { nb_frag ≤ self.old.room.pieces }
        requires few { rows ≤ nb_frag }
        requires area { nb_frag * frag_size ≤ self.old.room.area }
        requires room { has_room W B rows nb_frag frag_size ≡ true }
        ensures shape { self.new.shape
            ≡ record { nb_frag = nb_frag; frag_size = frag_size; rows = rows } }
        ensures places { self.new.places ≡ replicate nb_frag free }
        ensures room { self.new.room ≡ self.old.room }
    {
        free_all(&mut self.columns, nb_frag as usize);
        spare_all(&mut self.spare, rows);
        forget(&mut self.known, words_for(nb_frag));
        // (the rows fit, as the contract asks)
        let _ = self.arena.shape(rows, nb_frag, frag_size as u16);
        self.nb_frag = nb_frag;
        self.frag_size = frag_size;
        self.rows = rows;
        self.count = 0;
        self.gained = 0;
    }
}
