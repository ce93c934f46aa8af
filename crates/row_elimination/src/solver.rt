//! A file that is recovered from whichever fragments of it come.

ghost use Rattle.std.specs.Prelude.{◌≡◌, ◌+◌, ◌<◌, ◌≤◌, length, is_ok, IfOk};
ghost use Rattle.row_elimination.specs.HeldSolver.{missing_of, Begins, Feeds};
ghost use Rattle.row_elimination.specs.Work.{CountsWork};
ghost use Rattle.row_elimination.specs.HeldPlaces.{pieces_held};
ghost use Rattle.row_elimination.specs.Room.{extent_for, has_room};
ghost use Rattle.row_elimination.specs.HeldTaking.{stage_after};
ghost use Rattle.row_arena.specs.Limits.{max_bytes, max_words};
ghost use Rattle.frag_model.specs.Limits.{max_frag_size, max_parity_index, max_pieces};

use crate::stages::{Fed, Stage};
use crate::tables::Table;
use crate::taking::take;
use crate::uncounted::{Counts, take_uncounted};
use crate::widening::widen;
use frag_model::lines::MAX_PIECES;
use parity_lines::Steps;
use row_arena::words_for;
use std::alloc::Global;
use std::marker::{Brand, Model};
use std::sync::ledger::{Blank, Ledger};
use thiserror::Error;

/// The most bytes of a fragment.
pub const MAX_FRAG_SIZE: usize = 239;

/// There was not enough memory.
#[derive(Clone, Copy, Debug, PartialEq, Eq, Error)]
#[error("out of memory")]
pub struct Memory;

/// The storage or the area is too small, or the file has more pieces than there is memory for.
#[derive(Clone, Copy, Debug, PartialEq, Eq, Error)]
#[error("the storage is too small")]
pub struct NoRoom;

/// Recovers one file at a time from its fragments (TS004-1.0.0), in storage that is taken once: `W` words of 64 coefficients (at
/// most 16,384) and `B` bytes (at most 61,184) for rows, and an area for the pieces. A contract sees what it holds of each
/// column.
#[derive(Drop)]
pub struct Solver<const W: usize, const B: usize> {
    /// In a box, so that a solver moves as one word.
    kept: Box<Kept<W, B>>,
}

/// What is held, room for one line and its bytes, and the solver's stage.
#[derive(Drop)]
struct Kept<const W: usize, const B: usize> {
    table: Table<W, B>,
    line: Vec<u64>,
    picks: Vec<u16>,
    part: Vec<u8>,
    stage: Stage,
}

impl<const W: usize, const B: usize> Model for Solver<W, B> {
    ghost use Rattle.std.specs.Prelude.{vec_capacity};
    ghost use Rattle.row_elimination.specs.HeldSolver.{Held};
    ghost use Rattle.row_elimination.specs.HeldTaking.{held_of};
    ghost use Rattle.row_elimination.specs.SolverInside.{IsSolver};

    ghost Value = { Held };

    ghost view = { λ s. held_of s.kept.value.stage s.kept.value.table };

    ghost invariant = { λ s. IsSolver s.kept.value.table s.kept.value.stage
        (vec_capacity s.kept.value.line) (vec_capacity s.kept.value.picks)
        s.kept.value.line.items s.kept.value.picks.items s.kept.value.part.items };
}

impl<const W: usize, const B: usize> Solver<W, B> {
    /// Takes all memory that the solver ever uses: an area of `area` bytes for the pieces, and the storage for rows. Files may
    /// have up to 4,096 pieces. `Memory` comes where there isn't enough.
    pub fn reserve(alloc: Global, area: u32) -> Result<Solver<W, B>, Memory>
        requires words { W ≤ max_words }
        requires bytes { B ≤ max_bytes }
        ensures stage { IfOk result (λ solver. solver.stage ≡ Stage.Idle) }
        ensures extent { IfOk result (λ solver. solver.extent ≡ extent_for area) }
    {
        Solver::reserve_for(alloc, area, MAX_PIECES)
    }

    /// Does the same for files of up to `pieces` pieces (at most 4,096), which takes less memory: some 6 bytes less for each
    /// piece fewer.
    pub fn reserve_for(alloc: Global, area: u32, pieces: u16) -> Result<Solver<W, B>, Memory>
        requires words { W ≤ max_words }
        requires bytes { B ≤ max_bytes }
        requires most { pieces ≤ max_pieces }
        ensures stage { IfOk result (λ solver. solver.stage ≡ Stage.Idle) }
        ensures extent { IfOk result (λ solver.
            solver.extent ≡ record { area = area; pieces = pieces }) }
    {
        let Ok(line) = Vec::with_capacity(alloc, words_for(pieces)) else {
            return Err(Memory);
        };
        let Ok(picks) = Vec::with_capacity(alloc, 64 * words_for(pieces)) else {
            return Err(Memory);
        };
        let Ok(part) = vec![in alloc; 0u8; MAX_FRAG_SIZE] else {
            return Err(Memory);
        };
        let Ok(table) = Table::new(alloc, area, pieces) else {
            return Err(Memory);
        };
        let kept = Kept {
            table,
            line,
            picks,
            part,
            stage: Stage::Idle,
        };
        match Box::new(alloc, kept) {
            Ok(kept) => Ok(Solver { kept }),
            Err(_) => Err(Memory),
        }
    }

    /// Says whether there is room for a file of `nb_frag` pieces (at most 4,096) of `frag_size` bytes (at most 239) and for
    /// `rows` rows (at most `nb_frag`), and memory for so many pieces.
    pub fn fits(&self, nb_frag: u16, frag_size: u8, rows: u16) -> bool
        requires most { nb_frag ≤ max_pieces }
        requires small { frag_size ≤ max_frag_size }
        requires few { rows ≤ nb_frag }
        ensures { result ≡ has_room W B self.now.extent nb_frag frag_size rows }
    {
        let area = self.kept.table.room();
        let most = self.kept.table.most();
        has_room(W, B, area, most, nb_frag, frag_size, rows)
    }

    /// Begins a file of `nb_frag` pieces (1 to 4,096) of `frag_size` bytes (1 to 239), with `rows` rows for coded fragments (at
    /// most `nb_frag`). Its last `padding` bytes are no part of the file; they are fewer than `frag_size`, so that only one block
    /// fits exactly where only one file does. Where there is no room `NoRoom` comes, and the solver stays as it was.
    pub fn begin(
        &mut self,
        nb_frag: u16,
        frag_size: u8,
        padding: u8,
        rows: u16,
    ) -> Result<(), NoRoom>
        requires some { 1 ≤ nb_frag }
        requires most { nb_frag ≤ max_pieces }
        requires small { frag_size ≤ max_frag_size }
        requires short { padding < frag_size }
        requires few { rows ≤ nb_frag }
        ensures room { is_ok result ≡ has_room W B self.old.extent nb_frag frag_size rows }
        ensures begins { Begins self.old self.new
            (record { nb_frag = nb_frag; frag_size = frag_size; rows = rows }) result }
    {
        // Only whoever takes the file out needs the padding.
        let _ = padding;
        if !self.fits(nb_frag, frag_size, rows) {
            return Err(NoRoom);
        }
        let kept = &mut *self.kept;
        widen(&mut kept.line, words_for(nb_frag), 0);
        widen(&mut kept.picks, 64 * words_for(nb_frag), 0);
        kept.table.begin(nb_frag, frag_size, rows);
        kept.stage = Stage::Receiving;
        Ok(())
    }

    /// Takes in fragment `n`, from 1 to 8,380 above the number of pieces: piece `n` itself, or the coded fragment of that number.
    /// `part` has as many bytes as a piece. The solver must be receiving. It takes no memory.
    pub fn feed(&mut self, n: u16, part: &[u8]) -> Fed
        requires receiving { self.old.stage ≡ Stage.Receiving }
        requires first { 1 ≤ n }
        requires last { n ≤ self.old.shape.nb_frag + max_parity_index }
        requires sized { length part.now ≡ self.old.shape.frag_size }
        ensures { Feeds self.old self.new n part.now result }
    {
        take_uncounted::<Solver<W, B>, Brand, Brand>(self, n, part, Blank::new(1), Blank::new(1))
    }

    /// Takes in a fragment, as `feed` does, and counts its work: the states of the register that are drawn for the fragment's
    /// line, and the sums that are made, each the XOR of one part of a piece's length into another.
    pub fn feed_counted<L: Ledger, M: Ledger>(
        &mut self,
        n: u16,
        part: &[u8],
        draws: &mut Steps<L>,
        sums: &mut Steps<M>,
    ) -> Fed
        requires receiving { self.old.stage ≡ Stage.Receiving }
        requires first { 1 ≤ n }
        requires last { n ≤ self.old.shape.nb_frag + max_parity_index }
        requires sized { length part.now ≡ self.old.shape.frag_size }
        ensures fed { Feeds self.old self.new n part.now result }
        ensures counted { CountsWork self.old.shape n draws.old draws.new sums.old sums.new }
    {
        let kept = &mut *self.kept;
        let fed = take(
            &mut kept.table,
            n,
            part,
            &mut kept.line,
            &mut kept.picks,
            &mut kept.part,
            draws,
            sums,
        );
        kept.stage = stage_after(fed);
        fed
    }

    /// Returns how many pieces are still to be gained, by pieces or by independent coded fragments.
    #[tactic(auto, unfolding(crate::specs::HeldSolver::missing_of))]
    pub fn missing(&self) -> u16
        ensures { result ≡ missing_of self.now }
    {
        self.kept.table.missing()
    }

    /// Returns how many pieces came uncoded.
    pub fn pieces(&self) -> u16
        ensures { result ≡ pieces_held self.now.places }
    {
        self.kept.table.pieces()
    }

    /// Returns the bytes of all pieces, one after the other, padding included. The solver must be complete.
    pub fn block(&self) -> &[u8]
        requires { self.now.stage ≡ Stage.Complete }
        ensures content { result.now ≡ self.now.content }
        ensures within { length result.now ≤ self.now.extent.area }
    {
        self.kept.table.content()
    }
}

impl<const W: usize, const B: usize> Counts for Solver<W, B> {
    ghost use Rattle.row_elimination.specs.HeldSolver.{MayFeed, Feeds};

    ghost may_take = { MayFeed };

    ghost takes = { Feeds };

    fn take_counted<L: Ledger, M: Ledger>(
        &mut self,
        n: u16,
        part: &[u8],
        draws: &mut Steps<L>,
        sums: &mut Steps<M>,
    ) -> Fed {
        self.feed_counted(n, part, draws, sums)
    }
}

/// Says whether so many rows of a file fit in so many words and bytes, its pieces fit the area, and they are at most `most`.
#[tactic(auto, unfolding(crate::specs::Room::has_room))]
fn has_room(
    words: usize,
    bytes: usize,
    area: usize,
    most: u16,
    nb_frag: u16,
    frag_size: u8,
    rows: u16,
) -> bool
    ensures { result
        ≡ has_room words bytes (record { area = area; pieces = most }) nb_frag frag_size rows }
{
    let lines = rows as usize * words_for(nb_frag);
    let parts = rows as usize * frag_size as usize;
    let pieces = nb_frag as usize * frag_size as usize;
    lines <= words && parts <= bytes && pieces <= area && nb_frag <= most
}

/// The solver's stage after an answer.
#[tactic(auto, unfolding(crate::specs::HeldTaking::stage_after))]
fn stage_after(fed: Fed) -> Stage
    ensures { result ≡ stage_after fed }
{
    match fed {
        Fed::Receiving => Stage::Receiving,
        Fed::Complete => Stage::Complete,
        Fed::NoRows => Stage::Ended,
        Fed::Conflict => Stage::Ended,
    }
}
