//! What a fragment adds to the table: a row, a piece, or a piece that replaces a row.

ghost use Rattle.std.specs.Prelude.{◌≡◌, ◌≢◌, ℕ, ◌+◌, ◌*◌, ◌<◌, ◌≤◌, length, get_or, List, set, take};
ghost use Rattle.row_arena.specs.Rows.{Arena, line_in};
ghost use Rattle.row_elimination.specs.PackedColumns.{last_slot};
ghost use Rattle.row_elimination.specs.HeldPlaces.{piece, piece as known, grown};
ghost use Rattle.row_elimination.specs.HeldStorage.{places_in, IsRowOf, SameShape, Slots, TakesOver};
ghost use Rattle.row_elimination.specs.Asked.{MayAddRow, MayAddBoth};

use crate::columns::{Column, PackedColumn};
use crate::entries::{put_piece, put_row};
use crate::passes::clear;
use parity_lines::Steps;
use row_arena::RowArena;
use std::sync::ledger::Ledger;

/// Adds a row that its column `p` leads, in a slot that no column uses, and counts the rows that it is added to.
pub fn add_row<const W: usize, const B: usize, M: Ledger>(
    columns: &mut [PackedColumn],
    arena: &mut RowArena<W, B>,
    slot: u16,
    p: u16,
    line: &[u64],
    part: &[u8],
    sums: &mut Steps<M>,
)
    requires { MayAddRow columns.old arena.old slot p line.now part.now }
    ensures columns { take arena.old.cols columns.new
        ≡ set (take arena.old.cols columns.old) p (Column.Row slot) }
    ensures places { (area : List ℕ)
        → places_in (length part.now) area arena.new (take arena.old.cols columns.new)
        ≡ grown p (line_in line.now) part.now
        (places_in (length part.now) area arena.old (take arena.old.cols columns.old)) }
    ensures shape { SameShape arena.old arena.new }
    ensures few { sums.new ≤ sums.old + length arena.old.rows }
{
    let columns = &mut columns[..arena.cols() as usize];
    clear(arena, p, line, part, sums);
    put_row(columns, arena, slot, p, line, part);
}

/// Puts the piece of column `k`, one of the first `cols`, into the area.
pub fn add_piece(columns: &mut [PackedColumn], cols: usize, area: &mut [u8], k: usize, part: &[u8])
    requires columns { cols ≤ length columns.old }
    requires inside { k < cols }
    requires room { k * length part.now + length part.now ≤ length area.old }
    ensures columns { take cols columns.new ≡ set (take cols columns.old) k Column.Piece }
    ensures places { (arena : Arena)
        → places_in (length part.now) area.new arena (take cols columns.new)
        ≡ set (places_in (length part.now) area.old arena (take cols columns.old))
        k (piece part.now) }
{
    put_piece(&mut columns[..cols], area, k, part);
}

/// Puts the piece of column `k` into the area, and a row that its column `p` leads into the slot of the row that `k` led. Where
/// `k` led none, the new row is the piece itself. Counts the rows that it is added to.
pub fn add_piece_and_row<const W: usize, const B: usize, M: Ledger>(
    columns: &mut [PackedColumn],
    area: &mut [u8],
    arena: &mut RowArena<W, B>,
    k: usize,
    piece: &[u8],
    p: u16,
    line: &[u64],
    part: &[u8],
    sums: &mut Steps<M>,
)
    requires { MayAddBoth columns.old area.old arena.old k piece.now p line.now part.now }
    ensures slots { (spare : List ℕ) (rows count : ℕ)
        → Slots (take arena.old.cols columns.old) spare rows count
        → Slots (take arena.old.cols columns.new) spare rows count }
    ensures places { places_in (length part.now) area.new arena.new
        (take arena.old.cols columns.new)
        ≡ set (grown p (line_in line.now) part.now
        (places_in (length part.now) area.old arena.old (take arena.old.cols columns.old)))
        k (known piece.now) }
    ensures shape { SameShape arena.old arena.new }
    ensures few { sums.new ≤ sums.old + length arena.old.rows }
{
    let columns = &mut columns[..arena.cols() as usize];
    clear(arena, p, line, part, sums);
    let kept = columns[k].column();
    put_piece(columns, area, k, piece);
    take_over(kept, columns, arena, p, line, part);
}

/// Puts a row into the slot that was kept, if one was.
fn take_over<const W: usize, const B: usize>(
    kept: Column,
    columns: &mut [PackedColumn],
    arena: &mut RowArena<W, B>,
    p: u16,
    line: &[u64],
    part: &[u8],
)
    requires inside { p < length columns.old }
    requires slot { (slot : ℕ) → kept ≡ Column.Row slot → slot < length arena.old.rows }
    requires fits { (slot : ℕ) → kept ≡ Column.Row slot → slot ≤ last_slot }
    requires new { IsRowOf arena.old line.now part.now }
    requires alone { (c slot : ℕ) → kept ≡ Column.Row slot → c ≢ p
        → get_or columns.old c Column.Free ≢ Column.Row slot }
    ensures over { TakesOver kept p
        (line_in line.now) part.now arena.old arena.new columns.old columns.new }
    ensures shape { SameShape arena.old arena.new }
{
    match kept {
        Column::Free => {}
        Column::Piece => {}
        Column::Row(slot) => put_row(columns, arena, slot, p, line, part),
    }
}
