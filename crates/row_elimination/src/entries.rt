//! Puts a piece or a row where its column keeps it, and all parts where their pieces belong.

ghost use Rattle.std.specs.Prelude.{◌≡◌, ◌≢◌, ℕ, ◌+◌, ◌*◌, ◌<◌, ◌≤◌, length, get_or, List, set};
ghost use Rattle.row_arena.specs.Rows.{Arena, line_in};
ghost use Rattle.row_elimination.specs.PackedColumns.{last_slot};
ghost use Rattle.row_elimination.specs.HeldPlaces.{piece, row};
ghost use Rattle.row_arena.specs.Stretch.{stretch};
ghost use Rattle.row_elimination.specs.HeldStorage.{part_in, places_in, IsRowOf, SameShape};

use crate::bytes::put_at;
use crate::columns::{Column, PackedColumn};
use row_arena::RowArena;

/// Puts the piece of column `k` into the area.
pub fn put_piece(columns: &mut [PackedColumn], area: &mut [u8], k: usize, part: &[u8])
    requires inside { k < length columns.old }
    requires room { k * length part.now + length part.now ≤ length area.old }
    ensures columns { columns.new ≡ set columns.old k Column.Piece }
    ensures places { (arena : Arena) → places_in (length part.now) area.new arena columns.new ≡
        set (places_in (length part.now) area.old arena columns.old) k (piece part.now) }
{
    put_at(area, k, part);
    columns[k] = PackedColumn::new(Column::Piece);
}

/// Puts the row that column `p` leads into a slot that no other column uses.
pub fn put_row<const W: usize, const B: usize>(
    columns: &mut [PackedColumn],
    arena: &mut RowArena<W, B>,
    slot: u16,
    p: u16,
    line: &[u64],
    part: &[u8],
)
    requires inside { p < length columns.old }
    requires slot { slot < length arena.old.rows }
    requires fits { slot ≤ last_slot }
    requires new { IsRowOf arena.old line.now part.now }
    requires alone { (c : ℕ) → c ≢ p → get_or columns.old c Column.Free ≢ Column.Row slot }
    ensures columns { columns.new ≡ set columns.old p (Column.Row slot) }
    ensures places { (size : ℕ) (area : List ℕ) → places_in size area arena.new columns.new ≡
        set (places_in size area arena.old columns.old) p (row (line_in line.now) part.now) }
    ensures shape { SameShape arena.old arena.new }
{
    arena.set_row(slot, line, part);
    columns[p as usize] = PackedColumn::new(Column::Row(slot));
}

/// Puts the part of each row into the area, as the piece of the column that leads it.
pub fn put_parts<const W: usize, const B: usize>(
    columns: &[PackedColumn],
    area: &mut [u8],
    arena: &RowArena<W, B>,
)
    requires room { length columns.now * arena.now.cell ≤ length area.old }
    requires rows { (c slot : ℕ) → get_or columns.now c Column.Free ≡ Column.Row slot
        → slot < length arena.now.rows }
    ensures { (c : ℕ) → stretch c arena.now.cell area.new
        ≡ part_in arena.now.cell area.old arena.now c (get_or columns.now c Column.Free) }
{
    for c in 0..columns.len() {
        put_part(columns[c].column(), c, area, arena);
    }
}

/// Puts the part of the row that column `c` leads into the area, if there is one.
fn put_part<const W: usize, const B: usize>(
    column: Column,
    c: usize,
    area: &mut [u8],
    arena: &RowArena<W, B>,
)
    requires room { c * arena.now.cell + arena.now.cell ≤ length area.old }
    requires rows { (slot : ℕ) → column ≡ Column.Row slot → slot < length arena.now.rows }
    ensures here { stretch c arena.now.cell area.new
        ≡ part_in arena.now.cell area.old arena.now c column }
    ensures others { (d : ℕ) → d ≢ c
        → stretch d arena.now.cell area.new ≡ stretch d arena.now.cell area.old }
{
    match column {
        Column::Free => {}
        Column::Piece => {}
        Column::Row(slot) => put_at(area, c, arena.bytes(slot)),
    }
}
