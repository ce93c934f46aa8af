//! Takes the leading columns out of an equation, and a new row's column out of the rows.

ghost use Rattle.std.specs.Prelude.{◌≡◌, ℕ, ◌+◌, ◌*◌, ◌<◌, ◌≤◌, length, take, slice_index, bit_xor};
ghost use Rattle.std.specs.Int.{bit_at};
ghost use Rattle.std.specs.Simd.Lanes.{zip2};
ghost use Rattle.frag_model.specs.Fragments.{columns_in};
ghost use Rattle.row_arena.specs.Rows.{line_in, words_for};
ghost use Rattle.row_arena.specs.Sums.{after_flips, AreInside, IsSum};
ghost use Rattle.row_elimination.specs.HeldTable.{max_line_words};
ghost use Rattle.row_elimination.specs.HeldStorage.{places_in, IsRowOf, Clears, ClearsAll};
ghost use Rattle.row_elimination.specs.HeldSteps.{Reduced, TakesRow, TakesRows};
ghost use Rattle.row_elimination.specs.Asked.{MayPass, MayTakeRows};
ghost use Rattle.row_elimination.specs.Work.{AddsColumns};

use crate::columns::{Column, PackedColumn};
use crate::tables::LINE_WORDS;
use parity_lines::Steps;
use row_arena::{RowArena, pick, sum_pieces, xor_bytes, xor_words};
use std::sync::ledger::Ledger;

/// Removes from a line, and from the bytes `part`, all columns of which a piece or a row is kept, and writes what is left of the
/// bytes over `rest`. `known` has the columns of which a piece is kept, and `picks` has room for the columns of a line. Counts
/// each piece and each row that is added.
pub fn reduce<const W: usize, const B: usize, M: Ledger>(
    columns: &[PackedColumn],
    area: &[u8],
    known: &[u64],
    arena: &RowArena<W, B>,
    line: &mut [u64],
    picks: &mut [u16],
    part: &[u8],
    rest: &mut [u8],
    sums: &mut Steps<M>,
)
    requires { MayPass columns.now area.now known.now arena.now line.old picks.old part.now
        rest.old }
    ensures left { Reduced (length columns.now) (length part.now) (places_in (length part.now)
        area.now arena.now columns.now) (line_in line.old) part.now (line_in line.new) rest.new }
    ensures few { AddsColumns (line_in line.old) sums.old sums.new }
{
    let count = pick(line, known, picks);
    sum_counted(area, &picks[..count], part, rest, sums);
    take_rows(columns, arena, line, picks, rest, sums);
}

/// Writes the sum of `part` and the picked pieces over `rest`, which is as long, and counts the pieces.
fn sum_counted<M: Ledger>(
    area: &[u8],
    picks: &[u16],
    part: &[u8],
    rest: &mut [u8],
    sums: &mut Steps<M>,
)
    requires sized { length rest.old ≡ length part.now }
    requires picks { AreInside picks.now (length part.now) area.now }
    ensures sum { IsSum area.now picks.now part.now rest.new }
    ensures count { sums.new ≡ sums.old + length picks.now }
{
    sum_pieces(area, picks, part, rest);
    sums.add(picks.len());
}

/// Removes all columns that lead rows from an equation, which has no column of which a piece is kept, and counts the rows.
fn take_rows<const W: usize, const B: usize, M: Ledger>(
    columns: &[PackedColumn],
    arena: &RowArena<W, B>,
    line: &mut [u64],
    picks: &mut [u16],
    rest: &mut [u8],
    sums: &mut Steps<M>,
)
    requires { MayTakeRows columns.now arena.now line.old picks.old rest.old }
    ensures taken { TakesRows (length rest.old) arena.now columns.now (line_in line.old) rest.old
        (line_in line.new) rest.new }
    ensures few { AddsColumns (line_in line.old) sums.old sums.new }
{
    let count = list_bits(line, picks);
    for n in 0..count {
        take_row(columns[picks[n] as usize].column(), arena, line, rest, sums);
    }
}

/// Takes the row of a column, if it leads one, out of an equation, and counts it.
fn take_row<const W: usize, const B: usize, M: Ledger>(
    column: Column,
    arena: &RowArena<W, B>,
    line: &mut [u64],
    rest: &mut [u8],
    sums: &mut Steps<M>,
)
    requires rows { (slot : ℕ) → column ≡ Column.Row slot → slot < length arena.now.rows }
    requires words { length line.old ≡ words_for arena.now.cols }
    requires part { length rest.old ≡ arena.now.cell }
    ensures taken { TakesRow arena.now column (line_in line.old) rest.old
        (line_in line.new) rest.new }
    ensures few { sums.new ≤ sums.old + 1 }
{
    match column {
        Column::Free => {}
        Column::Piece => {}
        Column::Row(slot) => {
            xor_words(line, arena.words(slot));
            add_counted(rest, arena.bytes(slot), sums);
        }
    }
}

/// Adds a part to another that is as long, and counts it.
fn add_counted<M: Ledger>(into: &mut [u8], part: &[u8], sums: &mut Steps<M>)
    requires { length part.now ≡ length into.old }
    ensures sum { into.new ≡ zip2 bit_xor into.old part.now }
    ensures one { sums.new ≡ sums.old + 1 }
{
    xor_bytes(into, part);
    sums.tick();
}

/// Lists the columns of a line of at most 64 words in front of `picks`, and returns how many there are.
fn list_bits(line: &[u64], picks: &mut [u16]) -> usize
    requires few { length line.now ≤ max_line_words }
    requires picks { 64 * length line.now ≤ length picks.old }
    ensures listed { (c : ℕ)
        → bit_at (after_flips (line_in line.now) (take result picks.new)) c ≡ 0 }
    ensures columns { (n : ℕ) → n < result
        → bit_at (line_in line.now) (slice_index picks.new n) ≡ 1 }
    ensures few { result ≤ length picks.new }
    ensures each { result ≤ columns_in (line_in line.now) }
{
    let mut left = [0; LINE_WORDS];
    let left = &mut left[..line.len()];
    left.copy_from_slice(line);
    pick(left, line, picks)
}

/// Adds a new row to each row that has its column `p`, and counts these.
pub fn clear<const W: usize, const B: usize, M: Ledger>(
    arena: &mut RowArena<W, B>,
    p: u16,
    line: &[u64],
    part: &[u8],
    sums: &mut Steps<M>,
)
    requires inside { p < arena.old.cols }
    requires new { IsRowOf arena.old line.now part.now }
    ensures cleared { ClearsAll p (line_in line.now) part.now arena.old arena.new }
    ensures few { sums.new ≤ sums.old + length arena.old.rows }
{
    for s in 0..arena.rows() {
        clear_row(arena, s, p, line, part, sums);
    }
}

/// Adds a new row to the row in a slot, where that has the column `p`, and then counts it.
fn clear_row<const W: usize, const B: usize, M: Ledger>(
    arena: &mut RowArena<W, B>,
    slot: u16,
    p: u16,
    line: &[u64],
    part: &[u8],
    sums: &mut Steps<M>,
)
    requires slot { slot < length arena.old.rows }
    requires inside { p < arena.old.cols }
    requires new { IsRowOf arena.old line.now part.now }
    ensures cleared { Clears slot p (line_in line.now) part.now arena.old arena.new }
    ensures few { sums.new ≤ sums.old + 1 }
{
    if arena.bit(slot, p) {
        arena.add_to_row(slot, line, part);
        sums.tick();
    }
}
