//! Taking one fragment into a table.

ghost use Rattle.std.specs.Prelude.{◌≡◌, ◌≢◌, ℕ, ◌+◌, ◌<◌, ◌≤◌, length, get_or, true, false, MatchOption};
ghost use Rattle.std.specs.Int.{bit_at};
ghost use Rattle.frag_model.specs.Fragments.{columns_in};
ghost use Rattle.row_arena.specs.Rows.{line_in};
ghost use Rattle.row_elimination.specs.HeldPlaces.{rows_held};
ghost use Rattle.row_elimination.specs.Inside.{IsReduced};
ghost use Rattle.row_elimination.specs.HeldTable.{max_line_words};
ghost use Rattle.row_elimination.specs.HeldTaking.{IsReady, IsZero, DecidedAs, IsFed};
ghost use Rattle.row_elimination.specs.Work.{CountsWork};
ghost use Rattle.row_elimination.specs.Asked.{MayTake, MayTakeAgain, MayTakeFirst, MayTakeIn, MayTakeNew};

use crate::drawing::draw;
use crate::stages::Fed;
use crate::tables::Table;
use parity_lines::Steps;
use row_arena::first_bit;
use std::sync::ledger::Ledger;

/// Takes fragment `n` in, or answers why not. A piece that came before is only compared; a new piece needs no line while no row
/// is held. `line`, `picks` and `rest` are room for a line, for its columns and for the bytes of a piece. Counts the states that
/// are drawn for the line, and each piece and row that is added to another part.
pub fn take<const W: usize, const B: usize, L: Ledger, M: Ledger>(
    table: &mut Table<W, B>,
    n: u16,
    part: &[u8],
    line: &mut [u64],
    picks: &mut [u16],
    rest: &mut [u8],
    draws: &mut Steps<L>,
    sums: &mut Steps<M>,
) -> Fed
    requires { MayTake table.old n part.now line.old picks.old rest.old }
    ensures fed { IsFed result table.old table.new n part.now }
    ensures counted { CountsWork table.old.shape n draws.old draws.new sums.old sums.new }
{
    if n <= table.nb_frag() {
        let k = n as usize - 1;
        if let Some(piece) = table.piece(k) {
            return take_again(table, n, part, piece);
        }
        if table.has_no_rows() {
            return take_first(table, n, part);
        }
    }
    let line = &mut line[..table.width()];
    let rest = &mut rest[..part.len()];
    draw(n, table.nb_frag(), line, draws);
    take_in(table, n, part, line, picks, rest, sums)
}

/// Takes in a piece that came before: it must be the same.
fn take_again<const W: usize, const B: usize>(
    table: &Table<W, B>,
    n: u16,
    part: &[u8],
    piece: &[u8],
) -> Fed
    requires { MayTakeAgain table.now n part.now piece.now }
    ensures { IsFed result table.now table.now n part.now }
{
    if piece == part {
        Fed::Receiving
    } else {
        Fed::Conflict
    }
}

/// Takes in a piece that did not come before, where no row is held.
fn take_first<const W: usize, const B: usize>(table: &mut Table<W, B>, n: u16, part: &[u8]) -> Fed
    requires { MayTakeFirst table.old n part.now }
    ensures { IsFed result table.old table.new n part.now }
{
    table.put(n as usize - 1, part);
    decide(table)
}

/// Takes fragment `n` in, or answers why not. `line` is its line and is used up; `picks` and `rest` are room.
fn take_in<const W: usize, const B: usize, M: Ledger>(
    table: &mut Table<W, B>,
    n: u16,
    part: &[u8],
    line: &mut [u64],
    picks: &mut [u16],
    rest: &mut [u8],
    sums: &mut Steps<M>,
) -> Fed
    requires { MayTakeIn table.old n part.now line.old picks.old rest.old }
    ensures fed { IsFed result table.old table.new n part.now }
    ensures sums { sums.new ≤ sums.old + columns_in (line_in line.old) + table.old.shape.rows }
{
    table.reduce(line, picks, part, rest, sums);
    match first_set(line) {
        Some(p) => take_new(table, n, part, p, line, rest, sums),
        None => take_old(table, n, part, line, rest),
    }
}

/// Takes in a fragment whose line is a sum of the lines held.
fn take_old<const W: usize, const B: usize>(
    table: &mut Table<W, B>,
    n: u16,
    part: &[u8],
    line: &[u64],
    rest: &[u8],
) -> Fed
    requires ready { IsReady table.old n part.now (line_in line.now) rest.now }
    requires none { line_in line.now ≡ 0 }
    ensures { IsFed result table.old table.new n part.now }
{
    if !is_zero(rest) {
        return Fed::Conflict;
    }
    if n <= table.nb_frag() {
        table.settle(n as usize - 1, part);
    }
    Fed::Receiving
}

/// Takes in a fragment whose line is no sum of the lines held.
fn take_new<const W: usize, const B: usize, M: Ledger>(
    table: &mut Table<W, B>,
    n: u16,
    part: &[u8],
    p: u16,
    line: &[u64],
    rest: &[u8],
    sums: &mut Steps<M>,
) -> Fed
    requires { MayTakeNew table.old n part.now p line.now rest.now }
    ensures fed { IsFed result table.old table.new n part.now }
    ensures sums { sums.new ≤ sums.old + table.old.shape.rows }
{
    if n <= table.nb_frag() {
        take_piece(table, n, part, p, line, rest, sums)
    } else if table.is_full() {
        Fed::NoRows
    } else {
        take_row(table, n, part, p, line, rest, sums)
    }
}

/// Takes in a piece whose line is no sum of the lines held.
fn take_piece<const W: usize, const B: usize, M: Ledger>(
    table: &mut Table<W, B>,
    n: u16,
    part: &[u8],
    p: u16,
    line: &[u64],
    rest: &[u8],
    sums: &mut Steps<M>,
) -> Fed
    requires new { MayTakeNew table.old n part.now p line.now rest.now }
    requires uncoded { n ≤ table.old.shape.nb_frag }
    ensures fed { IsFed result table.old table.new n part.now }
    ensures sums { sums.new ≤ sums.old + table.old.shape.rows }
{
    table.learn(n as usize - 1, part, p, line, rest, sums);
    decide(table)
}

/// Takes in a coded fragment whose line is no sum of the lines held, where a slot is spare. Its own bytes follow from the row
/// that is left of it.
fn take_row<const W: usize, const B: usize, M: Ledger>(
    table: &mut Table<W, B>,
    n: u16,
    part: &[u8],
    p: u16,
    line: &[u64],
    rest: &[u8],
    sums: &mut Steps<M>,
) -> Fed
    requires new { MayTakeNew table.old n part.now p line.now rest.now }
    requires coded { table.old.shape.nb_frag < n }
    requires spare { rows_held table.old.places < table.old.shape.rows }
    ensures fed { IsFed result table.old table.new n part.now }
    ensures sums { sums.new ≤ sums.old + table.old.shape.rows }
{
    table.push(p, line, rest, sums);
    decide(table)
}

/// Says whether only one block fits, and then puts it into the area.
fn decide<const W: usize, const B: usize>(table: &mut Table<W, B>) -> Fed
    requires held { IsReduced table.old.shape.nb_frag table.old.shape.frag_size table.old.places }
    ensures { DecidedAs result table.old table.new }
{
    if table.missing() == 0 {
        table.finish();
        Fed::Complete
    } else {
        Fed::Receiving
    }
}

/// The first column of a line.
fn first_set(line: &[u64]) -> Option<u16>
    requires { length line.now ≤ max_line_words }
    ensures { MatchOption result (line_in line.now ≡ 0) (λ p. bit_at (line_in line.now) p ≡ 1) }
{
    match first_bit(line) {
        Some(p) => Some(p as u16),
        None => None,
    }
}

/// Whether all bytes are zero.
fn is_zero(bytes: &[u8]) -> bool
    ensures yes { result ≡ true → IsZero bytes.now }
    ensures no { result ≡ false → (i : ℕ) × (get_or bytes.now i 0 ≢ 0) }
{
    bytes.iter().all(|b| *b == 0)
}
