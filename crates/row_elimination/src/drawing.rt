//! The line of a fragment, in words of 64 columns.

ghost use Rattle.std.specs.Prelude.{◌≡◌, ◌+◌, ◌*◌, ◌/◌, ◌^◌, ◌<◌, ◌≤◌, length};
ghost use Rattle.frag_model.specs.Fragments.{draws_of, line_of};
ghost use Rattle.frag_model.specs.Limits.{max_parity_index, max_pieces};
ghost use Rattle.row_arena.specs.Rows.{line_in};

use parity_lines::Steps;
use row_arena::{clear_bits, flip_bit};
use std::sync::ledger::Ledger;

/// Writes the line of fragment `n` of a file of `pieces` pieces, and counts the states that are drawn for it. The line has room
/// for all pieces.
pub fn draw<L: Ledger>(n: u16, pieces: u16, line: &mut [u64], draws: &mut Steps<L>)
    requires some { 1 ≤ pieces }
    requires most { pieces ≤ max_pieces }
    requires first { 1 ≤ n }
    requires last { n ≤ pieces + max_parity_index }
    requires room { pieces ≤ 64 * length line.old }
    ensures line { line_in line.new ≡ line_of pieces n }
    ensures draws { draws.new ≡ draws.old + draws_of pieces n }
    ensures few { draws.new ≤ draws.old + 25 * (pieces / 2) }
{
    if n <= pieces {
        mark_piece(n as usize - 1, line);
    } else {
        parity_lines::line(n - pieces, pieces, line, draws);
    }
}

/// Marks only one column.
fn mark_piece(c: usize, line: &mut [u64])
    requires { c < 64 * length line.old }
    ensures { line_in line.new ≡ 2 ^ c }
{
    clear_bits(line);
    flip_bit(line, c);
}
