//! The columns of a line, drawn from the register.

ghost use Rattle.std.specs.Prelude.{◌≡◌, ℕ, ◌+◌, ◌*◌, ◌/◌, ◌%◌, ◌^◌, ◌<◌, ◌≤◌, length};
ghost use Rattle.frag_model.specs.Parity.{prbs23};
ghost use Rattle.parity_lines.specs.Lines.{IsDrawn, IsLine};

use crate::residues::{reciprocal_of, residue};
use crate::steps::Steps;
use frag_model::lines::{MAX_PARITY_INDEX, MAX_PIECES, plain_modulus};
use std::sync::ledger::Ledger;

/// How many states one number has after the state that it begins with.
const AHEAD: u16 = 18;

/// Returns the next state of the 23-bit register after `x` (PRBS23, TS004-1.0.0): all bits move down by one, and the sum of bit 0
/// and bit 5 comes in as bit 22. A state is below 2^23.
pub fn prbs23(x: u32) -> u32
    ensures { result ≡ prbs23 x }
{
    (x >> 1) + (((x & 1) ^ (x >> 5 & 1)) << 22)
}

/// The next 18 states after `x`, in one number: a state is 23 of its bits, which begin one bit above those of the state before
/// it.
fn ahead(x: u64) -> u64
    requires state { x < 2 ^ 23 }
    ensures first { result % 2 ^ 23 ≡ x }
    ensures each { (k : ℕ) → k < AHEAD
        → result / 2 ^ (k + 1) % 2 ^ 23 ≡ prbs23 (result / 2 ^ k % 2 ^ 23) }
{
    x + ((x ^ x >> 5) << 23)
}

/// Draws the line of coded fragment `n` over `cols` columns (TS004-1.0.0), and counts one step for each state drawn. `n` is 1 to
/// 8,380 and `cols` 1 to 4,096. `out` has at least a bit for each column, (cols + 63) / 64 words. Column c is bit c % 64 of word
/// c / 64; every other bit of `out` becomes 0. It takes no memory.
pub fn line<L: Ledger>(n: u16, cols: u16, out: &mut [u64], steps: &mut Steps<L>)
    requires first { 1 ≤ n }
    requires last { n ≤ MAX_PARITY_INDEX }
    requires some { 1 ≤ cols }
    requires most { cols ≤ MAX_PIECES }
    requires room { cols ≤ 64 * length out.old }
    ensures line { IsLine n cols out.new }
    ensures drawn { IsDrawn n cols steps.old steps.new }
{
    out.fill(0);
    let half = cols / 2;
    let modulus = plain_modulus(cols);
    let reciprocal = reciprocal_of(modulus);
    let mut x = 1 + 1001 * n as u64;
    let mut found = 0;
    let mut drawn = 0;
    while drawn != 25 * half {
        if found == half {
            return;
        }
        let count = (half - found).min(25 * half - drawn).min(AHEAD);
        let mut states = ahead(x);
        for turn in drawn..drawn + count {
            states >>= 1;
            steps.tick();
            let column = residue((states & 0x7f_ffff) as u32, modulus, reciprocal);
            if column < cols {
                out[column as usize / 64] |= 1 << (column % 64);
                found += 1;
            }
        }
        x = states & 0x7f_ffff;
        drawn += count;
    }
}
