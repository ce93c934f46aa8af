//! Parity lines, drawn one state at a time.

ghost use Rattle.std.specs.Prelude.{◌≡◌, ◌+◌, ◌<◌, ◌≤◌, ◌^◌, length};
ghost use Rattle.frag_model.specs.Parity.{prbs23, modulus, line, draws, number_of};

/// The largest number of a coded fragment is this much above the number of columns (TS004-1.0.0 has 14 bits for it; up to here
/// the first state fits the register).
pub const MAX_PARITY_INDEX: u16 = 8380;

/// The most pieces of a file (this project's profile).
pub const MAX_PIECES: u16 = 4096;

/// Returns the next state of the 23-bit register (PRBS23, TS004-1.0.0) after `x`.
pub fn plain_prbs23(x: u32) -> u32
    requires { x < 2 ^ 23 }
    ensures { result ≡ prbs23 x }
{
    (x >> 1) + (((x & 1) ^ (x >> 5 & 1)) << 22)
}

/// Returns what states are divided by: `cols`, and one more where `cols` is a power of two.
pub fn plain_modulus(cols: u16) -> u16
    requires { cols ≤ MAX_PIECES }
    ensures value { result ≡ modulus cols }
    ensures least { cols ≤ result }
    ensures most { result ≤ cols + 1 }
{
    if cols.is_power_of_two() {
        cols + 1
    } else {
        cols
    }
}

/// Marks the columns of coded fragment `n` over `cols` columns (TS004-1.0.0), and returns how many states were drawn.
pub fn plain_line(n: u16, cols: u16, out: &mut [bool]) -> u16
    requires first { 1 ≤ n }
    requires last { n ≤ MAX_PARITY_INDEX }
    requires some { 1 ≤ cols }
    requires most { cols ≤ MAX_PIECES }
    requires room { length out.old ≡ cols }
    ensures line { number_of out.new ≡ line n cols }
    ensures draws { result ≡ draws n cols }
{
    out.fill(false);
    let half = cols / 2;
    let modulus = plain_modulus(cols);
    let mut x = 1 + 1001 * n as u32;
    let mut found = 0;
    let mut draws = 0;
    for turn in 0..25 * half {
        if found < half {
            x = plain_prbs23(x);
            draws += 1;
            let residue = (x % modulus as u32) as u16;
            if residue < cols {
                out[residue as usize] = true;
                found += 1;
            }
        }
    }
    draws
}
