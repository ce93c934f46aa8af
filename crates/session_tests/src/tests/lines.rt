//! Lines of coded fragments, by hand and as the plain program draws them.

ghost use Rattle.std.specs.Prelude.{◌≤◌};

use frag_model::lines::{MAX_PARITY_INDEX, MAX_PIECES, plain_line};
use parity_lines::{line_uncounted, prbs23};
use std::process::Abort;
use std::test::*;

#[test]
fn the_register_moves_as_in_the_standard(rt: HostRuntime) {
    assert!(rt; prbs23(0) == 0);
    assert!(rt; prbs23(1) == 0x40_0000);
    assert!(rt; prbs23(1002) == 4_194_805);
    assert!(rt; prbs23(0x20) == 0x40_0010);
    assert!(rt; prbs23(0x21) == 0x10);
}

/// Lines by their numbers and columns, and their words.
static LINES: [(u16, u16, u64); 9] = [
    (1, 1, 0),
    (1, 2, 0b10),
    (1, 4, 0b101),
    (2, 4, 0b101),
    (3, 4, 0b1010),
    (4, 4, 0b110),
    (5, 4, 0b1001),
    (7, 4, 0b1000),
    (9, 4, 0b1010),
];

/// The words after the line's are zeros.
fn is_line(rt: &impl Abort, n: u16, cols: u16, word: u64) {
    assert!(rt; 1 <= n && n <= MAX_PARITY_INDEX && 1 <= cols && cols <= 4);
    let mut out = [!0; 3];
    line_uncounted(n, cols, &mut out);
    assert!(rt; out == [word, 0, 0]);
}

#[test]
fn lines_worked_out_by_hand(rt: HostRuntime) {
    for (n, cols, word) in &LINES {
        is_line(&rt, *n, *cols, *word);
    }
}

#[test]
fn the_first_draw_of_line_1_over_4096_columns(rt: HostRuntime) {
    assert!(rt; prbs23(1002) % 4097 == 3574);
    let mut out = [0; 64];
    line_uncounted(1, 4096, &mut out);
    assert!(rt; out[3574 / 64] >> (3574 % 64) & 1 == 1);
}

/// Whether the words have the columns of the plain program, and no other bit.
fn agrees(n: u16, cols: u16) -> bool
    requires first { 1 ≤ n }
    requires last { n ≤ MAX_PARITY_INDEX }
    requires some { 1 ≤ cols }
    requires most { cols ≤ MAX_PIECES }
{
    let mut columns = [false; MAX_PIECES as usize];
    plain_line(n, cols, &mut columns[..cols as usize]);
    let mut out = [!0; MAX_PIECES as usize / 64];
    line_uncounted(n, cols, &mut out);
    for (c, column) in columns.iter().enumerate() {
        if (out[c / 64] >> (c % 64) & 1 == 1) != *column {
            return false;
        }
    }
    true
}

static COLUMNS: [u16; 15] = [
    1, 2, 3, 4, 5, 8, 63, 64, 65, 127, 128, 1000, 1024, 4095, 4096,
];

static NUMBERS: [u16; 9] = [1, 2, 3, 5, 7, 9, 4096, 8379, 8380];

#[test]
fn lines_as_the_plain_program_draws_them(rt: HostRuntime) {
    for cols in &COLUMNS {
        for n in &NUMBERS {
            assert!(rt; 1 <= *n && *n <= MAX_PARITY_INDEX && 1 <= *cols && *cols <= MAX_PIECES);
            assert!(rt; agrees(*n, *cols));
        }
    }
}
