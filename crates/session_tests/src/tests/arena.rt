//! Shapes that fit and that do not, and sums of rows.

use row_arena::{NoRoom, RowArena};
use std::test::*;

/// Rows, columns and bytes a row, and whether they fit.
static SHAPES: [(u16, u16, u16, bool); 12] = [
    (0, 0, 0, true),
    (65535, 0, 0, true),
    (4, 64, 2, true),
    (4, 65, 2, false),
    (2, 65, 3, true),
    (2, 128, 4, true),
    (2, 129, 3, false),
    (3, 64, 3, false),
    (1, 256, 8, true),
    (1, 256, 9, false),
    (1, 257, 0, false),
    (1, 64, 65535, false),
];

#[test]
fn shapes_that_fit_and_that_do_not(rt: HostRuntime) {
    let mut arena = RowArena::<4, 8>::new();
    for (rows, cols, cell, fits) in &SHAPES {
        assert!(rt; arena.shape(*rows, *cols, *cell).is_ok() == *fits);
    }
}

#[test]
#[tactic(auto, unfolding(row_arena::specs::Rows::line_in, row_arena::specs::Rows::words_for))]
fn an_arena_stays_as_it_was_where_there_is_no_room(rt: HostRuntime) {
    let mut arena = RowArena::<4, 8>::new();
    assert!(rt; arena.shape(2, 65, 3) == Ok(()));
    arena.set_row(1, &[5, 1], &[7, 8, 9]);
    assert!(rt; arena.shape(2, 129, 3) == Err(NoRoom));
    assert!(rt; arena.shape(3, 64, 3) == Err(NoRoom));
    assert!(rt; arena.rows() == 2 && arena.cols() == 65);
    assert!(rt; arena.words(0) == [0, 0].as_slice() && arena.bytes(0) == [0, 0, 0].as_slice());
    assert!(rt; arena.words(1) == [5, 1].as_slice() && arena.bytes(1) == [7, 8, 9].as_slice());
}

#[test]
#[tactic(auto, unfolding(row_arena::specs::Rows::line_in, row_arena::specs::Rows::words_for))]
fn rows_are_added_and_cleared_and_have_a_first_column(rt: HostRuntime) {
    let mut arena = RowArena::<6, 9>::new();
    assert!(rt; arena.shape(3, 65, 3) == Ok(()));
    arena.set_row(0, &[6, 1], &[1, 2, 3]);
    arena.set_row(1, &[6, 0], &[3, 2, 255]);
    arena.set_row(2, &[1, 0], &[9, 9, 9]);
    assert!(rt; arena.first_set(0) == Some(1));
    arena.xor_row(0, 1);
    assert!(rt; arena.words(0) == [0, 1].as_slice() && arena.bytes(0) == [2, 0, 252].as_slice());
    assert!(rt; arena.first_set(0) == Some(64) && arena.bit(0, 64) && !arena.bit(0, 1));
    assert!(rt; arena.words(1) == [6, 0].as_slice() && arena.bytes(1) == [3, 2, 255].as_slice());
    assert!(rt; arena.words(2) == [1, 0].as_slice() && arena.bytes(2) == [9, 9, 9].as_slice());
    arena.clear_row(0);
    assert!(rt; arena.first_set(0) == None && arena.bytes(0) == [0, 0, 0].as_slice());
    assert!(rt; arena.first_set(1) == Some(1) && arena.first_set(2) == Some(0));
}
