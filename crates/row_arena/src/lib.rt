//! Rows of bits and bytes in storage of fixed size, and their sums by XOR: the storage and the arithmetic with which a device
//! recovers a file that TS004-1.0.0 sends in fragments (this project's profile). Each call of a `RowArena` says exactly which
//! rows there are afterwards; `pick` and `sum_pieces` say what they take out of a line and add to a part. Which rows are worth
//! keeping, and what they mean, is left to the elimination above.
//!
//! From `session_tests::arena`:
//!
//!     let mut arena = RowArena::<6, 9>::new();
//!     assert!(rt; arena.shape(3, 65, 3) == Ok(()));  // 3 rows of 65 columns and 3 bytes, all zero
//!     arena.set_row(0, &[6, 1], &[1, 2, 3]);
//!     arena.set_row(1, &[6, 0], &[3, 2, 255]);
//!     arena.set_row(2, &[1, 0], &[9, 9, 9]);
//!     assert!(rt; arena.first_set(0) == Some(1));
//!     arena.xor_row(0, 1);                           // row 1 is added to row 0
//!     assert!(rt; arena.words(0) == [0, 1].as_slice() && arena.bytes(0) == [2, 0, 252].as_slice());
#![tactic(auto)]

mod arena;
mod lanes;
mod laws;
mod lines;
mod picks;
mod pieces;
mod stretches;

pub use arena::{NoRoom, RowArena, words_for};
pub use lanes::{xor_bytes, xor_words};
pub use laws::worked_rows;
pub use lines::{clear_bits, first_bit, flip_bit};
pub use picks::pick;
pub use pieces::sum_pieces;
