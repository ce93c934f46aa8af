//! The parity lines of LoRaWAN's fragmented data block transport (TS004-1.0.0, the parity matrix of its forward error correction
//! code). For each number of a coded fragment and each number of columns, `line` makes the line of the definition in words of 64
//! bits. It draws as many states of the register as the definition, at most 25 for each column that the line needs. What a line
//! is for, the XOR of the pieces at its columns, is left to the crates above.
//!
//! From `session_tests::lines`:
//!
//!     let mut out = [0; 64];              // 64 columns a word
//!     line_uncounted(1, 4096, &mut out);  // coded fragment 1 of 4,096 pieces, which is fragment 4,097
//!     assert!(rt; out[3574 / 64] >> (3574 % 64) & 1 == 1);
#![tactic(auto)]

mod lines;
mod residues;
mod steps;
mod uncounted;

pub use lines::{line, prbs23};
pub use steps::Steps;
pub use uncounted::line_uncounted;
