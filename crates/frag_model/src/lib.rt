//! The algebra of fragments of LoRaWAN's fragmented data block transport (TS004-1.0.0): parity lines, which blocks fit what was
//! heard, and the verdict and the recovered file that follow. Its functions are plain and slow, and their contracts are the
//! definitions of `specs/`; functions with an empty body have laws about these as their contracts. How to recover a file in
//! little memory and time is left to the crates above, which cite the same definitions.
//!
//! Its plain code, from `session_tests::encoder`:
//!
//!     let cols = encoder.nb_frag();
//!     let mut line = [false; 4096];
//!     let line = &mut line[..cols as usize];
//!     plain_line(n, cols, line);  // the line of coded fragment `n`
#![tactic(auto)]

pub mod gains;
pub mod laws;
pub mod lines;
