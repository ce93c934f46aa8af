//! Recovering a file from its fragments in fixed memory (TS004-1.0.0, fragmented data block transport; how a device recovers is
//! this project's profile). A `Solver` keeps the pieces that came uncoded and, fully reduced, a row for what each coded fragment
//! adds to them. Its contract says after each fragment which blocks fit, and that the solver is complete exactly when only one
//! block fits. Which fragments are heard, and what happens to a whole file, is left to the sessions above.
//!
//! From `session_tests::solver`:
//!
//!     match Solver::reserve(alloc, 64) {  // all memory
//!         Ok(solver) => Receiver::begin(rt, solver, pieces, 1, rows),
//!         Err(_) => panic!(rt; "no memory"),
//!     }
//!
//!     if solver.begin(nb_frag, frag_size, 0, rows).is_err() {
//!         panic!(rt; "no room");
//!     }
//!
//!     let fed = self.solver.feed(n, part);
//!     self.stage = match fed {
//!         Fed::Receiving => Stage::Receiving,  // `missing` pieces are still to be gained
//!         Fed::Complete => Stage::Complete,    // `block` is the file and its padding
//!         Fed::NoRows | Fed::Conflict => Stage::Ended,
//!     };
#![tactic(auto)]

mod additions;
mod bytes;
mod columns;
mod drawing;
mod entries;
pub mod laws;
mod passes;
mod solver;
mod stages;
mod tables;
mod taking;
mod uncounted;
mod widening;

pub use solver::{MAX_FRAG_SIZE, Memory, NoRoom, Solver};
pub use stages::{Fed, Stage};
