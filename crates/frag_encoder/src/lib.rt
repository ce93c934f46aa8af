//! The fragments of a file, as a server of LoRaWAN's fragmented data block transport sends them (TS004-1.0.0).
//! For each number up to 8,380 above the number of pieces, `fragment` gives the definition's data over the file, filled up with
//! zeros: the piece itself, or the XOR of the pieces in the coded fragment's line. Which fragments are sent, when, and to whom is
//! left to the crates above.
//!
//! From `sample_sender`:
//!
//!     let mut part = ArrayVec::new();
//!     match encoder.fragment(n, &mut part) {
//!         Ok(()) => {
//!             let bytes = FragmentBytes::from_slice(part.as_slice());
//!             let fragment = Command::Cast(Cmd::DataFragment { index: 0, n, bytes });
//!             Some(spelled(FRAGMENT_PORT, Direction::Down, &fragment))
//!         }
//!         Err(Beyond) => None,
//!     }
#![tactic(auto)]

mod answers;
mod encoder;
pub mod laws;
mod xoring;

pub use answers::{Beyond, EncoderError};
pub use encoder::{Encoder, MAX_FRAGMENT};
