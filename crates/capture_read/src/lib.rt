//! One line of a capture: a JSON object (RFC 8259) with a payload in hex, its port and its direction (this project's profile).
//! Any bytes are an entry exactly where the definition says so, over the value that `serde_json` reads; a refusal names the first
//! cause that holds. Lines, their numbers, and what happens to an entry are left to the crates above.
//!
//! From `payload_replay::capturing`:
//!
//!     match entry_with(alloc, scratch, line) {
//!         Ok(item) => Ok(item),
//!         Err(EntryError::Memory) => Err(LineError::Memory),
//!         Err(EntryError::Refused(fault)) => Err(refused_behind(lines, cause_of(fault))),  // the first that holds
//!     }
//!
//! For line after line, `entry_with` borrows one `Scratch` again and again.
#![tactic(auto)]

mod answers;
mod laws;
mod members;
mod numbers;
mod reading;

pub use answers::{Entry, EntryError, EntryFault};
pub use json::Scratch;
pub use laws::{entries_fit_frames, worked_entries};
pub use reading::{entry, entry_with};
