//! What the crates for C share: an object, or none, as the pointer that C keeps, bytes that go into C's memory, and the numbers
//! that calls answer. A box that is taken apart comes back with the value that it had, and bytes are written whole or as a
//! window. How a handle goes to C, and what a call does to its object, is left to the crates above.
#![tactic(auto)]

pub mod answer;
mod bytes;
mod handle;
mod laws;
mod raw_box;

pub use bytes::{copy_part, put_whole};
pub use handle::Handle;
pub use laws::worked_answers;
pub use raw_box::RawBox;
