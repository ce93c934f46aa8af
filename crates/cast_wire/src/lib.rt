//! The commands of fragmented data block transport (TS004-1.0.0, port 201) and remote multicast setup (TS005-1.0.0, port 200),
//! one by one, as values and as bytes. A command is read exactly where its bytes spell it by its row of `specs/Table.antt`; any
//! other place is refused with its cause. A valid command is written in its canonical spelling, whole or not at all. Payloads of
//! several commands, the other packages and what a command does are left to the crates above.
//!
//! From `base_tests::cast`:
//!
//!     match read_one(port, dir, bytes, 0) {
//!         Ok((found, next)) => {
//!             assert!(rt; found == *cmd);
//!             assert!(rt; next as usize == bytes.len());  // the next command begins at `next`
//!         }
//!         Err(_) => assert!(rt; false),                   // at which byte, and why
//!     }
//!
//! From `sample_receiver`:
//!
//!     if let Some(fragment) = fragment_at(payload, 0) {
//!         if fragment.index == 0 {
//!             receiver.fragment(Via::Unicast, fragment.n, fragment.bytes, mark);  // the bytes are not copied
//!         }
//!     }
#![tactic(auto)]

mod cmd;
mod fragment;
mod fragment_bytes;
mod group_list;
mod ids;
mod laws;
mod reading;
mod reading_fragments;
mod reading_groups;
mod setup_refusal;
mod validity;
mod writing;
mod writing_fragments;
mod writing_groups;

pub use cmd::Cmd;
pub use fragment::{Fragment, fragment_at};
pub use fragment_bytes::{FragmentBytes, MAX_FRAGMENT};
pub use group_list::{GroupAddress, GroupList, MAX_GROUPS};
pub use ids::{FRAGMENT_PORT, MULTICAST_PORT};
pub use laws::{
    no_spelling_begins_another, place_has_one_spelling, refusal_bits_are_kept, worked_spellings,
    written_is_read,
};
pub use reading::read_one;
pub use setup_refusal::{refusal_bits, setup_answer};
pub use validity::valid;
pub use writing::write_one;
