//! The four sessions of a device, by their index: only in memory, or held in one flash, each in its own range, or down until
//! power comes. Whatever call is stopped, opening them again gives the sessions as they were or as they are after the call; for a
//! setup and a delete it may also give none at that index. What happens to a whole file is left to the device above.
//!
//! From `session_tests::store`:
//!
//!     match SessionStore::reserve(alloc, flash, LAYOUT, SessionSize::Large, true) {  // all memory; `flash` is a `Flash`
//!         Ok(store) => store,
//!         Err(_) => panic!(rt; "no memory"),
//!     }
//!
//!     assert!(rt; store.is_held());
//!     store.power().is_ok()  // the sessions that are stored there, or none
//!
//!     assert!(rt; index < 4 && !store.is_down());
//!     store.fragment(index, Via::Unicast, n, &[byte], 7).is_ok()  // what was heard outlasts a stop
#![tactic(auto)]

mod flash_sessions;
mod held_slots;
mod laws;
mod memory_sessions;
mod session_slots;
mod sizes;
mod state;
mod store;

pub use held_slots::{HeldSlots, Idles, Layout};
pub use laws::{rows_decide, worked_places};
pub use session_slots::SessionSlots;
pub use sizes::{SessionSize, size_for};
pub use state::CompleteFlags;
pub use store::{FlashFault, SessionStore};
