//! One fragmentation session of a LoRaWAN device (TS004-1.0.0): its setup, the fragments that it hears, and the file that they
//! make. A slot stands for the list of all fragments heard since its setup. It keeps no list, but its contracts say each answer
//! over it. Where payloads come from, and what happens to a whole file, is left to the device above.
//!
//! From `sample_receiver`:
//!
//!     let solver = Solver::reserve_for(alloc, 256 * 48, 256)?;  // all memory
//!     Ok(Slot::new(Idle::new(solver)))
//!
//!     if let Some(fragment) = fragment_at(payload, 0) {
//!         if fragment.index == 0 {
//!             receiver.fragment(Via::Unicast, fragment.n, fragment.bytes, mark);  // fed, or dropped and why
//!         }
//!     }
//!
//!     let view = receiver.view()?;
//!     match view.verdict {
//!         Verdict::Complete(_) => Some(view.file),
//!         _ => None,
//!     }
#![tactic(auto)]

mod answers;
mod complete_state;
mod dropping;
mod failed_state;
mod idle_state;
mod laws;
mod receiving_state;
mod setups;
mod slots;
mod statuses;

pub use answers::{Cause, Heard, News, StatusAns, Verdict, Via, View};
pub use complete_state::Complete;
pub use failed_state::{Conflicted, Overflowed};
pub use idle_state::Idle;
pub use laws::{first_moment, missing_is_counted, worked_sessions};
pub use receiving_state::{Next, Receiving};
pub use setups::{Limits, SetupReq};
pub use slots::{Slot, State};
