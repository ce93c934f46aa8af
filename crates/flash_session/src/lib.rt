//! Sessions of fragments held in flash (this project's profile): a flash as a trait, three flashes in memory, and a session in a
//! range of one. The trait's members say what a flash holds and what a stop may leave. Whatever call is stopped, opening the
//! range again gives a session that stands for what was acknowledged, or for that and the fragment of the stopped call. Where
//! sessions are in a flash, and what happens to a whole file, is left to the device above.
//!
//! From `session_tests::flash`:
//!
//!     match Held::open(flash, base, SPAN, idle, LIMITS) {
//!         Ok(held) => held,                          // with the session that is stored there, or with none
//!         Err(_) => panic!(rt; "it does not open"),  // the flash failed, or a place is foreign
//!     }
//!
//!     Call::Hear(n, byte) => match held.hear(flash, Via::Unicast, n, &[byte], 7) {
//!         Ok((held, _)) => Ok(held),  // what was heard outlasts a stop
//!         Err(idle) => Err(idle),     // the flash failed: open again
//!     },
#![tactic(auto)]

mod beginning;
mod cells;
mod fault;
mod finding;
mod fixed_memory;
mod flash;
mod held;
mod laws;
mod layout;
mod log;
mod memory;
mod reading;
mod replaying;
mod schedule;
mod stops;
mod storing;

pub use cells::CellFlash;
pub use fault::OpenFault;
pub use fixed_memory::fixed_memory_knows_all;
pub use flash::{Failed, Flash};
pub use held::Held;
pub use laws::worked_bytes;
pub use layout::parts_lie_side_by_side;
pub use memory::MemFlash;
pub use stops::StopFlash;
