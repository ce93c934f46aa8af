//! The commands of clock synchronization (TS003-1.0.0, port 202) and firmware management (TS006-1.0.0, port 203), one by one, as
//! values and as bytes. A command is read exactly where its bytes spell it by its row of `specs/Table.antt`; any other place is
//! refused with its cause. A valid command is written in its canonical spelling, whole or not at all. Payloads of several
//! commands, the other packages and what a command does are left to the crates above.
//!
//! From `base_tests::sync`:
//!
//!     let mut out = Payload::new();
//!     assert!(rt; valid(cmd));
//!     assert!(rt; write_one(cmd, &mut out).is_ok());  // whole or not at all
//!     assert!(rt; out.as_slice() == bytes);
//!
//!     match read_one(port, dir, bytes, 0) {
//!         Ok((found, next)) => {
//!             assert!(rt; found == *cmd);
//!             assert!(rt; next as usize == bytes.len());  // the next command begins at `next`
//!         }
//!         Err(_) => assert!(rt; false),                   // at which byte, and why
//!     }
#![tactic(auto)]

mod cmd;
mod ids;
mod laws;
mod reading;
mod reading_clock;
mod reading_firmware;
mod validity;
mod writing;
mod writing_clock;
mod writing_firmware;

pub use cmd::Cmd;
pub use ids::{CLOCK_PORT, DEV_VERSION, FIRMWARE_PORT, PACKAGE_VERSION, UPGRADE_IMAGE};
pub use laws::{
    no_spelling_begins_another, place_has_one_spelling, worked_spellings, written_is_read,
};
pub use reading::read_one;
pub use validity::valid;
pub use writing::write_one;
