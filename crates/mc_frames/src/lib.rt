//! Multicast downlink frames of LoRaWAN 1.0.x (section 4), under AES-CMAC (RFC 4493). A frame is made as the standard says. Bytes
//! are opened exactly where they are such a frame for the address, with a count that is due; otherwise the answer is the first
//! fault. It is not promised that nobody else finds a valid MIC. Which group is heard, and what its keys are, is left to the
//! crates above.
//!
//! From `base_tests::frames`:
//!
//!     let long = frame(&KEYS, ADDR, 0x0102_0304, 200, &long_payload());
//!     assert!(rt; long.as_slice() == LONG_FRAME.as_slice());
//!
//!     match open(&KEYS, ADDR, min, max, bytes) {
//!         Ok(opened) => {
//!             assert!(rt; opened.count == count && opened.port == port);
//!             assert!(rt; opened.payload.as_slice() == payload);
//!         }
//!         Err(_) => panic!(rt; "it is not opened"),  // the first fault that holds: `Short`, .., `Count`, `Mic`
//!     }
#![tactic(auto)]

mod fault;
mod laws;
mod mac;
mod opening;
mod sending;
mod session;

pub use fault::FrameFault;
pub use laws::{frame_holds_what_it_was_made_of, held_is_unique, one_count_is_near, worked_frames};
pub use mac::cmac;
pub use opening::{Opened, fault_without_group, open};
pub use sending::{Frame, MAX_FRAME, frame};
pub use session::Keys;
