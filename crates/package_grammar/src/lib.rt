//! The commands of all four packages of firmware update over LoRaWAN, and payloads of several commands: clock
//! synchronization (TS003-1.0.0, port 202), fragmented data block transport (TS004-1.0.0, port 201), remote multicast
//! setup (TS005-1.0.0, port 200) and firmware management (TS006-1.0.0, port 203).
//! A payload is read as a message exactly where its commands spell it from its first byte to its last; else the answer says where
//! and why reading stops. A valid command is written in its canonical spelling, and read again. What a command does is left to
//! the device and the server above.
//!
//! From `sample_decoder`:
//!
//!     match Message::read(port, direction, payload) {
//!         Ok(message) => match lines(alloc, message) {
//!             Ok(text) => Ok(text),
//!             Err(AllocError) => Err(DecodeError::Memory),
//!         },
//!         Err(refusal) => Err(DecodeError::Refused(refusal)),  // where and why reading stops
//!     }
//!
//!     while let Some(command) = message.next() {
//!         show(&command, &mut text)?;  // "AppTimeAns correction=5 token=3"
//!         text.extend_from_slice(b"\n")?;
//!     }
//!
//! The way back, from `base_tests::grammar`:
//!
//!     let delete = Command::Cast(cast_wire::Cmd::FragSessionDeleteReq { index: 2 });
//!     let payload = spelled(201, Direction::Down, &delete);
//!     assert!(rt; payload.as_slice() == [0x03, 0x02].as_slice());
#![tactic(auto)]

mod checking;
mod command;
mod downlink;
mod laws;
mod message;
mod names;
mod reading;
mod showing;
mod showing_cast;
mod showing_parts;
mod showing_place;
mod showing_sync;
mod writing;

pub use checking::check;
pub use command::{Command, valid};
pub use downlink::{Downlink, DownlinkRef, To};
pub use laws::{
    reading_has_one_answer, reading_is_exact, worked_payloads, worked_texts, written_is_message,
    written_is_read,
};
pub use message::Message;
pub use reading::read_one;
pub use showing::show;
pub use writing::{spell, spelled, write_one};
