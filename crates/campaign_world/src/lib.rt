//! A campaign of a firmware update over LoRaWAN (TS003 to TS006, 1.0.0) as a script describes it, line by line: a server, its
//! devices, what was sent and what was heard. The forms of a script, their order and the report are this project's profile.
//! `World` takes one line after another, or refuses the first wrong one with its first cause, and makes the report. A campaign
//! can be played next to another one: it shows its state to the other, and skips lines that are only for the other. Files and
//! words of a command line are left to the program above.
//!
//! From `run_tests::worlds`:
//!
//!     match World::new(alloc, &IMAGE) {
//!         Ok(world) => world,
//!         Err(_) => panic!(rt; "no memory"),
//!     }
//!
//!     for line in lines {
//!         assert!(rt; world.line(line.as_bytes()) == Ok(()));  // or the first refused line, and why
//!     }
//!
//!     match world.report(alloc) {
//!         Ok(text) => {
//!             assert!(rt; text.as_slice() == wanted.as_bytes());
//!             drop(text);
//!         }
//!         Err(_) => panic!(rt; "no report"),
//!     }
#![tactic(auto)]

mod causes;
mod happening;
mod hearing;
mod late;
mod logs;
mod numbered;
mod recovery;
mod report;
mod section;
mod summary;
mod uplink_ref;
mod world;

pub use causes::{fits_flash, is_device, is_event_or_end, is_in_order, names_device};
pub use numbered::SentPayload;
pub use recovery::NoFile;
pub use section::Section;
pub use uplink_ref::UplinkRef;
pub use world::World;
