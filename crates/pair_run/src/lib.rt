//! Two campaigns of firmware updates over LoRaWAN at once (TS003 to TS006, 1.0.0), as one script describes them line by line: two
//! servers, each with its image, session index and group, and the devices of both. `Pair` is two worlds. Each line goes to its
//! own campaign, and the other one only counts it; a payload that a server sends to all may reach a device of the other campaign.
//! Which campaign a line is for, and the report of both, are this project's profile. What a line does to one campaign is left to
//! `campaign_world`; files and words of a command line are left to the program above.
//!
//! From `run_tests::pairs`:
//!
//!     let mut pair = pair(&rt, rt.alloc());                     // `Pair::new` of two images
//!     assert!(rt; pair.line(b"fuota 2").is_ok());
//!     assert!(rt; pair.line(b"image a 52 0 0").is_ok());
//!     assert!(rt; pair.line(b"image b 56 0 0") == Err(FAULT));  // the first refused line, and why
//!     reports_none(&rt, rt.alloc(), &pair);                     // `pair.report` answers the same
#![tactic(auto)]

mod causes;
mod hearing;
mod laws;
mod owners;
mod pair;
mod report;
mod steps;
mod targets;

pub use laws::{
    counters_are_unread, each_campaign_reads_its_lines, frames_cross_as_payloads, worked_two,
};
pub use owners::Owner;
pub use pair::Pair;
pub use report_lines::LineFault;
