//! Clock synchronization (TS003-1.0.0), both ends.
//! A device's time is true time plus its offset, and the correction is the one signed number that sets it right. Commands as
//! bytes are left to `sync_wire`; when a device asks is left to the crates above.
//!
//! The device's end, from `base_tests::clock`:
//!
//!     assert!(rt; clock.request(10_000, true) == request);  // AppTimeReq, at 10,000 ms
//!     assert!(rt; clock.millis(10_250) == 15_250);
//!     assert!(rt; clock.take_answer(-5, 3) == Taken::OtherToken);
//!     assert!(rt; clock.take_answer(-5, 0) == Taken::Set);  // AppTimeAns
//!
//! The server's end, from `campaign_server::time`:
//!
//!     let correction = correction(seconds, time);
//!     if !answer_needed(required, correction) {
//!         return None;
//!     }
//!     let command = Command::Sync(Cmd::AppTimeAns { correction, token });
#![tactic(auto)]

mod clock;
mod corrections;
mod laws;

pub use clock::{DeviceClock, Taken};
pub use corrections::{answer_needed, correction};
pub use laws::{
    an_answer_corrects, congruent_by_a_multiple, correction_is_the_one, correction_mends_the_clock,
    millis_are_of_the_seconds, worked_clocks,
};
