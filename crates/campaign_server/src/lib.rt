//! The server of a firmware campaign over LoRaWAN (TS003 to TS006, 1.0.0; the order of its stages is this project's profile). One
//! step function over a record says what it asks of each device, what it sends to all, and where an answer leads. Contracts see
//! that record: the plan, the image, a stage and a last status for each device, the next fragment and the group's next frame
//! count. When anything is sent, and whether it arrives, is left to the caller.
//!
//! From `device_tests::server`:
//!
//!     match Server::new(alloc, plan, &IMAGE) {  // `IMAGE` is an image file
//!         Ok(server) => OneDevice { server },
//!         Err(_) => panic!(rt; "no server"),
//!     }
//!
//!     match self.server.ask(1) {  // what device 1 is to be sent next
//!         Some(down) => assert!(rt; is_down(&down, To::Unicast, port, bytes)),
//!         None => assert!(rt; bytes.is_empty()),
//!     }
//!
//!     assert!(rt; server.has_frame(down));
//!     let frame = server.frame(down);  // of a plan with a group: the bytes on air
//!
//! An uplink, from `campaign_world::world::sends`:
//!
//!     let uplink = &made.uplink;
//!     let heard = server.uplink(device, uplink.port(), uplink.bytes(), t);  // moves the stage of the device
//!     keep(sent, Some(device), &answered(heard));
#![tactic(auto)]

mod answers;
mod asking;
mod checks;
mod fragments;
mod framing;
mod laws;
mod plan;
mod saving;
mod server;
mod spelling;
mod stage;
mod starting;
mod time;

pub use fragments::Spent;
pub use laws::{
    a_count_is_sent_once, a_device_unwraps_the_key, a_frame_is_opened,
    a_refused_uplink_changes_nothing, a_server_lasts_through_restarts, an_answer_moves_once,
    an_end_is_final, worked_steps, wrapped_key_is_the_one,
};
pub use plan::{Field, Kind, Plan, PlanDevice, PlanGroup, PlanWindow};
pub use saving::{MAX_SAVED, RestoreError, SavedServer};
pub use server::{Server, ServerError};
pub use stage::{LastStatus, Request, Stage};
