//! The lines of a report and of a file: which line is refused and why, the stage of a device, what it counted, and what its
//! sessions show; and how the lines of a file are taken one after another. The texts are this project's profile. Each call
//! returns exactly the text of its definition, or says that memory is missing. What a campaign is, and what captured payloads do
//! to a device, is left to the crates above.
//!
//! From `campaign_world::report`:
//!
//!     let sessions = session_lines(alloc, device, Tail::Same(image))?;
//!
//!     let stand = device_line(alloc, name, stage, stands)?;  // device 3 updated clock 0 token 0 ..
//!     let counts = counts_line(alloc, counts)?;              // counts deaf 0 refused 0 full 0 dropped 0
//!     three_texts(alloc, stand.as_str(), counts.as_str(), sessions)
//!
//! A refused line, from `fuota_run::answers`:
//!
//!     Ok(Answer {
//!         status: Status::ScriptRefused,
//!         text: fault_line(alloc, fault)?.into_bytes(),  // line 5 unsent
//!     })
#![tactic(auto)]

mod devices;
mod faults;
mod laws;
mod sessions;

pub use devices::{Standing, counts_line, device_line};
pub use faults::{LineError, LineFault, LineWhy, MAX_LINE, MAX_LINES, fault_line, refused_behind};
pub use laws::lines_read_so;
pub use sessions::{Tail, session_lines};
