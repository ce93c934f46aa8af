//! A run of the program: a campaign of a firmware update over LoRaWAN (TS003 to TS006, 1.0.0), or two of one script, the file
//! that a device recovered, the campaign of a seed, and captured payloads, replayed, decoded or both. A run ends with the status
//! and the text that its words and files define, and each other status says what failed. Campaigns are left to `campaign_world`
//! and `pair_run`, payloads to `payload_replay`; the words and the system's runtime come from the program above.
//!
//! From `fuota`:
//!
//!     let mut files = StdFiles::new(rt);
//!     let mut out = StdSink::new(rt);
//!     run(rt.alloc(), words, &mut files, &mut out)
#![tactic(auto)]

mod answers;
mod campaign_answers;
mod files;
mod forms;
mod hearing;
mod images;
mod laws;
mod memory;
mod output;
mod payload_answers;
mod running;
mod sink;
mod source;
mod status;
mod sure;
mod system;
mod values;
mod words;

pub use campaign_world::World;
pub use files::{Failed, Files};
pub use laws::{
    capture_is_answered, names_are_words, other_counts_are_no_forms, pair_is_answered,
    recovery_is_answered, replay_is_answered, report_is_answered, run_has_one_answer,
    seeds_are_summed_up, words_are_forms, worked_answers,
};
pub use memory::{MemFiles, MemSink};
pub use report_lines::{LineError, LineFault, LineWhy};
pub use running::run;
pub use sink::Sink;
pub use status::Status;
pub use sure::{SureFiles, SureSink, run_surely};
pub use system::{StdFiles, StdSink};
