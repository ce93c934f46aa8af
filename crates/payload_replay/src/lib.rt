//! Captured payloads of the application packages (TS003 to TS006, 1.0.0), one a line in hex or as a JSON object: what each says,
//! and the state of a device of TS004-1.0.0 that hears them. The lines, the headers and the texts are this project's profile.
//! `Decoding`, `Replaying` and `Capturing` hear the lines as they come, and return exactly the text that these define, or the
//! first refused line with its first cause. Words of a command line and files are left to the program above, and the script of a
//! campaign to `campaign_world`.
//!
//! From `fuota_run::payload_answers`, which does the same with `Replaying` and `Capturing`:
//!
//!     FileForm::Decode { port, dir } => {
//!         let heard = Decoding::new(alloc, port, dir);
//!         hear_decode(alloc, files, heard, name)
//!     }
//!
//!     match hear_source(files, name, SCRIPT_LIMIT, &mut heard) {  // line by line
//!         Ok(()) => text_answer(alloc, heard.text()),
//!         Err(error) => unread_answer(alloc, error),
//!     }
#![tactic(auto)]

mod capturing;
mod decoding;
mod hearer;
mod laws;
mod payload_lines;
mod replaying;

pub use capturing::Capturing;
pub use decoding::Decoding;
pub use laws::{
    capture_ends_as_replay, capture_has_one_answer, decode_has_one_answer, replay_has_one_answer,
    replay_is_decided_at_first, worked_texts,
};
pub use replaying::Replaying;
