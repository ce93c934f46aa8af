//! The lines of a campaign's script (this project's profile): the stretches between line feeds, the form that a line spells, and
//! the ranges of its numbers. `form` returns exactly the form that the bytes spell, None where they spell none, and `in_range` is
//! the table of ranges; `pair_form` does the same for the script of two campaigns. What a form does to a campaign, and when it
//! may come, is left to the world above.
//!
//! From `file_device`:
//!
//!     let read = form(line)?;
//!     if !in_range(&read) {
//!         return None;
//!     }
//!     match read {
//!         Form::At { time: now } => {
//!             *time = now;
//!             Some("done")
//!         }
//!         other => call(device, *time, &other),
//!     }
#![tactic(auto)]

mod fast_forms;
mod forms;
mod hearing;
mod hex_bytes;
mod laws;
mod lines;
mod numbers;
mod pairs;
mod pieces;
mod plan_forms;
mod ranges;
mod reading;
mod words;

pub use forms::{Campaign, Class, DeviceLine, Form, Key, PairForm};
pub use hearing::{HearsLine, hear_last, hear_piece};
pub use hex_bytes::{HexBytes, MAX_HEX_BYTES};
pub use laws::{worked_lines, worked_pairs, worked_ranges};
pub use numbers::decimal;
pub use pairs::pair_form;
pub use pieces::{Cut, Lines};
pub use ranges::{MAX_PORT, MAX_TIME, in_range, is_u32};
pub use reading::form;
pub use words::{count_words, is_word, word};
