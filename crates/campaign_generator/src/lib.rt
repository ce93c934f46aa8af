//! Campaigns that are made from a seed (this project's profile): an image file, and a script in which eight devices of class C
//! take it as fragments, some of which are lost and some come twice. `generate` returns exactly the image and the script that the
//! definitions draw from the seed, or says that memory ran out; a law says which form each line of that script spells. How a
//! script is played, and what it does to a device, is left to the crates above.
//!
//! From `fuota_run::running`:
//!
//!     let made = generate(alloc, seed)?;  // made.image is an image file, made.script the lines of a campaign that sends it
//!     answer_of(alloc, seed_answer(alloc, seed, &made.image, &made.script))
#![tactic(auto)]

mod draws;
mod generated;
mod image;
mod laws;
mod lines;
mod script;

pub use generated::{Generated, generate};
pub use laws::{image_files, lines_are_forms, worked_seed};
