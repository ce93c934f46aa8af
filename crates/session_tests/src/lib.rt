//! Tests of the fragments of a file and of its sessions: `frag_model`, `parity_lines`, `frag_encoder`, `row_arena`,
//! `row_elimination`, `frag_session`, `flash_session` and `session_store`; and of `image_slots`. There is no other code here.
#![tactic(auto)]

#[cfg(test)]
mod tests;
