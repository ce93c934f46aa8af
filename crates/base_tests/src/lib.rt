//! Tests of `aes_block`, `mc_keys`, `mc_frames`, `mc_group`, `clock_sync` and `class_windows`, by values from outside; of
//! `wire_base`, `cast_wire`, `sync_wire` and `package_grammar`, by what is read, written and shown; and of `script_lines`. There
//! is no other code here.
#![tactic(auto)]

#[cfg(test)]
mod tests;
