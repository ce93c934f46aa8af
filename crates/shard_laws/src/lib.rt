//! Servers of one group, each with its own of the group's devices: what they send to all is the same, as a law on the records of
//! `campaign_server`. There is no code here.
#![tactic(auto)]

mod laws;

pub use laws::{shards_send_alike, worked_shards};
