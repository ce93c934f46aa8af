//! What holds for two campaigns that share a script, whichever lines it has: the laws of one campaign, over what the lines say to
//! each of the two. There is no code here: the laws are about what `pair_run` takes and holds.
#![tactic(auto)]

mod laws;

pub use laws::{
    crossing_is_counted_alone, each_campaign_has_its_devices, each_campaign_has_its_verdicts,
};
