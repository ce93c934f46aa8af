//! What keeps two campaigns that share a script apart, whichever lines it has: each is the campaign that it would be alone,
//! except for its devices' counters, and each has the headline of a campaign of its own, with its own image. There is no code
//! here: the laws are about what `pair_run` takes and holds.
#![tactic(auto)]

mod laws;

pub use laws::{
    campaigns_are_isolated, each_campaign_has_its_headline, each_device_is_reported,
    each_ledger_is_true, each_session_lives, frames_cross_in_scripts, no_other_campaign_matters,
    others_events_are_moments, scripts_are_isolated, worked_moments,
};
