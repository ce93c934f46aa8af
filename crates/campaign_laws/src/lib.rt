//! What holds for whole campaigns, whichever lines they have and whichever seed they come from: the headline, the verdicts of
//! sessions, the independence of devices, the ledger. There is almost no code here: the laws are about what `campaign_world`
//! takes and holds, and about what `campaign_generator` makes.
#![tactic(auto)]

mod laws;
mod uplinks;

pub use laws::{
    a_past_answer_moves_none, a_script_has_its_devices, air_is_down, an_uplink_moves_once,
    devices_are_independent, generated_campaigns_are_accepted, headline, power_is_at,
    recovers_the_image, sessions_are_decided_at_first, sessions_live, the_ledger_is_true,
    worked_campaigns,
};
pub use uplinks::each_uplink_moves_once;
