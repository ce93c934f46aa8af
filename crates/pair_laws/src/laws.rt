//! Laws about the definitions, each the contract of a function with an empty body.

ghost use Rattle.pair_laws.specs.Crossing.{CrossingIsCountedAlone};
ghost use Rattle.pair_laws.specs.EachCampaign.{EachHasItsDevices, EachHasItsVerdicts};

/// For any two images and any accepted script: each session of either campaign hears nothing but what the lines bring its device,
/// each fragment at its line of the script that both share, and is decided at the first fragment after which its file is no
/// longer open.
#[tactic(auto, using(crate::proofs::EachCampaign::verdicts))]
pub fn each_campaign_has_its_verdicts()
    ensures { EachHasItsVerdicts }
{}

/// For any two images and any accepted script: the record of each device of either campaign is its own first one, changed only by
/// what the lines let happen at it.
#[tactic(auto, using(crate::proofs::EachCampaign::devices))]
pub fn each_campaign_has_its_devices()
    ensures { EachHasItsDevices }
{}

/// What another campaign's server sends to all changes only the counters of a device that has no session but its own campaign's
/// and no reboot to come.
#[tactic(auto, using(crate::proofs::Crossing::counted_alone))]
pub fn crossing_is_counted_alone()
    ensures { CrossingIsCountedAlone }
{}
