//! Laws about the definitions, each the contract of a function with an empty body.

ghost use Rattle.isolation_laws.specs.AtMoments.{OthersEventsAreMoments, ScriptsAreIsolated};
ghost use Rattle.isolation_laws.specs.CrossingFrames.{FramesCrossInScripts};
ghost use Rattle.isolation_laws.specs.EachHeadline.{EachHasItsHeadline, EachLedgerIsTrue, EachSessionLives};
ghost use Rattle.isolation_laws.specs.PairTold.{EachIsReported};
ghost use Rattle.isolation_laws.specs.WorkedMoments.{AreAtTheirMoments};
ghost use Rattle.isolation_laws.specs.Isolation.{CampaignsAreIsolated, NoOtherCampaignMatters};

/// For any two images and any accepted script: each campaign, over what the script says to it and without what the other sends to
/// its devices, is accepted too, and is the same except for the counters of its devices. So both reports have the same device
/// line and session lines of each device; only its counts may differ.
#[tactic(auto, using(crate::proofs::Alone::isolated))]
pub fn campaigns_are_isolated()
    ensures { CampaignsAreIsolated }
{}

/// For any other campaign, whatever it sends: two accepted scripts that say the same to a campaign over the same image, except
/// for the other's payloads, make the same of it except for its devices' counters.
#[tactic(auto, using(crate::proofs::Alone::no_other_matters))]
pub fn no_other_campaign_matters()
    ensures { NoOtherCampaignMatters }
{}

/// For any two images and any accepted script, and for each campaign: where each event line that names the other campaign, or one
/// of its devices, is replaced by the line `at MS` of its moment, the script is accepted too, and the campaign is the same except
/// for the counters of its devices. So both reports of two have the same device line and session lines of each of its devices;
/// only its counts may differ.
pub fn scripts_are_isolated()
    ensures { ScriptsAreIsolated }
{}

/// The same for every script in which a line that reads as `at` its moment replaces each of these lines.
pub fn others_events_are_moments()
    ensures { OthersEventsAreMoments }
{}

/// A script of two campaigns, and what it becomes with the events of the one, and of the other, at their moments.
#[tactic(auto, using(crate::proofs::WorkedMoments::worked))]
pub fn worked_moments()
    ensures { AreAtTheirMoments }
{}

/// For any two images and any accepted script: a device of either campaign has no session but its own campaign's. It hears what
/// the lines bring it, is complete from the first heard fragment on after which only one file fits, that file is its own
/// campaign's image, and the report of both says so.
#[tactic(auto, using(crate::proofs::EachHeadline::headlines))]
pub fn each_campaign_has_its_headline()
    ensures { EachHasItsHeadline }
{}

/// For any two image files and any accepted script: where the ledger of either campaign says that a device is updated, it runs
/// that campaign's image, with exactly its bytes.
#[tactic(auto, using(crate::proofs::EachHeadline::ledgers))]
pub fn each_ledger_is_true()
    ensures { EachLedgerIsTrue }
{}

/// In every accepted script of two, a device to which a line brought its own server's setup, and that accepts its descriptor, has
/// its session.
pub fn each_session_lives()
    ensures { EachSessionLives }
{}

/// For any two images and any accepted script: each device of either campaign has an ID in the script, and the report of both has
/// its lines in the place of that ID.
#[tactic(auto, using(crate::proofs::Placed::reported))]
pub fn each_device_is_reported()
    ensures { EachIsReported }
{}

/// In every accepted script of two: the frame of a payload that reaches a device of the other campaign on the air does to it what
/// the payload does, since no group of the device has that address.
pub fn frames_cross_in_scripts()
    ensures { FramesCrossInScripts }
{}
