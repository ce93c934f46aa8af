//! Laws about the definitions, each the contract of a function with an empty body.

ghost use Rattle.campaign_laws.specs.Headline.{Headline};
ghost use Rattle.campaign_laws.specs.Lives.{HasItsDevices, SessionsLive};
ghost use Rattle.campaign_laws.specs.Independence.{DevicesAreIndependent};
ghost use Rattle.campaign_laws.specs.Ledger.{TheLedgerIsTrue};
ghost use Rattle.campaign_laws.specs.Recovers.{RecoversTheImage, RecoversItsOwn};
ghost use Rattle.campaign_laws.specs.Verdicts.{Verdicts};
ghost use Rattle.campaign_laws.specs.WorkedCampaigns.{AreCauses, AreCounted, AreEvents, ArePlanned, AreRefused, AreReported, AreSessions};
ghost use Rattle.campaign_laws.specs.Accepted.{AllSeedsHaveCampaigns};
ghost use Rattle.campaign_laws.specs.Once.{MovesOnce, PastMovesNone};
ghost use Rattle.campaign_laws.specs.Airing.{AirIsDown};
ghost use Rattle.campaign_laws.specs.Power.{PowerIsAt};

/// For any image and any accepted honest script: the session of each device hears what the script brings, it is complete from the
/// first heard fragment on after which only one file fits, that file is the server's image, and the report says so.
pub fn headline()
    ensures { Headline }
{}

/// For any image and any accepted script, with anybody's payloads or without: each session hears nothing but what the lines bring
/// its device, it is decided at the first fragment after which its file is no longer open, and the report says so. A recovered
/// file is the only one that fits.
pub fn sessions_are_decided_at_first()
    ensures { Verdicts }
{}

/// For any image and any accepted honest script, what a device recovered is the image; and, for any script, it is that device's
/// own.
pub fn recovers_the_image()
    ensures image { RecoversTheImage }
    ensures own { RecoversItsOwn }
{}

/// Every accepted script has its devices, and a stage for each.
pub fn a_script_has_its_devices()
    ensures { HasItsDevices }
{}

/// In every accepted honest script a device to which a line brought the server's setup, and that accepts its descriptor, has its
/// session.
pub fn sessions_live()
    ensures { SessionsLive }
{}

/// Campaigns, worked out: their reports, with two sessions of one device among them; the first refused lines, each by its first
/// cause; what a summary counts, and `recover` answers; how each line of a plan changes it; and what each later line lets happen.
pub fn worked_campaigns()
    ensures reported { AreReported }
    ensures refused { AreRefused }
    ensures causes { AreCauses }
    ensures sessions { AreSessions }
    ensures counted { AreCounted }
    ensures planned { ArePlanned }
    ensures events { AreEvents }
{}

/// For any image and any accepted script: the record of each device is its own first one, changed only by the events of the
/// script that name it, all its uplinks taken after each.
pub fn devices_are_independent()
    ensures { DevicesAreIndependent }
{}

/// For any image file and any accepted honest script: where the ledger says that a device is updated, it runs the image, with
/// exactly its bytes.
pub fn the_ledger_is_true()
    ensures { TheLedgerIsTrue }
{}

/// No line of the script of any seed is refused, and it ends: so many payloads are sent, 48 uplinks are made, and a device is at
/// `updated` exactly where its session 0 is complete.
pub fn generated_campaigns_are_accepted()
    ensures { AllSeedsHaveCampaigns }
{}

/// An answer to a past stage moves none.
pub fn a_past_answer_moves_none()
    ensures { PastMovesNone }
{}

/// An uplink of one command that has moved a stage moves none when it comes again, whatever lines of the script came between; the
/// lines before it must be honest.
pub fn an_uplink_moves_once()
    ensures { MovesOnce }
{}

/// For any image and any accepted honest script: `air` instead of `down`, at payloads to the group, leaves the campaign
/// unchanged, and so its report.
#[tactic(auto, using(crate::proofs::AirLaw::air_is_down))]
pub fn air_is_down()
    ensures { AirIsDown }
{}

/// For any image and any accepted lines: `at` the time now instead of each `power`, or of some of them, leaves the campaign
/// unchanged, and so its report.
#[tactic(auto, using(crate::proofs::PowerLaw::power_is_at))]
pub fn power_is_at()
    ensures { PowerIsAt }
{}
