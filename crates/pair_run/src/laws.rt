//! Laws about the definitions, each the contract of a function with an empty body.

ghost use Rattle.pair_run.specs.Counting.{CountersAreUnread};
ghost use Rattle.pair_run.specs.Crossing.{FramesCrossAsPayloads};
ghost use Rattle.pair_run.specs.PairLines.{EachReadsItsLines};
ghost use Rattle.pair_run.specs.WorkedTwo.{ArePairsReported, ArePairsSessions, ArePairsRefused, AreTargets};

/// For any two images and any accepted script, each campaign is the one that its own image, and what the lines say to it, define.
/// So the laws of one campaign over its lines hold for each.
#[tactic(auto, using(crate::proofs::ReadAlone::reads_alone))]
pub fn each_campaign_reads_its_lines()
    ensures { EachReadsItsLines }
{}

/// A frame for a group that a device does not hear does the same to the device as the payload in the frame.
#[tactic(auto, using(crate::proofs::Frames::frames_cross))]
pub fn frames_cross_as_payloads()
    ensures { FramesCrossAsPayloads }
{}

/// Devices that differ only in their counters go the same way, whatever happens: no counter is ever read.
#[tactic(auto, using(crate::proofs::CountsUnread::unread))]
pub fn counters_are_unread()
    ensures { CountersAreUnread }
{}

/// Reports of two campaigns, the first refused lines of their scripts, and to which of the two each line goes, worked out.
pub fn worked_two()
    ensures reports { ArePairsReported }
    ensures sessions { ArePairsSessions }
    ensures refused { ArePairsRefused }
    ensures targets { AreTargets }
{}
