//! A law about what a solver stands for, as the contract of a function with an empty body.

ghost use Rattle.row_elimination.specs.HeldHistory.{FeedStands};

/// What each answer of `feed` means for every list of heard fragments that the solver stands for.
#[tactic(auto, using(crate::proofs::Standing::feed_stands))]
pub fn feed_stands()
    ensures { FeedStands }
{}
