//! Laws about the definitions, each the contract of a function with an empty body.

ghost use Rattle.frag_session.specs.FirstMoment.{FirstMoment};
ghost use Rattle.frag_session.specs.Missing.{MissingPieces};
ghost use Rattle.frag_session.specs.WorkedSessions.{WorkedSetups, WorkedSessions, WorkedFragments, WorkedNews, WorkedStatus};

/// A session is decided by the first heard fragment after which its file is no longer open. It is whole from the first fragment
/// on after which only one file fits, and shows that file.
pub fn first_moment()
    ensures { FirstMoment }
{}

/// A session misses the fragments that are still to be gained, and none of a whole file.
#[tactic(auto, using(crate::proofs::MissingPieces::missing_pieces))]
pub fn missing_is_counted()
    ensures { MissingPieces }
{}

/// Setups, fragments and answers of a session, worked out.
pub fn worked_sessions()
    ensures setups { WorkedSetups }
    ensures sessions { WorkedSessions }
    ensures fragments { WorkedFragments }
    ensures news { WorkedNews }
    ensures status { WorkedStatus }
{}
