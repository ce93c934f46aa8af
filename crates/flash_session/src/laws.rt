//! Laws about the definitions, each the contract of a function with an empty body.

ghost use Rattle.flash_session.specs.WorkedBytes.{WorkedSpellings, WorkedSession, WorkedForeign, WorkedCalls};

/// A stored session byte by byte, the places that are no session's, and which calls of a flash in memory fail, worked out.
pub fn worked_bytes()
    ensures spellings { WorkedSpellings }
    ensures session { WorkedSession }
    ensures foreign { WorkedForeign }
    ensures calls { WorkedCalls }
{}
