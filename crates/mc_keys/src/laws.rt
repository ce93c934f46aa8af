//! A law about the definitions, as the contract of a function with an empty body.

ghost use Rattle.mc_keys.specs.WorkedKeys.{WorkedKeys, WorkedSessionKeys};

/// The keys of one device and one group are those that another AES gives.
pub fn worked_keys()
    ensures keys { WorkedKeys }
    ensures session_keys { WorkedSessionKeys }
{}
