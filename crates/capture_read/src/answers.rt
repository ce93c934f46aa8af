//! Entries, and why a line is none.

use thiserror::Error;
use wire_base::{Direction, Payload};

/// What a line of a capture says: a payload, the port that it came on and its direction.
#[derive(Debug, Drop, PartialEq)]
pub struct Entry {
    pub port: u8,
    pub dir: Direction,
    /// At most 242 bytes.
    pub payload: Payload,
}

/// Why a line is no entry: the first of these causes that holds.
#[derive(Clone, Copy, Debug, PartialEq, Eq, Error)]
pub enum EntryFault {
    /// It is no JSON object, or a member is missing or of another kind.
    #[error("no entry of a capture")]
    Syntax,
    /// The port is not from 0 to 255.
    #[error("the port is above 255")]
    Range,
    /// The payload is longer than a frame can carry.
    #[error("the payload has more than 242 bytes")]
    Limit,
}

/// Why no entry was read.
#[derive(Clone, Copy, Debug, PartialEq, Eq, Error)]
pub enum EntryError {
    /// The line is refused.
    #[error(transparent)]
    Refused(EntryFault),
    /// Memory was missing.
    #[error("out of memory")]
    Memory,
}
