//! Why a payload is refused, and where.

ghost use Rattle.std.specs.Prelude.{◌≡◌, ◌≤◌, length};
ghost use Rattle.wire_base.specs.Payload.{max_payload};

use crate::payload::MAX_PAYLOAD;
use thiserror::Error;

/// Which way a payload goes.
#[derive(Clone, Copy, Debug, PartialEq, Eq)]
pub enum Direction {
    /// From the server to a device.
    Down,
    /// From a device to the server.
    Up,
}

/// Why a payload isn't read.
#[derive(Clone, Copy, Debug, PartialEq, Eq, Error)]
pub enum Why {
    /// The port carries no package that the reader knows.
    #[error("the port carries no known package")]
    Port,
    /// The command's identifier isn't in the table for that port and direction.
    #[error("no command has this identifier")]
    UnknownCommand,
    /// The payload ends within the command.
    #[error("the payload ends within a command")]
    Short,
    /// The payload has more bytes than `MAX_PAYLOAD`.
    #[error("the payload has more than 242 bytes")]
    TooLong,
}

/// Why a payload is refused, and at which place, counted in bytes from 0.
#[derive(Clone, Copy, Debug, PartialEq, Eq, Error)]
#[error("byte {at}: {why}")]
pub struct Refusal {
    /// 0 at `Port`, 242 at `TooLong`, the identifier's place at `UnknownCommand`, and the payload's length at `Short`.
    pub at: u16,
    pub why: Why,
}

impl Refusal {
    /// Makes the refusal of a port that carries no package that the reader knows.
    pub fn port() -> Self
        ensures { result ≡ record { at = 0; why = Why.Port } }
    {
        Refusal {
            at: 0,
            why: Why::Port,
        }
    }

    /// Makes the refusal of an identifier at this place that isn't in the table.
    pub fn unknown(at: u16) -> Self
        ensures { result ≡ record { at = at; why = Why.UnknownCommand } }
    {
        Refusal {
            at,
            why: Why::UnknownCommand,
        }
    }

    /// Makes the refusal of bytes that end within a command.
    pub fn short(bytes: &[u8]) -> Self
        requires { length bytes.now ≤ max_payload }
        ensures { result ≡ record { at = length bytes.now; why = Why.Short } }
    {
        Refusal {
            at: bytes.len() as u16,
            why: Why::Short,
        }
    }

    /// Makes the refusal of a payload with more than `MAX_PAYLOAD` bytes.
    pub fn too_long() -> Self
        ensures { result ≡ record { at = max_payload; why = Why.TooLong } }
    {
        Refusal {
            at: MAX_PAYLOAD as u16,
            why: Why::TooLong,
        }
    }
}
