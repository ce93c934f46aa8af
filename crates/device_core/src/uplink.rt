//! The answers of a device, as commands and as payloads.

use package_grammar::Command;
use wire_base::Payload;

/// An answer of a device, before its payload is written.
#[derive(Debug, Drop)]
pub struct Answer<'a> {
    /// The moment at which it is due, in ms of true time.
    pub due: u64,
    /// The port of its package.
    pub port: u8,
    pub command: Command<'a>,
}

/// A payload on its way to the server.
#[derive(Debug, Drop)]
pub struct Uplink {
    /// The moment at which it is due, in ms of true time.
    pub due: u64,
    /// The port of its package.
    pub port: u8,
    pub payload: Payload,
}

impl Default for Uplink {
    fn default() -> Self {
        Uplink {
            due: 0,
            port: 0,
            payload: Payload::new(),
        }
    }
}
