//! A payload on its way to devices, and whom it is for.

ghost use Rattle.std.specs.Prelude.{◌≡◌, ◌≤◌, [], length};
ghost use Rattle.wire_base.specs.Payload.{max_payload};
ghost use Rattle.package_grammar.specs.declared.downlink.To.TheVariants as to;

use std::marker::Model;
use wire_base::Payload;

/// Whom a downlink is for.
#[derive(Clone, Copy, Debug, PartialEq, Eq)]
pub enum To {
    /// One device.
    Unicast,
    /// The members of a multicast group: McAddr, and the frame count of this downlink.
    Group { addr: u32, count: u32 },
}

/// A payload on its way to devices.
#[derive(Debug, Drop)]
pub struct Downlink {
    pub to: To,
    /// The port of the payload's package.
    pub port: u8,
    pub payload: Payload,
}

impl Downlink {
    /// Makes a downlink without bytes, to be written into.
    pub fn blank() -> Self
        ensures { result ≡ record { to = to.Unicast; port = 0; payload = [] } }
    {
        Downlink {
            to: To::Unicast,
            port: 0,
            payload: Payload::new(),
        }
    }
}

/// A payload on its way to devices, whose bytes are borrowed. Contracts see it as a downlink.
#[derive(Drop)]
pub struct DownlinkRef<'a> {
    to: To,
    port: u8,
    bytes: &'a [u8],
}

impl<'a> Model for DownlinkRef<'a> {
    ghost use Rattle.std.specs.Prelude.{◌≤◌, length};
    ghost use Rattle.wire_base.specs.Payload.{max_payload};
    ghost use Rattle.package_grammar.specs.declared.downlink.Downlink.{Downlink};

    ghost Value = { Downlink };

    ghost view = { λ d. record { to = d.to; port = d.port; payload = d.bytes.now } };

    ghost invariant = { λ d. length d.bytes.now ≤ max_payload };
}

impl<'a> DownlinkRef<'a> {
    /// Makes a downlink of at most `MAX_PAYLOAD` borrowed bytes.
    pub fn new(to: To, port: u8, bytes: &'a [u8]) -> Self
        requires { length bytes.now ≤ max_payload }
        ensures { result ≡ record { to = to; port = port; payload = bytes.now } }
    {
        DownlinkRef { to, port, bytes }
    }

    /// Borrows the bytes of a downlink.
    pub fn of(down: &'a Downlink) -> Self
        ensures { result ≡ down.now }
    {
        DownlinkRef {
            to: down.to,
            port: down.port,
            bytes: down.payload.as_slice(),
        }
    }

    /// Returns whom it is for.
    pub fn to(&self) -> To
        ensures { result ≡ self.now.to }
    {
        self.to
    }

    /// Returns the port of its package.
    pub fn port(&self) -> u8
        ensures { result ≡ self.now.port }
    {
        self.port
    }

    /// Returns its bytes.
    pub fn bytes(&self) -> &'a [u8]
        ensures value { result.now ≡ self.now.payload }
        ensures within { length result.now ≤ max_payload }
    {
        self.bytes
    }

    /// Makes a downlink with its own copy of the bytes.
    pub fn copied(&self) -> Downlink
        ensures { result ≡ self.now }
    {
        Downlink {
            to: self.to,
            port: self.port,
            payload: Payload::from_slice(self.bytes),
        }
    }
}
