//! An uplink of a campaign, whose bytes are borrowed.

ghost use Rattle.std.specs.Prelude.{◌≡◌, ◌≤◌, length};
ghost use Rattle.wire_base.specs.Payload.{max_payload};

use std::marker::Model;

/// An uplink of a device, whose bytes are borrowed. Contracts see it as an uplink.
#[derive(Drop)]
pub struct UplinkRef<'a> {
    due: u64,
    port: u8,
    bytes: &'a [u8],
}

impl<'a> Model for UplinkRef<'a> {
    ghost use Rattle.std.specs.Prelude.{◌≤◌, length};
    ghost use Rattle.wire_base.specs.Payload.{max_payload};
    ghost use Rattle.device_core.specs.declared.uplink.Uplink.{Uplink};

    ghost Value = { Uplink };

    ghost view = { λ u. record { due = u.due; port = u.port; payload = u.bytes.now } };

    ghost invariant = { λ u. length u.bytes.now ≤ max_payload };
}

impl<'a> UplinkRef<'a> {
    /// An uplink of at most `MAX_PAYLOAD` bytes.
    #[inline(always)]
    pub(crate) fn new(due: u64, port: u8, bytes: &'a [u8]) -> Self
        requires { length bytes.now ≤ max_payload }
        ensures { result ≡ record { due = due; port = port; payload = bytes.now } }
    {
        UplinkRef { due, port, bytes }
    }

    /// Returns the moment at which it is due, in ms of true time.
    pub fn due(&self) -> u64
        ensures { result ≡ self.now.due }
    {
        self.due
    }

    /// Returns the port of its package.
    pub fn port(&self) -> u8
        ensures { result ≡ self.now.port }
    {
        self.port
    }

    /// Returns its bytes.
    pub fn bytes(&self) -> &'a [u8]
        ensures value { result.now ≡ self.now.payload }
        ensures within { length result.now ≤ max_payload }
    {
        self.bytes
    }
}
