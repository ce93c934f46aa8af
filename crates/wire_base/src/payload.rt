//! Payloads: the bytes of one frame.

ghost use Rattle.std.specs.Prelude.{◌≡◌, ◌-◌, ◌≤◌, ◌↔◌, [], length, IsTrue};
ghost use Rattle.wire_base.specs.Payload.{max_payload, Appends};

use arrayvec::ArrayVec;
use std::marker::Model;
use thiserror::Error;

/// The most bytes that a payload of an application package has (this project's profile).
pub const MAX_PAYLOAD: usize = 242;

/// The payload has too few free bytes.
#[derive(Clone, Copy, Debug, PartialEq, Eq, Error)]
#[error("the payload has too few free bytes")]
pub struct Full;

/// The bytes of one frame, at most `MAX_PAYLOAD`, held in the value itself. Contracts see their list.
#[derive(Debug, Drop, PartialEq)]
pub struct Payload {
    bytes: ArrayVec<u8, MAX_PAYLOAD>,
}

impl Model for Payload {
    ghost use Rattle.std.specs.Prelude.{ℕ, List, ◌≤◌, length};
    ghost use Rattle.wire_base.specs.Payload.{max_payload};

    ghost Value = { List ℕ };

    ghost view = { λ p. p.bytes.items };

    ghost invariant = { λ p. length p.bytes.items ≤ max_payload };

    ghost inverse = { λ bytes. record { bytes = record { items = bytes } } };
}

impl Payload {
    /// Makes a payload without bytes.
    pub fn new() -> Self
        ensures { result ≡ [] }
    {
        Payload {
            bytes: ArrayVec::new(),
        }
    }

    /// Makes a payload of these bytes.
    pub fn from_slice(bytes: &[u8]) -> Self
        requires { length bytes.now ≤ max_payload }
        ensures { result ≡ bytes.now }
    {
        let mut payload = Payload::new();
        // (an empty payload has room, as the contract asks)
        let _fits = payload.append(bytes);
        payload
    }

    /// Returns the number of bytes.
    pub fn len(&self) -> usize
        ensures number { result ≡ length self.now }
        ensures within { length self.now ≤ max_payload }
    {
        self.bytes.len()
    }

    /// Says whether there are no bytes.
    pub fn is_empty(&self) -> bool
        ensures { IsTrue result ↔ (length self.now ≡ 0) }
    {
        self.bytes.is_empty()
    }

    /// Returns how many bytes are free.
    pub fn room(&self) -> usize
        ensures { result ≡ max_payload - length self.now }
    {
        MAX_PAYLOAD - self.bytes.len()
    }

    /// Returns the bytes.
    pub fn as_slice(&self) -> &[u8]
        ensures value { result.now ≡ self.now }
        ensures within { length result.now ≤ max_payload }
    {
        self.bytes.as_slice()
    }

    /// Makes a second payload of the same bytes; it takes no memory.
    pub fn copied(&self) -> Self
        ensures { result ≡ self.now }
    {
        Payload::from_slice(self.as_slice())
    }

    /// Puts the bytes after those that are there; `Full`, with nothing changed, where they don't fit into what is left of the
    /// 242.
    pub fn append(&mut self, bytes: &[u8]) -> Result<(), Full>
        ensures { Appends self.old self.new bytes.now result }
    {
        match self.bytes.try_extend_from_slice(bytes) {
            Ok(()) => Ok(()),
            Err(_) => Err(Full),
        }
    }
}
