//! What was sent and made in a campaign: the bytes of all items, one after the other, and for each item where its bytes begin and
//! how many they are. An item takes 24 bytes and its own.

ghost use Rattle.std.specs.Prelude.{◌≡◌, ◌≤◌, ◌+◌, ◌++◌, ◌∷◌, ℕ, [], length, OnOk, vec_len, vec_capacity, slice_range};
ghost use Rattle.wire_base.specs.Numbered.{numbered};
ghost use Rattle.wire_base.specs.Payload.{max_payload};
ghost use Rattle.device_core.specs.Device.{outbox_size};
ghost use Rattle.campaign_world.specs.HeldLog.{HasRoom};
ghost use Rattle.campaign_world.specs.LogsInside.{sent_at, made_at, Lies};

use crate::happening::OUTBOX;
use crate::numbered::{NumberedUplink, SentPayload, numbered};
use crate::uplink_ref::UplinkRef;
use device_core::Uplink;
use package_grammar::{Downlink, DownlinkRef, To};
use std::alloc::{AllocError, Global};
use std::marker::Model;
use wire_base::MAX_PAYLOAD;

/// A sent payload without its bytes.
#[derive(Clone, Copy)]
pub struct SentHead {
    receiver: Option<u8>,
    port: u8,
    len: u8,
    to: To,
    at: usize,
}

/// An uplink without its bytes.
#[derive(Clone, Copy)]
pub struct MadeHead {
    due: u64,
    at: usize,
    device: u8,
    port: u8,
    len: u8,
}

/// The payloads that a server sent, oldest first. Contracts see their list, and how much room there is.
#[derive(Drop)]
pub struct SentLog {
    heads: Vec<SentHead>,
    bytes: Vec<u8>,
}

impl Model for SentLog {
    ghost use Rattle.std.specs.Prelude.{◌-◌, map, vec_len, vec_capacity};
    ghost use Rattle.campaign_world.specs.declared.numbered.SentPayload.{SentPayload};
    ghost use Rattle.campaign_world.specs.HeldLog.{HeldLog};
    ghost use Rattle.campaign_world.specs.LogsInside.{sent_at, SentLie};

    ghost Value = { HeldLog SentPayload };

    ghost view = { λ l. record {
      items = map (sent_at l.bytes.items) l.heads.items;
      places = vec_capacity l.heads - vec_len l.heads;
      free = vec_capacity l.bytes - vec_len l.bytes;
    } };

    ghost invariant = { λ l. SentLie l.bytes.items l.heads.items };
}

impl SentLog {
    ghost use Rattle.campaign_world.specs.declared.numbered.SentPayload.{SentPayload};

    /// Makes an empty log.
    pub fn new(alloc: Global) -> Self
        ensures { result.items ≡ [] }
    {
        SentLog {
            heads: Vec::new(alloc),
            bytes: Vec::new(alloc),
        }
    }

    /// Returns how many there are.
    pub fn len(&self) -> usize
        ensures { result ≡ length self.now.items }
    {
        self.heads.len()
    }

    /// Returns the payload with a number, counted from 1; None where none has it.
    pub fn number(&self, number: u64) -> Option<SentPayload<'_>>
        ensures { result ≡ numbered self.now.items number }
    {
        match numbered(&self.heads, number) {
            Some(head) => Some(sent_at(head, &self.bytes)),
            None => None,
        }
    }

    /// Takes room for one payload more.
    pub fn reserve(&mut self) -> Result<(), AllocError>
        ensures same { self.new.items ≡ self.old.items }
        ensures room { OnOk result (HasRoom 1 self.new) }
    {
        self.heads.reserve(1)?;
        self.bytes.reserve(MAX_PAYLOAD)
    }

    /// Puts a payload after the others, with the next number. There is room for it.
    pub fn push(&mut self, receiver: Option<u8>, down: &Downlink)
        requires { HasRoom 1 self.old }
        ensures { self.new.items
            ≡ self.old.items ++ (record { receiver = receiver; down = down.now }) ∷ [] }
    {
        let at = self.bytes.len();
        put(&mut self.bytes, down.payload.as_slice());
        self.heads.push_reserved(SentHead {
            receiver,
            port: down.port,
            len: down.payload.len() as u8,
            to: down.to,
            at,
        });
    }
}

/// The uplinks that devices made, oldest first. Contracts see their list, and how much room there is.
#[derive(Drop)]
pub struct UplinkLog {
    heads: Vec<MadeHead>,
    bytes: Vec<u8>,
}

impl Model for UplinkLog {
    ghost use Rattle.std.specs.Prelude.{◌-◌, map, vec_len, vec_capacity};
    ghost use Rattle.campaign_world.specs.declared.numbered.NumberedUplink.{NumberedUplink};
    ghost use Rattle.campaign_world.specs.HeldLog.{HeldLog};
    ghost use Rattle.campaign_world.specs.LogsInside.{made_at, MadeLie};

    ghost Value = { HeldLog NumberedUplink };

    ghost view = { λ l. record {
      items = map (made_at l.bytes.items) l.heads.items;
      places = vec_capacity l.heads - vec_len l.heads;
      free = vec_capacity l.bytes - vec_len l.bytes;
    } };

    ghost invariant = { λ l. MadeLie l.bytes.items l.heads.items };
}

impl UplinkLog {
    ghost use Rattle.campaign_world.specs.declared.numbered.NumberedUplink.{NumberedUplink};

    /// Makes an empty log.
    pub fn new(alloc: Global) -> Self
        ensures { result.items ≡ [] }
    {
        UplinkLog {
            heads: Vec::new(alloc),
            bytes: Vec::new(alloc),
        }
    }

    /// Returns the uplink with a number, counted from 1; None where none has it.
    pub fn number(&self, number: u64) -> Option<NumberedUplink<'_>>
        ensures { result ≡ numbered self.now.items number }
    {
        match numbered(&self.heads, number) {
            Some(head) => Some(made_at(head, &self.bytes)),
            None => None,
        }
    }

    /// Takes room for as many more uplinks as a device holds.
    pub fn reserve(&mut self) -> Result<(), AllocError>
        ensures same { self.new.items ≡ self.old.items }
        ensures room { OnOk result (HasRoom outbox_size self.new) }
    {
        self.heads.reserve(OUTBOX)?;
        self.bytes.reserve(OUTBOX * MAX_PAYLOAD)
    }

    /// Puts an uplink of a device after the others, with the next number. There is room for it.
    pub fn push(&mut self, device: u8, uplink: &Uplink)
        requires { HasRoom 1 self.old }
        ensures items { self.new.items
            ≡ self.old.items ++ (record { device = device; uplink = uplink.now }) ∷ [] }
        ensures room { (more : ℕ) → HasRoom (more + 1) self.old → HasRoom more self.new }
    {
        let at = self.bytes.len();
        put(&mut self.bytes, uplink.payload.as_slice());
        self.heads.push_reserved(MadeHead {
            due: uplink.due,
            at,
            device,
            port: uplink.port,
            len: uplink.payload.len() as u8,
        });
    }
}

/// The payload with this head, among the bytes of all.
#[inline(always)]
fn sent_at<'a>(head: &SentHead, bytes: &'a [u8]) -> SentPayload<'a>
    requires { Lies bytes.now head.now.at head.now.len }
    ensures { result ≡ sent_at bytes.now head.now }
{
    SentPayload {
        receiver: head.receiver,
        down: DownlinkRef::new(head.to, head.port, part(bytes, head.at, head.len)),
    }
}

/// The uplink with this head, among the bytes of all.
#[inline(always)]
fn made_at<'a>(head: &MadeHead, bytes: &'a [u8]) -> NumberedUplink<'a>
    requires { Lies bytes.now head.now.at head.now.len }
    ensures { result ≡ made_at bytes.now head.now }
{
    NumberedUplink {
        device: head.device,
        uplink: UplinkRef::new(head.due, head.port, part(bytes, head.at, head.len)),
    }
}

/// So many bytes from a place on.
#[inline(always)]
fn part(bytes: &[u8], at: usize, len: u8) -> &[u8]
    requires { Lies bytes.now at len }
    ensures value { result.now ≡ slice_range bytes.now at (at + len) }
    ensures few { length result.now ≤ max_payload }
{
    &bytes[at..at + len as usize]
}

/// Puts the bytes of a payload after all others. There is room for them.
#[inline(always)]
fn put(all: &mut Vec<u8>, bytes: &[u8])
    requires few { length bytes.now ≤ max_payload }
    requires room { vec_len all.old + max_payload ≤ vec_capacity all.old }
    ensures items { all.new.items ≡ all.old.items ++ bytes.now }
    ensures len { vec_len all.new ≡ vec_len all.old + length bytes.now }
    ensures capacity { vec_capacity all.old ≤ vec_capacity all.new }
{
    all.extend_from_slice(bytes).unwrap();
}
