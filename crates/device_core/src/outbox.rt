//! The uplinks that are not taken yet.

ghost use Rattle.std.specs.Prelude.{◌≡◌, ◌+◌, ◌*◌, ◌<◌, ◌≤◌, ◌++◌, ◌∷◌, [], length, IfSome, IfNone, Some, true, false};
ghost use Rattle.std.specs.List.{flat_map, AllByRecursion};
ghost use Rattle.device_core.specs.Answers.{uplink_of};
ghost use Rattle.device_core.specs.Device.{outbox_size};
ghost use Rattle.device_core.specs.HeldDevice.{TakesOldest};
ghost use Rattle.device_core.specs.Saving.{uplink_bytes, uplinks_bytes, UplinkFits};
ghost use Rattle.device_core.specs.SavingInside.{uplink_at, uplinks_in};
ghost use Rattle.device_core.specs.Sendable.{IsSendable, IsUplink};

use crate::queued_uplink::QueuedUplink;
use crate::saved_fields::u64_at;
use crate::saving::{SavedDevice, put, put_zeros};
use crate::uplink::{Answer, Uplink};
use arrayvec::ArrayVec;
use std::marker::Model;
use wire_base::Payload;

/// How many uplinks a device holds before they are taken.
pub const OUTBOX: usize = 8;

/// At most 8 uplinks, oldest first, held in the value itself. Contracts see their list.
#[derive(Drop)]
pub struct Outbox {
    uplinks: ArrayVec<QueuedUplink, OUTBOX>,
}

impl Model for Outbox {
    ghost use Rattle.std.specs.Prelude.{List};
    ghost use Rattle.device_core.specs.declared.uplink.Uplink.{Uplink};
    ghost use Rattle.device_core.specs.OutboxInside.{IsOutbox};

    ghost Value = { List Uplink };

    ghost view = { λ o. o.uplinks.items };

    ghost invariant = { λ o. IsOutbox o.uplinks.items };
}

impl Outbox {
    /// Makes an outbox without uplinks.
    pub fn new() -> Self
        ensures { result ≡ [] }
    {
        Outbox {
            uplinks: ArrayVec::new(),
        }
    }

    /// Returns how many uplinks there are.
    pub fn len(&self) -> usize
        ensures number { result ≡ length self.now }
        ensures few { length self.now ≤ outbox_size }
    {
        self.uplinks.len()
    }

    /// Says whether there is none.
    pub fn is_empty(&self) -> bool
        ensures none { result ≡ true → self.now ≡ [] }
        ensures some { result ≡ false → 0 < length self.now }
    {
        self.uplinks.is_empty()
    }

    /// Puts an answer after the others.
    pub fn push(&mut self, answer: Answer<'_>)
        requires sendable { IsSendable answer.port answer.command }
        requires room { length self.old < outbox_size }
        ensures { self.new ≡ self.old ++ uplink_of answer.entry ∷ [] }
    {
        self.uplinks.push(QueuedUplink::of(answer));
    }

    /// Drops all.
    pub fn clear(&mut self)
        ensures { self.new ≡ [] }
    {
        self.uplinks.clear();
    }

    /// Reads the uplinks of a saved device's bytes; None exactly where one of them is no uplink.
    pub fn read(saved: &[u8]) -> Option<Self>
        requires { 460 ≤ length saved.now }
        ensures uplinks { IfSome result (λ outbox. outbox ≡ uplinks_in saved.now) }
        ensures spelled { IfSome result (λ outbox. AllByRecursion IsUplink outbox) }
        ensures none { IfNone result (AllByRecursion IsUplink (uplinks_in saved.now) → ⊥) }
    {
        let mut uplinks = ArrayVec::new();
        for k in 0..saved[203].min(8) {
            uplinks.push(uplink_at(saved, 204 + 32 * k as u16)?);
        }
        Some(Outbox { uplinks })
    }

    /// Puts the uplinks as they are saved: their number, and 32 bytes for each of 8.
    pub fn put(&self, to: &mut SavedDevice)
        requires { length to.old.items ≤ 203 }
        ensures bytes { to.new.items ≡ to.old.items ++ uplinks_bytes self.now }
        ensures size { length to.new.items ≡ length to.old.items + 257 }
        ensures few { length self.now ≤ outbox_size }
        ensures fit { AllByRecursion UplinkFits self.now }
    {
        put(to, &[self.uplinks.len() as u8]);
        put_all(to, self.uplinks.as_slice());
        put_zeros(to, 256 - 32 * self.uplinks.len());
    }

    /// Takes the oldest uplink; None exactly where there is none.
    pub fn take(&mut self) -> Option<Uplink>
        ensures takes { TakesOldest self.old self.new result }
        ensures uplink { IfSome result (λ u. IsUplink u) }
    {
        if self.uplinks.is_empty() {
            return None;
        }
        let mut uplink = Uplink {
            due: 0,
            port: 0,
            payload: Payload::new(),
        };
        self.uplinks.remove(0).write(&mut uplink);
        Some(uplink)
    }

    /// Takes the oldest uplink, which must be there, into an uplink without bytes.
    pub fn take_into(&mut self, uplink: &mut Uplink)
        requires some { 0 < length self.old }
        requires empty { uplink.old.payload ≡ [] }
        ensures takes { TakesOldest self.old self.new (Some uplink.new) }
        ensures uplink { IsUplink uplink.new }
    {
        self.uplinks[0].write(uplink);
        if self.uplinks.len() == 1 {
            self.uplinks.clear();
        } else {
            // (it is written already)
            let _taken = self.uplinks.remove(0);
        }
    }
}

/// The uplink at a place of a saved device's bytes; None exactly where it is none.
fn uplink_at(saved: &[u8], at: u16) -> Option<QueuedUplink>
    requires { at + 32 ≤ length saved.now }
    ensures uplink { IfSome result (λ u. u ≡ uplink_at saved.now at) }
    ensures spelled { IfSome result (λ u. UplinkFits u) }
    ensures none { IfNone result (IsUplink (uplink_at saved.now at) → ⊥) }
{
    let due = u64_at(saved, at);
    let at = at as usize;
    let length = saved[at + 9].min(22) as usize;
    QueuedUplink::read(due, saved[at + 8], &saved[at + 10..at + 10 + length])
}

/// Puts uplinks as they are saved, one after another.
fn put_all(to: &mut SavedDevice, uplinks: &[QueuedUplink])
    requires { length to.old.items + 32 * length uplinks.now ≤ 492 }
    ensures bytes { to.new.items ≡ to.old.items ++ flat_map uplink_bytes uplinks.now }
    ensures size { length to.new.items ≡ length to.old.items + 32 * length uplinks.now }
{
    for uplink in uplinks {
        uplink.put(to);
    }
}
