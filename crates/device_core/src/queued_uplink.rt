//! An uplink while it waits: it has only as many bytes as a device's longest answer.

ghost use Rattle.std.specs.Prelude.{◌≡◌, ◌+◌, ◌≤◌, ◌++◌, [], length, IfSome, IfNone};
ghost use Rattle.device_core.specs.Answers.{uplink_of};
ghost use Rattle.device_core.specs.Saving.{uplink_bytes, UplinkFits};
ghost use Rattle.device_core.specs.Sendable.{IsSendable, IsUplink};

use crate::saving::{SavedDevice, put, put_u64, put_zeros};
use crate::uplink::{Answer, Uplink};
use arrayvec::ArrayVec;
use package_grammar::{Message, spell};
use std::marker::Model;
use wire_base::{Direction, Payload};

/// The bytes of the longest answer, McGroupStatusAns with four groups.
const LONGEST: usize = 22;

/// An uplink that is held. Contracts see the uplink.
#[derive(Drop)]
pub struct QueuedUplink {
    due: u64,
    port: u8,
    bytes: ArrayVec<u8, LONGEST>,
}

impl Model for QueuedUplink {
    ghost use Rattle.device_core.specs.declared.uplink.Uplink.{Uplink};

    ghost Value = { Uplink };

    ghost view = { λ h. record { due = h.due; port = h.port; payload = h.bytes.items } };
}

/// A place without an uplink.
impl Default for QueuedUplink {
    fn default() -> Self {
        QueuedUplink {
            due: 0,
            port: 0,
            bytes: ArrayVec::new(),
        }
    }
}

impl QueuedUplink {
    /// Spells an answer.
    #[tactic(auto, using(crate::proofs::Lengths::short))]
    pub fn of(answer: Answer<'_>) -> Self
        requires { IsSendable answer.port answer.command }
        ensures uplink { result ≡ uplink_of answer.entry }
        ensures fits { UplinkFits result }
    {
        // (written in place, so that no payload is moved)
        let mut payload = Payload::new();
        spell(answer.port, Direction::Up, &answer.command, &mut payload);
        let mut bytes = ArrayVec::new();
        bytes.try_extend_from_slice(payload.as_slice()).unwrap();
        QueuedUplink {
            due: answer.due,
            port: answer.port,
            bytes,
        }
    }

    /// Reads an uplink of a saved device; None exactly where its payload is no command that a device sends on that port.
    pub fn read(due: u64, port: u8, payload: &[u8]) -> Option<Self>
        ensures uplink { IfSome result
            (λ u. u ≡ record { due = due; port = port; payload = payload.now }) }
        ensures spelled { IfSome result (λ u. UplinkFits u) }
        ensures none { IfNone result
            (IsUplink (record { due = due; port = port; payload = payload.now }) → ⊥) }
    {
        let Ok(mut message) = Message::read(port, Direction::Up, payload) else {
            return None;
        };
        let command = message.next()?;
        let uplink = QueuedUplink::of(Answer { due, port, command });
        if uplink.bytes.as_slice() == payload {
            Some(uplink)
        } else {
            None
        }
    }

    /// Puts its bytes as they are saved.
    pub fn put(&self, to: &mut SavedDevice)
        requires { length to.old.items + 32 ≤ 492 }
        ensures bytes { to.new.items ≡ to.old.items ++ uplink_bytes self.now }
        ensures size { length to.new.items ≡ length to.old.items + 32 }
    {
        let length = self.bytes.len();
        put_u64(to, self.due);
        put(to, &[self.port, length as u8]);
        put(to, self.bytes.as_slice());
        put_zeros(to, LONGEST - length);
    }

    /// Writes it into an uplink without bytes.
    pub fn write(&self, uplink: &mut Uplink)
        requires { uplink.old.payload ≡ [] }
        ensures { uplink.new ≡ self.now }
    {
        uplink.due = self.due;
        uplink.port = self.port;
        uplink.payload.append(self.bytes.as_slice()).unwrap();
    }
}
