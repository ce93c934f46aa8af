//! The answers to a payload, a frame and waking.

use mc_frames::FrameFault;
use thiserror::Error;
use wire_base::Refusal;

/// What happened to a payload.
#[derive(Clone, Copy, Debug, PartialEq, Eq)]
pub enum Delivered {
    /// The device did not hear it.
    Deaf,
    /// It is no message, with the place and the cause; nothing acted.
    Refused(Refusal),
    /// Its answers could bring the outbox to so many uplinks, more than 8; nothing acted.
    OutboxFull(u16),
    /// Its commands acted in order.
    Done,
    /// The flash that holds its sessions failed at a command: those before it acted, and the sessions are down.
    FlashFault,
    /// Its sessions are down until power comes; nothing acted or was counted.
    Down,
}

/// What happened to bytes that the radio heard.
#[derive(Clone, Copy, Debug, PartialEq, Eq)]
pub enum Aired {
    /// They are no frame of the group that is heard, for this reason.
    Foreign(FrameFault),
    /// They are a frame of the group, and this happened to its payload.
    Heard(Delivered),
}

/// The outbox holds 8 uplinks; nothing was sent.
#[derive(Clone, Copy, Debug, PartialEq, Eq, Error)]
#[error("the outbox holds 8 uplinks")]
pub struct OutboxFull;
