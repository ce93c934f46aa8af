//! The four sessions of a device in memory, of one size. Each call is handed on to those of that size.

ghost use Rattle.std.specs.Prelude.{◌≡◌, ◌<◌, ◌≤◌, IfOk, IfSome, is_some, option_map, length};
ghost use Rattle.frag_session.specs.Setup.{setup_bits};
ghost use Rattle.frag_session.specs.Session.{status_of, view_of};
ghost use Rattle.frag_session.specs.HeldView.{seen};
ghost use Rattle.session_store.specs.BySize.{slots_in};
ghost use Rattle.session_store.specs.HeldSessions.{SessionsStand, SlotsBecome, SlotsHear};
ghost use Rattle.session_store.specs.SessionTable.{SessionTable, no_sessions, session_at, with_session, table_after_setup};
ghost use Rattle.session_store.specs.Size.{memory_of};

use crate::session_slots::SessionSlots;
use crate::sizes::{
    MIDDLE_BYTES, MIDDLE_PIECES, MIDDLE_WORDS, ROW_BYTES, ROW_WORDS, ROWS16_BYTES, ROWS16_WORDS,
    ROWS64_BYTES, ROWS64_WORDS, SMALL_BYTES, SMALL_PIECES, SMALL_WORDS, SessionSize,
};
use frag_model::lines::MAX_PIECES;
use frag_session::{Heard, Limits, SetupReq, StatusAns, Via, View};
use row_elimination::Memory;
use std::alloc::Global;

/// The slots of each size.
#[derive(Drop)]
pub enum MemorySessions {
    Small(SessionSlots<SMALL_WORDS, SMALL_BYTES>),
    Middle(SessionSlots<MIDDLE_WORDS, MIDDLE_BYTES>),
    Rows16(SessionSlots<ROWS16_WORDS, ROWS16_BYTES>),
    Rows64(SessionSlots<ROWS64_WORDS, ROWS64_BYTES>),
    Large(SessionSlots<ROW_WORDS, ROW_BYTES>),
}

macro_rules! hand_on {
    ($of:expr, $slots:ident => $call:expr) => {
        match $of {
            MemorySessions::Small($slots) => $call,
            MemorySessions::Middle($slots) => $call,
            MemorySessions::Rows16($slots) => $call,
            MemorySessions::Rows64($slots) => $call,
            MemorySessions::Large($slots) => $call,
        }
    };
}

impl MemorySessions {
    /// Takes the memory of slots without sessions, each with a file area of so many bytes; `Memory` where there is too little.
    pub fn reserve(alloc: Global, size: SessionSize, area: u32) -> Result<Self, Memory>
        ensures stands { IfOk result (λ s. SessionsStand (slots_in s) no_sessions) }
        ensures room { IfOk result (λ s. (slots_in s).room ≡ memory_of size area) }
    {
        match size {
            SessionSize::Small => {
                let slots = SessionSlots::reserve(alloc, area, SMALL_PIECES)?;
                Ok(MemorySessions::Small(slots))
            }
            SessionSize::Middle => {
                let slots = SessionSlots::reserve(alloc, area, MIDDLE_PIECES)?;
                Ok(MemorySessions::Middle(slots))
            }
            SessionSize::Rows16 => {
                let slots = SessionSlots::reserve(alloc, area, MAX_PIECES)?;
                Ok(MemorySessions::Rows16(slots))
            }
            SessionSize::Rows64 => {
                let slots = SessionSlots::reserve(alloc, area, MAX_PIECES)?;
                Ok(MemorySessions::Rows64(slots))
            }
            SessionSize::Large => {
                let slots = SessionSlots::reserve(alloc, area, MAX_PIECES)?;
                Ok(MemorySessions::Large(slots))
            }
        }
    }

    /// Takes a FragSessionSetupReq and returns all refusal bits; without one the session of that index stays or is replaced.
    pub fn setup(&mut self, req: SetupReq, limits: Limits) -> u8
        requires { req.index < 4 }
        ensures bits { result ≡ setup_bits limits (slots_in self.old).room req }
        ensures becomes { SlotsBecome (slots_in self.old) (slots_in self.new)
            (table_after_setup limits (slots_in self.old).room req) }
    {
        hand_on!(self, slots => slots.setup(req, limits))
    }

    /// Hears a fragment of a session, or drops it.
    pub fn fragment(&mut self, index: u8, via: Via, n: u16, part: &[u8], mark: u64) -> Heard
        requires { index < 4 }
        ensures hears { SlotsHear (slots_in self.old) (slots_in self.new) index via n part.now mark
            result }
        ensures dropped { (c : _) → result ≡ Heard.Dropped c → self.new ≡ self.old }
    {
        hand_on!(self, slots => slots.fragment(index, via, n, part, mark))
    }

    /// Ends a session; false exactly where there is none.
    pub fn delete(&mut self, index: u8) -> bool
        requires { index < 4 }
        ensures answer { (table : SessionTable) → SessionsStand (slots_in self.old) table
            → result ≡ is_some (session_at table index) }
        ensures becomes { SlotsBecome (slots_in self.old) (slots_in self.new)
            (λ table. with_session table index None) }
    {
        hand_on!(self, slots => slots.delete(index))
    }

    /// Answers a status request to a session; None where it has no answer.
    pub fn status(&self, index: u8, via: Via, all: bool) -> Option<StatusAns>
        requires { index < 4 }
        ensures value { (table : SessionTable) → SessionsStand (slots_in self.now) table
            → result ≡ status_of (session_at table index) via all }
        ensures few { IfSome result (λ a. a.received ≤ 16383) }
    {
        hand_on!(self, slots => slots.status(index, via, all))
    }

    /// Returns what a session shows; None exactly where there is none.
    pub fn view(&self, index: u8) -> Option<View<'_>>
        requires { index < 4 }
        ensures value { (table : SessionTable) → SessionsStand (slots_in self.now) table
            → option_map seen result ≡ view_of (session_at table index) }
        ensures within { IfSome result
            (λ v. length v.file.now ≤ (slots_in self.now).room.extent.area) }
    {
        hand_on!(self, slots => slots.view(index))
    }
}
