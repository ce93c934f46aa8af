//! The four sessions of a device (TS004-1.0.0, FragIndex) in memory.

ghost use Rattle.std.specs.Prelude.{◌≡◌, ◌≢◌, ◌<◌, ◌≤◌, Option, None, IfOk, IfSome, is_some, option_map, length};
ghost use Rattle.frag_session.specs.Setup.{memory_room, setup_bits};
ghost use Rattle.frag_session.specs.Session.{status_of, view_of};
ghost use Rattle.frag_session.specs.HeldView.{seen};
ghost use Rattle.frag_session.specs.HeldHistory.{Stands};
ghost use Rattle.frag_session.specs.HeldSteps.{extent_of};
ghost use Rattle.frag_model.specs.Limits.{max_pieces};
ghost use Rattle.session_store.specs.SessionTable.{SessionTable, no_sessions, session_at, with_session, table_after_setup};
ghost use Rattle.session_store.specs.HeldSessions.{SessionsStand, SlotsBecome, SlotsHear};
ghost use Rattle.session_store.specs.Size.{row_words, row_bytes};

use frag_session::{Heard, Idle, Limits, SetupReq, Slot, StatusAns, Via, View};
use row_elimination::{Memory, Solver};
use std::alloc::Global;
use std::marker::Model;

/// A slot for each session, with all memory that it ever needs: `W` words and `B` bytes of it are for rows.
#[derive(Drop)]
pub struct SessionSlots<const W: usize, const B: usize> {
    slots: [Slot<W, B>; 4],
}

impl<const W: usize, const B: usize> Model for SessionSlots<W, B> {
    ghost use Rattle.session_store.specs.HeldSessions.{HeldSessions, HaveRoom, held_in};

    ghost Value = { HeldSessions };

    ghost view = { λ s. held_in W B s.slots };

    ghost invariant = { λ s. HaveRoom (held_in W B s.slots) };
}

impl<const W: usize, const B: usize> SessionSlots<W, B> {
    /// Takes the memory of slots without sessions, each with a file area of so many bytes and for so many pieces; `Memory` where
    /// there is too little.
    pub fn reserve(alloc: Global, area: u32, pieces: u16) -> Result<Self, Memory>
        requires words { W ≤ row_words }
        requires bytes { B ≤ row_bytes }
        requires most { pieces ≤ max_pieces }
        ensures stands { IfOk result (λ s. SessionsStand s no_sessions) }
        ensures room { IfOk result (λ s.
            s.room ≡ memory_room W B (record { area = area; pieces = pieces })) }
    {
        Ok(SessionSlots {
            slots: [
                slot(alloc, area, pieces)?,
                slot(alloc, area, pieces)?,
                slot(alloc, area, pieces)?,
                slot(alloc, area, pieces)?,
            ],
        })
    }

    /// Takes a FragSessionSetupReq and returns all refusal bits; without one the session of that index stays or is replaced.
    pub fn setup(&mut self, req: SetupReq, limits: Limits) -> u8
        requires { req.index < 4 }
        ensures bits { result ≡ setup_bits limits self.old.room req }
        ensures becomes { SlotsBecome self.old self.new
            (table_after_setup limits self.old.room req) }
    {
        self.slots[usize::from(req.index)].setup(req, limits)
    }

    /// Hears a fragment of a session, or drops it.
    pub fn fragment(&mut self, index: u8, via: Via, n: u16, part: &[u8], mark: u64) -> Heard
        requires { index < 4 }
        ensures { SlotsHear self.old self.new index via n part.now mark result }
    {
        self.slots[usize::from(index)].fragment(via, n, part, mark)
    }

    /// Answers a status request to a session; None where it has no answer.
    pub fn status(&self, index: u8, via: Via, all: bool) -> Option<StatusAns>
        requires { index < 4 }
        ensures value { (table : SessionTable) → SessionsStand self.now table
            → result ≡ status_of (session_at table index) via all }
        ensures few { IfSome result (λ a. a.received ≤ 16383) }
    {
        self.slots[usize::from(index)].status(via, all)
    }

    /// Ends a session; false exactly where there is none.
    pub fn delete(&mut self, index: u8) -> bool
        requires { index < 4 }
        ensures answer { (table : SessionTable) → SessionsStand self.old table
            → result ≡ is_some (session_at table index) }
        ensures becomes { SlotsBecome self.old self.new (λ table. with_session table index None) }
    {
        self.slots[usize::from(index)].delete()
    }

    /// Returns what a session shows; None exactly where there is none.
    pub fn view(&self, index: u8) -> Option<View<'_>>
        requires { index < 4 }
        ensures value { (table : SessionTable) → SessionsStand self.now table
            → option_map seen result ≡ view_of (session_at table index) }
        ensures within { IfSome result (λ v. length v.file.now ≤ self.now.room.extent.area) }
    {
        self.slots[usize::from(index)].view()
    }
}

/// A slot without a session.
fn slot<const W: usize, const B: usize>(
    alloc: Global,
    area: u32,
    pieces: u16,
) -> Result<Slot<W, B>, Memory>
    requires words { W ≤ row_words }
    requires bytes { B ≤ row_bytes }
    requires most { pieces ≤ max_pieces }
    ensures stands { IfOk result (λ s. Stands s None) }
    ensures extent { IfOk result (λ s. extent_of s ≡ record { area = area; pieces = pieces }) }
{
    Ok(Slot::new(idle(alloc, area, pieces)?))
}

/// The memory of a session.
pub fn idle<const W: usize, const B: usize>(
    alloc: Global,
    area: u32,
    pieces: u16,
) -> Result<Idle<W, B>, Memory>
    requires words { W ≤ row_words }
    requires bytes { B ≤ row_bytes }
    requires most { pieces ≤ max_pieces }
    ensures { IfOk result (λ idle. idle ≡ record { area = area; pieces = pieces }) }
{
    Ok(Idle::new(Solver::reserve_for(alloc, area, pieces)?))
}
