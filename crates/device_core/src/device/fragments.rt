//! Fragmented data blocks on the device (TS004-1.0.0).

ghost use Rattle.std.specs.Prelude.{◌≡◌, ◌+◌, ◌%◌, ◌^◌, ◌<◌, ◌≤◌, [], ◌∷◌, length, None};
ghost use Rattle.package_grammar.specs.declared.command.Command.{Command};
ghost use Rattle.cast_wire.specs.declared.cmd.Cmd.TheVariants.{FragSessionStatusAns, FragSessionDeleteAns};
ghost use Rattle.cast_wire.specs.SetupRefusal.{setup_answer};
ghost use Rattle.frag_session.specs.declared.setups.SetupReq.{SetupReq};
ghost use Rattle.frag_session.specs.Session.{view_of};
ghost use Rattle.flash_session.specs.Body.{FieldsFit};
ghost use Rattle.device_core.specs.SessionTable.{SessionTable, session_at, with_session};
ghost use Rattle.device_core.specs.Device.{max_moment};
ghost use Rattle.device_core.specs.HeldSessions.{IsUp, StateStands};
ghost use Rattle.device_core.specs.HeldPayloads.{Attempts};
ghost use Rattle.device_core.specs.Fragments.{setup_step, delete_step, answer_delay, status_step, is_complete, is_whole, whole_file, slots_after, fragment_step};
ghost use Rattle.device_core.specs.Sendable.{IsSendable};

use super::Device;
use crate::arrival::Arrival;
use cast_wire::{Cmd, setup_answer};
use flash_session::Flash;
use frag_session::{Heard, SetupReq, StatusAns, Verdict, Via};
use image_slots::Slots;
use package_grammar::Command;
use session_store::{FlashFault, SessionStore};

impl<F: Flash + Drop> Device<F> {
    ghost use Rattle.device_core.specs.HeldDevice.{Steps};

    /// FragSessionSetupReq. Where the flash fails there is no answer.
    pub(super) fn setup(&mut self, here: Arrival, req: SetupReq) -> Result<(), FlashFault>
        requires up { IsUp self.old.sessions.state }
        requires port { here.port ≡ 201 }
        requires fields { FieldsFit req }
        requires room { length self.old.outbox < 8 }
        ensures { Attempts F.seen self.old self.new result
            1 (λ device. setup_step here device req)
            (λ device. device.sessions ∷ with_session device.sessions req.index None
            ∷ (setup_step here device req).device.sessions ∷ []) }
    {
        match self.sessions.setup(req) {
            Ok(bits) => {
                self.send(here.moment.t, here.port, setup_refusal(req.index, bits));
                Ok(())
            }
            Err(FlashFault) => Err(FlashFault),
        }
    }

    /// FragSessionDeleteReq. Where the flash fails there is no answer.
    pub(super) fn delete(&mut self, here: Arrival, index: u8) -> Result<(), FlashFault>
        requires up { IsUp self.old.sessions.state }
        requires port { here.port ≡ 201 }
        requires index { index < 4 }
        requires room { length self.old.outbox < 8 }
        ensures { Attempts F.seen self.old self.new result
            1 (λ device. delete_step here device index)
            (λ device. device.sessions ∷ with_session device.sessions index None
            ∷ (delete_step here device index).device.sessions ∷ []) }
    {
        match self.sessions.delete(index) {
            Ok(lived) => {
                self.send(here.moment.t, here.port, delete_answer(index, !lived));
                Ok(())
            }
            Err(FlashFault) => Err(FlashFault),
        }
    }

    /// FragSessionStatusReq. No flash is called.
    #[tactic(auto, unfolding(crate::specs::Fragments::status_step, crate::specs::Answers::after_answers))]
    pub(super) fn status(&mut self, here: Arrival, index: u8, all: bool)
        requires port { here.port ≡ 201 }
        requires moment { here.moment.t ≤ max_moment }
        requires index { index < 4 }
        requires room { length self.old.outbox < 8 }
        ensures steps { Steps self.old self.new 1 (λ device. status_step here device index all) }
        ensures untouched { self.new.sessions ≡ self.old.sessions }
    {
        if let Some(status) = self.sessions.status(index, here.via, all) {
            let due = here.moment.t + answer_delay(here.via, here.moment.word, status.delay);
            self.send(due, here.port, status_answer(index, status));
        }
    }

    /// DataFragment. Where the flash fails nothing is offered or counted.
    pub(super) fn fragment(
        &mut self,
        here: Arrival,
        index: u8,
        n: u16,
        part: &[u8],
    ) -> Result<(), FlashFault>
        requires up { IsUp self.old.sessions.state }
        requires index { index < 4 }
        ensures { Attempts F.seen self.old self.new result
            0 (λ device. fragment_step here device index n part.now)
            (λ device. device.sessions
            ∷ (fragment_step here device index n part.now).device.sessions ∷ []) }
    {
        let was_whole = is_whole(&self.sessions, index);
        let heard = self
            .sessions
            .fragment(index, here.via, n, part, here.moment.mark)?;
        match heard {
            Heard::Fed(_) => offer(&mut self.slots, &self.sessions, index, was_whole),
            Heard::Dropped(_) => self.count_dropped(),
        }
        Ok(())
    }
}

/// Whether the file of a session is whole.
#[tactic(auto, unfolding(frag_session::specs::HeldView::seen))]
pub(super) fn is_whole<F: Flash + Drop>(sessions: &SessionStore<F>, index: u8) -> bool
    requires { index < 4 }
    ensures { (table : SessionTable) → StateStands sessions.now.state table
        → result ≡ is_whole (view_of (session_at table index)) }
{
    match sessions.view(index) {
        Some(view) => is_complete(view.verdict),
        None => false,
    }
}

/// Offers to next the file of a session that was not whole before and is whole now.
#[tactic(auto, unfolding(frag_session::specs::HeldView::seen, image_slots::specs::Slots::after_offer))]
pub(super) fn offer<F: Flash + Drop>(
    slots: &mut Slots,
    sessions: &SessionStore<F>,
    index: u8,
    was_whole: bool,
)
    requires index { index < 4 }
    requires area { sessions.now.layout.area ≤ slots.old.area }
    ensures hw { slots.new.hw ≡ slots.old.hw }
    ensures area { slots.new.area ≡ slots.old.area }
    ensures formats { slots.new.slots.formats ≡ slots.old.slots.formats }
    ensures offers { (table : SessionTable) → StateStands sessions.now.state table
        → let file = whole_file (view_of (session_at table index)) in
        slots.new ≡ record slots.old {
          slots = slots_after slots.old.hw was_whole file slots.old.slots;
        } }
{
    match sessions.view(index) {
        Some(view) if !was_whole && is_complete(view.verdict) => slots.offer(view.file),
        _ => {}
    }
}

/// Whether the verdict is that the file is whole.
fn is_complete(verdict: Verdict) -> bool
    ensures { result ≡ is_complete verdict }
{
    match verdict {
        Verdict::Complete(_) => true,
        _ => false,
    }
}

/// FragSessionSetupAns with all its refusal bits.
fn setup_refusal(index: u8, bits: u8) -> Command<'static>
    requires { index < 4 }
    ensures value { result ≡ Command.Cast (setup_answer index bits) }
    ensures sendable { IsSendable 201 result }
{
    Command::Cast(setup_answer(index, bits))
}

/// FragSessionDeleteAns.
fn delete_answer(index: u8, missing: bool) -> Command<'static>
    requires { index < 4 }
    ensures value { result ≡ Command.Cast (FragSessionDeleteAns index missing) }
    ensures sendable { IsSendable 201 result }
{
    Command::Cast(Cmd::FragSessionDeleteAns { index, missing })
}

/// FragSessionStatusAns.
fn status_answer(index: u8, status: StatusAns) -> Command<'static>
    requires index { index < 4 }
    requires few { status.received ≤ 16383 }
    ensures value { result ≡ Command.Cast
        (FragSessionStatusAns index status.received status.missing status.norows) }
    ensures sendable { IsSendable 201 result }
{
    Command::Cast(Cmd::FragSessionStatusAns {
        index,
        received: status.received,
        missing: status.missing,
        norows: status.norows,
    })
}

/// The ms until a status request is answered.
fn answer_delay(via: Via, word: u32, delay: u8) -> u64
    ensures value { result ≡ answer_delay via word delay }
    ensures few { result < 2 ^ 42 }
{
    match via {
        Via::Unicast => 0,
        Via::Group(_) => 1000 * low_bits(word, delay) as u64,
    }
}

/// The lowest delay + 4 bits of a word.
fn low_bits(word: u32, delay: u8) -> u32
    ensures { result ≡ word % 2 ^ (delay + 4) }
{
    if delay < 28 {
        word % (1 << (delay + 4))
    } else {
        word
    }
}
