//! The sessions of a device, wherever they are, with its flash: only in memory, in flash, or down until power comes.

ghost use Rattle.std.specs.Prelude.{◌≡◌, ℕ, ◌<◌, ◌≤◌, List, Option, None, true, false, IfOk, IfSome, is_some, option_map, length};
ghost use Rattle.frag_session.specs.Setup.{setup_bits};
ghost use Rattle.frag_session.specs.Session.{answer_of, drop_cause, news_in, status_of, view_of};
ghost use Rattle.frag_session.specs.HeldView.{seen};
ghost use Rattle.flash_session.specs.Body.{FieldsFit};
ghost use Rattle.flash_session.specs.Seen.{left};
ghost use Rattle.flash_session.specs.Serving.{FlashOpens};
ghost use Rattle.session_store.specs.CompleteFlags.{none_complete, is_whole};
ghost use Rattle.session_store.specs.Size.{laid_out, size_with};
ghost use Rattle.session_store.specs.SessionTable.{SessionTable, no_sessions, session_at, with_session, table_after_setup, table_after_fragment};
ghost use Rattle.session_store.specs.HeldForeign.{NoneForeign, IsForeignIn};
ghost use Rattle.session_store.specs.HeldPlaces.{TableLies, TableOldOrNew, TableOldNoneOrNew};
ghost use Rattle.session_store.specs.HeldStore.{IsUp, IsDown, IsInFlash, StateStands, StateIsHeld, HadWhole, HasRanges, StoreServes, StorePowers, store_room};
ghost use Rattle.session_store.specs.declared.state.State.TheVariants.{Down};

use crate::flash_sessions::FlashSessions;
use crate::held_slots::Layout;
use crate::sizes::SessionSize;
use crate::state::{
    CompleteFlags, State, first_state, go_down, is_complete, put_down, put_idles, put_slots,
};
use flash_session::{Flash, OpenFault};
use frag_session::{Heard, SetupReq, StatusAns, Via, View};
use row_elimination::Memory;
use std::alloc::Global;
use std::marker::Model;
use thiserror::Error;

/// A call of the flash failed. The sessions are down until power comes.
#[derive(Clone, Copy, Debug, PartialEq, Eq, Error)]
#[error("a call of the flash failed")]
pub struct FlashFault;

/// The four sessions of a device, by their index, 0 to 3, and the flash that may hold them. Contracts see where they are, and for
/// which sessions they stand; sessions that are down stand for none.
#[derive(Drop)]
pub struct SessionStore<F: Flash + Drop> {
    flash: F,
    layout: Layout,
    state: Option<State>,
}

impl<F: Flash + Drop> Model for SessionStore<F> {
    ghost use Rattle.std.specs.Prelude.{◌≡◌, true, is_some};
    ghost use Rattle.session_store.specs.HeldStore.{HeldStore, kept, held_in, size_in, StateFits};
    ghost use Rattle.session_store.specs.Size.{laid_out};

    ghost Value = { HeldStore F };

    ghost view = { λ s. record {
      flash = s.flash;
      layout = laid_out (size_in (kept s.state)) s.layout;
      held = held_in (kept s.state);
      state = kept s.state;
    } };

    ghost invariant = { λ s. (is_some s.state ≡ true)
        × StateFits (laid_out (size_in (kept s.state)) s.layout) (F.seen s.flash).room
        (kept s.state) };
}

impl<F: Flash + Drop> SessionStore<F> {
    ghost use Rattle.session_store.specs.declared.state.CompleteFlags.{CompleteFlags};

    /// Takes all memory. Where `held` is false the sessions are only in memory, and no flash is called; else they are down over
    /// four ranges within the flash, until `power`. `Memory` comes where memory is missing, and the flash is then dropped.
    pub fn reserve(
        alloc: Global,
        flash: F,
        layout: Layout,
        size: SessionSize,
        held: bool,
    ) -> Result<Self, Memory>
        requires { held ≡ true → HasRanges (laid_out (size_with size) layout) (F.seen flash).room }
        ensures memory { held ≡ false → IfOk result (λ s. StateStands s.state no_sessions) }
        ensures down { held ≡ true
            → IfOk result (λ s. (idles : _) × (s.state ≡ Down idles none_complete)) }
        ensures laid { IfOk result
            (λ s. (s.layout ≡ laid_out (size_with size) layout) × (s.held ≡ held)) }
        ensures flash { IfOk result (λ s. s.flash ≡ flash) }
    {
        match first_state(alloc, layout, size, held) {
            Ok(state) => Ok(SessionStore {
                flash,
                layout,
                state: Some(state),
            }),
            Err(error) => {
                drop(flash);
                Err(error)
            }
        }
    }

    /// Says whether they are down until power comes.
    pub fn is_down(&self) -> bool
        ensures down { result ≡ true → IsDown self.now.state }
        ensures up { result ≡ false → IsUp self.now.state }
        // What a stop between two calls leaves opens for the sessions that are held in flash.
        ensures between { (table : SessionTable)
            → StateIsHeld self.now.state table (F.seen self.now.flash)
            → (c : List ℕ) → left (F.seen self.now.flash) c → TableLies self.now.layout table c }
    {
        match &self.state {
            Some(State::Memory(_)) => false,
            Some(State::Flash(slots)) => {
                slots.lie(&self.flash);
                false
            }
            _ => true,
        }
    }

    /// Says whether they are held in flash.
    pub fn is_held(&self) -> bool
        ensures held { result ≡ self.now.held }
        ensures in_flash { result ≡ true → IsInFlash self.now.state }
        ensures in_memory { result ≡ false → IsInFlash self.now.state → ⊥ }
    {
        !matches!(self.state, Some(State::Memory(_)))
    }

    /// Returns the flash, to look at.
    pub fn flash(&self) -> &F
        ensures { result.now ≡ self.now.flash }
    {
        &self.flash
    }

    /// Returns the flash.
    pub fn close(self) -> F
        ensures { result ≡ self.flash }
    {
        let SessionStore {
            flash,
            layout: _layout,
            state,
        } = self;
        drop(state);
        flash
    }

    /// Takes a FragSessionSetupReq and returns all refusal bits; without one the session of that index stays or is replaced.
    pub fn setup(&mut self, req: SetupReq) -> Result<u8, FlashFault>
        requires up { IsUp self.old.state }
        requires fields { FieldsFit req }
        ensures bits { IfOk result
            (λ bits. bits ≡ setup_bits self.old.layout.limits
            (store_room self.old.layout self.old.held) req) }
        // A stop at any moment leaves the sessions as they were, none at that index, or the new one there.
        ensures serves { StoreServes F.seen
            (table_after_setup self.old.layout.limits
            (store_room self.old.layout self.old.held) req)
            (TableOldNoneOrNew self.old.layout req.index) self.old self.new result }
    {
        match &mut self.state {
            Some(State::Memory(slots)) => Ok(slots.setup(req, self.layout.limits)),
            Some(State::Flash(slots)) => {
                let flags = slots.flags();
                match slots.setup(&mut self.flash, req) {
                    Ok(bits) => Ok(bits),
                    Err(_) => {
                        go_down(&mut self.state, flags);
                        Err(FlashFault)
                    }
                }
            }
            Some(State::Down(_, _)) | None => Err(FlashFault),
        }
    }

    /// Hears a fragment of a session, or drops it.
    pub fn fragment(
        &mut self,
        index: u8,
        via: Via,
        n: u16,
        part: &[u8],
        mark: u64,
    ) -> Result<Heard, FlashFault>
        requires up { IsUp self.old.state }
        requires index { index < 4 }
        ensures answer { (table : SessionTable) → StateStands self.old.state table
            → IfOk result
            (λ heard. heard ≡ answer_of (drop_cause (session_at table index) via n part.now)
            (news_in (session_at table index) n part.now mark)) }
        ensures dropped { IfOk result
            (λ heard. (c : _) → heard ≡ Heard.Dropped c → self.new ≡ self.old) }
        // A stop at any moment leaves the sessions as they were, or that one followed by the fragment.
        ensures serves { StoreServes F.seen (table_after_fragment index via n part.now mark)
            (TableOldOrNew self.old.layout) self.old self.new result }
    {
        match &mut self.state {
            Some(State::Memory(slots)) => Ok(slots.fragment(index, via, n, part, mark)),
            Some(State::Flash(slots)) => {
                let flags = slots.flags();
                match slots.fragment(&mut self.flash, index, via, n, part, mark) {
                    Ok(heard) => Ok(heard),
                    Err(_) => {
                        go_down(&mut self.state, flags);
                        Err(FlashFault)
                    }
                }
            }
            Some(State::Down(_, _)) | None => Err(FlashFault),
        }
    }

    /// Ends a session; false exactly where there is none.
    pub fn delete(&mut self, index: u8) -> Result<bool, FlashFault>
        requires up { IsUp self.old.state }
        requires index { index < 4 }
        ensures answer { (table : SessionTable) → StateStands self.old.state table
            → IfOk result (λ lived. lived ≡ is_some (session_at table index)) }
        // A stop at any moment leaves the sessions as they were, or none at that index.
        ensures serves { StoreServes F.seen (λ table. with_session table index None)
            (TableOldOrNew self.old.layout) self.old self.new result }
    {
        match &mut self.state {
            Some(State::Memory(slots)) => Ok(slots.delete(index)),
            Some(State::Flash(slots)) => {
                let flags = slots.flags();
                match slots.delete(&mut self.flash, index) {
                    Ok(lived) => Ok(lived),
                    Err(_) => {
                        go_down(&mut self.state, flags);
                        Err(FlashFault)
                    }
                }
            }
            Some(State::Down(_, _)) | None => Err(FlashFault),
        }
    }

    /// Answers a status request to a session; None where it has no answer.
    pub fn status(&self, index: u8, via: Via, all: bool) -> Option<StatusAns>
        requires { index < 4 }
        ensures value { (table : SessionTable) → StateStands self.now.state table
            → result ≡ status_of (session_at table index) via all }
        ensures few { IfSome result (λ a. a.received ≤ 16383) }
    {
        match &self.state {
            Some(State::Memory(slots)) => slots.status(index, via, all),
            Some(State::Flash(slots)) => slots.status(index, via, all),
            _ => None,
        }
    }

    /// Returns what a session shows; None exactly where there is none, or all are down.
    pub fn view(&self, index: u8) -> Option<View<'_>>
        requires { index < 4 }
        ensures value { (table : SessionTable) → StateStands self.now.state table
            → option_map seen result ≡ view_of (session_at table index) }
        ensures down { IsDown self.now.state → result ≡ None }
        ensures within { IfSome result (λ v. length v.file.now ≤ self.now.layout.area) }
    {
        match &self.state {
            Some(State::Memory(slots)) => slots.view(index),
            Some(State::Flash(slots)) => slots.view(index),
            _ => None,
        }
    }

    /// Says which sessions have their file whole, or had it whole when they went down.
    pub fn flags(&self) -> CompleteFlags
        ensures { (flags : CompleteFlags) → HadWhole self.now.state flags → result ≡ flags }
    {
        match &self.state {
            Some(State::Down(_, flags)) => *flags,
            _ => CompleteFlags {
                first: self.is_whole(0),
                second: self.is_whole(1),
                third: self.is_whole(2),
                fourth: self.is_whole(3),
            },
        }
    }

    /// Says whether the file of a session is whole.
    #[tactic(auto, unfolding(frag_session::specs::HeldView::seen))]
    fn is_whole(&self, index: u8) -> bool
        requires { index < 4 }
        ensures { (table : SessionTable) → StateStands self.now.state table
            → result ≡ is_whole (view_of (session_at table index)) }
    {
        match self.view(index) {
            Some(view) => is_complete(view.verdict),
            None => false,
        }
    }

    /// Sets which sessions had their file whole when they were last up; the sessions are down.
    pub fn set_flags(&mut self, flags: CompleteFlags)
        requires { IsDown self.old.state }
        ensures { (idles : _) (was : _) → self.old.state ≡ Down idles was
            → self.new ≡ record self.old { state = Down idles flags } }
    {
        if let Some(State::Down(_, was)) = &mut self.state {
            *was = flags;
        }
    }

    /// Opens the sessions of a device that holds them in flash, and says which had their file whole when they were last up.
    pub fn power(&mut self) -> Result<CompleteFlags, OpenFault>
        requires { self.old.held ≡ true }
        ensures powers { StorePowers F.seen self.old self.new result }
        // Foreign comes exactly where the header's gate of a range is open and something there is no session's.
        ensures opens { FlashOpens (λ e. e)
            (λ flags seen. (b : List ℕ) → seen.holds b → NoneForeign self.old.layout b)
            (IsForeignIn self.old.layout) (F.seen self.old.flash) (F.seen self.new.flash) result }
    {
        let (idles, flags) = put_down(self.state.take(), &self.flash, self.layout);
        match FlashSessions::open(&mut self.flash, idles, self.layout) {
            Ok(slots) => {
                put_slots(&mut self.state, slots);
                Ok(flags)
            }
            Err((idles, fault)) => {
                put_idles(&mut self.state, idles, flags);
                Err(fault)
            }
        }
    }
}
