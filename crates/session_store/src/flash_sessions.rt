//! The four sessions of a device in its flash, and their memory, of one size. Each call is handed on to those of that size.

ghost use Rattle.std.specs.Prelude.{◌≡◌, ℕ, ◌*◌, ◌<◌, ◌≤◌, List, IfOk, IfErr, IfSome, MatchResult, is_some, option_map, length};
ghost use Rattle.flash_session.specs.Body.{FieldsFit};
ghost use Rattle.flash_session.specs.Layout.{records_place};
ghost use Rattle.flash_session.specs.Seen.{left};
ghost use Rattle.flash_session.specs.Serving.{FlashOpens};
ghost use Rattle.frag_session.specs.HeldView.{seen};
ghost use Rattle.frag_session.specs.Session.{answer_of, drop_cause, news_in, status_of, view_of};
ghost use Rattle.frag_session.specs.Setup.{setup_bits};
ghost use Rattle.session_store.specs.BySize.{places_in, idle_size, laid_for, IdleFor};
ghost use Rattle.session_store.specs.CompleteFlags.{flags_of};
ghost use Rattle.session_store.specs.HeldForeign.{NoneForeign, IsForeignIn};
ghost use Rattle.session_store.specs.HeldPlaces.{PlacesStand, AreHeld, TableLies, room_at};
ghost use Rattle.session_store.specs.HeldPlaces.{PlacesServe, TableOldOrNew, TableOldNoneOrNew};
ghost use Rattle.session_store.specs.SessionTable.{SessionTable, session_at, with_session, table_after_setup, table_after_fragment};
ghost use Rattle.session_store.specs.Size.{size_with};

use crate::held_slots::{HeldSlots, Idles, Layout};
use crate::sizes::{
    MIDDLE_BYTES, MIDDLE_PIECES, MIDDLE_WORDS, ROW_BYTES, ROW_WORDS, ROWS16_BYTES, ROWS16_WORDS,
    ROWS64_BYTES, ROWS64_WORDS, SMALL_BYTES, SMALL_PIECES, SMALL_WORDS, SessionSize,
};
use crate::state::CompleteFlags;
use flash_session::{Failed, Flash, OpenFault};
use frag_model::lines::MAX_PIECES;
use frag_session::{Heard, SetupReq, StatusAns, Via, View};
use row_elimination::Memory;
use std::alloc::Global;

/// The memory of four sessions of each size; none of them is there.
#[derive(Drop)]
pub enum IdleSessions {
    Small(Idles<SMALL_WORDS, SMALL_BYTES>),
    Middle(Idles<MIDDLE_WORDS, MIDDLE_BYTES>),
    Rows16(Idles<ROWS16_WORDS, ROWS16_BYTES>),
    Rows64(Idles<ROWS64_WORDS, ROWS64_BYTES>),
    Large(Idles<ROW_WORDS, ROW_BYTES>),
}

/// The sessions of each size, held in flash.
#[derive(Drop)]
pub enum FlashSessions {
    Small(HeldSlots<SMALL_PIECES, SMALL_WORDS, SMALL_BYTES>),
    Middle(HeldSlots<MIDDLE_PIECES, MIDDLE_WORDS, MIDDLE_BYTES>),
    Rows16(HeldSlots<MAX_PIECES, ROWS16_WORDS, ROWS16_BYTES>),
    Rows64(HeldSlots<MAX_PIECES, ROWS64_WORDS, ROWS64_BYTES>),
    Large(HeldSlots<MAX_PIECES, ROW_WORDS, ROW_BYTES>),
}

macro_rules! hand_on {
    ($of:expr, $slots:ident => $call:expr) => {
        match $of {
            FlashSessions::Small($slots) => $call,
            FlashSessions::Middle($slots) => $call,
            FlashSessions::Rows16($slots) => $call,
            FlashSessions::Rows64($slots) => $call,
            FlashSessions::Large($slots) => $call,
        }
    };
}

/// What an opening of sessions of this size made, or their memory with the reason.
macro_rules! opened {
    ($size:ident, $result:expr) => {
        match $result {
            Ok(slots) => Ok(FlashSessions::$size(slots)),
            Err((idles, fault)) => Err((IdleSessions::$size(idles), fault)),
        }
    };
}

impl IdleSessions {
    /// Takes the memory of four sessions, each with a file area of so many bytes; `Memory` where there is too little.
    pub fn reserve(alloc: Global, size: SessionSize, area: u32) -> Result<Self, Memory>
        ensures size { IfOk result (λ idles. idle_size idles ≡ size_with size) }
        ensures idle { IfOk result (IdleFor area) }
    {
        match size {
            SessionSize::Small => {
                let idles = Idles::reserve(alloc, area, SMALL_PIECES)?;
                Ok(IdleSessions::Small(idles))
            }
            SessionSize::Middle => {
                let idles = Idles::reserve(alloc, area, MIDDLE_PIECES)?;
                Ok(IdleSessions::Middle(idles))
            }
            SessionSize::Rows16 => {
                let idles = Idles::reserve(alloc, area, MAX_PIECES)?;
                Ok(IdleSessions::Rows16(idles))
            }
            SessionSize::Rows64 => {
                let idles = Idles::reserve(alloc, area, MAX_PIECES)?;
                Ok(IdleSessions::Rows64(idles))
            }
            SessionSize::Large => {
                let idles = Idles::reserve(alloc, area, MAX_PIECES)?;
                Ok(IdleSessions::Large(idles))
            }
        }
    }
}

impl FlashSessions {
    /// Opens the four ranges from the flash's first byte on: each with the session that is stored there, or with none. `Foreign`
    /// names the lowest foreign place of the first range that has one, counted from the range's first byte.
    pub fn open<F: Flash>(
        flash: &mut F,
        idles: IdleSessions,
        layout: Layout,
    ) -> Result<FlashSessions, (IdleSessions, OpenFault)>
        requires idle { IdleFor layout.area idles }
        requires range { 4 * layout.span ≤ (F.seen flash.old).room }
        requires long { records_place ≤ layout.span }
        ensures opened { (table : SessionTable) (b : List ℕ) → (F.seen flash.new).holds b
            → TableLies (laid_for idles layout) table b
            → MatchResult result (λ h. AreHeld (places_in h) table (F.seen flash.new))
            (λ e. e.1 ≡ OpenFault.Flash) }
        ensures opens { FlashOpens (λ e. e.1)
            (λ h seen. (b : List ℕ) → seen.holds b → NoneForeign (laid_for idles layout) b)
            (IsForeignIn (laid_for idles layout))
            (F.seen flash.old) (F.seen flash.new) result }
        ensures layout { IfOk result (λ h. (places_in h).layout ≡ laid_for idles layout) }
        ensures idle { IfErr result
            (λ e. (idle_size e.0 ≡ idle_size idles) × IdleFor layout.area e.0) }
    {
        match idles {
            IdleSessions::Small(idles) => opened!(Small, HeldSlots::open(flash, idles, layout)),
            IdleSessions::Middle(idles) => opened!(Middle, HeldSlots::open(flash, idles, layout)),
            IdleSessions::Rows16(idles) => opened!(Rows16, HeldSlots::open(flash, idles, layout)),
            IdleSessions::Rows64(idles) => opened!(Rows64, HeldSlots::open(flash, idles, layout)),
            IdleSessions::Large(idles) => opened!(Large, HeldSlots::open(flash, idles, layout)),
        }
    }

    /// Takes a FragSessionSetupReq and returns all refusal bits. At Err nothing is known of that session: open the sessions again.
    pub fn setup<F: Flash>(&mut self, flash: &mut F, req: SetupReq) -> Result<u8, Failed>
        requires fields { FieldsFit req }
        requires range { 4 * (places_in self.old).layout.span ≤ (F.seen flash.old).room }
        ensures bits { IfOk result (λ bits. bits ≡ setup_bits (places_in self.old).layout.limits
            (room_at (places_in self.old).layout) req) }
        ensures serves { PlacesServe
            (table_after_setup (places_in self.old).layout.limits
            (room_at (places_in self.old).layout) req)
            (TableOldNoneOrNew (places_in self.old).layout req.index)
            (places_in self.old) (places_in self.new)
            (F.seen flash.old) (F.seen flash.new) result }
    {
        hand_on!(self, slots => slots.setup(flash, req))
    }

    /// Hears a fragment of a session, or drops it. At Err nothing is known of that session: open the sessions again.
    pub fn fragment<F: Flash>(
        &mut self,
        flash: &mut F,
        index: u8,
        via: Via,
        n: u16,
        part: &[u8],
        mark: u64,
    ) -> Result<Heard, Failed>
        requires index { index < 4 }
        requires range { 4 * (places_in self.old).layout.span ≤ (F.seen flash.old).room }
        ensures answer { (table : SessionTable) → PlacesStand (places_in self.old) table
            → IfOk result
            (λ heard. heard ≡ answer_of (drop_cause (session_at table index) via n part.now)
            (news_in (session_at table index) n part.now mark)) }
        ensures dropped { IfOk result
            (λ heard. (c : _) → heard ≡ Heard.Dropped c
            → (self.new ≡ self.old) × (flash.new ≡ flash.old)) }
        ensures serves { PlacesServe (table_after_fragment index via n part.now mark)
            (TableOldOrNew (places_in self.old).layout) (places_in self.old) (places_in self.new)
            (F.seen flash.old) (F.seen flash.new) result }
    {
        hand_on!(self, slots => slots.fragment(flash, index, via, n, part, mark))
    }

    /// Ends a session; false exactly where there is none. At Err nothing is known of it: open the sessions again.
    pub fn delete<F: Flash>(&mut self, flash: &mut F, index: u8) -> Result<bool, Failed>
        requires index { index < 4 }
        requires range { 4 * (places_in self.old).layout.span ≤ (F.seen flash.old).room }
        ensures answer { (table : SessionTable) → PlacesStand (places_in self.old) table
            → IfOk result (λ lived. lived ≡ is_some (session_at table index)) }
        ensures serves { PlacesServe (λ table. with_session table index None)
            (TableOldOrNew (places_in self.old).layout) (places_in self.old) (places_in self.new)
            (F.seen flash.old) (F.seen flash.new) result }
    {
        hand_on!(self, slots => slots.delete(flash, index))
    }

    /// Answers a status request to a session; None where it has no answer.
    pub fn status(&self, index: u8, via: Via, all: bool) -> Option<StatusAns>
        requires { index < 4 }
        ensures value { (table : SessionTable) → PlacesStand (places_in self.now) table
            → result ≡ status_of (session_at table index) via all }
        ensures few { IfSome result (λ a. a.received ≤ 16383) }
    {
        hand_on!(self, slots => slots.status(index, via, all))
    }

    /// Returns what a session shows; None exactly where there is none.
    pub fn view(&self, index: u8) -> Option<View<'_>>
        requires { index < 4 }
        ensures value { (table : SessionTable) → PlacesStand (places_in self.now) table
            → option_map seen result ≡ view_of (session_at table index) }
        ensures within { IfSome result
            (λ v. length v.file.now ≤ (places_in self.now).layout.area) }
    {
        hand_on!(self, slots => slots.view(index))
    }

    /// Says which sessions have their file whole. The size is looked at once for the four.
    pub fn flags(&self) -> CompleteFlags
        ensures { (table : SessionTable) → PlacesStand (places_in self.now) table
            → result ≡ flags_of table }
    {
        hand_on!(self, slots => slots.flags())
    }

    /// Both what a stop between two calls leaves and what a read gives open for the sessions that are held.
    pub fn lie<F: Flash>(&self, flash: &F)
        ensures left { (table : SessionTable)
            → AreHeld (places_in self.now) table (F.seen flash.now)
            → (c : List ℕ) → left (F.seen flash.now) c
            → TableLies (places_in self.now).layout table c }
        ensures read { (table : SessionTable)
            → AreHeld (places_in self.now) table (F.seen flash.now)
            → (b : List ℕ) → (F.seen flash.now).holds b
            → TableLies (places_in self.now).layout table b }
    {
        hand_on!(self, slots => slots.lie(flash))
    }

    /// Returns the memory, for another opening. No flash is called.
    pub fn close(self) -> IdleSessions
        ensures size { idle_size result ≡ (places_in self).layout.size }
        ensures idle { IdleFor (places_in self).layout.area result }
    {
        match self {
            FlashSessions::Small(slots) => IdleSessions::Small(slots.close()),
            FlashSessions::Middle(slots) => IdleSessions::Middle(slots.close()),
            FlashSessions::Rows16(slots) => IdleSessions::Rows16(slots.close()),
            FlashSessions::Rows64(slots) => IdleSessions::Rows64(slots.close()),
            FlashSessions::Large(slots) => IdleSessions::Large(slots.close()),
        }
    }
}
