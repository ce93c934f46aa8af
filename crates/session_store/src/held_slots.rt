//! The four sessions of a device in one flash (TS004-1.0.0, FragIndex): that of index i in the `span` bytes from i * span on. A
//! call is for one of them, and leaves the three others as they were.

ghost use Rattle.std.specs.Prelude.{◌≡◌, ℕ, ◌*◌, ◌^◌, ◌<◌, ◌≤◌, List, Option, None, IfOk, IfErr, IfSome, MatchResult, is_some, option_map, length};
ghost use Rattle.frag_session.specs.Setup.{setup_bits};
ghost use Rattle.frag_session.specs.Session.{answer_of, drop_cause, news_in, status_of, view_of};
ghost use Rattle.frag_session.specs.HeldView.{seen};
ghost use Rattle.flash_session.specs.Body.{FieldsFit};
ghost use Rattle.flash_session.specs.Layout.{records_place};
ghost use Rattle.flash_session.specs.Seen.{left};
ghost use Rattle.flash_session.specs.Serving.{FlashOpens};
ghost use Rattle.session_store.specs.SessionTable.{SessionTable, session_at, with_session, table_after_setup, table_after_fragment};
ghost use Rattle.frag_model.specs.Limits.{max_pieces};
ghost use Rattle.session_store.specs.Size.{row_words, row_bytes, laid_by, extent_in};
ghost use Rattle.session_store.specs.CompleteFlags.{is_whole, flags_of};
ghost use Rattle.session_store.specs.HeldForeign.{NoneForeign, IsForeignIn};
ghost use Rattle.session_store.specs.HeldPlaces.{AreIdle, IsPlace, PlacesStand, AreHeld, TableLies, base_at, room_at};
ghost use Rattle.session_store.specs.HeldPlaces.{PlacesServe, TableOldOrNew, TableOldNoneOrNew};

use crate::session_slots::idle;
use crate::state::{CompleteFlags, is_complete};
use flash_session::{Failed, Flash, Held, OpenFault};
use frag_session::{Heard, Idle, Limits, SetupReq, StatusAns, Via, View};
use row_elimination::{Memory, Solver};
use std::alloc::Global;
use std::marker::Model;

/// The memory of four sessions, with `W` words and `B` bytes for the rows of each; none of them is there.
#[derive(Drop)]
pub struct Idles<const W: usize, const B: usize> {
    first: Idle<W, B>,
    second: Idle<W, B>,
    third: Idle<W, B>,
    fourth: Idle<W, B>,
}

/// How the sessions of a device are laid out in its flash, and the limits of each.
#[derive(Clone, Copy, Debug)]
pub struct Layout {
    /// The bytes of a session's file area in memory.
    pub area: u32,
    /// The bytes of flash of a session that is held: at least 24,640, and four times it fits the flash.
    pub span: u32,
    /// The limits of each session.
    pub limits: Limits,
}

/// A session of at most `P` pieces, or a place for one, at each index, 0 to 3. Contracts see what each holds in memory, for which
/// sessions it stands, and what is in the flash.
#[derive(Drop)]
pub struct HeldSlots<const P: u16, const W: usize, const B: usize> {
    sessions: [Option<Held<W, B>>; 4],
    layout: Layout,
}

impl<const P: u16, const W: usize, const B: usize> Model for HeldSlots<P, W, B> {
    ghost use Rattle.session_store.specs.HeldPlaces.{HeldPlaces, ArePlaces};
    ghost use Rattle.session_store.specs.Size.{laid_by};

    ghost Value = { HeldPlaces };

    ghost view = { λ s. record { sessions = s.sessions; layout = laid_by P W B s.layout } };

    ghost invariant = { λ s.
        ArePlaces (record { sessions = s.sessions; layout = laid_by P W B s.layout }) };
}

impl<const W: usize, const B: usize> Idles<W, B> {
    /// Takes the memory of four sessions of at most `pieces` pieces, each with a file area of so many bytes; `Memory` where there
    /// is too little.
    pub fn reserve(alloc: Global, area: u32, pieces: u16) -> Result<Self, Memory>
        requires words { W ≤ row_words }
        requires bytes { B ≤ row_bytes }
        requires most { pieces ≤ max_pieces }
        ensures { IfOk result (AreIdle (record { area = area; pieces = pieces })) }
    {
        Ok(Idles {
            first: idle(alloc, area, pieces)?,
            second: idle(alloc, area, pieces)?,
            third: idle(alloc, area, pieces)?,
            fourth: idle(alloc, area, pieces)?,
        })
    }
}

impl<const P: u16, const W: usize, const B: usize> HeldSlots<P, W, B> {
    /// Opens the four ranges from the flash's first byte on: each with the session that is stored there, or with none. `Foreign`
    /// names the lowest foreign place of the first range that has one, counted from the range's first byte.
    pub fn open<F: Flash>(
        flash: &mut F,
        idles: Idles<W, B>,
        layout: Layout,
    ) -> Result<HeldSlots<P, W, B>, (Idles<W, B>, OpenFault)>
        requires idle { AreIdle (extent_in (laid_by P W B layout)) idles }
        requires range { 4 * layout.span ≤ (F.seen flash.old).room }
        requires long { records_place ≤ layout.span }
        // The content that any call leaves for these sessions at any moment opens for them.
        ensures opened { (table : SessionTable) (b : List ℕ) → (F.seen flash.new).holds b
            → TableLies (laid_by P W B layout) table b
            → MatchResult result (λ h. AreHeld h table (F.seen flash.new))
            (λ e. e.1 ≡ OpenFault.Flash) }
        // Foreign comes exactly where the header's gate of a range is open and something there is no session's.
        ensures opens { FlashOpens (λ e. e.1)
            (λ h seen. (b : List ℕ) → seen.holds b → NoneForeign (laid_by P W B layout) b)
            (IsForeignIn (laid_by P W B layout))
            (F.seen flash.old) (F.seen flash.new) result }
        ensures layout { IfOk result (λ h. h.layout ≡ laid_by P W B layout) }
        ensures idle { IfErr result (λ e. AreIdle (extent_in (laid_by P W B layout)) e.0) }
    {
        let Idles {
            first,
            second,
            third,
            fourth,
        } = idles;
        let (span, limits) = (layout.span, layout.limits);
        let first = match Held::open(flash, 0, span, first, limits) {
            Ok(held) => held,
            Err((first, fault)) => {
                return Err((
                    Idles {
                        first,
                        second,
                        third,
                        fourth,
                    },
                    fault,
                ));
            }
        };
        let second = match Held::open(flash, span, span, second, limits) {
            Ok(held) => held,
            Err((second, fault)) => {
                return Err((
                    Idles {
                        first: first.close(),
                        second,
                        third,
                        fourth,
                    },
                    fault,
                ));
            }
        };
        let third = match Held::open(flash, 2 * span, span, third, limits) {
            Ok(held) => held,
            Err((third, fault)) => {
                return Err((
                    Idles {
                        first: first.close(),
                        second: second.close(),
                        third,
                        fourth,
                    },
                    fault,
                ));
            }
        };
        match Held::open(flash, 3 * span, span, fourth, limits) {
            Ok(fourth) => Ok(HeldSlots {
                sessions: [Some(first), Some(second), Some(third), Some(fourth)],
                layout,
            }),
            Err((fourth, fault)) => Err((
                Idles {
                    first: first.close(),
                    second: second.close(),
                    third: third.close(),
                    fourth,
                },
                fault,
            )),
        }
    }

    /// Takes a FragSessionSetupReq (TS004-1.0.0) and returns all refusal bits; without one the session of that index stays or is
    /// replaced. At Err nothing is known of that session: open the sessions again.
    pub fn setup<F: Flash>(&mut self, flash: &mut F, req: SetupReq) -> Result<u8, Failed>
        requires fields { FieldsFit req }
        requires range { 4 * self.old.layout.span ≤ (F.seen flash.old).room }
        ensures bits { IfOk result
            (λ bits. bits ≡ setup_bits self.old.layout.limits (room_at self.old.layout) req) }
        // A stop at any moment leaves the sessions as they were, none at that index, or the new one there.
        ensures serves { PlacesServe
            (table_after_setup self.old.layout.limits (room_at self.old.layout) req)
            (TableOldNoneOrNew self.old.layout req.index) self.old self.new (F.seen flash.old)
            (F.seen flash.new) result }
    {
        let at = usize::from(req.index);
        match self.sessions[at].take().unwrap().setup(flash, req) {
            Ok((held, bits)) => {
                self.sessions[at] = Some(held);
                Ok(bits)
            }
            Err(idle) => {
                self.sessions[at] = Some(unopened::<P, W, B>(self.layout, req.index, idle));
                Err(Failed)
            }
        }
    }

    /// Hears a fragment of a session, or drops it. At Err nothing is known of that session: open the sessions again.
    pub fn fragment<F: Flash>(
        &mut self,
        flash: &mut F,
        index: u8,
        via: Via,
        n: u16,
        part: &[u8],
        mark: u64,
    ) -> Result<Heard, Failed>
        requires index { index < 4 }
        requires range { 4 * self.old.layout.span ≤ (F.seen flash.old).room }
        ensures answer { (table : SessionTable) → PlacesStand self.old table
            → IfOk result
            (λ heard. heard ≡ answer_of (drop_cause (session_at table index) via n part.now)
            (news_in (session_at table index) n part.now mark)) }
        ensures dropped { IfOk result
            (λ heard. (c : _) → heard ≡ Heard.Dropped c
            → (self.new ≡ self.old) × (flash.new ≡ flash.old)) }
        // A stop at any moment leaves the sessions as they were, or that one followed by the fragment.
        ensures serves { PlacesServe (table_after_fragment index via n part.now mark)
            (TableOldOrNew self.old.layout) self.old self.new (F.seen flash.old)
            (F.seen flash.new) result }
    {
        let at = usize::from(index);
        match self.sessions[at]
            .take()
            .unwrap()
            .hear(flash, via, n, part, mark)
        {
            Ok((held, heard)) => {
                self.sessions[at] = Some(held);
                Ok(heard)
            }
            Err(idle) => {
                self.sessions[at] = Some(unopened::<P, W, B>(self.layout, index, idle));
                Err(Failed)
            }
        }
    }

    /// Ends a session; false exactly where there is none. At Err nothing is known of it: open the sessions again.
    pub fn delete<F: Flash>(&mut self, flash: &mut F, index: u8) -> Result<bool, Failed>
        requires index { index < 4 }
        requires range { 4 * self.old.layout.span ≤ (F.seen flash.old).room }
        ensures answer { (table : SessionTable) → PlacesStand self.old table
            → IfOk result (λ lived. lived ≡ is_some (session_at table index)) }
        // A stop at any moment leaves the sessions as they were, or none at that index.
        ensures serves { PlacesServe (λ table. with_session table index None)
            (TableOldOrNew self.old.layout) self.old self.new (F.seen flash.old)
            (F.seen flash.new) result }
    {
        let at = usize::from(index);
        match self.sessions[at].take().unwrap().delete(flash) {
            Ok((held, lived)) => {
                self.sessions[at] = Some(held);
                Ok(lived)
            }
            Err(idle) => {
                self.sessions[at] = Some(unopened::<P, W, B>(self.layout, index, idle));
                Err(Failed)
            }
        }
    }

    /// Answers a status request to a session; None where it has no answer.
    pub fn status(&self, index: u8, via: Via, all: bool) -> Option<StatusAns>
        requires { index < 4 }
        ensures value { (table : SessionTable) → PlacesStand self.now table
            → result ≡ status_of (session_at table index) via all }
        ensures few { IfSome result (λ a. a.received ≤ 16383) }
    {
        match &self.sessions[usize::from(index)] {
            Some(held) => held.status(via, all),
            None => None,
        }
    }

    /// Returns what a session shows; None exactly where there is none.
    pub fn view(&self, index: u8) -> Option<View<'_>>
        requires { index < 4 }
        ensures value { (table : SessionTable) → PlacesStand self.now table
            → option_map seen result ≡ view_of (session_at table index) }
        ensures within { IfSome result (λ v. length v.file.now ≤ self.now.layout.area) }
    {
        match &self.sessions[usize::from(index)] {
            Some(held) => held.view(),
            None => None,
        }
    }

    /// Says which sessions have their file whole.
    pub fn flags(&self) -> CompleteFlags
        ensures { (table : SessionTable) → PlacesStand self.now table → result ≡ flags_of table }
    {
        CompleteFlags {
            first: self.is_whole(0),
            second: self.is_whole(1),
            third: self.is_whole(2),
            fourth: self.is_whole(3),
        }
    }

    #[tactic(auto, unfolding(frag_session::specs::HeldView::seen))]
    fn is_whole(&self, index: u8) -> bool
        requires { index < 4 }
        ensures { (table : SessionTable) → PlacesStand self.now table
            → result ≡ is_whole (view_of (session_at table index)) }
    {
        match self.view(index) {
            Some(view) => is_complete(view.verdict),
            None => false,
        }
    }

    /// Both what a stop between two calls leaves and what a read gives open for the sessions that are held.
    pub fn lie<F: Flash>(&self, flash: &F)
        ensures left { (table : SessionTable) → AreHeld self.now table (F.seen flash.now)
            → (c : List ℕ) → left (F.seen flash.now) c → TableLies self.now.layout table c }
        ensures read { (table : SessionTable) → AreHeld self.now table (F.seen flash.now)
            → (b : List ℕ) → (F.seen flash.now).holds b → TableLies self.now.layout table b }
    {
        // (a law: it reads a field, so that what all fields keep true is known)
        let _layout = &self.layout;
        // (only its clauses speak of it)
        let _flash = flash;
    }

    /// Returns the memory, for another opening. No flash is called.
    pub fn close(self) -> Idles<W, B>
        ensures size { self.entry.layout.size ≡ record { pieces = P; words = W; bytes = B } }
        ensures idle { AreIdle (extent_in self.entry.layout) result }
    {
        let HeldSlots {
            mut sessions,
            layout: _layout,
        } = self;
        Idles {
            first: sessions[0].take().unwrap().close(),
            second: sessions[1].take().unwrap().close(),
            third: sessions[2].take().unwrap().close(),
            fourth: sessions[3].take().unwrap().close(),
        }
    }
}

/// A place for the session of an index; nothing is known of it.
fn unopened<const P: u16, const W: usize, const B: usize>(
    layout: Layout,
    index: u8,
    idle: Idle<W, B>,
) -> Held<W, B>
    requires index { index < 4 }
    requires range { 4 * layout.span < 2 ^ 32 }
    requires long { records_place ≤ layout.span }
    requires idle { idle ≡ extent_in (laid_by P W B layout) }
    ensures { IsPlace result (laid_by P W B layout) (base_at (laid_by P W B layout) index) }
{
    let base = u32::from(index) * layout.span;
    Held::unopened(base, layout.span, idle, layout.limits)
}
