//! A place for one session, in each of its states.

ghost use Rattle.std.specs.Prelude.{◌≡◌, ◌<◌, ◌≢◌, ◌≤◌, Option, None, Some, IfSome, is_some, length, option_map};
ghost use Rattle.frag_session.specs.Setup.{memory_room, setup_bits, lives};
ghost use Rattle.frag_session.specs.Session.{Session, new_session, followed, drop_cause, answer_of, news_in, after_setup, after_fragment, view_of, status_of};
ghost use Rattle.frag_session.specs.Held.{idle};
ghost use Rattle.frag_session.specs.HeldSteps.{extent_of, session_setup, kept, become, CanHear, slot_seen, told_of, news_between};
ghost use Rattle.frag_session.specs.HeldView.{seen};
ghost use Rattle.frag_session.specs.HeldHistory.{Stands};
ghost use Rattle.frag_session.specs.Limits.{max_received};

use crate::answers::{Heard, News, StatusAns, Via, View};
use crate::complete_state::Complete;
use crate::dropping::dropped;
use crate::failed_state::{Conflicted, Overflowed};
use crate::idle_state::Idle;
use crate::receiving_state::{Next, Receiving};
use crate::setups::{Limits, SetupReq, lives, refusal};
use crate::statuses::status_in;
use std::marker::Model;

/// What a slot holds.
#[derive(Drop)]
pub enum State<const W: usize, const B: usize> {
    Idle(Idle<W, B>),
    Receiving(Receiving<W, B>),
    Complete(Complete<W, B>),
    Overflowed(Overflowed<W, B>),
    Conflicted(Conflicted<W, B>),
}

/// A place for one session (TS004-1.0.0). It stands for the session's setup and all fragments that it heard. `W` and `B` are
/// those of its `Solver`.
pub struct Slot<const W: usize, const B: usize> {
    state: Option<State<W, B>>,
}

impl<const W: usize, const B: usize> Model for Slot<W, B> {
    ghost use Rattle.std.specs.Prelude.{◌≡◌, true, is_some};
    ghost use Rattle.frag_session.specs.Held.{HeldSlot};
    ghost use Rattle.frag_session.specs.HeldSteps.{kept_by};

    ghost Value = { HeldSlot };

    ghost view = { λ s. kept_by s.state };

    ghost invariant = { λ s. is_some s.state ≡ true };
}

impl<const W: usize, const B: usize> Drop for Slot<W, B> {
    /// Gives the memory of its solver back, in every state.
    fn drop(self) {
        let Slot { state } = self;
        drop(state);
    }
}

impl<const W: usize, const B: usize> Slot<W, B> {
    /// Makes a slot without a session.
    #[tactic(auto, unfolding(crate::specs::HeldHistory::Stands, crate::specs::HeldSteps::extent_of))]
    pub fn new(idle: Idle<W, B>) -> Slot<W, B>
        ensures stands { Stands result None }
        ensures extent { extent_of result ≡ idle.entry }
    {
        Slot {
            state: Some(State::Idle(idle)),
        }
    }

    /// Takes a FragSessionSetupReq (TS004-1.0.0) and returns all refusal bits: 1 for a coding that is not the standard's or
    /// numbers that make no file, 2 for more than there is room for, 4 for an index that is not there, 8 for another descriptor.
    /// Where there is none, a session that was made from an equal request stays, and any other is replaced by a new one. It takes
    /// no memory.
    pub fn setup(&mut self, req: SetupReq, limits: Limits) -> u8
        ensures bits { result ≡ setup_bits limits (memory_room W B (extent_of self.old)) req }
        ensures stands { (s : Option Session) → Stands self.old s
            → Stands self.new (after_setup limits (memory_room W B (extent_of self.old)) s req) }
        ensures refused { result ≢ 0 → self.new ≡ self.old }
        ensures extent { extent_of self.new ≡ extent_of self.old }
    {
        let bits = self.refusal(req, limits, None);
        if bits == 0 && !lives(self.session(), req) {
            self.renew(req, limits);
        }
        bits
    }

    /// Hears the data of fragment `n` (TS004-1.0.0, DataFragment), or drops it for the first cause that holds: there is no
    /// session, it came by a group that is not in the mask, `n` is 0 or more than 8,380 above NbFrag, or `part` doesn't have
    /// FragSize bytes. A verdict is shown with the mark of the fragment that brought it, and stays. It takes no memory.
    pub fn fragment(&mut self, via: Via, n: u16, part: &[u8], mark: u64) -> Heard
        ensures answer { (s : Option Session) → Stands self.old s
            → result ≡ answer_of (drop_cause s via n part.now) (news_in s n part.now mark) }
        ensures stands { (s : Option Session) → Stands self.old s
            → Stands self.new (after_fragment s via n part.now mark) }
        ensures dropped { (c : _) → result ≡ Heard.Dropped c → self.new ≡ self.old }
        ensures extent { extent_of self.new ≡ extent_of self.old }
    {
        match dropped(self.session(), via, n, part) {
            Some(cause) => Heard::Dropped(cause),
            None => {
                let before = self.told();
                self.hear(n, part, mark);
                Heard::Fed(news_between(before, self.told()))
            }
        }
    }

    /// Returns all refusal bits of a setup, with so many bytes of flash where its session is kept there.
    #[tactic(auto, unfolding(crate::specs::HeldSteps::extent_of))]
    pub fn refusal(&self, req: SetupReq, limits: Limits, span: Option<u32>) -> u8
        ensures { result ≡ setup_bits limits
            (record { words = W; bytes = B; extent = extent_of self.now; span = span }) req }
    {
        match &self.state {
            Some(State::Idle(idle)) => refusal(idle.solver(), req, limits, span),
            Some(State::Receiving(receiving)) => refusal(receiving.solver(), req, limits, span),
            Some(State::Complete(complete)) => refusal(complete.solver(), req, limits, span),
            Some(State::Overflowed(overflowed)) => refusal(
                overflowed.failed.solver(),
                req,
                limits,
                span,
            ),
            Some(State::Conflicted(conflicted)) => refusal(
                conflicted.failed.solver(),
                req,
                limits,
                span,
            ),
            None => 0,
        }
    }

    /// Says whether there is a session.
    pub fn has_session(&self) -> bool
        ensures { (s : Option Session) → Stands self.now s → result ≡ is_some s }
    {
        self.session().is_some()
    }

    /// Says whether the session stays at this request, since it was made from an equal one.
    pub fn keeps(&self, req: SetupReq) -> bool
        ensures { (s : Option Session) → Stands self.now s
            → result ≡ lives (option_map (λ (x : Session). x.setup) s) req }
    {
        lives(self.session(), req)
    }

    /// Returns what the session shows; None where there is none.
    pub fn view(&self) -> Option<View<'_>>
        ensures value { (s : Option Session) → Stands self.now s
            → option_map seen result ≡ view_of s }
        ensures within { IfSome result (λ v. length v.file.now ≤ (extent_of self.now).area) }
        ensures few { IfSome result (λ v. v.received ≤ max_received) }
    {
        self.shown()
    }

    /// Answers a FragSessionStatusReq (TS004-1.0.0, 3.2; `all` is its Participants bit); None where there is no session, the
    /// request came by a group that is not in the session's mask, or it doesn't ask `all` and no piece is missing.
    pub fn status(&self, via: Via, all: bool) -> Option<StatusAns>
        ensures answer { (s : Option Session) → Stands self.now s → result ≡ status_of s via all }
        ensures few { IfSome result (λ a. a.received ≤ max_received) }
    {
        match self.shown() {
            None => None,
            Some(view) => match self.session() {
                None => None,
                Some(setup) => status_in(setup, &view, via, all),
            },
        }
    }

    /// Ends the session, as FragSessionDeleteReq asks (TS004-1.0.0); false exactly where there is none.
    pub fn delete(&mut self) -> bool
        ensures answer { (s : Option Session) → Stands self.old s → result ≡ is_some s }
        ensures stands { Stands self.new None }
        ensures extent { extent_of self.new ≡ extent_of self.old }
    {
        let lived = self.session().is_some();
        self.clear();
        lived
    }

    /// Ends the session, and gives the memory back.
    pub fn end(self) -> Idle<W, B>
        ensures { result ≡ extent_of self.entry }
    {
        let Slot { state } = self;
        cleared(state.unwrap())
    }

    /// Ends the session, where there is one.
    fn clear(&mut self)
        ensures { self.new ≡ idle (extent_of self.old) }
    {
        if let Some(state) = self.state.take() {
            put(&mut self.state, ended(state));
        }
    }

    /// Replaces whatever session there was by a new one. The request must have no refusal bit.
    pub fn renew(&mut self, req: SetupReq, limits: Limits)
        requires { setup_bits limits (memory_room W B (extent_of self.old)) req ≡ 0 }
        ensures stands { Stands self.new (Some (new_session limits req)) }
        ensures extent { extent_of self.new ≡ extent_of self.old }
    {
        if let Some(state) = self.state.take() {
            put(&mut self.state, renewed(state, req, limits));
        }
    }

    /// Hears a fragment that is not dropped.
    fn hear(&mut self, n: u16, part: &[u8], mark: u64)
        requires { CanHear self.old n part.now }
        ensures stands { (s : Session) → Stands self.old (Some s)
            → Stands self.new (Some (followed s n part.now mark)) }
        ensures extent { extent_of self.new ≡ extent_of self.old }
    {
        if let Some(state) = self.state.take() {
            put(&mut self.state, fed(state, n, part, mark));
        }
    }

    /// What is known while nothing is decided.
    #[tactic(auto, unfolding(crate::specs::HeldSteps::told_of))]
    fn told(&self) -> Option<(u16, u16)>
        ensures { result ≡ told_of self.now }
    {
        match &self.state {
            Some(State::Receiving(receiving)) => Some(receiving.told()),
            _ => None,
        }
    }

    /// What the state shows.
    #[tactic(auto, unfolding(crate::specs::HeldSteps::slot_seen, crate::specs::HeldSteps::extent_of))]
    fn shown(&self) -> Option<View<'_>>
        ensures value { option_map seen result ≡ slot_seen self.now }
        ensures within { IfSome result (λ v. length v.file.now ≤ (extent_of self.now).area) }
        ensures few { IfSome result (λ v. v.received ≤ max_received) }
    {
        match &self.state {
            Some(State::Receiving(receiving)) => Some(receiving.view()),
            Some(State::Complete(complete)) => Some(complete.view()),
            Some(State::Overflowed(overflowed)) => Some(overflowed.view()),
            Some(State::Conflicted(conflicted)) => Some(conflicted.view()),
            _ => None,
        }
    }

    /// The request from which the session was made.
    #[tactic(auto, unfolding(crate::specs::HeldSteps::session_setup))]
    fn session(&self) -> Option<SetupReq>
        ensures { result ≡ session_setup self.now }
    {
        match &self.state {
            Some(State::Receiving(receiving)) => Some(receiving.setup()),
            Some(State::Complete(complete)) => Some(complete.setup()),
            Some(State::Overflowed(overflowed)) => Some(overflowed.failed.setup()),
            Some(State::Conflicted(conflicted)) => Some(conflicted.failed.setup()),
            _ => None,
        }
    }
}

/// Puts a state into the place that was left empty for it.
fn put<const W: usize, const B: usize>(place: &mut Option<State<W, B>>, state: State<W, B>)
    ensures { place.new ≡ Some state.entry }
{
    *place = Some(state);
}

/// Whether a fragment changed what is known.
#[tactic(auto, unfolding(crate::specs::HeldSteps::news_between))]
fn news_between(before: Option<(u16, u16)>, after: Option<(u16, u16)>) -> News
    ensures { result ≡ news_between before after }
{
    match (before, after) {
        (None, _) => News::Old,
        (Some(_), None) => News::New,
        (Some(before), Some(after)) => {
            if before.0 == after.0 && before.1 == after.1 {
                News::Old
            } else {
                News::New
            }
        }
    }
}

/// The memory of whatever state it was.
#[tactic(auto, unfolding(crate::specs::HeldSteps::extent_of))]
fn cleared<const W: usize, const B: usize>(state: State<W, B>) -> Idle<W, B>
    ensures { result ≡ extent_of (kept state.entry) }
{
    match state {
        State::Idle(idle) => idle,
        State::Receiving(receiving) => receiving.delete(),
        State::Complete(complete) => complete.delete(),
        State::Overflowed(overflowed) => overflowed.delete(),
        State::Conflicted(conflicted) => conflicted.delete(),
    }
}

/// The state without a session.
#[tactic(auto, unfolding(crate::specs::HeldSteps::extent_of))]
fn ended<const W: usize, const B: usize>(state: State<W, B>) -> State<W, B>
    ensures { kept result ≡ idle (extent_of (kept state.entry)) }
{
    State::Idle(cleared(state))
}

/// The state with a new session instead of whatever there was.
fn renewed<const W: usize, const B: usize>(
    state: State<W, B>,
    req: SetupReq,
    limits: Limits,
) -> State<W, B>
    requires { setup_bits limits (memory_room W B (extent_of (kept state))) req ≡ 0 }
    ensures stands { Stands (kept result) (Some (new_session limits req)) }
    ensures extent { extent_of (kept result) ≡ extent_of (kept state.entry) }
{
    match cleared(state).setup(req, limits) {
        Ok(receiving) => State::Receiving(receiving),
        Err((idle, _)) => State::Idle(idle),
    }
}

/// The state after a fragment that is heard.
fn fed<const W: usize, const B: usize>(
    state: State<W, B>,
    n: u16,
    part: &[u8],
    mark: u64,
) -> State<W, B>
    requires { CanHear (kept state) n part.now }
    ensures stands { (s : Session) → Stands (kept state.entry) (Some s)
        → Stands (kept result) (Some (followed s n part.now mark)) }
    ensures extent { extent_of (kept result) ≡ extent_of (kept state.entry) }
{
    match state {
        State::Idle(idle) => State::Idle(idle),
        State::Receiving(receiving) => state_of(receiving.feed(n, part, mark)),
        State::Complete(mut complete) => {
            complete.count();
            State::Complete(complete)
        }
        State::Overflowed(mut overflowed) => {
            overflowed.count();
            State::Overflowed(overflowed)
        }
        State::Conflicted(mut conflicted) => {
            conflicted.count();
            State::Conflicted(conflicted)
        }
    }
}

/// The state that a session has become.
fn state_of<const W: usize, const B: usize>(next: Next<W, B>) -> State<W, B>
    ensures { kept result ≡ become next.entry }
{
    match next {
        Next::Receiving(receiving) => State::Receiving(receiving),
        Next::Complete(complete) => State::Complete(complete),
        Next::Overflowed(overflowed) => State::Overflowed(overflowed),
        Next::Conflicted(conflicted) => State::Conflicted(conflicted),
    }
}
