//! A session whose file is not decided.

ghost use Rattle.std.specs.Prelude.{◌≡◌, ◌+◌, ◌<◌, ◌≤◌, Some, length};
ghost use Rattle.row_elimination.specs.HeldSolver.{IsBegun};
ghost use Rattle.frag_session.specs.Held.{one_more, receiving};
ghost use Rattle.frag_session.specs.Session.{Session, followed};
ghost use Rattle.frag_session.specs.HeldHistory.{Holds, IsOpen, Stands};
ghost use Rattle.frag_session.specs.HeldSteps.{extent_of, become, told_of};
ghost use Rattle.frag_session.specs.HeldView.{receiving_seen, Shows};
ghost use Rattle.frag_model.specs.Limits.{max_parity_index};

use crate::answers::{Verdict, View};
use crate::complete_state::Complete;
use crate::failed_state::{Conflicted, FailedState, Overflowed};
use crate::idle_state::Idle;
use crate::setups::SetupReq;
use row_elimination::{Fed, Solver};
use std::marker::Model;

/// The most fragments that are counted: NbFragReceived has 14 bits, and stays at their end (TS004-1.0.0, FragSessionStatusAns).
pub const MAX_RECEIVED: u16 = 16383;

/// A session that hears fragments. A contract sees its setup and what its solver holds.
#[derive(Drop)]
pub struct Receiving<const W: usize, const B: usize> {
    solver: Solver<W, B>,
    setup: SetupReq,
    received: u16,
}

impl<const W: usize, const B: usize> Model for Receiving<W, B> {
    ghost use Rattle.frag_session.specs.Held.{Held};
    ghost use Rattle.frag_session.specs.Inside.{IsReceiving};

    ghost Value = { Held };

    ghost view = { λ r. record { setup = r.setup; received = r.received; solver = r.solver } };

    ghost invariant = { λ r. IsReceiving r.solver r.setup r.received };
}

/// What a session becomes by one more fragment.
#[derive(Drop)]
pub enum Next<const W: usize, const B: usize> {
    Receiving(Receiving<W, B>),
    Complete(Complete<W, B>),
    Overflowed(Overflowed<W, B>),
    Conflicted(Conflicted<W, B>),
}

impl<const W: usize, const B: usize> Receiving<W, B> {
    /// Makes a session that heard nothing, over a solver that has just begun.
    pub(crate) fn begin(solver: Solver<W, B>, setup: SetupReq) -> Receiving<W, B>
        requires begun { IsBegun solver }
        requires nb_frag { solver.shape.nb_frag ≡ setup.nb_frag }
        requires frag_size { solver.shape.frag_size ≡ setup.frag_size }
        requires short { setup.padding < setup.frag_size }
        ensures { result ≡ record { setup = setup; received = 0; solver = solver.entry } }
    {
        Receiving {
            solver,
            setup,
            received: 0,
        }
    }

    /// Hears fragment `n` (1 to NbFrag + 8,380) of FragSize bytes, at the mark: the session then stands for its list and this
    /// fragment after it. A session that is decided by this takes no more fragments.
    pub fn feed(self, n: u16, part: &[u8], mark: u64) -> Next<W, B>
        requires first { 1 ≤ n }
        requires last { n ≤ self.setup.nb_frag + max_parity_index }
        requires sized { length part.now ≡ self.setup.frag_size }
        ensures stands { (s : Session) → Holds self.entry s
            → Stands (become result) (Some (followed s n part.now mark)) }
        ensures two { IsOpen (become result) }
        ensures extent { extent_of (become result) ≡ self.entry.solver.extent }
    {
        let Receiving {
            mut solver,
            setup,
            received,
        } = self;
        let received = one_more(received);
        match solver.feed(n, part) {
            Fed::Receiving => Next::Receiving(Receiving {
                solver,
                setup,
                received,
            }),
            Fed::Complete => Next::Complete(Complete::decided(solver, setup, received, mark)),
            Fed::NoRows => Next::Overflowed(Overflowed {
                failed: FailedState::decided(solver, setup, received, mark),
            }),
            Fed::Conflict => Next::Conflicted(Conflicted {
                failed: FailedState::decided(solver, setup, received, mark),
            }),
        }
    }

    /// Ends the session.
    pub fn delete(self) -> Idle<W, B>
        ensures { result ≡ self.entry.solver.extent }
    {
        let Receiving { solver, .. } = self;
        Idle { solver }
    }

    pub(crate) fn setup(&self) -> SetupReq
        ensures { result ≡ self.now.setup }
    {
        self.setup
    }

    /// What it knows: the pieces that are still to be gained, and how many came uncoded.
    #[tactic(auto, unfolding(crate::specs::HeldSteps::told_of))]
    pub(crate) fn told(&self) -> (u16, u16)
        ensures { Some result ≡ told_of (receiving self.now) }
    {
        (self.solver.missing(), self.solver.pieces())
    }

    /// The solver that is kept.
    pub(crate) fn solver(&self) -> &Solver<W, B>
        ensures { result.now ≡ self.now.solver }
    {
        &self.solver
    }

    #[tactic(auto, unfolding(crate::specs::HeldView::seen, crate::specs::HeldView::receiving_seen))]
    pub(crate) fn view(&self) -> View<'_>
        ensures { Shows (receiving_seen self.now) self.now.solver.extent.area result }
    {
        View {
            received: self.received,
            missing: self.solver.missing(),
            verdict: Verdict::Receiving,
            file: &[],
        }
    }
}

/// Counts one fragment more, up to the count's end.
#[tactic(auto, unfolding(crate::specs::Held::one_more))]
pub fn one_more(received: u16) -> u16
    ensures value { result ≡ one_more received }
    ensures most { result ≤ MAX_RECEIVED }
{
    if received < MAX_RECEIVED {
        received + 1
    } else {
        MAX_RECEIVED
    }
}
