//! A session that ended without a file: its fragments contradict one another, or it had too few rows.

ghost use Rattle.std.specs.Prelude.{◌≡◌, ◌≤◌};
ghost use Rattle.row_elimination.specs.HeldSolver.{missing_of};
ghost use Rattle.frag_session.specs.Held.{after_one};
ghost use Rattle.frag_session.specs.HeldView.{failed_seen, Shows};
ghost use Rattle.frag_session.specs.Limits.{max_received};
ghost use Rattle.frag_session.specs.declared.answers.Verdict.TheVariants as shown;

use crate::answers::{Verdict, View};
use crate::idle_state::Idle;
use crate::receiving_state::one_more;
use crate::setups::SetupReq;
use row_elimination::Solver;
use std::marker::Model;

/// A session whose fragments fit no file.
#[derive(Drop)]
pub struct Conflicted<const W: usize, const B: usize> {
    pub(crate) failed: FailedState<W, B>,
}

impl<const W: usize, const B: usize> Model for Conflicted<W, B> {
    ghost use Rattle.frag_session.specs.Held.{Failed};

    ghost Value = { Failed };

    ghost view = { λ c. c.failed };
}

/// A session that heard one independent coded fragment more than it has rows.
#[derive(Drop)]
pub struct Overflowed<const W: usize, const B: usize> {
    pub(crate) failed: FailedState<W, B>,
}

impl<const W: usize, const B: usize> Model for Overflowed<W, B> {
    ghost use Rattle.frag_session.specs.Held.{Failed};

    ghost Value = { Failed };

    ghost view = { λ o. o.failed };
}

/// What either keeps.
#[derive(Drop)]
pub struct FailedState<const W: usize, const B: usize> {
    solver: Solver<W, B>,
    setup: SetupReq,
    received: u16,
    missing: u16,
    mark: u64,
}

impl<const W: usize, const B: usize> Model for FailedState<W, B> {
    ghost use Rattle.std.specs.Prelude.{◌≤◌};
    ghost use Rattle.frag_session.specs.Limits.{max_received};
    ghost use Rattle.frag_session.specs.Held.{Failed};

    ghost Value = { Failed };

    ghost view = { λ f. record { setup = f.setup; received = f.received; missing = f.missing; mark = f.mark; solver = f.solver } };

    ghost invariant = { λ f. f.received ≤ max_received };
}

impl<const W: usize, const B: usize> Conflicted<W, B> {
    /// Ends the session.
    pub fn delete(self) -> Idle<W, B>
        ensures { result ≡ self.entry.solver.extent }
    {
        let Conflicted { failed } = self;
        failed.delete()
    }

    /// Counts one fragment more.
    pub(crate) fn count(&mut self)
        ensures { self.new ≡ after_one self.old }
    {
        self.failed.count();
    }

    pub(crate) fn view(&self) -> View<'_>
        ensures { Shows (failed_seen (shown.Conflict self.now.mark) self.now)
            self.now.solver.extent.area result }
    {
        self.failed.view(Verdict::Conflict(self.failed.mark))
    }
}

impl<const W: usize, const B: usize> Overflowed<W, B> {
    /// Ends the session.
    pub fn delete(self) -> Idle<W, B>
        ensures { result ≡ self.entry.solver.extent }
    {
        let Overflowed { failed } = self;
        failed.delete()
    }

    /// Counts one fragment more.
    pub(crate) fn count(&mut self)
        ensures { self.new ≡ after_one self.old }
    {
        self.failed.count();
    }

    pub(crate) fn view(&self) -> View<'_>
        ensures { Shows (failed_seen (shown.NoRows self.now.mark) self.now)
            self.now.solver.extent.area result }
    {
        self.failed.view(Verdict::NoRows(self.failed.mark))
    }
}

impl<const W: usize, const B: usize> FailedState<W, B> {
    /// Makes a session that was decided at the mark; it misses as many pieces as its solver.
    pub fn decided(
        solver: Solver<W, B>,
        setup: SetupReq,
        received: u16,
        mark: u64,
    ) -> FailedState<W, B>
        requires { received ≤ max_received }
        ensures { result ≡ record {
          setup = setup;
          received = received;
          missing = missing_of solver.entry;
          mark = mark;
          solver = solver.entry;
        } }
    {
        let missing = solver.missing();
        FailedState {
            solver,
            setup,
            received,
            missing,
            mark,
        }
    }

    /// Ends the session.
    fn delete(self) -> Idle<W, B>
        ensures { result ≡ self.entry.solver.extent }
    {
        let FailedState { solver, .. } = self;
        Idle { solver }
    }

    pub fn setup(&self) -> SetupReq
        ensures { result ≡ self.now.setup }
    {
        self.setup
    }

    /// Returns the solver that is kept.
    pub fn solver(&self) -> &Solver<W, B>
        ensures { result.now ≡ self.now.solver }
    {
        &self.solver
    }

    /// Counts one fragment more.
    pub fn count(&mut self)
        ensures { self.new ≡ after_one self.old }
    {
        self.received = one_more(self.received);
    }

    /// What it shows, with its verdict.
    #[tactic(auto, unfolding(crate::specs::HeldView::seen, crate::specs::HeldView::failed_seen))]
    fn view(&self, verdict: Verdict) -> View<'_>
        ensures { Shows (failed_seen verdict self.now) self.now.solver.extent.area result }
    {
        View {
            received: self.received,
            missing: self.missing,
            verdict,
            file: &[],
        }
    }
}
