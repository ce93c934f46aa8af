//! A session whose file is whole.

ghost use Rattle.std.specs.Prelude.{◌≡◌, ◌*◌, ◌<◌, ◌≤◌, length};
ghost use Rattle.frag_session.specs.Held.{one_more};
ghost use Rattle.frag_session.specs.HeldView.{done_seen, Shows};
ghost use Rattle.frag_session.specs.Limits.{max_received};

use crate::answers::{Verdict, View};
use crate::idle_state::Idle;
use crate::receiving_state::one_more;
use crate::setups::SetupReq;
use row_elimination::{Solver, Stage};
use std::marker::Model;

/// A session whose fragments fit only one file.
#[derive(Drop)]
pub struct Complete<const W: usize, const B: usize> {
    solver: Solver<W, B>,
    setup: SetupReq,
    received: u16,
    mark: u64,
}

impl<const W: usize, const B: usize> Model for Complete<W, B> {
    ghost use Rattle.frag_session.specs.Held.{Done};
    ghost use Rattle.frag_session.specs.Inside.{IsComplete};

    ghost Value = { Done };

    ghost view = { λ c. record { setup = c.setup; received = c.received; mark = c.mark; solver = c.solver } };

    ghost invariant = { λ c. IsComplete c.solver c.setup c.received };
}

impl<const W: usize, const B: usize> Complete<W, B> {
    /// Makes a session that was decided at the mark.
    pub(crate) fn decided(
        solver: Solver<W, B>,
        setup: SetupReq,
        received: u16,
        mark: u64,
    ) -> Complete<W, B>
        requires some { 1 ≤ setup.nb_frag }
        requires nb_frag { solver.shape.nb_frag ≡ setup.nb_frag }
        requires frag_size { solver.shape.frag_size ≡ setup.frag_size }
        requires short { setup.padding < setup.frag_size }
        requires counted { received ≤ max_received }
        requires stage { solver.stage ≡ Stage.Complete }
        requires sized { length solver.content ≡ setup.nb_frag * setup.frag_size }
        ensures { result
            ≡ record { setup = setup; received = received; mark = mark; solver = solver.entry } }
    {
        Complete {
            solver,
            setup,
            received,
            mark,
        }
    }

    /// Ends the session.
    pub fn delete(self) -> Idle<W, B>
        ensures { result ≡ self.entry.solver.extent }
    {
        let Complete { solver, .. } = self;
        Idle { solver }
    }

    pub(crate) fn setup(&self) -> SetupReq
        ensures { result ≡ self.now.setup }
    {
        self.setup
    }

    /// The solver that is kept.
    pub(crate) fn solver(&self) -> &Solver<W, B>
        ensures { result.now ≡ self.now.solver }
    {
        &self.solver
    }

    /// Counts one fragment more.
    pub(crate) fn count(&mut self)
        ensures { self.new ≡ record self.old { received = one_more self.old.received } }
    {
        self.received = one_more(self.received);
    }

    #[tactic(auto, unfolding(crate::specs::HeldView::seen, crate::specs::HeldView::done_seen))]
    pub(crate) fn view(&self) -> View<'_>
        ensures { Shows (done_seen self.now) self.now.solver.extent.area result }
    {
        let block = self.solver.block();
        View {
            received: self.received,
            missing: 0,
            verdict: Verdict::Complete(self.mark),
            file: block.split_at(block.len() - self.setup.padding as usize).0,
        }
    }
}
