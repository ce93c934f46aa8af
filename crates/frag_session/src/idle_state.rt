//! A slot's memory while no session lives.

ghost use Rattle.std.specs.Prelude.{◌≡◌, ◌<◌, MatchResult, IfOk};
ghost use Rattle.row_elimination.specs.HeldSolver.{TwoFit};
ghost use Rattle.frag_session.specs.Setup.{memory_room, setup_bits};
ghost use Rattle.frag_session.specs.Session.{new_session};
ghost use Rattle.frag_session.specs.HeldHistory.{Holds};

use crate::receiving_state::Receiving;
use crate::setups::{Limits, SetupReq, refusal, rows_of};
use row_elimination::{NoRoom, Solver};
use std::marker::Model;

/// No session: the solver for one. A contract sees what it has memory for.
#[derive(Drop)]
pub struct Idle<const W: usize, const B: usize> {
    pub(crate) solver: Solver<W, B>,
}

impl<const W: usize, const B: usize> Model for Idle<W, B> {
    ghost use Rattle.row_elimination.specs.Room.{Extent};

    ghost Value = { Extent };

    ghost view = { λ i. i.solver.extent };
}

impl<const W: usize, const B: usize> Idle<W, B> {
    /// Makes a place for sessions in the memory of a solver.
    pub fn new(solver: Solver<W, B>) -> Idle<W, B>
        ensures { result ≡ solver.entry.extent }
    {
        Idle { solver }
    }

    /// Begins a session with nothing heard, or returns the memory with all refusal bits (see `Slot::setup`).
    pub fn setup(self, req: SetupReq, limits: Limits) -> Result<Receiving<W, B>, (Idle<W, B>, u8)>
        ensures bits { MatchResult result
            (λ session. setup_bits limits (memory_room W B self.entry) req ≡ 0)
            (λ refused. (refused.1 ≡ setup_bits limits (memory_room W B self.entry) req)
            × (0 < refused.1)) }
        ensures extent { MatchResult result (λ session. session.solver.extent ≡ self.entry)
            (λ refused. refused.0 ≡ self.entry) }
        ensures stands { IfOk result (λ session. Holds session (new_session limits req)) }
        ensures two { IfOk result (λ session. TwoFit session.solver) }
    {
        let bits = refusal(&self.solver, req, limits, None);
        if bits != 0 {
            return Err((self, bits));
        }
        let Idle { mut solver } = self;
        match solver.begin(
            req.nb_frag,
            req.frag_size,
            req.padding,
            rows_of(limits.rows, req),
        ) {
            Ok(()) => Ok(Receiving::begin(solver, req)),
            Err(NoRoom) => Err((Idle { solver }, 2)),
        }
    }

    /// The solver that is kept.
    pub(crate) fn solver(&self) -> &Solver<W, B>
        ensures { result.now.extent ≡ self.now }
    {
        &self.solver
    }
}
