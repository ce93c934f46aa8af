//! A call that counts its work, for callers that count nothing.

ghost use Rattle.std.specs.Prelude.{ℕ, List};
ghost use Rattle.parity_lines.specs.Counts.{IsBlankOf};
ghost use Rattle.row_elimination.specs.declared.stages.Fed.{Fed};

use crate::stages::Fed;
use parity_lines::Steps;
use std::sync::ledger::{Blank, Ledger};

/// What takes fragments and counts its work.
pub trait Counts {
    /// Whether it takes a fragment of this number and part.
    ghost may_take: { Self → ℕ → List ℕ → Type 0 };

    /// What the fragment of this number and part changes, and the answer to it.
    ghost takes: { Self → Self → ℕ → List ℕ → Fed → Type 0 };

    fn take_counted<L: Ledger, M: Ledger>(
        &mut self,
        n: u16,
        part: &[u8],
        draws: &mut Steps<L>,
        sums: &mut Steps<M>,
    ) -> Fed
        requires { may_take self.old n part.now }
        ensures { takes self.old self.new n part.now result };
}

/// Takes fragment `n`, from counts that nobody reads.
pub fn take_uncounted<F: Counts, L: Ledger, M: Ledger>(
    taker: &mut F,
    n: u16,
    part: &[u8],
    no_draws: Blank,
    no_sums: Blank,
) -> Fed
    requires may { F.may_take taker.old n part.now }
    requires draws { IsBlankOf L.name L.parts no_draws.name no_draws.parts }
    requires sums { IsBlankOf M.name M.parts no_sums.name no_sums.parts }
    ensures { F.takes taker.old taker.new n part.now result }
{
    let mut draws = Steps::<L>::new(no_draws);
    let mut sums = Steps::<M>::new(no_sums);
    taker.take_counted(n, part, &mut draws, &mut sums)
}
