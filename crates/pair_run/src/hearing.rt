//! Two campaigns hear their script line by line.

ghost use Rattle.std.specs.Prelude.{List, ℕ, IsTrue};
ghost use Rattle.pair_run.specs.HeardPair.{HearsPairLine};

use crate::pair::Pair;
use script_lines::HearsLine;

impl HearsLine for Pair {
    ghost use Rattle.pair_run.specs.HeardPair.{HearsPairLine};

    ghost hears = { HearsPairLine };

    fn line(&mut self, line: &[u8]) {
        hear(self, line);
    }

    fn is_over(&self) -> bool {
        is_over(self)
    }
}

/// Takes a line, and keeps its fault: after a refused line no line does more.
fn hear(pair: &mut Pair, line: &[u8])
    ensures { HearsPairLine pair.old line.now pair.new }
{
    // (the pair keeps the fault of a line)
    let _kept = pair.line(line);
}

/// Whether no line does more.
fn is_over(pair: &Pair) -> bool
    ensures { IsTrue result → (line : List ℕ) → HearsPairLine pair.now line pair.now }
{
    pair.is_over()
}
