//! A campaign hears its script line by line.

ghost use Rattle.std.specs.Prelude.{List, ℕ, IsTrue};
ghost use Rattle.campaign_world.specs.HeardWorld.{HearsScriptLine};

use crate::world::World;
use script_lines::HearsLine;

impl HearsLine for World {
    ghost use Rattle.campaign_world.specs.HeardWorld.{HearsScriptLine};

    ghost hears = { HearsScriptLine };

    fn line(&mut self, line: &[u8]) {
        hear(self, line);
    }

    fn is_over(&self) -> bool {
        is_over(self)
    }
}

/// Takes a line, and keeps its fault: after a refused line no line does more.
fn hear(world: &mut World, line: &[u8])
    ensures { HearsScriptLine world.old line.now world.new }
{
    // the world keeps the fault
    let _kept = world.line(line);
}

/// Whether no line does more.
fn is_over(world: &World) -> bool
    ensures { IsTrue result → (line : List ℕ) → HearsScriptLine world.now line world.now }
{
    world.is_over()
}
