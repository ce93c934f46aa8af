//! Where the text goes: pieces are written one after another, and `finish` flushes them.

ghost use Rattle.std.specs.Prelude.{◌≡◌, Bool, false, List, ℕ, Option, length, is_ok};
ghost use Rattle.std.specs.Io.KnownBytes.{Keeps, WriteAppends};
ghost use Rattle.fuota_run.specs.Outside.{HasCause, TakesSome};

use crate::files::Failed;

/// A sink of bytes.
pub trait Sink {
    /// All bytes that were written, where the sink tells it.
    ghost written: { Self → Option (List ℕ) };

    /// Whether the last call was a `finish` that was Ok.
    ghost finished: { Self → Bool };

    /// How many calls have failed.
    ghost faults: { Self → ℕ };

    /// Writes a front of the piece, and returns how long it is: at least one byte of a piece that is not empty.
    fn write(&mut self, piece: &[u8]) -> Result<usize, Failed>
        ensures takes { TakesSome result (length piece.now) }
        ensures bytes { WriteAppends (written self.old) (written self.new) result piece.now }
        ensures unfinished { finished self.new ≡ false }
        ensures cause { HasCause (faults self.old) (faults self.new) result };

    /// Flushes what was written, and writes nothing itself.
    fn finish(&mut self) -> Result<(), Failed>
        ensures bytes { Keeps (written self.old) (written self.new) }
        ensures finished { finished self.new ≡ is_ok result }
        ensures cause { HasCause (faults self.old) (faults self.new) result };
}
