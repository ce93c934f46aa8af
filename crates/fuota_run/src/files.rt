//! Files: a name is chosen, and its bytes are read piece by piece.

ghost use Rattle.std.specs.Prelude.{◌≡◌, ◌≤◌, Bool, true, List, ℕ, Option, length, is_ok, OnOk};
ghost use Rattle.std.specs.Io.KnownBytes.{ReadConsumes};
ghost use Rattle.fuota_run.specs.Outside.{Held, HoldsName, IsWhole, HasCause, AtMost};

use thiserror::Error;

/// A call to the outside failed: a file could not be chosen or read, or a sink could not be written.
#[derive(Clone, Copy, Debug, PartialEq, Eq, Error)]
#[error("a call of the outside failed")]
pub struct Failed;

/// Files by name. One file is chosen at a time, and read from its start to its end.
pub trait Files {
    /// What each name holds, where the files tell it.
    ghost held: { Self → Option Held };

    /// The bytes of the chosen file that are not yet read, where the files tell them.
    ghost left: { Self → Option (List ℕ) };

    /// Whether the last `choose` was Ok.
    ghost chosen: { Self → Bool };

    /// How many calls have failed.
    ghost faults: { Self → ℕ };

    /// Chooses the file that is read from now on, at its start.
    fn choose(&mut self, name: &str) -> Result<(), Failed>
        requires { HoldsName (held self.old) name.now }
        ensures whole { OnOk result (IsWhole (held self.old) name.now (left self.new)) }
        ensures chosen { chosen self.new ≡ is_ok result }
        ensures held { held self.new ≡ held self.old }
        ensures cause { HasCause (faults self.old) (faults self.new) result };

    /// Reads the next bytes into the buffer, and returns how many. For a buffer that is not empty, 0 comes exactly at the end.
    fn read(&mut self, buf: &mut [u8]) -> Result<usize, Failed>
        requires { chosen self.old ≡ true }
        ensures within { AtMost result (length buf.new) }
        ensures bytes { ReadConsumes (left self.old) (left self.new) result buf.new }
        ensures chosen { chosen self.new ≡ true }
        ensures held { held self.new ≡ held self.old }
        ensures cause { HasCause (faults self.old) (faults self.new) result };
}
