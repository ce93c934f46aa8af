//! What holds of the spellings of all commands, whatever a caller does.

ghost use Rattle.std.specs.Prelude.{◌≡◌, ℕ, ◌+◌, List, [], ◌++◌, length};
ghost use Rattle.wire_base.specs.declared.refusal.Direction.{Direction};
ghost use Rattle.wire_base.specs.Rows.{IsListed};
ghost use Rattle.sync_wire.specs.declared.cmd.Cmd.{Cmd};
ghost use Rattle.sync_wire.specs.Table.{row, Spells, IsValid, canonical};
ghost use Rattle.sync_wire.specs.WorkedSpellings.{WorkedSpellings};

/// A command that is written is read again, whatever stands before it and follows.
pub fn written_is_read()
    ensures { (c : Cmd) (port : ℕ) (dir : Direction) (before after : List ℕ)
        → IsValid c → IsListed (row c) port dir
        → Spells c port dir (before ++ canonical c ++ after)
        (length before) (length before + length (canonical c)) }
{}

/// At most one command is spelled at a place, with one end.
pub fn place_has_one_spelling()
    ensures { (c d : Cmd) (port : ℕ) (dir : Direction) (bytes : List ℕ) (at next end : ℕ)
        → Spells c port dir bytes at next → Spells d port dir bytes at end
        → (c ≡ d) × (next ≡ end) }
{}

/// No command's spelling begins another's: none of these takes the rest of its payload.
pub fn no_spelling_begins_another()
    ensures { (c d : Cmd) (port : ℕ) (dir : Direction) (bytes more : List ℕ)
        → Spells c port dir bytes 0 (length bytes)
        → Spells d port dir (bytes ++ more) 0 (length (bytes ++ more)) → more ≡ [] }
{}

/// Where each command is sent, and the bytes that are written for it, worked out.
pub fn worked_spellings()
    ensures { WorkedSpellings }
{}
