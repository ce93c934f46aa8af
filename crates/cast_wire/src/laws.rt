//! What holds of the spellings of all commands, whatever a caller does.

ghost use Rattle.std.specs.Prelude.{◌≡◌, ℕ, ◌+◌, ◌<◌, Bool, List, [], ◌++◌, length, IsTrue, false};
ghost use Rattle.wire_base.specs.declared.refusal.Direction.{Direction};
ghost use Rattle.wire_base.specs.Rows.{IsListed, takes_rest};
ghost use Rattle.cast_wire.specs.declared.cmd.Cmd.{Cmd};
ghost use Rattle.cast_wire.specs.declared.cmd.Cmd.TheVariants.{FragSessionSetupAns};
ghost use Rattle.cast_wire.specs.Table.{row, Spells, IsValid, canonical};
ghost use Rattle.cast_wire.specs.SetupRefusal.{refusal_bits, setup_answer};
ghost use Rattle.cast_wire.specs.WorkedSpellings.{WorkedSpellings};

/// A command that is written is read again, whatever stands before it and follows; nothing may follow one that takes the rest.
pub fn written_is_read()
    ensures { (c : Cmd) (port : ℕ) (dir : Direction) (before after : List ℕ)
        → IsValid c → IsListed (row c) port dir
        → (IsTrue (takes_rest (row c).parts) → after ≡ [])
        → Spells c port dir (before ++ canonical c ++ after)
        (length before) (length before + length (canonical c)) }
{}

/// At most one command is spelled at a place, with one end.
pub fn place_has_one_spelling()
    ensures { (c d : Cmd) (port : ℕ) (dir : Direction) (bytes : List ℕ) (at next end : ℕ)
        → Spells c port dir bytes at next → Spells d port dir bytes at end
        → (c ≡ d) × (next ≡ end) }
{}

/// No command's spelling begins another's, except that of a command that takes the rest.
pub fn no_spelling_begins_another()
    ensures { (c d : Cmd) (port : ℕ) (dir : Direction) (bytes more : List ℕ)
        → takes_rest (row c).parts ≡ false
        → Spells c port dir bytes 0 (length bytes)
        → Spells d port dir (bytes ++ more) 0 (length (bytes ++ more)) → more ≡ [] }
{}

/// The four bits of a FragSessionSetupAns are those of the number that they make; no two numbers below 16 have the same bits.
pub fn refusal_bits_are_kept()
    ensures answer { (index : ℕ) (descriptor unsupported memory encoding : Bool)
        → setup_answer index (refusal_bits descriptor unsupported memory encoding)
        ≡ FragSessionSetupAns index descriptor unsupported memory encoding }
    ensures one { (index m n : ℕ) → m < 16 → n < 16
        → setup_answer index m ≡ setup_answer index n → m ≡ n }
{}

/// Where each command is sent, and the bytes that are written for it, worked out.
pub fn worked_spellings()
    ensures { WorkedSpellings }
{}
