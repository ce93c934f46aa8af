//! What holds of the spellings of all commands, whatever a caller does.
ghost use Rattle.std.specs.Prelude.{◌≡◌, ◌↔◌, ℕ, List, [], ◌∷◌, Result, Ok, Err};
ghost use Rattle.wire_base.specs.declared.refusal.Direction.{Direction};
ghost use Rattle.wire_base.specs.declared.refusal.Refusal.{Refusal};
ghost use Rattle.wire_base.specs.Rows.{IsListed};
ghost use Rattle.package_grammar.specs.declared.command.Command.{Command};
ghost use Rattle.package_grammar.specs.Grammar.{row, IsValid, IsMessage, IsStop, canonical, IsReading};
ghost use Rattle.package_grammar.specs.Reading.{reading_of};
ghost use Rattle.package_grammar.specs.WorkedPayloads.{ReservedBits, WorkedMessages};
ghost use Rattle.package_grammar.specs.WorkedTexts.{SyncTexts, FragmentTexts, GroupTexts};

/// A payload is read as these commands exactly where it is a message of them, and refused so exactly where reading it stops so.
pub fn reading_is_exact()
    ensures message { (port : ℕ) (dir : Direction) (bytes : List ℕ) (cs : List Command)
        → (reading_of port dir bytes ≡ Ok cs) ↔ IsMessage cs port dir bytes }
    ensures stops { (port : ℕ) (dir : Direction) (bytes : List ℕ) (refusal : Refusal)
        → (reading_of port dir bytes ≡ Err refusal) ↔ IsStop port dir bytes refusal }
{}

/// A command that is written alone is read as that command alone.
pub fn written_is_read()
    ensures { (c : Command) (port : ℕ) (dir : Direction) → IsValid c → IsListed (row c) port dir
        → reading_of port dir (canonical c) ≡ Ok (c ∷ []) }
{}

/// A command that is written alone is a message of that command, so every valid command fits into a payload.
pub fn written_is_message()
    ensures { (c : Command) (port : ℕ) (dir : Direction) → IsValid c → IsListed (row c) port dir
        → IsMessage (c ∷ []) port dir (canonical c) }
{}

/// Reading a payload has one answer: one list of commands, or one place and cause at which it stops.
pub fn reading_has_one_answer()
    ensures { (port : ℕ) (dir : Direction) (bytes : List ℕ)
        (one other : Result (List Command) Refusal)
        → IsReading port dir bytes one → IsReading port dir bytes other → one ≡ other }
{}

/// The text of each command, worked out.
pub fn worked_texts()
    ensures sync { SyncTexts }
    ensures fragments { FragmentTexts }
    ensures groups { GroupTexts }
{}

/// Payloads worked out: reserved bits, payloads of several commands, and where reading stops.
pub fn worked_payloads()
    ensures reserved { ReservedBits }
    ensures messages { WorkedMessages }
{}
