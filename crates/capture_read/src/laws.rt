//! Laws about the definitions, each the contract of a function with an empty body.

ghost use Rattle.std.specs.Prelude.{◌≡◌, ℕ, ◌≤◌, ◌<◌, List, Ok, length};
ghost use Rattle.wire_base.specs.Payload.{max_payload};
ghost use Rattle.capture_read.specs.declared.answers.Entry.{Entry};
ghost use Rattle.capture_read.specs.Entries.{entry_of};
ghost use Rattle.capture_read.specs.WorkedEntries.{WorkedEntries, WorkedRefusals, WorkedLimit, WorkedJson, WorkedPorts};

/// The payload of an entry fits a frame.
pub fn entries_fit_frames()
    ensures { (line : List ℕ) (item : Entry) → entry_of line ≡ Ok item
        → length item.payload ≤ max_payload }
{}

/// Lines and what they are, worked out.
pub fn worked_entries()
    ensures entries { WorkedEntries }
    ensures refusals { WorkedRefusals }
    ensures limit { WorkedLimit }
    ensures json { WorkedJson }
    ensures ports { WorkedPorts }
{}
