//! Laws about the definitions, each the contract of a function with an empty body.

ghost use Rattle.payload_replay.specs.Capture.{CapturesAlways, CapturesOnce};
ghost use Rattle.payload_replay.specs.CaptureReplay.{EndsAsReplay};
ghost use Rattle.payload_replay.specs.Decode.{HasAnAnswer, HasOneAnswer};
ghost use Rattle.payload_replay.specs.Replay.{ReplaysAlways, ReplaysOnce};
ghost use Rattle.payload_replay.specs.ReplayHeadline.{ReplayHeadline};
ghost use Rattle.payload_replay.specs.WorkedTexts.{AreCaptures, AreTexts};

/// For any payloads that are replayed: each session is what the commands in the lines make of it. So it hears nothing but what
/// the lines have for it, and each fragment since its setup that it has no cause to drop. It is complete from the first heard
/// fragment on after which only one file fits, without rows from the first that is one independent coded fragment too many, in
/// conflict from the first after which no file fits, and the text says so.
pub fn replay_is_decided_at_first()
    ensures { ReplayHeadline }
{}

/// A file of payloads is replayed in one way: one text, or one first refused line.
pub fn replay_has_one_answer()
    ensures once { ReplaysOnce }
    ensures always { ReplaysAlways }
{}

/// A file of payloads has one answer on a port and in a direction: one text, or one first refused line.
pub fn decode_has_one_answer()
    ensures once { HasOneAnswer }
    ensures always { HasAnAnswer }
{}

/// A capture has one answer: one text, or one first refused line.
pub fn capture_has_one_answer()
    ensures once { CapturesOnce }
    ensures always { CapturesAlways }
{}

/// The text of a capture whose payloads all go down on port 201 is its entries, and from the counts on that of the replay of the
/// same payloads in hex, whichever way their digits are written.
pub fn capture_ends_as_replay()
    ensures { EndsAsReplay }
{}

/// Texts, worked out: commands and stops of a payload, lines and headers, and a replay with two sessions; for captures their
/// lines and headers, entries, which of them are heard, and a text.
pub fn worked_texts()
    ensures texts { AreTexts }
    ensures captures { AreCaptures }
{}
