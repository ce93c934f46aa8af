//! Laws about the definitions, each the contract of a function with an empty body.

ghost use Rattle.std.specs.Prelude.{◌≡◌, ℕ, ◌+◌, ◌%◌, ◌≤◌, ◌<◌, List, length};
ghost use Rattle.mc_frames.specs.declared.session.Keys.{Keys};
ghost use Rattle.mc_frames.specs.Frames.{frame_of};
ghost use Rattle.mc_frames.specs.WorkedFrames.{WorkedCodes, WorkedFrames, WorkedFaults, WorkedOrder};
ghost use Rattle.wire_base.specs.Payload.{max_payload};
ghost use Rattle.mc_frames.specs.Opening.{Holds, count_near};

/// A frame made with a count that is due holds its count, port and payload, so it is opened to them.
pub fn frame_holds_what_it_was_made_of()
    ensures { (keys : Keys) (addr min max count port : ℕ) (payload : List ℕ)
        → length payload ≤ max_payload → 0 < port
        → min ≤ count → count < max → count < min + 65536
        → Holds keys addr min max (frame_of keys addr 0x00 count port payload)
        count port payload }
{}

/// Bytes hold at most one count, one port and one payload.
pub fn held_is_unique()
    ensures { (keys : Keys) (addr min max : ℕ) (bytes : List ℕ)
        → (c p d q : ℕ) (one other : List ℕ)
        → Holds keys addr min max bytes c p one → Holds keys addr min max bytes d q other
        → (c ≡ d) × (p ≡ q) × (one ≡ other) }
{}

/// Exactly one of the 65,536 counts from `min` on has given low two bytes.
pub fn one_count_is_near()
    ensures one { (min low : ℕ) → low < 65536
        → (min ≤ count_near min low) × (count_near min low < min + 65536)
        × (count_near min low % 65536 ≡ low) }
    ensures only { (min count : ℕ) → min ≤ count → count < min + 65536
        → count ≡ count_near min (count % 65536) }
{}

/// Codes, a frame and its faults, worked out with another AES and CMAC.
pub fn worked_frames()
    ensures codes { WorkedCodes }
    ensures frames { WorkedFrames }
    ensures faults { WorkedFaults }
    ensures order { WorkedOrder }
{}
