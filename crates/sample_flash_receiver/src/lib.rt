//! A sample: a device's receiver of one file at a time (TS004-1.0.0) whose session is held in the maker's own flash, so that it
//! outlasts a stop. It takes files of up to 256 pieces of 48 bytes and keeps 16 rows for coded fragments.
#![tactic(auto)]

ghost use Rattle.std.specs.Prelude.{◌≡◌, ℕ, ◌<◌, ◌≤◌, List, Option, length, IfOk, IfErr, MatchResult, option_map};
ghost use Rattle.wire_base.specs.Payload.{max_payload};
ghost use Rattle.frag_session.specs.Session.{Session, view_of, after_setup, after_fragment};
ghost use Rattle.frag_session.specs.Setup.{setup_bits};
ghost use Rattle.frag_session.specs.declared.answers.Via.TheVariants.{Unicast};
ghost use Rattle.flash_session.specs.Body.{FieldsFit};
ghost use Rattle.flash_session.specs.HeldCalls.{HeldOpened, OldOrNew, OldNoneOrNew};
ghost use Rattle.flash_session.specs.Opening.{IsFirstForeign};
ghost use Rattle.flash_session.specs.Serving.{FlashOpens};
ghost use Rattle.flash_session.specs.Sessions.{IsHeldAs, LiesForAs};
ghost use Rattle.sample_receiver.specs.HeldReceiver.{extent, limits, IsFragment, whole_file};
ghost use Rattle.sample_flash_receiver.specs.HeldReceiver.{span, room, place, IsReceiver};
ghost use Rattle.sample_flash_receiver.specs.HeldReceiver.{ReceiverStands, ReceiverServes, ReceiverStays};

use cast_wire::fragment_at;
use flash_session::{Failed, Flash, Held, OpenFault};
use frag_session::{Idle, Limits, SetupReq, Verdict, Via};
use row_elimination::{Memory, Solver};
use std::alloc::Global;

mod part;

pub use part::{Driver, Part};

// sample
/// A row takes a word for 64 pieces, so 4 of 256, and the bytes of a piece: 16 rows are 64 words and 768 bytes.
pub type Receiver = Held<64, 768>;

/// Its memory, while no part is open.
pub type Arena = Idle<64, 768>;

/// Bytes of flash: 24,640, and 58 for each of the 513 fragments of 48 bytes that can tell something new of 256 pieces.
pub const SPAN: u32 = 24_640 + 513 * 58;

/// Session 0 alone, with any descriptor.
const LIMITS: Limits = Limits {
    sessions: 1,
    rows: 16,
    descriptor: None,
};

/// All memory that the receiver ever uses; 12,288 bytes of it are for the file.
pub fn arena(alloc: Global) -> Result<Arena, Memory>
    ensures { IfOk result (λ arena. arena ≡ extent) }
{
    Ok(Idle::new(Solver::reserve_for(alloc, 256 * 48, 256)?))
}

/// At each start: with the session that lies in the part, or with none. At Err the memory comes back: Flash where the
/// part failed, Foreign where the header's gate is open and something there is no session's, with the lowest such
/// place.
pub fn start<F: Flash>(part: &mut F, arena: Arena) -> Result<Receiver, (Arena, OpenFault)>
    requires arena { arena ≡ extent }
    requires room { span ≤ (F.seen part.old).room }
    // What lies for a session, as each call leaves it at any moment, opens for that session.
    ensures opened { (s : Option Session) (b : List ℕ) → (F.seen part.new).holds b
        → LiesForAs place s b
        → MatchResult result (λ receiver. IsHeldAs receiver s (F.seen part.new))
        (λ e. e.1 ≡ OpenFault.Flash) }
    // Whatever lies there, it is the receiver of a session or of none, but for the count of what was received. Foreign comes
    // exactly where the header's gate is open and something there is no session's.
    ensures opens { FlashOpens (λ e. e.1) (HeldOpened 64 768 0 span limits extent)
        (IsFirstForeign place) (F.seen part.old) (F.seen part.new) result }
    ensures arena { IfErr result (λ e. e.0 ≡ extent) }
{
    Held::open(part, 0, SPAN, arena, LIMITS)
}

/// FragSessionSetupReq: all refusal bits of its answer; with 0 its session lives. At Err the part failed: start anew.
pub fn set_up<F: Flash>(
    receiver: Receiver,
    part: &mut F,
    req: SetupReq,
) -> Result<(Receiver, u8), Arena>
    requires receiver { IsReceiver receiver }
    requires room { span ≤ (F.seen part.old).room }
    requires fields { FieldsFit req }
    ensures bits { IfOk result (λ r. r.1 ≡ setup_bits limits room req) }
    // A stop at any moment leaves the session as it was, none, or the new one.
    ensures serves { ReceiverServes (λ r. r.0) receiver (λ s. after_setup limits room s req)
        (OldNoneOrNew receiver) (F.seen part.old) (F.seen part.new) result }
    ensures stays { ReceiverStays (λ r. r.0) (F.seen part.old) (F.seen part.new) result }
{
    receiver.setup(part, req)
}

/// A payload of port 201, by unicast: a DataFragment of session 0 is heard and stored, with a mark that is the caller's own. At
/// Err the part failed: start anew.
pub fn hear<F: Flash>(
    receiver: Receiver,
    part: &mut F,
    payload: &[u8],
    mark: u64,
) -> Result<Receiver, Arena>
    requires receiver { IsReceiver receiver }
    requires room { span ≤ (F.seen part.old).room }
    requires short { length payload.now ≤ max_payload }
    // A stop at any moment leaves the session as it was, or followed by the fragment.
    ensures serves { (n : ℕ) (piece : List ℕ) → IsFragment payload.now n piece
        → ReceiverServes (λ r. r) receiver (λ s. after_fragment s Unicast n piece mark)
        (OldOrNew receiver) (F.seen part.old) (F.seen part.new) result }
    // Any other payload changes nothing.
    ensures other { ((n : ℕ) (piece : List ℕ) → ¬ IsFragment payload.now n piece)
        → (result ≡ Ok receiver) × (part.new ≡ part.old) }
    ensures stays { ReceiverStays (λ r. r) (F.seen part.old) (F.seen part.new) result }
{
    let Some(fragment) = fragment_at(payload, 0) else {
        return Ok(receiver);
    };
    if fragment.index != 0 {
        return Ok(receiver);
    }
    match receiver.hear(part, Via::Unicast, fragment.n, fragment.bytes, mark) {
        Ok((receiver, _heard)) => Ok(receiver),
        Err(arena) => Err(arena),
    }
}

/// The file, once no other fits what was heard.
pub fn file(receiver: &Receiver) -> Option<&[u8]>
    ensures { (s : Option Session) → ReceiverStands receiver.now s
        → option_map (λ file. file.now) result ≡ whole_file (view_of s) }
{
    let view = receiver.view()?;
    match view.verdict {
        Verdict::Complete(_) => Some(view.file),
        _ => None,
    }
}
// end of sample
