//! A sample: a device's receiver of one file at a time (TS004-1.0.0), in memory that is taken once. It takes files of up to 256
//! pieces of 48 bytes and keeps 16 rows for coded fragments, so that it can recover up to 16 lost pieces.
#![tactic(auto)]

ghost use Rattle.std.specs.Prelude.{◌≡◌, ◌≤◌, Option, None, length, IfOk, option_map};
ghost use Rattle.wire_base.specs.Payload.{max_payload};
ghost use Rattle.frag_session.specs.Session.{Session, view_of};
ghost use Rattle.sample_receiver.specs.HeldReceiver.{ReceiverStands, SetsUp, Hears, whole_file};

use cast_wire::fragment_at;
use frag_session::{Idle, Limits, SetupReq, Slot, Verdict, Via};
use row_elimination::{Memory, Solver};
use std::alloc::Global;

// sample
/// A row takes a word for 64 pieces, so 4 of 256, and the bytes of a piece: 16 rows are 64 words and 768 bytes.
pub type Receiver = Slot<64, 768>;

/// Session 0 alone, with any descriptor.
const LIMITS: Limits = Limits {
    sessions: 1,
    rows: 16,
    descriptor: None,
};

/// All memory that the receiver ever uses; 12,288 bytes of it are for the file.
pub fn receiver(alloc: Global) -> Result<Receiver, Memory>
    ensures { IfOk result (λ receiver. ReceiverStands receiver None) }
{
    let solver = Solver::reserve_for(alloc, 256 * 48, 256)?;
    Ok(Slot::new(Idle::new(solver)))
}

/// FragSessionSetupReq: all refusal bits of its answer; with 0 its session lives.
pub fn set_up(receiver: &mut Receiver, req: SetupReq) -> u8
    ensures { SetsUp receiver.old receiver.new req result }
{
    receiver.setup(req, LIMITS)
}

/// A payload of port 201, by unicast: a DataFragment of session 0 is heard, with a mark that is the caller's own.
pub fn hear(receiver: &mut Receiver, payload: &[u8], mark: u64)
    requires { length payload.now ≤ max_payload }
    ensures { Hears receiver.old receiver.new payload.now mark }
{
    if let Some(fragment) = fragment_at(payload, 0) {
        if fragment.index == 0 {
            receiver.fragment(Via::Unicast, fragment.n, fragment.bytes, mark);
        }
    }
}

/// The file, once no other fits what was heard.
pub fn file(receiver: &Receiver) -> Option<&[u8]>
    ensures { (s : Option Session) → ReceiverStands receiver.now s
        → option_map (λ file. file.now) result ≡ whole_file (view_of s) }
{
    let view = receiver.view()?;
    match view.verdict {
        Verdict::Complete(_) => Some(view.file),
        _ => None,
    }
}
// end of sample
