//! A receiver of one of three sizes, in memory that is taken once.

ghost use Rattle.std.specs.Prelude.{◌≡◌, ◌≤◌, Option, None, length, IfOk, option_map};
ghost use Rattle.wire_base.specs.Payload.{max_payload};
ghost use Rattle.frag_session.specs.Session.{Session, view_of, after_fragment};
ghost use Rattle.frag_session.specs.HeldView.{seen};
ghost use Rattle.frag_session.specs.declared.answers.Via.TheVariants.{Unicast};
ghost use Rattle.fuota_c.specs.Receiver.{ReceiverStands, SetsUp, Hears, Answers, size_of};

use crate::size::PartSize;
use cast_wire::fragment_at;
use frag_session::{Idle, Limits, SetupReq, Slot, StatusAns, Via, View};
use row_elimination::{Memory, Solver};
use std::alloc::Global;

/// A row takes a word for each 64 pieces, and the bytes of a piece.
#[derive(Drop)]
pub enum Receiver {
    Small(Slot<64, 768>),
    Middle(Slot<1024, 3072>),
    Large(Slot<16384, 16384>),
}

/// Takes all memory that a receiver of a size ever uses: for 256 pieces of 48 bytes and 16 rows for coded fragments, 1,024 of 48
/// and 64 rows, or 4,096 of 64 and 256 rows.
pub fn new_receiver(alloc: Global, size: PartSize) -> Result<Receiver, Memory>
    ensures { IfOk result (λ receiver. ReceiverStands size receiver None) }
{
    match size {
        PartSize::Small => {
            let solver = Solver::reserve_for(alloc, 256 * 48, 256)?;
            Ok(Receiver::Small(Slot::new(Idle::new(solver))))
        }
        PartSize::Middle => {
            let solver = Solver::reserve_for(alloc, 1024 * 48, 1024)?;
            Ok(Receiver::Middle(Slot::new(Idle::new(solver))))
        }
        PartSize::Large => {
            let solver = Solver::reserve_for(alloc, 4096 * 64, 4096)?;
            Ok(Receiver::Large(Slot::new(Idle::new(solver))))
        }
    }
}

/// Only session 0, with any descriptor.
fn limits(rows: u16) -> Limits
    ensures { result ≡ record { sessions = 1; rows = rows; descriptor = None } }
{
    Limits {
        sessions: 1,
        rows,
        descriptor: None,
    }
}

/// Takes a FragSessionSetupReq and returns all refusal bits of its answer; with 0 it has a session.
pub fn set_up(receiver: &mut Receiver, req: SetupReq) -> u8
    ensures { SetsUp receiver.old receiver.new req result }
{
    match receiver {
        Receiver::Small(slot) => slot.setup(req, limits(16)),
        Receiver::Middle(slot) => slot.setup(req, limits(64)),
        Receiver::Large(slot) => slot.setup(req, limits(256)),
    }
}

/// Takes a payload of port 201, by unicast: a DataFragment of session 0 is heard, with a mark that the caller chooses.
pub fn hear(receiver: &mut Receiver, payload: &[u8], mark: u64)
    requires { length payload.now ≤ max_payload }
    ensures { Hears receiver.old receiver.new payload.now mark }
{
    if let Some(fragment) = fragment_at(payload, 0) {
        if fragment.index == 0 {
            feed(receiver, fragment.n, fragment.bytes, mark);
        }
    }
}

fn feed(receiver: &mut Receiver, n: u16, part: &[u8], mark: u64)
    ensures { (s : Option Session) → ReceiverStands (size_of receiver.old) receiver.old s
        → ReceiverStands (size_of receiver.old) receiver.new
        (after_fragment s Unicast n part.now mark) }
{
    match receiver {
        Receiver::Small(slot) => slot.fragment(Via::Unicast, n, part, mark),
        Receiver::Middle(slot) => slot.fragment(Via::Unicast, n, part, mark),
        Receiver::Large(slot) => slot.fragment(Via::Unicast, n, part, mark),
    };
}

/// Returns what the session shows, where there is one.
pub fn view(receiver: &Receiver) -> Option<View<'_>>
    ensures { (s : Option Session) → ReceiverStands (size_of receiver.now) receiver.now s
        → option_map seen result ≡ view_of s }
{
    match receiver {
        Receiver::Small(slot) => slot.view(),
        Receiver::Middle(slot) => slot.view(),
        Receiver::Large(slot) => slot.view(),
    }
}

/// Answers a FragSessionStatusReq that came by unicast, where an answer is due.
pub fn status(receiver: &Receiver, all: bool) -> Option<StatusAns>
    ensures { Answers receiver.now all result }
{
    match receiver {
        Receiver::Small(slot) => slot.status(Via::Unicast, all),
        Receiver::Middle(slot) => slot.status(Via::Unicast, all),
        Receiver::Large(slot) => slot.status(Via::Unicast, all),
    }
}
