//! What is in a range when it is opened.

ghost use Rattle.std.specs.Prelude.{◌≡◌, ℕ, ◌+◌, ◌*◌, ◌<◌, ◌≤◌, List, None, OnOk};
ghost use Rattle.flash_session.specs.Contents.{byte_at};
ghost use Rattle.flash_session.specs.HeldSession.{room_in};
ghost use Rattle.flash_session.specs.Layout.{open_gate, gates_at, tallies_at, most_records, most_tallies, records_place};
ghost use Rattle.flash_session.specs.Lies.{GatesOpen, NoSession};
ghost use Rattle.flash_session.specs.Opening.{IsFirstForeign};
ghost use Rattle.flash_session.specs.Replayed.{Replayed, HasHeader, IsFound, IsOpened, Finds, place_in};
ghost use Rattle.flash_session.specs.Seen.{IsKept};
ghost use Rattle.flash_session.specs.Serving.{FlashOpens};
ghost use Rattle.frag_session.specs.Session.{new_session};
ghost use Rattle.frag_session.specs.Setup.{setup_bits, memory_room};
ghost use Rattle.frag_session.specs.HeldHistory.{Stands};
ghost use Rattle.frag_session.specs.HeldSteps.{extent_of};

use crate::fault::OpenFault;
use crate::flash::Flash;
use crate::layout::{BODY, MAX_TALLIES, OPEN, RECORD_GATES, RECORDS, TALLY_GATES};
use crate::reading::{Front, read_byte, read_front, read_setup};
use crate::replaying::replay;
use frag_session::{Limits, SetupReq, Slot};

/// How many records and tallies there are.
#[derive(Clone, Copy)]
pub struct Counts {
    pub records: u16,
    pub tallies: u16,
}

/// Finds the session in the `span` bytes from `base`, once they are synced: None without a session; else the slot hears its
/// records.
pub fn find<F: Flash, const W: usize, const B: usize>(
    flash: &mut F,
    base: u32,
    span: u32,
    limits: Limits,
    slot: &mut Slot<W, B>,
) -> Result<Option<Counts>, OpenFault>
    requires range { base + span ≤ (F.seen flash.old).room }
    requires long { records_place ≤ span }
    requires none { Stands slot.old None }
    ensures opens { FlashOpens (λ e. e)
        (Finds (place_in W B base span limits (extent_of slot.old)) slot.new)
        (IsFirstForeign (place_in W B base span limits (extent_of slot.old)))
        (F.seen flash.old) (F.seen flash.new) result }
    ensures kept { OnOk result (IsKept (F.seen flash.new)) }
    ensures extent { extent_of slot.new ≡ extent_of slot.old }
{
    match flash.sync() {
        Err(_) => Err(OpenFault::Flash),
        Ok(()) => find_synced(flash, base, span, limits, slot),
    }
}

/// What is there, where it is synced.
fn find_synced<F: Flash, const W: usize, const B: usize>(
    flash: &mut F,
    base: u32,
    span: u32,
    limits: Limits,
    slot: &mut Slot<W, B>,
) -> Result<Option<Counts>, OpenFault>
    requires range { base + span ≤ (F.seen flash.old).room }
    requires long { records_place ≤ span }
    requires none { Stands slot.old None }
    ensures opens { FlashOpens (λ e. e)
        (Finds (place_in W B base span limits (extent_of slot.old)) slot.new)
        (IsFirstForeign (place_in W B base span limits (extent_of slot.old)))
        (F.seen flash.old) (F.seen flash.new) result }
    ensures extent { extent_of slot.new ≡ extent_of slot.old }
{
    match read_byte(flash, base) {
        Err(_) => Err(OpenFault::Flash),
        Ok(gate) => {
            if gate != OPEN {
                return Ok(None);
            }
            match find_behind(flash, base, span, limits, slot) {
                Err(fault) => Err(fault),
                Ok(counts) => Ok(Some(counts)),
            }
        }
    }
}

/// The session after an open header's gate.
fn find_behind<F: Flash, const W: usize, const B: usize>(
    flash: &mut F,
    base: u32,
    span: u32,
    limits: Limits,
    slot: &mut Slot<W, B>,
) -> Result<Counts, OpenFault>
    requires range { base + span ≤ (F.seen flash.old).room }
    requires long { records_place ≤ span }
    ensures opens { FlashOpens (λ e. e)
        (λ c seen. ((b : List ℕ) → seen.holds b → byte_at b base ≡ open_gate)
        → IsOpened (place_in W B base span limits (extent_of slot.old)) slot.new seen.holds c)
        (λ b p. byte_at b base ≡ open_gate
        → IsFirstForeign (place_in W B base span limits (extent_of slot.old)) b p)
        (F.seen flash.old) (F.seen flash.new) result }
    ensures extent { extent_of slot.new ≡ extent_of slot.old }
{
    match read_setup(flash, base + BODY) {
        Err(_) => Err(OpenFault::Flash),
        Ok(setup) => {
            if slot.refusal(setup, limits, Some(span)) != 0 {
                return Err(OpenFault::Foreign(BODY));
            }
            find_session(flash, base, span, setup, limits, slot)
        }
    }
}

/// The session of this setup: its gates are counted, and its records heard.
fn find_session<F: Flash, const W: usize, const B: usize>(
    flash: &mut F,
    base: u32,
    span: u32,
    setup: SetupReq,
    limits: Limits,
    slot: &mut Slot<W, B>,
) -> Result<Counts, OpenFault>
    requires room { base + records_place + (10 + setup.frag_size) * (2 * setup.nb_frag + 1) ≤
        (F.seen flash.old).room }
    requires most { 2 * setup.nb_frag + 1 ≤ most_records }
    requires fine { setup_bits limits (memory_room W B (extent_of slot.old)) setup ≡ 0 }
    ensures opens { FlashOpens (λ e. e)
        (λ c seen. IsFound limits setup slot.new seen.holds base c)
        (λ b p. HasHeader (place_in W B base span limits (extent_of slot.old)) setup b
        → IsFirstForeign (place_in W B base span limits (extent_of slot.old)) b p)
        (F.seen flash.old) (F.seen flash.new) result }
    ensures extent { extent_of slot.new ≡ extent_of slot.old }
{
    match read_front(flash, base + RECORD_GATES, 2 * setup.nb_frag + 1) {
        Err(_) => Err(OpenFault::Flash),
        Ok(Front::Stray(k)) => Err(OpenFault::Foreign(RECORD_GATES + u32::from(k))),
        Ok(Front::Whole(records)) => find_tallies(flash, base, span, setup, limits, records, slot),
    }
}

/// The same, where the gates of records are counted.
fn find_tallies<F: Flash, const W: usize, const B: usize>(
    flash: &mut F,
    base: u32,
    span: u32,
    setup: SetupReq,
    limits: Limits,
    records: u16,
    slot: &mut Slot<W, B>,
) -> Result<Counts, OpenFault>
    requires room { base + records_place + (10 + setup.frag_size) * (2 * setup.nb_frag + 1) ≤
        (F.seen flash.old).room }
    requires most { 2 * setup.nb_frag + 1 ≤ most_records }
    requires few { records ≤ 2 * setup.nb_frag + 1 }
    requires fine { setup_bits limits (memory_room W B (extent_of slot.old)) setup ≡ 0 }
    ensures opens { FlashOpens (λ e. e)
        (λ c seen. ((b : List ℕ) → seen.holds b
        → GatesOpen b (gates_at base) records (2 * setup.nb_frag + 1))
        → IsFound limits setup slot.new seen.holds base c)
        (λ b p. HasHeader (place_in W B base span limits (extent_of slot.old)) setup b
        → GatesOpen b (gates_at base) records (2 * setup.nb_frag + 1)
        → IsFirstForeign (place_in W B base span limits (extent_of slot.old)) b p)
        (F.seen flash.old) (F.seen flash.new) result }
    ensures extent { extent_of slot.new ≡ extent_of slot.old }
{
    match read_front(flash, base + TALLY_GATES, MAX_TALLIES) {
        Err(_) => Err(OpenFault::Flash),
        Ok(Front::Stray(k)) => Err(OpenFault::Foreign(TALLY_GATES + u32::from(k))),
        Ok(Front::Whole(tallies)) => match find_records(
            flash, base, span, setup, limits, records, slot,
        ) {
            Err(fault) => Err(fault),
            Ok(()) => Ok(Counts { records, tallies }),
        },
    }
}

/// The same, where all gates are counted.
fn find_records<F: Flash, const W: usize, const B: usize>(
    flash: &mut F,
    base: u32,
    span: u32,
    setup: SetupReq,
    limits: Limits,
    records: u16,
    slot: &mut Slot<W, B>,
) -> Result<(), OpenFault>
    requires room { base + records_place + (10 + setup.frag_size) * (2 * setup.nb_frag + 1) ≤
        (F.seen flash.old).room }
    requires most { 2 * setup.nb_frag + 1 ≤ most_records }
    requires few { records ≤ 2 * setup.nb_frag + 1 }
    requires fine { setup_bits limits (memory_room W B (extent_of slot.old)) setup ≡ 0 }
    ensures opens { FlashOpens (λ e. e)
        (λ done seen. Replayed (new_session limits setup) slot.new seen.holds base setup.frag_size
        records)
        (λ b p. HasHeader (place_in W B base span limits (extent_of slot.old)) setup b
        → GatesOpen b (gates_at base) records (2 * setup.nb_frag + 1)
        → (t : ℕ) → GatesOpen b (tallies_at base) t most_tallies
        → IsFirstForeign (place_in W B base span limits (extent_of slot.old)) b p)
        (F.seen flash.old) (F.seen flash.new) result }
    ensures extent { extent_of slot.new ≡ extent_of slot.old }
{
    slot.renew(setup, limits);
    match replay(flash, base, setup.frag_size, records, slot) {
        Err(_) => Err(OpenFault::Flash),
        Ok(None) => Ok(()),
        Ok(Some(k)) => {
            let at = RECORDS + (10 + u32::from(setup.frag_size)) * u32::from(k);
            Err(OpenFault::Foreign(at))
        }
    }
}
