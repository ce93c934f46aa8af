//! Where the sessions of a device are, and how they go down.

ghost use Rattle.std.specs.Prelude.{◌≡◌, ℕ, List, Some, true, false, IfOk, is_some};
ghost use Rattle.session_store.specs.SessionTable.{SessionTable, no_sessions};
ghost use Rattle.session_store.specs.HeldPlaces.{TableLies};
ghost use Rattle.session_store.specs.HeldStore.{kept, size_in, IsInFlash, StateFits, StateStands, StateIsHeld};
ghost use Rattle.session_store.specs.BySize.{places_in, idle_size, IdleFor};
ghost use Rattle.session_store.specs.Size.{laid_out, size_with};
ghost use Rattle.session_store.specs.CompleteFlags.{is_complete, flags_of, none_complete};
ghost use Rattle.session_store.specs.declared.state.State.TheVariants.{Down};

use crate::flash_sessions::{FlashSessions, IdleSessions};
use crate::held_slots::Layout;
use crate::memory_sessions::MemorySessions;
use crate::sizes::SessionSize;
use flash_session::Flash;
use frag_session::Verdict;
use row_elimination::Memory;
use std::alloc::Global;

/// Which sessions, of index 0 to 3 in order, had their file whole when the device was last up.
#[derive(Clone, Copy, Debug, PartialEq, Eq)]
pub struct CompleteFlags {
    pub first: bool,
    pub second: bool,
    pub third: bool,
    pub fourth: bool,
}

/// Where the sessions are.
#[derive(Drop)]
pub enum State {
    Memory(MemorySessions),
    Flash(FlashSessions),
    Down(IdleSessions, CompleteFlags),
}

/// Makes the state of a new device: its sessions in memory, or down.
pub fn first_state(
    alloc: Global,
    layout: Layout,
    size: SessionSize,
    held: bool,
) -> Result<State, Memory>
    ensures memory { held ≡ false → IfOk result (λ state. StateStands state no_sessions
        × StateFits (laid_out (size_with size) layout) 0 state) }
    ensures down { held ≡ true
        → IfOk result (λ state. (idles : _) × (state ≡ Down idles none_complete)
        × IdleFor layout.area idles) }
    ensures size { IfOk result (λ state. size_in state ≡ size_with size) }
{
    if held {
        match IdleSessions::reserve(alloc, size, layout.area) {
            Ok(idles) => Ok(State::Down(
                idles,
                CompleteFlags {
                    first: false,
                    second: false,
                    third: false,
                    fourth: false,
                },
            )),
            Err(error) => Err(error),
        }
    } else {
        match MemorySessions::reserve(alloc, size, layout.area) {
            Ok(slots) => Ok(State::Memory(slots)),
            Err(error) => Err(error),
        }
    }
}

/// Puts held sessions back where they were taken from.
pub fn put_slots(place: &mut Option<State>, slots: FlashSessions)
    ensures { place.new ≡ Some (State.Flash slots) }
{
    *place = Some(State::Flash(slots));
}

/// Puts sessions down where they were taken from.
pub fn put_idles(place: &mut Option<State>, idles: IdleSessions, flags: CompleteFlags)
    ensures { place.new ≡ Some (Down idles flags) }
{
    *place = Some(State::Down(idles, flags));
}

/// Puts sessions down that are up in flash, with the flags of those whose file was whole.
pub fn go_down(place: &mut Option<State>, flags: CompleteFlags)
    ensures { (slots : _) → place.old ≡ Some (State.Flash slots)
        → (idles : _) × (place.new ≡ Some (Down idles flags))
        × IdleFor (places_in slots).layout.area idles
        × (idle_size idles ≡ (places_in slots).layout.size) }
{
    if let Some(State::Flash(slots)) = place.take() {
        *place = Some(State::Down(slots.close(), flags));
    }
}

/// Returns the memory of sessions that are held in flash, taken from their place, and which had their file whole.
pub fn put_down<F: Flash>(
    place: Option<State>,
    flash: &F,
    layout: Layout,
) -> (IdleSessions, CompleteFlags)
    requires there { (is_some place ≡ true) × IsInFlash (kept place) }
    requires fits { StateFits (laid_out (size_in (kept place)) layout)
        (F.seen flash.now).room (kept place) }
    ensures idle { IdleFor layout.area result.0 }
    ensures size { idle_size result.0 ≡ size_in (kept place) }
    ensures whole { (table : SessionTable) → StateStands (kept place) table
        → result.1 ≡ flags_of table }
    ensures was { (idles : _) (flags : _) → kept place ≡ Down idles flags → result.1 ≡ flags }
    ensures lies { (table : SessionTable) → StateIsHeld (kept place) table (F.seen flash.now)
        → (b : List ℕ) → (F.seen flash.now).holds b
        → TableLies (laid_out (size_in (kept place)) layout) table b }
{
    match place {
        Some(State::Flash(slots)) => {
            slots.lie(flash);
            let flags = slots.flags();
            (slots.close(), flags)
        }
        Some(State::Down(idles, flags)) => (idles, flags),
        // (`there` rules these out: nothing in memory goes down, and a place is empty only within a call)
        Some(State::Memory(_)) | None => unreachable!(),
    }
}

/// Says whether the verdict is that the file is whole.
pub fn is_complete(verdict: Verdict) -> bool
    ensures { result ≡ is_complete verdict }
{
    match verdict {
        Verdict::Complete(_) => true,
        _ => false,
    }
}
