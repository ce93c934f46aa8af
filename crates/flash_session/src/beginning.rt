//! A session begins and ends: its header's gate is closed before anything else of it is written.

ghost use Rattle.std.specs.Prelude.{◌≡◌, ℕ, ◌+◌, ◌≤◌, List, length, None, Some, OnOk};
ghost use Rattle.flash_session.specs.Layout.{body_size, records_place};
ghost use Rattle.flash_session.specs.Lies.{Stored, IsCleared, new_stored};
ghost use Rattle.flash_session.specs.Ranges.{RangeServes, WasOrIs, WasNoneOrIs, Living, Opening, Beginning};
ghost use Rattle.flash_session.specs.Seen.{IsKept};

use crate::flash::{Failed, Flash};
use crate::layout::{BODY, GATES, OPEN, RECORD_GATES};
use crate::storing::write_synced;

/// Ends a session: closes its header's gate.
pub fn end<F: Flash>(flash: &mut F, base: u32, span: u32) -> Result<(), Failed>
    requires range { base + span ≤ (F.seen flash.old).room }
    requires long { records_place ≤ span }
    ensures ended { RangeServes base span (WasOrIs base) (λ (s : Stored). Some s) (λ s. None)
        (F.seen flash.old) (F.seen flash.new) result }
    ensures kept { OnOk result (IsKept (F.seen flash.new)) }
{
    write_synced(flash, base, &[0])
}

/// The first step of a setup: ends a session that is there. A closed gate is not written again, since a stop could leave it open.
fn end_if<F: Flash>(flash: &mut F, base: u32, span: u32, lives: bool) -> Result<(), Failed>
    requires range { base + span ≤ (F.seen flash.old).room }
    requires long { records_place ≤ span }
    ensures ended { RangeServes base span (WasOrIs base) (λ (x : Living lives). x.before)
        (λ x. None) (F.seen flash.old) (F.seen flash.new) result }
{
    if lives {
        end(flash, base, span)
    } else {
        Ok(())
    }
}

/// Clears all gates but the header's, and writes the setup's body.
fn clear<F: Flash>(flash: &mut F, base: u32, span: u32, body: &[u8]) -> Result<(), Failed>
    requires range { base + span ≤ (F.seen flash.old).room }
    requires long { records_place ≤ span }
    requires body { length body.now ≡ body_size }
    ensures cleared { OnOk result
        ((b : List ℕ) → (F.seen flash.new).holds b → IsCleared base body.now b) }
    ensures none { RangeServes base span (WasOrIs base) (λ (x : Unit {0}). None) (λ x. None)
        (F.seen flash.old) (F.seen flash.new) result }
{
    flash.fill(base + RECORD_GATES, GATES)?;
    write_synced(flash, base + BODY, body)
}

/// Opens the header's gate of a session that is cleared.
fn open<F: Flash>(flash: &mut F, base: u32, span: u32) -> Result<(), Failed>
    requires range { base + span ≤ (F.seen flash.old).room }
    requires long { records_place ≤ span }
    ensures begun { RangeServes base span (WasOrIs base)
        (λ (x : Opening base span (F.seen flash.old)). None)
        (λ x. Some (new_stored x.body x.most x.size)) (F.seen flash.old) (F.seen flash.new) result }
    ensures kept { OnOk result (IsKept (F.seen flash.new)) }
{
    write_synced(flash, base, &[OPEN])
}

/// Begins a session instead of whatever was there (`lives` says whether there was a session): closes its header's gate, clears
/// all other gates, writes its body, and opens its header's gate.
pub fn begin<F: Flash>(
    flash: &mut F,
    base: u32,
    span: u32,
    lives: bool,
    body: &[u8],
) -> Result<(), Failed>
    requires range { base + span ≤ (F.seen flash.old).room }
    requires long { records_place ≤ span }
    requires body { length body.now ≡ body_size }
    ensures begun { RangeServes base span (WasNoneOrIs base)
        (λ (x : Beginning span lives body.now). x.before)
        (λ x. Some (new_stored body.now x.most x.size)) (F.seen flash.old)
        (F.seen flash.new) result }
    ensures kept { OnOk result (IsKept (F.seen flash.new)) }
{
    end_if(flash, base, span, lives)?;
    clear(flash, base, span, body)?;
    open(flash, base, span)
}
