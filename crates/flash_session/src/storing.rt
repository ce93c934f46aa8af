//! Records after gates.

ghost use Rattle.std.specs.Prelude.{◌≡◌, ◌+◌, ◌*◌, ◌<◌, ◌≤◌, ◌^◌, length, Some, OnOk};
ghost use Rattle.flash_session.specs.Contents.{SameOutside, Put, Follows};
ghost use Rattle.flash_session.specs.Layout.{most_records, most_tallies, records_place};
ghost use Rattle.flash_session.specs.Lies.{with_record, with_tally};
ghost use Rattle.flash_session.specs.Ranges.{RangeServes, WasOrIs, Storing, Tallied};
ghost use Rattle.flash_session.specs.Seen.{IsKept};
ghost use Rattle.flash_session.specs.Serving.{FlashServes};

use crate::flash::{Failed, Flash};
use crate::layout::{OPEN, RECORD_GATES, RECORDS, TALLY_GATES};

/// Writes a piece and syncs it.
pub fn write_synced<F: Flash>(flash: &mut F, at: u32, piece: &[u8]) -> Result<(), Failed>
    requires { at + length piece.now ≤ (F.seen flash.old).room }
    ensures written { OnOk result
        (Follows (Put at piece.now) (F.seen flash.old).holds (F.seen flash.new).holds) }
    ensures kept { OnOk result (IsKept (F.seen flash.new)) }
    ensures serves { FlashServes (SameOutside at (length piece.now)) (F.seen flash.old)
        (F.seen flash.new) result }
{
    flash.write(at, piece)?;
    flash.sync()
}

/// Adds record `n` to the session whose range begins at `base`: the record is written and synced, and then its gate.
/// `span` is the length of the range, and `size` that of a record's data.
pub fn store<F: Flash>(
    flash: &mut F,
    base: u32,
    span: u32,
    size: u8,
    n: u16,
    piece: &[u8],
) -> Result<(), Failed>
    requires range { base + span ≤ (F.seen flash.old).room }
    requires gate { n < most_records }
    requires room { records_place + (10 + size) * (n + 1) ≤ span }
    requires sized { length piece.now ≡ 10 + size }
    ensures stored { RangeServes base span (WasOrIs base)
        (λ (x : Storing size n piece.now). Some x.grows.session)
        (λ x. Some (with_record x.grows.session x.fragment)) (F.seen flash.old) (F.seen flash.new)
        result }
    ensures kept { OnOk result (IsKept (F.seen flash.new)) }
{
    let at = base + RECORDS + (10 + size as u32) * n as u32;
    write_synced(flash, at, piece)?;
    let gate = base + RECORD_GATES + n as u32;
    write_synced(flash, gate, &[OPEN])
}

/// Counts a fragment that is only counted: opens count gate `n`.
pub fn count_gate<F: Flash>(flash: &mut F, base: u32, span: u32, n: u16) -> Result<(), Failed>
    requires range { base + span ≤ (F.seen flash.old).room }
    requires long { records_place ≤ span }
    requires gate { n < most_tallies }
    ensures stored { RangeServes base span (WasOrIs base) (λ (x : Tallied n). Some x.session)
        (λ x. Some (with_tally x.session)) (F.seen flash.old) (F.seen flash.new) result }
    ensures kept { OnOk result (IsKept (F.seen flash.new)) }
{
    let place = base + TALLY_GATES + n as u32;
    write_synced(flash, place, &[OPEN])
}
