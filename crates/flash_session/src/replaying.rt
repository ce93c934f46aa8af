//! The records of a session are heard again when it is opened.

ghost use Rattle.std.specs.Prelude.{◌≡◌, ◌≢◌, ◌+◌, ◌*◌, ◌≤◌, [], Some, true, false, MatchOption};
ghost use Rattle.std.specs.Bool.{MatchBool};
ghost use Rattle.flash_session.specs.Serving.{FlashReads};
ghost use Rattle.frag_session.specs.Session.{Session};
ghost use Rattle.frag_session.specs.HeldHistory.{Stands};
ghost use Rattle.frag_session.specs.HeldSteps.{extent_of};
ghost use Rattle.flash_session.specs.Layout.{records_place};
ghost use Rattle.flash_session.specs.Replayed.{Replayed, StopsAt};

use crate::flash::{Failed, Flash};
use crate::layout::RECORDS;
use crate::reading::read_record;
use frag_session::{Heard, News, Slot, Via};

/// Hears the first `records` records of a session again. Returns the first of them that is dropped or not new.
pub fn replay<F: Flash, const W: usize, const B: usize>(
    flash: &mut F,
    base: u32,
    size: u8,
    records: u16,
    slot: &mut Slot<W, B>,
) -> Result<Option<u16>, Failed>
    requires { base + records_place + (10 + size) * records ≤ (F.seen flash.old).room }
    ensures replayed { FlashReads
        (λ o holds. (s : Session) → s.heard ≡ [] → Stands slot.old (Some s)
        → MatchOption o (Replayed s slot.new holds base size records)
        (λ k. (k + 1 ≤ records) × StopsAt s holds base size k))
        (F.seen flash.old) (F.seen flash.new) result }
    ensures extent { extent_of slot.new ≡ extent_of slot.old }
{
    for k in 0..records {
        if !replay_one(flash, base, size, k, slot)? {
            return Ok(Some(k));
        }
    }
    Ok(None)
}

/// Hears record `k` again, and says whether it was new.
fn replay_one<F: Flash, const W: usize, const B: usize>(
    flash: &mut F,
    base: u32,
    size: u8,
    k: u16,
    slot: &mut Slot<W, B>,
) -> Result<bool, Failed>
    requires { base + records_place + (10 + size) * (k + 1) ≤ (F.seen flash.old).room }
    ensures replayed { FlashReads
        (λ new holds. (s : Session) → Replayed s slot.old (F.seen flash.old).holds base size k
        → MatchBool new (Replayed s slot.new holds base size (k + 1)) (StopsAt s holds base size k))
        (F.seen flash.old) (F.seen flash.new) result }
    ensures extent { extent_of slot.new ≡ extent_of slot.old }
{
    let mut bytes = [0; 255];
    let part = &mut bytes[..size as usize];
    let at = base + RECORDS + (10 + size as u32) * k as u32;
    let (n, mark) = read_record(flash, at, part)?;
    let heard = slot.fragment(Via::Unicast, n, part, mark);
    Ok(is_new(heard))
}

/// Says whether a fragment was heard and new.
fn is_new(heard: Heard) -> bool
    ensures yes { result ≡ true → heard ≡ Heard.Fed News.New }
    ensures no { result ≡ false → heard ≢ Heard.Fed News.New }
{
    match heard {
        Heard::Fed(News::New) => true,
        Heard::Fed(News::Old) => false,
        Heard::Dropped(_) => false,
    }
}
