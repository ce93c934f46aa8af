//! A session in flash is opened.

ghost use Rattle.std.specs.Prelude.{◌≡◌, ℕ, ◌+◌, ◌≤◌, List, Option, None, IfErr, MatchResult};
ghost use Rattle.flash_session.specs.HeldCalls.{HeldOpened};
ghost use Rattle.flash_session.specs.Layout.{records_place};
ghost use Rattle.flash_session.specs.Opening.{IsFirstForeign};
ghost use Rattle.flash_session.specs.Replayed.{place_in, IsPlaceOf};
ghost use Rattle.flash_session.specs.Serving.{FlashOpens};
ghost use Rattle.flash_session.specs.Sessions.{HeldStandsAs, IsHeldAs, LiesForAs};
ghost use Rattle.frag_session.specs.Session.{Session};

use super::Held;
use crate::fault::OpenFault;
use crate::finding::find;
use crate::flash::Flash;
use frag_session::{Idle, Limits, Slot};

impl<const W: usize, const B: usize> Held<W, B> {
    /// Opens the `span` bytes from `base`: with the session that is stored there, or with none. `Foreign` comes exactly where the
    /// header's gate is open and something there is no session's, and names the lowest such place.
    pub fn open<F: Flash>(
        flash: &mut F,
        base: u32,
        span: u32,
        idle: Idle<W, B>,
        limits: Limits,
    ) -> Result<Held<W, B>, (Idle<W, B>, OpenFault)>
        requires range { base + span ≤ (F.seen flash.old).room }
        requires long { records_place ≤ span }
        // The content that any call leaves for a session at any moment opens for that session.
        ensures opened { (o : Option Session) (b : List ℕ) → (F.seen flash.new).holds b
            → LiesForAs (place_in W B base span limits idle.entry) o b
            → MatchResult result (λ h. IsHeldAs h o (F.seen flash.new))
            (λ e. e.1 ≡ OpenFault.Flash) }
        ensures opens { FlashOpens (λ e. e.1) (HeldOpened W B base span limits idle.entry)
            (IsFirstForeign (place_in W B base span limits idle.entry))
            (F.seen flash.old) (F.seen flash.new) result }
        ensures area { IfErr result (λ e. e.0 ≡ idle.entry) }
    {
        let mut slot = Slot::new(idle);
        match find(flash, base, span, limits, &mut slot) {
            Err(fault) => Err((slot.end(), fault)),
            Ok(None) => Ok(Held {
                slot,
                limits,
                base,
                span,
                records: 0,
                tallies: 0,
            }),
            Ok(Some(counts)) => Ok(Held {
                slot,
                limits,
                base,
                span,
                records: counts.records,
                tallies: counts.tallies,
            }),
        }
    }

    /// Makes a place of which nothing is known, whatever is in its range: memory for a session, until the range is opened.
    pub fn unopened(base: u32, span: u32, idle: Idle<W, B>, limits: Limits) -> Held<W, B>
        requires long { records_place ≤ span }
        ensures none { HeldStandsAs result None }
        ensures place { IsPlaceOf result W B base span limits idle.entry }
    {
        Held {
            slot: Slot::new(idle),
            limits,
            base,
            span,
            records: 0,
            tallies: 0,
        }
    }
}
