//! The answer to FragSessionStatusReq (TS004-1.0.0).

ghost use Rattle.std.specs.Prelude.{◌≡◌, IfSome};
ghost use Rattle.frag_session.specs.Session.{status_by, status_in, is_overflow};
ghost use Rattle.frag_session.specs.HeldView.{seen};

use crate::answers::{StatusAns, Verdict, Via, View};
use crate::dropping::excludes;
use crate::setups::SetupReq;

/// Answers for a session with this setup, of which this is seen.
#[tactic(auto, unfolding(crate::specs::Session::status_in, crate::specs::HeldView::seen))]
pub fn status_in(setup: SetupReq, view: &View, via: Via, all: bool) -> Option<StatusAns>
    ensures answer { result ≡ status_in setup (seen view.now) via all }
    ensures received { IfSome result (λ a. a.received ≡ view.now.received) }
{
    if excludes(setup.mask, via) || !all && view.missing == 0 {
        return None;
    }
    Some(status(view, setup.delay))
}

/// The status of what is seen.
#[tactic(auto, unfolding(crate::specs::Session::status_by, crate::specs::HeldView::seen))]
fn status(view: &View, delay: u8) -> StatusAns
    ensures answer { result ≡ status_by (seen view.now) delay }
    ensures received { result.received ≡ view.now.received }
{
    StatusAns {
        received: view.received,
        missing: view.missing.min(255) as u8,
        norows: is_overflow(view.verdict),
        delay,
    }
}

/// Whether there were too few rows.
fn is_overflow(verdict: Verdict) -> bool
    ensures { result ≡ is_overflow verdict }
{
    match verdict {
        Verdict::NoRows(_) => true,
        _ => false,
    }
}
