//! Which fragments a session drops, and why (TS004-1.0.0, DataFragment).

ghost use Rattle.std.specs.Prelude.{◌≡◌};
ghost use Rattle.frag_session.specs.Session.{excludes, cause_of};
ghost use Rattle.frag_session.specs.HeldSteps.{slot_cause};

use crate::answers::{Cause, Via};
use crate::setups::SetupReq;
use frag_model::lines::MAX_PARITY_INDEX;

/// Returns the first cause for which a fragment is dropped.
#[tactic(auto, unfolding(crate::specs::HeldSteps::slot_cause))]
pub fn dropped(session: Option<SetupReq>, via: Via, n: u16, part: &[u8]) -> Option<Cause>
    ensures { result ≡ slot_cause session via n part.now }
{
    match session {
        None => Some(Cause::NoSession),
        Some(setup) => cause(setup, via, n, part),
    }
}

/// The first cause for which a session with this setup drops a fragment.
#[tactic(auto, unfolding(crate::specs::Session::cause_of))]
fn cause(setup: SetupReq, via: Via, n: u16, part: &[u8]) -> Option<Cause>
    ensures { result ≡ cause_of setup via n part.now }
{
    if excludes(setup.mask, via) {
        Some(Cause::Group)
    } else if n == 0 || u32::from(n) > u32::from(setup.nb_frag) + u32::from(MAX_PARITY_INDEX) {
        Some(Cause::Index)
    } else if part.len() != setup.frag_size as usize {
        Some(Cause::Size)
    } else {
        None
    }
}

/// Says whether a mask keeps out what came this way.
#[tactic(auto, unfolding(crate::specs::Session::excludes))]
pub fn excludes(mask: u8, via: Via) -> bool
    ensures { result ≡ excludes mask via }
{
    match via {
        Via::Unicast => false,
        Via::Group(group) => group >= 8 || mask >> group & 1 == 0,
    }
}
