//! The frames of payloads to the group.

ghost use Rattle.std.specs.Prelude.{◌≡◌, option_map};
ghost use Rattle.campaign_server.specs.Framing.{is_to_group, session_keys};

use crate::plan::PlanGroup;
use mc_frames::Keys;
use mc_keys::{app_s_key, net_s_key};
use package_grammar::To;

/// Says whether a payload is to the plan's group.
pub fn is_to_group(group: Option<PlanGroup>, to: To) -> bool
    ensures { result ≡ is_to_group group to }
{
    match (group, to) {
        (Some(group), To::Group { addr, .. }) => addr == group.addr,
        _ => false,
    }
}

/// Returns the session keys of the plan's group; None where the plan has no group.
pub fn keys_of(group: Option<PlanGroup>) -> Option<Keys>
    ensures { result ≡ option_map session_keys group }
{
    match group {
        Some(group) => Some(session_keys(&group)),
        None => None,
    }
}

/// McAppSKey and McNetSKey of the group.
fn session_keys(group: &PlanGroup) -> Keys
    ensures { result ≡ session_keys group.now }
{
    Keys {
        app_s: app_s_key(&group.key, group.addr),
        net_s: net_s_key(&group.key, group.addr),
    }
}
