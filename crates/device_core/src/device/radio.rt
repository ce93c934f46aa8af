//! Multicast frames that the radio heard (LoRaWAN 1.0.x, 4).

ghost use Rattle.std.specs.Prelude.{◌≡◌, ◌≢◌, Some, None};
ghost use Rattle.mc_group.specs.declared.group.Group.{Group};
ghost use Rattle.mc_group.specs.Groups.{group_at};
ghost use Rattle.device_core.specs.SessionTable.{SessionTable};
ghost use Rattle.device_core.specs.Radio.{session_keys, brought, brought_to};

use super::Device;
use flash_session::Flash;
use mc_frames::{FrameFault, Keys, fault_without_group, open};
use mc_group::{Group, GroupTable};
use package_grammar::{Downlink, To};

impl<F: Flash + Drop> Device<F> {
    ghost use Rattle.device_core.specs.HeldDevice.{device_of};

    /// The payload that bytes bring to the group of the class session.
    #[tactic(auto, unfolding(crate::specs::Radio::brought))]
    pub(super) fn brought(&self, bytes: &[u8]) -> Result<Downlink, FrameFault>
        ensures { (table : SessionTable) → result ≡ brought (device_of self.now table) bytes.now }
    {
        match self.class_session {
            None => Err(fault_without_group(bytes)),
            Some(session) => match self.groups.get(session.id) {
                None => Err(fault_without_group(bytes)),
                Some(group) => brought_to(&group, &session_keys(&self.groups, session.id), bytes),
            },
        }
    }
}

/// The session keys of a group that is there.
fn session_keys(groups: &GroupTable, id: u8) -> Keys
    requires { group_at groups.now id ≢ None }
    ensures { (group : Group) → group_at groups.now id ≡ Some group → result ≡ session_keys group }
{
    let (app_s, net_s) = groups.keys(id);
    Keys { app_s, net_s }
}

/// The payload that bytes bring to a group with these keys.
fn brought_to(group: &Group, keys: &Keys, bytes: &[u8]) -> Result<Downlink, FrameFault>
    requires { keys.now ≡ session_keys group.now }
    ensures { result ≡ brought_to (Some group.now) bytes.now }
{
    match open(keys, group.addr, group.min, group.max, bytes) {
        Ok(opened) => Ok(Downlink {
            to: To::Group {
                addr: group.addr,
                count: opened.count,
            },
            port: opened.port,
            payload: opened.payload,
        }),
        Err(fault) => Err(fault),
    }
}
