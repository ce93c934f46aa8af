//! What a server has to do.

ghost use Rattle.std.specs.Prelude.{◌≡◌, ◌≤◌};
ghost use Rattle.campaign_server.specs.Plan.{own_id, max_index};
ghost use Rattle.campaign_server.specs.ServerInside.{GroupFits};

use mc_keys::RootKind;
use std::marker::Model;

/// A multicast group of a campaign (TS005-1.0.0, McGroupSetupReq). It has no text, so that its key gets into no log.
#[derive(Clone, Copy)]
pub struct PlanGroup {
    /// McGroupID, 0 to 3, the same on every device.
    pub id: u8,
    /// McAddr.
    pub addr: u32,
    /// McKey.
    pub key: [u8; 16],
    /// The first frame count that is used, below `max`.
    pub min: u32,
    /// The first frame count that isn't used any more.
    pub max: u32,
}

/// The class of a campaign's session.
#[derive(Clone, Copy, Debug, PartialEq, Eq)]
pub enum Kind {
    C,
    B {
        /// Periodicity of the ping slots, 0 to 7.
        periodicity: u8,
    },
}

/// When the group is heard (TS005-1.0.0, McClassCSessionReq and McClassBSessionReq).
#[derive(Clone, Copy, Debug)]
pub struct PlanWindow {
    pub kind: Kind,
    /// SessionTime, in seconds of the devices' clocks.
    pub start: u32,
    /// TimeOut, 0 to 15: the session lasts 2^timeout s in class C, and 2^timeout beacon periods of 128 s in class B.
    pub timeout: u8,
    /// DLFrequ, in units of 100 Hz, below 2^24.
    pub freq: u32,
    /// DR.
    pub dr: u8,
}

/// A device of a campaign. It has no text, so that its key gets into no log.
#[derive(Clone, Copy)]
pub struct PlanDevice {
    /// GenAppKey, or AppKey where `root` is `V11`.
    pub key: [u8; 16],
    /// The version of LoRaWAN by which the root key of multicast keys is made from `key`.
    pub root: RootKind,
}

/// What a server has to do: how the image is cut, how many coded fragments follow, the index of its session, the group and its
/// window, or neither, and the devices, numbered from 1 in this order.
#[derive(Drop)]
pub struct Plan {
    /// Bytes of a fragment, FragSize, 1 to 239.
    pub frag_size: u8,
    /// The number of coded fragments, 0 to 512.
    pub parity: u16,
    /// FragIndex of its session, 0 to 3, the same on every device.
    pub index: u8,
    /// The group, or None for a campaign by unicast.
    pub group: Option<PlanGroup>,
    /// The group's window; None exactly without a group.
    pub window: Option<PlanWindow>,
    /// The devices, 1 to 64.
    pub devices: Vec<PlanDevice>,
}

impl Model for Plan {
    ghost use Rattle.campaign_server.specs.Plan.{Plan};

    ghost Value = { Plan };

    ghost view = { λ p. record { frag_size = p.frag_size; parity = p.parity; index = p.index; group = p.group; window = p.window; devices = p.devices.items } };
}

/// The id of the group that there is.
pub(crate) fn own_id(group: Option<PlanGroup>) -> u8
    ensures id { result ≡ own_id group }
    ensures few { GroupFits group → result ≤ max_index }
{
    match group {
        Some(group) => group.id,
        None => 0,
    }
}

/// A field of a plan that is wrong.
#[derive(Clone, Copy, Debug, PartialEq, Eq)]
pub enum Field {
    /// The bytes of a fragment are not 1 to 239, or cut the image into more than 4,096 fragments.
    FragSize,
    /// There are more than 512 coded fragments.
    Parity,
    /// The index of its session is above 3.
    Index,
    /// The group's id is above 3, or its `min` isn't below its `max`.
    Group,
    /// There is a window without a group or a group without one, or a field of the window doesn't fit its bits.
    Window,
    /// There are no devices, or more than 64.
    Devices,
}
