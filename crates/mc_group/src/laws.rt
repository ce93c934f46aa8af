//! What a server and a device do together.

ghost use Rattle.std.specs.Prelude.{◌≡◌, ◌<◌, length, Some};
ghost use Rattle.mc_group.specs.Groups.{group_at};
ghost use Rattle.mc_group.specs.WorkedGroups.{WorkedGroups, WorkedSetup};

use crate::group::Group;
use crate::table::GroupTable;
use mc_keys::{Key, RootKind, kek, wrap_key};

/// The key that is wrapped for a device is the one that its table holds after the setup, by either kind of root key.
pub fn the_wrapped_key_is_held(
    table: &mut GroupTable,
    gen_app_key: &Key,
    root: RootKind,
    id: u8,
    group: &Group,
)
    requires { id < length table.old }
    ensures { group_at table.new id ≡ Some group.now }
{
    let wrapped = wrap_key(&kek(&mc_keys::root(root, gen_app_key)), &group.key);
    table.setup(
        gen_app_key,
        root,
        id,
        group.addr,
        &wrapped,
        group.min,
        group.max,
    );
}

/// Groups, the frames that are for them, and their states, worked out.
pub fn worked_groups()
    ensures groups { WorkedGroups }
    ensures setup { WorkedSetup }
{}
