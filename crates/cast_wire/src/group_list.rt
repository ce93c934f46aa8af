//! The groups that exist, as a McGroupStatusAns lists them.

ghost use Rattle.std.specs.Prelude.{◌≡◌, ◌<◌, ◌≤◌, [], ◌∷◌, ◌++◌, length};
ghost use Rattle.cast_wire.specs.Limits.{max_groups};

use arrayvec::ArrayVec;
use std::marker::Model;

/// The most groups that a device has (TS005-1.0.0).
pub const MAX_GROUPS: usize = 4;

/// A group that exists, and its address (TS005-1.0.0, McGroupStatusAns).
#[derive(Clone, Copy, Debug, Default, PartialEq, Eq)]
pub struct GroupAddress {
    /// McGroupID, 0 to 3.
    pub id: u8,
    /// McAddr.
    pub addr: u32,
}

/// At most `MAX_GROUPS` groups, held in the value itself. Contracts see their list.
#[derive(Debug, Drop, PartialEq)]
pub struct GroupList {
    groups: ArrayVec<GroupAddress, MAX_GROUPS>,
}

impl Model for GroupList {
    ghost use Rattle.std.specs.Prelude.{List, ◌≤◌, length};
    ghost use Rattle.cast_wire.specs.Limits.{max_groups};
    ghost use Rattle.cast_wire.specs.declared.group_list.GroupAddress.{GroupAddress};

    ghost Value = { List GroupAddress };

    ghost view = { λ l. l.groups.items };

    ghost invariant = { λ l. length l.groups.items ≤ max_groups };

    ghost inverse = { λ groups. record { groups = record { items = groups } } };
}

impl GroupList {
    /// Makes a list without groups.
    pub fn new() -> Self
        ensures { result ≡ [] }
    {
        GroupList {
            groups: ArrayVec::new(),
        }
    }

    /// Puts a group at the end.
    pub fn push(&mut self, group: GroupAddress)
        requires { length self.old < max_groups }
        ensures { self.new ≡ self.old ++ group ∷ [] }
    {
        self.groups.push(group);
    }

    /// Returns the groups.
    pub fn as_slice(&self) -> &[GroupAddress]
        ensures value { result.now ≡ self.now }
        ensures within { length result.now ≤ max_groups }
    {
        self.groups.as_slice()
    }
}
