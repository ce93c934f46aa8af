//! The groups of a device, by their ids.

ghost use Rattle.std.specs.Prelude.{◌≡◌, ◌≢◌, ◌↔◌, ◌<◌, ◌≤◌, ℕ, length, replicate, Option, None, Some, IsTrue, is_some, count_by, slice_set, option_map};
ghost use Rattle.cast_wire.specs.Table.{IsValid};
ghost use Rattle.mc_group.specs.Groups.{max_groups, group_at, group_of, group_app_s_key, group_net_s_key, is_for, answer_for, status_answer};

use crate::group::Group;
use arrayvec::ArrayVec;
use cast_wire::{Cmd, GroupAddress, GroupList, MAX_GROUPS};
use mc_keys::{Key, RootKind, app_s_key, kek, net_s_key, unwrap_key};
use std::marker::Model;

/// The answer to a McGroupSetupReq (TS005-1.0.0).
#[derive(Clone, Copy, Debug, PartialEq, Eq)]
pub enum GroupAnswer {
    /// The group is there.
    Ok,
    /// IDerror: the id isn't configured.
    IdError,
}

/// The answer to a McGroupDeleteReq (TS005-1.0.0).
#[derive(Clone, Copy, Debug, PartialEq, Eq)]
pub enum GroupEnd {
    /// The group is deleted.
    Ok,
    /// McGroupUndefined: there was none.
    Undefined,
}

/// The session keys of a group: McAppSKey and McNetSKey.
#[derive(Clone, Copy)]
struct SessionKeys {
    app_s: Key,
    net_s: Key,
}

/// The groups of a device. Contracts see the list of places, one for each id that is configured. It has no text, like a group.
#[derive(Drop)]
pub struct GroupTable {
    places: ArrayVec<Option<Group>, MAX_GROUPS>,
    /// Those of the group at each place, derived when it is set up, not for each of its frames.
    keys: [SessionKeys; MAX_GROUPS],
}

impl Model for GroupTable {
    ghost use Rattle.std.specs.Prelude.{List, Option};
    ghost use Rattle.mc_group.specs.declared.group.Group.{Group};
    ghost use Rattle.mc_group.specs.TableInside.{IsTable};

    ghost Value = { List (Option Group) };

    ghost view = { λ t. t.places.items };

    ghost invariant = { λ t. IsTable t.places.items t.keys };
}

impl GroupTable {
    /// Makes a table for the ids below `number`, at most 4, without groups; it takes no memory.
    pub fn new(number: u8) -> Self
        requires { number ≤ max_groups }
        ensures { result ≡ replicate number None }
    {
        let mut places = ArrayVec::new();
        for _ in 0..number {
            places.push(None);
        }
        let none = SessionKeys {
            app_s: [0; 16],
            net_s: [0; 16],
        };
        GroupTable {
            places,
            keys: [none; MAX_GROUPS],
        }
    }

    /// Takes a McGroupSetupReq: a group of frame counts from `min` to below `max` replaces what the id had; `IdError`, with
    /// nothing changed, where the id isn't configured. `gen_app_key` is the device's GenAppKey or, where that makes the root key,
    /// its AppKey.
    pub fn setup(
        &mut self,
        gen_app_key: &Key,
        root: RootKind,
        id: u8,
        addr: u32,
        wrapped: &Key,
        min: u32,
        max: u32,
    ) -> GroupAnswer
        ensures id_error { (result ≡ GroupAnswer.IdError) ↔ (length self.old ≤ id) }
        ensures ok { result ≡ GroupAnswer.Ok → self.new ≡ slice_set self.old id
            (Some (group_of gen_app_key.now root addr wrapped.now min max)) }
        ensures refused { result ≡ GroupAnswer.IdError → self.new ≡ self.old }
    {
        if id as usize >= self.places.len() {
            return GroupAnswer::IdError;
        }
        let key = unwrap_key(&kek(&mc_keys::root(root, gen_app_key)), wrapped);
        self.put(
            id,
            Some(Group {
                addr,
                key,
                min,
                max,
            }),
        );
        GroupAnswer::Ok
    }

    /// Replaces what an id has by a group or none; the id must be configured. The group's key is unwrapped, as `get` returns it.
    pub fn put(&mut self, id: u8, group: Option<Group>)
        requires { id < length self.old }
        ensures { self.new ≡ slice_set self.old id group }
    {
        let id = id as usize;
        self.places[id] = group;
        if let Some(group) = group {
            self.keys[id] = SessionKeys {
                app_s: app_s_key(&group.key, group.addr),
                net_s: net_s_key(&group.key, group.addr),
            };
        }
    }

    /// Takes a McGroupDeleteReq: deletes the group of an id; `Undefined` where it has none.
    pub fn delete(&mut self, id: u8) -> GroupEnd
        ensures undefined { (result ≡ GroupEnd.Undefined) ↔ (group_at self.old id ≡ None) }
        ensures ok { result ≡ GroupEnd.Ok → self.new ≡ slice_set self.old id None }
        ensures refused { result ≡ GroupEnd.Undefined → self.new ≡ self.old }
    {
        if self.get(id).is_none() {
            return GroupEnd::Undefined;
        }
        self.places[id as usize] = None;
        GroupEnd::Ok
    }

    /// Returns the group of an id; None where the id is not configured or has none.
    pub fn get(&self, id: u8) -> Option<Group>
        ensures { result ≡ group_at self.now id }
    {
        if id as usize >= self.places.len() {
            return None;
        }
        self.places[id as usize]
    }

    /// Returns McAppSKey and McNetSKey of the group of an id, which must be there.
    pub fn keys(&self, id: u8) -> (Key, Key)
        requires { group_at self.now id ≢ None }
        ensures app_s { Some result.0 ≡ option_map group_app_s_key (group_at self.now id) }
        ensures net_s { Some result.1 ≡ option_map group_net_s_key (group_at self.now id) }
    {
        let keys = &self.keys[id as usize];
        (keys.app_s, keys.net_s)
    }

    /// Says whether a frame is for the group of an id: it is there with that McAddr, and the frame count is within its range.
    pub fn accepts(&self, id: u8, addr: u32, count: u32) -> bool
        ensures { result ≡ is_for (group_at self.now id) addr count }
    {
        match self.get(id) {
            None => false,
            Some(group) => group.addr == addr && group.min <= count && count < group.max,
        }
    }

    /// Makes the McGroupStatusAns for the groups whose bits are set in a mask, in rising order of their ids.
    pub fn status(&self, mask: u8) -> Cmd<'static>
        ensures value { result ≡ status_answer self.now mask }
        ensures valid { IsValid result }
    {
        let mut answered = 0u8;
        let mut groups = GroupList::new();
        for id in 0..4 {
            if let Some(group) = self.answer_for(mask, id) {
                answered += 1 << id;
                groups.push(group);
            }
        }
        Cmd::McGroupStatusAns {
            total: self.count(),
            mask: answered,
            groups,
        }
    }

    fn answer_for(&self, mask: u8, id: u8) -> Option<GroupAddress>
        requires { id < 8 }
        ensures { result ≡ answer_for self.now mask id }
    {
        if mask >> id & 1 == 0 {
            return None;
        }
        self.get(id).map(|group| GroupAddress {
            id,
            addr: group.addr,
        })
    }

    fn count(&self) -> u8
        ensures value { result ≡ count_by is_some self.now }
        ensures few { result ≤ max_groups }
    {
        self.places.iter().filter(|place| place.is_some()).count() as u8
    }
}
