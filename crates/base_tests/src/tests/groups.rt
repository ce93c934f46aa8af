//! The groups of a device, their keys and their counts.

use cast_wire::{Cmd, GroupAddress};
use mc_group::{Group, GroupAnswer, GroupEnd, GroupTable};
use mc_keys::RootKind;
use std::process::Abort;
use std::test::*;

static TOLD: [GroupAddress; 2] = [
    GroupAddress {
        id: 0,
        addr: 0x11223344,
    },
    GroupAddress {
        id: 2,
        addr: 0x55667788,
    },
];

/// The answer lists two groups.
fn tells_two(rt: &impl Abort, answer: &Cmd) {
    match answer {
        Cmd::McGroupStatusAns {
            total,
            mask,
            groups,
        } => assert!(rt; *total == 2 && *mask == 5 && groups.as_slice() == TOLD.as_slice()),
        _ => panic!(rt; "another answer"),
    }
}

#[test]
fn groups_are_told_in_rising_order(rt: HostRuntime) {
    let key = [0; 16];
    let mut table = GroupTable::new(4);
    assert!(rt; table.setup(&key, RootKind::V10, 2, 0x55667788, &key, 0, 100) == GroupAnswer::Ok);
    assert!(rt; table.setup(&key, RootKind::V10, 0, 0x11223344, &key, 0, 100) == GroupAnswer::Ok);
    tells_two(&rt, &table.status(15));
}

#[test]
fn groups_end_once(rt: HostRuntime) {
    let key = [0; 16];
    let mut table = GroupTable::new(2);
    assert!(rt; table.setup(&key, RootKind::V10, 0, 0x11223344, &key, 0, 100) == GroupAnswer::Ok);
    assert!(rt; table.delete(1) == GroupEnd::Undefined);
    assert!(rt; table.delete(0) == GroupEnd::Ok);
    assert!(rt; table.setup(&key, RootKind::V10, 3, 0, &key, 0, 100) == GroupAnswer::IdError);
}

/// GenAppKey or AppKey, McKey_encrypted and McKey, computed with the AES of Python's `cryptography`.
static KEYS: [(RootKind, u128, u128, u128); 8] = [
    (
        RootKind::V10,
        0x00000000000000000000000000000000,
        0x873f1241da7a95b1eb59589c7579f5d9,
        0x00000000000000000000000000000000,
    ),
    (
        RootKind::V10,
        0xffffffffffffffffffffffffffffffff,
        0x3af60e6b19fdb262d44b9c325be5bf57,
        0x00112233445566778899aabbccddeeff,
    ),
    (
        RootKind::V10,
        0x000102030405060708090a0b0c0d0e0f,
        0xbee4bb5f2e3fc5d62eafa63e7e047ef5,
        0xffffffffffffffffffffffffffffffff,
    ),
    (
        RootKind::V10,
        0x38b4e652e44da7f2370d9e260e271365,
        0xa5e35079e1c878f467c4c6cf1e56b9f3,
        0x7504d90e945de2e8f54ee781cc75f636,
    ),
    (
        RootKind::V10,
        0x50a4a3a6d07f5c0c332f8b1224083fd2,
        0x13670a11a8df1fd45e2b4b59bc0bfc77,
        0xd85099095aa300165a67036f9b540d6b,
    ),
    (
        RootKind::V10,
        0x2b902f8911e81818f8c99d5d5d983195,
        0x2b38dd49a1994d5a2d34f6a6b0afb956,
        0x8f0be21124179c3dd9f73817ce6e118d,
    ),
    (
        RootKind::V11,
        0x000102030405060708090a0b0c0d0e0f,
        0xb6b715e21b8c2312c3bbe886cebab646,
        0x00112233445566778899aabbccddeeff,
    ),
    (
        RootKind::V11,
        0x38b4e652e44da7f2370d9e260e271365,
        0x59f0e8aa098da7d41b0595b2dbc43fa2,
        0x7504d90e945de2e8f54ee781cc75f636,
    ),
];

/// The group set up has the key.
fn has_key(
    rt: &impl Abort,
    table: &mut GroupTable,
    root: RootKind,
    gen_app_key: u128,
    wrapped: u128,
    key: u128,
) {
    let gen_app_key = gen_app_key.to_be_bytes();
    let wrapped = wrapped.to_be_bytes();
    let answer = table.setup(&gen_app_key, root, 1, 0x11223344, &wrapped, 3, 5);
    assert!(rt; answer == GroupAnswer::Ok);
    let group = Group {
        addr: 0x11223344,
        key: key.to_be_bytes(),
        min: 3,
        max: 5,
    };
    match table.get(1) {
        Some(found) => assert!(rt; found == group),
        None => panic!(rt; "no group"),
    }
}

#[test]
fn a_group_has_the_key_that_another_aes_wrapped(rt: HostRuntime) {
    let mut table = GroupTable::new(2);
    for (root, gen_app_key, wrapped, key) in &KEYS {
        has_key(&rt, &mut table, *root, *gen_app_key, *wrapped, *key);
    }
}

/// The last of them, with id 1; it hears counts 3 and 4.
fn table_of_one(rt: &impl Abort) -> GroupTable {
    let mut table = GroupTable::new(2);
    let key = 0x38b4e652e44da7f2370d9e260e271365u128.to_be_bytes();
    let wrapped = 0x59f0e8aa098da7d41b0595b2dbc43fa2u128.to_be_bytes();
    let answer = table.setup(&key, RootKind::V11, 1, 0x11223344, &wrapped, 3, 5);
    assert!(rt; answer == GroupAnswer::Ok);
    table
}

#[test]
fn a_group_has_the_session_keys_of_another_aes(rt: HostRuntime) {
    let table = table_of_one(&rt);
    assert!(rt; table.get(1).is_some());
    let (app_s_key, net_s_key) = table.keys(1);
    assert!(rt; app_s_key == 0xd718aca417b20310928b370c4d71e137u128.to_be_bytes());
    assert!(rt; net_s_key == 0x19d8d8e0f12f6252d7e0f8687f3f43c2u128.to_be_bytes());
}

/// Group, address and count of a frame, and whether it is heard.
static COUNTS: [(u8, u32, u32, bool); 7] = [
    (1, 0x11223344, 2, false),
    (1, 0x11223344, 3, true),
    (1, 0x11223344, 4, true),
    (1, 0x11223344, 5, false),
    (1, 0x11223345, 3, false),
    (0, 0x11223344, 3, false),
    (2, 0x11223344, 3, false),
];

#[test]
fn a_group_hears_its_counts(rt: HostRuntime) {
    let table = table_of_one(&rt);
    for (id, addr, count, heard) in &COUNTS {
        assert!(rt; table.accepts(*id, *addr, *count) == *heard);
    }
}
