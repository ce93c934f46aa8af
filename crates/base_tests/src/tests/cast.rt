//! Commands of fragments and groups, as values and as bytes.

use cast_wire::*;
use std::process::Abort;
use std::test::*;
use wire_base::{Direction, Payload, Refusal, Why};

/// The bytes spell the command, and it is written with these bytes again.
fn spells(rt: &impl Abort, port: u8, dir: Direction, bytes: &[u8], cmd: &Cmd) {
    assert!(rt; bytes.len() <= 242 && !bytes.is_empty());
    match read_one(port, dir, bytes, 0) {
        Ok((found, next)) => {
            assert!(rt; found == *cmd);
            assert!(rt; next as usize == bytes.len());
        }
        Err(_) => assert!(rt; false),
    }
    let mut out = Payload::new();
    assert!(rt; valid(cmd));
    assert!(rt; write_one(cmd, &mut out).is_ok());
    assert!(rt; out.as_slice() == bytes);
}

static SETUP_REQUEST: [u8; 11] = [
    0x02, 0x1e, 0x04, 0x01, 0x0d, 0x2b, 0x05, 0x44, 0x33, 0x22, 0x11,
];

static FRAGMENT: [u8; 5] = [0x08, 0x05, 0x80, 0xaa, 0xbb];

#[test]
fn commands_of_fragments_are_spelled_as_the_standard_has_them(rt: HostRuntime) {
    let setup = Cmd::FragSessionSetupReq {
        index: 1,
        mask: 14,
        nb_frag: 0x0104,
        frag_size: 13,
        algo: 5,
        delay: 3,
        padding: 5,
        descriptor: 0x11223344,
    };
    spells(&rt, 201, Direction::Down, &SETUP_REQUEST, &setup);
    let fragment = Cmd::DataFragment {
        index: 2,
        n: 5,
        bytes: FragmentBytes::from_slice(&[0xaa, 0xbb]),
    };
    spells(&rt, 201, Direction::Down, &FRAGMENT, &fragment);
}

#[test]
fn answers_of_fragments_are_spelled_as_the_standard_has_them(rt: HostRuntime) {
    let setup = Cmd::FragSessionSetupAns {
        index: 1,
        wrong_descriptor: true,
        index_unsupported: false,
        no_memory: false,
        encoding_unsupported: true,
    };
    spells(&rt, 201, Direction::Up, &[0x02, 0x49], &setup);
    let status = Cmd::FragSessionStatusAns {
        index: 0,
        received: 4,
        missing: 0,
        norows: false,
    };
    let bytes = [0x01, 0x04, 0x00, 0x00, 0x00];
    spells(&rt, 201, Direction::Up, &bytes, &status);
}

#[test]
fn the_answer_to_a_setup_has_its_bits(rt: HostRuntime) {
    let answer = Cmd::FragSessionSetupAns {
        index: 1,
        wrong_descriptor: true,
        index_unsupported: false,
        no_memory: false,
        encoding_unsupported: true,
    };
    assert!(rt; setup_answer(1, refusal_bits(true, false, false, true)) == answer);
    assert!(rt; FragmentBytes::fits(&[0; 239]) && !FragmentBytes::fits(&[0; 240]));
}

#[test]
fn commands_of_groups_are_spelled_as_the_standard_has_them(rt: HostRuntime) {
    let request = Cmd::McClassCSessionReq {
        id: 0,
        time: 1_010,
        timeout: 0,
        freq: 8_681_000,
        dr: 0,
    };
    let bytes = [
        0x04, 0x00, 0xf2, 0x03, 0x00, 0x00, 0x00, 0x28, 0x76, 0x84, 0x00,
    ];
    spells(&rt, 200, Direction::Down, &bytes, &request);
    let answer = Cmd::McClassCSessionAns {
        id: 0,
        undefined: false,
        freq_error: false,
        dr_error: false,
        start: Some(10),
    };
    let bytes = [0x04, 0x00, 0x0a, 0x00, 0x00];
    spells(&rt, 200, Direction::Up, &bytes, &answer);
    let refusal = Cmd::McClassCSessionAns {
        id: 0,
        undefined: true,
        freq_error: true,
        dr_error: true,
        start: None,
    };
    spells(&rt, 200, Direction::Up, &[0x04, 0x1c], &refusal);
}

#[test]
fn groups_are_listed_as_the_standard_has_them(rt: HostRuntime) {
    let mut groups = GroupList::new();
    groups.push(GroupAddress {
        id: 0,
        addr: 0x11223344,
    });
    groups.push(GroupAddress {
        id: 2,
        addr: 0x55667788,
    });
    let status = Cmd::McGroupStatusAns {
        total: 2,
        mask: 5,
        groups,
    };
    let bytes = [
        0x01, 0x25, 0x00, 0x44, 0x33, 0x22, 0x11, 0x02, 0x88, 0x77, 0x66, 0x55,
    ];
    spells(&rt, 200, Direction::Up, &bytes, &status);
}

/// Where a reading is refused, and why.
fn refused(rt: &impl Abort, port: u8, dir: Direction, bytes: &[u8], at: u16, why: Why) {
    assert!(rt; !bytes.is_empty());
    assert!(rt; read_one(port, dir, bytes, 0) == Err(Refusal { at, why }));
}

#[test]
fn other_bytes_are_refused_at_their_place(rt: HostRuntime) {
    refused(&rt, 204, Direction::Down, &SETUP_REQUEST, 0, Why::Port);
    refused(&rt, 201, Direction::Down, &[0; 243], 242, Why::TooLong);
    refused(&rt, 201, Direction::Up, &FRAGMENT, 0, Why::UnknownCommand);
    refused(&rt, 200, Direction::Down, &FRAGMENT, 0, Why::UnknownCommand);
    refused(
        &rt,
        201,
        Direction::Down,
        &SETUP_REQUEST[..10],
        10,
        Why::Short,
    );
    refused(&rt, 201, Direction::Down, &FRAGMENT[..3], 3, Why::Short);
    refused(&rt, 200, Direction::Up, &[0x04, 0x00, 0x0a], 3, Why::Short);
}
