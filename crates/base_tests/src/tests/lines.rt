//! Lines of a script, and a stream of them in pieces.

use arrayvec::ArrayVec;
use script_lines::{
    Campaign, Class, Cut, DeviceLine, Form, HexBytes, Lines, form, in_range, pair_form,
};
use std::alloc::Global;
use std::process::Abort;
use std::test::*;

/// Lines, the form that each spells in Rust's words, and whether its numbers are in their ranges.
static FORMS: [(&str, &str, bool); 22] = [
    ("fuota 1", "Some(Header)", true),
    (
        "image 13 4",
        "Some(Image { frag_size: 13, parity: 4, index: 0 })",
        true,
    ),
    (
        "image 240 4",
        "Some(Image { frag_size: 240, parity: 4, index: 0 })",
        false,
    ),
    (
        "image 0 4",
        "Some(Image { frag_size: 0, parity: 4, index: 0 })",
        false,
    ),
    (
        "image 13 513",
        "Some(Image { frag_size: 13, parity: 513, index: 0 })",
        false,
    ),
    ("at 4294967295999", "Some(At { time: 4294967295999 })", true),
    (
        "at 4294967296000",
        "Some(At { time: 4294967296000 })",
        false,
    ),
    (
        "at 18446744073709551616",
        "Some(At { time: 18446744073709551615 })",
        false,
    ),
    ("wake 7", "Some(Wake { device: 7 })", true),
    ("migrate 7", "Some(Migrate { device: 7 })", true),
    ("power 7", "Some(Power { device: 7 })", true),
    ("ask 0", "Some(Ask { device: 0 })", true),
    ("frag", "Some(Frag)", true),
    ("status", "Some(Status)", true),
    (
        "down 3 1",
        "Some(Down { number: 3, device: 1, word: 0 })",
        true,
    ),
    (
        "down 3 1 20",
        "Some(Down { number: 3, device: 1, word: 20 })",
        true,
    ),
    (
        "down 3 1 4294967296",
        "Some(Down { number: 3, device: 1, word: 4294967296 })",
        false,
    ),
    ("up 2", "Some(Up { number: 2 })", true),
    ("end", "Some(End)", true),
    (
        "air 3 1",
        "Some(Air { number: 3, device: 1, word: 0 })",
        true,
    ),
    (
        "air 3 1 7",
        "Some(Air { number: 3, device: 1, word: 7 })",
        true,
    ),
    (
        "air 3 1 4294967296",
        "Some(Air { number: 3, device: 1, word: 4294967296 })",
        false,
    ),
];

#[test]
fn lines_spell_their_forms(rt: HostRuntime) {
    for (line, words, ranged) in &FORMS {
        spells(&rt, rt.alloc(), line, words);
        assert!(rt; is_in_range(line) == *ranged);
    }
}

/// A line spells a form that is this in Rust's words.
fn spells(rt: &impl Abort, alloc: Global, line: &str, words: &str) {
    let found = form(line.as_bytes());
    match format!(in alloc; "{found:?}") {
        Ok(spelled) => {
            assert!(rt; spelled.as_str() == words);
            drop(spelled);
        }
        Err(_) => panic!(rt; "no memory"),
    }
}

fn is_in_range(line: &str) -> bool {
    match form(line.as_bytes()) {
        Some(spelled) => in_range(&spelled),
        None => false,
    }
}

/// Keys, addresses and descriptors are hex digits of either case; CLASS is `a` or `c`.
static HEX_FORMS: [(&str, &str); 3] = [
    (
        "group 11223344 000102030405060708090A0B0c0d0e0f 0 10",
        "Some(Group { id: 0, addr: 287454020, key: [0, 1, 2, 3, 4, 5, 6, 7, 8, 9, 10, 11, 12, 13, 14, 15], min: 0, max: 10 })",
    ),
    (
        "device 1 a 2 64 5 00000000000000000000000000000000 00000002",
        "Some(Device(DeviceLine { id: 1, class: A, hw: 2, rows: 64, offset: 5, key: [0, 0, 0, 0, 0, 0, 0, 0, 0, 0, 0, 0, 0, 0, 0, 0], descriptor: Some(2), v1: false, k11: false, flash: false }))",
    ),
    (
        "window b 1000 7 15 8695250 255",
        "Some(WindowB { start: 1000, periodicity: 7, timeout: 15, freq: 8695250, dr: 255 })",
    ),
];

#[test]
fn hex_words_are_read(rt: HostRuntime) {
    for (line, words) in &HEX_FORMS {
        spells(&rt, rt.alloc(), line, words);
    }
}

/// Lines that spell no form.
static NONE: [&str; 58] = [
    "fuota 2",
    "fuota 01",
    "end ",
    "end\r",
    "End",
    "down  3 1",
    "up -1",
    "at +1",
    "at 007",
    "power",
    "power 1 1",
    "power -1",
    "migrate 01",
    "migrate 1 ",
    "migrate1",
    "frag ",
    "status ",
    "",
    "device 1 b 2 64 5 00000000000000000000000000000000",
    "device 1 c 2 64 5 0000000000000000000000000000000",
    "group 1122334 00000000000000000000000000000000 0 10",
    "window c 1000 0 8695250",
    "window c 1000 7 0 8695250 0",
    // the last words of a device's line
    "device 1 c 2 3 4 k11",
    "device 1 c 2 3 4 00000000000000000000000000000000 k11 v1",
    "device 1 c 2 3 4 00000000000000000000000000000000 k11 k11",
    "device 1 c 2 3 4 00000000000000000000000000000000 k11 0000000a",
    "device 1 c 2 3 4 00000000000000000000000000000000 0000000a k11 v1",
    "device 1 c 2 3 4 00000000000000000000000000000000 0000000a v1 k11 k11",
    "device 1 c 2 3 4 00000000000000000000000000000000 k10",
    "device 1 c 2 3 4 00000000000000000000000000000000 K11",
    "device 1 c 2 3 4 00000000000000000000000000000000 k11 ",
    "device 1 c 2 3 4 flash",
    "device 1 c 2 3 4 00000000000000000000000000000000 flash k11",
    "device 1 c 2 3 4 00000000000000000000000000000000 flash v1",
    "device 1 c 2 3 4 00000000000000000000000000000000 flash 0000000a",
    "device 1 c 2 3 4 00000000000000000000000000000000 flash flash",
    "device 1 c 2 3 4 00000000000000000000000000000000 Flash",
    // anybody's payloads
    "raw 1 201",
    "raw 1 201 ",
    "raw 1 201  0",
    "raw 1 201 080",
    "raw 1 201 0x",
    "raw 1 201 --",
    "raw 1 201 -1",
    "raw 1 -1 00",
    "raw 1 201 00 00",
    "raw 1 201 00 -",
    "raw 1 201 00 0 0",
    "Raw 1 201 00",
    // frames and bytes of the air
    "air 3",
    "air 3 1 0 0",
    "air -3 1",
    "Air 3 1",
    "rawair 1",
    "rawair 1 600",
    "rawair 1 60 0 0",
    "rawair 1 201 60",
];

#[test]
fn other_lines_spell_no_form(rt: HostRuntime) {
    for line in &NONE {
        assert!(rt; form(line.as_bytes()).is_none());
    }
}

/// Lines of two campaigns' script, the campaign that each names, and the line of one campaign that has its form.
static PAIRS: [(&str, Option<Campaign>, &str); 12] = [
    ("at 5", None, "at 5"),
    ("wake 7", None, "wake 7"),
    ("ask 7", None, "ask 7"),
    ("migrate 7", None, "migrate 7"),
    ("power 7", None, "power 7"),
    ("frag a", Some(Campaign::A), "frag"),
    ("status b", Some(Campaign::B), "status"),
    ("down a3 7", Some(Campaign::A), "down 3 7"),
    ("down b3 7 12", Some(Campaign::B), "down 3 7 12"),
    ("air b3 7", Some(Campaign::B), "air 3 7"),
    ("up a12", Some(Campaign::A), "up 12"),
    ("end", None, "end"),
];

#[test]
fn lines_of_two_campaigns_spell_those_of_one(rt: HostRuntime) {
    for (line, campaign, alone) in &PAIRS {
        match pair_form(line.as_bytes()) {
            Some(found) => {
                assert!(rt; found.campaign == *campaign);
                let spelled = Some(found.form);
                match format!(in rt.alloc(); "{spelled:?}") {
                    Ok(words) => {
                        spells(&rt, rt.alloc(), alone, words.as_str());
                        drop(words);
                    }
                    Err(_) => panic!(rt; "no memory"),
                }
            }
            None => panic!(rt; "no form"),
        }
    }
}

/// Lines that spell no form in two campaigns' script.
static NO_PAIRS: [&str; 24] = [
    "migrate 01",
    "migrate 1 ",
    "migrate a 1",
    "power a1",
    "at a1",
    "frag",
    "frag ",
    "frag a ",
    "frag c",
    "frag ab",
    "frag a b",
    "status b x",
    "status",
    "down 1 2",
    "down a1 2 ",
    "down a 2",
    "down a 1 2",
    "down c1 2",
    "down a01 2",
    "down A1 2",
    "air c1 2",
    "up a01",
    "up a",
    "up a 1",
];

#[test]
fn other_lines_of_two_campaigns_spell_no_form(rt: HostRuntime) {
    for line in &NO_PAIRS {
        assert!(rt; pair_form(line.as_bytes()).is_none());
    }
}

/// A line of a device, and what comes after the key: its descriptor, and whether `v1`, `k11` and `flash` are there.
struct Tail<'a> {
    line: &'a str,
    descriptor: Option<u32>,
    v1: bool,
    k11: bool,
    flash: bool,
}

/// Whether the line is device 1 with the key 0 and this after it.
fn is_device(tail: &Tail) -> bool {
    match form(tail.line.as_bytes()) {
        Some(Form::Device(line)) => {
            let told = DeviceLine {
                id: 1,
                class: Class::C,
                hw: 2,
                rows: 3,
                offset: 4,
                key: [0; 16],
                descriptor: tail.descriptor,
                v1: tail.v1,
                k11: tail.k11,
                flash: tail.flash,
            };
            line == told
        }
        _ => false,
    }
}

/// `k11` comes after `v1` where that is there, and `flash` last.
static TAILS: [Tail<'static>; 10] = [
    Tail {
        line: "device 1 c 2 3 4 00000000000000000000000000000000",
        descriptor: None,
        v1: false,
        k11: false,
        flash: false,
    },
    Tail {
        line: "device 1 c 2 3 4 00000000000000000000000000000000 k11",
        descriptor: None,
        v1: false,
        k11: true,
        flash: false,
    },
    Tail {
        line: "device 1 c 2 3 4 00000000000000000000000000000000 v1",
        descriptor: None,
        v1: true,
        k11: false,
        flash: false,
    },
    Tail {
        line: "device 1 c 2 3 4 00000000000000000000000000000000 v1 k11",
        descriptor: None,
        v1: true,
        k11: true,
        flash: false,
    },
    Tail {
        line: "device 1 c 2 3 4 00000000000000000000000000000000 0000000a k11",
        descriptor: Some(10),
        v1: false,
        k11: true,
        flash: false,
    },
    Tail {
        line: "device 1 c 2 3 4 00000000000000000000000000000000 0000000a v1 k11",
        descriptor: Some(10),
        v1: true,
        k11: true,
        flash: false,
    },
    Tail {
        line: "device 1 c 2 3 4 00000000000000000000000000000000 flash",
        descriptor: None,
        v1: false,
        k11: false,
        flash: true,
    },
    Tail {
        line: "device 1 c 2 3 4 00000000000000000000000000000000 0000000a flash",
        descriptor: Some(10),
        v1: false,
        k11: false,
        flash: true,
    },
    Tail {
        line: "device 1 c 2 3 4 00000000000000000000000000000000 k11 flash",
        descriptor: None,
        v1: false,
        k11: true,
        flash: true,
    },
    Tail {
        line: "device 1 c 2 3 4 00000000000000000000000000000000 0000000a v1 k11 flash",
        descriptor: Some(10),
        v1: true,
        k11: true,
        flash: true,
    },
];

#[test]
fn the_last_words_of_a_device_are_read(rt: HostRuntime) {
    for tail in &TAILS {
        assert!(rt; is_device(tail));
    }
}

/// Whether a line ends after so many of the bytes.
fn ends(lines: &mut Lines, bytes: &[u8], count: usize, line: &[u8]) -> bool {
    lines.take(bytes) == (count, Cut::Line) && lines.line() == line
}

/// Whether no line ends in the bytes.
fn goes_on(lines: &mut Lines, bytes: &[u8]) -> bool {
    lines.take(bytes) == (bytes.len(), Cut::More)
}

/// Whether a line ends with the stream.
fn finishes(lines: &mut Lines, line: &[u8]) -> bool {
    lines.finish() && lines.line() == line
}

/// A line is the same however its bytes are cut into pieces.
#[test]
fn pieces_make_the_lines_of_the_whole(rt: HostRuntime) {
    let mut lines = Lines::new();
    assert!(rt; goes_on(&mut lines, b"ab") && ends(&mut lines, b"\nc", 1, b"ab"));
    assert!(rt; goes_on(&mut lines, b"c") && goes_on(&mut lines, b"d"));
    assert!(rt; finishes(&mut lines, b"cd") && !lines.finish());
    assert!(rt; ends(&mut lines, b"ab\ncd", 3, b"ab") && ends(&mut lines, b"\n", 1, b""));
}

/// Of a line of 602 bytes, 601 are held.
#[test]
fn a_long_line_is_held_in_part(rt: HostRuntime) {
    let mut lines = Lines::new();
    for _ in 0..602 {
        assert!(rt; goes_on(&mut lines, b"a"));
    }
    assert!(rt; finishes(&mut lines, &[b'a'; 601]));
}

/// Anybody's payloads: the line, device, port, bytes and word, and whether they are in their ranges.
static RAW: [(&str, u64, u64, &[u8], u64, bool); 6] = [
    ("raw 1 201 0801", 1, 201, &[8, 1], 0, true),
    ("raw 2 204 -", 2, 204, &[], 0, true),
    (
        "raw 0 0 aAfF09 4294967295",
        0,
        0,
        &[170, 255, 9],
        4_294_967_295,
        true,
    ),
    ("raw 1 255 - 0", 1, 255, &[], 0, true),
    ("raw 1 256 -", 1, 256, &[], 0, false),
    (
        "raw 1 201 00 4294967296",
        1,
        201,
        &[0],
        4_294_967_296,
        false,
    ),
];

/// HEX is an even number of digits of either case, or `-`, and never no word at all; with more bytes than a payload has it is
/// still a word.
#[test]
fn bytes_of_strangers_are_read(rt: HostRuntime) {
    for (line, device, port, bytes, word, ranged) in &RAW {
        assert!(rt; is_raw(line.as_bytes(), *device, *port, bytes, *word));
        assert!(rt; is_in_range(line) == *ranged);
    }
}

/// Bytes of the air are written in the same way.
#[test]
fn bytes_of_the_air_are_read(rt: HostRuntime) {
    assert!(rt; is_raw_air(b"rawair 1 60fF", &[0x60, 0xff], 0));
    assert!(rt; is_raw_air(b"rawair 1 -", &[], 0));
    assert!(rt; is_raw_air(b"rawair 1 60 9", &[0x60], 9));
}

/// 600 digits spell 300 bytes; two more are longer than a line.
#[test]
fn long_hex_words_are_read(rt: HostRuntime) {
    let mut line = [b'0'; 612];
    line[..10].copy_from_slice(b"raw 1 201 ");
    assert!(rt; is_raw(&line[..610], 1, 201, &[0; 300], 0));
    assert!(rt; form(&line[..609]).is_none());
    assert!(rt; form(&line).is_none());
}

/// Whether hex digits are these bytes.
fn are(digits: HexBytes, bytes: &[u8]) -> bool {
    let mut spelled = ArrayVec::new();
    digits.put(&mut spelled);
    spelled.as_slice() == bytes
}

/// Whether a line is anybody's payload of these bytes.
fn is_raw(line: &[u8], device: u64, port: u64, bytes: &[u8], word: u64) -> bool {
    match form(line) {
        Some(
            Form::Raw {
                device: to,
                port: on,
                payload,
                word: random,
            },
        ) => to == device && on == port && random == word && are(payload, bytes),
        _ => false,
    }
}

/// Whether a line is these bytes of the air for device 1.
fn is_raw_air(line: &[u8], bytes: &[u8], word: u64) -> bool {
    match form(line) {
        Some(
            Form::RawAir {
                device,
                bytes: digits,
                word: random,
            },
        ) => device == 1 && random == word && are(digits, bytes),
        _ => false,
    }
}
