//! The message examples, and the texts of commands as they are read.

use package_grammar::*;
use std::alloc::Global;
use std::process::Abort;
use std::test::*;
use wire_base::{Direction, Payload, Refusal, Why};

static LONG: [u8; 243] = [0; 243];

/// The payload is a message of so many commands.
fn counts(rt: &impl Abort, port: u8, dir: Direction, bytes: &[u8], commands: u16) {
    match check(port, dir, bytes) {
        Ok(found) => assert!(rt; found == commands),
        Err(_) => panic!(rt; "it is refused"),
    }
}

/// The payload is refused at a byte, for this.
fn stops(rt: &impl Abort, port: u8, dir: Direction, bytes: &[u8], at: u16, why: Why) {
    match check(port, dir, bytes) {
        Ok(_) => panic!(rt; "it is a message"),
        Err(refusal) => assert!(rt; refusal == Refusal { at, why }),
    }
}

#[test]
fn messages_are_counted_or_stop(rt: HostRuntime) {
    use Direction::*;
    counts(&rt, 201, Down, &[], 0);
    counts(&rt, 201, Down, &[0x01, 0x01, 0x03, 0x00], 2);
    counts(&rt, 203, Up, &[0x04, 0x02], 1);
    counts(&rt, 202, Down, &LONG[..242], 242);
    stops(
        &rt,
        201,
        Down,
        &[0x01, 0x01, 0x08, 0x01, 0x00],
        5,
        Why::Short,
    );
    stops(
        &rt,
        201,
        Up,
        &[0x08, 0x01, 0x00, 0x11],
        0,
        Why::UnknownCommand,
    );
    stops(&rt, 203, Up, &[0x04, 0x03, 0x02, 0x00, 0x00], 5, Why::Short);
    stops(&rt, 204, Down, &[0x00], 0, Why::Port);
    stops(&rt, 202, Down, &LONG, 242, Why::TooLong);
}

fn status() -> Command<'static> {
    Command::Cast(cast_wire::Cmd::FragSessionStatusReq {
        index: 0,
        all: true,
    })
}

fn delete() -> Command<'static> {
    Command::Cast(cast_wire::Cmd::FragSessionDeleteReq { index: 2 })
}

/// The next command of the message is this.
fn hands_out(rt: &impl Abort, message: &mut Message, command: Command) {
    match message.next() {
        Some(next) => assert!(rt; next == command),
        None => panic!(rt; "no command is left"),
    }
}

#[test]
fn a_message_hands_out_its_commands_in_order(rt: HostRuntime) {
    match Message::read(201, Direction::Down, &[0x01, 0x01, 0x03, 0x02]) {
        Ok(mut message) => {
            assert!(rt; message.again().count() == 2);
            hands_out(&rt, &mut message, status());
            hands_out(&rt, &mut message, delete());
            assert!(rt; message.next().is_none());
        }
        Err(_) => assert!(rt; false),
    }
}

#[test]
fn a_command_is_spelled(rt: HostRuntime) {
    let delete = Command::Cast(cast_wire::Cmd::FragSessionDeleteReq { index: 2 });
    let payload = spelled(201, Direction::Down, &delete);
    assert!(rt; payload.as_slice() == [0x03, 0x02].as_slice());
}

/// A command of each row of the tables: port, direction, its canonical bytes in hex, its text.
static COMMANDS: [(u8, Direction, &str, &str); 40] = [
    (200, Direction::Down, "00", "PackageVersionReq"),
    (
        200,
        Direction::Up,
        "000201",
        "PackageVersionAns id=2 version=1",
    ),
    (201, Direction::Down, "00", "PackageVersionReq"),
    (
        201,
        Direction::Up,
        "000301",
        "PackageVersionAns id=3 version=1",
    ),
    (202, Direction::Down, "00", "PackageVersionReq"),
    (
        202,
        Direction::Up,
        "000101",
        "PackageVersionAns id=1 version=1",
    ),
    (203, Direction::Down, "00", "PackageVersionReq"),
    (
        203,
        Direction::Up,
        "000401",
        "PackageVersionAns id=4 version=1",
    ),
    (
        202,
        Direction::Up,
        "0107ca9a3b1e",
        "AppTimeReq time=1000000007 required=1 token=14",
    ),
    (
        202,
        Direction::Down,
        "01ffffffff0f",
        "AppTimeAns correction=-1 token=15",
    ),
    (
        202,
        Direction::Down,
        "020b",
        "DeviceAppTimePeriodicityReq period=11",
    ),
    (
        202,
        Direction::Up,
        "0201ffffffff",
        "DeviceAppTimePeriodicityAns unsupported=1 time=4294967295",
    ),
    (202, Direction::Down, "0307", "ForceDeviceResyncReq count=7"),
    (
        201,
        Direction::Down,
        "0105",
        "FragSessionStatusReq index=2 all=1",
    ),
    (
        201,
        Direction::Up,
        "01e8c3ff01",
        "FragSessionStatusAns index=3 received=1000 missing=255 norows=1",
    ),
    (
        201,
        Direction::Down,
        "021e04010d2b0544332211",
        "FragSessionSetupReq index=1 mask=14 nbfrag=260 fragsize=13 algo=5 delay=3 padding=5 descriptor=11223344",
    ),
    (
        201,
        Direction::Up,
        "0249",
        "FragSessionSetupAns index=1 bits=9",
    ),
    (201, Direction::Down, "0303", "FragSessionDeleteReq index=3"),
    (
        201,
        Direction::Up,
        "0306",
        "FragSessionDeleteAns index=2 missing=1",
    ),
    (
        201,
        Direction::Down,
        "080580aabb",
        "DataFragment index=2 n=5 bytes=aabb",
    ),
    (200, Direction::Down, "010a", "McGroupStatusReq mask=10"),
    (
        200,
        Direction::Up,
        "012500443322110288776655",
        "McGroupStatusAns total=2 mask=5 groups=0:11223344,2:55667788",
    ),
    (
        200,
        Direction::Down,
        "020304030201000102030405060708090a0b0c0d0e0f0500000070110100",
        "McGroupSetupReq id=3 addr=01020304 key=000102030405060708090a0b0c0d0e0f min=5 max=70000",
    ),
    (200, Direction::Up, "0206", "McGroupSetupAns id=2 error=1"),
    (200, Direction::Down, "0301", "McGroupDeleteReq id=1"),
    (
        200,
        Direction::Up,
        "0307",
        "McGroupDeleteAns id=3 undefined=1",
    ),
    (
        200,
        Direction::Down,
        "0402006d7c4d0cc8858405",
        "McClassCSessionReq id=2 time=1300000000 timeout=12 freq=8685000 dr=5",
    ),
    (
        200,
        Direction::Up,
        "04000a0000",
        "McClassCSessionAns id=0 bits=0 start=10",
    ),
    (
        200,
        Direction::Down,
        "0501800000007fd2ad8403",
        "McClassBSessionReq id=1 time=128 periodicity=7 timeout=15 freq=8695250 dr=3",
    ),
    (
        200,
        Direction::Up,
        "051d",
        "McClassBSessionAns id=1 bits=28 start=-",
    ),
    (203, Direction::Down, "01", "DevVersionReq"),
    (
        203,
        Direction::Up,
        "010200000001000000",
        "DevVersionAns fw=2 hw=1",
    ),
    (
        203,
        Direction::Down,
        "02ffffffff",
        "DevRebootTimeReq time=4294967295",
    ),
    (
        203,
        Direction::Up,
        "02005ed0b2",
        "DevRebootTimeAns time=3000000000",
    ),
    (
        203,
        Direction::Down,
        "03ffffff",
        "DevRebootCountdownReq count=16777215",
    ),
    (
        203,
        Direction::Up,
        "033c0000",
        "DevRebootCountdownAns count=60",
    ),
    (203, Direction::Down, "04", "DevUpgradeImageReq"),
    (
        203,
        Direction::Up,
        "040302010000",
        "DevUpgradeImageAns status=3 next=258",
    ),
    (
        203,
        Direction::Down,
        "0507000000",
        "DevDeleteImageReq version=7",
    ),
    (203, Direction::Up, "0503", "DevDeleteImageAns bits=3"),
];

/// Commands with all their reserved bits set, and as they are written.
static RESERVED: [(u8, Direction, &str, &str); 23] = [
    (202, Direction::Up, "0100000000ff", "01000000001f"),
    (202, Direction::Down, "0100000000f3", "010000000003"),
    (202, Direction::Down, "02fb", "020b"),
    (202, Direction::Up, "02ff00000000", "020100000000"),
    (202, Direction::Down, "03f9", "0301"),
    (201, Direction::Down, "01fd", "0105"),
    (201, Direction::Up, "01000000fe", "0100000000"),
    (
        201,
        Direction::Down,
        "02c0010001c00000000000",
        "0200010001000000000000",
    ),
    (201, Direction::Up, "0279", "0249"),
    (201, Direction::Down, "03fc", "0300"),
    (201, Direction::Up, "03fa", "0302"),
    (200, Direction::Down, "01f3", "0103"),
    (200, Direction::Up, "0191fc44332211", "01110044332211"),
    (
        200,
        Direction::Down,
        "02fd00000000000000000000000000000000000000000000000000000000",
        "020100000000000000000000000000000000000000000000000000000000",
    ),
    (200, Direction::Up, "02fa", "0202"),
    (200, Direction::Down, "03fe", "0302"),
    (200, Direction::Up, "03f9", "0301"),
    (
        200,
        Direction::Down,
        "04fc00000000f100000000",
        "0400000000000100000000",
    ),
    (200, Direction::Up, "04e3000000", "0403000000"),
    (
        200,
        Direction::Down,
        "05fc000000008000000000",
        "0500000000000000000000",
    ),
    (200, Direction::Up, "05f4", "0514"),
    (203, Direction::Up, "04fe", "0402"),
    (203, Direction::Up, "05fd", "0501"),
];

fn bytes_of(alloc: Global, digits: &str) -> Vec<u8> {
    match hex::decode(alloc, digits.as_bytes()) {
        Ok(bytes) => bytes,
        Err(_) => Vec::new(alloc),
    }
}

/// The text of the command that the bytes are, which is written with the canonical bytes.
fn text_and_bytes(
    rt: &impl Abort,
    alloc: Global,
    port: u8,
    dir: Direction,
    bytes: &[u8],
    canonical: &[u8],
) -> Vec<u8> {
    let mut text = Vec::new(alloc);
    assert!(rt; !bytes.is_empty());
    match read_one(port, dir, bytes, 0) {
        Ok((command, next)) => {
            assert!(rt; next as usize == bytes.len());
            let mut out = Payload::new();
            assert!(rt; write_one(port, dir, &command, &mut out).is_ok());
            assert!(rt; out.as_slice() == canonical);
            assert!(rt; show(&command, &mut text).is_ok());
        }
        Err(_) => panic!(rt; "it is no command"),
    }
    text
}

/// The bytes are a command with this text, which is written with these bytes.
fn is_shown(rt: &impl Abort, alloc: Global, port: u8, dir: Direction, digits: &str, text: &str) {
    let bytes = bytes_of(alloc, digits);
    let shown = text_and_bytes(rt, alloc, port, dir, &bytes, &bytes);
    assert!(rt; shown.as_slice() == text.as_bytes());
    drop(shown);
    drop(bytes);
}

#[test]
fn each_command_is_read_written_and_shown(rt: HostRuntime) {
    for (port, dir, digits, text) in &COMMANDS {
        is_shown(&rt, rt.alloc(), *port, *dir, digits, text);
    }
}

/// The bytes are a command that is written with other bytes.
fn is_written(
    rt: &impl Abort,
    alloc: Global,
    port: u8,
    dir: Direction,
    digits: &str,
    canonical: &str,
) {
    let bytes = bytes_of(alloc, digits);
    let written = bytes_of(alloc, canonical);
    assert!(rt; bytes.as_slice() != written.as_slice());
    drop(text_and_bytes(rt, alloc, port, dir, &bytes, &written));
    drop(written);
    drop(bytes);
}

#[test]
fn reserved_bits_are_ignored_and_written_0(rt: HostRuntime) {
    for (port, dir, digits, canonical) in &RESERVED {
        is_written(&rt, rt.alloc(), *port, *dir, digits, canonical);
    }
}

/// The bytes are refused at each cut. A fragment's front is a fragment, once it has a byte of it.
fn is_cut(rt: &impl Abort, port: u8, dir: Direction, bytes: &[u8], is_fragment: bool) {
    assert!(rt; bytes.len() <= 242);
    for cut in 1..bytes.len() {
        if is_fragment && cut > 3 {
            counts(rt, port, dir, bytes.split_at(cut).0, 1);
        } else {
            stops(rt, port, dir, bytes.split_at(cut).0, cut as u16, Why::Short);
        }
    }
}

fn is_cut_short(
    rt: &impl Abort,
    alloc: Global,
    port: u8,
    dir: Direction,
    digits: &str,
    text: &str,
) {
    let bytes = bytes_of(alloc, digits);
    is_cut(rt, port, dir, &bytes, text.starts_with("DataFragment"));
    drop(bytes);
}

#[test]
fn each_command_cut_short_is_refused_at_the_cut(rt: HostRuntime) {
    for (port, dir, digits, text) in &COMMANDS {
        is_cut_short(&rt, rt.alloc(), *port, *dir, digits, text);
    }
}

/// Other values than the table's: negative, absent, none, all.
static VALUES: [(u8, Direction, &str, &str); 5] = [
    (
        202,
        Direction::Down,
        "0105000000f3",
        "AppTimeAns correction=5 token=3",
    ),
    (
        202,
        Direction::Down,
        "010000008000",
        "AppTimeAns correction=-2147483648 token=0",
    ),
    (
        200,
        Direction::Up,
        "0100",
        "McGroupStatusAns total=0 mask=0 groups=-",
    ),
    (
        200,
        Direction::Up,
        "041c",
        "McClassCSessionAns id=0 bits=28 start=-",
    ),
    (
        203,
        Direction::Up,
        "0402",
        "DevUpgradeImageAns status=2 next=-",
    ),
];

/// Whether the next command's text is written after what is there; false where none is left.
fn shows_next(
    rt: &impl Abort,
    message: &mut Message,
    room: &mut String,
    shown: &mut Vec<u8>,
) -> bool {
    match message.show_next(room, shown) {
        Ok(shows) => shows,
        Err(_) => panic!(rt; "no memory"),
    }
}

/// The text of the one command of a message.
fn text_of_one(rt: &impl Abort, alloc: Global, port: u8, dir: Direction, bytes: &[u8]) -> Vec<u8> {
    let mut room = String::new(alloc);
    let mut shown = Vec::new(alloc);
    match Message::read(port, dir, bytes) {
        Ok(mut message) => {
            assert!(rt; shows_next(rt, &mut message, &mut room, &mut shown));
            assert!(rt; !shows_next(rt, &mut message, &mut room, &mut shown));
        }
        Err(_) => panic!(rt; "it is no message"),
    }
    drop(room);
    shown
}

fn has_text(rt: &impl Abort, alloc: Global, port: u8, dir: Direction, digits: &str, text: &str) {
    let bytes = bytes_of(alloc, digits);
    let shown = text_of_one(rt, alloc, port, dir, &bytes);
    assert!(rt; shown.as_slice() == text.as_bytes());
    drop(shown);
    drop(bytes);
}

#[test]
fn values_have_their_texts(rt: HostRuntime) {
    for (port, dir, digits, text) in &VALUES {
        has_text(&rt, rt.alloc(), *port, *dir, digits, text);
    }
}
