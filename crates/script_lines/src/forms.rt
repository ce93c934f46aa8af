//! The forms of the lines of a script.

use crate::hex_bytes::HexBytes;

/// An AES-128 key.
pub type Key = [u8; 16];

/// The CLASS of a device line.
#[derive(Clone, Copy, Debug, PartialEq, Eq)]
pub enum Class {
    /// `a`
    A,
    /// `c`
    C,
}

/// What a device line says: OFFSET in seconds; with `v1` the device knows only image format 1, else both. KEY is the GenAppKey of
/// LoRaWAN 1.0, with `k11` the AppKey of LoRaWAN 1.1. With `flash` its sessions are held in flash.
#[derive(Clone, Copy, Debug, PartialEq, Eq)]
pub struct DeviceLine {
    pub id: u64,
    pub class: Class,
    pub hw: u64,
    pub rows: u64,
    pub offset: u64,
    pub key: Key,
    pub descriptor: Option<u32>,
    pub v1: bool,
    pub k11: bool,
    pub flash: bool,
}

/// The form of a line of a script. Decimals are as they are written, those above 2^64 - 1 held as that; `in_range` says which
/// values they may have.
#[derive(Debug, Drop)]
pub enum Form<'a> {
    /// `fuota 1`
    Header,
    /// `image FRAGSIZE PARITY`: the bytes of a fragment, and the number of coded fragments. FragIndex is 0 where a script has one
    /// campaign; where it has two, `INDEX`.
    Image {
        frag_size: u64,
        parity: u64,
        index: u64,
    },
    /// `group ADDR KEY MIN MAX`: McAddr, McKey, and the frame counts from MIN to below MAX. McGroupID is 0 where a script has
    /// one campaign; where it has two, `ID`.
    Group {
        id: u64,
        addr: u32,
        key: Key,
        min: u64,
        max: u64,
    },
    /// `window c START TIMEOUT FREQ DR`: START in seconds of the devices' clocks, FREQ in 100 Hz.
    WindowC {
        start: u64,
        timeout: u64,
        freq: u64,
        dr: u64,
    },
    /// `window b START PERIODICITY TIMEOUT FREQ DR`
    WindowB {
        start: u64,
        periodicity: u64,
        timeout: u64,
        freq: u64,
        dr: u64,
    },
    /// `device ID CLASS HW ROWS OFFSET KEY [DESCRIPTOR] [v1] [k11] [flash]`
    Device(DeviceLine),
    /// `at MS`: the time now, in milliseconds since the GPS epoch.
    At {
        time: u64,
    },
    /// `wake D`: device D wakes.
    Wake {
        device: u64,
    },
    /// `migrate D`: device D knows both image formats from now on.
    Migrate {
        device: u64,
    },
    /// `power D`: the power of device D goes off and comes back; its sessions are held in flash.
    Power {
        device: u64,
    },
    /// `ask D`: the server sends the request of the device's stage.
    Ask {
        device: u64,
    },
    /// `frag`: the server sends the next fragment.
    Frag,
    /// `status`: the server asks all devices for their status.
    Status,
    /// `down S D [WORD]`: sent payload S reaches device D, with a random word that is 0 where it is left out.
    Down {
        number: u64,
        device: u64,
        word: u64,
    },
    /// `raw D PORT HEX [WORD]`: this payload, from anybody, reaches device D on this port by unicast, with a random word that is
    /// 0 where it is left out.
    Raw {
        device: u64,
        port: u64,
        payload: HexBytes<'a>,
        word: u64,
    },
    /// `air S D [WORD]`: sent payload S, to the group, reaches the radio of device D as its frame, with a random word that is 0
    /// where it is left out.
    Air {
        number: u64,
        device: u64,
        word: u64,
    },
    /// `rawair D HEX [WORD]`: these bytes, from anybody, reach the radio of device D, with a random word that is 0 where it is
    /// left out.
    RawAir {
        device: u64,
        bytes: HexBytes<'a>,
        word: u64,
    },
    /// `up U`: uplink U reaches the server.
    Up {
        number: u64,
    },
    /// `end`
    End,
}

/// The campaign that a line of two campaigns' script names.
#[derive(Clone, Copy, Debug, PartialEq, Eq)]
pub enum Campaign {
    /// `a`
    A,
    /// `b`
    B,
}

/// The form of a line of two campaigns' script: the campaign that it names, where it names one, and the form that the line has
/// for that campaign.
#[derive(Drop)]
pub struct PairForm<'a> {
    pub campaign: Option<Campaign>,
    pub form: Form<'a>,
}
