//! The configuration of a device.

ghost use Rattle.std.specs.Prelude.{◌≡◌};
ghost use Rattle.device_core.specs.Configuration.{at_full_size};
ghost use Rattle.device_core.specs.Device.{is_config, has_ranges, limits_of};

use frag_session::Limits;
use mc_keys::RootKind;
use session_store::Layout;
use thiserror::Error;

/// When a device hears unicast payloads (LoRaWAN 1.0).
#[derive(Clone, Copy, Debug, PartialEq, Eq)]
pub enum Class {
    /// In two windows after the uplink made last.
    A,
    /// Always.
    C,
}

/// The most rows for the coded fragments of a session.
pub const MAX_ROWS: u16 = 256;

/// The most bytes of the file area of a session.
pub const MAX_AREA: u32 = 262_382;

/// The bytes of flash of a session before its records.
const RECORDS_PLACE: u32 = 24_640;

/// The configuration of a device. It has no text, so that its key gets into no log.
#[derive(Clone, Copy)]
pub struct DeviceConfig {
    pub class: Class,
    /// Hardware version.
    pub hw: u32,
    /// The image formats that it knows at first: only 1 (1), or both (2).
    pub formats: u8,
    /// Rows for the coded fragments of a session, 0 to 256.
    pub rows: u16,
    /// Seconds that its clock is ahead of true time, modulo 2^32.
    pub offset: u32,
    /// GenAppKey, or AppKey where `root` is `V11`: multicast keys are wrapped under it.
    pub key: [u8; 16],
    /// The version of LoRaWAN by which the root key of multicast keys is made from `key`.
    pub root: RootKind,
    /// The only descriptor that its sessions accept, where there is one.
    pub descriptor: Option<u32>,
    /// How many session indices there are, 1 to 4.
    pub sessions: u8,
    /// How many group ids there are, 1 to 4.
    pub groups: u8,
    /// Bytes of the file area of a session, 1 to 262,382.
    pub area: u32,
    /// Whether its sessions are held in its flash, and so outlast a stop.
    pub held: bool,
    /// Bytes of flash of a session that is held: at least 24,640, and four times it fits the flash. The session of index i has
    /// those from i * span on.
    pub span: u32,
}

/// Why there is no device.
#[derive(Clone, Copy, Debug, PartialEq, Eq, Error)]
pub enum ReserveError {
    /// A number of the configuration is out of its bounds, or the flash has no room for four sessions.
    #[error("a number of the configuration is out of bounds")]
    BadConfig,
    /// There was not enough memory.
    #[error("out of memory")]
    Memory,
}

/// Says whether each number of a configuration is within its bounds.
pub fn is_config(config: &DeviceConfig) -> bool
    ensures { result ≡ is_config (at_full_size config.now) }
{
    (1 <= config.formats && config.formats <= 2)
        && config.rows <= MAX_ROWS
        && (1 <= config.sessions && config.sessions <= 4)
        && (1 <= config.groups && config.groups <= 4)
        && (1 <= config.area && config.area <= MAX_AREA)
}

/// Says whether so many bytes of flash have room for the held sessions: four ranges of the span, each long enough. True where
/// sessions are not held.
pub fn has_ranges(config: &DeviceConfig, room: u32) -> bool
    ensures { result ≡ has_ranges (at_full_size config.now) room }
{
    if config.held {
        RECORDS_PLACE <= config.span && 4 * config.span as u64 <= room as u64
    } else {
        true
    }
}

/// The limits of a device's sessions.
pub(crate) fn limits_of(config: &DeviceConfig) -> Limits
    ensures { result ≡ limits_of (at_full_size config.now) }
{
    Limits {
        sessions: config.sessions,
        rows: config.rows,
        descriptor: config.descriptor,
    }
}

/// How the sessions of a device are laid out in its flash.
pub(crate) fn layout_of(config: &DeviceConfig) -> Layout
    ensures { result ≡ record {
      area = config.now.area;
      span = config.now.span;
      limits = limits_of (at_full_size config.now);
    } }
{
    Layout {
        area: config.area,
        span: config.span,
        limits: limits_of(config),
    }
}
