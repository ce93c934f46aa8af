//! What a device is configured with.

ghost use Rattle.std.specs.Prelude.{◌≡◌};
ghost use Rattle.fuota_c.specs.Config.{config_of, held_config_of, root_of, fits};

use device_core::{Class, DeviceConfig, has_ranges, is_config};
use mc_keys::RootKind;

/// What a device is configured with, as `DeviceConfig` of `device_core` has it.
#[repr(C)]
#[derive(Drop)]
pub struct ConfigFields {
    pub hw: u32,
    pub offset: u32,
    pub area: u32,
    /// The one descriptor that its sessions take, where `has_descriptor`.
    pub descriptor: u32,
    pub rows: u16,
    pub formats: u8,
    pub sessions: u8,
    pub groups: u8,
    pub has_descriptor: bool,
    /// It always hears unicast payloads; else in the two windows after its uplink.
    pub is_class_c: bool,
    /// The key is AppKey of LoRaWAN 1.1; else GenAppKey of LoRaWAN 1.0.
    pub is_v11: bool,
    pub key: [u8; 16],
}

/// Says whether a device can be so configured, over a flash of these bytes.
pub fn fits(config: &DeviceConfig, bytes: &[u8]) -> bool
    ensures { result ≡ fits config.now bytes.now }
{
    match u32::try_from(bytes.len()) {
        Ok(room) => has_ranges(config, room) && is_config(config),
        Err(_) => false,
    }
}

/// Makes the configuration of these fields.
pub fn config_of(fields: &ConfigFields) -> DeviceConfig
    ensures { result ≡ config_of fields.now }
{
    let class = if fields.is_class_c {
        Class::C
    } else {
        Class::A
    };
    let descriptor = if fields.has_descriptor {
        Some(fields.descriptor)
    } else {
        None
    };
    DeviceConfig {
        class,
        hw: fields.hw,
        formats: fields.formats,
        rows: fields.rows,
        offset: fields.offset,
        key: fields.key,
        root: root_of(fields.is_v11),
        descriptor,
        sessions: fields.sessions,
        groups: fields.groups,
        area: fields.area,
        held: false,
        span: 0,
    }
}

/// Makes the configuration of these fields, of a device whose sessions are held in flash, each in so many bytes.
pub fn held_config_of(fields: &ConfigFields, span: u32) -> DeviceConfig
    ensures { result ≡ held_config_of fields.now span }
{
    let mut config = config_of(fields);
    config.held = true;
    config.span = span;
    config
}

fn root_of(is_v11: bool) -> RootKind
    ensures { result ≡ root_of is_v11 }
{
    if is_v11 { RootKind::V11 } else { RootKind::V10 }
}
