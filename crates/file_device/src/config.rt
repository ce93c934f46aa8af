//! The configuration of a device, from the line of a script.

ghost use Rattle.std.specs.Prelude.{◌≡◌, true, IfSome};

use device_core::{Class, DeviceConfig, MAX_AREA};
use mc_keys::RootKind;
use script_lines::{Form, form, in_range};

/// The bytes of the file for each of the four sessions, as a device of a script has them.
pub const SPAN: u32 = 631_573;

/// Returns the configuration that a device line has; None where it is no device line. The sessions are held in the device's
/// flash.
pub fn config_of(line: &[u8]) -> Option<DeviceConfig>
    ensures { IfSome result (λ config. config.held ≡ true) }
{
    let read = form(line)?;
    if !in_range(&read) {
        return None;
    }
    match read {
        Form::Device(line) => Some(DeviceConfig {
            class: class_of(line.class),
            hw: u32::try_from(line.hw).ok()?,
            formats: if line.v1 { 1 } else { 2 },
            rows: u16::try_from(line.rows).ok()?,
            offset: u32::try_from(line.offset).ok()?,
            key: line.key,
            root: if line.k11 {
                RootKind::V11
            } else {
                RootKind::V10
            },
            descriptor: line.descriptor,
            sessions: 4,
            groups: 4,
            area: MAX_AREA,
            held: true,
            span: SPAN,
        }),
        _ => None,
    }
}

fn class_of(class: script_lines::Class) -> Class {
    match class {
        script_lines::Class::A => Class::A,
        script_lines::Class::C => Class::C,
    }
}
