//! The calls of a device that lines of a script make.

ghost use Rattle.std.specs.Prelude.{◌≤◌};

use arrayvec::ArrayVec;
use device_core::{Aired, Delivered, Device};
use file_flash::FileFlash;
use package_grammar::{Downlink, To};
use script_lines::{Form, HexBytes, MAX_TIME};
use wire_base::{MAX_PAYLOAD, Payload};

/// Makes the call of a line, and says how it ended; None where it is no line for a device.
pub fn call(device: &mut Device<FileFlash>, time: u64, form: &Form) -> Option<&'static str> {
    if time > MAX_TIME {
        return None;
    }
    match form {
        Form::Raw {
            device: _number,
            port,
            payload,
            word,
        } => {
            let port = u8::try_from(*port).ok()?;
            let word = u32::try_from(*word).ok()?;
            deliver(device, time, port, payload, word)
        }
        Form::RawAir {
            device: _number,
            bytes,
            word,
        } => {
            let word = u32::try_from(*word).ok()?;
            Some(hear(device, time, bytes, word))
        }
        Form::Wake { device: _number } => match device.wake(time) {
            Ok(()) => Some("done"),
            Err(_) => Some("full"),
        },
        Form::Migrate { device: _number } => {
            device.raise();
            Some("done")
        }
        _ => None,
    }
}

fn deliver(
    device: &mut Device<FileFlash>,
    time: u64,
    port: u8,
    payload: &HexBytes,
    word: u32,
) -> Option<&'static str>
    requires { time ≤ 4294967295999 }
{
    let mut bytes = ArrayVec::new();
    payload.put(&mut bytes);
    if bytes.len() > MAX_PAYLOAD {
        return None;
    }
    let down = Downlink {
        to: To::Unicast,
        port,
        payload: Payload::from_slice(bytes.as_slice()),
    };
    Some(word_of(device.deliver(time, &down, word, 0)))
}

fn hear(device: &mut Device<FileFlash>, time: u64, payload: &HexBytes, word: u32) -> &'static str
    requires { time ≤ 4294967295999 }
{
    let mut bytes = ArrayVec::new();
    payload.put(&mut bytes);
    match device.radio(time, bytes.as_slice(), word, 0) {
        Aired::Foreign(_) => "foreign",
        Aired::Heard(delivered) => word_of(delivered),
    }
}

fn word_of(delivered: Delivered) -> &'static str {
    match delivered {
        Delivered::Done => "done",
        Delivered::Deaf => "deaf",
        Delivered::Refused(_) => "refused",
        Delivered::OutboxFull(_) => "full",
        Delivered::FlashFault => "fault",
        Delivered::Down => "down",
    }
}
