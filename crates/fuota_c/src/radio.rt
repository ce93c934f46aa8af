//! Frames that the radio of a device heard.

ghost use Rattle.std.specs.Prelude.{◌≡◌};
ghost use Rattle.c_base.specs.Answer.{no_object};
ghost use Rattle.c_base.specs.Calls.{Does};
ghost use Rattle.fuota_c.specs.Device.{HearsFrameOrNot, aired_number};

use crate::device::{MAX_MOMENT, delivered_number};
use crate::device_handle::DeviceHandle;
use c_base::answer::{FOREIGN, NO_OBJECT, RANGE};
use device_core::Aired;
use std::alloc::Global;

/// Takes bytes that the radio heard at `t` ms of true time, with a random word and the number that marks a verdict: foreign where
/// they are no frame of the group that is heard; else the answer of `fuota_device_deliver` to their payload. Out of range at a
/// `t` of more than 4,294,967,295,999, where nothing changes.
#[unsafe(no_mangle)]
pub extern "C" fn fuota_device_radio(
    handle: &mut DeviceHandle,
    alloc: Global,
    bytes: &[u8],
    t: u64,
    word: u32,
    mark: u64,
) -> u8
    ensures { Does handle.old.held handle.new.held
        (λ x y. HearsFrameOrNot x y bytes.now t word mark result) (result ≡ no_object) }
{
    let Some(device) = handle.get_mut() else {
        return NO_OBJECT;
    };
    if t > MAX_MOMENT {
        return RANGE;
    }
    aired_number(device.radio(t, bytes, word, mark))
}

fn aired_number(aired: Aired) -> u8
    ensures { result ≡ aired_number aired }
{
    match aired {
        Aired::Foreign(_) => FOREIGN,
        Aired::Heard(delivered) => delivered_number(delivered),
    }
}
