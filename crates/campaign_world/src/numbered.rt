//! What is sent and made in a campaign, numbered from 1; its bytes are borrowed.

ghost use Rattle.std.specs.Prelude.{◌≡◌, ◌<◌, ◌^◌, length};
ghost use Rattle.std.specs.Option.{option_map};
ghost use Rattle.wire_base.specs.Numbered.{numbered};

use crate::uplink_ref::UplinkRef;
use package_grammar::DownlinkRef;

/// A payload that the server sent, to one device or to any.
#[derive(Drop)]
pub struct SentPayload<'a> {
    /// The device that it is for, by its ID; None for any.
    pub receiver: Option<u8>,
    pub down: DownlinkRef<'a>,
}

/// An uplink that a device made.
#[derive(Drop)]
pub struct NumberedUplink<'a> {
    /// The device, by its ID.
    pub device: u8,
    pub uplink: UplinkRef<'a>,
}

/// Returns the item with a number, counted from 1; None where none has it.
pub fn numbered<T>(items: &[T], number: u64) -> Option<&T>
    requires { length items.now < 2 ^ 63 }
    ensures { option_map (λ x. x.now) result ≡ numbered items.now number }
{
    if number == 0 || number > items.len() as u64 {
        return None;
    }
    Some(&items[number as usize - 1])
}
