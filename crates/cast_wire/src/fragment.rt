//! A DataFragment in its payload, without a copy of its bytes.

ghost use Rattle.std.specs.Prelude.{◌<◌, ◌≤◌, length, IfSome};
ghost use Rattle.wire_base.specs.Payload.{max_payload};
ghost use Rattle.cast_wire.specs.Fragment.{IsFragmentAt};

use crate::ids::{DATA_FRAGMENT, FRAGMENT_HEAD_LEN};
use wire_base::{u8_at, u16_at};

/// The fields of a DataFragment (TS004-1.0.0); its bytes stay in the payload.
#[derive(Clone, Copy)]
pub struct Fragment<'a> {
    /// The session, 0 to 3.
    pub index: u8,
    /// The fragment's number, below 2^14.
    pub n: u16,
    /// The fragment, 1 to 239 bytes.
    pub bytes: &'a [u8],
}

/// Reads the DataFragment at a place of a payload from the server on port 201; it takes all that is left of the payload. None
/// exactly where none is spelled there.
pub fn fragment_at(bytes: &[u8], at: u16) -> Option<Fragment<'_>>
    requires inside { at ≤ length bytes.now }
    requires fits { length bytes.now ≤ max_payload }
    ensures spelled { IsFragmentAt bytes.now at result }
    ensures index { IfSome result (λ f. f.index < 4) }
{
    if bytes.len() < (at + FRAGMENT_HEAD_LEN) as usize + 1 || u8_at(bytes, at) != DATA_FRAGMENT {
        return None;
    }
    let numbers = u16_at(bytes, at + 1);
    Some(Fragment {
        index: (numbers >> 14) as u8,
        n: numbers & 0x3fff,
        bytes: &bytes[(at + FRAGMENT_HEAD_LEN) as usize..],
    })
}
