//! Numbers of several bytes at places of a payload, and at its end.

ghost use Rattle.std.specs.Prelude.{◌≡◌, ◌+◌, ◌^◌, ◌<◌, ◌≤◌, length};
ghost use Rattle.wire_base.specs.Payload.{Appends};
ghost use Rattle.wire_base.specs.Numbers.{number_at, number_bytes, flag_value};

use crate::payload::{Full, Payload};

/// Returns the byte at a place.
#[tactic(auto, unfolding(crate::specs::Numbers::number_at))]
pub fn u8_at(bytes: &[u8], at: u16) -> u8
    requires { at < length bytes.now }
    ensures { result ≡ number_at bytes.now at 1 }
{
    bytes[at as usize]
}

/// Returns the number of two bytes at a place, the lower byte first.
#[tactic(auto, unfolding(crate::specs::Numbers::number_at))]
pub fn u16_at(bytes: &[u8], at: u16) -> u16
    requires { at + 2 ≤ length bytes.now }
    ensures { result ≡ number_at bytes.now at 2 }
{
    let at = at as usize;
    u16::from_le_bytes([bytes[at], bytes[at + 1]])
}

/// Returns the number of three bytes at a place, the lowest byte first.
#[tactic(auto, unfolding(crate::specs::Numbers::number_at))]
pub fn u24_at(bytes: &[u8], at: u16) -> u32
    requires { at + 3 ≤ length bytes.now }
    ensures value { result ≡ number_at bytes.now at 3 }
    ensures below { result < 2 ^ 24 }
{
    let at = at as usize;
    u32::from_le_bytes([bytes[at], bytes[at + 1], bytes[at + 2], 0])
}

/// Returns the number of four bytes at a place, the lowest byte first.
#[tactic(auto, unfolding(crate::specs::Numbers::number_at))]
pub fn u32_at(bytes: &[u8], at: u16) -> u32
    requires { at + 4 ≤ length bytes.now }
    ensures { result ≡ number_at bytes.now at 4 }
{
    let at = at as usize;
    u32::from_le_bytes([bytes[at], bytes[at + 1], bytes[at + 2], bytes[at + 3]])
}

/// Puts one byte at the end; `Full`, with nothing changed, where there is no room.
pub fn put_u8(out: &mut Payload, v: u8) -> Result<(), Full>
    ensures { Appends out.old out.new (number_bytes 1 v) result }
{
    out.append(&[v])
}

/// Puts two bytes at the end, the lower first; `Full`, with nothing changed, where there is no room.
pub fn put_u16(out: &mut Payload, v: u16) -> Result<(), Full>
    ensures { Appends out.old out.new (number_bytes 2 v) result }
{
    out.append(&v.to_le_bytes())
}

/// Puts three bytes at the end, the lowest first; `Full`, with nothing changed, where there is no room.
pub fn put_u24(out: &mut Payload, v: u32) -> Result<(), Full>
    requires { v < 2 ^ 24 }
    ensures { Appends out.old out.new (number_bytes 3 v) result }
{
    let [low, middle, high, _] = v.to_le_bytes();
    out.append(&[low, middle, high])
}

/// Puts four bytes at the end, the lowest first; `Full`, with nothing changed, where there is no room.
pub fn put_u32(out: &mut Payload, v: u32) -> Result<(), Full>
    ensures { Appends out.old out.new (number_bytes 4 v) result }
{
    out.append(&v.to_le_bytes())
}

/// Returns the value of a flag: that of its bit where it is set, else 0.
pub fn flag_value(set: bool, value: u8) -> u8
    ensures value { result ≡ flag_value set value }
    ensures most { result ≤ value }
{
    if set { value } else { 0 }
}
