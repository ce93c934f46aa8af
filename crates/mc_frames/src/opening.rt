//! Bytes that were heard, opened.

ghost use Rattle.std.specs.Prelude.{◌≡◌, ℕ, ◌-◌, ◌+◌, ◌≤◌, ◌<◌, List, IfOk, length, take, drop, slice_index};
ghost use Rattle.wire_base.specs.Numbers.{number_at};
ghost use Rattle.mc_frames.specs.Frames.{ciphered};
ghost use Rattle.mc_frames.specs.Limits.{min_frame, max_frame};
ghost use Rattle.mc_frames.specs.Opening.{Holds, count_near, count_in, has_header, has_mic, fault_of, fault_without_group, opening, IsOpenedTo, IsAnswerTo};

use crate::fault::FrameFault;
use crate::sending::{MAX_FRAME, ciphered, mic};
use crate::session::Keys;
use wire_base::{Payload, u16_at, u32_at};

/// The fewest bytes of a frame.
const MIN_FRAME: usize = 13;

/// What a frame holds (LoRaWAN 1.0.x, 4).
#[derive(Debug, Drop, PartialEq)]
pub struct Opened {
    /// The whole frame count, of which the frame has the low two bytes.
    pub count: u32,
    /// FPort, 1 to 255.
    pub port: u8,
    /// The decrypted payload.
    pub payload: Payload,
}

/// Opens a frame for the address, with a count from `min` to below `max`, at most 65,535 above `min`; else the first fault. It
/// takes no memory.
pub fn open(keys: &Keys, addr: u32, min: u32, max: u32, bytes: &[u8]) -> Result<Opened, FrameFault>
    ensures opened { IfOk result
        (λ o. Holds keys.now addr min max bytes.now o.count o.port o.payload) }
    ensures only { (count port : ℕ) (payload : List ℕ)
        → Holds keys.now addr min max bytes.now count port payload
        → IsOpenedTo result count port payload }
    ensures fault { IsAnswerTo (fault_of keys.now addr min max bytes.now) result }
    ensures exact { result ≡ opening keys.now addr min max bytes.now }
{
    match fault(keys, addr, min, max, bytes) {
        Some(fault) => Err(fault),
        None => Ok(contents(keys, addr, min, max, bytes)),
    }
}

/// Returns why bytes are not opened where no group is heard: the first of Short, Long, Header and Address that holds.
#[tactic(auto, unfolding(crate::specs::Opening::fault_without_group))]
pub fn fault_without_group(bytes: &[u8]) -> FrameFault
    ensures { result ≡ fault_without_group bytes.now }
{
    if bytes.len() < MIN_FRAME {
        FrameFault::Short
    } else if bytes.len() > MAX_FRAME {
        FrameFault::Long
    } else if !has_header(bytes) {
        FrameFault::Header
    } else {
        FrameFault::Address
    }
}

/// What bytes without a fault hold.
fn contents(keys: &Keys, addr: u32, min: u32, max: u32, bytes: &[u8]) -> Opened
    requires long { min_frame ≤ length bytes.now }
    requires fits { length bytes.now ≤ max_frame }
    requires below { count_in min bytes.now < max }
    ensures count { result.count ≡ count_in min bytes.now }
    ensures port { result.port ≡ slice_index bytes.now 8 }
    ensures payload { result.payload ≡ ciphered keys.now.app_s addr (count_in min bytes.now)
        (take (length bytes.now - 13) (drop 9 bytes.now)) }
{
    let count = count_near(min, u16_at(bytes, 6)) as u32;
    Opened {
        count,
        port: bytes[8],
        payload: ciphered(&keys.app_s, addr, count, &bytes[9..bytes.len() - 4]),
    }
}

/// The first fault.
fn fault(keys: &Keys, addr: u32, min: u32, max: u32, bytes: &[u8]) -> Option<FrameFault>
    ensures { result ≡ fault_of keys.now addr min max bytes.now }
{
    if bytes.len() < MIN_FRAME {
        return Some(FrameFault::Short);
    }
    if bytes.len() > MAX_FRAME {
        return Some(FrameFault::Long);
    }
    if !has_header(bytes) {
        return Some(FrameFault::Header);
    }
    if u32_at(bytes, 1) != addr {
        return Some(FrameFault::Address);
    }
    if bytes[8] == 0 {
        return Some(FrameFault::Port);
    }
    let count = count_near(min, u16_at(bytes, 6));
    if count >= max as u64 {
        return Some(FrameFault::Count);
    }
    if !has_mic(keys, addr, count as u32, bytes) {
        return Some(FrameFault::Mic);
    }
    None
}

/// Whether MHDR is 60, and FCtrl 00 or 10.
fn has_header(bytes: &[u8]) -> bool
    requires { min_frame ≤ length bytes.now }
    ensures { result ≡ has_header bytes.now }
{
    bytes[0] == 0x60 && (bytes[5] == 0x00 || bytes[5] == 0x10)
}

/// The one of the 65,536 counts from `min` on that has these low two bytes.
fn count_near(min: u32, low: u16) -> u64
    ensures { result ≡ count_near min low }
{
    let min = min as u64;
    min + (low as u64 + (65536 - min % 65536)) % 65536
}

/// Whether the last four bytes are the MIC of those before.
fn has_mic(keys: &Keys, addr: u32, count: u32, bytes: &[u8]) -> bool
    requires low { min_frame ≤ length bytes.now }
    requires high { length bytes.now ≤ max_frame }
    ensures { result ≡ has_mic keys.now addr count bytes.now }
{
    let end = bytes.len() - 4;
    let code = mic(keys, addr, count, &bytes[..end]);
    &bytes[end..] == code.as_slice()
}
