//! Lines of the kinds that come by the thousand, each read without counting its words. At None or false the line is read word by
//! word instead.

ghost use Rattle.std.specs.Prelude.{◌≡◌, ◌≤◌, ◌++◌, ◌^◌, Some, IfSome, IsTrue, codes, length, take};
ghost use Rattle.script_lines.specs.Numbers.{decimal_of, hex_bytes_of};
ghost use Rattle.script_lines.specs.Forms.{form_of};
ghost use Rattle.script_lines.specs.declared.forms.Form.TheVariants.{Air, Ask, At, Down, Frag, Migrate, Power, Raw, RawAir, Status, Up, Wake};
ghost use Rattle.script_lines.specs.PairForms.{pair_form_of, of_none};
ghost use Rattle.script_lines.specs.HeldWords.{DecimalFirst, DecimalLast, WordLast};

use crate::hex_bytes::HexBytes;
use crate::words::first_space;

/// A decimal at the front of bytes, and the place where it ends.
#[derive(Clone, Copy)]
struct Leading {
    number: u64,
    end: usize,
}

/// A decimal and a space at the front of bytes, and what follows.
#[derive(Clone, Copy)]
struct Spaced<'a> {
    number: u64,
    rest: &'a [u8],
}

/// The bytes and the number of HEX [WORD] at the end of a line.
#[derive(Drop)]
struct HexTail<'a> {
    bytes: HexBytes<'a>,
    /// WORD, 0 where it is left out.
    random: u64,
}

/// The numbers of N [WORD] at the end of a line.
#[derive(Clone, Copy)]
struct DecimalTail {
    number: u64,
    /// WORD, 0 where it is left out.
    random: u64,
}

/// The numbers of a line `down S D [WORD]` or `air S D [WORD]`.
#[derive(Clone, Copy)]
pub struct DownNumbers {
    /// S.
    pub number: u64,
    /// D.
    pub device: u64,
    /// WORD, 0 where it is left out.
    pub random: u64,
}

/// The parts of a line `raw D PORT HEX [WORD]`.
#[derive(Drop)]
pub struct RawParts<'a> {
    /// D.
    pub device: u64,
    /// PORT.
    pub port: u64,
    /// HEX.
    pub payload: HexBytes<'a>,
    /// WORD, 0 where it is left out.
    pub random: u64,
}

/// The parts of a line `rawair D HEX [WORD]`.
#[derive(Drop)]
pub struct RawAirParts<'a> {
    /// D.
    pub device: u64,
    /// HEX.
    pub bytes: HexBytes<'a>,
    /// WORD, 0 where it is left out.
    pub random: u64,
}

/// Reads the numbers of a line `down S D [WORD]`.
pub fn down_numbers(line: &[u8]) -> Option<DownNumbers>
    ensures { IfSome result (λ n. form_of line.now ≡ Some (Down n.number n.device n.random)) }
{
    match line {
        [b'd', b'o', b'w', b'n', b' ', rest @ ..] => numbers_behind(rest),
        _ => None,
    }
}

/// Reads the numbers of a line `air S D [WORD]`.
pub fn air_numbers(line: &[u8]) -> Option<DownNumbers>
    ensures { IfSome result (λ n. form_of line.now ≡ Some (Air n.number n.device n.random)) }
{
    match line {
        [b'a', b'i', b'r', b' ', rest @ ..] => numbers_behind(rest),
        _ => None,
    }
}

/// Reads the parts of a line `raw D PORT HEX [WORD]`.
pub fn raw_parts(line: &[u8]) -> Option<RawParts<'_>>
    ensures { IfSome result
        (λ r. form_of line.now ≡ Some (Raw r.device r.port r.payload r.random)) }
{
    match line {
        [b'r', b'a', b'w', b' ', rest @ ..] => raw_behind(rest),
        _ => None,
    }
}

/// Reads the parts of a line `rawair D HEX [WORD]`.
pub fn raw_air_parts(line: &[u8]) -> Option<RawAirParts<'_>>
    ensures { IfSome result (λ r. form_of line.now ≡ Some (RawAir r.device r.bytes r.random)) }
{
    match line {
        [b'r', b'a', b'w', b'a', b'i', b'r', b' ', rest @ ..] => raw_air_behind(rest),
        _ => None,
    }
}

/// Says whether a line is `frag`.
pub fn is_frag(line: &[u8]) -> bool
    ensures { IsTrue result → form_of line.now ≡ Some Frag }
{
    match line {
        [b'f', b'r', b'a', b'g', rest @ ..] => is_no_more(rest),
        _ => false,
    }
}

/// Says whether a line is `status`.
pub fn is_status(line: &[u8]) -> bool
    ensures { IsTrue result → form_of line.now ≡ Some Status }
{
    match line {
        [b's', b't', b'a', b't', b'u', b's', rest @ ..] => is_no_more(rest),
        _ => false,
    }
}

/// Reads U of a line `up U`.
pub fn up_number(line: &[u8]) -> Option<u64>
    ensures { IfSome result (λ n. form_of line.now ≡ Some (Up n)) }
{
    match line {
        [b'u', b'p', b' ', rest @ ..] => Some(lone_decimal(rest)?),
        _ => None,
    }
}

/// Reads D of a line `ask D`.
pub fn asked_device(line: &[u8]) -> Option<u64>
    ensures one { IfSome result (λ n. form_of line.now ≡ Some (Ask n)) }
    ensures two { IfSome result (λ n. pair_form_of line.now ≡ of_none (Some (Ask n))) }
{
    match line {
        [b'a', b's', b'k', b' ', rest @ ..] => Some(lone_decimal(rest)?),
        _ => None,
    }
}

/// Reads D of a line `wake D`.
pub fn woken_device(line: &[u8]) -> Option<u64>
    ensures one { IfSome result (λ n. form_of line.now ≡ Some (Wake n)) }
    ensures two { IfSome result (λ n. pair_form_of line.now ≡ of_none (Some (Wake n))) }
{
    match line {
        [b'w', b'a', b'k', b'e', b' ', rest @ ..] => Some(lone_decimal(rest)?),
        _ => None,
    }
}

/// Reads D of a line `migrate D`.
pub fn migrated_device(line: &[u8]) -> Option<u64>
    ensures one { IfSome result (λ n. form_of line.now ≡ Some (Migrate n)) }
    ensures two { IfSome result (λ n. pair_form_of line.now ≡ of_none (Some (Migrate n))) }
{
    match line {
        [b'm', b'i', b'g', b'r', b'a', b't', b'e', b' ', rest @ ..] => Some(lone_decimal(rest)?),
        _ => None,
    }
}

/// Reads D of a line `power D`.
pub fn powered_device(line: &[u8]) -> Option<u64>
    ensures one { IfSome result (λ n. form_of line.now ≡ Some (Power n)) }
    ensures two { IfSome result (λ n. pair_form_of line.now ≡ of_none (Some (Power n))) }
{
    match line {
        [b'p', b'o', b'w', b'e', b'r', b' ', rest @ ..] => Some(lone_decimal(rest)?),
        _ => None,
    }
}

/// Reads MS of a line `at MS`.
pub fn time_at(line: &[u8]) -> Option<u64>
    ensures one { IfSome result (λ n. form_of line.now ≡ Some (At n)) }
    ensures two { IfSome result (λ n. pair_form_of line.now ≡ of_none (Some (At n))) }
{
    match line {
        [b'a', b't', b' ', rest @ ..] => Some(lone_decimal(rest)?),
        _ => None,
    }
}

/// The numbers after the keyword of a line `down S D [WORD]` or `air S D [WORD]`.
#[tactic(auto, using(crate::proofs::FastForms::down_line, crate::proofs::FastForms::air_line))]
fn numbers_behind(rest: &[u8]) -> Option<DownNumbers>
    ensures down { IfSome result
        (λ n. form_of (codes "down " ++ rest.now) ≡ Some (Down n.number n.device n.random)) }
    ensures air { IfSome result
        (λ n. form_of (codes "air " ++ rest.now) ≡ Some (Air n.number n.device n.random)) }
{
    let number = spaced_decimal(rest)?;
    let last = decimal_tail(number.rest)?;
    Some(DownNumbers {
        number: number.number,
        device: last.number,
        random: last.random,
    })
}

/// The parts after the keyword of a line `raw D PORT HEX [WORD]`.
#[tactic(auto, using(crate::proofs::FastForms::raw_line))]
fn raw_behind(rest: &[u8]) -> Option<RawParts<'_>>
    ensures { IfSome result
        (λ r. form_of (codes "raw " ++ rest.now) ≡ Some (Raw r.device r.port r.payload r.random)) }
{
    let device = spaced_decimal(rest)?;
    let port = spaced_decimal(device.rest)?;
    let last = hex_tail(port.rest)?;
    Some(RawParts {
        device: device.number,
        port: port.number,
        payload: last.bytes,
        random: last.random,
    })
}

/// The parts after the keyword of a line `rawair D HEX [WORD]`.
#[tactic(auto, using(crate::proofs::FastForms::raw_air_line))]
fn raw_air_behind(rest: &[u8]) -> Option<RawAirParts<'_>>
    ensures { IfSome result
        (λ r. form_of (codes "rawair " ++ rest.now) ≡ Some (RawAir r.device r.bytes r.random)) }
{
    let device = spaced_decimal(rest)?;
    let last = hex_tail(device.rest)?;
    Some(RawAirParts {
        device: device.number,
        bytes: last.bytes,
        random: last.random,
    })
}

/// HEX [WORD] at the end of a line.
fn hex_tail(bytes: &[u8]) -> Option<HexTail<'_>>
    ensures { IfSome result (λ t. WordLast hex_bytes_of bytes.now t.bytes t.random) }
{
    match first_space(bytes) {
        None => {
            let read = HexBytes::read(bytes)?;
            Some(HexTail {
                bytes: read,
                random: 0,
            })
        }
        Some(end) => {
            let read = HexBytes::read(bytes.split_at(end).0)?;
            let random = lone_decimal(bytes.split_at(end + 1).1)?;
            Some(HexTail {
                bytes: read,
                random,
            })
        }
    }
}

/// N [WORD] at the end of a line.
fn decimal_tail(bytes: &[u8]) -> Option<DecimalTail>
    ensures { IfSome result (λ t. WordLast decimal_of bytes.now t.number t.random) }
{
    let found = leading_decimal(bytes)?;
    if found.end >= bytes.len() {
        return Some(DecimalTail {
            number: found.number,
            random: 0,
        });
    }
    if bytes[found.end] != b' ' {
        return None;
    }
    let random = lone_decimal(bytes.split_at(found.end + 1).1)?;
    Some(DecimalTail {
        number: found.number,
        random,
    })
}

/// A decimal with a space after it at the front of bytes.
fn spaced_decimal(bytes: &[u8]) -> Option<Spaced<'_>>
    ensures { IfSome result (λ s. DecimalFirst bytes.now s.number s.rest.now) }
{
    let found = leading_decimal(bytes)?;
    if found.end >= bytes.len() || bytes[found.end] != b' ' {
        return None;
    }
    Some(Spaced {
        number: found.number,
        rest: bytes.split_at(found.end + 1).1,
    })
}

/// Whether nothing follows a keyword.
#[tactic(auto, using(crate::proofs::FastForms::frag_line, crate::proofs::FastForms::status_line))]
fn is_no_more(rest: &[u8]) -> bool
    ensures frag { IsTrue result → form_of (codes "frag" ++ rest.now) ≡ Some Frag }
    ensures status { IsTrue result → form_of (codes "status" ++ rest.now) ≡ Some Status }
{
    rest.is_empty()
}

/// The decimal after a keyword, the last word of its line. Callers take it by `?`, since a proof knows what it makes of the line
/// only where it has the number.
#[tactic(auto, using(crate::proofs::FastForms::decimal_last))]
fn lone_decimal(rest: &[u8]) -> Option<u64>
    ensures { IfSome result (λ n. DecimalLast rest.now n) }
{
    let found = leading_decimal(rest)?;
    if found.end < rest.len() {
        return None;
    }
    Some(found.number)
}

/// The decimal that the first digits of bytes make, whatever follows them.
fn leading_decimal(bytes: &[u8]) -> Option<Leading>
    ensures within { IfSome result (λ f. f.end ≤ length bytes.now) }
    ensures decimal { IfSome result (λ f. decimal_of (take f.end bytes.now) ≡ Some f.number) }
{
    let mut number = 0u64;
    let mut end = 0;
    while end < bytes.len() && bytes[end].is_ascii_digit() {
        number = number
            .saturating_mul(10)
            .saturating_add(u64::from(bytes[end] - b'0'));
        end += 1;
    }
    if end == 0 || (end > 1 && bytes[0] == b'0') {
        return None;
    }
    Some(Leading { number, end })
}
