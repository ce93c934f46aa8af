//! Decimals, keys and hex numbers.

ghost use Rattle.std.specs.Prelude.{◌≡◌, ◌-◌, ◌^◌, IsTrue, min};
ghost use Rattle.std.specs.List.{list_all};
ghost use Rattle.hex.specs.Hex.{decode_of};
ghost use Rattle.std.specs.Char.{is_ascii_digit};
ghost use Rattle.script_lines.specs.Numbers.{is_decimal, decimal_number, decimal_of, key_of, hex_number_of, is_hex_word};

use crate::forms::Key;
use crate::hex_bytes::MAX_HEX_BYTES;

fn are_digits(bytes: &[u8]) -> bool
    ensures { result ≡ list_all is_ascii_digit bytes.now }
{
    bytes.iter().all(|b| b.is_ascii_digit())
}

/// Whether these are the digits of a decimal.
fn is_decimal(digits: &[u8]) -> bool
    ensures { result ≡ is_decimal digits.now }
{
    match digits {
        [] => false,
        [only] => only.is_ascii_digit(),
        [first, rest @ ..] => first.is_ascii_digit() && *first != b'0' && are_digits(rest),
    }
}

/// The number that digits make, or the type's greatest.
fn decimal_number(digits: &[u8]) -> u64
    requires { IsTrue (list_all is_ascii_digit digits.now) }
    ensures { result ≡ min (2 ^ 64 - 1) (decimal_number digits.now) }
{
    let mut number = 0u64;
    for digit in digits {
        number = number
            .saturating_mul(10)
            .saturating_add(u64::from(*digit - b'0'));
    }
    number
}

/// Reads the decimal that a word spells, without a sign or a leading zero except 0 itself; one above 2^64 - 1 is held as that.
#[tactic(auto, unfolding(crate::specs::Numbers::decimal_of))]
pub fn decimal(digits: &[u8]) -> Option<u64>
    ensures { result ≡ decimal_of digits.now }
{
    if is_decimal(digits) {
        Some(decimal_number(digits))
    } else {
        None
    }
}

/// Reads the key that 32 hex digits of either case spell.
#[tactic(auto, unfolding(crate::specs::Numbers::key_of))]
pub fn key(digits: &[u8]) -> Option<Key>
    ensures { result ≡ key_of digits.now }
{
    let mut key = [0; 16];
    match hex::decode_to_slice(digits, &mut key) {
        Ok(()) => Some(key),
        Err(_) => None,
    }
}

/// Reads the number that 8 hex digits of either case spell, the most significant first.
#[tactic(auto, unfolding(crate::specs::Numbers::hex_number_of))]
pub fn hex_number(digits: &[u8]) -> Option<u32>
    ensures { result ≡ hex_number_of digits.now }
{
    let mut bytes = [0; 4];
    match hex::decode_to_slice(digits, &mut bytes) {
        Ok(()) => Some(u32::from_be_bytes(bytes)),
        Err(_) => None,
    }
}

/// Says whether a word has digits, and no more than a line's.
pub fn is_hex_word(digits: &[u8]) -> bool
    ensures { result ≡ is_hex_word digits.now }
{
    1 <= digits.len() && digits.len() <= 2 * MAX_HEX_BYTES
}
