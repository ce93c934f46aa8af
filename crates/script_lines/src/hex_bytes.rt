//! The bytes that a word of hex digits spells.

ghost use Rattle.std.specs.Prelude.{◌≡◌, ◌≤◌, length, codes, is_some, true};
ghost use Rattle.std.specs.Str.{bytes_eq};
ghost use Rattle.std.specs.List.{list_all};
ghost use Rattle.std.specs.Char.{is_ascii_hexdigit};
ghost use Rattle.hex.specs.Hex.{decode_of};
ghost use Rattle.script_lines.specs.Numbers.{hex_bytes_of, bytes_in, read_part};
ghost use Rattle.script_lines.specs.Limits.{max_hex_bytes};

use crate::numbers::is_hex_word;
use arrayvec::ArrayVec;
use std::marker::Model;

/// The most bytes that a word spells: each has two digits, and a line has at most 600 bytes.
pub const MAX_HEX_BYTES: usize = 300;

/// Room for the bytes of a word before they are read.
static ZEROS: [u8; MAX_HEX_BYTES] = [0; MAX_HEX_BYTES];

/// A word of hex digits, or `-`, borrowed from its line. Contracts see the bytes that it spells, at most `MAX_HEX_BYTES`.
#[derive(Debug, Drop)]
pub struct HexBytes<'a> {
    word: &'a [u8],
}

impl<'a> Model for HexBytes<'a> {
    ghost use Rattle.std.specs.Prelude.{◌≡◌, ℕ, List, is_some, true};
    ghost use Rattle.script_lines.specs.Numbers.{hex_bytes_of, bytes_in};

    ghost Value = { List ℕ };

    ghost view = { λ h. bytes_in (hex_bytes_of h.word.now) };

    ghost invariant = { λ h. is_some (hex_bytes_of h.word.now) ≡ true };
}

impl<'a> HexBytes<'a> {
    /// Reads the bytes that an even number of hex digits of either case spells, at least two, or that `-` spells, which are none.
    /// A word of more than `MAX_HEX_BYTES` spells none.
    pub fn read(word: &'a [u8]) -> Option<Self>
        ensures { result ≡ hex_bytes_of word.now }
    {
        if is_spelling(word) {
            Some(HexBytes { word })
        } else {
            None
        }
    }

    /// Returns how many bytes there are.
    pub fn len(&self) -> usize
        ensures count { result ≡ length self.now }
        ensures few { result ≤ max_hex_bytes }
    {
        if is_dash(self.word) {
            0
        } else {
            self.word.len() / 2
        }
    }

    /// Replaces what `out` holds by these bytes.
    pub fn put(&self, out: &mut ArrayVec<u8, MAX_HEX_BYTES>)
        ensures { out.new.items ≡ self.now }
    {
        out.clear();
        out.try_extend_from_slice(&ZEROS[..self.len()]).unwrap();
        spell(self.word, out.as_mut_slice());
    }
}

/// Whether this is the word for no bytes.
fn is_dash(word: &[u8]) -> bool
    ensures { result ≡ bytes_eq word.now (codes "-") }
{
    word == b"-".as_slice()
}

/// Whether a word spells bytes.
#[tactic(auto, unfolding(crate::specs::Numbers::hex_bytes_of))]
fn is_spelling(word: &[u8]) -> bool
    ensures { result ≡ is_some (hex_bytes_of word.now) }
{
    is_dash(word) || (is_hex_word(word) && is_hex(word))
}

/// Whether these are pairs of hex digits.
fn is_hex(digits: &[u8]) -> bool
    ensures { result ≡ is_some (read_part (decode_of digits.now)) }
{
    digits.len() % 2 == 0 && are_hex_digits(digits)
}

fn are_hex_digits(bytes: &[u8]) -> bool
    ensures { result ≡ list_all is_ascii_hexdigit bytes.now }
{
    bytes.iter().all(|b| b.is_ascii_hexdigit())
}

/// Writes the bytes that a word spells over as many.
#[tactic(auto, unfolding(crate::specs::Numbers::hex_bytes_of))]
fn spell(word: &[u8], out: &mut [u8])
    requires spells { is_some (hex_bytes_of word.now) ≡ true }
    requires room { length out.old ≡ length (bytes_in (hex_bytes_of word.now)) }
    ensures { out.new ≡ bytes_in (hex_bytes_of word.now) }
{
    if is_dash(word) {
        return;
    }
    // (any other word spells them by its digits)
    hex::decode_to_slice(word, out).unwrap();
}
