//! The values of the command line's words.

ghost use Rattle.std.specs.Prelude.{◌≡◌, ◌≤◌, IfSome};
ghost use Rattle.fuota_run.specs.Words.{within, port_of_word, device_of_word, seed_of_word, direction_of_word};

use script_lines::decimal;
use wire_base::Direction;

/// A number, where it is from the first to the last.
fn within(n: u64, first: u64, last: u64) -> Option<u64>
    ensures value { result ≡ within first last n }
    ensures bounds { IfSome result (λ m. (first ≤ m) × (m ≤ last)) }
{
    if first <= n && n <= last {
        Some(n)
    } else {
        None
    }
}

/// Reads the port that a word spells, 200 to 203.
pub fn port_of_word(word: &str) -> Option<u8>
    ensures { result ≡ port_of_word word.now }
{
    let port = within(decimal(word.as_bytes())?, 200, 203)?;
    Some(port as u8)
}

/// Reads the device that a word spells, 1 to 64.
pub fn device_of_word(word: &str) -> Option<u8>
    ensures { result ≡ device_of_word word.now }
{
    let device = within(decimal(word.as_bytes())?, 1, 64)?;
    Some(device as u8)
}

/// Reads the seed that a word spells, 0 to 4,294,967,295.
pub fn seed_of_word(word: &str) -> Option<u32>
    ensures { result ≡ seed_of_word word.now }
{
    let seed = decimal(word.as_bytes())?;
    if seed < 1 << 32 {
        Some(seed as u32)
    } else {
        None
    }
}

/// Reads the direction that a word spells.
pub fn direction_of_word(word: &str) -> Option<Direction>
    ensures { result ≡ direction_of_word word.now }
{
    if word == "down" {
        Some(Direction::Down)
    } else if word == "up" {
        Some(Direction::Up)
    } else {
        None
    }
}
