//! The number of a payload's commands.
ghost use Rattle.std.specs.Prelude.{◌≡◌};
ghost use Rattle.package_grammar.specs.Reading.{reading_of, counted};

use crate::message::Message;
use wire_base::{Direction, Refusal};

/// Returns the number of commands of a payload, or where and why reading stops.
pub fn check(port: u8, dir: Direction, bytes: &[u8]) -> Result<u16, Refusal>
    ensures { result ≡ counted (reading_of port dir bytes.now) }
{
    match Message::read(port, dir, bytes) {
        Ok(message) => Ok(message.count()),
        Err(refusal) => Err(refusal),
    }
}
