//! The commands that are one byte, and their names.
ghost use Rattle.std.specs.Prelude.{◌≡◌, ◌+◌, ◌<◌, IfSome, IsTrue, ◌↔◌, length};
ghost use Rattle.package_grammar.specs.declared.command.Command.{Command};
ghost use Rattle.package_grammar.specs.Grammar.{IsPort, Spells};
ghost use Rattle.package_grammar.specs.Texts.{text_of};

use cast_wire::MULTICAST_PORT;
use sync_wire::{DEV_VERSION, FIRMWARE_PORT, PACKAGE_VERSION, UPGRADE_IMAGE};
use wire_base::{Direction, u8_at};

/// Returns the text of the command at a place of a payload, where it is one of those without fields.
pub fn name_at(port: u8, dir: Direction, bytes: &[u8], at: u16) -> Option<&'static str>
    requires { at < length bytes.now }
    ensures { IfSome result
        (λ name. (c : Command) × Spells c port dir bytes.now at (at + 1) × (text_of c ≡ name.now)) }
{
    match dir {
        Direction::Up => None,
        Direction::Down => match u8_at(bytes, at) {
            PACKAGE_VERSION if is_port(port) => Some("PackageVersionReq"),
            DEV_VERSION if port == FIRMWARE_PORT => Some("DevVersionReq"),
            UPGRADE_IMAGE if port == FIRMWARE_PORT => Some("DevUpgradeImageReq"),
            _ => None,
        },
    }
}

/// Says whether the port is one of the four packages'.
pub fn is_port(port: u8) -> bool
    ensures { IsTrue result ↔ IsPort port }
{
    port >= MULTICAST_PORT && port <= FIRMWARE_PORT
}
