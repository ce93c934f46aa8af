//! The canonical spelling of a command.
ghost use Rattle.std.specs.Prelude.{◌≡◌, []};
ghost use Rattle.wire_base.specs.Payload.{Appends};
ghost use Rattle.wire_base.specs.Rows.{IsListed};
ghost use Rattle.package_grammar.specs.Grammar.{row, IsValid, canonical};

use crate::command::Command;
use wire_base::{Direction, Full, Payload};

/// Puts the canonical spelling of a command at the end, whole or not at all; `Full` where there is no room. Port and direction
/// are those in which the table has the command; its bytes are the same in each.
pub fn write_one(port: u8, dir: Direction, command: &Command, out: &mut Payload) -> Result<(), Full>
    requires valid { IsValid command.now }
    requires listed { IsListed (row command.now) port dir }
    ensures { Appends out.old out.new (canonical command.now) result }
{
    // Only the contract asks where the command goes.
    let _where = (port, dir);
    match command {
        Command::Sync(cmd) => sync_wire::write_one(cmd, out),
        Command::Cast(cmd) => cast_wire::write_one(cmd, out),
    }
}

/// Puts the canonical spelling of a command into a payload without bytes.
#[tactic(auto, using(crate::proofs::Written::fits))]
pub fn spell(port: u8, direction: Direction, command: &Command, payload: &mut Payload)
    requires valid { IsValid command.now }
    requires listed { IsListed (row command.now) port direction }
    requires empty { payload.old ≡ [] }
    ensures { payload.new ≡ canonical command.now }
{
    // (one command fits an empty payload)
    let _fits = write_one(port, direction, command, payload);
}

/// Makes a payload of one command in its canonical spelling.
pub fn spelled(port: u8, direction: Direction, command: &Command) -> Payload
    requires valid { IsValid command.now }
    requires listed { IsListed (row command.now) port direction }
    ensures { result ≡ canonical command.now }
{
    let mut payload = Payload::new();
    spell(port, direction, command, &mut payload);
    payload
}
