//! One command of a payload.
ghost use Rattle.std.specs.Prelude.{◌≡◌, ℕ, ◌<◌, ◌≤◌, length, IfOk, OnOk, IfErr, Ok};
ghost use Rattle.wire_base.specs.Payload.{max_payload};
ghost use Rattle.package_grammar.specs.declared.command.Command.{Command};
ghost use Rattle.package_grammar.specs.Grammar.{Spells, IsValid, IsRefusal};

use crate::command::Command;
use wire_base::{Direction, Refusal};

/// Reads the command at a place of a payload, and returns it with the place after it; reserved bits are ignored. Else the first
/// cause: `Port` at 0, `TooLong` at 242, `UnknownCommand` at the place, `Short` at the payload's end.
#[inline(always)]
#[tactic(auto, using(crate::proofs::Tables::sync_cause, crate::proofs::Tables::cast_cause, crate::proofs::Tables::not_sync, crate::proofs::Tables::not_cast, crate::proofs::Tables::within))]
pub fn read_one(
    port: u8,
    dir: Direction,
    bytes: &[u8],
    at: u16,
) -> Result<(Command<'_>, u16), Refusal>
    requires { at < length bytes.now }
    // What is answered is spelled there.
    ensures found { IfOk result (λ r. Spells r.0 port dir bytes.now at r.1) }
    // What is spelled there is answered, in a payload that is not too long.
    ensures only { (c : Command) (next : ℕ) → length bytes.now ≤ max_payload
        → Spells c port dir bytes.now at next → result ≡ Ok (c, next) }
    ensures fits { OnOk result (length bytes.now ≤ max_payload) }
    ensures valid { IfOk result (λ r. IsValid r.0) }
    ensures moves { IfOk result (λ r. at < r.1) }
    ensures within { IfOk result (λ r. r.1 ≤ length bytes.now) }
    // Where nothing is answered: the place and the cause.
    ensures stops { IfErr result (IsRefusal port dir bytes.now at) }
{
    if port == sync_wire::CLOCK_PORT || port == sync_wire::FIRMWARE_PORT {
        return match sync_wire::read_one(port, dir, bytes, at) {
            Ok((cmd, next)) => Ok((Command::Sync(cmd), next)),
            Err(refusal) => Err(refusal),
        };
    }
    match cast_wire::read_one(port, dir, bytes, at) {
        Ok((cmd, next)) => Ok((Command::Cast(cmd), next)),
        Err(refusal) => Err(refusal),
    }
}
