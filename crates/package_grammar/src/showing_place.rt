//! The text of a command at its place.
ghost use Rattle.std.specs.Prelude.{◌≡◌, ◌≢◌, ℕ, ◌<◌, ◌≤◌, Ok, None, IfOk, IfSome, length, string_bytes};
ghost use Rattle.wire_base.specs.Payload.{max_payload};
ghost use Rattle.sync_wire.specs.declared.cmd.Cmd.{Cmd as SyncCmd};
ghost use Rattle.cast_wire.specs.declared.cmd.Cmd.{Cmd as CastCmd};
ghost use Rattle.package_grammar.specs.declared.command.Command.{Command};
ghost use Rattle.package_grammar.specs.declared.command.Command.TheVariants.{Sync, Cast};
ghost use Rattle.package_grammar.specs.Grammar.{Spells};
ghost use Rattle.package_grammar.specs.MessageInside.{IsPutAt};

use crate::showing_cast::put_cast;
use crate::showing_sync::put_sync;
use cast_wire::FRAGMENT_PORT;
use std::alloc::AllocError;
use sync_wire::{CLOCK_PORT, FIRMWARE_PORT};
use wire_base::Direction;

/// Puts the text of the command at a place of a payload at the end, and returns the place after it; None exactly where none is
/// spelled there. The command is shown where it was read, and not moved.
#[tactic(auto, using(crate::proofs::Tables::not_sync, crate::proofs::Tables::not_cast))]
pub(crate) fn put_at(
    port: u8,
    dir: Direction,
    bytes: &[u8],
    at: u16,
    text: &mut String,
) -> Result<Option<u16>, AllocError>
    requires { at < length bytes.now }
    ensures put { IfOk result (λ found. IfSome found
        (IsPutAt port dir bytes.now at (string_bytes text.old) (string_bytes text.new))) }
    ensures none { (c : Command) (next : ℕ) → length bytes.now ≤ max_payload
        → Spells c port dir bytes.now at next → result ≢ Ok None }
{
    if port == CLOCK_PORT || port == FIRMWARE_PORT {
        return put_sync_at(port, dir, bytes, at, text);
    }
    if port == FRAGMENT_PORT {
        return match dir {
            Direction::Down => put_cast_at(FRAGMENT_PORT, Direction::Down, bytes, at, text),
            Direction::Up => put_cast_at(FRAGMENT_PORT, Direction::Up, bytes, at, text),
        };
    }
    match dir {
        Direction::Down => put_cast_at(port, Direction::Down, bytes, at, text),
        Direction::Up => put_cast_at(port, Direction::Up, bytes, at, text),
    }
}

/// The same for the commands of ports 202 and 203.
fn put_sync_at(
    port: u8,
    dir: Direction,
    bytes: &[u8],
    at: u16,
    text: &mut String,
) -> Result<Option<u16>, AllocError>
    requires { at < length bytes.now }
    ensures put { IfOk result (λ found. IfSome found
        (IsPutAt port dir bytes.now at (string_bytes text.old) (string_bytes text.new))) }
    ensures none { (c : SyncCmd) (next : ℕ) → length bytes.now ≤ max_payload
        → Spells (Sync c) port dir bytes.now at next → result ≢ Ok None }
{
    let read = sync_wire::read_one(port, dir, bytes, at);
    match &read {
        Ok((cmd, next)) => {
            put_sync(cmd, text)?;
            Ok(Some(*next))
        }
        Err(_) => Ok(None),
    }
}

/// The same for the commands of ports 200 and 201. It is compiled for each port and direction by itself, since the compiler then
/// knows which commands there are.
#[inline(always)]
fn put_cast_at(
    port: u8,
    dir: Direction,
    bytes: &[u8],
    at: u16,
    text: &mut String,
) -> Result<Option<u16>, AllocError>
    requires { at < length bytes.now }
    ensures put { IfOk result (λ found. IfSome found
        (IsPutAt port dir bytes.now at (string_bytes text.old) (string_bytes text.new))) }
    ensures none { (c : CastCmd) (next : ℕ) → length bytes.now ≤ max_payload
        → Spells (Cast c) port dir bytes.now at next → result ≢ Ok None }
{
    let read = cast_wire::read_one(port, dir, bytes, at);
    match &read {
        Ok((cmd, next)) => {
            put_cast(cmd, text)?;
            Ok(Some(*next))
        }
        Err(_) => Ok(None),
    }
}
