ghost use Rattle.std.specs.Prelude.{◌≡◌, ℕ, ◌<◌, ◌≤◌, length, IfOk, OnOk, IfErr, Ok};
ghost use Rattle.wire_base.specs.Payload.{max_payload};
ghost use Rattle.cast_wire.specs.Table.{Spells, IsValid, IsRefusal};

use crate::cmd::Cmd;
use crate::ids::{FRAGMENT_PORT, MULTICAST_PORT};
use crate::reading_fragments::{read_fragment_down, read_fragment_up};
use crate::reading_groups::{read_group_down, read_group_up};
use wire_base::{Direction, MAX_PAYLOAD, Refusal};

/// Reads the command at a place of a payload (TS004-1.0.0, TS005-1.0.0), and returns it with the place after it; reserved bits
/// are ignored. Else the first cause: `Port` at 0, `TooLong` at 242, `UnknownCommand` at the place, `Short` at the payload's end.
#[inline(always)]
pub fn read_one(port: u8, dir: Direction, bytes: &[u8], at: u16) -> Result<(Cmd<'_>, u16), Refusal>
    requires { at < length bytes.now }
    // What is answered is spelled there.
    ensures found { IfOk result (λ r. Spells r.0 port dir bytes.now at r.1) }
    // What is spelled there is answered, in a payload that isn't too long.
    ensures only { (c : Cmd) (next : ℕ) → length bytes.now ≤ max_payload
        → Spells c port dir bytes.now at next → result ≡ Ok (c, next) }
    ensures fits { OnOk result (length bytes.now ≤ max_payload) }
    ensures valid { IfOk result (λ r. IsValid r.0) }
    ensures moves { IfOk result (λ r. at < r.1) }
    // Where nothing is answered: the place and the cause.
    ensures stops { IfErr result (IsRefusal port dir bytes.now at) }
{
    if port != FRAGMENT_PORT && port != MULTICAST_PORT {
        return Err(Refusal::port());
    }
    if bytes.len() > MAX_PAYLOAD {
        return Err(Refusal::too_long());
    }
    match dir {
        Direction::Down if port == MULTICAST_PORT => read_group_down(bytes, at),
        Direction::Down => read_fragment_down(bytes, at),
        Direction::Up if port == MULTICAST_PORT => read_group_up(bytes, at),
        Direction::Up => read_fragment_up(bytes, at),
    }
}
