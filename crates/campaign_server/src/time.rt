//! Clock synchronization at the server: the answer to an uplink that asks for the time.

ghost use Rattle.std.specs.Prelude.{◌≡◌, ◌<◌};
ghost use Rattle.package_grammar.specs.declared.command.Command.TheVariants.{Sync};
ghost use Rattle.sync_wire.specs.declared.cmd.Cmd.TheVariants.{AppTimeReq};
ghost use Rattle.package_grammar.specs.Grammar.{IsValid};
ghost use Rattle.campaign_server.specs.Asking.{by_unicast};
ghost use Rattle.campaign_server.specs.Time.{time_answer_to, time_answer};
ghost use Rattle.campaign_server.specs.Sent.{down_of};

use crate::spelling::unicast;
use clock_sync::{answer_needed, correction};
use package_grammar::{Command, Downlink, Message};
use sync_wire::{CLOCK_PORT, Cmd};

/// Makes the answer to the first AppTimeReq of an uplink that needs one, at t ms of true time (TS003-1.0.0); None where none
/// does.
pub fn time_answer(t: u64, mut message: Message) -> Option<Downlink>
    ensures { result ≡ down_of (by_unicast (time_answer t message.entry.commands)) }
{
    while let Some(command) = message.next() {
        if let Some(down) = time_answer_to(t, &command) {
            return Some(down);
        }
    }
    None
}

/// The answer to a command that asks for the time and needs one.
fn time_answer_to(t: u64, command: &Command) -> Option<Downlink>
    requires { IsValid command.now }
    ensures { result ≡ down_of (by_unicast (time_answer_to t command.now)) }
{
    match command {
        Command::Sync(
            Cmd::AppTimeReq {
                time,
                required,
                token,
            },
        ) => answer(t, *time, *required, *token),
        _ => None,
    }
}

fn answer(t: u64, time: u32, required: bool, token: u8) -> Option<Downlink>
    requires { token < 16 }
    ensures { result
        ≡ down_of (by_unicast (time_answer_to t (Sync (AppTimeReq time required token)))) }
{
    let seconds = (t / 1000 % (1 << 32)) as u32;
    let correction = correction(seconds, time);
    if !answer_needed(required, correction) {
        return None;
    }
    let command = Command::Sync(Cmd::AppTimeAns { correction, token });
    Some(unicast(CLOCK_PORT, &command))
}
