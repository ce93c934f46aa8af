//! Commands as the server sends them.

ghost use Rattle.std.specs.Prelude.{◌≡◌};
ghost use Rattle.campaign_server.specs.Server.{downlink_of};
ghost use Rattle.campaign_server.specs.Sent.{IsSent, unicast_of};

use package_grammar::{Command, Downlink, To, spell};
use wire_base::Direction;

/// Makes the downlink of a command to devices.
pub fn downlink(to: To, port: u8, command: &Command) -> Downlink
    requires { IsSent port command.now }
    ensures { result ≡ downlink_of (record { to = to; command = command.now }) }
{
    let mut down = Downlink::blank();
    down.to = to;
    down.port = port;
    spell(port, Direction::Down, command, &mut down.payload);
    down
}

/// Makes the downlink of a command to one device.
pub fn unicast(port: u8, command: &Command) -> Downlink
    requires { IsSent port command.now }
    ensures { result ≡ unicast_of command.now }
{
    downlink(To::Unicast, port, command)
}
