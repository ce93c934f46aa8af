//! Requests to a device that no campaign makes by itself: that it deletes what a campaign left, and that it asks for the time.

ghost use Rattle.std.specs.Prelude.{◌≡◌};
ghost use Rattle.wire_base.specs.declared.refusal.Direction.TheVariants.{Down};
ghost use Rattle.wire_base.specs.Rows.{IsListed};
ghost use Rattle.cast_wire.specs.declared.cmd.Cmd.TheVariants.{FragSessionDeleteReq, McGroupDeleteReq};
ghost use Rattle.sync_wire.specs.declared.cmd.Cmd.TheVariants.{ForceDeviceResyncReq, DevDeleteImageReq};
ghost use Rattle.package_grammar.specs.declared.command.Command.TheVariants.{Cast, Sync};
ghost use Rattle.package_grammar.specs.Grammar.{row};
ghost use Rattle.campaign_server.specs.Server.{port_of};
ghost use Rattle.fuota_server_c.specs.Requests.{IsRequestOut};

use crate::sent::{DownFields, put_down};
use c_base::answer::{DONE, RANGE};
use cast_wire::{FRAGMENT_PORT, MULTICAST_PORT};
use package_grammar::{Command, Downlink, To, spelled, valid};
use sync_wire::{CLOCK_PORT, FIRMWARE_PORT};
use wire_base::Direction;

/// Writes a FragSessionDeleteReq for the session of an index: done; out of range above 3.
#[unsafe(no_mangle)]
pub extern "C" fn fuota_frag_session_delete(index: u8, out: &mut DownFields) -> u8
    ensures { IsRequestOut (Cast (FragSessionDeleteReq index)) out.old out.new result }
{
    let request = cast_wire::Cmd::FragSessionDeleteReq { index };
    put_request(FRAGMENT_PORT, &Command::Cast(request), out)
}

/// Writes a McGroupDeleteReq for the group of an id: done; out of range above 3.
#[unsafe(no_mangle)]
pub extern "C" fn fuota_mc_group_delete(id: u8, out: &mut DownFields) -> u8
    ensures { IsRequestOut (Cast (McGroupDeleteReq id)) out.old out.new result }
{
    put_request(
        MULTICAST_PORT,
        &Command::Cast(cast_wire::Cmd::McGroupDeleteReq { id }),
        out,
    )
}

/// Writes a DevDeleteImageReq for the image of a firmware version: done.
#[unsafe(no_mangle)]
pub extern "C" fn fuota_dev_delete_image(version: u32, out: &mut DownFields) -> u8
    ensures { IsRequestOut (Sync (DevDeleteImageReq version)) out.old out.new result }
{
    let request = sync_wire::Cmd::DevDeleteImageReq { version };
    put_request(FIRMWARE_PORT, &Command::Sync(request), out)
}

/// Writes a ForceDeviceResyncReq, after which a device asks for the time `count` times: done; out of range above 7.
#[unsafe(no_mangle)]
pub extern "C" fn fuota_force_device_resync(count: u8, out: &mut DownFields) -> u8
    ensures { IsRequestOut (Sync (ForceDeviceResyncReq count)) out.old out.new result }
{
    put_request(
        CLOCK_PORT,
        &Command::Sync(sync_wire::Cmd::ForceDeviceResyncReq { count }),
        out,
    )
}

/// Writes a request by unicast: done; out of range where a field is beyond its bits.
fn put_request(port: u8, command: &Command, out: &mut DownFields) -> u8
    requires listed { IsListed (row command.now) port Down }
    requires own { port ≡ port_of command.now }
    ensures { IsRequestOut command.now out.old out.new result }
{
    if !valid(command) {
        return RANGE;
    }
    let mut down = Downlink::blank();
    down.to = To::Unicast;
    down.port = port;
    down.payload = spelled(port, Direction::Down, command);
    put_down(&down, out);
    DONE
}
