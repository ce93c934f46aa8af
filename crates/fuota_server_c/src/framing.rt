//! A payload to the group as its multicast frame.

ghost use Rattle.std.specs.Prelude.{◌≡◌, ◌≤◌};
ghost use Rattle.wire_base.specs.Payload.{max_payload};
ghost use Rattle.c_base.specs.Calls.{Tells};
ghost use Rattle.fuota_server_c.specs.Sent.{GivesFrame, downlink_of, to_of};

use crate::sent::DownFields;
use crate::server_handle::ServerHandle;
use c_base::put_whole;
use package_grammar::{Downlink, To};
use std::alloc::Global;
use wire_base::{MAX_PAYLOAD, Payload};

/// Writes a payload to the plan's group as its frame of LoRaWAN 1.0.x, at most 255 bytes, to the front of `into`, and returns
/// their count; 0 where it is to others, on port 0 or longer than 242 bytes, where its frame has no room, or without a server.
#[unsafe(no_mangle)]
pub extern "C" fn fuota_server_frame(
    handle: &mut ServerHandle,
    alloc: Global,
    down: &DownFields,
    into: &mut [u8],
) -> usize
    ensures same { handle.new.held ≡ handle.old.held }
    ensures frame { Tells handle.old.held (λ x. GivesFrame x down.now into.old into.new result)
        ((result ≡ 0) × (into.new ≡ into.old)) }
{
    let Some(campaign) = handle.get_mut() else {
        return 0;
    };
    if down.length > MAX_PAYLOAD {
        return 0;
    }
    let down = downlink_of(down);
    if !campaign.server().has_frame(&down) {
        return 0;
    }
    put_whole(campaign.server().frame(&down).as_slice(), into)
}

fn downlink_of(fields: &DownFields) -> Downlink
    requires { fields.now.length ≤ max_payload }
    ensures { result ≡ downlink_of fields.now }
{
    Downlink {
        to: to_of(fields),
        port: fields.port,
        payload: Payload::from_slice(&fields.payload[..fields.length]),
    }
}

fn to_of(fields: &DownFields) -> To
    ensures { result ≡ to_of fields.now }
{
    if fields.is_group {
        To::Group {
            addr: fields.addr,
            count: fields.count,
        }
    } else {
        To::Unicast
    }
}
