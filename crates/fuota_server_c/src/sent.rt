//! What a server sends.

ghost use Rattle.fuota_server_c.specs.Sent.{IsDownOut, IsOut};

use c_base::answer::DONE;
use c_base::put_whole;
use package_grammar::{Downlink, To};

/// A payload on its way to devices, its bytes the first `length`: by unicast, or to the multicast group with an address, with a
/// frame count.
#[repr(C)]
#[derive(Drop)]
pub struct DownFields {
    pub length: usize,
    pub addr: u32,
    pub count: u32,
    pub port: u8,
    pub is_group: bool,
    pub payload: [u8; 242],
}

/// Writes a payload and whom it is for.
pub fn put_down(down: &Downlink, out: &mut DownFields)
    ensures { IsDownOut down.now out.old out.new }
{
    out.port = down.port;
    out.length = put_whole(down.payload.as_slice(), &mut out.payload);
    match down.to {
        To::Unicast => out.is_group = false,
        To::Group { addr, count } => {
            out.is_group = true;
            out.addr = addr;
            out.count = count;
        }
    }
}

/// Writes a payload, where there is one: done, else the answer `none`.
pub fn put_or(down: Option<Downlink>, none: u8, out: &mut DownFields) -> u8
    ensures { IsOut down none out.old out.new result }
{
    match down {
        None => none,
        Some(down) => {
            put_down(&down, out);
            DONE
        }
    }
}
