//! A server that knows how many devices its plan has.

use crate::sent::{DownFields, put_down, put_or};
use c_base::answer::{DONE, NOTHING, RANGE, REFUSED, SPENT};
use campaign_server::{Server, Spent};
use std::marker::Model;
use wire_base::MAX_PAYLOAD;

/// The server of a campaign, with the number of its devices. Contracts see the server.
#[derive(Drop)]
pub struct Campaign {
    server: Server,
    devices: usize,
}

impl Model for Campaign {
    ghost use Rattle.std.specs.Prelude.{◌≡◌, length};
    ghost use Rattle.campaign_server.specs.Server.{ServerState};

    ghost Value = { ServerState };

    ghost view = { λ c. c.server };

    ghost invariant = { λ c. c.devices ≡ length c.server.plan.devices };
}

impl Campaign {
    ghost use Rattle.std.specs.Prelude.{◌≡◌, length};
    ghost use Rattle.campaign_server.specs.Uplinks.{uplink_step};
    ghost use Rattle.fuota_server_c.specs.Sent.{SendsFragment, SendsStatus, TakesUplink, has_device};

    /// The campaign of a server, and the number of its plan's devices.
    pub fn of(server: Server, devices: usize) -> Campaign
        requires { devices ≡ length server.plan.devices }
        ensures { result ≡ server }
    {
        Campaign { server, devices }
    }

    /// The server, for what only reads.
    pub fn server(&self) -> &Server
        ensures { result.now ≡ self.now }
    {
        &self.server
    }

    /// Says whether the plan has a device of this number.
    pub fn has_device(&self, dev: u8) -> bool
        ensures { result ≡ has_device self.now dev }
    {
        1 <= dev && dev as usize <= self.devices
    }

    /// Writes the next fragment to all devices.
    #[tactic(auto, unfolding(campaign_server::specs::Fragments::after_fragment))]
    pub fn next_fragment(&mut self, out: &mut DownFields) -> u8
        ensures { SendsFragment self.old self.new out.old out.new result }
    {
        match self.server.next_fragment() {
            Ok(down) => {
                put_down(&down, out);
                DONE
            }
            Err(Spent::Fragments) => NOTHING,
            Err(Spent::Counts) => SPENT,
        }
    }

    /// Writes a FragSessionStatusReq to all devices.
    #[tactic(auto, unfolding(campaign_server::specs::Fragments::after_status_to_all))]
    pub fn status_all(&mut self, out: &mut DownFields) -> u8
        ensures { SendsStatus self.old self.new out.old out.new result }
    {
        put_or(self.server.status_all(), SPENT, out)
    }

    /// Takes an uplink of a device on a port, at `t` ms of GPS time, and writes the answer that is due.
    #[tactic(auto, unfolding(campaign_server::specs::Uplinks::uplink_step, campaign_server::specs::Uplinks::read_uplink))]
    pub fn uplink(&mut self, dev: u8, port: u8, payload: &[u8], t: u64, out: &mut DownFields) -> u8
        ensures { TakesUplink self.old self.new dev payload.now
            (uplink_step self.old dev port payload.now t) out.old out.new result }
    {
        if !self.has_device(dev) || payload.len() > MAX_PAYLOAD {
            return RANGE;
        }
        match self.server.uplink(dev, port, payload, t) {
            Ok(answer) => put_or(answer, NOTHING, out),
            Err(_) => REFUSED,
        }
    }
}
