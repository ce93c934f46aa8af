//! What the server of a campaign sends: each payload is written, and then numbered. It is sent as a frame where it has one.

ghost use Rattle.std.specs.Prelude.{◌≡◌, ◌≤◌, ◌++◌, ℕ, length, Option, None, Some, OnErr, option_map};
ghost use Rattle.std.specs.Result.{result_ok};
ghost use Rattle.wire_base.specs.Numbered.{numbered};
ghost use Rattle.campaign_server.specs.Asking.{request_of};
ghost use Rattle.campaign_server.specs.Fragments.{next_fragment, after_fragment, status_to_all, after_status_to_all};
ghost use Rattle.campaign_server.specs.Uplinks.{uplink_step};
ghost use Rattle.campaign_server.specs.Sent.{down_of};
ghost use Rattle.campaign_world.specs.Making.{with_sent, sent_frame, after_up, at_events};
ghost use Rattle.campaign_world.specs.HeldWorld.{sent_by, answered};
ghost use Rattle.campaign_world.specs.HeldLog.{HasRoom};
ghost use Rattle.campaign_world.specs.declared.numbered.NumberedUplink.{NumberedUplink};

use super::events::Campaign;
use crate::logs::SentLog;
use crate::numbered::NumberedUplink;
use campaign_server::Server;
use mc_frames::Frame;
use package_grammar::Downlink;
use std::alloc::AllocError;
use wire_base::Refusal;

impl Campaign {
    ghost use Rattle.campaign_world.specs.HeldWorld.{Plays, SameEnds};

    /// Sends the request of a device's stage to it.
    #[inline(never)]
    pub(super) fn ask(&mut self, device: u8) -> Result<(), AllocError>
        requires first { 1 ≤ device }
        requires last { device ≤ length self.old.devices }
        ensures taken { (lines : ℕ) → Plays lines self.old self.new result
            (λ world. at_events (with_sent world (Some device) (request_of world.server device))) }
        ensures ends { OnErr result (SameEnds self.old self.new) }
    {
        self.sent.reserve()?;
        send_request(&mut self.sent, &self.server, device);
        Ok(())
    }

    /// Sends the next fragment, to any device.
    #[inline(never)]
    pub(super) fn frag(&mut self) -> Result<(), AllocError>
        ensures taken { (lines : ℕ) → Plays lines self.old self.new result (λ world. at_events
            (with_sent (record world { server = after_fragment world.server }) None
            (result_ok (next_fragment world.server)))) }
        ensures ends { OnErr result (SameEnds self.old self.new) }
    {
        self.sent.reserve()?;
        send_fragment(&mut self.sent, &mut self.server);
        Ok(())
    }

    /// Asks all devices for their status.
    #[inline(never)]
    pub(super) fn status(&mut self) -> Result<(), AllocError>
        ensures taken { (lines : ℕ) → Plays lines self.old self.new result (λ world. at_events
            (with_sent (record world { server = after_status_to_all world.server }) None
            (status_to_all world.server))) }
        ensures ends { OnErr result (SameEnds self.old self.new) }
    {
        self.sent.reserve()?;
        send_status(&mut self.sent, &mut self.server);
        Ok(())
    }

    /// Takes uplink U to the server, which may answer.
    #[inline(never)]
    pub(super) fn up(&mut self, number: u64) -> Result<(), AllocError>
        requires made { (m : NumberedUplink) × (numbered self.old.uplinks number ≡ Some m) }
        ensures taken { (lines : ℕ) → Plays lines self.old self.new result
            (λ world. at_events (after_up world (numbered world.uplinks number))) }
        ensures ends { OnErr result (SameEnds self.old self.new) }
    {
        self.sent.reserve()?;
        let made = self.uplinks.number(number).unwrap();
        send_answer(&mut self.sent, &mut self.server, &made, self.time);
        Ok(())
    }
}

/// Returns the frame of a sent payload, where it has one.
pub fn sent_frame(server: &Server, sent: &SentLog, number: u64) -> Option<Frame>
    ensures { option_map (λ frame. frame.items) result
        ≡ sent_frame server.now.plan.group (numbered sent.now.items number) }
{
    match sent.number(number) {
        Some(found) => frame_of(server, &found.down.copied()),
        None => None,
    }
}

/// The frame of a payload, where it has one.
fn frame_of(server: &Server, down: &Downlink) -> Option<Frame>
    ensures { (receiver : Option ℕ) → option_map (λ frame. frame.items) result ≡ sent_frame
        server.now.plan.group (Some (record { receiver = receiver; down = down.now })) }
{
    if server.has_frame(down) {
        Some(server.frame(down))
    } else {
        None
    }
}

/// Numbers the request of the stage of a device, where there is one. There is room for it.
fn send_request(sent: &mut SentLog, server: &Server, device: u8)
    requires first { 1 ≤ device }
    requires last { device ≤ length server.now.plan.devices }
    requires room { HasRoom 1 sent.old }
    ensures { sent.new.items
        ≡ sent.old.items ++ sent_by (Some device) (down_of (request_of server.now device)) }
{
    keep(sent, Some(device), &server.ask(device));
}

/// Numbers the next fragment, where there is one. There is room for it.
fn send_fragment(sent: &mut SentLog, server: &mut Server)
    requires { HasRoom 1 sent.old }
    ensures sent { sent.new.items
        ≡ sent.old.items ++ sent_by None (down_of (result_ok (next_fragment server.old))) }
    ensures moved { server.new ≡ after_fragment server.old }
{
    keep(sent, None, &server.next_fragment().ok());
}

/// Numbers the status request to all devices, where there is one. There is room for it.
fn send_status(sent: &mut SentLog, server: &mut Server)
    requires { HasRoom 1 sent.old }
    ensures sent { sent.new.items
        ≡ sent.old.items ++ sent_by None (down_of (status_to_all server.old)) }
    ensures moved { server.new ≡ after_status_to_all server.old }
{
    keep(sent, None, &server.status_all());
}

/// Numbers the server's answer to an uplink; there is none to one that it refuses. There is room for it.
fn send_answer(sent: &mut SentLog, server: &mut Server, made: &NumberedUplink<'_>, t: u64)
    requires first { 1 ≤ made.now.device }
    requires last { made.now.device ≤ length server.old.plan.devices }
    requires room { HasRoom 1 sent.old }
    ensures sent { sent.new.items ≡ sent.old.items ++ sent_by (Some made.now.device)
        (down_of (answered (uplink_step server.old made.now.device made.now.uplink.port
        made.now.uplink.payload t).answer)) }
    ensures moved { server.new ≡ (uplink_step server.old made.now.device made.now.uplink.port
        made.now.uplink.payload t).server }
{
    let device = made.device;
    let uplink = &made.uplink;
    let heard = server.uplink(device, uplink.port(), uplink.bytes(), t);
    keep(sent, Some(device), &answered(heard));
}

/// The answer to an uplink, where it was taken and is answered.
fn answered(heard: Result<Option<Downlink>, Refusal>) -> Option<Downlink>
    ensures { result ≡ answered heard }
{
    match heard {
        Ok(answer) => answer,
        Err(_) => None,
    }
}

/// Numbers a payload, where there is one. There is room for it.
fn keep(sent: &mut SentLog, receiver: Option<u8>, down: &Option<Downlink>)
    requires { HasRoom 1 sent.old }
    ensures { sent.new.items ≡ sent.old.items ++ sent_by receiver down.now }
{
    if let Some(down) = down {
        sent.push(receiver, down);
    }
}
