//! A sample: a campaign as a network server runs it, from the plan to the ledger (TS004, TS005 and TS006, 1.0.0): what goes into
//! a queue, and what an uplink changes. When anything is sent, duty cycles and FPending are left to the operator.
#![tactic(auto)]

ghost use Rattle.std.specs.Prelude.{◌≡◌, ◌≤◌, ◌<◌, ◌↔◌, true, false, length, Some, Ok, Err, IfOk};
ghost use Rattle.std.specs.Result.{result_ok};
ghost use Rattle.image_slots.specs.Image.{is_image};
ghost use Rattle.campaign_server.specs.declared.plan.Field.{Field};
ghost use Rattle.campaign_server.specs.Plan.{bad_field};
ghost use Rattle.campaign_server.specs.Saving.{IsOver, saved_of};
ghost use Rattle.campaign_server.specs.Server.{first_server, ledger};
ghost use Rattle.campaign_server.specs.Sent.{down_of, answer_of};
ghost use Rattle.campaign_server.specs.Asking.{request_of};
ghost use Rattle.campaign_server.specs.Fragments.{next_fragment, after_fragment};
ghost use Rattle.campaign_server.specs.Uplinks.{uplink_step};
ghost use Rattle.sample_server.specs.Campaign.{plan_for};
ghost use Rattle.campaign_server.specs.declared.stage.Stage.TheVariants.{Updated};

use campaign_server::{
    Kind, Plan, PlanDevice, PlanGroup, PlanWindow, RestoreError, SavedServer, Server, ServerError,
    Stage,
};
use package_grammar::Downlink;
use std::alloc::Global;
use wire_base::Refusal;

// sample
/// A campaign of an image file, by a group of class C: pieces of 48 bytes, 16 coded fragments, and a window of 2^14 s from
/// `start` on, in s of GPS time, on 869.525 MHz at data rate 3. At a duty cycle of 10 % it carries the longest image, of
/// 4,096 pieces, in 4 h 13 min of its 4 h 33 min. Its devices, 1 to 64, are numbered in order from 1.
pub fn campaign(
    alloc: Global,
    image: &[u8],
    group: PlanGroup,
    start: u32,
    devices: Vec<PlanDevice>,
) -> Result<Server, ServerError>
    requires { is_image image.now ≡ true }
    ensures fresh { IfOk result
        (λ s. s ≡ first_server image.now (plan_for group start devices.items)) }
    ensures bad_plan { (field : Field) → (result ≡ Err (ServerError.BadPlan field))
        ↔ (bad_field (length image.now) (plan_for group start devices.items) ≡ Some field) }
{
    Server::new(alloc, plan_for(group, start, devices), image)
}

/// What the server knows, to be kept before a payload that a call gave goes out: in the place of what was kept before, whole,
/// or not at all.
pub fn kept(server: &Server) -> SavedServer
    ensures { result.items ≡ saved_of server.now }
{
    server.save()
}

/// The server of the same campaign again, in a process that was begun anew, of the bytes that were kept.
pub fn again(
    alloc: Global,
    image: &[u8],
    group: PlanGroup,
    start: u32,
    devices: Vec<PlanDevice>,
    kept: &[u8],
) -> Result<Server, RestoreError>
    requires { is_image image.now ≡ true }
    ensures { IfOk result (λ s. IsOver (plan_for group start devices.items) image.now s
        × (saved_of s ≡ kept.now)) }
{
    Server::restore(alloc, plan_for(group, start, devices), image, kept)
}

fn plan_for(group: PlanGroup, start: u32, devices: Vec<PlanDevice>) -> Plan
    ensures { result ≡ plan_for group start devices.items }
{
    Plan {
        frag_size: 48,
        parity: 16,
        index: 0,
        group: Some(group),
        window: Some(PlanWindow {
            kind: Kind::C,
            start,
            timeout: 14,
            freq: 8_695_250,
            dr: 3,
        }),
        devices,
    }
}

/// What goes into the queue of a device: the request of its stage, as port and bytes, unconfirmed. It is sent again when no
/// answer comes; with None the device is updated, or refused.
pub fn queue_of(server: &Server, device: u8) -> Option<Downlink>
    requires first { 1 ≤ device }
    requires last { device ≤ length server.now.plan.devices }
    ensures { result ≡ down_of (request_of server.now device) }
{
    server.ask(device)
}

/// What goes into the queue of the group, with the frame count that stands in it: the next fragment, once all devices have
/// their window; None after the last of them, or where the group's counts are spent.
pub fn queue_of_group(server: &mut Server) -> Option<Downlink>
    ensures fragment { result ≡ down_of (result_ok (next_fragment server.old)) }
    ensures moved { server.new ≡ after_fragment server.old }
{
    match server.next_fragment() {
        Ok(fragment) => Some(fragment),
        Err(_) => None,
    }
}

/// An uplink of a device came at `t` ms of GPS time: its stage moves, and an answer goes into its queue where one is due.
pub fn came(
    server: &mut Server,
    device: u8,
    port: u8,
    payload: &[u8],
    t: u64,
) -> Result<Option<Downlink>, Refusal>
    requires first { 1 ≤ device }
    requires last { device ≤ length server.old.plan.devices }
    ensures moved { server.new ≡ (uplink_step server.old device port payload.now t).server }
    ensures answer { result ≡ answer_of (uplink_step server.old device port payload.now t).answer }
{
    server.uplink(device, port, payload, t)
}

/// Whether a device runs the image, as far as its answers tell.
pub fn is_updated(server: &Server, device: u8) -> bool
    requires first { 1 ≤ device }
    requires last { device ≤ length server.now.plan.devices }
    ensures { (result ≡ true) ↔ (ledger server.now device ≡ Some Updated) }
{
    server.ledger(device) == Stage::Updated
}
// end of sample
