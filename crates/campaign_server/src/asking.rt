//! What the server asks of a device at each stage.

ghost use Rattle.std.specs.Prelude.{◌≡◌, ◌≤◌, Some, true, length, option_map, IfSome};
ghost use Rattle.package_grammar.specs.declared.command.Command.TheVariants.{Sync, Cast};
ghost use Rattle.sync_wire.specs.declared.cmd.Cmd.TheVariants.{DevVersionReq, DevUpgradeImageReq, DevRebootCountdownReq};
ghost use Rattle.cast_wire.specs.declared.cmd.Cmd.TheVariants.{FragSessionStatusReq};
ghost use Rattle.campaign_server.specs.Plan.{max_index};
ghost use Rattle.aes_block.specs.Cipher.{IsBlock};
ghost use Rattle.mc_keys.specs.Keys.{mc_ke_key};
ghost use Rattle.mc_keys.specs.Roots.{root_of};
ghost use Rattle.campaign_server.specs.Asking.{request_at, group_request, mask_of, fragments_request, window_request};
ghost use Rattle.campaign_server.specs.Wrapping.{wrapped_key};
ghost use Rattle.campaign_server.specs.ServerInside.{IsCut, GroupFits, WindowFits};
ghost use Rattle.campaign_server.specs.Sent.{IsSent};

use crate::plan::{Kind, Plan, PlanDevice, PlanGroup, PlanWindow, own_id};
use crate::stage::{Request, Stage};
use cast_wire::{Cmd, FRAGMENT_PORT, MULTICAST_PORT};
use frag_encoder::Encoder;
use image_slots::firmware;
use mc_keys::{Key, kek, wrap_key};
use package_grammar::Command;
use sync_wire::FIRMWARE_PORT;

/// Returns the port and the command of a stage's request to a device; None at updated and refused, and at a stage that the plan
/// has no part for; no answer leads there.
#[tactic(auto, unfolding(crate::specs::Asking::request_at))]
pub fn request(
    plan: &Plan,
    encoder: &Encoder,
    device: &PlanDevice,
    stage: Stage,
) -> Option<(u8, Command<'static>)>
    requires { IsCut plan.now encoder.now }
    ensures command { option_map (λ asked. asked.1) result
        ≡ request_at plan.now encoder.now.file device.now stage }
    ensures sent { IfSome result (λ asked. IsSent asked.0 asked.1) }
{
    let Stage::At(request) = stage else {
        return None;
    };
    match request {
        Request::Version => Some(of_firmware(sync_wire::Cmd::DevVersionReq)),
        Request::Group => match plan.group {
            Some(group) => Some((MULTICAST_PORT, group_request(device, &group))),
            None => None,
        },
        Request::Fragments => Some((FRAGMENT_PORT, fragments_request(plan, encoder))),
        Request::Window => match plan.window {
            Some(window) => Some((MULTICAST_PORT, window_request(own_id(plan.group), &window))),
            None => None,
        },
        Request::Status => Some((FRAGMENT_PORT, status_request(plan))),
        Request::Image => Some(of_firmware(sync_wire::Cmd::DevUpgradeImageReq)),
        Request::Reboot => Some(of_firmware(sync_wire::Cmd::DevRebootCountdownReq { count: 0 })),
        Request::Check => Some(of_firmware(sync_wire::Cmd::DevVersionReq)),
    }
}

/// A command of the firmware package, on its port.
fn of_firmware(cmd: sync_wire::Cmd) -> (u8, Command<'static>)
    requires { IsSent 203 (Sync cmd) }
    ensures command { result.1 ≡ Sync cmd }
    ensures sent { IsSent result.0 result.1 }
{
    (FIRMWARE_PORT, Command::Sync(cmd))
}

fn status_request(plan: &Plan) -> Command<'static>
    requires index { plan.now.index ≤ max_index }
    ensures command { result ≡ Cast (FragSessionStatusReq plan.now.index true) }
    ensures sent { IsSent 201 result }
{
    Command::Cast(Cmd::FragSessionStatusReq {
        index: plan.index,
        all: true,
    })
}

/// McGroupSetupReq, the group's key wrapped for the device.
fn group_request(device: &PlanDevice, group: &PlanGroup) -> Command<'static>
    requires id { group.now.id ≤ max_index }
    ensures command { result ≡ Cast (group_request device.now group.now) }
    ensures sent { IsSent 200 result }
{
    // each is read here, so that the command is known to have numbers of four bytes
    let _addr = group.addr; // four bytes
    let _min = group.min; // four bytes
    let _max = group.max; // four bytes
    Command::Cast(Cmd::McGroupSetupReq {
        id: group.id,
        addr: group.addr,
        key: wrapped(device, &group.key),
        min: group.min,
        max: group.max,
    })
}

/// McKey_encrypted for a device.
fn wrapped(device: &PlanDevice, key: &Key) -> Key
    ensures value { let kek = mc_ke_key (root_of device.now.root device.now.key) in
        result ≡ wrapped_key kek key.now }
    ensures sized { length result ≡ 16 }
{
    let root = mc_keys::root(device.root, &device.key);
    let block = wrap_key(&kek(&root), key);
    told_block(&block);
    block
}

/// A key is a block of the cipher; once one byte is read, all are known to be bytes.
fn told_block(block: &Key)
    ensures { IsBlock block.now }
{
    // once a byte is read, the block is known to have its 16 bytes
    let _first = first_byte(block);
}

fn first_byte(block: &Key) -> u8 {
    block[0]
}

/// FragSessionSetupReq for the image.
#[tactic(auto, using(image_slots::proofs::ImageLemmas::image_bounds))]
fn fragments_request(plan: &Plan, encoder: &Encoder) -> Command<'static>
    requires cut { IsCut plan.now encoder.now }
    ensures command { result ≡ Cast (fragments_request plan.now encoder.now.file) }
    ensures sent { IsSent 201 result }
{
    Command::Cast(Cmd::FragSessionSetupReq {
        index: plan.index,
        mask: mask(plan.group),
        nb_frag: encoder.nb_frag(),
        frag_size: plan.frag_size,
        algo: 0,
        delay: 0,
        padding: encoder.padding(),
        descriptor: firmware(encoder.file()),
    })
}

/// The mask of the group that may feed the session, where there is one.
fn mask(group: Option<PlanGroup>) -> u8
    requires { GroupFits group }
    ensures value { result ≡ mask_of group }
    ensures few { result ≤ 8 }
{
    match group {
        Some(group) => 1 << group.id,
        None => 0,
    }
}

/// McClassCSessionReq or McClassBSessionReq for the group with an id.
fn window_request(id: u8, window: &PlanWindow) -> Command<'static>
    requires id { id ≤ max_index }
    requires window { WindowFits (Some window.now) }
    ensures command { result ≡ Cast (window_request id window.now) }
    ensures sent { IsSent 200 result }
{
    // each is read here, so that the command is known to have numbers of its widths
    let _start = window.start; // four bytes
    let _dr = window.dr; // one byte
    Command::Cast(match window.kind {
        Kind::C => Cmd::McClassCSessionReq {
            id,
            time: window.start,
            timeout: window.timeout,
            freq: window.freq,
            dr: window.dr,
        },
        Kind::B { periodicity } => Cmd::McClassBSessionReq {
            id,
            time: window.start,
            periodicity,
            timeout: window.timeout,
            freq: window.freq,
            dr: window.dr,
        },
    })
}
