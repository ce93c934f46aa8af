//! The calls of a server.

ghost use Rattle.std.specs.Prelude.{◌≡◌, None};
ghost use Rattle.campaign_server.specs.Uplinks.{uplink_step};
ghost use Rattle.c_base.specs.Answer.{no_object};
ghost use Rattle.c_base.specs.Calls.{Does, Tells};
ghost use Rattle.fuota_server_c.specs.Plan.{IsNewServer, plan_of};
ghost use Rattle.fuota_server_c.specs.Sent.{SendsFragment, SendsStatus, Asks, TakesUplink, TellsStage, fields_of, request_number};

use crate::campaign::Campaign;
use crate::plan::{PlanDeviceFields, PlanFields, field_number, plan_of};
use crate::sent::{DownFields, put_or};
use crate::server_handle::ServerHandle;
use c_base::Handle;
use c_base::answer::{DONE, NO_MEMORY, NO_OBJECT, NOTHING, RANGE, REFUSED};
use campaign_server::{Request, Server, ServerError, Stage};
use image_slots::is_image;
use std::alloc::Global;

/// The stage of a device: 0 at a request, 1 updated, 2 refused; the number of the request, and 0 at updated; the bits of the
/// answer that refused, and else 0. Requests are 1 version, 2 group, 3 fragments, 4 window, 5 status, 6 image, 7 reboot, 8 check.
#[repr(C)]
#[derive(Drop)]
pub struct StageFields {
    pub stage: u8,
    pub request: u8,
    pub bits: u8,
}

/// Frees what was there, and puts a server at the start of a campaign into the handle: done; refused where the image
/// is no image file; out of range where a field of the plan is wrong, with the number of the first in `field`; no
/// memory. `devices` are the devices, 1 to 64, numbered from 1.
#[unsafe(no_mangle)]
pub extern "C" fn fuota_server_new(
    handle: &mut ServerHandle,
    alloc: Global,
    plan: &PlanFields,
    devices: &[PlanDeviceFields],
    image: &[u8],
    field: &mut u8,
) -> u8
    ensures { IsNewServer image.now (plan_of plan.now devices.now)
        handle.new.held field.old field.new result }
{
    fuota_server_free(handle, alloc);
    if !is_image(image) {
        return REFUSED;
    }
    let Ok(plan) = plan_of(alloc, plan, devices) else {
        return NO_MEMORY;
    };
    let count = plan.devices.len();
    let server = match Server::new(alloc, plan, image) {
        Ok(server) => server,
        Err(ServerError::BadPlan(wrong)) => {
            *field = field_number(wrong);
            return RANGE;
        }
        Err(ServerError::Memory) => return NO_MEMORY,
    };
    let Ok(campaign) = Box::new(alloc, Campaign::of(server, count)) else {
        return NO_MEMORY;
    };
    // What the handle had is dropped.
    let _none = handle.replace(Handle::of(campaign)).into_box();
    DONE
}

/// Frees the server, where there is one; the handle has none afterwards.
#[unsafe(no_mangle)]
pub extern "C" fn fuota_server_free(handle: &mut ServerHandle, alloc: Global)
    ensures { handle.new.held ≡ None }
{
    // It is dropped here, and its memory with it.
    let _server = handle.replace(Handle::none(alloc)).into_box();
}

/// Writes the next fragment to all devices: done; nothing where all were sent; spent where the group's frame counts are used up.
#[unsafe(no_mangle)]
pub extern "C" fn fuota_server_next_fragment(
    handle: &mut ServerHandle,
    alloc: Global,
    out: &mut DownFields,
) -> u8
    ensures { Does handle.old.held handle.new.held (λ x y. SendsFragment x y out.old out.new result)
        ((result ≡ no_object) × (out.new ≡ out.old)) }
{
    match handle.get_mut() {
        None => NO_OBJECT,
        Some(campaign) => campaign.next_fragment(out),
    }
}

/// Writes a FragSessionStatusReq to all devices, answered by those that miss a fragment: done; spent where the group's frame
/// counts are used up.
#[unsafe(no_mangle)]
pub extern "C" fn fuota_server_status_all(
    handle: &mut ServerHandle,
    alloc: Global,
    out: &mut DownFields,
) -> u8
    ensures { Does handle.old.held handle.new.held (λ x y. SendsStatus x y out.old out.new result)
        ((result ≡ no_object) × (out.new ≡ out.old)) }
{
    match handle.get_mut() {
        None => NO_OBJECT,
        Some(campaign) => campaign.status_all(out),
    }
}

/// Writes what the server asks of a device now, by unicast: done; nothing where it is updated or refused; out of range where the
/// plan has no device of this number. Devices are numbered from 1.
#[unsafe(no_mangle)]
pub extern "C" fn fuota_server_ask(
    handle: &mut ServerHandle,
    alloc: Global,
    dev: u8,
    out: &mut DownFields,
) -> u8
    ensures same { handle.new.held ≡ handle.old.held }
    ensures asks { Tells handle.old.held (λ x. Asks x dev out.old out.new result)
        ((result ≡ no_object) × (out.new ≡ out.old)) }
{
    let Some(campaign) = handle.get_mut() else {
        return NO_OBJECT;
    };
    if !campaign.has_device(dev) {
        return RANGE;
    }
    put_or(campaign.server().ask(dev), NOTHING, out)
}

/// Takes an uplink of a device on a port, at `t` ms of GPS time, which moves its stage: done, with an answer to send; nothing,
/// where none is due; refused where the payload spells no commands, out of range where the plan has no such device or the payload
/// more than 242 bytes, and then nothing changes.
#[unsafe(no_mangle)]
pub extern "C" fn fuota_server_uplink(
    handle: &mut ServerHandle,
    alloc: Global,
    dev: u8,
    port: u8,
    payload: &[u8],
    t: u64,
    out: &mut DownFields,
) -> u8
    ensures { Does handle.old.held handle.new.held
        (λ x y. TakesUplink x y dev payload.now (uplink_step x dev port payload.now t)
        out.old out.new result)
        ((result ≡ no_object) × (out.new ≡ out.old)) }
{
    match handle.get_mut() {
        None => NO_OBJECT,
        Some(campaign) => campaign.uplink(dev, port, payload, t, out),
    }
}

/// Writes the stage of a device: done; out of range where the plan has no device of this number.
#[unsafe(no_mangle)]
pub extern "C" fn fuota_server_ledger(
    handle: &mut ServerHandle,
    alloc: Global,
    dev: u8,
    out: &mut StageFields,
) -> u8
    ensures same { handle.new.held ≡ handle.old.held }
    ensures stage { Tells handle.old.held (λ x. TellsStage x dev out.old out.new result)
        ((result ≡ no_object) × (out.new ≡ out.old)) }
{
    let Some(campaign) = handle.get_mut() else {
        return NO_OBJECT;
    };
    if !campaign.has_device(dev) {
        return RANGE;
    }
    *out = fields_of(campaign.server().ledger(dev));
    DONE
}

fn fields_of(stage: Stage) -> StageFields
    ensures { result ≡ fields_of stage }
{
    match stage {
        Stage::At(request) => StageFields {
            stage: 0,
            request: request_number(request),
            bits: 0,
        },
        Stage::Updated => StageFields {
            stage: 1,
            request: 0,
            bits: 0,
        },
        Stage::Refused { request, bits } => StageFields {
            stage: 2,
            request: request_number(request),
            bits,
        },
    }
}

fn request_number(request: Request) -> u8
    ensures { result ≡ request_number request }
{
    match request {
        Request::Version => 1,
        Request::Group => 2,
        Request::Fragments => 3,
        Request::Window => 4,
        Request::Status => 5,
        Request::Image => 6,
        Request::Reboot => 7,
        Request::Check => 8,
    }
}
