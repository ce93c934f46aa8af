//! A server outlasts its process: what it saves, and the server that is restored from it.

ghost use Rattle.std.specs.Prelude.{◌≡◌};
ghost use Rattle.campaign_server.specs.Saving.{saved_of};
ghost use Rattle.c_base.specs.Bytes.{Whole};
ghost use Rattle.c_base.specs.Calls.{Tells};
ghost use Rattle.fuota_server_c.specs.Plan.{plan_of};
ghost use Rattle.fuota_server_c.specs.Saving.{IsServerBack};

use crate::campaign::Campaign;
use crate::plan::{PlanDeviceFields, PlanFields, field_number, plan_of};
use crate::server::fuota_server_free;
use crate::server_handle::ServerHandle;
use c_base::answer::{CORRUPT, DONE, NO_MEMORY, RANGE, REFUSED};
use c_base::{Handle, put_whole};
use campaign_server::{RestoreError, Server};
use image_slots::is_image;
use std::alloc::Global;

/// Copies what the server knows, as bytes for `fuota_server_restore`, to the front of `into`: 44 bytes and six for each device;
/// returns their count, and 0 where they have no room, or without a server.
#[unsafe(no_mangle)]
pub extern "C" fn fuota_server_save(
    handle: &mut ServerHandle,
    alloc: Global,
    into: &mut [u8],
) -> usize
    ensures same { handle.new.held ≡ handle.old.held }
    ensures saved { Tells handle.old.held (λ x. Whole (saved_of x) into.old into.new result)
        ((result ≡ 0) × (into.new ≡ into.old)) }
{
    match handle.get_mut() {
        None => 0,
        Some(campaign) => put_whole(campaign.server().save().as_slice(), into),
    }
}

/// Frees what was there, and puts the server of this plan and image that saved these bytes into the handle, as `fuota_server_new`
/// puts one at its start, with its answers; corrupt where no such server saved them.
#[unsafe(no_mangle)]
pub extern "C" fn fuota_server_restore(
    handle: &mut ServerHandle,
    alloc: Global,
    plan: &PlanFields,
    devices: &[PlanDeviceFields],
    image: &[u8],
    saved: &[u8],
    field: &mut u8,
) -> u8
    ensures { IsServerBack image.now (plan_of plan.now devices.now) saved.now
        handle.new.held field.old field.new result }
{
    fuota_server_free(handle, alloc);
    if !is_image(image) {
        return REFUSED;
    }
    let Ok(plan) = plan_of(alloc, plan, devices) else {
        return NO_MEMORY;
    };
    let count = plan.devices.len();
    let server = match Server::restore(alloc, plan, image, saved) {
        Ok(server) => server,
        Err(RestoreError::BadPlan(wrong)) => {
            *field = field_number(wrong);
            return RANGE;
        }
        Err(RestoreError::Corrupt) => return CORRUPT,
        Err(RestoreError::Memory) => return NO_MEMORY,
    };
    let Ok(campaign) = Box::new(alloc, Campaign::of(server, count)) else {
        return NO_MEMORY;
    };
    // What the handle had is dropped.
    let _none = handle.replace(Handle::of(campaign)).into_box();
    DONE
}
