//! What a device said last of the campaign's session.

ghost use Rattle.std.specs.Prelude.{◌≡◌};
ghost use Rattle.c_base.specs.Answer.{no_object};
ghost use Rattle.c_base.specs.Calls.{Tells};
ghost use Rattle.fuota_server_c.specs.Sent.{TellsStatus, status_fields};

use crate::server_handle::ServerHandle;
use c_base::answer::{DONE, NO_OBJECT, NOTHING, RANGE};
use campaign_server::LastStatus;
use std::alloc::Global;

/// What a device said in its last FragSessionStatusAns, as `LastStatus` of `campaign_server` has it.
#[repr(C)]
#[derive(Drop)]
pub struct StatusFields {
    pub received: u16,
    pub missing: u8,
    pub norows: bool,
}

/// Writes what a device said last of the campaign's session: done; nothing where it said nothing; out of range where the plan has
/// no device of this number.
#[unsafe(no_mangle)]
pub extern "C" fn fuota_server_last_status(
    handle: &mut ServerHandle,
    alloc: Global,
    dev: u8,
    out: &mut StatusFields,
) -> u8
    ensures same { handle.new.held ≡ handle.old.held }
    ensures status { Tells handle.old.held (λ x. TellsStatus x dev out.old out.new result)
        ((result ≡ no_object) × (out.new ≡ out.old)) }
{
    let Some(campaign) = handle.get_mut() else {
        return NO_OBJECT;
    };
    if !campaign.has_device(dev) {
        return RANGE;
    }
    match campaign.server().last_status(dev) {
        None => NOTHING,
        Some(status) => {
            *out = status_fields(status);
            DONE
        }
    }
}

fn status_fields(status: LastStatus) -> StatusFields
    ensures { result ≡ status_fields status }
{
    StatusFields {
        received: status.received,
        missing: status.missing,
        norows: status.norows,
    }
}
