//! What a server tells of how much it has sent.

ghost use Rattle.std.specs.Prelude.{◌≡◌};
ghost use Rattle.c_base.specs.Answer.{done, no_object};
ghost use Rattle.c_base.specs.Calls.{Tells};

use crate::server_handle::ServerHandle;
use c_base::answer::{DONE, NO_OBJECT};
use std::alloc::Global;

/// Writes the number of the fragment that `fuota_server_next_fragment` sends next, from 1; where all were sent, one more than that
/// of the last: done.
#[unsafe(no_mangle)]
pub extern "C" fn fuota_server_fragment_number(
    handle: &mut ServerHandle,
    alloc: Global,
    number: &mut u16,
) -> u8
    ensures same { handle.new.held ≡ handle.old.held }
    ensures number { Tells handle.old.held (λ x. (result ≡ done) × (number.new ≡ x.next))
        ((result ≡ no_object) × (number.new ≡ number.old)) }
{
    match handle.get_mut() {
        None => NO_OBJECT,
        Some(campaign) => {
            *number = campaign.server().fragment_number();
            DONE
        }
    }
}

/// Writes the group's next frame count, from its MIN to its MAX, where none is left; 0 without a group: done.
#[unsafe(no_mangle)]
pub extern "C" fn fuota_server_frame_count(
    handle: &mut ServerHandle,
    alloc: Global,
    count: &mut u32,
) -> u8
    ensures same { handle.new.held ≡ handle.old.held }
    ensures count { Tells handle.old.held (λ x. (result ≡ done) × (count.new ≡ x.count))
        ((result ≡ no_object) × (count.new ≡ count.old)) }
{
    match handle.get_mut() {
        None => NO_OBJECT,
        Some(campaign) => {
            *count = campaign.server().frame_count();
            DONE
        }
    }
}
