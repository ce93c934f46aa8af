//! Which field of a plan is wrong.

ghost use Rattle.std.specs.Prelude.{◌≡◌, ◌≤◌, None};
ghost use Rattle.image_slots.specs.Image.{max_image};
ghost use Rattle.campaign_server.specs.ServerInside.{IsPlan};
ghost use Rattle.campaign_server.specs.Plan.{bad_field, is_frag_size, is_group, is_kind, fits_bits, is_window};

use crate::plan::{Field, Kind, Plan, PlanGroup, PlanWindow};
use frag_model::lines::MAX_PIECES;

/// The most bytes of a fragment.
const MAX_FRAG_SIZE: u8 = 239;

/// The most coded fragments.
const MAX_PARITY: u16 = 512;

/// The most devices.
const MAX_DEVICES: usize = 64;

/// The last index of a session, and the last id of a group.
const MAX_INDEX: u8 = 3;

/// Returns the first field that is wrong, for an image of this length; None where no field is.
#[tactic(auto, using(crate::proofs::Plans::plan_of_none))]
pub fn bad_field(len: usize, plan: &Plan) -> Option<Field>
    requires { len ≤ max_image }
    ensures field { result ≡ bad_field len plan.now }
    ensures fine { result ≡ None → IsPlan len plan.now }
{
    first_bad(len, plan)
}

#[tactic(auto, unfolding(crate::specs::Plan::bad_field))]
fn first_bad(len: usize, plan: &Plan) -> Option<Field>
    requires { len ≤ max_image }
    ensures { result ≡ bad_field len plan.now }
{
    if !is_frag_size(len, plan.frag_size) {
        return Some(Field::FragSize);
    }
    if plan.parity > MAX_PARITY {
        return Some(Field::Parity);
    }
    if plan.index > MAX_INDEX {
        return Some(Field::Index);
    }
    if !is_group(plan.group) {
        return Some(Field::Group);
    }
    if !is_window(plan.group, plan.window) {
        return Some(Field::Window);
    }
    if plan.devices.is_empty() || plan.devices.len() > MAX_DEVICES {
        return Some(Field::Devices);
    }
    None
}

/// Whether so many bytes a fragment cut a file of this length into at most 4,096 fragments.
fn is_frag_size(len: usize, frag_size: u8) -> bool
    requires { len ≤ max_image }
    ensures { result ≡ is_frag_size len frag_size }
{
    1 <= frag_size
        && frag_size <= MAX_FRAG_SIZE
        && len.div_ceil(frag_size as usize) <= MAX_PIECES as usize
}

fn is_group(group: Option<PlanGroup>) -> bool
    ensures { result ≡ is_group group }
{
    match group {
        Some(group) => group.min < group.max && group.id <= MAX_INDEX,
        None => true,
    }
}

/// Whether there are both a group and its window, within its bits, or neither.
fn is_window(group: Option<PlanGroup>, window: Option<PlanWindow>) -> bool
    ensures { result ≡ is_window group window }
{
    match (group, window) {
        (None, None) => true,
        (Some(_), Some(window)) => fits_bits(&window),
        _ => false,
    }
}

fn is_kind(kind: Kind) -> bool
    ensures { result ≡ is_kind kind }
{
    match kind {
        Kind::C => true,
        Kind::B { periodicity } => periodicity <= 7,
    }
}

/// Whether each field of a window is within its bits.
fn fits_bits(window: &PlanWindow) -> bool
    ensures { result ≡ fits_bits window.now }
{
    // both are read here: only their types keep them within their bits
    let _start = window.start; // four bytes
    let _dr = window.dr; // one byte
    is_kind(window.kind) && window.timeout <= 15 && window.freq < 1 << 24
}
