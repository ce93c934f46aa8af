//! What a line says, and to which of the two campaigns.

ghost use Rattle.std.specs.Prelude.{◌≡◌, ◌≢◌, ◌<◌, ◌^◌, true, length};
ghost use Rattle.wire_base.specs.Numbered.{numbered};
ghost use Rattle.pair_run.specs.Targets.{common_target, named_target, target_of};
ghost use Rattle.pair_run.specs.Sides.{is_quiet};
ghost use Rattle.pair_run.specs.HeldTargets.{told, number_of, owners_word, carried_word};

use crate::owners::{Owner, is_same, owner_of};
use campaign_world::World;
use script_lines::{Campaign, Form, PairForm};

/// How a payload reaches a device.
#[derive(Clone, Copy)]
pub enum Way {
    /// As it is: `down`.
    Downlink,
    /// As a frame on the air: `air`.
    Air,
}

/// Which campaign a line is for.
#[derive(Clone, Copy)]
pub enum Whose {
    /// Both: the first line, a time or the end.
    Both,
    /// One campaign. A device that it names has its number in that campaign.
    One {
        campaign: Campaign,
    },
    /// A payload of one campaign's server, by its number, reaches a device of the other.
    Across {
        campaign: Campaign,
        way: Way,
        number: u64,
        device: u64,
        word: u64,
    },
    /// None: there is no such device.
    Nobody,
}

/// Returns which campaign a line is for, given the devices of both. A device that it names then has its number in its campaign;
/// the form is changed in place, since it is larger than all else that a line needs.
#[tactic(auto, unfolding(crate::specs::Targets::target_of))]
pub fn whose_of(owners: &[Owner], a: &World, b: &World, pair_form: &mut PairForm) -> Whose
    requires owners { length owners.now < 2 ^ 63 }
    ensures told { told result pair_form.new.form
        ≡ target_of owners.now (length a.now.devices) (length b.now.devices) pair_form.old }
    ensures quiet { result ≡ Whose.Both → is_quiet pair_form.new.form ≡ true }
{
    let campaign = pair_form.campaign;
    let form = &mut pair_form.form;
    match campaign {
        None => whose_in_common(owners, form),
        Some(Campaign::A) => whose_named(owners, a, Campaign::A, form),
        Some(Campaign::B) => whose_named(owners, b, Campaign::B, form),
    }
}

/// A line that names no campaign.
fn whose_in_common(owners: &[Owner], form: &mut Form) -> Whose
    requires { length owners.now < 2 ^ 63 }
    ensures told { told result form.new ≡ common_target owners.now form.old }
    ensures quiet { result ≡ Whose.Both → is_quiet form.new ≡ true }
{
    match form {
        Form::Header => Whose::Both,
        Form::At { .. } => Whose::Both,
        Form::End => Whose::Both,
        Form::Wake { device } => owners_line(owners, device),
        Form::Migrate { device } => owners_line(owners, device),
        Form::Power { device } => owners_line(owners, device),
        Form::Ask { device } => owners_line(owners, device),
        _ => Whose::Nobody,
    }
}

/// A line for a device's campaign; the device gets its number there.
fn owners_line(owners: &[Owner], device: &mut u64) -> Whose
    requires { length owners.now < 2 ^ 63 }
    ensures whose { result ≡ owners_word (numbered owners.now device.old) }
    ensures number { device.new ≡ number_of (numbered owners.now device.old) device.old }
{
    match owner_of(owners, *device) {
        Some(owner) => {
            *device = owner.number;
            Whose::One {
                campaign: owner.campaign,
            }
        }
        None => Whose::Nobody,
    }
}

/// A line that names a campaign.
fn whose_named(owners: &[Owner], world: &World, campaign: Campaign, form: &mut Form) -> Whose
    requires owners { length owners.now < 2 ^ 63 }
    ensures told { told result form.new
        ≡ named_target owners.now (length world.now.devices) campaign form.old }
    ensures one { result ≢ Whose.Both }
{
    match form {
        Form::Down {
            number,
            device,
            word,
        } => carried(owners, campaign, Way::Downlink, *number, device, *word),
        Form::Air {
            number,
            device,
            word,
        } => carried(owners, campaign, Way::Air, *number, device, *word),
        Form::Device(line) => {
            line.id = world.count() as u64 + 1;
            Whose::One { campaign }
        }
        _ => Whose::One { campaign },
    }
}

/// A payload of a campaign reaches a device, its own or the other's; the device gets its number there.
fn carried(
    owners: &[Owner],
    campaign: Campaign,
    way: Way,
    number: u64,
    device: &mut u64,
    word: u64,
) -> Whose
    requires { length owners.now < 2 ^ 63 }
    ensures whose { result
        ≡ carried_word campaign way number word (numbered owners.now device.old) }
    ensures number { device.new ≡ number_of (numbered owners.now device.old) device.old }
{
    let Some(owner) = owner_of(owners, *device) else {
        return Whose::Nobody;
    };
    *device = owner.number;
    if is_same(owner.campaign, campaign) {
        Whose::One { campaign }
    } else {
        Whose::Across {
            campaign,
            way,
            number,
            device: owner.number,
            word,
        }
    }
}
