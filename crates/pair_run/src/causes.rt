//! When a line of two campaigns is refused: the causes that concern both.

ghost use Rattle.std.specs.Prelude.{◌≡◌, ◌<◌, ◌^◌, length};
ghost use Rattle.pair_run.specs.PairCauses.{is_unplanned, is_planned, plan_may_come, pair_may_come, is_other_group, is_apart, is_next, goes_by};
ghost use Rattle.campaign_world.specs.Causes.{takes_events};

use crate::targets::Way;
use campaign_server::{Plan, PlanGroup};
use campaign_world::{Section, SentPayload, is_event_or_end, is_in_order};
use package_grammar::To;
use script_lines::{Campaign, Form};

/// Whether no line of the plan came.
fn is_unplanned(section: Section) -> bool
    ensures { result ≡ is_unplanned section }
{
    matches!(section, Section::Image)
}

/// Whether the plan is complete, and no device came.
fn is_planned(section: Section) -> bool
    ensures { result ≡ is_planned section }
{
    matches!(section, Section::Group | Section::Device)
}

/// Whether a line of the plans may come.
fn plan_may_come(a: Section, b: Section, campaign: Option<Campaign>, form: &Form) -> bool
    ensures { result ≡ plan_may_come a b campaign form.now }
{
    match form {
        Form::Device(_) => is_in_order(a, form) && is_in_order(b, form),
        _ => match campaign {
            None => is_in_order(a, form) && is_in_order(b, form),
            Some(Campaign::A) => is_in_order(a, form) && is_unplanned(b),
            Some(Campaign::B) => is_in_order(b, form) && is_planned(a),
        },
    }
}

/// Whether events may come here.
fn takes_events(section: Section) -> bool
    ensures { result ≡ takes_events section }
{
    matches!(section, Section::Devices | Section::Events)
}

/// Says whether a line may come where the two campaigns are.
pub fn pair_may_come(a: Section, b: Section, campaign: Option<Campaign>, form: &Form) -> bool
    ensures { result ≡ pair_may_come a b campaign form.now }
{
    if is_event_or_end(form) {
        takes_events(a) && takes_events(b)
    } else {
        plan_may_come(a, b, campaign, form)
    }
}

/// Whether a group has another id and address than this one.
fn is_other_group(group: Option<PlanGroup>, id: u64, addr: u32) -> bool
    ensures { result ≡ is_other_group group id addr }
{
    match group {
        None => true,
        Some(group) => id != u64::from(group.id) && addr != group.addr,
    }
}

/// Says whether the second campaign is apart from what the first one plans.
pub fn is_apart(plan: &Plan, campaign: Option<Campaign>, form: &Form) -> bool
    ensures { result ≡ is_apart plan.now campaign form.now }
{
    match campaign {
        Some(Campaign::B) => match form {
            Form::Image { index, .. } => *index != u64::from(plan.index),
            Form::Group { id, addr, .. } => is_other_group(plan.group, *id, *addr),
            _ => true,
        },
        _ => true,
    }
}

/// Says whether a device line has the next ID after so many.
pub fn is_next(count: usize, form: &Form) -> bool
    requires { count < 2 ^ 63 }
    ensures { result ≡ is_next count form.now }
{
    match form {
        Form::Device(line) => line.id == count as u64 + 1,
        _ => true,
    }
}

/// Says whether a sent payload goes this way; on the air only one to a group does.
pub fn goes_by(way: Way, sent: &SentPayload<'_>) -> bool
    ensures { result ≡ goes_by way sent.now }
{
    match way {
        Way::Downlink => true,
        Way::Air => matches!(sent.down.to(), To::Group { .. }),
    }
}
