//! The first cause for which a form is refused. For each form only the causes that it can have are tried, in their order.

ghost use Rattle.std.specs.Prelude.{◌≡◌, None, length, option_map};
ghost use Rattle.wire_base.specs.Numbered.{numbered};
ghost use Rattle.campaign_world.specs.Causes.{may_reach, goes_out};
ghost use Rattle.campaign_world.specs.HeldCauses.{unless, sent_of, uplinks_of, has_fragment, has_status, planned_facts, played_facts, event_cause, word_cause, down_cause, raw_cause, air_cause, raw_air_cause, device_cause, power_cause, up_cause, at_cause, planned_cause};
ghost use Rattle.campaign_world.specs.PhaseInside.{IsPlanningOf};

use super::events::Campaign;
use super::planning::Planning;
use crate::causes::{
    fits_flash, fits_script, goes_out, is_device, is_due_by, is_event_or_end, is_in_order,
    may_reach,
};
use report_lines::LineWhy;
use script_lines::{Form, HexBytes, MAX_PORT, MAX_TIME, in_range, is_u32};
use wire_base::MAX_PAYLOAD;

impl Planning {
    /// The first cause for which a form is refused while the campaign is planned.
    pub(super) fn first_cause(&self, form: &Form) -> Option<LineWhy>
        requires { IsPlanningOf self.now }
        ensures { result ≡ planned_cause self.now.section (length self.now.image.items)
            (planned_facts self.now) form.now }
    {
        if !is_in_order(self.section, form) {
            return Some(LineWhy::Order);
        }
        if is_event_or_end(form) {
            return event_cause(self.devices.len(), &self.flash, 0, None, form);
        }
        if !in_range(form) {
            return Some(LineWhy::Range);
        }
        if !fits_script(self.image.len(), self.devices.len(), form) {
            return Some(LineWhy::Range);
        }
        unless(fits_flash(self.flash.len(), form), LineWhy::Limit)
    }
}

impl Campaign {
    /// The first cause for which a form is refused while events come.
    pub(super) fn first_cause(&self, form: &Form) -> Option<LineWhy>
        ensures { result ≡ event_cause (played_facts self.now) form.now }
    {
        event_cause(self.devices.len(), &self.flash, self.time, Some(self), form)
    }
}

/// The first cause for which a form is refused where events come: there are so many devices, those with these IDs have a flash,
/// and the time is this in ms. There is no campaign before the first event. It is inlined, so that only those parts of an event
/// are read that its form is tested against.
#[inline(always)]
fn event_cause(
    count: usize,
    flash: &[u64],
    time: u64,
    campaign: Option<&Campaign>,
    form: &Form,
) -> Option<LineWhy>
    ensures { result ≡ event_cause (record {
      count = count;
      flash = flash.now;
      time = time;
      campaign = option_map (λ c. c.now) campaign.entry;
    }) form.now }
{
    match form {
        Form::Down {
            number,
            device,
            word,
        } => down_cause(count, campaign, *number, *device, *word),
        Form::Raw {
            device,
            port,
            payload,
            word,
        } => raw_cause(count, *device, *port, payload, *word),
        Form::Frag => unless(has_fragment(campaign), LineWhy::Limit),
        Form::Status => unless(has_status(campaign), LineWhy::Limit),
        Form::Up { number } => up_cause(time, campaign, *number),
        Form::At { time: next } => at_cause(time, *next),
        Form::Ask { device } => device_cause(count, *device),
        Form::Wake { device } => device_cause(count, *device),
        Form::Migrate { device } => device_cause(count, *device),
        Form::Power { device } => power_cause(count, flash, *device),
        Form::Air {
            number,
            device,
            word,
        } => air_cause(count, campaign, *number, *device, *word),
        Form::RawAir { device, word, .. } => raw_air_cause(count, *device, *word),
        Form::End => None,
        _ => Some(LineWhy::Order),
    }
}

/// The cause of a form that only names a device.
fn device_cause(count: usize, device: u64) -> Option<LineWhy>
    ensures { result ≡ device_cause count device }
{
    unless(is_device(count, device), LineWhy::Device)
}

fn power_cause(count: usize, flash: &[u64], device: u64) -> Option<LineWhy>
    ensures { result ≡ power_cause count flash.now device }
{
    let has_flash = is_device(count, device) && flash.contains(&device);
    unless(has_flash, LineWhy::Device)
}

/// The first cause of a form that brings a random word to a device: of the word, of the device, or the rest.
fn word_cause(count: usize, device: u64, word: u64, rest: Option<LineWhy>) -> Option<LineWhy>
    ensures { result ≡ word_cause count device word rest }
{
    if !is_u32(word) {
        return Some(LineWhy::Range);
    }
    if !is_device(count, device) {
        return Some(LineWhy::Device);
    }
    rest
}

fn down_cause(
    count: usize,
    campaign: Option<&Campaign>,
    number: u64,
    device: u64,
    word: u64,
) -> Option<LineWhy>
    ensures { result
        ≡ down_cause count (sent_of (option_map (λ c. c.now) campaign.entry)) number device word }
{
    let unsent = unless(is_for(campaign, number, device), LineWhy::Unsent);
    word_cause(count, device, word, unsent)
}

fn raw_cause(count: usize, device: u64, port: u64, payload: &HexBytes, word: u64) -> Option<LineWhy>
    ensures { result ≡ raw_cause count device port payload.now word }
{
    if !(port <= MAX_PORT && is_u32(word)) {
        return Some(LineWhy::Range);
    }
    if !is_device(count, device) {
        return Some(LineWhy::Device);
    }
    unless(payload.len() <= MAX_PAYLOAD, LineWhy::Limit)
}

fn air_cause(
    count: usize,
    campaign: Option<&Campaign>,
    number: u64,
    device: u64,
    word: u64,
) -> Option<LineWhy>
    ensures { result
        ≡ air_cause count (sent_of (option_map (λ c. c.now) campaign.entry)) number device word }
{
    let is_framed = is_for(campaign, number, device) && has_frame(campaign, number);
    word_cause(count, device, word, unless(is_framed, LineWhy::Unsent))
}

fn raw_air_cause(count: usize, device: u64, word: u64) -> Option<LineWhy>
    ensures { result ≡ raw_air_cause count device word }
{
    word_cause(count, device, word, None)
}

fn up_cause(now: u64, campaign: Option<&Campaign>, number: u64) -> Option<LineWhy>
    ensures { result ≡ up_cause now (uplinks_of (option_map (λ c. c.now) campaign.entry)) number }
{
    match campaign {
        Some(campaign) => unless(is_due_by(now, &campaign.uplinks, number), LineWhy::Unsent),
        None => Some(LineWhy::Unsent),
    }
}

fn at_cause(now: u64, time: u64) -> Option<LineWhy>
    ensures { result ≡ at_cause now time }
{
    if time > MAX_TIME {
        return Some(LineWhy::Range);
    }
    unless(now <= time, LineWhy::Time)
}

/// Whether a payload was sent, to this device or to any. Before the first event none was.
fn is_for(campaign: Option<&Campaign>, number: u64, device: u64) -> bool
    ensures { result
        ≡ may_reach device (numbered (sent_of (option_map (λ c. c.now) campaign.entry)) number) }
{
    match campaign {
        Some(campaign) => may_reach(device, &campaign.sent, number),
        None => false,
    }
}

/// Whether a sent payload goes out as a frame.
fn has_frame(campaign: Option<&Campaign>, number: u64) -> bool
    ensures { result
        ≡ goes_out (numbered (sent_of (option_map (λ c. c.now) campaign.entry)) number) }
{
    match campaign {
        Some(campaign) => goes_out(&campaign.sent, number),
        None => false,
    }
}

/// Whether a fragment is left to send. Before the first event all are.
fn has_fragment(campaign: Option<&Campaign>) -> bool
    ensures { result ≡ has_fragment (option_map (λ c. c.now) campaign.entry) }
{
    match campaign {
        Some(campaign) => campaign.server.has_fragment(),
        None => true,
    }
}

/// Whether a request for the status can be sent. Before the first event it can.
fn has_status(campaign: Option<&Campaign>) -> bool
    ensures { result ≡ has_status (option_map (λ c. c.now) campaign.entry) }
{
    match campaign {
        Some(campaign) => campaign.server.has_status(),
        None => true,
    }
}

/// The cause of a test that fails.
fn unless(test: bool, why: LineWhy) -> Option<LineWhy>
    ensures { result ≡ unless test why None }
{
    if test { None } else { Some(why) }
}
