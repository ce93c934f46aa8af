//! Where a script is: it plans a campaign, or plays it.

ghost use Rattle.std.specs.Prelude.{◌≡◌, ◌≤◌, ◌<◌, true, length, OnErr};
ghost use Rattle.wire_base.specs.Numbered.{numbered};
ghost use Rattle.script_lines.specs.Limits.{max_lines};
ghost use Rattle.campaign_server.specs.Plan.{max_devices};
ghost use Rattle.campaign_world.specs.Causes.{is_in_order, takes_events};
ghost use Rattle.campaign_world.specs.Said.{Reached};
ghost use Rattle.campaign_world.specs.Making.{after_form, after_said};
ghost use Rattle.campaign_world.specs.PhaseInside.{section_by, is_end, is_planned};

use super::events::Campaign;
use super::planning::Planning;
use crate::causes::is_event_or_end;
use crate::late::LateDevice;
use crate::numbered::SentPayload;
use crate::section::Section;
use package_grammar::DownlinkRef;
use script_lines::Form;
use std::alloc::{AllocError, Global};

/// The plan while its lines come, and the campaign from the first event on, or from the end.
#[derive(Drop)]
pub enum Phase {
    Planning(Planning),
    /// After the end nothing more is played.
    Playing { campaign: Campaign, has_ended: bool },
}

impl Phase {
    ghost use Rattle.campaign_world.specs.HeldWorld.{SameEnds, IsTested};
    ghost use Rattle.campaign_world.specs.PhaseInside.{IsPhase, PhaseTakes, held_of, section_of};

    /// Carries out a form after so many lines: a line of the plan, or an event, the first of which begins the campaign. All
    /// memory that it needs is taken before a device or the server is called.
    pub fn take(&mut self, alloc: Global, lines: u32, form: &Form) -> Result<(), AllocError>
        requires phase { IsPhase self.old }
        requires in_order { is_in_order (section_of self.old) form.now ≡ true }
        requires tested { IsTested (held_of self.old) form.now }
        requires room { lines < max_lines }
        ensures phase { IsPhase self.new }
        ensures taken { PhaseTakes lines self.old self.new result
            (λ world. after_form world form.now) }
        ensures ends { OnErr result (SameEnds (held_of self.old) (held_of self.new)) }
    {
        match self {
            Phase::Playing {
                campaign,
                has_ended,
            } => {
                *has_ended = is_end(form);
                campaign.event(lines, form)
            }
            Phase::Planning(_) => self.plan(alloc, lines, form),
        }
    }

    /// The same where the campaign has not begun. It is a function by itself, so that no event makes room for a whole campaign.
    #[inline(never)]
    fn plan(&mut self, alloc: Global, lines: u32, form: &Form) -> Result<(), AllocError>
        requires planned { is_planned self.old ≡ true }
        requires phase { IsPhase self.old }
        requires in_order { is_in_order (section_of self.old) form.now ≡ true }
        requires tested { IsTested (held_of self.old) form.now }
        requires room { lines < max_lines }
        ensures phase { IsPhase self.new }
        ensures taken { PhaseTakes lines self.old self.new result
            (λ world. after_form world form.now) }
        ensures ends { OnErr result (SameEnds (held_of self.old) (held_of self.new)) }
    {
        let Phase::Planning(planning) = self else {
            unreachable!()
        };
        if !is_event_or_end(form) {
            return planning.line(lines, form);
        }
        let mut campaign = planning.begin(alloc)?;
        let played = campaign.event(lines, form);
        *self = Phase::Playing {
            campaign,
            has_ended: is_end(form),
        };
        played
    }

    /// Takes a payload of another campaign's server to a device, after so many lines. It may be the first event. All memory that
    /// it needs is taken before the device is called.
    pub fn reach(
        &mut self,
        alloc: Global,
        lines: u32,
        device: u8,
        down: &DownlinkRef<'_>,
        word: u32,
    ) -> Result<(), AllocError>
        requires phase { IsPhase self.old }
        requires comes { takes_events (section_of self.old) ≡ true }
        requires first { 1 ≤ device }
        requires last { device ≤ length (held_of self.old).devices }
        requires room { lines < max_lines }
        ensures phase { IsPhase self.new }
        ensures taken { PhaseTakes lines self.old self.new result
            (λ world. after_said world (Reached device word down.now)) }
        ensures ends { OnErr result (SameEnds (held_of self.old) (held_of self.new)) }
    {
        match self {
            Phase::Planning(planning) => {
                let mut campaign = planning.begin(alloc)?;
                let played = campaign.raw(lines, device, down, word);
                *self = Phase::Playing {
                    campaign,
                    has_ended: false,
                };
                played
            }
            Phase::Playing { campaign, .. } => campaign.raw(lines, device, down, word),
        }
    }

    /// Returns what may come next.
    pub fn section(&self) -> Section
        ensures { result ≡ section_of self.now }
    {
        match self {
            Phase::Planning(planning) => planning.section,
            Phase::Playing { has_ended, .. } => section_by(*has_ended),
        }
    }

    /// Returns how many devices there are.
    pub fn count(&self) -> usize
        requires { IsPhase self.now }
        ensures count { result ≡ length (held_of self.now).devices }
        ensures few { result ≤ max_devices }
    {
        match self {
            Phase::Planning(planning) => planning.devices.len(),
            Phase::Playing { campaign, .. } => campaign.devices.len(),
        }
    }

    /// Returns the IDs of the devices that have a flash.
    pub fn flash(&self) -> &[u64]
        ensures { result.now ≡ (held_of self.now).flash }
    {
        match self {
            Phase::Planning(planning) => &planning.flash,
            Phase::Playing { campaign, .. } => &campaign.flash,
        }
    }

    /// Returns the sent payload with a number, counted from 1; None where none has it.
    pub fn sent(&self, number: u64) -> Option<SentPayload<'_>>
        ensures { result ≡ numbered (held_of self.now).sent number }
    {
        match self {
            Phase::Planning(_) => None,
            Phase::Playing { campaign, .. } => campaign.sent.number(number),
        }
    }

    /// Returns the devices so far.
    pub fn devices(&self) -> &[LateDevice]
        ensures { result.now ≡ (held_of self.now).devices }
    {
        match self {
            Phase::Planning(planning) => &planning.devices,
            Phase::Playing { campaign, .. } => &campaign.devices,
        }
    }
}

/// Events come until the end.
fn section_by(has_ended: bool) -> Section
    ensures { result ≡ section_by has_ended }
{
    if has_ended {
        Section::Ended
    } else {
        Section::Events
    }
}

/// Whether the form is the end.
fn is_end(form: &Form) -> bool
    ensures { result ≡ is_end form.now }
{
    matches!(form, Form::End)
}
