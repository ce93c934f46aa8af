//! A campaign as its script describes it, line by line: what was sent, what was heard, and the state of each end.

ghost use Rattle.std.specs.Prelude.{◌≡◌, ◌≤◌, ◌<◌, ◌+◌, true, List, length, None, Some, Ok, Err, IfOk, IfErr, IfSome, OnOk, OnErr, is_some, option_map};
ghost use Rattle.image_slots.specs.Image.{is_image};
ghost use Rattle.device_core.specs.Device.{DeviceState};
ghost use Rattle.device_core.specs.Sendable.{IsUplink};
ghost use Rattle.wire_base.specs.Numbered.{numbered};
ghost use Rattle.script_lines.specs.Limits.{max_lines};
ghost use Rattle.campaign_world.specs.World.{WorldState, first_world};
ghost use Rattle.campaign_world.specs.Causes.{form_cause};
ghost use Rattle.campaign_world.specs.Script.{one_line_more};
ghost use Rattle.campaign_world.specs.Making.{after_form};
ghost use Rattle.campaign_world.specs.Recovery.{recovery};

mod beside;
mod events;
mod first_cause;
mod phase;
mod planning;
mod sends;

use self::events::Campaign;
use self::phase::Phase;
use self::planning::Planning;
use crate::numbered::numbered;
use crate::recovery::{NoFile, recovered_by};
use crate::uplink_ref::UplinkRef;
use report_lines::{LineError, LineWhy, MAX_LINE, MAX_LINES, refused_behind};
use script_lines::{Form, form};
use std::alloc::{AllocError, Global};
use std::marker::Model;

/// A campaign so far. It stands for the histories of all its devices.
#[derive(Drop)]
pub struct World {
    alloc: Global,
    lines: u32,
    phase: Phase,
    kept: Option<LineError>,
}

impl Model for World {
    ghost use Rattle.campaign_world.specs.HeldWorld.{HeldWorld};

    ghost Value = { HeldWorld };

    ghost use Rattle.campaign_world.specs.HeldWorld.{held_with};
    ghost use Rattle.campaign_world.specs.PhaseInside.{IsWorld, held_of, section_of};

    ghost view = { λ w. held_with w.lines (section_of w.phase) w.kept (held_of w.phase) };

    ghost invariant = { λ w. IsWorld w.lines w.phase };
}

impl World {
    ghost use Rattle.report_lines.specs.declared.faults.LineError.{LineError};
    ghost use Rattle.report_lines.specs.Lines.{StaysRefused};
    ghost use Rattle.campaign_world.specs.HeldWorld.{WorldStands, WorldBecomes, KeepsEnds, IsLineAnswer, IsReport, IsSummary, IsEnded, IsEndAnswer, IsFine, world_of};
    ghost use Rattle.report_lines.specs.Texts.{seen_text};

    /// Makes a world in which nothing happened yet, around an image file.
    pub fn new(alloc: Global, image: &[u8]) -> Result<Self, AllocError>
        requires { is_image image.now ≡ true }
        ensures stands { IfOk result (λ w. WorldStands w (first_world image.now)) }
        ensures fresh { IfOk result (λ w. w.kept ≡ None) }
    {
        let bytes = image.to_vec(alloc)?;
        Ok(World {
            alloc,
            lines: 0,
            phase: Phase::Planning(Planning::new(alloc, bytes)),
            kept: None,
        })
    }

    /// Takes the next line of the script, without its line feed. After a refused line each later line gets the same fault, and so
    /// it is after memory was missing. All memory that a line needs is taken before a device or the server is called, so that
    /// both are unchanged where it is missing.
    pub fn line(&mut self, line: &[u8]) -> Result<(), LineError>
        ensures step { (world : WorldState) → WorldStands self.old world → self.old.kept ≡ None
            → IsLineAnswer world line.now self.new result }
        ensures kept { IfErr result (λ e. self.new.kept ≡ Some e) }
        ensures same { (e : LineError) → self.old.kept ≡ Some e
            → (result ≡ Err e) × (self.new ≡ self.old) }
        ensures ends { OnErr result (KeepsEnds self.old self.new) }
    {
        if let Some(kept) = self.kept {
            return Err(kept);
        }
        if self.lines >= MAX_LINES {
            return self.refused(LineWhy::Limit);
        }
        if line.len() > MAX_LINE {
            return self.refused(LineWhy::Limit);
        }
        let read = form(line);
        let Some(form) = &read else {
            return self.refused(LineWhy::Syntax);
        };
        match self.first_cause(form) {
            Some(why) => self.refused(why),
            None => self.take(form),
        }
    }

    /// Returns the number of lines so far.
    pub fn lines(&self) -> u32
        ensures lines { result ≡ self.now.lines }
        ensures few { result ≤ max_lines }
    {
        self.lines
    }

    /// Returns the first cause for which a form is refused; None where it can be carried out. It doesn't depend on the number of
    /// lines.
    pub fn cause(&self, form: &Form) -> Option<LineWhy>
        ensures cause { (world : WorldState) → WorldStands self.now world
            → result ≡ form_cause world form.now }
        ensures held { (devices : List DeviceState) → length devices ≡ length self.now.devices
            → result ≡ form_cause (world_of self.now devices) form.now }
        ensures fine { result ≡ None → IsFine self.now form.now }
    {
        self.first_cause(form)
    }

    /// Carries out a form that is not refused, as a line of the script. Where memory is missing, devices and server are
    /// unchanged.
    pub fn take(&mut self, form: &Form) -> Result<(), LineError>
        requires fine { IsFine self.old form.now }
        requires room { self.old.lines < max_lines }
        ensures taken { OnOk result
            (WorldBecomes self.old self.new (λ world. one_line_more (after_form world form.now))) }
        ensures memory { IfErr result (λ e. e ≡ LineError.Memory) }
        ensures kept { OnOk result (self.new.kept ≡ self.old.kept) }
        ensures keeps { IfErr result (λ e. self.new.kept ≡ Some e) }
        ensures ends { OnErr result (KeepsEnds self.old self.new) }
    {
        match self.phase.take(self.alloc, self.lines, form) {
            Ok(()) => {
                self.lines += 1;
                Ok(())
            }
            Err(_) => {
                self.kept = Some(LineError::Memory);
                Err(LineError::Memory)
            }
        }
    }

    /// Counts a line of the script that is not for this campaign.
    pub fn pass(&mut self)
        requires room { self.old.lines < max_lines }
        ensures passed { WorldBecomes self.old self.new one_line_more }
        ensures kept { self.new.kept ≡ self.old.kept }
    {
        self.lines += 1;
    }

    /// Makes the report of the campaign, once `end` has come.
    pub fn report(&self, alloc: Global) -> Result<Vec<u8>, LineError>
        ensures report { (world : WorldState) → WorldStands self.now world → self.now.kept ≡ None
            → IsReport world (seen_text result) }
        ensures same { StaysRefused self.now.kept result }
    {
        Ok(self.played()?.report(alloc)?)
    }

    /// Makes the summary of the campaign, once `end` has come: what was sent and heard, and how many devices have the image.
    pub fn summary(&self, alloc: Global) -> Result<Vec<u8>, LineError>
        ensures summary { (world : WorldState) → WorldStands self.now world → self.now.kept ≡ None
            → IsSummary world (seen_text result) }
        ensures same { StaysRefused self.now.kept result }
    {
        Ok(self.played()?.summary(alloc)?)
    }

    /// Says that `end` has come, or else returns the fault of the line that is missing.
    pub fn ended(&self) -> Result<(), LineError>
        ensures ended { (world : WorldState) → WorldStands self.now world → self.now.kept ≡ None
            → IsEnded world result }
        ensures same { StaysRefused self.now.kept result }
    {
        self.played()?;
        Ok(())
    }

    /// Returns the file that session 0 of a device, numbered from 1, recovered so far, or why there is none; `ended` says whether
    /// the script is complete.
    pub fn recovered(&self, device: u8) -> Result<&[u8], NoFile>
        ensures file { (world : WorldState) → WorldStands self.now world
            → IfOk result (λ file. recovery world device ≡ Ok file.now) }
        ensures why { (world : WorldState) → WorldStands self.now world
            → IfErr result (λ why. recovery world device ≡ Err why) }
    {
        match numbered(self.phase.devices(), u64::from(device)) {
            Some(found) => recovered_by(found),
            None => Err(NoFile::None),
        }
    }

    /// Returns the uplink with a number, counted from 1; None where none has it. It is one command in its canonical spelling.
    pub fn uplink(&self, number: u64) -> Option<UplinkRef<'_>>
        ensures found { result
            ≡ option_map (λ made. made.uplink) (numbered self.now.uplinks number) }
        ensures single { IfSome result (λ uplink. IsUplink uplink) }
    {
        match &self.phase {
            Phase::Planning(_) => None,
            Phase::Playing { campaign, .. } => campaign.uplink(number),
        }
    }

    /// Says whether a line was refused, or memory was missing: then no line does more.
    pub fn is_over(&self) -> bool
        ensures { result ≡ is_some self.now.kept }
    {
        self.kept.is_some()
    }

    /// The campaign that was played to its end, or the fault of the line that is missing.
    fn played(&self) -> Result<&Campaign, LineError>
        ensures ended { (world : WorldState) → WorldStands self.now world → self.now.kept ≡ None
            → IsEndAnswer world result }
        ensures same { StaysRefused self.now.kept result }
        ensures devices { IfOk result (λ campaign. campaign.now.devices ≡ self.now.devices) }
        ensures server { IfOk result (λ campaign. campaign.now.server ≡ self.now.server) }
        ensures sent { IfOk result (λ campaign. campaign.now.sent ≡ self.now.sent) }
    {
        if let Some(kept) = self.kept {
            return Err(kept);
        }
        match &self.phase {
            Phase::Playing {
                campaign,
                has_ended: true,
            } => Ok(campaign),
            _ => Err(self.fault(LineWhy::Syntax)),
        }
    }

    /// Refuses the next line, and so each later one.
    fn refused(&mut self, why: LineWhy) -> Result<(), LineError>
        ensures fault { result ≡ Err
            (LineError.Line (record { line = self.old.lines + 1; why = why })) }
        ensures kept { self.new ≡ record self.old {
          kept =
              Some (LineError.Line (record { line = self.old.lines + 1; why = why }));
        } }
    {
        let fault = self.fault(why);
        self.kept = Some(fault);
        Err(fault)
    }

    /// The first cause for which a form is refused.
    #[inline(always)]
    fn first_cause(&self, form: &Form) -> Option<LineWhy>
        ensures { (devices : List DeviceState) → length devices ≡ length self.now.devices
            → result ≡ form_cause (world_of self.now devices) form.now }
    {
        match &self.phase {
            Phase::Planning(planning) => planning.first_cause(form),
            Phase::Playing {
                campaign,
                has_ended,
            } => {
                if *has_ended {
                    Some(LineWhy::Order)
                } else {
                    campaign.first_cause(form)
                }
            }
        }
    }

    /// The fault of the line that comes next.
    fn fault(&self, why: LineWhy) -> LineError
        ensures { result ≡ LineError.Line (record { line = self.now.lines + 1; why = why }) }
    {
        refused_behind(self.lines, why)
    }
}
