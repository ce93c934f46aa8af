//! A campaign next to another one: what the other asks of it, and a payload of the other's server that reaches one of its
//! devices.

ghost use Rattle.std.specs.Prelude.{◌≡◌, ◌≤◌, ◌<◌, ◌^◌, true, false, None, Some, Ok, length, IfErr, IfOk, IfSome, OnErr, OnOk, string_bytes};
ghost use Rattle.wire_base.specs.Numbered.{numbered};
ghost use Rattle.script_lines.specs.Limits.{max_lines};
ghost use Rattle.campaign_server.specs.Plan.{max_devices};
ghost use Rattle.campaign_world.specs.World.{WorldState};
ghost use Rattle.campaign_world.specs.Said.{Reached};
ghost use Rattle.campaign_world.specs.Causes.{takes_events, has_begun};
ghost use Rattle.campaign_world.specs.Script.{after_line};
ghost use Rattle.campaign_world.specs.Report.{lines_under};

use super::World;
use super::phase::Phase;
use crate::numbered::SentPayload;
use crate::section::Section;
use campaign_server::{Plan, Server};
use package_grammar::DownlinkRef;
use report_lines::LineError;
use std::alloc::{AllocError, Global};

impl World {
    ghost use Rattle.report_lines.specs.declared.faults.LineError.{LineError};
    ghost use Rattle.campaign_world.specs.HeldWorld.{WorldStands, WorldBecomes, KeepsEnds};

    /// Returns what may come next.
    pub fn section(&self) -> Section
        ensures { result ≡ self.now.section }
    {
        self.phase.section()
    }

    /// Returns how many devices there are, at most 64.
    pub fn count(&self) -> usize
        ensures count { result ≡ length self.now.devices }
        ensures few { result ≤ max_devices }
    {
        self.phase.count()
    }

    /// Returns how many of them have a flash.
    pub fn flash_count(&self) -> usize
        ensures count { result ≡ length self.now.flash }
        ensures few { result < 2 ^ 63 }
    {
        self.phase.flash().len()
    }

    /// Returns the plan of its server, as far as its lines have come.
    pub fn plan(&self) -> &Plan
        ensures { result.now ≡ self.now.server.plan }
    {
        match &self.phase {
            Phase::Planning(planning) => &planning.plan,
            Phase::Playing { campaign, .. } => campaign.server.plan(),
        }
    }

    /// Returns the server, from the first event on; None before.
    pub fn server(&self) -> Option<&Server>
        ensures found { IfSome result (λ server. server.now ≡ self.now.server) }
        ensures none { result ≡ None → has_begun self.now.section ≡ false }
    {
        match &self.phase {
            Phase::Planning(_) => None,
            Phase::Playing { campaign, .. } => Some(&campaign.server),
        }
    }

    /// Returns the sent payload with a number, counted from 1; None where none has it.
    pub fn sent(&self, number: u64) -> Option<SentPayload<'_>>
        ensures { result ≡ numbered self.now.sent number }
    {
        self.phase.sent(number)
    }

    /// Takes a payload of another campaign's server to a device, as a line of the script. Where memory is missing, devices and
    /// server are unchanged.
    pub fn reach(&mut self, device: u8, down: &DownlinkRef<'_>, word: u32) -> Result<(), LineError>
        requires comes { takes_events self.old.section ≡ true }
        requires first { 1 ≤ device }
        requires last { device ≤ length self.old.devices }
        requires room { self.old.lines < max_lines }
        ensures taken { OnOk result (WorldBecomes self.old self.new
            (λ world. after_line world (Ok (Reached device word down.now)))) }
        ensures kept { OnOk result (self.new.kept ≡ self.old.kept) }
        ensures memory { IfErr result (λ e. (e ≡ LineError.Memory) × (self.new.kept ≡ Some e)) }
        ensures ends { OnErr result (KeepsEnds self.old self.new) }
    {
        match self.phase.reach(self.alloc, self.lines, device, down, word) {
            Ok(()) => {
                self.lines += 1;
                Ok(())
            }
            Err(_) => {
                self.kept = Some(LineError::Memory);
                Err(LineError::Memory)
            }
        }
    }

    /// Makes the report's lines of a device, counted from 1, under a name; none where there is no such device.
    pub fn device_lines(&self, alloc: Global, number: u64, name: &str) -> Result<String, AllocError>
        requires { has_begun self.now.section ≡ true }
        ensures { (world : WorldState) → WorldStands self.now world
            → IfOk result (λ text. string_bytes text ≡ lines_under name.now number world) }
    {
        match &self.phase {
            Phase::Planning(_) => unreachable!(),
            Phase::Playing { campaign, .. } => campaign.device_lines(alloc, number, name),
        }
    }
}
