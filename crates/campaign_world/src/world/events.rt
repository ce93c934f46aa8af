//! A campaign that plays, and its events.

ghost use Rattle.std.specs.Prelude.{◌≡◌, ◌≤◌, ◌<◌, ◌+◌, ℕ, true, List, [], length, None, Some, IfOk, IfSome, OnErr, option_map, string_bytes};
ghost use Rattle.wire_base.specs.Numbered.{numbered};
ghost use Rattle.image_slots.specs.Image.{is_image};
ghost use Rattle.script_lines.specs.Limits.{max_lines};
ghost use Rattle.device_core.specs.Device.{DeviceState, max_moment};
ghost use Rattle.device_core.specs.Events.{Wakes, Receives, HearsBytes};
ghost use Rattle.device_core.specs.Sendable.{IsUplink};
ghost use Rattle.campaign_server.specs.Plan.{max_devices};
ghost use Rattle.campaign_world.specs.Causes.{is_event_or_end};
ghost use Rattle.campaign_world.specs.Making.{with_event, reception, raw_down, sent_frame, hearing, at_events, after_form};
ghost use Rattle.campaign_world.specs.Report.{numbered_lines, report_with};
ghost use Rattle.campaign_world.specs.Summary.{summary_with};
ghost use Rattle.campaign_world.specs.HeldEvent.{happening_of, time_of, PlaysEvent};
ghost use Rattle.campaign_world.specs.declared.numbered.SentPayload.{SentPayload};

use super::sends::sent_frame;
use crate::happening::{Event, happen};
use crate::late::LateDevice;
use crate::logs::{SentLog, UplinkLog};
use crate::report::{device_part, report};
use crate::summary::summary;
use crate::uplink_ref::UplinkRef;
use arrayvec::ArrayVec;
use campaign_server::Server;
use device_core::Moment;
use package_grammar::{DownlinkRef, To};
use script_lines::{Form, HexBytes};
use std::alloc::{AllocError, Global};
use std::marker::Model;

/// A campaign that plays: its server and its devices, what was sent, and which uplinks were made.
#[derive(Drop)]
pub struct Campaign {
    pub(super) alloc: Global,
    /// The time now, in ms since the GPS epoch.
    pub(super) time: u64,
    pub(super) server: Server,
    pub(super) devices: Vec<LateDevice>,
    /// The IDs of the devices that have a flash.
    pub(super) flash: Vec<u64>,
    pub(super) sent: SentLog,
    pub(super) uplinks: UplinkLog,
}

impl Model for Campaign {
    ghost use Rattle.campaign_world.specs.HeldWorld.{HeldCampaign};
    ghost use Rattle.campaign_world.specs.WorldInside.{IsCampaign};

    ghost Value = { HeldCampaign };

    ghost view = { λ c. record {
      time = c.time;
      server = c.server;
      devices = c.devices.items;
      flash = c.flash.items;
      sent = c.sent.items;
      uplinks = c.uplinks.items;
    } };

    ghost invariant = { λ c. IsCampaign c.time c.server c.devices.items c.uplinks.items };
}

impl Campaign {
    ghost use Rattle.campaign_world.specs.HeldWorld.{DevicesRest, Plays, SameEnds, IsTested};

    /// Makes a campaign without an event.
    pub fn new(alloc: Global, server: Server, devices: Vec<LateDevice>, flash: Vec<u64>) -> Self
        requires image { is_image server.image ≡ true }
        requires few { length devices.items ≤ max_devices }
        requires numbers { length server.plan.devices ≡ length devices.items }
        ensures { result ≡ record {
          time = 0;
          server = server;
          devices = devices.items;
          flash = flash.items;
          sent = [];
          uplinks = [];
        } }
    {
        Campaign {
            alloc,
            time: 0,
            server,
            devices,
            flash,
            sent: SentLog::new(alloc),
            uplinks: UplinkLog::new(alloc),
        }
    }

    /// Carries out an event, after so many lines. The end changes nothing of what is held.
    #[tactic(auto, unfolding(crate::specs::Making::after_form))]
    pub fn event(&mut self, lines: u32, form: &Form) -> Result<(), AllocError>
        requires event { is_event_or_end form.now ≡ true }
        requires tested { IsTested self.old form.now }
        requires room { lines < max_lines }
        ensures taken { Plays lines self.old self.new result
            (λ world. at_events (after_form world form.now)) }
        ensures ends { OnErr result (SameEnds self.old self.new) }
    {
        // reading a field makes known what is true of all of them: that the devices are few
        let _few = &self.alloc;
        match form {
            Form::At { time } => {
                self.time = *time;
                Ok(())
            }
            Form::Wake { device } => self.wake(*device as u8),
            Form::Migrate { device } => self.happen_rarely(*device as u8, &Event::Raise),
            Form::Power { device } => self.happen_rarely(*device as u8, &Event::Power),
            Form::Ask { device } => self.ask(*device as u8),
            Form::Frag => self.frag(),
            Form::Status => self.status(),
            Form::Down {
                number,
                device,
                word,
            } => self.down(lines, *number, *device as u8, *word as u32),
            Form::Raw {
                device,
                port,
                payload,
                word,
            } => self.raw_form(lines, *device as u8, *port as u8, payload, *word as u32),
            Form::Air {
                number,
                device,
                word,
            } => self.air(lines, *number, *device as u8, *word as u32),
            Form::RawAir {
                device,
                bytes,
                word,
            } => self.raw_air(lines, *device as u8, bytes, *word as u32),
            Form::Up { number } => self.up(*number),
            _ => Ok(()),
        }
    }

    /// Makes an event happen at a device, and numbers its uplinks, oldest first. Each caller knows its event, so that no match on
    /// it is left in the built code.
    #[inline(always)]
    fn happen(&mut self, device: u8, event: &Event<'_>) -> Result<(), AllocError>
        requires first { 1 ≤ device }
        requires last { device ≤ length self.old.devices }
        requires moment { time_of event.now ≤ max_moment }
        ensures taken { PlaysEvent device (happening_of event.now) self.old self.new result }
        ensures ends { OnErr result (SameEnds self.old self.new) }
    {
        happen(
            &mut self.devices,
            self.alloc,
            &mut self.uplinks,
            device,
            event,
        )
    }

    /// The same for rarer events. It is a function by itself, so that they all share one body.
    #[inline(never)]
    fn happen_rarely(&mut self, device: u8, event: &Event<'_>) -> Result<(), AllocError>
        requires first { 1 ≤ device }
        requires last { device ≤ length self.old.devices }
        requires moment { time_of event.now ≤ max_moment }
        ensures taken { PlaysEvent device (happening_of event.now) self.old self.new result }
        ensures ends { OnErr result (SameEnds self.old self.new) }
    {
        self.happen(device, event)
    }

    /// A device wakes.
    #[inline(never)]
    fn wake(&mut self, device: u8) -> Result<(), AllocError>
        requires first { 1 ≤ device }
        requires last { device ≤ length self.old.devices }
        ensures taken { (lines : ℕ) → Plays lines self.old self.new result
            (λ world. with_event world device (Some (Wakes world.time))) }
        ensures ends { OnErr result (SameEnds self.old self.new) }
    {
        let time = self.time;
        self.happen(device, &Event::Wake(time))
    }

    /// The moment of the line that comes after so many.
    #[inline(always)]
    fn moment(&self, lines: u32, word: u32) -> Moment
        requires room { lines < max_lines }
        ensures value { result ≡ record { t = self.now.time; word = word; mark = lines + 1 } }
        ensures within { self.now.time ≤ max_moment }
    {
        Moment {
            t: self.time,
            word,
            mark: u64::from(lines) + 1,
        }
    }

    /// Payload S reaches a device.
    #[inline(never)]
    fn down(&mut self, lines: u32, number: u64, device: u8, word: u32) -> Result<(), AllocError>
        requires first { 1 ≤ device }
        requires last { device ≤ length self.old.devices }
        requires room { lines < max_lines }
        requires sent { (s : SentPayload) × (numbered self.old.sent number ≡ Some s) }
        ensures taken { Plays lines self.old self.new result (λ world. with_event world device
            (reception world.time word (world.lines + 1) (numbered world.sent number))) }
        ensures ends { OnErr result (SameEnds self.old self.new) }
    {
        let moment = self.moment(lines, word);
        let sent = self.sent.number(number).unwrap();
        happen(
            &mut self.devices,
            self.alloc,
            &mut self.uplinks,
            device,
            &Event::Deliver(&sent.down, moment),
        )
    }

    /// Takes anybody's payload to a device. It is no sent payload, and has no number.
    pub fn raw(
        &mut self,
        lines: u32,
        device: u8,
        down: &DownlinkRef<'_>,
        word: u32,
    ) -> Result<(), AllocError>
        requires first { 1 ≤ device }
        requires last { device ≤ length self.old.devices }
        requires room { lines < max_lines }
        ensures taken { Plays lines self.old self.new result (λ world. with_event world device
            (Some (Receives world.time word (world.lines + 1) down.now))) }
        ensures ends { OnErr result (SameEnds self.old self.new) }
    {
        let moment = self.moment(lines, word);
        self.happen(device, &Event::Deliver(down, moment))
    }

    /// The same for a payload in a line. It is a function by itself, so that no other event keeps room for its bytes.
    #[inline(never)]
    fn raw_form(
        &mut self,
        lines: u32,
        device: u8,
        port: u8,
        payload: &HexBytes,
        word: u32,
    ) -> Result<(), AllocError>
        requires short { length payload.now ≤ 242 }
        requires first { 1 ≤ device }
        requires last { device ≤ length self.old.devices }
        requires room { lines < max_lines }
        ensures taken { Plays lines self.old self.new result (λ world. with_event world device
            (Some (Receives world.time word (world.lines + 1) (raw_down port payload.now)))) }
        ensures ends { OnErr result (SameEnds self.old self.new) }
    {
        let mut bytes = ArrayVec::new();
        payload.put(&mut bytes);
        let down = DownlinkRef::new(To::Unicast, port, bytes.as_slice());
        self.raw(lines, device, &down, word)
    }

    /// Sent payload S reaches the radio of a device as its frame. It is a function by itself, so that no other event keeps room
    /// for it.
    #[inline(never)]
    fn air(&mut self, lines: u32, number: u64, device: u8, word: u32) -> Result<(), AllocError>
        requires first { 1 ≤ device }
        requires last { device ≤ length self.old.devices }
        requires room { lines < max_lines }
        ensures taken { Plays lines self.old self.new result (λ world. with_event world device
            (hearing world.time word (world.lines + 1)
            (sent_frame world.server.plan.group (numbered world.sent number)))) }
        ensures ends { OnErr result (SameEnds self.old self.new) }
    {
        match sent_frame(&self.server, &self.sent, number) {
            Some(frame) => self.hear(lines, device, &frame, word),
            None => Ok(()),
        }
    }

    /// Anybody's bytes reach the radio of a device. It is a function by itself, so that no other event keeps room for them.
    #[inline(never)]
    fn raw_air(
        &mut self,
        lines: u32,
        device: u8,
        bytes: &HexBytes,
        word: u32,
    ) -> Result<(), AllocError>
        requires first { 1 ≤ device }
        requires last { device ≤ length self.old.devices }
        requires room { lines < max_lines }
        ensures taken { Plays lines self.old self.new result (λ world. with_event world device
            (Some (HearsBytes world.time word (world.lines + 1) bytes.now))) }
        ensures ends { OnErr result (SameEnds self.old self.new) }
    {
        let mut spelled = ArrayVec::new();
        bytes.put(&mut spelled);
        self.hear(lines, device, spelled.as_slice(), word)
    }

    /// Bytes reach the radio of a device.
    fn hear(&mut self, lines: u32, device: u8, bytes: &[u8], word: u32) -> Result<(), AllocError>
        requires first { 1 ≤ device }
        requires last { device ≤ length self.old.devices }
        requires room { lines < max_lines }
        ensures taken { Plays lines self.old self.new result (λ world. with_event world device
            (Some (HearsBytes world.time word (world.lines + 1) bytes.now))) }
        ensures ends { OnErr result (SameEnds self.old self.new) }
    {
        let moment = self.moment(lines, word);
        self.happen_rarely(device, &Event::Radio(bytes, moment))
    }

    /// Returns the uplink with a number, counted from 1; None where none has it.
    pub fn uplink(&self, number: u64) -> Option<UplinkRef<'_>>
        ensures found { result
            ≡ option_map (λ made. made.uplink) (numbered self.now.uplinks number) }
        ensures single { IfSome result (λ uplink. IsUplink uplink) }
    {
        match self.uplinks.number(number) {
            Some(made) => Some(made.uplink),
            None => None,
        }
    }

    /// Makes the report's lines of a device, counted from 1, under a name; none where there is no such device.
    pub fn device_lines(&self, alloc: Global, number: u64, name: &str) -> Result<String, AllocError>
        ensures { (ds : List DeviceState) → DevicesRest self.now.devices ds → IfOk result
            (λ text. string_bytes text ≡ numbered_lines name.now number self.now.server ds) }
    {
        if number == 0 {
            return Ok(String::new(alloc));
        }
        if number > self.devices.len() as u64 {
            return Ok(String::new(alloc));
        }
        let device = &self.devices[number as usize - 1];
        let stage = self.server.ledger(number as u8);
        device_part(alloc, self.server.image(), name, stage, device)
    }

    /// Makes the report of what was played.
    pub fn report(&self, alloc: Global) -> Result<Vec<u8>, AllocError>
        ensures { (ds : List DeviceState) → DevicesRest self.now.devices ds
            → IfOk result (λ text. text.items ≡ report_with self.now.server ds) }
    {
        report(alloc, &self.server, &self.devices)
    }

    /// Makes the summary of what was played.
    pub fn summary(&self, alloc: Global) -> Result<Vec<u8>, AllocError>
        ensures { (ds : List DeviceState) → DevicesRest self.now.devices ds → IfOk result
            (λ text. text.items ≡ summary_with self.now.server (length self.now.sent) ds) }
    {
        summary(alloc, &self.server, self.sent.len(), &self.devices)
    }
}
