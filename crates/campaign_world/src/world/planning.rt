//! The plan, made by the lines of the image, of the group with its window, and of the devices.

ghost use Rattle.std.specs.Prelude.{◌≡◌, ◌≤◌, ◌<◌, ◌++◌, ◌∷◌, ◌^◌, [], ℕ, true, false, length, Option, Some, IfOk, OnOk, OnErr};
ghost use Rattle.image_slots.specs.Image.{is_image};
ghost use Rattle.campaign_server.specs.Plan.{is_frag_size, fits_bits};
ghost use Rattle.campaign_server.specs.Server.{first_server};
ghost use Rattle.campaign_world.specs.HeldLate.{HasSpan};
ghost use Rattle.campaign_world.specs.World.{first_plan};
ghost use Rattle.campaign_world.specs.Causes.{is_event_or_end, is_in_order};
ghost use Rattle.device_core.specs.Configuration.{at_least_size};
ghost use Rattle.device_core.specs.Device.{is_config, max_rows};
ghost use Rattle.campaign_world.specs.Making.{with_plan, with_joined, with_flash, config_of, class_of, formats_of, root_of, span_of, after_form};
ghost use Rattle.campaign_world.specs.declared.section.Section.TheVariants as section;

use super::events::Campaign;
use crate::late::LateDevice;
use crate::section::Section;
use campaign_server::{Kind, Plan, PlanDevice, PlanGroup, PlanWindow, Server, ServerError};
use device_core::{Class, DeviceConfig, MAX_AREA};
use mc_keys::RootKind;
use script_lines::{DeviceLine, Form};
use std::alloc::{AllocError, Global};
use std::mem::replace;

/// Sessions and groups of each device.
const SESSIONS: u8 = 4;

const GROUPS: u8 = 4;

/// The bytes of flash for each session of a device that holds its sessions there: enough for any file of its area.
const FLASH_SPAN: u32 = 631_573;

/// A plan as its lines describe it so far. Its image and its devices go to the campaign.
#[derive(Drop)]
pub struct Planning {
    pub(super) image: Vec<u8>,
    /// What may come next.
    pub(super) section: Section,
    pub(super) plan: Plan,
    pub(super) devices: Vec<LateDevice>,
    /// The IDs of the devices that have a flash.
    pub(super) flash: Vec<u64>,
}

impl Planning {
    ghost use Rattle.campaign_world.specs.HeldWorld.{SameEnds, IsTested};
    ghost use Rattle.campaign_world.specs.WorldInside.{IsToJoin, IsToBegin};
    ghost use Rattle.campaign_world.specs.PhaseInside.{IsPlanningOf, PlanBecomes, PlanTakes, planned_by};

    /// Makes a plan with only its image.
    pub fn new(alloc: Global, image: Vec<u8>) -> Self
        requires { is_image image.items ≡ true }
        ensures planning { IsPlanningOf result }
        ensures section { result.section ≡ section.Header }
        ensures held { planned_by result ≡ record {
          time = 0;
          server = first_server image.items first_plan;
          devices = [];
          flash = [];
          sent = [];
          uplinks = [];
        } }
    {
        Planning {
            image,
            section: Section::Header,
            plan: first_plan(alloc),
            devices: Vec::new(alloc),
            flash: Vec::new(alloc),
        }
    }

    /// Takes a line of the plan.
    #[tactic(auto, unfolding(crate::specs::Making::after_form))]
    pub fn line(&mut self, lines: u32, form: &Form) -> Result<(), AllocError>
        requires plan { is_event_or_end form.now ≡ false }
        requires planning { IsPlanningOf self.old }
        requires in_order { is_in_order self.old.section form.now ≡ true }
        requires tested { IsTested (planned_by self.old) form.now }
        ensures planning { IsPlanningOf self.new }
        ensures taken { PlanTakes lines self.old self.new result
            (λ world. after_form world form.now) }
        ensures ends { OnErr result (SameEnds (planned_by self.old) (planned_by self.new)) }
    {
        match form {
            Form::Header => {
                self.section = Section::Image;
                Ok(())
            }
            Form::Image {
                frag_size,
                parity,
                index,
            } => {
                self.cut(*frag_size as u8, *parity as u16, *index as u8);
                Ok(())
            }
            Form::Group {
                id,
                addr,
                key,
                min,
                max,
            } => {
                let key = *key;
                self.group(PlanGroup {
                    id: *id as u8,
                    addr: *addr,
                    key,
                    min: *min as u32,
                    max: *max as u32,
                });
                Ok(())
            }
            Form::WindowC {
                start,
                timeout,
                freq,
                dr,
            } => {
                self.window(window_of(Kind::C, *start, *timeout, *freq, *dr));
                Ok(())
            }
            Form::WindowB {
                start,
                periodicity,
                timeout,
                freq,
                dr,
            } => {
                let kind = Kind::B {
                    periodicity: *periodicity as u8,
                };
                self.window(window_of(kind, *start, *timeout, *freq, *dr));
                Ok(())
            }
            Form::Device(line) => {
                let config = config_of(line);
                self.add_device(line.id, config)
            }
            _ => Ok(()),
        }
    }

    /// The image's line: how it is cut, and the index of its session.
    fn cut(&mut self, frag_size: u8, parity: u16, index: u8)
        requires here { self.old.section ≡ section.Image }
        requires planning { IsPlanningOf self.old }
        requires size { is_frag_size (length self.old.image.items) frag_size ≡ true }
        requires few { parity ≤ 512 }
        requires indexed { index ≤ 3 }
        ensures planning { IsPlanningOf self.new }
        ensures taken { PlanBecomes self.old self.new (λ world. with_plan world
            (record world.server.plan { frag_size = frag_size; parity = parity; index = index })
            section.Group) }
    {
        self.plan.frag_size = frag_size;
        self.plan.parity = parity;
        self.plan.index = index;
        self.section = Section::Group;
    }

    /// The group's line, after which its window must come.
    fn group(&mut self, group: PlanGroup)
        requires here { self.old.section ≡ section.Group }
        requires planning { IsPlanningOf self.old }
        requires counts { group.min < group.max }
        requires id { group.id ≤ 3 }
        ensures planning { IsPlanningOf self.new }
        ensures taken { PlanBecomes self.old self.new (λ world. with_plan world
            (record world.server.plan { group = Some group }) section.Window) }
    {
        self.plan.group = Some(group);
        self.section = Section::Window;
    }

    /// The group's window.
    fn window(&mut self, window: PlanWindow)
        requires here { self.old.section ≡ section.Window }
        requires planning { IsPlanningOf self.old }
        requires fits { fits_bits window ≡ true }
        ensures planning { IsPlanningOf self.new }
        ensures taken { PlanBecomes self.old self.new (λ world. with_plan world
            (record world.server.plan { window = Some window }) section.Device) }
    {
        self.plan.window = Some(window);
        self.section = Section::Device;
    }

    /// One device more.
    fn add_device(&mut self, id: u64, config: DeviceConfig) -> Result<(), AllocError>
        requires fine { is_config (at_least_size config) ≡ true }
        requires span { HasSpan (at_least_size config) }
        requires planning { IsPlanningOf self.old }
        requires joins { IsToJoin self.old.image.items self.old.plan self.old.devices.items }
        ensures planning { IsPlanningOf self.new }
        ensures taken { (lines : ℕ) → PlanTakes lines self.old self.new result
            (λ world. with_joined world id (at_least_size config)) }
        ensures ends { OnErr result (SameEnds (planned_by self.old) (planned_by self.new)) }
    {
        add_flash(&mut self.flash, id, config.held)?;
        let key = config.key;
        let root = config.root;
        let planned = PlanDevice { key, root };
        join(
            &mut self.plan,
            &mut self.devices,
            planned,
            LateDevice::new(config),
        )?;
        self.section = Section::Devices;
        Ok(())
    }

    /// Makes the campaign that was planned, before its first event. Where memory is missing the plan is unchanged.
    pub fn begin(&mut self, alloc: Global) -> Result<Campaign, AllocError>
        requires { IsToBegin self.old.image.items self.old.plan self.old.devices.items }
        ensures begun { IfOk result (λ campaign. campaign ≡ planned_by self.old) }
        ensures same { OnErr result (self.new ≡ self.old) }
    {
        let plan = copy_of(alloc, &self.plan)?;
        match Server::new(alloc, plan, &self.image) {
            Ok(server) => {
                let devices = replace(&mut self.devices, Vec::new(alloc));
                let flash = replace(&mut self.flash, Vec::new(alloc));
                Ok(Campaign::new(alloc, server, devices, flash))
            }
            Err(ServerError::Memory) => Err(AllocError),
            Err(ServerError::BadPlan(_)) => unreachable!(),
        }
    }
}

/// Nothing is planned.
fn first_plan(alloc: Global) -> Plan
    ensures { result ≡ first_plan }
{
    Plan {
        frag_size: 0,
        parity: 0,
        index: 0,
        group: None,
        window: None,
        devices: Vec::new(alloc),
    }
}

/// The window with these numbers.
fn window_of(kind: Kind, start: u64, timeout: u64, freq: u64, dr: u64) -> PlanWindow
    requires start { start < 2 ^ 32 }
    requires timeout { timeout ≤ 15 }
    requires freq { freq < 2 ^ 24 }
    requires dr { dr ≤ 255 }
    ensures { result ≡ record {
      kind = kind;
      start = start;
      timeout = timeout;
      freq = freq;
      dr = dr;
    } }
{
    PlanWindow {
        kind,
        start: start as u32,
        timeout: timeout as u8,
        freq: freq as u32,
        dr: dr as u8,
    }
}

/// A plan equal to this one.
fn copy_of(alloc: Global, plan: &Plan) -> Result<Plan, AllocError>
    ensures { IfOk result (λ copy. copy ≡ plan.now) }
{
    let devices = Vec::from_slice(alloc, &plan.devices)?;
    Ok(Plan {
        frag_size: plan.frag_size,
        parity: plan.parity,
        index: plan.index,
        group: plan.group,
        window: plan.window,
        devices,
    })
}

/// Puts a device into the plan and the campaign; into neither, where there is no room for both.
fn join(
    plan: &mut Plan,
    devices: &mut Vec<LateDevice>,
    key: PlanDevice,
    device: LateDevice,
) -> Result<(), AllocError>
    ensures plan { OnOk result
        (plan.new ≡ record plan.old { devices = plan.old.devices ++ key ∷ [] }) }
    ensures devices { OnOk result (devices.new.items ≡ devices.old.items ++ device ∷ []) }
    ensures unplanned { OnErr result (plan.new ≡ plan.old) }
    ensures same { OnErr result (devices.new.items ≡ devices.old.items) }
{
    devices.reserve(1)?;
    match plan.devices.push(key) {
        Ok(()) => {
            devices.push_reserved(device);
            Ok(())
        }
        Err(_) => Err(AllocError),
    }
}

/// Lists a device that has a flash.
fn add_flash(ids: &mut Vec<u64>, id: u64, flash: bool) -> Result<(), AllocError>
    ensures { OnOk result (ids.new.items ≡ with_flash ids.old.items id flash) }
{
    if !flash {
        return Ok(());
    }
    match ids.push(id) {
        Ok(()) => Ok(()),
        Err(_) => Err(AllocError),
    }
}

/// The configuration that a device line says.
fn config_of(line: &DeviceLine) -> DeviceConfig
    requires hw { line.now.hw < 2 ^ 32 }
    requires rows { line.now.rows ≤ max_rows }
    requires offset { line.now.offset < 2 ^ 32 }
    ensures { at_least_size result ≡ config_of line.now }
{
    DeviceConfig {
        class: class_of(line.class),
        hw: line.hw as u32,
        formats: formats_of(line.v1),
        rows: line.rows as u16,
        offset: line.offset as u32,
        key: line.key,
        root: root_of(line.k11),
        descriptor: line.descriptor,
        sessions: SESSIONS,
        groups: GROUPS,
        area: MAX_AREA,
        held: line.flash,
        span: span_of(line.flash),
    }
}

/// The image formats that a device knows at first: only 1, or both.
fn formats_of(v1: bool) -> u8
    ensures { result ≡ formats_of v1 }
{
    if v1 { 1 } else { 2 }
}

/// The kind of root key that a device's key makes: the AppKey of LoRaWAN 1.1, or the GenAppKey of LoRaWAN 1.0.
fn root_of(k11: bool) -> RootKind
    ensures { result ≡ root_of k11 }
{
    if k11 { RootKind::V11 } else { RootKind::V10 }
}

/// The range of flash for a session, where sessions are held there.
fn span_of(held: bool) -> u32
    ensures { result ≡ span_of held }
{
    if held { FLASH_SPAN } else { 0 }
}

/// The class of a device.
fn class_of(class: script_lines::Class) -> Class
    ensures { result ≡ class_of class }
{
    match class {
        script_lines::Class::A => Class::A,
        script_lines::Class::C => Class::C,
    }
}
