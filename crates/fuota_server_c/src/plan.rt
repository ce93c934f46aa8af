//! What a server has to do, as C says it.

ghost use Rattle.std.specs.Prelude.{◌≡◌, IfOk, map, take};
ghost use Rattle.fuota_server_c.specs.Plan.{plan_of, most_copied, group_of, window_of, kind_of, device_of, root_of, field_number};

use campaign_server::{Field, Kind, Plan, PlanDevice, PlanGroup, PlanWindow};
use mc_keys::RootKind;
use std::alloc::{AllocError, Global};

/// A device of the plan, by its key: AppKey of LoRaWAN 1.1 where `is_v11`, else GenAppKey of LoRaWAN 1.0.
#[repr(C)]
#[derive(Drop)]
pub struct PlanDeviceFields {
    pub key: [u8; 16],
    pub is_v11: bool,
}

/// What a server has to do, without the devices, as `Plan` of `campaign_server` has it.
#[repr(C)]
#[derive(Drop)]
pub struct PlanFields {
    pub addr: u32,
    pub min: u32,
    pub max: u32,
    pub start: u32,
    pub freq: u32,
    pub parity: u16,
    pub frag_size: u8,
    pub timeout: u8,
    pub dr: u8,
    pub periodicity: u8,
    pub index: u8,
    pub id: u8,
    pub has_group: bool,
    pub has_window: bool,
    pub is_class_b: bool,
    /// McKey.
    pub key: [u8; 16],
}

/// The most devices that are copied: a plan of one more than there may be is refused as one of any more.
const MOST_COPIED: usize = 65;

/// Makes the plan of these fields, for the first of these devices.
pub fn plan_of(
    alloc: Global,
    fields: &PlanFields,
    devices: &[PlanDeviceFields],
) -> Result<Plan, AllocError>
    ensures { IfOk result (λ plan. plan ≡ plan_of fields.now (take most_copied devices.now)) }
{
    let devices = devices_of(alloc, &devices[..devices.len().min(MOST_COPIED)])?;
    Ok(Plan {
        frag_size: fields.frag_size,
        parity: fields.parity,
        index: fields.index,
        group: group_of(fields),
        window: window_of(fields),
        devices,
    })
}

fn devices_of(alloc: Global, told: &[PlanDeviceFields]) -> Result<Vec<PlanDevice>, AllocError>
    ensures { IfOk result (λ devices. devices.items ≡ map device_of told.now) }
{
    let mut devices = Vec::new(alloc);
    for device in told {
        devices.push(device_of(device))?;
    }
    Ok(devices)
}

fn device_of(fields: &PlanDeviceFields) -> PlanDevice
    ensures { result ≡ device_of fields.now }
{
    PlanDevice {
        key: fields.key,
        root: root_of(fields.is_v11),
    }
}

fn root_of(is_v11: bool) -> RootKind
    ensures { result ≡ root_of is_v11 }
{
    if is_v11 { RootKind::V11 } else { RootKind::V10 }
}

fn group_of(fields: &PlanFields) -> Option<PlanGroup>
    ensures { result ≡ group_of fields.now }
{
    if !fields.has_group {
        return None;
    }
    Some(PlanGroup {
        id: fields.id,
        addr: fields.addr,
        key: fields.key,
        min: fields.min,
        max: fields.max,
    })
}

fn window_of(fields: &PlanFields) -> Option<PlanWindow>
    ensures { result ≡ window_of fields.now }
{
    if !fields.has_window {
        return None;
    }
    Some(PlanWindow {
        kind: kind_of(fields.is_class_b, fields.periodicity),
        start: fields.start,
        timeout: fields.timeout,
        freq: fields.freq,
        dr: fields.dr,
    })
}

fn kind_of(is_class_b: bool, periodicity: u8) -> Kind
    ensures { result ≡ kind_of is_class_b periodicity }
{
    if is_class_b {
        Kind::B { periodicity }
    } else {
        Kind::C
    }
}

/// Returns the number of a field that is wrong.
pub fn field_number(field: Field) -> u8
    ensures { result ≡ field_number field }
{
    match field {
        Field::FragSize => 1,
        Field::Parity => 2,
        Field::Group => 3,
        Field::Window => 4,
        Field::Devices => 5,
        Field::Index => 6,
    }
}
