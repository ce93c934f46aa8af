//! The summary of a campaign: what was sent and heard, and how many devices have the image.

ghost use Rattle.std.specs.Prelude.{◌≡◌, ◌≤◌, ◌<◌, ◌+◌, ◌^◌, ◌++◌, List, Some, IfOk, codes, length, string_bytes};
ghost use Rattle.frag_session.specs.Session.{view_of};
ghost use Rattle.frag_session.specs.HeldView.{seen};
ghost use Rattle.device_core.specs.Device.{DeviceState};
ghost use Rattle.device_core.specs.HeldDevice.{DeviceStands};
ghost use Rattle.campaign_world.specs.HeldWorld.{DevicesRest};
ghost use Rattle.campaign_world.specs.HeldLate.{DeviceRests};
ghost use Rattle.campaign_world.specs.Summary.{heard_by, has_file, is_complete, is_updated, one_if, with_device, totals_from, nothing_counted, size_line, totals_lines, summary_with};

use crate::late::LateDevice;
use campaign_server::{Server, Stage};
use device_core::Device;
use flash_session::CellFlash;
use frag_session::{Verdict, View};
use std::alloc::{AllocError, Global};

/// What a summary counts of all devices.
#[derive(Clone, Copy)]
pub struct Totals {
    /// Fragments that session 0 heard, repeats included.
    pub heard: u32,
    /// Devices whose session 0 has its file.
    pub complete: u8,
    /// Devices of which the server knows that they run the image.
    pub updated: u8,
}

/// Makes the summary: the image, what was sent and heard, and how many devices have it.
pub fn summary(
    alloc: Global,
    server: &Server,
    sent: usize,
    devices: &Vec<LateDevice>,
) -> Result<Vec<u8>, AllocError>
    requires numbers { length devices.now.items ≡ length server.now.plan.devices }
    requires few { length devices.now.items ≤ 64 }
    ensures { (ds : List DeviceState) → DevicesRest devices.now.items ds
        → IfOk result (λ text. text.items ≡ summary_with server.now sent ds) }
{
    let size = size_line(alloc, server.image().len(), server.nb_frag())?;
    let totals = totals_lines(alloc, sent, count_devices(server, devices))?;
    let text = all_lines(alloc, size.as_str(), totals.as_str())?;
    Ok(text.into_bytes())
}

fn size_line(alloc: Global, size: usize, fragments: u16) -> Result<String, AllocError>
    ensures { IfOk result (λ text. string_bytes text ≡ size_line size fragments) }
{
    format!(in alloc; "image {size} fragments {fragments}\n")
}

fn totals_lines(alloc: Global, sent: usize, totals: Totals) -> Result<String, AllocError>
    ensures { IfOk result (λ text. string_bytes text ≡ totals_lines sent totals) }
{
    let Totals {
        heard,
        complete,
        updated,
    } = totals;
    format!(in alloc; "sent {sent} heard {heard}\ncomplete {complete} updated {updated}\n")
}

fn all_lines(alloc: Global, size: &str, totals: &str) -> Result<String, AllocError>
    ensures { IfOk result (λ text. string_bytes text ≡ size.now ++ (totals.now ++ codes "end\n")) }
{
    format!(in alloc; "{size}{totals}end\n")
}

/// What is counted over all devices.
fn count_devices(server: &Server, devices: &Vec<LateDevice>) -> Totals
    requires numbers { length devices.now.items ≡ length server.now.plan.devices }
    requires few { length devices.now.items ≤ 64 }
    ensures { (ds : List DeviceState) → DevicesRest devices.now.items ds
        → result ≡ totals_from nothing_counted server.now.stages ds }
{
    let mut totals = Totals {
        heard: 0,
        complete: 0,
        updated: 0,
    };
    let mut id = 1u8;
    for device in devices {
        totals = with_device(totals, server.ledger(id), device);
        id += 1;
    }
    totals
}

/// The totals with one device more.
fn with_device(totals: Totals, stage: Stage, late: &LateDevice) -> Totals
    requires heard { totals.heard + 65535 < 2 ^ 32 }
    requires complete { totals.complete < 255 }
    requires updated { totals.updated < 255 }
    ensures counted { (d : DeviceState) → DeviceRests late.now d
        → result ≡ with_device totals stage d }
    ensures heard { result.heard ≤ totals.heard + 65535 }
    ensures complete { result.complete ≤ totals.complete + 1 }
    ensures updated { result.updated ≤ totals.updated + 1 }
{
    let (heard, complete) = first_session(late);
    Totals {
        heard: totals.heard + u32::from(heard),
        complete: totals.complete + one_if(complete),
        updated: totals.updated + one_if(is_updated(stage)),
    }
}

fn one_if(holds: bool) -> u8
    ensures { result ≡ one_if holds }
{
    if holds { 1 } else { 0 }
}

/// The fragments that session 0 heard, and whether it has its file.
fn first_session(late: &LateDevice) -> (u16, bool)
    ensures heard { (d : DeviceState) → DeviceRests late.now d
        → result.0 ≡ heard_by (view_of d.sessions.first) }
    ensures file { (d : DeviceState) → DeviceRests late.now d
        → result.1 ≡ has_file (view_of d.sessions.first) }
{
    match late.device() {
        Some(device) => first_of(device),
        None => (0, false),
    }
}

fn first_of(device: &Device<CellFlash>) -> (u16, bool)
    ensures heard { (d : DeviceState) → DeviceStands device.now d
        → result.0 ≡ heard_by (view_of d.sessions.first) }
    ensures file { (d : DeviceState) → DeviceStands device.now d
        → result.1 ≡ has_file (view_of d.sessions.first) }
{
    match device.session(0) {
        Some(view) => seen_in(view),
        None => (0, false),
    }
}

#[tactic(auto, unfolding(frag_session::specs::HeldView::seen))]
fn seen_in(view: View<'_>) -> (u16, bool)
    ensures heard { result.0 ≡ heard_by (Some (seen view.entry)) }
    ensures file { result.1 ≡ has_file (Some (seen view.entry)) }
{
    (view.received, is_complete(view.verdict))
}

fn is_complete(verdict: Verdict) -> bool
    ensures { result ≡ is_complete verdict }
{
    matches!(verdict, Verdict::Complete(_))
}

fn is_updated(stage: Stage) -> bool
    ensures { result ≡ is_updated stage }
{
    matches!(stage, Stage::Updated)
}
