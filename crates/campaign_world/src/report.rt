//! The report of a campaign, line by line.

ghost use Rattle.std.specs.Prelude.{◌≡◌, ◌≤◌, ◌++◌, List, IfOk, codes, length, string_bytes};
ghost use Rattle.std.specs.Fmt.{decimal};
ghost use Rattle.device_core.specs.Configuration.{at_least_size};
ghost use Rattle.device_core.specs.Device.{DeviceState, first_device};
ghost use Rattle.report_lines.specs.Devices.{standing_of};
ghost use Rattle.campaign_world.specs.HeldWorld.{DevicesRest};
ghost use Rattle.campaign_world.specs.HeldLate.{DeviceRests};
ghost use Rattle.campaign_world.specs.Report.{image_text, image_line, all_lines, named_part, device_parts, report_with};

use crate::late::LateDevice;
use campaign_server::{Server, Stage};
use device_core::{Counts, DeviceConfig};
use image_slots::ImageState;
use report_lines::{Standing, Tail, counts_line, device_line, session_lines};
use std::alloc::{AllocError, Global};

/// The counters of a device without an event.
const FIRST_COUNTS: Counts = Counts {
    deaf: 0,
    refused: 0,
    full: 0,
    dropped: 0,
};

/// Makes the report: what is sent, the stage of each device, and what its sessions show.
pub fn report(
    alloc: Global,
    server: &Server,
    devices: &Vec<LateDevice>,
) -> Result<Vec<u8>, AllocError>
    requires numbers { length devices.now.items ≡ length server.now.plan.devices }
    requires few { length devices.now.items ≤ 64 }
    ensures { (ds : List DeviceState) → DevicesRest devices.now.items ds
        → IfOk result (λ text. text.items ≡ report_with server.now ds) }
{
    let image = image_line(alloc, server)?;
    let parts = device_parts(alloc, server, devices)?;
    let mut text = first_lines(alloc, image.as_str())?.into_bytes();
    text.extend_from_slice(&parts)?;
    text.extend_from_slice(b"end\n")?;
    Ok(text)
}

fn first_lines(alloc: Global, image: &str) -> Result<String, AllocError>
    ensures { IfOk result (λ text. string_bytes text ≡ codes "fuota report 1\n" ++ image.now) }
{
    format!(in alloc; "fuota report 1\n{image}")
}

/// The lines of each device, in order.
fn device_parts(
    alloc: Global,
    server: &Server,
    devices: &Vec<LateDevice>,
) -> Result<Vec<u8>, AllocError>
    requires numbers { length devices.now.items ≡ length server.now.plan.devices }
    requires few { length devices.now.items ≤ 64 }
    ensures { (ds : List DeviceState) → DevicesRest devices.now.items ds
        → IfOk result (λ text. text.items ≡ device_parts server.now.image 1 server.now.stages ds) }
{
    let mut text = Vec::new(alloc);
    let mut id = 1u8;
    for device in devices {
        let name = name_of(alloc, id)?;
        let stage = server.ledger(id);
        let part = device_part(alloc, server.image(), name.as_str(), stage, device)?;
        text.extend_from_slice(part.as_bytes())?;
        id += 1;
    }
    Ok(text)
}

/// Makes the lines of one device, under its name.
pub fn device_part(
    alloc: Global,
    image: &[u8],
    name: &str,
    stage: Stage,
    late: &LateDevice,
) -> Result<String, AllocError>
    ensures { (d : DeviceState) → DeviceRests late.now d
        → IfOk result (λ text. string_bytes text ≡ named_part image.now name.now stage d) }
{
    match late.device() {
        Some(device) => {
            let sessions = session_lines(alloc, device, Tail::Same(image))?;
            let counts = device.counts();
            all_lines(
                alloc,
                name,
                stage,
                Standing::of(device),
                counts,
                sessions.as_str(),
            )
        }
        None => all_lines(
            alloc,
            name,
            stage,
            first_standing(late.config()),
            FIRST_COUNTS,
            "",
        ),
    }
}

/// The standing of a device without an event.
fn first_standing(config: DeviceConfig) -> Standing
    ensures { result ≡ standing_of (first_device (at_least_size config)) }
{
    Standing {
        offset: config.offset,
        token: 0,
        running: 0,
        next: ImageState::None,
    }
}

/// The lines of a device with this standing, these counters and these lines of its sessions.
fn all_lines(
    alloc: Global,
    name: &str,
    stage: Stage,
    stands: Standing,
    counts: Counts,
    sessions: &str,
) -> Result<String, AllocError>
    ensures { IfOk result (λ text. string_bytes text
        ≡ all_lines name.now stage stands counts sessions.now) }
{
    let stand = device_line(alloc, name, stage, stands)?;
    let counts = counts_line(alloc, counts)?;
    three_texts(alloc, stand.as_str(), counts.as_str(), sessions)
}

/// The name of a device in the report: its ID.
fn name_of(alloc: Global, id: u8) -> Result<String, AllocError>
    ensures { IfOk result (λ text. string_bytes text ≡ decimal id) }
{
    format!(in alloc; "{id}")
}

fn three_texts(alloc: Global, one: &str, two: &str, three: &str) -> Result<String, AllocError>
    ensures { IfOk result (λ text. string_bytes text ≡ one.now ++ (two.now ++ three.now)) }
{
    format!(in alloc; "{one}{two}{three}")
}

fn image_line(alloc: Global, server: &Server) -> Result<String, AllocError>
    ensures { IfOk result (λ text. string_bytes text ≡ image_line server.now) }
{
    image_text(
        alloc,
        server.image().len(),
        server.nb_frag(),
        server.frag_size(),
        server.padding(),
        server.parity(),
    )
}

fn image_text(
    alloc: Global,
    size: usize,
    fragments: u16,
    frag_size: u8,
    padding: u8,
    parity: u16,
) -> Result<String, AllocError>
    ensures { IfOk result
        (λ text. string_bytes text ≡ image_text size fragments frag_size padding parity) }
{
    format!(in alloc;
        "image {size} fragments {fragments} size {frag_size} padding {padding} parity {parity}\n"
    )
}
