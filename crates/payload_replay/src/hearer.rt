//! The device that hears captured payloads: a header makes it, and the text at the end shows it.

ghost use Rattle.report_lines.specs.Texts.{IsText};
ghost use Rattle.std.specs.Prelude.{◌≡◌, ◌≤◌, ◌++◌, length, codes};
ghost use Rattle.wire_base.specs.Payload.{max_payload};
ghost use Rattle.device_core.specs.Configuration.{at_least_size};
ghost use Rattle.device_core.specs.Device.{DeviceState};
ghost use Rattle.device_core.specs.HeldDevice.{DeviceStands, Becomes};
ghost use Rattle.payload_replay.specs.Headed.{rows_by, rows_of};
ghost use Rattle.payload_replay.specs.Replay.{replay_device, after_payload, closing_text};
ghost use Rattle.payload_replay.specs.HeldHeaded.{IsBegun};

use cast_wire::FRAGMENT_PORT;
use device_core::{Class, Device, DeviceConfig, MAX_AREA, MAX_ROWS};
use flash_session::CellFlash;
use mc_keys::RootKind;
use package_grammar::{DownlinkRef, To};
use report_lines::{
    LineError, LineWhy, MAX_LINE, Tail, counts_line, refused_behind, session_lines,
};
use script_lines::{count_words, decimal, is_word, word};
use std::alloc::{AllocError, Global};

/// Makes the device that a header with this keyword asks for.
pub fn begin(alloc: Global, keyword: &str, header: &[u8]) -> Result<Device<CellFlash>, LineError>
    ensures { IsBegun keyword.now (λ rows. replay_device rows) DeviceStands header.now result }
{
    let rows = match read_header(keyword, header) {
        Ok(rows) => rows,
        Err(why) => return Err(refused_behind(0, why)),
    };
    let Ok(flash) = CellFlash::reserve(alloc, 0) else {
        return Err(LineError::Memory);
    };
    match Device::reserve_least(alloc, config(rows), flash) {
        Ok(device) => Ok(device),
        Err(_) => Err(LineError::Memory),
    }
}

/// The configuration of the device: class C, hardware version 0, a clock that is right, and so many rows. Its sessions are only
/// in memory.
fn config(rows: u16) -> DeviceConfig
    ensures { at_least_size result ≡ (replay_device rows).config }
{
    DeviceConfig {
        class: Class::C,
        hw: 0,
        formats: 2,
        rows,
        offset: 0,
        key: [0; 16],
        root: RootKind::V10,
        descriptor: None,
        sessions: 4,
        groups: 4,
        area: MAX_AREA,
        held: false,
        span: 0,
    }
}

/// The rows that a header has.
#[tactic(auto, unfolding(crate::specs::Headed::rows_of))]
fn read_header(keyword: &str, line: &[u8]) -> Result<u16, LineWhy>
    ensures { result ≡ rows_of keyword.now line.now }
{
    if line.len() > MAX_LINE {
        Err(LineWhy::Limit)
    } else if count_words(line) == 3 && is_word(line, 0, keyword) && is_word(line, 1, "1") {
        rows_by(decimal(word(line, 2)))
    } else {
        Err(LineWhy::Syntax)
    }
}

fn rows_by(rows: Option<u64>) -> Result<u16, LineWhy>
    ensures { result ≡ rows_by rows }
{
    match rows {
        None => Err(LineWhy::Syntax),
        Some(rows) if rows <= MAX_ROWS as u64 => Ok(rows as u16),
        Some(_) => Err(LineWhy::Range),
    }
}

/// Makes the device hear a payload at moment 0, and drops its uplinks.
pub fn hear(device: &mut Device<CellFlash>, payload: &[u8], mark: u64)
    requires { length payload.now ≤ max_payload }
    ensures { Becomes device.old device.new (λ before. after_payload mark payload.now before) }
{
    let down = DownlinkRef::new(To::Unicast, FRAGMENT_PORT, payload);
    // (a replay shows the session, not the answer)
    let _delivered = device.receive(0, &down, 0, mark);
    device.drop_uplinks();
}

/// Makes the text that shows the device: from the counts to the last line.
pub fn closing_text(alloc: Global, device: &Device<CellFlash>) -> Result<String, AllocError>
    ensures { (d : DeviceState) → DeviceStands device.now d
        → IsText result (closing_text d) }
{
    let counts = counts_line(alloc, device.counts())?;
    let sessions = session_lines(alloc, device, Tail::File)?;
    closing_lines(alloc, counts.as_str(), sessions.as_str())
}

fn closing_lines(alloc: Global, counts: &str, sessions: &str) -> Result<String, AllocError>
    ensures { IsText result (counts.now ++ (sessions.now ++ codes "end\n")) }
{
    format!(in alloc; "{counts}{sessions}end\n")
}
