//! The text of `replay` for a file of captured payloads: the state of a device that hears them.

ghost use Rattle.std.specs.Prelude.{◌≡◌, ◌+◌, ◌<◌, ◌≤◌, [], ◌++◌, List, ℕ, Ok, IfOk, IfErr, OnOk, codes};
ghost use Rattle.script_lines.specs.Lines.{lines_of};
ghost use Rattle.device_core.specs.Device.{DeviceState};
ghost use Rattle.device_core.specs.HeldDevice.{DeviceStands, Becomes};
ghost use Rattle.report_lines.specs.Texts.{seen_text, IsText};
ghost use Rattle.report_lines.specs.Lines.{IsLineRefused, IsFileText};
ghost use Rattle.payload_replay.specs.PayloadLines.{payload_of};
ghost use Rattle.payload_replay.specs.Replay.{after_payload, replay_text, Replays};
ghost use Rattle.payload_replay.specs.HeldReplaying.{ReplayingStands, HearsReplayed};

use crate::hearer::{begin, closing_text, hear};
use crate::payload_lines::read_payload;
use device_core::Device;
use flash_session::CellFlash;
use report_lines::{LineError, LineWhy, refused_behind};
use script_lines::{HearsLine, MAX_HEX_BYTES};
use std::alloc::{AllocError, Global};
use std::marker::Model;

/// A replay while the lines of its file are heard: a class C device with 4 sessions of at most 262,382 bytes hears captured
/// payloads by unicast on port 201, downwards, at moment 0 ms.
///
/// The first line of the file is `replay 1 ROWS`; ROWS (decimal, 0 to 256) is the number of coded fragments that a session holds.
/// Lines 2 to 20,000, each of at most 600 bytes, are the hex digits of a payload of 0 to 242 bytes in the order sent. After the
/// first line that is refused, and after memory was missing, no line does more. (TS004-1.0.0; the file and the text are this
/// project's profile.)
#[derive(Drop)]
pub struct Replaying {
    alloc: Global,
    lines: u32,
    device: Option<Device<CellFlash>>,
    kept: Option<LineError>,
    /// Room for the bytes of a line, kept so that no line clears it.
    room: [u8; MAX_HEX_BYTES],
}

impl Model for Replaying {
    ghost use Rattle.std.specs.Prelude.{◌≤◌};
    ghost use Rattle.device_core.specs.HeldDevice.{HeldDevice};
    ghost use Rattle.flash_session.specs.Flashes.{Cells};
    ghost use Rattle.payload_replay.specs.HeldHeaded.{HeldHeaded};

    ghost Value = { HeldHeaded (HeldDevice Cells) };

    ghost view = { λ r. record { lines = r.lines; state = r.device; kept = r.kept } };

    ghost invariant = { λ r. r.lines ≤ 20000 };
}

impl HearsLine for Replaying {
    ghost use Rattle.payload_replay.specs.HeldReplaying.{HearsReplayed};

    ghost hears = { HearsReplayed };

    /// Hears a line, and keeps its fault.
    fn line(&mut self, line: &[u8]) {
        match self.kept {
            Some(_) => {}
            None => match &mut self.device {
                Some(device) => match hear_line(device, self.lines, line, &mut self.room) {
                    Ok(()) => self.lines += 1,
                    Err(error) => self.kept = Some(error),
                },
                None => self.start(line),
            },
        }
    }

    fn is_over(&self) -> bool {
        self.kept.is_some()
    }
}

impl Replaying {
    /// Makes a replay before its first line.
    pub fn new(alloc: Global) -> Self
        ensures { ReplayingStands result [] }
    {
        Replaying {
            alloc,
            lines: 0,
            device: None,
            kept: None,
            room: [0; MAX_HEX_BYTES],
        }
    }

    /// Hears the header.
    fn start(&mut self, header: &[u8])
        requires fine { self.old.kept ≡ None }
        requires first { self.old.state ≡ None }
        ensures { HearsReplayed self.old header.now self.new }
    {
        match begin(self.alloc, "replay", header) {
            Ok(device) => {
                self.device = Some(device);
                self.lines = 1;
            }
            Err(error) => self.kept = Some(error),
        }
    }

    /// Returns the text of a file, after all its lines: the counts of the device, and for each session its verdict, with the
    /// number of the line that decided it, and its file in hex where it is whole.
    ///
    /// `LineError::Line` names the first line that is refused and its first cause: `LineWhy::Limit` where a limit is exceeded,
    /// `LineWhy::Range` where ROWS is above 256, and else `LineWhy::Syntax`; an empty file is refused at line 1.
    /// `LineError::Memory` comes where memory is missing.
    pub fn text(&self) -> Result<Vec<u8>, LineError>
        ensures { (file : List ℕ) → ReplayingStands self.now (lines_of file)
            → IsFileText Replays file (seen_text result) }
    {
        match self.kept {
            Some(error) => Err(error),
            None => match &self.device {
                Some(device) => told(self.alloc, device),
                None => Err(refused_behind(0, LineWhy::Syntax)),
            },
        }
    }
}

/// The device hears the payload of a line that comes after so many; or the line is refused.
fn hear_line(
    device: &mut Device<CellFlash>,
    lines: u32,
    line: &[u8],
    room: &mut [u8; MAX_HEX_BYTES],
) -> Result<(), LineError>
    requires { lines ≤ 20000 }
    ensures heard { OnOk result ((payload : List ℕ) × (payload_of lines line.now ≡ Ok payload)
        × Becomes device.old device.new (λ before. after_payload (lines + 1) payload before)) }
    ensures few { OnOk result (lines < 20000) }
    ensures refused { IfErr result (IsLineRefused payload_of lines line.now) }
{
    match read_payload(lines, line, room) {
        Ok(count) => {
            hear(device, &room[..count], u64::from(lines + 1));
            Ok(())
        }
        Err(error) => Err(error),
    }
}

/// The text that shows the device.
fn told(alloc: Global, device: &Device<CellFlash>) -> Result<Vec<u8>, LineError>
    ensures text { (d : DeviceState) → DeviceStands device.now d
        → IfOk result (λ text. text.items ≡ replay_text d) }
    ensures memory { IfErr result (λ e. e ≡ LineError.Memory) }
{
    match text_of(alloc, device) {
        Ok(text) => Ok(text.into_bytes()),
        Err(_) => Err(LineError::Memory),
    }
}

fn text_of(alloc: Global, device: &Device<CellFlash>) -> Result<String, AllocError>
    ensures { (d : DeviceState) → DeviceStands device.now d
        → IsText result (replay_text d) }
{
    let closing = closing_text(alloc, device)?;
    whole_text(alloc, closing.as_str())
}

fn whole_text(alloc: Global, closing: &str) -> Result<String, AllocError>
    ensures { IsText result (codes "fuota replay 1\n" ++ closing.now) }
{
    format!(in alloc; "fuota replay 1\n{closing}")
}
