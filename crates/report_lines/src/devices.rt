//! The lines of a device: its stage, and what it counted.

ghost use Rattle.std.specs.Prelude.{◌≡◌, Some, codes};
ghost use Rattle.std.specs.Fmt.{decimal};
ghost use Rattle.report_lines.specs.Texts.{IsText};
ghost use Rattle.report_lines.specs.Devices.{◌⧺◌, request_word, stage_text, next_text, standing_of, standing_text, standing_line, counts_line};

use campaign_server::{Request, Stage};
use device_core::{Counts, Device};
use flash_session::Flash;
use image_slots::ImageState;
use std::alloc::{AllocError, Global};
use std::fmt::{self, Display, Formatter, Write};

/// What a device's line shows of it.
#[derive(Clone, Copy, Debug, PartialEq, Eq)]
pub struct Standing {
    /// The seconds that its clock is ahead.
    pub offset: u32,
    /// The token of its next AppTimeReq.
    pub token: u8,
    /// The version that it runs.
    pub running: u32,
    /// What is to run next.
    pub next: ImageState,
}

impl Standing {
    ghost use Rattle.device_core.specs.Device.{DeviceState};
    ghost use Rattle.device_core.specs.HeldDevice.{DeviceStands};

    /// Reads how a device stands.
    pub fn of<F: Flash + Drop>(device: &Device<F>) -> Self
        ensures { (d : DeviceState) → DeviceStands device.now d → result ≡ standing_of d }
    {
        let (offset, token) = device.clock();
        Standing {
            offset,
            token,
            running: device.slots().running().0,
            next: device.slots().next(),
        }
    }
}

impl Display for Standing {
    ghost output = { λ stands. Some (standing_text stands) };

    fn fmt<W: Write>(&self, f: &mut Formatter<W>) -> fmt::Result {
        let Standing {
            offset,
            token,
            running,
            next,
        } = *self;
        let next = NextText(next);
        write!(
            f,
            "clock {offset} token {token} running {running} next {next}"
        )
    }
}

/// Makes the line of a device: its name in the report (the ID), its stage, its clock's offset in s, the token of its next
/// AppTimeReq, the version that it runs and what is to run next.
pub fn device_line(
    alloc: Global,
    name: &str,
    stage: Stage,
    stands: Standing,
) -> Result<String, AllocError>
    ensures { IsText result (standing_line name.now stage stands) }
{
    let stage = StageText(stage);
    format!(in alloc; "device {name} {stage} {stands}\n")
}

/// The stage of a device in the campaign, as its line says it.
#[derive(Clone, Copy)]
struct StageText(Stage);

impl Display for StageText {
    ghost output = { λ text. Some (stage_text text.0) };

    fn fmt<W: Write>(&self, f: &mut Formatter<W>) -> fmt::Result {
        match self.0 {
            Stage::At(request) => f.write_str(request_word(request)),
            Stage::Updated => f.write_str("updated"),
            Stage::Refused { request, bits } => {
                let word = request_word(request);
                write!(f, "refused {word} {bits}")
            }
        }
    }
}

fn request_word(request: Request) -> &'static str
    ensures { result.now ≡ request_word request }
{
    match request {
        Request::Version => "version",
        Request::Group => "group",
        Request::Fragments => "fragments",
        Request::Window => "window",
        Request::Status => "status",
        Request::Image => "image",
        Request::Reboot => "reboot",
        Request::Check => "check",
    }
}

/// What a device is to run next, as its line says it.
#[derive(Clone, Copy)]
struct NextText(ImageState);

impl Display for NextText {
    ghost output = { λ text. Some (next_text text.0) };

    fn fmt<W: Write>(&self, f: &mut Formatter<W>) -> fmt::Result {
        match self.0 {
            ImageState::None => f.write_str("none"),
            ImageState::Corrupt => f.write_str("corrupt"),
            ImageState::Incompatible => f.write_str("incompatible"),
            ImageState::Valid(version) => write!(f, "valid {version}"),
        }
    }
}

/// Makes the line of what a device counted: payloads that it did not hear, that it refused and for which its outbox had no room,
/// and fragments that it dropped.
pub fn counts_line(alloc: Global, counts: Counts) -> Result<String, AllocError>
    ensures { IsText result (counts_line counts) }
{
    let Counts {
        deaf,
        refused,
        full,
        dropped,
    } = counts;
    format!(in alloc; "counts deaf {deaf} refused {refused} full {full} dropped {dropped}\n")
}
