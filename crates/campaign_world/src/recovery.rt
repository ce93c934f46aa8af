//! The file that a device recovered, or why it has none.

ghost use Rattle.std.specs.Prelude.{◌≡◌, Some, Ok, Err, IfOk, IfErr};
ghost use Rattle.frag_session.specs.HeldView.{seen};
ghost use Rattle.device_core.specs.Device.{DeviceState};
ghost use Rattle.device_core.specs.HeldDevice.{DeviceStands};
ghost use Rattle.campaign_world.specs.HeldLate.{DeviceRests};
ghost use Rattle.campaign_world.specs.Recovery.{file_of, recovery_by};

use crate::late::LateDevice;
use device_core::Device;
use flash_session::CellFlash;
use frag_session::{Verdict, View};

/// Why a device has no file.
#[derive(Clone, Copy)]
pub enum NoFile {
    /// There is no such device, or it has no session.
    None,
    /// More than one file fits what its session heard.
    Receiving,
    /// There were more independent coded fragments than rows.
    NoRows,
    /// No file fits.
    Conflict,
}

/// Returns the file that a device recovered, or why it has none; a device without an event has none.
pub fn recovered_by(late: &LateDevice) -> Result<&[u8], NoFile>
    ensures file { (d : DeviceState) → DeviceRests late.now d
        → IfOk result (λ file. recovery_by (Some d) ≡ Ok file.now) }
    ensures why { (d : DeviceState) → DeviceRests late.now d
        → IfErr result (λ why. recovery_by (Some d) ≡ Err why) }
{
    match late.device() {
        Some(device) => first_file(device),
        None => Err(NoFile::None),
    }
}

/// The file of its first session.
fn first_file(device: &Device<CellFlash>) -> Result<&[u8], NoFile>
    ensures file { (d : DeviceState) → DeviceStands device.now d
        → IfOk result (λ file. recovery_by (Some d) ≡ Ok file.now) }
    ensures why { (d : DeviceState) → DeviceStands device.now d
        → IfErr result (λ why. recovery_by (Some d) ≡ Err why) }
{
    match device.session(0) {
        Some(view) => file_of(view),
        None => Err(NoFile::None),
    }
}

/// The file of what a session shows.
#[tactic(auto, unfolding(frag_session::specs::HeldView::seen))]
fn file_of(view: View<'_>) -> Result<&[u8], NoFile>
    ensures file { IfOk result (λ file. file_of (Some (seen view.entry)) ≡ Ok file.now) }
    ensures why { IfErr result (λ why. file_of (Some (seen view.entry)) ≡ Err why) }
{
    match view.verdict {
        Verdict::Receiving => Err(NoFile::Receiving),
        Verdict::Complete(_) => Ok(view.file),
        Verdict::NoRows(_) => Err(NoFile::NoRows),
        Verdict::Conflict(_) => Err(NoFile::Conflict),
    }
}
