ghost use Rattle.std.specs.Prelude.{◌↔◌, IsTrue};
ghost use Rattle.sync_wire.specs.Table.{IsValid};

use crate::cmd::Cmd;
use crate::ids::STATUS_VALID;

/// Says whether each field fits its bits, and the fields fit together.
// Fields that fill their bytes are bound too, so that their ranges are known.
pub fn valid(cmd: &Cmd) -> bool
    ensures { IsTrue result ↔ IsValid cmd.now }
{
    match cmd {
        &Cmd::PackageVersionReq => true,
        &Cmd::PackageVersionAns {
            identifier: _identifier,
            version: _version,
        } => true,
        &Cmd::AppTimeReq {
            time: _time,
            token,
            ..
        } => token < 16,
        &Cmd::AppTimeAns {
            correction: _correction,
            token,
        } => token < 16,
        &Cmd::DeviceAppTimePeriodicityReq { period } => period < 16,
        &Cmd::DeviceAppTimePeriodicityAns { time: _time, .. } => true,
        &Cmd::ForceDeviceResyncReq { count } => count < 8,
        &Cmd::DevVersionReq => true,
        &Cmd::DevVersionAns {
            firmware: _firmware,
            hardware: _hardware,
        } => true,
        &Cmd::DevRebootTimeReq { time: _time } => true,
        &Cmd::DevRebootTimeAns { time: _time } => true,
        &Cmd::DevRebootCountdownReq { count } => count < 0x100_0000,
        &Cmd::DevRebootCountdownAns { count } => count < 0x100_0000,
        &Cmd::DevUpgradeImageReq => true,
        &Cmd::DevUpgradeImageAns { status, next } => is_upgrade_answer(status, next),
        &Cmd::DevDeleteImageReq { version: _version } => true,
        &Cmd::DevDeleteImageAns { errors } => errors < 4,
    }
}

/// A status that fits, with the next version exactly where it says that the next image is valid.
fn is_upgrade_answer(status: u8, next: Option<u32>) -> bool
    ensures { IsTrue result ↔ IsValid (Cmd.DevUpgradeImageAns status next) }
{
    match next {
        None => status < STATUS_VALID,
        Some(_version) => status == STATUS_VALID,
    }
}
