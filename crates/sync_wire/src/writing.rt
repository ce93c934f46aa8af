ghost use Rattle.sync_wire.specs.Table.{IsValid, canonical};
ghost use Rattle.wire_base.specs.Payload.{Appends};

use crate::cmd::Cmd;
use crate::writing_clock::{
    put_periodicity_answer, put_periodicity_request, put_resync_request, put_time_answer,
    put_time_request, put_version_answer, put_version_request,
};
use crate::writing_firmware::{
    put_countdown_answer, put_countdown_request, put_delete_answer, put_delete_request,
    put_dev_version_answer, put_dev_version_request, put_reboot_time_answer,
    put_reboot_time_request, put_upgrade_answer, put_upgrade_request,
};
use wire_base::{Full, Payload};

/// Puts the canonical spelling of a command at the end, whole or not at all; `Full` where there is no room.
pub fn write_one(cmd: &Cmd, out: &mut Payload) -> Result<(), Full>
    requires { IsValid cmd.now }
    ensures { Appends out.old out.new (canonical cmd.now) result }
{
    match cmd {
        &Cmd::PackageVersionReq => put_version_request(out),
        &Cmd::PackageVersionAns {
            identifier,
            version,
        } => put_version_answer(identifier, version, out),
        &Cmd::AppTimeReq {
            time,
            required,
            token,
        } => put_time_request(time, required, token, out),
        &Cmd::AppTimeAns { correction, token } => put_time_answer(correction, token, out),
        &Cmd::DeviceAppTimePeriodicityReq { period } => put_periodicity_request(period, out),
        &Cmd::DeviceAppTimePeriodicityAns { unsupported, time } => {
            put_periodicity_answer(unsupported, time, out)
        }
        &Cmd::ForceDeviceResyncReq { count } => put_resync_request(count, out),
        &Cmd::DevVersionReq => put_dev_version_request(out),
        &Cmd::DevVersionAns { firmware, hardware } => {
            put_dev_version_answer(firmware, hardware, out)
        }
        &Cmd::DevRebootTimeReq { time } => put_reboot_time_request(time, out),
        &Cmd::DevRebootTimeAns { time } => put_reboot_time_answer(time, out),
        &Cmd::DevRebootCountdownReq { count } => put_countdown_request(count, out),
        &Cmd::DevRebootCountdownAns { count } => put_countdown_answer(count, out),
        &Cmd::DevUpgradeImageReq => put_upgrade_request(out),
        &Cmd::DevUpgradeImageAns { status, next } => put_upgrade_answer(status, next, out),
        &Cmd::DevDeleteImageReq { version } => put_delete_request(version, out),
        &Cmd::DevDeleteImageAns { errors } => put_delete_answer(errors, out),
    }
}
