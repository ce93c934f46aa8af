//! TS006-1.0.0.

ghost use Rattle.std.specs.Prelude.{◌<◌, ◌≤◌, length};
ghost use Rattle.sync_wire.specs.Table.{IsValid, canonical};
ghost use Rattle.wire_base.specs.Payload.{Appends};

use crate::cmd::Cmd;
use crate::ids::{DELETE_IMAGE, DEV_VERSION, REBOOT_COUNTDOWN, REBOOT_TIME, UPGRADE_IMAGE};
use wire_base::{Full, Payload};

pub fn put_dev_version_request(out: &mut Payload) -> Result<(), Full>
    requires { IsValid (Cmd.DevVersionReq) }
    ensures { Appends out.old out.new (canonical (Cmd.DevVersionReq)) result }
{
    out.append(&[DEV_VERSION])
}

pub fn put_dev_version_answer(firmware: u32, hardware: u32, out: &mut Payload) -> Result<(), Full>
    requires { IsValid (Cmd.DevVersionAns firmware hardware) }
    ensures { Appends out.old out.new (canonical (Cmd.DevVersionAns firmware hardware)) result }
{
    let [a, b, c, d] = firmware.to_le_bytes();
    let [e, f, g, h] = hardware.to_le_bytes();
    out.append(&[DEV_VERSION, a, b, c, d, e, f, g, h])
}

pub fn put_reboot_time_request(time: u32, out: &mut Payload) -> Result<(), Full>
    requires { IsValid (Cmd.DevRebootTimeReq time) }
    ensures { Appends out.old out.new (canonical (Cmd.DevRebootTimeReq time)) result }
{
    let [a, b, c, d] = time.to_le_bytes();
    out.append(&[REBOOT_TIME, a, b, c, d])
}

pub fn put_reboot_time_answer(time: u32, out: &mut Payload) -> Result<(), Full>
    requires { IsValid (Cmd.DevRebootTimeAns time) }
    ensures { Appends out.old out.new (canonical (Cmd.DevRebootTimeAns time)) result }
{
    let [a, b, c, d] = time.to_le_bytes();
    out.append(&[REBOOT_TIME, a, b, c, d])
}

pub fn put_countdown_request(count: u32, out: &mut Payload) -> Result<(), Full>
    requires { IsValid (Cmd.DevRebootCountdownReq count) }
    ensures { Appends out.old out.new (canonical (Cmd.DevRebootCountdownReq count)) result }
{
    let [a, b, c, _] = count.to_le_bytes();
    out.append(&[REBOOT_COUNTDOWN, a, b, c])
}

pub fn put_countdown_answer(count: u32, out: &mut Payload) -> Result<(), Full>
    requires { IsValid (Cmd.DevRebootCountdownAns count) }
    ensures { Appends out.old out.new (canonical (Cmd.DevRebootCountdownAns count)) result }
{
    let [a, b, c, _] = count.to_le_bytes();
    out.append(&[REBOOT_COUNTDOWN, a, b, c])
}

pub fn put_upgrade_request(out: &mut Payload) -> Result<(), Full>
    requires { IsValid (Cmd.DevUpgradeImageReq) }
    ensures { Appends out.old out.new (canonical (Cmd.DevUpgradeImageReq)) result }
{
    out.append(&[UPGRADE_IMAGE])
}

pub fn put_upgrade_answer(status: u8, next: Option<u32>, out: &mut Payload) -> Result<(), Full>
    requires { IsValid (Cmd.DevUpgradeImageAns status next) }
    ensures { Appends out.old out.new (canonical (Cmd.DevUpgradeImageAns status next)) result }
{
    match next {
        None => out.append(&[UPGRADE_IMAGE, status]),
        Some(version) => {
            let [a, b, c, d] = version.to_le_bytes();
            out.append(&[UPGRADE_IMAGE, status, a, b, c, d])
        }
    }
}

pub fn put_delete_request(version: u32, out: &mut Payload) -> Result<(), Full>
    requires { IsValid (Cmd.DevDeleteImageReq version) }
    ensures { Appends out.old out.new (canonical (Cmd.DevDeleteImageReq version)) result }
{
    let [a, b, c, d] = version.to_le_bytes();
    out.append(&[DELETE_IMAGE, a, b, c, d])
}

pub fn put_delete_answer(errors: u8, out: &mut Payload) -> Result<(), Full>
    requires { IsValid (Cmd.DevDeleteImageAns errors) }
    ensures { Appends out.old out.new (canonical (Cmd.DevDeleteImageAns errors)) result }
{
    out.append(&[DELETE_IMAGE, errors])
}
