//! PackageVersion and TS003-1.0.0.

ghost use Rattle.std.specs.Prelude.{◌<◌, ◌≤◌, length};
ghost use Rattle.sync_wire.specs.Table.{IsValid, canonical};
ghost use Rattle.wire_base.specs.Payload.{Appends};

use crate::cmd::Cmd;
use crate::ids::{APP_TIME, FORCE_RESYNC, PACKAGE_VERSION, PERIODICITY};
use wire_base::{Full, Payload};

pub fn put_version_request(out: &mut Payload) -> Result<(), Full>
    requires { IsValid (Cmd.PackageVersionReq) }
    ensures { Appends out.old out.new (canonical (Cmd.PackageVersionReq)) result }
{
    out.append(&[PACKAGE_VERSION])
}

pub fn put_version_answer(identifier: u8, version: u8, out: &mut Payload) -> Result<(), Full>
    requires { IsValid (Cmd.PackageVersionAns identifier version) }
    ensures { Appends out.old out.new
        (canonical (Cmd.PackageVersionAns identifier version)) result }
{
    out.append(&[PACKAGE_VERSION, identifier, version])
}

pub fn put_time_request(time: u32, required: bool, token: u8, out: &mut Payload) -> Result<(), Full>
    requires { IsValid (Cmd.AppTimeReq time required token) }
    ensures { Appends out.old out.new (canonical (Cmd.AppTimeReq time required token)) result }
{
    let [a, b, c, d] = time.to_le_bytes();
    out.append(&[APP_TIME, a, b, c, d, (u8::from(required) << 4) + token])
}

pub fn put_time_answer(correction: i32, token: u8, out: &mut Payload) -> Result<(), Full>
    requires { IsValid (Cmd.AppTimeAns correction token) }
    ensures { Appends out.old out.new (canonical (Cmd.AppTimeAns correction token)) result }
{
    let [a, b, c, d] = correction.to_le_bytes();
    out.append(&[APP_TIME, a, b, c, d, token])
}

pub fn put_periodicity_request(period: u8, out: &mut Payload) -> Result<(), Full>
    requires { IsValid (Cmd.DeviceAppTimePeriodicityReq period) }
    ensures { Appends out.old out.new (canonical (Cmd.DeviceAppTimePeriodicityReq period)) result }
{
    out.append(&[PERIODICITY, period])
}

pub fn put_periodicity_answer(unsupported: bool, time: u32, out: &mut Payload) -> Result<(), Full>
    requires { IsValid (Cmd.DeviceAppTimePeriodicityAns unsupported time) }
    ensures { Appends out.old out.new
        (canonical (Cmd.DeviceAppTimePeriodicityAns unsupported time)) result }
{
    let [a, b, c, d] = time.to_le_bytes();
    out.append(&[PERIODICITY, u8::from(unsupported), a, b, c, d])
}

pub fn put_resync_request(count: u8, out: &mut Payload) -> Result<(), Full>
    requires { IsValid (Cmd.ForceDeviceResyncReq count) }
    ensures { Appends out.old out.new (canonical (Cmd.ForceDeviceResyncReq count)) result }
{
    out.append(&[FORCE_RESYNC, count])
}
