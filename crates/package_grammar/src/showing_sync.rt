//! The texts of the commands of TS003 and TS006.
ghost use Rattle.std.specs.Prelude.{◌≡◌, ◌++◌, OnOk, string_bytes};
ghost use Rattle.package_grammar.specs.Texts.{sync_text};

use crate::showing_parts::{put_number, put_text, put_there, put_truth, put_word};
use std::alloc::AllocError;
use sync_wire::Cmd;

/// Puts the text of a command of ports 202 and 203 at the end.
pub fn put_sync(cmd: &Cmd, text: &mut String) -> Result<(), AllocError>
    ensures { OnOk result (string_bytes text.new ≡ string_bytes text.old ++ sync_text cmd.now) }
{
    match cmd {
        Cmd::PackageVersionReq => put_text("PackageVersionReq", text),
        Cmd::PackageVersionAns {
            identifier,
            version,
        } => {
            put_word("PackageVersionAns id=", *identifier, text)?;
            put_word(" version=", *version, text)
        }
        Cmd::AppTimeReq {
            time,
            required,
            token,
        } => {
            put_number("AppTimeReq time=", *time, text)?;
            put_truth(" required=", *required, text)?;
            put_word(" token=", *token, text)
        }
        Cmd::AppTimeAns { correction, token } => {
            write!(text, "AppTimeAns correction={correction}")?;
            put_word(" token=", *token, text)
        }
        Cmd::DeviceAppTimePeriodicityReq { period } => put_word(
            "DeviceAppTimePeriodicityReq period=",
            *period,
            text,
        ),
        Cmd::DeviceAppTimePeriodicityAns { unsupported, time } => {
            put_truth(
                "DeviceAppTimePeriodicityAns unsupported=",
                *unsupported,
                text,
            )?;
            put_number(" time=", *time, text)
        }
        Cmd::ForceDeviceResyncReq { count } => put_word(
            "ForceDeviceResyncReq count=",
            *count,
            text,
        ),
        Cmd::DevVersionReq => put_text("DevVersionReq", text),
        Cmd::DevVersionAns { firmware, hardware } => {
            put_number("DevVersionAns fw=", *firmware, text)?;
            put_number(" hw=", *hardware, text)
        }
        Cmd::DevRebootTimeReq { time } => put_number("DevRebootTimeReq time=", *time, text),
        Cmd::DevRebootTimeAns { time } => put_number("DevRebootTimeAns time=", *time, text),
        Cmd::DevRebootCountdownReq { count } => put_number(
            "DevRebootCountdownReq count=",
            *count,
            text,
        ),
        Cmd::DevRebootCountdownAns { count } => put_number(
            "DevRebootCountdownAns count=",
            *count,
            text,
        ),
        Cmd::DevUpgradeImageReq => put_text("DevUpgradeImageReq", text),
        Cmd::DevUpgradeImageAns { status, next } => {
            put_word("DevUpgradeImageAns status=", *status, text)?;
            put_there(" next=", *next, text)
        }
        Cmd::DevDeleteImageReq { version } => put_number(
            "DevDeleteImageReq version=",
            *version,
            text,
        ),
        Cmd::DevDeleteImageAns { errors } => put_word("DevDeleteImageAns bits=", *errors, text),
    }
}
