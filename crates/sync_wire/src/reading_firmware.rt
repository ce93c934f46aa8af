//! TS006-1.0.0, port 203.

ghost use Rattle.std.specs.Prelude.{◌≡◌, ℕ, ◌+◌, ◌<◌, ◌≤◌, length, IfOk, IfErr, Ok};
ghost use Rattle.std.specs.Result.{result_ok};
ghost use Rattle.wire_base.specs.Payload.{max_payload};
ghost use Rattle.sync_wire.specs.Table.{Spells, IsRefusal};
ghost use Rattle.sync_wire.specs.Reading.{firmware_down, firmware_up};

use crate::cmd::Cmd;
use crate::ids::{
    DELETE_IMAGE, DEV_VERSION, DEV_VERSION_ANSWER_LEN, FOUR_BYTES_LEN, NEXT_ANSWER_LEN,
    NO_BODY_LEN, ONE_BYTE_LEN, PACKAGE_VERSION, REBOOT_COUNTDOWN, REBOOT_TIME, STATUS_VALID,
    THREE_BYTES_LEN, UPGRADE_IMAGE, VERSION_ANSWER_LEN,
};
use wire_base::{Direction, Refusal, u8_at, u24_at, u32_at};

#[inline(always)]
#[tactic(auto, using(crate::proofs::Known::firmware_down_known), unfolding(crate::specs::Reading::firmware_down))]
pub fn read_firmware_down(bytes: &[u8], at: u16) -> Result<(Cmd, u16), Refusal>
    requires inside { at < length bytes.now }
    requires fits { length bytes.now ≤ max_payload }
    ensures found { IfOk result (λ r. Spells r.0 203 Direction.Down bytes.now at r.1) }
    ensures exact { result_ok result ≡ firmware_down bytes.now at }
    ensures stops { IfErr result (IsRefusal 203 Direction.Down bytes.now at) }
{
    let end = bytes.len() as u16;
    match u8_at(bytes, at) {
        PACKAGE_VERSION => Ok((Cmd::PackageVersionReq, at + NO_BODY_LEN)),
        DEV_VERSION => Ok((Cmd::DevVersionReq, at + NO_BODY_LEN)),
        REBOOT_TIME if at + FOUR_BYTES_LEN <= end => {
            let time = u32_at(bytes, at + 1);
            Ok((Cmd::DevRebootTimeReq { time }, at + FOUR_BYTES_LEN))
        }
        REBOOT_COUNTDOWN if at + THREE_BYTES_LEN <= end => {
            let count = u24_at(bytes, at + 1);
            Ok((Cmd::DevRebootCountdownReq { count }, at + THREE_BYTES_LEN))
        }
        UPGRADE_IMAGE => Ok((Cmd::DevUpgradeImageReq, at + NO_BODY_LEN)),
        DELETE_IMAGE if at + FOUR_BYTES_LEN <= end => {
            let version = u32_at(bytes, at + 1);
            Ok((Cmd::DevDeleteImageReq { version }, at + FOUR_BYTES_LEN))
        }
        REBOOT_TIME | REBOOT_COUNTDOWN | DELETE_IMAGE => Err(Refusal::short(bytes)),
        _ => Err(Refusal::unknown(at)),
    }
}

#[inline(always)]
#[tactic(auto, using(crate::proofs::Known::firmware_up_known), unfolding(crate::specs::Reading::firmware_up))]
pub fn read_firmware_up(bytes: &[u8], at: u16) -> Result<(Cmd, u16), Refusal>
    requires inside { at < length bytes.now }
    requires fits { length bytes.now ≤ max_payload }
    ensures found { IfOk result (λ r. Spells r.0 203 Direction.Up bytes.now at r.1) }
    ensures exact { result_ok result ≡ firmware_up bytes.now at }
    ensures stops { IfErr result (IsRefusal 203 Direction.Up bytes.now at) }
{
    let end = bytes.len() as u16;
    match u8_at(bytes, at) {
        PACKAGE_VERSION if at + VERSION_ANSWER_LEN <= end => {
            let version = Cmd::PackageVersionAns {
                identifier: u8_at(bytes, at + 1),
                version: u8_at(bytes, at + 2),
            };
            Ok((version, at + VERSION_ANSWER_LEN))
        }
        DEV_VERSION if at + DEV_VERSION_ANSWER_LEN <= end => {
            let versions = Cmd::DevVersionAns {
                firmware: u32_at(bytes, at + 1),
                hardware: u32_at(bytes, at + 5),
            };
            Ok((versions, at + DEV_VERSION_ANSWER_LEN))
        }
        REBOOT_TIME if at + FOUR_BYTES_LEN <= end => {
            let time = u32_at(bytes, at + 1);
            Ok((Cmd::DevRebootTimeAns { time }, at + FOUR_BYTES_LEN))
        }
        REBOOT_COUNTDOWN if at + THREE_BYTES_LEN <= end => {
            let count = u24_at(bytes, at + 1);
            Ok((Cmd::DevRebootCountdownAns { count }, at + THREE_BYTES_LEN))
        }
        UPGRADE_IMAGE if at + ONE_BYTE_LEN <= end => {
            let status = u8_at(bytes, at + 1) & 3;
            if status != STATUS_VALID {
                let answer = Cmd::DevUpgradeImageAns { status, next: None };
                return Ok((answer, at + ONE_BYTE_LEN));
            }
            if end < at + NEXT_ANSWER_LEN {
                return Err(Refusal::short(bytes));
            }
            let next = Some(u32_at(bytes, at + 2));
            let answer = Cmd::DevUpgradeImageAns { status, next };
            Ok((answer, at + NEXT_ANSWER_LEN))
        }
        DELETE_IMAGE if at + ONE_BYTE_LEN <= end => {
            let errors = u8_at(bytes, at + 1) & 3;
            Ok((Cmd::DevDeleteImageAns { errors }, at + ONE_BYTE_LEN))
        }
        PACKAGE_VERSION
        | DEV_VERSION
        | REBOOT_TIME
        | REBOOT_COUNTDOWN
        | UPGRADE_IMAGE
        | DELETE_IMAGE => Err(Refusal::short(bytes)),
        _ => Err(Refusal::unknown(at)),
    }
}
