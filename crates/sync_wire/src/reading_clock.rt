//! TS003-1.0.0, port 202.

ghost use Rattle.std.specs.Prelude.{◌≡◌, ℕ, ◌+◌, ◌<◌, ◌≤◌, length, IfOk, IfErr, Ok};
ghost use Rattle.std.specs.Result.{result_ok};
ghost use Rattle.wire_base.specs.Payload.{max_payload};
ghost use Rattle.sync_wire.specs.Table.{Spells, IsRefusal};
ghost use Rattle.sync_wire.specs.Reading.{clock_down, clock_up};

use crate::cmd::Cmd;
use crate::ids::{
    APP_TIME, APP_TIME_LEN, FORCE_RESYNC, NO_BODY_LEN, ONE_BYTE_LEN, PACKAGE_VERSION, PERIODICITY,
    PERIODICITY_ANSWER_LEN, VERSION_ANSWER_LEN,
};
use wire_base::{Direction, Refusal, u8_at, u32_at};

#[inline(always)]
#[tactic(auto, using(crate::proofs::Known::clock_down_known), unfolding(crate::specs::Reading::clock_down))]
pub fn read_clock_down(bytes: &[u8], at: u16) -> Result<(Cmd, u16), Refusal>
    requires inside { at < length bytes.now }
    requires fits { length bytes.now ≤ max_payload }
    ensures found { IfOk result (λ r. Spells r.0 202 Direction.Down bytes.now at r.1) }
    ensures exact { result_ok result ≡ clock_down bytes.now at }
    ensures stops { IfErr result (IsRefusal 202 Direction.Down bytes.now at) }
{
    let end = bytes.len() as u16;
    match u8_at(bytes, at) {
        PACKAGE_VERSION => Ok((Cmd::PackageVersionReq, at + NO_BODY_LEN)),
        APP_TIME if at + APP_TIME_LEN <= end => {
            let answer = Cmd::AppTimeAns {
                correction: u32_at(bytes, at + 1).cast_signed(),
                token: u8_at(bytes, at + 5) & 15,
            };
            Ok((answer, at + APP_TIME_LEN))
        }
        PERIODICITY if at + ONE_BYTE_LEN <= end => {
            let period = u8_at(bytes, at + 1) & 15;
            Ok((
                Cmd::DeviceAppTimePeriodicityReq { period },
                at + ONE_BYTE_LEN,
            ))
        }
        FORCE_RESYNC if at + ONE_BYTE_LEN <= end => {
            let count = u8_at(bytes, at + 1) & 7;
            Ok((Cmd::ForceDeviceResyncReq { count }, at + ONE_BYTE_LEN))
        }
        APP_TIME | PERIODICITY | FORCE_RESYNC => Err(Refusal::short(bytes)),
        _ => Err(Refusal::unknown(at)),
    }
}

#[inline(always)]
#[tactic(auto, using(crate::proofs::Known::clock_up_known), unfolding(crate::specs::Reading::clock_up))]
pub fn read_clock_up(bytes: &[u8], at: u16) -> Result<(Cmd, u16), Refusal>
    requires inside { at < length bytes.now }
    requires fits { length bytes.now ≤ max_payload }
    ensures found { IfOk result (λ r. Spells r.0 202 Direction.Up bytes.now at r.1) }
    ensures exact { result_ok result ≡ clock_up bytes.now at }
    ensures stops { IfErr result (IsRefusal 202 Direction.Up bytes.now at) }
{
    let end = bytes.len() as u16;
    match u8_at(bytes, at) {
        PACKAGE_VERSION if at + VERSION_ANSWER_LEN <= end => {
            let version = Cmd::PackageVersionAns {
                identifier: u8_at(bytes, at + 1),
                version: u8_at(bytes, at + 2),
            };
            Ok((version, at + VERSION_ANSWER_LEN))
        }
        APP_TIME if at + APP_TIME_LEN <= end => {
            let param = u8_at(bytes, at + 5);
            let request = Cmd::AppTimeReq {
                time: u32_at(bytes, at + 1),
                required: param >> 4 & 1 == 1,
                token: param & 15,
            };
            Ok((request, at + APP_TIME_LEN))
        }
        PERIODICITY if at + PERIODICITY_ANSWER_LEN <= end => {
            let answer = Cmd::DeviceAppTimePeriodicityAns {
                unsupported: u8_at(bytes, at + 1) & 1 == 1,
                time: u32_at(bytes, at + 2),
            };
            Ok((answer, at + PERIODICITY_ANSWER_LEN))
        }
        PACKAGE_VERSION | APP_TIME | PERIODICITY => Err(Refusal::short(bytes)),
        _ => Err(Refusal::unknown(at)),
    }
}
