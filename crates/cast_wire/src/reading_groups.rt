//! TS005-1.0.0, port 200.

ghost use Rattle.std.specs.Prelude.{◌≡◌, ℕ, ◌+◌, ◌<◌, ◌≤◌, ◌*◌, length, slice_range, IfOk, IfErr, Ok};
ghost use Rattle.std.specs.Result.{result_ok};
ghost use Rattle.wire_base.specs.Payload.{max_payload};
ghost use Rattle.cast_wire.specs.Table.{Spells, IsRefusal};
ghost use Rattle.cast_wire.specs.Reading.{group_down, group_up, groups_at};
ghost use Rattle.cast_wire.specs.Limits.{max_groups};

use crate::cmd::Cmd;
use crate::group_list::{GroupAddress, GroupList};
use crate::ids::{
    CLASS_B_SESSION, CLASS_C_SESSION, CLASS_SESSION_REQUEST_LEN, GROUP_DELETE, GROUP_LEN,
    GROUP_SETUP, GROUP_SETUP_REQUEST_LEN, GROUP_STATUS, GROUPS_HEAD_LEN, NO_BODY_LEN, ONE_BYTE_LEN,
    PACKAGE_VERSION, START_ANSWER_LEN, VERSION_ANSWER_LEN,
};
use wire_base::{Direction, Refusal, u8_at, u24_at, u32_at};

#[inline(always)]
#[tactic(auto, using(crate::proofs::Known::group_down_known), unfolding(crate::specs::Reading::group_down))]
pub fn read_group_down(bytes: &[u8], at: u16) -> Result<(Cmd<'_>, u16), Refusal>
    requires inside { at < length bytes.now }
    requires fits { length bytes.now ≤ max_payload }
    ensures found { IfOk result (λ r. Spells r.0 200 Direction.Down bytes.now at r.1) }
    ensures exact { result_ok result ≡ group_down bytes.now at }
    ensures stops { IfErr result (IsRefusal 200 Direction.Down bytes.now at) }
{
    let end = bytes.len() as u16;
    match u8_at(bytes, at) {
        PACKAGE_VERSION => Ok((Cmd::PackageVersionReq, at + NO_BODY_LEN)),
        GROUP_STATUS if at + ONE_BYTE_LEN <= end => {
            let mask = u8_at(bytes, at + 1) & 15;
            Ok((Cmd::McGroupStatusReq { mask }, at + ONE_BYTE_LEN))
        }
        GROUP_SETUP if at + GROUP_SETUP_REQUEST_LEN <= end => {
            let setup = Cmd::McGroupSetupReq {
                id: u8_at(bytes, at + 1) & 3,
                addr: u32_at(bytes, at + 2),
                key: key_at(bytes, at + 6),
                min: u32_at(bytes, at + 22),
                max: u32_at(bytes, at + 26),
            };
            Ok((setup, at + GROUP_SETUP_REQUEST_LEN))
        }
        GROUP_DELETE if at + ONE_BYTE_LEN <= end => {
            let id = u8_at(bytes, at + 1) & 3;
            Ok((Cmd::McGroupDeleteReq { id }, at + ONE_BYTE_LEN))
        }
        CLASS_C_SESSION if at + CLASS_SESSION_REQUEST_LEN <= end => {
            let request = Cmd::McClassCSessionReq {
                id: u8_at(bytes, at + 1) & 3,
                time: u32_at(bytes, at + 2),
                timeout: u8_at(bytes, at + 6) & 15,
                freq: u24_at(bytes, at + 7),
                dr: u8_at(bytes, at + 10),
            };
            Ok((request, at + CLASS_SESSION_REQUEST_LEN))
        }
        CLASS_B_SESSION if at + CLASS_SESSION_REQUEST_LEN <= end => {
            let slots = u8_at(bytes, at + 6);
            let request = Cmd::McClassBSessionReq {
                id: u8_at(bytes, at + 1) & 3,
                time: u32_at(bytes, at + 2),
                periodicity: slots >> 4 & 7,
                timeout: slots & 15,
                freq: u24_at(bytes, at + 7),
                dr: u8_at(bytes, at + 10),
            };
            Ok((request, at + CLASS_SESSION_REQUEST_LEN))
        }
        GROUP_STATUS | GROUP_SETUP | GROUP_DELETE | CLASS_C_SESSION | CLASS_B_SESSION => Err(
            Refusal::short(bytes),
        ),
        _ => Err(Refusal::unknown(at)),
    }
}

#[inline(always)]
#[tactic(auto, using(crate::proofs::Known::group_up_known), unfolding(crate::specs::Reading::group_up))]
pub fn read_group_up(bytes: &[u8], at: u16) -> Result<(Cmd<'_>, u16), Refusal>
    requires inside { at < length bytes.now }
    requires fits { length bytes.now ≤ max_payload }
    ensures found { IfOk result (λ r. Spells r.0 200 Direction.Up bytes.now at r.1) }
    ensures exact { result_ok result ≡ group_up bytes.now at }
    ensures stops { IfErr result (IsRefusal 200 Direction.Up bytes.now at) }
{
    let end = bytes.len() as u16;
    match u8_at(bytes, at) {
        PACKAGE_VERSION if at + VERSION_ANSWER_LEN <= end => {
            let version = Cmd::PackageVersionAns {
                identifier: u8_at(bytes, at + 1),
                version: u8_at(bytes, at + 2),
            };
            Ok((version, at + VERSION_ANSWER_LEN))
        }
        GROUP_STATUS if at + GROUPS_HEAD_LEN <= end => {
            let fields = u8_at(bytes, at + 1);
            let mask = fields & 15;
            let count = mask.count_ones() as u16;
            if end < at + (GROUPS_HEAD_LEN + GROUP_LEN * count) {
                return Err(Refusal::short(bytes));
            }
            let groups = groups_at(bytes, at + GROUPS_HEAD_LEN, count);
            let answer = Cmd::McGroupStatusAns {
                total: fields >> 4 & 7,
                mask,
                groups,
            };
            Ok((answer, at + (GROUPS_HEAD_LEN + GROUP_LEN * count)))
        }
        GROUP_SETUP if at + ONE_BYTE_LEN <= end => {
            let status = u8_at(bytes, at + 1);
            let answer = Cmd::McGroupSetupAns {
                id: status & 3,
                error: status >> 2 & 1 == 1,
            };
            Ok((answer, at + ONE_BYTE_LEN))
        }
        GROUP_DELETE if at + ONE_BYTE_LEN <= end => {
            let status = u8_at(bytes, at + 1);
            let answer = Cmd::McGroupDeleteAns {
                id: status & 3,
                undefined: status >> 2 & 1 == 1,
            };
            Ok((answer, at + ONE_BYTE_LEN))
        }
        CLASS_C_SESSION if at + ONE_BYTE_LEN <= end => {
            let status = u8_at(bytes, at + 1);
            let (id, undefined) = (status & 3, status >> 4 & 1 == 1);
            let (freq_error, dr_error) = (status >> 3 & 1 == 1, status >> 2 & 1 == 1);
            if undefined || freq_error || dr_error {
                let answer = Cmd::McClassCSessionAns {
                    id,
                    undefined,
                    freq_error,
                    dr_error,
                    start: None,
                };
                return Ok((answer, at + ONE_BYTE_LEN));
            }
            if end < at + START_ANSWER_LEN {
                return Err(Refusal::short(bytes));
            }
            let start = Some(u24_at(bytes, at + 2));
            let answer = Cmd::McClassCSessionAns {
                id,
                undefined,
                freq_error,
                dr_error,
                start,
            };
            Ok((answer, at + START_ANSWER_LEN))
        }
        CLASS_B_SESSION if at + ONE_BYTE_LEN <= end => {
            let status = u8_at(bytes, at + 1);
            let (id, undefined) = (status & 3, status >> 4 & 1 == 1);
            let (freq_error, dr_error) = (status >> 3 & 1 == 1, status >> 2 & 1 == 1);
            if undefined || freq_error || dr_error {
                let answer = Cmd::McClassBSessionAns {
                    id,
                    undefined,
                    freq_error,
                    dr_error,
                    start: None,
                };
                return Ok((answer, at + ONE_BYTE_LEN));
            }
            if end < at + START_ANSWER_LEN {
                return Err(Refusal::short(bytes));
            }
            let start = Some(u24_at(bytes, at + 2));
            let answer = Cmd::McClassBSessionAns {
                id,
                undefined,
                freq_error,
                dr_error,
                start,
            };
            Ok((answer, at + START_ANSWER_LEN))
        }
        PACKAGE_VERSION
        | GROUP_STATUS
        | GROUP_SETUP
        | GROUP_DELETE
        | CLASS_C_SESSION
        | CLASS_B_SESSION => Err(Refusal::short(bytes)),
        _ => Err(Refusal::unknown(at)),
    }
}

/// The groups of a McGroupStatusAns.
fn groups_at(bytes: &[u8], at: u16, count: u16) -> GroupList
    requires room { at + 5 * count ≤ length bytes.now }
    requires few { count ≤ max_groups }
    requires fits { length bytes.now ≤ max_payload }
    ensures { result ≡ groups_at bytes.now at count }
{
    let mut groups = GroupList::new();
    for i in 0..count {
        let place = at + GROUP_LEN * i;
        groups.push(GroupAddress {
            id: u8_at(bytes, place) & 3,
            addr: u32_at(bytes, place + 1),
        });
    }
    groups
}

/// The 16 bytes of a key.
fn key_at(bytes: &[u8], at: u16) -> [u8; 16]
    requires room { at + 16 ≤ length bytes.now }
    requires fits { length bytes.now ≤ max_payload }
    ensures { result ≡ slice_range bytes.now at (at + 16) }
{
    let mut key = [0; 16];
    key.copy_from_slice(&bytes[at as usize..(at + 16) as usize]);
    key
}
