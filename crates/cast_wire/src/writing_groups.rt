//! TS005-1.0.0.

ghost use Rattle.std.specs.Prelude.{◌≡◌, ◌+◌, ◌*◌, ◌<◌, ◌≤◌, ◌||◌, [], ◌∷◌, ◌++◌, length, is_none};
ghost use Rattle.cast_wire.specs.Table.{IsValid, canonical, group_parts, start_parts};
ghost use Rattle.cast_wire.specs.Limits.{max_groups};
ghost use Rattle.wire_base.specs.Payload.{max_payload, Appends};
ghost use Rattle.wire_base.specs.Rows.{PartsFit, parts_bytes, packed, flag, bits};

use crate::cmd::Cmd;
use crate::group_list::{GroupAddress, GroupList};
use crate::ids::{
    CLASS_B_SESSION, CLASS_C_SESSION, GROUP_DELETE, GROUP_LEN, GROUP_SETUP,
    GROUP_SETUP_REQUEST_LEN, GROUP_STATUS, GROUPS_HEAD_LEN,
};
use wire_base::{Full, Payload};

pub fn put_group_status_request(mask: u8, out: &mut Payload) -> Result<(), Full>
    requires { IsValid (Cmd.McGroupStatusReq mask) }
    ensures { Appends out.old out.new (canonical (Cmd.McGroupStatusReq mask)) result }
{
    out.append(&[GROUP_STATUS, mask])
}

pub fn put_group_status_answer(
    total: u8,
    mask: u8,
    groups: &GroupList,
    out: &mut Payload,
) -> Result<(), Full>
    requires { IsValid (Cmd.McGroupStatusAns total mask groups.now) }
    ensures { Appends out.old out.new
        (canonical (Cmd.McGroupStatusAns total mask groups.now)) result }
{
    let groups = groups.as_slice();
    if out.room() < GROUPS_HEAD_LEN as usize + GROUP_LEN as usize * groups.len() {
        return Err(Full);
    }
    out.append(&[GROUP_STATUS, (total << 4) + mask])?;
    put_groups(groups, out)
}

fn put_groups(groups: &[GroupAddress], out: &mut Payload) -> Result<(), Full>
    requires few { length groups.now ≤ max_groups }
    requires room { length out.old + 5 * length groups.now ≤ max_payload }
    requires fit { PartsFit (group_parts groups.now) }
    ensures { Appends out.old out.new (parts_bytes (group_parts groups.now)) result }
{
    for group in groups {
        let [a, b, c, d] = group.addr.to_le_bytes();
        out.append(&[group.id, a, b, c, d])?;
    }
    Ok(())
}

pub fn put_group_setup_request(
    id: u8,
    addr: u32,
    key: [u8; 16],
    min: u32,
    max: u32,
    out: &mut Payload,
) -> Result<(), Full>
    requires { IsValid (Cmd.McGroupSetupReq id addr key min max) }
    ensures { Appends out.old out.new (canonical (Cmd.McGroupSetupReq id addr key min max)) result }
{
    if out.room() < GROUP_SETUP_REQUEST_LEN as usize {
        return Err(Full);
    }
    let [a, b, c, d] = addr.to_le_bytes();
    out.append(&[GROUP_SETUP, id, a, b, c, d])?;
    out.append(&key)?;
    let [a, b, c, d] = min.to_le_bytes();
    let [e, f, g, h] = max.to_le_bytes();
    out.append(&[a, b, c, d, e, f, g, h])
}

pub fn put_group_setup_answer(id: u8, error: bool, out: &mut Payload) -> Result<(), Full>
    requires { IsValid (Cmd.McGroupSetupAns id error) }
    ensures { Appends out.old out.new (canonical (Cmd.McGroupSetupAns id error)) result }
{
    out.append(&[GROUP_SETUP, (u8::from(error) << 2) + id])
}

pub fn put_group_delete_request(id: u8, out: &mut Payload) -> Result<(), Full>
    requires { IsValid (Cmd.McGroupDeleteReq id) }
    ensures { Appends out.old out.new (canonical (Cmd.McGroupDeleteReq id)) result }
{
    out.append(&[GROUP_DELETE, id])
}

pub fn put_group_delete_answer(id: u8, undefined: bool, out: &mut Payload) -> Result<(), Full>
    requires { IsValid (Cmd.McGroupDeleteAns id undefined) }
    ensures { Appends out.old out.new (canonical (Cmd.McGroupDeleteAns id undefined)) result }
{
    out.append(&[GROUP_DELETE, (u8::from(undefined) << 2) + id])
}

pub fn put_class_c_request(
    id: u8,
    time: u32,
    timeout: u8,
    freq: u32,
    dr: u8,
    out: &mut Payload,
) -> Result<(), Full>
    requires { IsValid (Cmd.McClassCSessionReq id time timeout freq dr) }
    ensures { Appends out.old out.new
        (canonical (Cmd.McClassCSessionReq id time timeout freq dr)) result }
{
    let [a, b, c, d] = time.to_le_bytes();
    let [e, f, g, _] = freq.to_le_bytes();
    out.append(&[CLASS_C_SESSION, id, a, b, c, d, timeout, e, f, g, dr])
}

pub fn put_class_c_answer(
    id: u8,
    undefined: bool,
    freq_error: bool,
    dr_error: bool,
    start: Option<u32>,
    out: &mut Payload,
) -> Result<(), Full>
    requires { IsValid (Cmd.McClassCSessionAns id undefined freq_error dr_error start) }
    ensures { Appends out.old out.new
        (canonical (Cmd.McClassCSessionAns id undefined freq_error dr_error start)) result }
{
    put_session_answer(
        CLASS_C_SESSION,
        id,
        undefined,
        freq_error,
        dr_error,
        start,
        out,
    )
}

pub fn put_class_b_request(
    id: u8,
    time: u32,
    periodicity: u8,
    timeout: u8,
    freq: u32,
    dr: u8,
    out: &mut Payload,
) -> Result<(), Full>
    requires { IsValid (Cmd.McClassBSessionReq id time periodicity timeout freq dr) }
    ensures { Appends out.old out.new
        (canonical (Cmd.McClassBSessionReq id time periodicity timeout freq dr)) result }
{
    let slots = (periodicity << 4) + timeout;
    let [a, b, c, d] = time.to_le_bytes();
    let [e, f, g, _] = freq.to_le_bytes();
    out.append(&[CLASS_B_SESSION, id, a, b, c, d, slots, e, f, g, dr])
}

pub fn put_class_b_answer(
    id: u8,
    undefined: bool,
    freq_error: bool,
    dr_error: bool,
    start: Option<u32>,
    out: &mut Payload,
) -> Result<(), Full>
    requires { IsValid (Cmd.McClassBSessionAns id undefined freq_error dr_error start) }
    ensures { Appends out.old out.new
        (canonical (Cmd.McClassBSessionAns id undefined freq_error dr_error start)) result }
{
    put_session_answer(
        CLASS_B_SESSION,
        id,
        undefined,
        freq_error,
        dr_error,
        start,
        out,
    )
}

/// The answer to a class session request: the group with its error bits, and TimeToStart where there is no error.
fn put_session_answer(
    cid: u8,
    id: u8,
    undefined: bool,
    freq_error: bool,
    dr_error: bool,
    start: Option<u32>,
    out: &mut Payload,
) -> Result<(), Full>
    requires id { id < 4 }
    requires fit { PartsFit (start_parts start) }
    ensures { Appends out.old out.new
        (cid ∷ parts_bytes (packed 1 (flag 4 undefined ∷ flag 3 freq_error ∷ flag 2 dr_error ∷
        bits 1 0 id ∷ []) ∷ start_parts start)) result }
{
    let status = (u8::from(undefined) << 4)
        + (u8::from(freq_error) << 3)
        + (u8::from(dr_error) << 2)
        + id;
    match start {
        None => out.append(&[cid, status]),
        Some(start) => {
            let [a, b, c, _] = start.to_le_bytes();
            out.append(&[cid, status, a, b, c])
        }
    }
}
