ghost use Rattle.std.specs.Prelude.{◌≡◌, ◌↔◌, ◌<◌, ◌≤◌, ◌^◌, length, IsTrue, IfSome, is_none, not, count_ones, All};
ghost use Rattle.cast_wire.specs.Table.{IsValid, IsOfGroups, group_parts, start_parts};
ghost use Rattle.wire_base.specs.Rows.{PartsFit};

use crate::cmd::Cmd;
use crate::group_list::GroupAddress;

/// Says whether each field fits its bits, and the fields fit together.
// Fields that fill their bytes are bound too, so that their ranges are known.
pub fn valid(cmd: &Cmd) -> bool
    ensures { IsTrue result ↔ IsValid cmd.now }
{
    match cmd {
        &Cmd::PackageVersionReq => true,
        &Cmd::PackageVersionAns {
            identifier: _identifier,
            version: _version,
        } => true,
        &Cmd::FragSessionStatusReq { index, .. } => index < 4,
        &Cmd::FragSessionStatusAns {
            index,
            received,
            missing: _missing,
            ..
        } => (index < 4) & (received < 0x4000),
        &Cmd::FragSessionSetupReq {
            index,
            mask,
            nb_frag: _nb_frag,
            frag_size: _frag_size,
            algo,
            delay,
            padding: _padding,
            descriptor: _descriptor,
        } => (index < 4) & (mask < 16) & (algo < 8) & (delay < 8),
        &Cmd::FragSessionSetupAns { index, .. } => index < 4,
        &Cmd::FragSessionDeleteReq { index } => index < 4,
        &Cmd::FragSessionDeleteAns { index, .. } => index < 4,
        Cmd::DataFragment { index, n, bytes } => (*index < 4)
            & (*n < 0x4000)
            & !bytes.as_slice().is_empty(),
        group => is_valid_of_groups(group),
    }
}

/// The same for a command of groups.
fn is_valid_of_groups(cmd: &Cmd) -> bool
    requires { IsOfGroups cmd.now }
    ensures { IsTrue result ↔ IsValid cmd.now }
{
    match cmd {
        &Cmd::McGroupStatusReq { mask } => mask < 16,
        Cmd::McGroupStatusAns {
            total,
            mask,
            groups,
        } => (*total < 8) & (*mask < 16) & are_valid(groups.as_slice(), *mask),
        &Cmd::McGroupSetupReq {
            id,
            addr,
            ref key,
            min,
            max,
        } => is_valid_setup(id, addr, key, min, max),
        &Cmd::McGroupSetupAns { id, .. } => id < 4,
        &Cmd::McGroupDeleteReq { id } => id < 4,
        &Cmd::McGroupDeleteAns { id, .. } => id < 4,
        &Cmd::McClassCSessionReq {
            id,
            time: _time,
            timeout,
            freq,
            dr: _dr,
        } => (id < 4) & (timeout < 16) & (freq < 0x100_0000),
        &Cmd::McClassCSessionAns {
            id,
            undefined,
            freq_error,
            dr_error,
            start,
        } => (id < 4) & is_answer(undefined | freq_error | dr_error, start),
        &Cmd::McClassBSessionReq {
            id,
            time: _time,
            periodicity,
            timeout,
            freq,
            dr: _dr,
        } => (id < 4) & (periodicity < 8) & (timeout < 16) & (freq < 0x100_0000),
        &Cmd::McClassBSessionAns {
            id,
            undefined,
            freq_error,
            dr_error,
            start,
        } => (id < 4) & is_answer(undefined | freq_error | dr_error, start),
        _ => unreachable!(),
    }
}

/// As many groups as bits of the mask, each with an id that fits.
fn are_valid(groups: &[GroupAddress], mask: u8) -> bool
    ensures { IsTrue result
        ↔ ((length groups.now ≡ count_ones mask) × PartsFit (group_parts groups.now)) }
{
    groups.len() == mask.count_ones() as usize && ids_fit(groups)
}

fn ids_fit(groups: &[GroupAddress]) -> bool
    ensures { IsTrue result ↔ PartsFit (group_parts groups.now) }
{
    for &GroupAddress { id, addr: _addr } in groups {
        if id >= 4 {
            return false;
        }
    }
    true
}

/// TimeToStart that fits, exactly where there is no error.
fn is_answer(error: bool, start: Option<u32>) -> bool
    ensures { IsTrue result ↔ ((is_none start ≡ error) × PartsFit (start_parts start)) }
{
    match start {
        None => error,
        Some(start) => !error && start < 0x100_0000,
    }
}

/// Whether a McGroupSetupReq is valid: its id fits; a key that is an array has its 16 bytes.
fn is_valid_setup(id: u8, addr: u32, key: &[u8; 16], min: u32, max: u32) -> bool
    ensures { IsTrue result ↔ IsValid (Cmd.McGroupSetupReq id addr key.now min max) }
{
    id < 4
}
