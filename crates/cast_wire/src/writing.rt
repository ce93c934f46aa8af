ghost use Rattle.cast_wire.specs.Table.{IsValid, canonical};
ghost use Rattle.wire_base.specs.Payload.{Appends};

use crate::cmd::Cmd;
use crate::writing_fragments::{
    put_data_fragment, put_delete_answer, put_delete_request, put_setup_answer, put_setup_request,
    put_status_answer, put_status_request, put_version_answer, put_version_request,
};
use crate::writing_groups::{
    put_class_b_answer, put_class_b_request, put_class_c_answer, put_class_c_request,
    put_group_delete_answer, put_group_delete_request, put_group_setup_answer,
    put_group_setup_request, put_group_status_answer, put_group_status_request,
};
use wire_base::{Full, Payload};

/// Puts the canonical spelling of a command at the end, whole or not at all; `Full` where there is no room.
pub fn write_one(cmd: &Cmd, out: &mut Payload) -> Result<(), Full>
    requires { IsValid cmd.now }
    ensures { Appends out.old out.new (canonical cmd.now) result }
{
    match cmd {
        &Cmd::PackageVersionReq => put_version_request(out),
        &Cmd::PackageVersionAns {
            identifier,
            version,
        } => put_version_answer(identifier, version, out),
        &Cmd::FragSessionStatusReq { index, all } => put_status_request(index, all, out),
        &Cmd::FragSessionStatusAns {
            index,
            received,
            missing,
            norows,
        } => put_status_answer(index, received, missing, norows, out),
        &Cmd::FragSessionSetupReq {
            index,
            mask,
            nb_frag,
            frag_size,
            algo,
            delay,
            padding,
            descriptor,
        } => put_setup_request(
            index, mask, nb_frag, frag_size, algo, delay, padding, descriptor, out,
        ),
        &Cmd::FragSessionSetupAns {
            index,
            wrong_descriptor,
            index_unsupported,
            no_memory,
            encoding_unsupported,
        } => put_setup_answer(
            index,
            wrong_descriptor,
            index_unsupported,
            no_memory,
            encoding_unsupported,
            out,
        ),
        &Cmd::FragSessionDeleteReq { index } => put_delete_request(index, out),
        &Cmd::FragSessionDeleteAns { index, missing } => put_delete_answer(index, missing, out),
        Cmd::DataFragment { index, n, bytes } => put_data_fragment(
            *index,
            *n,
            bytes.as_slice(),
            out,
        ),
        &Cmd::McGroupStatusReq { mask } => put_group_status_request(mask, out),
        Cmd::McGroupStatusAns {
            total,
            mask,
            groups,
        } => put_group_status_answer(*total, *mask, groups, out),
        &Cmd::McGroupSetupReq {
            id,
            addr,
            key,
            min,
            max,
        } => put_group_setup_request(id, addr, key, min, max, out),
        &Cmd::McGroupSetupAns { id, error } => put_group_setup_answer(id, error, out),
        &Cmd::McGroupDeleteReq { id } => put_group_delete_request(id, out),
        &Cmd::McGroupDeleteAns { id, undefined } => put_group_delete_answer(id, undefined, out),
        &Cmd::McClassCSessionReq {
            id,
            time,
            timeout,
            freq,
            dr,
        } => put_class_c_request(id, time, timeout, freq, dr, out),
        &Cmd::McClassCSessionAns {
            id,
            undefined,
            freq_error,
            dr_error,
            start,
        } => put_class_c_answer(id, undefined, freq_error, dr_error, start, out),
        &Cmd::McClassBSessionReq {
            id,
            time,
            periodicity,
            timeout,
            freq,
            dr,
        } => put_class_b_request(id, time, periodicity, timeout, freq, dr, out),
        &Cmd::McClassBSessionAns {
            id,
            undefined,
            freq_error,
            dr_error,
            start,
        } => put_class_b_answer(id, undefined, freq_error, dr_error, start, out),
    }
}
