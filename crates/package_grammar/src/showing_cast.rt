//! The texts of the commands of TS004 and TS005.
ghost use Rattle.std.specs.Prelude.{◌≡◌, ◌++◌, OnOk, string_bytes};
ghost use Rattle.package_grammar.specs.Texts.{cast_text};

use crate::showing_parts::{
    put_class_b, put_class_c, put_counts, put_flagged, put_fragment, put_group_setup,
    put_session_answer, put_setup, put_status, put_text, put_word, put_words,
};
use cast_wire::{Cmd, refusal_bits};
use std::alloc::AllocError;
use wire_base::flag_value;

/// Puts the text of a command of ports 200 and 201 at the end.
pub fn put_cast(cmd: &Cmd, text: &mut String) -> Result<(), AllocError>
    ensures { OnOk result (string_bytes text.new ≡ string_bytes text.old ++ cast_text cmd.now) }
{
    match cmd {
        Cmd::PackageVersionReq => put_text("PackageVersionReq", text),
        Cmd::PackageVersionAns {
            identifier,
            version,
        } => put_words(
            "PackageVersionAns id=",
            *identifier,
            " version=",
            *version,
            text,
        ),
        Cmd::FragSessionStatusReq { index, all } => put_flagged(
            "FragSessionStatusReq index=",
            *index,
            " all=",
            *all,
            text,
        ),
        Cmd::FragSessionStatusAns {
            index,
            received,
            missing,
            norows,
        } => put_counts(*index, *received, *missing, *norows, text),
        Cmd::FragSessionSetupReq {
            index,
            mask,
            nb_frag,
            frag_size,
            algo,
            delay,
            padding,
            descriptor,
        } => put_setup(
            *index,
            *mask,
            *nb_frag,
            *frag_size,
            *algo,
            *delay,
            *padding,
            *descriptor,
            text,
        ),
        Cmd::FragSessionSetupAns {
            index,
            wrong_descriptor,
            index_unsupported,
            no_memory,
            encoding_unsupported,
        } => {
            let bits = refusal_bits(
                *wrong_descriptor,
                *index_unsupported,
                *no_memory,
                *encoding_unsupported,
            );
            put_words("FragSessionSetupAns index=", *index, " bits=", bits, text)
        }
        Cmd::FragSessionDeleteReq { index } => put_word(
            "FragSessionDeleteReq index=",
            *index,
            text,
        ),
        Cmd::FragSessionDeleteAns { index, missing } => put_flagged(
            "FragSessionDeleteAns index=",
            *index,
            " missing=",
            *missing,
            text,
        ),
        Cmd::DataFragment { index, n, bytes } => put_fragment(*index, *n, bytes.as_slice(), text),
        Cmd::McGroupStatusReq { mask } => put_word("McGroupStatusReq mask=", *mask, text),
        Cmd::McGroupStatusAns {
            total,
            mask,
            groups,
        } => put_status(*total, *mask, groups.as_slice(), text),
        Cmd::McGroupSetupReq {
            id,
            addr,
            key,
            min,
            max,
        } => put_group_setup(*id, *addr, key.as_slice(), *min, *max, text),
        Cmd::McGroupSetupAns { id, error } => put_flagged(
            "McGroupSetupAns id=",
            *id,
            " error=",
            *error,
            text,
        ),
        Cmd::McGroupDeleteReq { id } => put_word("McGroupDeleteReq id=", *id, text),
        Cmd::McGroupDeleteAns { id, undefined } => put_flagged(
            "McGroupDeleteAns id=",
            *id,
            " undefined=",
            *undefined,
            text,
        ),
        Cmd::McClassCSessionReq {
            id,
            time,
            timeout,
            freq,
            dr,
        } => put_class_c(*id, *time, *timeout, *freq, *dr, text),
        Cmd::McClassCSessionAns {
            id,
            undefined,
            freq_error,
            dr_error,
            start,
        } => {
            let bits = flag_value(*undefined, 16)
                + flag_value(*freq_error, 8)
                + flag_value(*dr_error, 4);
            put_session_answer("McClassCSessionAns id=", *id, bits, *start, text)
        }
        Cmd::McClassBSessionReq {
            id,
            time,
            periodicity,
            timeout,
            freq,
            dr,
        } => put_class_b(*id, *time, *periodicity, *timeout, *freq, *dr, text),
        Cmd::McClassBSessionAns {
            id,
            undefined,
            freq_error,
            dr_error,
            start,
        } => {
            let bits = flag_value(*undefined, 16)
                + flag_value(*freq_error, 8)
                + flag_value(*dr_error, 4);
            put_session_answer("McClassBSessionAns id=", *id, bits, *start, text)
        }
    }
}
