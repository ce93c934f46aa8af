//! TS004-1.0.0, port 201.

ghost use Rattle.std.specs.Prelude.{◌≡◌, ℕ, ◌+◌, ◌<◌, ◌≤◌, length, IfOk, IfErr, Ok};
ghost use Rattle.std.specs.Result.{result_ok};
ghost use Rattle.wire_base.specs.Payload.{max_payload};
ghost use Rattle.cast_wire.specs.Table.{Spells, IsRefusal};
ghost use Rattle.cast_wire.specs.Reading.{fragment_down, fragment_up};

use crate::cmd::Cmd;
use crate::fragment_bytes::FragmentBytes;
use crate::ids::{
    DATA_FRAGMENT, FRAGMENT_HEAD_LEN, NO_BODY_LEN, ONE_BYTE_LEN, PACKAGE_VERSION, SESSION_DELETE,
    SESSION_SETUP, SESSION_STATUS, SETUP_REQUEST_LEN, STATUS_ANSWER_LEN, VERSION_ANSWER_LEN,
};
use wire_base::{Direction, Refusal, u8_at, u16_at, u32_at};

#[inline(always)]
#[tactic(auto, using(crate::proofs::Known::fragment_down_known), unfolding(crate::specs::Reading::fragment_down))]
pub fn read_fragment_down(bytes: &[u8], at: u16) -> Result<(Cmd<'_>, u16), Refusal>
    requires inside { at < length bytes.now }
    requires fits { length bytes.now ≤ max_payload }
    ensures found { IfOk result (λ r. Spells r.0 201 Direction.Down bytes.now at r.1) }
    ensures exact { result_ok result ≡ fragment_down bytes.now at }
    ensures stops { IfErr result (IsRefusal 201 Direction.Down bytes.now at) }
{
    let end = bytes.len() as u16;
    match u8_at(bytes, at) {
        PACKAGE_VERSION => Ok((Cmd::PackageVersionReq, at + NO_BODY_LEN)),
        SESSION_STATUS if at + ONE_BYTE_LEN <= end => {
            let fields = u8_at(bytes, at + 1);
            let request = Cmd::FragSessionStatusReq {
                index: fields >> 1 & 3,
                all: fields & 1 == 1,
            };
            Ok((request, at + ONE_BYTE_LEN))
        }
        SESSION_SETUP if at + SETUP_REQUEST_LEN <= end => {
            let session = u8_at(bytes, at + 1);
            let control = u8_at(bytes, at + 5);
            let setup = Cmd::FragSessionSetupReq {
                index: session >> 4 & 3,
                mask: session & 15,
                nb_frag: u16_at(bytes, at + 2),
                frag_size: u8_at(bytes, at + 4),
                algo: control >> 3 & 7,
                delay: control & 7,
                padding: u8_at(bytes, at + 6),
                descriptor: u32_at(bytes, at + 7),
            };
            Ok((setup, at + SETUP_REQUEST_LEN))
        }
        SESSION_DELETE if at + ONE_BYTE_LEN <= end => {
            let index = u8_at(bytes, at + 1) & 3;
            Ok((Cmd::FragSessionDeleteReq { index }, at + ONE_BYTE_LEN))
        }
        DATA_FRAGMENT if at + FRAGMENT_HEAD_LEN < end => {
            let numbers = u16_at(bytes, at + 1);
            let fragment = Cmd::DataFragment {
                index: (numbers >> 14) as u8,
                n: numbers & 0x3fff,
                bytes: FragmentBytes::from_slice(&bytes[(at + FRAGMENT_HEAD_LEN) as usize..]),
            };
            Ok((fragment, end))
        }
        SESSION_STATUS | SESSION_SETUP | SESSION_DELETE | DATA_FRAGMENT => Err(Refusal::short(
            bytes,
        )),
        _ => Err(Refusal::unknown(at)),
    }
}

#[inline(always)]
#[tactic(auto, using(crate::proofs::Known::fragment_up_known), unfolding(crate::specs::Reading::fragment_up))]
pub fn read_fragment_up(bytes: &[u8], at: u16) -> Result<(Cmd<'_>, u16), Refusal>
    requires inside { at < length bytes.now }
    requires fits { length bytes.now ≤ max_payload }
    ensures found { IfOk result (λ r. Spells r.0 201 Direction.Up bytes.now at r.1) }
    ensures exact { result_ok result ≡ fragment_up bytes.now at }
    ensures stops { IfErr result (IsRefusal 201 Direction.Up bytes.now at) }
{
    let end = bytes.len() as u16;
    match u8_at(bytes, at) {
        PACKAGE_VERSION if at + VERSION_ANSWER_LEN <= end => {
            let version = Cmd::PackageVersionAns {
                identifier: u8_at(bytes, at + 1),
                version: u8_at(bytes, at + 2),
            };
            Ok((version, at + VERSION_ANSWER_LEN))
        }
        SESSION_STATUS if at + STATUS_ANSWER_LEN <= end => {
            let numbers = u16_at(bytes, at + 1);
            let answer = Cmd::FragSessionStatusAns {
                index: (numbers >> 14) as u8,
                received: numbers & 0x3fff,
                missing: u8_at(bytes, at + 3),
                norows: u8_at(bytes, at + 4) & 1 == 1,
            };
            Ok((answer, at + STATUS_ANSWER_LEN))
        }
        SESSION_SETUP if at + ONE_BYTE_LEN <= end => {
            let status = u8_at(bytes, at + 1);
            let answer = Cmd::FragSessionSetupAns {
                index: status >> 6,
                wrong_descriptor: status >> 3 & 1 == 1,
                index_unsupported: status >> 2 & 1 == 1,
                no_memory: status >> 1 & 1 == 1,
                encoding_unsupported: status & 1 == 1,
            };
            Ok((answer, at + ONE_BYTE_LEN))
        }
        SESSION_DELETE if at + ONE_BYTE_LEN <= end => {
            let status = u8_at(bytes, at + 1);
            let answer = Cmd::FragSessionDeleteAns {
                index: status & 3,
                missing: status >> 2 & 1 == 1,
            };
            Ok((answer, at + ONE_BYTE_LEN))
        }
        PACKAGE_VERSION | SESSION_STATUS | SESSION_SETUP | SESSION_DELETE => Err(Refusal::short(
            bytes,
        )),
        _ => Err(Refusal::unknown(at)),
    }
}
