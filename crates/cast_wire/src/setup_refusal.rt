//! The refusal bits of a FragSessionSetupAns as one number, and back.

ghost use Rattle.std.specs.Prelude.{◌≡◌, ◌<◌};
ghost use Rattle.cast_wire.specs.SetupRefusal.{refusal_bits, setup_answer};

use crate::cmd::Cmd;
use wire_base::flag_value;

/// Returns bits 3:0 of a FragSessionSetupAns (TS004-1.0.0) as a number: 8 wrong descriptor, 4 index not supported, 2 not enough
/// memory, 1 encoding unsupported.
pub fn refusal_bits(
    wrong_descriptor: bool,
    index_unsupported: bool,
    no_memory: bool,
    encoding_unsupported: bool,
) -> u8
    ensures bits { result
        ≡ refusal_bits wrong_descriptor index_unsupported no_memory encoding_unsupported }
    ensures few { result < 16 }
{
    flag_value(wrong_descriptor, 8)
        + flag_value(index_unsupported, 4)
        + flag_value(no_memory, 2)
        + flag_value(encoding_unsupported, 1)
}

/// Makes the FragSessionSetupAns of a session whose bits 3:0 are those of this number.
pub fn setup_answer(index: u8, bits: u8) -> Cmd<'static>
    ensures { result ≡ setup_answer index bits }
{
    Cmd::FragSessionSetupAns {
        index,
        wrong_descriptor: bits >> 3 & 1 == 1,
        index_unsupported: bits >> 2 & 1 == 1,
        no_memory: bits >> 1 & 1 == 1,
        encoding_unsupported: bits & 1 == 1,
    }
}
