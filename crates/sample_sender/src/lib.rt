//! A sample: the sending end of a file (TS004-1.0.0), from its bytes to the payloads of port 201. When they are sent, and to
//! whom, is left to the caller.
#![tactic(auto)]

ghost use Rattle.std.specs.Prelude.{◌≡◌, ◌↔◌, ◌+◌, ◌≤◌, length, Err, IfOk, IsSome, IfSome};
ghost use Rattle.cast_wire.specs.declared.cmd.Cmd.TheVariants.{FragSessionSetupReq, DataFragment};
ghost use Rattle.package_grammar.specs.declared.command.Command.TheVariants.{Cast};
ghost use Rattle.package_grammar.specs.Grammar.{canonical};
ghost use Rattle.frag_encoder.specs.Encoding.{IsBadSize, nb_frag_of, padding_of, data_of};

use arrayvec::ArrayVec;
use cast_wire::{Cmd, FRAGMENT_PORT, FragmentBytes};
use frag_encoder::{Beyond, Encoder, EncoderError};
use package_grammar::{Command, spelled};
use std::alloc::Global;
use wire_base::{Direction, Payload};

// sample
/// Bytes of a piece. A payload has 3 more, which makes 51, the most at the slowest data rates of EU868.
const FRAG_SIZE: u8 = 48;

/// Coded fragments after the pieces, which make losses good.
const PARITY: u16 = 16;

/// A sender of the file. `BadSize` comes exactly where it is empty or has more than 196,608 bytes.
pub fn sender(alloc: Global, file: &[u8]) -> Result<Encoder, EncoderError>
    ensures cut { IfOk result (λ e. e ≡ record { file = file.now; frag_size = 48 }) }
    ensures bad_size { (result ≡ Err EncoderError.BadSize) ↔ IsBadSize (length file.now) 48 }
{
    Encoder::new(alloc, file, FRAG_SIZE)
}

/// FragSessionSetupReq for session 0, by unicast; `descriptor` names the file, freely.
pub fn setup(encoder: &Encoder, descriptor: u32) -> Payload
    requires { encoder.now.frag_size ≡ 48 }
    ensures { let len = length encoder.now.file in result ≡ canonical
        (Cast (FragSessionSetupReq 0 0 (nb_frag_of len 48) 48 0 0 (padding_of len 48) descriptor)) }
{
    let request = Cmd::FragSessionSetupReq {
        index: 0,
        mask: 0,
        nb_frag: encoder.nb_frag(),
        frag_size: FRAG_SIZE,
        algo: 0,
        delay: 0,
        padding: encoder.padding(),
        descriptor,
    };
    spelled(FRAGMENT_PORT, Direction::Down, &Command::Cast(request))
}

/// DataFragment `n`: the pieces in order from 1 on, and after them the coded fragments; None where there is none of this
/// number.
pub fn fragment(encoder: &Encoder, n: u16) -> Option<Payload>
    requires { encoder.now.frag_size ≡ 48 }
    ensures spelled { IfSome result (λ payload. payload ≡ canonical
        (Cast (DataFragment 0 n (data_of encoder.now.file 48 n)))) }
    ensures within { IsSome result
        ↔ ((1 ≤ n) × (n ≤ nb_frag_of (length encoder.now.file) 48 + 16)) }
{
    if n > encoder.nb_frag() + PARITY {
        return None;
    }
    let mut part = ArrayVec::new();
    match encoder.fragment(n, &mut part) {
        Ok(()) => {
            let bytes = FragmentBytes::from_slice(part.as_slice());
            let fragment = Command::Cast(Cmd::DataFragment { index: 0, n, bytes });
            Some(spelled(FRAGMENT_PORT, Direction::Down, &fragment))
        }
        Err(Beyond) => None,
    }
}
// end of sample
