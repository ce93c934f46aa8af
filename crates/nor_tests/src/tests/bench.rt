//! A receiver over a flash, and the files that it is sent.

ghost use Rattle.std.specs.Prelude.{◌*◌, ◌≡◌, ◌≤◌, IfOk};
ghost use Rattle.flash_session.specs.Body.{FieldsFit};
ghost use Rattle.sample_receiver.specs.HeldReceiver.{extent};
ghost use Rattle.sample_flash_receiver.specs.HeldReceiver.{span, IsReceiver};

use crate::tests::part::TestPart;
use arrayvec::ArrayVec;
use flash_session::Flash;
use frag_encoder::Encoder;
use frag_session::SetupReq;
use sample_flash_receiver::{Arena, Receiver, SPAN, arena, file, hear, set_up, start};
use sample_nor_flash::NorFlash;
use std::alloc::Global;
use std::process::Abort;
use std::test::*;

/// Bytes of a piece.
pub const PIECE: usize = 48;

/// A file of so many pieces, whose bytes are drawn from a number.
pub fn encoder(rt: &impl Abort, alloc: Global, pieces: u16, number: u32) -> Encoder {
    let Ok(mut bytes) = vec![in alloc; 0u8; pieces as usize * PIECE] else {
        panic!(rt; "no memory");
    };
    let mut state = number;
    for byte in bytes.iter_mut() {
        state = state.wrapping_mul(1_664_525).wrapping_add(1_013_904_223);
        *byte = (state >> 24) as u8;
    }
    match Encoder::new(alloc, &bytes, PIECE as u8) {
        Ok(encoder) => encoder,
        Err(_) => panic!(rt; "no encoder"),
    }
}

/// DataFragment `n` of session 0.
pub fn payload(rt: &impl Abort, encoder: &Encoder, n: u16) -> [u8; 51] {
    let mut payload = [0; 51];
    let mut part = ArrayVec::new();
    assert!(rt; encoder.fragment(n, &mut part).is_ok());
    assert!(rt; part.len() == PIECE);
    payload[0] = 0x08;
    payload[1] = (n % 256) as u8;
    payload[2] = (n / 256) as u8;
    payload[3..].copy_from_slice(part.as_slice());
    payload
}

/// FragSessionSetupReq of session 0 for the file, which its number names.
pub fn request(encoder: &Encoder, number: u32) -> SetupReq
    ensures { FieldsFit result }
{
    SetupReq {
        index: 0,
        mask: 0,
        nb_frag: encoder.nb_frag(),
        frag_size: PIECE as u8,
        algo: 0,
        delay: 0,
        padding: 0,
        descriptor: number,
    }
}

/// All memory of a receiver.
pub fn empty(rt: &impl Abort, alloc: Global) -> Arena
    ensures { result ≡ extent }
{
    match arena(alloc) {
        Ok(empty) => empty,
        Err(_) => panic!(rt; "no memory"),
    }
}

/// A driver of two ranges over the part.
pub fn flash_over(rt: &impl Abort, part: TestPart) -> NorFlash<TestPart>
    ensures { result.size ≡ 2 * span }
{
    match NorFlash::over(part, SPAN, 2) {
        Some(flash) => flash,
        None => panic!(rt; "no range"),
    }
}

/// A flash, and the receiver over it.
#[derive(Drop)]
pub struct Stand<F: Flash + Drop> {
    pub flash: F,
    pub receiver: Receiver,
    ghost room: { span ≤ (F.seen flash).room },
    ghost is: { IsReceiver receiver },
}

/// With what the flash holds.
pub fn started<F: Flash + Drop>(rt: &impl Abort, flash: F, empty: Arena) -> Stand<F>
    requires arena { empty ≡ extent }
    requires room { span ≤ (F.seen flash).room }
{
    let mut flash = flash;
    match start(&mut flash, empty) {
        Ok(receiver) => Stand { flash, receiver },
        Err(_) => panic!(rt; "the flash is not opened"),
    }
}

/// A session begins, over whatever is there.
fn begun<F: Flash + Drop>(
    rt: &impl Abort,
    stand: Stand<F>,
    encoder: &Encoder,
    number: u32,
) -> Stand<F> {
    let Stand {
        mut flash,
        receiver,
    } = stand;
    match set_up(receiver, &mut flash, request(encoder, number)) {
        Ok((receiver, bits)) => {
            assert!(rt; bits == 0);
            Stand { flash, receiver }
        }
        Err(_) => panic!(rt; "the flash failed"),
    }
}

/// A fragment is heard.
fn heard<F: Flash + Drop>(rt: &impl Abort, stand: Stand<F>, payload: &[u8; 51]) -> Stand<F> {
    let Stand {
        mut flash,
        receiver,
    } = stand;
    match hear(receiver, &mut flash, payload, 1) {
        Ok(receiver) => Stand { flash, receiver },
        Err(_) => panic!(rt; "the flash failed"),
    }
}

/// Whether the file is there, as it was sent.
pub fn is_whole(receiver: &Receiver, encoder: &Encoder) -> bool {
    match file(receiver) {
        Some(bytes) => bytes == encoder.file(),
        None => false,
    }
}

/// A session from its setup until its file is whole; each 25th fragment is lost.
pub fn received<F: Flash + Drop>(
    rt: &impl Abort,
    stand: Stand<F>,
    encoder: &Encoder,
    number: u32,
) -> Stand<F> {
    let mut stand = begun(rt, stand, encoder, number);
    for n in 1..encoder.nb_frag() + 24 {
        if n % 25 != 0 && !is_whole(&stand.receiver, encoder) {
            stand = heard(rt, stand, &payload(rt, encoder, n));
        }
    }
    assert!(rt; is_whole(&stand.receiver, encoder));
    stand
}
