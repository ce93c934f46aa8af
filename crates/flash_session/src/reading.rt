//! What is read of a session when it is opened.

ghost use Rattle.std.specs.Prelude.{◌≡◌, ◌≢◌, ℕ, ◌+◌, ◌<◌, ◌≤◌, List, ◌++◌, length, slice_index, true, false, MatchOption};
ghost use Rattle.flash_session.specs.Contents.{byte_at};
ghost use Rattle.flash_session.specs.Serving.{FlashReads};
ghost use Rattle.flash_session.specs.Layout.{open_gate, spelled};
ghost use Rattle.std.specs.Int.{to_le_bytes, w16, w64};
ghost use Rattle.flash_session.specs.Lies.{SpelledAt};
ghost use Rattle.flash_session.specs.Body.{IsBody, setup_in};
ghost use Rattle.flash_session.specs.Fronts.{IsFront};

use crate::flash::{Failed, Flash};
use crate::layout::OPEN;
use frag_session::SetupReq;
use memchr::memchr;

/// How many gates are read at a time: a call over a bus costs far more than a byte of its answer.
const STRETCH: usize = 64;

/// Reads the byte at a place.
pub fn read_byte<F: Flash>(flash: &mut F, at: u32) -> Result<u8, Failed>
    requires { at < (F.seen flash.old).room }
    ensures reads { FlashReads (λ x holds. (b : List ℕ) → holds b → byte_at b at ≡ x)
        (F.seen flash.old) (F.seen flash.new) result }
{
    let mut buf = [0];
    flash.read(at, &mut buf)?;
    Ok(buf[0])
}

/// Reads the record at a place: its number and its mark. `part` takes its data.
pub fn read_record<F: Flash>(flash: &mut F, at: u32, part: &mut [u8]) -> Result<(u16, u64), Failed>
    requires { at + 10 + length part.old ≤ (F.seen flash.old).room }
    ensures reads { FlashReads
        (λ r holds. (b : List ℕ) → holds b
        → SpelledAt b at (spelled (record { number = r.0; part = part.new; mark = r.1 })))
        (F.seen flash.old) (F.seen flash.new) result }
{
    let mut head = [0; 10];
    flash.read(at, &mut head)?;
    flash.read(at + 10, part)?;
    Ok(head_of(head))
}

/// Reads the setup at a place.
pub fn read_setup<F: Flash>(flash: &mut F, at: u32) -> Result<SetupReq, Failed>
    requires { at + 10 ≤ (F.seen flash.old).room }
    ensures reads { FlashReads
        (λ setup holds. (body : List ℕ) × IsBody body setup
        × ((b : List ℕ) → holds b → SpelledAt b at body))
        (F.seen flash.old) (F.seen flash.new) result }
{
    let mut body = [0; 10];
    flash.read(at, &mut body)?;
    Ok(setup_in(body))
}

/// The setup that a body is read as; reserved bits are ignored.
#[tactic(auto, unfolding(crate::specs::Body::setup_from))]
fn setup_in(body: [u8; 10]) -> SetupReq
    ensures { result ≡ setup_in body }
{
    let [a, b, c, d, e, f, g, h, i, j] = body;
    SetupReq {
        index: a / 16 % 4,
        mask: a % 16,
        nb_frag: u16::from(b) + 256 * u16::from(c),
        frag_size: d,
        algo: e / 8 % 8,
        delay: e % 8,
        padding: f,
        descriptor: u32::from(g)
            + 256 * u32::from(h)
            + 65_536 * u32::from(i)
            + 16_777_216 * u32::from(j),
    }
}

/// How gates are: exactly the first so many are open, or this one is open after one that is closed.
#[derive(Clone, Copy)]
pub enum Front {
    Whole(u16),
    Stray(u16),
}

/// Reads how the gates from a place on are.
pub fn read_front<F: Flash>(flash: &mut F, at: u32, most: u16) -> Result<Front, Failed>
    requires { at + most ≤ (F.seen flash.old).room }
    ensures reads { FlashReads (λ front holds. IsFront holds at most front) (F.seen flash.old)
        (F.seen flash.new) result }
{
    let most = usize::from(most);
    let mut stretch = [0; STRETCH];
    let mut opened = 0;
    let mut k = 0;
    while k < most {
        let n = STRETCH.min(most - k);
        let gates = &mut stretch[..n];
        flash.read(at + k as u32, gates)?;
        let more = leading_open(gates, opened == k);
        if let Some(j) = next_open(gates, more) {
            return Ok(Front::Stray((k + j) as u16));
        }
        opened += more;
        k += n;
    }
    Ok(Front::Whole(opened as u16))
}

/// How many gates are open before the first closed one: none, where one before these is closed.
fn leading_open(gates: &[u8], unbroken: bool) -> usize
    ensures few { result ≤ length gates.now }
    ensures opened { (k : ℕ) → k < result → slice_index gates.now k ≡ open_gate }
    ensures shut { unbroken ≡ true → result < length gates.now
        → slice_index gates.now result ≢ open_gate }
    ensures none { unbroken ≡ false → result ≡ 0 }
{
    if !unbroken {
        return 0;
    }
    for (k, gate) in gates.iter().enumerate() {
        if *gate != OPEN {
            return k;
        }
    }
    gates.len()
}

/// The first open gate after the first `from`.
fn next_open(gates: &[u8], from: usize) -> Option<usize>
    requires { from ≤ length gates.now }
    ensures { MatchOption result
        ((k : ℕ) → from ≤ k → k < length gates.now → slice_index gates.now k ≢ open_gate)
        (λ n. (from ≤ n) × (n < length gates.now) × (slice_index gates.now n ≡ open_gate)
        × ((k : ℕ) → from ≤ k → k < n → slice_index gates.now k ≢ open_gate)) }
{
    match memchr(OPEN, &gates[from..]) {
        Some(k) => Some(from + k),
        None => None,
    }
}

/// The number and the mark that a record begins with.
fn head_of(head: [u8; 10]) -> (u16, u64)
    ensures { to_le_bytes w16 result.0 ++ to_le_bytes w64 result.1 ≡ head }
{
    let [a, b, c, d, e, f, g, h, i, j] = head;
    (
        u16::from_le_bytes([a, b]),
        u64::from_le_bytes([c, d, e, f, g, h, i, j]),
    )
}
