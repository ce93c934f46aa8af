//! What a frame is made of, and the frame.

ghost use Rattle.std.specs.Prelude.{◌≡◌, ℕ, ◌+◌, ◌<◌, ◌≤◌, ◌++◌, length};
ghost use Rattle.wire_base.specs.Payload.{max_payload};
ghost use Rattle.mc_frames.specs.Frames.{frame_block, ciphered, message_of, mic, frame_of};

use crate::mac::cmac;
use crate::session::Keys;
use aes_block::Aes128;
use arrayvec::ArrayVec;
use wire_base::{MAX_PAYLOAD, Payload};

/// The most bytes of a frame.
pub const MAX_FRAME: usize = 255;

/// The bytes of a frame, held in the value itself.
pub type Frame = ArrayVec<u8, MAX_FRAME>;

/// The most bytes that a MIC is made over: the first block of 16, and 251 of a frame.
const MAX_AUTHENTICATED: usize = 267;

/// Makes the frame (LoRaWAN 1.0.x, 4) of a payload for an address, with FCtrl 00. The port isn't 0, which is that of MAC
/// commands.
#[tactic(auto, unfolding(crate::specs::Frames::frame_of))]
pub fn frame(keys: &Keys, addr: u32, count: u32, port: u8, payload: &Payload) -> Frame
    requires { 0 < port }
    ensures { result.items ≡ frame_of keys.now addr 0x00 count port payload.now }
{
    let mut frame = message(keys, addr, count, port, payload);
    let mic = mic(keys, addr, count, frame.as_slice());
    put(&mut frame, &mic);
    frame
}

/// All of the frame but its MIC.
#[tactic(auto, unfolding(crate::specs::Frames::message_of))]
fn message(keys: &Keys, addr: u32, count: u32, port: u8, payload: &Payload) -> Frame
    ensures bytes { result.items ≡ message_of keys.now addr 0x00 count port payload.now }
    ensures room { length result.items ≤ 251 }
{
    let [a0, a1, a2, a3] = addr.to_le_bytes();
    let [c0, c1, _, _] = count.to_le_bytes();
    let mut frame = Frame::new();
    put(&mut frame, &[0x60, a0, a1, a2, a3, 0x00, c0, c1, port]);
    let encrypted = ciphered(&keys.app_s, addr, count, payload.as_slice());
    put(&mut frame, encrypted.as_slice());
    frame
}

/// Returns the MIC of a message.
pub fn mic(keys: &Keys, addr: u32, count: u32, message: &[u8]) -> [u8; 4]
    requires { length message.now ≤ 251 }
    ensures { result ≡ mic keys.now addr count message.now }
{
    let mut bytes = ArrayVec::<u8, MAX_AUTHENTICATED>::new();
    put(
        &mut bytes,
        &frame_block(0x49, addr, count, message.len() as u8),
    );
    put(&mut bytes, message);
    let code = cmac(&keys.net_s, bytes.as_slice());
    [code[0], code[1], code[2], code[3]]
}

/// Encrypts or decrypts a payload.
pub fn ciphered(key: &[u8; 16], addr: u32, count: u32, bytes: &[u8]) -> Payload
    requires { length bytes.now ≤ max_payload }
    ensures { result ≡ ciphered key.now addr count bytes.now }
{
    let aes = Aes128::new(key);
    let mut stream = [0; 16];
    let mut out = [0; MAX_PAYLOAD];
    for k in 0..bytes.len() {
        if k % 16 == 0 {
            stream = aes.encrypt(&frame_block(0x01, addr, count, (k / 16 + 1) as u8));
        }
        out[k] = bytes[k] ^ stream[k % 16];
    }
    Payload::from_slice(&out[..bytes.len()])
}

/// A block that says which frame it is for.
fn frame_block(first: u8, addr: u32, count: u32, last: u8) -> [u8; 16]
    ensures { result ≡ frame_block first addr count last }
{
    let [a0, a1, a2, a3] = addr.to_le_bytes();
    let [c0, c1, c2, c3] = count.to_le_bytes();
    [
        first, 0, 0, 0, 0, 0x01, a0, a1, a2, a3, c0, c1, c2, c3, 0, last,
    ]
}

/// Puts bytes at the end.
fn put<const N: usize>(to: &mut ArrayVec<u8, N>, bytes: &[u8])
    requires { length to.old.items + length bytes.now ≤ N }
    ensures { to.new.items ≡ to.old.items ++ bytes.now }
{
    // (it fits, as the contract asks)
    let _fits = to.try_extend_from_slice(bytes);
}
