//! Image files of two formats: 49 or 53 bytes of versions, length and digest, and a body. (This project's profile.)

ghost use Rattle.std.specs.Prelude.{◌≡◌, ◌+◌, ◌≤◌, ◌||◌, length, ◌<◌, IsTrue, drop, take};
ghost use Rattle.std.specs.Str.{bytes_eq};
ghost use Rattle.sha2.specs.Sha256.{sha256};
ghost use Rattle.wire_base.specs.Numbers.{number_at};
ghost use Rattle.image_slots.specs.Image.{max_image, image_start, further, lowest_of, highest_of, firmware_of, has_digest, is_image, is_for};

use sha2::{Digest, Sha256};
use wire_base::u32_at;

/// The bytes of an image file of format 1 before its body.
const HEAD: usize = 49;

/// The most bytes of an image file.
pub const MAX_IMAGE: usize = 262_144;

/// How many bytes later the fields after the lowest hardware version are: 4 in format 2.
#[tactic(auto, unfolding(crate::specs::Image::further, crate::specs::Image::format_of))]
fn further(file: &[u8]) -> u16
    requires { 49 ≤ length file.now }
    ensures value { result ≡ further file.now }
    ensures small { result ≤ 4 }
{
    if file[4] == 2 { 4 } else { 0 }
}

fn body_of(file: &[u8], more: u16) -> &[u8]
    requires { 49 + more ≤ length file.now }
    ensures { result.now ≡ drop (49 + more) file.now }
{
    file.split_at(HEAD + more as usize).1
}

fn digest_of(body: &[u8]) -> [u8; 32]
    ensures { result ≡ sha256 body.now }
{
    Sha256::digest(body)
}

#[tactic(auto, unfolding(crate::specs::Image::image_start))]
fn has_start(file: &[u8]) -> bool
    requires { 49 ≤ length file.now }
    ensures { result ≡ (bytes_eq (take 5 file.now) (image_start 1)
        || bytes_eq (take 5 file.now) (image_start 2)) }
{
    file[..5] == b"FUIM\x01"[..] || file[..5] == b"FUIM\x02"[..]
}

#[tactic(auto, unfolding(crate::specs::Image::has_digest))]
fn has_digest(file: &[u8], more: u16) -> bool
    requires { 49 + more ≤ length file.now }
    ensures { result ≡ has_digest file.now more }
{
    let digest = digest_of(body_of(file, more));
    let more = more as usize;
    &file[17 + more..HEAD + more] == digest.as_slice()
}

/// Says whether the bytes are an image file.
#[tactic(auto, using(crate::proofs::ImageLemmas::image_bounds), unfolding(crate::specs::Image::is_image, crate::specs::Image::firmware_of, crate::specs::Image::lowest_of, crate::specs::Image::highest_of))]
pub fn is_image(bytes: &[u8]) -> bool
    ensures value { result ≡ is_image bytes.now }
    ensures long { IsTrue result → 49 + further bytes.now ≤ length bytes.now }
    ensures short { IsTrue result → length bytes.now ≤ max_image }
{
    if bytes.len() < HEAD {
        return false;
    }
    let more = further(bytes);
    bytes.len() >= HEAD + more as usize
        && bytes.len() <= MAX_IMAGE
        && has_start(bytes)
        && u32_at(bytes, 5) <= u32_at(bytes, 5 + more)
        && u32_at(bytes, 9 + more) != 0
        && u32_at(bytes, 13 + more) as usize == bytes.len() - (HEAD + more as usize)
        && has_digest(bytes, more)
}

/// Returns the lowest hardware version that an image file is for.
#[tactic(auto, unfolding(crate::specs::Image::lowest_of))]
pub fn lowest(file: &[u8]) -> u32
    requires { 49 ≤ length file.now }
    ensures { result ≡ lowest_of file.now }
{
    u32_at(file, 5)
}

/// Returns the highest hardware version that an image file is for.
#[tactic(auto, unfolding(crate::specs::Image::highest_of))]
pub fn highest(file: &[u8]) -> u32
    requires { 49 + further file.now ≤ length file.now }
    ensures { result ≡ highest_of file.now }
{
    u32_at(file, 5 + further(file))
}

/// Returns the firmware version of an image file.
#[tactic(auto, unfolding(crate::specs::Image::firmware_of))]
pub fn firmware(file: &[u8]) -> u32
    requires { 49 + further file.now ≤ length file.now }
    ensures { result ≡ firmware_of file.now }
{
    u32_at(file, 9 + further(file))
}

/// Says whether an image file is for a hardware version.
#[tactic(auto, unfolding(crate::specs::Image::is_for))]
pub fn is_for(file: &[u8], hw: u32) -> bool
    requires { 49 + further file.now ≤ length file.now }
    ensures { result ≡ is_for file.now hw }
{
    lowest(file) <= hw && hw <= highest(file)
}
