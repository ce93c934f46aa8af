//! The image file of a seed, step by step.

ghost use Rattle.std.specs.Prelude.{◌≡◌, ◌+◌, ◌%◌, ◌≤◌, ◌<◌, IfOk};
ghost use Rattle.sha2.specs.Sha256.{sha256};
ghost use Rattle.campaign_generator.specs.Draws.{stepped, drawn, after_draws};
ghost use Rattle.campaign_generator.specs.Firmware.{firmware_of_seed, bytes_from, file_of, fragments_of_size};

use super::draws::Draws;
use sha2::{Digest, Sha256};
use std::alloc::{AllocError, Global};

/// The bytes of an image file before its body.
const HEAD: u32 = 49;

/// The hardware version of every image.
const HARDWARE: u32 = 1;

/// Returns the firmware version, from 1 to 1,000.
#[tactic(auto, unfolding(crate::specs::Firmware::firmware_of_seed))]
pub fn firmware(seed: u32) -> u32
    ensures { result ≡ firmware_of_seed seed }
{
    1 + seed % 1000
}

/// Draws the length of the body in bytes, from 4,096 to 8,191.
pub fn body_size(draws: &mut Draws) -> u32
    ensures state { draws.new.state ≡ stepped draws.old.state }
    ensures value { result ≡ 4096 + drawn draws.old.state % 4096 }
    ensures small { result < 8192 }
{
    4096 + draws.draw() % 4096
}

/// Returns how many fragments of 64 bytes hold the image of a body of so many bytes.
#[tactic(auto, unfolding(crate::specs::Firmware::fragments_of_size))]
pub fn fragments(size: u32) -> u32
    requires { size < 8192 }
    ensures value { result ≡ fragments_of_size (49 + size) }
    ensures few { result ≤ 129 }
{
    (HEAD + size).div_ceil(64)
}

/// Makes the body: so many drawn bytes.
pub fn body(alloc: Global, draws: &mut Draws, size: u32) -> Result<Vec<u8>, AllocError>
    ensures bytes { IfOk result (λ made. made.items ≡ bytes_from draws.old.state size) }
    ensures state { IfOk result (λ made. draws.new.state ≡ after_draws draws.old.state size) }
{
    let mut bytes = Vec::new(alloc);
    for _k in 0..size {
        bytes.push((draws.draw() % 256) as u8)?;
    }
    Ok(bytes)
}

/// Makes the file of a firmware version and a body of so many bytes.
#[tactic(auto, unfolding(crate::specs::Firmware::file_of, image_slots::specs::Image::image_start))]
pub fn file(alloc: Global, firmware: u32, size: u32, body: &[u8]) -> Result<Vec<u8>, AllocError>
    ensures { IfOk result (λ made. made.items ≡ file_of 1 firmware size body.now) }
{
    let mut file = Vec::new(alloc);
    file.extend_from_slice(b"FUIM\x01")?;
    file.extend_from_slice(&HARDWARE.to_le_bytes())?;
    file.extend_from_slice(&firmware.to_le_bytes())?;
    file.extend_from_slice(&size.to_le_bytes())?;
    file.extend_from_slice(&digest(body))?;
    file.extend_from_slice(body)?;
    Ok(file)
}

fn digest(body: &[u8]) -> [u8; 32]
    ensures { result ≡ sha256 body.now }
{
    Sha256::digest(body)
}
