//! A campaign that is made from a seed.

ghost use Rattle.std.specs.Prelude.{◌≡◌, IfOk};
ghost use Rattle.campaign_generator.specs.Firmware.{image_of};
ghost use Rattle.campaign_generator.specs.Script.{script_of};

use super::draws::Draws;
use super::{image, script};
use std::alloc::{AllocError, Global};

/// An image file, and the script of a campaign that sends it.
#[derive(Drop)]
pub struct Generated {
    /// The image file: 4,145 to 8,240 bytes.
    pub image: Vec<u8>,
    /// The script's lines, each with its line feed: at most 4,524.
    pub script: Vec<u8>,
}

/// Makes the image and the script of a seed, always the same. The error is that memory ran out.
#[tactic(auto, unfolding(crate::specs::Firmware::image_of, crate::specs::Firmware::body_of, crate::specs::Firmware::size_of, crate::specs::Firmware::after_image, crate::specs::Firmware::fragments_of, crate::specs::Script::script_of))]
pub fn generate(alloc: Global, seed: u32) -> Result<Generated, AllocError>
    ensures image { IfOk result (λ made. made.image.items ≡ image_of seed) }
    ensures script { IfOk result (λ made. made.script.items ≡ script_of seed) }
{
    let mut draws = Draws { state: seed };
    let size = image::body_size(&mut draws);
    let body = image::body(alloc, &mut draws, size)?;
    let image = image::file(alloc, image::firmware(seed), size, &body)?;
    let script = script::script(alloc, &mut draws, image::fragments(size))?;
    Ok(Generated { image, script })
}
