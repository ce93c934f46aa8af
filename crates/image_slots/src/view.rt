//! What a file is to a device.

ghost use Rattle.std.specs.Prelude.{◌≡◌, ◌≢◌, ◌≤◌, length};
ghost use Rattle.image_slots.specs.Image.{image_state, is_unknown};

use crate::image::{firmware, is_for, is_image};

/// What the bytes in a device's next slot are to it (TS006-1.0.0, DevUpgradeImageAns).
#[derive(Clone, Copy, Debug, PartialEq, Eq)]
pub enum ImageState {
    /// There is none: nothing was offered since the start, or since it ran or was deleted.
    None,
    /// No image file.
    Corrupt,
    /// An image file for other hardware versions.
    Incompatible,
    /// An image file for this device, with its firmware version.
    Valid(u32),
}

/// A device's view of bytes that are offered to it.
pub struct ImageView;

impl ImageView {
    /// Says what bytes are to a device of this hardware version, which knows only format 1 (`formats` 1) or both (2). A file of
    /// format 2 is corrupt to a device that does not know it.
    #[tactic(auto, using(crate::proofs::ImageLemmas::image_bounds), unfolding(crate::specs::Image::image_state))]
    pub fn read(bytes: &[u8], hw: u32, formats: u8) -> ImageState
        ensures state { result ≡ image_state bytes.now hw formats }
        ensures some { result ≢ ImageState.None }
    {
        // (a file of a format that is not known is corrupt, whatever its digest)
        if is_unknown(bytes, formats) || !is_image(bytes) {
            return ImageState::Corrupt;
        }
        if !is_for(bytes, hw) {
            return ImageState::Incompatible;
        }
        ImageState::Valid(firmware(bytes))
    }
}

/// Whether bytes would be a file of format 2, while a device knows only format 1.
#[tactic(auto, unfolding(crate::specs::Image::is_unknown, crate::specs::Image::format_of))]
fn is_unknown(bytes: &[u8], formats: u8) -> bool
    ensures { result ≡ is_unknown bytes.now formats }
{
    bytes.len() > 4 && bytes[4] == 2 && formats == 1
}
