//! Laws about the definitions, each the contract of a function with an empty body.

ghost use Rattle.std.specs.Prelude.{◌≡◌, ◌+◌, ◌≤◌, ℕ, List, length, true};
ghost use Rattle.image_slots.specs.Image.{max_image, further, is_image};
ghost use Rattle.image_slots.specs.Parts.{HasParts};
ghost use Rattle.image_slots.specs.WorkedImages.{WorkedImages, WorkedSlots};

/// An image file has at least the bytes before its body, 49 or in format 2 53, and at most 262,144; and bytes with the parts of one
/// that are at most so long are one.
pub fn an_image_has_its_bounds()
    ensures long { (file : List ℕ) → is_image file ≡ true → 49 + further file ≤ length file }
    ensures short { (file : List ℕ) → is_image file ≡ true → length file ≤ max_image }
    ensures all { (file : List ℕ) → HasParts file → length file ≤ max_image → is_image file ≡ true }
{}

/// Image files and slots, worked out.
pub fn worked_images()
    ensures images { WorkedImages }
    ensures slots { WorkedSlots }
{}
