//! The image file of a firmware update (FUIM, this project's profile; its digest is the SHA-256 of FIPS 180-4), and what it is to
//! a device: the states of a next slot that firmware management reports (TS006-1.0.0, DevUpgradeImageAns), and the two slots. Any
//! bytes are an image file exactly where the definition says so. Their state is the one that the definition gives them for a
//! hardware version: corrupt, incompatible, or valid with the firmware's version. Slots take their memory once, and each call on
//! them is a function of what they hold. Who made a file, and when a device starts it, is left to the crates above.
//!
//! From `session_tests::images`:
//!
//!     assert!(rt; ImageView::read(file, hw, formats) == state);
//!     assert!(rt; is_image(file) == (state != ImageState::Corrupt));
//!
//!     slots.offer(&IMAGE);  // becomes next
//!     has_next(&rt, &slots, ImageState::Valid(2));
//!     deletes(&rt, &mut slots, 3, 2);
//!     slots.swap();         // a valid next runs
//!     runs(&rt, &slots, &IMAGE);
//!     has_next(&rt, &slots, ImageState::None);
#![tactic(auto)]

mod image;
mod laws;
mod slots;
mod view;

pub use image::{MAX_IMAGE, firmware, highest, is_for, is_image, lowest};
pub use laws::{an_image_has_its_bounds, worked_images};
pub use slots::{Memory, Slots};
pub use view::{ImageState, ImageView};
