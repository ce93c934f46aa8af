//! An image file as it is read, and the answer where there is none.

ghost use Rattle.std.specs.Prelude.{◌≡◌, IfOk, IfErr, OnOk};
ghost use Rattle.fuota_run.specs.Outside.{HoldsName};
ghost use Rattle.fuota_run.specs.Ending.{IsImageRead};
ghost use Rattle.fuota_run.specs.HeldAnswer.{answer_in, IsImageFault, IsImageAnswer};

use crate::answers::{Answer, answer_with, unread_answer};
use crate::files::Files;
use crate::source::{SourceError, read_source};
use crate::status::Status;
use image_slots::is_image;
use std::alloc::{AllocError, Global};
use thiserror::Error;

/// The most bytes of an image source.
const IMAGE_LIMIT: u32 = 262_144;

/// Why an image was not taken.
#[derive(Clone, Copy, Debug, PartialEq, Eq, Error)]
pub enum ImageError {
    /// Its source was not read.
    #[error(transparent)]
    Unread(SourceError),
    /// Its bytes are no image file.
    #[error("no image file")]
    Refused,
}

/// Reads the bytes of an image file to its end.
pub fn read_image<F: Files>(alloc: Global, files: &mut F, name: &str) -> Result<Vec<u8>, ImageError>
    requires { HoldsName (F.held files.old) name.now }
    ensures image { IfOk result (λ image. IsImageRead (F.held files.old) name.now image.items) }
    ensures quiet { OnOk result (F.faults files.new ≡ F.faults files.old) }
    ensures fault { IfErr result (λ e. IsImageFault (record {
      held = F.held files.old;
      before = F.faults files.old;
      after = F.faults files.new;
      left = F.left files.new;
    }) name.now e) }
    ensures held { F.held files.new ≡ F.held files.old }
{
    let image = match read_source(alloc, files, name, IMAGE_LIMIT) {
        Ok(image) => image,
        Err(error) => return Err(ImageError::Unread(error)),
    };
    if is_image(&image) {
        Ok(image)
    } else {
        Err(ImageError::Refused)
    }
}

/// Makes the answer for an image that was not taken.
pub fn image_answer(alloc: Global, error: ImageError) -> Result<Answer, AllocError>
    ensures { IfOk result (λ r. IsImageAnswer error (answer_in r)) }
{
    match error {
        ImageError::Unread(error) => unread_answer(alloc, error),
        ImageError::Refused => answer_with(alloc, Status::ImageRefused, "image refused\n"),
    }
}
