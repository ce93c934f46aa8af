//! What a server begins with.

ghost use Rattle.std.specs.Prelude.{◌≡◌, ◌≤◌, IfOk, None, length, replicate, true};
ghost use Rattle.image_slots.specs.Image.{is_image};
ghost use Rattle.campaign_server.specs.declared.stage.Stage.TheVariants.{At};
ghost use Rattle.campaign_server.specs.declared.stage.Request.TheVariants.{Version};
ghost use Rattle.campaign_server.specs.ServerInside.{IsPlan};

use crate::plan::Plan;
use crate::stage::{LastStatus, Request, Stage};
use frag_encoder::{Encoder, EncoderError};
use std::alloc::{AllocError, Global};

/// Makes the encoder of an image, cut as the plan says.
pub fn cut(alloc: Global, plan: &Plan, image: &[u8]) -> Result<Encoder, AllocError>
    requires image { is_image image.now ≡ true }
    requires fine { IsPlan (length image.now) plan.now }
    ensures { IfOk result (λ e. e ≡ record { file = image.now; frag_size = plan.now.frag_size }) }
{
    match Encoder::new(alloc, image, plan.frag_size) {
        Ok(encoder) => Ok(encoder),
        Err(EncoderError::Memory) => Err(AllocError),
        Err(EncoderError::BadSize) => unreachable!(),
    }
}

/// Makes the stages of so many devices, each `Version`.
pub fn first_stages(alloc: Global, count: usize) -> Result<Vec<Stage>, AllocError>
    requires { count ≤ 64 }
    ensures { IfOk result (λ stages. stages.items ≡ replicate count (At Version)) }
{
    let mut stages = Vec::new(alloc);
    stages.resize(count, Stage::At(Request::Version))?;
    Ok(stages)
}

/// Makes the statuses of so many devices that have sent none.
pub fn first_statuses(alloc: Global, count: usize) -> Result<Vec<Option<LastStatus>>, AllocError>
    requires { count ≤ 64 }
    ensures { IfOk result (λ statuses. statuses.items ≡ replicate count None) }
{
    let mut statuses = Vec::new(alloc);
    statuses.resize(count, None)?;
    Ok(statuses)
}
