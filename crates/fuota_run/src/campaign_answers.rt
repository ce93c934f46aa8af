//! The answers for a campaign: its report, the file that a device recovered, or its summary.

ghost use Rattle.std.specs.Prelude.{◌≡◌, ◌++◌, true, Result, IfOk, codes};
ghost use Rattle.std.specs.Fmt.{decimal};
ghost use Rattle.image_slots.specs.Image.{is_image};
ghost use Rattle.report_lines.specs.Texts.{IsText};
ghost use Rattle.report_lines.specs.declared.faults.LineFault.{LineFault};
ghost use Rattle.campaign_world.specs.Recovery.{recovery};
ghost use Rattle.campaign_world.specs.World.{WorldState};
ghost use Rattle.campaign_world.specs.HeldWorld.{WorldStands};
ghost use Rattle.campaign_world.specs.Said.{said_in};
ghost use Rattle.campaign_world.specs.Script.{end_result, campaign_of};
ghost use Rattle.fuota_run.specs.Answer.{no_file_word, recovered, world_answer, summary_answer};
ghost use Rattle.fuota_run.specs.Ending.{IsPlayed};
ghost use Rattle.campaign_world.specs.HeardWorld.{WorldIsIf};
ghost use Rattle.fuota_run.specs.HeldAnswer.{seen_answer, IsRecovery};

use crate::answers::Answer;
use crate::forms::ScriptForm;
use crate::status::Status;
use campaign_world::{NoFile, World};
use report_lines::LineError;
use script_lines::{Lines, hear_last, hear_piece};
use std::alloc::{AllocError, Global};

/// Makes the summary of the campaign that image and script define.
pub fn seed_answer(
    alloc: Global,
    seed: u32,
    image: &[u8],
    script: &[u8],
) -> Result<Answer, LineError>
    requires { is_image image.now ≡ true }
    ensures { IsPlayed (summary_answer seed) (campaign_of image.now (said_in script.now))
        (seen_answer result) }
{
    let Ok(mut heard) = World::new(alloc, image) else {
        return Err(LineError::Memory);
    };
    let mut lines = Lines::new();
    hear_piece(&mut lines, script, &mut heard);
    hear_last(&mut lines, &mut heard);
    let answer = summary_answer(alloc, seed, &heard);
    drop(heard);
    answer
}

/// The summary of a campaign after the lines that it has heard.
fn summary_answer(alloc: Global, seed: u32, world: &World) -> Result<Answer, LineError>
    ensures { (so_far : Result WorldState LineFault) → WorldIsIf world.now so_far
        → IsPlayed (summary_answer seed) (end_result so_far) (seen_answer result) }
{
    match world.summary(alloc) {
        Ok(summary) => match summary_text(alloc, seed, &summary) {
            Ok(text) => Ok(Answer {
                status: Status::Done,
                text,
            }),
            Err(_) => Err(LineError::Memory),
        },
        Err(error) => Err(error),
    }
}

fn summary_text(alloc: Global, seed: u32, summary: &[u8]) -> Result<Vec<u8>, AllocError>
    ensures { IfOk result
        (λ text. text.items ≡ codes "generate " ++ decimal seed ++ (codes "\n" ++ summary.now)) }
{
    let mut text = first_line_of(alloc, seed)?.into_bytes();
    text.extend_from_slice(summary)?;
    Ok(text)
}

fn first_line_of(alloc: Global, seed: u32) -> Result<String, AllocError>
    ensures { IsText result (codes "generate " ++ decimal seed ++ codes "\n") }
{
    format!(in alloc; "generate {seed}\n")
}

/// Makes the answer for a campaign after the lines that it has heard.
pub fn world_answer(alloc: Global, what: ScriptForm, world: &World) -> Result<Answer, LineError>
    ensures { (so_far : Result WorldState LineFault) → WorldIsIf world.now so_far
        → IsPlayed (world_answer what) (end_result so_far) (seen_answer result) }
{
    match what {
        ScriptForm::Campaign => match world.report(alloc) {
            Ok(text) => Ok(Answer {
                status: Status::Done,
                text,
            }),
            Err(error) => Err(error),
        },
        ScriptForm::Recover { device } => match world.ended() {
            Ok(()) => recovery(alloc, device, world),
            Err(error) => Err(error),
        },
    }
}

/// The file that a device recovered, or why it has none.
fn recovery(alloc: Global, device: u8, world: &World) -> Result<Answer, LineError>
    ensures { (w : WorldState) → WorldStands world.now w
        → IsRecovery (recovered device (recovery w device)) (seen_answer result) }
{
    match world.recovered(device) {
        Ok(file) => match file.to_vec(alloc) {
            Ok(text) => Ok(Answer {
                status: Status::Done,
                text,
            }),
            Err(_) => Err(LineError::Memory),
        },
        Err(why) => match not_complete_text(alloc, device, no_file_word(why)) {
            Ok(text) => Ok(Answer {
                status: Status::NotComplete,
                text: text.into_bytes(),
            }),
            Err(_) => Err(LineError::Memory),
        },
    }
}

fn not_complete_text(alloc: Global, device: u8, why: &str) -> Result<String, AllocError>
    ensures { IsText result
        (codes "device " ++ decimal device ++ (codes " " ++ why.now ++ codes "\n")) }
{
    format!(in alloc; "device {device} {why}\n")
}

fn no_file_word(why: NoFile) -> &'static str
    ensures { result.now ≡ no_file_word why }
{
    match why {
        NoFile::None => "none",
        NoFile::Receiving => "receiving",
        NoFile::NoRows => "norows",
        NoFile::Conflict => "conflict",
    }
}
