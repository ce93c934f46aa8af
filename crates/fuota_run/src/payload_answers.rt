//! The answers for a file of payloads.

ghost use Rattle.std.specs.Prelude.{◌≡◌, [], Some, IfOk};
ghost use Rattle.fuota_run.specs.Outside.{HoldsName};
ghost use Rattle.fuota_run.specs.declared.forms.FileForm.TheVariants.{Replay, Decode, Capture};
ghost use Rattle.fuota_run.specs.Words.{payloads};
ghost use Rattle.payload_replay.specs.HeldCapturing.{CapturingStands};
ghost use Rattle.payload_replay.specs.HeldDecoding.{DecodingStands};
ghost use Rattle.payload_replay.specs.HeldReplaying.{ReplayingStands};
ghost use Rattle.fuota_run.specs.Ending.{IsSoundOver};
ghost use Rattle.fuota_run.specs.HeldAnswer.{answer_in};

use crate::answers::{Answer, text_answer, unread_answer};
use crate::files::Files;
use crate::forms::FileForm;
use crate::hearing::hear_source;
use crate::source::SCRIPT_LIMIT;
use payload_replay::{Capturing, Decoding, Replaying};
use std::alloc::{AllocError, Global};

/// Makes the answer to a form with one file of payloads.
pub fn payloads<F: Files>(
    alloc: Global,
    files: &mut F,
    what: FileForm,
    name: &str,
) -> Result<Answer, AllocError>
    requires { HoldsName (F.held files.old) name.now }
    ensures { IfOk result (λ r. IsSoundOver (F.held files.old)
        (F.faults files.old) (F.faults files.new) (F.left files.new)
        (Some (payloads what name.now)) (answer_in r)) }
{
    match what {
        FileForm::Replay => {
            let mut heard = Replaying::new(alloc);
            let answer = hear_replay(alloc, files, &mut heard, name);
            drop(heard);
            answer
        }
        FileForm::Decode { port, dir } => {
            let heard = Decoding::new(alloc, port, dir);
            hear_decode(alloc, files, heard, name)
        }
        FileForm::Capture => {
            let heard = Capturing::new(alloc);
            hear_capture(alloc, files, heard, name)
        }
    }
}

/// The answer of a new replay after its file of payloads.
fn hear_replay<F: Files>(
    alloc: Global,
    files: &mut F,
    heard: &mut Replaying,
    name: &str,
) -> Result<Answer, AllocError>
    requires file { HoldsName (F.held files.old) name.now }
    requires fresh { ReplayingStands heard.old [] }
    ensures { IfOk result (λ r. IsSoundOver (F.held files.old)
        (F.faults files.old) (F.faults files.new) (F.left files.new)
        (Some (payloads Replay name.now)) (answer_in r)) }
{
    match hear_source(files, name, SCRIPT_LIMIT, heard) {
        Ok(()) => text_answer(alloc, heard.text()),
        Err(error) => unread_answer(alloc, error),
    }
}

/// The answer of a new decoding after its file of payloads.
fn hear_decode<F: Files>(
    alloc: Global,
    files: &mut F,
    mut heard: Decoding,
    name: &str,
) -> Result<Answer, AllocError>
    requires file { HoldsName (F.held files.old) name.now }
    requires fresh { DecodingStands heard.port heard.direction heard [] }
    ensures { IfOk result (λ r. IsSoundOver (F.held files.old)
        (F.faults files.old) (F.faults files.new) (F.left files.new)
        (Some (payloads (Decode heard.port heard.direction) name.now)) (answer_in r)) }
{
    match hear_source(files, name, SCRIPT_LIMIT, &mut heard) {
        Ok(()) => text_answer(alloc, heard.text()),
        Err(error) => unread_answer(alloc, error),
    }
}

/// The answer of a new capture after its file of JSON lines.
fn hear_capture<F: Files>(
    alloc: Global,
    files: &mut F,
    mut heard: Capturing,
    name: &str,
) -> Result<Answer, AllocError>
    requires file { HoldsName (F.held files.old) name.now }
    requires fresh { CapturingStands heard [] }
    ensures { IfOk result (λ r. IsSoundOver (F.held files.old)
        (F.faults files.old) (F.faults files.new) (F.left files.new)
        (Some (payloads Capture name.now)) (answer_in r)) }
{
    match hear_source(files, name, SCRIPT_LIMIT, &mut heard) {
        Ok(()) => text_answer(alloc, heard.text()),
        Err(error) => {
            drop(heard);
            unread_answer(alloc, error)
        }
    }
}
