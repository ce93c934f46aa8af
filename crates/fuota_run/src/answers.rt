//! The answers of a run: with a text, and where a source or a line is refused.

ghost use Rattle.std.specs.Prelude.{◌≡◌, IfOk};
ghost use Rattle.fuota_run.specs.Answer.{answer, refused};
ghost use Rattle.fuota_run.specs.HeldAnswer.{answer_in, seen_answer, IsUnreadAnswer, IsMadeOf, IsTextAnswer};
ghost use Rattle.report_lines.specs.Texts.{seen_text};

use crate::source::SourceError;
use crate::status::Status;
use report_lines::{LineError, LineFault, fault_line};
use std::alloc::{AllocError, Global};

/// The answer of a run: its status, and the text that is written with it.
#[derive(Drop)]
pub struct Answer {
    pub status: Status,
    pub text: Vec<u8>,
}

/// Makes an answer with a fixed text.
pub fn answer_with(alloc: Global, status: Status, text: &str) -> Result<Answer, AllocError>
    ensures { IfOk result (λ r. answer_in r ≡ answer status text.now) }
{
    Ok(Answer {
        status,
        text: text.as_bytes().to_vec(alloc)?,
    })
}

/// Makes the answer for a source that was not read.
pub fn unread_answer(alloc: Global, error: SourceError) -> Result<Answer, AllocError>
    ensures { IfOk result (λ r. IsUnreadAnswer error (answer_in r)) }
{
    match error {
        SourceError::Memory => Err(AllocError),
        SourceError::Failed => answer_with(alloc, Status::ReadFault, "read fault\n"),
        SourceError::TooLong(taken) => Ok(Answer {
            status: Status::TooLong(taken),
            text: format!(in alloc; "too long {taken}\n")?.into_bytes(),
        }),
    }
}

/// Makes the answer with the text that a file made, or for its first refused line.
pub fn text_answer(alloc: Global, said: Result<Vec<u8>, LineError>) -> Result<Answer, AllocError>
    ensures { IfOk result (λ r. IsTextAnswer (seen_text said) (answer_in r)) }
{
    match said {
        Ok(text) => Ok(Answer {
            status: Status::Done,
            text,
        }),
        Err(LineError::Memory) => Err(AllocError),
        Err(LineError::Line(fault)) => refused(alloc, fault),
    }
}

/// Makes the answer for a campaign, or for its first refused line.
pub fn answer_of(alloc: Global, made: Result<Answer, LineError>) -> Result<Answer, AllocError>
    ensures { IfOk result (λ r. IsMadeOf (seen_answer made) (answer_in r)) }
{
    match made {
        Ok(answer) => Ok(answer),
        Err(LineError::Memory) => Err(AllocError),
        Err(LineError::Line(fault)) => refused(alloc, fault),
    }
}

/// The answer for a refused line.
fn refused(alloc: Global, fault: LineFault) -> Result<Answer, AllocError>
    ensures { IfOk result (λ r. answer_in r ≡ refused fault) }
{
    Ok(Answer {
        status: Status::ScriptRefused,
        text: fault_line(alloc, fault)?.into_bytes(),
    })
}
