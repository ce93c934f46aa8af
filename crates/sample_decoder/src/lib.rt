//! A sample: what a captured payload says (TS003 to TS006, 1.0.0), as text.
#![tactic(auto)]

ghost use Rattle.std.specs.Prelude.{◌≡◌, ◌↔◌, ◌++◌, Ok, Err, IfOk, OnOk};
ghost use Rattle.wire_base.specs.declared.refusal.Refusal.{Refusal};
ghost use Rattle.package_grammar.specs.Reading.{Reading, reading_of};
ghost use Rattle.sample_decoder.specs.Lines.{lines_of};

use package_grammar::{Message, show};
use std::alloc::{AllocError, Global};
use thiserror::Error;
use wire_base::{Direction, Refusal};

// sample
/// Why there is no text.
#[derive(Clone, Copy, Debug, PartialEq, Eq, Error)]
pub enum DecodeError {
    /// The payload spells no commands: at which byte reading it stops, counted from 0, and why.
    #[error(transparent)]
    Refused(Refusal),
    #[error("out of memory")]
    Memory,
}

/// The commands of a payload of port 200 to 203, each on a line.
pub fn decode(
    alloc: Global,
    port: u8,
    direction: Direction,
    payload: &[u8],
) -> Result<Vec<u8>, DecodeError>
    ensures text { IfOk result (λ text. IfOk (reading_of port direction payload.now) (λ commands.
        text.items ≡ lines_of commands)) }
    ensures refused { (refusal : Refusal) → (result ≡ Err (DecodeError.Refused refusal))
        ↔ (reading_of port direction payload.now ≡ Err refusal) }
{
    match Message::read(port, direction, payload) {
        Ok(message) => match lines(alloc, message) {
            Ok(text) => Ok(text),
            Err(AllocError) => Err(DecodeError::Memory),
        },
        Err(refusal) => Err(DecodeError::Refused(refusal)),
    }
}

fn lines(alloc: Global, mut message: Message<'_>) -> Result<Vec<u8>, AllocError>
    ensures { IfOk result (λ text. text.items ≡ lines_of message.entry.commands) }
{
    let mut text = Vec::new(alloc);
    while let Some(command) = message.next() {
        show(&command, &mut text)?;
        text.extend_from_slice(b"\n")?;
    }
    Ok(text)
}
// end of sample
