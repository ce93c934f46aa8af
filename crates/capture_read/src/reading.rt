//! Reading of one line.

ghost use Rattle.std.specs.Prelude.{◌≡◌, Some, Err, option_map, option_and_then, MatchResult};
ghost use Rattle.serde_json.specs.Data.{Members, object};
ghost use Rattle.capture_read.specs.declared.answers.EntryFault.TheVariants.{Syntax};
ghost use Rattle.capture_read.specs.Entries.{direction_of, ranged, entry_in, entry_of, Answers};
ghost use Rattle.capture_read.specs.Members.{value_of, IsSaid};

use crate::answers::{Entry, EntryError, EntryFault};
use crate::members::{Said, members};
use hex::FromHexError;
use json::{Invalid, Reader, Scratch, Token};
use std::alloc::Global;
use wire_base::{Direction, MAX_PAYLOAD, Payload};

/// How deep a line may nest.
const MAX_DEPTH: usize = 127;

/// Reads the entry of a line.
pub fn entry(alloc: Global, line: &[u8]) -> Result<Entry, EntryError>
    ensures { Answers (entry_of line.now) result }
{
    let mut scratch = Scratch::new(alloc);
    entry_with(alloc, &mut scratch, line)
}

/// Does the same with a `scratch` that may be borrowed for line after line: it is room, and doesn't change any answer.
pub fn entry_with(alloc: Global, scratch: &mut Scratch, line: &[u8]) -> Result<Entry, EntryError>
    ensures { Answers (entry_of line.now) result }
{
    let Ok(text) = str::from_utf8(line) else {
        return Err(EntryError::Refused(EntryFault::Syntax));
    };
    let Ok(mut reader) = Reader::new(text, scratch) else {
        return Err(EntryError::Memory);
    };
    match object(&mut reader) {
        Ok(said) => entry_in(alloc, &said),
        Err(Invalid) => Err(EntryError::Refused(EntryFault::Syntax)),
    }
}

/// What the members of an object say, where the tokens are an object and nothing more.
fn object<'a>(reader: &mut Reader<'a>) -> Result<Said<'a>, Invalid>
    ensures { MatchResult result
        (λ said. (ms : Members) × (value_of reader.old ≡ Some (object ms)) × IsSaid said ms)
        (λ _. entry_in (value_of reader.old) ≡ Err Syntax) }
{
    let first = reader.next().ok_or(Invalid)?;
    let Token::BeginObject = first else {
        return Err(Invalid);
    };
    let said = members(reader, MAX_DEPTH - 1)?;
    match reader.next() {
        None => Ok(said),
        Some(_) => Err(Invalid),
    }
}

/// The entry that an object is whose members say this.
#[tactic(auto, unfolding(crate::specs::Entries::port_of, crate::specs::Entries::dir_of, crate::specs::Entries::hex_of))]
fn entry_in(alloc: Global, said: &Said<'_>) -> Result<Entry, EntryError>
    ensures { (ms : Members) → IsSaid said.now ms → Answers (entry_in (Some (object ms))) result }
{
    let Some(port) = said.port else {
        return Err(EntryError::Refused(EntryFault::Syntax));
    };
    let Some(dir) = direction(said.dir) else {
        return Err(EntryError::Refused(EntryFault::Syntax));
    };
    let Some(digits) = said.hex else {
        return Err(EntryError::Refused(EntryFault::Syntax));
    };
    match hex::decode(alloc, digits) {
        Ok(bytes) => match ranged(port, dir, &bytes) {
            Ok(entry) => Ok(entry),
            Err(fault) => Err(EntryError::Refused(fault)),
        },
        Err(FromHexError::OutOfMemory) => Err(EntryError::Memory),
        Err(_) => Err(EntryError::Refused(EntryFault::Syntax)),
    }
}

/// The direction that a word names, where there is one.
fn direction(word: Option<&str>) -> Option<Direction>
    ensures { result ≡ option_and_then direction_of (option_map (λ text. text.now) word.entry) }
{
    match word {
        Some("down") => Some(Direction::Down),
        Some("up") => Some(Direction::Up),
        _ => None,
    }
}

/// Makes the entry, where its members are as they must be.
fn ranged(port: i128, dir: Direction, payload: &[u8]) -> Result<Entry, EntryFault>
    ensures { result ≡ ranged port dir payload.now }
{
    if port < 0 || port > 255 {
        return Err(EntryFault::Range);
    }
    if payload.len() > MAX_PAYLOAD {
        return Err(EntryFault::Limit);
    }
    Ok(Entry {
        port: port as u8,
        dir,
        payload: Payload::from_slice(payload),
    })
}
