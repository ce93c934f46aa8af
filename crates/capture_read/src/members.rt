//! What the members of an object say, token by token: no value is kept but those that a line needs.

ghost use Rattle.std.specs.Prelude.{◌≡◌, ◌<◌, length, OnOk, option_map, ⊤};
ghost use Rattle.serde_json.specs.Data.{Data, Members as Read, put};
ghost use Rattle.capture_read.specs.Members.{value_at, items_at, members_at, Takes, text_of, whole_of, IsSeen, IsSaid};

use crate::numbers::number;
use json::{Invalid, Reader, Token};

/// What one value says.
#[derive(Clone, Copy, Drop)]
pub enum Seen<'a> {
    Text(&'a str),
    /// A number, which has a value here where it is whole.
    Number(Option<i128>),
    Other,
}

/// What the members of a line say; of those with one name the last counts.
#[derive(Clone, Copy, Drop)]
pub struct Said<'a> {
    pub port: Option<i128>,
    pub dir: Option<&'a str>,
    pub hex: Option<&'a str>,
}

/// Reads the next value, in which arrays and objects may nest `depth` deep.
#[cycle(value)]
fn value<'a>(reader: &mut Reader<'a>, depth: usize) -> Result<Seen<'a>, Invalid>
    ensures value { Takes IsSeen (value_at depth reader.old) result reader.new }
    ensures shorter { OnOk result (length reader.new < length reader.old) }
{
    let token = reader.next().ok_or(Invalid)?;
    match token {
        Token::String(text) => Ok(Seen::Text(text)),
        Token::Number(text) => match number(text) {
            Some(whole) => Ok(Seen::Number(whole)),
            None => Err(Invalid),
        },
        Token::Bool(_) => Ok(Seen::Other),
        Token::Null => Ok(Seen::Other),
        Token::EndObject | Token::EndArray | Token::Key(_) | Token::Bad => Err(Invalid),
        Token::BeginArray => {
            if depth == 0 {
                return Err(Invalid);
            }
            items(reader, depth - 1)?;
            Ok(Seen::Other)
        }
        Token::BeginObject => {
            if depth == 0 {
                return Err(Invalid);
            }
            members(reader, depth - 1)?;
            Ok(Seen::Other)
        }
    }
}

/// Reads the items of an array, to its end.
#[cycle(value)]
fn items(reader: &mut Reader<'_>, depth: usize) -> Result<(), Invalid>
    ensures value { Takes (λ _ _. ⊤) (items_at depth reader.old) result reader.new }
    ensures shorter { OnOk result (length reader.new < length reader.old) }
{
    'items: while !reader.take_end_array() {
        value(reader, depth)?;
    }
    Ok(())
}

/// Reads the members of an object, to its end.
#[cycle(value)]
pub fn members<'a>(reader: &mut Reader<'a>, depth: usize) -> Result<Said<'a>, Invalid>
    ensures value { Takes IsSaid (members_at depth reader.old) result reader.new }
    ensures shorter { OnOk result (length reader.new < length reader.old) }
{
    let mut said = Said {
        port: None,
        dir: None,
        hex: None,
    };
    'members: while let Some(name) = reader.next_key()? {
        let seen = value(reader, depth)?;
        said = with_member(&said, name, &seen);
    }
    Ok(said)
}

fn text_of<'a>(seen: &Seen<'a>) -> Option<&'a str>
    ensures { option_map (λ text. text.now) result ≡ text_of seen.now }
{
    match seen {
        Seen::Text(text) => Some(*text),
        Seen::Number(_) | Seen::Other => None,
    }
}

fn whole_of(seen: &Seen<'_>) -> Option<i128>
    ensures { result ≡ whole_of seen.now }
{
    match seen {
        Seen::Number(whole) => *whole,
        Seen::Text(_) | Seen::Other => None,
    }
}

/// What is said with one member more.
fn with_member<'a>(said: &Said<'a>, name: &str, seen: &Seen<'a>) -> Said<'a>
    ensures { (before : Read) → (d : Data) → IsSaid said.now before → IsSeen seen.now d
        → IsSaid result (put name.now d before) }
{
    match name {
        "port" => Said {
            port: whole_of(seen),
            dir: said.dir,
            hex: said.hex,
        },
        "dir" => Said {
            port: said.port,
            dir: text_of(seen),
            hex: said.hex,
        },
        "hex" => Said {
            port: said.port,
            dir: said.dir,
            hex: text_of(seen),
        },
        _ => *said,
    }
}
