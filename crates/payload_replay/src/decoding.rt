//! The text of `decode` for a file of payloads, one a line.

ghost use Rattle.std.specs.Prelude.{◌≡◌, ℕ, ◌+◌, ◌<◌, ◌≤◌, [], List, ◌++◌, codes, string_bytes, Ok, IfOk, IfErr, OnOk};
ghost use Rattle.std.specs.Fmt.{decimal};
ghost use Rattle.package_grammar.specs.Reading.{reading_of};
ghost use Rattle.script_lines.specs.Lines.{lines_of};
ghost use Rattle.report_lines.specs.Texts.{seen_text};
ghost use Rattle.payload_replay.specs.PayloadLines.{payload_of};
ghost use Rattle.report_lines.specs.Lines.{IsLineRefused, IsFileText};
ghost use Rattle.payload_replay.specs.Decode.{commands_text, stop_word, stop_text, payload_text, numbered_text, Writes, Decodes};
ghost use Rattle.payload_replay.specs.HeldDecoding.{DecodingStands, HearsDecoded};

use crate::payload_lines::read_payload;
use package_grammar::Message;
use report_lines::LineError;
use script_lines::{HearsLine, MAX_HEX_BYTES};
use std::alloc::{AllocError, Global};
use std::marker::Model;
use wire_base::{Direction, Why};

/// The text of captured payloads that went in one direction on one port (0 to 255; 200 to 203 have commands), while the lines of
/// their file are heard: for each line its number, counted from 1, and its commands, each on a line, or the byte at which reading
/// stops, counted from 0, and why.
/// reading stops, counted from 0, and why.
/// The file has at most 20,000 lines of at most 600 bytes, each the hex digits of a payload of 0 to 242 bytes in the order sent.
/// After the first line that is none, and after memory was missing, no line does more. (The text is this project's profile.)
#[derive(Drop)]
pub struct Decoding {
    port: u8,
    dir: Direction,
    lines: u32,
    text: Vec<u8>,
    kept: Option<LineError>,
    room: Room,
}

/// Room for the bytes of a line, and for the text of one line of output. It is kept, so that no line makes it anew.
#[derive(Drop)]
struct Room {
    bytes: [u8; MAX_HEX_BYTES],
    text: String,
}

impl Model for Decoding {
    ghost use Rattle.std.specs.Prelude.{◌≤◌};
    ghost use Rattle.payload_replay.specs.HeldDecoding.{HeldDecoding};

    ghost Value = { HeldDecoding };

    ghost view = { λ d. record {
      port = d.port;
      direction = d.dir;
      lines = d.lines;
      text = d.text.items;
      kept = d.kept;
    } };

    ghost invariant = { λ d. d.lines ≤ 20000 };
}

impl HearsLine for Decoding {
    ghost use Rattle.payload_replay.specs.HeldDecoding.{HearsDecoded};

    ghost hears = { HearsDecoded };

    /// Hears a line, and keeps its text or its fault.
    fn line(&mut self, line: &[u8]) {
        match self.kept {
            Some(_) => {}
            None => match decode_line(
                self.port,
                self.dir,
                self.lines,
                line,
                &mut self.room,
                &mut self.text,
            ) {
                Ok(()) => self.lines += 1,
                Err(error) => self.kept = Some(error),
            },
        }
    }

    fn is_over(&self) -> bool {
        self.kept.is_some()
    }
}

impl Decoding {
    /// Makes a decoding before its first line.
    pub fn new(alloc: Global, port: u8, dir: Direction) -> Self
        ensures { DecodingStands port dir result [] }
    {
        Decoding {
            port,
            dir,
            lines: 0,
            text: Vec::new(alloc),
            kept: None,
            room: Room {
                bytes: [0; MAX_HEX_BYTES],
                text: String::new(alloc),
            },
        }
    }

    /// Returns the whole text of a file, after all its lines. `LineError::Line` names the first line that is refused, with
    /// `LineWhy::Limit` where a limit is exceeded and else `LineWhy::Syntax`; `LineError::Memory` comes where memory was missing.
    pub fn text(self) -> Result<Vec<u8>, LineError>
        ensures { (port : ℕ) (dir : Direction) (file : List ℕ)
            → DecodingStands port dir self (lines_of file)
            → IsFileText (Decodes port dir) file (seen_text result) }
    {
        match self.kept {
            Some(error) => Err(error),
            None => ended(self.text),
        }
    }
}

/// The text with its last line.
fn ended(mut text: Vec<u8>) -> Result<Vec<u8>, LineError>
    ensures text { IfOk result (λ all. all.items ≡ text.items ++ codes "end\n") }
    ensures memory { IfErr result (λ e. e ≡ LineError.Memory) }
{
    match text.extend_from_slice(b"end\n") {
        Ok(()) => Ok(text),
        Err(_) => Err(LineError::Memory),
    }
}

/// Writes the number of a line, which comes after so many, and what its payload says; or the line is refused.
fn decode_line(
    port: u8,
    dir: Direction,
    lines: u32,
    line: &[u8],
    room: &mut Room,
    text: &mut Vec<u8>,
) -> Result<(), LineError>
    requires { lines ≤ 20000 }
    ensures shown { OnOk result ((payload : List ℕ) × (payload_of lines line.now ≡ Ok payload)
        × Writes port dir (lines + 1) payload text.old.items text.new.items) }
    ensures few { OnOk result (lines < 20000) }
    ensures refused { IfErr result (IsLineRefused payload_of lines line.now) }
{
    let count = match read_payload(lines, line, &mut room.bytes) {
        Ok(count) => count,
        Err(error) => return Err(error),
    };
    match show_numbered(
        port,
        dir,
        lines + 1,
        &room.bytes[..count],
        &mut room.text,
        text,
    ) {
        Ok(()) => Ok(()),
        Err(_) => Err(LineError::Memory),
    }
}

/// Writes a line's number, and what its payload says.
fn show_numbered(
    port: u8,
    dir: Direction,
    number: u32,
    payload: &[u8],
    room: &mut String,
    text: &mut Vec<u8>,
) -> Result<(), AllocError>
    ensures { OnOk result (Writes port dir number payload.now text.old.items text.new.items) }
{
    set_line_head(number, room)?;
    text.extend_from_slice(room.as_bytes())?;
    show_payload(port, dir, payload, room, text)
}

/// Makes the line that gives a line's number.
fn set_line_head(number: u32, head: &mut String) -> Result<(), AllocError>
    ensures { OnOk result
        (string_bytes head.new ≡ codes "line " ++ (decimal number ++ codes "\n")) }
{
    head.clear();
    write!(head, "line {number}\n")?;
    Ok(())
}

/// Writes what a payload says: its commands, or where and why reading stops. Each line is made in `room`.
pub fn show_payload(
    port: u8,
    dir: Direction,
    payload: &[u8],
    room: &mut String,
    text: &mut Vec<u8>,
) -> Result<(), AllocError>
    ensures { OnOk result
        (text.new.items ≡ text.old.items ++ payload_text (reading_of port dir payload.now)) }
{
    match Message::read(port, dir, payload) {
        Ok(message) => show_commands(message, room, text),
        Err(refusal) => {
            set_stop_line(refusal.at, stop_word(refusal.why), room)?;
            text.extend_from_slice(room.as_bytes())
        }
    }
}

/// Writes the commands of a message, each on a line.
fn show_commands(
    mut message: Message<'_>,
    room: &mut String,
    text: &mut Vec<u8>,
) -> Result<(), AllocError>
    ensures { OnOk result
        (text.new.items ≡ text.old.items ++ commands_text message.entry.commands) }
{
    while message.show_next(room, text)? {
        text.push(b'\n')?;
    }
    Ok(())
}

/// Makes the line that says where and why reading stops.
fn set_stop_line(at: u16, why: &str, line: &mut String) -> Result<(), AllocError>
    ensures { OnOk result (string_bytes line.new
        ≡ codes "refused " ++ decimal at ++ (codes " " ++ why.now ++ codes "\n")) }
{
    line.clear();
    write!(line, "refused {at} {why}\n")?;
    Ok(())
}

fn stop_word(why: Why) -> &'static str
    ensures { result.now ≡ stop_word why }
{
    match why {
        Why::Port => "port",
        Why::UnknownCommand => "unknown",
        Why::Short => "short",
        Why::TooLong => "long",
    }
}
