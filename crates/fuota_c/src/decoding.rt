//! The text of a payload.

ghost use Rattle.std.specs.Prelude.{◌≡◌};
ghost use Rattle.package_grammar.specs.Reading.{reading_of};
ghost use Rattle.fuota_c.specs.Decoded.{DecodesOrNot, IsDecoded, direction_of, why_number};

use c_base::answer::{DONE, NO_MEMORY, NO_ROOM, RANGE, REFUSED};
use c_base::put_whole;
use sample_decoder::{DecodeError, decode};
use std::alloc::Global;
use wire_base::{Direction, MAX_PAYLOAD, Why};

/// The bytes of a text; or the byte at which a payload is refused, counted from 0, and why.
#[repr(C)]
#[derive(Drop)]
pub struct DecodedFields {
    pub length: usize,
    pub at: u16,
    pub why: u8,
}

/// Writes the commands of a payload of port 200 to 203, each on a line, to the front of `text`: done, with the text's length.
/// Refused where the payload spells no commands, with the place and why; no room where the text has more bytes, with its length;
/// no memory; out of range at more than 242 bytes of payload.
#[unsafe(no_mangle)]
pub extern "C" fn fuota_decode(
    alloc: Global,
    port: u8,
    up: bool,
    payload: &[u8],
    text: &mut [u8],
    out: &mut DecodedFields,
) -> u8
    ensures { DecodesOrNot port (direction_of up) payload.now text.old text.new out.old out.new
        result }
{
    if payload.len() > MAX_PAYLOAD {
        return RANGE;
    }
    decode_into(alloc, port, direction_of(up), payload, text, out)
}

fn decode_into(
    alloc: Global,
    port: u8,
    direction: Direction,
    payload: &[u8],
    text: &mut [u8],
    out: &mut DecodedFields,
) -> u8
    ensures { IsDecoded (reading_of port direction payload.now)
        text.old text.new out.old out.new result }
{
    match decode(alloc, port, direction, payload) {
        Ok(lines) => {
            out.length = lines.len();
            if lines.len() > text.len() {
                return NO_ROOM;
            }
            // (C has the count already)
            let _count = put_whole(&lines, text);
            DONE
        }
        Err(DecodeError::Memory) => NO_MEMORY,
        Err(DecodeError::Refused(refusal)) => {
            out.at = refusal.at;
            out.why = why_number(refusal.why);
            REFUSED
        }
    }
}

fn direction_of(up: bool) -> Direction
    ensures { result ≡ direction_of up }
{
    if up { Direction::Up } else { Direction::Down }
}

fn why_number(why: Why) -> u8
    ensures { result ≡ why_number why }
{
    match why {
        Why::Port => 0,
        Why::UnknownCommand => 1,
        Why::Short => 2,
        Why::TooLong => 3,
    }
}
