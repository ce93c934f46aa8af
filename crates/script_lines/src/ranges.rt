//! The ranges of a form's numbers.

ghost use Rattle.std.specs.Prelude.{◌≡◌, ◌&&◌, nat_le, nat_lt};
ghost use Rattle.script_lines.specs.Limits.{max_frag_size, max_index, max_parity};
ghost use Rattle.script_lines.specs.Ranges.{in_range, is_u32, is_window, is_device};

use crate::forms::Form;

/// The latest time of a script, in milliseconds since the GPS epoch: the last one of the second 2^32 - 1.
pub const MAX_TIME: u64 = 4_294_967_295_999;

/// The most coded fragments that a server sends.
const MAX_PARITY: u64 = 512;

/// The most bytes of a fragment.
const MAX_FRAG_SIZE: u64 = 239;

/// The most rows for coded fragments that a device is given.
const MAX_ROWS: u64 = 256;

/// The last index of a session, and the last id of a group.
const MAX_INDEX: u64 = 3;

/// The last port.
pub const MAX_PORT: u64 = 255;

/// The most devices of a script.
const MAX_DEVICES: u64 = 64;

/// Says whether each number of the form is within its range. It doesn't look at what depends on the image's length or on which
/// device comes next.
#[tactic(auto, unfolding(crate::specs::Ranges::in_range))]
pub fn in_range(form: &Form) -> bool
    ensures { result ≡ in_range form.now }
{
    match *form {
        Form::Image {
            frag_size,
            parity,
            index,
        } => is_image(frag_size, parity, index),
        Form::Group { id, min, max, .. } => is_group(id, min, max),
        Form::WindowC {
            start,
            timeout,
            freq,
            dr,
        } => is_window(start, timeout, freq, dr),
        Form::WindowB {
            start,
            periodicity,
            timeout,
            freq,
            dr,
        } => is_window(start, timeout, freq, dr) && periodicity <= 7,
        Form::Device(line) => is_device(line.id, line.hw, line.rows, line.offset),
        Form::At { time } => time <= MAX_TIME,
        Form::Down { word, .. } => is_u32(word),
        Form::Raw { port, word, .. } => port <= MAX_PORT && is_u32(word),
        Form::Air { word, .. } => is_u32(word),
        Form::RawAir { word, .. } => is_u32(word),
        _ => true,
    }
}

/// Says whether a number is below 2^32.
pub fn is_u32(n: u64) -> bool
    ensures { result ≡ is_u32 n }
{
    n < 1 << 32
}

/// Whether an image's numbers are within their ranges.
fn is_image(frag_size: u64, parity: u64, index: u64) -> bool
    ensures { result ≡ nat_le 1 frag_size && nat_le frag_size max_frag_size
        && nat_le parity max_parity && nat_le index max_index }
{
    1 <= frag_size && frag_size <= MAX_FRAG_SIZE && parity <= MAX_PARITY && index <= MAX_INDEX
}

/// Whether a group's numbers are within their ranges.
fn is_group(id: u64, min: u64, max: u64) -> bool
    ensures { result ≡ is_u32 min && is_u32 max && nat_lt min max && nat_le id max_index }
{
    is_u32(min) && is_u32(max) && min < max && id <= MAX_INDEX
}

/// Whether a window's numbers are within their bits.
fn is_window(start: u64, timeout: u64, freq: u64, dr: u64) -> bool
    ensures { result ≡ is_window start timeout freq dr }
{
    is_u32(start) && timeout <= 15 && freq < 1 << 24 && dr <= 255
}

/// Whether a device's numbers are within their ranges.
fn is_device(id: u64, hw: u64, rows: u64, offset: u64) -> bool
    ensures { result ≡ is_device id hw rows offset }
{
    1 <= id && id <= MAX_DEVICES && is_u32(hw) && rows <= MAX_ROWS && is_u32(offset)
}
