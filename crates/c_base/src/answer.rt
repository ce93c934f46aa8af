//! The answer of a call to C, besides what it writes: `enum fuota_answer` of the header, and `FUOTA_NO_RECEIVER`.

/// It was done.
pub const DONE: u8 = 0;
/// There is nothing to show, to take or to send.
pub const NOTHING: u8 = 1;
/// The handle has no object.
pub const NO_OBJECT: u8 = 2;
/// An argument is out of its range; nothing changed.
pub const RANGE: u8 = 3;
/// There is no room for the text; only its length was written.
pub const NO_ROOM: u8 = 4;
/// There was not enough memory.
pub const NO_MEMORY: u8 = 5;
/// The payload spells no commands, or the image is no image file; nothing acted.
pub const REFUSED: u8 = 6;
/// The device did not hear the payload.
pub const DEAF: u8 = 7;
/// The device holds too many uplinks; nothing acted.
pub const FULL: u8 = 8;
/// The frame counts of the group are used up; nothing changed.
pub const SPENT: u8 = 9;
/// The saved bytes are not those of such an object.
pub const CORRUPT: u8 = 10;
/// The bytes are no frame of the group that the device hears.
pub const FOREIGN: u8 = 11;
/// The sessions of the device are down until it gets power; nothing changed.
pub const DOWN: u8 = 12;
/// The flash has something at a session's place that is no session's.
pub const FLASH: u8 = 13;

/// The answer of a call for refusal bits where there is no receiver.
pub const NO_RECEIVER: u8 = 255;
