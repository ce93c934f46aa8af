//! The lines of a script, each put at the end of the text.

ghost use Rattle.std.specs.Prelude.{◌≡◌, ◌++◌, IfOk};
ghost use Rattle.campaign_generator.specs.Script.{device_line, ask_line, down_line, up_line};

use std::alloc::{AllocError, Global};

/// Puts the line of a device of class C with hardware 1, 64 rows, a clock's offset in seconds, and a key of zeros.
pub fn put_device(
    alloc: Global,
    text: &mut Vec<u8>,
    device: u32,
    offset: u32,
) -> Result<(), AllocError>
    ensures { IfOk result (λ _. text.new.items ≡ text.old.items ++ device_line device offset) }
{
    let line = format!(in alloc;
        "device {device} c 1 64 {offset} 00000000000000000000000000000000\n"
    )?;
    text.extend_from_slice(line.as_bytes())
}

/// Puts the line by which the server asks a device.
pub fn put_ask(alloc: Global, text: &mut Vec<u8>, device: u32) -> Result<(), AllocError>
    ensures { IfOk result (λ _. text.new.items ≡ text.old.items ++ ask_line device) }
{
    let line = format!(in alloc; "ask {device}\n")?;
    text.extend_from_slice(line.as_bytes())
}

/// Puts the line by which a sent payload reaches a device.
pub fn put_down(alloc: Global, text: &mut Vec<u8>, sent: u32, device: u32) -> Result<(), AllocError>
    ensures { IfOk result (λ _. text.new.items ≡ text.old.items ++ down_line sent device) }
{
    let line = format!(in alloc; "down {sent} {device}\n")?;
    text.extend_from_slice(line.as_bytes())
}

/// Puts the line by which an uplink reaches the server.
pub fn put_up(alloc: Global, text: &mut Vec<u8>, uplink: u32) -> Result<(), AllocError>
    ensures { IfOk result (λ _. text.new.items ≡ text.old.items ++ up_line uplink) }
{
    let line = format!(in alloc; "up {uplink}\n")?;
    text.extend_from_slice(line.as_bytes())
}
