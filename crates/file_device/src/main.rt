//! A device that is a process: its sessions are in one file, and all else that it knows is in another, so that it outlasts the
//! process, whenever that ends.
//!
//!     file_device FLASH STATE 'device 1 c 1 16 0 KEY'
//!
//! The third word is a device line of a script. Each line of input is a line of a script too. The answer has the device's
//! uplinks, a line each as `DUE PORT HEX`, and a word:
//!
//! - `at MS`: the time from there on; `done`.
//! - `raw 1 PORT HEX [WORD]`: a payload by unicast, and `rawair 1 HEX [WORD]`: what its radio hears; `done`, `deaf`, `refused`,
//!   `full`, `fault` or `down`, and `foreign` for bytes that are no frame for it.
//! - `wake 1`: `done` or `full`. `migrate 1`: `done`.
//!
//! The answer to the line `show` is what the device shows, up to the word `done`. At the start the device gets power, and says
//! `power`. After each call what it knows is saved, before its uplinks are sent, and once more after them. Any other line ends
//! the process, and so does a system's call that fails.
#![tactic(auto)]

mod calls;
mod config;
mod showing;
mod state;

use calls::call;
use config::{SPAN, config_of};
use device_core::Device;
use file_flash::FileFlash;
use script_lines::{Form, form, in_range};
use showing::show;
use state::{restored, save};
use std::io::ErrorKind;
use std::{env, io};

fn main(rt: HostRuntime) -> io::Result<()> {
    let words: Vec<String> = env::args(&rt)?.collect(rt.alloc())?;
    match (words.get(1), words.get(2), words.get(3)) {
        (Some(flash), Some(state), Some(line)) => {
            play(&rt, flash.as_str(), state.as_str(), line.as_bytes())
        }
        _ => Err(wrong()),
    }
}

/// Why the process ends where its words are others, or there is no room for its device.
fn wrong() -> io::Error {
    io::Error::from(ErrorKind::InvalidInput)
}

fn play(rt: &HostRuntime, path: &str, state: &str, line: &[u8]) -> io::Result<()> {
    let Some(config) = config_of(line) else {
        return Err(wrong());
    };
    let flash = FileFlash::open(rt, path, 4 * SPAN)?;
    let Some(mut device) = restored(rt, config, flash, state)? else {
        return Err(wrong());
    };
    if !device.is_held() || device.power().is_err() {
        return Err(wrong());
    }
    answer_all(rt, &mut device, state)
}

/// Says that the device has power, and answers each line of input.
fn answer_all(rt: &HostRuntime, device: &mut Device<FileFlash>, state: &str) -> io::Result<()> {
    println!(rt; "power")?;
    let mut time = 0;
    for line in rt.lines(rt.alloc()) {
        let line = line?;
        if line.as_str() == "show" {
            show(rt, device)?;
        } else {
            let Some(word) = act(device, &mut time, line.as_bytes()) else {
                return Err(wrong());
            };
            answer(rt, device, state, word)?;
        }
    }
    Ok(())
}

/// Carries a line out; None where it is no line for a device.
fn act(device: &mut Device<FileFlash>, time: &mut u64, line: &[u8]) -> Option<&'static str> {
    let read = form(line)?;
    if !in_range(&read) {
        return None;
    }
    match read {
        Form::At { time: now } => {
            *time = now;
            Some("done")
        }
        other => call(device, *time, &other),
    }
}

/// Saves what the device knows, sends its uplinks, and says how a line ended.
fn answer(
    rt: &HostRuntime,
    device: &mut Device<FileFlash>,
    state: &str,
    word: &str,
) -> io::Result<()> {
    save(rt, state, device)?;
    let held = device.has_uplink();
    for _ in 0..8 {
        if let Some(uplink) = device.take_uplink() {
            let text = hex::encode(rt.alloc(), uplink.payload.as_slice())?;
            println!(rt; "{} {} {}", uplink.due, uplink.port, text.as_str())?;
        }
    }
    if held {
        save(rt, state, device)?;
    }
    println!(rt; "{word}")
}
