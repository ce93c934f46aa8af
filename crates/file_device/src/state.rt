//! What a device knows besides its sessions, in a file: the bytes that it saves, the length of the file that runs in four bytes,
//! the lowest first, that file, and the file that was received to run next.

use device_core::{Device, DeviceConfig, MAX_AREA};
use file_flash::FileFlash;
use std::fs::{File, Files, OpenOptions};
use std::io::{ErrorKind, Write};
use std::{fs, io};

/// The bytes that a device saves.
const SAVED: usize = 492;

/// The most bytes of the file: those, four, and two files of the longest area.
const MOST: u64 = SAVED as u64 + 4 + 2 * MAX_AREA as u64;

/// Returns the device of a file, or a new one where there is no file; None where neither can be made. What is no regular file,
/// or is longer than a device's can be, is not read: that is an error.
pub fn restored(
    rt: &HostRuntime,
    config: DeviceConfig,
    flash: FileFlash,
    path: &str,
) -> io::Result<Option<Device<FileFlash>>> {
    match fs::metadata(rt, path) {
        Ok(told) => {
            if !told.is_file() || told.len() > MOST {
                return Err(io::Error::from(ErrorKind::InvalidData));
            }
            let bytes = fs::read(rt, path)?;
            Ok(of_bytes(rt, config, flash, bytes.as_slice()))
        }
        Err(error) => {
            if error.kind() == ErrorKind::NotFound {
                Ok(Device::reserve(rt.alloc(), config, flash).ok())
            } else {
                Err(error)
            }
        }
    }
}

fn of_bytes(
    rt: &HostRuntime,
    config: DeviceConfig,
    flash: FileFlash,
    bytes: &[u8],
) -> Option<Device<FileFlash>> {
    let (saved, rest) = bytes.split_at_checked(SAVED)?;
    let (length, files) = rest.split_first_chunk::<4>()?;
    let (running, next) = files.split_at_checked(u32::from_le_bytes(*length) as usize)?;
    Device::restore(rt.alloc(), config, flash, saved, running, next).ok()
}

/// Writes what a device knows over what the file had, whole or not at all.
pub fn save(rt: &HostRuntime, path: &str, device: &Device<FileFlash>) -> io::Result<()> {
    let (_version, running) = device.slots().running();
    let mut beside = String::from_str(rt.alloc(), path)?;
    beside.push_str(".new")?;
    let mut file = OpenOptions::new()
        .write(true)
        .create(true)
        .truncate(true)
        .open(rt, beside.as_str())?;
    file.write_all(device.save().as_slice())?;
    let Ok(length) = u32::try_from(running.len()) else {
        return Err(io::Error::from(ErrorKind::InvalidData));
    };
    file.write_all(&length.to_le_bytes())?;
    file.write_all(running)?;
    file.write_all(device.next_file())?;
    file.sync_all()?;
    fs::rename(rt, beside.as_str(), path)
}
