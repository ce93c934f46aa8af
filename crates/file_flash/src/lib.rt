//! A flash in a file, for a device that is a process: a session that is held there outlasts the process, whenever it ends. Each
//! call that failed is counted. That a file returns what was written into it, and keeps what was synced, is up to the system, and
//! no clause says it.
//!
//! From `file_device`:
//!
//!     let flash = FileFlash::open(rt, path, 4 * SPAN)?;
//!     let Some(mut device) = restored(rt, config, flash, state)? else {
//!         return Err(wrong());
//!     };
//!     if !device.is_held() || device.power().is_err() {  // with what the file holds
//!         return Err(wrong());
//!     }
#![tactic(auto)]

ghost use Rattle.std.specs.Prelude.{◌≡◌, ◌+◌, ◌*◌, ◌^◌, ◌<◌, ◌≤◌, IfOk};
ghost use Rattle.flash_session.specs.Contents.{HasCause};

use flash_session::{Failed, Flash};
use std::fs::{File, Files, OpenOptions};
use std::io;
use std::marker::Model;
use std::os::unix::fs::FileExt;

/// The bytes of a file, by their places in it.
#[derive(Drop)]
pub struct FileFlash {
    file: File,
    size: u32,
    /// How many calls failed; the count stops at the type's end.
    failed: u64,
    ghost small: { size < 2 ^ 32 },
}

impl Model for FileFlash {
    ghost use Rattle.file_flash.specs.Files.{InFile};

    ghost Value = { InFile };

    ghost view = { λ f. record { size = f.size; faults = f.failed; small = f.small } };
}

impl FileFlash {
    /// Opens the file of this name, made where there is none, as a flash of `size` bytes. A shorter file gets zeros after its
    /// bytes, as a cleared range has them; of a longer one the bytes after `size` are lost. Err is the system's.
    pub fn open<R: Files<File = File>>(files: &R, path: &str, size: u32) -> io::Result<Self>
        ensures { IfOk result (λ f. (f.size ≡ size) × (f.faults ≡ 0)) }
    {
        let file = OpenOptions::new()
            .read(true)
            .write(true)
            .create(true)
            .open(files, path)?;
        file.set_len(size as u64)?;
        file.sync_all()?;
        Ok(FileFlash {
            file,
            size,
            failed: 0,
        })
    }
}

impl Flash for FileFlash {
    ghost use Rattle.file_flash.specs.Files.{file_seen};

    ghost seen = { file_seen };

    ghost tells = { λ old new steps failed. Unit {0} };

    ghost small = { λ flash. flash.small };

    fn size(&self) -> u32 {
        self.size
    }

    fn read(&mut self, at: u32, buf: &mut [u8]) -> Result<(), Failed> {
        let done = self.file.read_exact_at(buf, at as u64);
        counted(done, &mut self.failed)
    }

    fn write(&mut self, at: u32, piece: &[u8]) -> Result<(), Failed> {
        let done = self.file.write_all_at(piece, at as u64);
        counted(done, &mut self.failed)
    }

    fn fill(&mut self, at: u32, n: u32) -> Result<(), Failed> {
        let done = clear(&self.file, at, n);
        counted(done, &mut self.failed)
    }

    fn sync(&mut self) -> Result<(), Failed> {
        let done = self.file.sync_data();
        counted(done, &mut self.failed)
    }
}

const ZEROS: [u8; 256] = [0; 256];

/// Writes so many zeros from a place on, 256 at a time.
fn clear(file: &File, at: u32, n: u32) -> io::Result<()> {
    for k in 0..n / 256 {
        file.write_all_at(&ZEROS, at as u64 + 256 * k as u64)?;
    }
    let rest = n % 256;
    file.write_all_at(&ZEROS[..rest as usize], at as u64 + (n - rest) as u64)
}

/// Counts a call that failed.
fn counted(done: io::Result<()>, failed: &mut u64) -> Result<(), Failed>
    ensures { HasCause failed.old failed.new result }
{
    match done {
        Ok(()) => Ok(()),
        Err(_) => {
            *failed = failed.saturating_add(1);
            Err(Failed)
        }
    }
}
