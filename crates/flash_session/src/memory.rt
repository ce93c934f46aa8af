//! A flash in memory that can fail and be stopped.

ghost use Rattle.std.specs.Prelude.{◌≡◌, ◌^◌, ◌<◌, ◌≤◌, [], length, replicate, IfOk, vec_len, vec_capacity};

use crate::flash::{Failed, Flash};
use crate::log::{Step, note_sync, put_all, put_zeros};
use crate::schedule::Schedule;
use std::alloc::{AllocError, Global};
use std::marker::Model;

/// Bytes in memory with a log of what was done to them. A call fails exactly where its number is listed, or the log has no room
/// for it: each byte that is written takes one step of the log, and so does a sync.
#[derive(Drop)]
pub struct MemFlash {
    pub(crate) bytes: Vec<u8>,
    pub(crate) log: Vec<Step>,
    room: usize,
    schedule: Schedule,
    ghost small: { length bytes.items < 2 ^ 32 },
    ghost within: { vec_len log ≤ room },
    ghost reserved: { room ≤ vec_capacity log },
}

impl Model for MemFlash {
    ghost use Rattle.std.specs.Prelude.{length};
    ghost use Rattle.flash_session.specs.Flashes.{Memory};

    ghost Value = { Memory };

    ghost view = { λ f. record {
      bytes = f.bytes.items;
      log = f.log.items;
      calls = record {
        room = f.room;
        taken = length f.log.items;
        fails = f.schedule.fails.items;
        made = f.schedule.calls;
      };
      faults = f.schedule.faults;
      small = f.small;
    } };
}

impl MemFlash {
    /// Takes the memory of so many bytes, all 0, with room for so many steps; `fails` has the numbers of the calls that fail,
    /// from 1 on.
    pub fn reserve(alloc: Global, size: u32, room: u32, fails: Vec<u64>) -> Result<Self, AllocError>
        ensures bytes { IfOk result (λ f. f.bytes ≡ replicate size 0) }
        ensures log { IfOk result (λ f. f.log ≡ []) }
        ensures calls { IfOk result
            (λ f. f.calls ≡ record { room = room; taken = 0; fails = fails.items; made = 0 }) }
        ensures faults { IfOk result (λ f. f.faults ≡ 0) }
    {
        let bytes = vec![in alloc; 0u8; size as usize]?;
        let log = Vec::with_capacity(alloc, room as usize)?;
        Ok(MemFlash {
            bytes,
            log,
            room: room as usize,
            schedule: Schedule::new(fails),
        })
    }
}

impl Flash for MemFlash {
    ghost use Rattle.flash_session.specs.Flashes.{IsCounted};
    ghost use Rattle.flash_session.specs.Log.{seen_in};

    ghost seen = { λ f. seen_in f.log f.bytes f.faults };

    ghost tells = { λ old new. IsCounted old.calls new.calls };

    ghost small = { λ f. f.small };

    fn size(&self) -> u32 {
        self.bytes.len() as u32
    }

    fn read(&mut self, at: u32, buf: &mut [u8]) -> Result<(), Failed> {
        if self.schedule.fails_now(false) {
            return Err(Failed);
        }
        let at = at as usize;
        let len = buf.len();
        buf.copy_from_slice(&self.bytes[at..at + len]);
        Ok(())
    }

    fn write(&mut self, at: u32, piece: &[u8]) -> Result<(), Failed> {
        let full = self.room - self.log.len() < piece.len();
        if self.schedule.fails_now(full) {
            return Err(Failed);
        }
        put_all(&mut self.bytes, &mut self.log, at as usize, piece);
        Ok(())
    }

    fn fill(&mut self, at: u32, n: u32) -> Result<(), Failed> {
        let full = self.room - self.log.len() < n as usize;
        if self.schedule.fails_now(full) {
            return Err(Failed);
        }
        put_zeros(&mut self.bytes, &mut self.log, at as usize, n as usize);
        Ok(())
    }

    fn sync(&mut self) -> Result<(), Failed> {
        let full = self.room - self.log.len() < 1;
        if self.schedule.fails_now(full) {
            return Err(Failed);
        }
        note_sync(&mut self.log);
        Ok(())
    }
}
