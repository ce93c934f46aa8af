//! A flash that is stopped after so many calls.

ghost use Rattle.std.specs.Prelude.{◌≡◌, ◌-◌, ◌≤◌, nat_lt};
ghost use Rattle.std.specs.Bool.{OnTrue, OnFalse};
ghost use Rattle.flash_session.specs.Contents.{HasRisen};

use crate::flash::{Failed, Flash};
use crate::memory::MemFlash;
use std::marker::Model;

/// Passes the first calls on, and then fails each: nothing reaches the flash inside from then on.
#[derive(Drop)]
pub struct StopFlash {
    flash: MemFlash,
    left: u64,
    failed: u64,
}

impl Model for StopFlash {
    ghost use Rattle.flash_session.specs.Flashes.{Stopping};

    ghost Value = { Stopping };

    ghost view = { λ s. record {
      flash = s.flash;
      left = s.left;
      failed = s.failed;
    } };
}

impl StopFlash {
    /// Makes a flash that passes the first `k` calls on, and fails each call after them.
    pub fn over(flash: MemFlash, k: u64) -> Self
        ensures { result ≡ record { flash = flash; left = k; failed = 0 } }
    {
        StopFlash {
            flash,
            left: k,
            failed: 0,
        }
    }

    /// Returns the flash inside.
    pub fn inner(self) -> MemFlash
        ensures { result ≡ self.flash }
    {
        self.flash
    }
}

/// Whether the next call still passes; counts a fault where it does not.
fn passes(left: &mut u64, failed: &mut u64) -> bool
    ensures last { result ≡ nat_lt 0 left.old }
    ensures left { left.new ≡ left.old - 1 }
    ensures risen { OnFalse result (HasRisen failed.old failed.new) }
    ensures kept { OnTrue result (failed.new ≡ failed.old) }
    ensures later { failed.old ≤ failed.new }
{
    if *left == 0 {
        *failed = failed.saturating_add(1);
        return false;
    }
    *left -= 1;
    true
}

impl Flash for StopFlash {
    ghost use Rattle.std.specs.Prelude.{◌+◌};
    ghost use Rattle.flash_session.specs.Flashes.{IsPassed};
    ghost use Rattle.flash_session.specs.Log.{seen_in};

    ghost seen = { λ s. seen_in s.flash.log s.flash.bytes (s.flash.faults + s.failed) };

    ghost tells = { IsPassed };

    ghost small = { λ s. s.flash.small };

    fn size(&self) -> u32 {
        self.flash.size()
    }

    fn read(&mut self, at: u32, buf: &mut [u8]) -> Result<(), Failed> {
        if !passes(&mut self.left, &mut self.failed) {
            return Err(Failed);
        }
        self.flash.read(at, buf)
    }

    fn write(&mut self, at: u32, piece: &[u8]) -> Result<(), Failed> {
        if !passes(&mut self.left, &mut self.failed) {
            return Err(Failed);
        }
        self.flash.write(at, piece)
    }

    fn fill(&mut self, at: u32, n: u32) -> Result<(), Failed> {
        if !passes(&mut self.left, &mut self.failed) {
            return Err(Failed);
        }
        self.flash.fill(at, n)
    }

    fn sync(&mut self) -> Result<(), Failed> {
        if !passes(&mut self.left, &mut self.failed) {
            return Err(Failed);
        }
        self.flash.sync()
    }
}
