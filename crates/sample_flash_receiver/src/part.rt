//! The maker's own flash.

ghost use Rattle.std.specs.Prelude.{◌≡◌};
ghost use Rattle.flash_session.specs.Contents.{HasCause};
ghost use Rattle.sample_flash_receiver.specs.HeldReceiver.{span};

use crate::SPAN;
use flash_session::{Failed, Flash};

// sample
/// What the maker's own code does with the part; false where it failed. Places are below `SPAN`.
pub trait Driver {
    /// Fills the buffer with the bytes from this place on.
    fn read(&mut self, at: u32, buf: &mut [u8]) -> bool;
    /// Makes these bytes stand there, however the part was before: what has to be erased for that is erased here.
    fn write(&mut self, at: u32, piece: &[u8]) -> bool;
    /// Makes so many zeros stand there.
    fn clear(&mut self, at: u32, n: u32) -> bool;
    /// Returns once all that was written outlasts a stop.
    fn settle(&mut self) -> bool;
}

/// The part, and how often it failed. It tells a proof nothing of its bytes: that they are what was written is the maker's word.
#[derive(Drop)]
pub struct Part<D: Driver + Drop> {
    pub driver: D,
    pub failed: u64,
}

impl<D: Driver + Drop> Flash for Part<D> {
    ghost use Rattle.std.proofs.Common.{arith};

    ghost seen = { λ part. record {
      holds = λ c. ⊥;
      since = λ t c. ⊥;
      moment = 0;
      faults = part.failed;
      room = span;
    } };

    ghost tells = { λ old new steps failed. Unit {0} };

    ghost small = { λ part. omega arith };

    fn size(&self) -> u32 {
        SPAN
    }

    fn read(&mut self, at: u32, buf: &mut [u8]) -> Result<(), Failed> {
        let done = self.driver.read(at, buf);
        counted(done, &mut self.failed)
    }

    fn write(&mut self, at: u32, piece: &[u8]) -> Result<(), Failed> {
        let done = self.driver.write(at, piece);
        counted(done, &mut self.failed)
    }

    fn fill(&mut self, at: u32, n: u32) -> Result<(), Failed> {
        let done = self.driver.clear(at, n);
        counted(done, &mut self.failed)
    }

    fn sync(&mut self) -> Result<(), Failed> {
        let done = self.driver.settle();
        counted(done, &mut self.failed)
    }
}

/// A failure is counted.
fn counted(done: bool, failed: &mut u64) -> Result<(), Failed>
    ensures { HasCause failed.old failed.new result }
{
    if done {
        return Ok(());
    }
    *failed = failed.saturating_add(1);
    Err(Failed)
}
// end of sample
