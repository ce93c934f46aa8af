//! Flashes that follow the formats by the letter over a part that erases whole sectors, with their
//! bytes turned or not. They keep a sector in memory while it is erased.

ghost use Rattle.std.specs.Prelude.{◌≡◌, length};

use flash_session::{Failed, Flash};
use std::alloc::{AllocError, Global};

/// A range from the start of a sector, or 64 bytes before one.
#[derive(Drop)]
pub struct Letter {
    bytes: Vec<u8>,
    pub erases: Vec<u32>,
    first: usize,
    is_turned: bool,
}

/// Bytes of the range.
const SIZE: u32 = 54_394;

impl Letter {
    pub fn reserve(alloc: Global, first: usize, is_turned: bool) -> Result<Letter, AllocError> {
        let bytes = vec![in alloc; 0xffu8; 16 * 4096]?;
        let erases = vec![in alloc; 0u32; 16]?;
        Ok(Letter {
            bytes,
            erases,
            first,
            is_turned,
        })
    }

    fn turned(&self, byte: u8) -> u8 {
        if self.is_turned { !byte } else { byte }
    }

    /// Writes a stretch, each byte as `byte_of` says. A sector in which a bit has to be set is
    /// erased once.
    fn put(&mut self, at: usize, piece: Option<&[u8]>, len: usize) {
        let from = self.first.saturating_add(at);
        let mut erased = usize::MAX;
        for i in 0..len {
            let byte = piece.and_then(|piece| piece.get(i).copied()).unwrap_or(0);
            let new = self.turned(byte);
            let place = from.saturating_add(i);
            let sector = place / 4096;
            if let Some(old) = self.bytes.get_mut(place) {
                if *old & new != new && erased != sector {
                    erased = sector;
                    if let Some(count) = self.erases.get_mut(sector) {
                        *count = count.saturating_add(1);
                    }
                }
                *old = new;
            }
        }
    }
}

impl Flash for Letter {
    ghost use Rattle.std.proofs.Common.{arith};

    ghost seen = { λ part. record {
      holds = λ c. ⊥;
      since = λ t c. ⊥;
      moment = 0;
      faults = 0;
      room = 54394;
    } };

    ghost tells = { λ old new steps failed. Unit {0} };

    ghost small = { λ part. omega arith };

    fn size(&self) -> u32 {
        SIZE
    }

    fn read(&mut self, at: u32, buf: &mut [u8]) -> Result<(), Failed> {
        for i in 0..buf.len() {
            let place = self.first.saturating_add(at as usize).saturating_add(i);
            if let Some(byte) = self.bytes.get(place) {
                buf[i] = self.turned(*byte);
            }
        }
        Ok(())
    }

    fn write(&mut self, at: u32, piece: &[u8]) -> Result<(), Failed> {
        self.put(at as usize, Some(piece), piece.len());
        Ok(())
    }

    fn fill(&mut self, at: u32, n: u32) -> Result<(), Failed> {
        self.put(at as usize, None, n as usize);
        Ok(())
    }

    fn sync(&mut self) -> Result<(), Failed> {
        Ok(())
    }
}
