//! A flash that never fails; what a stop leaves of it is not said.

ghost use Rattle.std.specs.Prelude.{◌≡◌, ◌^◌, ◌<◌, length, IfOk, replicate};

use crate::flash::{Failed, Flash};
use std::alloc::{AllocError, Global};
use std::marker::Model;

/// Cells in memory. They never fail.
#[derive(Drop)]
pub struct CellFlash {
    cells: Vec<u8>,
    ghost small: { length cells.items < 2 ^ 32 },
}

impl Model for CellFlash {
    ghost use Rattle.flash_session.specs.Flashes.{Cells};

    ghost Value = { Cells };

    ghost view = { λ f. record { bytes = f.cells.items; small = f.small } };
}

impl CellFlash {
    /// Takes the memory of so many bytes, all 0.
    pub fn reserve(alloc: Global, size: u32) -> Result<Self, AllocError>
        ensures { IfOk result (λ f. f.bytes ≡ replicate size 0) }
    {
        let cells = vec![in alloc; 0u8; size as usize]?;
        Ok(CellFlash { cells })
    }

    /// Takes memory for these bytes, fewer than 2^32, and has them.
    pub fn of_bytes(alloc: Global, bytes: &[u8]) -> Result<Self, AllocError>
        requires { length bytes.now < 2 ^ 32 }
        ensures { IfOk result (λ f. f.bytes ≡ bytes.now) }
    {
        let cells = bytes.to_vec(alloc)?;
        Ok(CellFlash { cells })
    }

    /// Returns its bytes.
    pub fn bytes(&self) -> &[u8]
        ensures { result.now ≡ self.now.bytes }
    {
        self.cells.as_slice()
    }
}

impl Flash for CellFlash {
    ghost use Rattle.std.specs.Prelude.{◌≡◌, false};
    ghost use Rattle.flash_session.specs.Flashes.{cells_seen};

    ghost seen = { λ f. cells_seen f.bytes };

    ghost tells = { λ old new steps failed. failed ≡ false };

    ghost small = { λ f. f.small };

    fn size(&self) -> u32 {
        self.cells.len() as u32
    }

    fn read(&mut self, at: u32, buf: &mut [u8]) -> Result<(), Failed> {
        let at = at as usize;
        let len = buf.len();
        buf.copy_from_slice(&self.cells[at..at + len]);
        Ok(())
    }

    fn write(&mut self, at: u32, piece: &[u8]) -> Result<(), Failed> {
        let at = at as usize;
        self.cells[at..at + piece.len()].copy_from_slice(piece);
        Ok(())
    }

    fn fill(&mut self, at: u32, n: u32) -> Result<(), Failed> {
        let at = at as usize;
        self.cells[at..at + n as usize].fill(0);
        Ok(())
    }

    fn sync(&mut self) -> Result<(), Failed> {
        Ok(())
    }
}
