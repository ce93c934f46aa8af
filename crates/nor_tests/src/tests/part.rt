//! A part in memory, which can be stopped.

use flash_session::Failed;
use sample_nor_flash::Nor;
use std::alloc::{AllocError, Global};

/// The sectors of the part, those of two ranges.
const SECTORS: usize = 34;

/// What a stop leaves of the call that it comes in.
#[derive(Clone, Copy)]
pub enum Tear {
    /// It had not begun.
    Nothing,
    /// Any bits, drawn.
    Drawn,
    /// Bytes that read as open gates where an erase was stopped, and a program that had half of its
    /// bytes.
    Open,
    /// Bytes that read as open entries of the journal, for the first sector of records.
    Entry,
    /// All but its return.
    All,
}

/// A part of NOR flash. It counts the erases of each sector, and once its calls are spent it is
/// stopped.
#[derive(Drop)]
pub struct TestPart {
    pub bytes: Vec<u8>,
    pub erases: Vec<u32>,
    /// Programs and erases until the stop.
    pub left: u32,
    pub tear: Tear,
    /// The stop after that one.
    pub then: u32,
    pub then_tear: Tear,
    /// Programs and erases so far.
    pub calls: u32,
    pub stopped: bool,
    state: u32,
}

impl TestPart {
    /// A part that is erased.
    pub fn reserve(alloc: Global) -> Result<TestPart, AllocError> {
        let bytes = vec![in alloc; 0xffu8; SECTORS * 4096]?;
        let erases = vec![in alloc; 0u32; SECTORS]?;
        Ok(TestPart {
            bytes,
            erases,
            left: u32::MAX,
            tear: Tear::Nothing,
            then: u32::MAX,
            then_tear: Tear::Nothing,
            calls: 0,
            stopped: false,
            state: 1,
        })
    }

    /// A journal with one entry left.
    pub fn fill_journal(&mut self) {
        for i in 0..4092 {
            if let Some(byte) = self.bytes.get_mut(16 * 4096 + i) {
                *byte = match i % 4 {
                    0 => 0xfe,
                    1 => 0xff,
                    _ => 0x00,
                };
            }
        }
    }

    /// The power comes back.
    pub fn power(&mut self) {
        self.stopped = false;
        self.left = self.then;
        self.tear = self.then_tear;
        self.then = u32::MAX;
    }

    /// A drawn byte.
    fn drawn(&mut self) -> u8 {
        self.state = self
            .state
            .wrapping_mul(1_664_525)
            .wrapping_add(1_013_904_223);
        (self.state >> 24) as u8
    }

    /// Whether a call is whole. The one that is stopped is not, and none after it is begun.
    fn is_whole(&mut self) -> bool {
        self.calls = self.calls.saturating_add(1);
        if self.left == 0 {
            self.stopped = true;
            return false;
        }
        self.left -= 1;
        true
    }

    /// What one byte is after a program of it that is stopped.
    fn torn_byte(&mut self, old: u8, new: u8, is_front: bool) -> u8 {
        match self.tear {
            Tear::Nothing => old,
            Tear::Drawn => old & (new | self.drawn()),
            Tear::Open | Tear::Entry => { if is_front { old & new } else { old } }
            Tear::All => old & new,
        }
    }

    /// What one byte is after an erase that is stopped.
    fn torn_erased(&mut self, old: u8, i: usize) -> u8 {
        match self.tear {
            Tear::Nothing => old,
            Tear::Drawn => self.drawn(),
            Tear::Open => 0x5a,
            Tear::Entry => match i % 4 {
                0 => 0xf7,
                2 => 0x00,
                _ => 0xff,
            },
            Tear::All => 0xff,
        }
    }
}

impl Nor for TestPart {
    ghost holds = { λ part c. ⊥ };

    ghost room = { λ part. 139264 };

    fn size(&self) -> u32 {
        139_264
    }

    fn read(&mut self, at: u32, buf: &mut [u8]) -> Result<(), Failed> {
        if self.stopped {
            return Err(Failed);
        }
        for i in 0..buf.len() {
            if let Some(byte) = self.bytes.get(at as usize + i) {
                buf[i] = *byte;
            }
        }
        Ok(())
    }

    fn program(&mut self, at: u32, piece: &[u8]) -> Result<(), Failed> {
        if self.stopped {
            return Err(Failed);
        }
        if at as usize % 256 + piece.len() > 256 {
            return Err(Failed);
        }
        let whole = self.is_whole();
        for i in 0..piece.len() {
            let place = at as usize + i;
            let old = self.bytes.get(place).copied().unwrap_or(0);
            let new = if whole {
                old & piece[i]
            } else {
                self.torn_byte(old, piece[i], 2 * i < piece.len())
            };
            if let Some(byte) = self.bytes.get_mut(place) {
                *byte = new;
            }
        }
        if whole { Ok(()) } else { Err(Failed) }
    }

    fn erase(&mut self, sector: u32) -> Result<(), Failed> {
        if self.stopped {
            return Err(Failed);
        }
        let whole = self.is_whole();
        if let Some(count) = self.erases.get_mut(sector as usize) {
            *count = count.saturating_add(1);
        }
        for i in 0..4096 {
            let place = sector as usize * 4096 + i;
            let old = self.bytes.get(place).copied().unwrap_or(0);
            let new = if whole {
                0xff
            } else {
                self.torn_erased(old, i)
            };
            if let Some(byte) = self.bytes.get_mut(place) {
                *byte = new;
            }
        }
        if whole { Ok(()) } else { Err(Failed) }
    }
}
