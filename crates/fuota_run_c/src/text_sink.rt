//! A text as it is written, in memory.

ghost use Rattle.std.specs.Prelude.{◌≡◌, [], Some};

use fuota_run::{Failed, Sink};
use std::alloc::Global;
use std::marker::Model;

/// All bytes that were written. A call fails only where memory is missing.
#[derive(Drop)]
pub struct TextSink {
    bytes: Vec<u8>,
    is_finished: bool,
    faults: u64,
}

impl Model for TextSink {
    ghost use Rattle.fuota_run_c.specs.Seen.{SeenText};

    ghost Value = { SeenText };

    ghost view = { λ t. record {
      bytes = t.bytes.items;
      finished = t.is_finished;
      faults = t.faults;
    } };
}

impl TextSink {
    /// Makes a sink to which nothing was written.
    pub fn new(alloc: Global) -> Self
        ensures empty { result.bytes ≡ [] }
        ensures start { result.faults ≡ 0 }
    {
        TextSink {
            bytes: Vec::new(alloc),
            is_finished: false,
            faults: 0,
        }
    }

    /// Returns all that was written.
    pub fn into_bytes(self) -> Vec<u8>
        ensures { result.items ≡ self.bytes }
    {
        self.bytes
    }
}

impl Sink for TextSink {
    ghost written = { λ t. Some t.bytes };

    ghost finished = { λ t. t.finished };

    ghost faults = { λ t. t.faults };

    fn write(&mut self, piece: &[u8]) -> Result<usize, Failed> {
        self.is_finished = false;
        match self.bytes.extend_from_slice(piece) {
            Ok(()) => Ok(piece.len()),
            Err(_) => {
                self.faults = self.faults.saturating_add(1);
                Err(Failed)
            }
        }
    }

    fn finish(&mut self) -> Result<(), Failed> {
        self.is_finished = true;
        Ok(())
    }
}
