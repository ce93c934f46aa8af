//! The files and the standard output of the system. Contracts don't know what they hold; each failed call is counted.

ghost use Rattle.std.specs.Prelude.{◌≡◌, ◌-◌, ◌^◌, ◌≤◌, Bool, false, None};
ghost use Rattle.fuota_run.specs.Outside.{HasRisen};

use crate::files::{Failed, Files};
use crate::sink::Sink;
use std::fs;
use std::io::Read;
use std::marker::Model;

/// How many calls failed; the count stops at the type's end.
#[derive(Drop)]
struct FaultCount {
    faults: u64,
}

impl FaultCount {
    fn raise(&mut self) -> Failed
        ensures risen { HasRisen self.old.faults self.new.faults }
        ensures kept { self.old.faults ≤ self.new.faults }
    {
        self.faults = self.faults.saturating_add(1);
        Failed
    }
}

/// The system's files. An absent file fails, and so does a folder.
#[derive(Drop)]
pub struct StdFiles<'a, R: std::rt::Files> {
    rt: &'a R,
    chosen: Option<R::File>,
    count: FaultCount,
}

impl<'a, R: std::rt::Files> Model for StdFiles<'a, R> {
    ghost use Rattle.std.specs.Prelude.{is_some};
    ghost use Rattle.fuota_run.specs.System.{SystemFiles};

    ghost Value = { SystemFiles };

    ghost view = { λ f. record { chosen = is_some f.chosen; faults = f.count.faults } };
}

impl<'a, R: std::rt::Files> StdFiles<'a, R> {
    /// Makes the files of the runtime, none of them chosen.
    pub fn new(rt: &'a R) -> Self
        ensures unchosen { result.chosen ≡ false }
        ensures start { result.faults ≡ 0 }
    {
        StdFiles {
            rt,
            chosen: None,
            count: FaultCount { faults: 0 },
        }
    }
}

impl<R: std::rt::Files> Files for StdFiles<'_, R> {
    ghost held = { λ f. None };

    ghost left = { λ f. None };

    ghost chosen = { λ f. f.chosen };

    ghost faults = { λ f. f.faults };

    fn choose(&mut self, name: &str) -> Result<(), Failed> {
        match fs::open(self.rt, name) {
            Ok(file) => {
                self.chosen = Some(file);
                Ok(())
            }
            Err(_) => {
                self.chosen = None;
                Err(self.count.raise())
            }
        }
    }

    fn read(&mut self, buf: &mut [u8]) -> Result<usize, Failed> {
        let Some(file) = &mut self.chosen else {
            unreachable!();
        };
        match file.read(buf) {
            Ok(taken) => Ok(taken),
            Err(_) => Err(self.count.raise()),
        }
    }
}

/// The standard output.
#[derive(Drop)]
pub struct StdSink<'a, P: Print> {
    to: &'a P,
    finished: bool,
    count: FaultCount,
}

impl<'a, P: Print> Model for StdSink<'a, P> {
    ghost use Rattle.fuota_run.specs.System.{SystemSink};

    ghost Value = { SystemSink };

    ghost view = { λ s. record { finished = s.finished; faults = s.count.faults } };
}

impl<'a, P: Print> StdSink<'a, P> {
    /// Makes the standard output of the runtime.
    pub fn new(to: &'a P) -> Self
        ensures unfinished { result.finished ≡ false }
        ensures start { result.faults ≡ 0 }
    {
        StdSink {
            to,
            finished: false,
            count: FaultCount { faults: 0 },
        }
    }
}

impl<P: Print> Sink for StdSink<'_, P> {
    ghost written = { λ s. None };

    ghost finished = { λ s. s.finished };

    ghost faults = { λ s. s.faults };

    // A write that took nothing of a piece counts as a fault.
    fn write(&mut self, piece: &[u8]) -> Result<usize, Failed> {
        self.finished = false;
        match self.to.write_some(piece) {
            Ok(taken) if taken > 0 || piece.is_empty() => Ok(taken),
            _ => Err(self.count.raise()),
        }
    }

    // Nothing is buffered here, so there is nothing to flush.
    fn finish(&mut self) -> Result<(), Failed> {
        self.finished = true;
        Ok(())
    }
}
