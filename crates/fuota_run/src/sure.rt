//! Files in memory and a sink that never fail, and the whole program over them.

ghost use Rattle.std.specs.Prelude.{◌≡◌, false, [], map, None, Some, string_bytes};
ghost use Rattle.fuota_run.specs.Memory.{held_by};
ghost use Rattle.fuota_run.specs.Ending.{HoldsForm, IsSure};

use crate::files::{Failed, Files};
use crate::memory::{bytes_in, place_of, read_from};
use crate::running::run;
use crate::sink::Sink;
use crate::status::Status;
use std::alloc::Global;
use std::marker::Model;

/// Files held in memory; their calls never fail.
#[derive(Drop)]
pub struct SureFiles {
    files: Vec<(String, Vec<u8>)>,
    place: Option<usize>,
    from: usize,
}

impl Model for SureFiles {
    ghost use Rattle.std.specs.Prelude.{drop, is_some, map, string_bytes};
    ghost use Rattle.fuota_run.specs.Memory.{bytes_at};
    ghost use Rattle.fuota_run.specs.Sure.{HeldFiles};

    ghost Value = { HeldFiles };

    ghost view = { λ s. record {
      files = map (λ f. (string_bytes f.0, f.1.items)) s.files.items;
      chosen = is_some s.place;
      left = drop s.from (bytes_at (map (λ f. (string_bytes f.0, f.1.items)) s.files.items) s.place);
    } };
}

impl SureFiles {
    /// Makes files by name, none of them chosen. Where two names are equal, the first is the file of that name.
    pub fn new(files: Vec<(String, Vec<u8>)>) -> Self
        ensures files { result.files ≡ map (λ f. (string_bytes f.0, f.1.items)) files.items }
        ensures unchosen { result.chosen ≡ false }
        ensures left { result.left ≡ [] }
    {
        SureFiles {
            files,
            place: None,
            from: 0,
        }
    }
}

impl Files for SureFiles {
    ghost held = { λ s. Some (held_by s.files) };

    ghost left = { λ s. Some s.left };

    ghost chosen = { λ s. s.chosen };

    ghost faults = { λ s. 0 };

    fn choose(&mut self, name: &str) -> Result<(), Failed> {
        self.place = place_of(&self.files, name);
        self.from = 0;
        Ok(())
    }

    fn read(&mut self, buf: &mut [u8]) -> Result<usize, Failed> {
        let taken = read_from(bytes_in(&self.files, self.place), self.from, buf);
        self.from += taken;
        Ok(taken)
    }
}

/// A sink that takes all bytes and keeps none; its calls never fail. Contracts see whether it is finished.
#[derive(Debug, Drop)]
pub struct SureSink {
    finished: bool,
}

impl Model for SureSink {
    ghost use Rattle.std.specs.Prelude.{Bool};

    ghost Value = { Bool };

    ghost view = { λ s. s.finished };
}

impl SureSink {
    /// Makes a sink to which nothing was written.
    pub fn new() -> Self
        ensures { result ≡ false }
    {
        SureSink { finished: false }
    }
}

impl Sink for SureSink {
    ghost written = { λ s. None };

    ghost finished = { λ s. s };

    ghost faults = { λ s. 0 };

    fn write(&mut self, piece: &[u8]) -> Result<usize, Failed> {
        self.finished = false;
        Ok(piece.len())
    }

    fn finish(&mut self) -> Result<(), Failed> {
        self.finished = true;
        Ok(())
    }
}

/// Runs the program where neither files nor sink can fail. It ends as its words and files say, unless memory was missing: a fault
/// of reading or writing is never answered.
pub fn run_surely(
    alloc: Global,
    words: &[String],
    files: &mut SureFiles,
    out: &mut SureSink,
) -> Status
    requires { HoldsForm (Some (held_by files.old.files)) (map string_bytes words.now) }
    ensures { IsSure (held_by files.old.files) (map string_bytes words.now) result }
{
    run(alloc, words, files, out)
}
