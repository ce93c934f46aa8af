//! Files and a sink in memory, with a list of the calls that fail.

ghost use Rattle.std.specs.Prelude.{◌≡◌, ◌≢◌, ℕ, ◌+◌, ◌-◌, ◌^◌, ◌≤◌, ◌<◌, ◌↔◌, ◌⊎◌, min, Bool, true, false, List, [], ◌++◌, length, take, drop, map, Option, Some, None, is_some, is_ok, IsTrue, IsErr, IfOk, OnOk, OnErr, IfSome, IfNone, Contains, slice_get, string_bytes, vec_len, vec_capacity};
ghost use Rattle.std.specs.Bool.{OnTrue, OnFalse};
ghost use Rattle.std.specs.Io.KnownBytes.{Keeps, ReadConsumes, WriteAppends};
ghost use Rattle.fuota_run.specs.Outside.{HoldsName, IsWhole, HasRisen, AtMost, TakesSome};
ghost use Rattle.fuota_run.specs.Memory.{held_by, bytes_at, next_call, FilesCount, SinkCounts, IsFull};

use crate::files::{Failed, Files};
use crate::sink::Sink;
use std::alloc::{AllocError, Global};
use std::io::Read;
use std::marker::Model;

/// Calls counted from 1, and the numbers of those that fail.
#[derive(Drop)]
struct Schedule {
    fails: Vec<u64>,
    calls: u64,
    faults: u64,
}

impl Schedule {
    fn new(fails: Vec<u64>) -> Self
        ensures fails { result.fails.items ≡ fails.items }
        ensures start { (result.calls ≡ 0) × (result.faults ≡ 0) }
    {
        Schedule {
            fails,
            calls: 0,
            faults: 0,
        }
    }

    /// Counts a call, and says whether it fails, which is exactly where its number is listed.
    fn fails_now(&mut self) -> bool
        ensures listed { IsTrue result ↔ Contains self.old.fails.items (next_call self.old.calls) }
        ensures counted { self.new.calls ≡ next_call self.old.calls }
        ensures schedule { self.new.fails.items ≡ self.old.fails.items }
        ensures risen { OnTrue result (HasRisen self.old.faults self.new.faults) }
        ensures one { OnTrue result (self.new.faults ≡ next_call self.old.faults) }
        ensures same { OnFalse result (self.new.faults ≡ self.old.faults) }
        ensures kept { self.old.faults ≤ self.new.faults }
    {
        self.calls = self.calls.saturating_add(1);
        let fails = self.fails.contains(&self.calls);
        if fails {
            self.raise();
        }
        fails
    }

    /// Counts a fault.
    fn raise(&mut self)
        ensures risen { HasRisen self.old.faults self.new.faults }
        ensures one { self.new.faults ≡ next_call self.old.faults }
        ensures kept { self.old.faults ≤ self.new.faults }
        ensures calls { self.new.calls ≡ self.old.calls }
        ensures schedule { self.new.fails.items ≡ self.old.fails.items }
    {
        self.faults = self.faults.saturating_add(1);
    }
}

/// Files held in memory. A call fails exactly where its number is listed.
#[derive(Drop)]
pub struct MemFiles {
    files: Vec<(String, Vec<u8>)>,
    place: Option<usize>,
    from: usize,
    schedule: Schedule,
}

impl Model for MemFiles {
    ghost use Rattle.std.specs.Prelude.{drop, is_some, map, string_bytes};
    ghost use Rattle.fuota_run.specs.Memory.{SeenFiles, bytes_at};

    ghost Value = { SeenFiles };

    ghost view = { λ m. record {
      files = map (λ f. (string_bytes f.0, f.1.items)) m.files.items;
      chosen = is_some m.place;
      left = drop m.from (bytes_at (map (λ f. (string_bytes f.0, f.1.items)) m.files.items) m.place);
      fails = m.schedule.fails.items;
      calls = m.schedule.calls;
      faults = m.schedule.faults;
    } };
}

/// The place of the first file of that name.
pub(crate) fn place_of(files: &[(String, Vec<u8>)], name: &str) -> Option<usize>
    ensures found { IfSome result
        (λ i. held_by (map (λ f. (string_bytes f.0, f.1.items)) files.now) name.now
        ≡ Some (bytes_at (map (λ f. (string_bytes f.0, f.1.items)) files.now) (Some i))) }
    ensures none { IfNone result
        (held_by (map (λ f. (string_bytes f.0, f.1.items)) files.now) name.now ≡ None) }
{
    for (i, file) in files.iter().enumerate() {
        if file.0.as_str() == name {
            return Some(i);
        }
    }
    None
}

/// Reads on after the first bytes, and returns how many were read.
pub(crate) fn read_from(bytes: &[u8], from: usize, buf: &mut [u8]) -> usize
    ensures count { result ≡ min (length bytes.now - from) (length buf.new) }
    ensures within { result ≤ length buf.new }
    ensures taken { drop from bytes.now ≡ take result buf.new ++ drop (from + result) bytes.now }
    ensures end { result ≡ 0 → 0 < length buf.new → drop (from + result) bytes.now ≡ [] }
    ensures fits { from + result < 2 ^ 64 }
{
    if from >= bytes.len() {
        return 0;
    }
    let mut left = &bytes[from..];
    left.read(buf).unwrap()
}

/// The bytes of the file at a place.
pub(crate) fn bytes_in(files: &[(String, Vec<u8>)], place: Option<usize>) -> &[u8]
    ensures { result.now ≡ bytes_at (map (λ f. (string_bytes f.0, f.1.items)) files.now) place }
{
    match place {
        Some(i) if i < files.len() => files[i].1.as_slice(),
        _ => &[],
    }
}

impl MemFiles {
    /// Makes files by name, with the numbers of the calls that fail, counted from 1. Where two names are equal, the first is the
    /// file of that name.
    pub fn new(files: Vec<(String, Vec<u8>)>, fails: Vec<u64>) -> Self
        ensures files { result.files ≡ map (λ f. (string_bytes f.0, f.1.items)) files.items }
        ensures unchosen { (result.chosen ≡ false) × (result.left ≡ []) }
        ensures fails { result.fails ≡ fails.items }
        ensures start { (result.calls ≡ 0) × (result.faults ≡ 0) }
    {
        MemFiles {
            files,
            place: None,
            from: 0,
            schedule: Schedule::new(fails),
        }
    }

    /// Says whether there is a file of that name.
    pub fn holds(&self, name: &str) -> bool
        ensures { result ≡ is_some (held_by self.now.files name.now) }
    {
        place_of(&self.files, name).is_some()
    }
}

impl Files for MemFiles {
    ghost held = { λ m. Some (held_by m.files) };

    ghost left = { λ m. Some m.left };

    ghost chosen = { λ m. m.chosen };

    ghost faults = { λ m. m.faults };

    fn choose(&mut self, name: &str) -> Result<(), Failed>
        requires { HoldsName (Some (held_by self.old.files)) name.now }
        ensures whole { OnOk result
            (IsWhole (Some (held_by self.old.files)) name.now (Some self.new.left)) }
        ensures chosen { self.new.chosen ≡ is_ok result }
        ensures held { self.new.files ≡ self.old.files }
        ensures call { FilesCount self.old self.new result }
        ensures listed { IsErr result ↔ Contains self.old.fails (next_call self.old.calls) }
    {
        self.place = None;
        if self.schedule.fails_now() {
            return Err(Failed);
        }
        self.place = place_of(&self.files, name);
        self.from = 0;
        Ok(())
    }

    fn read(&mut self, buf: &mut [u8]) -> Result<usize, Failed>
        requires { self.old.chosen ≡ true }
        ensures within { AtMost result (length buf.new) }
        // As many as there are and the buffer takes.
        ensures most { IfOk result (λ n. n ≡ min (length self.old.left) (length buf.new)) }
        ensures bytes { ReadConsumes (Some self.old.left) (Some self.new.left) result buf.new }
        ensures chosen { self.new.chosen ≡ true }
        ensures held { self.new.files ≡ self.old.files }
        ensures call { FilesCount self.old self.new result }
        ensures listed { IsErr result ↔ Contains self.old.fails (next_call self.old.calls) }
    {
        if self.schedule.fails_now() {
            return Err(Failed);
        }
        let taken = read_from(bytes_in(&self.files, self.place), self.from, buf);
        self.from += taken;
        Ok(taken)
    }
}

/// A sink in memory, with room for so many bytes. A call fails exactly where its number is listed, and a `write` of a piece that
/// is not empty also where no room is left.
#[derive(Drop)]
pub struct MemSink {
    bytes: Vec<u8>,
    room: usize,
    finished: bool,
    schedule: Schedule,
}

impl Model for MemSink {
    ghost use Rattle.std.specs.Prelude.{◌≤◌, vec_len, vec_capacity};
    ghost use Rattle.fuota_run.specs.Memory.{SeenSink};

    ghost Value = { SeenSink };

    ghost view = { λ m. record {
      bytes = m.bytes.items;
      room = m.room;
      finished = m.finished;
      fails = m.schedule.fails.items;
      calls = m.schedule.calls;
      faults = m.schedule.faults;
    } };

    ghost invariant = { λ m. (m.room ≤ vec_capacity m.bytes) × (vec_len m.bytes ≤ m.room) };
}

impl MemSink {
    /// Takes the memory of a sink with room for so many bytes; `fails` has the numbers of the calls that fail, counted from 1.
    pub fn reserve(alloc: Global, room: u32, fails: Vec<u64>) -> Result<Self, AllocError>
        ensures empty { IfOk result (λ s. s.bytes ≡ []) }
        ensures unfinished { IfOk result (λ s. s.finished ≡ false) }
        ensures room { IfOk result (λ s. s.room ≡ room) }
        ensures fails { IfOk result (λ s. s.fails ≡ fails.items) }
        ensures start { IfOk result (λ s. (s.calls ≡ 0) × (s.faults ≡ 0)) }
    {
        let bytes = Vec::with_capacity(alloc, room as usize)?;
        Ok(MemSink {
            bytes,
            room: room as usize,
            finished: false,
            schedule: Schedule::new(fails),
        })
    }

    /// Returns all bytes that were written.
    pub fn bytes(&self) -> &[u8]
        ensures all { result.now ≡ self.now.bytes }
        ensures within { length result.now ≤ self.now.room }
    {
        self.bytes.as_slice()
    }
}

impl Sink for MemSink {
    ghost written = { λ m. Some m.bytes };

    ghost finished = { λ m. m.finished };

    ghost faults = { λ m. m.faults };

    fn write(&mut self, piece: &[u8]) -> Result<usize, Failed>
        ensures takes { TakesSome result (length piece.now) }
        ensures bytes { WriteAppends (Some self.old.bytes) (Some self.new.bytes) result piece.now }
        ensures unfinished { self.new.finished ≡ false }
        ensures call { SinkCounts self.old self.new result }
        ensures listed { IsErr result ↔ Contains self.old.fails (next_call self.old.calls)
            ⊎ IsFull self.old.room (length self.old.bytes) (length piece.now) }
        ensures taken { IfOk result
            (λ n. n ≡ min (self.old.room - length self.old.bytes) (length piece.now)) }
        ensures room { self.new.room ≡ self.old.room }
    {
        self.finished = false;
        if self.schedule.fails_now() {
            return Err(Failed);
        }
        let free = self.room - self.bytes.len();
        let taken = free.min(piece.len());
        if taken == 0 && !piece.is_empty() {
            self.schedule.raise();
            return Err(Failed);
        }
        self.bytes.extend_from_slice(&piece[..taken]).unwrap();
        Ok(taken)
    }

    fn finish(&mut self) -> Result<(), Failed>
        ensures bytes { Keeps (Some self.old.bytes) (Some self.new.bytes) }
        ensures finished { self.new.finished ≡ is_ok result }
        ensures call { SinkCounts self.old self.new result }
        ensures listed { IsErr result ↔ Contains self.old.fails (next_call self.old.calls) }
        ensures room { self.new.room ≡ self.old.room }
    {
        self.finished = false;
        if self.schedule.fails_now() {
            return Err(Failed);
        }
        self.finished = true;
        Ok(())
    }
}
