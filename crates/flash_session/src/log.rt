//! What was done to a flash in memory, step by step.

ghost use Rattle.std.specs.Prelude.{◌≡◌, ℕ, ◌+◌, ◌^◌, ◌<◌, ◌≤◌, List, [], ◌∷◌, ◌++◌, length, get_or, replicate};
ghost use Rattle.std.specs.Prelude.{slice_set, vec_len, vec_capacity};
ghost use Rattle.flash_session.specs.Contents.{SameOutside, Same, Put};
ghost use Rattle.flash_session.specs.Moments.{Elapses};
ghost use Rattle.flash_session.specs.Log.{LeftSince, seen_in};
ghost use Rattle.flash_session.specs.HeldLog.{HasTaken};

/// One step: the byte at this place, which had this value, was overwritten; or all that was written was synced.
#[derive(Clone, Copy)]
pub enum Step {
    Was(u32, u8),
    Synced,
}

/// Notes a step, for which there is room.
fn note(log: &mut Vec<Step>, step: Step)
    requires { vec_len log.old < vec_capacity log.old }
    ensures log { log.new.items ≡ log.old.items ++ step ∷ [] }
    ensures takes { HasTaken 1 log.old log.new }
{
    log.push(step).unwrap();
}

/// Writes one byte.
fn put(bytes: &mut [u8], log: &mut Vec<Step>, at: usize, byte: u8)
    requires within { at < length bytes.old }
    requires small { length bytes.old < 2 ^ 32 }
    requires room { vec_len log.old < vec_capacity log.old }
    ensures bytes { bytes.new ≡ slice_set bytes.old at byte }
    ensures log { log.new.items ≡ log.old.items ++ Step.Was at (get_or bytes.old at 0) ∷ [] }
    ensures takes { HasTaken 1 log.old log.new }
{
    note(log, Step::Was(at as u32, bytes[at]));
    bytes[at] = byte;
}

/// Writes a piece, byte by byte.
pub fn put_all(bytes: &mut [u8], log: &mut Vec<Step>, at: usize, piece: &[u8])
    requires within { at + length piece.now ≤ length bytes.old }
    requires small { length bytes.old < 2 ^ 32 }
    requires room { vec_len log.old + length piece.now ≤ vec_capacity log.old }
    ensures put { Put at piece.now bytes.old bytes.new }
    ensures stops { Elapses (SameOutside at (length piece.now)) (seen_in log.old.items bytes.old 0)
        (seen_in log.new.items bytes.new 0) }
    ensures takes { HasTaken (length piece.now) log.old log.new }
{
    for i in 0..piece.len() {
        put(bytes, log, at + i, piece[i]);
    }
}

/// Writes zeros, byte by byte.
pub fn put_zeros(bytes: &mut [u8], log: &mut Vec<Step>, at: usize, n: usize)
    requires within { at + n ≤ length bytes.old }
    requires small { length bytes.old < 2 ^ 32 }
    requires room { vec_len log.old + n ≤ vec_capacity log.old }
    ensures put { Put at (replicate n 0) bytes.old bytes.new }
    ensures stops { Elapses (SameOutside at n) (seen_in log.old.items bytes.old 0)
        (seen_in log.new.items bytes.new 0) }
    ensures takes { HasTaken n log.old log.new }
{
    for i in 0..n {
        put(bytes, log, at + i, 0);
    }
}

/// Notes a sync, whatever the bytes are.
pub fn note_sync(log: &mut Vec<Step>)
    requires room { vec_len log.old < vec_capacity log.old }
    ensures kept { (bytes c : List ℕ) → LeftSince log.new.items bytes (length log.new.items) c
        → Same bytes c }
    ensures stops { (bytes : List ℕ) → Elapses Same (seen_in log.old.items bytes 0)
        (seen_in log.new.items bytes 0) }
    ensures takes { HasTaken 1 log.old log.new }
{
    note(log, Step::Synced);
}
