//! Reading a whole source, up to a limit.

ghost use Rattle.std.specs.Prelude.{◌≡◌, ◌≢◌, ℕ, ◌+◌, ◌<◌, ◌≤◌, ◌^◌, true, List, length, vec_len, Err, IfOk, OnOk, IsErrOf};
ghost use Rattle.std.specs.Io.KnownBytes.{IsAtEnd};
ghost use Rattle.fuota_run.specs.Outside.{HoldsName, HasRisen, IsReadSoFar};
ghost use Rattle.fuota_run.specs.HeldReading.{ReadsPiece, ReadsSource};
ghost use Rattle.fuota_run.specs.Source.{IsSource};

use crate::files::Files;
use std::alloc::{AllocError, Global};
use thiserror::Error;

/// The most bytes of a script, and of a file of payloads.
pub const SCRIPT_LIMIT: u32 = 1_048_576;

/// How many bytes one read asks for.
pub const PIECE: usize = 4096;

/// Why a source was not read.
#[derive(Clone, Copy, Debug, PartialEq, Eq, Error)]
pub enum SourceError {
    /// There was not enough memory.
    #[error("out of memory")]
    Memory,
    /// A call of the files failed.
    #[error("a call of the files failed")]
    Failed,
    /// It is longer than the limit: so many bytes, one more than the limit, were taken.
    #[error("the source is longer than its limit")]
    TooLong(u32),
}

/// Reads all bytes of a file, to its end, or to one byte more than the limit.
pub fn read_source<F: Files>(
    alloc: Global,
    files: &mut F,
    name: &str,
    limit: u32,
) -> Result<Vec<u8>, SourceError>
    requires held { HoldsName (F.held files.old) name.now }
    requires limit { limit + 1 < 2 ^ 32 }
    ensures { ReadsSource (λ bytes. IsSource (F.held files.old) name.now limit bytes.items
        × (length bytes.items ≤ limit))
        (F.held files.old) (F.held files.new) (F.faults files.old) (F.faults files.new)
        (F.left files.new) name.now limit result }
{
    if files.choose(name).is_err() {
        return Err(SourceError::Failed);
    }
    let mut bytes = Vec::new(alloc);
    let most = limit as usize + 1;
    while bytes.len() < most {
        match read_piece(files, &mut bytes, most) {
            Ok(0) => return Ok(bytes),
            Ok(_) => {}
            Err(error) => return Err(error),
        }
    }
    Err(SourceError::TooLong(limit + 1))
}

/// Reads one piece more, and returns how long it is.
fn read_piece<F: Files>(
    files: &mut F,
    bytes: &mut Vec<u8>,
    most: usize,
) -> Result<usize, SourceError>
    requires chosen { F.chosen files.old ≡ true }
    requires room { vec_len bytes.old < most }
    ensures so_far { OnOk result
        ((name : List ℕ) → IsReadSoFar (F.held files.old) name bytes.old.items (F.left files.old)
        → IsReadSoFar (F.held files.old) name bytes.new.items (F.left files.new)) }
    ensures reads { ReadsPiece (vec_len bytes.old) (vec_len bytes.new) most (F.chosen files.new)
        (F.held files.old) (F.held files.new) (F.faults files.old) (F.faults files.new)
        (F.left files.new) result }
{
    let mut piece = [0; PIECE];
    let room = PIECE.min(most - bytes.len());
    let Ok(taken) = files.read(&mut piece[..room]) else {
        return Err(SourceError::Failed);
    };
    match bytes.extend_from_slice(&piece[..taken]) {
        Ok(()) => Ok(taken),
        Err(_) => Err(SourceError::Memory),
    }
}
