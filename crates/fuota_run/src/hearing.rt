//! A source that is heard line by line while it is read in pieces.

ghost use Rattle.std.specs.Prelude.{◌≡◌, ◌≢◌, ℕ, ◌+◌, ◌<◌, ◌≤◌, ◌^◌, true, List, length, Err, IfOk, OnOk, OnErr, IsErrOf};
ghost use Rattle.std.specs.Io.KnownBytes.{IsAtEnd};
ghost use Rattle.script_lines.specs.Hearing.{HearsLines};
ghost use Rattle.fuota_run.specs.Outside.{HoldsName, HasRisen, IsReadSoFar};
ghost use Rattle.fuota_run.specs.HeldReading.{HearsPiece, ReadsSource};
ghost use Rattle.fuota_run.specs.Source.{IsSource};
ghost use Rattle.fuota_run.specs.Hearing.{HearsOn};

use crate::files::{Failed, Files};
use crate::source::{PIECE, SourceError};
use script_lines::{HearsLine, Lines, hear_last, hear_piece};

/// Reads a file to its end, or to one byte more than the limit, and gives its lines to the hearer.
pub fn hear_source<F: Files, W: HearsLine>(
    files: &mut F,
    name: &str,
    limit: u32,
    hearer: &mut W,
) -> Result<(), SourceError>
    requires held { HoldsName (F.held files.old) name.now }
    requires limit { limit + 1 < 2 ^ 32 }
    ensures reads { ReadsSource (λ done. (bytes : List ℕ)
        × IsSource (F.held files.old) name.now limit bytes × (length bytes ≤ limit)
        × HearsLines W.hears hearer.old hearer.new bytes)
        (F.held files.old) (F.held files.new) (F.faults files.old) (F.faults files.new)
        (F.left files.new) name.now limit result }
    ensures no_memory { result ≢ Err SourceError.Memory }
{
    if files.choose(name).is_err() {
        return Err(SourceError::Failed);
    }
    let mut lines = Lines::new();
    let mut piece = [0; PIECE];
    let most = limit as usize + 1;
    let mut taken = 0;
    while taken < most {
        let room = PIECE.min(most - taken);
        match hear_some(files, &mut piece[..room], &mut lines, hearer) {
            Err(_) => return Err(SourceError::Failed),
            Ok(0) => {
                hear_last(&mut lines, hearer);
                return Ok(());
            }
            Ok(count) => taken += count,
        }
    }
    Err(SourceError::TooLong(limit + 1))
}

/// Reads a piece, and gives the lines that end in it to the hearer.
fn hear_some<F: Files, W: HearsLine>(
    files: &mut F,
    piece: &mut [u8],
    lines: &mut Lines,
    hearer: &mut W,
) -> Result<usize, Failed>
    requires room { 0 < length piece.old }
    requires chosen { F.chosen files.old ≡ true }
    ensures { HearsPiece (λ n. HearsOn W.hears (F.left files.old) (F.left files.new)
        lines.old lines.new hearer.old hearer.new n) (length piece.old) (F.chosen files.new)
        (F.held files.old) (F.held files.new) (F.faults files.old) (F.faults files.new)
        (F.left files.new) result }
{
    match files.read(piece) {
        Err(failed) => Err(failed),
        Ok(count) => {
            hear_piece(lines, &piece[..count], hearer);
            Ok(count)
        }
    }
}
