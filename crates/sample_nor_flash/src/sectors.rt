//! Bytes of the part, inverted, by their places; a place outside of it fails.

ghost use Rattle.std.specs.Prelude.{◌≡◌, ℕ, ◌+◌, ◌*◌, ◌≤◌, List, length, OnOk, IfOk, IfSome};
ghost use Rattle.std.specs.Bool.{OnTrue};
ghost use Rattle.flash_session.specs.Contents.{SameOutside, Follows};
ghost use Rattle.sample_nor_flash.specs.Cells.{GivesTurned, PutTurned};

use crate::bytes::{PAGE, are_zeros, falls, turn, turn_into};
use crate::layout::SECTOR;
use crate::nor::Nor;
use flash_session::Failed;

/// Returns where the bytes of a sector begin.
pub fn start_of(sector: u32) -> u64
    ensures { result ≡ 4096 * sector }
{
    sector as u64 * SECTOR as u64
}

/// The place, if the part has so many bytes from there on.
fn inside<N: Nor>(part: &N, at: u64, len: usize) -> Option<u32>
    ensures { IfSome result (λ place. (place ≡ at) × (at + len ≤ N.room part.now)) }
{
    let size = part.size();
    if at > size as u64 || len as u64 > size as u64 - at {
        return None;
    }
    Some(at as u32)
}

/// Reads the bytes from a place on, inverted.
pub fn fetch<N: Nor>(part: &mut N, at: u64, buf: &mut [u8]) -> Result<(), Failed>
    ensures told { OnOk result (GivesTurned (N.holds part.new) at buf.new) }
    ensures stays { (c : List ℕ) → N.holds part.new c → N.holds part.old c }
{
    let Some(place) = inside(part, at, buf.len()) else {
        return Err(Failed);
    };
    part.read(place, buf)?;
    turn(buf);
    Ok(())
}

/// Writes a piece of at most 256 bytes, inverted, where no bit has to be set for it; else returns
/// false, and nothing is written.
pub fn lay<N: Nor>(part: &mut N, at: u64, piece: &[u8]) -> Result<bool, Failed>
    requires { length piece.now ≤ 256 }
    ensures laid { IfOk result (λ done. OnTrue done
        (Follows (PutTurned at piece.now) (N.holds part.old) (N.holds part.new))) }
    ensures outside { Follows (SameOutside at (length piece.now)) (N.holds part.old)
        (N.holds part.new) }
{
    let Some(place) = inside(part, at, piece.len()) else {
        return Err(Failed);
    };
    let mut old = [0; PAGE];
    let old = &mut old[..piece.len()];
    part.read(place, old)?;
    let mut new = [0; PAGE];
    let new = &mut new[..piece.len()];
    turn_into(new, piece);
    if !falls(old, new) {
        return Ok(false);
    }
    part.program(place, new)?;
    Ok(true)
}

/// Writes a piece where no bit can have to be set; it fails where one has to.
pub fn lay_fresh<N: Nor>(part: &mut N, at: u64, piece: &[u8]) -> Result<(), Failed>
    requires { length piece.now ≤ 256 }
    ensures { OnOk result
        (Follows (PutTurned at piece.now) (N.holds part.old) (N.holds part.new)) }
{
    if lay(part, at, piece)? {
        return Ok(());
    }
    Err(Failed)
}

/// Says whether a sector reads as erased.
pub fn is_blank<N: Nor>(part: &mut N, sector: u32) -> Result<bool, Failed>
    ensures { (c : List ℕ) → N.holds part.new c → N.holds part.old c }
{
    let mut page = [0; PAGE];
    for k in 0..16 {
        fetch(part, start_of(sector) + 256 * k, &mut page)?;
        if !are_zeros(&page) {
            return Ok(false);
        }
    }
    Ok(true)
}

/// Erases a sector, unless it reads as erased.
pub fn wipe<N: Nor>(part: &mut N, sector: u32) -> Result<(), Failed> {
    if is_blank(part, sector)? {
        return Ok(());
    }
    if inside(part, start_of(sector), SECTOR as usize).is_none() {
        return Err(Failed);
    }
    part.erase(sector)
}
