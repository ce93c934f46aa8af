//! A sector is rewritten by way of a copy in the spare one. The journal has an entry of four bytes
//! for each time: two for the sector's number in the range, from 1 on, the lowest byte first; a
//! mark that is not 0 once the copy is complete and counts; and one that is not 0 once the sector
//! has it.

ghost use Rattle.std.specs.Prelude.{◌+◌, ◌^◌, ◌<◌, OnOk, IfOk};
ghost use Rattle.std.specs.Bool.{OnTrue};
ghost use Rattle.sample_nor_flash.specs.Cells.{IsSet};

use crate::area::Area;
use crate::bytes::{PAGE, are_zeros};
use crate::layout::SECTOR;
use crate::nor::Nor;
use crate::sectors::{fetch, is_blank, lay_fresh, start_of, wipe};
use flash_session::Failed;

/// How many entries it has.
const ENTRIES: u32 = SECTOR / 4;

/// A mark that is set, and the label of a header's sector that was rewritten: a copy is never
/// blank.
const SET: u8 = 0xff;

/// Sectors that an entry has numbers for.
pub const MOST: u32 = 65_535;

/// What the journal says.
#[derive(Clone, Copy)]
struct Found {
    /// The number of the next entry; `ENTRIES` where none is left.
    next: u32,
    /// The sector whose copy counts, of the entry before that; 0 where none does.
    open: u16,
}

/// Reads the journal.
fn look<N: Nor>(part: &mut N, area: Area) -> Result<Found, Failed> {
    let mut found = Found { next: 0, open: 0 };
    let mut page = [0; PAGE];
    for k in 0..16 {
        fetch(part, start_of(area.journal()) + 256 * k as u64, &mut page)?;
        for e in 0..64 {
            let entry = &page[4 * e..4 * e + 4];
            if !are_zeros(entry) {
                let counts = entry[2] != 0 && entry[3] == 0;
                let number = entry[0] as u16 + 256 * entry[1] as u16;
                found = Found {
                    next: 64 * k + e as u32 + 1,
                    open: if counts { number } else { 0 },
                };
            }
        }
    }
    Ok(found)
}

/// Where an entry begins.
fn entry_at(area: Area, entry: u32) -> u64
    ensures { result < 2 ^ 48 }
{
    start_of(area.journal()) + 4 * entry as u64
}

/// Whether a mark is set.
fn is_set<N: Nor>(part: &mut N, mark: u64) -> Result<bool, Failed>
    ensures { IfOk result (λ set. OnTrue set (IsSet (N.holds part.new) mark)) }
{
    let mut byte = [0];
    fetch(part, mark, &mut byte)?;
    if byte[0] == 0 {
        return Ok(false);
    }
    Ok(true)
}

/// Copies a sector to one that is erased, with the piece over it.
fn copy<N: Nor>(part: &mut N, from: u32, to: u32, offset: u64, piece: &[u8]) -> Result<(), Failed> {
    let mut page = [0; PAGE];
    for k in 0..16 {
        fetch(part, start_of(from) + 256 * k, &mut page)?;
        for i in 0..PAGE {
            let place = 256 * k + i as u64;
            if offset <= place {
                if let Some(byte) = piece.get((place - offset) as usize) {
                    page[i] = *byte;
                }
            }
        }
        if !are_zeros(&page) {
            lay_fresh(part, start_of(to) + 256 * k, &page)?;
        }
    }
    Ok(())
}

/// Copies a copy back into its sector, where its entry says that it counts, and closes the entry.
fn restore<N: Nor>(part: &mut N, area: Area, k: u32, entry: u64) -> Result<(), Failed>
    requires place { entry < 2 ^ 48 }
    requires counts { IsSet (N.holds part.old) (entry + 2) }
{
    wipe(part, area.sector(k))?;
    copy(part, area.spare(), area.sector(k), 0, &[])?;
    lay_fresh(part, entry + 3, &[SET])
}

/// Does what a stop left half done: copies a copy that counts back into its sector. A blank spare
/// sector is no copy.
pub fn recover<N: Nor>(part: &mut N, area: Area) -> Result<(), Failed> {
    let found = look(part, area)?;
    if found.open == 0 {
        return Ok(());
    }
    let k = found.open as u32 - 1;
    let entry = entry_at(area, found.next.saturating_sub(1));
    if k < area.count() && !is_blank(part, area.spare())? && is_set(part, entry + 2)? {
        return restore(part, area, k, entry);
    }
    lay_fresh(part, entry + 3, &[SET])
}

/// Erases the spare sector, and returns where the next entry of the journal begins. A full journal
/// is erased after it: whatever a stop leaves of that, no copy counts.
fn next_entry<N: Nor>(part: &mut N, area: Area) -> Result<u64, Failed>
    ensures { IfOk result (λ entry. entry < 2 ^ 48) }
{
    let found = look(part, area)?;
    wipe(part, area.spare())?;
    if found.next < ENTRIES {
        return Ok(entry_at(area, found.next));
    }
    wipe(part, area.journal())?;
    Ok(entry_at(area, 0))
}

/// Says that the copy of sector `k`, which is complete in the spare sector, counts.
fn commit<N: Nor>(part: &mut N, area: Area, k: u32, entry: u64) -> Result<(), Failed>
    requires { entry < 2 ^ 48 }
    ensures { OnOk result (IsSet (N.holds part.new) (entry + 2)) }
{
    if k >= MOST || is_blank(part, area.spare())? {
        return Err(Failed);
    }
    let number = k + 1;
    lay_fresh(part, entry, &[(number % 256) as u8, (number / 256) as u8])?;
    lay_fresh(part, entry + 2, &[SET])
}

/// Rewrites a sector, with the piece over what it has.
pub fn write_anew<N: Nor>(
    part: &mut N,
    area: Area,
    k: u32,
    offset: u64,
    piece: &[u8],
) -> Result<(), Failed> {
    let entry = next_entry(part, area)?;
    copy(part, area.sector(k), area.spare(), offset, piece)?;
    commit(part, area, k, entry)?;
    restore(part, area, k, entry)
}

/// Closes a header: erases its sector, by way of a copy that has nothing but its first byte, which
/// is before the range.
pub fn close_header<N: Nor>(part: &mut N, area: Area) -> Result<(), Failed> {
    let entry = next_entry(part, area)?;
    lay_fresh(part, start_of(area.spare()), &[SET])?;
    commit(part, area, 0, entry)?;
    restore(part, area, 0, entry)
}
