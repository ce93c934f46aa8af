//! Ranges of sessions in a part of NOR flash.

ghost use Rattle.std.specs.Prelude.{◌≡◌, ◌+◌, ◌*◌, ◌^◌, ◌<◌, ◌≤◌, IfSome};
ghost use Rattle.flash_session.specs.Contents.{HasCause};

use crate::area::Area;
use crate::bytes::PAGE;
use crate::journal::{MOST, close_header, recover, write_anew};
use crate::layout::{FIRST, GATES, GATES_SIZE, RECORDS, SECTOR, sectors_of};
use crate::nor::Nor;
use crate::sectors::{fetch, lay, start_of, wipe};
use flash_session::{Failed, Flash};
use std::marker::Model;

/// Ranges of equal length, one after the other, each in its own sectors.
#[derive(Drop)]
pub struct NorFlash<N: Nor + Drop> {
    part: N,
    ranges: Ranges,
    /// No call has failed since the last repair of what a stop left half done.
    sound: bool,
    /// How many calls failed; the count stops at the type's end.
    failed: u64,
    ghost small: { ranges.size < 2 ^ 32 },
}

/// The length of a range, and of all.
#[derive(Clone, Copy)]
struct Ranges {
    span: u32,
    size: u32,
}

impl<N: Nor + Drop> Model for NorFlash<N> {
    ghost use Rattle.sample_nor_flash.specs.InNor.{InNor};

    ghost Value = { InNor N };

    ghost view = { λ f. record {
      part = f.part;
      size = f.ranges.size;
      faults = f.failed;
      small = f.small;
    } };
}

impl<N: Nor + Drop> NorFlash<N> {
    /// Makes so many ranges of `span` bytes, one after the other, in the sectors of the part from
    /// its first on; each takes `sectors_of(span)`. None where a range is shorter than 24,640 bytes
    /// or has more than 65,535 sectors, or the part has too few.
    pub fn over(part: N, span: u32, ranges: u32) -> Option<Self>
        ensures made { IfSome result (λ f. (f.part ≡ part) × (f.size ≡ span * ranges)) }
        ensures faults { IfSome result (λ f. f.faults ≡ 0) }
    {
        let size = span.checked_mul(ranges)?;
        let sectors = sectors_of(span).checked_mul(ranges)?;
        if span < RECORDS || sectors_of(span) > MOST || sectors > part.size() / SECTOR {
            return None;
        }
        Some(NorFlash {
            part,
            ranges: Ranges { span, size },
            sound: false,
            failed: 0,
        })
    }

    /// Returns the part, borrowed.
    pub fn part(&self) -> &N
        ensures { result.now ≡ self.now.part }
    {
        &self.part
    }

    /// Returns the part.
    pub fn inner(self) -> N
        ensures { result ≡ self.part }
    {
        self.part
    }
}

/// The range of a place, and the place counted from its first sector. None where so many bytes from
/// there are not in one range.
fn place_of(span: u32, at: u32, len: usize) -> Option<(Area, u64)> {
    let range = at.checked_div(span)?;
    let place = at - range * span;
    if len > (span - place) as usize {
        return None;
    }
    let sectors = sectors_of(span);
    let area = Area {
        first: range.checked_mul(sectors)?,
        records: sectors - 9,
    };
    Some((area, FIRST as u64 + place as u64))
}

/// Writes a piece of one page, and rewrites its sector where a bit has to be set for it. A closed
/// header loses the setup after it, which is then not read.
fn put_page<N: Nor>(part: &mut N, area: Area, at: u64, piece: &[u8]) -> Result<(), Failed> {
    if piece.len() > PAGE {
        return Err(Failed);
    }
    let Ok(sector) = u32::try_from(at / SECTOR as u64) else {
        return Err(Failed);
    };
    let offset = at % SECTOR as u64;
    if lay(part, start_of(area.first).saturating_add(at), piece)? {
        return Ok(());
    }
    if at == FIRST as u64 && piece == [0].as_slice() {
        return close_header(part, area);
    }
    write_anew(part, area, sector, offset, piece)
}

/// Writes a piece, page by page, from a place on that is counted from the range's first sector.
fn put<N: Nor>(part: &mut N, area: Area, at: u64, piece: &[u8]) -> Result<(), Failed> {
    let mut rest = piece;
    let mut at = at;
    for _ in 0..piece.len() / PAGE + 2 {
        let room = PAGE - (at % PAGE as u64) as usize;
        let (now, later) = rest.split_at(room.min(rest.len()));
        if now.is_empty() {
            return Ok(());
        }
        put_page(part, area, at, now)?;
        rest = later;
        at = at.saturating_add(now.len() as u64);
    }
    Ok(())
}

/// Erases the gates, and the records with them: no record is read after gates that are closed.
fn clear<N: Nor>(part: &mut N, area: Area) -> Result<(), Failed> {
    for k in 1..area.count() {
        wipe(part, area.sector(k))?;
    }
    Ok(())
}

const ZEROS: [u8; PAGE] = [0; PAGE];

/// Writes zeros, page by page.
fn put_zeros<N: Nor>(part: &mut N, area: Area, at: u64, n: u32) -> Result<(), Failed> {
    for k in 0..n / 256 {
        put(part, area, at.saturating_add(256 * k as u64), &ZEROS)?;
    }
    let rest = n % 256;
    put(
        part,
        area,
        at.saturating_add((n - rest) as u64),
        &ZEROS[..rest as usize],
    )
}

/// Fills a stretch of one range with zeros.
fn fill_zeros<N: Nor>(
    part: &mut N,
    ranges: Ranges,
    sound: &mut bool,
    at: u32,
    n: u32,
) -> Result<(), Failed> {
    settle(part, ranges, sound)?;
    let Some((area, place)) = place_of(ranges.span, at, n as usize) else {
        return Err(Failed);
    };
    if place == (FIRST + GATES) as u64 && n == GATES_SIZE {
        return clear(part, area);
    }
    put_zeros(part, area, place, n)
}

/// Does what a stop left half done, in each range.
fn recover_all<N: Nor>(part: &mut N, ranges: Ranges) -> Result<(), Failed> {
    for range in 0..ranges.size.checked_div(ranges.span).unwrap_or(0) {
        if let Some((area, _)) = place_of(ranges.span, range.saturating_mul(ranges.span), 0) {
            recover(part, area)?;
        }
    }
    Ok(())
}

/// Does what is half done, after a start and after a call that failed.
fn settle<N: Nor>(part: &mut N, ranges: Ranges, sound: &mut bool) -> Result<(), Failed> {
    if !*sound {
        recover_all(part, ranges)?;
        *sound = true;
    }
    Ok(())
}

fn read_bytes<N: Nor>(
    part: &mut N,
    ranges: Ranges,
    sound: &mut bool,
    at: u32,
    buf: &mut [u8],
) -> Result<(), Failed> {
    settle(part, ranges, sound)?;
    let Some((area, place)) = place_of(ranges.span, at, buf.len()) else {
        return Err(Failed);
    };
    fetch(part, start_of(area.first).saturating_add(place), buf)
}

fn write_bytes<N: Nor>(
    part: &mut N,
    ranges: Ranges,
    sound: &mut bool,
    at: u32,
    piece: &[u8],
) -> Result<(), Failed> {
    settle(part, ranges, sound)?;
    let Some((area, place)) = place_of(ranges.span, at, piece.len()) else {
        return Err(Failed);
    };
    put(part, area, place, piece)
}

/// Counts a failure; what it left half done is done at the next call.
fn counted(done: Result<(), Failed>, failed: &mut u64, sound: &mut bool) -> Result<(), Failed>
    ensures { HasCause failed.old failed.new result }
{
    if done.is_err() {
        *failed = failed.saturating_add(1);
        *sound = false;
    }
    done
}

impl<N: Nor + Drop> Flash for NorFlash<N> {
    ghost use Rattle.sample_nor_flash.specs.InNor.{nor_seen};

    ghost seen = { nor_seen };

    ghost tells = { λ old new steps failed. Unit {0} };

    ghost small = { λ flash. flash.small };

    fn size(&self) -> u32 {
        self.ranges.size
    }

    fn read(&mut self, at: u32, buf: &mut [u8]) -> Result<(), Failed> {
        let done = read_bytes(&mut self.part, self.ranges, &mut self.sound, at, buf);
        counted(done, &mut self.failed, &mut self.sound)
    }

    fn write(&mut self, at: u32, piece: &[u8]) -> Result<(), Failed> {
        let done = write_bytes(&mut self.part, self.ranges, &mut self.sound, at, piece);
        counted(done, &mut self.failed, &mut self.sound)
    }

    fn fill(&mut self, at: u32, n: u32) -> Result<(), Failed> {
        let done = fill_zeros(&mut self.part, self.ranges, &mut self.sound, at, n);
        counted(done, &mut self.failed, &mut self.sound)
    }

    fn sync(&mut self) -> Result<(), Failed> {
        let done = settle(&mut self.part, self.ranges, &mut self.sound);
        counted(done, &mut self.failed, &mut self.sound)
    }
}
