//! The text of `capture` for a file of JSON lines: what each says, and the state of a device that hears those for it.

ghost use Rattle.std.specs.Prelude.{◌≡◌, ◌+◌, ◌<◌, ◌≤◌, [], ◌++◌, List, ℕ, None, Ok, IfOk, IfErr, OnOk, codes, string_bytes};
ghost use Rattle.script_lines.specs.Lines.{lines_of};
ghost use Rattle.device_core.specs.Device.{DeviceState};
ghost use Rattle.device_core.specs.HeldDevice.{Becomes};
ghost use Rattle.report_lines.specs.Texts.{seen_text};
ghost use Rattle.report_lines.specs.Lines.{IsLineRefused, IsFileText};
ghost use Rattle.capture_read.specs.declared.answers.Entry.{Entry};
ghost use Rattle.payload_replay.specs.HeldHeaded.{IsBegun};
ghost use Rattle.payload_replay.specs.Capture.{Caught, cause_of, line_entry, direction_word, entry_line, entry_text, is_heard, after_entry, caught_next, first_caught, capture_text, Captures};
ghost use Rattle.payload_replay.specs.HeldCapturing.{CaughtStands, CaughtBecomes, CapturingStands, HearsCaptured};

use crate::decoding::show_payload;
use crate::hearer::{begin, closing_text, hear};
use crate::payload_lines::is_beyond;
use capture_read::{Entry, EntryError, EntryFault, Scratch, entry_with};
use cast_wire::FRAGMENT_PORT;
use device_core::Device;
use flash_session::CellFlash;
use report_lines::{LineError, LineWhy, refused_behind};
use script_lines::HearsLine;
use std::alloc::{AllocError, Global};
use std::marker::Model;
use wire_base::Direction;

/// The bytes that the head of the longest line fits.
const HEAD_ROOM: usize = 32;

/// A capture while the lines of its file are heard: what each object's payload says, and a class C device with 4 sessions of at
/// most 262,382 bytes that hears those with port 201 and direction `down`, by unicast at moment 0 ms.
///
/// The first line of the file is `capture 1 ROWS`; ROWS (decimal, 0 to 256) is the number of coded fragments that a session
/// holds. Lines 2 to 20,000, each of at most 600 bytes, are JSON objects (RFC 8259) with `port` (0 to 255), `dir` (`down` or
/// `up`) and `hex`, the digits of a payload of 0 to 242 bytes in the order sent. After the first line that is refused, and after
/// memory was missing, no line does more. (TS004-1.0.0; the file and the text are this project's profile.)
#[derive(Drop)]
pub struct Capturing {
    alloc: Global,
    lines: u32,
    caught: Option<Catch>,
    kept: Option<LineError>,
}

/// The text so far, its first line included, the device, and the room in which each line is read.
#[derive(Drop)]
struct Catch {
    text: Vec<u8>,
    device: Device<CellFlash>,
    scratch: Box<Scratch>,
}

impl Model for Catch {
    ghost use Rattle.payload_replay.specs.HeldCapturing.{HeldCaught};

    ghost Value = { HeldCaught };

    ghost view = { λ c. record { text = c.text.items; device = c.device } };
}

impl Model for Capturing {
    ghost use Rattle.std.specs.Prelude.{◌≤◌};
    ghost use Rattle.payload_replay.specs.HeldCapturing.{HeldCaught};
    ghost use Rattle.payload_replay.specs.HeldHeaded.{HeldHeaded};

    ghost Value = { HeldHeaded HeldCaught };

    ghost view = { λ c. record { lines = c.lines; state = c.caught; kept = c.kept } };

    ghost invariant = { λ c. c.lines ≤ 20000 };
}

impl HearsLine for Capturing {
    ghost use Rattle.payload_replay.specs.HeldCapturing.{HearsCaptured};

    ghost hears = { HearsCaptured };

    /// Hears a line, and keeps its text or its fault.
    fn line(&mut self, line: &[u8]) {
        match self.kept {
            Some(_) => {}
            None => match &mut self.caught {
                Some(caught) => match catch_line(self.alloc, caught, self.lines, line) {
                    Ok(()) => self.lines += 1,
                    Err(error) => self.kept = Some(error),
                },
                None => self.start(line),
            },
        }
    }

    fn is_over(&self) -> bool {
        self.kept.is_some()
    }
}

impl Capturing {
    /// Makes a capture before its first line.
    pub fn new(alloc: Global) -> Self
        ensures { CapturingStands result [] }
    {
        Capturing {
            alloc,
            lines: 0,
            caught: None,
            kept: None,
        }
    }

    /// Hears the header.
    fn start(&mut self, header: &[u8])
        requires fine { self.old.kept ≡ None }
        requires first { self.old.state ≡ None }
        ensures { HearsCaptured self.old header.now self.new }
    {
        match catch_first(self.alloc, header) {
            Ok(caught) => {
                self.caught = Some(caught);
                self.lines = 1;
            }
            Err(error) => self.kept = Some(error),
        }
    }

    /// Returns the text of a file, after all its lines: for each object its line's number, counted from 1, its port and
    /// direction, and what its payload says; then, as in a replay, the counts of the device and its sessions.
    ///
    /// `LineError::Line` names the first line that is refused and its first cause: `LineWhy::Limit` where the number of lines or
    /// of a line's bytes is exceeded; then `LineWhy::Syntax` where a line is no such object, or the first no such header;
    /// `LineWhy::Range` where a port or ROWS is out of its range; and `LineWhy::Limit` where a payload is too long. An empty file
    /// is refused at line 1. `LineError::Memory` comes where memory is missing.
    pub fn text(self) -> Result<Vec<u8>, LineError>
        ensures { (file : List ℕ) → CapturingStands self (lines_of file)
            → IsFileText Captures file (seen_text result) }
    {
        let Capturing {
            alloc,
            lines: _,
            caught,
            kept,
        } = self;
        match kept {
            Some(error) => {
                drop(caught);
                Err(error)
            }
            None => match caught {
                Some(caught) => told(alloc, caught),
                None => Err(refused_behind(0, LineWhy::Syntax)),
            },
        }
    }
}

/// What the header makes: the text's first line, and the device.
fn catch_first(alloc: Global, header: &[u8]) -> Result<Catch, LineError>
    ensures { IsBegun (codes "capture") (λ rows. first_caught rows) CaughtStands header.now result }
{
    let device = match begin(alloc, "capture", header) {
        Ok(device) => device,
        Err(error) => return Err(error),
    };
    match first_text(alloc) {
        Ok((text, scratch)) => Ok(Catch {
            text,
            device,
            scratch,
        }),
        Err(_) => {
            drop(device);
            Err(LineError::Memory)
        }
    }
}

/// The text's first line, and the room to read in.
fn first_text(alloc: Global) -> Result<(Vec<u8>, Box<Scratch>), AllocError>
    ensures { IfOk result (λ r. r.0.items ≡ codes "fuota capture 1\n") }
{
    let text = b"fuota capture 1\n".to_vec(alloc)?;
    match Box::new(alloc, Scratch::new(alloc)) {
        Ok(scratch) => Ok((text, scratch)),
        Err(_) => Err(AllocError),
    }
}

/// Adds the entry of a line that comes after so many to the text and the device; or the line is refused.
fn catch_line(alloc: Global, caught: &mut Catch, lines: u32, line: &[u8]) -> Result<(), LineError>
    requires { lines ≤ 20000 }
    ensures caught { OnOk result ((item : Entry) × (line_entry lines line.now ≡ Ok item)
        × CaughtBecomes caught.old caught.new (λ all. caught_next (lines + 1) item all)) }
    ensures few { OnOk result (lines < 20000) }
    ensures refused { IfErr result (IsLineRefused line_entry lines line.now) }
{
    let item = match read_entry(alloc, &mut caught.scratch, lines, line) {
        Ok(item) => item,
        Err(error) => return Err(error),
    };
    match show_entry(alloc, lines + 1, &item, &mut caught.text) {
        Ok(()) => {
            hear_entry(&mut caught.device, &item, u64::from(lines + 1));
            Ok(())
        }
        Err(_) => Err(LineError::Memory),
    }
}

/// The entry of a line that comes after so many.
#[tactic(auto, unfolding(crate::specs::Capture::line_entry))]
fn read_entry(
    alloc: Global,
    scratch: &mut Scratch,
    lines: u32,
    line: &[u8],
) -> Result<Entry, LineError>
    requires { lines ≤ 20000 }
    ensures item { IfOk result (λ item. line_entry lines line.now ≡ Ok item) }
    ensures few { OnOk result (lines < 20000) }
    ensures refused { IfErr result (IsLineRefused line_entry lines line.now) }
{
    if is_beyond(lines, line) {
        return Err(refused_behind(lines, LineWhy::Limit));
    }
    match entry_with(alloc, scratch, line) {
        Ok(item) => Ok(item),
        Err(EntryError::Memory) => Err(LineError::Memory),
        Err(EntryError::Refused(fault)) => Err(refused_behind(lines, cause_of(fault))),
    }
}

fn cause_of(fault: EntryFault) -> LineWhy
    ensures { result ≡ cause_of fault }
{
    match fault {
        EntryFault::Syntax => LineWhy::Syntax,
        EntryFault::Range => LineWhy::Range,
        EntryFault::Limit => LineWhy::Limit,
    }
}

/// Writes an entry's line, and what its payload says.
fn show_entry(
    alloc: Global,
    number: u32,
    item: &Entry,
    text: &mut Vec<u8>,
) -> Result<(), AllocError>
    ensures { OnOk result (text.new.items ≡ text.old.items ++ entry_text number item.now) }
{
    let mut room = entry_line(alloc, number, item.port, item.dir)?;
    text.extend_from_slice(room.as_bytes())?;
    show_payload(
        item.port,
        item.dir,
        item.payload.as_slice(),
        &mut room,
        text,
    )
}

/// The line that gives a line's number, and the port and direction of its payload.
fn entry_line(alloc: Global, number: u32, port: u8, dir: Direction) -> Result<String, AllocError>
    ensures { IfOk result (λ head. string_bytes head ≡ entry_line number port dir) }
{
    let word = direction_word(dir);
    let mut head = String::with_capacity(alloc, HEAD_ROOM)?;
    write!(head, "line {number} {port} {word}\n")?;
    Ok(head)
}

fn direction_word(dir: Direction) -> &'static str
    ensures { result.now ≡ direction_word dir }
{
    match dir {
        Direction::Down => "down",
        Direction::Up => "up",
    }
}

/// The device hears an entry that is for it; any other leaves it unchanged.
#[tactic(auto, unfolding(crate::specs::Capture::after_entry))]
fn hear_entry(device: &mut Device<CellFlash>, item: &Entry, mark: u64)
    ensures { Becomes device.old device.new (λ before. after_entry mark item.now before) }
{
    if is_heard(item) {
        hear(device, item.payload.as_slice(), mark);
    }
}

/// Whether an entry is for the device: it goes down on the port of TS004.
fn is_heard(item: &Entry) -> bool
    ensures { result ≡ is_heard item.now }
{
    match item.dir {
        Direction::Down => item.port == FRAGMENT_PORT,
        Direction::Up => false,
    }
}

/// The whole text of what was caught.
fn told(alloc: Global, caught: Catch) -> Result<Vec<u8>, LineError>
    ensures text { (all : Caught) → CaughtStands caught all
        → IfOk result (λ text. text.items ≡ capture_text all) }
    ensures memory { IfErr result (λ e. e ≡ LineError.Memory) }
{
    match text_of(alloc, caught) {
        Ok(text) => Ok(text),
        Err(_) => Err(LineError::Memory),
    }
}

fn text_of(alloc: Global, caught: Catch) -> Result<Vec<u8>, AllocError>
    ensures { (all : Caught) → CaughtStands caught all
        → IfOk result (λ text. text.items ≡ capture_text all) }
{
    let Catch {
        mut text,
        device,
        scratch,
    } = caught;
    drop(scratch);
    let closing = closing_text(alloc, &device);
    drop(device);
    let closing = closing?;
    text.extend_from_slice(closing.as_bytes())?;
    Ok(text)
}
