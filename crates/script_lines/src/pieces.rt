//! The lines of a stream that comes in pieces.

ghost use Rattle.std.specs.Prelude.{◌≡◌, ◌≢◌, ◌<◌, ◌≤◌, ◌↔◌, ℕ, List, [], ◌++◌, length, take, Some, IfSome, IsSome, IsTrue};
ghost use Rattle.script_lines.specs.Pieces.{cut};
ghost use Rattle.script_lines.specs.HeldLines.{LinesStand, used_of, open_in, GoesOn, Ends, IsWholeLine};

use crate::lines::{last_feed, line_feed};
use arrayvec::ArrayVec;
use std::marker::Model;

/// How many bytes of a line are held: one more than a line may have, so that a longer line is still seen to be too long.
const HELD: usize = 601;

/// What a piece brought.
#[derive(Clone, Copy, PartialEq, Eq)]
pub enum Cut {
    /// The piece is used up; the line is still open.
    More,
    /// A line has ended.
    Line,
}

/// The open line of a stream, in fixed memory. Contracts see it, and the line that has just ended.
#[derive(Drop)]
pub struct Lines {
    held: ArrayVec<u8, HELD>,
    /// The bytes held are those of a line that has ended.
    ended: bool,
}

impl Model for Lines {
    ghost use Rattle.std.specs.Prelude.{◌≤◌, length};
    ghost use Rattle.script_lines.specs.HeldLines.{HeldLines, held_as};

    ghost Value = { HeldLines };

    ghost view = { λ l. held_as l.held.items l.ended };

    ghost invariant = { λ l. length l.held.items ≤ 601 };
}

impl Lines {
    /// Makes the state before the first byte of a stream.
    pub fn new() -> Self
        ensures { LinesStand result [] }
    {
        Lines {
            held: ArrayVec::new(),
            ended: false,
        }
    }

    /// Takes a piece of the stream, up to and with its first line feed. Returns how many bytes that are, and whether a line has
    /// ended, which is exactly where there was a line feed. The rest of the piece is for the next call.
    pub fn take(&mut self, piece: &[u8]) -> (usize, Cut)
        ensures used { result ≡ used_of piece.now }
        ensures within { result.0 ≤ length piece.now }
        ensures moves { 0 < length piece.now → 0 < result.0 }
        ensures ended { result.1 ≡ Cut.Line → IsSome self.new.line }
        // Whatever the stream was so far, the lines given are its lines, cut.
        ensures lines { (stream : List ℕ) → LinesStand self.old stream
            → GoesOn self.old self.new (take result.0 piece.now) result.1 stream }
    {
        open(&mut self.held, self.ended);
        match line_feed(piece) {
            Some(end) => {
                hold(&mut self.held, &piece[..end]);
                self.ended = true;
                (end + 1, Cut::Line)
            }
            None => {
                hold(&mut self.held, piece);
                self.ended = false;
                (piece.len(), Cut::More)
            }
        }
    }

    /// The place of the line feed, where no line is open and a whole line, of no more bytes than are held, begins a piece. Such a
    /// line need not be copied, and `self` then stands after it unchanged.
    pub(crate) fn whole_line(&self, piece: &[u8]) -> Option<usize>
        ensures { IfSome result (λ end. IsWholeLine self.now piece.now end) }
    {
        if !self.ended && !self.held.is_empty() {
            return None;
        }
        match line_feed(piece) {
            Some(end) if end <= HELD => Some(end),
            _ => None,
        }
    }

    /// Takes a piece of the stream, and keeps none of the lines that end in it.
    pub fn pass(&mut self, piece: &[u8])
        ensures { (stream : List ℕ) → LinesStand self.old stream
            → LinesStand self.new (stream ++ piece.now) }
    {
        open(&mut self.held, self.ended);
        match last_feed(piece) {
            Some(end) => {
                self.held.clear();
                hold(&mut self.held, &piece[end + 1..]);
            }
            None => hold(&mut self.held, piece),
        }
        self.ended = false;
    }

    /// Returns the line that has just ended, without its line feed; of a line of more than 600 bytes, the first 601.
    pub fn line(&self) -> &[u8]
        requires { IsSome self.now.line }
        ensures { self.now.line ≡ Some result.now }
    {
        self.held.as_slice()
    }

    /// Ends the stream, and says whether its last line had no line feed; that line is then the one that has just ended. What is
    /// taken next is of a new stream.
    pub fn finish(&mut self) -> bool
        ensures held { IsTrue result ↔ (self.old.open_line ≢ []) }
        ensures lines { (stream : List ℕ) → LinesStand self.old stream
            → Ends self.new stream result }
        ensures ended { IsTrue result ↔ IsSome self.new.line }
        ensures again { LinesStand self.new [] }
    {
        open(&mut self.held, self.ended);
        self.ended = !self.held.is_empty();
        self.ended
    }
}

/// Drops a line that has ended.
fn open(held: &mut ArrayVec<u8, HELD>, ended: bool)
    requires { length held.old.items ≤ 601 }
    ensures open { held.new.items ≡ open_in held.old.items ended }
    ensures within { length held.new.items ≤ 601 }
{
    if ended {
        held.clear();
    }
}

/// Puts bytes after those that are held, as many as there is room for.
fn hold(held: &mut ArrayVec<u8, HELD>, bytes: &[u8])
    requires { length held.old.items ≤ 601 }
    ensures held { held.new.items ≡ cut (held.old.items ++ bytes.now) }
    ensures within { length held.new.items ≤ 601 }
{
    let room = HELD - held.len();
    let front = &bytes[..room.min(bytes.len())];
    // (the front is cut to the room)
    let _fits = held.try_extend_from_slice(front);
}
