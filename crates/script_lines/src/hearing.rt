//! A consumer that hears the lines of a stream in pieces.

ghost use Rattle.std.specs.Prelude.{◌≡◌, ◌<◌, ◌≤◌, List, ℕ, IsTrue, length, take};
ghost use Rattle.script_lines.specs.Hearing.{HasHeard, Hears, HearsLines};

use crate::pieces::{Cut, Lines};

/// A consumer of lines, which goes on whatever it hears.
pub trait HearsLine {
    /// How a line takes it from one state to the next.
    ghost hears: { Self → List ℕ → Self → Type 0 };

    /// Hears a line, without its line feed; of a line of more than 600 bytes, the first 601.
    fn line(&mut self, line: &[u8])
        ensures { hears self.old line.now self.new };

    /// Says whether it needs no more lines; then none changes it.
    fn is_over(&self) -> bool
        ensures { IsTrue result → (line : List ℕ) → hears self.now line self.now };
}

/// Gives the consumer the lines that end in a piece; none after one after which it needs no more.
pub fn hear_piece<W: HearsLine>(lines: &mut Lines, piece: &[u8], hearer: &mut W)
    ensures { Hears W.hears lines.old lines.new hearer.old hearer.new piece.now }
{
    let mut rest = piece;
    while !rest.is_empty() {
        if hearer.is_over() {
            lines.pass(rest);
            return;
        }
        let used = hear_next(lines, rest, hearer);
        rest = rest.split_at(used).1;
    }
}

/// Gives the consumer the first line that ends in a piece, and returns how many bytes of the piece are used.
fn hear_next<W: HearsLine>(lines: &mut Lines, piece: &[u8], hearer: &mut W) -> usize
    ensures heard { Hears W.hears lines.old lines.new hearer.old hearer.new
        (take result piece.now) }
    ensures within { result ≤ length piece.now }
    ensures moves { 0 < length piece.now → 0 < result }
{
    if let Some(end) = lines.whole_line(piece) {
        hearer.line(&piece[..end]);
        return end + 1;
    }
    match lines.take(piece) {
        (used, Cut::Line) => {
            hearer.line(lines.line());
            used
        }
        (used, Cut::More) => used,
    }
}

/// Ends the stream: gives the consumer the last line, where that had no line feed.
pub fn hear_last<W: HearsLine>(lines: &mut Lines, hearer: &mut W)
    ensures { (first : W) (stream : List ℕ) → HasHeard W.hears first lines.old hearer.old stream
        → HearsLines W.hears first hearer.new stream }
{
    if lines.finish() {
        hearer.line(lines.line());
    }
}
