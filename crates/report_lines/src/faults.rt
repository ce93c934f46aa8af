//! Refused lines, and why a call over lines has no other answer.

ghost use Rattle.std.specs.Prelude.{◌≡◌, ◌≤◌, ◌+◌, ◌++◌, codes};
ghost use Rattle.std.specs.Fmt.{decimal};
ghost use Rattle.script_lines.specs.Limits.{max_lines};
ghost use Rattle.report_lines.specs.Texts.{IsText};
ghost use Rattle.report_lines.specs.Faults.{why_word, fault_line};

use std::alloc::{AllocError, Global};
use std::fmt::{self, Display, Formatter, Write};
use thiserror::Error;

/// The most lines of a script or of a file of payloads.
pub const MAX_LINES: u32 = 20_000;

/// The most bytes of a line.
pub const MAX_LINE: usize = 600;

/// Why a line is refused; the causes are tried in this order, some of `Limit` last of all.
#[derive(Clone, Copy, Debug, PartialEq, Eq)]
pub enum LineWhy {
    /// The line's number is above 20,000, or it has more than 600 bytes; and last of all: it is a device with a flash after four
    /// of them, it has a payload of more than 242 bytes, or nothing is left to send.
    Limit,
    /// It spells no form, entry or payload, or the script ended without `end`.
    Syntax,
    /// Its form is not allowed at this place.
    Order,
    /// A number is outside its range.
    Range,
    /// There is no such device, or it has no flash for `power`.
    Device,
    /// The payload was not sent, or not to that device, or has no frame; or the uplink was not made, or is due later.
    Unsent,
    /// Its time is over.
    Time,
}

impl Display for LineWhy {
    fn fmt<W: Write>(&self, f: &mut Formatter<W>) -> fmt::Result {
        f.write_str(why_word(*self))
    }
}

impl std::error::Error for LineWhy {}

/// The first refused line, counted from 1, and its first cause.
#[derive(Clone, Copy, Debug, PartialEq, Eq, Error)]
#[error("line {line} {why}")]
pub struct LineFault {
    pub line: u32,
    pub why: LineWhy,
}

/// Why a call over lines has no other answer.
#[derive(Clone, Copy, Debug, PartialEq, Eq, Error)]
pub enum LineError {
    #[error("out of memory")]
    Memory,
    #[error(transparent)]
    Line(LineFault),
}

impl From<AllocError> for LineError {
    ghost use Rattle.report_lines.specs.declared.faults.LineError.TheVariants.{Memory};
    ghost use Rattle.std.specs.Prelude.{◌≡◌};

    ghost from_gives = { λ _ e. e ≡ Memory };

    fn from(_: AllocError) -> Self {
        LineError::Memory
    }
}

/// Makes the refusal of the line that comes after so many.
pub fn refused_behind(lines: u32, why: LineWhy) -> LineError
    requires { lines ≤ max_lines }
    ensures { result ≡ LineError.Line (record { line = lines + 1; why = why }) }
{
    LineError::Line(LineFault {
        line: lines + 1,
        why,
    })
}

/// Makes the text of a refused line: `line K WHY`.
pub fn fault_line(alloc: Global, fault: LineFault) -> Result<String, AllocError>
    ensures { IsText result (fault_line fault) }
{
    let why = why_word(fault.why);
    said_of(alloc, fault.line, why)
}

fn said_of(alloc: Global, line: u32, why: &str) -> Result<String, AllocError>
    ensures { IsText result
        (codes "line " ++ decimal line ++ (codes " " ++ why.now ++ codes "\n")) }
{
    format!(in alloc; "line {line} {why}\n")
}

fn why_word(why: LineWhy) -> &'static str
    ensures { result.now ≡ why_word why }
{
    match why {
        LineWhy::Limit => "limit",
        LineWhy::Syntax => "syntax",
        LineWhy::Order => "order",
        LineWhy::Range => "range",
        LineWhy::Device => "device",
        LineWhy::Unsent => "unsent",
        LineWhy::Time => "time",
    }
}
