//! Writing a whole text.

ghost use Rattle.std.specs.Prelude.{◌≡◌, ◌≤◌, ◌++◌, true, List, ℕ, OnOk, OnErr, take};
ghost use Rattle.std.specs.Io.KnownBytes.{Appends};
ghost use Rattle.fuota_run.specs.Outside.{HasRisen, AppendsFront};

use crate::files::Failed;
use crate::sink::Sink;

/// Writes the text, piece after piece, and finishes it. Where a call fails, a front of the text was written.
pub fn write_text<O: Sink>(out: &mut O, text: &[u8]) -> Result<(), Failed>
    ensures written { OnOk result (Appends (O.written out.old) (O.written out.new) text.now) }
    ensures finished { OnOk result (O.finished out.new ≡ true) }
    ensures front { OnErr result (AppendsFront (O.written out.old) (O.written out.new) text.now) }
    ensures failed { OnErr result (HasRisen (O.faults out.old) (O.faults out.new)) }
    ensures quiet { OnOk result (O.faults out.new ≡ O.faults out.old) }
{
    let mut rest = text;
    while !rest.is_empty() {
        match out.write(rest) {
            Ok(taken) => rest = rest.split_at(taken).1,
            Err(failed) => return Err(failed),
        }
    }
    out.finish()
}
