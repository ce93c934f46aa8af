//! The lines of a device's sessions, each with its verdict.

ghost use Rattle.std.specs.Prelude.{◌≡◌, ◌<◌, ◌++◌, Some, OnOk, codes, string_bytes};
ghost use Rattle.std.specs.Fmt.{decimal};
ghost use Rattle.frag_session.specs.Session.{view_of};
ghost use Rattle.frag_session.specs.HeldView.{seen};
ghost use Rattle.device_core.specs.SessionTable.{session_at};
ghost use Rattle.device_core.specs.Device.{DeviceState};
ghost use Rattle.device_core.specs.HeldDevice.{DeviceStands};
ghost use Rattle.report_lines.specs.Texts.{IsText};
ghost use Rattle.report_lines.specs.Sessions.{same_word, file_line, verdict_text, session_text, session_line, session_lines, same, whole};
ghost use Rattle.report_lines.specs.HeldTail.{tail_of};

use device_core::Device;
use flash_session::Flash;
use frag_session::{Verdict, View};
use std::alloc::{AllocError, Global};

/// What a report says of a whole file.
#[derive(Clone, Copy)]
pub enum Tail<'a> {
    /// Whether it is this image: ` same` or ` other` after the line that completed it.
    Same(&'a [u8]),
    /// Its bytes in hex, on a line of their own: `file HEX`.
    File,
}

/// Makes the lines of the sessions that a device has, in the order of their indexes: fragments received and missing, and the
/// verdict with the mark of the fragment that decided it.
pub fn session_lines<F: Flash + Drop>(
    alloc: Global,
    device: &Device<F>,
    tail: Tail,
) -> Result<String, AllocError>
    ensures { (d : DeviceState) → DeviceStands device.now d
        → IsText result (session_lines (tail_of tail.entry) d.sessions) }
{
    let mut text = session_line(alloc, device, 0, tail)?;
    put_line(alloc, device, 1, tail, &mut text)?;
    put_line(alloc, device, 2, tail, &mut text)?;
    put_line(alloc, device, 3, tail, &mut text)?;
    Ok(text)
}

/// Puts the line of a session after those before it, where there is one.
fn put_line<F: Flash + Drop>(
    alloc: Global,
    device: &Device<F>,
    index: u8,
    tail: Tail,
    text: &mut String,
) -> Result<(), AllocError>
    requires { index < 4 }
    ensures { (d : DeviceState) → DeviceStands device.now d
        → OnOk result (string_bytes text.new ≡ string_bytes text.old
        ++ session_line (tail_of tail.entry) index (view_of (session_at d.sessions index))) }
{
    let line = session_line(alloc, device, index, tail)?;
    text.push_str(line.as_str())
}

/// The line of a session, where there is one.
fn session_line<F: Flash + Drop>(
    alloc: Global,
    device: &Device<F>,
    index: u8,
    tail: Tail,
) -> Result<String, AllocError>
    requires { index < 4 }
    ensures { (d : DeviceState) → DeviceStands device.now d
        → IsText result
        (session_line (tail_of tail.entry) index (view_of (session_at d.sessions index))) }
{
    match device.session(index) {
        Some(view) => seen_line(alloc, index, view, tail),
        None => Ok(String::new(alloc)),
    }
}

fn seen_line(alloc: Global, index: u8, view: View, tail: Tail) -> Result<String, AllocError>
    ensures { IsText result (session_line (tail_of tail.entry) index (Some (seen view.entry))) }
{
    match tail {
        Tail::Same(image) => compared_line(alloc, index, view, image),
        Tail::File => whole_lines(alloc, index, view),
    }
}

/// The line of a session, with whether its file is the image.
#[tactic(auto, unfolding(frag_session::specs::HeldView::seen))]
fn compared_line(alloc: Global, index: u8, view: View, image: &[u8]) -> Result<String, AllocError>
    ensures { IsText result (session_line (same image.now) index (Some (seen view.entry))) }
{
    let verdict = verdict_text(alloc, view.verdict, same_word(view.file == image))?;
    session_text(alloc, index, view.received, view.missing, verdict.as_str())
}

/// The line of a session, with its file after it.
#[tactic(auto, unfolding(frag_session::specs::HeldView::seen))]
fn whole_lines(alloc: Global, index: u8, view: View) -> Result<String, AllocError>
    ensures { IsText result (session_line whole index (Some (seen view.entry))) }
{
    let verdict = verdict_text(alloc, view.verdict, "")?;
    let session = session_text(alloc, index, view.received, view.missing, verdict.as_str())?;
    let file = file_line(alloc, view.verdict, view.file)?;
    two_texts(alloc, session.as_str(), file.as_str())
}

fn two_texts(alloc: Global, one: &str, more: &str) -> Result<String, AllocError>
    ensures { IsText result (one.now ++ more.now) }
{
    format!(in alloc; "{one}{more}")
}

fn session_text(
    alloc: Global,
    index: u8,
    received: u16,
    missing: u16,
    verdict: &str,
) -> Result<String, AllocError>
    ensures { IsText result (session_text index received missing verdict.now) }
{
    format!(in alloc; "session {index} received {received} missing {missing} {verdict}\n")
}

/// The verdict; that of a whole file may have more after it.
fn verdict_text(alloc: Global, verdict: Verdict, behind: &str) -> Result<String, AllocError>
    ensures { IsText result (verdict_text verdict behind.now) }
{
    match verdict {
        Verdict::Receiving => String::from_str(alloc, "receiving"),
        Verdict::Complete(line) => complete_text(alloc, line, behind),
        Verdict::NoRows(line) => format!(in alloc; "norows at {line}"),
        Verdict::Conflict(line) => format!(in alloc; "conflict at {line}"),
    }
}

fn complete_text(alloc: Global, line: u64, behind: &str) -> Result<String, AllocError>
    ensures { IsText result (codes "complete at " ++ decimal line ++ behind.now) }
{
    format!(in alloc; "complete at {line}{behind}")
}

fn same_word(same: bool) -> &'static str
    ensures { result.now ≡ same_word same }
{
    if same { " same" } else { " other" }
}

/// The file in hex, on its own line, where it is whole.
fn file_line(alloc: Global, verdict: Verdict, file: &[u8]) -> Result<String, AllocError>
    ensures { IsText result (file_line verdict file.now) }
{
    match verdict {
        Verdict::Complete(_) => {
            let hex = hex::encode(alloc, file)?;
            hex_line(alloc, hex.as_str())
        }
        _ => Ok(String::new(alloc)),
    }
}

fn hex_line(alloc: Global, hex: &str) -> Result<String, AllocError>
    ensures { IsText result (codes "file " ++ (hex.now ++ codes "\n")) }
{
    format!(in alloc; "file {hex}\n")
}
