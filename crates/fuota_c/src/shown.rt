//! What a session shows.

ghost use Rattle.std.specs.Prelude.{◌≡◌, option_map};
ghost use Rattle.frag_session.specs.HeldView.{seen};
ghost use Rattle.fuota_c.specs.Shown.{IsShown, fields_of, file_or_none, mark_of, verdict_number};

use c_base::answer::{DONE, NOTHING};
use frag_session::{Verdict, View};

/// What a session shows: the mark of the fragment that decided it, and 0 before; the bytes of the whole file, and 0 where none is
/// whole; the fragments heard, at most 16,383, and the pieces still to be gained; the number of its verdict.
#[repr(C)]
#[derive(Drop)]
pub struct ViewFields {
    pub mark: u64,
    pub file_length: usize,
    pub received: u16,
    pub missing: u16,
    pub verdict: u8,
}

/// Writes what a session shows, where there is one.
pub fn show(view: Option<View>, out: &mut ViewFields) -> u8
    ensures { IsShown (option_map seen view.entry) out.old out.new result }
{
    match view {
        None => NOTHING,
        Some(view) => {
            put_view(&view, out);
            DONE
        }
    }
}

/// Returns the whole file, and no bytes where none is whole.
#[tactic(auto, unfolding(frag_session::specs::HeldView::seen))]
pub fn file_in(view: Option<View<'_>>) -> &[u8]
    ensures { result.now ≡ file_or_none (option_map seen view.entry) }
{
    match view {
        None => &[],
        Some(view) => view.file,
    }
}

#[tactic(auto, unfolding(frag_session::specs::HeldView::seen))]
fn put_view(view: &View, out: &mut ViewFields)
    ensures { out.new ≡ fields_of (seen view.now) }
{
    out.mark = mark_of(view.verdict);
    out.file_length = view.file.len();
    out.received = view.received;
    out.missing = view.missing;
    out.verdict = verdict_number(view.verdict);
}

fn verdict_number(verdict: Verdict) -> u8
    ensures { result ≡ verdict_number verdict }
{
    match verdict {
        Verdict::Receiving => 0,
        Verdict::Complete(_) => 1,
        Verdict::NoRows(_) => 2,
        Verdict::Conflict(_) => 3,
    }
}

fn mark_of(verdict: Verdict) -> u64
    ensures { result ≡ mark_of verdict }
{
    match verdict {
        Verdict::Receiving => 0,
        Verdict::Complete(mark) => mark,
        Verdict::NoRows(mark) => mark,
        Verdict::Conflict(mark) => mark,
    }
}
