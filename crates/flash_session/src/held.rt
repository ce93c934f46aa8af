//! A session held in flash: a slot in memory, and what is stored of it in a range.

ghost use Rattle.std.specs.Prelude.{◌≡◌, ◌+◌, ◌≤◌, Option, IfSome, length, min, option_map};
ghost use Rattle.frag_session.specs.Limits.{max_received};
ghost use Rattle.frag_session.specs.Session.{Session, status_of, view_of};
ghost use Rattle.frag_session.specs.HeldView.{seen};
ghost use Rattle.frag_session.specs.HeldSteps.{extent_of};
ghost use Rattle.flash_session.specs.Sessions.{HeldStandsAs, CountsAs};

mod hearing;
mod opening;
mod setups;

use frag_session::{Idle, Limits, Slot, StatusAns, Via, View};
use std::marker::Model;

/// The end of the count of fragments that a session heard.
const MAX_RECEIVED: u16 = 16383;

/// A session held in the `span` bytes from `base` of a flash, or a place for one there. Contracts see what it holds in memory,
/// for which sessions it stands, and what is in the range. `W` and `B` are those of its `Solver`.
pub struct Held<const W: usize, const B: usize> {
    slot: Slot<W, B>,
    limits: Limits,
    base: u32,
    span: u32,
    records: u16,
    tallies: u16,
}

impl<const W: usize, const B: usize> Model for Held<W, B> {
    ghost use Rattle.flash_session.specs.HeldSession.{HeldSession};
    ghost use Rattle.flash_session.specs.HeldInside.{IsHeldSession};

    ghost Value = { HeldSession };

    ghost view = { λ h. record {
      slot = h.slot;
      limits = h.limits;
      base = h.base;
      span = h.span;
      records = h.records;
      tallies = h.tallies;
      words = W;
      bytes = B;
    } };

    ghost invariant = { λ h. IsHeldSession (record {
      slot = h.slot;
      limits = h.limits;
      base = h.base;
      span = h.span;
      records = h.records;
      tallies = h.tallies;
      words = W;
      bytes = B;
    }) };
}

impl<const W: usize, const B: usize> Drop for Held<W, B> {
    fn drop(self) {
        let Held {
            slot: _,
            limits: _,
            base: _,
            span: _,
            records: _,
            tallies: _,
        } = self;
    }
}

impl<const W: usize, const B: usize> Held<W, B> {
    /// Returns the memory, for another opening. No flash is called.
    pub fn close(self) -> Idle<W, B>
        ensures { result ≡ extent_of self.entry.slot }
    {
        let Held {
            slot,
            limits: _limits,
            base: _base,
            span: _span,
            records: _records,
            tallies: _tallies,
        } = self;
        slot.end()
    }

    /// Returns what the session shows; None where there is none.
    pub fn view(&self) -> Option<View<'_>>
        ensures value { (o : Option Session) → HeldStandsAs self.now o → CountsAs self.now o
            → option_map seen result ≡ view_of o }
        ensures within { IfSome result (λ v. length v.file.now ≤ (extent_of self.now.slot).area) }
        ensures few { IfSome result (λ v. v.received ≤ max_received) }
    {
        match self.slot.view() {
            None => None,
            Some(view) => Some(View {
                received: self.received(),
                missing: view.missing,
                verdict: view.verdict,
                file: view.file,
            }),
        }
    }

    /// Answers a FragSessionStatusReq (TS004-1.0.0), as a slot does.
    pub fn status(&self, via: Via, all: bool) -> Option<StatusAns>
        ensures answer { (o : Option Session) → HeldStandsAs self.now o → CountsAs self.now o
            → result ≡ status_of o via all }
        ensures few { IfSome result (λ a. a.received ≤ max_received) }
    {
        match self.slot.status(via, all) {
            None => None,
            Some(status) => Some(StatusAns {
                received: self.received(),
                missing: status.missing,
                norows: status.norows,
                delay: status.delay,
            }),
        }
    }

    /// How many fragments were heard, up to the count's end.
    fn received(&self) -> u16
        ensures value { result ≡ min (self.now.records + self.now.tallies) max_received }
        ensures few { result ≤ max_received }
    {
        let count = u32::from(self.records) + u32::from(self.tallies);
        count.min(u32::from(MAX_RECEIVED)) as u16
    }
}
