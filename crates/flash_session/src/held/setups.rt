//! A session in flash is set up and deleted.

ghost use Rattle.std.specs.Prelude.{◌≡◌, ◌≢◌, ◌+◌, ◌≤◌, Option, Some, None, IfOk, is_some};
ghost use Rattle.std.specs.Prelude.{option_map, true};
ghost use Rattle.flash_session.specs.Body.{FieldsFit, setup_bytes};
ghost use Rattle.flash_session.specs.HeldCalls.{HeldServes, OldOrNew, OldNoneOrNew};
ghost use Rattle.flash_session.specs.HeldSession.{room_in};
ghost use Rattle.flash_session.specs.Sessions.{HeldStandsAs};
ghost use Rattle.frag_session.specs.Session.{Session, after_setup, new_session};
ghost use Rattle.frag_session.specs.Setup.{lives, setup_bits};

use super::Held;
use crate::beginning::{begin, end};
use crate::flash::Flash;
use frag_session::{Idle, SetupReq};

impl<const W: usize, const B: usize> Held<W, B> {
    /// Takes a FragSessionSetupReq (TS004-1.0.0) and returns all refusal bits, as a slot does; 2 is set too where the range is
    /// too short for the session's records. A refused setup and an equal one make no flash call. Any other closes the header's
    /// gate where there is a session, clears all other gates, writes the setup and opens the header's gate, and syncs after each
    /// step. At Err the memory is returned: open the session again.
    pub fn setup<F: Flash>(
        self,
        flash: &mut F,
        req: SetupReq,
    ) -> Result<(Held<W, B>, u8), Idle<W, B>>
        requires range { self.base + self.span ≤ (F.seen flash.old).room }
        requires fields { FieldsFit req }
        ensures bits { IfOk result
            (λ r. r.1 ≡ setup_bits self.entry.limits (room_in self.entry) req) }
        // A stop at any moment leaves the session as it was, none, or the new one.
        ensures serves { HeldServes W B self.entry
            (λ o. after_setup self.entry.limits (room_in self.entry) o req)
            (OldNoneOrNew self.entry) (F.seen flash.old) (F.seen flash.new) result }
        // Without a new session no flash is called.
        ensures refused { setup_bits self.entry.limits (room_in self.entry) req ≢ 0
            → flash.new ≡ flash.old }
        ensures equal { (o : Option Session) → HeldStandsAs self.entry o
            → lives (option_map (λ (s : Session). s.setup) o) req ≡ true → flash.new ≡ flash.old }
    {
        let bits = self.slot.refusal(req, self.limits, Some(self.span));
        if bits != 0 {
            return Ok((self, bits));
        }
        if self.slot.keeps(req) {
            return Ok((self, 0));
        }
        self.renew(flash, req)
    }

    /// Begins a session instead of whatever was there, and answers no refusal bit.
    fn renew<F: Flash>(self, flash: &mut F, req: SetupReq) -> Result<(Held<W, B>, u8), Idle<W, B>>
        requires range { self.base + self.span ≤ (F.seen flash.old).room }
        requires fields { FieldsFit req }
        requires fine { setup_bits self.limits (room_in self) req ≡ 0 }
        ensures bits { IfOk result (λ r. r.1 ≡ 0) }
        ensures serves { HeldServes W B self.entry (λ o. Some (new_session self.entry.limits req))
            (OldNoneOrNew self.entry) (F.seen flash.old) (F.seen flash.new) result }
    {
        let Held {
            mut slot,
            limits,
            base,
            span,
            records: _records,
            tallies: _tallies,
        } = self;
        let lives = slot.has_session();
        match begin(flash, base, span, lives, &setup_bytes(req)) {
            Ok(()) => {
                slot.renew(req, limits);
                Ok((
                    Held {
                        slot,
                        limits,
                        base,
                        span,
                        records: 0,
                        tallies: 0,
                    },
                    0,
                ))
            }
            Err(_) => Err(slot.end()),
        }
    }

    /// Ends the session, as FragSessionDeleteReq asks (TS004-1.0.0); false exactly where there is none, and then no flash is
    /// called. At Err the memory is returned: open the session again.
    pub fn delete<F: Flash>(self, flash: &mut F) -> Result<(Held<W, B>, bool), Idle<W, B>>
        requires range { self.base + self.span ≤ (F.seen flash.old).room }
        ensures answer { (o : Option Session) → HeldStandsAs self.entry o
            → IfOk result (λ r. r.1 ≡ is_some o) }
        ensures ended { IfOk result (λ r. HeldStandsAs r.0 None) }
        // A stop at any moment leaves the session as it was, or none.
        ensures serves { HeldServes W B self.entry (λ o. None) (OldOrNew self.entry)
            (F.seen flash.old) (F.seen flash.new) result }
        ensures quiet { HeldStandsAs self.entry None → flash.new ≡ flash.old }
    {
        if !self.slot.has_session() {
            return Ok((self, false));
        }
        let Held {
            mut slot,
            limits,
            base,
            span,
            records: _records,
            tallies: _tallies,
        } = self;
        match end(flash, base, span) {
            Ok(()) => {
                slot.delete();
                Ok((
                    Held {
                        slot,
                        limits,
                        base,
                        span,
                        records: 0,
                        tallies: 0,
                    },
                    true,
                ))
            }
            Err(_) => Err(slot.end()),
        }
    }
}

/// The body of a setup (TS004-1.0.0, FragSessionSetupReq), reserved bits 0.
#[tactic(auto, unfolding(crate::specs::Body::setup_bytes))]
fn setup_bytes(req: SetupReq) -> [u8; 10]
    requires { FieldsFit req }
    ensures { result ≡ setup_bytes req }
{
    let count = req.nb_frag;
    let name = req.descriptor;
    [
        16 * req.index + req.mask,
        (count % 256) as u8,
        (count / 256) as u8,
        req.frag_size,
        8 * req.algo + req.delay,
        req.padding,
        (name % 256) as u8,
        (name / 256 % 256) as u8,
        (name / 65_536 % 256) as u8,
        (name / 16_777_216) as u8,
    ]
}
