//! A session in flash hears a fragment.

ghost use Rattle.std.specs.Prelude.{◌≡◌, ◌+◌, ◌*◌, ◌<◌, ◌≤◌, length, Option, Some, OnOk, IfOk};
ghost use Rattle.flash_session.specs.HeldCalls.{HeldServes, OldOrNew};
ghost use Rattle.flash_session.specs.Layout.{most_records, records_place, spelled};
ghost use Rattle.flash_session.specs.Lies.{with_record};
ghost use Rattle.flash_session.specs.Ranges.{RangeServes, WasOrIs, Growing};
ghost use Rattle.flash_session.specs.Seen.{IsKept};
ghost use Rattle.flash_session.specs.Sessions.{HeldStandsAs};
ghost use Rattle.frag_session.specs.Limits.{max_received};
ghost use Rattle.frag_session.specs.Session.{Session, fragment, drop_cause, news_in, answer_of, after_fragment};

use super::{Held, MAX_RECEIVED};
use crate::flash::{Failed, Flash};
use crate::storing::{count_gate, store};
use frag_session::{Heard, Idle, News, Via};

impl<const W: usize, const B: usize> Held<W, B> {
    /// Hears the data of a fragment, or drops it, as a slot does. At Ok it is acknowledged: a new fragment is in the flash as a
    /// record, and any other is counted there, up to the count's end (16,383). At Err the memory is returned: open the session
    /// again.
    pub fn hear<F: Flash>(
        self,
        flash: &mut F,
        via: Via,
        n: u16,
        part: &[u8],
        mark: u64,
    ) -> Result<(Held<W, B>, Heard), Idle<W, B>>
        requires range { self.base + self.span ≤ (F.seen flash.old).room }
        ensures answer { (o : Option Session) → HeldStandsAs self.entry o
            → IfOk result
            (λ r. r.1 ≡ answer_of (drop_cause o via n part.now) (news_in o n part.now mark)) }
        // A stop at any moment leaves the session as it was, or followed by the fragment.
        ensures serves { HeldServes W B self.entry (λ o. after_fragment o via n part.now mark)
            (OldOrNew self.entry) (F.seen flash.old) (F.seen flash.new) result }
        // Nothing is written of a dropped fragment, nor of one that is not new once the count is at its end.
        ensures dropped { IfOk result
            (λ r. (c : _) → r.1 ≡ Heard.Dropped c → flash.new ≡ flash.old) }
        ensures same { IfOk result
            (λ r. (c : _) → r.1 ≡ Heard.Dropped c → r.0 ≡ self.entry) }
        ensures full { max_received ≤ self.entry.records + self.entry.tallies
            → IfOk result (λ r. r.1 ≡ Heard.Fed News.Old → flash.new ≡ flash.old) }
    {
        let Held {
            mut slot,
            limits,
            base,
            span,
            records,
            tallies,
        } = self;
        let heard = slot.fragment(via, n, part, mark);
        match heard {
            Heard::Dropped(_) => Ok((
                Held {
                    slot,
                    limits,
                    base,
                    span,
                    records,
                    tallies,
                },
                heard,
            )),
            Heard::Fed(News::New) => {
                match keep(flash, base, span, records, n, part, mark) {
                    Ok(()) => Ok((
                        Held {
                            slot,
                            limits,
                            base,
                            span,
                            records: records + 1,
                            tallies,
                        },
                        heard,
                    )),
                    Err(_) => Err(slot.end()),
                }
            }
            Heard::Fed(News::Old) => {
                if records as u32 + tallies as u32 >= MAX_RECEIVED as u32 {
                    return Ok((
                        Held {
                            slot,
                            limits,
                            base,
                            span,
                            records,
                            tallies,
                        },
                        heard,
                    ));
                }
                match count_gate(flash, base, span, tallies) {
                    Ok(()) => Ok((
                        Held {
                            slot,
                            limits,
                            base,
                            span,
                            records,
                            tallies: tallies + 1,
                        },
                        heard,
                    )),
                    Err(_) => Err(slot.end()),
                }
            }
        }
    }
}

/// Stores a fragment as record `records` of the session.
fn keep<F: Flash>(
    flash: &mut F,
    base: u32,
    span: u32,
    records: u16,
    n: u16,
    part: &[u8],
    mark: u64,
) -> Result<(), Failed>
    requires range { base + span ≤ (F.seen flash.old).room }
    requires small { length part.now ≤ 239 }
    requires gate { records < most_records }
    requires room { records_place + (10 + length part.now) * (records + 1) ≤ span }
    ensures stored { RangeServes base span (WasOrIs base)
        (λ (x : Growing (length part.now) records). Some x.session)
        (λ x. Some (with_record x.session (fragment n part.now mark)))
        (F.seen flash.old) (F.seen flash.new) result }
    ensures kept { OnOk result (IsKept (F.seen flash.new)) }
{
    let mut bytes = [0; 249];
    let piece = &mut bytes[..10 + part.len()];
    spell(n, part, mark, piece);
    store(flash, base, span, part.len() as u8, records, piece)
}

/// A record: the number in two bytes, the mark in eight, and the data.
#[tactic(auto, unfolding(crate::specs::Layout::spelled))]
fn spell(n: u16, part: &[u8], mark: u64, out: &mut [u8])
    requires { length out.old ≡ 10 + length part.now }
    ensures { out.new ≡ spelled (fragment n part.now mark) }
{
    out[..2].copy_from_slice(&n.to_le_bytes());
    out[2..10].copy_from_slice(&mark.to_le_bytes());
    out[10..].copy_from_slice(part);
}
