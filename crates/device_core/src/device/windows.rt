//! Class sessions of the device (TS005-1.0.0), and what it hears.

ghost use Rattle.std.specs.Prelude.{◌≡◌, ◌||◌, ◌*◌, ◌^◌, ◌<◌, ◌≤◌, length, is_none, IfSome};
ghost use Rattle.wire_base.specs.Numbers.{has_bit};
ghost use Rattle.package_grammar.specs.declared.command.Command.{Command};
ghost use Rattle.package_grammar.specs.declared.downlink.To.TheVariants.{Group};
ghost use Rattle.device_core.specs.SessionTable.{SessionTable};
ghost use Rattle.device_core.specs.ClassSessions.{start_of, class_session_after, session_answer, class_session_step, hears_unicast, is_open, hears};
ghost use Rattle.device_core.specs.Deliver.{via_of};
ghost use Rattle.device_core.specs.DeviceInside.{KindFits, SessionFits};
ghost use Rattle.device_core.specs.Sendable.{IsSendable};

use super::Device;
use crate::arrival::Arrival;
use crate::class_session::{ClassSession, Kind};
use crate::config::Class;
use cast_wire::Cmd;
use class_windows::{ClassA, ClassB, ClassC, session_answer};
use flash_session::Flash;
use frag_session::Via;
use package_grammar::{Command, To};

impl<F: Flash + Drop> Device<F> {
    ghost use Rattle.device_core.specs.HeldDevice.{device_of, StepsAside};

    /// Says whether a payload is heard.
    #[tactic(auto, unfolding(crate::specs::ClassSessions::hears))]
    pub(super) fn hears(&self, t: u64, to: To) -> bool
        ensures { (table : SessionTable) → result ≡ hears (device_of self.now table) t to }
    {
        match to {
            To::Unicast => hears_unicast(self.config.class, self.last_due, t),
            To::Group { addr, count } => self.hears_group(t, addr, count),
        }
    }

    /// Whether a payload for a group is heard.
    #[tactic(auto, unfolding(crate::specs::ClassSessions::hears))]
    fn hears_group(&self, t: u64, addr: u32, count: u32) -> bool
        ensures { (table : SessionTable)
            → result ≡ hears (device_of self.now table) t (Group addr count) }
    {
        match self.class_session {
            None => false,
            Some(session) => {
                self.groups.accepts(session.id, addr, count)
                    && is_open(session, self.clock.millis(t), addr)
            }
        }
    }

    /// McClassCSessionReq or McClassBSessionReq.
    pub(super) fn class_request(&mut self, here: Arrival, session: ClassSession, freq: u32, dr: u8)
        requires port { here.port ≡ 200 }
        requires id { session.id < 4 }
        requires timeout { session.timeout < 16 }
        requires kind { KindFits session.kind }
        requires room { length self.old.outbox < 8 }
        ensures { StepsAside self.old self.new 1
            (λ device. class_session_step here device session freq dr) }
    {
        let there = self.groups.get(session.id).is_some();
        let now = self.clock.now(here.moment.t);
        let start = start_of(session.kind, session.time);
        let (bits, start) = session_answer(there, now, start, freq, dr);
        self.class_session = class_session_after(bits, session, self.class_session);
        self.send(
            here.moment.t,
            here.port,
            request_answer(session.kind, session.id, bits, start),
        );
    }
}

/// When a session starts, in seconds of the device's clock.
fn start_of(kind: Kind, time: u32) -> u32
    ensures { result ≡ start_of kind time }
{
    match kind {
        Kind::ClassC => time,
        Kind::ClassB { .. } => time / 128 * 128,
    }
}

/// The class session of a device after a request.
fn class_session_after(
    bits: u8,
    session: ClassSession,
    old: Option<ClassSession>,
) -> Option<ClassSession>
    requires old { SessionFits old }
    requires id { session.id < 4 }
    requires timeout { session.timeout < 16 }
    requires kind { KindFits session.kind }
    ensures value { result ≡ class_session_after bits session old }
    ensures fits { SessionFits result }
{
    if bits == 0 { Some(session) } else { old }
}

/// McClassCSessionAns or McClassBSessionAns.
fn request_answer(kind: Kind, id: u8, bits: u8, start: Option<u32>) -> Command<'static>
    requires id { id < 4 }
    requires start { IfSome start (λ s. s < 2 ^ 24) }
    requires errors { is_none start ≡ (has_bit bits 4 || has_bit bits 3 || has_bit bits 2) }
    ensures value { result ≡ session_answer kind id bits start }
    ensures sendable { IsSendable 200 result }
{
    let undefined = bits >> 4 & 1 == 1;
    let freq_error = bits >> 3 & 1 == 1;
    let dr_error = bits >> 2 & 1 == 1;
    match kind {
        Kind::ClassC => Command::Cast(Cmd::McClassCSessionAns {
            id,
            undefined,
            freq_error,
            dr_error,
            start,
        }),
        Kind::ClassB { .. } => Command::Cast(Cmd::McClassBSessionAns {
            id,
            undefined,
            freq_error,
            dr_error,
            start,
        }),
    }
}

/// Whether a payload by unicast is heard.
fn hears_unicast(class: Class, last_due: Option<u64>, t: u64) -> bool
    ensures { result ≡ hears_unicast class last_due t }
{
    match class {
        Class::C => true,
        Class::A => {
            let windows = ClassA { last_due };
            windows.open_at(t)
        }
    }
}

/// Whether the window of a class session is open for an address.
fn is_open(session: ClassSession, device_ms: u64, addr: u32) -> bool
    requires ms { device_ms < 1000 * 2 ^ 32 }
    requires timeout { session.timeout < 16 }
    requires kind { KindFits session.kind }
    ensures { result ≡ is_open session session.kind device_ms addr }
{
    match session.kind {
        Kind::ClassC => {
            let windows = ClassC {
                session_time: session.time,
                timeout: session.timeout,
            };
            windows.open_at(device_ms)
        }
        Kind::ClassB { periodicity } => {
            let windows = ClassB {
                session_time: session.time,
                periodicity,
                timeout: session.timeout,
            };
            windows.open_at(device_ms, addr)
        }
    }
}

/// Returns the way that a payload comes.
pub fn via_of(session: Option<ClassSession>, to: To) -> Via
    ensures { result ≡ via_of session to }
{
    match (to, session) {
        (To::Group { .. }, Some(session)) => Via::Group(session.id),
        _ => Via::Unicast,
    }
}
