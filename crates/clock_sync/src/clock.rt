//! The clock of a device.

ghost use Rattle.std.specs.Prelude.{◌≡◌, ◌≢◌, ◌↔◌, ◌<◌, ◌*◌, ◌^◌};
ghost use Rattle.clock_sync.specs.Clock.{first_clock, device_time, device_millis, after_answer};

use std::marker::Model;
use sync_wire::Cmd;

/// What an AppTimeAns (TS003-1.0.0) does to a clock.
#[derive(Clone, Copy, Debug, PartialEq, Eq)]
pub enum Taken {
    /// Its correction was added.
    Set,
    /// It answers another request, and nothing changed.
    OtherToken,
}

/// A device's clock (TS003-1.0.0). Contracts see its offset and token.
#[derive(Debug, Drop)]
pub struct DeviceClock {
    /// The seconds that the clock is ahead of true time, modulo 2^32.
    offset: u32,
    /// The token of the next AppTimeReq.
    token: u8,
}

impl Model for DeviceClock {
    ghost use Rattle.std.specs.Prelude.{◌<◌};
    ghost use Rattle.clock_sync.specs.Clock.{Clock};

    ghost Value = { Clock };

    ghost view = { λ c. record { offset = c.offset; token = c.token } };

    ghost invariant = { λ c. c.token < 16 };
}

impl DeviceClock {
    /// Makes a clock that is `offset` seconds ahead of true time, before its first request.
    pub fn new(offset: u32) -> Self
        ensures { result ≡ first_clock offset }
    {
        DeviceClock::with_token(offset, 0)
    }

    /// Makes a clock that is `offset` seconds ahead of true time, and whose next request has this token, 0 to 15.
    pub fn with_token(offset: u32, token: u8) -> Self
        requires { token < 16 }
        ensures { result ≡ record { offset = offset; token = token } }
    {
        DeviceClock { offset, token }
    }

    /// Returns the device's time in seconds, modulo 2^32, at `t` ms of true time.
    pub fn now(&self, t: u64) -> u32
        ensures { result ≡ device_time self.now t }
    {
        ((t / 1000 + self.offset as u64) % (1 << 32)) as u32
    }

    /// Returns the device's time in ms, modulo 1000 * 2^32, at `t` ms of true time.
    pub fn millis(&self, t: u64) -> u64
        ensures value { result ≡ device_millis self.now t }
        ensures within { result < 1000 * 2 ^ 32 }
    {
        (t % MILLIS_ROUND + 1000 * self.offset as u64) % MILLIS_ROUND
    }

    /// Makes an AppTimeReq at `t` ms of true time; `required` is AnsRequired.
    pub fn request(&self, t: u64, required: bool) -> Cmd
        ensures value { result ≡ Cmd.AppTimeReq (device_time self.now t) required self.now.token }
        ensures token { self.now.token < 16 }
    {
        Cmd::AppTimeReq {
            time: self.now(t),
            required,
            token: self.token,
        }
    }

    /// Takes an AppTimeAns: where its token is the clock's, its correction in seconds is added, and the token is raised modulo
    /// 16; else nothing changes.
    pub fn take_answer(&mut self, correction: i32, token: u8) -> Taken
        ensures other_token { (result ≡ Taken.OtherToken) ↔ (token ≢ self.old.token) }
        ensures value { self.new ≡ after_answer correction token self.old }
    {
        if token != self.token {
            return Taken::OtherToken;
        }
        self.offset = self.offset.wrapping_add_signed(correction);
        self.token = (self.token + 1) % 16;
        Taken::Set
    }

    /// Returns the seconds that the clock is ahead of true time, modulo 2^32.
    pub fn offset(&self) -> u32
        ensures { result ≡ self.now.offset }
    {
        self.offset
    }

    /// Returns the token of its next AppTimeReq, 0 to 15.
    pub fn token(&self) -> u8
        ensures value { result ≡ self.now.token }
        ensures few { result < 16 }
    {
        self.token
    }
}

/// The milliseconds after which a clock of 32 bits of seconds starts again from 0.
const MILLIS_ROUND: u64 = 1000 << 32;
