//! The sessions of class C.

ghost use Rattle.std.specs.Prelude.{◌<◌};

use crate::running::is_running;

/// A class C session (TS005-1.0.0, McClassCSessionReq): it hears whenever it runs.
#[derive(Clone, Copy, Debug)]
pub struct ClassC {
    /// SessionTime, the start, in seconds of the device's clock.
    pub session_time: u32,
    /// TimeOut, 0 to 15: the session lasts 2^timeout s.
    pub timeout: u8,
    ghost timeout_fits: { timeout < 16 },
}

impl ClassC {
    ghost use Rattle.std.specs.Prelude.{◌≡◌};
    ghost use Rattle.class_windows.specs.Open.{is_open_c};

    /// Says whether the device hears at `device_ms`, the milliseconds of the device's clock.
    pub fn open_at(&self, device_ms: u64) -> bool
        ensures { result ≡ is_open_c self.now.session_time self.now.timeout device_ms }
    {
        is_running(self.session_time, 1 << self.timeout, device_ms)
    }
}
