//! Sessions that run, on a clock that starts again from 0.

ghost use Rattle.std.specs.Prelude.{◌≡◌};
ghost use Rattle.class_windows.specs.Open.{is_running};

/// The milliseconds after which a clock of 32 bits of seconds starts again from 0.
pub const ROUND: u64 = 1000 << 32;

/// Says whether a session runs: `start` and `duration` are in seconds, `device_ms` in ms of the device's clock.
#[tactic(auto, unfolding(crate::specs::Open::is_running))]
pub fn is_running(start: u32, duration: u32, device_ms: u64) -> bool
    ensures { result ≡ is_running start duration device_ms }
{
    (device_ms % ROUND + ROUND - 1000 * start as u64) % ROUND < 1000 * duration as u64
}
