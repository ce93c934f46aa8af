//! The ping slots of class B.

ghost use Rattle.std.specs.Prelude.{◌<◌};

use crate::running::is_running;
use aes_block::encrypt_under_zeros;

/// A class B session (TS005-1.0.0, McClassBSessionReq): it runs from the beacon of its start on, and hears in its ping slots.
#[derive(Clone, Copy, Debug)]
pub struct ClassB {
    /// SessionTime, in seconds of the device's clock; rounded down to a beacon it is the start.
    pub session_time: u32,
    /// Periodicity, 0 to 7: every 2^(5 + periodicity)-th slot of 30 ms is one of the ping slots.
    pub periodicity: u8,
    /// TimeOut, 0 to 15: the session lasts 2^timeout beacon periods of 128 s.
    pub timeout: u8,
    ghost periodicity_fits: { periodicity < 8 },
    ghost timeout_fits: { timeout < 16 },
}

impl ClassB {
    ghost use Rattle.std.specs.Prelude.{◌≡◌, ◌↔◌, ◌<◌, ◌*◌, ◌^◌, IsTrue};
    ghost use Rattle.class_windows.specs.Open.{is_open_b};

    /// Says whether a frame to McAddr `addr` is heard at `device_ms`, the milliseconds of the device's clock.
    #[tactic(auto, unfolding(crate::specs::Open::is_ping_slot))]
    pub fn open_at(&self, device_ms: u64, addr: u32) -> bool
        requires { device_ms < 1000 * 2 ^ 32 }
        ensures { result
            ≡ is_open_b self.now.session_time self.now.periodicity self.now.timeout device_ms addr }
    {
        let beacon = beacon_at((device_ms / 1000) as u32);
        let start = beacon_at(self.session_time);
        is_running(start, 128 << self.timeout, device_ms)
            && is_in_slot(
                ping_offset(beacon, addr, self.periodicity),
                ping_period(self.periodicity),
                device_ms - 1000 * beacon as u64,
            )
    }
}

ghost use Rattle.std.specs.Prelude.{◌≡◌, ◌↔◌, ◌≤◌, ◌^◌, IsTrue};
ghost use Rattle.class_windows.specs.Open.{is_in_slot};
ghost use Rattle.class_windows.specs.Windows.{beacon_at, ping_offset, ping_period, rand};

/// Seconds, rounded down to a beacon.
fn beacon_at(seconds: u32) -> u32
    ensures { result ≡ beacon_at seconds }
{
    seconds / 128 * 128
}

fn ping_period(periodicity: u8) -> u16
    requires { periodicity < 8 }
    ensures { result ≡ ping_period periodicity }
{
    1 << (5 + periodicity)
}

fn rand(beacon: u32, addr: u32) -> [u8; 16]
    ensures { result ≡ rand beacon addr }
{
    let [b0, b1, b2, b3] = beacon.to_le_bytes();
    let [a0, a1, a2, a3] = addr.to_le_bytes();
    encrypt_under_zeros(&[b0, b1, b2, b3, a0, a1, a2, a3, 0, 0, 0, 0, 0, 0, 0, 0])
}

fn ping_offset(beacon: u32, addr: u32, periodicity: u8) -> u16
    requires { periodicity < 8 }
    ensures { result ≡ ping_offset beacon addr periodicity }
{
    let rand = rand(beacon, addr);
    (rand[0] as u16 + 256 * rand[1] as u16) % ping_period(periodicity)
}

/// Says whether one of every `period` slots from `offset` on is open so many ms after the beacon.
#[tactic(auto, unfolding(crate::specs::Open::is_in_slot))]
fn is_in_slot(offset: u16, period: u16, ms: u64) -> bool
    requires { 0 < period }
    ensures { result ≡ is_in_slot offset period ms }
{
    if ms < 2120 {
        return false;
    }
    let slot = (ms - 2120) / 30;
    if slot >= 4096 {
        return false;
    }
    slot >= offset as u64 && (slot - offset as u64) % period as u64 == 0
}
