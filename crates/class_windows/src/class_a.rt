//! The receive windows of class A.

ghost use Rattle.std.specs.Prelude.{◌≡◌};
ghost use Rattle.class_windows.specs.Open.{is_open_a, is_after_uplink};

/// A class A device, which hears only after an uplink (LoRaWAN 1.0, receive windows).
#[derive(Clone, Copy, Debug)]
pub struct ClassA {
    /// The due moment of the uplink made last, in ms of true time.
    pub last_due: Option<u64>,
}

impl ClassA {
    /// Says whether the device hears at `t` ms of true time: 1,000 to 1,099 or 2,000 to 2,099 ms after its uplink.
    pub fn open_at(&self, t: u64) -> bool
        ensures { result ≡ is_open_a self.now.last_due t }
    {
        match self.last_due {
            None => false,
            Some(due) => is_after_uplink(due, t),
        }
    }
}

#[tactic(auto, unfolding(crate::specs::Open::is_after_uplink))]
fn is_after_uplink(due: u64, t: u64) -> bool
    ensures { result ≡ is_after_uplink due t }
{
    t >= due && matches!(t - due, 1000..=1099 | 2000..=2099)
}
