//! The counters of a device.

/// Payloads that were not acted on, and fragments that were dropped. Each counter stops at its type's end.
#[derive(Clone, Copy, Debug, PartialEq, Eq)]
pub struct Counts {
    /// Payloads that were not heard, and bytes from the radio that were no frame of the group that is heard.
    pub deaf: u64,
    /// Payloads where reading stopped.
    pub refused: u64,
    /// Payloads whose answers the outbox had no room for.
    pub full: u64,
    /// Fragments that no session heard.
    pub dropped: u64,
}
