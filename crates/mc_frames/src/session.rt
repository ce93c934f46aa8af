//! The keys of a group's session.

/// The session keys of a multicast group (TS005-1.0.0, Multicast security). They have no text, so that none gets into a log.
#[derive(Clone, Copy, PartialEq, Eq)]
pub struct Keys {
    /// McAppSKey, which encrypts payloads.
    pub app_s: [u8; 16],
    /// McNetSKey, which makes the MIC of frames.
    pub net_s: [u8; 16],
}
