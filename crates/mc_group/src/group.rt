//! One multicast group.

use mc_keys::Key;

/// A multicast group (TS005-1.0.0, McGroupSetupReq). It has no text, so that its key gets into no log.
#[derive(Clone, Copy, Default, PartialEq, Eq)]
pub struct Group {
    /// McAddr.
    pub addr: u32,
    /// McKey, unwrapped.
    pub key: Key,
    /// minMcFCount, the first frame count that is heard.
    pub min: u32,
    /// maxMcFCount, the first frame count that isn't heard any more.
    pub max: u32,
}
