//! How a payload comes to a device.

use crate::moment::Moment;
use frag_session::Via;

/// How a payload came to a device.
#[derive(Clone, Copy, Debug, PartialEq, Eq)]
pub struct Arrival {
    pub moment: Moment,
    /// By unicast, or by the group of this id.
    pub via: Via,
    /// The port of its package, 200 to 203.
    pub port: u8,
}
