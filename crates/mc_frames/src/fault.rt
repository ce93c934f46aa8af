//! Why bytes are not opened.

use thiserror::Error;

/// Why a frame isn't opened: the first of these faults that it has.
#[derive(Clone, Copy, Debug, PartialEq, Eq, Error)]
pub enum FrameFault {
    /// There are fewer than 13 bytes.
    #[error("fewer than 13 bytes")]
    Short,
    /// There are more than 255 bytes.
    #[error("more than 255 bytes")]
    Long,
    /// The first byte isn't 60, or FCtrl is neither 00 nor 10.
    #[error("the header is none of a multicast frame")]
    Header,
    /// The address is another.
    #[error("the address is another")]
    Address,
    /// The port is 0.
    #[error("the port is 0")]
    Port,
    /// The count is not below `max`: the one of the 65,536 from `min` on that has the frame's low two bytes.
    #[error("the frame count is out of its range")]
    Count,
    /// The MIC is another.
    #[error("the MIC is another")]
    Mic,
}
