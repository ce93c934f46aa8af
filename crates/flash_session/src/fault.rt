//! Why a session in flash cannot be opened.

use thiserror::Error;

/// Why a session in flash cannot be opened.
#[derive(Clone, Copy, Debug, PartialEq, Eq, Error)]
pub enum OpenFault {
    /// A call of the flash failed.
    #[error("a call of the flash failed")]
    Flash,
    /// The bytes at this place, counted from the range's first byte, are no session's; it is the lowest such place.
    #[error("byte {0} of the range is no session's")]
    Foreign(u32),
}
