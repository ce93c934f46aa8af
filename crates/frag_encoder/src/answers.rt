//! Why an encoder can't do what it is asked.

use thiserror::Error;

/// Why there is no encoder.
#[derive(Clone, Copy, Debug, PartialEq, Eq, Error)]
pub enum EncoderError {
    /// There was not enough memory.
    #[error("out of memory")]
    Memory,
    /// The file is empty, a piece has 0 or more than 239 bytes, or the file has more than 4,096 pieces.
    #[error("the file or its pieces have a wrong size")]
    BadSize,
}

/// There is no fragment of this number.
#[derive(Clone, Copy, Debug, PartialEq, Eq, Error)]
#[error("no fragment has this number")]
pub struct Beyond;
