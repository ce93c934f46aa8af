//! When a payload comes to a device.

/// When a payload comes, and what the caller passes with it.
#[derive(Clone, Copy, Debug, PartialEq, Eq)]
pub struct Moment {
    /// In ms of true time.
    pub t: u64,
    /// A random word.
    pub word: u32,
    /// The number that marks a verdict.
    pub mark: u64,
}
