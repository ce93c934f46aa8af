//! How far a solver has come, and what it answers to a fragment.

/// How far a solver has come.
#[derive(Clone, Copy, Debug, PartialEq, Eq)]
pub enum Stage {
    /// Nothing was begun.
    Idle,
    /// It takes fragments.
    Receiving,
    /// Only one block fits.
    Complete,
    /// No block fits, or there were too few rows.
    Ended,
}

/// What a fragment led to.
#[derive(Clone, Copy, Debug, PartialEq, Eq)]
pub enum Fed {
    /// Two different blocks fit: more fragments are needed.
    Receiving,
    /// Only one block fits.
    Complete,
    /// A block fits, but there was one independent coded fragment more than rows.
    NoRows,
    /// No block fits.
    Conflict,
}
