//! The sectors of one range.

use crate::layout::FIXED;

/// The sectors of one range: its header's, six of gates, those of its records, a spare one, and the
/// journal's.
#[derive(Clone, Copy)]
pub struct Area {
    /// The header's sector.
    pub first: u32,
    /// How many its records have.
    pub records: u32,
}

impl Area {
    /// Returns sector `k` of those of header, gates and records.
    pub fn sector(&self, k: u32) -> u32 {
        self.first.saturating_add(k)
    }

    /// Returns how many those are.
    pub fn count(&self) -> u32 {
        FIXED.saturating_add(self.records)
    }

    /// Returns the sector that takes a copy of another.
    pub fn spare(&self) -> u32 {
        self.sector(self.count())
    }

    /// Returns the sector of the journal.
    pub fn journal(&self) -> u32 {
        self.sector(self.count().saturating_add(1))
    }
}
