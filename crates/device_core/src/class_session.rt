//! Class sessions.

/// The class of a session, which says when its group is heard.
#[derive(Clone, Copy, Debug, PartialEq, Eq)]
pub enum Kind {
    ClassC,
    ClassB {
        /// Periodicity of the ping slots, 0 to 7.
        periodicity: u8,
    },
}

/// A class session (TS005-1.0.0): the one group that a device hears, and when.
#[derive(Clone, Copy, Debug, PartialEq, Eq)]
pub struct ClassSession {
    /// The group, 0 to 3.
    pub id: u8,
    pub kind: Kind,
    /// SessionTime, in seconds of the device's clock.
    pub time: u32,
    /// TimeOut, 0 to 15: it lasts 2^timeout s in class C, and 2^timeout beacon periods of 128 s in class B.
    pub timeout: u8,
}
