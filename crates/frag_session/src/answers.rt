//! What a session is asked, and what it answers.

/// How a payload came: by unicast or by a multicast group.
#[derive(Clone, Copy, Debug, PartialEq, Eq)]
pub enum Via {
    /// To the device alone.
    Unicast,
    /// By the multicast group with this id.
    Group(u8),
}

/// Why a fragment (TS004-1.0.0, DataFragment) is dropped.
#[derive(Clone, Copy, Debug, PartialEq, Eq)]
pub enum Cause {
    /// There is no session.
    NoSession,
    /// It came by a group that is not in the session's mask.
    Group,
    /// No fragment of the session has this number.
    Index,
    /// It doesn't have the session's number of bytes.
    Size,
}

/// Whether a heard fragment was new: nothing was decided when it came, and it changed the gain, the pieces that came uncoded, or
/// the verdict.
#[derive(Clone, Copy, Debug, PartialEq, Eq)]
pub enum News {
    /// It was new.
    New,
    /// It changed nothing that is known.
    Old,
}

/// What happened to a fragment.
#[derive(Clone, Copy, Debug, PartialEq, Eq)]
pub enum Heard {
    /// It was heard.
    Fed(News),
    /// It was dropped, and changed nothing.
    Dropped(Cause),
}

/// What is known of the file, with the mark of the fragment that decided it.
#[derive(Clone, Copy, Debug, PartialEq, Eq)]
pub enum Verdict {
    /// Nothing is decided yet.
    Receiving,
    /// Only one file fits the fragments heard.
    Complete(u64),
    /// There were more independent coded fragments than rows.
    NoRows(u64),
    /// No file fits.
    Conflict(u64),
}

/// What a session shows.
#[derive(Clone, Copy, Debug)]
pub struct View<'a> {
    /// Fragments heard, repeats included, at most 16,383.
    pub received: u16,
    /// Pieces still to be gained.
    pub missing: u16,
    /// What is known of the file.
    pub verdict: Verdict,
    /// The file, empty unless the session is complete.
    pub file: &'a [u8],
}

/// The fields of a FragSessionStatusAns (TS004-1.0.0, 3.2), and the delay of the answer.
#[derive(Clone, Copy, Debug, PartialEq, Eq)]
pub struct StatusAns {
    /// NbFragReceived: fragments heard, repeats included, at most 16,383.
    pub received: u16,
    /// MissingFrag: pieces still to be gained, at most 255.
    pub missing: u8,
    /// Not enough matrix memory: there were more independent coded fragments than rows.
    pub norows: bool,
    /// BlockAckDelay of the setup, for answers to a request by multicast.
    pub delay: u8,
}
