//! How a run of the program ended.

ghost use Rattle.std.specs.Prelude.{◌≡◌};

/// How a run ended, and what was written.
#[derive(Clone, Copy, Debug, PartialEq, Eq)]
pub enum Status {
    /// The command's text was written.
    Done,
    /// The words are no form.
    Usage,
    /// The image's bytes are no image file.
    ImageRefused,
    /// A line of the script, or of the file of payloads, was refused.
    ScriptRefused,
    /// A file could not be chosen or read.
    ReadFault,
    /// The text could not be written.
    WriteFault,
    /// There was not enough memory, and nothing was written.
    Memory,
    /// A source has more bytes than its limit; so many were taken, one more than the limit.
    TooLong(u32),
    /// The device has no whole file.
    NotComplete,
}

impl Status {
    ghost use Rattle.fuota_run.specs.Exit.{exit_code};

    /// Returns the status that the program ends with.
    pub fn code(self) -> u8
        ensures { result ≡ exit_code self }
    {
        match self {
            Status::Done => 0,
            Status::Usage => 2,
            Status::ImageRefused => 3,
            Status::ScriptRefused => 4,
            Status::ReadFault => 5,
            Status::WriteFault => 6,
            Status::Memory => 7,
            Status::TooLong(_) => 8,
            Status::NotComplete => 9,
        }
    }
}
