//! How a run ends.

ghost use Rattle.std.specs.Prelude.{◌≡◌, ℕ};

/// How a run ends.
#[derive(Clone, Copy, Debug, PartialEq, Eq)]
pub enum Status {
    /// Each file was read to its end, each command has its reply, and the whole text was written
    /// (0).
    Ok,
    /// The arguments do not match the usage, or ask for a feature that is not implemented yet (2).
    Usage,
    /// A file could not be opened or read (3).
    ReadFault,
    /// A file has more than 16,777,216 bytes (4).
    TooLong,
    /// A file is not a trace: it breaks the grammar (5).
    BadTrace,
    /// The text was not written whole (6).
    WriteFault,
    /// Memory ran out (7).
    OutOfMemory,
}

impl Status {
    ghost use Rattle.driver.specs.Statuses.{status_number};

    /// The exit status of the process.
    pub fn number(self) -> u8
        ensures { result ≡ status_number self }
    {
        match self {
            Status::Ok => 0,
            Status::Usage => 2,
            Status::ReadFault => 3,
            Status::TooLong => 4,
            Status::BadTrace => 5,
            Status::WriteFault => 6,
            Status::OutOfMemory => 7,
        }
    }
}
