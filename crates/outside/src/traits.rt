//! The traits of sources and sinks.

ghost use Rattle.std.specs.Prelude.{◌≡◌, ◌+◌, ◌<◌, ◌≤◌, [], length, min, take, IfSome, IfOk, OnErr, IsErr, IsErrOf};
ghost use Rattle.outside.specs.Outside.{LAST, SourceState, SinkState, HasRisen, Opens, asked_after, MovesBytes, AppendsText};

use std::alloc::AllocError;
use thiserror::Error;

/// The most bytes of one read or one write.
pub const PIECE_BYTES: usize = 65_536;

/// The error of a read or a write that failed.
#[derive(Clone, Copy, Debug, PartialEq, Eq)]
pub struct Failed;

/// Why a file was not opened.
#[derive(Clone, Copy, Debug, PartialEq, Eq, Error)]
pub enum OpenFault {
    /// The name cannot be opened.
    #[error("cannot be opened")]
    Failed,
    /// Out of memory, for the name or for opening the file.
    #[error("out of memory")]
    OutOfMemory,
}

impl From<AllocError> for OpenFault {
    ghost use Rattle.outside.specs.declared.traits.OpenFault.{OpenFault};

    ghost from_gives = { λ _ r. r ≡ OpenFault.OutOfMemory };

    fn from(_: AllocError) -> OpenFault {
        OpenFault::OutOfMemory
    }
}

/// Files by name, at most one of which is open at a time.
///
/// A source counts its faults: names that cannot be opened, and reads that fail. With no open file,
/// `read` returns 0.
pub trait Sources {
    // The contents and the bytes left of the open file, if they are known to the contract, the
    // names asked for, and the count of faults.
    ghost state: { Self → SourceState };

    /// Closes the open file, and opens the one with this name.
    ///
    /// Errors: `Failed`, which is a fault, and `OutOfMemory`. No file is open then.
    fn open_file(&mut self, name: &str) -> Result<(), OpenFault>
        ensures opened { Opens result ((state self.old).content name.now) (state self.new).left }
        ensures asked { (state self.new).asked
            ≡ asked_after result name.now (state self.old).faults (state self.old).asked }
        ensures cause { IsErrOf result OpenFault.Failed
            → HasRisen (state self.old).faults (state self.new).faults }
        ensures later { (state self.old).faults ≤ (state self.new).faults }
        ensures same { (state self.new).content ≡ (state self.old).content };

    /// Reads bytes into the beginning of the buffer, and returns their number. For a buffer that is
    /// not empty, the number is 0 only at the end of the file.
    ///
    /// Errors: `Failed`, which is a fault.
    fn read(&mut self, buf: &mut [u8]) -> Result<usize, Failed>
        ensures most { IfOk result (λ n. n ≤ length buf.old) }
        ensures moved { IfOk result (λ n. IfSome (state self.old).left
            (λ bytes. MovesBytes n bytes buf.new (state self.new).left)) }
        ensures cause { IsErr result → HasRisen (state self.old).faults (state self.new).faults }
        ensures later { (state self.old).faults ≤ (state self.new).faults }
        ensures asked { (state self.new).asked ≡ (state self.old).asked }
        ensures same { (state self.new).content ≡ (state self.old).content };
}

/// A destination of bytes. A sink counts its faults: the writes that fail.
pub trait Sink {
    // The bytes written, if they are known to the contract, and the count of faults.
    ghost state: { Self → SinkState };

    /// Writes the first bytes of a piece, and returns their number: at least 1 if the piece is not
    /// empty.
    ///
    /// Errors: `Failed`, which is a fault. No byte is written then.
    fn write(&mut self, bytes: &[u8]) -> Result<usize, Failed>
        ensures most { IfOk result (λ n. n ≤ length bytes.now) }
        ensures some { IfOk result (λ n. 0 < length bytes.now → 0 < n) }
        ensures added { IfOk result (λ n. AppendsText (state self.old).written
            (state self.new).written (take n bytes.now)) }
        ensures failed { OnErr result (AppendsText (state self.old).written
            (state self.new).written []) }
        ensures cause { IsErr result → HasRisen (state self.old).faults (state self.new).faults }
        ensures later { (state self.old).faults ≤ (state self.new).faults };
}

// Counts one more fault. The count stops at the maximum of its type.
pub(crate) fn raise(count: &mut u64)
    ensures risen { HasRisen count.old count.new }
    ensures later { count.old ≤ count.new }
    ensures exact { count.new ≡ min (count.old + 1) LAST }
{
    *count = count.saturating_add(1);
}
