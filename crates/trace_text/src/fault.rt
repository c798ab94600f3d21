//! Errors of the reader.

ghost use Rattle.std.specs.Prelude.{◌≡◌};

use std::alloc::AllocError;
use thiserror::Error;

/// What is wrong with a line.
#[derive(Clone, Copy, Debug, PartialEq, Eq, Error)]
pub enum Why {
    /// The first line is not the header.
    #[error("header")]
    Header,
    /// The first word is no command.
    #[error("word")]
    Word,
    /// The line has the wrong number of arguments.
    #[error("count")]
    Count,
    /// An argument is not spelled as required.
    #[error("number")]
    Number,
    /// An argument's number is too large.
    #[error("range")]
    Range,
}

/// Why a trace was not read.
#[derive(Clone, Copy, Debug, PartialEq, Eq, Error)]
pub enum TraceFault {
    /// The number of the first bad line, counted from 1, and the first fault in it from the left.
    #[error("line {0}: {1}")]
    Line(u32, Why),
    /// Line 1,000,002 exists, and all lines before it are good.
    #[error("more than 1000000 commands")]
    TooMany,
    /// Out of memory. The text may be a trace or not.
    #[error("out of memory")]
    OutOfMemory,
}

impl From<AllocError> for TraceFault {
    ghost use Rattle.trace_text.specs.declared.fault.TraceFault.{TraceFault};

    ghost from_gives = { λ _ r. r ≡ TraceFault.OutOfMemory };

    fn from(_: AllocError) -> TraceFault {
        TraceFault::OutOfMemory
    }
}
