//! The reader of a trace that comes in pieces.

ghost use Rattle.std.specs.Prelude.{◌≡◌, ◌++◌, ◌≤◌, List, ℕ, [], length, take, All, OnOk, IfOk};
ghost use Rattle.ideal_heap.specs.Commands.{IsValid};
ghost use Rattle.trace_text.specs.Grammar.{Gives, trace};
ghost use Rattle.trace_text.specs.Readers.{HasRead, HasWholeLines};

use crate::fault::TraceFault;
use crate::limits::MAX_COMMANDS;
use crate::line_reader::LineReader;
use crate::short_line::shortened;
use memchr::{memchr, memrchr};
use std::alloc::{AllocError, Global};
use stored_commands::StoredTrace;

/// Reads a trace in the format `mmtrace 1` from its text, which comes in pieces of any size.
///
/// It keeps the commands of the whole lines so far and at most a piece of the text after the last
/// newline: of a long line only what its fault depends on.
#[derive(Debug, Drop)]
pub struct TraceReader {
    alloc: Global,
    pub(crate) lines: LineReader,
    // The text after the last newline, or one that stands for it.
    pub(crate) begun: Vec<u8>,
}

// A line with more bytes is shortened as it is read.
const LONG_LINE: usize = 1024;

// The bytes up to the first newline and with it, 0 if there is none.
fn first_line(text: &[u8]) -> usize
    ensures within { result ≤ length text.now }
    ensures whole { HasWholeLines (take result text.now) }
{
    match memchr(b'\n', text) {
        Some(place) => place + 1,
        None => 0,
    }
}

// The bytes up to the last newline and with it, 0 if there is none.
fn whole_lines(text: &[u8]) -> usize
    ensures within { result ≤ length text.now }
    ensures whole { HasWholeLines (take result text.now) }
{
    match memrchr(b'\n', text) {
        Some(place) => place + 1,
        None => 0,
    }
}

impl TraceReader {
    /// A reader that has read nothing.
    pub fn new(alloc: Global) -> TraceReader
        ensures { HasRead result [] }
    {
        TraceReader {
            alloc,
            lines: LineReader::new(alloc),
            begun: Vec::new(alloc),
        }
    }

    // Adds a piece to the line that has begun.
    fn begin_line(&mut self, piece: &[u8]) -> Result<(), AllocError>
        ensures { OnOk result ((text : List ℕ) → HasRead self.old text
            → HasRead self.new (text ++ piece.now)) }
    {
        self.begun.extend_from_slice(piece)?;
        if self.begun.len() <= LONG_LINE {
            return Ok(());
        }
        self.begun = shortened(self.alloc, &self.begun)?;
        Ok(())
    }

    /// Reads the next piece of the text. After a bad line it reads no more lines.
    ///
    /// Fails if memory runs out. The reader is of no use then.
    pub fn read(&mut self, piece: &[u8]) -> Result<(), AllocError>
        ensures { OnOk result ((text : List ℕ) → HasRead self.old text
            → HasRead self.new (text ++ piece.now)) }
    {
        self.lines.reserve(piece.len())?;
        let first = first_line(piece);
        if first == 0 {
            return self.begin_line(piece);
        }
        self.begun.extend_from_slice(&piece[..first])?;
        self.lines.read(&self.begun)?;
        self.begun.clear();
        let rest = &piece[first..];
        let end = whole_lines(rest);
        self.lines.read(&rest[..end])?;
        self.begun.extend_from_slice(&rest[end..])
    }

    /// The commands, after the last piece.
    ///
    /// Errors: those of `read_trace`.
    pub fn finish(mut self) -> Result<StoredTrace, TraceFault>
        ensures text { (text : List ℕ) → HasRead self text
            → Gives (λ v. v) result (trace text) }
        ensures valid { (text : List ℕ) → HasRead self text
            → IfOk result (All IsValid) }
        ensures few { (text : List ℕ) → HasRead self text
            → IfOk result (λ v. length v ≤ MAX_COMMANDS) }
    {
        self.lines.read(&self.begun)?;
        self.lines.finish()
    }
}
