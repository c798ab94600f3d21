//! The reader of lines: the commands of the lines that it has read, or the first fault.

ghost use Rattle.std.specs.Prelude.{◌≡◌, ◌<◌, ◌≤◌, List, ℕ, [], None, length, IfOk, OnOk, MatchOption};
ghost use Rattle.trace_text.specs.Grammar.{lines_of, with_header};
ghost use Rattle.trace_text.specs.Readers.{end_of_lines, ReadsLines};

use crate::fault::{TraceFault, Why};
use crate::good_lines::first_command;
use crate::limits::MAX_COMMANDS;
use crate::lines::next_command;
use crate::splitter::next_line;
use std::alloc::{AllocError, Global};
use stored_commands::{PackedCommand, StoredTrace};

// The number of the last line that a trace may have: one after its header for each command.
const LAST_LINE: u32 = MAX_COMMANDS + 1;

// The bytes of the shortest line, `gc` and its newline.
const LEAST_LINE: usize = 3;

// From this many bytes on a text may be the first piece of a trace of any length.
const LONG_TEXT: usize = 32_768;

/// The lines read so far. Lines after the first bad one are not read.
#[derive(Debug, Drop)]
pub(crate) struct LineReader {
    pub(crate) commands: StoredTrace,
    /// The number of the next line, from 1 on.
    pub(crate) number: u32,
    pub(crate) fault: Option<TraceFault>,
}

impl LineReader {
    /// No line is read.
    pub(crate) fn new(alloc: Global) -> LineReader
        ensures { (lines : List (List ℕ)) → end_of_lines result lines ≡ with_header lines }
    {
        LineReader {
            commands: StoredTrace::new(alloc),
            number: 1,
            fault: None,
        }
    }

    /// Takes the memory for the commands of a text that begins with a piece of this many bytes, so
    /// that no command is copied as the list grows.
    pub(crate) fn reserve(&mut self, bytes: usize) -> Result<(), AllocError>
        ensures { OnOk result ((lines : List (List ℕ))
            → end_of_lines self.new lines ≡ end_of_lines self.old lines) }
    {
        let most = if bytes < LONG_TEXT {
            bytes / LEAST_LINE + 1
        } else {
            MAX_COMMANDS as usize
        };
        self.commands.reserve(most)
    }

    // Reads the header if it is the next line, and returns the text after it. `None` if there is
    // no more to read.
    fn after_header<'t>(&mut self, text: &'t [u8]) -> Option<&'t [u8]>
        ensures end { MatchOption result (ReadsLines self.old self.new (lines_of text.now) [])
            (λ rest. ReadsLines self.old self.new (lines_of text.now) (lines_of rest.now)) }
        ensures next { MatchOption result (Unit {0}) (λ rest. (self.new.fault ≡ None)
            × (1 < self.new.number)) }
    {
        if self.fault.is_some() {
            return None;
        }
        if self.number > 1 {
            return Some(text);
        }
        let (line, rest) = next_line(text)?;
        if line != b"mmtrace 1".as_slice() {
            self.fault = Some(TraceFault::Line(1, Why::Header));
            return None;
        }
        self.number = 2;
        Some(rest)
    }

    // Reads the lines at the start of a text whose commands are short. Returns the other lines.
    #[inline(never)]
    fn read_short<'t>(&mut self, text: &'t [u8]) -> Result<&'t [u8], AllocError>
        requires none { self.old.fault ≡ None }
        requires begun { 1 < self.old.number }
        ensures lines { IfOk result (λ rest. ReadsLines self.old self.new
            (lines_of text.now) (lines_of rest.now)) }
        ensures none { IfOk result (λ rest. self.new.fault ≡ None) }
        ensures begun { IfOk result (λ rest. 1 < self.new.number) }
        ensures fewer { IfOk result (λ rest. length rest.now ≤ length text.now) }
    {
        let mut rest = text;
        while let Some((command, end)) = first_command(rest) {
            if LAST_LINE < self.number {
                return Ok(rest);
            }
            self.commands.push(command)?;
            self.number += 1;
            rest = &rest[end..];
        }
        Ok(rest)
    }

    /// Reads the lines of a text.
    pub(crate) fn read(&mut self, text: &[u8]) -> Result<(), AllocError>
        ensures { OnOk result (ReadsLines self.old self.new (lines_of text.now) []) }
    {
        let Some(mut rest) = self.after_header(text) else {
            return Ok(());
        };
        'lines: loop {
            rest = self.read_short(rest)?;
            let Some((read, remaining)) = next_command(rest) else {
                return Ok(());
            };
            if self.number > LAST_LINE {
                self.fault = Some(TraceFault::TooMany);
                return Ok(());
            }
            match read {
                Ok(command) => self.commands.push(PackedCommand::new(&command))?,
                Err(why) => {
                    self.fault = Some(TraceFault::Line(self.number, why));
                    return Ok(());
                }
            }
            self.number += 1;
            rest = remaining;
        }
    }

    /// The commands of all lines, or the first fault.
    pub(crate) fn finish(self) -> Result<StoredTrace, TraceFault>
        ensures { result ≡ end_of_lines self [] }
    {
        match self.fault {
            Some(fault) => Err(fault),
            None if self.number <= 1 => Err(TraceFault::Line(1, Why::Header)),
            None => Ok(self.commands),
        }
    }
}
