//! Commands of one mutator: random ones, and ones that are given as letters.

use ideal_heap::Command;
use std::alloc::{AllocError, Global};
use std::test::Fail;
use trace_text::read_trace;

pub(crate) fn create(d: u32, refs: u32, nums: u32) -> Command {
    Command::New { d, refs, nums }
}

// A source of numbers that look random: Marsaglia's xorshift.
#[derive(Drop)]
struct Random(u64);

impl Random {
    // A number below `end`.
    fn below(&mut self, end: u32) -> u32 {
        self.0 ^= self.0 << 13;
        self.0 ^= self.0 >> 7;
        self.0 ^= self.0 << 17;
        match end {
            0 => 0,
            _ => ((self.0 >> 20) % u64::from(end)) as u32,
        }
    }

    // An object for register `d`: most are small, and some take up to 15 blocks.
    fn object(&mut self, d: u32) -> Command {
        let end = match self.below(16) {
            0..9 => 16,
            9..12 => 256,
            12..15 => 4_096,
            _ => 60_001,
        };
        create(d, self.below(end.min(1_025)), self.below(end))
    }

    // A command. It may allocate an object: one of any size, or a small one.
    fn command(&mut self, any_size: bool) -> Command {
        let (d, s, g) = (self.below(16), self.below(16), self.below(16));
        let (i, n) = (self.below(4), u64::from(self.below(1_024)));
        match self.below(32) {
            0..8 if any_size => self.object(d),
            0..8 => create(d, self.below(4), self.below(128)),
            8..12 => Command::Put { s, i, v: d },
            12..16 => Command::Get { d, s, i },
            16..19 => Command::Read { s, j: i },
            19..22 => Command::Write { s, j: i, n },
            22 | 23 => Command::Add { s, j: i, n },
            24 => Command::Swap {
                s,
                j: i,
                was: 0,
                next: n,
            },
            25 | 26 => Command::Move { d, s },
            27 => Command::DropReg { s },
            28 => Command::Load { d, g },
            29 => Command::Share { g, s },
            30 => Command::Pin { s },
            _ => Command::Unpin { s },
        }
    }
}

pub(crate) fn random_commands(
    alloc: Global,
    seed: u64,
    count: usize,
    any_size: bool,
) -> Result<Vec<Command>, AllocError> {
    let mut random = Random(seed);
    let mut commands = Vec::new(alloc);
    for _ in 0..count {
        commands.push(random.command(any_size))?;
    }
    Ok(commands)
}

/// Commands, a letter each: a digit allocates half a block into that register, `a` to `h` clear
/// registers 0 to 7, `p` and `u` pin and unpin register 0, `.` is `gc`, `+` allocates a word more
/// than half a block into register 0, `w` a word more than a block into register 1, `-` the
/// smallest object, and anything else the largest one, which takes 15 blocks.
pub(crate) fn commands_of(alloc: Global, letters: &[u8]) -> Result<Vec<Command>, AllocError> {
    let mut commands = Vec::new(alloc);
    for letter in letters {
        commands.push(match *letter {
            b'0'..=b'9' => create(u32::from(*letter - b'0'), 0, 2045),
            b'a'..=b'h' => Command::DropReg {
                s: u32::from(*letter - b'a'),
            },
            b'p' => Command::Pin { s: 0 },
            b'u' => Command::Unpin { s: 0 },
            b'.' => Command::Gc,
            b'+' => create(0, 0, 2046),
            b'w' => create(1, 0, 4094),
            b'-' => create(0, 0, 0),
            _ => create(0, 1024, 60_000),
        })?;
    }
    Ok(commands)
}

// Appends the lines that semicolons separate, no line if there is no text.
fn push_lines(text: &mut Vec<u8>, lines: &str) -> Result<(), AllocError> {
    if lines.is_empty() {
        return Ok(());
    }
    for line in lines.split(';') {
        text.extend_from_slice(line.as_bytes())?;
        text.push(b'\n')?;
    }
    Ok(())
}

/// The text of a trace of commands, with semicolons between them: `first`, so often `again`, and
/// `last`.
pub(crate) fn trace_in(
    alloc: Global,
    first: &str,
    count: u32,
    again: &str,
    last: &str,
) -> Result<Vec<u8>, AllocError> {
    let mut text = Vec::from_slice(alloc, b"mmtrace 1\n")?;
    push_lines(&mut text, first)?;
    for _ in 0..count {
        push_lines(&mut text, again)?;
    }
    push_lines(&mut text, last)?;
    Ok(text)
}

/// The commands of such a trace.
pub(crate) fn commands_in(
    alloc: Global,
    first: &str,
    count: u32,
    again: &str,
    last: &str,
) -> Result<Vec<Command>, Fail> {
    Ok(read_trace(alloc, &trace_in(alloc, first, count, again, last)?)?)
}
