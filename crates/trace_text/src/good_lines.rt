//! The fast reader: a good line, read in one pass. Each function returns the command and the offset
//! of the next line, in bytes.

ghost use Rattle.std.specs.Prelude.{◌≤◌, length, IfSome};
ghost use Rattle.trace_text.specs.Parts.{IsFirstLine};

use crate::tokens::{global, line_end, register, small, value, word};
use ideal_heap::{Command, MAX_NUMS, MAX_REFS};
use stored_commands::PackedCommand;

// No good line has more bytes, with its newline.
const LINE_BYTES: usize = 64;

#[inline(always)]
fn new(text: &[u8]) -> Option<(PackedCommand, usize)>
    requires { LINE_BYTES ≤ length text.now }
    ensures { IfSome result (λ x. IsFirstLine x.0 text.now x.1) }
{
    let (d, at) = register(text, word(text, b"new")?)?;
    let (refs, at) = small(text, at, MAX_REFS)?;
    let (nums, at) = small(text, at, MAX_NUMS)?;
    let command = PackedCommand::new(&Command::New { d, refs, nums });
    Some((command, line_end(text, at)?))
}

#[inline(always)]
fn get(text: &[u8]) -> Option<(PackedCommand, usize)>
    requires { LINE_BYTES ≤ length text.now }
    ensures { IfSome result (λ x. IsFirstLine x.0 text.now x.1) }
{
    let (d, at) = register(text, word(text, b"get")?)?;
    let (s, at) = register(text, at)?;
    let (i, at) = small(text, at, MAX_REFS - 1)?;
    let command = PackedCommand::new(&Command::Get { d, s, i });
    Some((command, line_end(text, at)?))
}

#[inline(always)]
fn put(text: &[u8]) -> Option<(PackedCommand, usize)>
    requires { LINE_BYTES ≤ length text.now }
    ensures { IfSome result (λ x. IsFirstLine x.0 text.now x.1) }
{
    let (s, at) = register(text, word(text, b"put")?)?;
    let (i, at) = small(text, at, MAX_REFS - 1)?;
    let (v, at) = register(text, at)?;
    let command = PackedCommand::new(&Command::Put { s, i, v });
    Some((command, line_end(text, at)?))
}

#[inline(always)]
fn read(text: &[u8]) -> Option<(PackedCommand, usize)>
    requires { LINE_BYTES ≤ length text.now }
    ensures { IfSome result (λ x. IsFirstLine x.0 text.now x.1) }
{
    let (s, at) = register(text, word(text, b"read")?)?;
    let (j, at) = small(text, at, MAX_NUMS - 1)?;
    let command = PackedCommand::new(&Command::Read { s, j });
    Some((command, line_end(text, at)?))
}

#[inline(always)]
fn write(text: &[u8]) -> Option<(PackedCommand, usize)>
    requires { LINE_BYTES ≤ length text.now }
    ensures { IfSome result (λ x. IsFirstLine x.0 text.now x.1) }
{
    let (s, at) = register(text, word(text, b"write")?)?;
    let (j, at) = small(text, at, MAX_NUMS - 1)?;
    let (n, at) = value(text, at)?;
    let command = PackedCommand::new(&Command::Write { s, j, n });
    Some((command, line_end(text, at)?))
}

#[inline(always)]
fn add(text: &[u8]) -> Option<(PackedCommand, usize)>
    requires { LINE_BYTES ≤ length text.now }
    ensures { IfSome result (λ x. IsFirstLine x.0 text.now x.1) }
{
    let (s, at) = register(text, word(text, b"add")?)?;
    let (j, at) = small(text, at, MAX_NUMS - 1)?;
    let (n, at) = value(text, at)?;
    let command = PackedCommand::new(&Command::Add { s, j, n });
    Some((command, line_end(text, at)?))
}

#[inline(always)]
fn swap(text: &[u8]) -> Option<(PackedCommand, usize)>
    requires { LINE_BYTES ≤ length text.now }
    ensures { IfSome result (λ x. IsFirstLine x.0 text.now x.1) }
{
    let (s, at) = register(text, word(text, b"swap")?)?;
    let (j, at) = small(text, at, MAX_NUMS - 1)?;
    let (was, at) = value(text, at)?;
    let (next, at) = value(text, at)?;
    let command = PackedCommand::new(&Command::Swap { s, j, was, next });
    Some((command, line_end(text, at)?))
}

#[inline(always)]
fn copy(text: &[u8]) -> Option<(PackedCommand, usize)>
    requires { LINE_BYTES ≤ length text.now }
    ensures { IfSome result (λ x. IsFirstLine x.0 text.now x.1) }
{
    let (d, at) = register(text, word(text, b"move")?)?;
    let (s, at) = register(text, at)?;
    let command = PackedCommand::new(&Command::Move { d, s });
    Some((command, line_end(text, at)?))
}

#[inline(always)]
fn drop_register(text: &[u8]) -> Option<(PackedCommand, usize)>
    requires { LINE_BYTES ≤ length text.now }
    ensures { IfSome result (λ x. IsFirstLine x.0 text.now x.1) }
{
    let (s, at) = register(text, word(text, b"drop")?)?;
    let command = PackedCommand::new(&Command::DropReg { s });
    Some((command, line_end(text, at)?))
}

#[inline(always)]
fn load(text: &[u8]) -> Option<(PackedCommand, usize)>
    requires { LINE_BYTES ≤ length text.now }
    ensures { IfSome result (λ x. IsFirstLine x.0 text.now x.1) }
{
    let (d, at) = register(text, word(text, b"load")?)?;
    let (g, at) = global(text, at)?;
    let command = PackedCommand::new(&Command::Load { d, g });
    Some((command, line_end(text, at)?))
}

#[inline(always)]
fn share(text: &[u8]) -> Option<(PackedCommand, usize)>
    requires { LINE_BYTES ≤ length text.now }
    ensures { IfSome result (λ x. IsFirstLine x.0 text.now x.1) }
{
    let (g, at) = global(text, word(text, b"share")?)?;
    let (s, at) = register(text, at)?;
    let command = PackedCommand::new(&Command::Share { g, s });
    Some((command, line_end(text, at)?))
}

#[inline(always)]
fn pin(text: &[u8]) -> Option<(PackedCommand, usize)>
    requires { LINE_BYTES ≤ length text.now }
    ensures { IfSome result (λ x. IsFirstLine x.0 text.now x.1) }
{
    let (s, at) = register(text, word(text, b"pin")?)?;
    let command = PackedCommand::new(&Command::Pin { s });
    Some((command, line_end(text, at)?))
}

#[inline(always)]
fn unpin(text: &[u8]) -> Option<(PackedCommand, usize)>
    requires { LINE_BYTES ≤ length text.now }
    ensures { IfSome result (λ x. IsFirstLine x.0 text.now x.1) }
{
    let (s, at) = register(text, word(text, b"unpin")?)?;
    let command = PackedCommand::new(&Command::Unpin { s });
    Some((command, line_end(text, at)?))
}

/// The fast reader: the command of the first line, and the offset of the next one. `None` if the
/// line is bad or the text has fewer than 64 bytes, as no line that is good has more.
pub fn first_command(text: &[u8]) -> Option<(PackedCommand, usize)>
    ensures { IfSome result (λ x. IsFirstLine x.0 text.now x.1) }
{
    if text.len() < LINE_BYTES {
        return None;
    }
    let second = text[1];
    match text[0] {
        b'n' => new(text),
        b'g' if second == b'e' => get(text),
        b'g' => Some((PackedCommand::new(&Command::Gc), word(text, b"gc\n")?)),
        b'p' if second == b'u' => put(text),
        b'p' => pin(text),
        b'r' => read(text),
        b'w' => write(text),
        b'a' => add(text),
        b's' if second == b'w' => swap(text),
        b's' => share(text),
        b'm' if second == b'o' => copy(text),
        b'm' => Some((PackedCommand::new(&Command::Meet), word(text, b"meet\n")?)),
        b'd' => drop_register(text),
        b'l' => load(text),
        b'u' => unpin(text),
        _ => None,
    }
}
