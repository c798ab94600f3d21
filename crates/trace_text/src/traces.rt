//! The printer of traces.

ghost use Rattle.std.specs.Prelude.{◌≡◌, ◌≤◌, ℕ, List, [], ◌∷◌, ◌++◌, All, OnOk, IfOk, length};
ghost use Rattle.std.specs.List.{flat_map};
ghost use Rattle.ideal_heap.specs.Commands.{IsValid};
ghost use Rattle.trace_text.specs.Arguments.{argument_bytes};
ghost use Rattle.trace_text.specs.Grammar.{trace};
ghost use Rattle.trace_text.specs.Text.{command_text, ended, trace_text};

use crate::argument::Argument;
use crate::limits::MAX_COMMANDS;
use ideal_heap::Command;
use itoa::Buffer;
use std::alloc::{AllocError, Global};

// Appends a space and the argument.
fn push_argument(argument: Argument, to: &mut Vec<u8>) -> Result<(), AllocError>
    ensures { OnOk result (to.new.items ≡ to.old.items ++ argument_bytes argument) }
{
    let (letter, number): (&[u8], u64) = match argument {
        Argument::Register(n) => (b" r", u64::from(n)),
        Argument::Global(n) => (b" g", u64::from(n)),
        Argument::Small(n) => (b" ", u64::from(n)),
        Argument::Value(n) => (b" ", n),
    };
    to.extend_from_slice(letter)?;
    to.extend_from_slice(Buffer::new().format(number).as_bytes())
}

// Appends the word, the arguments and a newline.
fn push_line(word: &[u8], arguments: &[Argument], to: &mut Vec<u8>) -> Result<(), AllocError>
    ensures { OnOk result (to.new.items
        ≡ to.old.items ++ ended (word.now ++ flat_map argument_bytes arguments.now)) }
{
    to.extend_from_slice(word)?;
    for argument in arguments {
        push_argument(*argument, to)?;
    }
    to.push(b'\n')?;
    Ok(())
}

// Appends the command's line.
fn push_command(command: &Command, to: &mut Vec<u8>) -> Result<(), AllocError>
    ensures { OnOk result (to.new.items ≡ to.old.items ++ ended (command_text command.now)) }
{
    use Argument::{Global, Register, Small, Value};
    match *command {
        Command::New { d, refs, nums } => push_line(
            b"new",
            &[Register(d), Small(refs), Small(nums)],
            to,
        ),
        Command::Get { d, s, i } => push_line(b"get", &[Register(d), Register(s), Small(i)], to),
        Command::Put { s, i, v } => push_line(b"put", &[Register(s), Small(i), Register(v)], to),
        Command::Read { s, j } => push_line(b"read", &[Register(s), Small(j)], to),
        Command::Write { s, j, n } => push_line(b"write", &[Register(s), Small(j), Value(n)], to),
        Command::Add { s, j, n } => push_line(b"add", &[Register(s), Small(j), Value(n)], to),
        Command::Swap { s, j, was, next } => push_line(
            b"swap",
            &[Register(s), Small(j), Value(was), Value(next)],
            to,
        ),
        Command::Move { d, s } => push_line(b"move", &[Register(d), Register(s)], to),
        Command::DropReg { s } => push_line(b"drop", &[Register(s)], to),
        Command::Load { d, g } => push_line(b"load", &[Register(d), Global(g)], to),
        Command::Share { g, s } => push_line(b"share", &[Global(g), Register(s)], to),
        Command::Pin { s } => push_line(b"pin", &[Register(s)], to),
        Command::Unpin { s } => push_line(b"unpin", &[Register(s)], to),
        Command::Gc => push_line(b"gc", &[], to),
        Command::Meet => push_line(b"meet", &[], to),
    }
}

// The text of a trace, valid or not.
pub(crate) fn text_of(alloc: Global, commands: &[Command]) -> Result<Vec<u8>, AllocError>
    ensures { IfOk result (λ v. v.items ≡ trace_text commands.now) }
{
    let mut text = Vec::from_slice(alloc, b"mmtrace 1\n")?;
    for command in commands {
        push_command(command, &mut text)?;
    }
    Ok(text)
}

/// Prints the commands in the format that `read_trace` reads. Each line ends with a newline.
///
/// Errors: out of memory.
pub fn print_trace(alloc: Global, commands: &[Command]) -> Result<Vec<u8>, AllocError>
    requires valid { All IsValid commands.now }
    requires few { length commands.now ≤ MAX_COMMANDS }
    ensures text { IfOk result (λ v. v.items ≡ trace_text commands.now) }
    ensures again { IfOk result (λ v. trace v.items ≡ Ok commands.now) }
    // No other text that ends with a newline is read as these commands.
    ensures alone { (other : List ℕ) → trace (other ++ 10 ∷ []) ≡ Ok commands.now
        → IfOk result (λ v. v.items ≡ other ++ 10 ∷ []) }
{
    text_of(alloc, commands)
}
