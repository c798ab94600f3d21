//! The lines of a trace, read as commands.

ghost use Rattle.std.specs.Prelude.{◌≡◌, ◌<◌, [], length, IfSome, MatchOption};
ghost use Rattle.trace_text.specs.Ops.{field_ops, root_ops};
ghost use Rattle.trace_text.specs.Words.{all_ops};
ghost use Rattle.trace_text.specs.Parts.{IsReadAs};
ghost use Rattle.trace_text.specs.Grammar.{line, lines_of, op_of as read_op};

use crate::commands::command;
use crate::fault::Why;
use crate::op::Op;
use crate::splitter::{next_line, next_part};
use ideal_heap::Command;

// The operation that the word names, if it works on an object's fields or makes one.
fn field_op_of(word: &[u8]) -> Option<Op>
    ensures { result ≡ read_op field_ops word.now }
{
    if word == b"new".as_slice() {
        Some(Op::New)
    } else if word == b"get".as_slice() {
        Some(Op::Get)
    } else if word == b"put".as_slice() {
        Some(Op::Put)
    } else if word == b"read".as_slice() {
        Some(Op::Read)
    } else if word == b"write".as_slice() {
        Some(Op::Write)
    } else if word == b"add".as_slice() {
        Some(Op::Add)
    } else if word == b"swap".as_slice() {
        Some(Op::Swap)
    } else {
        None
    }
}

// The operation that the word names, if it works on roots or pins, or stops.
fn root_op_of(word: &[u8]) -> Option<Op>
    ensures { result ≡ read_op root_ops word.now }
{
    if word == b"move".as_slice() {
        Some(Op::Move)
    } else if word == b"drop".as_slice() {
        Some(Op::DropReg)
    } else if word == b"load".as_slice() {
        Some(Op::Load)
    } else if word == b"share".as_slice() {
        Some(Op::Share)
    } else if word == b"pin".as_slice() {
        Some(Op::Pin)
    } else if word == b"unpin".as_slice() {
        Some(Op::Unpin)
    } else if word == b"gc".as_slice() {
        Some(Op::Gc)
    } else if word == b"meet".as_slice() {
        Some(Op::Meet)
    } else {
        None
    }
}

// The operation that the word names.
fn op_of(word: &[u8]) -> Option<Op>
    ensures { result ≡ read_op all_ops word.now }
{
    field_op_of(word).or(root_op_of(word))
}

/// The plain reader: the command of a line without its newline, or its first fault from the left.
#[tactic(auto, unfolding(crate::specs::Grammar::line))]
pub fn command_of(bytes: &[u8]) -> Result<Command, Why>
    ensures { result ≡ line all_ops bytes.now }
{
    let (word, words) = next_part(bytes, b' ');
    match op_of(word) {
        Some(op) => command(op, words),
        None => Err(Why::Word),
    }
}

// The result of reading the first line, and the text after the line. `None` if the text is empty.
pub(crate) fn next_command(text: &[u8]) -> Option<(Result<Command, Why>, &[u8])>
    ensures lines { MatchOption result (lines_of text.now ≡ [])
        (λ x. IsReadAs text.now x.0 x.1.now) }
    ensures shorter { IfSome result (λ x. length x.1.now < length text.now) }
{
    let (line, rest) = next_line(text)?;
    Some((command_of(line), rest))
}
