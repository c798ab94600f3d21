//! Commands, read from the words of their arguments.

ghost use Rattle.std.specs.Prelude.{◌≡◌};
ghost use Rattle.trace_text.specs.declared.op.Op.TheVariants as ops;
ghost use Rattle.trace_text.specs.Grammar.{with_op};
ghost use Rattle.trace_text.specs.Parts.{words_after};

use crate::arity::{four, none, one, three, two};
use crate::fault::Why;
use crate::numerals::{global, num_count, num_index, ref_count, ref_index, register, value};
use crate::op::Op;
use ideal_heap::Command;

type Words<'a> = Option<&'a [u8]>;

fn new(words: Words) -> Result<Command, Why>
    ensures { result ≡ with_op ops.New (words_after words.entry) }
{
    let (d, refs, nums) = three(words)?;
    Ok(Command::New {
        d: register(d)?,
        refs: ref_count(refs)?,
        nums: num_count(nums)?,
    })
}

fn get(words: Words) -> Result<Command, Why>
    ensures { result ≡ with_op ops.Get (words_after words.entry) }
{
    let (d, s, i) = three(words)?;
    Ok(Command::Get {
        d: register(d)?,
        s: register(s)?,
        i: ref_index(i)?,
    })
}

fn put(words: Words) -> Result<Command, Why>
    ensures { result ≡ with_op ops.Put (words_after words.entry) }
{
    let (s, i, v) = three(words)?;
    Ok(Command::Put {
        s: register(s)?,
        i: ref_index(i)?,
        v: register(v)?,
    })
}

fn read(words: Words) -> Result<Command, Why>
    ensures { result ≡ with_op ops.Read (words_after words.entry) }
{
    let (s, j) = two(words)?;
    Ok(Command::Read {
        s: register(s)?,
        j: num_index(j)?,
    })
}

fn write(words: Words) -> Result<Command, Why>
    ensures { result ≡ with_op ops.Write (words_after words.entry) }
{
    let (s, j, n) = three(words)?;
    Ok(Command::Write {
        s: register(s)?,
        j: num_index(j)?,
        n: value(n)?,
    })
}

fn add(words: Words) -> Result<Command, Why>
    ensures { result ≡ with_op ops.Add (words_after words.entry) }
{
    let (s, j, n) = three(words)?;
    Ok(Command::Add {
        s: register(s)?,
        j: num_index(j)?,
        n: value(n)?,
    })
}

fn swap(words: Words) -> Result<Command, Why>
    ensures { result ≡ with_op ops.Swap (words_after words.entry) }
{
    let (s, j, was, next) = four(words)?;
    Ok(Command::Swap {
        s: register(s)?,
        j: num_index(j)?,
        was: value(was)?,
        next: value(next)?,
    })
}

fn load(words: Words) -> Result<Command, Why>
    ensures { result ≡ with_op ops.Load (words_after words.entry) }
{
    let (d, g) = two(words)?;
    Ok(Command::Load {
        d: register(d)?,
        g: global(g)?,
    })
}

fn share(words: Words) -> Result<Command, Why>
    ensures { result ≡ with_op ops.Share (words_after words.entry) }
{
    let (g, s) = two(words)?;
    Ok(Command::Share {
        g: global(g)?,
        s: register(s)?,
    })
}

fn copy(words: Words) -> Result<Command, Why>
    ensures { result ≡ with_op ops.Move (words_after words.entry) }
{
    let (d, s) = two(words)?;
    Ok(Command::Move {
        d: register(d)?,
        s: register(s)?,
    })
}

// The command of this operation, with the words as its arguments.
pub(crate) fn command(op: Op, words: Words) -> Result<Command, Why>
    ensures { result ≡ with_op op (words_after words.entry) }
{
    match op {
        Op::New => new(words),
        Op::Get => get(words),
        Op::Put => put(words),
        Op::Read => read(words),
        Op::Write => write(words),
        Op::Add => add(words),
        Op::Swap => swap(words),
        Op::Move => copy(words),
        Op::DropReg => Ok(Command::DropReg {
            s: register(one(words)?)?,
        }),
        Op::Load => load(words),
        Op::Share => share(words),
        Op::Pin => Ok(Command::Pin {
            s: register(one(words)?)?,
        }),
        Op::Unpin => Ok(Command::Unpin {
            s: register(one(words)?)?,
        }),
        Op::Gc => {
            none(words)?;
            Ok(Command::Gc)
        }
        Op::Meet => {
            none(words)?;
            Ok(Command::Meet)
        }
    }
}
