//! Commands in 4 bytes, and those among them that do not fit.

ghost use Rattle.std.specs.Prelude.{◌≡◌, ◌<◌, ◌/◌, ◌%◌, ◌^◌, ◌++◌, ◌∷◌, [], None, length, get_or, OnOk};
ghost use Rattle.ideal_heap.specs.declared.command.Command.TheVariants.{Gc};
ghost use Rattle.stored_commands.specs.Forms.{command_beside, index_beside};

use crate::form::{DIGIT_UNIT, NUMBER_END, Op, Short, THIRD_END, THIRD_UNIT};
use crate::wide_commands::WideCommands;
use ideal_heap::Command;
use std::alloc::{AllocError, Global};
use std::marker::Model;

/// A list of commands. A short command takes 4 bytes, one with more bits 12, and any other 44: 4
/// in its place, and the rest in a list beside it. Clauses see it as the list.
#[derive(Debug, Drop)]
pub(crate) struct ShortCommands {
    shorts: Vec<Short>,
    // The commands that do not fit into 4 bytes.
    wide: WideCommands,
}

impl Model for ShortCommands {
    ghost use Rattle.std.specs.Prelude.{List, All, length, map};
    ghost use Rattle.ideal_heap.specs.declared.command.Command.{Command};
    ghost use Rattle.stored_commands.specs.Forms.{command_beside, IsAmong};

    ghost Value = { List Command };

    ghost view = { λ t. map (command_beside t.wide) t.shorts.items };

    ghost invariant = { λ t. All (IsAmong (length t.wide)) t.shorts.items };
}

// What stands for the command with this index among those that do not fit into 4 bytes.
#[inline(always)]
fn short_of_index(index: usize) -> Short
    requires { index / DIGIT_UNIT < THIRD_END }
    ensures { result ≡ record {
      op = Op.Other;
      pair = index % DIGIT_UNIT;
      third = index / DIGIT_UNIT;
    } }
{
    let unit = DIGIT_UNIT as usize;
    Short {
        op: Op::Other,
        pair: (index % unit) as u8,
        third: (index / unit) as u16,
    }
}

impl ShortCommands {
    /// No command.
    pub(crate) fn new(alloc: Global) -> ShortCommands
        ensures { result ≡ [] }
    {
        ShortCommands {
            shorts: Vec::new(alloc),
            wide: WideCommands::new(alloc),
        }
    }

    /// The number of commands.
    #[inline(always)]
    pub(crate) fn len(&self) -> usize
        ensures count { result ≡ length self.now }
        ensures small { result < 2 ^ 62 }
    {
        let shorts = self.shorts.as_slice();
        // So many bytes are a number.
        let _bytes = size_of_val(shorts);
        shorts.len()
    }

    /// Takes the memory for so many short commands, unless some was taken before.
    ///
    /// Fails if memory runs out.
    pub(crate) fn reserve(&mut self, count: usize) -> Result<(), AllocError>
        ensures { self.new ≡ self.old }
    {
        if self.shorts.capacity() > 0 {
            return Ok(());
        }
        self.shorts.reserve(count)
    }

    /// Whether no index is left for a command that does not fit into 4 bytes.
    pub(crate) fn is_full(&self) -> bool {
        self.wide.len() / DIGIT_UNIT as usize >= THIRD_END as usize
    }

    /// Forgets all commands.
    pub(crate) fn clear(&mut self)
        ensures { self.new ≡ [] }
    {
        self.shorts.clear();
        self.wide.clear();
    }

    /// Adds a command that is not in 4 bytes.
    ///
    /// Fails if memory runs out, or if no index is left.
    pub(crate) fn push_long(&mut self, command: Command) -> Result<(), AllocError>
        ensures { OnOk result (self.new ≡ self.old ++ command ∷ []) }
    {
        let index = self.wide.len();
        if index / DIGIT_UNIT as usize >= THIRD_END as usize {
            return Err(AllocError);
        }
        self.wide.push(command)?;
        self.shorts.push(short_of_index(index))?;
        Ok(())
    }

    /// Adds the command that 4 bytes stand for.
    #[inline(always)]
    pub(crate) fn push_short(&mut self, short: Short) -> Result<(), AllocError>
        requires { index_beside short ≡ None }
        ensures { OnOk result (self.new ≡ self.old ++ command_beside [] short ∷ []) }
    {
        self.shorts.push(short)?;
        Ok(())
    }

    /// The command with this index, from 0 on, `gc` if there are fewer.
    #[inline(always)]
    pub(crate) fn command(&self, k: usize) -> Command
        ensures { result ≡ get_or self.now k Gc }
    {
        match self.shorts.get(k) {
            Some(short) => command_at(short, &self.wide),
            None => Command::Gc,
        }
    }
}

// The command that 4 bytes stand for, beside those that do not fit.
#[inline(always)]
fn command_at(short: &Short, wide: &WideCommands) -> Command
    ensures { result ≡ command_beside wide.now short.now }
{
    let Short { op, pair, third } = short;
    let pair = u32::from(*pair);
    let third = u32::from(*third);
    let a = pair % NUMBER_END;
    let b = pair / NUMBER_END;
    match *op {
        Op::New => Command::New {
            d: a,
            refs: b,
            nums: third,
        },
        Op::Get => Command::Get {
            d: a,
            s: b,
            i: third,
        },
        Op::Put => Command::Put {
            s: a,
            i: third,
            v: b,
        },
        Op::Read => Command::Read { s: a, j: third },
        Op::Write => Command::Write {
            s: a,
            j: b + NUMBER_END * (third / THIRD_UNIT),
            n: u64::from(third % THIRD_UNIT),
        },
        Op::Add => Command::Add {
            s: a,
            j: b + NUMBER_END * (third / THIRD_UNIT),
            n: u64::from(third % THIRD_UNIT),
        },
        Op::Swap => Command::Swap {
            s: a,
            j: third % THIRD_UNIT,
            was: u64::from(b),
            next: u64::from(third / THIRD_UNIT),
        },
        Op::Move => Command::Move { d: a, s: b },
        Op::DropReg => Command::DropReg { s: a },
        Op::Load => Command::Load { d: a, g: b },
        Op::Share => Command::Share { g: a, s: b },
        Op::Pin => Command::Pin { s: a },
        Op::Unpin => Command::Unpin { s: a },
        Op::Gc => Command::Gc,
        Op::Meet => Command::Meet,
        Op::Other => wide.command((pair + DIGIT_UNIT * third) as usize),
    }
}
