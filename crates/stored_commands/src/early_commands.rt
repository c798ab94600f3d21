//! The commands of a trace that come before those in 4 bytes.

ghost use Rattle.std.specs.Prelude.{◌≡◌, ◌<◌, ◌^◌, ◌++◌, ◌∷◌, [], length, get_or, IfOk, OnOk};
ghost use Rattle.ideal_heap.specs.declared.command.Command.TheVariants.{Gc};
ghost use Rattle.stored_commands.specs.Made.{made_trace};

use crate::made_commands::MadeCommands;
use crate::wide_commands::WideCommands;
use ideal_heap::Command;
use std::alloc::{AllocError, Global};
use std::marker::Model;

/// A list of commands: a made trace, and then commands in 8 bytes or in full. Clauses see it as the
/// list.
#[derive(Debug, Drop)]
pub(crate) struct EarlyCommands {
    made: MadeCommands,
    wide: WideCommands,
    // The number of both.
    count: usize,
}

impl Model for EarlyCommands {
    ghost use Rattle.std.specs.Prelude.{◌≡◌, ◌<◌, ◌+◌, ◌^◌, ◌++◌, List, length};
    ghost use Rattle.ideal_heap.specs.declared.command.Command.{Command};

    ghost Value = { List Command };

    ghost view = { λ e. e.made ++ e.wide };

    ghost invariant = { λ e. (e.count ≡ length e.made + length e.wide) × (e.count < 2 ^ 63) };
}

impl EarlyCommands {
    /// No command.
    pub(crate) fn none(alloc: Global) -> EarlyCommands
        ensures { result ≡ [] }
    {
        EarlyCommands {
            made: MadeCommands::none(alloc),
            wide: WideCommands::new(alloc),
            count: 0,
        }
    }

    /// The made trace of `count` commands.
    ///
    /// Fails if memory runs out.
    pub(crate) fn made(alloc: Global, count: u32) -> Result<EarlyCommands, AllocError>
        ensures { IfOk result (λ e. e ≡ made_trace count) }
    {
        let made = MadeCommands::new(alloc, count)?;
        let count = made.len();
        Ok(EarlyCommands {
            made,
            wide: WideCommands::new(alloc),
            count,
        })
    }

    /// The number of commands.
    #[inline(always)]
    pub(crate) fn len(&self) -> usize
        ensures count { result ≡ length self.now }
        ensures small { result < 2 ^ 63 }
    {
        self.count
    }

    /// Adds a command.
    ///
    /// Fails if memory runs out, or if the numbers of 2 ^ 32 commands are not narrow.
    pub(crate) fn push(&mut self, command: Command) -> Result<(), AllocError>
        ensures { OnOk result (self.new ≡ self.old ++ command ∷ []) }
    {
        let pushed = self.wide.push(command);
        self.count = self.made.len() + self.wide.len();
        pushed
    }

    /// Draws a made command with this index and some after it, if a stretch begins with it.
    #[inline(always)]
    pub(crate) fn prepare(&mut self, k: usize)
        ensures { self.new ≡ self.old }
    {
        self.made.prepare(k);
    }

    /// The command with this index, from 0 on, `gc` if there are fewer.
    #[tactic(auto, using(crate::proofs::Parts::in_first, crate::proofs::Parts::in_second))]
    #[inline(always)]
    pub(crate) fn command(&self, k: usize) -> Command
        ensures { result ≡ get_or self.now k Gc }
    {
        let first = self.made.len();
        if k < first {
            return self.made.command(k);
        }
        self.wide.command(k - first)
    }
}
