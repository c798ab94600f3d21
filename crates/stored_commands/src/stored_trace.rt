//! The type of a trace that is kept.

ghost use Rattle.std.specs.Prelude.{◌≡◌, ◌++◌, ◌∷◌, [], None, Some, length, slice_get, get_or, IfOk, MatchOption, OnOk};
ghost use Rattle.ideal_heap.specs.declared.command.Command.TheVariants.{Gc};
ghost use Rattle.stored_commands.specs.Made.{made_trace};

use crate::early_commands::EarlyCommands;
use crate::packed_command::{Packed, PackedCommand};
use crate::short_commands::ShortCommands;
use crate::stored_command::StoredCommand;
use ideal_heap::Command;
use std::alloc::{AllocError, Global};
use std::marker::Model;

/// A list of commands. A short command takes 4 bytes, one with more bits 12, and any other 44. Those
/// of a made trace take none. Clauses see it as the list.
#[derive(Debug, Drop)]
pub struct StoredTrace {
    // The first commands.
    early: EarlyCommands,
    // The others.
    short: ShortCommands,
}

impl Model for StoredTrace {
    ghost use Rattle.std.specs.Prelude.{List, ◌++◌};
    ghost use Rattle.ideal_heap.specs.declared.command.Command.{Command};

    ghost Value = { List Command };

    ghost view = { λ t. t.early ++ t.short };
}

// Adds all of these commands.
fn add_all(to: &mut EarlyCommands, commands: &ShortCommands) -> Result<(), AllocError>
    ensures { OnOk result (to.new ≡ to.old ++ commands.now) }
{
    for k in 0..commands.len() {
        to.push(commands.command(k))?;
    }
    Ok(())
}

impl StoredTrace {
    /// No command.
    pub fn new(alloc: Global) -> StoredTrace
        ensures { result ≡ [] }
    {
        StoredTrace {
            early: EarlyCommands::none(alloc),
            short: ShortCommands::new(alloc),
        }
    }

    /// The made trace of `count` commands, which are drawn as they are prepared.
    ///
    /// Fails if memory runs out.
    pub fn made(alloc: Global, count: u32) -> Result<StoredTrace, AllocError>
        ensures { IfOk result (λ t. t ≡ made_trace count) }
    {
        let early = EarlyCommands::made(alloc, count)?;
        Ok(StoredTrace {
            early,
            short: ShortCommands::new(alloc),
        })
    }

    /// The number of commands.
    #[inline(always)]
    pub fn len(&self) -> usize
        ensures { result ≡ length self.now }
    {
        self.early.len() + self.short.len()
    }

    /// Takes the memory for so many short commands, unless some was taken before.
    ///
    /// Fails if memory runs out.
    pub fn reserve(&mut self, count: usize) -> Result<(), AllocError>
        ensures { self.new ≡ self.old }
    {
        self.short.reserve(count)
    }

    // Makes room for one more command that does not fit into 4 bytes.
    fn make_room(&mut self) -> Result<(), AllocError>
        ensures { OnOk result (self.new ≡ self.old) }
    {
        if self.short.is_full() {
            add_all(&mut self.early, &self.short)?;
            self.short.clear();
        }
        Ok(())
    }

    // Adds a command that is not in 4 bytes.
    #[tactic(auto, using(crate::proofs::Parts::added_second))]
    #[cold]
    #[inline(never)]
    fn push_long(&mut self, command: Command) -> Result<(), AllocError>
        ensures { OnOk result (self.new ≡ self.old ++ command ∷ []) }
    {
        self.make_room()?;
        self.short.push_long(command)
    }

    /// Adds a command.
    ///
    /// Fails if memory runs out, or if the numbers of 2 ^ 32 commands are not narrow.
    #[tactic(auto, using(crate::proofs::Parts::added_second))]
    #[inline(always)]
    pub fn push(&mut self, command: PackedCommand) -> Result<(), AllocError>
        ensures { OnOk result (self.new ≡ self.old ++ command ∷ []) }
    {
        match command.packed {
            Packed::Short(short) => self.short.push_short(short),
            Packed::Long(command) => self.push_long(command),
        }
    }

    /// Draws a made command with this index and some after it, if a stretch begins with it: so each
    /// command in turn is drawn once. Any other takes no time.
    #[inline(always)]
    pub fn prepare(&mut self, k: usize)
        ensures { self.new ≡ self.old }
    {
        self.early.prepare(k);
    }

    /// The command with this index, from 0 on, `gc` if there are fewer.
    #[tactic(auto, using(crate::proofs::Parts::in_first, crate::proofs::Parts::in_second))]
    #[inline(always)]
    pub(crate) fn command(&self, k: usize) -> Command
        ensures { result ≡ get_or self.now k Gc }
    {
        let first = self.early.len();
        if k < first {
            return self.early.command(k);
        }
        self.short.command(k - first)
    }

    /// The command with this index, from 0 on, `None` if there are fewer. A made one takes as long
    /// as all before it, unless it was prepared.
    #[tactic(auto, using(crate::proofs::Parts::is_within, crate::proofs::Parts::is_past))]
    #[inline(always)]
    pub fn get(&self, k: usize) -> Option<StoredCommand<'_>>
        ensures { MatchOption result (slice_get self.now k ≡ None)
            (λ c. slice_get self.now k ≡ Some c) }
    {
        if k < self.len() {
            return Some(StoredCommand {
                trace: self,
                index: k,
            });
        }
        None
    }
}
