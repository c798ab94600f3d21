//! A command of a trace, where it is stored.

ghost use Rattle.std.specs.Prelude.{◌≡◌};

use crate::stored_trace::StoredTrace;
use ideal_heap::Command;
use std::marker::Model;

/// A command where its trace stores it. Clauses see it as the command.
#[derive(Debug, Drop)]
pub struct StoredCommand<'a> {
    pub(crate) trace: &'a StoredTrace,
    pub(crate) index: usize,
}

impl<'a> Model for StoredCommand<'a> {
    ghost use Rattle.std.specs.Prelude.{get_or};
    ghost use Rattle.ideal_heap.specs.declared.command.Command.{Command};
    ghost use Rattle.ideal_heap.specs.declared.command.Command.TheVariants.{Gc};

    ghost Value = { Command };

    ghost view = { λ c. get_or c.trace.now c.index Gc };
}

impl<'a> StoredCommand<'a> {
    /// The command.
    #[inline(always)]
    pub fn command(&self) -> Command
        ensures { result ≡ self.now }
    {
        self.trace.command(self.index)
    }
}
