//! The operations of the ideal heap.

use crate::command::Command;
use crate::plain::Ideal;
use crate::reply::Reply;
use crate::tables::Tables;
use std::alloc::{AllocError, Global};

impl Ideal {
    ghost use Rattle.std.specs.Prelude.{◌≡◌, ◌<◌, ◌≤◌, IfOk, OnErr, MatchResult, IsTrue};
    ghost use Rattle.ideal_heap.specs.Commands.{IsValid, is_new};
    ghost use Rattle.ideal_heap.specs.declared.command.TheConstants.{MAX_MUTATORS};
    ghost use Rattle.ideal_heap.specs.Ideal.{empty, step};
    ghost use Rattle.ideal_heap.specs.Plain.{ideal_of, mutators_of};

    /// A heap of `mutators` mutators, 1 to `MAX_MUTATORS`, without objects. All registers and
    /// globals are nil. Fails if out of memory.
    #[tactic(auto, unfolding(crate::specs::Plain::ideal_of, crate::specs::Plain::mutators_of))]
    pub fn new(alloc: Global, mutators: u32) -> Result<Ideal, AllocError>
        requires least { 1 ≤ mutators }
        requires most { mutators ≤ MAX_MUTATORS }
        ensures empty { IfOk result (λ h. ideal_of h ≡ empty) }
        ensures mutators { IfOk result (λ h. mutators_of h ≡ mutators) }
    {
        let tables = Tables::new(alloc, mutators)?;
        Ok(Ideal { alloc, tables })
    }

    /// The number of objects that the mutator has allocated.
    #[tactic(auto, unfolding(crate::specs::Plain::ideal_of, crate::specs::Plain::mutators_of))]
    pub fn births(&self, mutator: u32) -> u32
        requires least { 1 ≤ mutator }
        requires most { mutator ≤ mutators_of self.now }
        ensures { result ≡ (ideal_of self.now).births mutator }
    {
        self.tables.births(mutator)
    }

    /// Executes a command of the mutator and returns the reply, which is never `Full`.
    /// Only `New` can run out of memory. The heap is then unchanged.
    #[tactic(auto, unfolding(crate::specs::Plain::ideal_of, crate::specs::Plain::mutators_of))]
    pub fn apply(&mut self, mutator: u32, command: &Command) -> Result<Reply, AllocError>
        requires least { 1 ≤ mutator }
        requires most { mutator ≤ mutators_of self.old }
        requires valid { IsValid command.now }
        requires room { IsTrue (is_new command.now)
            → (ideal_of self.old).births mutator < 4294967295 }
        ensures step { MatchResult result (λ r. (r, ideal_of self.new)
            ≡ step (ideal_of self.old) mutator command.now)
            (λ _. ideal_of self.new ≡ ideal_of self.old) }
        ensures memory { OnErr result (IsTrue (is_new command.now)) }
        ensures mutators { mutators_of self.new ≡ mutators_of self.old }
    {
        self.tables.apply(self.alloc, mutator, command)
    }
}

impl Tables {
    ghost use Rattle.std.specs.Prelude.{◌≡◌, ◌<◌, OnErr, MatchResult, IsTrue};
    ghost use Rattle.ideal_heap.specs.Tables.{tables_heap, HasMutator, mutator_count};
    ghost use Rattle.ideal_heap.specs.Commands.{IsValid, is_new};
    ghost use Rattle.ideal_heap.specs.Ideal.{IsClosed, step};

    /// Executes a command of the mutator on the tables.
    fn apply(&mut self, alloc: Global, mutator: u32, command: &Command) -> Result<Reply, AllocError>
        requires mutator { HasMutator self.old mutator }
        requires valid { IsValid command.now }
        requires room { IsTrue (is_new command.now)
            → (tables_heap self.old).births mutator < 4294967295 }
        requires closed { IsClosed (tables_heap self.old) }
        ensures step { MatchResult result (λ r. (r, tables_heap self.new)
            ≡ step (tables_heap self.old) mutator command.now)
            (λ _. tables_heap self.new ≡ tables_heap self.old) }
        ensures memory { OnErr result (IsTrue (is_new command.now)) }
        ensures count { mutator_count self.new ≡ mutator_count self.old }
    {
        Ok(match *command {
            Command::New { d, refs, nums } => Reply::New(self.create(
                alloc, mutator, d, refs, nums,
            )?),
            Command::Get { d, s, i } => self.get(mutator, d, s, i),
            Command::Put { s, i, v } => self.put(mutator, s, i, v),
            Command::Read { s, j } => self.read(mutator, s, j),
            Command::Write { s, j, n } => self.write(mutator, s, j, n),
            Command::Add { s, j, n } => self.add(mutator, s, j, n),
            Command::Swap { s, j, was, next } => self.swap(mutator, s, j, was, next),
            Command::Move { d, s } => self.copy_register(mutator, d, s),
            Command::DropReg { s } => self.drop_register(mutator, s),
            Command::Load { d, g } => self.load(mutator, d, g),
            Command::Share { g, s } => self.share(mutator, g, s),
            Command::Pin { s } => self.pin(mutator, s),
            Command::Unpin { s } => self.unpin(mutator, s),
            Command::Gc | Command::Meet => Reply::Done,
        })
    }
}
