//! The row of a heap with its mutators, and the words of the mutator whose turn it is.
//!
//! Called by the steps and the search; a call of the world sets `turn` before it makes steps.
//! `mutators` and `seats` have the same length, and `notes` and `flags` an element for each block.
//! A block is in `owned` as long as its note is Owned. A flag is set before an object of its block
//! is logged, and never cleared. `fill`, `young`, `allowance` and `counts` never change.

ghost use Rattle.std.specs.Prelude.{◌≡◌, ◌≢◌, ◌+◌, ◌<◌, ◌≤◌, slice_set, slice_index};
ghost use Rattle.object_model.specs.Objects.{state_of};
ghost use Rattle.plain_row.specs.Rows.{IsTurn, address_at, number_at_turn, SetsRegister};

use block_regions::BlockNote;
use heap_layout::Kind;
use ideal_heap::REGISTERS;
use local_allocators::LocalSeat;
use mutator_calls::Mutator;
use object_model::Row;
use plan_api::BlockCounts;

/// A heap's row with the mutators that use it in turns.
#[derive(Debug, Drop)]
pub struct PlainRow {
    /// The heap.
    pub row: Row,
    /// The mutators.
    pub mutators: Vec<Mutator>,
    /// The seat of each mutator.
    pub seats: Vec<LocalSeat>,
    /// The mutator that makes the steps, by its place in the list.
    pub turn: usize,
    /// A note for each block.
    pub notes: Vec<BlockNote>,
    /// The blocks that mutators own, each once. There is room for all blocks.
    pub owned: Vec<u32>,
    /// A flag for each block: set if an object of it may be logged.
    pub flags: Vec<bool>,
    /// The counts of the blocks as the epoch began.
    pub counts: BlockCounts,
    /// The kind of the blocks that mutators fill.
    pub fill: Kind,
    /// Whether the plan is generational.
    pub young: bool,
    /// The number of Free blocks that mutators may take in the epoch.
    pub allowance: u32,
}

impl PlainRow {
    /// The number of the mutator.
    pub(crate) fn number(&self) -> u32
        requires { IsTurn self.now }
        ensures { result ≡ number_at_turn self.now }
    {
        self.mutators[self.turn].number
    }

    /// The address in register `s`.
    pub(crate) fn register(&self, s: u32) -> u32
        requires turn { IsTurn self.now }
        requires register { s < REGISTERS }
        ensures { result ≡ address_at self.now s }
    {
        self.mutators[self.turn].registers[s as usize]
    }

    /// Stores an address into register `d`.
    pub(crate) fn set_register(&mut self, d: u32, address: u32)
        requires turn { IsTurn self.old }
        requires register { d < REGISTERS }
        ensures { SetsRegister self.old self.new d address }
    {
        self.mutators[self.turn].registers[d as usize] = address;
    }
}
